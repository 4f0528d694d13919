ghost use Rattle.std.specs.Prelude.{◌≡◌};
ghost use Rattle.dsl_lexer.specs.Signs.{sign_spelling};

/// A sign of the configuration language: an operator, a bracket or a separator.
///
/// See "Operators" in the chapter "Language Reference" of the Icinga 2 documentation.
#[derive(Clone, Copy, PartialEq, Eq)]
pub enum Sign {
    /// `!in`, only if no letter, digit or `_` follows
    NotIn,
    /// `+=`
    AddSet,
    /// `-=`
    SubtractSet,
    /// `*=`
    MultiplySet,
    /// `/=`
    DivideSet,
    /// `=>`
    Arrow,
    /// `==`
    Equal,
    /// `!=`
    NotEqual,
    /// `<=`
    AtMost,
    /// `>=`
    AtLeast,
    /// `<<`
    ShiftLeft,
    /// `>>`
    ShiftRight,
    /// `&&`
    And,
    /// `||`
    Or,
    /// `(`
    OpenParen,
    /// `)`
    CloseParen,
    /// `[`
    OpenBracket,
    /// `]`
    CloseBracket,
    /// `{`
    OpenBrace,
    /// `}`
    CloseBrace,
    /// `.`
    Dot,
    /// `,`
    Comma,
    /// `;`
    Semicolon,
    /// `=`
    Set,
    /// `+`
    Plus,
    /// `-`
    Minus,
    /// `*`
    Star,
    /// `/`
    Slash,
    /// `%`
    Percent,
    /// `!`
    Not,
    /// `~`
    Tilde,
    /// `<`
    Less,
    /// `>`
    Greater,
    /// `&`
    BitAnd,
    /// `^`
    BitXor,
    /// `|`
    BitOr,
}

impl Sign {
    /// How it is written.
    pub fn spelling(self) -> &'static str
        ensures { result.now ≡ sign_spelling self }
    {
        match self {
            Sign::NotIn => "!in",
            Sign::AddSet => "+=",
            Sign::SubtractSet => "-=",
            Sign::MultiplySet => "*=",
            Sign::DivideSet => "/=",
            Sign::Arrow => "=>",
            Sign::Equal => "==",
            Sign::NotEqual => "!=",
            Sign::AtMost => "<=",
            Sign::AtLeast => ">=",
            Sign::ShiftLeft => "<<",
            Sign::ShiftRight => ">>",
            Sign::And => "&&",
            Sign::Or => "||",
            Sign::OpenParen => "(",
            Sign::CloseParen => ")",
            Sign::OpenBracket => "[",
            Sign::CloseBracket => "]",
            Sign::OpenBrace => "{",
            Sign::CloseBrace => "}",
            Sign::Dot => ".",
            Sign::Comma => ",",
            Sign::Semicolon => ";",
            Sign::Set => "=",
            Sign::Plus => "+",
            Sign::Minus => "-",
            Sign::Star => "*",
            Sign::Slash => "/",
            Sign::Percent => "%",
            Sign::Not => "!",
            Sign::Tilde => "~",
            Sign::Less => "<",
            Sign::Greater => ">",
            Sign::BitAnd => "&",
            Sign::BitXor => "^",
            Sign::BitOr => "|",
        }
    }
}
