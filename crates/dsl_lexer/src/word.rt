ghost use Rattle.std.specs.Prelude.{◌≡◌};
ghost use Rattle.dsl_lexer.specs.Words.{word_spelling};

/// A reserved word of the configuration language. Each is written as its name in small letters, with
/// `_` between its parts: `IncludeRecursive` is `include_recursive`. No identifier is written as one of them. The
/// ones from `Try` on are reserved by Icinga 2 and begin nothing here.
///
/// See "Reserved Keywords" in the chapter "Language Reference" of the Icinga 2 documentation.
#[derive(Clone, Copy, PartialEq, Eq)]
pub enum Word {
    Object,
    Template,
    Apply,
    To,
    For,
    In,
    Use,
    Where,
    Assign,
    Ignore,
    Import,
    Include,
    IncludeRecursive,
    Const,
    Var,
    Function,
    Return,
    Break,
    Continue,
    If,
    Else,
    While,
    Throw,
    True,
    False,
    Null,
    This,
    Globals,
    Try,
    Except,
    Namespace,
    Using,
    Locals,
    Debugger,
    IgnoreOnError,
    Library,
    IncludeZones,
}

impl Word {
    /// How it is written.
    pub fn spelling(self) -> &'static str
        ensures { result.now ≡ word_spelling self }
    {
        match self {
            Word::Object => "object",
            Word::Template => "template",
            Word::Apply => "apply",
            Word::To => "to",
            Word::For => "for",
            Word::In => "in",
            Word::Use => "use",
            Word::Where => "where",
            Word::Assign => "assign",
            Word::Ignore => "ignore",
            Word::Import => "import",
            Word::Include => "include",
            Word::IncludeRecursive => "include_recursive",
            Word::Const => "const",
            Word::Var => "var",
            Word::Function => "function",
            Word::Return => "return",
            Word::Break => "break",
            Word::Continue => "continue",
            Word::If => "if",
            Word::Else => "else",
            Word::While => "while",
            Word::Throw => "throw",
            Word::True => "true",
            Word::False => "false",
            Word::Null => "null",
            Word::This => "this",
            Word::Globals => "globals",
            Word::Try => "try",
            Word::Except => "except",
            Word::Namespace => "namespace",
            Word::Using => "using",
            Word::Locals => "locals",
            Word::Debugger => "debugger",
            Word::IgnoreOnError => "ignore_on_error",
            Word::Library => "library",
            Word::IncludeZones => "include_zones",
        }
    }
}
