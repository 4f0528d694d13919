ghost use Rattle.std.specs.Prelude.{◌≡◌};
ghost use Rattle.dsl_lexer.specs.Marks.{mark_spelling};

use crate::Sign;

/// The bytes that a sign, a string or a comment begins with.
#[derive(Clone, Copy)]
pub(crate) enum Mark {
    Sign(Sign),
    /// `#` or `//`: a comment up to the newline.
    Hash,
    DoubleSlash,
    /// `/*`: a comment up to `*/`.
    BlockComment,
    /// `"`: a string on one line.
    Quote,
    /// `{{{`: a string up to `}}}`.
    LongString,
}

impl Mark {
    pub(crate) fn spelling(self) -> &'static str
        ensures { result.now ≡ mark_spelling self }
    {
        match self {
            Mark::Sign(sign) => sign.spelling(),
            Mark::Hash => "#",
            Mark::DoubleSlash => "//",
            Mark::BlockComment => "/*",
            Mark::Quote => "\"",
            Mark::LongString => "{{{",
        }
    }
}
