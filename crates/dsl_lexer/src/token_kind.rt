use crate::{Sign, Word};
use site_base::{Num, Text};

/// What a token is, with what it stands for.
#[derive(Drop)]
pub enum TokenKind {
    /// A reserved word.
    Word(Word),
    /// An identifier: a letter or `_`, then letters, digits and `_`, no reserved word.
    Ident(Text),
    /// A number, with its unit counted in.
    Number(Num),
    /// The text that a string stands for: its escapes are replaced. A string between `{{{` and `}}}` has
    /// no escapes, and may go over several lines.
    Str(Text),
    /// An operator, a bracket or a separator.
    Sign(Sign),
    /// The end of a line, where the innermost open bracket is neither `(` nor `[`.
    NewLine,
    /// The end of the text, just behind its last byte.
    End,
}
