// Which mark a text begins with.
ghost use Rattle.std.specs.Prelude.{◌≡◌, ◌≤◌, length, IfSome, IsTrue};
ghost use Rattle.dsl_lexer.specs.Marks.{mark_of, marks_from, mark_among as first_mark, mark_spelling, stands_alone as alone, begins as begins_with};

use crate::Sign;
use crate::letters::goes_on;
use crate::mark::Mark;

/// The longest mark that a text begins with.
#[tactic(auto, unfolding(crate::specs::Marks::mark_of))]
pub(crate) fn read_mark(text: &[u8]) -> Option<Mark>
    ensures value { result ≡ mark_of text.now }
    ensures within { IfSome result (λ m. length (mark_spelling m) ≤ length text.now) }
{
    match text {
        [first, ..] => mark_among(marks_with(*first), text),
        [] => None,
    }
}

/// The marks that begin with this byte, none before a longer one.
fn marks_with(first: u8) -> &'static [Mark]
    ensures { result.now ≡ marks_from first }
{
    match first {
        b'{' => &[Mark::LongString, Mark::Sign(Sign::OpenBrace)],
        b'!' => &[
            Mark::Sign(Sign::NotIn),
            Mark::Sign(Sign::NotEqual),
            Mark::Sign(Sign::Not),
        ],
        b'/' => &[
            Mark::DoubleSlash,
            Mark::BlockComment,
            Mark::Sign(Sign::DivideSet),
            Mark::Sign(Sign::Slash),
        ],
        b'+' => &[Mark::Sign(Sign::AddSet), Mark::Sign(Sign::Plus)],
        b'-' => &[Mark::Sign(Sign::SubtractSet), Mark::Sign(Sign::Minus)],
        b'*' => &[Mark::Sign(Sign::MultiplySet), Mark::Sign(Sign::Star)],
        b'=' => &[
            Mark::Sign(Sign::Arrow),
            Mark::Sign(Sign::Equal),
            Mark::Sign(Sign::Set),
        ],
        b'<' => &[
            Mark::Sign(Sign::AtMost),
            Mark::Sign(Sign::ShiftLeft),
            Mark::Sign(Sign::Less),
        ],
        b'>' => &[
            Mark::Sign(Sign::AtLeast),
            Mark::Sign(Sign::ShiftRight),
            Mark::Sign(Sign::Greater),
        ],
        b'&' => &[Mark::Sign(Sign::And), Mark::Sign(Sign::BitAnd)],
        b'|' => &[Mark::Sign(Sign::Or), Mark::Sign(Sign::BitOr)],
        b'#' => &[Mark::Hash],
        b'"' => &[Mark::Quote],
        b'(' => &[Mark::Sign(Sign::OpenParen)],
        b')' => &[Mark::Sign(Sign::CloseParen)],
        b'[' => &[Mark::Sign(Sign::OpenBracket)],
        b']' => &[Mark::Sign(Sign::CloseBracket)],
        b'}' => &[Mark::Sign(Sign::CloseBrace)],
        b'.' => &[Mark::Sign(Sign::Dot)],
        b',' => &[Mark::Sign(Sign::Comma)],
        b';' => &[Mark::Sign(Sign::Semicolon)],
        b'%' => &[Mark::Sign(Sign::Percent)],
        b'~' => &[Mark::Sign(Sign::Tilde)],
        b'^' => &[Mark::Sign(Sign::BitXor)],
        _ => &[],
    }
}

/// The first mark of these that a text begins with.
fn mark_among(marks: &[Mark], text: &[u8]) -> Option<Mark>
    ensures value { result ≡ first_mark marks.now text.now }
    ensures within { IfSome result (λ m. length (mark_spelling m) ≤ length text.now) }
{
    for mark in marks {
        if begins(*mark, text) {
            return Some(*mark);
        }
    }
    None
}

fn begins(mark: Mark, text: &[u8]) -> bool
    ensures value { result ≡ begins_with mark text.now }
    ensures within { IsTrue result → length (mark_spelling mark) ≤ length text.now }
{
    let spelling = mark.spelling().as_bytes();
    if !text.starts_with(spelling) {
        return false;
    }
    !(stands_alone(mark) && goes_on(&text[spelling.len()..]))
}

/// Whether no letter, digit or `_` may follow a mark.
fn stands_alone(mark: Mark) -> bool
    ensures { result ≡ alone mark }
{
    matches!(mark, Mark::Sign(Sign::NotIn))
}
