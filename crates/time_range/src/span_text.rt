// Which spans a text stands for.
ghost use Rattle.std.specs.Prelude.{◌≡◌, ◌<◌, ◌≤◌, length, drop, IfOk};
ghost use Rattle.std.specs.Option.{option_copied};
ghost use Rattle.std.specs.List.{prefix_len, list_all};
ghost use Rattle.time_range.specs.Spans.{is_blank, is_inner, span_of, span_between, IsPushed};
ghost use Rattle.time_range.specs.Spans.{first_piece, more_pieces, spans_of, pieces_spans};

use crate::clock::minute_at;
use site_base::{Day, DaySpan, OutOfMemory, Ranges};

/// The minutes of a day.
const DAY: u32 = 24 * 60;

/// The bytes of `HH:MM-HH:MM`.
const SPAN: usize = 11;

/// Adds the spans of a day that a text lists, joined by commas; the empty text lists none. Answers
/// whether it is such a text; if it is not, some of its spans may have been added.
pub fn push_spans(out: &mut Ranges, day: Day, text: &[u8]) -> Result<bool, OutOfMemory>
    ensures { IfOk result (λ taken. IsPushed taken out.old out.new (spans_of day text.now)) }
{
    if text.is_empty() {
        return Ok(true);
    }
    push_pieces(out, day, text)
}

/// The same of a text that lists one span at least.
fn push_pieces(out: &mut Ranges, day: Day, text: &[u8]) -> Result<bool, OutOfMemory>
    ensures { IfOk result (λ taken. IsPushed taken out.old out.new (pieces_spans day text.now)) }
{
    let mut rest = Some(text);
    while let Some(pieces) = rest {
        match span_of(day, first_piece(pieces)) {
            Some(span) => out.push(span)?,
            None => return Ok(false),
        }
        rest = more_pieces(pieces);
    }
    Ok(true)
}

/// What stands before the first comma, or all if there is none.
fn first_piece(text: &[u8]) -> &[u8]
    ensures { result.now ≡ first_piece text.now }
{
    &text[..comma(text)]
}

/// What stands behind the first comma, if there is one.
fn more_pieces(text: &[u8]) -> Option<&[u8]>
    ensures { option_copied result ≡ more_pieces text.now }
{
    let at = comma(text);
    if at < text.len() {
        Some(&text[at + 1..])
    } else {
        None
    }
}

/// How many bytes stand before the first comma.
fn comma(text: &[u8]) -> usize
    ensures value { result ≡ prefix_len is_inner text.now }
    ensures within { result ≤ length text.now }
{
    text.iter().take_while(|b| **b != b',').count()
}

/// The span that a piece of a text stands for.
#[tactic(auto, unfolding(crate::specs::Spans::span_at))]
fn span_of(day: Day, text: &[u8]) -> Option<DaySpan>
    ensures { result ≡ span_of day text.now }
{
    let body = without_blanks(text);
    if body.len() < SPAN || body[5] != b'-' || !are_blanks(&body[SPAN..]) {
        return None;
    }
    let from = minute_at(body, 0)?;
    let to = minute_at(body, 6)?;
    span_between(day, from, to)
}

/// The span from a minute of the day to another, where the first is before the other.
fn span_between(day: Day, from: u32, to: u32) -> Option<DaySpan>
    requires { to < 6000 }
    ensures { result ≡ span_between day from to }
{
    if from < to && to <= DAY {
        Some(DaySpan {
            day,
            from: from * 60,
            to: to * 60,
        })
    } else {
        None
    }
}

/// A text without the blanks at its front.
fn without_blanks(text: &[u8]) -> &[u8]
    ensures { result.now ≡ drop (prefix_len is_blank text.now) text.now }
{
    &text[blanks(text)..]
}

/// How many blanks stand at the front of a text.
fn blanks(text: &[u8]) -> usize
    ensures value { result ≡ prefix_len is_blank text.now }
    ensures within { result ≤ length text.now }
{
    text.iter().take_while(|b| is_blank(**b)).count()
}

fn are_blanks(text: &[u8]) -> bool
    ensures { result ≡ list_all is_blank text.now }
{
    text.iter().all(|b| is_blank(*b))
}

/// A space, a tab or a carriage return.
fn is_blank(byte: u8) -> bool
    ensures { result ≡ is_blank byte }
{
    byte == b' ' || byte == b'\t' || byte == b'\r'
}
