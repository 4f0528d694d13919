// Rows on books of downtimes.
ghost use Rattle.std.specs.Prelude.{◌≤◌, IfSome};

use downtime_book::Book;
use site_base::{Moment, OutOfMemory, Text};
use std::alloc::Global;
use std::str::SplitWhitespace;

/// Adds what the steps answer, one after another over one book.
pub(crate) fn push_book(alloc: Global, out: &mut Text, row: &str) -> Result<(), OutOfMemory> {
    let mut book = Book::new(alloc);
    push_steps(out, &mut book, row)
}

/// Adds what the steps answer, commas between.
fn push_steps(out: &mut Text, book: &mut Book, row: &str) -> Result<(), OutOfMemory> {
    let mut is_first = true;
    for step in row.split(';') {
        let mut words = step.split_whitespace();
        let word = words.next().unwrap_or("");
        if word == "add" {
            if !add(book, &mut words)? {
                return out.push_str("no such downtime");
            }
            continue;
        }
        if !is_first {
            out.push_str(", ")?;
        }
        is_first = false;
        push_step(out, book, word, &mut words)?;
    }
    Ok(())
}

/// The next word as a number.
fn number(words: &mut SplitWhitespace<'_>) -> Option<u64> {
    words.next()?.parse::<u64>().ok()
}

/// The next word as a moment.
fn moment(words: &mut SplitWhitespace<'_>) -> Option<Moment> {
    Moment::of(number(words)?)
}

/// The next word as a moment that isn't below the latest one of the book.
fn next_moment(book: &Book, words: &mut SplitWhitespace<'_>) -> Option<Moment>
    ensures { IfSome result (λ m. book.now.latest ≤ m) }
{
    let moment = moment(words)?;
    if moment < book.latest() {
        return None;
    }
    Some(moment)
}

/// Adds a downtime, if the words tell of one: its number, start and end, and `fixed` or a duration.
fn add(book: &mut Book, words: &mut SplitWhitespace<'_>) -> Result<bool, OutOfMemory> {
    let (Some(number), Some(start), Some(end)) = (number(words), moment(words), moment(words))
    else {
        return Ok(false);
    };
    let (fixed, duration) = match words.next() {
        Some("fixed") => (true, 77),
        Some(word) => (false, word.parse::<u64>().unwrap_or(0)),
        None => return Ok(false),
    };
    book.add(number, start, end, fixed, duration)?;
    Ok(true)
}

/// Adds what a step answers.
fn push_step(
    out: &mut Text,
    book: &mut Book,
    word: &str,
    words: &mut SplitWhitespace<'_>,
) -> Result<(), OutOfMemory> {
    match word {
        "keeps" if book.is_empty() => out.push_str("nothing"),
        "keeps" => out.push_decimal(book.len() as u64),
        "cancel" | "live" => push_about(out, book, word, words),
        _ => match next_moment(book, words) {
            Some(moment) => push_at(out, book, word, moment),
            None => out.push_str("no such step"),
        },
    }
}

/// Adds whether a downtime is live, or whether a cancel takes it away.
fn push_about(
    out: &mut Text,
    book: &mut Book,
    word: &str,
    words: &mut SplitWhitespace<'_>,
) -> Result<(), OutOfMemory> {
    let Some(number) = number(words) else {
        return out.push_str("no number");
    };
    let Some(moment) = next_moment(book, words) else {
        return out.push_str("no such step");
    };
    if word == "live" {
        return out.push_str(if book.is_live(number, moment) {
            "live"
        } else {
            "not live"
        });
    }
    let is_live = book.is_live(number, moment);
    match book.cancel(number, moment) {
        Ok(()) if is_live => out.push_str("cancelled"),
        Err(_) if !is_live => out.push_str("refused"),
        _ => out.push_str("cancelled otherwise than live"),
    }
}

/// Adds which downtime is in effect: now, once a problem came that the book doesn't take, or once
/// it took a result.
fn push_at(out: &mut Text, book: &mut Book, word: &str, moment: Moment) -> Result<(), OutOfMemory>
    requires { book.old.latest ≤ moment }
{
    match word {
        "at" => push_named(out, book.in_effect(moment)),
        "would" => push_named(out, book.in_effect_after(moment, true)),
        "ok" => push_result(out, book, moment, false),
        "problem" => push_result(out, book, moment, true),
        _ => out.push_str("no such step"),
    }
}

/// Adds which downtime is in effect after a result, as it was foretold.
fn push_result(
    out: &mut Text,
    book: &mut Book,
    moment: Moment,
    problem: bool,
) -> Result<(), OutOfMemory>
    requires { book.old.latest ≤ moment }
{
    let told = book.in_effect_after(moment, problem);
    book.on_result(moment, problem);
    let named = book.in_effect(moment);
    push_named(out, named)?;
    if told != named {
        out.push_str(" and not ")?;
        push_named(out, told)?;
    }
    Ok(())
}

fn push_named(out: &mut Text, number: Option<u64>) -> Result<(), OutOfMemory> {
    match number {
        Some(number) => out.push_decimal(number),
        None => out.push_str("none"),
    }
}
