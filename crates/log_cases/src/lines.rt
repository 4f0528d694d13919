// The lines that are of no entry.
ghost use Rattle.std.specs.Prelude.{◌<◌, length};

use case_rows::push_marked;
use log_text::{print_missing, print_order, print_order_two, print_turn, version_line};
use site_base::{Moment, OutOfMemory, Text, Texts};
use site_model::Site;
use std::alloc::Global;
use std::str::SplitWhitespace;

/// Adds the line that a row asks for: that of a turn or of an order, in each version.
pub(crate) fn push_line(
    alloc: Global,
    out: &mut Text,
    word: &str,
    text: &str,
    site: &Site,
) -> Result<(), OutOfMemory> {
    let mut words = text.split_whitespace();
    match word {
        "version" => push_marked(out, version_line()),
        "turn" => push_turn(alloc, out, &mut words),
        "order" | "missing" => push_order(alloc, out, word == "order", &mut words, site),
        _ => out.push_str("no such word"),
    }
}

fn number(words: &mut SplitWhitespace<'_>) -> Option<u64> {
    words.next()?.parse::<u64>().ok()
}

fn place(words: &mut SplitWhitespace<'_>) -> Option<u32> {
    words.next()?.parse::<u32>().ok()
}

fn push_turn(
    alloc: Global,
    out: &mut Text,
    words: &mut SplitWhitespace<'_>,
) -> Result<(), OutOfMemory> {
    let (Some(turn), Some(secs)) = (number(words), number(words)) else {
        return out.push_str("no such turn");
    };
    let Some(moment) = Moment::of(secs) else {
        return out.push_str("no such moment");
    };
    push_marked(out, print_turn(alloc, turn, moment)?.as_str())
}

/// Adds an order with the words of its command, in both versions, or with the missing macro.
fn push_order(
    alloc: Global,
    out: &mut Text,
    has_words: bool,
    words: &mut SplitWhitespace<'_>,
    site: &Site,
) -> Result<(), OutOfMemory> {
    let (Some(order), Some(checkable)) = (number(words), place(words)) else {
        return out.push_str("no such order");
    };
    if checkable as usize >= site.checkables.len() {
        return out.push_str("no such checkable");
    }
    if has_words {
        push_in_one(alloc, out, order, checkable, site)?;
        out.push_str("  and  ")?;
        push_in_two(alloc, out, order, checkable, words, site)
    } else {
        push_missing(
            alloc,
            out,
            order,
            checkable,
            words.next().unwrap_or(""),
            site,
        )
    }
}

/// Adds an order of which a macro is missing.
fn push_missing(
    alloc: Global,
    out: &mut Text,
    order: u64,
    checkable: u32,
    name: &str,
    site: &Site,
) -> Result<(), OutOfMemory>
    requires { checkable < length site.now.checkables }
{
    let line = print_missing(alloc, order, checkable, name, site)?;
    push_marked(out, line.as_str())
}

/// Adds an order as version one has it.
fn push_in_one(
    alloc: Global,
    out: &mut Text,
    order: u64,
    checkable: u32,
    site: &Site,
) -> Result<(), OutOfMemory>
    requires { checkable < length site.now.checkables }
{
    let line = print_order(alloc, order, checkable, site)?;
    push_marked(out, line.as_str())
}

/// Adds an order as version two has it, with the words of its command.
fn push_in_two(
    alloc: Global,
    out: &mut Text,
    order: u64,
    checkable: u32,
    words: &mut SplitWhitespace<'_>,
    site: &Site,
) -> Result<(), OutOfMemory>
    requires { checkable < length site.now.checkables }
{
    let command = texts_of(alloc, words)?;
    let line = print_order_two(alloc, order, checkable, command.as_slice(), site)?;
    push_marked(out, line.as_str())
}

/// The words that are left.
fn texts_of(alloc: Global, words: &mut SplitWhitespace<'_>) -> Result<Texts, OutOfMemory> {
    let mut texts = Texts::new(alloc);
    for word in words {
        let text = Text::copy_of(alloc, word)?;
        texts.push(text)?;
    }
    Ok(texts)
}
