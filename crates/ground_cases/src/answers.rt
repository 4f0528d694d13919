// What a row asks for.
use crate::books::push_book;
use crate::numbers::{
    calculated, push_count, push_items_order, push_read, push_whole, push_written, seconds,
};
use crate::periods::push_inside;
use crate::ranges::push_ranges_of;
use crate::texts::{
    push_built, push_bytes, push_lists_order, push_memory, push_quote, push_texts_order,
};
use crate::trees::{push_copied, push_deep};
use crate::types::{push_row, push_type};
use crate::wheels::push_wheel;
use crate::zones::{push_file, push_instant};
use site_base::{OutOfMemory, Text};
use std::alloc::Global;

/// Adds the answer to a row.
pub(crate) fn push_answer(
    alloc: Global,
    out: &mut Text,
    word: &str,
    text: &str,
) -> Result<(), OutOfMemory> {
    match word {
        "read" => push_read(alloc, out, text),
        "plus" | "minus" | "times" | "over" | "rest" => push_whole(out, calculated(word, text)),
        "write" => push_written(out, text),
        "seconds" | "moment" | "later" => push_count(out, seconds(word, text)),
        "items" => push_items_order(out, text),
        "ranges" => push_ranges_of(alloc, out, text),
        "inside" => push_inside(alloc, out, text),
        "instant" => push_instant(alloc, out, text),
        "zone" => push_file(alloc, out, text),
        "book" => push_book(alloc, out, text),
        "wheel" => push_wheel(alloc, out, text),
        "row" => push_row(out, text),
        "type" => push_type(out, text),
        _ => push_texts(alloc, out, word, text),
    }
}

/// Adds the answer to a row on texts, lists or trees.
fn push_texts(alloc: Global, out: &mut Text, word: &str, text: &str) -> Result<(), OutOfMemory> {
    match word {
        "texts" => push_texts_order(alloc, out, text),
        "quote" => push_quote(alloc, out, text),
        "built" => push_built(alloc, out, text),
        "memory" => push_memory(alloc, out),
        "lists" => push_lists_order(alloc, out, text),
        "bytes" => push_bytes(alloc, out, text),
        "copied" => push_copied(alloc, out, text),
        "deep" => push_deep(alloc, out, text),
        _ => out.push_str("no such word"),
    }
}
