// The deepest texts that are read.
use dsl_lexer::lex;
use dsl_parser::parse;
use site_base::{OutOfMemory, Text};
use std::alloc::Global;
use std::test::Fail;
use std::thread::{Builder, Threads};

/// The stack of each thread, which is less than a worker has.
const STACK: usize = 800 << 10;

/// How many levels a text may have, and what opens and closes each.
const FORMS: [(u32, &str, &str); 11] = [
    (100, "(", ")"),
    (100, "a + (", ")"),
    (100, "[", "]"),
    (100, "{ a = ", "}"),
    (100, "f(", ")"),
    (66, "() => {", "}"),
    (100, "function() {", "}"),
    (100, "x = function() {", "}"),
    (100, "function f() {", "}"),
    (100, "if (a) {", "}"),
    (100, "for (a in b) {", "}"),
];

/// A text of so many levels around a name. A bracket, an arrow and a sign weigh one each, and a text may weigh 200.
fn nested(alloc: Global, levels: u32, open: &str, close: &str) -> Result<Text, OutOfMemory> {
    let mut text = Text::new(alloc);
    for _ in 0..levels {
        text.push_str(open)?;
    }
    text.push_str("a")?;
    for _ in 0..levels {
        text.push_str(close)?;
    }
    Ok(text)
}

/// Whether the text is one of the language.
fn is_read(alloc: Global, text: &Text) -> bool {
    let bytes = text.as_str().as_bytes();
    if bytes.len() >= 1_000_000 {
        return false;
    }
    match lex(alloc, bytes, 0) {
        Ok(tokens) => parse(alloc, tokens.as_slice()).is_ok(),
        Err(_) => false,
    }
}

/// The same in a thread with little stack.
fn is_read_within<R: Threads>(rt: &R, alloc: Global, text: Text) -> Result<bool, Fail> {
    let thread = Builder::new()
        .stack_size(STACK)
        .spawn(rt, move || is_read(alloc, &text))?;
    Ok(thread.join(rt))
}

#[test]
fn the_deepest_texts_take_little_stack(rt: HostRuntime) -> Result<(), Fail> {
    let alloc = rt.alloc();
    for (levels, open, close) in &FORMS {
        assert!(rt; is_read_within(&rt, alloc, nested(alloc, *levels, open, close)?)?);
    }
    Ok(())
}
