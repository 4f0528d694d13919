// The deepest evaluations.
use dsl_lexer::lex;
use dsl_load::eval_files;
use dsl_parser::parse;
use dsl_syntax::File;
use eval_work::{SourceFile, Stop};
use site_base::{DiagKind, OutOfMemory, Text};
use std::alloc::Global;
use std::test::Fail;
use std::thread::{Builder, Threads};

/// The stack of each thread, which a worker has too.
const STACK: usize = 2 << 20;

/// One less than brackets may be open.
const CALLS: u32 = 99;

/// Functions that call themselves.
const FORMS: [&str; 11] = [
    "function f() { f() }\nf()",
    "f = () => f()\nf()",
    "f = (v) => f(f(v))\nf(1)",
    "f = (v) => [ v ].map(f)\nf(1)",
    "f = (v) => [ v ].any((w) => f(w))\nf(1)",
    "f = (v) => { a = f(v) }\nf(1)",
    "d = { f = () => d.f() }\nd.f()",
    "d = { f = () => this[\"f\"]() }\nd.f()",
    "function f() { if (f()) { } }\nf()",
    "function f() { for (x in [ 1 ]) { f() } }\nf()",
    "function f() { object Host f() { } }\nf()",
];

/// The tree of a text; none if it isn't one of the language.
fn tree_of(alloc: Global, text: &Text) -> Option<File> {
    let bytes = text.as_str().as_bytes();
    if bytes.len() >= 1_000_000 {
        return None;
    }
    match lex(alloc, bytes, 0) {
        Ok(tokens) => match parse(alloc, tokens.as_slice()) {
            Ok(file) => Some(file),
            Err(_) => None,
        },
        Err(_) => None,
    }
}

/// A text as the only file; none if it isn't one of the language.
fn files_of(alloc: Global, text: &Text) -> Result<Vec<SourceFile>, OutOfMemory> {
    let mut files = Vec::new(alloc);
    if let Some(file) = tree_of(alloc, text) {
        files.push(SourceFile {
            name: Text::copy_of(alloc, "r")?,
            builtin: false,
            file,
        })?;
    }
    Ok(files)
}

/// What the load of a text as the only file comes to; want of memory stands for a text that isn't one of the language too.
fn load(alloc: Global, text: &Text) -> Result<(), Stop> {
    let files = files_of(alloc, text)?;
    if files.is_empty() {
        return Err(Stop::Memory);
    }
    eval_files(alloc, &files, &[0, 0])?;
    Ok(())
}

/// Whether as many nodes were open as may be.
fn is_too_deep(alloc: Global, text: &Text) -> bool {
    match load(alloc, text) {
        Err(Stop::Fault { kind, .. }) => kind == DiagKind::DepthLimit,
        _ => false,
    }
}

/// The same in a thread with little stack.
fn is_too_deep_within<R: Threads>(rt: &R, alloc: Global, text: Text) -> Result<bool, Fail> {
    let thread = Builder::new()
        .stack_size(STACK)
        .spawn(rt, move || is_too_deep(alloc, &text))?;
    Ok(thread.join(rt))
}

#[test]
fn the_deepest_calls_take_little_stack(rt: HostRuntime) -> Result<(), Fail> {
    let alloc = rt.alloc();
    for form in &FORMS {
        assert!(rt; is_too_deep_within(&rt, alloc, Text::copy_of(alloc, form)?)?);
    }
    Ok(())
}

/// A function that calls itself with what a call of itself gives, and so on.
fn calls_among_arguments(alloc: Global) -> Result<Text, OutOfMemory> {
    let mut text = Text::copy_of(alloc, "f = (v) => ")?;
    for _ in 0..CALLS {
        text.push_str("f(")?;
    }
    text.push('v')?;
    for _ in 0..CALLS {
        text.push(')')?;
    }
    text.push_str("\nf(1)")?;
    Ok(text)
}

#[test]
fn calls_among_arguments_take_little_stack(rt: HostRuntime) -> Result<(), Fail> {
    let text = calls_among_arguments(rt.alloc())?;
    assert!(rt; is_too_deep_within(&rt, rt.alloc(), text)?);
    Ok(())
}

#[test]
fn deep_values_take_no_stack(rt: HostRuntime) -> Result<(), Fail> {
    let alloc = rt.alloc();
    let text = Text::copy_of(
        alloc,
        "var x = [ ]; var y = [ ]\nfor (i in range(100000)) { x = [ x ]; y = [ y ] }\nz = x == y || x in [ y ]",
    )?;
    let thread = Builder::new()
        .stack_size(STACK)
        .spawn(&rt, move || load(alloc, &text).is_ok())?;
    assert!(rt; thread.join(&rt));
    Ok(())
}
