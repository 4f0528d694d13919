// What files come to when they are read.
ghost use Rattle.std.specs.Prelude.{◌≡◌, ◌≤◌, ◌<◌, ◌-◌, ◌^◌, List, ℕ, Some, IfOk, OnOk, IsErrOf, length, ◌≢◌, Err};
ghost use Rattle.dsl_syntax.specs.SyntaxView.{file_view};
ghost use Rattle.dsl_lexer.specs.Lists.{IsWhole};
ghost use Rattle.dsl_grammar.specs.Files.{file_outcome};
ghost use Rattle.site_edge.specs.Lists.{Adds};
ghost use Rattle.site_edge.specs.Told.{Rose};
ghost use Rattle.conf_sources.specs.Reading.{kept_none, kept_fault, kept_tree, kept_outcome, kept_bytes, kept_content, diag_at, in_file as place_in_file};
ghost use Rattle.conf_sources.specs.Library.{library_text as library_text_of};
ghost use Rattle.conf_sources.specs.Sources.{Told, file_name, content_of};
ghost use Rattle.conf_sources.specs.Views.{kept_view};

use crate::LoadFault;
use crate::holding::Holding;
use crate::inclusions::inclusions_in;
use crate::kept::Kept;
use crate::library::library_text;
use crate::source::Source;
use dsl_lexer::{LexError, Token, lex, what_is_read_are_the_tokens};
use dsl_parser::{ParseError, parse};
use dsl_syntax::File;
use site_base::{Blob, Diag, DiagKind, ItemNo, OutOfMemory, Place, TargetNo, Text};
use site_edge::Files;
use std::alloc::Global;

/// A longer file isn't read.
const MAX_BYTES: usize = 4 << 20;

/// The number of what belongs to no item.
const NO_ITEM: ItemNo = ItemNo {
    item: 0,
    target: TargetNo {
        item: 0,
        host: 0,
        key: 0,
    },
    key: 0,
};

/// A diagnostic that belongs to no item.
pub fn diag(place: Place, kind: DiagKind, text: Text) -> Diag
    ensures { result ≡ diag_at place kind text }
{
    Diag {
        number: NO_ITEM,
        place,
        kind,
        text,
    }
}

/// This line and column of a file.
pub fn in_file(file: u32, place: Place) -> Place
    ensures { result ≡ place_in_file file place }
{
    Place {
        file,
        line: place.line,
        col: place.col,
    }
}

/// The bytes of a file, or the text of a part of the library; `None` if there is none.
pub fn content<F: Files>(
    alloc: Global,
    files: &mut F,
    source: &Source,
) -> Result<Option<Blob>, LoadFault>
    ensures value { (all : Told) → F.told files.old ≡ Some all →
        IfOk result (λ c. c ≡ content_of all source.now) }
    ensures same { F.told files.new ≡ F.told files.old }
    ensures counted { OnOk result (Adds (file_name source.now) (F.reads files.old) (F.reads files.new)) }
    ensures cause { IsErrOf result LoadFault.Failed → Rose (F.faults files.old) (F.faults files.new) }
    ensures counts { F.faults files.old ≤ F.faults files.new }
    ensures calm { F.calm files.old → F.calm files.new }
    ensures unfailing { F.calm files.old → result ≢ Err LoadFault.Failed }
{
    match source {
        Source::File(name) => Ok(files.read(name.as_str())?),
        Source::Library(name) => Ok(library(alloc, name.as_str())?),
    }
}

/// The text of a part of the library.
fn library(alloc: Global, name: &str) -> Result<Option<Blob>, OutOfMemory>
    ensures { IfOk result (λ c. c ≡ library_text_of name.now) }
{
    match library_text(name) {
        Some(text) => Ok(Some(Blob::copy_of(alloc, text.as_bytes())?)),
        None => Ok(None),
    }
}

/// What a file with this index comes to by what it holds.
pub fn kept(alloc: Global, index: u32, content: Option<Blob>) -> Result<Kept, OutOfMemory>
    ensures { IfOk result (λ k. kept_view k ≡ kept_content index content) }
{
    match content {
        None => Ok(nothing(alloc, Holding::Missing)),
        Some(bytes) if bytes.len() > MAX_BYTES => Ok(nothing(alloc, Holding::TooLong)),
        Some(bytes) => text(alloc, index, bytes.as_slice()),
    }
}

/// What the bytes of a file come to.
fn text(alloc: Global, index: u32, bytes: &[u8]) -> Result<Kept, OutOfMemory>
    requires { length bytes.now < 2 ^ 32 - 1 }
    ensures { IfOk result (λ k. kept_view k ≡ kept_bytes index bytes.now) }
{
    what_is_read_are_the_tokens();
    match lex(alloc, bytes, index) {
        Ok(tokens) => parsed(alloc, index, tokens.as_slice()),
        Err(LexError::Fault(fault)) => broken(alloc, index, DiagKind::Lexical, fault.place),
        Err(LexError::OutOfMemory) => Err(OutOfMemory),
    }
}

/// What the tokens of a file come to.
fn parsed(alloc: Global, index: u32, tokens: &[Token]) -> Result<Kept, OutOfMemory>
    requires { IsWhole tokens.now }
    ensures { IfOk result (λ k. kept_view k ≡ kept_outcome index (file_outcome tokens.now)) }
{
    match parse(alloc, tokens) {
        Ok(tree) => whole(alloc, tree),
        Err(ParseError::SyntaxFault { place }) => broken(alloc, index, DiagKind::Syntax, place),
        Err(ParseError::TooDeep { place }) => broken(alloc, index, DiagKind::TooDeep, place),
        Err(ParseError::OutOfMemory) => Err(OutOfMemory),
    }
}

/// A file with its tree.
fn whole(alloc: Global, tree: File) -> Result<Kept, OutOfMemory>
    ensures { IfOk result (λ k. kept_view k ≡ kept_tree (file_view tree)) }
{
    let inclusions = inclusions_in(alloc, &tree)?;
    Ok(Kept {
        holding: Holding::Whole,
        tree,
        inclusions,
        faults: Vec::new(alloc),
    })
}

/// A file with a fault of its own.
fn broken(alloc: Global, index: u32, kind: DiagKind, place: Place) -> Result<Kept, OutOfMemory>
    ensures { IfOk result (λ k. kept_view k ≡ kept_fault index kind place) }
{
    let mut kept = nothing(alloc, Holding::Broken);
    let at = in_file(index, place);
    kept.faults.push(diag(at, kind, Text::new(alloc)))?;
    Ok(kept)
}

/// A file without a tree.
fn nothing(alloc: Global, holding: Holding) -> Kept
    ensures { kept_view result ≡ kept_none holding }
{
    Kept {
        holding,
        tree: File {
            statements: Vec::new(alloc),
        },
        inclusions: Vec::new(alloc),
        faults: Vec::new(alloc),
    }
}
