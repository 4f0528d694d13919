// The parts of files' names.
ghost use Rattle.std.specs.Prelude.{◌≡◌, ◌≤◌, IfOk, length};
ghost use Rattle.std.specs.Str.{IsCharBoundary};
ghost use Rattle.conf_sources.specs.Names.{folder_len as folder_len_of, folder_of as folder_in, last_part as part_in, joined as joined_name, trimmed as trimmed_name, trimmed_len as trimmed_len_of, has_wildcard as has_wild, is_absolute as is_root_name};

use site_base::{OutOfMemory, Text};
use std::alloc::Global;

/// The folder of a name with its `/`, nothing if it has none, and the part behind it.
pub(crate) fn split_name(name: &str) -> (&str, &str)
    ensures folder { result.0.now ≡ folder_in name.now }
    ensures last { result.1.now ≡ part_in name.now }
{
    name.split_at(folder_len(name))
}

/// The number of bytes of a name through its last `/`.
fn folder_len(name: &str) -> usize
    ensures value { result ≡ folder_len_of name.now }
    ensures boundary { IsCharBoundary name.now result }
{
    let bytes = name.as_bytes();
    let mut len = 0;
    for (i, byte) in bytes.iter().enumerate() {
        if *byte == b'/' {
            len = i + 1;
        }
    }
    len
}

/// A name that stands in a file, joined to the folder of that file unless it begins with `/`.
pub(crate) fn joined(alloc: Global, file: &str, name: &str) -> Result<Text, OutOfMemory>
    ensures { IfOk result (λ t. t ≡ joined_name file.now name.now) }
{
    if is_absolute(name) {
        return Text::copy_of(alloc, name);
    }
    let (folder, _) = split_name(file);
    let mut text = Text::copy_of(alloc, folder)?;
    text.push_str(name)?;
    Ok(text)
}

/// Whether a name begins with `/`.
fn is_absolute(name: &str) -> bool
    ensures { result ≡ is_root_name name.now }
{
    match name.as_bytes() {
        [first, ..] => *first == b'/',
        [] => false,
    }
}

/// A folder's name without the `/` at its end; one of nothing but `/` is the root of all folders.
pub(crate) fn trimmed(name: &str) -> &str
    ensures { result.now ≡ trimmed_name name.now }
{
    let len = trimmed_len(name);
    if len == 0 && is_absolute(name) {
        return "/";
    }
    let (front, _) = name.split_at(len);
    front
}

/// The number of bytes before the `/` at the end of a name.
fn trimmed_len(name: &str) -> usize
    ensures value { result ≡ trimmed_len_of name.now }
    ensures boundary { IsCharBoundary name.now result }
{
    let bytes = name.as_bytes();
    let mut len = 0;
    for (i, byte) in bytes.iter().enumerate() {
        if *byte != b'/' {
            len = i + 1;
        }
    }
    len
}

/// Whether a `*` or a `?` stands in a part of a name.
pub(crate) fn has_wildcard(part: &str) -> bool
    ensures { result ≡ has_wild part.now }
{
    part.as_bytes().iter().any(|b| *b == b'*' || *b == b'?')
}
