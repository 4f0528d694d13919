// Where a script is cut.
ghost use Rattle.std.specs.Prelude.{◌≡◌, ◌<◌, ◌≤◌, length, IfOk};
ghost use Rattle.std.specs.List.{concat};
ghost use Rattle.script_parts.specs.Parts.{texts_of};

use site_base::OutOfMemory;
use std::alloc::Global;

/// Cuts a script before lines that begin a turn, into parts of at least so many bytes. The last one is what is left.
pub(crate) fn cut(alloc: Global, bytes: &[u8], size: usize) -> Result<Vec<&[u8]>, OutOfMemory>
    requires { 0 < size }
    ensures { IfOk result (λ parts. concat (texts_of parts.items) ≡ bytes.now) }
{
    let mut parts = Vec::new(alloc);
    let mut rest = bytes;
    while rest.len() > size {
        let (part, behind) = rest.split_at(next_turn(rest, size));
        parts.push(part)?;
        rest = behind;
    }
    parts.push(rest)?;
    Ok(parts)
}

/// The first place after this one at which a line begins a turn, or the end.
fn next_turn(bytes: &[u8], place: usize) -> usize
    requires { (0 < place) × (place < length bytes.now) }
    ensures { (0 < result) × (result ≤ length bytes.now) }
{
    let mut at = place;
    while at < bytes.len() {
        if bytes[at - 1] == b'\n' && bytes[at..].starts_with(b"turn ") {
            return at;
        }
        at += 1;
    }
    at
}
