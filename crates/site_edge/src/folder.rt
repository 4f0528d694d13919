// How the paths below a folder begin.
ghost use Rattle.std.specs.Prelude.{◌≡◌, IfOk};
ghost use Rattle.site_edge.specs.Told.{folder_prefix as prefix_of};

use site_base::{OutOfMemory, Text};
use std::alloc::Global;

/// The folder's name with a `/` at its end; nothing for the empty name.
pub fn folder_prefix(alloc: Global, dir: &str) -> Result<Text, OutOfMemory>
    ensures { IfOk result (λ t. t ≡ prefix_of dir.now) }
{
    let mut prefix = Text::copy_of(alloc, dir)?;
    match dir.as_bytes().last() {
        Some(last) if *last != b'/' => prefix.push('/')?,
        _ => {}
    }
    Ok(prefix)
}
