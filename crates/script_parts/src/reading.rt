// How several threads read a script.
ghost use Rattle.std.specs.Prelude.{◌<◌, ◌≤◌, IfOk, IfSome};
ghost use Rattle.site_text.specs.Scripts.{Has, IsScript};
ghost use Rattle.site_text.specs.ScriptReading.{Tells};
ghost use Rattle.script_parts.specs.Parts.{IsReadInParts};

use crate::cutting::cut;
use site_base::{OutOfMemory, Row};
use site_edge::Turn;
use site_text::{ScriptError, read_script};
use std::alloc::Global;
use std::thread;
use std::thread::Threads;

/// How many bytes of a script are worth a thread.
const FEWEST: usize = 65_536;

/// The turns that [`read_script`] reads. So many threads at most read them, each a part of the script, cut where a turn begins. If one of the
/// parts is no script, the whole is read again, for the number of the line that is none. A short script makes no thread.
///
/// # Errors
///
/// As of [`read_script`].
pub fn read_script_by_many<R: Threads + Sync>(
    rt: &R,
    alloc: Global,
    bytes: &[u8],
    threads: u32,
) -> Result<Row<Turn>, ScriptError>
    requires { 1 ≤ threads }
    ensures { Tells (Has bytes.now) result }
{
    let size = bytes.len().div_ceil(threads as usize).max(FEWEST);
    if bytes.len() <= size {
        return read_script(alloc, bytes);
    }
    let read = read_parts(rt, alloc, bytes, size)?;
    match joined(alloc, bytes, read)? {
        Some(turns) => Ok(turns),
        None => read_script(alloc, bytes),
    }
}

/// What each part of a script is by itself. All but the last have at least so many bytes.
fn read_parts<R: Threads + Sync>(
    rt: &R,
    alloc: Global,
    bytes: &[u8],
    size: usize,
) -> Result<Vec<Result<Row<Turn>, ScriptError>>, OutOfMemory>
    requires { 0 < size }
    ensures { IfOk result (λ read. IsReadInParts bytes.now read.items) }
{
    let part = |bytes: &[u8]| -> Result<Row<Turn>, ScriptError>
        ensures { Tells (Has bytes.now) result }
    { read_script(alloc, bytes) };
    let parts = cut(alloc, bytes, size)?;
    let read = thread::map_vec(rt, parts, &part)?;
    Ok(read)
}

/// The turns of all parts, one after another; `None` if one of them is no script.
fn joined(
    alloc: Global,
    _bytes: &[u8],
    read: Vec<Result<Row<Turn>, ScriptError>>,
) -> Result<Option<Row<Turn>>, OutOfMemory>
    requires { IsReadInParts _bytes.now read.items }
    ensures { IfOk result (λ r. IfSome r (IsScript _bytes.now)) }
{
    let mut turns = Vec::new(alloc);
    for part in read {
        match part {
            Ok(more) => turns.append(&mut more.into_vec())?,
            Err(ScriptError::BadScript { .. }) => return Ok(None),
            Err(ScriptError::OutOfMemory) => return Err(OutOfMemory),
        }
    }
    Ok(Some(Row::from(turns)))
}
