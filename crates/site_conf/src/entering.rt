// One inclusion of the walk.
ghost use Rattle.std.specs.Prelude.{◌≡◌, ◌≤◌, ◌<◌, List, ℕ, Option, Some, None, IfOk, OnOk, IfSome, IsErrOf, length, slice_get, ◌≢◌, Err};
ghost use Rattle.site_edge.specs.Told.{Rose};
ghost use Rattle.conf_sources.specs.Sources.{Told, source_at, content_of, full_name as full_name_of};
ghost use Rattle.conf_sources.specs.Reading.{kept_content};
ghost use Rattle.site_conf.specs.Reads.{HaveRead};
ghost use Rattle.site_conf.specs.Sound.{IsSound, IsFound, IsOneMore, MayStand};
ghost use Rattle.site_conf.specs.Views.{state_view, IsEntered};
ghost use Rattle.site_conf.specs.Walks.{entered, met, settled, follows, with_number, with_fault, with_kept};

use crate::progress::Progress;
use conf_sources::LoadFault;
use conf_sources::holding::Holding;
use conf_sources::reading::{content, kept};
use conf_sources::source::{Source, full_name};
use site_base::{Blob, DiagKind, OutOfMemory, Place};
use site_edge::Files;
use std::alloc::Global;

/// No more inclusions are taken.
const MAX_INCLUSIONS: u32 = 10_000;

/// One inclusion, where so many may still stand in it and itself: the file whose inclusions are to be
/// followed, if there is one. The walk ends at the one that is too many.
#[tactic(auto, unfolding(crate::specs::Walks::entered))]
pub(crate) fn enter<F: Files>(
    alloc: Global,
    files: &mut F,
    progress: &mut Progress,
    left: u32,
    at: Place,
    source: &Source,
) -> Result<Option<u32>, LoadFault>
    ensures value { (all : Told) → F.told files.old ≡ Some all →
        IfOk result (IsEntered (entered all left at source.now (state_view progress.old)) (state_view progress.new)) }
    ensures left { IfOk result (λ found. IfSome found (λ _. 0 < left)) }
    ensures sound { IsSound (state_view progress.old) → at.file < length (state_view progress.old).names →
        IfOk result (IsFound (state_view progress.old) (state_view progress.new)) }
    ensures reads { (before : Option (List (List ℕ))) → HaveRead before (state_view progress.old) (F.reads files.old) →
        OnOk result (HaveRead before (state_view progress.new) (F.reads files.new)) }
    ensures same { F.told files.new ≡ F.told files.old }
    ensures cause { IsErrOf result LoadFault.Failed → Rose (F.faults files.old) (F.faults files.new) }
    ensures counts { F.faults files.old ≤ F.faults files.new }
    ensures calm { F.calm files.old → F.calm files.new }
    ensures unfailing { F.calm files.old → result ≢ Err LoadFault.Failed }
{
    if progress.ended {
        return Ok(None);
    }
    if progress.count >= MAX_INCLUSIONS {
        refuse(alloc, progress, at, DiagKind::TooManyFiles, source)?;
        progress.ended = true;
        return Ok(None);
    }
    progress.count += 1;
    if left == 0 {
        refuse(alloc, progress, at, DiagKind::IncludeDepth, source)?;
        return Ok(None);
    }
    meet(alloc, files, progress, at, source)
}

/// Meets a file, which is read where it wasn't met before: it is the one to be followed where it has a
/// tree. That it is missing or too long is told each time, and the fault of its own text once.
#[tactic(auto, unfolding(crate::specs::Walks::met))]
pub(crate) fn meet<F: Files>(
    alloc: Global,
    files: &mut F,
    progress: &mut Progress,
    at: Place,
    source: &Source,
) -> Result<Option<u32>, LoadFault>
    ensures value { (all : Told) → F.told files.old ≡ Some all →
        IfOk result (IsEntered (met all at source.now (state_view progress.old)) (state_view progress.new)) }
    ensures sound { IsSound (state_view progress.old) → MayStand at source.now (state_view progress.old) →
        IfOk result (IsFound (state_view progress.old) (state_view progress.new)) }
    ensures reads { (before : Option (List (List ℕ))) → HaveRead before (state_view progress.old) (F.reads files.old) →
        OnOk result (HaveRead before (state_view progress.new) (F.reads files.new)) }
    ensures same { F.told files.new ≡ F.told files.old }
    ensures cause { IsErrOf result LoadFault.Failed → Rose (F.faults files.old) (F.faults files.new) }
    ensures counts { F.faults files.old ≤ F.faults files.new }
    ensures calm { F.calm files.old → F.calm files.new }
    ensures unfailing { F.calm files.old → result ≢ Err LoadFault.Failed }
{
    match progress.sources.find(source)? {
        Some(index) => Ok(settle(alloc, progress, at, source, index)?),
        None => {
            let index = read(alloc, files, progress, source)?;
            Ok(settle(alloc, progress, at, source, index)?)
        }
    }
}

/// Reads a file that wasn't met before, and gives its index.
fn read<F: Files>(
    alloc: Global,
    files: &mut F,
    progress: &mut Progress,
    source: &Source,
) -> Result<usize, LoadFault>
    requires { source_at source.now (state_view progress.old).sources ≡ None }
    ensures value { (all : Told) → F.told files.old ≡ Some all →
        OnOk result (state_view progress.new ≡ with_kept source.now (kept_content (length (state_view progress.old).names) (content_of all source.now)) (state_view progress.old)) }
    ensures index { IfOk result (λ k. k ≡ length (state_view progress.old).names) }
    ensures sound { IsSound (state_view progress.old) → OnOk result (IsOneMore (state_view progress.old) (state_view progress.new)) }
    ensures reads { (before : Option (List (List ℕ))) → HaveRead before (state_view progress.old) (F.reads files.old) →
        OnOk result (HaveRead before (state_view progress.new) (F.reads files.new)) }
    ensures same { F.told files.new ≡ F.told files.old }
    ensures cause { IsErrOf result LoadFault.Failed → Rose (F.faults files.old) (F.faults files.new) }
    ensures counts { F.faults files.old ≤ F.faults files.new }
    ensures calm { F.calm files.old → F.calm files.new }
    ensures unfailing { F.calm files.old → result ≢ Err LoadFault.Failed }
{
    let content = content(alloc, files, source)?;
    let index = keep_content(alloc, progress, source, content)?;
    Ok(index)
}

/// Keeps a file that wasn't met before, which holds this, and gives its index.
fn keep_content(
    alloc: Global,
    progress: &mut Progress,
    source: &Source,
    content: Option<Blob>,
) -> Result<usize, OutOfMemory>
    requires { source_at source.now (state_view progress.old).sources ≡ None }
    ensures value { OnOk result (state_view progress.new ≡ with_kept source.now (kept_content (length (state_view progress.old).names) content) (state_view progress.old)) }
    ensures index { IfOk result (λ k. k ≡ length (state_view progress.old).names) }
{
    let index = progress.names.len();
    let Ok(number) = u32::try_from(index) else {
        return Err(OutOfMemory);
    };
    progress.keep(source, kept(alloc, number, content)?)?;
    Ok(index)
}

/// What a file that was met holds decides.
fn settle(
    alloc: Global,
    progress: &mut Progress,
    at: Place,
    source: &Source,
    index: usize,
) -> Result<Option<u32>, OutOfMemory>
    ensures { IfOk result (IsEntered (settled at (full_name_of source.now) index (slice_get (state_view progress.old).holdings index) (state_view progress.old)) (state_view progress.new)) }
{
    match progress.holding_at(index) {
        Some(Holding::Missing) => {
            refuse(alloc, progress, at, DiagKind::NoFile, source)?;
            Ok(None)
        }
        Some(Holding::TooLong) => {
            refuse(alloc, progress, at, DiagKind::FileTooLong, source)?;
            Ok(None)
        }
        Some(Holding::Broken) => Ok(None),
        Some(Holding::Whole) => follow(progress, index),
        None => Ok(None),
    }
}

/// A file is to be followed: its index stands in the order.
fn follow(progress: &mut Progress, index: usize) -> Result<Option<u32>, OutOfMemory>
    ensures { IfOk result (IsEntered (follows index (with_number index (state_view progress.old))) (state_view progress.new)) }
{
    let Ok(number) = u32::try_from(index) else {
        return Err(OutOfMemory);
    };
    progress.number(number)?;
    Ok(Some(number))
}

/// Tells a fault of an inclusion.
fn refuse(
    alloc: Global,
    progress: &mut Progress,
    at: Place,
    kind: DiagKind,
    source: &Source,
) -> Result<(), OutOfMemory>
    ensures { OnOk result (state_view progress.new ≡ with_fault at kind (full_name_of source.now) (state_view progress.old)) }
{
    let name = full_name(alloc, source)?;
    progress.tell(at, kind, name.as_str())
}
