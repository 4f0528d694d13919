// The walk over the files of a site.
ghost use Rattle.std.specs.Prelude.{◌≡◌, ◌≤◌, ◌<◌, ℕ, List, Option, Some, IfOk, OnOk, IsErrOf, length, ◌≢◌, Err};
ghost use Rattle.dsl_lexer.specs.Places.{start_of};
ghost use Rattle.site_edge.specs.Told.{Rose};
ghost use Rattle.conf_sources.specs.Known.{IsKnown};
ghost use Rattle.site_conf.specs.Reads.{HaveRead, ReadsOnce};
ghost use Rattle.site_conf.specs.Sound.{IsSound, IsWalked, a_part, a_file, some_files, an_inclusion, some_inclusions, IsOver, IsWhole, IsFlagged, IsOrdered};
ghost use Rattle.site_conf.specs.Views.{state_view, answer_view, TellsLibrary};
ghost use Rattle.conf_sources.specs.Sources.{Told};
ghost use Rattle.site_conf.specs.Walks.{part, each_inclusion, one_inclusion, each_source, onward_at, entered, with_number, empty_state, walked, walk_outcome, outcome_of};

use crate::entering::{enter, meet};
use crate::progress::Progress;
use crate::{Walk, WalkAnswer};
use conf_sources::LoadFault;
use conf_sources::inclusion::{Inclusion, place};
use conf_sources::listings::Listings;
use conf_sources::naming::sources;
use conf_sources::reading::in_file;
use conf_sources::source::Source;
use site_base::{OutOfMemory, Place, Text};
use site_edge::Files;
use std::alloc::Global;

/// No more inclusions stand in one another.
const MAX_DEPTH: u32 = 50;

/// The head of the root.
const START: Place = Place {
    file: 0,
    line: 1,
    col: 1,
};

/// Walks over the files of a site, from its root, in the order of their inclusions, depth first.
pub fn walk<F: Files>(alloc: Global, files: &mut F, root: &str) -> Result<WalkAnswer, LoadFault>
    ensures value { (all : Told) → F.told files.old ≡ Some all →
        IfOk result (λ a. answer_view a ≡ walk_outcome all root.now) }
    ensures library { (all : Told) → F.told files.old ≡ Some all →
        IfOk result (TellsLibrary (walked all root.now)) }
    ensures whole { IfOk result IsWhole }
    ensures flagged { IfOk result IsFlagged }
    ensures ordered { IfOk result IsOrdered }
    ensures reads { IfOk result (ReadsOnce (F.reads files.old) (F.reads files.new)) }
    ensures same { F.told files.new ≡ F.told files.old }
    ensures cause { IsErrOf result LoadFault.Failed → Rose (F.faults files.old) (F.faults files.new) }
    ensures counts { F.faults files.old ≤ F.faults files.new }
    ensures calm { F.calm files.old → F.calm files.new }
    ensures unfailing { F.calm files.old → result ≢ Err LoadFault.Failed }
{
    let mut progress = Progress::new(alloc);
    walk_root(alloc, files, &mut progress, root)?;
    Ok(answer(progress))
}

/// Meets the root and goes through the inclusions in it.
fn walk_root<F: Files>(
    alloc: Global,
    files: &mut F,
    progress: &mut Progress,
    root: &str,
) -> Result<(), LoadFault>
    requires { state_view progress.old ≡ empty_state }
    ensures value { (all : Told) → F.told files.old ≡ Some all → OnOk result (state_view progress.new ≡ walked all root.now) }
    ensures over { OnOk result (IsOver (state_view progress.new)) }
    ensures reads { OnOk result (HaveRead (F.reads files.old) (state_view progress.new) (F.reads files.new)) }
    ensures same { F.told files.new ≡ F.told files.old }
    ensures cause { IsErrOf result LoadFault.Failed → Rose (F.faults files.old) (F.faults files.new) }
    ensures counts { F.faults files.old ≤ F.faults files.new }
    ensures calm { F.calm files.old → F.calm files.new }
    ensures unfailing { F.calm files.old → result ≢ Err LoadFault.Failed }
{
    let source = Source::File(Text::copy_of(alloc, root)?);
    let mut listings = Listings::new(alloc);
    match meet(alloc, files, progress, START, &source)? {
        Some(index) => walk_part(files, &mut listings, progress, MAX_DEPTH, index),
        None => Ok(()),
    }
}

/// The answer at the end of a walk.
fn answer(progress: Progress) -> WalkAnswer
    ensures value { answer_view result ≡ outcome_of (state_view progress) }
    ensures library { TellsLibrary (state_view progress) result }
    ensures whole { IsOver (state_view progress) → IsWhole result }
    ensures flagged { IsOver (state_view progress) → IsFlagged result }
    ensures ordered { IsOver (state_view progress) → IsOrdered result }
    ensures reads { (old new : Option (List (List ℕ))) → IsOver (state_view progress) → HaveRead old (state_view progress) new →
        ReadsOnce old new result }
{
    if progress.diags.is_empty() {
        WalkAnswer::Walked(Walk {
            names: progress.names,
            library: progress.library,
            trees: progress.trees,
            order: progress.order,
        })
    } else {
        WalkAnswer::Diags {
            files: progress.names,
            list: progress.diags,
        }
    }
}

/// Goes through the inclusions of a file that was met, where so many may still stand in one another.
#[cycle(walk)]
#[tactic(auto, using(crate::proofs::WalkLaws::part_is), unfolding(crate::specs::Walks::part_with))]
fn walk_part<F: Files>(
    files: &mut F,
    listings: &mut Listings,
    progress: &mut Progress,
    left: u32,
    index: u32,
) -> Result<(), LoadFault>
    requires { IsKnown (F.told files.old) listings.old.folders listings.old.wildcards }
    ensures value { (all : Told) → F.told files.old ≡ Some all →
        OnOk result (state_view progress.new ≡ part all left index (state_view progress.old)) }
    ensures sound { IsSound (state_view progress.old) → index < length (state_view progress.old).names →
        OnOk result (IsWalked (a_part left index) (state_view progress.old) (state_view progress.new)) }
    ensures known { OnOk result (IsKnown (F.told files.new) listings.new.folders listings.new.wildcards) }
    ensures reads { (before : Option (List (List ℕ))) → HaveRead before (state_view progress.old) (F.reads files.old) →
        OnOk result (HaveRead before (state_view progress.new) (F.reads files.new)) }
    ensures same { F.told files.new ≡ F.told files.old }
    ensures cause { IsErrOf result LoadFault.Failed → Rose (F.faults files.old) (F.faults files.new) }
    ensures counts { F.faults files.old ≤ F.faults files.new }
    ensures calm { F.calm files.old → F.calm files.new }
    ensures unfailing { F.calm files.old → result ≢ Err LoadFault.Failed }
{
    let name = progress.name_at(index)?;
    let inclusions = progress.inclusions_at(index)?;
    let start = progress.begin_part()?;
    walk_inclusions(
        files,
        listings,
        progress,
        left,
        index,
        name.as_str(),
        inclusions.as_slice(),
    )?;
    Ok(progress.end_part(start)?)
}

/// Goes through inclusions in the file of this name.
#[cycle(walk)]
fn walk_inclusions<F: Files>(
    files: &mut F,
    listings: &mut Listings,
    progress: &mut Progress,
    left: u32,
    index: u32,
    file: &str,
    inclusions: &[Inclusion],
) -> Result<(), LoadFault>
    requires { IsKnown (F.told files.old) listings.old.folders listings.old.wildcards }
    ensures value { (all : Told) → F.told files.old ≡ Some all →
        OnOk result (state_view progress.new ≡ each_inclusion all (onward_at all left) left index file.now inclusions.now (state_view progress.old)) }
    ensures sound { IsSound (state_view progress.old) → index < length (state_view progress.old).names →
        OnOk result (IsWalked (some_inclusions left (length inclusions.now)) (state_view progress.old) (state_view progress.new)) }
    ensures known { OnOk result (IsKnown (F.told files.new) listings.new.folders listings.new.wildcards) }
    ensures reads { (before : Option (List (List ℕ))) → HaveRead before (state_view progress.old) (F.reads files.old) →
        OnOk result (HaveRead before (state_view progress.new) (F.reads files.new)) }
    ensures same { F.told files.new ≡ F.told files.old }
    ensures cause { IsErrOf result LoadFault.Failed → Rose (F.faults files.old) (F.faults files.new) }
    ensures counts { F.faults files.old ≤ F.faults files.new }
    ensures calm { F.calm files.old → F.calm files.new }
    ensures unfailing { F.calm files.old → result ≢ Err LoadFault.Failed }
{
    for inclusion in inclusions {
        walk_inclusion(files, listings, progress, left, index, file, inclusion)?;
    }
    Ok(())
}

/// Goes through what one inclusion names.
#[cycle(walk)]
fn walk_inclusion<F: Files>(
    files: &mut F,
    listings: &mut Listings,
    progress: &mut Progress,
    left: u32,
    index: u32,
    file: &str,
    inclusion: &Inclusion,
) -> Result<(), LoadFault>
    requires { IsKnown (F.told files.old) listings.old.folders listings.old.wildcards }
    ensures value { (all : Told) → F.told files.old ≡ Some all →
        OnOk result (state_view progress.new ≡ one_inclusion all (onward_at all left) left index file.now inclusion.now (state_view progress.old)) }
    ensures sound { IsSound (state_view progress.old) → index < length (state_view progress.old).names →
        OnOk result (IsWalked (an_inclusion left) (state_view progress.old) (state_view progress.new)) }
    ensures known { OnOk result (IsKnown (F.told files.new) listings.new.folders listings.new.wildcards) }
    ensures reads { (before : Option (List (List ℕ))) → HaveRead before (state_view progress.old) (F.reads files.old) →
        OnOk result (HaveRead before (state_view progress.new) (F.reads files.new)) }
    ensures same { F.told files.new ≡ F.told files.old }
    ensures cause { IsErrOf result LoadFault.Failed → Rose (F.faults files.old) (F.faults files.new) }
    ensures counts { F.faults files.old ≤ F.faults files.new }
    ensures calm { F.calm files.old → F.calm files.new }
    ensures unfailing { F.calm files.old → result ≢ Err LoadFault.Failed }
{
    if progress.ended {
        return Ok(());
    }
    let named = sources(files, listings, file, inclusion)?;
    number_of(progress, named.as_slice())?;
    walk_sources(
        files,
        listings,
        progress,
        left,
        in_file(index, place(inclusion)),
        named.as_slice(),
    )
}

/// Takes inclusions at one place, one after another.
#[cycle(walk)]
fn walk_sources<F: Files>(
    files: &mut F,
    listings: &mut Listings,
    progress: &mut Progress,
    left: u32,
    at: Place,
    named: &[Source],
) -> Result<(), LoadFault>
    requires { IsKnown (F.told files.old) listings.old.folders listings.old.wildcards }
    ensures value { (all : Told) → F.told files.old ≡ Some all →
        OnOk result (state_view progress.new ≡ each_source all (onward_at all left) left at named.now (state_view progress.old)) }
    ensures sound { IsSound (state_view progress.old) → at.file < length (state_view progress.old).names →
        OnOk result (IsWalked (some_files left (length named.now)) (state_view progress.old) (state_view progress.new)) }
    ensures known { OnOk result (IsKnown (F.told files.new) listings.new.folders listings.new.wildcards) }
    ensures reads { (before : Option (List (List ℕ))) → HaveRead before (state_view progress.old) (F.reads files.old) →
        OnOk result (HaveRead before (state_view progress.new) (F.reads files.new)) }
    ensures same { F.told files.new ≡ F.told files.old }
    ensures cause { IsErrOf result LoadFault.Failed → Rose (F.faults files.old) (F.faults files.new) }
    ensures counts { F.faults files.old ≤ F.faults files.new }
    ensures calm { F.calm files.old → F.calm files.new }
    ensures unfailing { F.calm files.old → result ≢ Err LoadFault.Failed }
{
    for source in named {
        walk_source(files, listings, progress, left, at, source)?;
    }
    Ok(())
}

/// Takes one inclusion, and follows it.
#[cycle(walk)]
fn walk_source<F: Files>(
    files: &mut F,
    listings: &mut Listings,
    progress: &mut Progress,
    left: u32,
    at: Place,
    source: &Source,
) -> Result<(), LoadFault>
    requires { IsKnown (F.told files.old) listings.old.folders listings.old.wildcards }
    ensures value { (all : Told) → F.told files.old ≡ Some all →
        OnOk result (state_view progress.new ≡ onward_at all left (entered all left at source.now (state_view progress.old))) }
    ensures sound { IsSound (state_view progress.old) → at.file < length (state_view progress.old).names →
        OnOk result (IsWalked (a_file left) (state_view progress.old) (state_view progress.new)) }
    ensures known { OnOk result (IsKnown (F.told files.new) listings.new.folders listings.new.wildcards) }
    ensures reads { (before : Option (List (List ℕ))) → HaveRead before (state_view progress.old) (F.reads files.old) →
        OnOk result (HaveRead before (state_view progress.new) (F.reads files.new)) }
    ensures same { F.told files.new ≡ F.told files.old }
    ensures cause { IsErrOf result LoadFault.Failed → Rose (F.faults files.old) (F.faults files.new) }
    ensures counts { F.faults files.old ≤ F.faults files.new }
    ensures calm { F.calm files.old → F.calm files.new }
    ensures unfailing { F.calm files.old → result ≢ Err LoadFault.Failed }
{
    match enter(listings.alloc, files, progress, left, at, source)? {
        Some(index) => walk_part(files, listings, progress, left - 1, index),
        None => Ok(()),
    }
}

/// The number of files that an inclusion names stands in the order.
fn number_of(progress: &mut Progress, named: &[Source]) -> Result<(), OutOfMemory>
    ensures { OnOk result (state_view progress.new ≡ with_number (length named.now) (state_view progress.old)) }
{
    let Ok(number) = u32::try_from(named.len()) else {
        return Err(OutOfMemory);
    };
    progress.number(number)
}
