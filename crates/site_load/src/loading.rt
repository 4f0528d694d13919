// The load.
ghost use Rattle.std.specs.Prelude.{◌≡◌, ◌≢◌, ◌≤◌, Some, IfOk, IsErrOf, Err, map};
ghost use Rattle.dsl_syntax.specs.SyntaxView.{file_view};
ghost use Rattle.dsl_load.specs.Loads.{IsLoad, plain_parts};
ghost use Rattle.eval_meaning.specs.Load.{load_run};
ghost use Rattle.site_edge.specs.Told.{Rose};
ghost use Rattle.conf_sources.specs.Sources.{Told};
ghost use Rattle.site_load.specs.Loads.{IfLoaded, fault_outcome, load_outcome, load_view, plain_files, run_outcome, with_zone as zone_added};
ghost use Rattle.site_load.specs.Zones.{zone_found, zone_name as name_of_zone, zone_view};

use crate::LoadAnswer;
use crate::source_files::source_files;
use crate::zone_file::{ZoneFile, zone_file};
use commit_waves::Loaded;
use dsl_load::{LoadParts, eval_files};
use eval_work::Stop;
use site_base::{Diag, DiagKind, ItemNo, OutOfMemory, Place, Row, TargetNo, Text, Texts};
use site_conf::{LoadFault, Walk, WalkAnswer, walk};
use site_edge::Files;
use std::alloc::Global;

/// The head of the root, at which a missing file of the zone is told.
const START: Place = Place {
    file: 0,
    line: 1,
    col: 1,
};

/// The number of what belongs to no item.
const NO_ITEM: ItemNo = ItemNo {
    item: 0,
    target: TargetNo {
        item: 0,
        host: 0,
        key: 0,
    },
    key: 0,
};

/// Reads and runs the files of a site, from its root on.
///
/// All diagnostics of the walk are the answer, in walking order, if there are any; else the first fault of running the files as one
/// evaluation; else `NoFile` at the head of the root if `SiteZone` is a string and there is no file of that name. `Failed`
/// comes only if the files' count of faults rose.
pub fn load<F: Files>(alloc: Global, files: &mut F, root: &str) -> Result<LoadAnswer, LoadFault>
    ensures value { (all : Told) → F.told files.old ≡ Some all → IfOk result (λ a. load_view a ≡ load_outcome all root.now) }
    ensures is_load { IfOk result (IfLoaded IsLoad) }
    ensures same { F.told files.new ≡ F.told files.old }
    ensures cause { IsErrOf result LoadFault.Failed → Rose (F.faults files.old) (F.faults files.new) }
    ensures counts { F.faults files.old ≤ F.faults files.new }
    ensures calm { F.calm files.old → F.calm files.new }
    ensures unfailing { F.calm files.old → result ≢ Err LoadFault.Failed }
{
    match walk(alloc, files, root)? {
        WalkAnswer::Walked(walk) => run(alloc, files, walk),
        WalkAnswer::Diags { files, list } => Ok(LoadAnswer::Diags {
            files,
            list: Row::from(list),
        }),
    }
}

/// Runs the files of a walk.
fn run<F: Files>(alloc: Global, files: &mut F, walk: Walk) -> Result<LoadAnswer, LoadFault>
    ensures value { (all : Told) → F.told files.old ≡ Some all → IfOk result (λ a. load_view a ≡ run_outcome all walk.names
        (load_run (plain_files walk.names walk.library.items (map file_view walk.trees.items)) walk.order.items)) }
    ensures is_load { IfOk result (IfLoaded IsLoad) }
    ensures same { F.told files.new ≡ F.told files.old }
    ensures cause { IsErrOf result LoadFault.Failed → Rose (F.faults files.old) (F.faults files.new) }
    ensures counts { F.faults files.old ≤ F.faults files.new }
    ensures calm { F.calm files.old → F.calm files.new }
    ensures unfailing { F.calm files.old → result ≢ Err LoadFault.Failed }
{
    let Walk {
        names,
        library,
        trees,
        order,
    } = walk;
    let sources = source_files(alloc, &names, &library, trees)?;
    match eval_files(alloc, &sources, &order) {
        Ok(parts) => with_zone(alloc, files, names, parts),
        Err(Stop::Fault { place, kind, text }) => Ok(refused(alloc, names, place, kind, text)?),
        Err(Stop::Blocked(_)) => unreachable!(),
        Err(Stop::Memory) => Err(LoadFault::OutOfMemory),
    }
}

/// What was loaded, with the file of the zone, if one is named.
fn with_zone<F: Files>(
    alloc: Global,
    files: &mut F,
    names: Texts,
    parts: LoadParts,
) -> Result<LoadAnswer, LoadFault>
    requires { IsLoad parts }
    ensures value { (all : Told) → F.told files.old ≡ Some all → IfOk result (λ a. load_view a ≡ zone_added names (plain_parts parts) (zone_found all (name_of_zone parts.store.cells))) }
    ensures is_load { IfOk result (IfLoaded IsLoad) }
    ensures same { F.told files.new ≡ F.told files.old }
    ensures cause { IsErrOf result LoadFault.Failed → Rose (F.faults files.old) (F.faults files.new) }
    ensures counts { F.faults files.old ≤ F.faults files.new }
    ensures calm { F.calm files.old → F.calm files.new }
    ensures unfailing { F.calm files.old → result ≢ Err LoadFault.Failed }
{
    let zone = zone_file(alloc, files, &parts.store)?;
    Ok(loaded(alloc, names, parts, zone)?)
}

fn loaded(
    alloc: Global,
    names: Texts,
    parts: LoadParts,
    zone: ZoneFile,
) -> Result<LoadAnswer, OutOfMemory>
    requires { IsLoad parts }
    ensures value { IfOk result (λ a. load_view a ≡ zone_added names (plain_parts parts) (zone_view zone)) }
    ensures is_load { IfOk result (IfLoaded IsLoad) }
{
    let zone = match zone {
        ZoneFile::Unnamed => None,
        ZoneFile::Read(bytes) => Some(bytes),
        ZoneFile::Missing(name) => return refused(alloc, names, START, DiagKind::NoFile, name),
    };
    Ok(LoadAnswer::Loaded(Loaded {
        files: names,
        parts,
        zone,
    }))
}

/// One fault that belongs to no item.
fn refused(
    alloc: Global,
    files: Texts,
    place: Place,
    kind: DiagKind,
    text: Text,
) -> Result<LoadAnswer, OutOfMemory>
    ensures value { IfOk result (λ a. load_view a ≡ fault_outcome files place kind text) }
    ensures is_load { IfOk result (IfLoaded IsLoad) }
{
    let mut list = Row::new(alloc);
    list.push(Diag {
        number: NO_ITEM,
        place,
        kind,
        text,
    })?;
    Ok(LoadAnswer::Diags { files, list })
}
