// A configuration.
ghost use Rattle.std.specs.Prelude.{◌≡◌, ◌≢◌, ◌≤◌, Bool, Some, IfOk, IsErrOf, Err};
ghost use Rattle.std.specs.Bool.{Decides};
ghost use Rattle.site_edge.specs.Told.{Rose};
ghost use Rattle.conf_sources.specs.Sources.{Told};
ghost use Rattle.site_phases.specs.Phases.{FilesStay, IfSite, IsReady, answer_view};
ghost use Rattle.site_load.specs.Configs.{IsBadZone, config_outcome, names_of};
ghost use Rattle.site_load.specs.Loads.{load_outcome};

use crate::LoadAnswer;
use crate::loading::load;
use commit_waves::commit_one;
use site_conf::LoadFault;
use site_edge::Files;
use site_phases::Answer;
use std::alloc::Global;

/// What the files of a site come to, from its root on: its typed site, or what is wrong with them.
///
/// It is what `load` comes to, and then `commit_one` (commit_waves). `Failed` comes only if the files' count of faults rose.
pub fn config_answer<F: Files>(
    alloc: Global,
    files: &mut F,
    root: &str,
) -> Result<Answer, LoadFault>
    // Whether the zone's file is one is what its reader says.
    ensures value { (all : Told) (bad : Bool) → F.told files.old ≡ Some all → Decides bad (IsBadZone (load_outcome all root.now))
        → IfOk result (λ a. answer_view a ≡ config_outcome bad (load_outcome all root.now)) }
    ensures files { (all : Told) → F.told files.old ≡ Some all → IfOk result (FilesStay (names_of (load_outcome all root.now))) }
    // A run may begin with every site that is given.
    ensures ready { IfOk result (λ a. IfSite a IsReady) }
    ensures same { F.told files.new ≡ F.told files.old }
    ensures cause { IsErrOf result LoadFault.Failed → Rose (F.faults files.old) (F.faults files.new) }
    ensures counts { F.faults files.old ≤ F.faults files.new }
    ensures calm { F.calm files.old → F.calm files.new }
    ensures unfailing { F.calm files.old → result ≢ Err LoadFault.Failed }
{
    match load(alloc, files, root)? {
        LoadAnswer::Loaded(loaded) => Ok(commit_one(alloc, loaded)?),
        LoadAnswer::Diags { files, list } => Ok(Answer::Diags { files, list }),
    }
}
