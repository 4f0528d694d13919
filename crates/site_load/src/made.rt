// A configuration, with what is to be remarked of its rules.
ghost use Rattle.std.specs.Prelude.{◌≡◌, ◌≢◌, ◌≤◌, Bool, Some, IfOk, IsErrOf, Err, map};
ghost use Rattle.std.specs.Bool.{Decides};
ghost use Rattle.site_edge.specs.Told.{Rose};
ghost use Rattle.conf_sources.specs.Sources.{Told};
ghost use Rattle.eval_work.specs.Works.{plain_rule};
ghost use Rattle.dsl_load.specs.Loads.{IsLoad, plain_parts};
ghost use Rattle.commit_meaning.specs.Commits.{commit};
ghost use Rattle.site_phases.specs.Constants.{AreBadBytes, settings_of};
ghost use Rattle.site_phases.specs.Phases.{FilesStay, IfSite, IsReady, answer_view, phases, site_made};
ghost use Rattle.commit_waves.specs.Globals.{globals_of};
ghost use Rattle.site_load.specs.Configs.{IsBadZone, config_outcome, names_of};
ghost use Rattle.site_load.specs.Idle.{idle_by, rules_of};
ghost use Rattle.site_load.specs.Loads.{load_outcome};

use crate::LoadAnswer;
use crate::idle::{idle_rules, marks_of};
use crate::loading::load;
use commit_waves::{Loaded, commit_one};
use site_base::{OutOfMemory, Place, Row};
use site_conf::LoadFault;
use site_edge::Files;
use site_phases::Answer;
use std::alloc::Global;

/// What the files of a site come to, and the places of the apply rules of which no object was made.
#[derive(Drop)]
pub struct Made {
    pub answer: Answer,
    pub idle: Row<Place>,
}

/// The same as [`crate::config_answer`], and the places of those apply rules of which no object was made, in the order in which they were
/// registered. If there is no site, none is named.
///
/// `Failed` comes only if the files' count of faults rose.
pub fn config_made<F: Files>(alloc: Global, files: &mut F, root: &str) -> Result<Made, LoadFault>
    ensures value { (all : Told) (bad : Bool) → F.told files.old ≡ Some all → Decides bad (IsBadZone (load_outcome all root.now))
        → IfOk result (λ m. answer_view m.answer ≡ config_outcome bad (load_outcome all root.now)) }
    ensures idle { (all : Told) → F.told files.old ≡ Some all → IfOk result (λ m. m.idle ≡ idle_by (rules_of (load_outcome all root.now)) (answer_view m.answer)) }
    ensures files { (all : Told) → F.told files.old ≡ Some all → IfOk result (λ m. FilesStay (names_of (load_outcome all root.now)) m.answer) }
    ensures ready { IfOk result (λ m. IfSite m.answer IsReady) }
    ensures same { F.told files.new ≡ F.told files.old }
    ensures cause { IsErrOf result LoadFault.Failed → Rose (F.faults files.old) (F.faults files.new) }
    ensures counts { F.faults files.old ≤ F.faults files.new }
    ensures calm { F.calm files.old → F.calm files.new }
    ensures unfailing { F.calm files.old → result ≢ Err LoadFault.Failed }
{
    match load(alloc, files, root)? {
        LoadAnswer::Loaded(loaded) => Ok(committed(alloc, loaded)?),
        LoadAnswer::Diags { files, list } => Ok(Made {
            answer: Answer::Diags { files, list },
            idle: Row::new(alloc),
        }),
    }
}

/// The commit of what was loaded.
#[tactic(auto, using(crate::proofs::Idling::idle_as_marked))]
fn committed(alloc: Global, loaded: Loaded) -> Result<Made, OutOfMemory>
    requires { IsLoad loaded.parts }
    ensures value { (bad : Bool) → Decides bad (AreBadBytes (settings_of (globals_of loaded.parts.store.cells loaded.zone)).zone)
        → IfOk result (λ m. answer_view m.answer ≡ commit (λ os. phases loaded.files (globals_of loaded.parts.store.cells loaded.zone) os bad)
        (site_made loaded.files (globals_of loaded.parts.store.cells loaded.zone)) (plain_parts loaded.parts)) }
    ensures idle { IfOk result (λ m. m.idle ≡ idle_by (map plain_rule loaded.parts.rules.items) (answer_view m.answer)) }
    ensures files { IfOk result (λ m. FilesStay loaded.files m.answer) }
    ensures ready { IfOk result (λ m. IfSite m.answer IsReady) }
{
    let rules = marks_of(alloc, &loaded.parts.rules)?;
    let answer = commit_one(alloc, loaded)?;
    let idle = idle_rules(alloc, &rules, &answer)?;
    Ok(Made { answer, idle })
}
