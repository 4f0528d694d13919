// What the files of a site come to, once it is remarked what the program doesn't do of it.
ghost use Rattle.std.specs.Prelude.{◌≡◌, ◌≢◌, ◌≤◌, Bool, Some, IfOk, OnOk, IsErrOf, Err};
ghost use Rattle.std.specs.Bool.{Decides};
ghost use Rattle.site_edge.specs.Told.{Rose};
ghost use Rattle.conf_sources.specs.Sources.{Told};
ghost use Rattle.site_phases.specs.Phases.{FilesStay, IfSite, IsReady, answer_view};
ghost use Rattle.site_load.specs.Configs.{IsBadZone, config_outcome, names_of};
ghost use Rattle.site_load.specs.Idle.{idle_by, rules_of};
ghost use Rattle.site_load.specs.Loads.{load_outcome};
ghost use Rattle.site_replies.specs.Remarks.{remarks_of as remarks_for, with_remarks};

use crate::committers::Committers;
use site_conf::LoadFault;
use site_edge::Files;
use site_load::Made;
use site_phases::Answer;
use site_replies::{Remarks, remarks_of, tell_all};
use std::alloc::Global;

/// What the files of a site come to, once it is told what is remarked of the site, if there is one, whose downtimes recur or don't, and
/// how many of its checks may be outstanding.
pub(crate) fn answer_remarked<F: Files, N: Remarks, M: Committers<F>>(
    alloc: Global,
    committers: &M,
    recur: bool,
    files: &mut F,
    root: &str,
    remarks: &mut N,
) -> Result<Answer, LoadFault>
    requires apt { M.apt committers.now }
    ensures value { (all : Told) (bad : Bool) → F.told files.old ≡ Some all → Decides bad (IsBadZone (load_outcome all root.now))
        → IfOk result (λ a. answer_view a ≡ config_outcome bad (load_outcome all root.now)) }
    ensures files { (all : Told) → F.told files.old ≡ Some all → IfOk result (FilesStay (names_of (load_outcome all root.now))) }
    ensures ready { IfOk result (λ a. IfSite a IsReady) }
    ensures remarked { (all : Told) → F.told files.old ≡ Some all
        → IfOk result (λ a. N.remarked remarks.new ≡ with_remarks (N.remarked remarks.old) (remarks_for recur (answer_view a) (idle_by (rules_of (load_outcome all root.now)) (answer_view a)))) }
    ensures same { F.told files.new ≡ F.told files.old }
    ensures cause { IsErrOf result LoadFault.Failed → Rose (F.faults files.old) (F.faults files.new) }
    ensures counts { F.faults files.old ≤ F.faults files.new }
    ensures calm { F.calm files.old → F.calm files.new }
    ensures unfailing { F.calm files.old → result ≢ Err LoadFault.Failed }
{
    let Made { answer, idle } = committers.made(alloc, files, root)?;
    let list = remarks_of(alloc, recur, &answer, idle.as_slice())?;
    tell_all(&list, remarks)?;
    if let Answer::Site(site) = &answer {
        remarks.limit(site.max_orders);
    }
    Ok(answer)
}
