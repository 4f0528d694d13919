// Who makes the objects of a configuration.
ghost use Rattle.std.specs.Prelude.{◌≡◌, ◌≢◌, ◌≤◌, Bool, Some, IfOk, IsErrOf, Err};
ghost use Rattle.std.specs.Bool.{Decides};
ghost use Rattle.site_edge.specs.Told.{Rose};
ghost use Rattle.conf_sources.specs.Sources.{Told};
ghost use Rattle.conf_sources.specs.declared.load_fault.LoadFault.TheVariants as fault;
ghost use Rattle.site_phases.specs.Phases.{FilesStay, IfSite, IsReady, answer_view};
ghost use Rattle.site_load.specs.Configs.{IsBadZone, config_outcome, names_of};
ghost use Rattle.site_load.specs.Idle.{idle_by, rules_of};
ghost use Rattle.site_load.specs.Loads.{load_outcome};

use site_conf::LoadFault;
use site_edge::Files;
use site_load::{Made, config_answer, config_made};
use site_phases::Answer;
use std::alloc::Global;

/// Who makes the objects of a configuration, once its files are loaded.
pub trait Committers<F: Files> {
    /// What has to hold so that they answer as these calls say.
    ghost apt: { Self → Type 0 };

    /// What the files of a site come to, from its root on, as [`config_answer`] says.
    ///
    /// # Errors
    ///
    /// `Failed` comes only if the files' count of faults rose.
    fn answer(&self, alloc: Global, files: &mut F, root: &str) -> Result<Answer, LoadFault>
        requires apt { apt self.now }
        ensures value { (all : Told) (bad : Bool) → F.told files.old ≡ Some all → Decides bad (IsBadZone (load_outcome all root.now))
            → IfOk result (λ a. answer_view a ≡ config_outcome bad (load_outcome all root.now)) }
        ensures files { (all : Told) → F.told files.old ≡ Some all → IfOk result (FilesStay (names_of (load_outcome all root.now))) }
        ensures ready { IfOk result (λ a. IfSite a IsReady) }
        ensures same { F.told files.new ≡ F.told files.old }
        ensures cause { IsErrOf result LoadFault.Failed → Rose (F.faults files.old) (F.faults files.new) }
        ensures counts { F.faults files.old ≤ F.faults files.new }
        ensures calm { F.calm files.old → F.calm files.new }
        ensures unfailing { F.calm files.old → result ≢ Err LoadFault.Failed };

    /// The same, and the places of those apply rules of which no object was made, as [`config_made`] says.
    ///
    /// # Errors
    ///
    /// As those of `answer`.
    fn made(&self, alloc: Global, files: &mut F, root: &str) -> Result<Made, LoadFault>
        requires apt { apt self.now }
        ensures value { (all : Told) (bad : Bool) → F.told files.old ≡ Some all → Decides bad (IsBadZone (load_outcome all root.now))
            → IfOk result (λ m. answer_view m.answer ≡ config_outcome bad (load_outcome all root.now)) }
        ensures idle { (all : Told) → F.told files.old ≡ Some all → IfOk result (λ m. m.idle ≡ idle_by (rules_of (load_outcome all root.now)) (answer_view m.answer)) }
        ensures files { (all : Told) → F.told files.old ≡ Some all → IfOk result (λ m. FilesStay (names_of (load_outcome all root.now)) m.answer) }
        ensures ready { IfOk result (λ m. IfSite m.answer IsReady) }
        ensures same { F.told files.new ≡ F.told files.old }
        ensures cause { IsErrOf result LoadFault.Failed → Rose (F.faults files.old) (F.faults files.new) }
        ensures counts { F.faults files.old ≤ F.faults files.new }
        ensures calm { F.calm files.old → F.calm files.new }
        ensures unfailing { F.calm files.old → result ≢ Err LoadFault.Failed };
}

/// One worker: no thread is made.
pub struct OneCommitter;

impl<F: Files> Committers<F> for OneCommitter {
    ghost apt = { λ _. Unit {0} };

    fn answer(&self, alloc: Global, files: &mut F, root: &str) -> Result<Answer, LoadFault> {
        config_answer(alloc, files, root)
    }

    fn made(&self, alloc: Global, files: &mut F, root: &str) -> Result<Made, LoadFault> {
        config_made(alloc, files, root)
    }
}

/// Several workers. A closure answers each call: it has what threads are made and waited for by.
#[derive(Drop)]
pub struct ManyCommitters<A, M> {
    pub answer: A,
    pub made: M,
}

impl<
    F: Files,
    A: Fn(Global, &mut F, &str) -> Result<Answer, LoadFault>,
    M: Fn(Global, &mut F, &str) -> Result<Made, LoadFault>,
> Committers<F> for ManyCommitters<A, M> {
    ghost apt = { λ w. ((alloc : _) (files : _) (root : _) → A.pre w.answer alloc files root) ×
        ((alloc : _) (files : _) (root : _) → M.pre w.made alloc files root) ×
        ((alloc : _) (files : _) (root : _) (out : _) (left : _) → A.post w.answer alloc files root out left →
        ((all : Told) (bad : Bool) → F.told files.now ≡ Some all → Decides bad (IsBadZone (load_outcome all root.now)) → IfOk out (λ a. answer_view a ≡ config_outcome bad (load_outcome all root.now))) ×
        ((all : Told) → F.told files.now ≡ Some all → IfOk out (FilesStay (names_of (load_outcome all root.now)))) ×
        (IfOk out (λ a. IfSite a IsReady)) ×
        (F.told left.now ≡ F.told files.now) ×
        (IsErrOf out fault.Failed → Rose (F.faults files.now) (F.faults left.now)) ×
        (F.faults files.now ≤ F.faults left.now) ×
        (F.calm files.now → F.calm left.now) ×
        (F.calm files.now → out ≢ Err fault.Failed)) ×
        ((alloc : _) (files : _) (root : _) (out : _) (left : _) → M.post w.made alloc files root out left →
        ((all : Told) (bad : Bool) → F.told files.now ≡ Some all → Decides bad (IsBadZone (load_outcome all root.now)) → IfOk out (λ m. answer_view m.answer ≡ config_outcome bad (load_outcome all root.now))) ×
        ((all : Told) → F.told files.now ≡ Some all → IfOk out (λ m. m.idle ≡ idle_by (rules_of (load_outcome all root.now)) (answer_view m.answer))) ×
        ((all : Told) → F.told files.now ≡ Some all → IfOk out (λ m. FilesStay (names_of (load_outcome all root.now)) m.answer)) ×
        (IfOk out (λ m. IfSite m.answer IsReady)) ×
        (F.told left.now ≡ F.told files.now) ×
        (IsErrOf out fault.Failed → Rose (F.faults files.now) (F.faults left.now)) ×
        (F.faults files.now ≤ F.faults left.now) ×
        (F.calm files.now → F.calm left.now) ×
        (F.calm files.now → out ≢ Err fault.Failed)) };

    fn answer(&self, alloc: Global, files: &mut F, root: &str) -> Result<Answer, LoadFault> {
        (self.answer)(alloc, files, root)
    }

    fn made(&self, alloc: Global, files: &mut F, root: &str) -> Result<Made, LoadFault> {
        (self.made)(alloc, files, root)
    }
}
