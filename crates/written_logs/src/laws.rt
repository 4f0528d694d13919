// Laws of the logs that the program writes.
ghost use Rattle.std.specs.Prelude.{ℕ, List, IfSome, Option, None, Some, false};
ghost use Rattle.std.specs.List.{AllByRecursion};
ghost use Rattle.audit_laws.specs.Fitting.{FitsTurn};
ghost use Rattle.audit_laws.specs.LegalLogs.{CanBeRun};
ghost use Rattle.run_replies.specs.Runs.{Files};
ghost use Rattle.run_text.specs.declared.style.Style.{Style};
ghost use Rattle.site_edge.specs.Told.{find_file};
ghost use Rattle.site_edge.specs.declared.turn.Turn.{Turn};
ghost use Rattle.site_model.specs.PlainSite.{PlainSite};
ghost use Rattle.site_program.specs.TaskAnswers.{Answers};
ghost use Rattle.site_run.specs.Callers.{AreCallers};
ghost use Rattle.site_run.specs.Logs.{Output};
ghost use Rattle.site_words.specs.Tasks.{daemon, replay};
ghost use Rattle.written_logs.specs.Written.{AreFew, IsSaidLegal, IsSiteInMemory, IsWholeLog};

/// A run can be made of each site that files make.
pub fn sites_of_files_can_be_run()
    ensures { (all : Files) (root : List ℕ) (s : PlainSite) → IsSiteInMemory all root s → CanBeRun s }
{}

/// Each log that `replay` or `daemon` writes is legal, with one worker and with up to 64, if its downtimes don't recur and it goes on after no state
/// file.
pub fn written_logs_are_legal()
    ensures replayed { (callers : ℕ) (style : Style) (root script : List ℕ) (all : Files) (turns : Option (List Turn)) (s : PlainSite) (w : Output)
        → AreCallers callers → IsSiteInMemory all root s → IfSome (find_file script all) AreFew
        → Answers callers (replay style false root script) (Some all) turns w → IsWholeLog w → IsSaidLegal callers s w }
    ensures watched { (callers : ℕ) (style : Style) (root : List ℕ) (all : Files) (turns : List Turn) (s : PlainSite) (w : Output)
        → AreCallers callers → IsSiteInMemory all root s → AllByRecursion FitsTurn turns
        → Answers callers (daemon style false root None) (Some all) (Some turns) w → IsWholeLog w → IsSaidLegal callers s w }
{}
