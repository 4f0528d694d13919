// Laws of legal logs.
ghost use Rattle.std.specs.Prelude.{◌≡◌, ◌<◌, ◌≤◌, ◌^◌, ℕ, List, length, map, Option};
ghost use Rattle.std.specs.List.{AllByRecursion};
ghost use Rattle.jiff_tz.specs.declared.tzif.Tzif.{Tzif};
ghost use Rattle.site_edge.specs.declared.turn.Turn.{Turn};
ghost use Rattle.site_model.specs.PlainSite.{PlainSite};
ghost use Rattle.run_meaning.specs.Runs.{IsRun, TurnLog, no_entries, start};
ghost use Rattle.run_text.specs.TurnReading.{turn_read};
ghost use Rattle.run_text.specs.declared.style.Style.{Style};
ghost use Rattle.turn_engine.specs.Stages.{basis_of_site};
ghost use Rattle.site_run.specs.Logs.{Output};
ghost use Rattle.site_audit.specs.Audit.{IsLegal, IsVerdict};
ghost use Rattle.site_audit.specs.declared.auditing.Verdict.{Verdict};
ghost use Rattle.site_audit.specs.declared.auditing.Verdict.TheVariants as verdict;
ghost use Rattle.audit_laws.specs.Fitting.{entries_in, FitsLog, FitsTurn};
ghost use Rattle.audit_laws.specs.LegalLogs.{blocks_written, CanBeRun, IsLogInMemory, IsRunInMemory};

/// The log that a run of up to 64 callers writes is legal, in both versions: its blocks tell turns, of which a run of as many writes the
/// same blocks. So an audit says of what is written that it is legal, and of no line that the log goes wrong there.
pub fn logs_of_runs_are_legal()
    ensures legal { (style : Style) (s : PlainSite) (zone : Option Tzif) (callers : ℕ) → CanBeRun s → 1 ≤ callers → callers ≤ 64 → (turns : List Turn) (logs : List TurnLog) → IsRunInMemory callers s zone turns logs → IsLegal style (basis_of_site s zone) callers s (blocks_written style s logs) }
    ensures said { (style : Style) (limit : ℕ) (s : PlainSite) (callers : ℕ) → CanBeRun s → 1 ≤ callers → callers ≤ 64 → (turns : List Turn) (w : Output) → IsLogInMemory callers style limit s turns w → IsVerdict callers s w.text verdict.Legal }
    ensures only { (style : Style) (limit : ℕ) (s : PlainSite) (callers : ℕ) → CanBeRun s → 1 ≤ callers → callers ≤ 64 → (turns : List Turn) (w : Output) → IsLogInMemory callers style limit s turns w → (v : Verdict) → IsVerdict callers s w.text v → v ≡ verdict.Legal }
{}

/// The logs of a run fit in memory if its turns do and are at most 2^40, and if no checkable gets 2^64 entries.
pub fn logs_of_runs_fit()
    ensures { (s : PlainSite) (zone : Option Tzif) (callers : ℕ) → CanBeRun s → 1 ≤ callers → callers ≤ 2 ^ 32 → (turns : List Turn) (logs : List TurnLog) → IsRun (basis_of_site s zone) callers (start s (no_entries s)) (map (turn_read s) turns) logs → AllByRecursion FitsTurn turns → length turns ≤ 2 ^ 40 → ((k : ℕ) → entries_in k logs < 2 ^ 64) → AllByRecursion FitsLog logs }
{}
