// What is known of how runs end.
ghost use Rattle.std.specs.Prelude.{◌≡◌, ℕ, List, Option};
ghost use Rattle.depend_graph.specs.Outlooks.{holds_in};
ghost use Rattle.jiff_tz.specs.declared.tzif.Tzif.{Tzif};
ghost use Rattle.run_meaning.specs.Runs.{TurnLog};
ghost use Rattle.run_text.specs.declared.style.Style.{Style};
ghost use Rattle.site_edge.specs.declared.turn.Turn.{Turn};
ghost use Rattle.site_model.specs.PlainSite.{PlainSite};
ghost use Rattle.site_model.specs.Sound.{HasNames};
ghost use Rattle.turn_engine.specs.Ready.{IsZoneOf};
ghost use Rattle.site_run.specs.Courses.{AreLogsOf, Course, IsNextLog, behind, log_of, logs};
ghost use Rattle.site_run.specs.Ends.{Ends, Outside, TellsOf};
ghost use Rattle.site_run.specs.Logs.{Given, IsLog, Output};
ghost use Rattle.site_run.specs.declared.status.Status.{Status};

/// With whatever a run of one caller ends, of as many as may be taken of the turns that came it wrote a prefix of the text and started a prefix of the
/// orders; and all of the text if it ended with `Done` or `TurnsSpent`, which tell whether no more turns came than may be taken.
pub fn runs_write_their_text()
    ensures { (s : Status) (c : Course) (limit : ℕ) (old new : Outside) → Ends s 1 c limit (λ _ _. Unit {0}) old new → TellsOf s c limit old new }
{}

/// The logs of one caller's turns are a function of the run and the turns: all of them, and that of one turn more after them.
pub fn logs_of_one_caller_are_one()
    ensures logs { (c : Course) (ts : List Turn) (ls : List TurnLog) → AreLogsOf 1 c ts ls → ls ≡ logs c ts }
    ensures next { (c : Course) (ts : List Turn) (t : Turn) (l : TurnLog) → IsNextLog 1 c ts (logs c ts) t l → l ≡ log_of (behind c ts) t }
{}

/// A zone's file decides when periods hold: they hold at the same moments by any two tables that are read from it.
pub fn a_zone_file_decides_when_periods_hold()
    ensures { (file : Option (List ℕ)) (a b : Option Tzif) → IsZoneOf file a → IsZoneOf file b → (s : PlainSite) → holds_in s a ≡ holds_in s b }
{}

/// So the log of one caller's turns over a site is one: its text, and how the run ends in which nothing fails.
pub fn a_log_over_a_site_is_one()
    ensures { (style : Style) (limit : ℕ) (s : PlainSite) (given : Given) (turns : List Turn) (v w : Output) → HasNames s → IsLog 1 style limit s given turns v → IsLog 1 style limit s given turns w → v ≡ w }
{}
