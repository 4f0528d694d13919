// What is known of whole runs.
ghost use Rattle.std.specs.Prelude.{◌≡◌, ℕ, Bool, List, Option};
ghost use Rattle.jiff_tz.specs.declared.tzif.Tzif.{Tzif};
ghost use Rattle.run_meaning.specs.Turns.{Histories};
ghost use Rattle.run_text.specs.declared.style.Style.{Style};
ghost use Rattle.site_edge.specs.declared.turn.Turn.{Turn};
ghost use Rattle.site_model.specs.PlainSite.{PlainSite};
ghost use Rattle.site_model.specs.Sound.{HasNames};
ghost use Rattle.site_query.specs.declared.query.Query.{Query};
ghost use Rattle.site_run.specs.Logs.{Given, Output};
ghost use Rattle.turn_engine.specs.Ready.{IsZoneOf};
ghost use Rattle.whole_runs.specs.Logs.{IsSiteLog};
ghost use Rattle.whole_runs.specs.Queried.{IsQueried};
ghost use Rattle.whole_runs.specs.Recurring.{recurring_lines};

/// A zone's file decides what recurs: downtimes give the same lines by any two tables that are read from it.
pub fn a_zone_file_decides_what_recurs()
    ensures { (s : PlainSite) (a b : Option Tzif) → IsZoneOf s.zone a → IsZoneOf s.zone b → recurring_lines s a ≡ recurring_lines s b }
{}

/// So the log of one caller's turns over a site is one, whether its downtimes recur or not.
pub fn a_site_log_is_one()
    ensures { (style : Style) (recur : Bool) (limit : ℕ) (s : PlainSite) (histories : Histories) (turns : List Turn) (v w : Output) → HasNames s
        → IsSiteLog 1 style recur limit s histories turns v → IsSiteLog 1 style recur limit s histories turns w → v ≡ w }
{}

/// And so is the answer to a query once they are over.
pub fn an_answer_is_one()
    ensures { (s : PlainSite) (given : Given) (turns : List Turn) (query : Query) (v w : List ℕ) → HasNames s
        → IsQueried 1 s given turns query v → IsQueried 1 s given turns query w → v ≡ w }
{}
