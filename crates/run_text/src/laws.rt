// What is known of turns as they are read.
ghost use Rattle.std.specs.Prelude.{◌≡◌, ◌≤◌, ℕ, List, [], Bool, Some, map, true, length, slice_get};
ghost use Rattle.site_edge.specs.declared.turn.Turn.{Turn};
ghost use Rattle.site_model.specs.PlainSite.{PlainCheck, PlainSite};
ghost use Rattle.site_model.specs.Sound.{HasNames};
ghost use Rattle.run_meaning.specs.Lookback.{AskCommands, ask_commands, back_by, is_outstanding, slot_back};
ghost use Rattle.run_meaning.specs.Meaning.{basis_of};
ghost use Rattle.run_meaning.specs.Runs.{IsRun, TurnLog, stage_by, start};
ghost use Rattle.run_meaning.specs.Schedule.{is_waiting};
ghost use Rattle.run_meaning.specs.Turns.{Command, Histories, ReadTurn};
ghost use Rattle.run_text.specs.ReadTurns.{AreTurnsRead};
ghost use Rattle.run_text.specs.TurnReading.{lines_read, nothing_fed, turn_read};

use run_meaning::{
    no_more_orders_than_may_be, outstanding_orders_are_the_same, slots_are_by_looking_back,
};

/// By the relation of command lines turns are read in exactly one way.
pub fn turns_are_read_in_one_way()
    ensures is { (s : PlainSite) (ts : List Turn) → HasNames s → AreTurnsRead s ts (map (turn_read s) ts) }
    ensures only { (s : PlainSite) (ts : List Turn) (rs : List ReadTurn) → HasNames s → AreTurnsRead s ts rs → rs ≡ map (turn_read s) ts }
{}

/// Lines ask for what a command can ask for alone: for no ordered check's result and for no tick. So do the turns of a
/// script.
pub fn lines_ask_for_commands()
    ensures lines { (s : PlainSite) (lines : List (List ℕ)) → ask_commands (lines_read s lines) ≡ true }
    ensures turns { (s : PlainSite) (ts : List Turn) → AskCommands nothing_fed (map (turn_read s) ts) }
{}

/// So in every run of a script's turns, whatever checks are ordered and however many callers there are, the schedule keeps
/// of a checkable what looking back gives, has an order of it outstanding exactly if one is by its entries, and never
/// more orders outstanding than may be.
pub fn scripts_keep_the_schedule()
    ensures slots { (s : PlainSite) (holds : ℕ → ℕ → Bool) (command : ℕ → Command) (callers : ℕ) (given : Histories) (ts : List Turn) (ls : List TurnLog) → IsRun (basis_of s holds command nothing_fed) callers (start s given) (map (turn_read s) ts) ls → (k : ℕ) (c : PlainCheck) → slice_get s.checkables k ≡ Some c →
        slice_get (stage_by (basis_of s holds command nothing_fed) (start s given) (map (turn_read s) ts) ls).plans.slots k ≡ Some (slot_back c (back_by s holds command nothing_fed k c [] (start s given) (map (turn_read s) ts) ls)) }
    ensures outstanding { (s : PlainSite) (holds : ℕ → ℕ → Bool) (command : ℕ → Command) (callers : ℕ) (given : Histories) (ts : List Turn) (ls : List TurnLog) → IsRun (basis_of s holds command nothing_fed) callers (start s given) (map (turn_read s) ts) ls → (k : ℕ) (c : PlainCheck) → slice_get s.checkables k ≡ Some c →
        is_waiting (stage_by (basis_of s holds command nothing_fed) (start s given) (map (turn_read s) ts) ls).plans.outstanding k ≡ is_outstanding (back_by s holds command nothing_fed k c [] (start s given) (map (turn_read s) ts) ls) }
    ensures few { (s : PlainSite) (holds : ℕ → ℕ → Bool) (command : ℕ → Command) (callers : ℕ) (given : Histories) (ts : List Turn) (ls : List TurnLog) → IsRun (basis_of s holds command nothing_fed) callers (start s given) (map (turn_read s) ts) ls →
        length (stage_by (basis_of s holds command nothing_fed) (start s given) (map (turn_read s) ts) ls).plans.outstanding ≤ s.max_orders }
{
    slots_are_by_looking_back();
    outstanding_orders_are_the_same();
    no_more_orders_than_may_be();
}
