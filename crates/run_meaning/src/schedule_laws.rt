// Laws of the schedule.
ghost use Rattle.std.specs.Prelude.{◌≡◌, ◌≤◌, ℕ, [], List, Bool, Some, length, slice_get};
ghost use Rattle.site_model.specs.PlainSite.{PlainCheck, PlainSite};
ghost use Rattle.run_meaning.specs.Turns.{Command, Feed, Histories, ReadTurn};
ghost use Rattle.run_meaning.specs.Runs.{TurnLog, IsRun, stage_by, start};
ghost use Rattle.run_meaning.specs.Meaning.{basis_of};
ghost use Rattle.run_meaning.specs.Schedule.{is_waiting};
ghost use Rattle.run_meaning.specs.Lookback.{AskCommands, back_by, is_outstanding, slot_back};

/// However many callers there are, after each turn of a run the schedule keeps of a checkable what looking back gives: its
/// next moment is what the last of the events that set it set, and it is forced where a forced Check stands after its last
/// order.
pub fn slots_are_by_looking_back()
    ensures { (s : PlainSite) (holds : ℕ → ℕ → Bool) (command : ℕ → Command) (feed : Feed) (callers : ℕ) (given : Histories) (ts : List ReadTurn) (ls : List TurnLog) → IsRun (basis_of s holds command feed) callers (start s given) ts ls → AskCommands feed ts → (k : ℕ) (c : PlainCheck) → slice_get s.checkables k ≡ Some c →
        slice_get (stage_by (basis_of s holds command feed) (start s given) ts ls).plans.slots k ≡ Some (slot_back c (back_by s holds command feed k c [] (start s given) ts ls)) }
{}

/// A checkable has an order that is outstanding by the reports, as the stage counts them, exactly if it has one by its
/// entries, as the schedule does.
pub fn outstanding_orders_are_the_same()
    ensures { (s : PlainSite) (holds : ℕ → ℕ → Bool) (command : ℕ → Command) (feed : Feed) (callers : ℕ) (given : Histories) (ts : List ReadTurn) (ls : List TurnLog) → IsRun (basis_of s holds command feed) callers (start s given) ts ls → AskCommands feed ts → (k : ℕ) (c : PlainCheck) → slice_get s.checkables k ≡ Some c →
        is_waiting (stage_by (basis_of s holds command feed) (start s given) ts ls).plans.outstanding k ≡ is_outstanding (back_by s holds command feed k c [] (start s given) ts ls) }
{}

/// No more orders are outstanding than may be, whatever is reported.
pub fn no_more_orders_than_may_be()
    ensures { (s : PlainSite) (holds : ℕ → ℕ → Bool) (command : ℕ → Command) (feed : Feed) (callers : ℕ) (given : Histories) (ts : List ReadTurn) (ls : List TurnLog) → IsRun (basis_of s holds command feed) callers (start s given) ts ls → AskCommands feed ts →
        length (stage_by (basis_of s holds command feed) (start s given) ts ls).plans.outstanding ≤ s.max_orders }
{}
