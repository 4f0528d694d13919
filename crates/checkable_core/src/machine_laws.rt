// What the entries of a post make of its checkable.
ghost use Rattle.std.specs.Prelude.{◌≡◌, ◌+◌, ℕ, List, length};
ghost use Rattle.post_turn.specs.History.{replay};
ghost use Rattle.site_model.specs.declared.entry.Entry.{Entry};
ghost use Rattle.checkable_core.specs.Contents.{Contents};
ghost use Rattle.checkable_core.specs.Machines.{after_entry, glance_by, with_entries};
ghost use Rattle.checkable_core.specs.declared.machine.SiteMachine.{SiteMachine};

/// The checkable of a post has the entries that the callers made there behind those that it began with, and what a caller sees of
/// it counts all of them: so the count of a glance tells how many of the callers' entries were seen.
pub fn entries_of_a_post_stand_behind()
    ensures replayed { (m : SiteMachine) (start : Contents) (es : List Entry) → replay (after_entry m) start es ≡ with_entries start es }
    ensures counted { (m : SiteMachine) (k : Contents) → (glance_by m k).count ≡ length k.entries }
    ensures seen { (m : SiteMachine) (start : Contents) (es : List Entry) → (glance_by m (replay (after_entry m) start es)).count ≡ length start.entries + length es }
{}
