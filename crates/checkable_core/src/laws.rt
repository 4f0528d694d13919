// What the entries that are made keep.
ghost use Rattle.std.specs.Prelude.{◌≡◌, ◌≤◌, ◌++◌, ◌∷◌, [], ℕ, List, Option, map};
ghost use Rattle.jiff_tz.specs.declared.tzif.Tzif.{Tzif};
ghost use Rattle.site_model.specs.PlainSite.{PlainSite};
ghost use Rattle.site_model.specs.Sound.{IsSound};
ghost use Rattle.site_model.specs.declared.entry.Entry.{Entry};
ghost use Rattle.site_model.specs.declared.event.Event.{Event};
ghost use Rattle.site_model.specs.declared.view.View.{View};
ghost use Rattle.run_meaning.specs.Dealing.{last_moment};
ghost use Rattle.run_meaning.specs.Reachability.{ancestors};
ghost use Rattle.checkable_core.specs.Entries.{entry_made};
ghost use Rattle.checkable_core.specs.Histories.{IsEntryOf, IsHistory, IsLawful};

/// An entry that a lawful event makes of a checkable, by sights of its ancestors, names what is the site's, and goes on with a
/// history: so a checkable keeps entries that can be printed and that make it again.
pub fn made_entries_go_on_with_histories()
    ensures entry { (s : PlainSite) (zone : Option Tzif) (k : ℕ) (h : List Entry) (caller moment : ℕ) (v : Event) (sights : List (ℕ × View)) →
        IsSound s → IsLawful v → map (λ x. x.0) sights ≡ ancestors s k → IsEntryOf s (entry_made s zone k h caller moment v sights) }
    ensures history { (s : PlainSite) (zone : Option Tzif) (k : ℕ) (h : List Entry) (caller moment : ℕ) (v : Event) (sights : List (ℕ × View)) →
        IsSound s → IsLawful v → map (λ x. x.0) sights ≡ ancestors s k → IsHistory s h → last_moment h ≤ moment → IsHistory s (h ++ entry_made s zone k h caller moment v sights ∷ []) }
{}
