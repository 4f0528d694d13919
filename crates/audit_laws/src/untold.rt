// Laws of the texts of results.
ghost use Rattle.std.specs.Prelude.{ℕ, Bool};
ghost use Rattle.run_meaning.specs.Turns.{Command};
ghost use Rattle.site_model.specs.PlainSite.{PlainSite};
ghost use Rattle.audit_laws.specs.Alike.{WriteTheSame};
ghost use Rattle.audit_laws.specs.Untold.{MakesTheSame, KeepsRounds, KeepsTicks, KeepsOrders, KeepsLines};

/// The texts of results change nothing else: without them, as a log of version one tells of a run, events make the same entries and
/// the same rounds, the same checkables tick, the same checks are ordered, and each entry has the same line in version one.
pub fn texts_change_nothing_else()
    ensures entries { (s : PlainSite) (holds : ℕ → ℕ → Bool) → MakesTheSame s holds }
    ensures rounds { (s : PlainSite) (holds : ℕ → ℕ → Bool) → KeepsRounds s holds }
    ensures ticks { (s : PlainSite) → KeepsTicks s }
    ensures orders { (s : PlainSite) (holds : ℕ → ℕ → Bool) (command : ℕ → Command) → KeepsOrders s holds command }
    ensures lines { (s : PlainSite) → KeepsLines s }
{}

/// Over turns that are the same but for the texts of results, as those that a log of version one tells are, one caller writes the
/// same log of version one.
pub fn turns_without_texts_write_the_same()
    ensures { (s : PlainSite) (holds : ℕ → ℕ → Bool) (command : ℕ → Command) → WriteTheSame s holds command }
{}
