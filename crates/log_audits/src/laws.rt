// What is known of verdicts.
ghost use Rattle.std.specs.Prelude.{◌≡◌, ℕ, List};
ghost use Rattle.site_audit.specs.Audit.{IsVerdict};
ghost use Rattle.site_audit.specs.declared.auditing.Verdict.{Verdict};
ghost use Rattle.site_model.specs.PlainSite.{PlainSite};

/// As a log of so many workers it has one verdict, whatever the zone's file is read to.
pub fn a_verdict_is_one()
    ensures { (callers : ℕ) (s : PlainSite) (log : List ℕ) (v w : Verdict) → IsVerdict callers s log v → IsVerdict callers s log w → v ≡ w }
{}
