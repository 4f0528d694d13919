// What is known of state files.
ghost use Rattle.std.specs.Prelude.{◌≡◌, ℕ, List};
ghost use Rattle.site_edge.specs.declared.turn.Turn.{Turn};
ghost use Rattle.site_model.specs.PlainSite.{PlainSite};
ghost use Rattle.site_model.specs.Sound.{HasNames};
ghost use Rattle.site_run.specs.Logs.{Given};
ghost use Rattle.kept_runs.specs.Kept.{IsKept};

/// With one caller the state file of what turns leave is one, whatever the zone's file is read to.
pub fn a_state_file_is_one()
    ensures { (s : PlainSite) (given : Given) (turns : List Turn) (v w : List ℕ) → HasNames s
        → IsKept 1 s given turns v → IsKept 1 s given turns w → v ≡ w }
{}
