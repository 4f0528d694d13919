// Laws.
ghost use Rattle.std.specs.Prelude.{◌≡◌, ℕ, List, Some, map, true};
ghost use Rattle.run_meaning.specs.Alone.{IsOnSite};
ghost use Rattle.run_meaning.specs.Runs.{Basis, no_entries, start};
ghost use Rattle.run_text.specs.TurnReading.{turn_read};
ghost use Rattle.run_text.specs.declared.style.Style.{Style};
ghost use Rattle.site_edge.specs.declared.turn.Turn.{Turn};
ghost use Rattle.site_model.specs.PlainSite.{PlainSite};
ghost use Rattle.site_audit.specs.Audit.{is_legal, IsLegal};
ghost use Rattle.site_audit.specs.Told.{turns_in};

/// With one caller it is a test whether blocks are legal: what is legal passes it, and what passes it is legal, if all that the told turns
/// bring is on checkables of the site.
pub fn legal_blocks_of_one_caller_pass_a_test()
    ensures passes { (style : Style) (b : Basis) (s : PlainSite) (blocks : List (List (List ℕ))) → IsLegal style b 1 s blocks → is_legal style b s blocks ≡ true }
    ensures legal { (style : Style) (b : Basis) (s : PlainSite) (blocks : List (List (List ℕ))) →
        ((turns : List Turn) → turns_in 1 s style blocks ≡ Some turns → IsOnSite b (start s (no_entries s)) (map (turn_read s) turns)) → is_legal style b s blocks ≡ true → IsLegal style b 1 s blocks }
{}
