// Worked examples of what is told of an item at two places.
ghost use Rattle.std.specs.Prelude.{◌≡◌, [], ◌∷◌, codes};
ghost use Rattle.site_base.specs.declared.diag_kind.DiagKind.TheVariants as kind;
ghost use Rattle.dsl_syntax.specs.Syntax.{no_statements};
ghost use Rattle.commit_meaning.specs.Answers.{diagnosed, diag};
ghost use Rattle.commit_meaning.specs.Items.{item_answer};
ghost use Rattle.place_laws.specs.Examples.{at};
ghost use Rattle.commit_places.specs.Examples.{first, host_in, name_in, nothing};

/// A name without a value is told where it stands in the body, and an attribute that is missing at the item.
pub fn a_host_in_two_lines()
    ensures name { item_answer nothing (host_in 1 (name_in 2)) ≡ diagnosed (diag first (at 0 2 3) kind.Undefined (codes "\"y\"") ∷ []) }
    ensures lower_name { item_answer nothing (host_in 7 (name_in 9)) ≡ diagnosed (diag first (at 0 9 3) kind.Undefined (codes "\"y\"") ∷ []) }
    ensures missing { item_answer nothing (host_in 1 no_statements) ≡ diagnosed (diag first (at 0 1 1) kind.MissingAttr (codes "\"check_command\"") ∷ []) }
    ensures lower_missing { item_answer nothing (host_in 7 no_statements) ≡ diagnosed (diag first (at 0 7 1) kind.MissingAttr (codes "\"check_command\"") ∷ []) }
{}
