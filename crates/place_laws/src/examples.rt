// Worked examples of what places change, and of what they don't.
ghost use Rattle.std.specs.Prelude.{◌≡◌, [], ◌∷◌, codes, true, false};
ghost use Rattle.site_base.specs.declared.diag_kind.DiagKind.TheVariants as kind;
ghost use Rattle.dsl_value.specs.declared.value.Value.TheVariants as value;
ghost use Rattle.eval_meaning.specs.States.{gives, faults};
ghost use Rattle.eval_meaning.specs.Evaluation.{value_of};
ghost use Rattle.eval_meaning.specs.Load.{load_run};
ghost use Rattle.place_laws.specs.Examples.{at, sum_in, nothing, rule_with, template_twice, object_at, first_file, in_library};

/// A sum gives one value, and leaves one state, in whichever line it stands. Where its name has no value, the fault stands in that line.
pub fn a_sum_in_two_lines()
    ensures third { value_of nothing 9 (sum_in 3) (rule_with ((codes "x", value.Str (codes "b")) ∷ []) 10 10) ≡ gives (value.Str (codes "ab")) (rule_with ((codes "x", value.Str (codes "b")) ∷ []) 7 7) }
    ensures ninth { value_of nothing 9 (sum_in 9) (rule_with ((codes "x", value.Str (codes "b")) ∷ []) 10 10) ≡ gives (value.Str (codes "ab")) (rule_with ((codes "x", value.Str (codes "b")) ∷ []) 7 7) }
    ensures third_fault { value_of nothing 9 (sum_in 3) (rule_with [] 10 10) ≡ faults (at 0 3 7) kind.Undefined (codes "\"x\"") [] }
    ensures ninth_fault { value_of nothing 9 (sum_in 9) (rule_with [] 10 10) ≡ faults (at 0 9 7) kind.Undefined (codes "\"x\"") [] }
{}

/// Where a load has a template twice, the fault stands at the second one, and its text has the place of the first one.
pub fn a_template_twice_in_two_lines()
    ensures first { load_run (template_twice 1 ∷ []) first_file ≡ faults (at 0 2 1) kind.Duplicate (codes "Host \"t\" f:1:1") [] }
    ensures fifth { load_run (template_twice 5 ∷ []) first_file ≡ faults (at 0 6 1) kind.Duplicate (codes "Host \"t\" f:5:1") [] }
{}

/// An object is one of the library where its place is in a file of the library.
pub fn an_object_in_two_files()
    ensures own { in_library (load_run (object_at (at 0 1 1)) first_file) ≡ false ∷ [] }
    ensures library { in_library (load_run (object_at (at 1 1 1)) first_file) ≡ true ∷ [] }
{}
