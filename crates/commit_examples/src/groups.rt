// The groups that take an object.
ghost use Rattle.std.specs.Prelude.{◌≡◌, [], ◌∷◌, codes};
ghost use Rattle.site_base.specs.Data as tree;
ghost use Rattle.site_base.specs.declared.diag_kind.DiagKind.TheVariants as kind;
ghost use Rattle.commit_meaning.specs.Answers.{made, diagnosed, blocked, diag};
ghost use Rattle.eval_meaning.specs.Views.{host};
ghost use Rattle.commit_meaning.specs.Groups.{group_members, tree_grown};
ghost use Rattle.commit_examples.specs.Parts.{at};
ghost use Rattle.commit_examples.specs.Objects.{attributes, nothing, number, service_named, unknown};
ghost use Rattle.commit_examples.specs.Rules.{a, b};
ghost use Rattle.commit_examples.specs.Groups.{all, faulty, in_groups, just_a, none};

/// A group takes an object where some `assign` is true and no `ignore` is, so one without an `assign` takes none.
pub fn groups_without_conditions()
    ensures a { group_members nothing (all ∷ none ∷ just_a ∷ []) a ≡ made (codes "all" ∷ codes "just a" ∷ []) }
    ensures b { group_members nothing (all ∷ none ∷ just_a ∷ []) b ≡ made (codes "all" ∷ []) }
{}

/// A fault of one group is told under the object's number, and the other groups are evaluated too.
pub fn groups_with_a_fault()
    ensures { group_members nothing (faulty ∷ all ∷ faulty ∷ []) a ≡ diagnosed (diag (number 1) at kind.Undefined (codes "\"x\"") ∷ diag (number 1) at kind.Undefined (codes "\"x\"") ∷ []) }
{}

/// The host of a service is the first read. A service without one is in no group by a condition.
pub fn hosts_of_services()
    ensures absent { group_members nothing (all ∷ []) (service_named 3 (codes "a") (codes "s")) ≡ made [] }
    ensures undecided { group_members unknown (all ∷ []) (service_named 3 (codes "a") (codes "s")) ≡ blocked (host (codes "a")) }
{}

/// Names are added at the end of `groups`, if they aren't there yet.
pub fn added_names()
    ensures first { tree_grown (codes "all" ∷ codes "all" ∷ []) (attributes (codes "a") tree.no_pairs) ≡ tree.dict (in_groups (codes "all" ∷ [])) }
    ensures more { tree_grown (codes "x" ∷ codes "y" ∷ []) (tree.dict (in_groups (codes "y" ∷ codes "z" ∷ []))) ≡ tree.dict (in_groups (codes "y" ∷ codes "z" ∷ codes "x" ∷ [])) }
    ensures same { tree_grown [] (attributes (codes "a") tree.no_pairs) ≡ attributes (codes "a") tree.no_pairs }
{}
