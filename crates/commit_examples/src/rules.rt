// The items that rules make.
ghost use Rattle.std.specs.Prelude.{◌≡◌, [], ◌∷◌, codes, Some, None};
ghost use Rattle.site_base.specs.declared.diag_kind.DiagKind.TheVariants as kind;
ghost use Rattle.commit_meaning.specs.Answers.{made, diagnosed, diag};
ghost use Rattle.commit_meaning.specs.Names.{host, service};
ghost use Rattle.commit_meaning.specs.Rules.{instances};
ghost use Rattle.commit_examples.specs.Parts.{always, at, block, in_line};
ghost use Rattle.commit_examples.specs.Objects.{nothing, on_host, service_named};
ghost use Rattle.commit_examples.specs.Rules.{a, all_but_a, b, bound_at, bound_at_b, changing_host, h, never_then_faulty, notifications, over_disks, over_mixed, over_two, past_a, service_item, services, with_one_name, with_x};

/// Of two hosts one is ignored.
pub fn one_ignored_host()
    ensures ignored { instances nothing (services (codes "s") None all_but_a) (host a) ≡ made [] }
    ensures kept { instances nothing (services (codes "s") None all_but_a) (host b) ≡ made (service_item (on_host 9 2 0) (codes "b") (codes "s") ((codes "host", b.tree) ∷ []) all_but_a ∷ []) }
{}

/// A `for` goes over a dictionary in the order of its keys' bytes, and an element that isn't kept has its number too.
pub fn kept_elements()
    ensures both { instances nothing (services (codes "d-") (Some over_disks) (block [])) (host h) ≡ made (service_item (on_host 9 2 1) (codes "h") (codes "d-a") (bound_at (codes "a") (codes "2")) (block []) ∷ service_item (on_host 9 2 2) (codes "h") (codes "d-b") (bound_at (codes "b") (codes "1")) (block []) ∷ []) }
    ensures second { instances nothing (services (codes "d-") (Some over_disks) past_a) (host h) ≡ made (service_item (on_host 9 2 2) (codes "h") (codes "d-b") (bound_at (codes "b") (codes "1")) past_a ∷ []) }
{}

/// A dictionary takes two names, an array strings alone, which are looked at before the first condition; null gives nothing.
pub fn names_of_a_loop()
    ensures one { instances nothing (services (codes "d-") (Some with_one_name) (block [])) (host h) ≡ diagnosed (diag (on_host 9 2 0) at kind.WrongType [] ∷ []) }
    ensures mixed { instances nothing (services (codes "d-") (Some over_mixed) past_a) (host h) ≡ diagnosed (diag (on_host 9 2 0) at kind.WrongType [] ∷ []) }
    ensures null { instances nothing (services (codes "d-") (Some over_disks) (block [])) (host b) ≡ made [] }
{}

/// Each element is judged over new copies of what is bound, so that none sees what another one has changed.
pub fn copies_for_each_element()
    ensures { instances nothing (services [] (Some over_two) changing_host) (host b) ≡ made (service_item (on_host 9 2 1) (codes "b") (codes "x") (bound_at_b (codes "x")) changing_host ∷ service_item (on_host 9 2 2) (codes "b") (codes "y") (bound_at_b (codes "y")) changing_host ∷ []) }
{}

/// All conditions are evaluated, whatever the ones before give, and a fault is told under the numbers of rule and target.
pub fn conditions_behind_others()
    ensures { instances nothing (services (codes "s") None never_then_faulty) (host b) ≡ diagnosed (diag (on_host 9 2 0) at kind.Undefined (codes "\"x\"") ∷ []) }
{}

/// What isn't set is null, which isn't different from the empty string, so that nothing is made.
pub fn unset_variables()
    ensures { instances nothing (notifications with_x) (service a (service_named 3 (codes "a") (codes "s"))) ≡ made [] }
{}

/// A name that no object may have is told at the rule's name, and only of an element that is kept.
pub fn bad_names()
    ensures told { instances nothing (services (codes "s!") None (block (always ∷ []))) (host b) ≡ diagnosed (diag (on_host 9 2 0) (in_line 2) kind.BadName (codes "\"s!\"") ∷ []) }
    ensures dropped { instances nothing (services (codes "s!") None all_but_a) (host a) ≡ made [] }
{}
