// Worked examples of loads in two orders.
ghost use Rattle.std.specs.Prelude.{◌≡◌, [], ◌∷◌, codes};
ghost use Rattle.commit_meaning.specs.Answers.{made};
ghost use Rattle.commit_meaning.specs.Groups.{group_members};
ghost use Rattle.place_laws.specs.MovedStates.{moved_loaded};
ghost use Rattle.commit_order.specs.Alike.{AreReordered};
ghost use Rattle.commit_order.specs.Examples.{a_first, b_first, group_item, host_object, nothing, turned};

/// Two files with two hosts and a rule, in both orders, in which they have each other's number.
pub fn two_files_in_both_orders()
    ensures { AreReordered (moved_loaded turned a_first) b_first }
{}

/// Groups that are read in another order are named in another order.
pub fn groups_in_both_orders()
    ensures x_first { group_members nothing (group_item 2 (codes "x") ∷ group_item 3 (codes "y") ∷ []) host_object ≡ made (codes "x" ∷ codes "y" ∷ []) }
    ensures y_first { group_members nothing (group_item 2 (codes "y") ∷ group_item 3 (codes "x") ∷ []) host_object ≡ made (codes "y" ∷ codes "x" ∷ []) }
{}
