// Worked examples of histories that are carried over.
ghost use Rattle.std.specs.Prelude.{◌≡◌, [], ◌∷◌, codes};
ghost use Rattle.history_carry.specs.Carried.{carried};
ghost use Rattle.history_carry.specs.Examples.{first_entry, hosts, seen};

/// Of the hosts a, b and c the first goes and d comes; c stands before b then. What b and c saw of a is dropped, and what they saw of
/// each other has its new place. The new host has no entries.
pub fn a_host_goes_and_one_comes()
    ensures { carried (hosts (codes "a" ∷ codes "b" ∷ codes "c" ∷ [])) (hosts (codes "c" ∷ codes "d" ∷ codes "b" ∷ []))
        ((first_entry [] ∷ []) ∷ (first_entry (seen 0 4 ∷ seen 2 5 ∷ []) ∷ []) ∷ (first_entry (seen 0 6 ∷ seen 1 7 ∷ []) ∷ []) ∷ [])
        ≡ (first_entry (seen 2 7 ∷ []) ∷ []) ∷ [] ∷ (first_entry (seen 0 5 ∷ []) ∷ []) ∷ [] }
{}

/// If two hosts change places, an entry tells them in their new order.
pub fn two_hosts_change_places()
    ensures { carried (hosts (codes "a" ∷ codes "b" ∷ codes "c" ∷ [])) (hosts (codes "b" ∷ codes "a" ∷ codes "c" ∷ []))
        ([] ∷ [] ∷ (first_entry (seen 0 8 ∷ seen 1 9 ∷ []) ∷ []) ∷ [])
        ≡ [] ∷ [] ∷ (first_entry (seen 0 9 ∷ seen 1 8 ∷ []) ∷ []) ∷ [] }
{}
