// What holds checkables back: the hosts are 0 to 3, and 4 is a service of the first.
ghost use Rattle.std.specs.Prelude.{◌≡◌, [], ◌∷◌, Some, None, true, false};
ghost use Rattle.site_model.specs.declared.state.State.TheVariants as state;
ghost use Rattle.run_meaning.specs.Reachability.{ancestors, held_by_depend, held_by_host, reachable};
ghost use Rattle.run_examples.specs.Outlooks.{checked, depends, down, g, going_down, hosts, off, reached, shows, unchecked, up, well};

/// Two dependencies of one group hold back where both parents are down for sure.
pub fn redundancy_group()
    ensures one { reached (depends 2 0 g ∷ depends 2 1 g ∷ []) (down 0 ∷ up 1 ∷ []) 2 ≡ reachable }
    ensures both { reached (depends 2 0 g ∷ depends 2 1 g ∷ []) (down 0 ∷ down 1 ∷ []) 2 ≡ held_by_depend 0 }
    ensures soft { reached (depends 2 0 g ∷ depends 2 1 g ∷ []) (down 0 ∷ going_down 1 ∷ []) 2 ≡ reachable }
    ensures off { reached (off (depends 2 0 g) ∷ depends 2 1 g ∷ []) (down 0 ∷ down 1 ∷ []) 2 ≡ reachable }
    ensures empty_name { reached (depends 2 0 (Some []) ∷ depends 2 1 (Some []) ∷ []) (down 0 ∷ up 1 ∷ []) 2 ≡ reachable }
    ensures of_one_child { reached (depends 2 0 g ∷ depends 3 1 g ∷ []) (down 0 ∷ up 1 ∷ []) 2 ≡ held_by_depend 0 }
{}

/// The first dependency that holds back is named, in a group or not.
pub fn first_dependency()
    ensures grouped { reached (depends 3 0 g ∷ depends 3 1 None ∷ depends 3 2 g ∷ []) (down 0 ∷ down 1 ∷ down 2 ∷ []) 3 ≡ held_by_depend 0 }
    ensures alone { reached (depends 3 0 g ∷ depends 3 1 None ∷ depends 3 2 g ∷ []) (down 0 ∷ down 1 ∷ up 2 ∷ []) 3 ≡ held_by_depend 1 }
{}

/// A parent that is blocked itself lets nothing through, whatever it shows. One without results fails in no state.
pub fn blocked_parent()
    ensures well { reached (depends 1 0 None ∷ depends 2 1 None ∷ []) (down 0 ∷ up 1 ∷ []) 2 ≡ held_by_depend 1 }
    ensures unchecked { reached (depends 1 0 None ∷ depends 2 1 None ∷ []) (down 0 ∷ unchecked 1 ∷ []) 2 ≡ held_by_depend 1 }
    ensures without_results { reached (record (depends 2 0 None) { states = record well { up = false } } ∷ []) (unchecked 0 ∷ []) 2 ≡ reachable }
    ensures with_one { reached (record (depends 2 0 None) { states = record well { up = false } } ∷ []) (up 0 ∷ []) 2 ≡ held_by_depend 0 }
    ensures soft_counts { reached (record (depends 2 0 None) { ignore_soft = false } ∷ []) (going_down 0 ∷ []) 2 ≡ held_by_depend 0 }
{}

/// A dependency counts for its purposes alone, and inside its period.
pub fn dependency_that_is_off()
    ensures checks { checked (record (depends 2 0 None) { checks = false } ∷ []) (down 0 ∷ []) 2 ≡ reachable }
    ensures notes { reached (record (depends 2 0 None) { checks = false } ∷ []) (down 0 ∷ []) 2 ≡ held_by_depend 0 }
    ensures outside { reached (record (depends 2 0 None) { period = Some 9 } ∷ []) (down 0 ∷ []) 2 ≡ reachable }
    ensures inside { reached (record (depends 2 0 None) { period = Some 8 } ∷ []) (down 0 ∷ []) 2 ≡ held_by_depend 0 }
{}

/// A host that is down for sure, or blocked, holds back its services' notifications, and not their checks.
pub fn host_of_a_service()
    ensures down { reached [] (down 0 ∷ []) 4 ≡ held_by_host 0 }
    ensures checks { checked [] (down 0 ∷ []) 4 ≡ reachable }
    ensures soft { reached [] (going_down 0 ∷ []) 4 ≡ reachable }
    ensures blocked { reached (depends 0 1 None ∷ []) (up 0 ∷ down 1 ∷ []) 4 ≡ held_by_host 0 }
    ensures blocked_checks { checked (depends 0 1 None ∷ []) (up 0 ∷ down 1 ∷ []) 4 ≡ reachable }
{}

/// A parent that is a service is blocked for notifications by its host, and for checks it isn't.
pub fn parent_that_is_a_service()
    ensures notes { reached (depends 3 4 None ∷ []) (down 0 ∷ shows 4 state.Okay true ∷ []) 3 ≡ held_by_depend 0 }
    ensures checks { checked (depends 3 4 None ∷ []) (down 0 ∷ shows 4 state.Okay true ∷ []) 3 ≡ reachable }
{}

/// A checkable depends on its host, on the parents of its dependencies, off or not, and on what these depend on.
pub fn all_ancestors()
    ensures off { ancestors (hosts (off (depends 2 0 None) ∷ [])) 2 ≡ 0 ∷ [] }
    ensures host { ancestors (hosts (depends 0 1 None ∷ [])) 4 ≡ 0 ∷ 1 ∷ [] }
    ensures far { ancestors (hosts (depends 2 1 None ∷ depends 1 0 None ∷ [])) 2 ≡ 0 ∷ 1 ∷ [] }
{}
