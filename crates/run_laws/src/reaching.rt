// Laws of what holds a checkable back.
ghost use Rattle.std.specs.Prelude.{◌≡◌, ◌<◌, ◌||◌, ℕ, length, nat_eq};
ghost use Rattle.std.specs.List.{list_any};
ghost use Rattle.site_model.specs.PlainSite.{PlainSite};
ghost use Rattle.run_meaning.specs.Reachability.{Outlook, ancestors, is_held, parents_of, reach_of};
ghost use Rattle.depend_graph.specs.Graph.{IsGraphOf};
ghost use Rattle.depend_graph.specs.Outlooks.{step_of};
ghost use Rattle.depend_graph.specs.Parents.{has};
ghost use Rattle.depend_graph.specs.declared.graph.Graph.{Graph};

/// Where a site has a graph, so no cycle, its ancestors are the parents and theirs, and what holds one back is one step from what
/// holds its parents back.
pub fn what_holds_back_goes_by_parents()
    ensures ancestors { (s : PlainSite) (graph : Graph) → IsGraphOf s graph → (c p : ℕ) → c < length s.checkables → has p (ancestors s c) ≡ list_any (λ q. nat_eq q p || has p (ancestors s q)) (parents_of s c) }
    ensures reach { (o : Outlook) (graph : Graph) → IsGraphOf o.site graph → (c : ℕ) → c < length o.site.checkables → reach_of o c ≡ step_of o (λ q. is_held (reach_of o q)) c }
{}
