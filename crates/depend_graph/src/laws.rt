// What a graph needs of a site is what holds of each site that a configuration gives.
ghost use Rattle.std.specs.Prelude.{◌<◌, ◌^◌, length};
ghost use Rattle.site_model.specs.PlainSite.{PlainSite};
ghost use Rattle.site_model.specs.Sound.{IsSound};
ghost use Rattle.depend_graph.specs.Parents.{HasParents};

/// A sound site of few enough checkables has what its graph needs.
pub fn a_sound_site_has_parents()
    ensures { (s : PlainSite) → IsSound s → length s.checkables < 2 ^ 32 → HasParents s }
{}
