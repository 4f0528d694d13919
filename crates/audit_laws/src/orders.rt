// Laws of orders.
ghost use Rattle.std.specs.Prelude.{◌≡◌, ◌<◌, ◌++◌, ℕ, Bool, true, List, All, Some};
ghost use Rattle.run_meaning.specs.Turns.{Asked};
ghost use Rattle.audit_laws.specs.Kinds.{AreAsInTurn, AreOfTurn, AreSameOnEach, NeverFall};
ghost use Rattle.audit_laws.specs.Orders.{IsEarlierThing, IsOrder, IsWaiting, TakesAll, TakesInOrder};
ghost use Rattle.site_audit.specs.Tracks.{is_earlier, taken_in};

/// Things of which some must stand before others are taken one after another, each time the first that waits for none: all that is
/// taken stands in an order that meets this, and if there is such an order some thing can always be taken, so that all are.
pub fn what_is_taken_is_in_order()
    ensures meets { (must : ℕ → ℕ → Bool) (waits : List ℕ → ℕ → Bool) → IsWaiting (λ a b. must a b ≡ true) waits → TakesInOrder (λ a b. must a b ≡ true) waits }
    ensures takes { (must : ℕ → ℕ → Bool) (waits : List ℕ → ℕ → Bool) → IsWaiting (λ a b. must a b ≡ true) waits → TakesAll (λ a b. must a b ≡ true) waits }
{}

/// The same of things that stand on tracks, of which the earlier ones on a track must stand first.
pub fn tracks_are_taken_in_order()
    ensures meets { (count : ℕ) (spots : _) (told : List ℕ) → taken_in count spots ≡ Some told → All (λ x. x.thing < count) spots → IsOrder (IsEarlierThing spots is_earlier (λ x. x.thing)) count told }
    ensures takes { (count : ℕ) (spots : _) (order : List ℕ) → IsOrder (IsEarlierThing spots is_earlier (λ x. x.thing)) count order → (told : List ℕ) × (taken_in count spots ≡ Some told) }
{}

/// Events whose kinds never fall, and that are those of a turn on each checkable, are those of the turn kind by kind: its lines in some
/// order, the results for which a macro is missing, its other reports in some order, and its ticks.
pub fn events_by_kinds_are_those_of_the_turn()
    ensures { (kind : Asked → ℕ) (low middle high : ℕ) (lines lacking reports ticks all : List Asked) → AreOfTurn kind low middle high lines lacking reports ticks → NeverFall kind all → AreSameOnEach all (lines ++ (lacking ++ (reports ++ ticks))) → AreAsInTurn kind low middle high lines lacking reports ticks all }
{}
