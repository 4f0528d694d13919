// Laws of the definitions.
ghost use Rattle.std.specs.Prelude.{◌≡◌, List};
ghost use Rattle.std.specs.List.Sorted.{IsSortedByKey, IsStableByKey};
ghost use Rattle.site_base.specs.Order.{by_fields};
ghost use Rattle.site_base.specs.declared.diag.Diag.{Diag};
ghost use Rattle.site_model.specs.PlainSite.{PlainObject};
ghost use Rattle.eval_meaning.specs.Registered.{PlainItem};
ghost use Rattle.eval_meaning.specs.Views.{View, IsWorld, IsPart};
ghost use Rattle.eval_meaning.specs.Load.{Loaded};
ghost use Rattle.commit_meaning.specs.Worlds.{world_view};
ghost use Rattle.commit_meaning.specs.Orders.{by_number};
ghost use Rattle.commit_meaning.specs.Waves.{diag_number, item_number};
ghost use Rattle.commit_meaning.specs.CommittedOrder.{CommittedInOrder};
ghost use Rattle.commit_meaning.specs.Staying.{AnswersStay};

/// Objects are committed in the order of their waves, and those of one wave in the order of their numbers, whatever is loaded.
pub fn objects_are_committed_in_order()
    ensures { CommittedInOrder }
{}

/// A world decides each read of a host or a service, whatever it holds.
pub fn worlds_decide_reads()
    ensures { (load : Loaded) (os : List PlainObject) → IsWorld (world_view load os) }
{}

/// Items and diagnostics by their numbers: what is sorted so, and has those of one number as they stood, is `by_number`.
pub fn one_order_by_number()
    ensures items { (given sorted : List PlainItem) → IsSortedByKey item_number by_fields sorted → IsStableByKey item_number by_fields given sorted → sorted ≡ by_number item_number given }
    ensures diags { (given sorted : List Diag) → IsSortedByKey diag_number by_fields sorted → IsStableByKey diag_number by_fields given sorted → sorted ≡ by_number diag_number given }
{}

/// What is answered over a view, and isn't blocked, is answered over every view of which that one is part, as over a whole world: of an item, of
/// a rule at a target, and of the groups for an object.
pub fn answers_stay()
    ensures { (view world : View) → IsPart view world → AnswersStay view world }
{}
