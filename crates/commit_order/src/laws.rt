// Laws of the order in commits.
ghost use Rattle.std.specs.Prelude.{◌≡◌, ℕ, List, map};
ghost use Rattle.site_base.specs.declared.place.Place.{Place};
ghost use Rattle.site_model.specs.PlainSite.{PlainObject};
ghost use Rattle.eval_meaning.specs.Registered.{PlainItem, PlainRule};
ghost use Rattle.eval_meaning.specs.Views.{View};
ghost use Rattle.eval_meaning.specs.Load.{Loaded};
ghost use Rattle.eval_meaning.specs.declared.read.Read.{Read};
ghost use Rattle.commit_meaning.specs.Names.{Target};
ghost use Rattle.commit_meaning.specs.Items.{item_answer};
ghost use Rattle.commit_meaning.specs.Rules.{instances};
ghost use Rattle.commit_meaning.specs.Groups.{group_members};
ghost use Rattle.commit_meaning.specs.Waves.{world_after};
ghost use Rattle.commit_meaning.specs.Commits.{committed};
ghost use Rattle.place_laws.specs.MovedStates.{moved_loaded};
ghost use Rattle.commit_order.specs.Unordered.{unordered_item, unordered_rule, unordered_object, unordered_target, unordered_answer};
ghost use Rattle.commit_order.specs.Alike.{LookAlike, AnswerAlike, AreReordered, AreApart, SameObjects, SameFaults, tree_under};

/// Of a view an evaluation looks at the store, and at what is found under names: an item, a rule at a target, and the groups for an object come
/// to the same over views in which the same is found.
pub fn answers_look_names_up()
    ensures { (view other : View) → LookAlike view other → AnswerAlike view other }
{}

/// The numbers of statements are looked at nowhere: without them the same is made of an item, of a rule at a target, and of the groups for an
/// object, and the same is wrong.
pub fn numbers_change_no_answer()
    ensures item { (view : View) (i : PlainItem) → item_answer view (unordered_item i) ≡ unordered_answer unordered_object (item_answer view i) }
    ensures rule { (view : View) (r : PlainRule) (t : Target) → instances view (unordered_rule r) (unordered_target t) ≡ unordered_answer (map unordered_item) (instances view r t) }
    ensures groups { (view : View) (gs : List PlainItem) (o : PlainObject) → group_members view (map unordered_item gs) (unordered_object o) ≡ unordered_answer (λ ns. ns) (group_members view gs o) }
{}

/// Where independent files are read in another order, the same objects are committed, in another order and with other numbers, as
/// long as no two of them have one type and one full name. In each wave the same is wrong, in another order, as long as this is so of the
/// objects before it. In which order groups are read matters: the `groups` of an object name them in that order.
pub fn order_changes_no_object()
    ensures objects { (load other : Loaded) → AreReordered load other → AreApart (committed load) → SameObjects load other }
    ensures faults { (load other : Loaded) → AreReordered load other → (w : ℕ) → AreApart (world_after load w).objects → SameFaults load other w }
{}

/// Files that are read in another order have other numbers in all places, too: wherever the syntax of one load stands in the other, under each type
/// and full name both commits have one tree or none.
pub fn order_of_files_changes_no_tree()
    ensures { (move : Place → Place) (load other : Loaded) → AreReordered (moved_loaded move load) other → AreApart (committed load) → (r : Read) → tree_under r (committed load) ≡ tree_under r (committed other) }
{}
