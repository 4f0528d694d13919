// Laws of places in commits.
ghost use Rattle.std.specs.Prelude.{◌≡◌, ℕ, List, map};
ghost use Rattle.site_base.specs.declared.place.Place.{Place};
ghost use Rattle.site_model.specs.PlainSite.{PlainObject};
ghost use Rattle.dsl_value.specs.declared.value.Value.{Value};
ghost use Rattle.eval_meaning.specs.Registered.{PlainItem, PlainRule, PlainFile};
ghost use Rattle.eval_meaning.specs.Views.{View};
ghost use Rattle.eval_meaning.specs.States.{State, gives};
ghost use Rattle.eval_meaning.specs.Load.{Loaded, load_run, loaded};
ghost use Rattle.commit_meaning.specs.Names.{Target};
ghost use Rattle.commit_meaning.specs.Items.{item_answer};
ghost use Rattle.commit_meaning.specs.Rules.{instances};
ghost use Rattle.commit_meaning.specs.Groups.{group_members};
ghost use Rattle.commit_meaning.specs.Waves.{diags_of};
ghost use Rattle.commit_meaning.specs.Commits.{committed};
ghost use Rattle.place_laws.specs.MovedStates.{moved_item, moved_rule, moved_loaded, moved_view};
ghost use Rattle.place_laws.specs.Alike.{AlikeViews, AlikeFiles};
ghost use Rattle.commit_places.specs.MovedAnswers.{moved_answer, moved_diag, moved_object, moved_target};
ghost use Rattle.commit_places.specs.Alike.{AlikeItems, AlikeRules, AlikeTargets, AlikeObjects, AlikeInstances, AlikeCommits};

/// Where all syntax stands at other places, the same is made of an item, of a rule at a target, and of the groups for an object, at other
/// places.
pub fn answers_at_other_places()
    ensures item { (move : Place → Place) (view : View) (i : PlainItem) → item_answer (moved_view move view) (moved_item move i) ≡ moved_answer move (moved_object move) (item_answer view i) }
    ensures rule { (move : Place → Place) (view : View) (r : PlainRule) (t : Target) → instances (moved_view move view) (moved_rule move r) (moved_target move t) ≡ moved_answer move (map (moved_item move)) (instances view r t) }
    ensures groups { (move : Place → Place) (view : View) (gs : List PlainItem) (o : PlainObject) → group_members (moved_view move view) (map (moved_item move) gs) (moved_object move o) ≡ moved_answer move (λ ns. ns) (group_members view gs o) }
{}

/// Items that differ in places alone come to the same but for places, and so do rules at one target.
pub fn places_change_no_object()
    ensures item { (view world : View) → AlikeViews view world → (i j : PlainItem) → AlikeItems i j → AlikeObjects (item_answer view i) (item_answer world j) }
    ensures rule { (view world : View) → AlikeViews view world → (r q : PlainRule) → AlikeRules r q → (t u : Target) → AlikeTargets t u → AlikeInstances (instances view r t) (instances world q u) }
{}

/// Where all that was loaded stands at other places, the same objects are committed, and the same diagnostics are told in each wave, at other
/// places. What the phases behind the waves tell is left open: that an object is there twice is told with the place of the first one.
pub fn commits_at_other_places()
    ensures objects { (move : Place → Place) (load : Loaded) → committed (moved_loaded move load) ≡ map (moved_object move) (committed load) }
    ensures diags { (move : Place → Place) (load : Loaded) (w : ℕ) → diags_of (moved_loaded move load) w ≡ map (moved_diag move) (diags_of load w) }
{}

/// Files that differ in lines and columns alone, where both sets of them load, make objects and diagnostics that differ in these alone.
pub fn lines_and_columns_change_no_object()
    ensures { (files others : List PlainFile) → AlikeFiles files others → (order : List ℕ) (v w : Value) (s t : State) → load_run files order ≡ gives v s → load_run others order ≡ gives w t → AlikeCommits (loaded s) (loaded t) }
{}
