// Laws of places.
ghost use Rattle.std.specs.Prelude.{◌≡◌, ℕ, List, map, false};
ghost use Rattle.site_base.specs.declared.place.Place.{Place};
ghost use Rattle.dsl_syntax.specs.Syntax.{Expression, Statements};
ghost use Rattle.eval_meaning.specs.Registered.{PlainFile};
ghost use Rattle.eval_meaning.specs.Views.{View};
ghost use Rattle.eval_meaning.specs.States.{State};
ghost use Rattle.eval_meaning.specs.Registration.{is_load};
ghost use Rattle.eval_meaning.specs.Evaluation.{value_of, body_of};
ghost use Rattle.eval_meaning.specs.Load.{load_run};
ghost use Rattle.place_laws.specs.MovedSyntax.{moved_expression, moved_statements};
ghost use Rattle.place_laws.specs.MovedStates.{moved_file, moved_view, moved_state};
ghost use Rattle.place_laws.specs.MovedOutcomes.{moved_outcome, KeepsLibrary, IsMoved};
ghost use Rattle.place_laws.specs.Alike.{AlikeExpressions, AlikeStatements, AlikeViews, AlikeStates, AlikeOutcomes, AlikeFiles, AlikeLoads};

/// For items and rules: where all syntax stands at other places, that of the store, the templates and the rules too, the same value is given, with
/// the same cells, reads and budget. A fault is the same one, at its other place.
pub fn evaluations_at_other_places()
    ensures value { (move : Place → Place) (view : View) (depth : ℕ) (e : Expression) (s : State) → is_load s.task ≡ false → value_of (moved_view move view) depth (moved_expression move e) (moved_state move s) ≡ moved_outcome move (value_of view depth e s) }
    ensures body { (move : Place → Place) (view : View) (depth : ℕ) (b : Statements) (s : State) → is_load s.task ≡ false → body_of (moved_view move view) depth (moved_statements move b) (moved_state move s) ≡ moved_outcome move (body_of view depth b s) }
{}

/// For items and rules: two evaluations of which all syntax differs in places alone come to the same but for places.
pub fn places_change_no_value()
    ensures value { (view world : View) → AlikeViews view world → (depth : ℕ) (e f : Expression) → AlikeExpressions e f → (s t : State) → AlikeStates s t → is_load s.task ≡ false → AlikeOutcomes (value_of view depth e s) (value_of world depth f t) }
    ensures body { (view world : View) → AlikeViews view world → (depth : ℕ) (b c : Statements) → AlikeStatements b c → (s t : State) → AlikeStates s t → is_load s.task ≡ false → AlikeOutcomes (body_of view depth b s) (body_of world depth c t) }
{}

/// A load of files whose syntax stands at other places comes to the same, at other places. That asks that what stands in a file of the library
/// stands in one again, and leaves open the text of one fault: where a template is there twice, that has the place of the first one.
pub fn loads_at_other_places()
    ensures { (move : Place → Place) (files : List PlainFile) (order : List ℕ) → KeepsLibrary move files → IsMoved move (load_run files order) (load_run (map (moved_file move) files) order) }
{}

/// Two loads of files that differ in lines and columns alone come to the same but for these.
pub fn lines_and_columns_change_no_load()
    ensures { (files others : List PlainFile) → AlikeFiles files others → (order : List ℕ) → AlikeLoads (load_run files order) (load_run others order) }
{}
