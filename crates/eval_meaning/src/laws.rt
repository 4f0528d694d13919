// Laws of evaluations.
ghost use Rattle.std.specs.Prelude.{◌≡◌, ℕ, List};
ghost use Rattle.dsl_syntax.specs.Syntax.{Expression, Statements};
ghost use Rattle.eval_meaning.specs.Registered.{PlainFile};
ghost use Rattle.eval_meaning.specs.Views.{View, IsWorld, IsPart};
ghost use Rattle.eval_meaning.specs.States.{State};
ghost use Rattle.eval_meaning.specs.Flow.{while_with, unrolled};
ghost use Rattle.eval_meaning.specs.Onward.{GoesOnward};
ghost use Rattle.eval_meaning.specs.Follows.{AreDecided, Follows, IsOpen};
ghost use Rattle.eval_meaning.specs.Evaluation.{evaluated, value_of, body_of};
ghost use Rattle.eval_meaning.specs.Load.{load_view};

/// Steps and space never rise, a store grows and keeps what is frozen, and reads stand behind the earlier ones.
pub fn an_evaluation_goes_onward()
    ensures value { (view : View) (depth : ℕ) (e : Expression) (s : State) → GoesOnward s (value_of view depth e s) }
    ensures body { (view : View) (depth : ℕ) (b : Statements) (s : State) → GoesOnward s (body_of view depth b s) }
{}

/// What isn't blocked over a view is the same over every world of which the view is part. What is blocked is so on the first
/// of the world's reads that the view leaves undecided.
pub fn a_view_gives_what_its_worlds_give()
    ensures value { (view world : View) → IsPart view world → IsWorld world → (depth : ℕ) (e : Expression) (s : State) → AreDecided view s.reads → Follows view (value_of view depth e s) (value_of world depth e s) }
    ensures body { (view world : View) → IsPart view world → IsWorld world → (depth : ℕ) (b : Statements) (s : State) → AreDecided view s.reads → Follows view (body_of view depth b s) (body_of world depth b s) }
{}

/// Over a world nothing is blocked.
pub fn a_world_blocks_nothing()
    ensures value { (world : View) → IsWorld world → (depth : ℕ) (e : Expression) (s : State) → IsOpen (value_of world depth e s) }
    ensures body { (world : View) → IsWorld world → (depth : ℕ) (b : Statements) (s : State) → IsOpen (body_of world depth b s) }
{}

/// A load is over a world: one without objects.
pub fn a_load_is_over_a_world()
    ensures { (files : List PlainFile) → IsWorld (load_view files) }
{}

/// A `while` is its first turn and, if that goes on, the `while` after it.
pub fn a_while_is_a_turn_and_the_rest()
    ensures { (view : View) (depth : ℕ) (e : Expression) (b : Statements) (s : State) → while_with (evaluated view depth) e b s ≡ unrolled (evaluated view depth) e b s }
{}
