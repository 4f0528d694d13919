// What evaluations give.
ghost use Rattle.std.specs.Prelude.{◌≡◌, [], ◌∷◌, codes, pos};
ghost use Rattle.site_base.specs.Data as tree;
ghost use Rattle.site_base.specs.declared.diag_kind.DiagKind.TheVariants as kind;
ghost use Rattle.commit_meaning.specs.Items.{item_answer};
ghost use Rattle.eval_meaning.specs.Evaluation.{evaluated, value_of};
ghost use Rattle.eval_meaning.specs.States.{blocked, faults};
ghost use Rattle.eval_meaning.specs.Views.{host};
ghost use Rattle.commit_examples.specs.Evaluations.{adding, calling_member, capturing, command_telling, command_with, growing, importing_local, reading, with_local, within, without_a, writing};
ghost use Rattle.commit_examples.specs.Objects.{nothing};
ghost use Rattle.commit_examples.specs.Parts.{at, in_line, text};

/// A function keeps the value that a name had when the function was made.
pub fn captured_values()
    ensures { item_answer nothing (command_with capturing) ≡ command_telling (tree.string (codes "old")) }
{}

/// In a call of a member `this` is what has the member.
pub fn this_of_a_member_call()
    ensures { item_answer nothing (command_with calling_member) ≡ command_telling (tree.string (codes "d")) }
{}

/// `+=` to what isn't set adds to null.
pub fn adding_to_nothing()
    ensures { item_answer nothing (command_with adding) ≡ command_telling (tree.string (codes "a")) }
{}

/// A `for` goes over the elements that its array had at the start, here over one, so that there are two in the end. Numbers are in
/// thousandths.
pub fn loops_over_what_changes()
    ensures { item_answer nothing (command_with growing) ≡ command_telling (tree.number (pos 2000)) }
{}

/// A template's locals are its own.
pub fn locals_of_a_template()
    ensures { item_answer (record nothing { templates = with_local ∷ [] }) (command_with importing_local) ≡ command_telling (tree.string (codes "mine")) }
{}

/// If no node may be open and no step is left, the step is told.
pub fn steps_before_depth()
    ensures step { value_of nothing 0 (text (codes "a")) (within 0 9) ≡ faults at kind.StepLimit [] [] }
    ensures depth { value_of nothing 0 (text (codes "a")) (within 1 9) ≡ faults at kind.DepthLimit [] [] }
{}

/// A write costs a unit of space, which is charged at its statement.
pub fn space_for_a_write()
    ensures { (evaluated nothing 9).flow writing (within 9 0) ≡ faults (in_line 2) kind.SpaceLimit [] [] }
{}

/// An evaluation ends at the first read that isn't decided. The reads before it are told too.
pub fn a_read_that_is_not_decided()
    ensures { value_of without_a 9 reading (within 99 99) ≡ blocked (host (codes "b")) (host (codes "a") ∷ []) }
{}
