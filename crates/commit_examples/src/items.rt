// What is made of items.
ghost use Rattle.std.specs.Prelude.{◌≡◌, [], ◌∷◌, codes, true};
ghost use Rattle.site_base.specs.Data as tree;
ghost use Rattle.dsl_syntax.specs.Syntax.{set, at_name, no_steps};
ghost use Rattle.dsl_syntax.specs.declared.set_op.SetOp.TheVariants as set_op;
ghost use Rattle.site_base.specs.declared.diag_kind.DiagKind.TheVariants as kind;
ghost use Rattle.commit_meaning.specs.Answers.{made, diagnosed, diag};
ghost use Rattle.commit_meaning.specs.Items.{item_answer};
ghost use Rattle.commit_examples.specs.Parts.{at, in_line, named, sets};
ghost use Rattle.commit_examples.specs.Objects.{nothing, number};
ghost use Rattle.commit_examples.specs.Items.{command, command_attributes, globals_view, importing, object_of, renamed, renamed_command, with_vars};

/// The attributes that a body sets stand beside the name, in the order of their bytes.
pub fn attributes_of_a_body()
    ensures { item_answer nothing command ≡ made (object_of command command_attributes) }
{}

/// A global is frozen once it is loaded: a write through an attribute that is the global itself is refused at its statement, and one to a new
/// dictionary with the same pairs isn't.
pub fn frozen_values()
    ensures refused { item_answer globals_view (with_vars (sets (codes "vars") (named (codes "G")))) ≡ diagnosed (diag (number 1) (in_line 3) kind.FrozenWrite [] ∷ []) }
    ensures copied { item_answer globals_view (with_vars (set (at_name (codes "vars")) no_steps set_op.Add (named (codes "G")))) ≡ made (object_of command (tree.pair (codes "command") (tree.string (codes "x")) (tree.pair (codes "name") (tree.string (codes "c")) (tree.pair (codes "vars") (tree.dict (tree.pair (codes "a") (tree.boolean true) (tree.pair (codes "k") (tree.boolean true) tree.no_pairs))) tree.no_pairs)))) }
{}

/// A template shares the values of bound names with the body that imports it.
pub fn bound_names_in_templates()
    ensures { item_answer globals_view importing ≡ made (object_of command command_attributes) }
{}

/// A body that writes `name` changes that attribute alone, and not the object's name. What is missing is told at the item.
pub fn written_name()
    ensures made { item_answer nothing renamed_command ≡ made (object_of renamed_command (tree.pair (codes "command") (tree.string (codes "x")) (tree.pair (codes "name") (tree.string (codes "x")) tree.no_pairs))) }
    ensures missing { item_answer nothing renamed ≡ diagnosed (diag (number 2) at kind.MissingAttr (codes "\"check_command\"") ∷ []) }
{}
