// The law of prints.
ghost use Rattle.std.specs.Prelude.{List, ℕ};
ghost use Rattle.dsl_syntax.specs.Syntax.{Statements};
ghost use Rattle.dsl_print.specs.Printing.{HasTree, IsParsedBack, IsReadBack, PrintIsTree};

/// The print of each tree that the grammar gives for a file is a file again: its tokens stand in the grammar's relation with
/// a tree that differs from the printed one in places alone. What is read of them is such a tree, where no token stands too
/// deep, and else the first token that does; and so it is what `parse` answers, unless memory runs out.
///
/// This call does nothing: its contract says so.
pub fn prints_are_read_back()
    ensures tree { (file other : ℕ) (bytes : List ℕ) (printed : Statements) → HasTree file bytes printed → PrintIsTree other printed }
    ensures back { (file other : ℕ) (bytes : List ℕ) (printed : Statements) → HasTree file bytes printed → IsReadBack other printed }
    ensures parsed { (file other : ℕ) (bytes : List ℕ) (printed : Statements) → HasTree file bytes printed → IsParsedBack other printed }
{}
