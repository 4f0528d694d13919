// The laws of files and of the grammar's productions.
ghost use Rattle.std.specs.Prelude.{◌≡◌, List, ℕ};
ghost use Rattle.dsl_syntax.specs.Syntax.{Statements, no_entries, no_expressions, no_statements};
ghost use Rattle.dsl_lexer.specs.Lists.{IsWhole};
ghost use Rattle.dsl_lexer.specs.declared.token.Token.{Token};
ghost use Rattle.dsl_rules.specs.Grammar.{Derives};
ghost use Rattle.dsl_rules.specs.Rules.{Made};
ghost use Rattle.dsl_grammar.specs.Codes.{sorts};
ghost use Rattle.dsl_grammar.specs.Files.{Holds, Parses, file_outcome};
ghost use Rattle.dsl_grammar.specs.Grammar.{AnyStatement, ApplyHeads, BlockStatements, Elements, Expr, IfStatement, slots_value, BodyStatement, BodyStatements, FileStatements, Pair, Pairs, SetOrEval, Top, add_pair, names};
ghost use Rattle.dsl_syntax.specs.Lists.{add_expression, add_statement};
ghost use Rattle.dsl_grammar.specs.Table.{Derived, Listing, Row, Same, TableHeads, TableIf, TableSetOrEval};
ghost use Rattle.dsl_grammar.specs.Terms.{bsep, sep};

/// What is read of a file's tokens is the grammar's: the one tree that they have, or the first token, the end included,
/// such that the tokens before it begin a file and the tokens through it begin none, or the first token that stands too
/// deep, if that isn't behind the other.
#[tactic(auto, using(crate::proofs::Place::file_holds))]
pub fn files_have_one_outcome()
    ensures { (tokens : List Token) → IsWhole tokens → Holds tokens (file_outcome tokens) }
{}

/// The rows of the grammar, which are read from left to right as a thing or none and then, behind each separator, a thing
/// or none: each is any number of separators, things with one separator or more between each two, and any number of
/// separators, or separators alone; its value is that of all things in order, and each such row is read so.
#[tactic(auto, using(crate::proofs::RowLaws::pairs_are, crate::proofs::RowLaws::body_is, crate::proofs::RowLaws::block_is, crate::proofs::RowLaws::file_is))]
pub fn rows_are_things_between_separators()
    ensures dictionary { (h : ℕ) → Same (Derives sorts (names h) Pairs) (Row bsep add_pair no_entries (Derives sorts (names h) Pair)) }
    ensures body { (h : ℕ) → Same (Derives sorts (names h) BodyStatements) (Row bsep add_statement no_statements (Derives sorts (names h) BodyStatement)) }
    ensures block { (h : ℕ) → Same (Derives sorts (names h) BlockStatements) (Row sep add_statement no_statements (Derives sorts (names h) AnyStatement)) }
    ensures file { (h : ℕ) → Same (Derives sorts (names h) FileStatements) (Row sep add_statement no_statements (Derives sorts (names h) Top)) }
{}

/// A statement that is read as an expression and then, where that leads somewhere, what it is set to: it is a target and
/// what that is set to, or an expression alone, and each of these is read so.
#[tactic(auto, using(crate::proofs::TargetLaws::assignments))]
pub fn assignments_lead_to_targets()
    ensures { Same (Derived SetOrEval) (Derived TableSetOrEval) }
{}

/// Tokens have at most one tree, where some stand too deep as well.
pub fn tokens_have_one_tree()
    ensures { (tokens : List Token) (tree other : Statements) → Parses tokens tree → Parses tokens other → tree ≡ other }
{}

/// The elements of an array, which are read from left to right as an expression or none and then, behind each comma, an
/// expression or none: they are none, or expressions with one comma between each two and maybe one behind the last.
pub fn arrays_are_expressions_between_commas()
    ensures { (h : ℕ) → Same (Made slots_value (Derives sorts (names h) Elements)) (Listing add_expression no_expressions (Derives sorts (names h) Expr)) }
{}

/// The heads of an apply rule, which are read one after the other: none, one of them, or both in either order, and each
/// such row is read so.
pub fn heads_stand_once_in_either_order()
    ensures { (h : ℕ) → Same (Derives sorts (names h) ApplyHeads) (Derives sorts (names h) TableHeads) }
{}

/// An `if`, which is read as an arm and then, behind each `else`, an arm or a block: it is arms, with `else` between each
/// two, and at most one block behind a last `else`, each `else` behind any number of newlines.
pub fn ifs_are_arms_and_one_else()
    ensures { (h : ℕ) → Same (Derives sorts (names h) IfStatement) (TableIf (names h)) }
{}
