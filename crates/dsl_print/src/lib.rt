//! Printing and reading, one after the other: a print is read back as the tree that was printed.
//!
//! There is no code here that runs: the crate has definitions, in specs/, and the law of prints as a contract.
//!
//! In reading order, specs/: `Bare`, trees without their places; `Printing`, what a print is when it is read again. proofs/:
//! `Printed`, what is printed of a part of a tree and read again, with a combinator for each of grammars, and `Loops`;
//! single tokens (`Ascii`, `Strings`, `Amounts`, `Signs`, `Operands`, `SignTokens`, `Spelled`); the productions of expressions
//! (`Alike`, `Expressions`, `Operations`, `Collections`, `Functions`, `Shapes`) and of statements (`Rows`, `Statements`,
//! `Objects`, `Includes`, `Choices`, `Targets`, `Settings`, `Applies`); all trees that can be printed (`Good`, `Trees`); that the
//! trees of files can (`Keeping`, `GivenExpressions`, `GivenStatements`, `Given`); and the law (`Law`).
#![tactic(auto)]

mod laws;

pub use laws::prints_are_read_back;
