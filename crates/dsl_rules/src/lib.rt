//! Grammars over tokens of any kind, and their laws. There is no code here: the crate has definitions, in specs/, and lemmas, in proofs/, that a
//! parser's contracts and proofs cite.
//!
//! In reading order, specs/: `Alphabet`, the sorts of tokens; `Rules`, what a rule derives, by combinators;
//! `Grammar`, grammars as values, and what they derive; `Reading`, how one is read. proofs/: `Law`, what holds of a rule
//! and of reading by it: reading is sound and complete, a token at which it stops is one through which no sentence goes,
//! and those before it begin one; then this law for one token (`Single`), one rule after another (`Twice`), choices
//! (`Choice`) and loops (`Repeat`, `Locals`, `Loops`); `Shape`, what can be computed from a grammar's form alone, and when
//! a grammar fits; `Deep`, the law of every grammar that fits.
#![tactic(auto)]
