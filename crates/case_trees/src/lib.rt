//! Trees as rows of tables write them.
#![tactic(auto)]

use dsl_lexer::{LexError, Sign, Token, TokenKind, Word, lex};
use site_base::{Num, OutOfMemory, Text, Tree};
use std::alloc::Global;

/// A list or a dictionary whose bracket is open.
#[derive(Drop)]
struct Open {
    is_dict: bool,
    items: Vec<Tree>,
    pairs: Vec<(Text, Tree)>,
    key: Option<Text>,
}

/// What was read of a tree so far.
#[derive(Drop)]
struct Reading {
    made: Option<Tree>,
    open: Vec<Open>,
    is_negative: bool,
    is_well: bool,
}

/// The tree that a row writes as the configuration language writes values: `null`, `true`, `-1.5`, `"text"`,
/// `[1, 2]`, `{ a = 1, "b c" = 2 }`. A dictionary's keys keep the order in which they stand. `None` if the
/// text isn't written so.
pub fn tree_of(alloc: Global, text: &str) -> Result<Option<Tree>, OutOfMemory> {
    if text.len() >= 1_000_000 {
        return Ok(None);
    }
    match lex(alloc, text.as_bytes(), 0) {
        Ok(tokens) => read(alloc, tokens.as_slice()),
        Err(LexError::Fault(_)) => Ok(None),
        Err(LexError::OutOfMemory) => Err(OutOfMemory),
    }
}

fn read(alloc: Global, tokens: &[Token]) -> Result<Option<Tree>, OutOfMemory> {
    let mut reading = Reading {
        made: None,
        open: Vec::new(alloc),
        is_negative: false,
        is_well: true,
    };
    for token in tokens {
        reading.step(alloc, &token.kind)?;
    }
    let is_whole = reading.is_well && reading.open.is_empty();
    Ok(if is_whole { reading.made } else { None })
}

impl Reading {
    fn step(&mut self, alloc: Global, kind: &TokenKind) -> Result<(), OutOfMemory> {
        match kind {
            TokenKind::Word(Word::Null) => self.take(Tree::Null),
            TokenKind::Word(Word::True) => self.take(Tree::Bool(true)),
            TokenKind::Word(Word::False) => self.take(Tree::Bool(false)),
            TokenKind::Number(number) => self.number(*number),
            TokenKind::Str(text) => self.text(text),
            TokenKind::Ident(name) => self.key(name),
            TokenKind::Sign(Sign::OpenBracket) => self.begin(alloc, false),
            TokenKind::Sign(Sign::OpenBrace) => self.begin(alloc, true),
            TokenKind::Sign(Sign::CloseBracket) => self.end(false),
            TokenKind::Sign(Sign::CloseBrace) => self.end(true),
            TokenKind::Sign(Sign::Minus) => {
                self.is_negative = true;
                Ok(())
            }
            TokenKind::Sign(Sign::Comma | Sign::Set) | TokenKind::NewLine | TokenKind::End => Ok(
                (),
            ),
            _ => self.refuse(),
        }
    }

    fn refuse(&mut self) -> Result<(), OutOfMemory> {
        self.is_well = false;
        Ok(())
    }

    fn number(&mut self, number: Num) -> Result<(), OutOfMemory> {
        let number = if self.is_negative {
            Num::of(number.thousandths().wrapping_neg())
        } else {
            number
        };
        self.is_negative = false;
        self.take(Tree::Number(number))
    }

    fn begin(&mut self, alloc: Global, is_dict: bool) -> Result<(), OutOfMemory> {
        self.open.push(Open {
            is_dict,
            items: Vec::new(alloc),
            pairs: Vec::new(alloc),
            key: None,
        })?;
        Ok(())
    }

    /// A closing bracket.
    fn end(&mut self, is_dict: bool) -> Result<(), OutOfMemory> {
        match self.open.pop() {
            Some(open) if open.is_dict && is_dict => self.take(Tree::Dict(open.pairs)),
            Some(open) if !open.is_dict && !is_dict => self.take(Tree::List(open.items)),
            _ => self.refuse(),
        }
    }

    /// A string, which is a key where a key comes next.
    fn text(&mut self, text: &Text) -> Result<(), OutOfMemory> {
        match self.open.last_mut() {
            Some(open) if open.is_dict && open.key.is_none() => {
                open.key = Some(text.clone()?);
                Ok(())
            }
            _ => self.take(Tree::Str(text.clone()?)),
        }
    }

    /// A key without quotes.
    fn key(&mut self, name: &Text) -> Result<(), OutOfMemory> {
        match self.open.last_mut() {
            Some(open) if open.is_dict && open.key.is_none() => {
                open.key = Some(name.clone()?);
                Ok(())
            }
            _ => self.refuse(),
        }
    }

    /// Takes a value into the innermost open bracket.
    fn take(&mut self, tree: Tree) -> Result<(), OutOfMemory> {
        match self.open.last_mut() {
            None => self.made = Some(tree),
            Some(open) => match open.key.take() {
                Some(key) => open.pairs.push((key, tree))?,
                None => open.items.push(tree)?,
            },
        }
        Ok(())
    }
}
