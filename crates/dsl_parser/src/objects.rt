// Objects and templates.
ghost use Rattle.std.specs.Prelude.{◌<◌, length};
ghost use Rattle.dsl_syntax.specs.SyntaxView.{stmt_kind_view};
ghost use Rattle.dsl_rules.specs.Grammar.{made};
ghost use Rattle.dsl_next.specs.Gives.{Gives};
ghost use Rattle.dsl_grammar.specs.Grammar.{NamedBody};
ghost use Rattle.dsl_statements.specs.NamedView.{named_of as named_plain};
ghost use Rattle.dsl_grammar.specs.Reading.{read_by};
ghost use Rattle.dsl_grammar.specs.Terms.{behind, word as word_rule};

use crate::blocks::braced;
use crate::exprs::expr;
use crate::functions::captured;
use dsl_lexer::{Token, Word};
use dsl_next::next::{ident, word};
use dsl_next::stop::Stop;
use dsl_statements::leads::Within;
use dsl_statements::objects::{Named, bodied_of, named_of};
use dsl_syntax::StmtKind;
use std::alloc::Global;

/// An object or a template, by its first word: `( "object" | "template" ) IDENT expr [use] body`.
#[cycle(parse)]
#[tactic(auto, unfolding(dsl_grammar::specs::Grammar::NamedBody, dsl_grammar::specs::Grammar::UseBody, dsl_grammar::specs::Grammar::Body))]
pub(crate) fn named_statement<'a>(
    alloc: Global,
    most: usize,
    first: Word,
    tokens: &'a [Token],
) -> Result<(StmtKind, &'a [Token]), Stop<'a>>
    requires { length tokens.now < most }
    ensures { Gives stmt_kind_view result (read_by most (behind (word_rule first) (made (named_plain first) NamedBody)) tokens.now) }
{
    let (_, begin) = word(first, tokens)?;
    let (kind, begin) = ident(begin)?;
    let (name, begin) = expr(alloc, most - 1, begin)?;
    let (uses, begin) = captured(alloc, most, begin)?;
    let (statements, rest) = braced(alloc, most, Within::Body, begin)?;
    let bodied = bodied_of(alloc, uses, statements)?;
    Ok((named_of(first, Named { kind, name, bodied }), rest))
}
