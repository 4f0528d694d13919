// The heads of apply rules.
ghost use Rattle.std.specs.Prelude.{◌≡◌, IfOk};
ghost use Rattle.dsl_rules.specs.Rules.{may};
ghost use Rattle.dsl_grammar.specs.Codes.{sorts};
ghost use Rattle.dsl_grammar.specs.Grammar.{add_head, applied, head_for, head_to, may_head};
ghost use Rattle.dsl_statements.specs.NamedView.{headed_view, heads_view, head_sorts};
ghost use Rattle.dsl_syntax.specs.SyntaxView.{each_view, maybe_expr_view, stmt_kind_view};

use crate::objects::Bodied;
use dsl_lexer::{Token, Word};
use dsl_next::next::at_word;
use dsl_syntax::{Each, Expr, StmtKind};
use site_base::Text;
use std::alloc::{AllocError, Global};
use std::sync::Arc;

/// Heads and a body.
#[derive(Drop)]
pub struct Headed {
    pub heads: Heads,
    pub bodied: Bodied,
}

/// The type of the targets and the loop of an apply rule, as far as they stand there.
#[derive(Drop)]
pub struct Heads {
    pub to: Option<Text>,
    pub each: Option<Arc<Each>>,
}

/// Whether a head that isn't there yet begins here.
pub fn at_head(heads: &Heads, tokens: &[Token]) -> bool
    ensures { result ≡ may sorts head_sorts (may_head (heads_view heads.now)) tokens.now }
{
    if at_word(Word::To, tokens) {
        return heads.to.is_none();
    }
    at_word(Word::For, tokens) && heads.each.is_none()
}

/// These heads, with the type of the targets.
pub fn with_target(heads: Heads, to: Text) -> Heads
    ensures { heads_view result ≡ add_head (heads_view heads) (head_to to) }
{
    Heads {
        to: Some(to),
        each: heads.each,
    }
}

/// These heads, with the loop.
pub fn with_loop(alloc: Global, heads: Heads, each: Each) -> Result<Heads, AllocError>
    ensures { IfOk result (λ h. heads_view h ≡ add_head (heads_view heads) (head_for (each_view each))) }
{
    let each = Arc::new(alloc, each)?;
    Ok(Heads {
        to: heads.to,
        each: Some(each),
    })
}

/// An apply rule.
pub fn apply_of(kind: Text, name: Option<Expr>, headed: Headed) -> StmtKind
    ensures { stmt_kind_view result ≡ applied kind (maybe_expr_view name) (headed_view headed) }
{
    StmtKind::Apply {
        kind,
        name,
        to: headed.heads.to,
        each: headed.heads.each,
        uses: headed.bodied.uses,
        body: headed.bodied.body,
    }
}
