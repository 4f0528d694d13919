// Objects and templates.
ghost use Rattle.std.specs.Prelude.{◌≡◌, ◌<◌, IfOk};
ghost use Rattle.dsl_grammar.specs.Grammar.{bodied, object_named, template_named};
ghost use Rattle.dsl_statements.specs.NamedView.{bodied_view, named_of as named_plain, named_view};
ghost use Rattle.dsl_syntax.specs.SyntaxView.{stmt_kind_view, stmts_view, uses_view};

use dsl_lexer::Word;
use dsl_syntax::{Block, Expr, Stmt, StmtKind, Use};
use site_base::Text;
use std::alloc::{AllocError, Global};
use std::sync::Arc;

/// Captured names, and a body.
#[derive(Drop)]
pub struct Bodied {
    pub uses: Vec<Use>,
    pub body: Arc<Block>,
}

/// A type, a name and a body.
#[derive(Drop)]
pub struct Named {
    pub kind: Text,
    pub name: Expr,
    pub bodied: Bodied,
}

/// Captured names and the body of these statements, which takes no more memory than they do.
pub fn bodied_of(
    alloc: Global,
    uses: Vec<Use>,
    mut statements: Vec<Stmt>,
) -> Result<Bodied, AllocError>
    ensures { IfOk result (λ b. bodied_view b ≡ bodied (uses_view uses.items) (stmts_view statements.items)) }
{
    statements.shrink_to_fit();
    let body = Arc::new(alloc, Block { statements })?;
    Ok(Bodied { uses, body })
}

/// An object, or a template where the word is another than `object`.
pub fn named_of(first: Word, named: Named) -> StmtKind
    ensures { stmt_kind_view result ≡ named_plain first (named_view named) }
{
    match first {
        Word::Object => object_of(named),
        _ => template_of(named),
    }
}

/// An object.
fn object_of(named: Named) -> StmtKind
    ensures { stmt_kind_view result ≡ object_named (named_view named) }
{
    StmtKind::Object {
        kind: named.kind,
        name: named.name,
        uses: named.bodied.uses,
        body: named.bodied.body,
    }
}

/// A template.
fn template_of(named: Named) -> StmtKind
    ensures { stmt_kind_view result ≡ template_named (named_view named) }
{
    StmtKind::Template {
        kind: named.kind,
        name: named.name,
        uses: named.bodied.uses,
        body: named.bodied.body,
    }
}
