// Statements of a word and an expression.
ghost use Rattle.std.specs.Prelude.{◌≡◌, ℕ};
ghost use Rattle.dsl_syntax.specs.SyntaxView.{expr_view, stmt_kind_view};
ghost use Rattle.dsl_next.specs.Gives.{Gives};
ghost use Rattle.dsl_grammar.specs.Reading.{read_by};
ghost use Rattle.dsl_statements.specs.Leads.{heading as heading_plain};
ghost use Rattle.dsl_statements.specs.Parts.{worded as worded_plain};

use dsl_lexer::{Token, Word};
use dsl_next::next::word;
use dsl_next::stop::Stop;
use dsl_syntax::{Expr, StmtKind};
use site_base::Place;

/// The words before the expression: that of the statement, and `where` behind `assign` and `ignore`.
pub fn heading<'a>(first: Word, tokens: &'a [Token]) -> Result<(Place, &'a [Token]), Stop<'a>>
    ensures { (most : ℕ) → Gives (λ p. p) result (read_by most (heading_plain first) tokens.now) }
{
    match first {
        Word::Assign => {
            let (_, rest) = word(Word::Assign, tokens)?;
            word(Word::Where, rest)
        }
        Word::Ignore => {
            let (_, rest) = word(Word::Ignore, tokens)?;
            word(Word::Where, rest)
        }
        _ => word(first, tokens),
    }
}

/// The statement of its word and an expression; any word but `assign`, `ignore` and `import` counts as `throw`.
pub fn worded(word: Word, expr: Expr) -> StmtKind
    ensures { stmt_kind_view result ≡ worded_plain word (expr_view expr) }
{
    match word {
        Word::Assign => StmtKind::Assign { expr },
        Word::Ignore => StmtKind::Ignore { expr },
        Word::Import => StmtKind::Import { expr },
        _ => StmtKind::Throw { expr },
    }
}
