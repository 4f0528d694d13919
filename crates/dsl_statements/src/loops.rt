// Loops, and arms of a condition and a block.
ghost use Rattle.std.specs.Prelude.{◌≡◌, ◌<◌, ℕ};
ghost use Rattle.dsl_syntax.specs.Syntax.{for as for_plain};
ghost use Rattle.dsl_syntax.specs.SyntaxView.{each_view, expr_view, stmt_kind_view, stmts_view, armed_view};
ghost use Rattle.dsl_next.specs.Gives.{Gives};
ghost use Rattle.dsl_grammar.specs.Grammar.{Valued, while_armed};
ghost use Rattle.dsl_syntax.specs.Lists.{armed};
ghost use Rattle.dsl_grammar.specs.Reading.{read_by};

use dsl_lexer::{Sign, Token};
use dsl_next::next::{at_sign, ident, sign};
use dsl_next::stop::Stop;
use dsl_syntax::{Arm, Each, Expr, Stmt, StmtKind};
use site_base::Text;

/// The name of the values in the head of a loop, if there is one: `"=>" IDENT`.
#[tactic(auto, unfolding(dsl_grammar::specs::Grammar::Valued))]
pub fn valued<'a>(tokens: &'a [Token]) -> Result<(Option<Text>, &'a [Token]), Stop<'a>>
    ensures { (most : ℕ) → Gives (λ v. v) result (read_by most Valued tokens.now) }
{
    if !at_sign(Sign::Arrow, tokens) {
        return Ok((None, tokens));
    }
    let (_, rest) = sign(Sign::Arrow, tokens)?;
    let (name, rest) = ident(rest)?;
    Ok((Some(name), rest))
}

/// The arm of a condition and a block.
#[tactic(auto, using(crate::proofs::Arms::made_armed))]
pub fn arm_of(cond: Expr, block: Vec<Stmt>) -> Arm
    ensures { armed_view result ≡ armed (expr_view cond) (stmts_view block.items) }
{
    Arm { cond, block }
}

/// The `while` of a condition and a block.
#[tactic(auto, using(crate::proofs::Arms::armed_fields, dsl_syntax::proofs::SyntaxKinds::kind_while))]
pub fn while_of(arm: Arm) -> StmtKind
    ensures { stmt_kind_view result ≡ while_armed (armed_view arm) }
{
    let Arm { cond, block } = arm;
    StmtKind::While { cond, block }
}

/// The `for` of a head and a block.
#[tactic(auto, using(dsl_syntax::proofs::SyntaxKinds::kind_for))]
pub fn for_of(each: Each, block: Vec<Stmt>) -> StmtKind
    ensures { stmt_kind_view result ≡ for_plain (each_view each) (stmts_view block.items) }
{
    StmtKind::For { each, block }
}
