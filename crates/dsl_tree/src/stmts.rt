// The print of statements.
ghost use Rattle.std.specs.Prelude.{◌≡◌, ◌++◌, ◌∷◌, [], false, codes, OnOk};
ghost use Rattle.site_base.specs.Quoted.{quoted};
ghost use Rattle.dsl_syntax.specs.SyntaxView.{expr_view, stmt_view, uses_view, steps_view, arms_view, stmts_view, each_view, maybe_expr_view, maybe_each_view, base_view, block_view, func_view};
ghost use Rattle.dsl_syntax.specs.declared.arm.Arm.{out-Arm};
ghost use Rattle.dsl_tree.specs.Operators.{set_text};
ghost use Rattle.dsl_tree.specs.Spelling.{expr_text, function_text, uses_text, given_text, returned_text, loop_text, stmts_text, stmt_text, steps_text, arm_text, arms_text, else_if, else_text, apply_name_text, apply_loop_text, root_text, target_text, braced};

use crate::exprs::{push_behind, push_expr, push_func, push_given, push_loop, push_uses};
use crate::operators::set_sign;
use crate::shapes::begins_with_brace;
use dsl_syntax::{Arm, Base, Block, Each, Expr, Func, SetOp, Step, Stmt, StmtKind, Use};
use site_base::{OutOfMemory, Text, push_quoted};
use std::sync::Arc;

/// A block, behind the words before it.
#[cycle(print)]
pub(crate) fn push_block(out: &mut Text, words: &str, block: &[Stmt]) -> Result<(), OutOfMemory>
    ensures { OnOk result (out.new ≡ out.old ++ (words.now ++ braced (stmts_text (stmts_view block.now)))) }
{
    out.push_str(words)?;
    out.push_str("{\n")?;
    push_stmts(out, block)?;
    out.push('}')
}

/// Statements, one a line.
#[cycle(print)]
pub(crate) fn push_stmts(out: &mut Text, statements: &[Stmt]) -> Result<(), OutOfMemory>
    ensures { OnOk result (out.new ≡ out.old ++ stmts_text (stmts_view statements.now)) }
{
    for statement in statements {
        push_stmt(out, statement)?;
        out.push('\n')?;
    }
    Ok(())
}

#[cycle(print)]
#[tactic(auto, using(dsl_syntax::proofs::SyntaxKinds::kind_object, dsl_syntax::proofs::SyntaxKinds::kind_template, dsl_syntax::proofs::SyntaxKinds::kind_apply, dsl_syntax::proofs::SyntaxKinds::kind_var, dsl_syntax::proofs::SyntaxKinds::kind_set, dsl_syntax::proofs::SyntaxKinds::kind_if, dsl_syntax::proofs::SyntaxKinds::kind_while, dsl_syntax::proofs::SyntaxKinds::kind_for, dsl_syntax::proofs::SyntaxKinds::kind_return))]
fn push_stmt(out: &mut Text, statement: &Stmt) -> Result<(), OutOfMemory>
    ensures { OnOk result (out.new ≡ out.old ++ stmt_text (stmt_view statement.now)) }
{
    match &statement.kind {
        StmtKind::Object {
            kind,
            name,
            uses,
            body,
        } => {
            push_head(out, "object ", kind, name)?;
            push_uses(out, uses)?;
            push_body(out, body)
        }
        StmtKind::Template {
            kind,
            name,
            uses,
            body,
        } => {
            push_head(out, "template ", kind, name)?;
            push_uses(out, uses)?;
            push_body(out, body)
        }
        StmtKind::Apply {
            kind,
            name,
            to,
            each,
            uses,
            body,
        } => {
            push_apply(out, kind, name)?;
            push_target(out, to)?;
            push_apply_loop(out, each)?;
            push_uses(out, uses)?;
            push_body(out, body)
        }
        StmtKind::Assign { expr } => push_behind(out, "assign where ", expr),
        StmtKind::Ignore { expr } => push_behind(out, "ignore where ", expr),
        StmtKind::Import { expr } => push_behind(out, "import ", expr),
        StmtKind::Throw { expr } => push_behind(out, "throw ", expr),
        StmtKind::Eval { expr } => push_expr(out, expr),
        StmtKind::Include { name, .. } => push_include(out, name.as_str()),
        StmtKind::IncludeLib { name, .. } => push_library(out, name.as_str()),
        StmtKind::IncludeAll { dir, pattern, .. } => push_include_all(
            out,
            dir.as_str(),
            pattern.as_str(),
        ),
        StmtKind::Const { name, expr } => push_const(out, name.as_str(), expr),
        StmtKind::Var { name, expr } => push_var(out, name.as_str(), expr),
        StmtKind::Set {
            base,
            steps,
            op,
            expr,
        } => {
            push_base(out, base)?;
            push_steps(out, steps)?;
            push_assigned(out, *op, expr)
        }
        StmtKind::If { arms, other } => {
            push_arms(out, arms)?;
            push_else(out, other)
        }
        StmtKind::While { cond, block } => {
            push_behind(out, "while (", cond)?;
            push_block(out, ") ", block)
        }
        StmtKind::For { each, block } => {
            push_loop(out, "for ", each)?;
            push_block(out, " ", block)
        }
        StmtKind::Define { name, func } => push_define(out, name.as_str(), func),
        StmtKind::Return { expr } => push_return(out, expr),
        StmtKind::Break => out.push_str("break"),
        StmtKind::Continue => out.push_str("continue"),
    }
}

/// The head of an object or a template: its first word, type and name.
#[cycle(print)]
fn push_head(out: &mut Text, word: &str, kind: &Text, name: &Expr) -> Result<(), OutOfMemory>
    ensures { OnOk result (out.new ≡ out.old ++ (word.now ++ (kind.now ++ 32 ∷ expr_text (expr_view name.now)))) }
{
    out.push_str(word)?;
    out.push_str(kind.as_str())?;
    push_behind(out, " ", name)
}

/// The body of an object, a template or an `apply`.
#[cycle(print)]
#[tactic(auto, using(dsl_syntax::proofs::SyntaxRows::block_fields))]
fn push_body(out: &mut Text, body: &Block) -> Result<(), OutOfMemory>
    ensures { OnOk result (out.new ≡ out.old ++ 32 ∷ braced (stmts_text (block_view body.now))) }
{
    push_block(out, " ", &body.statements)
}

/// An `apply` up to its name.
#[cycle(print)]
fn push_apply(out: &mut Text, kind: &Text, name: &Option<Expr>) -> Result<(), OutOfMemory>
    ensures { OnOk result (out.new ≡ out.old ++ (codes "apply " ++ (kind.now ++ apply_name_text (maybe_expr_view name.now)))) }
{
    out.push_str("apply ")?;
    out.push_str(kind.as_str())?;
    push_apply_name(out, name)
}

#[cycle(print)]
fn push_var(out: &mut Text, name: &str, expr: &Option<Expr>) -> Result<(), OutOfMemory>
    ensures { OnOk result (out.new ≡ out.old ++ (codes "var " ++ (name.now ++ given_text (maybe_expr_view expr.now)))) }
{
    out.push_str("var ")?;
    out.push_str(name)?;
    push_given(out, expr)
}

/// An operator of an assignment and the expression behind it.
#[cycle(print)]
fn push_assigned(out: &mut Text, op: SetOp, expr: &Expr) -> Result<(), OutOfMemory>
    ensures { OnOk result (out.new ≡ out.old ++ 32 ∷ (set_text op ++ 32 ∷ expr_text (expr_view expr.now))) }
{
    out.push(' ')?;
    out.push_str(set_sign(op))?;
    push_behind(out, " ", expr)
}

#[cycle(print)]
fn push_define(out: &mut Text, name: &str, func: &Func) -> Result<(), OutOfMemory>
    ensures { OnOk result (out.new ≡ out.old ++ (codes "function " ++ (name.now ++ function_text (func_view func.now)))) }
{
    out.push_str("function ")?;
    out.push_str(name)?;
    push_func(out, func)
}

#[cycle(print)]
fn push_return(out: &mut Text, expr: &Option<Expr>) -> Result<(), OutOfMemory>
    ensures { OnOk result (out.new ≡ out.old ++ (codes "return" ++ returned_text (maybe_expr_view expr.now))) }
{
    match expr {
        None => out.push_str("return"),
        Some(expr) => push_behind(out, "return ", expr),
    }
}

/// The name of an `apply`, in parentheses where it would begin with a brace.
#[cycle(print)]
fn push_apply_name(out: &mut Text, name: &Option<Expr>) -> Result<(), OutOfMemory>
    ensures { OnOk result (out.new ≡ out.old ++ apply_name_text (maybe_expr_view name.now)) }
{
    let Some(expr) = name else {
        return Ok(());
    };
    if !begins_with_brace(expr) {
        return push_behind(out, " ", expr);
    }
    push_behind(out, " (", expr)?;
    out.push(')')
}

fn push_target(out: &mut Text, to: &Option<Text>) -> Result<(), OutOfMemory>
    ensures { OnOk result (out.new ≡ out.old ++ target_text to.now) }
{
    match to {
        None => Ok(()),
        Some(kind) => {
            out.push_str(" to ")?;
            out.push_str(kind.as_str())
        }
    }
}

#[cycle(print)]
fn push_apply_loop(out: &mut Text, each: &Option<Arc<Each>>) -> Result<(), OutOfMemory>
    ensures { OnOk result (out.new ≡ out.old ++ apply_loop_text (maybe_each_view each.now)) }
{
    match each {
        None => Ok(()),
        Some(each) => push_loop(out, " for ", each),
    }
}

fn push_include(out: &mut Text, name: &str) -> Result<(), OutOfMemory>
    ensures { OnOk result (out.new ≡ out.old ++ (codes "include " ++ quoted name.now)) }
{
    out.push_str("include ")?;
    push_quoted(out, name)
}

fn push_library(out: &mut Text, name: &str) -> Result<(), OutOfMemory>
    ensures { OnOk result (out.new ≡ out.old ++ (codes "include <" ++ (name.now ++ 62 ∷ []))) }
{
    out.push_str("include <")?;
    out.push_str(name)?;
    out.push('>')
}

fn push_include_all(out: &mut Text, dir: &str, pattern: &str) -> Result<(), OutOfMemory>
    ensures { OnOk result (out.new ≡ out.old ++ (codes "include_recursive " ++ (quoted dir.now ++ 44 ∷ 32 ∷ quoted pattern.now))) }
{
    out.push_str("include_recursive ")?;
    push_quoted(out, dir)?;
    out.push_str(", ")?;
    push_quoted(out, pattern)
}

#[cycle(print)]
fn push_const(out: &mut Text, name: &str, expr: &Expr) -> Result<(), OutOfMemory>
    ensures { OnOk result (out.new ≡ out.old ++ (codes "const " ++ (name.now ++ (codes " = " ++ expr_text (expr_view expr.now))))) }
{
    out.push_str("const ")?;
    out.push_str(name)?;
    push_behind(out, " = ", expr)
}

fn push_base(out: &mut Text, base: &Base) -> Result<(), OutOfMemory>
    ensures { OnOk result (out.new ≡ out.old ++ root_text (base_view base.now)) }
{
    match base {
        Base::Name(name) => out.push_str(name.as_str()),
        Base::This => out.push_str("this"),
        Base::Globals => out.push_str("globals"),
    }
}

/// The steps of a target.
#[cycle(print)]
fn push_steps(out: &mut Text, steps: &[Step]) -> Result<(), OutOfMemory>
    ensures { OnOk result (out.new ≡ out.old ++ steps_text (steps_view steps.now)) }
{
    for step in steps {
        match step {
            Step::Member(name) => {
                out.push('.')?;
                out.push_str(name.as_str())?;
            }
            Step::Index(at) => {
                push_behind(out, "[", at)?;
                out.push(']')?;
            }
        }
    }
    Ok(())
}

/// The arms of an `if`.
#[cycle(print)]
#[tactic(auto, using(crate::proofs::Lists::arms_behind))]
fn push_arms(out: &mut Text, arms: &[Arm]) -> Result<(), OutOfMemory>
    ensures { OnOk result (out.new ≡ out.old ++ arms_text false (arms_view arms.now)) }
{
    for (i, arm) in arms.iter().enumerate() {
        push_arm(out, i > 0, arm)?;
    }
    Ok(())
}

/// One arm: its condition and its block, behind an `else` where it is a later one.
#[cycle(print)]
fn push_arm(out: &mut Text, later: bool, arm: &Arm) -> Result<(), OutOfMemory>
    ensures { OnOk result (out.new ≡ out.old ++ (else_if later ++ arm_text (expr_text (expr_view (out-Arm arm.now).cond)) (stmts_text (stmts_view (out-Arm arm.now).block.items)))) }
{
    push_else_if(out, later)?;
    push_behind(out, "if (", &arm.cond)?;
    push_block(out, ") ", &arm.block)
}

fn push_else_if(out: &mut Text, later: bool) -> Result<(), OutOfMemory>
    ensures { OnOk result (out.new ≡ out.old ++ else_if later) }
{
    if later {
        out.push_str(" else ")
    } else {
        Ok(())
    }
}

#[cycle(print)]
#[tactic(auto, using(crate::proofs::Lists::else_is))]
fn push_else(out: &mut Text, other: &[Stmt]) -> Result<(), OutOfMemory>
    ensures { OnOk result (out.new ≡ out.old ++ else_text (stmts_view other.now)) }
{
    if other.is_empty() {
        return Ok(());
    }
    push_block(out, " else ", other)
}
