// The keys of statements.
ghost use Rattle.std.specs.Prelude.{◌≡◌, ◌++◌, ◌∷◌, OnOk};
ghost use Rattle.dsl_syntax.specs.SyntaxView.{arms_view, base_view, block_view, each_view, expr_view, func_view, maybe_each_view, maybe_expr_view, steps_view, stmt_view, stmts_view, uses_view};
ghost use Rattle.dsl_syntax.specs.declared.arm.Arm.{out-Arm};
ghost use Rattle.task_keys.specs.Keys.{maybe_text_key, text_key};
ghost use Rattle.task_keys.specs.SyntaxKeys.{arms_key, expression_key, function_key, loop_key, maybe_key, maybe_loop_key, root_key, statement_key, statements_key, steps_key, uses_key};

use crate::Key;
use crate::exprs::{push_after, push_expr, push_func, push_maybe, push_named, push_uses};
use crate::operators::set_number;
use dsl_syntax::{Arm, Base, Block, Each, Expr, Func, Step, Stmt, StmtKind, Use};
use site_base::{OutOfMemory, Text};
use std::sync::Arc;

/// Statements, as those of a body, one after another.
#[cycle(write)]
pub fn push_statements(out: &mut Key, statements: &[Stmt]) -> Result<(), OutOfMemory>
    ensures { OnOk result (out.new ≡ out.old ++ statements_key (stmts_view statements.now)) }
{
    for statement in statements {
        out.push(1)?;
        push_statement(out, statement)?;
    }
    out.push(0)
}

#[cycle(write)]
#[tactic(auto, using(dsl_syntax::proofs::SyntaxKinds::kind_object, dsl_syntax::proofs::SyntaxKinds::kind_template, dsl_syntax::proofs::SyntaxKinds::kind_apply, dsl_syntax::proofs::SyntaxKinds::kind_var, dsl_syntax::proofs::SyntaxKinds::kind_set, dsl_syntax::proofs::SyntaxKinds::kind_if, dsl_syntax::proofs::SyntaxKinds::kind_while, dsl_syntax::proofs::SyntaxKinds::kind_for, dsl_syntax::proofs::SyntaxKinds::kind_return))]
fn push_statement(out: &mut Key, statement: &Stmt) -> Result<(), OutOfMemory>
    ensures { OnOk result (out.new ≡ out.old ++ statement_key (stmt_view statement.now)) }
{
    match &statement.kind {
        StmtKind::Object {
            kind,
            name,
            uses,
            body,
        } => {
            push_head(out, 0, kind, name)?;
            push_uses(out, uses)?;
            push_body(out, body)
        }
        StmtKind::Template {
            kind,
            name,
            uses,
            body,
        } => {
            push_head(out, 1, kind, name)?;
            push_uses(out, uses)?;
            push_body(out, body)
        }
        StmtKind::Apply {
            kind,
            name,
            to,
            each,
            uses,
            body,
        } => {
            push_apply(out, kind, name)?;
            out.push_maybe_text(to)?;
            push_maybe_each(out, each)?;
            push_uses(out, uses)?;
            push_body(out, body)
        }
        StmtKind::Assign { expr } => push_after(out, 3, expr),
        StmtKind::Ignore { expr } => push_after(out, 4, expr),
        StmtKind::Import { expr } => push_after(out, 5, expr),
        StmtKind::Throw { expr } => push_after(out, 6, expr),
        StmtKind::Eval { expr } => push_after(out, 7, expr),
        StmtKind::Include { name, .. } => push_named(out, 8, name),
        StmtKind::IncludeLib { name, .. } => push_named(out, 9, name),
        StmtKind::IncludeAll { dir, pattern, .. } => push_include_all(out, dir, pattern),
        StmtKind::Const { name, expr } => push_head(out, 11, name, expr),
        StmtKind::Var { name, expr } => push_var(out, name, expr),
        StmtKind::Set {
            base,
            steps,
            op,
            expr,
        } => {
            push_base(out, base)?;
            push_steps(out, steps)?;
            push_after(out, set_number(*op), expr)
        }
        StmtKind::If { arms, other } => {
            push_arms(out, arms)?;
            push_statements(out, other)
        }
        StmtKind::While { cond, block } => {
            push_after(out, 15, cond)?;
            push_statements(out, block)
        }
        StmtKind::For { each, block } => {
            push_loop(out, each)?;
            push_statements(out, block)
        }
        StmtKind::Define { name, func } => push_define(out, name, func),
        StmtKind::Return { expr } => push_return(out, expr),
        StmtKind::Break => out.push(19),
        StmtKind::Continue => out.push(20),
    }
}

/// The number of a statement, a text and an expression: the type and the name of an object or a template, or a constant.
#[cycle(write)]
fn push_head(out: &mut Key, number: u8, text: &Text, expr: &Expr) -> Result<(), OutOfMemory>
    ensures { OnOk result (out.new ≡ out.old ++ number ∷ (text_key text.now ++ expression_key (expr_view expr.now))) }
{
    push_named(out, number, text)?;
    push_expr(out, expr)
}

/// The body of an object, a template or an `apply`.
#[cycle(write)]
#[tactic(auto, using(dsl_syntax::proofs::SyntaxRows::block_fields))]
fn push_body(out: &mut Key, body: &Block) -> Result<(), OutOfMemory>
    ensures { OnOk result (out.new ≡ out.old ++ statements_key (block_view body.now)) }
{
    push_statements(out, &body.statements)
}

/// An `apply` up to its name.
#[cycle(write)]
fn push_apply(out: &mut Key, kind: &Text, name: &Option<Expr>) -> Result<(), OutOfMemory>
    ensures { OnOk result (out.new ≡ out.old ++ 2 ∷ (text_key kind.now ++ maybe_key (maybe_expr_view name.now))) }
{
    push_named(out, 2, kind)?;
    push_maybe(out, name)
}

/// The head of the loop of an `apply`, if it has one.
#[cycle(write)]
fn push_maybe_each(out: &mut Key, each: &Option<Arc<Each>>) -> Result<(), OutOfMemory>
    ensures { OnOk result (out.new ≡ out.old ++ maybe_loop_key (maybe_each_view each.now)) }
{
    match each {
        None => out.push(0),
        Some(each) => {
            out.push(1)?;
            push_each(out, each)
        }
    }
}

/// The head of a loop.
#[cycle(write)]
pub fn push_each(out: &mut Key, each: &Each) -> Result<(), OutOfMemory>
    ensures { OnOk result (out.new ≡ out.old ++ loop_key (each_view each.now)) }
{
    out.push_text(&each.key)?;
    out.push_maybe_text(&each.value)?;
    push_expr(out, &each.expr)
}

/// The head of a `for`.
#[cycle(write)]
fn push_loop(out: &mut Key, each: &Each) -> Result<(), OutOfMemory>
    ensures { OnOk result (out.new ≡ out.old ++ 16 ∷ loop_key (each_view each.now)) }
{
    out.push(16)?;
    push_each(out, each)
}

fn push_include_all(out: &mut Key, dir: &Text, pattern: &Text) -> Result<(), OutOfMemory>
    ensures { OnOk result (out.new ≡ out.old ++ 10 ∷ (text_key dir.now ++ text_key pattern.now)) }
{
    push_named(out, 10, dir)?;
    out.push_text(pattern)
}

#[cycle(write)]
fn push_var(out: &mut Key, name: &Text, expr: &Option<Expr>) -> Result<(), OutOfMemory>
    ensures { OnOk result (out.new ≡ out.old ++ 12 ∷ (text_key name.now ++ maybe_key (maybe_expr_view expr.now))) }
{
    push_named(out, 12, name)?;
    push_maybe(out, expr)
}

#[cycle(write)]
fn push_define(out: &mut Key, name: &Text, func: &Func) -> Result<(), OutOfMemory>
    ensures { OnOk result (out.new ≡ out.old ++ 17 ∷ (text_key name.now ++ function_key (func_view func.now))) }
{
    push_named(out, 17, name)?;
    push_func(out, func)
}

#[cycle(write)]
fn push_return(out: &mut Key, expr: &Option<Expr>) -> Result<(), OutOfMemory>
    ensures { OnOk result (out.new ≡ out.old ++ 18 ∷ maybe_key (maybe_expr_view expr.now)) }
{
    out.push(18)?;
    push_maybe(out, expr)
}

/// Where an assignment begins, with the number of assignments before it.
fn push_base(out: &mut Key, base: &Base) -> Result<(), OutOfMemory>
    ensures { OnOk result (out.new ≡ out.old ++ 13 ∷ root_key (base_view base.now)) }
{
    out.push(13)?;
    match base {
        Base::Name(name) => push_named(out, 0, name),
        Base::This => out.push(1),
        Base::Globals => out.push(2),
    }
}

/// The steps of an assignment's target.
#[cycle(write)]
fn push_steps(out: &mut Key, steps: &[Step]) -> Result<(), OutOfMemory>
    ensures { OnOk result (out.new ≡ out.old ++ steps_key (steps_view steps.now)) }
{
    for step in steps {
        match step {
            Step::Member(name) => push_named(out, 1, name)?,
            Step::Index(at) => push_after(out, 2, at)?,
        }
    }
    out.push(0)
}

/// The arms of an `if`, with the number of `if` before them.
#[cycle(write)]
#[tactic(auto, using(crate::proofs::Arms::one_arm))]
fn push_arms(out: &mut Key, arms: &[Arm]) -> Result<(), OutOfMemory>
    ensures { OnOk result (out.new ≡ out.old ++ 14 ∷ arms_key (arms_view arms.now)) }
{
    out.push(14)?;
    for arm in arms {
        push_arm(out, arm)?;
    }
    out.push(0)
}

/// An arm of an `if`: its condition and its block.
#[cycle(write)]
fn push_arm(out: &mut Key, arm: &Arm) -> Result<(), OutOfMemory>
    ensures { OnOk result (out.new ≡ out.old ++ 1 ∷ (expression_key (expr_view (out-Arm arm.now).cond) ++ statements_key (stmts_view (out-Arm arm.now).block.items))) }
{
    push_after(out, 1, &arm.cond)?;
    push_statements(out, &arm.block)
}
