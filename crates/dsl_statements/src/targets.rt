// What may be assigned to.
ghost use Rattle.std.specs.Prelude.{◌≡◌, IfOk, is_some};
ghost use Rattle.dsl_syntax.specs.SyntaxView.{base_view, expr_view};
ghost use Rattle.dsl_syntax.specs.Syntax.{no_steps};
ghost use Rattle.dsl_grammar.specs.Grammar.{target, target_of as target_of_plain, stepped};
ghost use Rattle.dsl_statements.specs.Parts.{maybe_target_view, target_view, with_step as with_step_plain};

use dsl_syntax::{Base, Expr, ExprKind, Step};
use site_base::OutOfMemory;
use std::alloc::{AllocFailed, Global};

/// Where an assignment leads to: a value, and the steps from there.
#[derive(Drop)]
pub struct Target {
    pub base: Base,
    pub steps: Vec<Step>,
}

/// Where an assignment to the expression leads to, or nothing if none can be made.
pub(crate) fn target_of(alloc: Global, expr: Expr) -> Result<Option<Target>, OutOfMemory>
    ensures { IfOk result (λ o. maybe_target_view o ≡ target_of_plain (expr_view expr)) }
{
    match expr.kind {
        ExprKind::Name(name) => Ok(Some(begun(alloc, Base::Name(name)))),
        ExprKind::This => Ok(Some(begun(alloc, Base::This))),
        ExprKind::Globals => Ok(Some(begun(alloc, Base::Globals))),
        ExprKind::Member(base, name) => {
            let target = target_of(alloc, Box::into_inner(base))?;
            Ok(with_step(target, Step::Member(name))?)
        }
        ExprKind::Index(base, at) => {
            let target = target_of(alloc, Box::into_inner(base))?;
            Ok(with_step(target, Step::Index(Box::into_inner(at)))?)
        }
        _ => Ok(None),
    }
}

/// The target with no steps.
fn begun(alloc: Global, base: Base) -> Target
    ensures { target_view result ≡ target (base_view base) no_steps }
{
    Target {
        base,
        steps: Vec::new(alloc),
    }
}

/// The target with one step more.
fn with_step(target: Option<Target>, step: Step) -> Result<Option<Target>, AllocFailed<Step>>
    ensures { IfOk result (λ o. maybe_target_view o ≡ with_step_plain step (maybe_target_view target)) }
{
    match target {
        Some(Target { base, mut steps }) => {
            steps.push(step)?;
            Ok(Some(Target { base, steps }))
        }
        None => Ok(None),
    }
}

/// Whether an assignment to the expression can be made; to `this` and `globals` only with a step.
pub(crate) fn is_target(expr: &Expr) -> bool
    ensures { result ≡ is_some (stepped (target_of_plain (expr_view expr.now))) }
{
    match &expr.kind {
        ExprKind::Name(_) => true,
        ExprKind::Member(base, _) => leads_on(base),
        ExprKind::Index(base, _) => leads_on(base),
        _ => false,
    }
}

/// Whether an assignment to a part of the expression can be made.
fn leads_on(expr: &Expr) -> bool
    ensures { result ≡ is_some (target_of_plain (expr_view expr.now)) }
{
    match &expr.kind {
        ExprKind::Name(_) | ExprKind::This | ExprKind::Globals => true,
        ExprKind::Member(base, _) => leads_on(base),
        ExprKind::Index(base, _) => leads_on(base),
        _ => false,
    }
}
