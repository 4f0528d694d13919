// Expressions.
ghost use Rattle.std.specs.Prelude.{IfOk, []};
ghost use Rattle.std.specs.Option.{option_copied};
ghost use Rattle.dsl_syntax.specs.SyntaxView.{expr_view, exprs_view, entries_view, maybe_expr_view};
ghost use Rattle.eval_meaning.specs.Evaluation.{expression_with};
ghost use Rattle.eval_meaning.specs.Literals.{values_with, pairs_with};
ghost use Rattle.eval_meaning.specs.Members.{index_with};
ghost use Rattle.eval_meaning.specs.Operators.{binary_with};
ghost use Rattle.eval_work.specs.Works.{state_of, view_of, Gives};
ghost use Rattle.eval_work.specs.Kept.{Named, NamedAll, IsFit, IsKept, AreKept, ArePairsKept, IsTold};
ghost use Rattle.dsl_eval.specs.Nodes.{parts};
ghost use Rattle.eval_steps.specs.Values.{maybe_value, right_with};
ghost use Rattle.dsl_eval.specs.Values.{IsMaybeKept};

use crate::calls::eval_call;
use crate::captures::make_function;
use dsl_syntax::{BinOp, Expr, ExprKind};
use dsl_value::Value;
use eval_steps::{enter, member};
use eval_work::{Stop, Work, WorldView};
use name_work::name_value;
use site_base::{Place, Text};

/// The value of an expression, where so many nodes may still be open.
#[cycle(eval)]
pub(crate) fn eval_at(
    view: &WorldView,
    work: &mut Work,
    depth: u32,
    expr: &Expr,
) -> Result<Value, Stop>
    requires fit { IsFit work.old }
    requires told { IsTold view.now work.old.store }
    ensures gives { Gives (λ v. v) result (state_of work.new) ((parts view.now depth).value (expr_view expr.now) (state_of work.old)) }
    ensures kept { IfOk result (IsKept work.old work.new) }
{
    let below = enter(work, depth, expr.place)?;
    eval_kind(view, work, below, expr)
}

/// The value of an expression whose step is counted.
#[cycle(eval)]
pub(crate) fn eval_kind(
    view: &WorldView,
    work: &mut Work,
    depth: u32,
    expr: &Expr,
) -> Result<Value, Stop>
    requires fit { IsFit work.old }
    requires told { IsTold view.now work.old.store }
    ensures gives { Gives (λ v. v) result (state_of work.new) (expression_with (view_of view.now) (parts view.now depth) (expr_view expr.now) (state_of work.old)) }
    ensures kept { IfOk result (IsKept work.old work.new) }
{
    let place = expr.place;
    match &expr.kind {
        ExprKind::Null => Ok(Value::Null),
        ExprKind::Bool(value) => Ok(Value::Bool(*value)),
        ExprKind::Number(number) => Ok(Value::Number(*number)),
        ExprKind::Str(text) => work.string(place, text),
        ExprKind::Array(items) => {
            let values = eval_values(view, work, depth, items, Vec::new(work.alloc))?;
            work.make_array(place, values)
        }
        ExprKind::Dict(pairs) => {
            let pairs = eval_pairs(view, work, depth, pairs)?;
            work.make_dict(place, pairs)
        }
        ExprKind::Name(name) => name_value(work, place, name),
        ExprKind::This => work.this_value(),
        ExprKind::Globals => Ok(Value::Ref(0)),
        ExprKind::Member(of, name) => {
            let value = eval_at(view, work, depth, of)?;
            member(work, place, &value, name)
        }
        ExprKind::Index(of, key) => eval_index(view, work, depth, place, of, key),
        ExprKind::Call(called, args) => eval_call(view, work, depth, place, called, args),
        ExprKind::Unary(op, of) => {
            let value = eval_at(view, work, depth, of)?;
            work.unary(place, *op, &value)
        }
        ExprKind::Binary(op, left, right) => {
            eval_binary(view, work, depth, place, *op, left, right)
        }
        ExprKind::Function(func) => make_function(view, work, depth, place, func),
    }
}

/// The values of expressions from left to right, behind those that are there.
#[cycle(eval)]
pub(crate) fn eval_values(
    view: &WorldView,
    work: &mut Work,
    depth: u32,
    exprs: &[Expr],
    values: Vec<Value>,
) -> Result<Vec<Value>, Stop>
    requires fit { IsFit work.old }
    requires told { IsTold view.now work.old.store }
    requires values { NamedAll work.old.store values.items }
    ensures gives { Gives (λ v. v.items) result (state_of work.new) (values_with (parts view.now depth) (exprs_view exprs.now) values.items (state_of work.old)) }
    ensures kept { IfOk result (λ v. AreKept work.old work.new v.items) }
{
    let mut all = values;
    for expr in exprs {
        let value = eval_at(view, work, depth, expr)?;
        all.push(value)?;
    }
    Ok(all)
}

/// The pairs of a dictionary, as they are written.
#[cycle(eval)]
fn eval_pairs(
    view: &WorldView,
    work: &mut Work,
    depth: u32,
    pairs: &[(Text, Expr)],
) -> Result<Vec<(Text, Value)>, Stop>
    requires fit { IsFit work.old }
    requires told { IsTold view.now work.old.store }
    ensures gives { Gives (λ v. v.items) result (state_of work.new) (pairs_with (parts view.now depth) (entries_view pairs.now) [] (state_of work.old)) }
    ensures kept { IfOk result (λ v. ArePairsKept work.old work.new v.items) }
{
    let mut all = Vec::new(work.alloc);
    for (key, expr) in pairs {
        let value = eval_at(view, work, depth, expr)?;
        let key = key.clone()?;
        all.push((key, value))?;
    }
    Ok(all)
}

/// What a value has at the key that an expression gives.
#[cycle(eval)]
fn eval_index(
    view: &WorldView,
    work: &mut Work,
    depth: u32,
    place: Place,
    of: &Expr,
    key: &Expr,
) -> Result<Value, Stop>
    requires fit { IsFit work.old }
    requires told { IsTold view.now work.old.store }
    ensures gives { Gives (λ v. v) result (state_of work.new) (index_with (parts view.now depth) place (expr_view of.now) (expr_view key.now) (state_of work.old)) }
    ensures kept { IfOk result (IsKept work.old work.new) }
{
    let value = eval_at(view, work, depth, of)?;
    let key = eval_at(view, work, depth, key)?;
    work.part(place, &value, &key)
}

/// The left operand, and then the rest of the operator.
#[cycle(eval)]
fn eval_binary(
    view: &WorldView,
    work: &mut Work,
    depth: u32,
    place: Place,
    op: BinOp,
    left: &Expr,
    right: &Expr,
) -> Result<Value, Stop>
    requires fit { IsFit work.old }
    requires told { IsTold view.now work.old.store }
    ensures gives { Gives (λ v. v) result (state_of work.new) (binary_with (parts view.now depth) place op (expr_view left.now) (expr_view right.now) (state_of work.old)) }
    ensures kept { IfOk result (IsKept work.old work.new) }
{
    let left = eval_at(view, work, depth, left)?;
    eval_right(view, work, depth, place, op, left, right)
}

/// The rest of an operator whose left operand is evaluated. The right one of `&&` and `||` is evaluated where the left one doesn't
/// decide.
#[cycle(eval)]
fn eval_right(
    view: &WorldView,
    work: &mut Work,
    depth: u32,
    place: Place,
    op: BinOp,
    left: Value,
    right: &Expr,
) -> Result<Value, Stop>
    requires fit { IsFit work.old }
    requires told { IsTold view.now work.old.store }
    requires left { Named work.old.store left }
    ensures gives { Gives (λ v. v) result (state_of work.new) (right_with (parts view.now depth) place op left (expr_view right.now) (state_of work.old)) }
    ensures kept { IfOk result (IsKept work.old work.new) }
{
    match op {
        BinOp::And => {
            if work.holds(&left) {
                eval_at(view, work, depth, right)
            } else {
                Ok(left)
            }
        }
        BinOp::Or => {
            if work.holds(&left) {
                Ok(left)
            } else {
                eval_at(view, work, depth, right)
            }
        }
        _ => {
            let right = eval_at(view, work, depth, right)?;
            work.binary(place, op, &left, &right)
        }
    }
}

/// The value of an expression, if there is one.
#[cycle(eval)]
pub(crate) fn eval_maybe(
    view: &WorldView,
    work: &mut Work,
    depth: u32,
    expr: Option<&Expr>,
) -> Result<Option<Value>, Stop>
    requires fit { IsFit work.old }
    requires told { IsTold view.now work.old.store }
    ensures gives { Gives (λ v. v) result (state_of work.new) (maybe_value (parts view.now depth) (maybe_expr_view (option_copied expr.entry)) (state_of work.old)) }
    ensures kept { IfOk result (IsMaybeKept work.old work.new) }
{
    match expr {
        Some(expr) => {
            let value = eval_at(view, work, depth, expr)?;
            Ok(Some(value))
        }
        None => Ok(None),
    }
}
