// The keys of expressions.
ghost use Rattle.std.specs.Prelude.{◌≡◌, ◌++◌, ◌∷◌, [], OnOk};
ghost use Rattle.dsl_syntax.specs.SyntaxView.{entries_view, expr_view, exprs_view, func_view, maybe_expr_view, uses_view};
ghost use Rattle.task_keys.specs.Keys.{boolean_key, text_key, whole_key};
ghost use Rattle.task_keys.specs.Operators.{binary_number as number_of_binary, unary_number as number_of_unary};
ghost use Rattle.task_keys.specs.SyntaxKeys.{entries_key, expression_key, expressions_key, function_key, maybe_key, uses_key};

use crate::Key;
use crate::operators::{binary_number, unary_number};
use crate::stmts::push_statements;
use dsl_syntax::{BinOp, Expr, ExprKind, Func, UnOp, Use};
use site_base::{Num, OutOfMemory, Text};

#[cycle(write)]
#[tactic(auto, using(dsl_syntax::proofs::SyntaxKinds::kind_array, dsl_syntax::proofs::SyntaxKinds::kind_dict, dsl_syntax::proofs::SyntaxKinds::kind_call))]
pub(crate) fn push_expr(out: &mut Key, expr: &Expr) -> Result<(), OutOfMemory>
    ensures { OnOk result (out.new ≡ out.old ++ expression_key (expr_view expr.now)) }
{
    match &expr.kind {
        ExprKind::Null => out.push(0),
        ExprKind::This => out.push(1),
        ExprKind::Globals => out.push(2),
        ExprKind::Bool(value) => push_bool(out, *value),
        ExprKind::Number(number) => push_num(out, *number),
        ExprKind::Str(text) => push_named(out, 5, text),
        ExprKind::Name(name) => push_named(out, 6, name),
        ExprKind::Array(items) => push_array(out, items),
        ExprKind::Dict(pairs) => push_dict(out, pairs),
        ExprKind::Member(base, name) => {
            push_after(out, 9, base)?;
            out.push_text(name)
        }
        ExprKind::Index(base, at) => {
            push_after(out, 10, base)?;
            push_expr(out, at)
        }
        ExprKind::Call(called, arguments) => {
            push_after(out, 11, called)?;
            push_exprs(out, arguments)
        }
        ExprKind::Unary(op, operand) => push_unary(out, *op, operand),
        ExprKind::Binary(op, left, right) => {
            push_operator(out, *op)?;
            push_expr(out, left)?;
            push_expr(out, right)
        }
        ExprKind::Function(func) => {
            out.push(14)?;
            push_func(out, func)
        }
    }
}

fn push_bool(out: &mut Key, value: bool) -> Result<(), OutOfMemory>
    ensures { OnOk result (out.new ≡ out.old ++ 3 ∷ boolean_key value) }
{
    out.push(3)?;
    out.push_boolean(value)
}

fn push_num(out: &mut Key, number: Num) -> Result<(), OutOfMemory>
    ensures { OnOk result (out.new ≡ out.old ++ 4 ∷ whole_key number) }
{
    out.push(4)?;
    out.push_whole(number)
}

/// A text with the number of what it is before it.
pub(crate) fn push_named(out: &mut Key, kind: u8, text: &Text) -> Result<(), OutOfMemory>
    ensures { OnOk result (out.new ≡ out.old ++ kind ∷ text_key text.now) }
{
    out.push(kind)?;
    out.push_text(text)
}

/// An expression with the number of what it is part of before it.
#[cycle(write)]
pub(crate) fn push_after(out: &mut Key, kind: u8, expr: &Expr) -> Result<(), OutOfMemory>
    ensures { OnOk result (out.new ≡ out.old ++ kind ∷ expression_key (expr_view expr.now)) }
{
    out.push(kind)?;
    push_expr(out, expr)
}

#[cycle(write)]
fn push_unary(out: &mut Key, op: UnOp, operand: &Expr) -> Result<(), OutOfMemory>
    ensures { OnOk result (out.new ≡ out.old ++ 12 ∷ number_of_unary op ∷ expression_key (expr_view operand.now)) }
{
    out.push(12)?;
    push_after(out, unary_number(op), operand)
}

/// The number of a binary operator, with that of binary expressions before it.
fn push_operator(out: &mut Key, op: BinOp) -> Result<(), OutOfMemory>
    ensures { OnOk result (out.new ≡ out.old ++ 13 ∷ number_of_binary op ∷ []) }
{
    out.push(13)?;
    out.push(binary_number(op))
}

#[cycle(write)]
fn push_array(out: &mut Key, items: &[Expr]) -> Result<(), OutOfMemory>
    ensures { OnOk result (out.new ≡ out.old ++ 7 ∷ expressions_key (exprs_view items.now)) }
{
    out.push(7)?;
    push_exprs(out, items)
}

#[cycle(write)]
fn push_exprs(out: &mut Key, items: &[Expr]) -> Result<(), OutOfMemory>
    ensures { OnOk result (out.new ≡ out.old ++ expressions_key (exprs_view items.now)) }
{
    for item in items {
        push_after(out, 1, item)?;
    }
    out.push(0)
}

#[cycle(write)]
fn push_dict(out: &mut Key, pairs: &[(Text, Expr)]) -> Result<(), OutOfMemory>
    ensures { OnOk result (out.new ≡ out.old ++ 8 ∷ entries_key (entries_view pairs.now)) }
{
    out.push(8)?;
    for (key, value) in pairs {
        push_named(out, 1, key)?;
        push_expr(out, value)?;
    }
    out.push(0)
}

/// A function by its parameters, the names that it captures, and its body.
#[cycle(write)]
#[tactic(auto, using(dsl_syntax::proofs::SyntaxRows::func_fields))]
pub fn push_func(out: &mut Key, func: &Func) -> Result<(), OutOfMemory>
    ensures { OnOk result (out.new ≡ out.old ++ function_key (func_view func.now)) }
{
    out.push_texts(func.params.as_slice())?;
    push_uses(out, &func.uses)?;
    push_statements(out, &func.block)
}

/// The names of a `use` list.
#[cycle(write)]
#[tactic(auto, using(dsl_syntax::proofs::SyntaxRows::use_fields))]
pub(crate) fn push_uses(out: &mut Key, uses: &[Use]) -> Result<(), OutOfMemory>
    ensures { OnOk result (out.new ≡ out.old ++ uses_key (uses_view uses.now)) }
{
    for used in uses {
        push_named(out, 1, &used.name)?;
        push_maybe(out, &used.expr)?;
    }
    out.push(0)
}

/// An expression that may be absent.
#[cycle(write)]
pub(crate) fn push_maybe(out: &mut Key, expr: &Option<Expr>) -> Result<(), OutOfMemory>
    ensures { OnOk result (out.new ≡ out.old ++ maybe_key (maybe_expr_view expr.now)) }
{
    match expr {
        None => out.push(0),
        Some(expr) => push_after(out, 1, expr),
    }
}
