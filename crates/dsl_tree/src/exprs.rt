// The print of expressions.
ghost use Rattle.std.specs.Prelude.{◌≡◌, ◌++◌, ◌∷◌, [], false, codes, OnOk};
ghost use Rattle.dsl_syntax.specs.SyntaxView.{expr_view, func_view, exprs_view, entries_view, uses_view, each_view, maybe_expr_view};
ghost use Rattle.dsl_tree.specs.Operators.{binary_text};
ghost use Rattle.dsl_tree.specs.Spelling.{expr_text, operand_text, exprs_text, entries_text, function_text, uses_text, captures_text, given_text, loop_text, params_text, in_parentheses};

use crate::operators::{binary_sign, unary_sign};
use crate::shapes::is_compound;
use crate::stmts::push_block;
use dsl_syntax::{BinOp, Each, Expr, ExprKind, Func, Use};
use site_base::{OutOfMemory, Text, push_quoted};

#[cycle(print)]
#[tactic(auto, using(dsl_syntax::proofs::SyntaxKinds::kind_array, dsl_syntax::proofs::SyntaxKinds::kind_dict, dsl_syntax::proofs::SyntaxKinds::kind_call))]
pub(crate) fn push_expr(out: &mut Text, expr: &Expr) -> Result<(), OutOfMemory>
    ensures { OnOk result (out.new ≡ out.old ++ expr_text (expr_view expr.now)) }
{
    match &expr.kind {
        ExprKind::Null => out.push_str("null"),
        ExprKind::Bool(true) => out.push_str("true"),
        ExprKind::Bool(false) => out.push_str("false"),
        ExprKind::Number(number) => number.push_to(out),
        ExprKind::Str(text) => push_quoted(out, text.as_str()),
        ExprKind::Array(items) => push_array(out, items),
        ExprKind::Dict(pairs) => push_dict(out, pairs),
        ExprKind::Name(name) => out.push_str(name.as_str()),
        ExprKind::This => out.push_str("this"),
        ExprKind::Globals => out.push_str("globals"),
        ExprKind::Member(base, name) => {
            push_operand(out, base)?;
            out.push('.')?;
            out.push_str(name.as_str())
        }
        ExprKind::Index(base, at) => {
            push_operand(out, base)?;
            push_behind(out, "[", at)?;
            out.push(']')
        }
        ExprKind::Call(called, arguments) => {
            push_operand(out, called)?;
            push_arguments(out, arguments)
        }
        ExprKind::Unary(op, operand) => {
            out.push_str(unary_sign(*op))?;
            push_operand(out, operand)
        }
        ExprKind::Binary(op, left, right) => {
            push_operand(out, left)?;
            push_operator(out, *op)?;
            push_operand(out, right)
        }
        ExprKind::Function(func) => {
            out.push_str("function ")?;
            push_func(out, func)
        }
    }
}

/// An operand, in parentheses unless it is a primary.
#[cycle(print)]
fn push_operand(out: &mut Text, expr: &Expr) -> Result<(), OutOfMemory>
    ensures { OnOk result (out.new ≡ out.old ++ operand_text (expr_view expr.now)) }
{
    if !is_compound(expr) {
        return push_expr(out, expr);
    }
    out.push('(')?;
    push_expr(out, expr)?;
    out.push(')')
}

/// A binary operator, between blanks.
fn push_operator(out: &mut Text, op: BinOp) -> Result<(), OutOfMemory>
    ensures { OnOk result (out.new ≡ out.old ++ 32 ∷ (binary_text op ++ 32 ∷ [])) }
{
    out.push(' ')?;
    out.push_str(binary_sign(op))?;
    out.push(' ')
}

/// Arguments in parentheses.
#[cycle(print)]
fn push_arguments(out: &mut Text, arguments: &[Expr]) -> Result<(), OutOfMemory>
    ensures { OnOk result (out.new ≡ out.old ++ 40 ∷ (exprs_text false (exprs_view arguments.now) ++ 41 ∷ [])) }
{
    out.push('(')?;
    push_exprs(out, arguments)?;
    out.push(')')
}

#[cycle(print)]
fn push_array(out: &mut Text, items: &[Expr]) -> Result<(), OutOfMemory>
    ensures { OnOk result (out.new ≡ out.old ++ 91 ∷ (exprs_text false (exprs_view items.now) ++ 93 ∷ [])) }
{
    out.push('[')?;
    push_exprs(out, items)?;
    out.push(']')
}

/// Expressions, each but the first behind a comma.
#[cycle(print)]
fn push_exprs(out: &mut Text, items: &[Expr]) -> Result<(), OutOfMemory>
    ensures { OnOk result (out.new ≡ out.old ++ exprs_text false (exprs_view items.now)) }
{
    for (i, item) in items.iter().enumerate() {
        if i > 0 {
            out.push_str(", ")?;
        }
        push_expr(out, item)?;
    }
    Ok(())
}

#[cycle(print)]
fn push_dict(out: &mut Text, pairs: &[(Text, Expr)]) -> Result<(), OutOfMemory>
    ensures { OnOk result (out.new ≡ out.old ++ 123 ∷ 32 ∷ entries_text false (entries_view pairs.now)) }
{
    out.push_str("{ ")?;
    for (i, (key, value)) in pairs.iter().enumerate() {
        if i > 0 {
            out.push_str(", ")?;
        }
        push_quoted(out, key.as_str())?;
        out.push_str(" = ")?;
        push_expr(out, value)?;
    }
    out.push_str(if pairs.is_empty() { "}" } else { " }" })
}

/// A function's parameters, captured names and block.
#[cycle(print)]
#[tactic(auto, using(dsl_syntax::proofs::SyntaxRows::func_fields))]
pub(crate) fn push_func(out: &mut Text, func: &Func) -> Result<(), OutOfMemory>
    ensures { OnOk result (out.new ≡ out.old ++ function_text (func_view func.now)) }
{
    push_params(out, func.params.as_slice())?;
    push_uses(out, &func.uses)?;
    push_block(out, " ", &func.block)
}

fn push_params(out: &mut Text, params: &[Text]) -> Result<(), OutOfMemory>
    ensures { OnOk result (out.new ≡ out.old ++ params_text params.now) }
{
    out.push('(')?;
    for (i, param) in params.iter().enumerate() {
        if i > 0 {
            out.push_str(", ")?;
        }
        out.push_str(param.as_str())?;
    }
    out.push(')')
}

/// A `use` list, if there is one.
#[cycle(print)]
#[tactic(auto, using(crate::proofs::Lists::uses_are))]
pub(crate) fn push_uses(out: &mut Text, uses: &[Use]) -> Result<(), OutOfMemory>
    ensures { OnOk result (out.new ≡ out.old ++ uses_text (uses_view uses.now)) }
{
    if uses.is_empty() {
        return Ok(());
    }
    out.push_str(" use (")?;
    push_captures(out, uses)
}

/// The names of a `use` list and the closing parenthesis.
#[cycle(print)]
#[tactic(auto, using(dsl_syntax::proofs::SyntaxRows::use_fields))]
fn push_captures(out: &mut Text, uses: &[Use]) -> Result<(), OutOfMemory>
    ensures { OnOk result (out.new ≡ out.old ++ captures_text false (uses_view uses.now)) }
{
    for (i, used) in uses.iter().enumerate() {
        if i > 0 {
            out.push_str(", ")?;
        }
        out.push_str(used.name.as_str())?;
        push_given(out, &used.expr)?;
    }
    out.push(')')
}

/// What a name is given, if it is given something.
#[cycle(print)]
pub(crate) fn push_given(out: &mut Text, given: &Option<Expr>) -> Result<(), OutOfMemory>
    ensures { OnOk result (out.new ≡ out.old ++ given_text (maybe_expr_view given.now)) }
{
    match given {
        None => Ok(()),
        Some(expr) => {
            out.push_str(" = ")?;
            push_expr(out, expr)
        }
    }
}

/// The head of a loop in parentheses, behind the words before it.
#[cycle(print)]
pub(crate) fn push_loop(out: &mut Text, words: &str, each: &Each) -> Result<(), OutOfMemory>
    ensures { OnOk result (out.new ≡ out.old ++ (words.now ++ loop_text (each_view each.now))) }
{
    out.push_str(words)?;
    out.push('(')?;
    out.push_str(each.key.as_str())?;
    if let Some(value) = &each.value {
        out.push_str(" => ")?;
        out.push_str(value.as_str())?;
    }
    out.push_str(" in ")?;
    push_expr(out, &each.expr)?;
    out.push(')')
}

/// An expression behind the words that begin its statement.
#[cycle(print)]
pub(crate) fn push_behind(out: &mut Text, words: &str, expr: &Expr) -> Result<(), OutOfMemory>
    ensures { OnOk result (out.new ≡ out.old ++ (words.now ++ expr_text (expr_view expr.now))) }
{
    out.push_str(words)?;
    push_expr(out, expr)
}
