// Calls.
ghost use Rattle.std.specs.Prelude.{IfOk};
ghost use Rattle.dsl_syntax.specs.SyntaxView.{expr_view, exprs_view, stmts_view};
ghost use Rattle.eval_meaning.specs.Evaluation.{expression_with};
ghost use Rattle.eval_meaning.specs.Calls.{callee_with, call_with, called_index_with, value_called, library_with};
ghost use Rattle.eval_meaning.specs.Flow.{block_with};
ghost use Rattle.eval_meaning.specs.Frames.{in_frame as framed};
ghost use Rattle.eval_meaning.specs.Functions.{apply_with};
ghost use Rattle.eval_work.specs.Works.{state_of, view_of, Gives};
ghost use Rattle.eval_work.specs.Kept.{Named, NamedAll, PairsNamed, IsFit, IsKept, IsCalleeKept, IsTold};
ghost use Rattle.dsl_eval.specs.Nodes.{parts};

use crate::expressions::{eval_at, eval_kind, eval_values};
use crate::statements::run_block;
use crate::visits::visit;
use dsl_lib::LibraryCall;
use dsl_syntax::{Expr, ExprKind, Stmt};
use dsl_value::Value;
use eval_meaning::Callee;
use eval_steps::{Called, Method, enter, parted, prepare};
use eval_work::{Locals, Stop, Work, WorldView};
use name_work::{called_member, called_name, called_part, read_host, read_service};
use site_base::Place;

/// The expression that is called, then the arguments, and then the call.
#[cycle(eval)]
pub(crate) fn eval_call(
    view: &WorldView,
    work: &mut Work,
    depth: u32,
    place: Place,
    called: &Expr,
    args: &[Expr],
) -> Result<Value, Stop>
    requires fit { IsFit work.old }
    requires told { IsTold view.now work.old.store }
    ensures gives { Gives (λ v. v) result (state_of work.new) (call_with (view_of view.now) (parts view.now depth) place (expr_view called.now) (exprs_view args.now) (state_of work.old)) }
    ensures kept { IfOk result (IsKept work.old work.new) }
{
    let callee = eval_callee(view, work, depth, called)?;
    let (called, own) = parted(work.alloc, callee)?;
    let args = eval_values(view, work, depth, args, own)?;
    match called {
        Called::Value { value, this } => apply(view, work, depth, place, &value, this, args),
        Called::Library(call) => call_library(view, work, depth, place, call, &args),
    }
}

/// What an expression that is called gives.
#[cycle(eval)]
fn eval_callee(view: &WorldView, work: &mut Work, depth: u32, expr: &Expr) -> Result<Callee, Stop>
    requires fit { IsFit work.old }
    requires told { IsTold view.now work.old.store }
    ensures gives { Gives (λ c. c) result (state_of work.new) ((parts view.now depth).callee (expr_view expr.now) (state_of work.old)) }
    ensures kept { IfOk result (IsCalleeKept work.old work.new) }
{
    let below = enter(work, depth, expr.place)?;
    eval_callee_kind(view, work, below, expr)
}

/// What an expression that is called gives, once its step is counted.
#[cycle(eval)]
fn eval_callee_kind(
    view: &WorldView,
    work: &mut Work,
    depth: u32,
    expr: &Expr,
) -> Result<Callee, Stop>
    requires fit { IsFit work.old }
    requires told { IsTold view.now work.old.store }
    ensures gives { Gives (λ c. c) result (state_of work.new) (callee_with (parts view.now depth) (expression_with (view_of view.now) (parts view.now depth)) (expr_view expr.now) (state_of work.old)) }
    ensures kept { IfOk result (IsCalleeKept work.old work.new) }
{
    let place = expr.place;
    match &expr.kind {
        ExprKind::Name(name) => called_name(work, place, name),
        ExprKind::Member(of, name) => {
            let value = eval_at(view, work, depth, of)?;
            called_member(work, place, value, name)
        }
        ExprKind::Index(of, key) => eval_called_index(view, work, depth, place, of, key),
        ExprKind::Null
        | ExprKind::Bool(_)
        | ExprKind::Number(_)
        | ExprKind::Str(_)
        | ExprKind::Array(_)
        | ExprKind::Dict(_)
        | ExprKind::This
        | ExprKind::Globals
        | ExprKind::Call(_, _)
        | ExprKind::Unary(_, _)
        | ExprKind::Binary(_, _, _)
        | ExprKind::Function(_) => eval_called_value(view, work, depth, expr),
    }
}

/// What is called at an index.
#[cycle(eval)]
fn eval_called_index(
    view: &WorldView,
    work: &mut Work,
    depth: u32,
    place: Place,
    of: &Expr,
    key: &Expr,
) -> Result<Callee, Stop>
    requires fit { IsFit work.old }
    requires told { IsTold view.now work.old.store }
    ensures gives { Gives (λ c. c) result (state_of work.new) (called_index_with (parts view.now depth) place (expr_view of.now) (expr_view key.now) (state_of work.old)) }
    ensures kept { IfOk result (IsCalleeKept work.old work.new) }
{
    let value = eval_at(view, work, depth, of)?;
    let key = eval_at(view, work, depth, key)?;
    called_part(work, place, value, &key)
}

/// What another expression gives is called with the `this` of the frame.
#[cycle(eval)]
fn eval_called_value(
    view: &WorldView,
    work: &mut Work,
    depth: u32,
    expr: &Expr,
) -> Result<Callee, Stop>
    requires fit { IsFit work.old }
    requires told { IsTold view.now work.old.store }
    ensures gives { Gives (λ c. c) result (state_of work.new) (value_called (expression_with (view_of view.now) (parts view.now depth) (expr_view expr.now) (state_of work.old))) }
    ensures kept { IfOk result (IsCalleeKept work.old work.new) }
{
    let value = eval_kind(view, work, depth, expr)?;
    let this = work.this_value()?;
    Ok(Callee::Value { value, this })
}

/// Calls a value.
#[cycle(eval)]
pub(crate) fn apply(
    view: &WorldView,
    work: &mut Work,
    depth: u32,
    place: Place,
    value: &Value,
    this: Value,
    args: Vec<Value>,
) -> Result<Value, Stop>
    requires fit { IsFit work.old }
    requires told { IsTold view.now work.old.store }
    requires value { Named work.old.store value.now }
    requires this { Named work.old.store this }
    requires args { NamedAll work.old.store args.items }
    ensures gives { Gives (λ v. v) result (state_of work.new) (apply_with (parts view.now depth) place value.now this args.items (state_of work.old)) }
    ensures kept { IfOk result (IsKept work.old work.new) }
{
    let call = prepare(work, place, value, args)?;
    in_frame(
        view,
        work,
        depth,
        this,
        call.locals,
        false,
        &call.func.block,
    )
}

/// Runs statements in a frame of their own.
#[cycle(eval)]
pub(crate) fn in_frame(
    view: &WorldView,
    work: &mut Work,
    depth: u32,
    this: Value,
    locals: Locals,
    in_file: bool,
    statements: &[Stmt],
) -> Result<Value, Stop>
    requires fit { IsFit work.old }
    requires told { IsTold view.now work.old.store }
    requires this { Named work.old.store this }
    requires locals { PairsNamed work.old.store locals }
    ensures gives { Gives (λ v. v) result (state_of work.new) (framed this locals in_file (block_with (parts view.now depth) (stmts_view statements.now)) (state_of work.old)) }
    ensures kept { IfOk result (IsKept work.old work.new) }
{
    let before = work.enter(this, locals, in_file);
    let flow = run_block(view, work, depth, statements)?;
    let value = work.ended(flow)?;
    work.leave(before);
    Ok(value)
}

/// Calls the library.
#[cycle(eval)]
fn call_library(
    view: &WorldView,
    work: &mut Work,
    depth: u32,
    place: Place,
    call: LibraryCall,
    args: &[Value],
) -> Result<Value, Stop>
    requires fit { IsFit work.old }
    requires told { IsTold view.now work.old.store }
    requires args { NamedAll work.old.store args.now }
    ensures gives { Gives (λ v. v) result (state_of work.new) (library_with (view_of view.now) (parts view.now depth) place call args.now (state_of work.old)) }
    ensures kept { IfOk result (IsKept work.old work.new) }
{
    match call {
        LibraryCall::Plain(call) => work.call_plain(place, call, args),
        LibraryCall::GetHost => read_host(work, view, place, args),
        LibraryCall::GetService => read_service(work, view, place, args),
        LibraryCall::Map => visit(view, work, depth, place, Method::Map, args),
        LibraryCall::Filter => visit(view, work, depth, place, Method::Filter, args),
        LibraryCall::Any => visit(view, work, depth, place, Method::Any, args),
        LibraryCall::All => visit(view, work, depth, place, Method::All, args),
    }
}
