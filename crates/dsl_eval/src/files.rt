// Files that are included, and templates that are imported.
ghost use Rattle.std.specs.Prelude.{IfOk};
ghost use Rattle.dsl_syntax.specs.SyntaxView.{expr_view};
ghost use Rattle.eval_meaning.specs.Files.{file_with, include_with};
ghost use Rattle.eval_meaning.specs.Registration.{loading};
ghost use Rattle.eval_meaning.specs.Templates.{import_with};
ghost use Rattle.eval_work.specs.Works.{state_of, view_of, Gives};
ghost use Rattle.eval_work.specs.Kept.{IsFit, IsKept, IsFlowKept, IsTold};
ghost use Rattle.dsl_eval.specs.Nodes.{parts};

use crate::calls::in_frame;
use crate::expressions::eval_at;
use dsl_syntax::Expr;
use dsl_value::Value;
use eval_meaning::Flow;
use eval_steps::statements_of;
use eval_work::{Locals, Stop, Work, WorldView};
use load_work::{at_load, begin_part, end_part, imported_template, in_item, next_in_order};
use site_base::Place;

/// Imports a template into the object whose body is run.
#[cycle(eval)]
pub(crate) fn run_import(
    view: &WorldView,
    work: &mut Work,
    depth: u32,
    place: Place,
    expr: &Expr,
) -> Result<Flow, Stop>
    requires fit { IsFit work.old }
    requires told { IsTold view.now work.old.store }
    ensures gives { Gives (λ f. f) result (state_of work.new) (import_with (view_of view.now) (parts view.now depth) place (expr_view expr.now) (state_of work.old)) }
    ensures kept { IfOk result (IsFlowKept work.old work.new) }
{
    in_item(work, place)?;
    let value = eval_at(view, work, depth, expr)?;
    let template = imported_template(work, view, place, &value)?;
    let this = work.this_value()?;
    in_frame(
        view,
        work,
        depth,
        this,
        template.locals,
        false,
        &template.body.statements,
    )?;
    Ok(Flow::On)
}

/// Runs the files of an inclusion, by the order of the walk.
#[cycle(eval)]
pub(crate) fn run_include(
    view: &WorldView,
    work: &mut Work,
    depth: u32,
    place: Place,
) -> Result<Flow, Stop>
    requires fit { IsFit work.old }
    requires told { IsTold view.now work.old.store }
    ensures gives { Gives (λ f. f) result (state_of work.new) (include_with (view_of view.now) (parts view.now depth) place (state_of work.old)) }
    ensures kept { IfOk result (IsFlowKept work.old work.new) }
{
    at_load(work, place)?;
    let count = next_in_order(work).unwrap_or(0);
    for _ in 0..count {
        run_file(view, work, depth)?;
    }
    Ok(Flow::On)
}

/// Runs the next file of the order. It has a frame of its own, in which `this` is the globals.
#[cycle(eval)]
pub(crate) fn run_file(view: &WorldView, work: &mut Work, depth: u32) -> Result<Value, Stop>
    requires fit { IsFit work.old }
    requires told { IsTold view.now work.old.store }
    ensures gives { Gives (λ v. v) result (state_of work.new) (file_with (view_of view.now) (parts view.now depth) (loading (state_of work.old)).order (state_of work.old)) }
    ensures kept { IfOk result (IsKept work.old work.new) }
{
    let Some((index, around)) = begin_part(work)? else {
        return Ok(Value::Null);
    };
    let locals = Locals::new(work.alloc);
    let statements = statements_of(view, index);
    let value = in_frame(view, work, depth, Value::Ref(0), locals, true, statements)?;
    end_part(work, around);
    Ok(value)
}
