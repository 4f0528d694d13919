// Which statements have a place in which task.
ghost use Rattle.std.specs.Prelude.{◌≡◌, IfOk};
ghost use Rattle.eval_meaning.specs.Registration.{at_load as load_at};
ghost use Rattle.eval_meaning.specs.Templates.{in_item as item_in};
ghost use Rattle.eval_meaning.specs.Functions.{defined};
ghost use Rattle.eval_meaning.specs.declared.flow.Flow.TheVariants.{On};
ghost use Rattle.eval_meaning.specs.Views.{template_in};
ghost use Rattle.eval_work.specs.Works.{state_of, view_of, plain_task, Gives};
ghost use Rattle.eval_work.specs.Kept.{Named, PairsNamed, IsFit, IsStill, IsTold};
ghost use Rattle.load_work.specs.Imports.{plain_imported, found_template, found_by};

use dsl_syntax::Block;
use dsl_value::Value;
use eval_work::{Locals, Stop, Task, Work, WorldView, fault, first_locals};
use name_work::{named_fault, put_in};
use site_base::{DiagKind, Place, Text};
use std::sync::Arc;

/// A template that is imported: its body, and the locals that its frame begins with.
#[derive(Drop)]
pub struct Imported {
    pub body: Arc<Block>,
    pub locals: Locals,
}

/// Statements that register have a place only at a load.
pub fn at_load(work: &Work, place: Place) -> Result<(), Stop>
    ensures { Gives (λ _. tt) result (state_of work.now) (load_at place (state_of work.now)) }
{
    match &work.task {
        Task::Load(_) => Ok(()),
        _ => Err(fault(work.alloc, place, DiagKind::NotHere)),
    }
}

/// Imports have a place only in the body of an object.
pub fn in_item(work: &Work, place: Place) -> Result<(), Stop>
    ensures { Gives (λ _. tt) result (state_of work.now) (item_in place (state_of work.now)) }
{
    match &work.task {
        Task::Item { .. } => Ok(()),
        _ => Err(fault(work.alloc, place, DiagKind::NotHere)),
    }
}

/// The template that is imported under a name, and the locals that its frame begins with.
pub fn imported_template(
    work: &Work,
    view: &WorldView,
    place: Place,
    value: &Value,
) -> Result<Imported, Stop>
    requires fit { IsFit work.now }
    requires told { IsTold view.now work.now.store }
    ensures gives { Gives plain_imported result (state_of work.now) (found_by (view_of view.now) place value.now (plain_task work.now.task) (state_of work.now)) }
    ensures named { IfOk result (λ i. PairsNamed work.now.store i.locals) }
{
    match value {
        Value::Str(name) => match &work.task {
            Task::Item { kind, bound } => { template_frame(work, view, place, kind, bound, name) }
            _ => Err(fault(work.alloc, place, DiagKind::NotHere)),
        },
        _ => Err(fault(work.alloc, place, DiagKind::NoTemplate)),
    }
}

fn template_frame(
    work: &Work,
    view: &WorldView,
    place: Place,
    kind: &Text,
    bound: &Locals,
    name: &Text,
) -> Result<Imported, Stop>
    requires told { IsTold view.now work.now.store }
    requires bound { PairsNamed work.now.store bound.now }
    ensures gives { Gives plain_imported result (state_of work.now) (found_template place name.now bound.now (template_in kind.now name.now (view_of view.now).templates) (state_of work.now)) }
    ensures named { IfOk result (λ i. PairsNamed work.now.store i.locals) }
{
    match view.templates.find(kind.as_str(), name.as_str()) {
        Some(template) => {
            let empty = Locals::new(work.alloc);
            let locals = first_locals(&template.captured, &bound.left(), empty)?;
            Ok(Imported {
                body: template.body.clone()?,
                locals,
            })
        }
        None => Err(named_fault(work.alloc, place, DiagKind::NoTemplate, name)),
    }
}

/// Gives a function its name: a global where the frame is a file's, and else a local.
pub fn define(work: &mut Work, place: Place, name: &Text, value: Value) -> Result<(), Stop>
    requires fit { IsFit work.old }
    requires value { Named work.old.store value }
    ensures gives { Gives (λ _. On) result (state_of work.new) (defined place name.now value (state_of work.old)) }
    ensures kept { IfOk result (λ _. IsStill work.old work.new) }
{
    if work.in_file {
        let key = Value::Str(name.clone()?);
        put_in(work, place, &Value::Ref(0), &key, value)
    } else {
        work.set_local(name, value)
    }
}
