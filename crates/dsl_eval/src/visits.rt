// The methods of arrays that call a function for each element.
ghost use Rattle.std.specs.Prelude.{IfOk, []};
ghost use Rattle.eval_meaning.specs.Visits.{mapped, filtered, found, visits_by};
ghost use Rattle.eval_work.specs.Works.{state_of, Gives};
ghost use Rattle.eval_work.specs.Kept.{Named, NamedAll, IsFit, IsKept, AreKept, IsStill, IsTold};
ghost use Rattle.dsl_eval.specs.Nodes.{parts};
ghost use Rattle.eval_steps.specs.Visiting.{visit_with};

use crate::calls::apply;
use dsl_value::Value;
use eval_steps::{Method, Visited, for_item, push_if, visit_of};
use eval_work::{Stop, Work, WorldView};
use site_base::Place;

/// Calls a method. What stands in the array once the argument was evaluated is gone over.
#[cycle(eval)]
pub(crate) fn visit(
    view: &WorldView,
    work: &mut Work,
    depth: u32,
    place: Place,
    kind: Method,
    args: &[Value],
) -> Result<Value, Stop>
    requires fit { IsFit work.old }
    requires told { IsTold view.now work.old.store }
    requires args { NamedAll work.old.store args.now }
    ensures gives { Gives (λ v. v) result (state_of work.new) (visits_by (visit_with (parts view.now depth) place kind) place args.now (state_of work.old)) }
    ensures kept { IfOk result (IsKept work.old work.new) }
{
    let Visited { func, items } = visit_of(work, place, args)?;
    match kind {
        Method::Map => {
            let all = map_values(view, work, depth, place, &func, &items)?;
            work.make_array(place, all)
        }
        Method::Filter => {
            let all = filter_values(view, work, depth, place, &func, &items)?;
            work.make_array(place, all)
        }
        Method::Any => {
            let any = find_value(view, work, depth, place, true, &func, &items)?;
            Ok(Value::Bool(any))
        }
        Method::All => {
            let other = find_value(view, work, depth, place, false, &func, &items)?;
            Ok(Value::Bool(!other))
        }
    }
}

/// What the function gives of each element.
#[cycle(eval)]
fn map_values(
    view: &WorldView,
    work: &mut Work,
    depth: u32,
    place: Place,
    func: &Value,
    items: &[Value],
) -> Result<Vec<Value>, Stop>
    requires fit { IsFit work.old }
    requires told { IsTold view.now work.old.store }
    requires func { Named work.old.store func.now }
    requires items { NamedAll work.old.store items.now }
    ensures gives { Gives (λ v. v.items) result (state_of work.new) (mapped (parts view.now depth) place func.now items.now [] (state_of work.old)) }
    ensures kept { IfOk result (λ v. AreKept work.old work.new v.items) }
{
    let mut all = Vec::new(work.alloc);
    for item in items {
        let (this, args) = for_item(work, item)?;
        let value = apply(view, work, depth, place, func, this, args)?;
        all.push(value)?;
    }
    Ok(all)
}

/// The elements of which the function gives something true.
#[cycle(eval)]
fn filter_values(
    view: &WorldView,
    work: &mut Work,
    depth: u32,
    place: Place,
    func: &Value,
    items: &[Value],
) -> Result<Vec<Value>, Stop>
    requires fit { IsFit work.old }
    requires told { IsTold view.now work.old.store }
    requires func { Named work.old.store func.now }
    requires items { NamedAll work.old.store items.now }
    ensures gives { Gives (λ v. v.items) result (state_of work.new) (filtered (parts view.now depth) place func.now items.now [] (state_of work.old)) }
    ensures kept { IfOk result (λ v. AreKept work.old work.new v.items) }
{
    let mut all = Vec::new(work.alloc);
    for item in items {
        let (this, args) = for_item(work, item)?;
        let value = apply(view, work, depth, place, func, this, args)?;
        push_if(&mut all, work.holds(&value), item)?;
    }
    Ok(all)
}

/// Whether the function gives of some element what has this truth.
#[cycle(eval)]
fn find_value(
    view: &WorldView,
    work: &mut Work,
    depth: u32,
    place: Place,
    wanted: bool,
    func: &Value,
    items: &[Value],
) -> Result<bool, Stop>
    requires fit { IsFit work.old }
    requires told { IsTold view.now work.old.store }
    requires func { Named work.old.store func.now }
    requires items { NamedAll work.old.store items.now }
    ensures gives { Gives (λ b. b) result (state_of work.new) (found (parts view.now depth) place wanted func.now items.now (state_of work.old)) }
    ensures kept { IfOk result (λ _. IsStill work.old work.new) }
{
    for item in items {
        let (this, args) = for_item(work, item)?;
        let value = apply(view, work, depth, place, func, this, args)?;
        if work.holds(&value) == wanted {
            return Ok(true);
        }
    }
    Ok(false)
}
