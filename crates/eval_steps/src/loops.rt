// Turns of loops.
ghost use Rattle.std.specs.Prelude.{◌≡◌, IfOk, IfErr, map};
ghost use Rattle.dsl_value.specs.Contents.{Contents};
ghost use Rattle.eval_meaning.specs.Flow.{loop_end as end_of_loop};
ghost use Rattle.eval_meaning.specs.States.{done};
ghost use Rattle.eval_work.specs.Works.{state_of, Gives};
ghost use Rattle.eval_work.specs.Kept.{Named, IsFit, IsStill, FlowNamed, TurnNamed};
ghost use Rattle.eval_steps.specs.Loops.{turns_of as turns_over, turn_set as set_turn, element_turn, pair_turn};
ghost use Rattle.eval_steps.specs.Named.{IsTurnNamed, TurnsNamed};

use dsl_value::{Cell, SortedPairs, Value};
use eval_meaning::Flow;
use eval_work::{Stop, Work, fault};
use site_base::{DiagKind, Place, Text};
use std::alloc::Global;

/// What a turn of a `for` gives its names: an element, or a key and its value.
#[derive(Drop)]
pub struct Turn {
    pub first: Value,
    pub second: Option<Value>,
}

/// How a loop ends after its block, if it does.
pub fn loop_end(flow: Flow) -> Option<Flow>
    ensures value { result ≡ end_of_loop flow }
    ensures named { (c : Contents) → FlowNamed c flow → TurnNamed c result }
{
    match flow {
        Flow::On => None,
        Flow::Continued(_) => None,
        Flow::Broken(_) => Some(Flow::On),
        Flow::Returned(value) => Some(Flow::Returned(value)),
    }
}

/// What a loop goes over: an array with one name, and a dictionary with two. Anything else is a fault.
pub fn turns_of(
    work: &Work,
    place: Place,
    second: &Option<Text>,
    value: &Value,
) -> Result<Vec<Turn>, Stop>
    requires fit { IsFit work.now }
    requires value { Named work.now.store value.now }
    ensures gives { Gives (λ v. v.items) result (state_of work.now) (turns_over place second.now value.now (state_of work.now)) }
    ensures named { IfOk result (λ v. TurnsNamed work.now.store v.items) }
{
    match value {
        Value::Ref(cell) => match (second, work.store.cell(*cell)) {
            (None, Cell::Array(items)) => element_turns(work.alloc, items),
            (Some(_), Cell::Dict(pairs)) => pair_turns(work.alloc, pairs),
            _ => Err(fault(work.alloc, place, DiagKind::WrongType)),
        },
        _ => Err(fault(work.alloc, place, DiagKind::WrongType)),
    }
}

/// A turn for each element of an array.
#[tactic(auto, using(std::proofs::Common::append_assoc))]
fn element_turns(alloc: Global, items: &[Value]) -> Result<Vec<Turn>, Stop>
    ensures turns { IfOk result (λ v. v.items ≡ map element_turn items.now) }
    ensures memory { IfErr result (λ e. e ≡ Stop.Memory) }
{
    let mut turns = Vec::with_capacity(alloc, items.len())?;
    for item in items {
        turns.push(Turn {
            first: item.clone()?,
            second: None,
        })?;
    }
    Ok(turns)
}

/// A turn for each pair of a dictionary, by its order.
#[tactic(auto, using(std::proofs::Common::append_assoc))]
fn pair_turns(alloc: Global, pairs: &SortedPairs) -> Result<Vec<Turn>, Stop>
    ensures turns { IfOk result (λ v. v.items ≡ map pair_turn pairs.now) }
    ensures memory { IfErr result (λ e. e ≡ Stop.Memory) }
{
    let mut turns = Vec::with_capacity(alloc, pairs.len())?;
    let mut left = pairs.left();
    while let Some(((key, value), behind)) = left.split_first() {
        turns.push(Turn {
            first: Value::Str(key.clone()?),
            second: Some(value.clone()?),
        })?;
        left = behind;
    }
    Ok(turns)
}

/// Gives the names of a loop what a turn has for them. Only want of memory ends it early.
pub fn begin_turn(work: &mut Work, key: &Text, value: &Option<Text>, turn: Turn) -> Result<(), Stop>
    requires fit { IsFit work.old }
    requires turn { IsTurnNamed work.old.store turn }
    ensures gives { Gives (λ _. tt) result (state_of work.new) (done (set_turn key.now value.now turn (state_of work.old))) }
    ensures kept { IfOk result (λ _. IsStill work.old work.new) }
    ensures store { work.new.store ≡ work.old.store }
{
    work.set_local(key, turn.first)?;
    match (value, turn.second) {
        (Some(name), Some(value)) => work.set_local(name, value),
        _ => Ok(()),
    }
}
