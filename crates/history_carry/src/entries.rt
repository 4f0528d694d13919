// Entries of one site as another one has them.
ghost use Rattle.std.specs.Prelude.{◌≡◌, ◌++◌, IfOk, OnOk, map};
ghost use Rattle.std.specs.Option.{option_to_list};
ghost use Rattle.history_carry.specs.Ascending.{ascending};
ghost use Rattle.history_carry.specs.Entries.{carried_decision as decision_of, carried_decisions as decisions_of, carried_entry, carried_history, carried_outcome as outcome_of, carried_sight as sight_of, carried_sights as sights_of, carried_users as users_of};

use crate::moves::{Moves, moved};
use site_base::{OutOfMemory, Row};
use site_model::{Decision, Entry, Outcome, Sight};
use std::alloc::Global;

/// The entries of each checkable, of which no text is copied.
pub(crate) fn carried_histories(
    alloc: Global,
    moves: &Moves,
    histories: Vec<Row<Entry>>,
) -> Result<Vec<Row<Entry>>, OutOfMemory>
    ensures { IfOk result (λ v. v.items ≡ map (carried_history moves.now) histories.items) }
{
    let mut carried = Vec::with_capacity(alloc, histories.len())?;
    for history in histories {
        carried.push(carried_entries(alloc, moves, history)?)?;
    }
    Ok(carried)
}

fn carried_entries(
    alloc: Global,
    moves: &Moves,
    entries: Row<Entry>,
) -> Result<Row<Entry>, OutOfMemory>
    ensures { IfOk result (λ r. r ≡ carried_history moves.now entries) }
{
    let mut carried = Vec::with_capacity(alloc, entries.len())?;
    for entry in entries.into_vec() {
        carried.push(carry_entry(alloc, moves, entry)?)?;
    }
    Ok(Row::from(carried))
}

fn carry_entry(alloc: Global, moves: &Moves, entry: Entry) -> Result<Entry, OutOfMemory>
    ensures { IfOk result (λ e. e ≡ carried_entry moves.now entry) }
{
    let mut carried = entry;
    carried.sights = carried_sights(alloc, moves, carried.sights.as_slice())?;
    carried.decisions = carried_decisions(alloc, moves, carried.decisions.as_slice())?;
    Ok(carried)
}

fn carried_sights(alloc: Global, moves: &Moves, sights: &[Sight]) -> Result<Row<Sight>, OutOfMemory>
    ensures { IfOk result (λ r. r ≡ sights_of moves.now sights.now) }
{
    let mut carried = Vec::new(alloc);
    for sight in sights {
        push_some(&mut carried, carried_sight(moves, sight))?;
    }
    sights_in_order(carried)
}

/// A sight, if its checkable is there.
fn carried_sight(moves: &Moves, sight: &Sight) -> Option<Sight>
    ensures { result ≡ sight_of moves.now sight.now }
{
    match moved(moves.checkables.as_slice(), sight.checkable) {
        Some(checkable) => Some(Sight {
            checkable,
            count: sight.count,
        }),
        None => None,
    }
}

/// Adds an item at the end, if there is one.
fn push_some<T: Drop>(items: &mut Vec<T>, item: Option<T>) -> Result<(), OutOfMemory>
    ensures { OnOk result (items.new.items ≡ items.old.items ++ option_to_list item) }
{
    if let Some(item) = item {
        items.push(item)?;
    }
    Ok(())
}

fn sights_in_order(sights: Vec<Sight>) -> Result<Row<Sight>, OutOfMemory>
    ensures { IfOk result (λ r. r ≡ ascending (λ x. x.checkable) sights.items) }
{
    let mut sorted = sights;
    sorted.sort_by_key(|sight| sight.checkable)?;
    Ok(Row::from(sorted))
}

fn carried_decisions(
    alloc: Global,
    moves: &Moves,
    decisions: &[Decision],
) -> Result<Row<Decision>, OutOfMemory>
    ensures { IfOk result (λ r. r ≡ decisions_of moves.now decisions.now) }
{
    let mut carried = Vec::new(alloc);
    for decision in decisions {
        let decision = carried_decision(alloc, moves, decision)?;
        push_some(&mut carried, decision)?;
    }
    decisions_in_order(carried)
}

fn decisions_in_order(decisions: Vec<Decision>) -> Result<Row<Decision>, OutOfMemory>
    ensures { IfOk result (λ r. r ≡ ascending (λ d. d.notification) decisions.items) }
{
    let mut sorted = decisions;
    sorted.sort_by_key(|decision| decision.notification)?;
    Ok(Row::from(sorted))
}

/// A decision, if its notification and what its outcome names are there.
fn carried_decision(
    alloc: Global,
    moves: &Moves,
    decision: &Decision,
) -> Result<Option<Decision>, OutOfMemory>
    ensures { IfOk result (λ d. d ≡ decision_of moves.now decision.now) }
{
    let Some(notification) = moved(moves.notifies.as_slice(), decision.notification) else {
        return Ok(None);
    };
    let Some(outcome) = carried_outcome(alloc, moves, &decision.outcome)? else {
        return Ok(None);
    };
    Ok(Some(Decision {
        notification,
        kind: decision.kind,
        outcome,
    }))
}

/// An outcome, if what it names is there.
fn carried_outcome(
    alloc: Global,
    moves: &Moves,
    outcome: &Outcome,
) -> Result<Option<Outcome>, OutOfMemory>
    ensures { IfOk result (λ o. o ≡ outcome_of moves.now outcome.now) }
{
    match outcome {
        Outcome::Sent { users } => {
            let users = carried_users(alloc, moves, users.as_slice())?;
            Ok(Some(Outcome::Sent { users }))
        }
        Outcome::Dependency { depend } => Ok(carried_dependency(moves, *depend)),
        Outcome::Host { checkable } => Ok(carried_host(moves, *checkable)),
        outcome => Ok(Some(outcome.clone()?)),
    }
}

fn carried_dependency(moves: &Moves, depend: u32) -> Option<Outcome>
    ensures { result ≡ outcome_of moves.now (Outcome.Dependency depend) }
{
    match moved(moves.depends.as_slice(), depend) {
        Some(depend) => Some(Outcome::Dependency { depend }),
        None => None,
    }
}

fn carried_host(moves: &Moves, checkable: u32) -> Option<Outcome>
    ensures { result ≡ outcome_of moves.now (Outcome.Host checkable) }
{
    match moved(moves.checkables.as_slice(), checkable) {
        Some(checkable) => Some(Outcome::Host { checkable }),
        None => None,
    }
}

fn carried_users(alloc: Global, moves: &Moves, users: &[u32]) -> Result<Row<u32>, OutOfMemory>
    ensures { IfOk result (λ r. r ≡ users_of moves.now users.now) }
{
    let mut carried = Vec::new(alloc);
    for user in users {
        push_some(&mut carried, moved(moves.users.as_slice(), *user))?;
    }
    users_in_order(carried)
}

fn users_in_order(users: Vec<u32>) -> Result<Row<u32>, OutOfMemory>
    ensures { IfOk result (λ r. r ≡ ascending (λ u. u) users.items) }
{
    let mut sorted = users;
    sorted.sort_by_key(|user| *user)?;
    Ok(Row::from(sorted))
}
