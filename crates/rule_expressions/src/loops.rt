// What the `for` of a rule goes over.
ghost use Rattle.std.specs.Prelude.{◌≡◌, [], ◌∷◌, IfOk, OnOk, option_map, Some};
ghost use Rattle.dsl_syntax.specs.SyntaxView.{each_view};
ghost use Rattle.eval_work.specs.Kept.{IsLater, Named};
ghost use Rattle.eval_work.specs.Works.{state_of, view_of, Gives};
ghost use Rattle.commit_meaning.specs.Rules.{of_strings, of_pairs, of_value as elements_by_value};
ghost use Rattle.item_start.specs.Ready.{IsReady};
ghost use Rattle.rule_expressions.specs.Looped.{elements_by};
ghost use Rattle.rule_expressions.specs.Named.{ElementsNamed, MaybeElementsNamed};
ghost use Rattle.rule_expressions.specs.Plain.{plain_element, plain_elements};

use crate::prepared::evaluate;
use dsl_syntax::Each;
use dsl_value::{Cell, SortedPairs, Value};
use eval_work::{Stop, Task, Work, WorldView, fault};
use site_base::{DiagKind, OutOfMemory, Text};
use std::alloc::Global;

/// One of what a `for` goes over: the key with which its instance's name ends, and what the names of the `for` are bound to.
#[derive(Drop)]
pub struct Element {
    pub key: Text,
    pub bound: Vec<(Text, Value)>,
}

/// What the `for` of a rule goes over: the strings of an array, the pairs of a dictionary in the order of their keys, and nothing of null.
/// Anything else is `WrongType` at its expression.
pub fn elements(view: &WorldView, each: &Each, work: &mut Work) -> Result<Vec<Element>, Stop>
    requires ready { IsReady view.now work.old }
    requires task { work.old.task ≡ Task.Rule }
    ensures gives { Gives plain_elements result (state_of work.new) (elements_by (view_of view.now) (each_view each.now) (state_of work.old)) }
    ensures named { IfOk result (λ es. ElementsNamed work.new.store (plain_elements es)) }
    ensures ready { OnOk result (IsReady view.now work.new) }
    ensures later { OnOk result (IsLater work.old.store work.new.store) }
    ensures task { OnOk result (work.new.task ≡ Task.Rule) }
{
    let value = evaluate(view, &each.expr, work)?;
    match elements_of(work, &each.key, &each.value, &value)? {
        Some(elements) => Ok(elements),
        None => Err(fault(work.alloc, each.expr.place, DiagKind::WrongType)),
    }
}

/// The elements of a value, if it has any under this number of names. One name takes an array, and two take a dictionary.
fn elements_of(
    work: &Work,
    key: &Text,
    second: &Option<Text>,
    value: &Value,
) -> Result<Option<Vec<Element>>, OutOfMemory>
    requires { Named work.now.store value.now }
    ensures elements { IfOk result (λ o. option_map plain_elements o ≡ elements_by_value (state_of work.now).cells key.now second.now value.now) }
    ensures named { IfOk result (λ o. MaybeElementsNamed work.now.store (option_map plain_elements o)) }
{
    match value {
        Value::Null => Ok(Some(Vec::new(work.alloc))),
        Value::Ref(cell) => match (second, work.store.cell(*cell)) {
            (None, Cell::Array(items)) => strings(work.alloc, key, items),
            (Some(second), Cell::Dict(pairs)) => pair_elements(work.alloc, key, second, pairs),
            _ => Ok(None),
        },
        _ => Ok(None),
    }
}

/// An element for each string of an array, if there are strings alone.
#[tactic(auto, using(crate::proofs::Looping::after_one, std::proofs::lemmas::List::append_assoc))]
fn strings(alloc: Global, name: &Text, items: &[Value]) -> Result<Option<Vec<Element>>, OutOfMemory>
    ensures { IfOk result (λ o. option_map plain_elements o ≡ of_strings name.now items.now) }
{
    let mut elements = Vec::new(alloc);
    for item in items {
        match item {
            Value::Str(text) => elements.push(string_element(alloc, name, text)?)?,
            _ => return Ok(None),
        }
    }
    Ok(Some(elements))
}

fn string_element(alloc: Global, name: &Text, text: &Text) -> Result<Element, OutOfMemory>
    ensures { IfOk result (λ e. plain_element e ≡ record { key = text.now; bound = (name.now, Value.Str text.now) ∷ [] }) }
{
    let mut bound = Vec::with_capacity(alloc, 1)?;
    bound.push((name.clone()?, Value::Str(text.clone()?)))?;
    Ok(Element {
        key: text.clone()?,
        bound,
    })
}

/// An element for each pair of a dictionary, in its order.
#[tactic(auto, using(std::proofs::Common::append_assoc))]
fn pair_elements(
    alloc: Global,
    first: &Text,
    second: &Text,
    pairs: &SortedPairs,
) -> Result<Option<Vec<Element>>, OutOfMemory>
    ensures { IfOk result (λ o. option_map plain_elements o ≡ Some (of_pairs first.now second.now pairs.now)) }
{
    let mut elements = Vec::with_capacity(alloc, pairs.len())?;
    let mut left = pairs.left();
    while let Some(((key, value), behind)) = left.split_first() {
        elements.push(pair_element(alloc, first, second, key, value)?)?;
        left = behind;
    }
    Ok(Some(elements))
}

fn pair_element(
    alloc: Global,
    first: &Text,
    second: &Text,
    key: &Text,
    value: &Value,
) -> Result<Element, OutOfMemory>
    ensures { IfOk result (λ e. plain_element e ≡ record { key = key.now; bound = (first.now, Value.Str key.now) ∷ (second.now, value.now) ∷ [] }) }
{
    let mut bound = Vec::with_capacity(alloc, 2)?;
    bound.push((first.clone()?, Value::Str(key.clone()?)))?;
    bound.push((second.clone()?, value.clone()?))?;
    Ok(Element {
        key: key.clone()?,
        bound,
    })
}
