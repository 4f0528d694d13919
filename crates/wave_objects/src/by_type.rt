// The rules of a wave by the types that they go to.
ghost use Rattle.std.specs.Prelude.{◌≡◌, ◌++◌, ◌∷◌, [], ℕ, List, IfOk, OnOk, if◌then◌else◌};
ghost use Rattle.std.specs.Str.{bytes_eq};
ghost use Rattle.wave_objects.specs.ByType.{rules_going_to, type_rules, types_before};

use crate::applying::Applied;
use eval_work::Rule;
use site_base::{OutOfMemory, Text};
use std::alloc::Global;

/// A rule, and its place among those of a wave.
#[derive(Clone, Copy)]
pub struct PlacedRule<'a> {
    pub place: usize,
    pub rule: &'a Rule,
}

/// The rules that go to objects of one type, in their order.
#[derive(Drop)]
pub struct RulesOfType<'a> {
    pub kind: &'a Text,
    pub rules: Vec<PlacedRule<'a>>,
}

/// Sorts rules by the types that they go to.
///
/// # Errors
///
/// `OutOfMemory` if there is too little memory for the lists.
pub fn rules_by_type<'a>(
    alloc: Global,
    rules: &[Applied<'a>],
) -> Result<Vec<RulesOfType<'a>>, OutOfMemory>
    ensures { IfOk result (λ ts. (kind : List ℕ) → type_rules kind ts.items ≡ rules_going_to kind 0 rules.now) }
{
    let mut types = Vec::new(alloc);
    for (place, applied) in rules.iter().enumerate() {
        let rule = applied.rule;
        add_rule(alloc, &mut types, PlacedRule { place, rule })?;
    }
    Ok(types)
}

/// Adds a rule to those of its type.
fn add_rule<'a>(
    alloc: Global,
    types: &mut Vec<RulesOfType<'a>>,
    placed: PlacedRule<'a>,
) -> Result<(), OutOfMemory>
    ensures { OnOk result ((kind : List ℕ) → type_rules kind types.new.items ≡ type_rules kind types.old.items ++ (if bytes_eq kind placed.entry.rule.now.target then placed.entry ∷ [] else [])) }
{
    let at = type_at(types, &placed.rule.target);
    if at < types.len() {
        types[at].rules.push(placed)?;
    } else {
        types.push(with_first(alloc, placed)?)?;
    }
    Ok(())
}

/// A type with the first rule that goes to it.
fn with_first<'a>(alloc: Global, placed: PlacedRule<'a>) -> Result<RulesOfType<'a>, OutOfMemory>
    ensures kind { IfOk result (λ t. t.kind.now ≡ placed.entry.rule.now.target) }
    ensures rules { IfOk result (λ t. t.rules.items ≡ placed.entry ∷ []) }
{
    let kind = &placed.rule.target;
    let mut rules = Vec::new(alloc);
    rules.push(placed)?;
    Ok(RulesOfType { kind, rules })
}

/// The place of a type among these, and their number if it isn't there.
fn type_at(types: &[RulesOfType], target: &Text) -> usize
    ensures { result ≡ types_before target.now types.now }
{
    for (at, one) in types.iter().enumerate() {
        if *one.kind == *target {
            return at;
        }
    }
    types.len()
}

/// The rules that go to objects of a type.
pub fn rules_to<'a, 'b>(types: &'b [RulesOfType<'a>], kind: &str) -> &'b [PlacedRule<'a>]
    ensures { result.now ≡ type_rules kind.now types.now }
{
    for one in types {
        if kind == one.kind.as_str() {
            return &one.rules;
        }
    }
    &[]
}
