// The instances of elements that are kept, and their items.
ghost use Rattle.std.specs.Prelude.{◌≡◌, ◌++◌, IfOk, IfSome, OnOk, map};
ghost use Rattle.eval_work.specs.Works.{state_of, plain_item, plain_pair, plain_rule, Gives};
ghost use Rattle.commit_meaning.specs.Names.{target_names};
ghost use Rattle.commit_meaning.specs.Rules.{instance as instance_of, named_instance as named_by, prefix, place_by};
ghost use Rattle.apply_rules.specs.Keys.{AreKeys};
ghost use Rattle.apply_rules.specs.Plain.{plain_instance, plain_kept, plain_target};

use crate::presets::presets;
use crate::target::{subject_of, target_no};
use crate::{PresetKeys, Target};
use dsl_value::Value;
use eval_work::{Item, Rule, Stop, Work};
use load_work::is_good_name;
use name_work::named_fault;
use rule_expressions::{Prepared, named_trees};
use site_base::{DiagKind, ItemNo, OutOfMemory, Place, Text, Tree};
use std::alloc::Global;
use std::sync::Arc;

/// An item that a rule makes at a target, before it has copies of what it takes from both.
#[derive(Drop)]
pub struct Instance<'a> {
    pub(crate) number: ItemNo,
    pub(crate) rule: &'a Rule,
    pub(crate) target: Target<'a>,
    /// The target's names with values that it shares with other instances at the target.
    pub(crate) shared: Option<Arc<Prepared<'a>>>,
    pub(crate) name: Text,
    /// The names of the `for`, with their trees.
    pub(crate) own: Vec<(Text, Tree)>,
}

impl<'a> Instance<'a> {
    /// The number of the rule, of the target and of the element.
    pub fn number(&self) -> ItemNo
        ensures { result ≡ (plain_instance self.now).number }
    {
        self.number
    }

    /// Where the rule stands.
    pub fn place(&self) -> Place
        ensures { result ≡ (plain_instance self.now).place }
    {
        self.rule.place
    }

    /// The type of the rule's objects.
    pub fn kind(&self) -> &str
        ensures { result.now ≡ (plain_instance self.now).kind }
    {
        self.rule.kind.as_str()
    }

    /// The names of the `for`, with their trees. They are bound behind those of the target.
    pub fn own(&self) -> &[(Text, Tree)]
        ensures { result.now ≡ self.now.own.items }
    {
        &self.own
    }

    /// The item, with copies of the target's trees. It shares the rule's body, and its presets share these keys.
    pub fn into_item(self, alloc: Global, keys: &PresetKeys) -> Result<Item, OutOfMemory>
        requires { AreKeys keys.now }
        ensures { IfOk result (λ i. plain_item i ≡ plain_instance self.entry) }
    {
        let item = self.nameless_item(alloc, keys)?;
        let target = self.target;
        with_names(alloc, item, &target, self.own)
    }

    /// The item but for the names that are bound in its body, of which it has none. It shares the rule's body, and its presets share
    /// these keys.
    pub fn nameless_item(&self, alloc: Global, keys: &PresetKeys) -> Result<Item, OutOfMemory>
        requires { AreKeys keys.now }
        ensures { IfOk result (λ i. record (plain_item i) { names = (plain_instance self.now).names } ≡ plain_instance self.now) }
    {
        let rule = self.rule;
        Ok(Item {
            number: self.number,
            kind: rule.kind.clone()?,
            name: self.name.clone()?,
            place: rule.place,
            presets: presets(alloc, keys, &rule.kind, &self.name, &self.target)?,
            names: Vec::new(alloc),
            captured: copy_pairs(alloc, &rule.captured)?,
            body: rule.body.clone()?,
            builtin: false,
        })
    }
}

/// The instance for an element of this number and key, in which the names of the target and those of the `for`, with these trees, are
/// bound. Its name, the rule's and then the key, may be none that an object may have.
pub(crate) fn named_instance<'a>(
    work: &Work,
    rule: &'a Rule,
    target: &Target<'a>,
    number: u32,
    key: &Text,
    own: Vec<(Text, Tree)>,
) -> Result<Option<Instance<'a>>, Stop>
    ensures gives { Gives plain_kept result (state_of work.now) (named_by (plain_rule rule.now) (plain_target target.now) number (prefix (plain_rule rule.now).name ++ key.now) (target_names (plain_target target.now) ++ map plain_pair own.items) (state_of work.now)) }
    ensures target { IfOk result (λ o. IfSome o (λ i. i.target ≡ target.now)) }
{
    let name = instance_name(work.alloc, rule, key)?;
    if is_good_name(&name) {
        Ok(Some(of_element(rule, target, number, name, own)))
    } else {
        Err(named_fault(work.alloc, name_place(rule), DiagKind::BadName, &name))
    }
}

/// The rule's name, if it has one, and then the key.
fn instance_name(alloc: Global, rule: &Rule, key: &Text) -> Result<Text, OutOfMemory>
    ensures { IfOk result (λ n. n ≡ prefix (plain_rule rule.now).name ++ key.now) }
{
    let mut name = match &rule.name {
        Some((prefix, _)) => prefix.clone()?,
        None => Text::new(alloc),
    };
    if !key.is_empty() {
        name.push_str(key.as_str())?;
    }
    Ok(name)
}

/// Where a bad name is told: at the expression of the `for`, without one at the rule's name, and without a name at the rule.
fn name_place(rule: &Rule) -> Place
    ensures { result ≡ place_by (plain_rule rule.now) (plain_rule rule.now).loop }
{
    match &rule.each {
        Some(each) => each.expr.place,
        None => match &rule.name {
            Some((_, place)) => *place,
            None => rule.place,
        },
    }
}

/// The instance of this number and name.
fn of_element<'a>(
    rule: &'a Rule,
    target: &Target<'a>,
    number: u32,
    name: Text,
    own: Vec<(Text, Tree)>,
) -> Instance<'a>
    ensures item { plain_instance result ≡ instance_of (plain_rule rule.now) (plain_target target.now) number name (target_names (plain_target target.now) ++ map plain_pair own.items) }
    ensures target { result.target ≡ target.now }
{
    Instance {
        number: ItemNo {
            item: rule.number.item,
            target: target_no(target),
            key: number,
        },
        rule,
        target: *target,
        shared: None,
        name,
        own,
    }
}

/// An item in whose body the names of a target are bound and then these.
fn with_names(
    alloc: Global,
    item: Item,
    target: &Target,
    own: Vec<(Text, Tree)>,
) -> Result<Item, OutOfMemory>
    ensures { IfOk result (λ i. plain_item i ≡ record (plain_item item) { names = target_names (plain_target target.now) ++ map plain_pair own.items }) }
{
    let mut item = item;
    let mut own = own;
    let mut names = named_trees(alloc, &subject_of(target))?;
    names.append(&mut own)?;
    item.names = names;
    Ok(item)
}

/// A copy of these names with their values.
#[tactic(auto, using(std::proofs::Common::append_assoc))]
pub(crate) fn copy_pairs(
    alloc: Global,
    pairs: &[(Text, Value)],
) -> Result<Vec<(Text, Value)>, OutOfMemory>
    ensures { IfOk result (λ copy. copy.items ≡ pairs.now) }
{
    let mut copy = Vec::with_capacity(alloc, pairs.len())?;
    for (name, value) in pairs {
        copy.push((name.clone()?, value.clone()?))?;
    }
    Ok(copy)
}
