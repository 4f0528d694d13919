// What recurs on a site.
ghost use Rattle.std.specs.Prelude.{◌≡◌, ◌++◌, map, IfOk, OnOk};
ghost use Rattle.std.specs.List.{AllByRecursion};
ghost use Rattle.std.specs.Arc.{arc_value};
ghost use Rattle.std.specs.Option.{option_copied, option_to_list};
ghost use Rattle.site_base.specs.View.{pairs_view, view};
ghost use Rattle.site_model.specs.PlainSite.{object_view, site_view};
ghost use Rattle.object_values.specs.Attributes.{value_under as value_among, value_view};
ghost use Rattle.down_recur.specs.Recurrings.{has_semicolon as semicolon_in, is_flexible as flexible_in, is_nameable as nameable, is_some_false, made as recurring_made, made_by, made_of, recurring_of, recurrings, text_in, trigger_name as trigger_in, value_in as value_inside};
ghost use Rattle.down_recur.specs.Waiting.{IsFresh, recurring_in};

use crate::Recurring;
use crate::waiting::Waiting;
use object_types::{Attribute, ObjectType};
use object_values::{Attributes, text_of};
use site_base::{Moment, OutOfMemory, Text, Tree};
use site_model::{Names, Object, Site};
use std::alloc::Global;

/// What recurs on a site, in committed order: of each `ScheduledDowntime` whose host and service a line can name, and whose trigger, if it has
/// one, is a checkable. All of it is looked at at the first turn.
#[tactic(auto, unfolding(crate::specs::Recurrings::recurrings))]
pub(crate) fn read_all(alloc: Global, site: &Site) -> Result<Vec<Waiting>, OutOfMemory>
    ensures recurring { IfOk result (λ v. map recurring_in v.items ≡ recurrings (site_view site.now)) }
    ensures fresh { IfOk result (λ v. AllByRecursion IsFresh v.items) }
{
    let mut list = Vec::new(alloc);
    for object in site.objects.as_slice() {
        push_some(&mut list, recurring_of(alloc, &site.names, object)?)?;
    }
    Ok(list)
}

fn push_some(out: &mut Vec<Waiting>, recurring: Option<Recurring>) -> Result<(), OutOfMemory>
    ensures recurring { OnOk result (map recurring_in out.new.items ≡ map recurring_in out.old.items ++ option_to_list recurring) }
    ensures fresh { OnOk result (AllByRecursion IsFresh out.old.items → AllByRecursion IsFresh out.new.items) }
{
    if let Some(recurring) = recurring {
        out.push(Waiting::new(recurring))?;
    }
    Ok(())
}

/// What recurs of an object, where the checkables have these names.
fn recurring_of(
    alloc: Global,
    names: &Names,
    object: &Object,
) -> Result<Option<Recurring>, OutOfMemory>
    ensures { IfOk result (λ r. r ≡ recurring_of names.now (object_view object.now)) }
{
    if object.kind.as_str() == "ScheduledDowntime" {
        made_of(alloc, names, &object.tree)
    } else {
        Ok(None)
    }
}

/// Nothing where a line can't name the host or the service.
fn made_of(alloc: Global, names: &Names, tree: &Tree) -> Result<Option<Recurring>, OutOfMemory>
    ensures { IfOk result (λ r. r ≡ made_of names.now (view tree.now)) }
{
    let set = attributes(tree);
    if is_nameable(set.text(Attribute::HostName)) && is_nameable(set.text(Attribute::ServiceName)) {
        made_by(alloc, names, tree)
    } else {
        Ok(None)
    }
}

/// Nothing where no checkable has the name of the trigger.
fn made_by(alloc: Global, names: &Names, tree: &Tree) -> Result<Option<Recurring>, OutOfMemory>
    ensures { IfOk result (λ r. r ≡ made_by names.now (view tree.now) (trigger_in (view tree.now))) }
{
    let Some(name) = trigger_name(tree) else {
        return Ok(Some(made(alloc, tree, None)?));
    };
    match names.find(name) {
        Some(checkable) => Ok(Some(made(alloc, tree, Some(checkable))?)),
        None => Ok(None),
    }
}

fn attributes(tree: &Tree) -> Attributes<'_>
    ensures kind { result.kind ≡ ObjectType.ScheduledDowntime }
    ensures tree { result.tree.now ≡ tree.now }
{
    Attributes {
        kind: ObjectType::ScheduledDowntime,
        tree,
    }
}

/// What recurs of an object with these attributes; nothing was given yet.
fn made(alloc: Global, tree: &Tree, trigger: Option<u32>) -> Result<Recurring, OutOfMemory>
    ensures { IfOk result (λ r. r ≡ recurring_made (view tree.now) trigger) }
{
    let set = attributes(tree);
    Ok(Recurring {
        host: copy_or_empty(alloc, set.text(Attribute::HostName))?,
        service: copied(alloc, set.text(Attribute::ServiceName))?,
        author: copy_or_empty(alloc, set.text(Attribute::Author))?,
        comment: copy_or_empty(alloc, set.text(Attribute::Comment))?,
        spans: set.spans(alloc, Attribute::Ranges)?,
        flexible: is_flexible(tree),
        duration: set.seconds(Attribute::Duration).min(Moment::LAST),
        trigger,
        done: 0,
    })
}

fn copied(alloc: Global, text: Option<&str>) -> Result<Option<Text>, OutOfMemory>
    ensures { IfOk result (λ t. t ≡ option_copied text.entry) }
{
    match text {
        Some(text) => Ok(Some(Text::copy_of(alloc, text)?)),
        None => Ok(None),
    }
}

fn copy_or_empty(alloc: Global, text: Option<&str>) -> Result<Text, OutOfMemory>
    ensures { IfOk result (λ t. t ≡ text_in (option_copied text.entry)) }
{
    match text {
        Some(text) => Text::copy_of(alloc, text),
        None => Ok(Text::new(alloc)),
    }
}

/// Whether a name can stand in a line's field.
fn is_nameable(text: Option<&str>) -> bool
    ensures { result ≡ nameable (option_copied text.entry) }
{
    match text {
        Some(text) => !has_semicolon(text.as_bytes()),
        None => true,
    }
}

fn has_semicolon(text: &[u8]) -> bool
    ensures { result ≡ semicolon_in text.now }
{
    text.iter().any(|byte| *byte == b';')
}

/// Whether `fixed` is false.
fn is_flexible(tree: &Tree) -> bool
    ensures { result ≡ flexible_in (view tree.now) }
{
    is_false(value_in("fixed", tree))
}

fn is_false(value: Option<&Tree>) -> bool
    ensures { result ≡ is_some_false (value_view value.entry) }
{
    match value {
        Some(Tree::Bool(on)) => !*on,
        _ => false,
    }
}

/// The name of the checkable by whose downtimes an object's are triggered; `None` if `vars.triggered_by` is no string.
fn trigger_name(tree: &Tree) -> Option<&str>
    ensures { option_copied result ≡ trigger_in (view tree.now) }
{
    let vars = value_in("vars", tree)?;
    let name = value_in("triggered_by", vars)?;
    text_of(name)
}

/// The value under a key, where the tree is a dictionary.
fn value_in<'a>(key: &str, tree: &'a Tree) -> Option<&'a Tree>
    ensures { value_view result ≡ value_inside key.now (view tree.now) }
{
    match tree {
        Tree::Dict(pairs) => value_under(key, pairs),
        _ => None,
    }
}

/// The value under a key; of equal keys the first counts.
fn value_under<'a>(name: &str, pairs: &'a [(Text, Tree)]) -> Option<&'a Tree>
    ensures { value_view result ≡ value_among name.now (pairs_view pairs.now) }
{
    for (key, value) in pairs {
        if key.as_str() == name {
            return Some(value);
        }
    }
    None
}
