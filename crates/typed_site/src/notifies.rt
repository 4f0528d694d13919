// Notifications.
ghost use Rattle.std.specs.Prelude.{◌≡◌, ◌++◌, ℕ, List, IfOk, OnOk};
ghost use Rattle.std.specs.List.{flat_map};
ghost use Rattle.std.specs.Option.{option_to_list};
ghost use Rattle.std.specs.Arc.{arc_value};
ghost use Rattle.site_base.specs.View.{view};
ghost use Rattle.site_model.specs.PlainSite.{object_view};
ghost use Rattle.object_lists.specs.Listed.{lent_view};
ghost use Rattle.object_lists.specs.Members.{AreMembers};
ghost use Rattle.typed_site.specs.Notifies.{notify_made, notify_of};

use crate::depends::target_in;
use object_lists::{Members, place_in, receivers};
use object_types::{Attribute, ObjectType};
use object_values::Attributes;
use site_base::{OutOfMemory, Row};
use site_model::{Names, NotifySpec, Object};
use std::alloc::Global;

/// The names of the periods, the checkables and the users, and the members of user groups.
#[derive(Clone, Copy)]
pub(crate) struct Told<'a> {
    pub(crate) periods: &'a Names,
    pub(crate) checkables: &'a Names,
    pub(crate) users: &'a Names,
    pub(crate) groups: &'a Members,
}

/// The notifications of a site.
pub(crate) fn notify_specs(
    alloc: Global,
    known: Told<'_>,
    notifies: &[&Object],
) -> Result<Row<NotifySpec>, OutOfMemory>
    ensures { (ms : List (List ℕ × ℕ)) → AreMembers ms known.entry.groups.now
        → IfOk result (λ r. r ≡ flat_map (λ o. option_to_list
        (notify_of known.entry.periods.now known.entry.checkables.now known.entry.users.now ms o)) (lent_view notifies.now)) }
{
    let mut specs = Vec::with_capacity(alloc, notifies.len())?;
    for notify in notifies {
        push_some(&mut specs, notify_spec(alloc, known, notify)?)?;
    }
    Ok(Row::from(specs))
}

fn push_some(out: &mut Vec<NotifySpec>, spec: Option<NotifySpec>) -> Result<(), OutOfMemory>
    ensures { OnOk result (out.new.items ≡ out.old.items ++ option_to_list spec) }
{
    if let Some(spec) = spec {
        out.push(spec)?;
    }
    Ok(())
}

/// A notification, if its checkable is there.
fn notify_spec(
    alloc: Global,
    known: Told<'_>,
    notify: &Object,
) -> Result<Option<NotifySpec>, OutOfMemory>
    ensures { (ms : List (List ℕ × ℕ)) → AreMembers ms known.entry.groups.now
        → IfOk result (λ s. s ≡ notify_of known.entry.periods.now known.entry.checkables.now known.entry.users.now ms (object_view notify.now)) }
{
    let set = attributes(notify);
    match target_in(
        alloc,
        known.checkables,
        set,
        Attribute::HostName,
        Attribute::ServiceName,
    )? {
        Some(checkable) => {
            let users = receivers(alloc, known.users, known.groups, &notify.tree)?;
            Ok(Some(telling(alloc, known.periods, notify, users, checkable)?))
        }
        None => Ok(None),
    }
}

fn attributes(notify: &Object) -> Attributes<'_>
    ensures kind { result.kind ≡ ObjectType.Notification }
    ensures tree { result.tree.now ≡ arc_value notify.now.tree }
{
    Attributes {
        kind: ObjectType::Notification,
        tree: &notify.tree,
    }
}

/// A notification of this checkable to these users.
fn telling(
    alloc: Global,
    periods: &Names,
    notify: &Object,
    users: Row<u32>,
    checkable: u32,
) -> Result<NotifySpec, OutOfMemory>
    ensures { IfOk result (λ s. s ≡ notify_made periods.now (object_view notify.now) users checkable) }
{
    let set = attributes(notify);
    Ok(NotifySpec {
        name: notify.name.clone()?,
        checkable,
        users,
        interval: set.seconds(Attribute::Interval),
        begin: set.limit(Attribute::Times, "begin"),
        end: set.limit(Attribute::Times, "end"),
        kinds: set.kinds(alloc, Attribute::Types)?,
        states: set.states(alloc, Attribute::States)?,
        period: place_in(periods, set, Attribute::Period),
    })
}
