// Dependencies.
ghost use Rattle.std.specs.Prelude.{◌≡◌, ◌++◌, IfOk, OnOk, length, string_bytes, is_some};
ghost use Rattle.std.specs.Option.{option_to_list, option_copied};
ghost use Rattle.std.specs.List.{flat_map};
ghost use Rattle.std.specs.Arc.{arc_value};
ghost use Rattle.site_base.specs.View.{view};
ghost use Rattle.site_model.specs.PlainSite.{object_view};
ghost use Rattle.object_lists.specs.Listed.{lent_view};
ghost use Rattle.typed_site.specs.Depends.{depend_made, depend_of, full_name as full_of, target_at};

use object_lists::place_in;
use object_types::{Attribute, ObjectType};
use object_values::Attributes;
use site_base::{OutOfMemory, Row, Text};
use site_model::{DependSpec, Names, Object};
use std::alloc::Global;

/// The dependencies of a site, whose periods and checkables have these names.
pub(crate) fn depend_specs(
    alloc: Global,
    periods: &Names,
    checkables: &Names,
    depends: &[&Object],
) -> Result<Row<DependSpec>, OutOfMemory>
    ensures { IfOk result (λ r. r ≡ flat_map (λ o. option_to_list (depend_of periods.now checkables.now o)) (lent_view depends.now)) }
{
    let mut specs = Vec::with_capacity(alloc, depends.len())?;
    for depend in depends {
        push_some(&mut specs, depend_spec(alloc, periods, checkables, depend)?)?;
    }
    Ok(Row::from(specs))
}

fn push_some(out: &mut Vec<DependSpec>, spec: Option<DependSpec>) -> Result<(), OutOfMemory>
    ensures { OnOk result (out.new.items ≡ out.old.items ++ option_to_list spec) }
{
    if let Some(spec) = spec {
        out.push(spec)?;
    }
    Ok(())
}

/// A dependency, if its child and its parent are there.
fn depend_spec(
    alloc: Global,
    periods: &Names,
    checkables: &Names,
    depend: &Object,
) -> Result<Option<DependSpec>, OutOfMemory>
    ensures { IfOk result (λ s. s ≡ depend_of periods.now checkables.now (object_view depend.now)) }
{
    let set = attributes(depend);
    let child = target_in(
        alloc,
        checkables,
        set,
        Attribute::ChildHostName,
        Attribute::ChildServiceName,
    )?;
    let parent = target_in(
        alloc,
        checkables,
        set,
        Attribute::ParentHostName,
        Attribute::ParentServiceName,
    )?;
    match (child, parent) {
        (Some(child), Some(parent)) => Ok(Some(joined(alloc, periods, depend, child, parent)?)),
        _ => Ok(None),
    }
}

fn attributes(depend: &Object) -> Attributes<'_>
    ensures kind { result.kind ≡ ObjectType.Dependency }
    ensures tree { result.tree.now ≡ arc_value depend.now.tree }
{
    Attributes {
        kind: ObjectType::Dependency,
        tree: &depend.tree,
    }
}

/// A dependency of this child on this parent.
fn joined(
    alloc: Global,
    periods: &Names,
    depend: &Object,
    child: u32,
    parent: u32,
) -> Result<DependSpec, OutOfMemory>
    ensures { IfOk result (λ s. s ≡ depend_made periods.now (object_view depend.now) child parent) }
{
    let set = attributes(depend);
    let of_service = set.text(Attribute::ParentServiceName).is_some();
    Ok(DependSpec {
        name: depend.name.clone()?,
        child,
        parent,
        group: copied(alloc, set.text(Attribute::RedundancyGroup))?,
        checks: set.flag(Attribute::DisableChecks),
        notes: set.flag(Attribute::DisableNotifications),
        ignore_soft: set.flag(Attribute::IgnoreSoftStates),
        states: set.states_through(alloc, Attribute::States, of_service)?,
        period: place_in(periods, set, Attribute::Period),
    })
}

fn copied(alloc: Global, text: Option<&str>) -> Result<Option<Text>, OutOfMemory>
    ensures { IfOk result (λ t. t ≡ option_copied text.entry) }
{
    match text {
        Some(text) => Ok(Some(Text::copy_of(alloc, text)?)),
        None => Ok(None),
    }
}

/// The place of the checkable that an object names in two attributes: a host, or with the second a service of it.
pub(crate) fn target_in(
    alloc: Global,
    checkables: &Names,
    attributes: Attributes<'_>,
    host: Attribute,
    service: Attribute,
) -> Result<Option<u32>, OutOfMemory>
    ensures { IfOk result (λ k. k
        ≡ target_at checkables.now attributes.entry.kind host service (view attributes.entry.tree.now)) }
{
    match attributes.text(host) {
        Some(host) => {
            let name = full_name(alloc, host, attributes.text(service))?;
            Ok(checkables.find(name.as_str()))
        }
        None => Ok(None),
    }
}

/// The full name of a host, or of a service of it.
fn full_name(alloc: Global, host: &str, service: Option<&str>) -> Result<String, OutOfMemory>
    ensures { IfOk result (λ s. string_bytes s ≡ full_of host.now (option_copied service.entry)) }
{
    let mut name = String::from_str(alloc, host)?;
    if let Some(service) = service {
        name.push('!')?;
        name.push_str(service)?;
    }
    Ok(name)
}
