// Dependencies on a cycle.
ghost use Rattle.std.specs.Prelude.{◌≡◌, ◌++◌, ◌<◌, ◌^◌, ◌∷◌, [], All, map, length, IfOk, OnOk};
ghost use Rattle.site_model.specs.PlainSite.{object_view, site_view};
ghost use Rattle.site_model.specs.Sound.{IsSound};
ghost use Rattle.object_types.specs.declared.object_type.ObjectType.TheVariants as object;
ghost use Rattle.conf_check.specs.Duplicates.{first_object};
ghost use Rattle.depend_graph.specs.Cycles.{IsOnCycle};
ghost use Rattle.site_phases.specs.CycleFaults.{cycle_faults as faults_of, lent_object, more_names, name_at, number_or_none, place_or_start, turning};

use crate::constants::{NO_ITEM, ROOT_START};
use depend_graph::{a_sound_site_has_parents, depends_on_cycles};
use object_types::ObjectType;
use site_base::{Diag, DiagKind, Diags, ItemNo, OutOfMemory, Place, Row, Text, push_quoted};
use site_model::{Object, Site};
use std::alloc::Global;

/// What is wrong with the dependencies of a site: those on a cycle, told at the first of them.
pub(crate) fn cycle_faults(alloc: Global, site: &Site) -> Result<Diags, OutOfMemory>
    requires sound { IsSound (site_view site.now) }
    requires few { length (site_view site.now).checkables < 2 ^ 32 }
    ensures told { IfOk result (λ d. d ≡ faults_of (site_view site.now) (turning (site_view site.now))) }
    ensures free { IfOk result (λ d. d ≡ [] → All (λ d. ¬ IsOnCycle (site_view site.now) d) (site_view site.now).depends) }
{
    a_sound_site_has_parents();
    if site.depends.is_empty() {
        return Ok(Row::new(alloc));
    }
    let depends = depends_on_cycles(alloc, site)?;
    faults_at(alloc, site, depends.as_slice())
}

/// What is told of these dependencies.
fn faults_at(alloc: Global, site: &Site, depends: &[u32]) -> Result<Diags, OutOfMemory>
    ensures { IfOk result (λ d. d ≡ faults_of (site_view site.now) depends.now) }
{
    let mut faults = Row::new(alloc);
    if let Some((first, more)) = depends.split_first() {
        faults.push(fault_at(alloc, site, *first, more)?)?;
    }
    Ok(faults)
}

/// The diagnostic at the first of some dependencies.
fn fault_at(alloc: Global, site: &Site, first: u32, more: &[u32]) -> Result<Diag, OutOfMemory>
    ensures { IfOk result (λ d. d ∷ [] ≡ faults_of (site_view site.now) (first ∷ more.now)) }
{
    let mut text = Text::new(alloc);
    push_quoted(&mut text, name_of(site, first))?;
    push_more(&mut text, site, more)?;
    let object = dependency_named(site.objects.as_slice(), name_of(site, first));
    Ok(Diag {
        number: number_of(object),
        place: place_of(object),
        kind: DiagKind::DependencyCycle,
        text,
    })
}

/// Adds the quoted names of some dependencies, a blank before each.
fn push_more(out: &mut Text, site: &Site, more: &[u32]) -> Result<(), OutOfMemory>
    ensures { OnOk result (out.new ≡ out.old ++ more_names (site_view site.now) more.now) }
{
    for depend in more {
        out.push(' ')?;
        push_quoted(out, name_of(site, *depend))?;
    }
    Ok(())
}

/// The name of the dependency of this place.
fn name_of(site: &Site, depend: u32) -> &str
    ensures { result.now ≡ name_at (site_view site.now) depend }
{
    match site.depends.as_slice().get(depend as usize) {
        Some(depend) => depend.name.as_str(),
        None => "",
    }
}

/// The dependency of a name.
fn dependency_named<'a>(objects: &'a [Object], name: &str) -> Option<&'a Object>
    ensures { lent_object result ≡ first_object object.Dependency name.now (map object_view objects.now) }
{
    for object in objects {
        if object.kind.as_str() == ObjectType::Dependency.name() && object.name.as_str() == name {
            return Some(object);
        }
    }
    None
}

fn number_of(object: Option<&Object>) -> ItemNo
    ensures { result ≡ number_or_none (lent_object object.entry) }
{
    match object {
        Some(object) => object.number,
        None => NO_ITEM,
    }
}

fn place_of(object: Option<&Object>) -> Place
    ensures { result ≡ place_or_start (lent_object object.entry) }
{
    match object {
        Some(object) => object.place,
        None => ROOT_START,
    }
}
