// Where macros are looked up.
ghost use Rattle.std.specs.Prelude.{◌≡◌};
ghost use Rattle.std.specs.List.{slice_get};
ghost use Rattle.site_base.specs.View.{view, pairs_view};
ghost use Rattle.site_model.specs.PlainSite.{site_view, check_view};
ghost use Rattle.command_macros.specs.Lookups.{pairs_in as pairs_of_data};
ghost use Rattle.command_macros.specs.Scopes.{source_view, scope_view, no_object as nothing, object_of as object_with, checkable_object as checkable_with, command_object as command_with, service_of as service_with, host_of as host_with, scope_of as scope_with};

use crate::lookups::{pairs_in, pairs_of, value_at};
use site_base::{Text, Tree};
use site_model::{CheckSpec, Site};

/// An object: its attributes, and the custom variables among them.
#[derive(Clone, Copy)]
pub(crate) struct Source<'a> {
    pub(crate) vars: &'a [(Text, Tree)],
    pub(crate) attributes: &'a [(Text, Tree)],
}

/// What a macro of a check is looked up in, in this order. The service of a host's check has nothing in it.
#[derive(Clone, Copy)]
pub(crate) struct Scope<'a> {
    pub(crate) service: Source<'a>,
    pub(crate) host: Source<'a>,
    pub(crate) command: Source<'a>,
    /// The global `Vars`.
    pub(crate) globals: &'a [(Text, Tree)],
}

/// The scope of a checkable's command.
pub(crate) fn scope_of<'a>(site: &'a Site, spec: &'a CheckSpec) -> Scope<'a>
    ensures { scope_view result ≡ scope_with (site_view site.now) (check_view spec.now) }
{
    Scope {
        service: service_of(spec),
        host: host_of(site, spec),
        command: command_at(site, spec.command),
        globals: pairs_in(&site.vars),
    }
}

fn service_of(spec: &CheckSpec) -> Source<'_>
    ensures { source_view result ≡ service_with (check_view spec.now) spec.now.host }
{
    match spec.host {
        None => no_object(),
        Some(_) => object_of(pairs_in(&spec.tree)),
    }
}

fn host_of<'a>(site: &'a Site, spec: &'a CheckSpec) -> Source<'a>
    ensures { source_view result ≡ host_with (site_view site.now) (check_view spec.now) spec.now.host }
{
    match spec.host {
        None => object_of(pairs_in(&spec.tree)),
        Some(host) => checkable_at(site, host),
    }
}

fn checkable_at(site: &Site, place: u32) -> Source<'_>
    ensures { source_view result ≡ checkable_with (slice_get (site_view site.now).checkables place) }
{
    match site.checkables.as_slice().get(place as usize) {
        None => no_object(),
        Some(spec) => object_of(pairs_in(&spec.tree)),
    }
}

fn command_at(site: &Site, place: u32) -> Source<'_>
    ensures { source_view result ≡ command_with (slice_get (site_view site.now).commands place) }
{
    match site.commands.as_slice().get(place as usize) {
        None => no_object(),
        Some(command) => object_of(pairs_in(&command.tree)),
    }
}

fn no_object<'a>() -> Source<'a>
    ensures { source_view result ≡ nothing }
{
    Source {
        vars: &[],
        attributes: &[],
    }
}

/// The object with these attributes.
fn object_of(attributes: &[(Text, Tree)]) -> Source<'_>
    ensures { source_view result ≡ object_with (pairs_view attributes.now) }
{
    Source {
        vars: pairs_of(value_at(attributes, "vars")),
        attributes,
    }
}
