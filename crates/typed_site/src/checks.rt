// Check commands, hosts and services.
ghost use Rattle.std.specs.Prelude.{◌≡◌, ◌≢◌, ◌++◌, ◌+◌, ◌-◌, ◌<◌, ◌^◌, length, map, AllPairs, IfOk, OnOk, None};
ghost use Rattle.std.specs.Option.{option_map, option_to_list};
ghost use Rattle.std.specs.List.{flat_map};
ghost use Rattle.std.specs.Arc.{arc_value};
ghost use Rattle.site_base.specs.View.{view};
ghost use Rattle.site_model.specs.PlainSite.{check_view, command_view, object_view};
ghost use Rattle.object_types.specs.declared.object_type.ObjectType.TheVariants as object;
ghost use Rattle.object_lists.specs.Listed.{lent_view};
ghost use Rattle.typed_site.specs.Checks.{check_made, check_name, command_of, host_check, one_at_least as at_least_one, service_check};

use object_lists::{add_name, place_in};
use object_types::{Attribute, ObjectType};
use object_values::Attributes;
use site_base::{OutOfMemory, Row};
use site_model::{CheckSpec, CommandSpec, Names, Object};
use std::alloc::Global;

/// The names of the check commands and of the periods.
#[derive(Clone, Copy)]
pub(crate) struct Known<'a> {
    pub(crate) commands: &'a Names,
    pub(crate) periods: &'a Names,
}

/// The check commands of a site.
pub(crate) fn command_specs(
    alloc: Global,
    commands: &[&Object],
) -> Result<Row<CommandSpec>, OutOfMemory>
    ensures { IfOk result (λ r. map command_view r ≡ map command_of (lent_view commands.now)) }
{
    let mut specs = Vec::with_capacity(alloc, commands.len())?;
    for command in commands {
        specs.push(CommandSpec {
            name: command.name.clone()?,
            tree: command.tree.clone()?,
        })?;
    }
    Ok(Row::from(specs))
}

/// The hosts of a site.
pub(crate) fn host_specs(
    alloc: Global,
    known: Known<'_>,
    hosts: &[&Object],
) -> Result<Vec<CheckSpec>, OutOfMemory>
    ensures { IfOk result (λ r. map check_view r.items
        ≡ flat_map (λ o. option_to_list (host_check known.entry.commands.now known.entry.periods.now o)) (lent_view hosts.now)) }
{
    let mut specs = Vec::with_capacity(alloc, hosts.len())?;
    for host in hosts {
        push_some(&mut specs, host_spec(alloc, known, host)?)?;
    }
    Ok(specs)
}

/// The services of these hosts.
pub(crate) fn service_specs(
    alloc: Global,
    known: Known<'_>,
    hosts: &Names,
    services: &[&Object],
) -> Result<Vec<CheckSpec>, OutOfMemory>
    ensures { IfOk result (λ r. map check_view r.items
        ≡ flat_map (λ o. option_to_list (service_check known.entry.commands.now known.entry.periods.now hosts.now o)) (lent_view services.now)) }
{
    let mut specs = Vec::with_capacity(alloc, services.len())?;
    for service in services {
        push_some(&mut specs, service_spec(alloc, known, hosts, service)?)?;
    }
    Ok(specs)
}

fn push_some(out: &mut Vec<CheckSpec>, spec: Option<CheckSpec>) -> Result<(), OutOfMemory>
    ensures { OnOk result (map check_view out.new.items
        ≡ map check_view out.old.items ++ option_to_list (option_map check_view spec)) }
{
    if let Some(spec) = spec {
        out.push(spec)?;
    }
    Ok(())
}

/// A host, if its command is there.
fn host_spec(
    alloc: Global,
    known: Known<'_>,
    host: &Object,
) -> Result<Option<CheckSpec>, OutOfMemory>
    ensures { IfOk result (λ s. option_map check_view s
        ≡ host_check known.entry.commands.now known.entry.periods.now (object_view host.now)) }
{
    let kind = ObjectType::Host;
    match place_in(
        known.commands,
        attributes(kind, host),
        Attribute::CheckCommand,
    ) {
        Some(command) => Ok(Some(check_spec(alloc, known.periods, kind, host, None, command)?)),
        None => Ok(None),
    }
}

/// A service, if its host and its command are there and no host has its name.
fn service_spec(
    alloc: Global,
    known: Known<'_>,
    hosts: &Names,
    service: &Object,
) -> Result<Option<CheckSpec>, OutOfMemory>
    ensures { IfOk result (λ s. option_map check_view s
        ≡ service_check known.entry.commands.now known.entry.periods.now hosts.now (object_view service.now)) }
{
    let kind = ObjectType::Service;
    if hosts.find(service.name.as_str()).is_some() {
        return Ok(None);
    }
    let Some(host) = place_in(hosts, attributes(kind, service), Attribute::HostName) else {
        return Ok(None);
    };
    match place_in(
        known.commands,
        attributes(kind, service),
        Attribute::CheckCommand,
    ) {
        Some(command) => {
            Ok(Some(check_spec(alloc, known.periods, kind, service, Some(host), command)?))
        }
        None => Ok(None),
    }
}

fn attributes(kind: ObjectType, object: &Object) -> Attributes<'_>
    ensures kind { result.kind ≡ kind }
    ensures tree { result.tree.now ≡ arc_value object.now.tree }
{
    Attributes {
        kind,
        tree: &object.tree,
    }
}

/// How an object of a type is checked that has this host and this command.
fn check_spec(
    alloc: Global,
    periods: &Names,
    kind: ObjectType,
    object: &Object,
    host: Option<u32>,
    command: u32,
) -> Result<CheckSpec, OutOfMemory>
    ensures { IfOk result (λ s. check_view s ≡ check_made periods.now kind (object_view object.now) host command) }
{
    let set = attributes(kind, object);
    Ok(CheckSpec {
        name: object.name.clone()?,
        host,
        command,
        max: one_at_least(set.count(Attribute::MaxCheckAttempts)),
        check_secs: set.seconds(Attribute::CheckInterval),
        retry_secs: set.seconds(Attribute::RetryInterval),
        period: place_in(periods, set, Attribute::CheckPeriod),
        active: set.flag(Attribute::EnableActiveChecks),
        passive: set.flag(Attribute::EnablePassiveChecks),
        notify: set.flag(Attribute::EnableNotifications),
        volatile: set.flag(Attribute::Volatile),
        flapping: set.flag(Attribute::EnableFlapping),
        low: set.thousandths(Attribute::FlappingThresholdLow),
        high: set.thousandths(Attribute::FlappingThresholdHigh),
        tree: object.tree.clone()?,
    })
}

fn one_at_least(attempts: u32) -> u32
    ensures { result ≡ at_least_one attempts }
{
    if attempts == 0 { 1 } else { attempts }
}

/// Adds the names of these checkables, which are new.
pub(crate) fn add_names(names: &mut Names, specs: &[CheckSpec]) -> Result<(), OutOfMemory>
    requires few { length names.old + length specs.now < 2 ^ 32 - 1 }
    requires new { AllPairs (λ x y. x ≢ y) (names.old ++ map check_name (map check_view specs.now)) }
    ensures { OnOk result (names.new ≡ names.old ++ map check_name (map check_view specs.now)) }
{
    for spec in specs {
        add_name(names, &spec.name)?;
    }
    Ok(())
}
