// The typed site.
ghost use Rattle.std.specs.Prelude.{◌≡◌, ◌≤◌, ◌<◌, ◌^◌, ◌-◌, All, map, length, IfOk};
ghost use Rattle.site_model.specs.PlainSite.{check_view, command_view, object_view, site_view};
ghost use Rattle.site_model.specs.Sound.{IsSound};
ghost use Rattle.object_types.specs.declared.object_type.ObjectType.TheVariants as object;
ghost use Rattle.object_lists.specs.Listed.{listed_names};
ghost use Rattle.object_lists.specs.Periods.{periods};
ghost use Rattle.object_lists.specs.Users.{users};
ghost use Rattle.typed_site.specs.Checks.{check_name, checkables, checkables as checkables_in, commands, hosts as hosts_in};
ghost use Rattle.typed_site.specs.Depends.{depends};
ghost use Rattle.typed_site.specs.Notifies.{notifies};
ghost use Rattle.typed_site.specs.TypedSite.{settings_view, typed_site as site_of};

use crate::Settings;
use crate::checks::{Known, add_names, command_specs, host_specs, service_specs};
use crate::depends::depend_specs;
use crate::notifies::{Told, notify_specs};
use object_lists::{all_of, members_of, period_specs, user_specs};
use object_types::ObjectType;
use site_base::{OutOfMemory, PeriodSpec, Row, Texts};
use site_model::{CheckSpec, CommandSpec, DependSpec, Names, NotifySpec, Object, Site, UserSpec};
use std::alloc::Global;

/// The commands and periods of a site, with their names.
#[derive(Drop)]
struct Bases {
    commands: Row<CommandSpec>,
    command_names: Names,
    periods: Row<PeriodSpec>,
    period_names: Names,
}

/// The checkables of a site, with their names.
#[derive(Drop)]
struct Checks {
    specs: Vec<CheckSpec>,
    names: Names,
}

/// The users, notifications and dependencies of a site.
#[derive(Drop)]
struct Around {
    users: Row<UserSpec>,
    notifies: Row<NotifySpec>,
    depends: Row<DependSpec>,
}

/// The site of all objects of a configuration, which stand in committed order and in these files.
///
/// Each name in an object stands for the place of the object that it names. What a name stands for that is no object's is
/// left out, and so is each object but the first of one type and name; after `duplicates` and `references` (conf_check) told
/// nothing, that is none. There are fewer than 4,294,967,294 objects, so that each has a place. The time is linear in the objects, the
/// names in them and the members of the groups in them.
pub fn typed_site(
    alloc: Global,
    files: Texts,
    objects: Row<Object>,
    settings: Settings,
) -> Result<Site, OutOfMemory>
    requires placed { All (λ o. o.place.file < length files) objects }
    requires few { length objects < 2 ^ 32 - 2 }
    requires some_order { 1 ≤ settings.max_orders }
    requires most_orders { settings.max_orders ≤ 65535 }
    ensures value { IfOk result (λ s. site_view s ≡ site_of files (settings_view settings) (map object_view objects)) }
    ensures sound { IfOk result (λ s. IsSound (site_view s)) }
    ensures few { IfOk result (λ s. length (site_view s).checkables < 2 ^ 32 - 1) }
{
    let bases = bases_of(alloc, objects.as_slice())?;
    let checks = checks_of(alloc, &bases, objects.as_slice())?;
    let around = around_of(
        alloc,
        &bases.period_names,
        &checks.names,
        objects.as_slice(),
    )?;
    Ok(Site {
        files,
        objects,
        checkables: Row::from(checks.specs),
        depends: around.depends,
        notifies: around.notifies,
        users: around.users,
        commands: bases.commands,
        periods: bases.periods,
        names: checks.names,
        vars: settings.vars,
        zone: settings.zone,
        max_orders: settings.max_orders,
    })
}

#[tactic(auto, unfolding(crate::specs::Checks::commands, object_lists::specs::Periods::periods))]
fn bases_of(alloc: Global, objects: &[Object]) -> Result<Bases, OutOfMemory>
    requires few { length objects.now < 2 ^ 32 - 2 }
    ensures commands { IfOk result (λ b. map command_view b.commands ≡ commands (map object_view objects.now)) }
    ensures command_names { IfOk result (λ b. b.command_names ≡ listed_names object.CheckCommand (map object_view objects.now)) }
    ensures periods { IfOk result (λ b. b.periods ≡ periods (map object_view objects.now)) }
    ensures period_names { IfOk result (λ b. b.period_names ≡ listed_names object.TimePeriod (map object_view objects.now)) }
{
    let commands = all_of(alloc, ObjectType::CheckCommand, objects)?;
    let periods = all_of(alloc, ObjectType::TimePeriod, objects)?;
    Ok(Bases {
        commands: command_specs(alloc, &commands.objects)?,
        periods: period_specs(alloc, &periods)?,
        command_names: commands.names,
        period_names: periods.names,
    })
}

/// The hosts and then the services.
#[tactic(auto, unfolding(crate::specs::Checks::checkables))]
fn checks_of(alloc: Global, bases: &Bases, objects: &[Object]) -> Result<Checks, OutOfMemory>
    requires few { length objects.now < 2 ^ 32 - 2 }
    requires command_names { bases.now.command_names ≡ listed_names object.CheckCommand (map object_view objects.now) }
    requires period_names { bases.now.period_names ≡ listed_names object.TimePeriod (map object_view objects.now) }
    ensures specs { IfOk result (λ c. map check_view c.specs.items ≡ checkables (map object_view objects.now)) }
    ensures names { IfOk result (λ c. c.names ≡ map check_name (checkables (map object_view objects.now))) }
{
    let known = Known {
        commands: &bases.command_names,
        periods: &bases.period_names,
    };
    let hosts = hosts_of(alloc, known, objects)?;
    with_services(alloc, known, hosts, objects)
}

#[tactic(auto, unfolding(crate::specs::Checks::hosts))]
fn hosts_of(alloc: Global, known: Known<'_>, objects: &[Object]) -> Result<Checks, OutOfMemory>
    requires few { length objects.now < 2 ^ 32 - 2 }
    requires command_names { known.commands.now ≡ listed_names object.CheckCommand (map object_view objects.now) }
    requires period_names { known.periods.now ≡ listed_names object.TimePeriod (map object_view objects.now) }
    ensures specs { IfOk result (λ c. map check_view c.specs.items ≡ hosts_in (map object_view objects.now)) }
    ensures names { IfOk result (λ c. c.names ≡ map check_name (hosts_in (map object_view objects.now))) }
{
    let listed = all_of(alloc, ObjectType::Host, objects)?;
    let specs = host_specs(alloc, known, &listed.objects)?;
    let mut names = Names::new(alloc);
    add_names(&mut names, &specs)?;
    Ok(Checks { specs, names })
}

/// The hosts and then their services.
#[tactic(auto, unfolding(crate::specs::Checks::services, crate::specs::Checks::checkables))]
fn with_services(
    alloc: Global,
    known: Known<'_>,
    hosts: Checks,
    objects: &[Object],
) -> Result<Checks, OutOfMemory>
    requires few { length objects.now < 2 ^ 32 - 2 }
    requires command_names { known.commands.now ≡ listed_names object.CheckCommand (map object_view objects.now) }
    requires period_names { known.periods.now ≡ listed_names object.TimePeriod (map object_view objects.now) }
    requires specs { map check_view hosts.specs.items ≡ hosts_in (map object_view objects.now) }
    requires names { hosts.names ≡ map check_name (hosts_in (map object_view objects.now)) }
    ensures specs { IfOk result (λ c. map check_view c.specs.items ≡ checkables (map object_view objects.now)) }
    ensures names { IfOk result (λ c. c.names ≡ map check_name (checkables (map object_view objects.now))) }
{
    let Checks {
        mut specs,
        mut names,
    } = hosts;
    let listed = all_of(alloc, ObjectType::Service, objects)?;
    let mut services = service_specs(alloc, known, &names, &listed.objects)?;
    add_names(&mut names, &services)?;
    specs.reserve_exact(services.len())?;
    specs.append(&mut services)?;
    Ok(Checks { specs, names })
}

/// The users, notifications and dependencies.
#[tactic(auto, unfolding(object_lists::specs::Users::users, object_lists::specs::Users::memberships, crate::specs::Notifies::notifies, crate::specs::Depends::depends))]
fn around_of(
    alloc: Global,
    periods: &Names,
    checkables: &Names,
    objects: &[Object],
) -> Result<Around, OutOfMemory>
    requires few { length objects.now < 2 ^ 32 - 2 }
    requires periods { periods.now ≡ listed_names object.TimePeriod (map object_view objects.now) }
    requires checkables { checkables.now ≡ map check_name (checkables_in (map object_view objects.now)) }
    ensures users { IfOk result (λ a. a.users ≡ users (map object_view objects.now)) }
    ensures notifies { IfOk result (λ a. a.notifies ≡ notifies (map object_view objects.now)) }
    ensures depends { IfOk result (λ a. a.depends ≡ depends (map object_view objects.now)) }
{
    let users = all_of(alloc, ObjectType::User, objects)?;
    let groups = members_of(alloc, &users.objects)?;
    let known = Told {
        periods,
        checkables,
        users: &users.names,
        groups: &groups,
    };
    let notifies = all_of(alloc, ObjectType::Notification, objects)?;
    let depends = all_of(alloc, ObjectType::Dependency, objects)?;
    Ok(Around {
        users: user_specs(alloc, periods, &users.objects)?,
        notifies: notify_specs(alloc, known, &notifies.objects)?,
        depends: depend_specs(alloc, periods, checkables, &depends.objects)?,
    })
}
