// The site whose things the lines name.
ghost use Rattle.std.specs.Prelude.{◌≡◌, ◌∷◌, [], codes, map, IfOk};
ghost use Rattle.site_model.specs.PlainSite.{check_view, site_view};
ghost use Rattle.log_text.specs.SiteNames.{HasAllNames};

use site_base::{OutOfMemory, Row, Text};
use site_model::{CheckSpec, DependSpec, Names, NotifySpec, Site, State, StateSet, UserSpec};
use std::alloc::Global;

/// A host and a service of it, a dependency, two notifications and two users.
pub(crate) fn site(alloc: Global) -> Result<Site, OutOfMemory>
    ensures { IfOk result (λ site. HasAllNames (site_view site)) }
{
    let depends = depends(alloc)?;
    let notifies = notifies(alloc)?;
    let users = users(alloc)?;
    let mut site = Site::plain(alloc, checkables(alloc)?, names(alloc)?);
    site.depends = depends;
    site.notifies = notifies;
    site.users = users;
    Ok(site)
}

fn names(alloc: Global) -> Result<Names, OutOfMemory>
    ensures { IfOk result (λ names. names ≡ codes "h" ∷ codes "h!s \"1\"" ∷ []) }
{
    let mut names = Names::new(alloc);
    names.add(Text::copy_of(alloc, "h")?)?;
    names.add(Text::copy_of(alloc, "h!s \"1\"")?)?;
    Ok(names)
}

fn checkables(alloc: Global) -> Result<Row<CheckSpec>, OutOfMemory>
    ensures { IfOk result (λ checkables.
        map (λ c. c.name) (map check_view checkables) ≡ codes "h" ∷ codes "h!s \"1\"" ∷ []) }
{
    let mut checkables = Row::new(alloc);
    checkables.push(CheckSpec::plain(alloc, Text::copy_of(alloc, "h")?, None)?)?;
    checkables.push(CheckSpec::plain(alloc, Text::copy_of(alloc, "h!s \"1\"")?, Some(0))?)?;
    Ok(checkables)
}

fn depends(alloc: Global) -> Result<Row<DependSpec>, OutOfMemory>
    ensures { IfOk result (λ depends. map (λ d. d.name) depends ≡ codes "h!s!d" ∷ []) }
{
    let mut depends = Row::new(alloc);
    depends.push(DependSpec {
        name: Text::copy_of(alloc, "h!s!d")?,
        child: 1,
        parent: 0,
        group: None,
        checks: false,
        notes: true,
        ignore_soft: true,
        states: StateSet::of(&[State::Up]),
        period: None,
    })?;
    Ok(depends)
}

fn notifies(alloc: Global) -> Result<Row<NotifySpec>, OutOfMemory>
    ensures { IfOk result (λ notifies. map (λ n. n.name) notifies ≡ codes "h!s!m" ∷ codes "h!s!sms" ∷ []) }
{
    let mut notifies = Row::new(alloc);
    notifies.push(notification(alloc, Text::copy_of(alloc, "h!s!m")?))?;
    notifies.push(notification(alloc, Text::copy_of(alloc, "h!s!sms")?))?;
    Ok(notifies)
}

fn notification(alloc: Global, name: Text) -> NotifySpec
    ensures { result.name ≡ name }
{
    NotifySpec {
        name,
        checkable: 1,
        users: Row::new(alloc),
        interval: 1800,
        begin: None,
        end: None,
        kinds: None,
        states: None,
        period: None,
    }
}

fn users(alloc: Global) -> Result<Row<UserSpec>, OutOfMemory>
    ensures { IfOk result (λ users. map (λ u. u.name) users ≡ codes "ann" ∷ codes "robert" ∷ []) }
{
    let mut users = Row::new(alloc);
    users.push(user(Text::copy_of(alloc, "ann")?))?;
    users.push(user(Text::copy_of(alloc, "robert")?))?;
    Ok(users)
}

fn user(name: Text) -> UserSpec
    ensures { result.name ≡ name }
{
    UserSpec {
        name,
        enabled: true,
        period: None,
        kinds: None,
        states: None,
    }
}
