// The names that lines name things by.
ghost use Rattle.std.specs.Prelude.{◌≡◌, ◌<◌, ◌^◌, length, map, IfOk};
ghost use Rattle.site_model.specs.PlainSite.{site_view};
ghost use Rattle.site_model.specs.Sound.{AreDistinct};
ghost use Rattle.log_text.specs.SiteNames.{names_of, names_view, HasAllNames};

use site_base::OutOfMemory;
use site_model::{DependSpec, Names, NotifySpec, Site, UserSpec};
use std::alloc::Global;

/// The names of a site, by which lines name its checkables, dependencies, notifications and users, with
/// the place of each. A look-up is by hash; one value serves all lines of a log.
#[derive(Drop)]
pub struct SiteNames<'a> {
    pub(crate) checkables: &'a Names,
    pub(crate) depends: Names,
    pub(crate) notifies: Names,
    pub(crate) users: Names,
}

impl<'a> SiteNames<'a> {
    /// The names of a site. The time is linear in their number.
    pub fn of(alloc: Global, site: &'a Site) -> Result<SiteNames<'a>, OutOfMemory>
        requires { HasAllNames (site_view site.now) }
        ensures { IfOk result (λ names. names_view names ≡ names_of (site_view site.now)) }
    {
        Ok(SiteNames {
            checkables: &site.names,
            depends: depend_names(alloc, site.depends.as_slice())?,
            notifies: notify_names(alloc, site.notifies.as_slice())?,
            users: user_names(alloc, site.users.as_slice())?,
        })
    }
}

fn depend_names(alloc: Global, depends: &[DependSpec]) -> Result<Names, OutOfMemory>
    requires distinct { AreDistinct (map (λ d. d.name) depends.now) }
    requires few { length depends.now < 2 ^ 32 }
    ensures { IfOk result (λ names. names ≡ map (λ d. d.name) depends.now) }
{
    let mut names = Names::new(alloc);
    for depend in depends {
        names.add(depend.name.clone()?)?;
    }
    Ok(names)
}

fn notify_names(alloc: Global, notifies: &[NotifySpec]) -> Result<Names, OutOfMemory>
    requires distinct { AreDistinct (map (λ n. n.name) notifies.now) }
    requires few { length notifies.now < 2 ^ 32 }
    ensures { IfOk result (λ names. names ≡ map (λ n. n.name) notifies.now) }
{
    let mut names = Names::new(alloc);
    for notify in notifies {
        names.add(notify.name.clone()?)?;
    }
    Ok(names)
}

fn user_names(alloc: Global, users: &[UserSpec]) -> Result<Names, OutOfMemory>
    requires distinct { AreDistinct (map (λ u. u.name) users.now) }
    requires few { length users.now < 2 ^ 32 }
    ensures { IfOk result (λ names. names ≡ map (λ u. u.name) users.now) }
{
    let mut names = Names::new(alloc);
    for user in users {
        names.add(user.name.clone()?)?;
    }
    Ok(names)
}
