// The site.
ghost use Rattle.std.specs.Prelude.{◌≡◌, map};
ghost use Rattle.site_model.specs.Names.{place_of, IsPlaceOf};
ghost use Rattle.site_model.specs.PlainSite.{check_view, full_names, plain_site, site_view};
ghost use Rattle.site_model.specs.Sound.{HasNames};

use crate::{CheckSpec, CommandSpec, DependSpec, Names, NotifySpec, Object, UserSpec};
use site_base::{Blob, PeriodSpec, Row, Texts, Tree};
use std::alloc::Global;

/// All that a configuration gives: its objects, and what a run needs of them as lists that name each
/// other's places. Clauses see it by `site_view`; of each site that a configuration gives `IsSound` holds.
#[derive(Drop)]
pub struct Site {
    /// The names of the files that the places speak of.
    pub files: Texts,
    /// All objects, in committed order.
    pub objects: Row<Object>,
    /// The hosts and then the services, each in committed order.
    pub checkables: Row<CheckSpec>,
    pub depends: Row<DependSpec>,
    pub notifies: Row<NotifySpec>,
    pub users: Row<UserSpec>,
    pub commands: Row<CommandSpec>,
    pub periods: Row<PeriodSpec>,
    /// The full names of the checkables, in their order.
    pub names: Names,
    /// The global `Vars`; `Null` without them.
    pub vars: Tree,
    /// The bytes of the time zone's file; `None` for UTC.
    pub zone: Option<Blob>,
    /// How many checks may be outstanding, from 1 to 65,535.
    pub max_orders: u32,
}

impl Site {
    /// A site of these checkables, of which these are the names, and of nothing else.
    pub fn plain(alloc: Global, checkables: Row<CheckSpec>, names: Names) -> Site
        ensures { site_view result ≡ plain_site (map check_view checkables) names }
    {
        Site {
            files: Row::new(alloc),
            objects: Row::new(alloc),
            checkables,
            depends: Row::new(alloc),
            notifies: Row::new(alloc),
            users: Row::new(alloc),
            commands: Row::new(alloc),
            periods: Row::new(alloc),
            names,
            vars: Tree::Null,
            zone: None,
            max_orders: 512,
        }
    }

    /// The place of the checkable with this full name; `None` if no checkable has it.
    pub fn find(&self, name: &str) -> Option<u32>
        ensures value { result ≡ place_of name.now self.now.names }
        ensures checkable { HasNames (site_view self.now) → IsPlaceOf name.now (full_names (site_view self.now)) result }
    {
        self.names.find(name)
    }
}
