// Where the things of one site stand in another one.
ghost use Rattle.std.specs.Prelude.{◌≡◌, ◌<◌, ◌^◌, IfOk, length, map};
ghost use Rattle.site_model.specs.PlainSite.{site_view};
ghost use Rattle.site_model.specs.Sound.{AreDistinct, IsSound};
ghost use Rattle.history_carry.specs.Moves.{moved as moved_by, moves_between, places_among};

use crate::named::{Named, names_of, places};
use site_base::{OutOfMemory, Row};
use site_model::Site;
use std::alloc::Global;

/// For each thing of one site, by its place, the place of the thing of that name in another site; `None` if that has none.
#[derive(Drop)]
pub(crate) struct Moves {
    pub(crate) checkables: Row<Option<u32>>,
    pub(crate) depends: Row<Option<u32>>,
    pub(crate) notifies: Row<Option<u32>>,
    pub(crate) users: Row<Option<u32>>,
}

impl Moves {
    /// From one site to another. Each name is looked up once, by its hash.
    ///
    /// # Errors
    ///
    /// `OutOfMemory` if there is too little memory for the names of the other site, or for four places of each thing.
    pub(crate) fn between(alloc: Global, site: &Site, other: &Site) -> Result<Moves, OutOfMemory>
        requires { IsSound (site_view other.now) }
        ensures { IfOk result (λ m. m ≡ moves_between (site_view site.now) (site_view other.now)) }
    {
        Ok(Moves {
            checkables: places(alloc, site.checkables.as_slice(), &other.names)?,
            depends: found(alloc, site.depends.as_slice(), other.depends.as_slice())?,
            notifies: found(alloc, site.notifies.as_slice(), other.notifies.as_slice())?,
            users: found(alloc, site.users.as_slice(), other.users.as_slice())?,
        })
    }
}

/// For each thing its place among others.
fn found<T: Named>(
    alloc: Global,
    things: &[T],
    others: &[T],
) -> Result<Row<Option<u32>>, OutOfMemory>
    requires distinct { AreDistinct (map T.name_of others.now) }
    requires few { length others.now < 2 ^ 32 }
    ensures { IfOk result (λ places. places ≡ places_among (map T.name_of things.now) (map T.name_of others.now)) }
{
    let names = names_of(alloc, others)?;
    places(alloc, things, &names)
}

/// The new place of what had this one.
pub(crate) fn moved(places: &[Option<u32>], place: u32) -> Option<u32>
    ensures { result ≡ moved_by places.now place }
{
    match places.get(place as usize) {
        Some(place) => *place,
        None => None,
    }
}
