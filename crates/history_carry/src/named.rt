// Things that are found by their names.
ghost use Rattle.std.specs.Prelude.{◌≡◌, ◌<◌, ◌^◌, List, ℕ, IfOk, length, map};
ghost use Rattle.site_model.specs.Sound.{AreDistinct};
ghost use Rattle.history_carry.specs.Moves.{places_among};

use site_base::{OutOfMemory, Row, Text};
use site_model::{CheckSpec, DependSpec, Names, NotifySpec, UserSpec};
use std::alloc::Global;

/// A thing of a site that no other of its kind shares its name with.
pub(crate) trait Named {
    ghost name_of: { Self → List ℕ };

    fn name(&self) -> &Text
        ensures { result.now ≡ name_of self.now };
}

impl Named for CheckSpec {
    ghost name_of = { λ c. c.name };

    fn name(&self) -> &Text {
        &self.name
    }
}

impl Named for DependSpec {
    ghost name_of = { λ d. d.name };

    fn name(&self) -> &Text {
        &self.name
    }
}

impl Named for NotifySpec {
    ghost name_of = { λ n. n.name };

    fn name(&self) -> &Text {
        &self.name
    }
}

impl Named for UserSpec {
    ghost name_of = { λ u. u.name };

    fn name(&self) -> &Text {
        &self.name
    }
}

/// The names of things, each with its place.
pub(crate) fn names_of<T: Named>(alloc: Global, things: &[T]) -> Result<Names, OutOfMemory>
    requires distinct { AreDistinct (map T.name_of things.now) }
    requires few { length things.now < 2 ^ 32 }
    ensures { IfOk result (λ names. names ≡ map T.name_of things.now) }
{
    let mut names = Names::new(alloc);
    for thing in things {
        names.add(thing.name().clone()?)?;
    }
    Ok(names)
}

/// For each thing the place of its name; `None` if the name isn't there.
pub(crate) fn places<T: Named>(
    alloc: Global,
    things: &[T],
    names: &Names,
) -> Result<Row<Option<u32>>, OutOfMemory>
    ensures { IfOk result (λ places. places ≡ places_among (map T.name_of things.now) names.now) }
{
    let mut places = Vec::with_capacity(alloc, things.len())?;
    for thing in things {
        places.push(names.find(thing.name().as_str()))?;
    }
    Ok(Row::from(places))
}
