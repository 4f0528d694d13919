// Which objects were first of their type and full name.
ghost use Rattle.std.specs.Prelude.{◌≡◌, ◌<◌, [], All, IfOk, OnOk, IfSome, length};
ghost use Rattle.object_types.specs.Names.{type_named};
ghost use Rattle.site_base.specs.declared.place.Place.{Place};
ghost use Rattle.site_model.specs.Names.{with_name};
ghost use Rattle.conf_check.specs.Duplicates.{place_under, with_place};
ghost use Rattle.conf_check.specs.Keys.{key_of};

use crate::keys::{Keys, key_of};
use object_types::ObjectType;
use site_base::{OutOfMemory, Place};
use std::alloc::Global;

/// The keys of objects, each with the place of the first one that has it.
#[derive(Drop)]
pub(crate) struct Firsts {
    keys: Keys,
    places: Vec<Place>,
}

impl Firsts {
    /// No objects, with room for so many.
    pub(crate) fn with_capacity(alloc: Global, count: usize) -> Result<Firsts, OutOfMemory>
        ensures keys { IfOk result (λ f. f.keys ≡ []) }
        ensures places { IfOk result (λ f. f.places.items ≡ []) }
    {
        Ok(Firsts {
            keys: Keys::with_capacity(alloc, count)?,
            places: Vec::with_capacity(alloc, count)?,
        })
    }

    /// The place of the first object of this type and full name. If there was none it is the one at this place, and the
    /// answer is `None`.
    pub(crate) fn first(
        &mut self,
        alloc: Global,
        kind: ObjectType,
        name: &str,
        place: Place,
    ) -> Result<Option<Place>, OutOfMemory>
        requires { length self.old.places.items ≡ length self.old.keys }
        ensures first { IfOk result (λ first. first
            ≡ place_under self.old.keys self.old.places.items (key_of kind name.now)) }
        ensures keys { OnOk result (self.new.keys ≡ with_name (key_of kind name.now) self.old.keys) }
        ensures places { OnOk result (self.new.places.items
            ≡ with_place self.old.keys self.old.places.items (key_of kind name.now) place) }
    {
        let key = key_of(alloc, kind, name)?;
        let at = self.keys.add(key)?;
        if at < self.places.len() {
            return Ok(Some(self.places[at]));
        }
        self.places.push(place)?;
        Ok(None)
    }

    /// The keys alone.
    pub(crate) fn into_keys(self) -> Keys
        ensures { result ≡ self.keys }
    {
        self.keys
    }
}
