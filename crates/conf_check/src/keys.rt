// Which objects there are, by type and full name.
ghost use Rattle.std.specs.Prelude.{◌≡◌, ◌++◌, [], map, IfOk, OnOk, Some, string_bytes};
ghost use Rattle.std.specs.List.{list_any};
ghost use Rattle.std.specs.Str.{bytes_eq};
ghost use Rattle.site_model.specs.Names.{place_of, with_name};
ghost use Rattle.site_model.specs.PlainSite.{object_view};
ghost use Rattle.conf_check.specs.Keys.{key_of, keys_from};

use indexmap::IndexSet;
use object_types::ObjectType;
use site_base::OutOfMemory;
use site_model::Object;
use std::alloc::Global;
use std::marker::Model;

/// Distinct keys of objects, each with its place. Clauses see them as the list of the keys in order.
#[derive(Drop)]
pub(crate) struct Keys {
    set: IndexSet<String>,
}

impl Model for Keys {
    ghost use Rattle.std.specs.Prelude.{List, ℕ, map, string_bytes};

    ghost Value = { List (List ℕ) };

    ghost view = { λ k. map string_bytes k.set.keys };
}

impl Keys {
    /// No keys, with room for so many.
    pub(crate) fn with_capacity(alloc: Global, count: usize) -> Result<Keys, OutOfMemory>
        ensures { IfOk result (λ keys. keys ≡ []) }
    {
        Ok(Keys {
            set: IndexSet::with_capacity(alloc, count)?,
        })
    }

    /// The place of a key, which is added at the end where it isn't there.
    pub(crate) fn add(&mut self, key: String) -> Result<usize, OutOfMemory>
        ensures place { IfOk result (λ k. place_of (string_bytes key) self.new ≡ Some k) }
        ensures keys { OnOk result (self.new ≡ with_name (string_bytes key) self.old) }
    {
        let (place, _) = self.set.insert_full(key)?;
        Ok(place)
    }

    /// Whether a key is there.
    pub(crate) fn has(&self, key: &str) -> bool
        ensures { result ≡ list_any (bytes_eq key.now) self.now }
    {
        self.set.get_index_of(key).is_some()
    }
}

/// Adds the key of an object behind what stands there: the type's name and the full name, which no type's name can be mistaken for
/// part of, since `!` stands between.
pub(crate) fn push_key(out: &mut String, kind: ObjectType, name: &str) -> Result<(), OutOfMemory>
    ensures { OnOk result (string_bytes out.new ≡ string_bytes out.old ++ key_of kind name.now) }
{
    out.push_str(kind.name())?;
    out.push('!')?;
    out.push_str(name)?;
    Ok(())
}

/// The key of an object, in a string of its own.
pub(crate) fn key_of(alloc: Global, kind: ObjectType, name: &str) -> Result<String, OutOfMemory>
    ensures { IfOk result (λ key. string_bytes key ≡ key_of kind name.now) }
{
    let length = kind
        .name()
        .len()
        .saturating_add(1)
        .saturating_add(name.len());
    let mut key = String::with_capacity(alloc, length)?;
    push_key(&mut key, kind, name)?;
    Ok(key)
}

/// The keys of objects. An object of a type that the schema doesn't have gets none, since nothing can name it.
pub(crate) fn keys_of(alloc: Global, objects: &[Object]) -> Result<Keys, OutOfMemory>
    ensures { IfOk result (λ keys. keys ≡ keys_from [] (map object_view objects.now)) }
{
    let mut keys = Keys::with_capacity(alloc, objects.len())?;
    for object in objects {
        if let Some(kind) = ObjectType::of_name(object.kind.as_str()) {
            keys.add(key_of(alloc, kind, object.name.as_str())?)?;
        }
    }
    Ok(keys)
}
