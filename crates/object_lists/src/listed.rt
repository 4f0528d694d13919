// The objects of one type.
ghost use Rattle.std.specs.Prelude.{◌≡◌, ◌++◌, ◌<◌, ◌^◌, ◌-◌, length, map, IfOk, OnOk};
ghost use Rattle.site_base.specs.View.{view};
ghost use Rattle.site_model.specs.Names.{with_name};
ghost use Rattle.site_model.specs.PlainSite.{object_view};
ghost use Rattle.object_lists.specs.Listed.{added_by, lent_view, listed, listed_names, names_with, place_at, unless_taken};

use object_types::{Attribute, ObjectType};
use object_values::Attributes;
use site_base::{OutOfMemory, Text};
use site_model::{Names, Object};
use std::alloc::Global;

/// The objects of one type, of those with one name the first, and the names of these.
#[derive(Drop)]
pub struct Listed<'a> {
    /// The names of the objects, in their order.
    pub names: Names,
    /// The objects, in committed order.
    pub objects: Vec<&'a Object>,
}

/// Those of all objects that are of a type, in their order. There are fewer than 4,294,967,295 objects, so each name has a
/// place.
#[tactic(auto, unfolding(crate::specs::Listed::listed))]
pub fn all_of<'a>(
    alloc: Global,
    kind: ObjectType,
    objects: &'a [Object],
) -> Result<Listed<'a>, OutOfMemory>
    requires few { length objects.now < 2 ^ 32 - 1 }
    ensures names { IfOk result (λ l. l.names ≡ listed_names kind (map object_view objects.now)) }
    ensures objects { IfOk result (λ l. lent_view l.objects.items ≡ listed kind (map object_view objects.now)) }
{
    let mut list = Listed {
        names: Names::new(alloc),
        objects: Vec::new(alloc),
    };
    for object in objects {
        list.take(kind, object)?;
    }
    Ok(list)
}

impl<'a> Listed<'a> {
    /// Takes an object, if it is of a type.
    fn take(&mut self, kind: ObjectType, object: &'a Object) -> Result<(), OutOfMemory>
        requires { length self.old.names < 2 ^ 32 - 1 }
        ensures names { OnOk result (self.new.names ≡ names_with kind self.old.names (object_view object.now)) }
        ensures objects { OnOk result (lent_view self.new.objects.items
            ≡ lent_view self.old.objects.items ++ added_by kind self.old.names (object_view object.now)) }
    {
        if object.kind.as_str() == kind.name() {
            self.add(object)
        } else {
            Ok(())
        }
    }

    /// Adds an object, unless its name is taken.
    fn add(&mut self, object: &'a Object) -> Result<(), OutOfMemory>
        requires { length self.old.names < 2 ^ 32 - 1 }
        ensures names { OnOk result (self.new.names ≡ with_name object.now.name self.old.names) }
        ensures objects { OnOk result (lent_view self.new.objects.items
            ≡ lent_view self.old.objects.items ++ unless_taken self.old.names (object_view object.now)) }
    {
        if self.names.find(object.name.as_str()).is_some() {
            return Ok(());
        }
        add_name(&mut self.names, &object.name)?;
        self.objects.push(object)?;
        Ok(())
    }
}

/// Adds a name if it isn't there. Of fewer than 4,294,967,295 names each has a place, and one more has one too.
pub fn add_name(names: &mut Names, name: &Text) -> Result<(), OutOfMemory>
    requires { length names.old < 2 ^ 32 - 1 }
    ensures { OnOk result (names.new ≡ with_name name.now names.old) }
{
    names.add(name.clone()?)?;
    Ok(())
}

/// The place among these names of the object that an attribute names.
pub fn place_in(names: &Names, attributes: Attributes<'_>, attribute: Attribute) -> Option<u32>
    ensures { result ≡ place_at names.now attributes.entry.kind attribute (view attributes.entry.tree.now) }
{
    match attributes.text(attribute) {
        Some(name) => names.find(name),
        None => None,
    }
}
