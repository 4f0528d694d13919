// What the attributes of an object name.
ghost use Rattle.std.specs.Prelude.{◌≡◌, ◌==◌, ◌++◌, ◌∷◌, [], length, IfOk, OnOk, if◌then◌else◌};
ghost use Rattle.site_base.specs.Quoted.{quoted};
ghost use Rattle.site_base.specs.View.{view, items_view, pairs_view};
ghost use Rattle.object_types.specs.Names.{attribute_name};
ghost use Rattle.object_types.specs.Schema.{row_named};
ghost use Rattle.conf_check.specs.Keys.{in_keys};
ghost use Rattle.conf_check.specs.References.{fault, name_faults, one_faults, element_faults, items_faults, list_faults};
ghost use Rattle.conf_check.specs.References.{service_faults, text_of, text_under, value_faults, attribute_faults, pairs_faults};

use crate::keys::Keys;
use crate::told::Told;
use object_types::{Attribute, ObjectType, SchemaRow, ValueKind};
use site_base::{Diag, DiagKind, ItemNo, OutOfMemory, Place, Text, Tree, push_quoted};
use std::alloc::Global;

/// The item of an object.
#[derive(Clone, Copy)]
pub(crate) struct Item {
    pub(crate) number: ItemNo,
    pub(crate) place: Place,
}

/// An attribute of an item, and the keys of all objects.
#[derive(Clone, Copy)]
struct Reference<'a> {
    keys: &'a Keys,
    item: Item,
    attribute: &'a str,
}

/// Adds what an object of a type names in its attributes and isn't there, in their order.
pub(crate) fn push_pairs(
    alloc: Global,
    out: &mut Told,
    keys: &Keys,
    item: Item,
    kind: ObjectType,
    pairs: &[(Text, Tree)],
) -> Result<(), OutOfMemory>
    ensures { OnOk result (out.new ≡ out.old
        ++ pairs_faults (in_keys keys.now) item kind (pairs_view pairs.now) (pairs_view pairs.now)) }
{
    for (name, value) in pairs {
        let reference = Reference {
            keys,
            item,
            attribute: name.as_str(),
        };
        reference.push_attribute(alloc, out, kind.row(name.as_str()), value, pairs)?;
    }
    Ok(())
}

/// The string of the attribute of this name; empty if there is none.
fn text_under<'a>(name: &str, pairs: &'a [(Text, Tree)]) -> &'a str
    ensures { result.now ≡ text_under name.now (pairs_view pairs.now) }
{
    for (key, value) in pairs {
        if key.as_str() == name {
            return text_of(value);
        }
    }
    ""
}

fn text_of(value: &Tree) -> &str
    ensures { result.now ≡ text_of (view value.now) }
{
    match value {
        Tree::Str(text) => text.as_str(),
        _ => "",
    }
}

impl Reference<'_> {
    /// Adds what the attribute names and isn't there, where the schema says this of it.
    fn push_attribute(
        &self,
        alloc: Global,
        out: &mut Told,
        row: Option<SchemaRow>,
        value: &Tree,
        pairs: &[(Text, Tree)],
    ) -> Result<(), OutOfMemory>
        ensures { OnOk result (out.new ≡ out.old ++ attribute_faults (in_keys self.now.keys.now) self.now.item
            self.now.attribute.now (pairs_view pairs.now) row (view value.now)) }
    {
        match row {
            Some(row) => self.push_value(alloc, out, row.kind, value, pairs),
            None => Ok(()),
        }
    }

    /// The same where the attribute's values are of this kind.
    fn push_value(
        &self,
        alloc: Global,
        out: &mut Told,
        kind: ValueKind,
        value: &Tree,
        pairs: &[(Text, Tree)],
    ) -> Result<(), OutOfMemory>
        ensures { OnOk result (out.new ≡ out.old ++ value_faults (in_keys self.now.keys.now) self.now.item
            self.now.attribute.now (pairs_view pairs.now) kind (view value.now)) }
    {
        match kind {
            ValueKind::Name(of) => self.push_one(alloc, out, of, value),
            ValueKind::Names(of) => self.push_list(alloc, out, of, value),
            ValueKind::Service(host) => {
                self.push_service(alloc, out, text_under(host.name(), pairs), value)
            }
            _ => Ok(()),
        }
    }

    /// One name of an object of a type.
    fn push_one(
        &self,
        alloc: Global,
        out: &mut Told,
        of: ObjectType,
        value: &Tree,
    ) -> Result<(), OutOfMemory>
        ensures { OnOk result (out.new ≡ out.old ++ one_faults (in_keys self.now.keys.now) self.now.item
            self.now.attribute.now of (view value.now)) }
    {
        match value {
            Tree::Str(name) => self.push_unless_empty(alloc, out, of, name),
            _ => Ok(()),
        }
    }

    fn push_unless_empty(
        &self,
        alloc: Global,
        out: &mut Told,
        of: ObjectType,
        name: &Text,
    ) -> Result<(), OutOfMemory>
        ensures { OnOk result (out.new ≡ out.old ++ (if length name.now == 0 then [] else
            name_faults (in_keys self.now.keys.now) self.now.item self.now.attribute.now of name.now)) }
    {
        if name.is_empty() {
            return Ok(());
        }
        self.push_name(alloc, out, of, name.as_str())
    }

    /// A list of names.
    fn push_list(
        &self,
        alloc: Global,
        out: &mut Told,
        of: ObjectType,
        value: &Tree,
    ) -> Result<(), OutOfMemory>
        ensures { OnOk result (out.new ≡ out.old ++ list_faults (in_keys self.now.keys.now) self.now.item
            self.now.attribute.now of (view value.now)) }
    {
        match value {
            Tree::List(items) => self.push_items(alloc, out, of, items),
            _ => Ok(()),
        }
    }

    fn push_items(
        &self,
        alloc: Global,
        out: &mut Told,
        of: ObjectType,
        items: &[Tree],
    ) -> Result<(), OutOfMemory>
        ensures { OnOk result (out.new ≡ out.old ++ items_faults (in_keys self.now.keys.now) self.now.item
            self.now.attribute.now of (items_view items.now)) }
    {
        for item in items {
            self.push_element(alloc, out, of, item)?;
        }
        Ok(())
    }

    fn push_element(
        &self,
        alloc: Global,
        out: &mut Told,
        of: ObjectType,
        value: &Tree,
    ) -> Result<(), OutOfMemory>
        ensures { OnOk result (out.new ≡ out.old ++ element_faults (in_keys self.now.keys.now) self.now.item
            self.now.attribute.now of (view value.now)) }
    {
        match value {
            Tree::Str(name) => self.push_name(alloc, out, of, name.as_str()),
            _ => Ok(()),
        }
    }

    /// The name of a service of a host.
    fn push_service(
        &self,
        alloc: Global,
        out: &mut Told,
        host: &str,
        value: &Tree,
    ) -> Result<(), OutOfMemory>
        ensures { OnOk result (out.new ≡ out.old ++ service_faults (in_keys self.now.keys.now) self.now.item
            self.now.attribute.now host.now (view value.now)) }
    {
        match value {
            Tree::Str(name) => self.push_service_name(alloc, out, host, name),
            _ => Ok(()),
        }
    }

    fn push_service_name(
        &self,
        alloc: Global,
        out: &mut Told,
        host: &str,
        name: &Text,
    ) -> Result<(), OutOfMemory>
        ensures { OnOk result (out.new ≡ out.old ++ (if length name.now == 0 then [] else
            name_faults (in_keys self.now.keys.now) self.now.item self.now.attribute.now
            ObjectType.Service (host.now ++ 33 ∷ name.now))) }
    {
        if name.is_empty() {
            return Ok(());
        }
        if out.knows_service(self.keys, host, name.as_str())? {
            return Ok(());
        }
        let mut full = Text::copy_of(alloc, host)?;
        full.push('!')?;
        full.push_str(name.as_str())?;
        self.push_missing(alloc, out, full.as_str())
    }

    /// A full name, which is told where no object of the type has it.
    fn push_name(
        &self,
        alloc: Global,
        out: &mut Told,
        of: ObjectType,
        name: &str,
    ) -> Result<(), OutOfMemory>
        ensures { OnOk result (out.new ≡ out.old ++ name_faults (in_keys self.now.keys.now) self.now.item
            self.now.attribute.now of name.now) }
    {
        if out.knows(self.keys, of, name)? {
            return Ok(());
        }
        self.push_missing(alloc, out, name)
    }

    /// A full name that no object has.
    fn push_missing(&self, alloc: Global, out: &mut Told, name: &str) -> Result<(), OutOfMemory>
        ensures { OnOk result (out.new ≡ out.old ++ fault self.now.item self.now.attribute.now name.now ∷ []) }
    {
        let text = missing_text(alloc, self.attribute, name)?;
        out.push(Diag {
            number: self.item.number,
            place: self.item.place,
            kind: DiagKind::NoReference,
            text,
        })
    }
}

/// The attribute and, behind a blank, the quoted name.
fn missing_text(alloc: Global, attribute: &str, name: &str) -> Result<Text, OutOfMemory>
    ensures { IfOk result (λ t. t ≡ attribute.now ++ 32 ∷ quoted name.now) }
{
    let mut text = Text::copy_of(alloc, attribute)?;
    text.push(' ')?;
    push_quoted(&mut text, name)?;
    Ok(text)
}
