// The duplicates among all objects.
ghost use Rattle.std.specs.Prelude.{[], ◌≡◌, ◌<◌, ◌++◌, ◌∷◌, All, map, length, IfOk, OnOk, IfSome, Some};
ghost use Rattle.site_base.specs.Quoted.{quoted};
ghost use Rattle.site_model.specs.PlainSite.{object_view};
ghost use Rattle.object_types.specs.Names.{type_named};
ghost use Rattle.conf_check.specs.Duplicates.{duplicate_faults, faults_at, first_under, own_faults, place_text, with_first};
ghost use Rattle.conf_check.specs.Keys.{keys_from, with_key};
ghost use Rattle.conf_check.specs.Ordering.{IsByNumber};

use crate::firsts::Firsts;
use crate::keys::Keys;
use crate::ordering::by_number;
use object_types::ObjectType;
use site_base::{Diag, DiagKind, Diags, OutOfMemory, Place, Row, Text, Texts, push_quoted};
use site_model::Object;
use std::alloc::Global;

/// The objects of a site that have the type and the full name of an earlier one: a `Duplicate` at each of them, with the
/// type, the quoted name and the place of the first that has both. The file of a place is its index in `files`.
///
/// The objects stand in the order in which they were made, and the diagnostics go by the items' numbers. An object of a
/// type that the schema doesn't have is none.
pub fn duplicates(alloc: Global, objects: &[Object], files: &Texts) -> Result<Diags, OutOfMemory>
    requires { All (λ o. o.place.file < length files.now) objects.now }
    ensures { IfOk result (IsByNumber (duplicate_faults files.now (map object_view objects.now))) }
{
    let looked = look_through(alloc, objects, files)?;
    by_number(looked.faults)
}

/// The duplicates among objects, in their order, and the keys of all objects.
#[derive(Drop)]
pub(crate) struct Looked {
    pub(crate) faults: Diags,
    pub(crate) keys: Keys,
}

/// Looks for duplicates among the objects of a site.
pub(crate) fn look_through(
    alloc: Global,
    objects: &[Object],
    files: &Texts,
) -> Result<Looked, OutOfMemory>
    requires { All (λ o. o.place.file < length files.now) objects.now }
    ensures faults { IfOk result (λ l. l.faults ≡ duplicate_faults files.now (map object_view objects.now)) }
    ensures keys { IfOk result (λ l. l.keys ≡ keys_from [] (map object_view objects.now)) }
{
    let mut faults = Row::new(alloc);
    let mut firsts = Firsts::with_capacity(alloc, objects.len())?;
    for object in objects {
        let kind = ObjectType::of_name(object.kind.as_str());
        push_object(alloc, &mut faults, files, &mut firsts, object, kind)?;
    }
    Ok(Looked {
        faults,
        keys: firsts.into_keys(),
    })
}

/// Adds the fault of an object of this type, if the objects before had one of its type and name.
fn push_object(
    alloc: Global,
    out: &mut Diags,
    files: &Texts,
    firsts: &mut Firsts,
    object: &Object,
    kind: Option<ObjectType>,
) -> Result<(), OutOfMemory>
    requires level { length firsts.old.places.items ≡ length firsts.old.keys }
    requires inside { All (λ p. p.file < length files.now) firsts.old.places.items }
    ensures told { OnOk result (out.new ≡ out.old
        ++ own_faults (first_under firsts.old.keys firsts.old.places.items) files.now (object_view object.now) kind) }
    ensures keys { OnOk result (firsts.new.keys ≡ with_key kind object.now.name firsts.old.keys) }
    ensures places { OnOk result (firsts.new.places.items
        ≡ with_first firsts.old.keys firsts.old.places.items kind object.now.name object.now.place) }
{
    match kind {
        Some(kind) => {
            let first = firsts.first(alloc, kind, object.name.as_str(), object.place)?;
            push_found(alloc, out, files, object, first)
        }
        None => Ok(()),
    }
}

/// Adds the fault of an object if there is an earlier one, which stands at this place.
fn push_found(
    alloc: Global,
    out: &mut Diags,
    files: &Texts,
    object: &Object,
    first: Option<Place>,
) -> Result<(), OutOfMemory>
    requires { IfSome first (λ p. p.file < length files.now) }
    ensures { OnOk result (out.new ≡ out.old ++ faults_at files.now (object_view object.now) first) }
{
    match first {
        Some(place) => push_fault(alloc, out, files, object, place),
        None => Ok(()),
    }
}

fn push_fault(
    alloc: Global,
    out: &mut Diags,
    files: &Texts,
    object: &Object,
    first: Place,
) -> Result<(), OutOfMemory>
    requires { first.file < length files.now }
    ensures { OnOk result (out.new ≡ out.old ++ faults_at files.now (object_view object.now) (Some first)) }
{
    let text = duplicate_text(alloc, object, files, first)?;
    out.push(Diag {
        number: object.number,
        place: object.place,
        kind: DiagKind::Duplicate,
        text,
    })
}

/// The type, the quoted name and the place of the first.
fn duplicate_text(
    alloc: Global,
    object: &Object,
    files: &Texts,
    first: Place,
) -> Result<Text, OutOfMemory>
    requires { first.file < length files.now }
    ensures { IfOk result (λ t. t
        ≡ object.now.kind ++ 32 ∷ (quoted object.now.name ++ 32 ∷ place_text files.now first)) }
{
    let mut text = Text::copy_of(alloc, object.kind.as_str())?;
    text.push(' ')?;
    push_quoted(&mut text, object.name.as_str())?;
    text.push(' ')?;
    push_place(&mut text, files, first)?;
    Ok(text)
}

/// Adds a place with the name of its file.
fn push_place(out: &mut Text, files: &Texts, place: Place) -> Result<(), OutOfMemory>
    requires { place.file < length files.now }
    ensures { OnOk result (out.new ≡ out.old ++ place_text files.now place) }
{
    out.push_str(files.as_slice()[place.file as usize].as_str())?;
    out.push(':')?;
    out.push_decimal(u64::from(place.line))?;
    out.push(':')?;
    out.push_decimal(u64::from(place.col))
}
