// The check of an object's attributes.
ghost use Rattle.std.specs.Prelude.{◌≡◌, ◌++◌, [], ◌∷◌, ℕ, List, Some, Result, IfOk, OnOk};
ghost use Rattle.site_base.specs.View.{view, pairs_view};
ghost use Rattle.site_base.specs.declared.day_span.DaySpan.{DaySpan};
ghost use Rattle.time_range.specs.Ranges.{ranges_in, Gives};
ghost use Rattle.object_types.specs.Names.{type_named};
ghost use Rattle.object_types.specs.Schema.{row_named};
ghost use Rattle.object_types.specs.Checks.{fault, range_faults, inner_faults, kind_faults, unknown_faults, pair_faults};
ghost use Rattle.object_types.specs.Checks.{set_faults, sets, is_required, missing_faults, faults_of, object_faults};

use crate::{ObjectType, SchemaRow, Unset, ValueKind};
use site_base::{
    Diag, DiagKind, Diags, ItemNo, OutOfMemory, Place, Ranges, Row, Text, Tree, quote,
};
use std::alloc::Global;
use time_range::{RangeFault, read_ranges};

/// The item whose object is checked.
#[derive(Clone, Copy)]
pub(crate) struct Item {
    number: ItemNo,
    place: Place,
}

/// What is wrong with the attributes of an object, which are a dictionary, by the schema of its type. All of it is told
/// under the item's number and place.
///
/// First come the attributes that are set, in their order, which is that of bytes. `UnknownAttr` is one that the type
/// doesn't have, `AttrType` one whose value is of another kind, and `BadRange` a key of time ranges that is no day or
/// whose value is no list of spans: of each list of ranges the first. Then come, in the schema's order, the
/// attributes that the type needs and that aren't set, each as `MissingAttr`.
///
/// Null counts as not set, and so does the empty string where an attribute names other objects. Objects of inert
/// types have no faults. Nor has anything that is no object: a tree that is no dictionary, and one of a type that
/// the schema doesn't have.
pub fn check_object(
    alloc: Global,
    kind: &str,
    tree: &Tree,
    number: ItemNo,
    place: Place,
) -> Result<Diags, OutOfMemory>
    ensures { IfOk result (λ faults. faults
        ≡ object_faults (record { number = number; place = place }) (type_named kind.now) (view tree.now)) }
{
    let mut faults = Row::new(alloc);
    let item = Item { number, place };
    if let Some(kind) = ObjectType::of_name(kind) {
        push_object(alloc, &mut faults, item, kind, tree)?;
    }
    Ok(faults)
}

/// Adds what is wrong with an object of a type.
fn push_object(
    alloc: Global,
    out: &mut Diags,
    item: Item,
    kind: ObjectType,
    tree: &Tree,
) -> Result<(), OutOfMemory>
    ensures { OnOk result (out.new ≡ out.old ++ object_faults item (Some kind) (view tree.now)) }
{
    match tree {
        Tree::Dict(pairs) => push_faults(alloc, out, item, kind, pairs),
        _ => Ok(()),
    }
}

fn push_faults(
    alloc: Global,
    out: &mut Diags,
    item: Item,
    kind: ObjectType,
    pairs: &[(Text, Tree)],
) -> Result<(), OutOfMemory>
    ensures { OnOk result (out.new ≡ out.old ++ faults_of item kind (pairs_view pairs.now)) }
{
    if kind.is_inert() {
        return Ok(());
    }
    push_set_faults(alloc, out, item, kind, pairs)?;
    push_missing(alloc, out, item, kind.schema(), pairs)
}

/// Adds what is wrong with the attributes that stand there.
fn push_set_faults(
    alloc: Global,
    out: &mut Diags,
    item: Item,
    kind: ObjectType,
    pairs: &[(Text, Tree)],
) -> Result<(), OutOfMemory>
    ensures { OnOk result (out.new ≡ out.old ++ set_faults item kind (pairs_view pairs.now)) }
{
    for (name, value) in pairs {
        push_pair(
            alloc,
            out,
            item,
            name.as_str(),
            kind.row(name.as_str()),
            value,
        )?;
    }
    Ok(())
}

/// Adds what is wrong with one of them, of which the schema says this.
fn push_pair(
    alloc: Global,
    out: &mut Diags,
    item: Item,
    name: &str,
    row: Option<SchemaRow>,
    value: &Tree,
) -> Result<(), OutOfMemory>
    ensures { OnOk result (out.new ≡ out.old ++ pair_faults item name.now row (view value.now)) }
{
    match row {
        Some(row) if row.kind.is_unset(value) => Ok(()),
        Some(row) => push_value(alloc, out, item, name, row.kind, value),
        None => push_unknown(alloc, out, item, name, value),
    }
}

/// Adds what is wrong with an attribute that the type doesn't have.
fn push_unknown(
    alloc: Global,
    out: &mut Diags,
    item: Item,
    name: &str,
    value: &Tree,
) -> Result<(), OutOfMemory>
    ensures { OnOk result (out.new ≡ out.old ++ unknown_faults item name.now (view value.now)) }
{
    match value {
        Tree::Null => Ok(()),
        _ => push_fault(alloc, out, item, DiagKind::UnknownAttr, name),
    }
}

/// Adds what is wrong with the value of an attribute.
fn push_value(
    alloc: Global,
    out: &mut Diags,
    item: Item,
    name: &str,
    kind: ValueKind,
    value: &Tree,
) -> Result<(), OutOfMemory>
    ensures { OnOk result (out.new ≡ out.old ++ kind_faults item name.now kind (view value.now)) }
{
    if !kind.fits(value) {
        return push_fault(alloc, out, item, DiagKind::AttrType, name);
    }
    push_inner(alloc, out, item, kind, value)
}

/// Adds what is wrong inside a value of this kind.
fn push_inner(
    alloc: Global,
    out: &mut Diags,
    item: Item,
    kind: ValueKind,
    value: &Tree,
) -> Result<(), OutOfMemory>
    ensures { OnOk result (out.new ≡ out.old ++ inner_faults item kind (view value.now)) }
{
    match kind {
        ValueKind::Ranges => push_ranges(alloc, out, item, value),
        _ => Ok(()),
    }
}

/// Adds the first bad key of time ranges.
fn push_ranges(alloc: Global, out: &mut Diags, item: Item, value: &Tree) -> Result<(), OutOfMemory>
    ensures { OnOk result (out.new ≡ out.old ++ range_faults item (ranges_in (view value.now))) }
{
    match value {
        Tree::Dict(_) => push_range(alloc, out, item, read_ranges(alloc, value)),
        _ => Ok(()),
    }
}

/// Adds the key that reading time ranges refused.
fn push_range(
    alloc: Global,
    out: &mut Diags,
    item: Item,
    read: Result<Ranges, RangeFault>,
) -> Result<(), OutOfMemory>
    ensures { (ranges : Result (List DaySpan) (List ℕ)) → Gives read ranges
        → OnOk result (out.new ≡ out.old ++ range_faults item ranges) }
{
    match read {
        Ok(_) => Ok(()),
        Err(RangeFault::BadRange { key }) => {
            push_fault(alloc, out, item, DiagKind::BadRange, key.as_str())
        }
        Err(RangeFault::OutOfMemory) => Err(OutOfMemory),
    }
}

/// Adds each attribute of these rows that has to be set and isn't.
fn push_missing(
    alloc: Global,
    out: &mut Diags,
    item: Item,
    rows: &[SchemaRow],
    pairs: &[(Text, Tree)],
) -> Result<(), OutOfMemory>
    ensures { OnOk result (out.new ≡ out.old ++ missing_faults item rows.now (pairs_view pairs.now)) }
{
    for row in rows {
        if row.unset.is_fault() && !row.is_set(pairs) {
            push_fault(
                alloc,
                out,
                item,
                DiagKind::MissingAttr,
                row.attribute.name(),
            )?;
        }
    }
    Ok(())
}

impl Unset {
    /// Whether an object is refused that doesn't set the attribute.
    pub fn is_fault(self) -> bool
        ensures { result ≡ is_required self }
    {
        matches!(self, Unset::Missing)
    }
}

impl SchemaRow {
    /// Whether an object with these attributes sets the one of the row, to a value that doesn't count as not set.
    pub fn is_set(&self, pairs: &[(Text, Tree)]) -> bool
        ensures { result ≡ sets self.now (pairs_view pairs.now) }
    {
        for (name, value) in pairs {
            if name.as_str() == self.attribute.name() {
                return !self.kind.is_unset(value);
            }
        }
        false
    }
}

/// Adds a fault of an attribute or a key.
fn push_fault(
    alloc: Global,
    out: &mut Diags,
    item: Item,
    kind: DiagKind,
    name: &str,
) -> Result<(), OutOfMemory>
    ensures { OnOk result (out.new ≡ out.old ++ fault item kind name.now ∷ []) }
{
    let text = quote(alloc, name)?;
    out.push(Diag {
        number: item.number,
        place: item.place,
        kind,
        text,
    })
}
