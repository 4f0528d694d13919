// What an object sets under an attribute, and what holds where it doesn't.
ghost use Rattle.std.specs.Prelude.{◌≡◌, Some};
ghost use Rattle.std.specs.Option.{option_and_then};
ghost use Rattle.site_base.specs.View.{view, pairs_view};
ghost use Rattle.object_types.specs.Names.{attribute_name};
ghost use Rattle.object_types.specs.Schema.{row_named, row_among as first_row};
ghost use Rattle.object_values.specs.Attributes.{set_value, set_among as set_in, unset_of, value_under as value_in, if_set as set_if, value_view};

use object_types::{Attribute, ObjectType, SchemaRow, Unset};
use site_base::{Text, Tree};

/// The attributes of an object of a type.
#[derive(Clone, Copy)]
pub struct Attributes<'a> {
    pub kind: ObjectType,
    pub tree: &'a Tree,
}

impl<'a> Attributes<'a> {
    /// What the object sets, unless it counts as not set.
    #[tactic(auto, unfolding(crate::specs::Attributes::set_value))]
    pub fn set(&self, attribute: Attribute) -> Option<&'a Tree>
        ensures { value_view result ≡ set_value self.now.kind attribute (view self.now.tree.now) }
    {
        match self.tree {
            Tree::Dict(pairs) => set_among(self.kind, attribute, pairs),
            _ => None,
        }
    }

    /// What holds where the object doesn't set it.
    #[tactic(auto, unfolding(crate::specs::Attributes::unset_of))]
    pub(crate) fn unset(&self, attribute: Attribute) -> Unset
        ensures { result ≡ unset_of self.now.kind attribute }
    {
        match row_of(self.kind, attribute) {
            Some(row) => row.unset,
            None => Unset::Nothing,
        }
    }
}

/// What the schema says of an attribute of a type.
#[tactic(auto, unfolding(object_types::specs::Schema::row_named))]
fn row_of(kind: ObjectType, attribute: Attribute) -> Option<SchemaRow>
    ensures { result ≡ row_named kind (attribute_name attribute) }
{
    match row_among(kind.schema(), attribute) {
        Some(row) => Some(row),
        None => kind.row(attribute.name()),
    }
}

/// The first of these rows that is of an attribute. No two attributes have one name.
fn row_among(rows: &[SchemaRow], attribute: Attribute) -> Option<SchemaRow>
    ensures { result ≡ first_row rows.now (attribute_name attribute) }
{
    for row in rows {
        if row.attribute == attribute {
            return Some(*row);
        }
    }
    None
}

/// What pairs set under an attribute of a type. The schema is looked at only if they have a value.
fn set_among<'a>(
    kind: ObjectType,
    attribute: Attribute,
    pairs: &'a [(Text, Tree)],
) -> Option<&'a Tree>
    ensures { value_view result ≡ set_in (row_named kind (attribute_name attribute)) (attribute_name attribute) (pairs_view pairs.now) }
{
    match value_under(attribute.name(), pairs) {
        Some(value) => set_by(row_of(kind, attribute), value),
        None => None,
    }
}

/// A value under an attribute of which the schema says this, unless it counts as not set.
fn set_by(row: Option<SchemaRow>, value: &Tree) -> Option<&Tree>
    ensures { value_view result ≡ option_and_then (λ r. set_if r.kind (Some (view value.now))) row }
{
    match row {
        Some(row) if !row.kind.is_unset(value) => Some(value),
        _ => None,
    }
}

/// The value under a key; of equal keys the first counts.
pub(crate) fn value_under<'a>(name: &str, pairs: &'a [(Text, Tree)]) -> Option<&'a Tree>
    ensures { value_view result ≡ value_in name.now (pairs_view pairs.now) }
{
    for (key, value) in pairs {
        if key.as_str() == name {
            return Some(value);
        }
    }
    None
}
