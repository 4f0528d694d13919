// Where a name stands in the schema.
ghost use Rattle.std.specs.Prelude.{◌≡◌};
ghost use Rattle.object_types.specs.Schema.{row_named, row_among as first_row};

use crate::schema::COMMON;
use crate::{ObjectType, SchemaRow};

impl ObjectType {
    /// What the schema says of the attribute of this name, be it the type's own or every object's; `None` if objects
    /// of the type don't have it. An inert type has only those that every object has, and says nothing of others.
    #[tactic(auto, unfolding(crate::specs::Schema::row_named))]
    pub fn row(self, name: &str) -> Option<SchemaRow>
        ensures { result ≡ row_named self name.now }
    {
        match row_among(self.schema(), name) {
            Some(row) => Some(row),
            None => row_among(&COMMON, name),
        }
    }
}

/// The first of these rows that is of the attribute of this name.
fn row_among(rows: &[SchemaRow], name: &str) -> Option<SchemaRow>
    ensures { result ≡ first_row rows.now name.now }
{
    for row in rows {
        if name == row.attribute.name() {
            return Some(*row);
        }
    }
    None
}
