// Users.
ghost use Rattle.std.specs.Prelude.{◌≡◌, map, IfOk};
ghost use Rattle.site_model.specs.PlainSite.{object_view};
ghost use Rattle.object_lists.specs.Listed.{lent_view};
ghost use Rattle.object_lists.specs.Users.{user_of};

use crate::listed::place_in;
use object_types::{Attribute, ObjectType};
use object_values::Attributes;
use site_base::{OutOfMemory, Row};
use site_model::{Names, Object, UserSpec};
use std::alloc::Global;

/// The users of a site, whose periods have these names.
pub fn user_specs(
    alloc: Global,
    periods: &Names,
    users: &[&Object],
) -> Result<Row<UserSpec>, OutOfMemory>
    ensures { IfOk result (λ r. r ≡ map (user_of periods.now) (lent_view users.now)) }
{
    let mut specs = Vec::with_capacity(alloc, users.len())?;
    for user in users {
        specs.push(user_spec(alloc, periods, user)?)?;
    }
    Ok(Row::from(specs))
}

fn user_spec(alloc: Global, periods: &Names, user: &Object) -> Result<UserSpec, OutOfMemory>
    ensures { IfOk result (λ u. u ≡ user_of periods.now (object_view user.now)) }
{
    let set = Attributes {
        kind: ObjectType::User,
        tree: &user.tree,
    };
    Ok(UserSpec {
        name: user.name.clone()?,
        enabled: set.flag(Attribute::EnableNotifications),
        period: place_in(periods, set, Attribute::Period),
        kinds: set.kinds(alloc, Attribute::Types)?,
        states: set.states(alloc, Attribute::States)?,
    })
}
