// The order of arguments.
ghost use Rattle.std.specs.Prelude.{◌≡◌, [], Some, IfOk};
ghost use Rattle.site_base.specs.View.{view, pairs_view};
ghost use Rattle.command_macros.specs.Orders.{order_in as order_found, order_of as order_set};
ghost use Rattle.command_macros.specs.Sorted.{places_from};

use crate::lookups::{pairs_in, value_at};
use site_base::{OutOfMemory, Text, Tree};
use std::alloc::Global;
use std::collections::BTreeMap;

/// The places of arguments, by their `order` in thousandths and then as they stand.
pub(crate) type Places = BTreeMap<(i64, usize), ()>;

/// The places of the arguments of a command in the order in which they are given.
pub(crate) fn in_order(alloc: Global, arguments: &[(Text, Tree)]) -> Result<Places, OutOfMemory>
    ensures { IfOk result (λ m. m.entries ≡ places_from (pairs_view arguments.now) 0 []) }
{
    let mut places = BTreeMap::new(alloc);
    for (place, pair) in arguments.iter().enumerate() {
        places.insert((order_of(&pair.1), place), ())?;
    }
    Ok(places)
}

/// The `order` that an argument sets, or else 0.
fn order_of(argument: &Tree) -> i64
    ensures { result ≡ order_set (view argument.now) }
{
    match value_at(pairs_in(argument), "order") {
        None => 0,
        Some(value) => order_in(value),
    }
}

#[tactic(auto, using(crate::proofs::TreeViews::view_null, crate::proofs::TreeViews::view_bool, crate::proofs::TreeViews::view_number, crate::proofs::TreeViews::view_str, crate::proofs::TreeViews::view_list, crate::proofs::TreeViews::view_dict))]
fn order_in(value: &Tree) -> i64
    ensures { result ≡ order_found (Some (view value.now)) }
{
    match value {
        Tree::Number(order) => order.thousandths(),
        Tree::Null | Tree::Bool(_) | Tree::Str(_) | Tree::List(_) | Tree::Dict(_) => 0,
    }
}
