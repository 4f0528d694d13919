// Which arguments `set_if` keeps.
ghost use Rattle.std.specs.Prelude.{◌≡◌, [], IfOk};
ghost use Rattle.site_base.specs.View.{view};
ghost use Rattle.command_macros.specs.Macros.{own_made};
ghost use Rattle.command_macros.specs.Returns.{tree_found};
ghost use Rattle.command_macros.specs.Scopes.{scope_view};
ghost use Rattle.command_macros.specs.Truth.{is_kept as kept, is_true_value as true_value, is_true_made, is_true_text as true_text, is_signed_amount as signed_amount, is_other_than_zero as not_zero, amount_read};
ghost use Rattle.command_macros.specs.Made.{made};
ghost use Rattle.command_macros.specs.Values.{value_made};

use crate::scope::Scope;
use crate::stop::Stop;
use crate::texts::{DEPTHS, push_value};
use site_base::{Num, OutOfMemory, Text, Tree};
use std::alloc::Global;

/// Whether an argument with this `set_if` is kept.
pub(crate) fn is_kept<'a>(
    alloc: Global,
    scope: &Scope<'a>,
    condition: Option<&'a Tree>,
) -> Result<bool, OutOfMemory>
    ensures { IfOk result (λ b. b ≡ kept (own_made (scope_view scope.now)) (tree_found condition.entry)) }
{
    match condition {
        None => Ok(true),
        Some(value) => is_true_value(alloc, scope, value),
    }
}

/// Whether a value resolves to true, a number other than 0, or a text of one.
#[tactic(auto, using(crate::proofs::TreeViews::view_null, crate::proofs::TreeViews::view_bool, crate::proofs::TreeViews::view_number, crate::proofs::TreeViews::view_str, crate::proofs::TreeViews::view_list, crate::proofs::TreeViews::view_dict))]
fn is_true_value<'a>(alloc: Global, scope: &Scope<'a>, value: &'a Tree) -> Result<bool, OutOfMemory>
    ensures { IfOk result (λ b. b ≡ true_value (own_made (scope_view scope.now)) (view value.now)) }
{
    match value {
        Tree::Null | Tree::Dict(_) => Ok(false),
        Tree::Bool(value) => Ok(*value),
        Tree::Number(number) => Ok(number.thousandths() != 0),
        Tree::Str(_) | Tree::List(_) => becomes_true(alloc, scope, value),
    }
}

/// Whether a value becomes a text of true or of a number other than 0.
fn becomes_true<'a>(alloc: Global, scope: &Scope<'a>, value: &'a Tree) -> Result<bool, OutOfMemory>
    ensures { IfOk result (λ b. b ≡ is_true_made (value_made (own_made (scope_view scope.now)) (made []) (view value.now))) }
{
    let mut text = Text::new(alloc);
    match push_value(alloc, &mut text, scope, DEPTHS, None, value) {
        Ok(()) => Ok(is_true_text(text.as_str())),
        Err(Stop::Missing(_)) => Ok(false),
        Err(Stop::Memory) => Err(OutOfMemory),
    }
}

fn is_true_text(text: &str) -> bool
    ensures { result ≡ true_text text.now }
{
    text == "true" || is_signed_amount(text)
}

/// Whether a text is a number other than 0, with a `-` before it or none.
fn is_signed_amount(text: &str) -> bool
    ensures { result ≡ signed_amount text.now }
{
    match text.strip_prefix('-') {
        Some(rest) => is_other_than_zero(read_amount(rest)),
        None => is_other_than_zero(read_amount(text)),
    }
}

fn is_other_than_zero(amount: Option<Num>) -> bool
    ensures { result ≡ not_zero amount }
{
    match amount {
        None => false,
        Some(number) => number.thousandths() != 0,
    }
}

/// The number that a text without a unit, which ends in a digit, stands for.
fn read_amount(text: &str) -> Option<Num>
    ensures { result ≡ amount_read text.now }
{
    match text.as_bytes().last() {
        Some(b) if b.is_ascii_digit() => Num::read(text),
        _ => None,
    }
}
