// The values of arguments.
ghost use Rattle.std.specs.Prelude.{◌≡◌, [], IfOk, IfSome, Some};
ghost use Rattle.site_base.specs.Data.{string};
ghost use Rattle.site_base.specs.View.{view, items_view};
ghost use Rattle.command_macros.specs.Arguments.{item_words, values_found, as_word, one_found, each_found};
ghost use Rattle.command_macros.specs.Cuts.{Lacks};
ghost use Rattle.command_macros.specs.Macros.{own_made};
ghost use Rattle.command_macros.specs.Made.{made};
ghost use Rattle.command_macros.specs.Returns.{Adds, Finds, tree_found};
ghost use Rattle.command_macros.specs.Scopes.{scope_view};
ghost use Rattle.command_macros.specs.Values.{value_made};

use crate::cutting::cut;
use crate::scope::Scope;
use crate::stop::Stop;
use crate::texts::{DEPTHS, push_value};
use site_base::{OutOfMemory, Text, Texts, Tree};
use std::alloc::Global;

/// What the value of an argument becomes.
#[derive(Drop)]
pub(crate) enum Values {
    /// Nothing is given but the key.
    KeyAlone,
    One(Text),
    /// One for each item of an array.
    Each(Texts),
}

/// What the value of an argument becomes.
pub(crate) fn values_of<'a>(
    alloc: Global,
    scope: &Scope<'a>,
    value: Option<&'a Tree>,
) -> Result<Values, Stop<'a>>
    ensures { Finds result (values_found (own_made (scope_view scope.now)) (tree_found value.entry)) }
{
    match value {
        None => Ok(Values::KeyAlone),
        Some(value) => values_in(alloc, scope, value),
    }
}

#[tactic(auto, using(crate::proofs::TreeViews::view_null, crate::proofs::TreeViews::view_bool, crate::proofs::TreeViews::view_number, crate::proofs::TreeViews::view_str, crate::proofs::TreeViews::view_list, crate::proofs::TreeViews::view_dict))]
fn values_in<'a>(alloc: Global, scope: &Scope<'a>, value: &'a Tree) -> Result<Values, Stop<'a>>
    ensures { Finds result (values_found (own_made (scope_view scope.now)) (Some (view value.now))) }
{
    match value {
        Tree::Null | Tree::Dict(_) => Ok(Values::KeyAlone),
        Tree::Bool(_) | Tree::Number(_) | Tree::Str(_) => one_value(alloc, scope, value),
        Tree::List(items) => each_value(alloc, scope, items),
    }
}

#[tactic(auto, using(crate::proofs::TreeViews::view_null, crate::proofs::TreeViews::view_bool, crate::proofs::TreeViews::view_number, crate::proofs::TreeViews::view_str, crate::proofs::TreeViews::view_list, crate::proofs::TreeViews::view_dict))]
fn one_value<'a>(alloc: Global, scope: &Scope<'a>, value: &'a Tree) -> Result<Values, Stop<'a>>
    ensures { Finds result (one_found (value_made (own_made (scope_view scope.now)) (made []) (view value.now))) }
{
    let mut text = Text::new(alloc);
    push_value(alloc, &mut text, scope, DEPTHS, None, value)?;
    Ok(Values::One(text))
}

fn each_value<'a>(alloc: Global, scope: &Scope<'a>, items: &'a [Tree]) -> Result<Values, Stop<'a>>
    ensures { Finds result (each_found (item_words (own_made (scope_view scope.now)) (items_view items.now))) }
{
    let mut texts = Texts::new(alloc);
    add_items(alloc, &mut texts, scope, items)?;
    Ok(Values::Each(texts))
}

/// Adds a word for each item of an array that the command sets.
pub(crate) fn add_items<'a>(
    alloc: Global,
    words: &mut Texts,
    scope: &Scope<'a>,
    items: &'a [Tree],
) -> Result<(), Stop<'a>>
    ensures { Adds words.old words.new result (item_words (own_made (scope_view scope.now)) (items_view items.now)) }
{
    for item in items {
        add_word(alloc, words, scope, item)?;
    }
    Ok(())
}

/// Adds a value that the command sets as a word.
fn add_word<'a>(
    alloc: Global,
    words: &mut Texts,
    scope: &Scope<'a>,
    value: &'a Tree,
) -> Result<(), Stop<'a>>
    ensures { Adds words.old words.new result (as_word (value_made (own_made (scope_view scope.now)) (made []) (view value.now))) }
{
    if let Some(word) = plain_word(value)? {
        words.push(word)?;
        return Ok(());
    }
    let mut text = Text::new(alloc);
    push_value(alloc, &mut text, scope, DEPTHS, None, value)?;
    words.push(text)?;
    Ok(())
}

/// The word that a value is by itself: a text without macros, which isn't copied.
fn plain_word(value: &Tree) -> Result<Option<Text>, OutOfMemory>
    ensures { IfOk result (λ word. IfSome word (λ text. (view value.now ≡ string text) × Lacks 36 text)) }
{
    match value {
        Tree::Str(text) if cut(text.as_str(), '$').is_none() => Ok(Some(text.clone()?)),
        _ => Ok(None),
    }
}
