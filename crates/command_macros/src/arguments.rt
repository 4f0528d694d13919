// The words of arguments.
ghost use Rattle.std.specs.Prelude.{◌≡◌, ◌++◌, Bool, not, true, false, List, ℕ, Option, Some, None, IfOk, OnOk, option_to_list, codes, ◌∷◌, []};
ghost use Rattle.command_macros.specs.Lookups.{value_at as value_of_key};
ghost use Rattle.site_base.specs.Numbers.{number_text as text_of_number};
ghost use Rattle.site_base.specs.View.{view, pairs_view};
ghost use Rattle.command_macros.specs.Arguments.{argument_value as value_set, argument_words, found_words, is_boolean as boolean_test, is_set_to as set_to, key_given, keys_of as keys_set, repeated, written, Found};
ghost use Rattle.command_macros.specs.Macros.{own_made};
ghost use Rattle.command_macros.specs.Returns.{Adds, Finds, tree_found};
ghost use Rattle.command_macros.specs.Scopes.{scope_view};

use crate::lookups::{pairs_in, value_at};
use crate::scope::Scope;
use crate::stop::Stop;
use crate::texts::boolean_text;
use crate::truth::is_kept;
use crate::values::{Values, values_of};
use site_base::{Num, OutOfMemory, Text, Texts, Tree};
use std::alloc::Global;

/// Adds the words of an argument with this key.
pub(crate) fn add_argument<'a>(
    alloc: Global,
    words: &mut Texts,
    scope: &Scope<'a>,
    own: &'a str,
    argument: &'a Tree,
) -> Result<(), Stop<'a>>
    ensures { Adds words.old words.new result (argument_words (own_made (scope_view scope.now)) own.now (view argument.now)) }
{
    let pairs = pairs_in(argument);
    if !is_kept(alloc, scope, value_at(pairs, "set_if"))? {
        return Ok(());
    }
    let values = values_of(alloc, scope, argument_value(argument));
    add_found(alloc, words, own, pairs, values)
}

/// Adds the words of an argument that is kept, with this of its value. A missing macro drops it, unless it is required.
fn add_found<'a>(
    alloc: Global,
    words: &mut Texts,
    own: &str,
    pairs: &[(Text, Tree)],
    values: Result<Values, Stop<'a>>,
) -> Result<(), Stop<'a>>
    ensures { (f : Found) → Finds values.entry f → Adds words.old words.new result (found_words own.now (pairs_view pairs.now) f) }
{
    match values {
        Ok(values) => Ok(add_written(alloc, words, own, pairs, values)?),
        Err(Stop::Missing(name)) if is_set_to(true, value_at(pairs, "required")) => {
            Err(Stop::Missing(name))
        }
        Err(Stop::Missing(_)) => Ok(()),
        Err(Stop::Memory) => Err(Stop::Memory),
    }
}

/// Adds key and values as the argument sets them.
fn add_written(
    alloc: Global,
    words: &mut Texts,
    own: &str,
    pairs: &[(Text, Tree)],
    values: Values,
) -> Result<(), OutOfMemory>
    ensures { OnOk result (words.new ≡ words.old ++ written (keys_set own.now (pairs_view pairs.now)) (not (set_to false (value_of_key (codes "repeat_key") (pairs_view pairs.now)))) values) }
{
    let key = key_of(alloc, own, pairs)?;
    let once = is_set_to(false, value_at(pairs, "repeat_key"));
    add_values(words, key, !once, values)
}

/// Adds a key and what a value became. The key stands before each of several values, or once.
fn add_values(
    words: &mut Texts,
    key: Option<Text>,
    repeats: bool,
    values: Values,
) -> Result<(), OutOfMemory>
    ensures { OnOk result (words.new ≡ words.old ++ written (option_to_list key) repeats values) }
{
    match values {
        Values::KeyAlone => add_key(words, key),
        Values::One(text) => add_one(words, key, text),
        Values::Each(texts) if repeats => add_repeated(words, &key, texts),
        Values::Each(texts) => add_once(words, key, texts),
    }
}

fn add_key(words: &mut Texts, key: Option<Text>) -> Result<(), OutOfMemory>
    ensures { OnOk result (words.new ≡ words.old ++ option_to_list key) }
{
    match key {
        None => Ok(()),
        Some(key) => words.push(key),
    }
}

fn add_one(words: &mut Texts, key: Option<Text>, text: Text) -> Result<(), OutOfMemory>
    ensures { OnOk result (words.new ≡ words.old ++ (option_to_list key ++ text ∷ [])) }
{
    add_key(words, key)?;
    words.push(text)
}

/// Adds the key before each text.
fn add_repeated(words: &mut Texts, key: &Option<Text>, texts: Texts) -> Result<(), OutOfMemory>
    ensures { OnOk result (words.new ≡ words.old ++ repeated (option_to_list key.now) texts) }
{
    for text in texts.into_vec() {
        let key = key.clone()?;
        add_one(words, key, text)?;
    }
    Ok(())
}

/// Adds the key and then the texts.
fn add_once(words: &mut Texts, key: Option<Text>, texts: Texts) -> Result<(), OutOfMemory>
    ensures { OnOk result (words.new ≡ words.old ++ (option_to_list key ++ texts)) }
{
    add_key(words, key)?;
    for text in texts.into_vec() {
        words.push(text)?;
    }
    Ok(())
}

/// The key as a word; none with `skip_key`.
fn key_of(alloc: Global, own: &str, pairs: &[(Text, Tree)]) -> Result<Option<Text>, OutOfMemory>
    ensures { IfOk result (λ key. option_to_list key ≡ keys_set own.now (pairs_view pairs.now)) }
{
    if is_set_to(true, value_at(pairs, "skip_key")) {
        return Ok(None);
    }
    let key = given_key(alloc, own, value_at(pairs, "key"))?;
    Ok(Some(key))
}

/// The argument's own key, or the text that `key` sets.
fn given_key(alloc: Global, own: &str, set: Option<&Tree>) -> Result<Text, OutOfMemory>
    ensures { IfOk result (λ key. key ≡ key_given own.now (tree_found set.entry)) }
{
    match set {
        None => Text::copy_of(alloc, own),
        Some(value) => key_in(alloc, own, value),
    }
}

#[tactic(auto, using(crate::proofs::TreeViews::view_null, crate::proofs::TreeViews::view_bool, crate::proofs::TreeViews::view_number, crate::proofs::TreeViews::view_str, crate::proofs::TreeViews::view_list, crate::proofs::TreeViews::view_dict))]
fn key_in(alloc: Global, own: &str, value: &Tree) -> Result<Text, OutOfMemory>
    ensures { IfOk result (λ key. key ≡ key_given own.now (Some (view value.now))) }
{
    match value {
        Tree::Null | Tree::List(_) | Tree::Dict(_) => Text::copy_of(alloc, own),
        Tree::Bool(value) => Text::copy_of(alloc, boolean_text(*value)),
        Tree::Number(number) => number_text(alloc, number),
        Tree::Str(text) => Ok(text.clone()?),
    }
}

fn number_text(alloc: Global, number: &Num) -> Result<Text, OutOfMemory>
    ensures { IfOk result (λ text. text ≡ text_of_number number.now) }
{
    let mut text = Text::new(alloc);
    number.push_to(&mut text)?;
    Ok(text)
}

/// The value of an argument: what it sets, or itself where it is no dictionary.
#[tactic(auto, using(crate::proofs::TreeViews::view_null, crate::proofs::TreeViews::view_bool, crate::proofs::TreeViews::view_number, crate::proofs::TreeViews::view_str, crate::proofs::TreeViews::view_list, crate::proofs::TreeViews::view_dict))]
fn argument_value(argument: &Tree) -> Option<&Tree>
    ensures { tree_found result ≡ value_set (view argument.now) }
{
    match argument {
        Tree::Dict(pairs) => value_at(pairs, "value"),
        Tree::Null | Tree::Bool(_) | Tree::Number(_) | Tree::Str(_) | Tree::List(_) => {
            Some(argument)
        }
    }
}

/// Whether a value is exactly this boolean.
fn is_set_to(wanted: bool, value: Option<&Tree>) -> bool
    ensures { result ≡ set_to wanted (tree_found value.entry) }
{
    match value {
        None => false,
        Some(value) => is_boolean(wanted, value),
    }
}

#[tactic(auto, using(crate::proofs::TreeViews::view_null, crate::proofs::TreeViews::view_bool, crate::proofs::TreeViews::view_number, crate::proofs::TreeViews::view_str, crate::proofs::TreeViews::view_list, crate::proofs::TreeViews::view_dict))]
fn is_boolean(wanted: bool, value: &Tree) -> bool
    ensures { result ≡ set_to wanted (Some (view value.now)) }
{
    match value {
        Tree::Bool(value) => is_same(wanted, *value),
        Tree::Null | Tree::Number(_) | Tree::Str(_) | Tree::List(_) | Tree::Dict(_) => false,
    }
}

fn is_same(wanted: bool, value: bool) -> bool
    ensures { result ≡ boolean_test wanted value }
{
    if wanted { value } else { !value }
}
