// Names in lists.
ghost use Rattle.std.specs.Prelude.{◌≡◌, ◌||◌, ℕ, List, [], not, IfOk, OnOk};
ghost use Rattle.std.specs.List.{list_any};
ghost use Rattle.std.specs.Str.{bytes_eq};
ghost use Rattle.site_base.specs.View.{view, items_view};
ghost use Rattle.commit_meaning.specs.Groups.{has_string as string_in, is_string as string_is};
ghost use Rattle.group_growth.specs.Adding.{with_name, with_names};
ghost use Rattle.group_growth.specs.Strings.{HasStrings, texts_in};

use indexmap::IndexSet;
use site_base::{OutOfMemory, Text, Tree};
use std::alloc::Global;

/// So many names are looked for one by one, which takes less time than to hash them.
const FEW: usize = 16;

/// Adds each of these names at the end of a list, if it isn't there yet. Many are looked up by hash.
pub(crate) fn add_names(
    alloc: Global,
    items: &mut Vec<Tree>,
    names: &[Text],
) -> Result<(), OutOfMemory>
    ensures { OnOk result (items_view items.new.items ≡ with_names names.now (items_view items.old.items)) }
{
    if items.len() <= FEW && names.len() <= FEW {
        add_few(items, names)
    } else {
        add_many(alloc, items, names)
    }
}

// ---- one by one

fn add_few(items: &mut Vec<Tree>, names: &[Text]) -> Result<(), OutOfMemory>
    ensures { OnOk result (items_view items.new.items ≡ with_names names.now (items_view items.old.items)) }
{
    for name in names {
        add_name(items, name)?;
    }
    Ok(())
}

fn add_name(items: &mut Vec<Tree>, name: &Text) -> Result<(), OutOfMemory>
    ensures { OnOk result (items_view items.new.items ≡ with_name name.now (items_view items.old.items)) }
{
    if !has_string(items, name) {
        items.push(Tree::Str(name.clone()?))?;
    }
    Ok(())
}

fn has_string(items: &[Tree], name: &Text) -> bool
    ensures { result ≡ string_in name.now (items_view items.now) }
{
    for item in items {
        if is_string(item, name) {
            return true;
        }
    }
    false
}

fn is_string(item: &Tree, name: &Text) -> bool
    ensures { result ≡ string_is name.now (view item.now) }
{
    match item {
        Tree::Str(text) => *text == *name,
        _ => false,
    }
}

// ---- by hash

fn add_many(alloc: Global, items: &mut Vec<Tree>, names: &[Text]) -> Result<(), OutOfMemory>
    ensures { OnOk result (items_view items.new.items ≡ with_names names.now (items_view items.old.items)) }
{
    let mut strings = strings_of(alloc, items)?;
    for name in names {
        add_new(alloc, &mut strings, items, name)?;
    }
    Ok(())
}

/// The strings of a list.
fn strings_of(alloc: Global, items: &[Tree]) -> Result<IndexSet<String>, OutOfMemory>
    ensures { IfOk result (λ s. HasStrings (texts_in s.keys) (items_view items.now)) }
{
    let mut strings = no_strings(alloc);
    for item in items {
        add_string(alloc, &mut strings, item)?;
    }
    Ok(strings)
}

fn no_strings(alloc: Global) -> IndexSet<String>
    ensures { result.keys ≡ [] }
{
    IndexSet::new(alloc)
}

/// Adds an item of a list to its strings, if it is one.
fn add_string(alloc: Global, strings: &mut IndexSet<String>, item: &Tree) -> Result<(), OutOfMemory>
    ensures { OnOk result ((n : List ℕ) → list_any (bytes_eq n) (texts_in strings.new.keys) ≡ (list_any (bytes_eq n) (texts_in strings.old.keys) || string_is n (view item.now))) }
{
    if let Tree::Str(text) = item {
        is_new(alloc, strings, text)?;
    }
    Ok(())
}

/// Adds a name to a list and to its strings, if it isn't there yet.
fn add_new(
    alloc: Global,
    strings: &mut IndexSet<String>,
    items: &mut Vec<Tree>,
    name: &Text,
) -> Result<(), OutOfMemory>
    requires { HasStrings (texts_in strings.old.keys) (items_view items.old.items) }
    ensures items { OnOk result (items_view items.new.items ≡ with_name name.now (items_view items.old.items)) }
    ensures strings { OnOk result (HasStrings (texts_in strings.new.keys) (items_view items.new.items)) }
{
    if is_new(alloc, strings, name)? {
        items.push(Tree::Str(name.clone()?))?;
    }
    Ok(())
}

/// Adds a text to strings, and says whether it wasn't there yet.
fn is_new(alloc: Global, strings: &mut IndexSet<String>, text: &Text) -> Result<bool, OutOfMemory>
    ensures new { IfOk result (λ b. b ≡ not (list_any (bytes_eq text.now) (texts_in strings.old.keys))) }
    ensures strings { OnOk result ((n : List ℕ) → list_any (bytes_eq n) (texts_in strings.new.keys) ≡ (list_any (bytes_eq n) (texts_in strings.old.keys) || bytes_eq text.now n)) }
{
    let key = String::from_str(alloc, text.as_str())?;
    Ok(strings.insert(key)?)
}
