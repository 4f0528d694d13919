// What texts and values become once their macros are resolved.
ghost use Rattle.std.specs.Prelude.{◌≡◌, ◌<◌, ◌+◌, ◌∷◌, [], ◌++◌, List, ℕ, OnOk, MatchOption};
ghost use Rattle.site_base.specs.View.{view};
ghost use Rattle.command_macros.specs.Macros.{macro_made, text_with};
ghost use Rattle.command_macros.specs.Made.{followed, piece_made};
ghost use Rattle.command_macros.specs.Pieces.{between};
ghost use Rattle.command_macros.specs.Returns.{Writes, macro_name};
ghost use Rattle.command_macros.specs.Scopes.{scope_view};
ghost use Rattle.command_macros.specs.Values.{value_made, nothing_of, boolean_text as text_of_boolean};
ghost use Rattle.command_macros.specs.Walk.{Continues, semicolon_if, open_made, opened_made, open_weight, opened_weight, weight};

use crate::cutting::cut;
use crate::lookups::value_of;
use crate::scope::Scope;
use crate::stop::Stop;
use site_base::{OutOfMemory, Text, Tree};
use std::alloc::Global;

/// In so many depths macros are looked up: what the command itself sets has depth 0, the value of a macro in it
/// depth 1, and the deepest is 15.
pub(crate) const DEPTHS: u32 = 16;

/// What is left of an array. `later` says that an item of it was added already.
#[derive(Drop)]
struct Open<'a> {
    later: bool,
    items: &'a [Tree],
}

/// Adds a text with its macros resolved, where macros are looked up in so many depths. What stands between two dollar
/// signs is the name of a macro, two with nothing between them are one, and one without a second stands for itself.
#[cycle(macros)]
pub(crate) fn push_text<'a>(
    alloc: Global,
    out: &mut Text,
    scope: &Scope<'a>,
    left: u32,
    text: &'a str,
) -> Result<(), Stop<'a>>
    ensures { Writes out.old out.new result (text_with (macro_made (scope_view scope.now) left) text.now) }
{
    let mut rest = text;
    while let Some((front, behind)) = cut(rest, '$') {
        out.push_str(front)?;
        let Some((name, more)) = cut(behind, '$') else {
            push_last(out, behind)?;
            return Ok(());
        };
        match push_between(alloc, out, scope, left, name) {
            Ok(()) => rest = more,
            Err(stop) => return Err(stop),
        }
    }
    out.push_str(rest)?;
    Ok(())
}

/// Adds a dollar sign without a second one, and what stands behind it.
fn push_last(out: &mut Text, rest: &str) -> Result<(), OutOfMemory>
    ensures { OnOk result (out.new ≡ out.old ++ 36 ∷ rest.now) }
{
    out.push('$')?;
    out.push_str(rest)
}

/// Adds what two dollar signs with this between them stand for.
#[cycle(macros)]
fn push_between<'a>(
    alloc: Global,
    out: &mut Text,
    scope: &Scope<'a>,
    left: u32,
    name: &'a str,
) -> Result<(), Stop<'a>>
    ensures { Writes out.old out.new result (piece_made (macro_made (scope_view scope.now) left) (between name.now)) }
{
    if name.is_empty() {
        out.push('$')?;
        return Ok(());
    }
    push_macro(alloc, out, scope, left, name)
}

/// Adds the value of a macro.
#[cycle(macros)]
fn push_macro<'a>(
    alloc: Global,
    out: &mut Text,
    scope: &Scope<'a>,
    left: u32,
    name: &'a str,
) -> Result<(), Stop<'a>>
    ensures { Writes out.old out.new result (macro_made (scope_view scope.now) left name.now) }
{
    if left == 0 {
        return Err(Stop::Missing(name));
    }
    match value_of(scope, name) {
        None => Err(Stop::Missing(name)),
        Some(value) => push_value(alloc, out, scope, left - 1, Some(name), value),
    }
}

/// Adds a value with its macros resolved: arrays are joined by `;`. Null and dictionaries are missing in the value of a
/// macro, by its name, and empty in what the command itself sets. Arrays that are gone through stand in a list, so
/// that those in one another take memory and no stack.
#[cycle(macros)]
pub(crate) fn push_value<'a>(
    alloc: Global,
    out: &mut Text,
    scope: &Scope<'a>,
    left: u32,
    name: Option<&'a str>,
    value: &'a Tree,
) -> Result<(), Stop<'a>>
    ensures { Writes out.old out.new result (value_made (text_with (macro_made (scope_view scope.now) left)) (nothing_of (macro_name name.entry)) (view value.now)) }
{
    let mut opened: Vec<Open<'a>> = Vec::new(alloc);
    begin_value(alloc, out, &mut opened, scope, left, name, value)?;
    while let Some(array) = opened.pop() {
        match next_item(alloc, out, &mut opened, scope, left, name, array) {
            Ok(()) => {}
            Err(stop) => return Err(stop),
        }
    }
    Ok(())
}

/// Adds a value that is no array, or begins an array.
#[cycle(macros)]
fn begin_value<'a>(
    alloc: Global,
    out: &mut Text,
    opened: &mut Vec<Open<'a>>,
    scope: &Scope<'a>,
    left: u32,
    name: Option<&'a str>,
    value: &'a Tree,
) -> Result<(), Stop<'a>>
    ensures value { let text = text_with (macro_made (scope_view scope.now) left) in
        let nothing = nothing_of (macro_name name.entry) in
        Continues out.old (followed (value_made text nothing (view value.now)) (opened_made text nothing opened.old.items)) out.new (opened_made text nothing opened.new.items) result }
    ensures weight { OnOk result (opened_weight opened.new.items ≡ weight (view value.now) + opened_weight opened.old.items) }
{
    match value {
        Tree::Null => nothing(name),
        Tree::Dict(_) => nothing(name),
        Tree::Bool(value) => Ok(out.push_str(boolean_text(*value))?),
        Tree::Number(number) => Ok(number.push_to(out)?),
        Tree::Str(text) => push_text(alloc, out, scope, left, text.as_str()),
        Tree::List(items) => Ok(opened.push(Open {
            later: false,
            items,
        })?),
    }
}

/// Goes on in an array, or ends it.
#[cycle(macros)]
fn next_item<'a>(
    alloc: Global,
    out: &mut Text,
    opened: &mut Vec<Open<'a>>,
    scope: &Scope<'a>,
    left: u32,
    name: Option<&'a str>,
    array: Open<'a>,
) -> Result<(), Stop<'a>>
    ensures value { let text = text_with (macro_made (scope_view scope.now) left) in
        let nothing = nothing_of (macro_name name.entry) in
        Continues out.old (followed (open_made text nothing array.entry) (opened_made text nothing opened.old.items)) out.new (opened_made text nothing opened.new.items) result }
    ensures weight { OnOk result (opened_weight opened.new.items < open_weight array.entry + opened_weight opened.old.items) }
{
    let Some((first, rest)) = next_of(array.items) else {
        return Ok(());
    };
    push_semicolon(out, array.later)?;
    opened.push(Open {
        later: true,
        items: rest,
    })?;
    begin_value(alloc, out, opened, scope, left, name, first)
}

/// What null and a dictionary become in the value of a macro of this name, or in what the command itself sets.
fn nothing<'a>(name: Option<&'a str>) -> Result<(), Stop<'a>>
    ensures { (text : List ℕ) → Writes text text result (nothing_of (macro_name name.entry)) }
{
    match name {
        None => Ok(()),
        Some(name) => Err(Stop::Missing(name)),
    }
}

pub(crate) fn boolean_text(value: bool) -> &'static str
    ensures { result.now ≡ text_of_boolean value }
{
    if value { "true" } else { "false" }
}

/// The first of some items and the rest; `None` if there is none.
fn next_of(items: &[Tree]) -> Option<(&Tree, &[Tree])>
    ensures { MatchOption result (items.now ≡ []) (λ x. items.now ≡ x.0.now ∷ x.1.now) }
{
    items.split_first()
}

/// Adds a semicolon before each item but the first.
fn push_semicolon(out: &mut Text, later: bool) -> Result<(), OutOfMemory>
    ensures { OnOk result (out.new ≡ out.old ++ semicolon_if later) }
{
    if later { out.push(';') } else { Ok(()) }
}
