// Printing trees of any depth.
ghost use Rattle.std.specs.Prelude.{◌≡◌, ◌<◌, ◌+◌, [], ◌∷◌, ◌++◌, OnOk, MatchOption};
ghost use Rattle.site_base.specs.Quoted.{quoted};
ghost use Rattle.site_base.specs.View.{view, items_view, pairs_view};
ghost use Rattle.site_text.specs.Listing.{comma_if, items_text, pairs_text, tree_text};
ghost use Rattle.site_text.specs.Walk.{open_text, open_weight, opened_text, opened_weight, items_weight, pairs_weight, weight};

use site_base::{OutOfMemory, Text, Tree, push_quoted};
use std::alloc::Global;

/// What is left to print of a list or a dictionary whose bracket is open. `later` says that something
/// stands in it already.
#[derive(Drop)]
enum Open<'a> {
    Items {
        later: bool,
        items: &'a [Tree],
    },
    Pairs {
        later: bool,
        pairs: &'a [(Text, Tree)],
    },
}

/// Adds a tree. What is open stands in a list, so that a deep tree takes memory and no stack.
pub fn push_tree(alloc: Global, out: &mut Text, tree: &Tree) -> Result<(), OutOfMemory>
    ensures { OnOk result (out.new ≡ out.old ++ tree_text (view tree.now)) }
{
    let mut opened: Vec<Open> = Vec::new(alloc);
    begin_tree(out, &mut opened, tree)?;
    while let Some(bracket) = opened.pop() {
        go_on(out, &mut opened, bracket)?;
    }
    Ok(())
}

/// Adds a tree that holds no others, or opens its bracket.
fn begin_tree<'a>(
    out: &mut Text,
    opened: &mut Vec<Open<'a>>,
    tree: &'a Tree,
) -> Result<(), OutOfMemory>
    ensures text { OnOk result (out.new ++ opened_text opened.new.items ≡ out.old ++ (tree_text (view tree.now) ++ opened_text opened.old.items)) }
    ensures weight { OnOk result (opened_weight opened.new.items ≡ weight (view tree.now) + opened_weight opened.old.items) }
{
    match tree {
        Tree::Null => out.push_str("null"),
        Tree::Bool(true) => out.push_str("true"),
        Tree::Bool(false) => out.push_str("false"),
        Tree::Number(number) => number.push_to(out),
        Tree::Str(text) => push_quoted(out, text.as_str()),
        Tree::List(items) => {
            out.push('[')?;
            opened.push(Open::Items {
                later: false,
                items,
            })?;
            Ok(())
        }
        Tree::Dict(pairs) => {
            out.push('{')?;
            opened.push(Open::Pairs {
                later: false,
                pairs,
            })?;
            Ok(())
        }
    }
}

/// Begins what comes next of a list or a dictionary, or closes its bracket.
fn go_on<'a>(
    out: &mut Text,
    opened: &mut Vec<Open<'a>>,
    bracket: Open<'a>,
) -> Result<(), OutOfMemory>
    ensures text { OnOk result (out.new ++ opened_text opened.new.items ≡ out.old ++ (open_text bracket.entry ++ opened_text opened.old.items)) }
    ensures weight { OnOk result (opened_weight opened.new.items < open_weight bracket.entry + opened_weight opened.old.items) }
{
    match bracket {
        Open::Items { later, items } => next_item(out, opened, later, items),
        Open::Pairs { later, pairs } => next_pair(out, opened, later, pairs),
    }
}

fn next_item<'a>(
    out: &mut Text,
    opened: &mut Vec<Open<'a>>,
    later: bool,
    items: &'a [Tree],
) -> Result<(), OutOfMemory>
    ensures text { OnOk result (out.new ++ opened_text opened.new.items ≡ out.old ++ (items_text later (items_view items.now) ++ opened_text opened.old.items)) }
    ensures weight { OnOk result (opened_weight opened.new.items < items_weight (items_view items.now) + opened_weight opened.old.items) }
{
    let Some((first, rest)) = next_of(items) else {
        return out.push(']');
    };
    push_comma(out, later)?;
    opened.push(Open::Items {
        later: true,
        items: rest,
    })?;
    begin_tree(out, opened, first)
}

fn next_pair<'a>(
    out: &mut Text,
    opened: &mut Vec<Open<'a>>,
    later: bool,
    pairs: &'a [(Text, Tree)],
) -> Result<(), OutOfMemory>
    ensures text { OnOk result (out.new ++ opened_text opened.new.items ≡ out.old ++ (pairs_text later (pairs_view pairs.now) ++ opened_text opened.old.items)) }
    ensures weight { OnOk result (opened_weight opened.new.items < pairs_weight (pairs_view pairs.now) + opened_weight opened.old.items) }
{
    let Some((pair, rest)) = next_of(pairs) else {
        return out.push('}');
    };
    push_key(out, later, pair.0.as_str())?;
    opened.push(Open::Pairs {
        later: true,
        pairs: rest,
    })?;
    begin_tree(out, opened, &pair.1)
}

/// Adds a comma before each but the first, the quoted key and a colon.
fn push_key(out: &mut Text, later: bool, key: &str) -> Result<(), OutOfMemory>
    ensures { OnOk result (out.new ≡ out.old ++ (comma_if later ++ (quoted key.now ++ 58 ∷ []))) }
{
    push_comma(out, later)?;
    push_quoted(out, key)?;
    out.push(':')
}

/// The first of some things and the rest; `None` if there is none.
fn next_of<T>(things: &[T]) -> Option<(&T, &[T])>
    ensures { MatchOption result (things.now ≡ []) (λ x. things.now ≡ x.0.now ∷ x.1.now) }
{
    things.split_first()
}

/// Adds a comma before each but the first.
fn push_comma(out: &mut Text, later: bool) -> Result<(), OutOfMemory>
    ensures { OnOk result (out.new ≡ out.old ++ comma_if later) }
{
    if later { out.push(',') } else { Ok(()) }
}
