// The words of commands.
ghost use Rattle.std.specs.Prelude.{Some};
ghost use Rattle.site_base.specs.View.{view, items_view, pairs_view};
ghost use Rattle.site_model.specs.PlainSite.{site_view, check_view};
ghost use Rattle.command_macros.specs.Arguments.{joined, item_words};
ghost use Rattle.command_macros.specs.Macros.{own_made};
ghost use Rattle.command_macros.specs.Orders.{in_order as put_in_order};
ghost use Rattle.command_macros.specs.Resolved.{arguments_words, command_words, resolved, scope_words, shell_words};
ghost use Rattle.command_macros.specs.Returns.{Adds, Gives, IsErrorOf};
ghost use Rattle.std.specs.List.{slice_get};
ghost use Rattle.command_macros.specs.Sorted.{words_at};
ghost use Rattle.command_macros.specs.Scopes.{scope_of as scope_with, scope_view};

use crate::MacroError;
use crate::arguments::add_argument;
use crate::lookups::{pairs_of, value_at};
use crate::orders::in_order;
use crate::scope::{Scope, scope_of};
use crate::stop::Stop;
use crate::texts::{DEPTHS, push_text};
use crate::values::add_items;
use site_base::{Text, Texts, Tree};
use site_model::{CheckSpec, Site};
use std::alloc::Global;

/// The words of the command of the checkable at this place, with each macro in them resolved (Icinga 2 documentation, Monitoring
/// Basics, "Runtime Macros", "Command Arguments" and "Command Arguments: Value as Array"). No words where no checkable has
/// this place.
///
/// - `$name$` is looked up in the service, then its host, then the command, in each among its `vars` and then among
///   its attributes, and last in the global `Vars`. `$service.a.b$`, `$host.a.b$` and `$command.a.b$` follow a
///   path from the attributes on. `$$` is a dollar sign, and a `$` without a second one stands for itself.
/// - The texts in the value of a macro are resolved in the same way, down to depth 15. An array is joined by `;`.
/// - A macro is missing below that depth if nothing has its name, or if its value is null or a dictionary.
/// - A `command` that is a text is told to `/bin/sh -c`, and its `arguments` aren't looked at. Else the words of `command` come
///   first, and then those of each argument, by `order` and then by the bytes of their keys.
/// - An argument gives its key, or what `key` sets, and its value: the key before each element of an array, or once
///   where `repeat_key` is false, and no key where `skip_key` is true. A value that is null, a dictionary or not there
///   gives the key alone. A `set_if` that doesn't become true or a number other than 0 drops the argument. So does a
///   missing macro in its value, unless `required` is true.
///
/// `MissingMacro` with the first macro that is missing and drops no argument, and `OutOfMemory` if there is no memory
/// for the words.
pub fn resolve(alloc: Global, site: &Site, checkable: u32) -> Result<Texts, MacroError>
    ensures { Gives result (resolved (site_view site.now) checkable) }
{
    match site.checkables.as_slice().get(checkable as usize) {
        None => Ok(Texts::new(alloc)),
        Some(spec) => words_of(alloc, site, spec),
    }
}

fn words_of(alloc: Global, site: &Site, spec: &CheckSpec) -> Result<Texts, MacroError>
    ensures { Gives result (scope_words (scope_with (site_view site.now) (check_view spec.now))) }
{
    let scope = scope_of(site, spec);
    let mut words = Texts::new(alloc);
    match add_command(alloc, &mut words, &scope) {
        Ok(()) => Ok(words),
        Err(stop) => Err(error_of(alloc, stop)),
    }
}

/// What stops a command from having words, in the form in which it is told.
fn error_of(alloc: Global, stop: Stop) -> MacroError
    ensures { IsErrorOf stop.entry result }
{
    match stop {
        Stop::Memory => MacroError::OutOfMemory,
        Stop::Missing(name) => match Text::copy_of(alloc, name) {
            Ok(name) => MacroError::MissingMacro { name },
            Err(_) => MacroError::OutOfMemory,
        },
    }
}

/// Adds the words of the command in this scope.
fn add_command<'a>(alloc: Global, words: &mut Texts, scope: &Scope<'a>) -> Result<(), Stop<'a>>
    ensures { Adds words.old words.new result (scope_words (scope_view scope.now)) }
{
    let arguments = pairs_of(value_at(scope.command.attributes, "arguments"));
    match value_at(scope.command.attributes, "command") {
        None => add_arguments(alloc, words, scope, arguments),
        Some(command) => add_words(alloc, words, scope, command, arguments),
    }
}

/// Adds the words of a `command` and of these arguments.
#[tactic(auto, using(crate::proofs::TreeViews::view_null, crate::proofs::TreeViews::view_bool, crate::proofs::TreeViews::view_number, crate::proofs::TreeViews::view_str, crate::proofs::TreeViews::view_list, crate::proofs::TreeViews::view_dict))]
fn add_words<'a>(
    alloc: Global,
    words: &mut Texts,
    scope: &Scope<'a>,
    command: &'a Tree,
    arguments: &'a [(Text, Tree)],
) -> Result<(), Stop<'a>>
    ensures { Adds words.old words.new result (command_words (own_made (scope_view scope.now)) (Some (view command.now)) (pairs_view arguments.now)) }
{
    match command {
        Tree::Str(text) => add_shell(alloc, words, scope, text.as_str()),
        Tree::List(items) => add_list(alloc, words, scope, items, arguments),
        Tree::Null | Tree::Bool(_) | Tree::Number(_) | Tree::Dict(_) => {
            add_arguments(alloc, words, scope, arguments)
        }
    }
}

/// Adds the words that have a shell run a text.
fn add_shell<'a>(
    alloc: Global,
    words: &mut Texts,
    scope: &Scope<'a>,
    text: &'a str,
) -> Result<(), Stop<'a>>
    ensures { Adds words.old words.new result (shell_words (own_made (scope_view scope.now) text.now)) }
{
    let mut told = Text::new(alloc);
    push_text(alloc, &mut told, scope, DEPTHS, text)?;
    words.push(Text::copy_of(alloc, "/bin/sh")?)?;
    words.push(Text::copy_of(alloc, "-c")?)?;
    words.push(told)?;
    Ok(())
}

/// Adds the words of an array, and then those of these arguments.
fn add_list<'a>(
    alloc: Global,
    words: &mut Texts,
    scope: &Scope<'a>,
    items: &'a [Tree],
    arguments: &'a [(Text, Tree)],
) -> Result<(), Stop<'a>>
    ensures { Adds words.old words.new result (joined (item_words (own_made (scope_view scope.now)) (items_view items.now)) (arguments_words (own_made (scope_view scope.now)) (put_in_order (pairs_view arguments.now)))) }
{
    add_items(alloc, words, scope, items)?;
    add_arguments(alloc, words, scope, arguments)
}

/// Adds the words of these arguments in their order.
fn add_arguments<'a>(
    alloc: Global,
    words: &mut Texts,
    scope: &Scope<'a>,
    arguments: &'a [(Text, Tree)],
) -> Result<(), Stop<'a>>
    ensures { Adds words.old words.new result (arguments_words (own_made (scope_view scope.now)) (put_in_order (pairs_view arguments.now))) }
{
    for entry in in_order(alloc, arguments)? {
        match add_at(alloc, words, scope, arguments, entry.0.1) {
            Ok(()) => {}
            Err(stop) => return Err(stop),
        }
    }
    Ok(())
}

/// Adds the words of the argument at a place.
fn add_at<'a>(
    alloc: Global,
    words: &mut Texts,
    scope: &Scope<'a>,
    arguments: &'a [(Text, Tree)],
    place: usize,
) -> Result<(), Stop<'a>>
    ensures { Adds words.old words.new result (words_at (own_made (scope_view scope.now)) (slice_get arguments.now place)) }
{
    match arguments.get(place) {
        None => Ok(()),
        Some(pair) => add_argument(alloc, words, scope, pair.0.as_str(), &pair.1),
    }
}
