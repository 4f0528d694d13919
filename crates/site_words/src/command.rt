// What the words of a command line ask for, with their options.
ghost use Rattle.std.specs.Prelude.{◌≡◌, ◌≤◌, IfSome, length, option_map, unwrap_or};
ghost use Rattle.site_words.specs.Commands.{AreFew, AreWorkers, command_behind, command_by as command_with, command_from, command_of as command_in, command_own, command_view, first_option, own_many};

use crate::options::{Options, is_option, is_recur};
use crate::task::Task;
use crate::words::task_of;
use site_base::Text;

/// A task, and how many workers do it.
#[derive(Clone, Copy)]
pub struct Command<'a> {
    pub task: Task<'a>,
    /// From 1 to 64.
    pub workers: u32,
}

/// What the words ask for; `None` for all words that ask for nothing that the program does. `--workers K`, with K from 1 to 64, may stand
/// before or after the words of each command, and `--log V`, with V 1 or 2, and `--recur` before or after those of `replay` and `daemon`: each at
/// most once, in any order.
pub fn command_of(words: &[Text]) -> Option<Command<'_>>
    ensures value { option_map command_view result ≡ command_in words.now }
    ensures few { IfSome result (λ c. AreWorkers c.workers) }
{
    let mut options = Options::none();
    let mut rest = words;
    while let [option, behind @ ..] = rest {
        if is_recur(option) {
            options = options.with_recur()?;
            rest = behind;
        } else if is_option(option) {
            let [value, more @ ..] = behind else {
                return None;
            };
            options = options.with(option, value)?;
            rest = more;
        } else {
            break;
        }
    }
    own_words(options, rest)
}

/// What is asked for with these options before a command's own words.
fn own_words(options: Options, words: &[Text]) -> Option<Command<'_>>
    requires few { AreFew options }
    ensures value { option_map command_view result ≡ command_own options words.now }
    ensures few { IfSome result (λ c. AreWorkers c.workers) }
{
    let (own, behind) = words.split_at(own_count(words));
    with_behind(options, own, behind)
}

/// How many words are a command's own: the first two, and those behind them up to an option.
fn own_count(words: &[Text]) -> usize
    ensures value { result ≡ own_many words.now }
    ensures few { result ≤ length words.now }
{
    match words {
        [_, _, more @ ..] => 2 + before_option(more),
        _ => words.len(),
    }
}

/// How many words stand before the first option.
fn before_option(words: &[Text]) -> usize
    ensures value { result ≡ unwrap_or (first_option words.now) (length words.now) }
    ensures few { result ≤ length words.now }
{
    option_place(words).unwrap_or(words.len())
}

/// Where the first option stands.
fn option_place(words: &[Text]) -> Option<usize>
    ensures value { result ≡ first_option words.now }
    ensures few { IfSome result (λ place. place ≤ length words.now) }
{
    words.iter().position(|word| is_option(word))
}

/// What a command's own words ask for, behind which options stand to the end.
fn with_behind<'a>(before: Options, own: &'a [Text], others: &'a [Text]) -> Option<Command<'a>>
    requires few { AreFew before }
    ensures value { option_map command_view result ≡ command_behind own.now before others.now }
    ensures few { IfSome result (λ c. AreWorkers c.workers) }
{
    let mut options = before;
    let mut rest = others;
    while let [option, behind @ ..] = rest {
        if is_recur(option) {
            options = options.with_recur()?;
            rest = behind;
        } else {
            let [value, more @ ..] = behind else {
                return None;
            };
            options = options.with(option, value)?;
            rest = more;
        }
    }
    command_by(options, own)
}

/// What a command's own words ask for with these options.
fn command_by(options: Options, own: &[Text]) -> Option<Command<'_>>
    requires few { AreFew options }
    ensures value { option_map command_view result ≡ command_with options own.now }
    ensures few { IfSome result (λ c. AreWorkers c.workers) }
{
    let task = task_of(options.style, options.recur, own)?;
    Some(Command {
        task,
        workers: options.workers.unwrap_or(1),
    })
}
