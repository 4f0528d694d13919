// What standard error tells of a run beside its status.
use crate::said::say;
use site_base::{OutOfMemory, Text, Texts};
use site_edge::Unread;
use site_words::{Command, Task, command_of};
use std::alloc::Global;

/// Words that may follow the first words of a command line. If one that the program takes begins with these, one of these
/// ends it.
const ENDS: [&[&str]; 6] = [
    &[],
    &["1"],
    &["1", "1"],
    &["1", "1", "1"],
    &["daemon", "1"],
    &["1", "daemon", "1"],
];

/// Says of a daemon that it has no site, whose log would have stood where the diagnostics are.
pub(crate) fn say_diagnosed(rt: &HostRuntime, words: &[Text], lines: u64) {
    if let Some(
        Command {
            task: Task::Daemon { .. },
            ..
        },
    ) = command_of(words)
    {
        say(
            rt,
            "nothing is run; diagnostics on standard output: ",
            lines,
            "",
        );
    }
}

/// Says which of the words is wrong.
pub(crate) fn say_misuse(rt: &HostRuntime, words: &[Text]) {
    match wrong_word(rt.alloc(), words) {
        Ok(Some(word)) => say(
            rt,
            "the word \"",
            word.as_str(),
            "\" is wrong; see icinga_site --help",
        ),
        Ok(None) => say(
            rt,
            "a word is missing at the end",
            "",
            "; see icinga_site --help",
        ),
        Err(_) => {}
    }
}

/// Says what could not be read, and why.
pub(crate) fn say_unread(rt: &HostRuntime, unread: Option<&Unread>) {
    if let Some(unread) = unread {
        say(rt, "can't read ", unread, "");
    }
}

/// The first word that no command line has there; `None` if words are missing at the end.
fn wrong_word(alloc: Global, words: &[Text]) -> Result<Option<&Text>, OutOfMemory> {
    for (index, word) in words.iter().enumerate() {
        let begun = words.get(..index.saturating_add(1)).unwrap_or(&[]);
        if !may_begin(alloc, begun)? {
            return Ok(Some(word));
        }
    }
    Ok(None)
}

/// Whether some command line begins with these words.
fn may_begin(alloc: Global, begun: &[Text]) -> Result<bool, OutOfMemory> {
    for end in &ENDS {
        if is_command(alloc, begun, end)? {
            return Ok(true);
        }
    }
    Ok(false)
}

/// Whether these words are a command line, with further ones after them.
fn is_command(alloc: Global, begun: &[Text], end: &[&str]) -> Result<bool, OutOfMemory> {
    let mut words = Texts::new(alloc);
    push_words(&mut words, begun)?;
    push_ends(alloc, &mut words, end)?;
    Ok(command_of(words.as_slice()).is_some())
}

fn push_words(words: &mut Texts, more: &[Text]) -> Result<(), OutOfMemory> {
    for word in more {
        words.push(word.clone()?)?;
    }
    Ok(())
}

fn push_ends(alloc: Global, words: &mut Texts, more: &[&str]) -> Result<(), OutOfMemory> {
    for word in more {
        words.push(Text::copy_of(alloc, word)?)?;
    }
    Ok(())
}
