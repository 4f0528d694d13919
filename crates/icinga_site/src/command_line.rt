// The words of the command line, over the real files and standard output.
use crate::complaint::{say_diagnosed, say_misuse, say_unread};
use crate::counted::Counted;
use crate::heard::Heard;
use crate::watched::Watched;
use live_world::LiveWorld;
use post_turn::OpenGate;
use site_base::{OutOfMemory, Text, Texts};
use site_edge::{DiskFiles, Files, OutSink, Sink, Unread, World};
use site_program::{self, Remarks, Status};
use std::alloc::Global;
use std::cell::Cell;
use std::env;
use std::io::ErrorKind;
use std::sync::Wait;
use std::thread::Threads;

/// What `--help` prints.
const HELP: &str = "\
icinga_site reads a site's configuration in the Icinga 2 language.

usage:
  icinga_site check ROOT                  counts the objects that the configuration file ROOT makes
  icinga_site objects ROOT                lists them
  icinga_site replay ROOT SCRIPT          writes the log of the turns of SCRIPT over the site of ROOT
  icinga_site daemon ROOT                 runs the checks of that site, takes command lines from standard input, and writes the log
  icinga_site daemon ROOT STATE           the same, and goes on after the entries of the state file STATE
  icinga_site query ROOT SCRIPT QUERY     answers the query in QUERY once the turns of SCRIPT are over
  icinga_site keep ROOT SCRIPT            writes the state file of the entries that the turns of SCRIPT leave
  icinga_site audit ROOT LOG              says whether LOG is the log of a run over that site, or where it goes wrong
  icinga_site resume ROOT STATE SCRIPT    writes the log of the turns of SCRIPT after the entries of the state file STATE
  icinga_site gen N                       runs a generated site of N hosts, from 1 to 10000, and writes five counts
  icinga_site --help                      prints this text, as do -h and help
  icinga_site --version                   prints the program's version

--log 1 or --log 2, before or after the words of replay, daemon and resume, chooses the version of the log.
--recur, before or after those of the first two, has ScheduledDowntime objects make their downtimes.
--workers K, before or after any words, has K workers, from 1 to 64, make objects and take the events of a turn at the same time;
audit reads LOG as one of K workers.
--quiet, anywhere among them, leaves out what check and daemon remark of a site on standard error.
";

/// What `--version` prints.
const VERSION: &str = "icinga_site 0.1.0\n";

/// Does what the words of the command line ask for. Workers wait for each other at `turns`, in which their threads are made too; `threads` are
/// those of checks and of standard input.
pub(crate) fn run<R: Wait + Threads + Sync, T: Threads + Drop>(
    rt: &HostRuntime,
    turns: &R,
    threads: T,
) -> Status {
    match words_of(rt) {
        Ok(words) => run_words(rt, turns, threads, &words),
        Err(status) => status,
    }
}

/// The words of a command line without `--quiet`, and whether that stood among them.
#[derive(Drop)]
struct Words {
    words: Texts,
    quiet: bool,
}

impl Words {
    /// Adds a word; the first `--quiet` is noted in its place.
    fn take(&mut self, alloc: Global, word: &str) -> Result<(), OutOfMemory> {
        if word == "--quiet" && !self.quiet {
            self.quiet = true;
            return Ok(());
        }
        self.words.push(Text::copy_of(alloc, word)?)
    }
}

/// The words of the command line; one that isn't UTF-8 is a wrong use.
fn words_of(rt: &HostRuntime) -> Result<Words, Status> {
    let args = match env::args(rt) {
        Ok(args) => args,
        Err(error) if error.kind() == ErrorKind::OutOfMemory => return Err(Status::OutOfMemory),
        Err(_) => return Err(Status::Usage),
    };
    let mut words = Words {
        words: Texts::new(rt.alloc()),
        quiet: false,
    };
    for word in args.skip(1) {
        if words.take(rt.alloc(), word.as_str()).is_err() {
            return Err(Status::OutOfMemory);
        }
    }
    Ok(words)
}

/// Does what the words ask for, over the real files and standard output.
fn run_words<R: Wait + Threads + Sync, T: Threads + Drop>(
    rt: &HostRuntime,
    turns: &R,
    threads: T,
    words: &Words,
) -> Status {
    match words.words.as_slice() {
        [word] if asks_for_help(word) => print_text(rt, HELP),
        [word] if word.as_str() == "--version" => print_text(rt, VERSION),
        _ => run_over(rt, turns, threads, words),
    }
}

fn asks_for_help(word: &Text) -> bool {
    matches!(word.as_str(), "--help" | "-h" | "help")
}

/// The same for words that ask for more than a text.
fn run_over<R: Wait + Threads + Sync, T: Threads + Drop>(
    rt: &HostRuntime,
    turns: &R,
    threads: T,
    words: &Words,
) -> Status {
    let Ok(world) = world_of(rt, threads) else {
        return Status::OutOfMemory;
    };
    let limit = Cell::new(0);
    let mut files = DiskFiles::new(rt);
    let mut world = Watched::new(rt, world, &limit);
    let mut out = Counted::new(OutSink::new(rt.alloc(), rt));
    let mut remarks = Heard::new(rt, words.quiet, &limit);
    let status = run_program(
        rt.alloc(),
        turns,
        words.words.as_slice(),
        &mut files,
        &mut world,
        &mut out,
        &mut remarks,
    );
    say_ended(
        rt,
        words.words.as_slice(),
        status,
        out.lines(),
        files.unread(),
    );
    status
}

/// Does what the words ask for over these files, world and output.
fn run_program<R: Wait + Threads + Sync, F: Files, W: World, S: Sink, N: Remarks>(
    alloc: Global,
    turns: &R,
    words: &[Text],
    files: &mut F,
    world: &mut W,
    out: &mut S,
    remarks: &mut N,
) -> Status {
    site_program::run(turns, alloc, words, files, world, out, remarks, &OpenGate)
}

/// Says on standard error what a status alone doesn't tell, after a run that put so many lines to standard output.
fn say_ended(
    rt: &HostRuntime,
    words: &[Text],
    status: Status,
    lines: u64,
    unread: Option<&Unread>,
) {
    match status {
        Status::Diagnosed => say_diagnosed(rt, words, lines),
        Status::Usage => say_misuse(rt, words),
        Status::ReadFault => say_unread(rt, unread),
        _ => {}
    }
}

/// The clock, standard input and check programs, each of which a thread waits for.
fn world_of<T: Threads + Drop>(rt: &HostRuntime, threads: T) -> Result<LiveWorld<T>, OutOfMemory> {
    LiveWorld::new(rt.clone()?, threads)
}

fn print_text(rt: &HostRuntime, text: &str) -> Status {
    match print!(rt; "{text}") {
        Ok(()) => Status::Done,
        Err(_) => Status::WriteFault,
    }
}
