// What a command's own words ask for.
ghost use Rattle.std.specs.Prelude.{◌≡◌, ◌&&◌, option_map};
ghost use Rattle.site_words.specs.Tasks.{audit_task as task_of_audit, daemon_on as daemon_with, daemon_task as task_of_daemon, four_words as task_of_four, generate_task as task_of_generate, hosts_in, is_file_word as names_file, keep_task as task_of_keep, logged_task as task_logged, plain_task as task_plain, plain_words as words_plain, query_task as task_of_query, replay_task as task_of_replay, resume_task as task_of_resume, task_of as task_in, task_view, three_plain as plain_of_three, three_words as task_of_three, two_words as task_of_two};

use crate::task::Task;
use run_text::Style;
use site_base::Text;
use site_text::read_whole;

/// How many hosts a generated site has at most.
const MOST_HOSTS: u64 = 10_000;

/// What a command's own words ask for, by the version of the log that is asked for, if one is, and whether downtimes are to recur; `None` for all
/// words that ask for nothing that the program does. A version can be asked of `replay`, `daemon` and `resume` alone, and downtimes that recur of the
/// first two.
pub(crate) fn task_of(style: Option<Style>, recur: bool, words: &[Text]) -> Option<Task<'_>>
    ensures { option_map task_view result ≡ task_in style recur words.now }
{
    match (style, recur) {
        (None, false) => plain_words(words),
        (None, true) => logged_task(Style::One, true, words),
        (Some(style), recur) => logged_task(style, recur, words),
    }
}

/// What words ask for that ask for no version of the log, and for no downtimes that recur.
fn plain_words(words: &[Text]) -> Option<Task<'_>>
    ensures { option_map task_view result ≡ words_plain words.now }
{
    match words {
        [word, named] => two_words(word, named),
        [word, root, other] => three_plain(word, root, other),
        [word, root, other, last] => four_words(word, root, other, last),
        _ => None,
    }
}

/// What words ask for that ask for a log in this version, with downtimes that recur or don't.
fn logged_task(style: Style, recur: bool, words: &[Text]) -> Option<Task<'_>>
    ensures { option_map task_view result ≡ task_logged style recur words.now }
{
    match words {
        [word, root] => daemon_task(style, recur, word, root),
        [word, root, other] => three_words(style, recur, word, root, other),
        [word, root, state, script] if !recur => resume_task(style, word, root, state, script),
        _ => None,
    }
}

fn two_words<'a>(word: &'a Text, named: &'a Text) -> Option<Task<'a>>
    ensures { option_map task_view result ≡ task_of_two word.now named.now }
{
    match word.as_str() {
        "daemon" => daemon_task(Style::One, false, word, named),
        "gen" => generate_task(named),
        _ => plain_task(word, named),
    }
}

/// What is asked of a generated site of the number of hosts that a word tells.
fn generate_task(number: &Text) -> Option<Task<'_>>
    ensures { option_map task_view result ≡ task_of_generate number.now }
{
    let hosts = hosts_of(number)?;
    Some(Task::Generate { hosts })
}

/// The number of hosts that a word tells: from 1 to 10,000, in decimal digits without a leading zero.
fn hosts_of(number: &Text) -> Option<u32>
    ensures { result ≡ hosts_in number.now }
{
    match read_whole(number.as_bytes()) {
        Some((hosts, [])) if 1 <= hosts && hosts <= MOST_HOSTS => Some(hosts as u32),
        _ => None,
    }
}

fn plain_task<'a>(word: &'a Text, named: &'a Text) -> Option<Task<'a>>
    ensures { option_map task_view result ≡ task_plain word.now named.now }
{
    let name = named.as_str();
    match word.as_str() {
        "check" if is_file_word(named) => Some(Task::Check { root: name }),
        "objects" if is_file_word(named) => Some(Task::Objects { root: name }),
        _ => None,
    }
}

fn daemon_task<'a>(style: Style, recur: bool, word: &'a Text, root: &'a Text) -> Option<Task<'a>>
    ensures { option_map task_view result ≡ task_of_daemon style recur word.now root.now }
{
    if word.as_str() == "daemon" && is_file_word(root) {
        Some(Task::Daemon {
            style,
            recur,
            root: root.as_str(),
            state: None,
        })
    } else {
        None
    }
}

fn daemon_on<'a>(style: Style, recur: bool, root: &'a Text, state: &'a Text) -> Option<Task<'a>>
    ensures { option_map task_view result ≡ daemon_with style recur root.now state.now }
{
    if is_file_word(root) && is_file_word(state) {
        Some(Task::Daemon {
            style,
            recur,
            root: root.as_str(),
            state: Some(state.as_str()),
        })
    } else {
        None
    }
}

fn three_words<'a>(
    style: Style,
    recur: bool,
    word: &'a Text,
    root: &'a Text,
    other: &'a Text,
) -> Option<Task<'a>>
    ensures { option_map task_view result ≡ task_of_three style recur word.now root.now other.now }
{
    match word.as_str() {
        "daemon" => daemon_on(style, recur, root, other),
        _ => replay_task(style, recur, word, root, other),
    }
}

/// What three words ask for that ask for no version of the log, and for no downtimes that recur.
fn three_plain<'a>(word: &'a Text, root: &'a Text, other: &'a Text) -> Option<Task<'a>>
    ensures { option_map task_view result ≡ plain_of_three word.now root.now other.now }
{
    match word.as_str() {
        "keep" => keep_task(root, other),
        "audit" => audit_task(root, other),
        _ => three_words(Style::One, false, word, root, other),
    }
}

fn four_words<'a>(
    word: &'a Text,
    root: &'a Text,
    other: &'a Text,
    last: &'a Text,
) -> Option<Task<'a>>
    ensures { option_map task_view result ≡ task_of_four word.now root.now other.now last.now }
{
    match word.as_str() {
        "resume" => resume_task(Style::One, word, root, other, last),
        _ => query_task(word, root, other, last),
    }
}

fn replay_task<'a>(
    style: Style,
    recur: bool,
    word: &'a Text,
    root: &'a Text,
    script: &'a Text,
) -> Option<Task<'a>>
    ensures { option_map task_view result ≡ task_of_replay style recur word.now root.now script.now }
{
    if word.as_str() == "replay" && is_file_word(root) && is_file_word(script) {
        Some(Task::Replay {
            style,
            recur,
            root: root.as_str(),
            script: script.as_str(),
        })
    } else {
        None
    }
}

fn query_task<'a>(
    word: &'a Text,
    root: &'a Text,
    script: &'a Text,
    query: &'a Text,
) -> Option<Task<'a>>
    ensures { option_map task_view result ≡ task_of_query word.now root.now script.now query.now }
{
    if word.as_str() == "query"
        && is_file_word(root)
        && is_file_word(script)
        && is_file_word(query)
    {
        Some(Task::Query {
            root: root.as_str(),
            script: script.as_str(),
            query: query.as_str(),
        })
    } else {
        None
    }
}

fn keep_task<'a>(root: &'a Text, script: &'a Text) -> Option<Task<'a>>
    ensures { option_map task_view result ≡ task_of_keep root.now script.now }
{
    if is_file_word(root) && is_file_word(script) {
        Some(Task::Keep {
            root: root.as_str(),
            script: script.as_str(),
        })
    } else {
        None
    }
}

fn audit_task<'a>(root: &'a Text, log: &'a Text) -> Option<Task<'a>>
    ensures { option_map task_view result ≡ task_of_audit root.now log.now }
{
    if is_file_word(root) && is_file_word(log) {
        Some(Task::Audit {
            root: root.as_str(),
            log: log.as_str(),
        })
    } else {
        None
    }
}

fn resume_task<'a>(
    style: Style,
    word: &'a Text,
    root: &'a Text,
    state: &'a Text,
    script: &'a Text,
) -> Option<Task<'a>>
    ensures { option_map task_view result ≡ task_of_resume style word.now root.now state.now script.now }
{
    if word.as_str() == "resume"
        && is_file_word(root)
        && is_file_word(state)
        && is_file_word(script)
    {
        Some(Task::Resume {
            style,
            root: root.as_str(),
            state: state.as_str(),
            script: script.as_str(),
        })
    } else {
        None
    }
}

/// Whether a word can name a file: it isn't empty and doesn't begin with `-`.
fn is_file_word(word: &Text) -> bool
    ensures { result ≡ names_file word.now }
{
    match word.as_bytes() {
        [] => false,
        [first, ..] => *first != b'-',
    }
}
