// The options of a command line.
ghost use Rattle.std.specs.Prelude.{◌≡◌, Some, IfSome, option_map};
ghost use Rattle.site_words.specs.Commands.{AreFew, AreWorkers, is_option as is_option_word, is_recur as is_recur_word, no_options, once, version_in, with_option, with_recur as recurring, workers_in};

use run_text::Style;
use site_base::Text;
use site_text::read_whole;

/// How many workers there are at most.
const MOST_WORKERS: u64 = 64;

/// What the options among the words say.
#[derive(Clone, Copy)]
pub(crate) struct Options {
    /// The version of the log.
    pub(crate) style: Option<Style>,
    /// How many workers there are.
    pub(crate) workers: Option<u32>,
    /// Whether downtimes are to recur.
    pub(crate) recur: bool,
}

impl Options {
    pub(crate) fn none() -> Options
        ensures { result ≡ no_options }
    {
        Options {
            style: None,
            workers: None,
            recur: false,
        }
    }

    /// With one option more that has a value; `None` if it isn't one, its value is none of its values, or it was given before.
    pub(crate) fn with(self, option: &Text, value: &Text) -> Option<Options>
        ensures value { result ≡ with_option self option.now value.now }
        ensures few { AreFew self → IfSome result AreFew }
    {
        match option.as_str() {
            "--log" => self.with_style(value),
            "--workers" => self.with_workers(value),
            _ => None,
        }
    }

    /// With downtimes that recur; `None` if that was asked for before.
    pub(crate) fn with_recur(self) -> Option<Options>
        ensures value { result ≡ recurring self }
        ensures few { AreFew self → IfSome result AreFew }
    {
        if self.recur {
            return None;
        }
        Some(Options {
            style: self.style,
            workers: self.workers,
            recur: true,
        })
    }

    fn with_style(self, value: &Text) -> Option<Options>
        ensures value { result ≡ option_map (λ x. record self { style = Some x }) (once self.style (version_in value.now)) }
        ensures few { AreFew self → IfSome result AreFew }
    {
        match (self.style, style_of(value)) {
            (None, Some(style)) => Some(Options {
                style: Some(style),
                workers: self.workers,
                recur: self.recur,
            }),
            _ => None,
        }
    }

    fn with_workers(self, value: &Text) -> Option<Options>
        ensures value { result ≡ option_map (λ x. record self { workers = Some x }) (once self.workers (workers_in value.now)) }
        ensures few { IfSome result AreFew }
    {
        match (self.workers, workers_of(value)) {
            (None, Some(workers)) => Some(Options {
                style: self.style,
                workers: Some(workers),
                recur: self.recur,
            }),
            _ => None,
        }
    }
}

pub(crate) fn is_option(word: &Text) -> bool
    ensures { result ≡ is_option_word word.now }
{
    word.as_str() == "--log" || word.as_str() == "--workers" || is_recur(word)
}

/// Whether a word is the option that has no value.
pub(crate) fn is_recur(word: &Text) -> bool
    ensures { result ≡ is_recur_word word.now }
{
    word.as_str() == "--recur"
}

/// The version of the log that a word tells.
fn style_of(word: &Text) -> Option<Style>
    ensures { result ≡ version_in word.now }
{
    match word.as_str() {
        "1" => Some(Style::One),
        "2" => Some(Style::Two),
        _ => None,
    }
}

/// The number of workers that a word tells: from 1 to 64, in decimal digits without a leading zero.
fn workers_of(number: &Text) -> Option<u32>
    ensures value { result ≡ workers_in number.now }
    ensures few { IfSome result AreWorkers }
{
    match read_whole(number.as_bytes()) {
        Some((workers, [])) if 1 <= workers && workers <= MOST_WORKERS => Some(workers as u32),
        _ => None,
    }
}
