// Which text is a reserved word.
ghost use Rattle.std.specs.Prelude.{◌≡◌};
ghost use Rattle.dsl_lexer.specs.Words.{word_of, words_from, word_among as first_word};

use crate::Word;

/// The reserved word that is written so.
#[tactic(auto, unfolding(crate::specs::Words::word_of))]
pub(crate) fn read_word(text: &[u8]) -> Option<Word>
    ensures { result ≡ word_of text.now }
{
    match text {
        [first, ..] => word_among(words_with(*first), text),
        [] => None,
    }
}

/// The words that begin with this byte.
fn words_with(first: u8) -> &'static [Word]
    ensures { result.now ≡ words_from first }
{
    match first {
        b'a' => &[Word::Apply, Word::Assign],
        b'b' => &[Word::Break],
        b'c' => &[Word::Const, Word::Continue],
        b'd' => &[Word::Debugger],
        b'e' => &[Word::Else, Word::Except],
        b'f' => &[Word::For, Word::Function, Word::False],
        b'g' => &[Word::Globals],
        b'i' => &[
            Word::In,
            Word::Ignore,
            Word::Import,
            Word::Include,
            Word::IncludeRecursive,
            Word::If,
            Word::IgnoreOnError,
            Word::IncludeZones,
        ],
        b'l' => &[Word::Locals, Word::Library],
        b'n' => &[Word::Null, Word::Namespace],
        b'o' => &[Word::Object],
        b'r' => &[Word::Return],
        b't' => &[
            Word::Template,
            Word::To,
            Word::Throw,
            Word::True,
            Word::This,
            Word::Try,
        ],
        b'u' => &[Word::Use, Word::Using],
        b'v' => &[Word::Var],
        b'w' => &[Word::Where, Word::While],
        _ => &[],
    }
}

/// The first word of these that is written so.
fn word_among(words: &[Word], text: &[u8]) -> Option<Word>
    ensures { result ≡ first_word words.now text.now }
{
    for word in words {
        if text == word.spelling().as_bytes() {
            return Some(*word);
        }
    }
    None
}
