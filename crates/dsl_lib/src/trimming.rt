// Blanks at the ends of texts.
ghost use Rattle.std.specs.Prelude.{◌≡◌, reverse};
ghost use Rattle.std.specs.Str.{chars};
ghost use Rattle.dsl_lib.specs.Texts.{is_blank as is_blank_char, skip_blanks, by_chars, trimmed as trimmed_chars};

use crate::characters::last;
use site_base::first_character;

/// A text without the blanks and newlines at both ends.
pub(crate) fn trimmed(text: &str) -> &str
    ensures { result.now ≡ by_chars trimmed_chars text.now }
{
    trimmed_end(trimmed_start(text))
}

fn trimmed_start(text: &str) -> &str
    ensures { chars result.now ≡ skip_blanks (chars text.now) }
{
    let mut rest = text;
    while let Some((c, others)) = first_character(rest) {
        if !is_blank(c) {
            return rest;
        }
        rest = others;
    }
    rest
}

fn trimmed_end(text: &str) -> &str
    ensures { chars result.now ≡ reverse (skip_blanks (reverse (chars text.now))) }
{
    let mut rest = text;
    while let Some((end, before)) = last(rest) {
        if !is_blank(end) {
            return rest;
        }
        rest = before;
    }
    rest
}

fn is_blank(c: char) -> bool
    ensures { result ≡ is_blank_char c }
{
    c == ' ' || c == '\t' || c == '\r' || c == '\n'
}
