// How a pattern is held against a text.
ghost use Rattle.std.specs.Prelude.{◌≡◌};
ghost use Rattle.std.specs.Str.{chars};
ghost use Rattle.wildcards.specs.Wildcards.{matches as matches_text, describes, any_then, stands_for as part_stands_for, Walked};

use site_base::first_character;

/// How far a pattern goes along a text before its first `*`.
enum Walk<'a> {
    /// To the end of both.
    Passed,
    /// Not so far.
    Failed,
    /// To a `*`: what follows it, and what is left of the text.
    Star(&'a str, &'a str),
}

/// Whether a text is one that a pattern describes: `*` is any number of characters, `?` is one, and
/// everything else is itself.
///
/// It takes time by the product of their lengths at worst, whatever the number of `*`, and no memory.
pub fn matches(pattern: &str, text: &str) -> bool
    ensures { result ≡ matches_text pattern.now text.now }
{
    match go_along(pattern, text) {
        Walk::Passed => true,
        Walk::Failed => false,
        Walk::Star(parts, rest) => any_rest(parts, rest),
    }
}

/// Whether a pattern describes some rest of a text. What a `*` is first found to describe is enough: where
/// it could describe more, so could the next `*`.
fn any_rest(pattern: &str, text: &str) -> bool
    ensures { result ≡ any_then (describes (chars pattern.now)) (chars text.now) }
{
    let mut parts = pattern;
    let mut rest = text;
    loop {
        match go_along(parts, rest) {
            Walk::Passed => return true,
            Walk::Failed => match first_character(rest) {
                Some((_, others)) => rest = others,
                None => return false,
            },
            Walk::Star(more, others) => {
                parts = more;
                rest = others;
            }
        }
    }
}

/// Goes along a text up to the pattern's first `*`.
fn go_along<'a>(pattern: &'a str, text: &'a str) -> Walk<'a>
    ensures { Walked (chars pattern.now) (chars text.now) result }
{
    let mut parts = pattern;
    let mut left = text;
    while let Some((part, more)) = first_character(parts) {
        if part == '*' {
            return Walk::Star(more, left);
        }
        let Some((c, others)) = first_character(left) else {
            return Walk::Failed;
        };
        if !stands_for(part, c) {
            return Walk::Failed;
        }
        parts = more;
        left = others;
    }
    match first_character(left) {
        Some(_) => Walk::Failed,
        None => Walk::Passed,
    }
}

/// Whether a part that is no `*` stands for a character.
fn stands_for(part: char, c: char) -> bool
    ensures { result ≡ part_stands_for part c }
{
    part == '?' || part == c
}
