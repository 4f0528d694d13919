// How many bytes names, numbers, lines and the like take.
ghost use Rattle.std.specs.Prelude.{◌≡◌, ◌≤◌, ◌<◌, ◌+◌, ◌^◌, length, take, Option, Some, IfSome};
ghost use Rattle.std.specs.List.{prefix_len};
ghost use Rattle.std.specs.Char.{is_ascii_digit};
ghost use Rattle.std.specs.Str.{IsAscii};
ghost use Rattle.dsl_lexer.specs.Letters.{is_name_byte as continues_name, is_inner};
ghost use Rattle.dsl_lexer.specs.Steps.{fraction_len as fraction_of, pointed_len as pointed_of, number_len as number_of, find_end};

use crate::letters::is_name_byte;

/// How many bytes of a name stand at the front of a text.
pub(crate) fn name_len(text: &[u8]) -> usize
    ensures value { result ≡ prefix_len continues_name text.now }
    ensures within { result ≤ length text.now }
    ensures ascii { IsAscii (take result text.now) }
{
    text.iter().take_while(|b| is_name_byte(**b)).count()
}

/// How many digits stand at the front of a text.
fn digits_len(text: &[u8]) -> usize
    ensures value { result ≡ prefix_len is_ascii_digit text.now }
    ensures within { result ≤ length text.now }
{
    text.iter().take_while(|b| b.is_ascii_digit()).count()
}

/// How many bytes stand before the end of the line.
pub(crate) fn line_len(text: &[u8]) -> usize
    ensures { result ≡ prefix_len is_inner text.now }
{
    text.iter().take_while(|b| **b != b'\n').count()
}

/// How many bytes of a number stand at the front of a text, with all letters, digits and `_` that
/// follow it.
pub(crate) fn number_len(text: &[u8]) -> usize
    ensures value { result ≡ number_of text.now }
    ensures within { result ≤ length text.now }
{
    let whole = digits_len(text);
    let behind = whole + fraction_len(text.split_at(whole).1);
    behind + name_len(text.split_at(behind).1)
}

/// How many bytes a point with digits takes at the front of a text.
fn fraction_len(text: &[u8]) -> usize
    ensures value { result ≡ fraction_of text.now }
    ensures within { result ≤ length text.now }
{
    match text {
        [b'.', rest @ ..] => pointed_len(digits_len(rest)),
        _ => 0,
    }
}

/// How many bytes a point takes with so many digits behind it: none without digits.
fn pointed_len(digits: usize) -> usize
    requires { digits < 2 ^ 63 }
    ensures { result ≡ pointed_of digits }
{
    if digits == 0 { 0 } else { 1 + digits }
}

/// How many bytes stand before the first place where a text ends in this way.
pub(crate) fn end_len(end: &[u8], text: &[u8]) -> Option<usize>
    ensures value { result ≡ find_end end.now text.now }
    ensures within { IfSome result (λ n. n + length end.now ≤ length text.now) }
{
    for len in 0..text.len() {
        let (_, behind) = text.split_at(len);
        if behind.starts_with(end) {
            return Some(len);
        }
    }
    None
}
