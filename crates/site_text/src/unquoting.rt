// Reading quoted texts.
ghost use Rattle.std.specs.Prelude.{◌≡◌, ◌<◌, ◌≤◌, Some, None, length, IfOk, IfSome, MatchOption};
ghost use Rattle.std.specs.List.{prefix_len};
ghost use Rattle.site_text.specs.Lines.{stands_as_it_is};
ghost use Rattle.site_text.specs.ScriptReading.{got, bad, byte_at, quoted_at, body_of, unit_at, escape_at, is_plain as plain_test, octal_byte as octal_value, is_octal as octal_test, is_written_in_octal as written_in_octal};

use crate::line::stands;
use site_base::{Blob, OutOfMemory};
use std::alloc::Global;

/// The text that the quoted string at the front of some bytes spells, and what stands behind it.
#[tactic(auto, unfolding(crate::specs::ScriptReading::quoted_at))]
pub fn read_quoted(alloc: Global, bytes: &[u8]) -> Result<Option<(Blob, &[u8])>, OutOfMemory>
    ensures value { IfOk result (λ r. MatchOption r (quoted_at bytes.now ≡ bad) (λ x. quoted_at bytes.now ≡ got x.0 x.1.now)) }
    ensures shorter { IfOk result (λ r. IfSome r (λ x. length x.1.now ≤ length bytes.now)) }
{
    match bytes {
        [b'"', rest @ ..] => read_body(alloc, rest),
        _ => Ok(None),
    }
}

/// The same behind the opening quote.
fn read_body(alloc: Global, bytes: &[u8]) -> Result<Option<(Blob, &[u8])>, OutOfMemory>
    ensures value { IfOk result (λ r. MatchOption r (body_of bytes.now ≡ bad) (λ x. body_of bytes.now ≡ got x.0 x.1.now)) }
    ensures shorter { IfOk result (λ r. IfSome r (λ x. length x.1.now ≤ length bytes.now)) }
{
    let (front, behind) = bytes.split_at(front_len(bytes));
    let mut text = Vec::from_slice(alloc, front)?;
    let mut rest = behind;
    while let [first, more @ ..] = rest {
        if *first == b'"' {
            return Ok(Some((Blob::from(text), more)));
        }
        let Some((byte, behind)) = read_byte(rest) else {
            return Ok(None);
        };
        text.push(byte)?;
        rest = behind;
    }
    Ok(None)
}

/// How many bytes in front stand for themselves between quotes.
fn front_len(bytes: &[u8]) -> usize
    ensures value { result ≡ prefix_len stands_as_it_is bytes.now }
    ensures within { result ≤ length bytes.now }
{
    bytes.iter().take_while(|byte| stands(**byte)).count()
}

/// What stands behind this byte, if it stands first.
pub(crate) fn behind_byte(bytes: &[u8], byte: u8) -> Option<&[u8]>
    ensures value { MatchOption result (byte_at byte bytes.now ≡ None) (λ x. byte_at byte bytes.now ≡ Some x.now) }
    ensures shorter { IfSome result (λ x. length x.now ≤ length bytes.now) }
{
    match bytes {
        [first, rest @ ..] if *first == byte => Some(rest),
        _ => None,
    }
}

/// The byte that the front of a text between quotes spells, and what stands behind it.
#[tactic(auto, unfolding(crate::specs::ScriptReading::unit_at))]
fn read_byte(bytes: &[u8]) -> Option<(u8, &[u8])>
    ensures value { MatchOption result (unit_at bytes.now ≡ bad) (λ x. unit_at bytes.now ≡ got x.0 x.1.now) }
    ensures shorter { IfSome result (λ x. length x.1.now < length bytes.now) }
{
    match bytes {
        [b'\\', rest @ ..] => read_escape(rest),
        [byte, rest @ ..] if is_plain(*byte) => Some((*byte, rest)),
        _ => None,
    }
}

/// Whether a byte that is no backslash stands for itself between quotes.
fn is_plain(byte: u8) -> bool
    ensures { result ≡ plain_test byte }
{
    byte >= 32 && byte != b'"' && byte != 127
}

/// The byte that an escape spells behind its backslash, and what stands behind it.
#[tactic(auto, unfolding(crate::specs::ScriptReading::escape_at))]
fn read_escape(bytes: &[u8]) -> Option<(u8, &[u8])>
    ensures value { MatchOption result (escape_at bytes.now ≡ bad) (λ x. escape_at bytes.now ≡ got x.0 x.1.now) }
    ensures shorter { IfSome result (λ x. length x.1.now ≤ length bytes.now) }
{
    match bytes {
        [b'"', rest @ ..] => Some((b'"', rest)),
        [b'\\', rest @ ..] => Some((b'\\', rest)),
        [b'n', rest @ ..] => Some((b'\n', rest)),
        [b't', rest @ ..] => Some((b'\t', rest)),
        [b'r', rest @ ..] => Some((b'\r', rest)),
        [x, y, z, rest @ ..] => Some((octal_byte(*x, *y, *z)?, rest)),
        _ => None,
    }
}

/// The byte that is written by these three octal digits, and in no other way.
fn octal_byte(x: u8, y: u8, z: u8) -> Option<u8>
    ensures { result ≡ octal_value x y z }
{
    if !is_octal(x) || !is_octal(y) || !is_octal(z) || x > b'1' {
        return None;
    }
    let byte = (x - b'0') * 64 + (y - b'0') * 8 + (z - b'0');
    if is_written_in_octal(byte) {
        Some(byte)
    } else {
        None
    }
}

fn is_octal(byte: u8) -> bool
    ensures { result ≡ octal_test byte }
{
    matches!(byte, b'0'..=b'7')
}

/// Whether a byte is written by its octal digits.
fn is_written_in_octal(byte: u8) -> bool
    ensures { result ≡ written_in_octal byte }
{
    match byte {
        b'\n' | b'\t' | b'\r' => false,
        _ => byte < 32 || byte == 127,
    }
}
