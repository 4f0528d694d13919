ghost use Rattle.std.specs.Prelude.{◌≡◌, ◌<◌, ◌+◌, length};
ghost use Rattle.dsl_lexer.specs.Letters.{is_octal as octal};
ghost use Rattle.dsl_lexer.specs.Strings.{unit_of, escape_of, octal_of, octal_second, octal_third, octal_byte, IsWithin};

/// What stands at a place inside a string.
#[derive(Clone, Copy)]
pub(crate) enum Unit {
    /// A byte of the text, and how many bytes it is written with.
    Byte(u8, usize),
    /// The closing quote.
    Quote,
    /// The end of the line or of the text, or an escape that isn't one.
    Bad,
}

/// What the bytes inside a string begin with.
#[tactic(auto, unfolding(crate::specs::Strings::unit_of))]
pub(crate) fn read_unit(bytes: &[u8]) -> Unit
    ensures value { result ≡ unit_of bytes.now }
    ensures within { IsWithin result (length bytes.now) }
{
    match bytes {
        [] | [b'\n', ..] => Unit::Bad,
        [b'"', ..] => Unit::Quote,
        [b'\\', rest @ ..] => read_escape(rest),
        [byte, ..] => Unit::Byte(*byte, 1),
    }
}

/// What stands for the bytes behind a backslash.
#[tactic(auto, unfolding(crate::specs::Strings::escape_of))]
fn read_escape(bytes: &[u8]) -> Unit
    ensures value { result ≡ escape_of bytes.now }
    ensures within { IsWithin result (1 + length bytes.now) }
{
    match bytes {
        [b'"', ..] => Unit::Byte(b'"', 2),
        [b'\\', ..] => Unit::Byte(b'\\', 2),
        [b't', ..] => Unit::Byte(b'\t', 2),
        [b'r', ..] => Unit::Byte(b'\r', 2),
        [b'n', ..] => Unit::Byte(b'\n', 2),
        [b'b', ..] => Unit::Byte(8, 2),
        [b'f', ..] => Unit::Byte(12, 2),
        _ => read_octal(bytes),
    }
}

/// What one to three octal digits stand for.
#[tactic(auto, unfolding(crate::specs::Strings::octal_of))]
fn read_octal(bytes: &[u8]) -> Unit
    ensures value { result ≡ octal_of bytes.now }
    ensures within { IsWithin result (1 + length bytes.now) }
{
    match bytes {
        [first, rest @ ..] if is_octal(*first) => second_digit(*first - b'0', rest),
        _ => Unit::Bad,
    }
}

fn second_digit(value: u8, bytes: &[u8]) -> Unit
    requires { value < 8 }
    ensures value { result ≡ octal_second value bytes.now }
    ensures within { IsWithin result (2 + length bytes.now) }
{
    match bytes {
        [second, rest @ ..] if is_octal(*second) => third_digit(value * 8 + (*second - b'0'), rest),
        _ => Unit::Byte(value, 2),
    }
}

fn third_digit(value: u8, bytes: &[u8]) -> Unit
    requires { value < 64 }
    ensures value { result ≡ octal_third value bytes.now }
    ensures within { IsWithin result (3 + length bytes.now) }
{
    match bytes {
        [third, ..] if is_octal(*third) => {
            ascii_byte(u16::from(value) * 8 + u16::from(*third - b'0'))
        }
        _ => Unit::Byte(value, 3),
    }
}

/// The byte that three octal digits stand for, if it is at most 127.
fn ascii_byte(value: u16) -> Unit
    ensures value { result ≡ octal_byte value }
    ensures within { IsWithin result 4 }
{
    if value < 128 {
        Unit::Byte(value as u8, 4)
    } else {
        Unit::Bad
    }
}

fn is_octal(byte: u8) -> bool
    ensures { result ≡ octal byte }
{
    (b'0'..=b'7').contains(&byte)
}
