// Reading decimal numbers.
ghost use Rattle.std.specs.Prelude.{◌≡◌, ◌<◌, ◌≤◌, length, true, false, IfSome, MatchOption};
ghost use Rattle.std.specs.Char.{is_ascii_digit};
ghost use Rattle.std.specs.List.{prefix_len};
ghost use Rattle.std.specs.Str.Parse.{AllDigits, digits_value};
ghost use Rattle.site_text.specs.ScriptReading.{got, bad, decimal_at, number_at, is_decimal as decimal_test};
ghost use Rattle.site_text.specs.Wholes.{whole_at, whole_value as value_of};

use crate::unquoting::behind_byte;

/// A number of 64 bits has at most so many digits.
const MOST_DIGITS: usize = 20;

/// The number of 64 bits at the front of some bytes, written in decimal digits without a leading zero,
/// and what stands behind it; `None` if no digit stands there, or the digits are of no such number.
#[tactic(auto, unfolding(crate::specs::Wholes::whole_at))]
pub fn read_whole(bytes: &[u8]) -> Option<(u64, &[u8])>
    ensures { MatchOption result (whole_at bytes.now ≡ bad) (λ x. whole_at bytes.now ≡ got x.0 x.1.now) }
{
    let (digits, rest) = bytes.split_at(digits_len(bytes));
    let number = whole_value(digits)?;
    Some((number, rest))
}

/// The number of 64 bits that these digits are the decimal of.
fn whole_value(digits: &[u8]) -> Option<u64>
    requires { AllDigits 10 digits.now }
    ensures { result ≡ value_of digits.now }
{
    if !is_decimal(digits, MOST_DIGITS) {
        return None;
    }
    digits_text(digits).parse().ok()
}

/// The number at the front of some bytes and the byte behind it, and what stands behind that.
#[tactic(auto, unfolding(crate::specs::ScriptReading::number_at))]
pub(crate) fn read_number(bytes: &[u8], most: usize, end: u8) -> Option<(u64, &[u8])>
    requires { most ≤ 19 }
    ensures value { MatchOption result (number_at end most bytes.now ≡ bad) (λ x. number_at end most bytes.now ≡ got x.0 x.1.now) }
    ensures shorter { IfSome result (λ x. length x.1.now ≤ length bytes.now) }
{
    let (number, rest) = read_decimal(bytes, most)?;
    let rest = behind_byte(rest, end)?;
    Some((number, rest))
}

/// The number at the front of some bytes, written in at most so many decimal digits without a leading
/// zero, and what stands behind it.
#[tactic(auto, unfolding(crate::specs::ScriptReading::decimal_at))]
fn read_decimal(bytes: &[u8], most: usize) -> Option<(u64, &[u8])>
    requires { most ≤ 19 }
    ensures value { MatchOption result (decimal_at most bytes.now ≡ bad) (λ x. decimal_at most bytes.now ≡ got x.0 x.1.now) }
    ensures shorter { IfSome result (λ x. length x.1.now ≤ length bytes.now) }
{
    let (digits, rest) = bytes.split_at(digits_len(bytes));
    let number = decimal_value(digits, most)?;
    Some((number, rest))
}

/// How many digits stand at the front of some bytes.
fn digits_len(bytes: &[u8]) -> usize
    ensures value { result ≡ prefix_len is_ascii_digit bytes.now }
    ensures within { result ≤ length bytes.now }
{
    bytes.iter().take_while(|b| b.is_ascii_digit()).count()
}

/// The number that these digits are the decimal of.
fn decimal_value(digits: &[u8], most: usize) -> Option<u64>
    requires few { most ≤ 19 }
    requires digits { AllDigits 10 digits.now }
    ensures { MatchOption result (decimal_test most digits.now ≡ false) (λ n. (decimal_test most digits.now ≡ true) × (n ≡ digits_value 10 digits.now)) }
{
    if !is_decimal(digits, most) {
        return None;
    }
    digits_text(digits).parse().ok()
}

/// Digits as a text.
fn digits_text(digits: &[u8]) -> &str
    requires { AllDigits 10 digits.now }
    ensures { result.now ≡ digits.now }
{
    match str::from_utf8(digits) {
        Ok(text) => text,
        Err(_) => unreachable!(),
    }
}

/// Whether digits have no leading zero and are at most so many.
fn is_decimal(digits: &[u8], most: usize) -> bool
    ensures { result ≡ decimal_test most digits.now }
{
    match digits {
        [] => false,
        [_] => most >= 1,
        [first, ..] => *first != b'0' && digits.len() <= most,
    }
}
