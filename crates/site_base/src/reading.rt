// How numbers are read.
ghost use Rattle.std.specs.Prelude.{◌≡◌, ◌≢◌, ℕ, pos, ◌+◌, ◌*◌, ◌^◌, ◌<◌, ◌≤◌, length, drop, MatchOption, IfSome, SomeIff};
ghost use Rattle.std.specs.Char.{is_ascii_digit};
ghost use Rattle.std.specs.List.{prefix_len, take_while};
ghost use Rattle.std.specs.Str.Parse.{AllDigits, digits_value};
ghost use Rattle.site_base.specs.Numbers.{ranged};
ghost use Rattle.site_base.specs.Reading.{unit_size, pointed, digits_behind, scaled, number_read};

use crate::Num;

/// The thousandths of a day, the greatest unit.
const DAY: u64 = 24 * 60 * 60 * 1000;

/// The number that a text stands for.
pub(crate) fn read_number(text: &[u8]) -> Option<Num>
    ensures { result ≡ number_read text.now }
{
    let (whole, rest) = split_digits(text);
    let (behind, unit) = split_fraction(rest);
    if whole.is_empty() {
        return None;
    }
    scaled_digits(whole, behind, thousandths_in(unit)?)
}

/// The digits at the front of a text, and what follows them.
fn split_digits(text: &[u8]) -> (&[u8], &[u8])
    ensures digits { result.0.now ≡ take_while is_ascii_digit text.now }
    ensures rest { result.1.now ≡ drop (prefix_len is_ascii_digit text.now) text.now }
{
    text.split_at(digits_len(text))
}

/// How many digits stand at the front of a text.
fn digits_len(text: &[u8]) -> usize
    ensures { result ≡ length (take_while is_ascii_digit text.now) }
{
    text.iter().take_while(|b| b.is_ascii_digit()).count()
}

/// The digits after the point with which a text begins, and what follows them; a point without
/// digits is part of what follows.
fn split_fraction(text: &[u8]) -> (&[u8], &[u8])
    ensures digits { result.0.now ≡ digits_behind text.now }
    ensures rest { result.1.now ≡ drop (length (pointed (digits_behind text.now))) text.now }
{
    if let [b'.', more @ ..] = text {
        let (digits, rest) = split_digits(more);
        if !digits.is_empty() {
            return (digits, rest);
        }
    }
    (&[], text)
}

/// How many thousandths one of a unit is.
fn thousandths_in(unit: &[u8]) -> Option<u64>
    ensures value { result ≡ unit_size unit.now }
    ensures least { IfSome result (λ size. 0 < size) }
    ensures greatest { IfSome result (λ size. size ≤ DAY) }
{
    match unit {
        b"" | b"s" => Some(1000),
        b"ms" => Some(1),
        b"m" => Some(60 * 1000),
        b"h" => Some(60 * 60 * 1000),
        b"d" => Some(DAY),
        _ => None,
    }
}

/// The number that the digits before and after the point stand for, in a unit of this size.
fn scaled_digits(whole: &[u8], behind: &[u8], size: u64) -> Option<Num>
    requires whole { AllDigits 10 whole.now }
    requires behind { AllDigits 10 behind.now }
    requires least { 0 < size }
    requires greatest { size ≤ DAY }
    ensures { result ≡ scaled whole.now behind.now size }
{
    let part = part_of_unit(behind, size)?;
    let units = digits_number(whole)?;
    total(units, size, part)
}

/// So many units of a size, and a part of one.
fn total(units: u64, size: u64, part: u64) -> Option<Num>
    ensures { result ≡ ranged (pos (units * size + part)) }
{
    let thousandths = units.checked_mul(size)?.checked_add(part)?;
    let thousandths = i64::try_from(thousandths).ok()?;
    Some(Num::of(thousandths))
}

/// The thousandths that the digits after the point stand for, if they are whole.
fn part_of_unit(behind: &[u8], size: u64) -> Option<u64>
    requires digits { AllDigits 10 behind.now }
    requires greatest { size ≤ DAY }
    ensures value { MatchOption result ((n : ℕ) → n * 10 ^ length behind.now ≢ digits_value 10 behind.now * size) (λ n. n * 10 ^ length behind.now ≡ digits_value 10 behind.now * size) }
    ensures within { IfSome result (λ n. n ≤ size) }
{
    let mut part = 0;
    let mut digits = behind;
    while let [front @ .., last] = digits {
        let sum = u64::from(*last - b'0') * size + part;
        if sum % 10 != 0 {
            return None;
        }
        part = sum / 10;
        digits = front;
    }
    Some(part)
}

/// The number that digits make, if it is below 2^64.
fn digits_number(digits: &[u8]) -> Option<u64>
    requires { AllDigits 10 digits.now }
    ensures { SomeIff result (digits_value 10 digits.now < 2 ^ 64) (digits_value 10 digits.now) }
{
    let mut number: u64 = 0;
    for digit in digits {
        number = number
            .checked_mul(10)?
            .checked_add(u64::from(*digit - b'0'))?;
    }
    Some(number)
}
