// Numbers of a line.
ghost use Rattle.std.specs.Prelude.{◌≡◌, ◌≤◌, length, slice_index, nat_le, Some, None, IfSome, drop, if◌then◌else◌};
ghost use Rattle.std.specs.Char.{is_ascii_digit};
ghost use Rattle.std.specs.List.{list_all};
ghost use Rattle.event_text.specs.Lent.{numbers_view, texts_view};
ghost use Rattle.event_text.specs.Numbers.{is_number as number_test, number_in, numbers_in, AreWithin};
ghost use Rattle.event_text.specs.Kinds.{count_of, kind_of, limits_of, names_of};

use crate::Command;
use crate::limit::Limit;
use arrayvec::ArrayVec;

/// Whether a text is digits alone, one or more and at most so many.
pub(crate) fn is_number(text: &str, most: usize) -> bool
    ensures { result ≡ number_test most text.now }
{
    !text.is_empty() && text.len() <= most && are_digits(text.as_bytes())
}

fn are_digits(bytes: &[u8]) -> bool
    ensures { result ≡ list_all is_ascii_digit bytes.now }
{
    bytes.iter().all(|b| b.is_ascii_digit())
}

/// The number of at most so many digits that a text stands for, if it is at most so great.
fn read_number(text: &str, digits: usize, most: u64) -> Option<u64>
    ensures { result ≡ number_in (record { digits = digits; most = most }) text.now }
{
    if !is_number(text, digits) {
        return None;
    }
    match text.parse::<u64>() {
        Ok(number) => at_most(number, most),
        Err(_) => None,
    }
}

fn at_most(number: u64, most: u64) -> Option<u64>
    ensures { result ≡ (if nat_le number most then Some number else None) }
{
    if number <= most { Some(number) } else { None }
}

/// The numbers within these limits that the first texts stand for.
fn read_numbers(limits: &[Limit], texts: &[&str]) -> Option<ArrayVec<u64, 5>>
    requires each { length limits.now ≤ length texts.now }
    requires few { length limits.now ≤ 5 }
    ensures { numbers_view result ≡ numbers_in limits.now (texts_view texts.now) }
{
    let mut numbers: ArrayVec<u64, 5> = ArrayVec::new();
    for i in 0..limits.len() {
        let Some(number) = read_number(texts[i], limits[i].digits, limits[i].most) else {
            return None;
        };
        numbers.push(number);
    }
    Some(numbers)
}

/// The numbers of a command, which stand behind the names in its fields.
pub(crate) fn numbers_of(command: Command, fields: &[&str]) -> Option<ArrayVec<u64, 5>>
    requires { length fields.now ≡ count_of command }
    ensures value { numbers_view result ≡ numbers_in (limits_of (kind_of command)) (drop (names_of command) (texts_view fields.now)) }
    ensures within { IfSome result (λ v. AreWithin (limits_of (kind_of command)) v.items) }
{
    let behind = behind_names(fields, command.names());
    read_numbers(command.kind().limits(), behind)
}

/// The fields behind so many.
fn behind_names<'a>(fields: &'a [&'a str], names: usize) -> &'a [&'a str]
    requires { names ≤ length fields.now }
    ensures { result.now ≡ drop names fields.now }
{
    fields.split_at(names).1
}

/// The number at a place, or 0 if there is none.
pub(crate) fn number(numbers: &[u64], place: usize) -> u64
    ensures { result ≡ slice_index numbers.now place }
{
    match numbers.get(place) {
        Some(number) => *number,
        None => 0,
    }
}
