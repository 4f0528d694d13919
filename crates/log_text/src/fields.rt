// The fields of lines.
ghost use Rattle.std.specs.Prelude.{◌≡◌, Some, None, MatchOption};
ghost use Rattle.log_text.specs.EntryReading.{last_moment, last_word};
ghost use Rattle.log_text.specs.Fronts.{behind as rest_behind, bounded_at, flag_at, name_at, number_at, text_at, Gives};

use crate::EntryError;
use site_base::{Moment, Text};
use site_model::Names;
use site_text::{read_quoted, read_whole};
use std::alloc::Global;

/// What stands behind a word; `None` if it doesn't stand first.
pub(crate) fn strip<'a>(bytes: &'a [u8], word: &str) -> Option<&'a [u8]>
    ensures { MatchOption result (rest_behind word.now bytes.now ≡ None) (λ x. rest_behind word.now bytes.now ≡ Some x.now) }
{
    bytes.strip_prefix(word.as_bytes())
}

/// What stands behind a word, which must stand first.
pub(crate) fn behind<'a>(bytes: &'a [u8], word: &str) -> Result<&'a [u8], EntryError>
    ensures { Gives (λ x. x.now) result (rest_behind word.now bytes.now) }
{
    match strip(bytes, word) {
        Some(rest) => Ok(rest),
        None => Err(EntryError::BadLine),
    }
}

/// Whether the first or the second of two words stands there, and what stands behind it.
pub(crate) fn read_flag<'a>(
    bytes: &'a [u8],
    word: &str,
    other: &str,
) -> Result<(bool, &'a [u8]), EntryError>
    ensures { Gives (λ x. (x.0, x.1.now)) result (flag_at word.now other.now bytes.now) }
{
    if let Some(rest) = bytes.strip_prefix(word.as_bytes()) {
        return Ok((true, rest));
    }
    match bytes.strip_prefix(other.as_bytes()) {
        Some(rest) => Ok((false, rest)),
        None => Err(EntryError::BadLine),
    }
}

/// A number of 64 bits.
pub(crate) fn read_number(bytes: &[u8]) -> Result<(u64, &[u8]), EntryError>
    ensures { Gives (λ x. (x.0, x.1.now)) result (number_at bytes.now) }
{
    match read_whole(bytes) {
        Some((number, rest)) => Ok((number, rest)),
        None => Err(EntryError::BadLine),
    }
}

/// A number of 32 bits.
#[tactic(auto, unfolding(crate::specs::Fronts::bounded_at))]
pub(crate) fn read_word(bytes: &[u8]) -> Result<(u32, &[u8]), EntryError>
    ensures { Gives (λ x. (x.0, x.1.now)) result (bounded_at last_word bytes.now) }
{
    let (number, rest) = read_number(bytes)?;
    match u32::try_from(number) {
        Ok(number) => Ok((number, rest)),
        Err(_) => Err(EntryError::BadLine),
    }
}

#[tactic(auto, unfolding(crate::specs::Fronts::bounded_at))]
pub(crate) fn read_moment(bytes: &[u8]) -> Result<(Moment, &[u8]), EntryError>
    ensures { Gives (λ x. (x.0, x.1.now)) result (bounded_at last_moment bytes.now) }
{
    let (secs, rest) = read_number(bytes)?;
    match Moment::of(secs) {
        Some(moment) => Ok((moment, rest)),
        None => Err(EntryError::BadLine),
    }
}

/// The status of a result, from 0 to 3.
#[tactic(auto, unfolding(crate::specs::Fronts::bounded_at))]
pub(crate) fn read_status(bytes: &[u8]) -> Result<(u8, &[u8]), EntryError>
    ensures { Gives (λ x. (x.0, x.1.now)) result (bounded_at 3 bytes.now) }
{
    let (status, rest) = read_number(bytes)?;
    if status > 3 {
        return Err(EntryError::BadLine);
    }
    Ok((status as u8, rest))
}

/// A quoted text.
#[tactic(auto, unfolding(crate::specs::Fronts::text_at))]
pub(crate) fn read_text(alloc: Global, bytes: &[u8]) -> Result<(Text, &[u8]), EntryError>
    ensures { Gives (λ x. (x.0, x.1.now)) result (text_at bytes.now) }
{
    let Some((spelled, rest)) = read_quoted(alloc, bytes)? else {
        return Err(EntryError::BadLine);
    };
    match str::from_utf8(spelled.as_slice()) {
        Ok(text) => Ok((Text::copy_of(alloc, text)?, rest)),
        Err(_) => Err(EntryError::BadLine),
    }
}

/// The place of a quoted name.
#[tactic(auto, unfolding(crate::specs::Fronts::name_at))]
pub(crate) fn read_name<'a>(
    alloc: Global,
    bytes: &'a [u8],
    names: &Names,
) -> Result<(u32, &'a [u8]), EntryError>
    ensures { Gives (λ x. (x.0, x.1.now)) result (name_at names.now bytes.now) }
{
    let (name, rest) = read_text(alloc, bytes)?;
    match names.find(name.as_str()) {
        Some(place) => Ok((place, rest)),
        None => Err(EntryError::BadLine),
    }
}
