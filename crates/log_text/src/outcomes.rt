// Reading outcomes.
ghost use Rattle.std.specs.Prelude.{◌≡◌, drop, length};
ghost use Rattle.log_text.specs.EntryReading.{depend_at, downtime_at, host_at, outcome_at, plain_outcome_at, sent_at, users_within};
ghost use Rattle.log_text.specs.Fronts.{Gives};
ghost use Rattle.log_text.specs.SiteNames.{names_view};

use crate::fields::{read_name, read_number, strip};
use crate::{EntryError, SiteNames};
use site_base::Row;
use site_model::{Names, Outcome};
use std::alloc::Global;

#[tactic(auto, unfolding(crate::specs::EntryReading::outcome_at))]
pub(crate) fn read_outcome<'a>(
    alloc: Global,
    bytes: &'a [u8],
    names: &SiteNames,
) -> Result<(Outcome, &'a [u8]), EntryError>
    ensures { Gives (λ x. (x.0, x.1.now)) result (outcome_at (names_view names.now) bytes.now) }
{
    if let Some(rest) = bytes.strip_prefix(b"Sent") {
        return read_sent(alloc, rest, names);
    }
    if let Some(rest) = bytes.strip_prefix(b"Dependency ") {
        return read_dependency(alloc, rest, names);
    }
    if let Some(rest) = bytes.strip_prefix(b"Host ") {
        return read_host(alloc, rest, names);
    }
    if let Some(rest) = bytes.strip_prefix(b"Downtime ") {
        return read_downtime(rest);
    }
    read_plain_outcome(bytes)
}

#[tactic(auto, unfolding(crate::specs::EntryReading::sent_at))]
fn read_sent<'a>(
    alloc: Global,
    bytes: &'a [u8],
    names: &SiteNames,
) -> Result<(Outcome, &'a [u8]), EntryError>
    ensures { Gives (λ x. (x.0, x.1.now)) result (sent_at (names_view names.now) bytes.now) }
{
    let (users, rest) = read_users(alloc, bytes, &names.users)?;
    Ok((Outcome::Sent { users }, rest))
}

/// Receivers with a blank before each, of which each takes a byte at least.
fn read_users<'a>(
    alloc: Global,
    bytes: &'a [u8],
    names: &Names,
) -> Result<(Row<u32>, &'a [u8]), EntryError>
    ensures { Gives (λ x. (x.0, x.1.now)) result (users_within (length bytes.now) names.now bytes.now) }
{
    let mut users = Row::new(alloc);
    let mut rest = bytes;
    for _ in 0..bytes.len() {
        let Some(_) = strip(rest, " \"") else {
            return Ok((users, rest));
        };
        let (user, after) = read_name(alloc, without_first(rest), names)?;
        users.push(user)?;
        rest = after;
    }
    Err(EntryError::BadLine)
}

/// What stands behind the first byte, if there is one.
fn without_first(bytes: &[u8]) -> &[u8]
    ensures { result.now ≡ drop 1 bytes.now }
{
    match bytes {
        [_, rest @ ..] => rest,
        _ => bytes,
    }
}

#[tactic(auto, unfolding(crate::specs::EntryReading::depend_at))]
fn read_dependency<'a>(
    alloc: Global,
    bytes: &'a [u8],
    names: &SiteNames,
) -> Result<(Outcome, &'a [u8]), EntryError>
    ensures { Gives (λ x. (x.0, x.1.now)) result (depend_at (names_view names.now) bytes.now) }
{
    let (depend, rest) = read_name(alloc, bytes, &names.depends)?;
    Ok((Outcome::Dependency { depend }, rest))
}

#[tactic(auto, unfolding(crate::specs::EntryReading::host_at))]
fn read_host<'a>(
    alloc: Global,
    bytes: &'a [u8],
    names: &SiteNames,
) -> Result<(Outcome, &'a [u8]), EntryError>
    ensures { Gives (λ x. (x.0, x.1.now)) result (host_at (names_view names.now) bytes.now) }
{
    let (checkable, rest) = read_name(alloc, bytes, names.checkables)?;
    Ok((Outcome::Host { checkable }, rest))
}

#[tactic(auto, unfolding(crate::specs::EntryReading::downtime_at))]
fn read_downtime(bytes: &[u8]) -> Result<(Outcome, &[u8]), EntryError>
    ensures { Gives (λ x. (x.0, x.1.now)) result (downtime_at bytes.now) }
{
    let (number, rest) = read_number(bytes)?;
    Ok((Outcome::Downtime { number }, rest))
}

/// An outcome that names nothing.
#[tactic(auto, unfolding(crate::specs::EntryReading::plain_outcome_at))]
fn read_plain_outcome(bytes: &[u8]) -> Result<(Outcome, &[u8]), EntryError>
    ensures { Gives (λ x. (x.0, x.1.now)) result (plain_outcome_at bytes.now) }
{
    if let Some(rest) = bytes.strip_prefix(b"Disabled") {
        return Ok((Outcome::Disabled, rest));
    }
    if let Some(rest) = bytes.strip_prefix(b"Flapping") {
        return Ok((Outcome::Flapping, rest));
    }
    if let Some(rest) = bytes.strip_prefix(b"Acknowledged") {
        return Ok((Outcome::Acknowledged, rest));
    }
    if let Some(rest) = bytes.strip_prefix(b"Period") {
        return Ok((Outcome::Period, rest));
    }
    if let Some(rest) = bytes.strip_prefix(b"Type") {
        return Ok((Outcome::Kind, rest));
    }
    if let Some(rest) = bytes.strip_prefix(b"State") {
        return Ok((Outcome::State, rest));
    }
    if let Some(rest) = bytes.strip_prefix(b"TooEarly") {
        return Ok((Outcome::TooEarly, rest));
    }
    if let Some(rest) = bytes.strip_prefix(b"TooLate") {
        return Ok((Outcome::TooLate, rest));
    }
    if let Some(rest) = bytes.strip_prefix(b"Repeat") {
        return Ok((Outcome::Repeat, rest));
    }
    if let Some(rest) = bytes.strip_prefix(b"NoUsers") {
        return Ok((Outcome::NoUsers, rest));
    }
    Err(EntryError::BadLine)
}
