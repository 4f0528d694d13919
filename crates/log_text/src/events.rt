// Reading events.
ghost use Rattle.std.specs.Prelude.{◌≡◌, true};
ghost use Rattle.log_text.specs.EntryReading.{ack_at, check_at, checks_at, down_at, event_at, notes_at, result_at, undown_at, with_length};
ghost use Rattle.log_text.specs.Fronts.{Gives};

use crate::EntryError;
use crate::fields::{behind, read_flag, read_moment, read_number, read_status};
use site_base::{Moment, Text};
use site_model::Event;
use std::alloc::Global;

/// An event, without the texts of a result.
#[tactic(auto, unfolding(crate::specs::EntryReading::event_at))]
pub(crate) fn read_event(alloc: Global, bytes: &[u8]) -> Result<(Event, &[u8]), EntryError>
    ensures { Gives (λ x. (x.0, x.1.now)) result (event_at bytes.now) }
{
    if let Some(rest) = bytes.strip_prefix(b"result ") {
        return read_result(alloc, rest, false);
    }
    if let Some(rest) = bytes.strip_prefix(b"passive ") {
        return read_result(alloc, rest, true);
    }
    if let Some(rest) = bytes.strip_prefix(b"tick") {
        return Ok((Event::Tick, rest));
    }
    if let Some(rest) = bytes.strip_prefix(b"ack ") {
        return read_acknowledgement(rest);
    }
    if let Some(rest) = bytes.strip_prefix(b"unack") {
        return Ok((Event::Unack, rest));
    }
    if let Some(rest) = bytes.strip_prefix(b"down ") {
        return read_downtime(rest);
    }
    if let Some(rest) = bytes.strip_prefix(b"undown ") {
        return read_undown(rest);
    }
    if let Some(rest) = bytes.strip_prefix(b"checks ") {
        return read_checks(rest);
    }
    if let Some(rest) = bytes.strip_prefix(b"notes ") {
        return read_notes(rest);
    }
    if let Some(rest) = bytes.strip_prefix(b"check ") {
        return read_check(rest, false);
    }
    if let Some(rest) = bytes.strip_prefix(b"forced ") {
        return read_check(rest, true);
    }
    Err(EntryError::BadLine)
}

#[tactic(auto, unfolding(crate::specs::EntryReading::result_at))]
fn read_result(alloc: Global, bytes: &[u8], passive: bool) -> Result<(Event, &[u8]), EntryError>
    ensures { Gives (λ x. (x.0, x.1.now)) result (result_at passive bytes.now) }
{
    let (status, rest) = read_status(bytes)?;
    let event = Event::Result {
        status,
        passive,
        output: Text::new(alloc),
        perf: Text::new(alloc),
    };
    Ok((event, rest))
}

#[tactic(auto, unfolding(crate::specs::EntryReading::ack_at))]
fn read_acknowledgement(bytes: &[u8]) -> Result<(Event, &[u8]), EntryError>
    ensures { Gives (λ x. (x.0, x.1.now)) result (ack_at bytes.now) }
{
    let (sticky, rest) = read_flag(bytes, "sticky ", "normal ")?;
    let (notify, rest) = read_flag(rest, "notify", "quiet")?;
    Ok((Event::Ack { sticky, notify }, rest))
}

#[tactic(auto, unfolding(crate::specs::EntryReading::down_at))]
fn read_downtime(bytes: &[u8]) -> Result<(Event, &[u8]), EntryError>
    ensures { Gives (λ x. (x.0, x.1.now)) result (down_at bytes.now) }
{
    let (start, rest) = match read_moment(bytes) {
        Ok(told) => told,
        Err(error) => return Err(error),
    };
    let rest = behind(rest, " ")?;
    let (end, rest) = match read_moment(rest) {
        Ok(told) => told,
        Err(error) => return Err(error),
    };
    let (fixed, rest) = read_flag(rest, " fixed", " flexible ")?;
    read_length(start, end, fixed, rest)
}

/// The downtime of this span, of which the duration stands first where it is flexible.
fn read_length(
    start: Moment,
    end: Moment,
    fixed: bool,
    bytes: &[u8],
) -> Result<(Event, &[u8]), EntryError>
    ensures { Gives (λ x. (x.0, x.1.now)) result (with_length start end fixed bytes.now) }
{
    if fixed {
        return Ok((fixed_downtime(start, end), bytes));
    }
    let (duration, rest) = read_number(bytes)?;
    let event = Event::Down {
        start,
        end,
        fixed: false,
        duration,
    };
    Ok((event, rest))
}

/// A fixed downtime, which has no duration of its own.
fn fixed_downtime(start: Moment, end: Moment) -> Event
    ensures { result ≡ Event.Down start end true 0 }
{
    Event::Down {
        start,
        end,
        fixed: true,
        duration: 0,
    }
}

#[tactic(auto, unfolding(crate::specs::EntryReading::undown_at))]
fn read_undown(bytes: &[u8]) -> Result<(Event, &[u8]), EntryError>
    ensures { Gives (λ x. (x.0, x.1.now)) result (undown_at bytes.now) }
{
    let (number, rest) = read_number(bytes)?;
    Ok((Event::Undown { number }, rest))
}

#[tactic(auto, unfolding(crate::specs::EntryReading::checks_at))]
fn read_checks(bytes: &[u8]) -> Result<(Event, &[u8]), EntryError>
    ensures { Gives (λ x. (x.0, x.1.now)) result (checks_at bytes.now) }
{
    let (on, rest) = read_flag(bytes, "on", "off")?;
    Ok((Event::Checks { on }, rest))
}

#[tactic(auto, unfolding(crate::specs::EntryReading::notes_at))]
fn read_notes(bytes: &[u8]) -> Result<(Event, &[u8]), EntryError>
    ensures { Gives (λ x. (x.0, x.1.now)) result (notes_at bytes.now) }
{
    let (on, rest) = read_flag(bytes, "on", "off")?;
    Ok((Event::Notes { on }, rest))
}

#[tactic(auto, unfolding(crate::specs::EntryReading::check_at))]
fn read_check(bytes: &[u8], forced: bool) -> Result<(Event, &[u8]), EntryError>
    ensures { Gives (λ x. (x.0, x.1.now)) result (check_at forced bytes.now) }
{
    let (moment, rest) = match read_moment(bytes) {
        Ok(told) => told,
        Err(error) => return Err(error),
    };
    Ok((Event::Check { moment, forced }, rest))
}
