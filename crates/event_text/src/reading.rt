// Reading command lines.
ghost use Rattle.std.specs.Prelude.{◌≡◌, Some, length};
ghost use Rattle.site_model.specs.PlainSite.{site_view};
ghost use Rattle.site_model.specs.Sound.{HasNames};
ghost use Rattle.event_text.specs.Fields.{fields_in};
ghost use Rattle.event_text.specs.Kinds.{count_of, ends_in_text, limits_of};
ghost use Rattle.event_text.specs.Lent.{texts_view};
ghost use Rattle.event_text.specs.Lines.{Answer, Has};
ghost use Rattle.event_text.specs.Numbers.{AreWithin};
ghost use Rattle.event_text.specs.Reading.{Gives, IsError, Tells, line_read, text_read, command_read, named_read, bare_read, fields_read, place_read, judged_read};

use crate::cutting::{cut_bracket, cut_field};
use crate::events::{event_of, has_span, is_open_to};
use crate::fields::{field, service_in, split};
use crate::kind::Kind;
use crate::limit::MOMENT_DIGITS;
use crate::lookups::find_named;
use crate::naming::command_named;
use crate::numbers::{is_number, numbers_of};
use crate::{Command, LineError, LineFault};
use site_model::{Event, Site};
use std::alloc::Global;

/// The event that a command line tells, and the place of its host or service among the site's
/// checkables.
///
/// A line is `[MOMENT] NAME;FIELD;FIELD ..`: the moment has 1 to 11 digits and stands before the first `] `, the name goes to
/// the first `;` or to the end, and each field to the next `;`. The last field, if it is a text, takes the rest of
/// the line with its semicolons (Icinga 2 documentation, Features, "External Commands List"). The fields are, with HOST
/// alone for a host and HOST;SERVICE for a service,
///
/// - of a result HOST or HOST;SERVICE, a status from 0 to 255, and an output, which [`plugin_line::read_output`] reads. Of a host 0 is up
///   and each other status, taken as 2, down; of a service those above 3 are taken as 3;
/// - of a check its moment;
/// - of an acknowledgement 0 to 2, of which 2 is sticky, then 0 or 1, whether it is told, then 0 or 1, author and comment;
/// - of a downtime its start, its end, 1 where it is fixed and else 0, 0 since no downtime triggers it, its seconds, which count
///   where it is flexible, up to 99,999,999,999, author and comment;
/// - of the end of a downtime its number;
/// - of all others no more than the names.
///
/// A moment in a field has 1 to 11 digits and any other number 1 to 19, leading zeros too.
///
/// `Fault` with the first [`LineFault`] of the line, and `OutOfMemory` if there is no memory for the event.
pub fn read_line(alloc: Global, bytes: &[u8], site: &Site) -> Result<(u32, Event), LineError>
    ensures value { Gives result (line_read (site_view site.now) bytes.now) }
    ensures told { HasNames (site_view site.now) → Tells (Has (site_view site.now) bytes.now) result }
    ensures only { HasNames (site_view site.now) → (a : Answer) → Has (site_view site.now) bytes.now a → Gives result a }
{
    read_bytes(alloc, bytes, site)
}

#[tactic(auto, unfolding(crate::specs::Reading::line_read))]
fn read_bytes(alloc: Global, bytes: &[u8], site: &Site) -> Result<(u32, Event), LineError>
    ensures { Gives result (line_read (site_view site.now) bytes.now) }
{
    match str::from_utf8(bytes) {
        Ok(line) => read_text(alloc, line, site),
        Err(_) => Err(LineError::Fault(LineFault::NotText)),
    }
}

/// The event of a line that is text.
#[tactic(auto, unfolding(crate::specs::Reading::text_read))]
fn read_text(alloc: Global, line: &str, site: &Site) -> Result<(u32, Event), LineError>
    ensures { Gives result (text_read (site_view site.now) line.now) }
{
    let Some(rest) = line.strip_prefix('[') else {
        return Err(LineError::Fault(LineFault::NoBracket));
    };
    let Some((moment, command)) = cut_bracket(rest) else {
        return Err(LineError::Fault(LineFault::NoBracket));
    };
    if !is_number(moment, MOMENT_DIGITS) {
        return Err(LineError::Fault(LineFault::BadMoment));
    }
    read_command(alloc, command, site)
}

/// The event of a command behind its moment.
#[tactic(auto, unfolding(crate::specs::Reading::command_read))]
fn read_command(alloc: Global, command: &str, site: &Site) -> Result<(u32, Event), LineError>
    ensures { Gives result (command_read (site_view site.now) command.now) }
{
    match cut_field(command) {
        Some((name, fields)) => read_named(alloc, name, fields, site),
        None => Err(bare_error(command)),
    }
}

/// The event of a command of this name with its fields.
fn read_named(
    alloc: Global,
    name: &str,
    fields: &str,
    site: &Site,
) -> Result<(u32, Event), LineError>
    ensures { Gives result (named_read (site_view site.now) name.now fields.now) }
{
    match command_named(name) {
        None => Err(LineError::Fault(LineFault::UnknownCommand)),
        Some(command) => read_fields(alloc, command, fields, site),
    }
}

/// Why a command without fields gives no event.
fn bare_error(name: &str) -> LineError
    ensures { IsError result (bare_read name.now) }
{
    match command_named(name) {
        None => LineError::Fault(LineFault::UnknownCommand),
        Some(_) => LineError::Fault(LineFault::FieldCount),
    }
}

/// The event of a command with a text that is its fields.
fn read_fields(
    alloc: Global,
    command: Command,
    text: &str,
    site: &Site,
) -> Result<(u32, Event), LineError>
    ensures { Gives result (fields_read (site_view site.now) command (fields_in (ends_in_text command) (count_of command) text.now)) }
{
    match split(text, command.count(), command.ends_in_text()) {
        None => Err(LineError::Fault(LineFault::FieldCount)),
        Some(fields) => read_split(alloc, command, fields.as_slice(), site),
    }
}

/// The event of a command with as many fields as it has.
fn read_split(
    alloc: Global,
    command: Command,
    fields: &[&str],
    site: &Site,
) -> Result<(u32, Event), LineError>
    requires { length fields.now ≡ count_of command }
    ensures { Gives result (fields_read (site_view site.now) command (Some (texts_view fields.now))) }
{
    let host = field(fields, 0);
    match find_named(alloc, site, host, service_in(command, fields))? {
        None => Err(LineError::Fault(LineFault::UnknownCheckable)),
        Some(place) => read_placed(alloc, command, fields, site, place),
    }
}

/// The event of a command for the checkable at a place.
fn read_placed(
    alloc: Global,
    command: Command,
    fields: &[&str],
    site: &Site,
    place: u32,
) -> Result<(u32, Event), LineError>
    requires { length fields.now ≡ count_of command }
    ensures { Gives result (place_read (site_view site.now) command (texts_view fields.now) (Some place)) }
{
    let kind = command.kind();
    let last = field(fields, command.count() - 1);
    match numbers_of(command, fields) {
        None => Err(LineError::Fault(LineFault::BadNumber)),
        Some(numbers) => judge(alloc, site, kind, place, numbers.as_slice(), last),
    }
}

/// The event of a command of this kind, with these numbers and this last field, if it can be followed.
fn judge(
    alloc: Global,
    site: &Site,
    kind: Kind,
    place: u32,
    numbers: &[u64],
    last: &str,
) -> Result<(u32, Event), LineError>
    requires { AreWithin (limits_of kind) numbers.now }
    ensures { Gives result (judged_read (site_view site.now) kind place numbers.now last.now) }
{
    if !has_span(kind, numbers) {
        return Err(LineError::Fault(LineFault::BadSpan));
    }
    if !is_open_to(site, kind, place) {
        return Err(LineError::Fault(LineFault::PassiveOff));
    }
    let event = event_of(alloc, kind, numbers, last)?;
    Ok((place, event))
}
