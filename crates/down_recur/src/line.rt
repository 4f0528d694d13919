// The command lines of downtimes.
ghost use Rattle.std.specs.Prelude.{◌≡◌, ◌++◌, IfOk, OnOk, None, Some};
ghost use Rattle.std.specs.Fmt.{decimal};
ghost use Rattle.down_recur.specs.Lines.{field_text, fixed_text as text_of_fixed, line_text, names_text, numbers_text};

use crate::{Booking, Recurring};
use event_text::Command;
use site_base::{Blob, Moment, OutOfMemory, Text};
use std::alloc::Global;

/// The line that begins a downtime, at a moment.
pub(crate) fn line(
    alloc: Global,
    moment: Moment,
    recurring: &Recurring,
    booking: Booking,
) -> Result<Blob, OutOfMemory>
    ensures { IfOk result (λ l. l ≡ line_text moment recurring.now booking) }
{
    let mut text = Text::new(alloc);
    push_line(&mut text, moment, recurring, booking)?;
    Ok(Blob::copy_of(alloc, text.as_bytes())?)
}

fn push_line(
    out: &mut Text,
    moment: Moment,
    recurring: &Recurring,
    booking: Booking,
) -> Result<(), OutOfMemory>
    ensures { OnOk result (out.new ≡ out.old ++ line_text moment recurring.now booking) }
{
    out.push_str("[")?;
    out.push_decimal(moment.secs())?;
    out.push_str("] ")?;
    push_names(out, recurring)?;
    push_numbers(out, booking)?;
    push_field(out, recurring.author.as_str())?;
    out.push_str(recurring.comment.as_str())
}

/// Adds the command's name and the names of the host and the service.
fn push_names(out: &mut Text, recurring: &Recurring) -> Result<(), OutOfMemory>
    ensures { OnOk result (out.new ≡ out.old ++ names_text recurring.now.host recurring.now.service) }
{
    match &recurring.service {
        None => push_host(out, recurring.host.as_str()),
        Some(service) => push_service(out, recurring.host.as_str(), service.as_str()),
    }
}

fn push_host(out: &mut Text, host: &str) -> Result<(), OutOfMemory>
    ensures { OnOk result (out.new ≡ out.old ++ names_text host.now None) }
{
    push_field(out, Command::HostDowntime.name())?;
    push_field(out, host)
}

fn push_service(out: &mut Text, host: &str, service: &str) -> Result<(), OutOfMemory>
    ensures { OnOk result (out.new ≡ out.old ++ names_text host.now (Some service.now)) }
{
    push_field(out, Command::ServiceDowntime.name())?;
    push_field(out, host)?;
    push_field(out, service)
}

/// Adds start, end, whether it is fixed, that no downtime triggers it, and the duration.
fn push_numbers(out: &mut Text, booking: Booking) -> Result<(), OutOfMemory>
    ensures { OnOk result (out.new ≡ out.old ++ numbers_text booking) }
{
    push_number(out, booking.start.secs())?;
    push_number(out, booking.end.secs())?;
    push_field(out, fixed_text(booking.fixed))?;
    push_field(out, "0")?;
    push_number(out, booking.duration)
}

/// Adds a field and its end.
fn push_field(out: &mut Text, text: &str) -> Result<(), OutOfMemory>
    ensures { OnOk result (out.new ≡ out.old ++ field_text text.now) }
{
    out.push_str(text)?;
    out.push_str(";")
}

fn push_number(out: &mut Text, number: u64) -> Result<(), OutOfMemory>
    ensures { OnOk result (out.new ≡ out.old ++ field_text (decimal number)) }
{
    out.push_decimal(number)?;
    out.push_str(";")
}

fn fixed_text(fixed: bool) -> &'static str
    ensures { result.now ≡ text_of_fixed fixed }
{
    if fixed { "1" } else { "0" }
}
