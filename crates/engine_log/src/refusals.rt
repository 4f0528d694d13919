// The lines of what a turn refuses.
ghost use Rattle.std.specs.Prelude.{◌≡◌, IfOk};
ghost use Rattle.run_text.specs.LogText.{refusal_line};
ghost use Rattle.turn_deal.specs.Dealt.{refusal_of};

use event_text::LineFault;
use site_base::{OutOfMemory, Text};
use std::alloc::Global;
use turn_deal::Refusal;

/// The line that tells a refusal, with a newline.
pub(crate) fn print_refusal(alloc: Global, refusal: &Refusal) -> Result<Text, OutOfMemory>
    ensures { IfOk result (λ t. t ≡ refusal_line (refusal_of refusal.now)) }
{
    match refusal {
        Refusal::Line { number, fault } => print_refused_line(alloc, *number, *fault),
        Refusal::Report { order } => print_refused_report(alloc, *order),
    }
}

fn print_refused_line(alloc: Global, number: u64, fault: LineFault) -> Result<Text, OutOfMemory>
    ensures { IfOk result (λ t. t ≡ refusal_line (refusal_of (Refusal.Line number fault))) }
{
    let mut text = Text::copy_of(alloc, "refused line ")?;
    text.push_decimal(number)?;
    text.push(' ')?;
    text.push_str(fault.name())?;
    text.push('\n')?;
    Ok(text)
}

fn print_refused_report(alloc: Global, order: u64) -> Result<Text, OutOfMemory>
    ensures { IfOk result (λ t. t ≡ refusal_line (refusal_of (Refusal.Report order))) }
{
    let mut text = Text::copy_of(alloc, "refused report ")?;
    text.push_decimal(order)?;
    text.push('\n')?;
    Ok(text)
}
