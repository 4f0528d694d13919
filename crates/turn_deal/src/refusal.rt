// What a turn refuses.
use event_text::LineFault;

/// A line of a turn or a report that gives no act.
#[derive(Clone, Copy)]
pub enum Refusal {
    /// The line of this number in its turn, from 1.
    Line { number: u64, fault: LineFault },
    /// A report of an order that wasn't given, or that had a report before.
    Report { order: u64 },
}
