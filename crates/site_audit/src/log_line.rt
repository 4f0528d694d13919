// Lines of a log.
use event_text::LineFault;
use site_base::Moment;
use site_model::Entry;

/// A line of a log.
#[derive(Drop)]
pub(crate) enum LogLine {
    /// A turn begins, at a moment.
    Turn {
        number: u64,
        moment: Moment,
    },
    /// A command line of the turn is refused, by its number in the turn.
    RefusedLine {
        number: u64,
        fault: LineFault,
    },
    /// A report of an order is refused.
    RefusedReport {
        order: u64,
    },
    /// An entry of a checkable.
    Entry {
        checkable: u32,
        entry: Entry,
    },
    /// A check of a checkable is ordered. It isn't started if a macro is missing.
    Order {
        number: u64,
        checkable: u32,
        missing: bool,
    },
}
