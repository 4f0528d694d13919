// What can be wrong with a command line.
ghost use Rattle.std.specs.Prelude.{◌≡◌};
ghost use Rattle.event_text.specs.Faults.{fault_name};

use std::fmt;
use std::fmt::{Display, Formatter, Write};

/// What is wrong with a command line: of several faults the first in this order.
#[derive(Clone, Copy, Debug, PartialEq, Eq)]
pub enum LineFault {
    /// The bytes aren't UTF-8.
    NotText,
    /// No `[` stands first, or no `] ` behind it.
    NoBracket,
    /// Between the brackets stands no moment, which has 1 to 11 digits.
    BadMoment,
    /// No command has this name.
    UnknownCommand,
    /// The command has more fields; or fewer, where the last isn't a text.
    FieldCount,
    /// No host or service is named so.
    UnknownCheckable,
    /// A number, which has 1 to 19 digits, or a moment isn't one, or is out of its range.
    BadNumber,
    /// A downtime doesn't start before its end, or a flexible one has no duration.
    BadSpan,
    /// A passive result for a checkable that takes none.
    PassiveOff,
}

impl LineFault {
    /// The name by which the log tells it.
    pub fn name(self) -> &'static str
        ensures { result.now ≡ fault_name self }
    {
        match self {
            LineFault::NotText => "NotText",
            LineFault::NoBracket => "NoBracket",
            LineFault::BadMoment => "BadMoment",
            LineFault::UnknownCommand => "UnknownCommand",
            LineFault::FieldCount => "FieldCount",
            LineFault::UnknownCheckable => "UnknownCheckable",
            LineFault::BadNumber => "BadNumber",
            LineFault::BadSpan => "BadSpan",
            LineFault::PassiveOff => "PassiveOff",
        }
    }
}

impl Display for LineFault {
    ghost use Rattle.std.specs.Prelude.{Some};

    ghost output = { λ fault. Some (fault_name fault) };

    fn fmt<W: Write>(&self, f: &mut Formatter<W>) -> fmt::Result {
        f.write_str(self.name())
    }
}
