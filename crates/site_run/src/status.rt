// How a run ends.
use std::fmt;
use std::fmt::{Display, Formatter, Write};

/// With what a run ends. Its number is the exit status of the process, and its name is told on
/// standard error if it is none of the first two.
#[derive(Clone, Copy, PartialEq, Eq)]
pub enum Status {
    /// The input was read to its end, and all of the output was written.
    Done,
    /// The files have diagnostics, and all of them were written.
    Diagnosed,
    /// The words ask for nothing that the program does.
    Usage,
    /// A file could not be read.
    ReadFault,
    /// The output could not be written. What was written is a prefix of it.
    WriteFault,
    /// The world gave no turn or took no orders.
    WorldFault,
    /// There was no memory. What was written is a prefix of the output.
    OutOfMemory,
    /// As many turns were taken as may be, and one more came.
    TurnsSpent,
    /// A log was read that no run writes, and the line in which it goes wrong was written.
    NotLegal,
}

impl Status {
    ghost use Rattle.std.specs.Prelude.{◌≡◌};
    ghost use Rattle.site_run.specs.Statuses.{number_of, name_of};

    /// The exit status.
    pub fn number(self) -> u8
        ensures { result ≡ number_of self }
    {
        match self {
            Status::Done => 0,
            Status::Diagnosed => 1,
            Status::Usage => 2,
            Status::ReadFault => 3,
            Status::WriteFault => 4,
            Status::WorldFault => 5,
            Status::OutOfMemory => 6,
            Status::TurnsSpent => 7,
            Status::NotLegal => 8,
        }
    }

    /// The name by which standard error tells it.
    pub fn name(self) -> &'static str
        ensures { result.now ≡ name_of self }
    {
        match self {
            Status::Done => "Done",
            Status::Diagnosed => "Diagnosed",
            Status::Usage => "Usage",
            Status::ReadFault => "ReadFault",
            Status::WriteFault => "WriteFault",
            Status::WorldFault => "WorldFault",
            Status::OutOfMemory => "OutOfMemory",
            Status::TurnsSpent => "TurnsSpent",
            Status::NotLegal => "NotLegal",
        }
    }
}

impl Display for Status {
    ghost use Rattle.std.specs.Prelude.{Some};
    ghost use Rattle.site_run.specs.Statuses.{name_of};

    ghost output = { λ status. Some (name_of status) };

    fn fmt<W: Write>(&self, f: &mut Formatter<W>) -> fmt::Result {
        f.write_str(self.name())
    }
}
