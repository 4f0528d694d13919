// Where the program writes.
ghost use Rattle.std.specs.Prelude.{◌≡◌, ◌≢◌, ◌≤◌, ◌+◌, List, ℕ, length, Option, Err, OnOk, OnErr, IsErrOf};
ghost use Rattle.site_edge.specs.Lists.{Adds, AddsPart};
ghost use Rattle.site_edge.specs.Told.{Rose};

use crate::SinkFault;

/// A place that bytes are written to. What is put may be kept back, and counts as written all the same; a flush hands it on.
pub trait Sink {
    /// The bytes written, if they are told.
    ghost written: { Self → Option (List ℕ) };

    /// How many of the last bytes put are still kept back.
    ghost kept_back: { Self → ℕ };

    /// How often a call has failed.
    ghost faults: { Self → ℕ };

    /// No later call fails.
    ghost calm: { Self → Type 0 };

    /// Writes all of the bytes, or after an error some prefix of them. They may be kept back until the next flush.
    ///
    /// `Failed` comes only if the count of faults rose in this call.
    fn put(&mut self, bytes: &[u8]) -> Result<(), SinkFault>
        ensures ok { OnOk result (Adds bytes.now (written self.old) (written self.new)) }
        ensures err { OnErr result (AddsPart bytes.now (written self.old) (written self.new)) }
        ensures kept_back { kept_back self.new ≤ kept_back self.old + length bytes.now }
        ensures cause { IsErrOf result SinkFault.Failed → Rose (faults self.old) (faults self.new) }
        ensures counts { faults self.old ≤ faults self.new }
        ensures quiet { OnOk result (faults self.new ≡ faults self.old) }
        ensures calm { calm self.old → calm self.new }
        ensures unfailing { calm self.old → result ≢ Err SinkFault.Failed };

    /// Hands on what is still kept back, so that a reader of the output sees all that was put.
    ///
    /// `Failed` comes only if the count of faults rose in this call.
    fn flush(&mut self) -> Result<(), SinkFault>
        ensures through { OnOk result (kept_back self.new ≡ 0) }
        ensures kept { written self.new ≡ written self.old }
        ensures cause { IsErrOf result SinkFault.Failed → Rose (faults self.old) (faults self.new) }
        ensures counts { faults self.old ≤ faults self.new }
        ensures quiet { OnOk result (faults self.new ≡ faults self.old) }
        ensures calm { calm self.old → calm self.new }
        ensures unfailing { calm self.old → result ≢ Err SinkFault.Failed };
}
