// Files as the program sees them.
ghost use Rattle.std.specs.Prelude.{◌≡◌, ◌≢◌, ◌≤◌, [], ◌∷◌, List, ℕ, Option, Err, IfOk, OnOk, OnErr, IsErrOf};
ghost use Rattle.site_edge.specs.Lists.{Adds};
ghost use Rattle.site_edge.specs.Told.{ReadsFile, ListsNames, Rose};

use crate::FileFault;
use site_base::{Blob, Texts};

/// A place that files are read from.
pub trait Files {
    /// The names and bytes of all files, if they are told.
    ghost told: { Self → Option (List (List ℕ × List ℕ)) };

    /// The names that were read so far, one for each read, in order, if they are told.
    ghost reads: { Self → Option (List (List ℕ)) };

    /// How often a call has failed.
    ghost faults: { Self → ℕ };

    /// No later call fails.
    ghost calm: { Self → Type 0 };

    /// The bytes of the first file of that name; `None` if there is none.
    ///
    /// After an error the files count as read before. `Failed` comes only if the count of faults
    /// rose in this call.
    fn read(&mut self, name: &str) -> Result<Option<Blob>, FileFault>
        ensures bytes { IfOk result (ReadsFile name.now (told self.old)) }
        ensures same { told self.new ≡ told self.old }
        ensures counted { OnOk result (Adds (name.now ∷ []) (reads self.old) (reads self.new)) }
        ensures uncounted { OnErr result (reads self.new ≡ reads self.old) }
        ensures cause { IsErrOf result FileFault.Failed → Rose (faults self.old) (faults self.new) }
        ensures counts { faults self.old ≤ faults self.new }
        ensures quiet { OnOk result (faults self.new ≡ faults self.old) }
        ensures calm { calm self.old → calm self.new }
        ensures unfailing { calm self.old → result ≢ Err FileFault.Failed };

    /// The paths of all files below a folder, at any depth, each once, in byte order; none if the
    /// folder is missing. The empty name is the folder in which the program runs.
    ///
    /// `Failed` comes only if the count of faults rose in this call.
    fn names(&mut self, dir: &str) -> Result<Texts, FileFault>
        ensures names { IfOk result (ListsNames dir.now (told self.old)) }
        ensures same { told self.new ≡ told self.old }
        ensures uncounted { reads self.new ≡ reads self.old }
        ensures cause { IsErrOf result FileFault.Failed → Rose (faults self.old) (faults self.new) }
        ensures counts { faults self.old ≤ faults self.new }
        ensures quiet { OnOk result (faults self.new ≡ faults self.old) }
        ensures calm { calm self.old → calm self.new }
        ensures unfailing { calm self.old → result ≢ Err FileFault.Failed };
}
