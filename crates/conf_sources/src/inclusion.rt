// Statements that include files.
ghost use Rattle.std.specs.Prelude.{◌≡◌};
ghost use Rattle.conf_sources.specs.Inclusions.{place_of};

use site_base::{Place, Text};

/// A statement that includes files, with the place of the name in it.
#[derive(Clone, Drop, PartialEq, Eq)]
pub enum Inclusion {
    /// `include "name"`
    File { name: Text, at: Place },
    /// `include <name>`
    Library { name: Text, at: Place },
    /// `include_recursive "dir", "pattern"`
    Folder { dir: Text, pattern: Text, at: Place },
}

/// Where the name in an inclusion stands.
pub fn place(inclusion: &Inclusion) -> Place
    ensures { result ≡ place_of inclusion.now }
{
    match inclusion {
        Inclusion::File { at, .. } => *at,
        Inclusion::Library { at, .. } => *at,
        Inclusion::Folder { at, .. } => *at,
    }
}
