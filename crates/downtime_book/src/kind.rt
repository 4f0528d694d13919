// Fixed and flexible downtimes.
ghost use Rattle.std.specs.Prelude.{◌≡◌, if◌then◌else◌};

use site_base::Moment;

/// When a downtime is in effect.
#[derive(Drop)]
pub enum Kind {
    /// From its start to its end.
    Fixed,
    /// From the problem that triggers it on, for so many seconds. Without a trigger it waits.
    Flexible {
        duration: u64,
        trigger: Option<Moment>,
    },
}

impl Kind {
    /// The kind of a downtime that nothing has triggered yet.
    pub fn new(fixed: bool, duration: u64) -> Kind
        ensures { result ≡ (if fixed then Kind.Fixed else Kind.Flexible duration None) }
    {
        if fixed {
            Kind::Fixed
        } else {
            Kind::Flexible {
                duration,
                trigger: None,
            }
        }
    }
}
