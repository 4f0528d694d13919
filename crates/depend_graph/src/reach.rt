// Whether a checkable is reachable.
ghost use Rattle.std.specs.Prelude.{◌≡◌};
ghost use Rattle.run_meaning.specs.Reachability.{is_held};
ghost use Rattle.depend_graph.specs.Reaching.{reach_as};

/// Whether a checkable is reachable, or what holds it back. Indices are places in the lists of the `Site`.
#[derive(Clone, Copy, PartialEq, Eq)]
pub enum Reach {
    Reachable,
    /// The first dependency of the checkable's own that holds it back.
    Depend { depend: u32 },
    /// No dependency does, but the service's host.
    Host { checkable: u32 },
}

impl Reach {
    /// Whether anything holds the checkable back.
    pub fn is_held(&self) -> bool
        ensures { result ≡ is_held (reach_as self.now) }
    {
        match self {
            Reach::Reachable => false,
            _ => true,
        }
    }
}
