// Why there is no graph.
use site_base::{OutOfMemory, Row};
use thiserror::Error;

/// Why the dependencies of a site make no graph.
#[derive(Debug, Drop, PartialEq, Eq, Error)]
pub enum GraphFault {
    /// The child of each of these dependencies is reached from its parent, by steps from child to parent; it is each such
    /// dependency, ascending.
    #[error("dependencies on a cycle")]
    Cycle { depends: Row<u32> },
    #[error("out of memory")]
    OutOfMemory,
}

impl From<OutOfMemory> for GraphFault {
    ghost use Rattle.std.specs.Prelude.{◌≡◌};
    ghost use Rattle.depend_graph.specs.declared.graph_fault.GraphFault.TheVariants.{OutOfMemory as Memory};

    ghost from_gives = { λ _ e. e ≡ Memory };

    fn from(_: OutOfMemory) -> Self {
        GraphFault::OutOfMemory
    }
}
