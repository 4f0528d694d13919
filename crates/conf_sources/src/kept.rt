// What is kept of a file that was met.
use crate::holding::Holding;
use crate::inclusion::Inclusion;
use dsl_syntax::File;
use site_base::Diag;

/// What is kept of a file that was met.
#[derive(Drop)]
pub struct Kept {
    pub holding: Holding,
    /// The file's tree; without statements where it has none.
    pub tree: File,
    /// The inclusions in it.
    pub inclusions: Vec<Inclusion>,
    /// The fault of its own text, if there is one.
    pub faults: Vec<Diag>,
}
