// What a walk comes to.
use crate::Walk;
use site_base::{Diag, Texts};

/// What a walk comes to.
#[derive(Drop)]
pub enum WalkAnswer {
    /// Every file has a tree.
    Walked(Walk),
    /// The faults in walking order, whose places are in these files.
    Diags { files: Texts, list: Vec<Diag> },
}
