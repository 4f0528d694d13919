// Orders with their words.
use site_base::{Text, Texts};

/// A check that is to be started.
#[derive(Drop)]
pub struct OrderOut {
    /// Which order it is, from 1 over all turns.
    pub number: u64,
    pub checkable: u32,
    /// The words of its command; or the name of the first macro that is missing, if one is, so that it isn't started.
    pub argv: Result<Texts, Text>,
}
