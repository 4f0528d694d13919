// What a caller brings to a round.
use site_model::Event;

/// An event on the checkable of this index.
#[derive(Drop)]
pub struct Act {
    pub checkable: u32,
    pub event: Event,
}
