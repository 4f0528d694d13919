// What a caller brings to a checkable.
use site_base::{Moment, Row};
use site_model::{Event, View};

/// What a caller brings to a checkable: an event, when it comes, and what the caller saw of the checkable's ancestors.
#[derive(Drop)]
pub struct Deed {
    pub moment: Moment,
    pub event: Event,
    /// What the ancestors show, by ascending index.
    pub sights: Row<(u32, View)>,
}
