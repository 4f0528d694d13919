// The turn for which lines are given.
use checkable_core::Checkable;
use site_base::Moment;
use site_model::Site;
use std::alloc::Global;
use time_range::Zone;
use trail::Told;

/// A turn at a moment: the checkables of the site as they stand, and the site's zone.
#[derive(Clone, Copy)]
pub(crate) struct Turn<'a> {
    pub(crate) alloc: Global,
    pub(crate) site: &'a Told<Site>,
    pub(crate) zone: &'a Zone,
    pub(crate) books: &'a [Checkable],
    pub(crate) moment: Moment,
}
