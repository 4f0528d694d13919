// Where a walk stands.
use crate::frame::Frame;
use crate::nest::Nest;

/// Where a walk stands: the array or dictionary that it is inside of, those around it, and the cost so
/// far.
#[derive(Drop)]
pub(crate) struct Path {
    pub(crate) top: Frame,
    pub(crate) below: Nest,
    pub(crate) cost: usize,
}
