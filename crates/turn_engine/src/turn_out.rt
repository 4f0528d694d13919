// What a turn gives.
use crate::order_out::OrderOut;
use site_base::Moment;
use site_posts::Segments;
use turn_deal::Refusal;

/// What a turn gives.
#[derive(Drop)]
pub struct TurnOut {
    /// Which turn it is, from 1.
    pub number: u64,
    /// Its moment: the given one, or that of the turn before if that is later.
    pub moment: Moment,
    /// Lines and then reports, each in their order.
    pub refusals: Vec<Refusal>,
    pub segments: Segments,
    pub orders: Vec<OrderOut>,
}
