// What groups come to for an object.
use eval_meaning::Read;
use site_base::{Diags, Texts};

/// What groups come to for an object, over a view.
#[derive(Drop)]
pub enum GroupAnswer {
    /// The names of those that take it, in their order.
    Names(Texts),
    /// What is wrong, one diagnostic for each group in which anything is.
    Diags(Diags),
    /// The first read that the view doesn't decide.
    Blocked(Read),
}
