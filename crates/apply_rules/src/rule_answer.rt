// What a rule comes to at a target.
use crate::Instance;
use eval_meaning::Read;
use site_base::Diag;

/// What a rule comes to at a target, over a view.
#[derive(Drop)]
pub enum RuleAnswer<'a> {
    /// An instance for each element that is kept, in their order.
    Instances(Vec<Instance<'a>>),
    /// The first fault.
    Diag(Diag),
    /// The first read that the view doesn't decide.
    Blocked(Read),
}
