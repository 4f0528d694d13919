// What an item comes to.
use eval_meaning::Read;
use site_base::Diags;
use site_model::Object;

/// What an item comes to over a view.
#[derive(Drop)]
pub enum ItemAnswer {
    Made(Object),
    /// What is wrong by the first of evaluation, tree and check that finds anything.
    Diags(Diags),
    /// The first read that the view doesn't decide.
    Blocked(Read),
}
