//! What an evaluation means: the definition that the evaluator is proved against.
//!
//! It stands in `specs/`, in reading order: what is told of the site (`Registered`, `Views`), what an evaluation works on and
//! how it ends (`States`, `Settled`, `Parts`), literals, members and operators (`Literals`, `Members`, `Operators`), names and frames
//! (`Frames`), statements (`Flow`), assignments (`Targets`), functions (`Functions`), the library (`Library`, `Objects`,
//! `Visits`), calls (`Calls`), imports (`Templates`), what a load registers (`Registration`), inclusions
//! (`Files`), all of it together (`Evaluation`), and a load from its start to its end (`Load`). `Steps`, `Onward` and `Follows` say
//! what the laws say of it.
#![tactic(auto)]

mod callee;
mod flow;
mod laws;
mod read;

pub use callee::Callee;
pub use flow::Flow;
pub use laws::{
    a_load_is_over_a_world, a_view_gives_what_its_worlds_give, a_while_is_a_turn_and_the_rest,
    a_world_blocks_nothing, an_evaluation_goes_onward,
};
pub use read::Read;
