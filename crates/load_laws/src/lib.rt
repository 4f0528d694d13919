//! Laws of loads: what is registered has names that objects may have.
//!
//! There is no code here that runs: the function has no parameters, and its contract is a law of the definitions in eval_meaning. It is shown part by
//! part of an evaluation: of its steps (`proofs/KeptItems`), of what gives values and registers (`KeptValues`), of nodes (`KeptNodes`), and of a
//! load (`KeptLoads`).
#![tactic(auto)]

mod laws;

pub use laws::loads_register_good_names;
