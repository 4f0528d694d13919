// How statements end.
use dsl_value::Value;
use site_base::Place;

/// How a statement ends: what follows it is run, or its frame ends with a value, or a loop ends or goes on. A `break` or a
/// `continue` keeps its place: it is a fault if no loop of its frame takes it.
#[derive(Drop)]
pub enum Flow {
    On,
    Returned(Value),
    Broken(Place),
    Continued(Place),
}
