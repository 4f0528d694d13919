// Values with what they cost.
use crate::Value;

/// What a call gave, with the units that it cost.
#[derive(Drop)]
pub struct Priced {
    pub value: Value,
    pub units: u64,
}
