// Values that calls give.
ghost use Rattle.std.specs.Prelude.{◌≡◌, IfOk, MatchResult};

use crate::LibFault;
use dsl_value::Value;
use site_base::{OutOfMemory, Row};
use std::alloc::Global;

/// A copy of a value.
pub(crate) fn copied(value: &Value) -> Result<Value, LibFault>
    ensures { MatchResult result (λ v. v ≡ value.now) (λ e. e ≡ LibFault.OutOfMemory) }
{
    Ok(value.clone()?)
}

/// The same, where nothing else can be wrong.
pub(crate) fn copy(value: &Value) -> Result<Value, OutOfMemory>
    ensures { IfOk result (λ v. v ≡ value.now) }
{
    Ok(value.clone()?)
}

/// Copies of some values.
pub(crate) fn copies(alloc: Global, values: &[Value]) -> Result<Row<Value>, OutOfMemory>
    ensures { IfOk result (λ row. row ≡ values.now) }
{
    Ok(Row::from(values.to_vec(alloc)?))
}
