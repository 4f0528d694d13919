// What operators make of numbers and truths.
ghost use Rattle.std.specs.Prelude.{IfOk, ℕ};
ghost use Rattle.dsl_value.specs.Outcomes.{StandsMade};
ghost use Rattle.dsl_ops.specs.Outcomes.{Gives, number_returned, truth_returned};

use crate::OpFault;
use dsl_value::{Made, Value};
use site_base::Num;

/// A number that was made.
pub(crate) fn made_number(number: Result<Num, OpFault>) -> Result<Made, OpFault>
    ensures gives { Gives result (number_returned number) 0 }
    ensures stands { (cells functions : ℕ) → IfOk result (StandsMade cells functions) }
{
    match number {
        Ok(number) => Ok(Made::Value(Value::Number(number))),
        Err(fault) => Err(fault),
    }
}

/// A truth that was made.
pub(crate) fn made_truth(truth: Result<bool, OpFault>) -> Result<Made, OpFault>
    ensures gives { Gives result (truth_returned truth) 0 }
    ensures stands { (cells functions : ℕ) → IfOk result (StandsMade cells functions) }
{
    match truth {
        Ok(truth) => Ok(Made::Value(Value::Bool(truth))),
        Err(fault) => Err(fault),
    }
}
