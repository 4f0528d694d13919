// The operators before their operand.
ghost use Rattle.std.specs.Prelude.{◌≡◌, ◌<◌, length, IfOk};
ghost use Rattle.dsl_value.specs.Whole.{Names};
ghost use Rattle.dsl_ops.specs.Operands.{plain};
ghost use Rattle.dsl_ops.specs.Outcomes.{returned, number_returned};
ghost use Rattle.dsl_ops.specs.Table.{itself, negation, unary_outcome};

use crate::OpFault;
use crate::arithmetic::negated;
use crate::bits::bits_not;
use crate::operand::{Operand, operand_of};
use crate::truths::truth;
use dsl_syntax::UnOp;
use dsl_value::{Store, Value};
use site_base::Num;

/// What an operator before its operand gives: `!` not the truth of any value, `+` a number itself, `-` its
/// negation, and `~` the complement of a whole number in 64 bits. `WrongType` where the operand is
/// another, and `Overflow` where the number is out of range. It takes no memory.
pub fn unary(op: UnOp, value: &Value, store: &Store) -> Result<Value, OpFault>
    requires { Names (length store.now.cells) (length store.now.functions) value.now }
    ensures value { returned result ≡ unary_outcome store.now.cells op value.now }
    ensures names { IfOk result (Names (length store.now.cells) (length store.now.functions)) }
{
    let operand = operand_of(value, store);
    match op {
        UnOp::Not => Ok(Value::Bool(!truth(value, store))),
        UnOp::Complement => Ok(Value::Number(bits_not(&operand)?)),
        UnOp::Plus => Ok(Value::Number(itself_of(&operand)?)),
        UnOp::Minus => Ok(Value::Number(negation_of(&operand)?)),
    }
}

/// A number itself.
fn itself_of(operand: &Operand) -> Result<Num, OpFault>
    ensures { number_returned result ≡ itself (plain operand.now) }
{
    match operand {
        Operand::Number(number) => Ok(*number),
        _ => Err(OpFault::WrongType),
    }
}

/// A number's negation.
fn negation_of(operand: &Operand) -> Result<Num, OpFault>
    ensures { number_returned result ≡ negation (plain operand.now) }
{
    match operand {
        Operand::Number(number) => negated(number),
        _ => Err(OpFault::WrongType),
    }
}
