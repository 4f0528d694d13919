// The operators between two operands.
ghost use Rattle.std.specs.Prelude.{◌≡◌, ◌<◌, length, IfOk, OnOk, OnErr, ℕ, if◌then◌else◌};
ghost use Rattle.dsl_value.specs.Grows.{Grows};
ghost use Rattle.dsl_value.specs.Outcomes.{Answered, StandsMade};
ghost use Rattle.dsl_value.specs.Whole.{Names};
ghost use Rattle.dsl_ops.specs.Operands.{operand};
ghost use Rattle.dsl_ops.specs.Outcomes.{Gives, Refused, gives, after, answer, IsUnlessMemory};
ghost use Rattle.dsl_ops.specs.Table.{binary_outcome};
ghost use Rattle.dsl_ops.specs.Units.{binary_units};

use crate::OpFault;
use crate::arithmetic::{over, rest_of, times};
use crate::bits::{bits_and, bits_or, bits_xor, shift_left, shift_right};
use crate::comparison::{greater, greater_equal, less, less_equal};
use crate::joining::plus;
use crate::made::{made_number, made_truth};
use crate::membership::{is_in, is_not_in, minus_or_without};
use crate::operand::operand_of;
use crate::truths::truth;
use dsl_syntax::BinOp;
use dsl_value::{Made, Priced, Refusal, Store, Value, equal};
use std::alloc::Global;

/// What an operator between two operands gives (Icinga 2 documentation, Language Reference, Operators). A
/// new array or dictionary is one more cell of the store; else the store stays as it was. `&&` and `||` give
/// the left operand, or the right one where the left one doesn't decide.
///
/// `WrongType` where the operator isn't for operands of these types, `Overflow` where a number is out of
/// range or a shift isn't by 0 to 62 places, `DivZero` where the divisor is 0, and `OutOfMemory`. The
/// types are looked at first.
#[tactic(auto, using(crate::proofs::Answering::answer_gives, crate::proofs::Answering::after_gives))]
pub fn binary(
    alloc: Global,
    op: BinOp,
    left: &Value,
    right: &Value,
    store: &mut Store,
) -> Result<Value, OpFault>
    requires left { Names (length store.old.cells) (length store.old.functions) left.now }
    requires right { Names (length store.old.cells) (length store.old.functions) right.now }
    ensures answer { IsUnlessMemory result (answer (length store.old.cells) (binary_outcome store.old.cells op left.now right.now)) }
    ensures names { IfOk result (Names (length store.new.cells) (length store.new.functions)) }
    ensures ok { OnOk result (store.new ≡ after store.old (binary_outcome store.old.cells op left.now right.now)) }
    ensures grows { OnOk result (Grows 1 store.old store.new) }
    ensures err { OnErr result (store.new ≡ store.old) }
{
    let made = made_by(alloc, op, left, right, store)?;
    Ok(made.put_in(store)?)
}

/// What [`binary`] gives, with what it costs. A text that is made costs its bytes, a new array or dictionary
/// one unit and one for each element or pair, and all else nothing. `SpaceLimit` where that is more
/// than the units that are left; the faults of [`binary`] come first.
#[tactic(auto, using(crate::proofs::Answering::answer_gives, crate::proofs::Answering::after_gives))]
pub fn binary_within(
    alloc: Global,
    op: BinOp,
    left: &Value,
    right: &Value,
    units: u64,
    store: &mut Store,
) -> Result<Priced, Refusal<OpFault>>
    requires left { Names (length store.old.cells) (length store.old.functions) left.now }
    requires right { Names (length store.old.cells) (length store.old.functions) right.now }
    ensures answer { Answered Refused units (length store.old.cells) (binary_outcome store.old.cells op left.now right.now) (binary_units store.old.cells op left.now right.now) result }
    ensures names { IfOk result (λ p. Names (length store.new.cells) (length store.new.functions) p.value) }
    ensures ok { OnOk result (store.new ≡ after store.old (binary_outcome store.old.cells op left.now right.now)) }
    ensures grows { OnOk result (Grows 1 store.old store.new) }
    ensures err { OnErr result (store.new ≡ store.old) }
{
    let made = match made_by(alloc, op, left, right, store) {
        Ok(made) => made,
        Err(fault) => return Err(Refusal::Fault(fault)),
    };
    let Some(cost) = made.units_within(units) else {
        return Err(Refusal::SpaceLimit);
    };
    match made.put_in(store) {
        Ok(value) => Ok(Priced { value, units: cost }),
        Err(_) => Err(Refusal::Fault(OpFault::OutOfMemory)),
    }
}

/// What an operator makes.
fn made_by(
    alloc: Global,
    op: BinOp,
    left: &Value,
    right: &Value,
    store: &Store,
) -> Result<Made, OpFault>
    requires left { Names (length store.now.cells) (length store.now.functions) left.now }
    requires right { Names (length store.now.cells) (length store.now.functions) right.now }
    ensures gives { Gives result (binary_outcome store.now.cells op left.now right.now) (binary_units store.now.cells op left.now right.now) }
    ensures stands { IfOk result (StandsMade (length store.now.cells) (length store.now.functions)) }
{
    let a = operand_of(left, store);
    let b = operand_of(right, store);
    match op {
        BinOp::Mul => made_number(times(&a, &b)),
        BinOp::Div => made_number(over(&a, &b)),
        BinOp::Rem => made_number(rest_of(&a, &b)),
        BinOp::Add => plus(alloc, &a, &b),
        BinOp::Sub => minus_or_without(alloc, &a, &b, store),
        BinOp::ShiftLeft => made_number(shift_left(&a, &b)),
        BinOp::ShiftRight => made_number(shift_right(&a, &b)),
        BinOp::Less => made_truth(less(&a, &b)),
        BinOp::Greater => made_truth(greater(&a, &b)),
        BinOp::LessEqual => made_truth(less_equal(&a, &b)),
        BinOp::GreaterEqual => made_truth(greater_equal(&a, &b)),
        BinOp::In => made_truth(is_in(left, &b, store)),
        BinOp::NotIn => made_truth(is_not_in(left, &b, store)),
        BinOp::Equal => made_truth(Ok(equal(left, right, store))),
        BinOp::NotEqual => made_truth(Ok(!equal(left, right, store))),
        BinOp::BitAnd => made_number(bits_and(&a, &b)),
        BinOp::BitXor => made_number(bits_xor(&a, &b)),
        BinOp::BitOr => made_number(bits_or(&a, &b)),
        BinOp::And => chosen(truth(left, store), right, left),
        BinOp::Or => chosen(truth(left, store), left, right),
    }
}

/// A copy of the first value where the test holds, else of the second.
fn chosen(test: bool, first: &Value, second: &Value) -> Result<Made, OpFault>
    ensures gives { Gives result (gives (if test then first.now else second.now)) 0 }
    ensures stands { (cells functions : ℕ) → Names cells functions first.now → Names cells functions second.now → IfOk result (StandsMade cells functions) }
{
    let value = if test { first } else { second };
    Ok(Made::Value(value.clone()?))
}
