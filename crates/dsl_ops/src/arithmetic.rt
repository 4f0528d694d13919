// What is calculated with two numbers.
ghost use Rattle.std.specs.Prelude.{◌≡◌, pos};
ghost use Rattle.site_base.specs.Numbers.{difference_of};
ghost use Rattle.dsl_ops.specs.Operands.{plain};
ghost use Rattle.dsl_ops.specs.Outcomes.{or_overflow, number_returned};
ghost use Rattle.dsl_ops.specs.Table.{numbers, number_difference, product, quotient, rest};

use crate::OpFault;
use crate::operand::Operand;
use site_base::Num;

/// Two numbers. Null beside a number counts as 0.
fn numbers_of(left: &Operand, right: &Operand) -> Option<(Num, Num)>
    ensures { result ≡ numbers (plain left.now) (plain right.now) }
{
    match (left, right) {
        (Operand::Number(left), Operand::Number(right)) => Some((*left, *right)),
        (Operand::Null, Operand::Number(right)) => Some((Num::of(0), *right)),
        (Operand::Number(left), Operand::Null) => Some((*left, Num::of(0))),
        _ => None,
    }
}

/// The number, or `Overflow` if there is none.
pub(crate) fn number_or_overflow(number: Option<Num>) -> Result<Num, OpFault>
    ensures { number_returned result ≡ or_overflow number }
{
    number.ok_or(OpFault::Overflow)
}

/// `-` on numbers.
pub(crate) fn minus(left: &Operand, right: &Operand) -> Result<Num, OpFault>
    ensures { number_returned result ≡ number_difference (plain left.now) (plain right.now) }
{
    let Some((left, right)) = numbers_of(left, right) else {
        return Err(OpFault::WrongType);
    };
    number_or_overflow(left.minus(&right))
}

/// `*`
pub(crate) fn times(left: &Operand, right: &Operand) -> Result<Num, OpFault>
    ensures { number_returned result ≡ product (plain left.now) (plain right.now) }
{
    let Some((left, right)) = numbers_of(left, right) else {
        return Err(OpFault::WrongType);
    };
    number_or_overflow(left.times(&right))
}

/// `/`
pub(crate) fn over(left: &Operand, right: &Operand) -> Result<Num, OpFault>
    ensures { number_returned result ≡ quotient (plain left.now) (plain right.now) }
{
    let Some((left, right)) = numbers_of(left, right) else {
        return Err(OpFault::WrongType);
    };
    if right.thousandths() == 0 {
        return Err(OpFault::DivZero);
    }
    number_or_overflow(left.over(&right))
}

/// `%`
pub(crate) fn rest_of(left: &Operand, right: &Operand) -> Result<Num, OpFault>
    ensures { number_returned result ≡ rest (plain left.now) (plain right.now) }
{
    let Some((left, right)) = numbers_of(left, right) else {
        return Err(OpFault::WrongType);
    };
    if right.thousandths() == 0 {
        return Err(OpFault::DivZero);
    }
    number_or_overflow(left.rest(&right))
}

/// `-` before a number.
pub(crate) fn negated(number: &Num) -> Result<Num, OpFault>
    ensures { number_returned result ≡ or_overflow (difference_of (pos 0) number.now) }
{
    number_or_overflow(Num::of(0).minus(number))
}
