// Shifts and bits of whole numbers.
ghost use Rattle.std.specs.Prelude.{◌≡◌, ◌*ℤ◌, ◌^◌, ◌<◌, pos, IfSome};
ghost use Rattle.std.specs.Int.{w64, int_bit_and, int_bit_or, int_bit_xor};
ghost use Rattle.dsl_ops.specs.Operands.{plain};
ghost use Rattle.dsl_ops.specs.Outcomes.{number_returned};
ghost use Rattle.dsl_ops.specs.Table.{whole, whole_part, wholes, thousandths_of, places, left_shift, right_shift, bits, complement};

use crate::OpFault;
use crate::arithmetic::number_or_overflow;
use crate::operand::Operand;
use site_base::Num;

/// The whole number that so many thousandths are.
pub(crate) fn part_of(thousandths: i64) -> Option<i64>
    ensures { result ≡ whole_part thousandths }
{
    if thousandths % 1000 == 0 {
        Some(thousandths / 1000)
    } else {
        None
    }
}

fn whole_of(operand: &Operand) -> Option<i64>
    ensures { result ≡ whole (plain operand.now) }
{
    match operand {
        Operand::Number(number) => part_of(number.thousandths()),
        _ => None,
    }
}

/// Two whole numbers.
fn wholes_of(left: &Operand, right: &Operand) -> Option<(i64, i64)>
    ensures { result ≡ wholes (plain left.now) (plain right.now) }
{
    Some((whole_of(left)?, whole_of(right)?))
}

/// The number that is this whole number.
fn number_of(whole: i64) -> Option<Num>
    ensures { result ≡ thousandths_of whole }
{
    Some(Num::of(whole.checked_mul(1000)?))
}

/// How far a shift goes: from 0 to 62 places.
fn places_of(count: i64) -> Option<u32>
    ensures value { result ≡ places count }
    ensures few { IfSome result (λ n. n < 63) }
{
    let places = u32::try_from(count).ok()?;
    if places < 63 { Some(places) } else { None }
}

/// Times 2 so often.
fn shifted_left(whole: i64, places: u32) -> Option<Num>
    requires { places < 63 }
    ensures { result ≡ thousandths_of (whole *ℤ pos (2 ^ places)) }
{
    number_of(whole.checked_mul(1 << places)?)
}

/// `<<`
pub(crate) fn shift_left(left: &Operand, right: &Operand) -> Result<Num, OpFault>
    ensures { number_returned result ≡ left_shift (plain left.now) (plain right.now) }
{
    let Some((whole, count)) = wholes_of(left, right) else {
        return Err(OpFault::WrongType);
    };
    let Some(places) = places_of(count) else {
        return Err(OpFault::Overflow);
    };
    number_or_overflow(shifted_left(whole, places))
}

/// `>>`
pub(crate) fn shift_right(left: &Operand, right: &Operand) -> Result<Num, OpFault>
    ensures { number_returned result ≡ right_shift (plain left.now) (plain right.now) }
{
    let Some((whole, count)) = wholes_of(left, right) else {
        return Err(OpFault::WrongType);
    };
    let Some(places) = places_of(count) else {
        return Err(OpFault::Overflow);
    };
    number_or_overflow(number_of(whole >> places))
}

/// `&`
pub(crate) fn bits_and(left: &Operand, right: &Operand) -> Result<Num, OpFault>
    ensures { number_returned result ≡ bits (int_bit_and w64) (plain left.now) (plain right.now) }
{
    let Some((left, right)) = wholes_of(left, right) else {
        return Err(OpFault::WrongType);
    };
    number_or_overflow(number_of(left & right))
}

/// `^`
pub(crate) fn bits_xor(left: &Operand, right: &Operand) -> Result<Num, OpFault>
    ensures { number_returned result ≡ bits (int_bit_xor w64) (plain left.now) (plain right.now) }
{
    let Some((left, right)) = wholes_of(left, right) else {
        return Err(OpFault::WrongType);
    };
    number_or_overflow(number_of(left ^ right))
}

/// `|`
pub(crate) fn bits_or(left: &Operand, right: &Operand) -> Result<Num, OpFault>
    ensures { number_returned result ≡ bits (int_bit_or w64) (plain left.now) (plain right.now) }
{
    let Some((left, right)) = wholes_of(left, right) else {
        return Err(OpFault::WrongType);
    };
    number_or_overflow(number_of(left | right))
}

/// `~`
pub(crate) fn bits_not(operand: &Operand) -> Result<Num, OpFault>
    ensures { number_returned result ≡ complement (plain operand.now) }
{
    let Some(whole) = whole_of(operand) else {
        return Err(OpFault::WrongType);
    };
    number_or_overflow(number_of(!whole))
}
