// Arrays of numbers.
ghost use Rattle.std.specs.Prelude.{◌≡◌, pos, ◌<ℤ◌, IfOk, ℕ};
ghost use Rattle.std.specs.List.{AllByRecursion};
ghost use Rattle.dsl_value.specs.Whole.{Names};
ghost use Rattle.dsl_lib.specs.Answers.{ReturnsArray};
ghost use Rattle.dsl_lib.specs.Sets.{numbers_below, ranged as ranged_answer, range as range_answer};

use crate::LibFault;
use crate::args::number;
use dsl_value::Value;
use site_base::{Num, OutOfMemory, Row};
use std::alloc::Global;

/// `range(end)`, `range(start, end)`, `range(start, end, step)`: a new array of the numbers from 0 or the
/// start, below the end, by 1 or the step, which has to be above 0.
pub(crate) fn range(alloc: Global, args: &[Value]) -> Result<Row<Value>, LibFault>
    ensures answer { ReturnsArray (range_answer args.now) result }
    ensures stands { (cells functions : ℕ) → IfOk result (AllByRecursion (Names cells functions)) }
{
    match args {
        [end] => ranged(alloc, Num::of(0), number(end)?, Num::of(1000)),
        [start, end] => ranged(alloc, number(start)?, number(end)?, Num::of(1000)),
        [start, end, step] => ranged(alloc, number(start)?, number(end)?, number(step)?),
        _ => Err(LibFault::Arity),
    }
}

fn ranged(alloc: Global, start: Num, end: Num, step: Num) -> Result<Row<Value>, LibFault>
    ensures answer { ReturnsArray (ranged_answer start end step) result }
    ensures stands { (cells functions : ℕ) → IfOk result (AllByRecursion (Names cells functions)) }
{
    if step.thousandths() <= 0 {
        return Err(LibFault::WrongType);
    }
    Ok(numbers(alloc, start, end, step)?)
}

/// The numbers from a first one on by a step, which lie below the end.
fn numbers(alloc: Global, first: Num, end: Num, step: Num) -> Result<Row<Value>, OutOfMemory>
    requires { pos 0 <ℤ step }
    ensures { IfOk result (λ row. row ≡ numbers_below first end step) }
{
    let mut numbers = Row::new(alloc);
    let mut next = first;
    while next.thousandths() < end.thousandths() {
        numbers.push(Value::Number(next))?;
        next = match next.plus(&step) {
            Some(sum) => sum,
            None => return Ok(numbers),
        };
    }
    Ok(numbers)
}
