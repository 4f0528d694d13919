// Arrays in order.
ghost use Rattle.std.specs.Prelude.{◌≡◌, ℤ, ℕ, List, length, map, Some, MatchResult, IfOk};
ghost use Rattle.std.specs.List.{AllByRecursion};
ghost use Rattle.std.specs.Ordering.{int_cmp};
ghost use Rattle.dsl_value.specs.Pairs.{key_cmp};
ghost use Rattle.dsl_value.specs.Whole.{Names};
ghost use Rattle.dsl_value.specs.declared.value.Value.TheVariants as value;
ghost use Rattle.dsl_lib.specs.Answers.{ReturnsArray, IsWrong};
ghost use Rattle.dsl_lib.specs.Arguments.{text_in, number_in};
ghost use Rattle.dsl_lib.specs.Arrays.{all_in, sorted as sorted_list, sorted_values, sort as sort_answer};

use crate::LibFault;
use crate::args::{held_text, items, number, one};
use dsl_value::{Store, Value};
use site_base::{Num, OutOfMemory, Row, Text};
use std::alloc::Global;

/// `array.sort()`: a new array of all texts by their bytes, or of all numbers.
pub(crate) fn sort(alloc: Global, args: &[Value], store: &Store) -> Result<Row<Value>, LibFault>
    requires stands { AllByRecursion (Names (length store.now.cells) (length store.now.functions)) args.now }
    ensures answer { ReturnsArray (sort_answer store.now args.now) result }
    ensures stands { IfOk result (AllByRecursion (Names (length store.now.cells) (length store.now.functions))) }
{
    let items = items(one(args)?, store)?;
    let sorted = sorted(alloc, items)?;
    Ok(sorted)
}

fn sorted(alloc: Global, items: &[Value]) -> Result<Row<Value>, LibFault>
    ensures { MatchResult result (λ row. sorted_values items.now ≡ Some row) (IsWrong (sorted_values items.now)) }
{
    match items {
        [] => Ok(Row::new(alloc)),
        [Value::Str(_), ..] => Ok(text_values(alloc, sorted_texts(alloc, items)?)?),
        _ => Ok(number_values(alloc, sorted_numbers(alloc, items)?)?),
    }
}

fn sorted_texts(alloc: Global, items: &[Value]) -> Result<Vec<Text>, LibFault>
    ensures { MatchResult result (λ v. (ts : List (List ℕ)) × (all_in text_in items.now ≡ Some ts) × (v.items ≡ sorted_list key_cmp ts)) (IsWrong (all_in text_in items.now)) }
{
    let mut texts = Vec::new(alloc);
    for item in items {
        texts.push(held_text(item)?.clone()?)?;
    }
    texts.sort()?;
    Ok(texts)
}

fn sorted_numbers(alloc: Global, items: &[Value]) -> Result<Vec<Num>, LibFault>
    ensures { MatchResult result (λ v. (ns : List ℤ) × (all_in number_in items.now ≡ Some ns) × (v.items ≡ sorted_list int_cmp ns)) (IsWrong (all_in number_in items.now)) }
{
    let mut numbers = Vec::new(alloc);
    for item in items {
        numbers.push(number(item)?)?;
    }
    numbers.sort()?;
    Ok(numbers)
}

fn text_values(alloc: Global, texts: Vec<Text>) -> Result<Row<Value>, OutOfMemory>
    ensures { IfOk result (λ row. row ≡ map value.Str texts.items) }
{
    let mut values = Row::new(alloc);
    for text in texts {
        values.push(Value::Str(text))?;
    }
    Ok(values)
}

fn number_values(alloc: Global, numbers: Vec<Num>) -> Result<Row<Value>, OutOfMemory>
    ensures { IfOk result (λ row. row ≡ map value.Number numbers.items) }
{
    let mut values = Row::new(alloc);
    for number in numbers {
        values.push(Value::Number(number))?;
    }
    Ok(values)
}
