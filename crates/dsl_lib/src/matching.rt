// The function `match`.
ghost use Rattle.std.specs.Prelude.{◌≡◌, ◌<◌, Bool, length, Some, MatchResult, IfOk};
ghost use Rattle.std.specs.List.{AllByRecursion};
ghost use Rattle.dsl_value.specs.Whole.{Names};
ghost use Rattle.dsl_lib.specs.Answers.{Returns, IsWrong};
ghost use Rattle.dsl_lib.specs.Arrays.{all_in};
ghost use Rattle.wildcards.specs.Wildcards.{matches as matches_text};
ghost use Rattle.dsl_lib.specs.Matching.{matched_text, all_match, matched as matched_of, match_answer, option_of};

use crate::LibFault;
use crate::args::{items, text, two};
use dsl_value::{Store, Value};
use site_base::Text;
use std::alloc::Global;
use wildcards::matches;

/// `match(pattern, value)`: whether the pattern describes a text, a number's text or, for null, the empty
/// text; or each element of an array, of which there has to be one.
pub(crate) fn match_value(alloc: Global, args: &[Value], store: &Store) -> Result<Value, LibFault>
    requires { AllByRecursion (Names (length store.now.cells) (length store.now.functions)) args.now }
    ensures answer { Returns (match_answer store.now args.now) result }
    ensures stands { IfOk result (Names (length store.now.cells) (length store.now.functions)) }
{
    let (pattern, value) = two(args)?;
    let pattern = text(pattern)?;
    Ok(Value::Bool(matched(alloc, pattern, value, store)?))
}

fn matched(alloc: Global, pattern: &str, value: &Value, store: &Store) -> Result<bool, LibFault>
    requires { Names (length store.now.cells) (length store.now.functions) value.now }
    ensures { MatchResult result (λ b. matched_of store.now.cells pattern.now value.now ≡ Some b) (IsWrong (matched_of store.now.cells pattern.now value.now)) }
{
    match value {
        Value::Ref(_) => all_match_pattern(alloc, pattern, items(value, store)?),
        _ => scalar_matches(alloc, pattern, value),
    }
}

/// Whether the pattern describes each of some values, of which there has to be one.
fn all_match_pattern(alloc: Global, pattern: &str, items: &[Value]) -> Result<bool, LibFault>
    ensures { MatchResult result (λ b. option_of (all_match pattern.now) (all_in matched_text items.now) ≡ Some b) (IsWrong (all_in matched_text items.now)) }
{
    let mut all = !items.is_empty();
    for item in items {
        let one = scalar_matches(alloc, pattern, item)?;
        all &= one;
    }
    Ok(all)
}

/// Whether the pattern describes a text, a number's text or nothing.
fn scalar_matches(alloc: Global, pattern: &str, value: &Value) -> Result<bool, LibFault>
    ensures { MatchResult result (λ b. option_of (matches_text pattern.now) (matched_text value.now) ≡ Some b) (IsWrong (matched_text value.now)) }
{
    match value {
        Value::Null => Ok(matches(pattern, "")),
        Value::Str(text) => Ok(matches(pattern, text.as_str())),
        Value::Number(number) => {
            let mut text = Text::new(alloc);
            number.push_to(&mut text)?;
            Ok(matches(pattern, text.as_str()))
        }
        _ => Err(LibFault::WrongType),
    }
}
