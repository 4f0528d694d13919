// Texts of scalars, joined.
ghost use Rattle.std.specs.Prelude.{◌≡◌, ◌<◌, ◌++◌, ℕ, List, length, Some, MatchResult, IfOk};
ghost use Rattle.std.specs.List.{AllByRecursion, flat_map};
ghost use Rattle.dsl_value.specs.Whole.{Names};
ghost use Rattle.dsl_lib.specs.Answers.{Returns, IsWrong};
ghost use Rattle.dsl_lib.specs.Scalars.{scalar_text};
ghost use Rattle.dsl_lib.specs.Arrays.{all_in, joined as joined_texts, join as join_answer};

use crate::LibFault;
use crate::args::{items, text, two};
use crate::scalars::push_scalar;
use dsl_value::{Store, Value};
use site_base::Text;
use std::alloc::Global;

/// `array.join(separator)`: the texts of scalars with a separator between each two.
pub(crate) fn join(alloc: Global, args: &[Value], store: &Store) -> Result<Value, LibFault>
    requires { AllByRecursion (Names (length store.now.cells) (length store.now.functions)) args.now }
    ensures answer { Returns (join_answer store.now args.now) result }
    ensures stands { IfOk result (Names (length store.now.cells) (length store.now.functions)) }
{
    let (of, separator) = two(args)?;
    let items = items(of, store)?;
    let joined = joined(alloc, items, text(separator)?)?;
    Ok(Value::Str(joined))
}

fn joined(alloc: Global, items: &[Value], separator: &str) -> Result<Text, LibFault>
    ensures { MatchResult result (λ t. (ts : List (List ℕ)) × (all_in scalar_text items.now ≡ Some ts) × (t ≡ joined_texts separator.now ts)) (IsWrong (all_in scalar_text items.now)) }
{
    let mut joined = Text::new(alloc);
    let [first, rest @ ..] = items else {
        return Ok(joined);
    };
    push_scalar(&mut joined, first)?;
    push_separated(&mut joined, rest, separator)?;
    Ok(joined)
}

/// Adds each text, with a separator before it.
fn push_separated(out: &mut Text, items: &[Value], separator: &str) -> Result<(), LibFault>
    ensures { MatchResult result (λ _. (ts : List (List ℕ)) × (all_in scalar_text items.now ≡ Some ts) × (out.new ≡ out.old ++ flat_map (λ t. separator.now ++ t) ts)) (IsWrong (all_in scalar_text items.now)) }
{
    for item in items {
        out.push_str(separator)?;
        push_scalar(out, item)?;
    }
    Ok(())
}
