// Texts that are cut at separators.
ghost use Rattle.std.specs.Prelude.{◌≡◌, map, IfOk, ℕ};
ghost use Rattle.std.specs.List.{AllByRecursion};
ghost use Rattle.dsl_value.specs.declared.value.Value.TheVariants as value;
ghost use Rattle.dsl_value.specs.Whole.{Names};
ghost use Rattle.dsl_lib.specs.Answers.{ReturnsArray};
ghost use Rattle.dsl_lib.specs.Texts.{pieces as pieces_of, split as split_answer};

use crate::LibFault;
use crate::args::{text, two};
use crate::characters::has_char;
use dsl_value::Value;
use site_base::{OutOfMemory, Row, Text, first_character};
use std::alloc::Global;
use std::mem;

/// `text.split(separators)`: a new array of the pieces between the separators, each of which is one
/// character.
pub(crate) fn split(alloc: Global, args: &[Value]) -> Result<Row<Value>, LibFault>
    ensures answer { ReturnsArray (split_answer args.now) result }
    ensures stands { (cells functions : ℕ) → IfOk result (AllByRecursion (Names cells functions)) }
{
    let (of, separators) = two(args)?;
    Ok(pieces(alloc, text(of)?, text(separators)?)?)
}

fn pieces(alloc: Global, text: &str, separators: &str) -> Result<Row<Value>, OutOfMemory>
    ensures { IfOk result (λ row. row ≡ map value.Str (pieces_of text.now separators.now)) }
{
    let mut pieces = Row::new(alloc);
    let mut piece = Text::new(alloc);
    let mut rest = text;
    while let Some((c, others)) = first_character(rest) {
        if has_char(separators, c) {
            pieces.push(Value::Str(mem::replace(&mut piece, Text::new(alloc))))?;
        } else {
            piece.push(c)?;
        }
        rest = others;
    }
    pieces.push(Value::Str(piece))?;
    Ok(pieces)
}
