// The methods of texts.
ghost use Rattle.std.specs.Prelude.{◌≡◌, ◌<◌, map, IfOk, Some, ℕ};
ghost use Rattle.std.specs.Char.{to_ascii_lowercase, to_ascii_uppercase};
ghost use Rattle.dsl_value.specs.Whole.{Names};
ghost use Rattle.dsl_lib.specs.Answers.{Returns};
ghost use Rattle.dsl_lib.specs.Texts.{len as len_answer, has_part, contains as contains_answer, by_chars, lower as lower_answer, upper as upper_answer, trim as trim_answer};

use crate::LibFault;
use crate::args::{one, text, two};
use crate::scalars::whole;
use crate::trimming::trimmed;
use dsl_value::Value;
use site_base::{OutOfMemory, Text, first_character};
use std::alloc::Global;

/// `text.len()`: its bytes.
pub(crate) fn len(args: &[Value]) -> Result<Value, LibFault>
    ensures answer { Returns (len_answer args.now) result }
    ensures stands { IfOk result (λ v. (cells functions : ℕ) → Names cells functions v) }
{
    whole(text(one(args)?)?.len())
}

/// `text.contains(part)`
pub(crate) fn contains(args: &[Value]) -> Result<Value, LibFault>
    ensures answer { Returns (contains_answer args.now) result }
    ensures stands { IfOk result (λ v. (cells functions : ℕ) → Names cells functions v) }
{
    let (of, part) = two(args)?;
    Ok(Value::Bool(contains_part(text(of)?, text(part)?)))
}

fn contains_part(text: &str, part: &str) -> bool
    ensures { result ≡ has_part text.now part.now }
{
    text.contains(part)
}

/// `text.lower()`, for letters of ASCII.
pub(crate) fn lower(alloc: Global, args: &[Value]) -> Result<Value, LibFault>
    ensures answer { Returns (lower_answer args.now) result }
    ensures stands { IfOk result (λ v. (cells functions : ℕ) → Names cells functions v) }
{
    let lowered = lowered(alloc, text(one(args)?)?)?;
    Ok(Value::Str(lowered))
}

fn lowered(alloc: Global, text: &str) -> Result<Text, OutOfMemory>
    ensures { IfOk result (λ t. t ≡ by_chars (map to_ascii_lowercase) text.now) }
{
    let mut lowered = Text::new(alloc);
    let mut rest = text;
    while let Some((c, others)) = first_character(rest) {
        lowered.push(c.to_ascii_lowercase())?;
        rest = others;
    }
    Ok(lowered)
}

/// `text.upper()`, for letters of ASCII.
pub(crate) fn upper(alloc: Global, args: &[Value]) -> Result<Value, LibFault>
    ensures answer { Returns (upper_answer args.now) result }
    ensures stands { IfOk result (λ v. (cells functions : ℕ) → Names cells functions v) }
{
    let raised = raised(alloc, text(one(args)?)?)?;
    Ok(Value::Str(raised))
}

fn raised(alloc: Global, text: &str) -> Result<Text, OutOfMemory>
    ensures { IfOk result (λ t. t ≡ by_chars (map to_ascii_uppercase) text.now) }
{
    let mut raised = Text::new(alloc);
    let mut rest = text;
    while let Some((c, others)) = first_character(rest) {
        raised.push(c.to_ascii_uppercase())?;
        rest = others;
    }
    Ok(raised)
}

/// `text.trim()`: without spaces, tabs, carriage returns and newlines at both ends.
pub(crate) fn trim(alloc: Global, args: &[Value]) -> Result<Value, LibFault>
    ensures answer { Returns (trim_answer args.now) result }
    ensures stands { IfOk result (λ v. (cells functions : ℕ) → Names cells functions v) }
{
    let trimmed = Text::copy_of(alloc, trimmed(text(one(args)?)?))?;
    Ok(Value::Str(trimmed))
}
