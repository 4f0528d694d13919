// Parts of texts that another text is put in the place of.
ghost use Rattle.std.specs.Prelude.{◌≡◌, ◌++◌, ◌<◌, length, IfOk, OnOk, ℕ};
ghost use Rattle.dsl_value.specs.Whole.{Names};
ghost use Rattle.dsl_lib.specs.Answers.{Returns};
ghost use Rattle.dsl_lib.specs.Texts.{replaced_behind, replaced as replaced_text, replace as replace_answer};

use crate::LibFault;
use crate::args::{text, three};
use dsl_value::Value;
use site_base::{OutOfMemory, Text};
use std::alloc::Global;

/// `text.replace(part, by)`: each part, from left to right; an empty one changes nothing.
pub(crate) fn replace(alloc: Global, args: &[Value]) -> Result<Value, LibFault>
    ensures answer { Returns (replace_answer args.now) result }
    ensures stands { IfOk result (λ v. (cells functions : ℕ) → Names cells functions v) }
{
    let (of, part, by) = three(args)?;
    let replaced = replaced(alloc, text(of)?, text(part)?, text(by)?)?;
    Ok(Value::Str(replaced))
}

fn replaced(alloc: Global, text: &str, part: &str, by: &str) -> Result<Text, OutOfMemory>
    ensures { IfOk result (λ t. t ≡ replaced_text text.now part.now by.now) }
{
    if part.is_empty() {
        return Text::copy_of(alloc, text);
    }
    let mut out = Text::new(alloc);
    push_replaced(&mut out, text, part, by)?;
    Ok(out)
}

/// Adds a text with each part replaced.
fn push_replaced(out: &mut Text, text: &str, part: &str, by: &str) -> Result<(), OutOfMemory>
    requires { 0 < length part.now }
    ensures { OnOk result (out.new ≡ out.old ++ replaced_behind part.now by.now 0 text.now) }
{
    let mut rest = text;
    while let Some((front, back)) = rest.split_once(part) {
        out.push_str(front)?;
        out.push_str(by)?;
        rest = back;
    }
    out.push_str(rest)?;
    Ok(())
}
