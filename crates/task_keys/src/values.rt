// The keys of values.
ghost use Rattle.std.specs.Prelude.{◌≡◌, ◌++◌, ◌∷◌, OnOk};
ghost use Rattle.task_keys.specs.Keys.{number_key};
ghost use Rattle.task_keys.specs.ValueKeys.{pairs_key, value_key, values_key};

use crate::Key;
use dsl_value::Value;
use site_base::{OutOfMemory, Text};

/// A value. An array, a dictionary or a function is told by the cell or the function of the store that it names.
pub fn push_value(out: &mut Key, value: &Value) -> Result<(), OutOfMemory>
    ensures { OnOk result (out.new ≡ out.old ++ value_key value.now) }
{
    match value {
        Value::Null => out.push(0),
        Value::Bool(value) => {
            out.push(1)?;
            out.push_boolean(*value)
        }
        Value::Number(number) => {
            out.push(2)?;
            out.push_whole(*number)
        }
        Value::Str(text) => {
            out.push(3)?;
            out.push_text(text)
        }
        Value::Ref(cell) => push_index(out, 4, *cell),
        Value::Func(function) => push_index(out, 5, *function),
    }
}

fn push_index(out: &mut Key, kind: u8, index: u32) -> Result<(), OutOfMemory>
    ensures { OnOk result (out.new ≡ out.old ++ kind ∷ number_key index) }
{
    out.push(kind)?;
    out.push_number(u64::from(index))
}

/// The values of an array, one after another.
pub fn push_values(out: &mut Key, values: &[Value]) -> Result<(), OutOfMemory>
    ensures { OnOk result (out.new ≡ out.old ++ values_key values.now) }
{
    for value in values {
        out.push(1)?;
        push_value(out, value)?;
    }
    out.push(0)
}

/// Names with their values, as those that a body captured.
pub fn push_pairs(out: &mut Key, pairs: &[(Text, Value)]) -> Result<(), OutOfMemory>
    ensures { OnOk result (out.new ≡ out.old ++ pairs_key pairs.now) }
{
    for (name, value) in pairs {
        out.push(1)?;
        out.push_text(name)?;
        push_value(out, value)?;
    }
    out.push(0)
}
