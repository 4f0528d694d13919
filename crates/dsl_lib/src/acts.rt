// What calls come to, before it is done to a store.
ghost use Rattle.std.specs.Prelude.{◌≡◌};
ghost use Rattle.dsl_lib.specs.Answers.{made_by, kept_by, array_by, texts_by};

use crate::LibFault;
use dsl_value::{Act, Made, Value};
use site_base::Row;

/// A value; if it is a text, one that was made.
pub(crate) fn made(returned: Result<Value, LibFault>) -> Result<Act<'static>, LibFault>
    ensures { result ≡ made_by returned }
{
    match returned {
        Ok(Value::Str(text)) => Ok(Act::Make(Made::Text(text))),
        Ok(value) => Ok(Act::Make(Made::Value(value))),
        Err(fault) => Err(fault),
    }
}

/// A value that was there before.
pub(crate) fn kept(returned: Result<Value, LibFault>) -> Result<Act<'static>, LibFault>
    ensures { result ≡ kept_by returned }
{
    match returned {
        Ok(value) => Ok(Act::Make(Made::Value(value))),
        Err(fault) => Err(fault),
    }
}

/// A new array of values that were there.
pub(crate) fn array(returned: Result<Row<Value>, LibFault>) -> Result<Act<'static>, LibFault>
    ensures { result ≡ array_by returned }
{
    match returned {
        Ok(items) => Ok(Act::Make(Made::Array(items))),
        Err(fault) => Err(fault),
    }
}

/// A new array of texts that were made.
pub(crate) fn texts(returned: Result<Row<Value>, LibFault>) -> Result<Act<'static>, LibFault>
    ensures { result ≡ texts_by returned }
{
    match returned {
        Ok(items) => Ok(Act::Make(Made::Texts(items))),
        Err(fault) => Err(fault),
    }
}
