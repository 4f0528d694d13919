// The tokens of a state file, each where it has to stand.
ghost use Rattle.std.specs.Prelude.{◌≡◌, ◌∷◌, [], decimal, IfOk, OnOk};
ghost use Rattle.json.specs.Token.{begin_array, begin_object, end_object, key, number, string};

use crate::KeepError;
use json::{Reader, Token};

/// Takes the brace with which an object begins.
pub(crate) fn open_object(reader: &mut Reader<'_>) -> Result<(), KeepError>
    ensures { OnOk result (reader.old ≡ begin_object ∷ reader.new) }
{
    match reader.next() {
        Some(Token::BeginObject) => Ok(()),
        _ => Err(KeepError::BadState),
    }
}

/// Takes the brace with which an object ends.
pub(crate) fn close_object(reader: &mut Reader<'_>) -> Result<(), KeepError>
    ensures { OnOk result (reader.old ≡ end_object ∷ reader.new) }
{
    match reader.next() {
        Some(Token::EndObject) => Ok(()),
        _ => Err(KeepError::BadState),
    }
}

/// Takes the bracket with which an array begins.
pub(crate) fn open_array(reader: &mut Reader<'_>) -> Result<(), KeepError>
    ensures { OnOk result (reader.old ≡ begin_array ∷ reader.new) }
{
    match reader.next() {
        Some(Token::BeginArray) => Ok(()),
        _ => Err(KeepError::BadState),
    }
}

/// Takes this key.
pub(crate) fn take_key(reader: &mut Reader<'_>, name: &str) -> Result<(), KeepError>
    ensures { OnOk result (reader.old ≡ key name.now ∷ reader.new) }
{
    match reader.next() {
        Some(Token::Key(found)) if found == name => Ok(()),
        _ => Err(KeepError::BadState),
    }
}

/// Takes a text.
pub(crate) fn take_string<'a>(reader: &mut Reader<'a>) -> Result<&'a str, KeepError>
    ensures { IfOk result (λ text. reader.old ≡ string text.now ∷ reader.new) }
{
    match reader.next() {
        Some(Token::String(text)) => Ok(text),
        _ => Err(KeepError::BadState),
    }
}

/// Takes the number one.
pub(crate) fn take_one(reader: &mut Reader<'_>) -> Result<(), KeepError>
    ensures { OnOk result (reader.old ≡ number (decimal 1) ∷ reader.new) }
{
    match reader.next() {
        Some(Token::Number(text)) if text == "1" => Ok(()),
        _ => Err(KeepError::BadState),
    }
}

/// Takes the end of the text.
pub(crate) fn take_end(reader: &mut Reader<'_>) -> Result<(), KeepError>
    ensures { OnOk result (reader.old ≡ []) }
{
    match reader.next() {
        None => Ok(()),
        Some(_) => Err(KeepError::BadState),
    }
}
