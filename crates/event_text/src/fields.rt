// The fields of commands.
ghost use Rattle.std.specs.Prelude.{◌≡◌, ◌<◌, ◌≤◌, is_some};
ghost use Rattle.event_text.specs.Fields.{field as field_at, fields_in, last_field, service_in as service_among};
ghost use Rattle.event_text.specs.Lent.{fields_view, text_view, texts_view};

use crate::Command;
use crate::cutting::cut_field;
use arrayvec::ArrayVec;

/// The fields of a text, if it has so many and no others. The last one takes the rest where it is a text.
pub(crate) fn split<'a>(
    text: &'a str,
    count: usize,
    ends_in_text: bool,
) -> Option<ArrayVec<&'a str, 9>>
    requires some { 0 < count }
    requires few { count ≤ 9 }
    ensures { fields_view result ≡ fields_in ends_in_text count text.now }
{
    let mut fields: ArrayVec<&'a str, 9> = ArrayVec::new();
    let mut rest = text;
    let mut left = count;
    while left > 1 {
        let Some((front, behind)) = cut_field(rest) else {
            return None;
        };
        fields.push(front);
        rest = behind;
        left -= 1;
    }
    if is_last(rest, ends_in_text) {
        fields.push(rest);
        Some(fields)
    } else {
        None
    }
}

/// Whether a text is one field.
fn is_last(text: &str, ends_in_text: bool) -> bool
    ensures { result ≡ is_some (last_field ends_in_text text.now) }
{
    ends_in_text || cut_field(text).is_none()
}

/// The field at a place, or the empty text if there is none.
pub(crate) fn field<'a>(fields: &[&'a str], place: usize) -> &'a str
    ensures { result.now ≡ field_at (texts_view fields.now) place }
{
    match fields.get(place) {
        Some(text) => text,
        None => "",
    }
}

/// The service that the fields of a command name.
pub(crate) fn service_in<'a>(command: Command, fields: &[&'a str]) -> Option<&'a str>
    ensures { text_view result ≡ service_among command (texts_view fields.now) }
{
    if command.names_service() {
        Some(field(fields, 1))
    } else {
        None
    }
}
