// Quoted strings.
ghost use Rattle.std.specs.Prelude.{◌≡◌, ◌++◌, ◌<◌, ◌+◌, IfOk, OnOk, encode_utf8};
ghost use Rattle.std.specs.List.{flat_map};
ghost use Rattle.site_base.specs.Quoted.{quoted, octal, escaped};

use crate::{OutOfMemory, Text};
use std::alloc::Global;

/// A text between quotes, with `\"`, `\\`, `\n`, `\t` and `\r`, and each other byte below 32 and byte 127 as a
/// backslash and three octal digits.
pub fn quote(alloc: Global, text: &str) -> Result<Text, OutOfMemory>
    ensures { IfOk result (λ t. t ≡ quoted text.now) }
{
    let mut out = Text::new(alloc);
    push_quoted(&mut out, text)?;
    Ok(out)
}

/// Adds a text as [`quote`] gives it. After an error the front of it may stand there.
pub fn push_quoted(out: &mut Text, text: &str) -> Result<(), OutOfMemory>
    ensures { OnOk result (out.new ≡ out.old ++ quoted text.now) }
{
    out.push('"')?;
    for c in text.chars() {
        push_escaped(out, c)?;
    }
    out.push('"')
}

/// Adds a character as it stands between quotes.
fn push_escaped(out: &mut Text, c: char) -> Result<(), OutOfMemory>
    ensures { OnOk result (out.new ≡ out.old ++ flat_map escaped (encode_utf8 c)) }
{
    match c {
        '"' => out.push_str("\\\""),
        '\\' => out.push_str("\\\\"),
        '\n' => out.push_str("\\n"),
        '\t' => out.push_str("\\t"),
        '\r' => out.push_str("\\r"),
        '\0'..='\x1f' | '\x7f' => push_octal(out, c as u8),
        _ => out.push(c),
    }
}

fn push_octal(out: &mut Text, byte: u8) -> Result<(), OutOfMemory>
    requires { byte < 128 }
    ensures { OnOk result (out.new ≡ out.old ++ octal byte) }
{
    out.push('\\')?;
    out.push(octal_digit(byte / 64))?;
    out.push(octal_digit(byte / 8 % 8))?;
    out.push(octal_digit(byte % 8))
}

fn octal_digit(value: u8) -> char
    requires { value < 8 }
    ensures { result ≡ 48 + value }
{
    char::from(b'0' + value)
}
