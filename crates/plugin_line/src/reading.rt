// Reading what a plugin wrote.
ghost use Rattle.std.specs.Prelude.{◌≡◌, ◌<◌, ◌==◌, IfOk, map, take};
ghost use Rattle.std.specs.List.{before_first, after_first};
ghost use Rattle.plugin_line.specs.Output.{in_ascii, plugin_result, result_of};

use crate::PluginResult;
use crate::trimming::trim_blanks;
use site_base::{OutOfMemory, Text};
use std::alloc::Global;

/// The number of bytes that are looked at.
const LIMIT: usize = 65_536;

/// What a plugin tells by its output and its exit status (Monitoring Plugins Development Guidelines,
/// "Plugin Output"; Icinga 2 documentation, Service Monitoring, "Plugin API").
///
/// The first line up to its first `|` is the output, and what follows in that line is the performance
/// data, both without blanks (space, tab, carriage return) at their ends. Only the first 65,536 bytes are
/// looked at. Where these aren't UTF-8, each byte above 127 is read as `?`. A status above 3 is 3.
pub fn read_output(alloc: Global, bytes: &[u8], status: u8) -> Result<PluginResult, OutOfMemory>
    ensures { IfOk result (λ r. r ≡ plugin_result bytes.now status) }
{
    let front = front_of(bytes);
    match str::from_utf8(front) {
        Ok(text) => read_text(alloc, text, status),
        Err(_) => {
            let text = ascii_of(alloc, front)?;
            read_text(alloc, text.as_str(), status)
        }
    }
}

/// The bytes that are looked at.
fn front_of(bytes: &[u8]) -> &[u8]
    ensures { result.now ≡ take 65536 bytes.now }
{
    if bytes.len() > LIMIT {
        &bytes[..LIMIT]
    } else {
        bytes
    }
}

/// What a plugin tells by a text.
fn read_text(alloc: Global, text: &str, status: u8) -> Result<PluginResult, OutOfMemory>
    ensures { IfOk result (λ r. r ≡ result_of text.now status) }
{
    let (output, perf) = cut_at_bar(first_line(text));
    Ok(PluginResult {
        status: status.min(3),
        output: Text::copy_of(alloc, trim_blanks(output))?,
        perf: Text::copy_of(alloc, trim_blanks(perf))?,
    })
}

fn first_line(text: &str) -> &str
    ensures { result.now ≡ before_first (λ b. b == 10) text.now }
{
    match text.split_once('\n') {
        Some((line, _)) => line,
        None => text,
    }
}

/// What stands before the first bar, and what behind it.
fn cut_at_bar(line: &str) -> (&str, &str)
    ensures before { result.0.now ≡ before_first (λ b. b == 124) line.now }
    ensures behind { result.1.now ≡ after_first (λ b. b == 124) line.now }
{
    match line.split_once('|') {
        Some(parts) => parts,
        None => (line, ""),
    }
}

/// The bytes as a text, with `?` for each that isn't ASCII.
fn ascii_of(alloc: Global, bytes: &[u8]) -> Result<Text, OutOfMemory>
    ensures { IfOk result (λ t. t ≡ map in_ascii bytes.now) }
{
    let mut text = Text::new(alloc);
    for byte in bytes {
        text.push(ascii_char(*byte))?;
    }
    Ok(text)
}

fn ascii_char(byte: u8) -> char
    ensures value { result ≡ in_ascii byte }
    ensures ascii { result < 128 }
{
    if byte.is_ascii() {
        char::from(byte)
    } else {
        '?'
    }
}
