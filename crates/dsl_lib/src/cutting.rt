// Windows of texts.
ghost use Rattle.std.specs.Prelude.{◌≡◌, ◌≤◌, MatchResult, Some, None, length, IfOk, ℕ};
ghost use Rattle.dsl_value.specs.Whole.{Names};
ghost use Rattle.dsl_lib.specs.Answers.{Returns};
ghost use Rattle.dsl_ops.specs.Table.{whole_part};
ghost use Rattle.dsl_lib.specs.Texts.{cut as cut_to, is_boundary, window as window_of, part_of, substr as substr_answer};

use crate::LibFault;
use crate::args::{number, text, three};
use dsl_value::Value;
use site_base::{Num, Text};
use std::alloc::Global;

/// `text.substr(start, length)`: so many bytes from a place on, cut to the text. A negative start or length
/// is lawful.
pub(crate) fn substr(alloc: Global, args: &[Value]) -> Result<Value, LibFault>
    ensures answer { Returns (substr_answer args.now) result }
    ensures stands { IfOk result (λ v. (cells functions : ℕ) → Names cells functions v) }
{
    let (of, start, len) = three(args)?;
    let text = text(of)?;
    let (start, len) = (whole_number(number(start)?)?, whole_number(number(len)?)?);
    let part = part(text, start, len)?;
    Ok(Value::Str(Text::copy_of(alloc, part)?))
}

/// The whole number that a number is.
pub(crate) fn whole_number(number: Num) -> Result<i64, LibFault>
    ensures { MatchResult result (λ n. whole_part number ≡ Some n) (λ e. (whole_part number ≡ None) × (e ≡ LibFault.WrongType)) }
{
    let thousandths = number.thousandths();
    if thousandths % 1000 == 0 {
        return Ok(thousandths / 1000);
    }
    Err(LibFault::WrongType)
}

/// So many bytes from a place on, cut to the text.
fn part(text: &str, start: i64, len: i64) -> Result<&str, LibFault>
    ensures { MatchResult result (λ p. part_of text.now start len ≡ Some p.now) (λ e. (part_of text.now start len ≡ None) × (e ≡ LibFault.WrongType)) }
{
    let end = i128::from(start) + i128::from(len);
    let from = cut(i128::from(start), text.len());
    window(text, from, cut(end, text.len()))
}

/// A place, cut to a text of so many bytes.
fn cut(place: i128, len: usize) -> usize
    ensures { result ≡ cut_to place len }
{
    match usize::try_from(place) {
        Ok(place) => place.min(len),
        Err(_) if place > 0 => len,
        Err(_) => 0,
    }
}

/// The window between two places, each of which has to lie inside no character.
fn window(text: &str, from: usize, to: usize) -> Result<&str, LibFault>
    requires from { from ≤ length text.now }
    requires to { to ≤ length text.now }
    ensures { MatchResult result (λ p. window_of text.now from to ≡ Some p.now) (λ e. (window_of text.now from to ≡ None) × (e ≡ LibFault.WrongType)) }
{
    if !lies_between(text, from) || !lies_between(text, to) {
        return Err(LibFault::WrongType);
    }
    Ok(text.get(from..to).unwrap_or(""))
}

/// Whether a place lies inside no character.
fn lies_between(text: &str, place: usize) -> bool
    requires { place ≤ length text.now }
    ensures { result ≡ is_boundary text.now place }
{
    text.is_char_boundary(place)
}
