// The lines of a log that are of no entry.
ghost use Rattle.std.specs.Prelude.{◌≡◌, ◌<◌, ◌++◌, false, length, IfOk, OnOk};
ghost use Rattle.site_model.specs.PlainSite.{site_view};
ghost use Rattle.log_text.specs.LogLines.{log_two, missing_line, order_line, order_line_two, order_start, turn_line, words_text};

use site_base::{Moment, OutOfMemory, Text};
use site_model::Site;
use site_text::{Line, push_checkable};
use std::alloc::Global;

/// The line that a log of version two begins with, also where no turn follows.
pub fn version_line() -> &'static str
    ensures { result.now ≡ log_two }
{
    "log 2\n"
}

/// The line of a turn, in both versions: its number and its moment, with a newline.
pub fn print_turn(alloc: Global, number: u64, moment: Moment) -> Result<Text, OutOfMemory>
    ensures { IfOk result (λ t. t ≡ turn_line number moment) }
{
    let mut out = Line::new(alloc)?;
    out.push_str("turn ")?;
    out.push_decimal(number)?;
    out.push(' ')?;
    out.push_decimal(moment.secs())?;
    out.push('\n')?;
    out.into_text()
}

/// The line of an order in version one: its number and the checkable, with a newline.
pub fn print_order(
    alloc: Global,
    number: u64,
    checkable: u32,
    site: &Site,
) -> Result<Text, OutOfMemory>
    requires { checkable < length site.now.checkables }
    ensures { IfOk result (λ t. t ≡ order_line (site_view site.now) number checkable) }
{
    let mut out = Line::new(alloc)?;
    push_start(&mut out, number, checkable, site)?;
    out.push('\n')?;
    out.into_text()
}

/// The line of an order in version two: that of version one, and then the quoted words of the command
/// with a blank before each, with a newline.
pub fn print_order_two(
    alloc: Global,
    number: u64,
    checkable: u32,
    words: &[Text],
    site: &Site,
) -> Result<Text, OutOfMemory>
    requires { checkable < length site.now.checkables }
    ensures { IfOk result (λ t. t ≡ order_line_two (site_view site.now) number checkable words.now) }
{
    let mut out = Line::new(alloc)?;
    push_start(&mut out, number, checkable, site)?;
    out.push(' ')?;
    push_words(&mut out, words)?;
    out.push('\n')?;
    out.into_text()
}

/// The line of an order for whose command a macro is missing, in both versions, with a newline.
pub fn print_missing(
    alloc: Global,
    number: u64,
    checkable: u32,
    name: &str,
    site: &Site,
) -> Result<Text, OutOfMemory>
    requires { checkable < length site.now.checkables }
    ensures { IfOk result (λ t. t ≡ missing_line (site_view site.now) number checkable name.now) }
{
    let mut out = Line::new(alloc)?;
    push_start(&mut out, number, checkable, site)?;
    out.push_str(" missing ")?;
    out.push_quoted(name)?;
    out.push('\n')?;
    out.into_text()
}

/// Adds the number of an order and the checkable.
fn push_start(out: &mut Line, number: u64, checkable: u32, site: &Site) -> Result<(), OutOfMemory>
    requires { checkable < length site.now.checkables }
    ensures { OnOk result (out.new ≡ out.old ++ order_start (site_view site.now) number checkable) }
{
    out.push_str("order ")?;
    out.push_decimal(number)?;
    out.push(' ')?;
    push_checkable(out, site, checkable)
}

/// Adds quoted words, joined by blanks.
fn push_words(out: &mut Line, words: &[Text]) -> Result<(), OutOfMemory>
    ensures { OnOk result (out.new ≡ out.old ++ words_text false words.now) }
{
    for (i, word) in words.iter().enumerate() {
        if i > 0 {
            out.push(' ')?;
        }
        out.push_quoted(word.as_str())?;
    }
    Ok(())
}
