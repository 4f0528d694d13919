// The state file of a site.
ghost use Rattle.std.specs.Prelude.{◌≡◌, ◌<◌, ◌^◌, ◌++◌, ◌∷◌, [], IfOk, length};
ghost use Rattle.json.specs.Print.{print};
ghost use Rattle.serde_json.specs.Data.{array};
ghost use Rattle.run_meaning.specs.Turns.{Histories};
ghost use Rattle.site_model.specs.PlainSite.{check_view, site_view};
ghost use Rattle.checkable_core.specs.Contents.{check_at};
ghost use Rattle.site_keep.specs.Shape.{saved_data, saved_items};
ghost use Rattle.site_keep.specs.StateFile.{lines_of, state_file};
ghost use Rattle.site_keep.specs.Writing.{saved_among, saved_as, tokens_of, Adds};

use crate::SavedLines;
use json::Writer;
use site_base::{OutOfMemory, Text};
use site_model::Site;
use std::alloc::Global;

/// The state file of the checkables of a site whose entries have these lines, one list for each, by index: the compact
/// JSON text of `{"checkables":[..],"version":1}` and a newline. Each checkable is `{"entries":[..],"name":NAME}`, and each entry is
/// its line of version two as a text, without the newline.
///
/// The time is linear in the length of the text, which is written once.
///
/// # Errors
///
/// `OutOfMemory` if there is none for the text.
pub fn save(alloc: Global, site: &Site, lines: &[SavedLines]) -> Result<Text, OutOfMemory>
    requires whole { length lines.now ≡ length site.now.checkables }
    requires few { length site.now.checkables < 2 ^ 32 }
    ensures { (hs : Histories) → lines.now ≡ lines_of (site_view site.now) hs → IfOk result (λ t. t ≡ state_file (site_view site.now) hs) }
{
    let mut out = Writer::new(Vec::new(alloc));
    out.begin_object()?;
    out.key("checkables")?;
    write_checkables(&mut out, site, lines)?;
    out.key("version")?;
    out.u64(1)?;
    out.end_object()?;
    text_of(alloc, out)
}

/// What was written, with a newline.
fn text_of(alloc: Global, out: Writer) -> Result<Text, OutOfMemory>
    requires { out.before ≡ [] }
    ensures { IfOk result (λ t. t ≡ print out.tokens ++ 10 ∷ []) }
{
    let Ok(mut string) = String::from_utf8(out.into_inner()) else {
        return Err(OutOfMemory);
    };
    string.push('\n')?;
    Text::of_string(alloc, string)
}

fn write_checkables(out: &mut Writer, site: &Site, lines: &[SavedLines]) -> Result<(), OutOfMemory>
    requires whole { length lines.now ≡ length site.now.checkables }
    requires few { length site.now.checkables < 2 ^ 32 }
    ensures { Adds result out.old out.new (tokens_of (array (saved_items (saved_among (site_view site.now).checkables lines.now)))) }
{
    out.begin_array()?;
    for i in 0..lines.len() {
        write_checkable(out, site, i as u32, &lines[i])?;
    }
    out.end_array()?;
    Ok(())
}

fn write_checkable(
    out: &mut Writer,
    site: &Site,
    checkable: u32,
    lines: &SavedLines,
) -> Result<(), OutOfMemory>
    requires own { checkable < length site.now.checkables }
    ensures { Adds result out.old out.new (tokens_of (saved_data (saved_as (check_at (site_view site.now) checkable) lines.now))) }
{
    out.begin_object()?;
    out.key("entries")?;
    lines.write(out)?;
    out.key("name")?;
    out.string(site.checkables.as_slice()[checkable as usize].name.as_str())?;
    out.end_object()?;
    Ok(())
}
