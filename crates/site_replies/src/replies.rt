// What the program replies: listings of objects, and diagnostics.
ghost use Rattle.std.specs.Prelude.{◌≡◌, ◌++◌, true, map, length, IfOk, OnOk};
ghost use Rattle.site_model.specs.PlainSite.{object_view};
ghost use Rattle.site_conf.specs.Sound.{AreIn};
ghost use Rattle.site_phases.specs.Phases.{answer_view};
ghost use Rattle.site_text.specs.Diags.{diag_line};
ghost use Rattle.site_replies.specs.Replies.{reply_view, bad_query as bad_query_of, bad_state as bad_state_of, bad_script as bad_script_of, config_reply, count as count_of, count_line as line_of_count, diagnoses as diagnoses_of, fault_at as fault_of, files_in, listed, listing as listing_of, no_file as no_file_of, plain_line, shown_as};

use site_base::{Diag, DiagKind, ItemNo, OutOfMemory, Place, Row, TargetNo, Text, Texts, quote};
use site_model::Object;
use site_phases::Answer;
use site_text::{print_diag, print_object};
use std::alloc::Global;

/// The lines to write, and whether they are diagnostics.
#[derive(Drop)]
pub struct Reply {
    pub lines: Texts,
    pub diagnosed: bool,
}

/// How the objects of a configuration are told.
#[derive(Clone, Copy)]
pub enum Shown {
    /// A line for each.
    Listing,
    /// How many there are.
    Count,
}

/// What answers to a configuration.
pub fn reply_to_config(alloc: Global, answer: Answer, shown: Shown) -> Result<Reply, OutOfMemory>
    ensures { IfOk result (λ r. reply_view r ≡ config_reply shown (files_in answer) (answer_view answer)) }
{
    match answer {
        Answer::Site(site) => reply_to_objects(alloc, site.objects.as_slice(), shown),
        Answer::Diags { files, list } => diagnoses(alloc, &files, list.as_slice()),
    }
}

/// Objects, without those of the built-in library.
fn reply_to_objects(alloc: Global, objects: &[Object], shown: Shown) -> Result<Reply, OutOfMemory>
    ensures { IfOk result (λ r. reply_view r ≡ shown_as shown (map object_view objects.now)) }
{
    match shown {
        Shown::Listing => listing(alloc, objects),
        Shown::Count => count(alloc, objects),
    }
}

fn listing(alloc: Global, objects: &[Object]) -> Result<Reply, OutOfMemory>
    ensures { IfOk result (λ r. reply_view r ≡ listing_of (map object_view objects.now)) }
{
    let mut lines = Row::new(alloc);
    push_objects(alloc, &mut lines, objects)?;
    Ok(Reply {
        lines,
        diagnosed: false,
    })
}

fn count(alloc: Global, objects: &[Object]) -> Result<Reply, OutOfMemory>
    ensures { IfOk result (λ r. reply_view r ≡ count_of (map object_view objects.now)) }
{
    let mut lines = Row::new(alloc);
    lines.push(count_line(alloc, objects)?)?;
    Ok(Reply {
        lines,
        diagnosed: false,
    })
}

/// Adds the line of each object that is listed.
fn push_objects(alloc: Global, lines: &mut Texts, objects: &[Object]) -> Result<(), OutOfMemory>
    ensures { OnOk result (lines.new ≡ lines.old ++ map plain_line (listed (map object_view objects.now))) }
{
    for object in objects {
        if !object.builtin {
            lines.push(print_object(alloc, object)?)?;
        }
    }
    Ok(())
}

/// The line that tells how many objects are listed.
fn count_line(alloc: Global, objects: &[Object]) -> Result<Text, OutOfMemory>
    ensures { IfOk result (λ t. t ≡ line_of_count (length (listed (map object_view objects.now)))) }
{
    let mut line = Text::copy_of(alloc, "ok ")?;
    line.push_decimal(count_listed(objects))?;
    line.push_str(" objects\n")?;
    Ok(line)
}

/// How many objects are listed.
pub fn count_listed(objects: &[Object]) -> u64
    ensures { result ≡ length (listed (map object_view objects.now)) }
{
    let mut count = 0;
    for object in objects {
        if !object.builtin {
            count += 1;
        }
    }
    count
}

/// Diagnostics in these files.
pub fn diagnoses(alloc: Global, files: &Texts, list: &[Diag]) -> Result<Reply, OutOfMemory>
    ensures { IfOk result (λ r. reply_view r ≡ diagnoses_of files.now list.now) }
{
    // Each diagnostic stands in a file of the configuration, so this gives up nowhere.
    if !are_in(files, list) {
        return Err(OutOfMemory);
    }
    let mut lines = Row::new(alloc);
    push_diags(alloc, &mut lines, files, list)?;
    Ok(Reply {
        lines,
        diagnosed: true,
    })
}

fn are_in(files: &Texts, list: &[Diag]) -> bool
    ensures { result ≡ true → AreIn (length files.now) list.now }
{
    for diag in list {
        if diag.place.file as usize >= files.len() {
            return false;
        }
    }
    true
}

/// Adds the line of each diagnostic.
fn push_diags(
    alloc: Global,
    lines: &mut Texts,
    files: &Texts,
    list: &[Diag],
) -> Result<(), OutOfMemory>
    requires { AreIn (length files.now) list.now }
    ensures { OnOk result (lines.new ≡ lines.old ++ map (diag_line files.now) list.now) }
{
    for diag in list {
        lines.push(print_diag(alloc, diag, files)?)?;
    }
    Ok(())
}

/// The diagnostic of a named file that isn't there.
pub fn no_file(alloc: Global, name: &str) -> Result<Reply, OutOfMemory>
    ensures { IfOk result (λ r. reply_view r ≡ no_file_of name.now) }
{
    fault_at(alloc, name, 1, DiagKind::NoFile, quote(alloc, name)?)
}

/// The diagnostic of a script of which this line is none.
pub fn bad_script(alloc: Global, name: &str, line: u32) -> Result<Reply, OutOfMemory>
    ensures { IfOk result (λ r. reply_view r ≡ bad_script_of name.now line) }
{
    fault_at(alloc, name, line, DiagKind::BadScript, Text::new(alloc))
}

/// The diagnostic of a query of which this line is none.
pub fn bad_query(alloc: Global, name: &str, line: u32) -> Result<Reply, OutOfMemory>
    ensures { IfOk result (λ r. reply_view r ≡ bad_query_of name.now line) }
{
    fault_at(alloc, name, line, DiagKind::BadQuery, Text::new(alloc))
}

/// The diagnostic of a state file that is none, or that the site doesn't fit.
pub fn bad_state(alloc: Global, name: &str) -> Result<Reply, OutOfMemory>
    ensures { IfOk result (λ r. reply_view r ≡ bad_state_of name.now) }
{
    fault_at(alloc, name, 1, DiagKind::BadState, Text::new(alloc))
}

/// One fault of a file, at the head of a line.
fn fault_at(
    alloc: Global,
    name: &str,
    line: u32,
    kind: DiagKind,
    text: Text,
) -> Result<Reply, OutOfMemory>
    ensures { IfOk result (λ r. reply_view r ≡ fault_of name.now line kind text) }
{
    let diag = Diag {
        number: ItemNo {
            item: 0,
            target: TargetNo {
                item: 0,
                host: 0,
                key: 0,
            },
            key: 0,
        },
        place: Place {
            file: 0,
            line,
            col: 1,
        },
        kind,
        text,
    };
    let mut files = Row::new(alloc);
    files.push(Text::copy_of(alloc, name)?)?;
    let mut lines = Row::new(alloc);
    lines.push(print_diag(alloc, &diag, &files)?)?;
    Ok(Reply {
        lines,
        diagnosed: true,
    })
}
