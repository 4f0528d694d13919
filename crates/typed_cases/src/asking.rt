// What a row asks for.
use crate::given::{Given, PERIODS_BEFORE, USERS_BEFORE};
use crate::lists::{push_checkables, push_depends, push_notifies, push_users};
use crate::periods::push_periods;
use crate::whole::push_whole;
use case_objects::are_placed;
use site_base::{OutOfMemory, Row, Text, Texts};
use site_model::Site;
use site_phases::{Answer, last_phases};
use std::alloc::Global;

/// No row has more objects.
const MOST_OBJECTS: usize = 1_000_000;

/// What the word of a row asks of the site of its objects.
pub(crate) fn answer(alloc: Global, word: &str, row: &str) -> Result<Text, OutOfMemory> {
    let mut out = Text::new(alloc);
    push_answer(alloc, &mut out, word, row)?;
    Ok(out)
}

fn push_answer(alloc: Global, out: &mut Text, word: &str, row: &str) -> Result<(), OutOfMemory> {
    let mut given = Given::new(alloc);
    if !given.take(alloc, word == "alone", row)? {
        return out.push_str("no objects");
    }
    push_given(alloc, out, word, given)
}

/// Adds what a word asks of the site of these objects and globals.
fn push_given(alloc: Global, out: &mut Text, word: &str, given: Given) -> Result<(), OutOfMemory> {
    let files = both_files(alloc)?;
    if !are_placed(given.objects.as_slice(), &files) {
        return out.push_str("an object in no file");
    }
    if given.objects.len() > MOST_OBJECTS {
        return out.push_str("too many objects");
    }
    let answer = last_phases(alloc, files, given.objects, given.globals)?;
    push_site(out, word, &answer)
}

/// The two files in which objects stand.
fn both_files(alloc: Global) -> Result<Texts, OutOfMemory> {
    let mut files = Row::new(alloc);
    add_text(alloc, &mut files, "even.conf")?;
    add_text(alloc, &mut files, "odd.conf")?;
    Ok(files)
}

fn add_text(alloc: Global, texts: &mut Texts, text: &str) -> Result<(), OutOfMemory> {
    texts.push(Text::copy_of(alloc, text)?)
}

fn push_site(out: &mut Text, word: &str, answer: &Answer) -> Result<(), OutOfMemory> {
    match answer {
        Answer::Site(site) => push_asked(out, word, site),
        Answer::Diags { .. } => out.push_str("no site"),
    }
}

/// Adds what a word asks of a site: one list, as far as a row itself writes what stands in it, or the whole.
fn push_asked(out: &mut Text, word: &str, site: &Site) -> Result<(), OutOfMemory> {
    match word {
        "checkables" => push_checkables(out, site.checkables.as_slice()),
        "depends" => push_depends(out, site.depends.as_slice()),
        "notifies" => push_notifies(out, site.notifies.as_slice()),
        "users" => push_users(out, behind(site.users.as_slice(), USERS_BEFORE)),
        "periods" => push_periods(out, behind(site.periods.as_slice(), PERIODS_BEFORE)),
        "site" | "alone" => push_whole(out, site),
        _ => out.push_str("no such word"),
    }
}

/// A list without the first of its items.
fn behind<T>(items: &[T], before: usize) -> &[T] {
    items.get(before..).unwrap_or(&[])
}
