//! Reads rows from standard input, and writes each with what lines of logs tell, or what is written for it.
//!
//! A row is a word and what it asks of (the head of the file `stdin` says which words there are). Empty lines and
//! those that begin with `#` are written as they are, so that line N of the output is of line N of the input.
#![tactic(auto)]

ghost use Rattle.std.specs.Prelude.{◌≡◌};
ghost use Rattle.site_model.specs.PlainSite.{site_view};
ghost use Rattle.log_text.specs.SiteNames.{HasAllNames, names_of, names_view};

mod entries;
mod lines;
mod site;
mod telling;

use case_rows::{ANSWER, is_row};
use log_text::SiteNames;
use site_base::{OutOfMemory, Text};
use site_model::Site;
use std::alloc::Global;
use std::io::{BufRead, BufReader};

fn main(rt: HostRuntime) -> anyhow::Result<()> {
    let site = site::site(rt.alloc())?;
    write_answers(&rt, &site)
}

/// Writes each line of standard input, with the answer behind it if it is a row over this site.
fn write_answers(rt: &HostRuntime, site: &Site) -> anyhow::Result<()>
    requires { HasAllNames (site_view site.now) }
{
    let names = SiteNames::of(rt.alloc(), site)?;
    write_rows(rt, site, &names)
}

/// The same with the names of the site.
fn write_rows(rt: &HostRuntime, site: &Site, names: &SiteNames<'_>) -> anyhow::Result<()>
    requires { names_view names.now ≡ names_of (site_view site.now) }
{
    for line in BufReader::new(rt.alloc(), rt.reader())?.lines(rt.alloc()) {
        write_told(rt, line?.as_str(), site, names)?;
    }
    Ok(())
}

/// Writes a line, with the answer behind it if it is a row.
fn write_told(
    rt: &HostRuntime,
    line: &str,
    site: &Site,
    names: &SiteNames<'_>,
) -> anyhow::Result<()>
    requires { names_view names.now ≡ names_of (site_view site.now) }
{
    let told = told(rt.alloc(), line, site, names)?;
    rt.println(told.as_str())?;
    Ok(())
}

/// The line, with the answer behind it if it is a row.
fn told(alloc: Global, line: &str, site: &Site, names: &SiteNames<'_>) -> Result<Text, OutOfMemory>
    requires { names_view names.now ≡ names_of (site_view site.now) }
{
    let mut out = Text::copy_of(alloc, line)?;
    if is_row(line) {
        push_answer(alloc, &mut out, line, site, names)?;
    }
    Ok(out)
}

fn push_answer(
    alloc: Global,
    out: &mut Text,
    row: &str,
    site: &Site,
    names: &SiteNames<'_>,
) -> Result<(), OutOfMemory>
    requires { names_view names.now ≡ names_of (site_view site.now) }
{
    out.push_str(ANSWER)?;
    let (word, text) = row.split_once(' ').unwrap_or((row, ""));
    match word {
        "one" => entries::push_one(alloc, out, text, site, names),
        "two" => entries::push_two(alloc, out, text, site, names),
        _ => lines::push_line(alloc, out, word, text, site),
    }
}
