// Answering queries.
ghost use Rattle.std.specs.Prelude.{◌≡◌, ◌≤◌, ◌-◌, ◌++◌, List, IfOk, OnOk, length, take, if◌then◌else◌};
ghost use Rattle.site_model.specs.PlainSite.{site_view};
ghost use Rattle.site_posts.specs.Books.{AreBooks, histories_of};
ghost use Rattle.site_query.specs.Answers.{answer_text, first_of, is_told, row_text};
ghost use Rattle.site_query.specs.Shown.{PlainShown, shown_view};

use crate::meeting::is_asked;
use crate::rows::{columns_told, push_row};
use crate::shown::Shown;
use crate::{Column, Query};
use checkable_core::Checkable;
use site_base::{Moment, OutOfMemory, Text};
use site_model::Site;
use site_text::Line;
use std::alloc::Global;

/// The answer to a query over the checkables of a site, one of each index, at a moment that isn't before any entry: a line for each
/// host, or each service, that meets every filter, in the order of the site, and no more lines than the query's limit. A line is what
/// stands in the columns, with `;` between two, the name as [`site_base::quote`] gives it and numbers in decimal digits. A filter that
/// compares a text with a number is met by none; [`read_query`](crate::read_query) gives no such filter.
///
/// The time is linear in the number of checkables, and the text is written once.
///
/// # Errors
///
/// `OutOfMemory` if there is none for the text.
pub fn answer(
    alloc: Global,
    site: &Site,
    books: &[Checkable],
    moment: Moment,
    query: &Query,
) -> Result<Text, OutOfMemory>
    requires { AreBooks (site_view site.now) moment books.now }
    ensures { IfOk result (λ t. t ≡ answer_text (site_view site.now) (histories_of books.now) moment query.now) }
{
    let columns = columns_told(query);
    let specs = site.checkables.as_slice();
    let mut left = most_lines(query, books.len());
    let mut out = Line::new(alloc)?;
    for i in 0..books.len() {
        let shown = Shown::of(&specs[i], &books[i], moment);
        tell(&mut out, &mut left, query, columns, &shown)?;
    }
    out.into_text()
}

/// Adds the line of a checkable, if it is asked for and so many lines are left that it is told.
fn tell(
    out: &mut Line,
    left: &mut u64,
    query: &Query,
    columns: &[Column],
    shown: &Shown<'_>,
) -> Result<(), OutOfMemory>
    ensures out { OnOk result (out.new ≡ (if is_told query.now left.old (shown_view shown.now) then out.old ++ row_text columns.now (shown_view shown.now) else out.old)) }
    ensures left { OnOk result (left.new ≡ (if is_told query.now left.old (shown_view shown.now) then left.old - 1 else left.old)) }
{
    if *left == 0 || !is_asked(query, shown) {
        return Ok(());
    }
    push_row(out, columns, shown)?;
    *left -= 1;
    Ok(())
}

/// How many lines are told at most over so many checkables.
fn most_lines(query: &Query, count: usize) -> u64
    ensures { (ss : List PlainShown) → length ss ≤ count → first_of query.now.limit ss ≡ take result ss }
{
    match query.limit {
        Some(limit) => limit,
        None => count as u64,
    }
}
