// Problems that checkables show, at first and after a round.
ghost use Rattle.std.specs.Prelude.{◌≡◌, ◌<◌, ◌^◌, ℕ, All, length, IfOk, OnOk};
ghost use Rattle.site_model.specs.PlainSite.{PlainSite, site_view};
ghost use Rattle.checkable_core.specs.Contents.{check_at};
ghost use Rattle.run_meaning.specs.Runs.{joined};
ghost use Rattle.run_meaning.specs.Turns.{Histories};
ghost use Rattle.site_posts.specs.Books.{AreBooks, histories_of};
ghost use Rattle.site_posts.specs.Segments.{segments_of};
ghost use Rattle.lasting_problems.specs.Lasting.{lasting, lasts};
ghost use Rattle.lasting_problems.specs.Noted.{noted};

use crate::problems::Problems;
use check_state::is_problem;
use checkable_core::Checkable;
use site_base::{Moment, OutOfMemory};
use site_posts::Segment;
use std::alloc::Global;

impl Problems {
    /// The problems that these checkables show, one of each index.
    ///
    /// # Errors
    ///
    /// `OutOfMemory` if there is none for all of them.
    pub fn of(alloc: Global, books: &[Checkable]) -> Result<Problems, OutOfMemory>
        requires few { length books.now < 2 ^ 32 }
        ensures { (s : PlainSite) (moment : ℕ) → AreBooks s moment books.now → IfOk result (λ p. p ≡ noted (lasting s (histories_of books.now))) }
    {
        let mut problems = Problems::new(alloc);
        for checkable in 0..books.len() as u32 {
            let book = &books[checkable as usize];
            problems.note(checkable, lasting_of(book))?;
        }
        Ok(problems)
    }

    /// Notes what the checkables show that got entries of a round, of which these are the segments. The books have the entries.
    ///
    /// # Errors
    ///
    /// `OutOfMemory` if there is none for one more; any number of them was noted then.
    pub fn follow(&mut self, books: &[Checkable], segments: &[Segment]) -> Result<(), OutOfMemory>
        requires { All (λ x. x.checkable < length books.now) segments.now }
        ensures { (s : PlainSite) (moment : ℕ) (before round : Histories) → AreBooks s moment books.now → length round ≡ length s.checkables → histories_of books.now ≡ joined before round → segments.now ≡ segments_of round → self.old ≡ noted (lasting s before) →
            OnOk result (self.new ≡ noted (lasting s (joined before round))) }
    {
        for segment in segments {
            let book = &books[segment.checkable as usize];
            self.note(segment.checkable, lasting_of(book))?;
        }
        Ok(())
    }
}

/// The moment of a checkable's last entry, if it shows a HARD problem.
fn lasting_of(book: &Checkable) -> Option<Moment>
    ensures { result ≡ lasts (check_at (site_view book.now.site) book.now.index) book.now.entries }
{
    let view = book.view();
    if view.hard && is_problem(view.state) {
        Some(book.last_moment())
    } else {
        None
    }
}
