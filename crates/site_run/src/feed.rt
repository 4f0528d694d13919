// What stands before the lines of turns.
ghost use Rattle.std.specs.Prelude.{◌≡◌, ℕ, List, IfOk, OnOk};
ghost use Rattle.run_meaning.specs.Turns.{Histories};
ghost use Rattle.site_model.specs.PlainSite.{PlainSite};
ghost use Rattle.site_posts.specs.Books.{histories_of};
ghost use Rattle.site_run.specs.Feeds.{AreBooksFor};

use checkable_core::Checkable;
use site_base::{Blob, Moment, OutOfMemory};
use std::alloc::Global;

/// What gives the command lines that stand before the own ones of each turn of a run.
///
/// The lines are a function of the feed's value, of the entries that stand, and of the turn's moment, and so is its value afterwards.
pub trait Feed {
    /// The sites that it was made for.
    ghost made_for: { Self → PlainSite → Type 0 };

    /// The lines that it gives at a moment at which these are the entries.
    ghost gives: { Self → Histories → ℕ → List (List ℕ) };

    /// What it is once it gave them.
    ghost after: { Self → Histories → ℕ → Self };

    /// The lines that stand before those of the turn at this moment. The books are the checkables of a site that it was made for, one each
    /// by index, and have no entry after the moment.
    ///
    /// # Errors
    ///
    /// `OutOfMemory` if there is too little memory for the lines. Nothing is said of the feed then.
    fn lines(&mut self, books: &[Checkable], moment: Moment) -> Result<Vec<Blob>, OutOfMemory>
        requires { AreBooksFor (made_for self.old) moment books.now }
        ensures lines { IfOk result (λ lines. lines.items ≡ gives self.old (histories_of books.now) moment) }
        ensures after { OnOk result (self.new ≡ after self.old (histories_of books.now) moment) }
        ensures made { (s : PlainSite) → made_for self.old s → OnOk result (made_for self.new s) };
}

/// A feed that gives no lines, for every site.
#[derive(Drop)]
pub struct NoFeed {
    alloc: Global,
}

impl NoFeed {
    pub fn new(alloc: Global) -> NoFeed {
        NoFeed { alloc }
    }
}

impl Feed for NoFeed {
    ghost use Rattle.std.specs.Prelude.{[]};

    ghost made_for = { λ _ _. Unit {0} };

    ghost gives = { λ _ _ _. [] };

    ghost after = { λ feed _ _. feed };

    fn lines(&mut self, _books: &[Checkable], _moment: Moment) -> Result<Vec<Blob>, OutOfMemory> {
        Ok(Vec::new(self.alloc))
    }
}
