// Lists of numbers, one for each checkable.
ghost use Rattle.std.specs.Prelude.{◌≡◌, ◌<◌, ◌++◌, ◌∷◌, [], ℕ, IfOk, OnOk, OnErr, length, slice_set};
ghost use Rattle.run_meaning.specs.Turns.{of_index};

use site_base::{OutOfMemory, Row};
use std::alloc::Global;
use std::marker::Model;

/// A list of numbers for each checkable, or for each dependency. Clauses see the lists in order.
#[derive(Drop)]
pub(crate) struct Lists {
    rows: Vec<Row<u32>>,
}

impl Model for Lists {
    ghost use Rattle.std.specs.Prelude.{List, ℕ};

    ghost Value = { List (List ℕ) };

    ghost view = { λ l. l.rows.items };
}

impl Lists {
    /// So many empty lists.
    pub(crate) fn empty(alloc: Global, count: usize) -> Result<Lists, OutOfMemory>
        ensures length { IfOk result (λ l. length l ≡ count) }
        ensures empty { IfOk result (λ l. (k : ℕ) → of_index k l ≡ []) }
    {
        let mut rows = Vec::with_capacity(alloc, count)?;
        for index in 0..count {
            rows.push(Row::new(alloc))?;
        }
        Ok(Lists { rows })
    }

    /// How many lists there are.
    pub(crate) fn len(&self) -> usize
        ensures { result ≡ length self.now }
    {
        self.rows.len()
    }

    /// How long one of the lists is; 0 if there is none.
    #[tactic(auto, using(crate::proofs::Rows::row_at, crate::proofs::Rows::row_beyond))]
    pub(crate) fn len_of(&self, index: usize) -> usize
        ensures { result ≡ length (of_index index self.now) }
    {
        if index < self.rows.len() {
            self.rows[index].len()
        } else {
            0
        }
    }

    /// One of the lists.
    pub(crate) fn at(&self, index: usize) -> &[u32]
        requires { index < length self.now }
        ensures { result.now ≡ of_index index self.now }
    {
        self.rows[index].as_slice()
    }

    /// Adds a number at the end of one of the lists.
    pub(crate) fn push(&mut self, index: usize, item: u32) -> Result<(), OutOfMemory>
        requires { index < length self.old }
        ensures ok { OnOk result (self.new ≡ slice_set self.old index (of_index index self.old ++ item ∷ [])) }
        ensures err { OnErr result (self.new ≡ self.old) }
    {
        self.rows[index].push(item)
    }

    /// Adds a list at the end.
    pub(crate) fn add(&mut self, row: Row<u32>) -> Result<(), OutOfMemory>
        ensures ok { OnOk result (self.new ≡ self.old ++ row ∷ []) }
        ensures err { OnErr result (self.new ≡ self.old) }
    {
        self.rows.push(row)?;
        Ok(())
    }
}
