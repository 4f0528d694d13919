// How the entries of a round are gathered.
ghost use Rattle.std.specs.Prelude.{◌≡◌, ◌<◌, ℕ, [], Contains, length, IfOk, OnOk};
ghost use Rattle.run_meaning.specs.Alone.{with_entry};
ghost use Rattle.run_meaning.specs.Turns.{Histories, of_index};
ghost use Rattle.site_posts.specs.Outlooks.{Ascends};
ghost use Rattle.site_posts.specs.Progress.{AreKept};
ghost use Rattle.site_posts.specs.Segments.{segments_of};

use crate::lending::add_segment;
use crate::segment::Segments;
use site_base::{OutOfMemory, Row};
use site_model::Entry;
use std::alloc::Global;

/// The entries so far of each of these checkables, at its place. The checkables ascend.
#[derive(Drop)]
pub(crate) struct Gathered {
    alloc: Global,
    pub touched: Vec<u32>,
    pub rows: Vec<Row<Entry>>,
}

impl Gathered {
    /// No entries of these checkables yet, with room for one of each: most get no more in a round.
    pub fn new(alloc: Global, touched: Vec<u32>) -> Result<Gathered, OutOfMemory>
        ensures touched { IfOk result (λ g. g.touched ≡ touched) }
        ensures whole { IfOk result (λ g. length g.rows.items ≡ length touched.items) }
        ensures none { IfOk result (λ g. (p : ℕ) → of_index p g.rows.items ≡ []) }
    {
        let mut rows = Vec::with_capacity(alloc, touched.len())?;
        for _ in 0..touched.len() {
            let entries = Vec::with_capacity(alloc, 1)?;
            rows.push(Row::from(entries))?;
        }
        Ok(Gathered {
            alloc,
            touched,
            rows,
        })
    }

    /// Adds an entry after those that its checkable got before it.
    pub fn add(&mut self, checkable: u32, entry: Entry) -> Result<(), OutOfMemory>
        requires ascends { Ascends self.old.touched.items }
        requires touched { Contains self.old.touched.items checkable }
        requires whole { length self.old.rows.items ≡ length self.old.touched.items }
        ensures touched { self.new.touched ≡ self.old.touched }
        ensures whole { length self.new.rows.items ≡ length self.old.rows.items }
        ensures kept { (round : Histories) → checkable < length round → AreKept self.old.touched.items self.old.rows.items round →
            OnOk result (AreKept self.old.touched.items self.new.rows.items (with_entry checkable entry round)) }
    {
        let Ok(at) = self.touched.binary_search(&checkable) else {
            unreachable!()
        };
        let entries = &mut self.rows[at];
        entries.push(entry)
    }

    /// The checkables that got entries, by ascending index, with these.
    pub fn segments(self) -> Result<Segments, OutOfMemory>
        requires ascends { Ascends self.touched.items }
        requires whole { length self.rows.items ≡ length self.touched.items }
        ensures { (round : Histories) → AreKept self.touched.items self.rows.items round → IfOk result (λ r. r ≡ segments_of round) }
    {
        let Gathered {
            alloc,
            touched,
            rows,
        } = self;
        let mut segments = Vec::with_capacity(alloc, rows.len())?;
        let mut at = 0;
        for entries in rows {
            add_segment(&mut segments, touched[at], entries)?;
            at += 1;
        }
        Ok(Row::from(segments))
    }
}
