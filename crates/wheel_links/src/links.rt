// All cells' neighbours, and how a ring is changed.
ghost use Rattle.std.specs.Prelude.{◌≡◌, ◌+◌, ◌<◌, ◌^◌, length, slice_set, IfOk};
ghost use Rattle.wheel_links.specs.Links.{link_at, after_at, before_at, AreAlone, IsUnlinked, IsAppended};

use crate::Steps;
use site_base::OutOfMemory;
use std::alloc::Global;
use std::marker::Model;
use std::sync::ledger::Ledger;

/// The neighbours of a cell in its ring, by their indices.
#[derive(Clone, Copy, PartialEq, Eq)]
pub struct Link {
    pub before: u64,
    pub after: u64,
}

/// The neighbours of every cell, in one vector. Clauses see it as the list of the links.
#[derive(Drop)]
pub struct Links {
    cells: Vec<Link>,
}

impl Model for Links {
    ghost use Rattle.std.specs.Prelude.{List};
    ghost use Rattle.wheel_links.specs.declared.links.Link.{Link};

    ghost Value = { List Link };

    ghost view = { λ l. l.cells.items };
}

impl Links {
    /// So many cells, each a ring of its own.
    pub(crate) fn alone(alloc: Global, count: u64) -> Result<Links, OutOfMemory>
        requires { count < 2 ^ 33 }
        ensures length { IfOk result (λ l. length l ≡ count) }
        ensures alone { IfOk result AreAlone }
    {
        let mut cells = Vec::with_capacity(alloc, count as usize)?;
        for cell in 0..count {
            cells.push(Link {
                before: cell,
                after: cell,
            })?;
        }
        Ok(Links { cells })
    }

    /// A cell's neighbours. It counts one step.
    pub fn read<L: Ledger>(&self, cell: u64, steps: &mut Steps<L>) -> Link
        requires { cell < length self.now }
        ensures link { result ≡ link_at self.now cell }
        ensures steps { steps.new ≡ steps.old + 1 }
    {
        steps.tick();
        self.cells[cell as usize]
    }

    /// Gives a cell new neighbours. It counts one step.
    pub fn write<L: Ledger>(&mut self, cell: u64, link: Link, steps: &mut Steps<L>)
        requires { cell < length self.old }
        ensures links { self.new ≡ slice_set self.old cell link }
        ensures steps { steps.new ≡ steps.old + 1 }
    {
        steps.tick();
        self.cells[cell as usize] = link;
    }

    /// A cell's neighbours. It counts nothing: it is for a look at the rings that is no change's.
    pub fn seen(&self, cell: u64) -> Link
        requires { cell < length self.now }
        ensures { result ≡ link_at self.now cell }
    {
        self.cells[cell as usize]
    }

    /// Takes a cell out of its ring: its neighbours become each other's.
    pub(crate) fn unlink<L: Ledger>(&mut self, cell: u64, steps: &mut Steps<L>)
        requires cell { cell < length self.old }
        requires before { before_at self.old cell < length self.old }
        requires after { after_at self.old cell < length self.old }
        ensures length { length self.new ≡ length self.old }
        ensures unlinked { IsUnlinked self.old self.new cell }
        ensures cost { steps.new ≡ steps.old + 5 }
    {
        let link = self.read(cell, steps);
        let before = self.read(link.before, steps);
        let joined = Link {
            before: before.before,
            after: link.after,
        };
        self.write(link.before, joined, steps);
        let after = self.read(link.after, steps);
        let joined = Link {
            before: link.before,
            after: after.after,
        };
        self.write(link.after, joined, steps);
    }

    /// Puts a cell at the end of a head's ring.
    pub(crate) fn append<L: Ledger>(&mut self, head: u64, cell: u64, steps: &mut Steps<L>)
        requires head { head < length self.old }
        requires cell { cell < length self.old }
        requires last { before_at self.old head < length self.old }
        ensures length { length self.new ≡ length self.old }
        ensures appended { IsAppended self.old self.new head cell }
        ensures cost { steps.new ≡ steps.old + 6 }
    {
        let last = self.read(head, steps).before;
        let link = Link {
            before: last,
            after: head,
        };
        self.write(cell, link, steps);
        let old = self.read(last, steps);
        let joined = Link {
            before: old.before,
            after: cell,
        };
        self.write(last, joined, steps);
        let old = self.read(head, steps);
        let joined = Link {
            before: cell,
            after: old.after,
        };
        self.write(head, joined, steps);
    }
}
