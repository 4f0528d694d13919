// The cells around the one that a walk is inside of.
ghost use Rattle.std.specs.Prelude.{◌≡◌, [], ◌∷◌, IfOk, IfSome, IfNone, false};
ghost use Rattle.dsl_value.specs.Walks.{is_open};
ghost use Rattle.dsl_value.specs.Entering.{frame, cell_of};
ghost use Rattle.dsl_value.specs.Nests.{cells_of};

use crate::frame::Frame;
use crate::frames::cell_of_frame;
use site_base::OutOfMemory;
use std::alloc::Global;
use std::collections::BTreeSet;
use std::marker::Model;

/// The arrays and dictionaries around the one that a walk is inside of, each at most once. Clauses
/// see them as a list, the nearest first.
#[derive(Drop)]
pub(crate) struct Nest {
    frames: Vec<Frame>,
    cells: BTreeSet<u32>,
}

impl Model for Nest {
    ghost use Rattle.std.specs.Prelude.{List, reverse};
    ghost use Rattle.std.specs.Coded.{codes};
    ghost use Rattle.site_base.specs.contracts.tree.Tree as tree;
    ghost use Rattle.dsl_value.specs.declared.frame.Frame.{Frame};
    ghost use Rattle.dsl_value.specs.Nests.{IsNest};

    ghost Value = { List Frame };

    ghost coded = { Prim.hlevel (codes, tree.the_row.coded) };

    ghost view = { λ n. reverse n.frames.items };

    ghost invariant = { λ n. IsNest (reverse n.frames.items) n.cells };
}

impl Nest {
    pub(crate) fn new(alloc: Global) -> Nest
        ensures { result ≡ [] }
    {
        Nest {
            frames: Vec::new(alloc),
            cells: BTreeSet::new(alloc),
        }
    }

    /// Whether a cell is one of these.
    pub(crate) fn contains(&self, cell: u32) -> bool
        ensures { result ≡ is_open cell (cells_of self.now) }
    {
        self.cells.contains(&cell)
    }

    /// One more, inside all of these.
    pub(crate) fn with(self, inner: Frame) -> Result<Nest, OutOfMemory>
        requires { is_open (cell_of (frame inner)) (cells_of self) ≡ false }
        ensures { IfOk result (λ n. n ≡ inner ∷ self) }
    {
        let Nest {
            mut frames,
            mut cells,
        } = self;
        cells.insert(cell_of_frame(&inner))?;
        frames.push(inner)?;
        Ok(Nest { frames, cells })
    }

    /// The nearest, and the others.
    pub(crate) fn split(self) -> Option<(Frame, Nest)>
        ensures some { IfSome result (λ p. self ≡ p.0 ∷ p.1) }
        ensures apart { IfSome result (λ p. is_open (cell_of (frame p.0)) (cells_of p.1) ≡ false) }
        ensures none { IfNone result (self ≡ []) }
    {
        let Nest {
            mut frames,
            mut cells,
        } = self;
        let nearest = frames.pop()?;
        cells.remove(&cell_of_frame(&nearest));
        Some((nearest, Nest { frames, cells }))
    }
}
