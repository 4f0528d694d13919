// Cells and functions that may still change.
ghost use Rattle.std.specs.Prelude.{◌≡◌, ◌<◌, ◌++◌, [], ◌∷◌, IfOk, OnOk, OnErr, length, map, slice_get, Some};
ghost use Rattle.dsl_value.specs.Changes.{changed, FitsCell};
ghost use Rattle.dsl_value.specs.Contents.{plain, function, with_cell, cell_at, IsInOrder};
ghost use Rattle.dsl_value.specs.Parts.{beside};

use crate::layer::Layer;
use crate::{Cell, Change, Function};
use site_base::OutOfMemory;
use std::alloc::Global;
use std::marker::Model;
use std::mem;

/// Cells and functions that came after the last freezing. The first of them may be lent to forks: what is added behind them in a fork
/// copies none of them, and when one of them changes, they are copied first.
#[derive(Drop)]
pub(crate) struct Live {
    lent: Layer,
    own: Layer,
}

impl Model for Live {
    ghost use Rattle.dsl_value.specs.Contents.{Contained};
    ghost use Rattle.dsl_value.specs.Parts.{beside};
    ghost use Rattle.dsl_syntax.specs.contracts.func.Func as func;
    ghost use Rattle.std.specs.Coded.{codes};

    ghost Value = { Contained };

    ghost coded = { Prim.hlevel (codes, func.the_row.coded) };

    ghost view = { λ l. beside l.lent l.own };
}

impl Live {
    pub(crate) fn new() -> Live
        ensures { result ≡ record { cells = []; functions = [] } }
    {
        Live {
            lent: Layer::new(),
            own: Layer::new(),
        }
    }

    /// Lends all of them, unless some are lent already.
    pub(crate) fn lend(&mut self)
        ensures { self.new ≡ self.old }
    {
        if self.lent.is_empty() {
            mem::swap(&mut self.lent, &mut self.own);
        }
    }

    /// The same cells and functions, without a copy of any.
    pub(crate) fn shared(&self) -> Result<Live, OutOfMemory>
        ensures { IfOk result (λ l. l ≡ self.now) }
    {
        Ok(Live {
            lent: self.lent.shared()?,
            own: self.own.shared()?,
        })
    }

    /// A copy of the cells and functions.
    pub(crate) fn apart(&self, alloc: Global) -> Result<Live, OutOfMemory>
        ensures { IfOk result (λ l. l ≡ self.now) }
    {
        Ok(Live {
            lent: self.lent.apart(alloc)?,
            own: self.own.apart(alloc)?,
        })
    }

    /// Both layers, the lent one first.
    pub(crate) fn into_layers(self) -> (Layer, Layer)
        ensures { beside result.0 result.1 ≡ self }
    {
        (self.lent, self.own)
    }

    /// The number of cells.
    pub(crate) fn len(&self) -> usize
        ensures { result ≡ length self.now.cells }
    {
        self.lent.len() + self.own.len()
    }

    pub(crate) fn cell(&self, cell: usize) -> &Cell
        requires { cell < length self.now.cells }
        ensures { plain result.now ≡ cell_at self.now.cells cell }
    {
        let lent = self.lent.len();
        if cell < lent {
            self.lent.cell(cell)
        } else {
            self.own.cell(cell - lent)
        }
    }

    /// Adds a cell at the end.
    pub(crate) fn add(&mut self, alloc: Global, cell: Cell) -> Result<(), OutOfMemory>
        ensures ok { OnOk result (self.new ≡ record { cells = self.old.cells ++ plain cell ∷ []; functions = self.old.functions }) }
        ensures err { OnErr result (self.new ≡ self.old) }
    {
        self.own.add(alloc, cell)
    }

    /// Adds cells at the end.
    pub(crate) fn add_all(&mut self, alloc: Global, cells: Vec<Cell>) -> Result<(), OutOfMemory>
        ensures ok { OnOk result (self.new ≡ record { cells = self.old.cells ++ map plain cells.items; functions = self.old.functions }) }
        ensures err { OnErr result (self.new ≡ self.old) }
    {
        self.own.add_all(alloc, cells)
    }

    /// The number of functions.
    pub(crate) fn functions(&self) -> usize
        ensures { result ≡ length self.now.functions }
    {
        self.lent.functions() + self.own.functions()
    }

    pub(crate) fn function(&self, func: usize) -> &Function
        requires { func < length self.now.functions }
        ensures { Some (function result.now) ≡ slice_get self.now.functions func }
    {
        let lent = self.lent.functions();
        if func < lent {
            self.lent.function(func)
        } else {
            self.own.function(func - lent)
        }
    }

    /// Adds a function at the end.
    pub(crate) fn add_function(&mut self, alloc: Global, func: Function) -> Result<(), OutOfMemory>
        ensures ok { OnOk result (self.new ≡ record { cells = self.old.cells; functions = self.old.functions ++ function func ∷ [] }) }
        ensures err { OnErr result (self.new ≡ self.old) }
    {
        self.own.add_function(alloc, func)
    }

    /// Changes a cell.
    pub(crate) fn change(
        &mut self,
        alloc: Global,
        cell: usize,
        change: Change,
    ) -> Result<(), OutOfMemory>
        requires inside { cell < length self.old.cells }
        requires fits { FitsCell change (cell_at self.old.cells cell) }
        requires sorted { IsInOrder (cell_at self.old.cells cell) }
        ensures ok { OnOk result (self.new ≡ record { cells = with_cell self.old.cells cell (changed change.entry (cell_at self.old.cells cell)); functions = self.old.functions }) }
        ensures err { OnErr result (self.new ≡ self.old) }
    {
        let lent = self.lent.len();
        if cell < lent {
            self.lent.change(alloc, cell, change)
        } else {
            self.own.change(alloc, cell - lent, change)
        }
    }
}
