// Cells and functions that several stores may share.
ghost use Rattle.std.specs.Prelude.{◌≡◌, ◌<◌, ◌^◌, ◌++◌, true, [], ◌∷◌, IfOk, OnOk, OnErr, length, slice_get, Some, map};
ghost use Rattle.dsl_value.specs.Changes.{changed, FitsCell};
ghost use Rattle.dsl_value.specs.Contents.{Contained, plain, function, with_cell, cell_at, IsInOrder};
ghost use Rattle.dsl_value.specs.Parts.{part_of};

use crate::cells::change_cell;
use crate::part::Part;
use crate::{Cell, Change, Function};
use site_base::OutOfMemory;
use std::alloc::Global;
use std::marker::Model;
use std::sync::Arc;

/// There is room for so many cells once there is one.
pub(crate) const ROOM: usize = 8;

/// Cells and functions that several stores may share. It takes no memory before something is in it.
#[derive(Drop)]
pub(crate) struct Layer {
    part: Option<Arc<Part>>,
}

impl Model for Layer {
    ghost use Rattle.dsl_value.specs.Contents.{Contained};
    ghost use Rattle.dsl_value.specs.Parts.{contained};
    ghost use Rattle.dsl_syntax.specs.contracts.func.Func as func;
    ghost use Rattle.std.specs.Coded.{codes};

    ghost Value = { Contained };

    ghost coded = { Prim.hlevel (codes, func.the_row.coded) };

    ghost view = { λ l. contained l.part };
}

impl Layer {
    pub(crate) fn new() -> Layer
        ensures { result ≡ record { cells = []; functions = [] } }
    {
        Layer { part: None }
    }

    /// The same cells and functions, without a copy of any.
    pub(crate) fn shared(&self) -> Result<Layer, OutOfMemory>
        ensures { IfOk result (λ l. l ≡ self.now) }
    {
        match &self.part {
            Some(part) => Ok(Layer {
                part: Some(part.clone()?),
            }),
            None => Ok(Layer { part: None }),
        }
    }

    /// A copy of the cells and functions.
    pub(crate) fn apart(&self, alloc: Global) -> Result<Layer, OutOfMemory>
        ensures { IfOk result (λ l. l ≡ self.now) }
    {
        match &self.part {
            Some(part) => Ok(Layer {
                part: Some(copy_of(alloc, part)?),
            }),
            None => Ok(Layer { part: None }),
        }
    }

    /// Whether there is no cell and no function.
    pub(crate) fn is_empty(&self) -> bool
        ensures { result ≡ true → self.now ≡ record { cells = []; functions = [] } }
    {
        self.len() == 0 && self.functions() == 0
    }

    /// The number of cells.
    pub(crate) fn len(&self) -> usize
        ensures len { result ≡ length self.now.cells }
        ensures few { result < 2 ^ 63 }
    {
        match &self.part {
            Some(part) => part.cells.len(),
            None => 0,
        }
    }

    pub(crate) fn cell(&self, cell: usize) -> &Cell
        requires { cell < length self.now.cells }
        ensures { plain result.now ≡ cell_at self.now.cells cell }
    {
        match &self.part {
            Some(part) => &part.cells[cell],
            None => unreachable!(),
        }
    }

    /// Adds a cell at the end.
    pub(crate) fn add(&mut self, alloc: Global, cell: Cell) -> Result<(), OutOfMemory>
        ensures ok { OnOk result (self.new ≡ record { cells = self.old.cells ++ plain cell ∷ []; functions = self.old.functions }) }
        ensures err { OnErr result (self.new ≡ self.old) }
    {
        match &mut self.part {
            Some(part) => add_to(alloc, part, cell),
            None => {
                self.part = Some(part_of_cell(alloc, cell)?);
                Ok(())
            }
        }
    }

    /// Adds cells at the end.
    pub(crate) fn add_all(&mut self, alloc: Global, cells: Vec<Cell>) -> Result<(), OutOfMemory>
        ensures ok { OnOk result (self.new ≡ record { cells = self.old.cells ++ map plain cells.items; functions = self.old.functions }) }
        ensures err { OnErr result (self.new ≡ self.old) }
    {
        match &mut self.part {
            Some(part) => add_all_to(alloc, part, cells),
            None => {
                self.part = Some(part_of_cells(alloc, cells)?);
                Ok(())
            }
        }
    }

    /// The number of functions.
    pub(crate) fn functions(&self) -> usize
        ensures len { result ≡ length self.now.functions }
        ensures few { result < 2 ^ 63 }
    {
        match &self.part {
            Some(part) => part.functions.len(),
            None => 0,
        }
    }

    pub(crate) fn function(&self, func: usize) -> &Function
        requires { func < length self.now.functions }
        ensures { Some (function result.now) ≡ slice_get self.now.functions func }
    {
        match &self.part {
            Some(part) => &part.functions[func],
            None => unreachable!(),
        }
    }

    /// Adds a function at the end.
    pub(crate) fn add_function(&mut self, alloc: Global, func: Function) -> Result<(), OutOfMemory>
        ensures ok { OnOk result (self.new ≡ record { cells = self.old.cells; functions = self.old.functions ++ function func ∷ [] }) }
        ensures err { OnErr result (self.new ≡ self.old) }
    {
        match &mut self.part {
            Some(part) => add_function_to(alloc, part, func),
            None => {
                self.part = Some(part_of_function(alloc, func)?);
                Ok(())
            }
        }
    }

    /// Changes a cell.
    pub(crate) fn change(
        &mut self,
        alloc: Global,
        cell: usize,
        change: Change,
    ) -> Result<(), OutOfMemory>
        requires inside { cell < length self.old.cells }
        requires fits { FitsCell change (cell_at self.old.cells cell) }
        requires sorted { IsInOrder (cell_at self.old.cells cell) }
        ensures ok { OnOk result (self.new ≡ record { cells = with_cell self.old.cells cell (changed change.entry (cell_at self.old.cells cell)); functions = self.old.functions }) }
        ensures err { OnErr result (self.new ≡ self.old) }
    {
        match &mut self.part {
            Some(part) => change_in(alloc, part, cell, change),
            None => unreachable!(),
        }
    }
}

/// A part that contains one cell.
fn part_of_cell(alloc: Global, cell: Cell) -> Result<Arc<Part>, OutOfMemory>
    ensures { IfOk result (λ p. part_of p ≡ record { cells = plain cell ∷ []; functions = [] }) }
{
    let mut cells = Vec::with_capacity(alloc, ROOM)?;
    cells.push(cell)?;
    let functions = Vec::new(alloc);
    Ok(Arc::new(alloc, Part { cells, functions })?)
}

fn add_to(alloc: Global, part: &mut Arc<Part>, cell: Cell) -> Result<(), OutOfMemory>
    ensures ok { OnOk result (part_of part.new ≡ record { cells = (part_of part.old).cells ++ plain cell ∷ []; functions = (part_of part.old).functions }) }
    ensures err { OnErr result (part_of part.new ≡ part_of part.old) }
{
    own(alloc, part)?;
    match Arc::get_mut(part) {
        Some(part) => {
            part.cells.push(cell)?;
            Ok(())
        }
        None => Err(OutOfMemory),
    }
}

/// A part that contains these cells.
fn part_of_cells(alloc: Global, cells: Vec<Cell>) -> Result<Arc<Part>, OutOfMemory>
    ensures { IfOk result (λ p. part_of p ≡ record { cells = map plain cells.items; functions = [] }) }
{
    let functions = Vec::new(alloc);
    Ok(Arc::new(alloc, Part { cells, functions })?)
}

fn add_all_to(alloc: Global, part: &mut Arc<Part>, cells: Vec<Cell>) -> Result<(), OutOfMemory>
    ensures ok { OnOk result (part_of part.new ≡ record { cells = (part_of part.old).cells ++ map plain cells.items; functions = (part_of part.old).functions }) }
    ensures err { OnErr result (part_of part.new ≡ part_of part.old) }
{
    own(alloc, part)?;
    let mut more = cells;
    match Arc::get_mut(part) {
        Some(part) => {
            part.cells.append(&mut more)?;
            Ok(())
        }
        None => Err(OutOfMemory),
    }
}

/// A part that contains one function.
fn part_of_function(alloc: Global, func: Function) -> Result<Arc<Part>, OutOfMemory>
    ensures { IfOk result (λ p. part_of p ≡ record { cells = []; functions = function func ∷ [] }) }
{
    let cells = Vec::new(alloc);
    let mut functions = Vec::new(alloc);
    functions.push(func)?;
    Ok(Arc::new(alloc, Part { cells, functions })?)
}

fn add_function_to(alloc: Global, part: &mut Arc<Part>, func: Function) -> Result<(), OutOfMemory>
    ensures ok { OnOk result (part_of part.new ≡ record { cells = (part_of part.old).cells; functions = (part_of part.old).functions ++ function func ∷ [] }) }
    ensures err { OnErr result (part_of part.new ≡ part_of part.old) }
{
    own(alloc, part)?;
    match Arc::get_mut(part) {
        Some(part) => {
            part.functions.push(func)?;
            Ok(())
        }
        None => Err(OutOfMemory),
    }
}

/// Puts a copy in the place of a part that is shared, so that it can be changed.
fn own(alloc: Global, part: &mut Arc<Part>) -> Result<(), OutOfMemory>
    ensures { part_of part.new ≡ part_of part.old }
{
    if Arc::strong_count(part) > 1 {
        *part = copy_of(alloc, part)?;
    }
    Ok(())
}

/// A part with the same cells and functions.
fn copy_of(alloc: Global, part: &Part) -> Result<Arc<Part>, OutOfMemory>
    ensures { IfOk result (λ p. part_of p ≡ record { cells = map plain part.now.cells.items; functions = map function part.now.functions.items }) }
{
    let mut cells = Vec::with_capacity(alloc, part.cells.len())?;
    for cell in &part.cells {
        cells.push(copy_cell(cell)?)?;
    }
    let mut functions = Vec::with_capacity(alloc, part.functions.len())?;
    for func in &part.functions {
        functions.push(copy_function(func)?)?;
    }
    Ok(Arc::new(alloc, Part { cells, functions })?)
}

/// A copy of a cell.
pub(crate) fn copy_cell(cell: &Cell) -> Result<Cell, OutOfMemory>
    ensures { IfOk result (λ c. plain c ≡ plain cell.now) }
{
    match cell {
        Cell::Array(items) => Ok(Cell::Array(items.clone()?)),
        Cell::Dict(pairs) => Ok(Cell::Dict(pairs.copied()?)),
    }
}

fn copy_function(func: &Function) -> Result<Function, OutOfMemory>
    ensures { IfOk result (λ f. function f ≡ function func.now) }
{
    Ok(Function {
        func: func.func.clone()?,
        captured: func.captured.clone()?,
    })
}

fn change_in(
    alloc: Global,
    part: &mut Arc<Part>,
    cell: usize,
    change: Change,
) -> Result<(), OutOfMemory>
    requires inside { cell < length (part_of part.old).cells }
    requires fits { FitsCell change (cell_at (part_of part.old).cells cell) }
    requires sorted { IsInOrder (cell_at (part_of part.old).cells cell) }
    ensures ok { OnOk result (part_of part.new ≡ record { cells = with_cell (part_of part.old).cells cell (changed change.entry (cell_at (part_of part.old).cells cell)); functions = (part_of part.old).functions }) }
    ensures err { OnErr result (part_of part.new ≡ part_of part.old) }
{
    own(alloc, part)?;
    match Arc::get_mut(part) {
        Some(part) => change_cell(&mut part.cells[cell], change),
        None => Err(OutOfMemory),
    }
}
