// Cells and functions that were frozen.
ghost use Rattle.std.specs.Prelude.{◌≡◌, ◌+◌, ◌<◌, ◌^◌, ◌++◌, [], ◌∷◌, IfOk, IfErr, OnOk, OnErr, length, slice_get, Some};
ghost use Rattle.std.specs.Arc.{arc_value};
ghost use Rattle.dsl_value.specs.Contents.{Contained, plain, function, cell_at};
ghost use Rattle.dsl_value.specs.Parts.{beside, all_of, layers_of};

use crate::layer::Layer;
use crate::live::Live;
use crate::{Cell, Function};
use site_base::OutOfMemory;
use std::alloc::Global;
use std::marker::Model;
use std::sync::Arc;

/// Cells and functions that were frozen, a layer for each freezing, the earlier ones first. Stores that
/// were forked share them, behind one pointer. It takes no memory before something is in it.
#[derive(Drop)]
pub(crate) struct Frozen {
    layers: Option<Arc<Vec<Layer>>>,
    cells: usize,
    functions: usize,
}

impl Model for Frozen {
    ghost use Rattle.dsl_value.specs.Contents.{Contained};
    ghost use Rattle.dsl_value.specs.Parts.{all_of, layers_of, AreCounted};
    ghost use Rattle.dsl_syntax.specs.contracts.func.Func as func;
    ghost use Rattle.std.specs.Coded.{codes};

    ghost Value = { Contained };

    ghost coded = { Prim.hlevel (codes, func.the_row.coded) };

    ghost view = { λ f. all_of (layers_of f.layers) };

    ghost invariant = { λ f. AreCounted (layers_of f.layers) f.cells f.functions };
}

impl Frozen {
    pub(crate) fn new() -> Frozen
        ensures { result ≡ record { cells = []; functions = [] } }
    {
        Frozen {
            layers: None,
            cells: 0,
            functions: 0,
        }
    }

    /// The same cells and functions, behind the same pointer.
    pub(crate) fn shared(&self) -> Result<Frozen, OutOfMemory>
        ensures { IfOk result (λ f. f ≡ self.now) }
    {
        let layers = match &self.layers {
            Some(layers) => Some(layers.clone()?),
            None => None,
        };
        Ok(Frozen {
            layers,
            cells: self.cells,
            functions: self.functions,
        })
    }

    /// The same cells and functions behind a pointer of their own, without a copy of any.
    pub(crate) fn apart(&self, alloc: Global) -> Result<Frozen, OutOfMemory>
        ensures { IfOk result (λ f. f ≡ self.now) }
    {
        let layers = own_layers(alloc, layers_in(&self.layers))?;
        Ok(Frozen {
            layers: Some(layers),
            cells: self.cells,
            functions: self.functions,
        })
    }

    /// The number of cells.
    pub(crate) fn len(&self) -> usize
        ensures { result ≡ length self.now.cells }
    {
        self.cells
    }

    pub(crate) fn cell(&self, cell: usize) -> &Cell
        requires { cell < length self.now.cells }
        ensures { plain result.now ≡ cell_at self.now.cells cell }
    {
        cell_among(layers_in(&self.layers), cell)
    }

    /// The number of functions.
    pub(crate) fn functions(&self) -> usize
        ensures { result ≡ length self.now.functions }
    {
        self.functions
    }

    pub(crate) fn function(&self, func: usize) -> &Function
        requires { func < length self.now.functions }
        ensures { Some (function result.now) ≡ slice_get self.now.functions func }
    {
        function_among(layers_in(&self.layers), func)
    }

    /// Freezes cells and functions more. They are handed back for want of memory.
    pub(crate) fn add(&mut self, alloc: Global, live: Live) -> Result<(), Live>
        requires few { length self.old.cells + length live.cells < 2 ^ 32 }
        requires few_functions { length self.old.functions + length live.functions < 2 ^ 32 }
        ensures ok { OnOk result (self.new ≡ beside self.old live) }
        ensures err { OnErr result (self.new ≡ self.old) }
        ensures back { IfErr result (λ l. l ≡ live) }
    {
        let cells = self.cells + live.len();
        let functions = self.functions + live.functions();
        let Ok(layers) = with_live(alloc, layers_in(&self.layers), &live) else {
            return Err(live);
        };
        self.layers = Some(layers);
        self.cells = cells;
        self.functions = functions;
        Ok(())
    }
}

/// The layers behind a pointer, if there is one.
fn layers_in(layers: &Option<Arc<Vec<Layer>>>) -> &[Layer]
    ensures { result.now ≡ layers_of layers.now }
{
    match layers {
        Some(layers) => layers.as_slice(),
        None => &[],
    }
}

/// The same layers and these cells and functions behind them, behind a pointer of their own, without a copy of any.
fn with_live(alloc: Global, layers: &[Layer], live: &Live) -> Result<Arc<Vec<Layer>>, OutOfMemory>
    ensures { IfOk result (λ a. all_of (arc_value a).items ≡ beside (all_of layers.now) live.now) }
{
    let mut all = all_shared(alloc, layers)?;
    let (lent, own) = live.shared()?.into_layers();
    push_layer(&mut all, lent)?;
    push_layer(&mut all, own)?;
    Ok(Arc::new(alloc, all)?)
}

/// Adds a layer, unless there is nothing in it.
fn push_layer(layers: &mut Vec<Layer>, layer: Layer) -> Result<(), OutOfMemory>
    ensures { OnOk result (all_of layers.new.items ≡ beside (all_of layers.old.items) layer) }
{
    if !layer.is_empty() {
        layers.push(layer)?;
    }
    Ok(())
}

/// The same layers behind a pointer of their own, without a copy of a cell or function.
fn own_layers(alloc: Global, layers: &[Layer]) -> Result<Arc<Vec<Layer>>, OutOfMemory>
    ensures { IfOk result (λ a. (arc_value a).items ≡ layers.now) }
{
    Ok(Arc::new(alloc, all_shared(alloc, layers)?)?)
}

/// The same layers, without a copy of a cell or function.
fn all_shared(alloc: Global, layers: &[Layer]) -> Result<Vec<Layer>, OutOfMemory>
    ensures { IfOk result (λ v. v.items ≡ layers.now) }
{
    let mut shared = Vec::with_capacity(alloc, layers.len())?;
    for layer in layers {
        shared.push(layer.shared()?)?;
    }
    Ok(shared)
}

/// A cell of these layers together.
fn cell_among(layers: &[Layer], cell: usize) -> &Cell
    requires { cell < length (all_of layers.now).cells }
    ensures { plain result.now ≡ cell_at (all_of layers.now).cells cell }
{
    let mut left = cell;
    for layer in layers {
        if left < layer.len() {
            return layer.cell(left);
        }
        left -= layer.len();
    }
    unreachable!()
}

/// A function of these layers together.
fn function_among(layers: &[Layer], func: usize) -> &Function
    requires { func < length (all_of layers.now).functions }
    ensures { Some (function result.now) ≡ slice_get (all_of layers.now).functions func }
{
    let mut left = func;
    for layer in layers {
        if left < layer.functions() {
            return layer.function(left);
        }
        left -= layer.functions();
    }
    unreachable!()
}
