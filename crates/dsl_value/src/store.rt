// The store.
ghost use Rattle.std.specs.Prelude.{◌≡◌, ◌<◌, ◌≤◌, ◌+◌, false, ◌^◌, ◌++◌, [], ◌∷◌, ◌↔◌, IfOk, IfErr, OnOk, OnErr, IsErrOf, IsTrue, IfSome, IfNone, Some, None, Ok, List, ℕ, length, T};
ghost use Rattle.std.specs.List.{AllByRecursion};
ghost use Rattle.std.specs.Arc.{arc_value};
ghost use Rattle.dsl_value.specs.Changes.{changed, FitsCell, NamesIn};
ghost use Rattle.dsl_value.specs.Contents.{Contents, array, dict, plain, function, function_at, cell_at, with_cell, with_cells, pushed, is_array, is_dict, values_of, pairs_of, with_value, with_pair, without_pair, IsInOrder};
ghost use Rattle.dsl_value.specs.Pairs.{find, dict_of, is_sorted, last_of};
ghost use Rattle.dsl_value.specs.Walks.{Gives, tree_walked};
ghost use Rattle.dsl_value.specs.Grows.{Grows};
ghost use Rattle.dsl_value.specs.Loads.{load, grown, given, cost, Fits};
ghost use Rattle.site_base.specs.View.{view};
ghost use Rattle.dsl_value.specs.Whole.{Names, NamesAll, Stands, Captures};
ghost use Rattle.dsl_value.specs.Faults.{Concerns};

use crate::frozen::Frozen;
use crate::layer::ROOM;
use crate::live::Live;
use crate::loading::make_tree;
use crate::walking::walk_value;
use crate::{Cell, Change, Function, SetFault, SortedPairs, TreeFault, Value};
use dsl_syntax::Func;
use site_base::{OutOfMemory, Row, Text, Tree};
use std::alloc::Global;
use std::marker::Model;
use std::mem;
use std::sync::Arc;

/// The cells that arrays and dictionaries lie in, and the functions that values name.
///
/// Cells below the base are frozen: they are read and never changed. Stores that were forked share
/// them. Clauses see a store as the list of its cells, its
/// base and the list of its functions. Each value in them names a cell or function of this store.
#[derive(Drop)]
pub struct Store {
    alloc: Global,
    frozen: Frozen,
    live: Live,
    base: u32,
}

impl Model for Store {
    ghost use Rattle.std.specs.Prelude.{◌++◌};
    ghost use Rattle.dsl_value.specs.Contents.{Contents};
    ghost use Rattle.dsl_value.specs.Whole.{IsKept};
    ghost use Rattle.dsl_syntax.specs.contracts.func.Func as func;
    ghost use Rattle.std.specs.Coded.{codes};

    ghost Value = { Contents };

    ghost coded = { Prim.hlevel (codes, func.the_row.coded) };

    ghost view = { λ s. record { cells = s.frozen.cells ++ s.live.cells; base = s.base; functions = s.frozen.functions ++ s.live.functions } };

    ghost invariant = { λ s. IsKept s.frozen s.live s.base };
}

impl Store {
    /// A store with no cell and no function.
    pub fn new(alloc: Global) -> Store
        ensures { result ≡ record { cells = []; base = 0; functions = [] } }
    {
        Store {
            alloc,
            frozen: Frozen::new(),
            live: Live::new(),
            base: 0,
        }
    }

    /// Freezes all cells. Forks share them, unless there is no memory for one more layer of cells.
    pub fn freeze(&mut self)
        ensures { self.new ≡ record { cells = self.old.cells; base = length self.old.cells; functions = self.old.functions } }
    {
        self.base = (self.frozen.len() + self.live.len()) as u32;
        let live = mem::replace(&mut self.live, Live::new());
        if let Err(live) = self.frozen.add(self.alloc, live) {
            self.live = live;
        }
    }

    /// Lends the cells and functions that came after the last freezing to forks, unless some of those are lent already: what is added to
    /// a fork then copies none of them. They are copied when the first of them changes.
    pub fn lend(&mut self)
        ensures { self.new ≡ self.old }
    {
        self.live.lend();
    }

    /// An equal store. The two share all cells and functions. Those that came after the last freezing and aren't lent are copied
    /// when the first of the two stores changes.
    pub fn fork(&self) -> Result<Store, OutOfMemory>
        ensures { IfOk result (λ s. s ≡ self.now) }
    {
        let frozen = self.frozen.shared()?;
        let live = self.live.shared()?;
        Ok(Store {
            alloc: self.alloc,
            frozen,
            live,
            base: self.base,
        })
    }

    /// An equal store that counts its forks in a place of its own. Each worker makes one of the store that all have, and forks
    /// that for each task: so no two workers change the same counter. Cells that came after the last freezing are copied.
    pub fn apart(&self) -> Result<Store, OutOfMemory>
        ensures { IfOk result (λ s. s ≡ self.now) }
    {
        let frozen = self.frozen.apart(self.alloc)?;
        let live = self.live.apart(self.alloc)?;
        Ok(Store {
            alloc: self.alloc,
            frozen,
            live,
            base: self.base,
        })
    }

    /// The number of cells.
    pub fn len(&self) -> usize
        ensures { result ≡ length self.now.cells }
    {
        self.frozen.len() + self.live.len()
    }

    /// The number of functions.
    pub fn functions(&self) -> usize
        ensures { result ≡ length self.now.functions }
    {
        self.frozen.functions() + self.live.functions()
    }

    /// The allocator of what is made for this store.
    pub(crate) fn alloc(&self) -> Global {
        self.alloc
    }

    /// How many cells are frozen. They are the first ones.
    pub fn base(&self) -> u32
        ensures { result ≡ self.now.base }
    {
        self.base
    }

    /// A cell.
    pub fn cell(&self, cell: u32) -> &Cell
        requires { cell < length self.now.cells }
        ensures cell { plain result.now ≡ cell_at self.now.cells cell }
        ensures stands { Stands (length self.now.cells) (length self.now.functions) (plain result.now) }
    {
        let shared = self.frozen.len();
        if (cell as usize) < shared {
            self.frozen.cell(cell as usize)
        } else {
            self.live.cell(cell as usize - shared)
        }
    }

    /// A function.
    pub fn function(&self, func: u32) -> &Function
        requires { func < length self.now.functions }
        ensures function { Some (function result.now) ≡ function_at self.now.functions func }
        ensures captures { Captures (length self.now.cells) (length self.now.functions) (function result.now) }
    {
        let shared = self.frozen.functions();
        if (func as usize) < shared {
            self.frozen.function(func as usize)
        } else {
            self.live.function(func as usize - shared)
        }
    }

    /// Adds a function with the names that it captured, and gives the value that names it.
    pub fn add_function(
        &mut self,
        func: &Arc<Func>,
        captured: Row<(Text, Value)>,
    ) -> Result<Value, OutOfMemory>
        requires stands { NamesAll (length self.old.cells) (length self.old.functions) captured }
        ensures value { IfOk result (λ v. v ≡ Value.Func (length self.old.functions)) }
        ensures ok { OnOk result (self.new ≡ record { cells = self.old.cells; base = self.old.base; functions = self.old.functions ++ record { func = arc_value func.now; captured = captured } ∷ [] }) }
        ensures grows { OnOk result (Grows 0 self.old self.new) }
        ensures err { OnErr result (self.new ≡ self.old) }
    {
        let number = next_number(self.frozen.functions(), self.live.functions())?;
        let added = Function {
            func: func.clone()?,
            captured: captured.into_vec(),
        };
        self.live.add_function(self.alloc, added)?;
        Ok(Value::Func(number))
    }

    /// Makes a cell of an array, and gives the value that names it.
    pub fn array(&mut self, items: Row<Value>) -> Result<Value, OutOfMemory>
        requires stands { AllByRecursion (Names (length self.old.cells) (length self.old.functions)) items }
        ensures value { IfOk result (λ v. v ≡ Value.Ref (length self.old.cells)) }
        ensures ok { OnOk result (self.new ≡ with_cells self.old (self.old.cells ++ array items ∷ [])) }
        ensures grows { OnOk result (Grows 1 self.old self.new) }
        ensures err { OnErr result (self.new ≡ self.old) }
    {
        let number = next_number(self.frozen.len(), self.live.len())?;
        self.live.add(self.alloc, Cell::Array(items.into_vec()))?;
        Ok(Value::Ref(number))
    }

    /// Makes a cell of a dictionary, and gives the value that names it. Of equal keys the last wins.
    pub fn dict(&mut self, pairs: Row<(Text, Value)>) -> Result<Value, OutOfMemory>
        requires stands { NamesAll (length self.old.cells) (length self.old.functions) pairs }
        ensures value { IfOk result (λ v. v ≡ Value.Ref (length self.old.cells)) }
        ensures ok { OnOk result (self.new ≡ with_cells self.old (self.old.cells ++ dict (dict_of pairs []) ∷ [])) }
        ensures grows { OnOk result (Grows 1 self.old self.new) }
        ensures err { OnErr result (self.new ≡ self.old) }
        ensures last { OnOk result ((key : List ℕ) → find key (pairs_of (cell_at self.new.cells (length self.old.cells))) ≡ last_of key pairs) }
    {
        let number = next_number(self.frozen.len(), self.live.len())?;
        let sorted = SortedPairs::of_pairs(self.alloc, pairs.into_vec())?;
        self.live.add(self.alloc, Cell::Dict(sorted))?;
        Ok(Value::Ref(number))
    }

    /// Makes a cell of a dictionary whose keys rise, and gives the value that names it.
    pub fn sorted_dict(&mut self, pairs: Row<(Text, Value)>) -> Result<Value, OutOfMemory>
        requires stands { NamesAll (length self.old.cells) (length self.old.functions) pairs }
        requires sorted { T (is_sorted pairs) }
        ensures value { IfOk result (λ v. v ≡ Value.Ref (length self.old.cells)) }
        ensures ok { OnOk result (self.new ≡ with_cells self.old (self.old.cells ++ dict pairs ∷ [])) }
        ensures grows { OnOk result (Grows 1 self.old self.new) }
        ensures err { OnErr result (self.new ≡ self.old) }
    {
        let number = next_number(self.frozen.len(), self.live.len())?;
        let sorted = SortedPairs::of_rising(self.alloc, pairs.into_vec());
        self.live.add(self.alloc, Cell::Dict(sorted))?;
        Ok(Value::Ref(number))
    }

    /// Puts a tree into the store, and gives the value that stands for it. An array or dictionary lies
    /// behind what is inside of it. Of equal keys of a dictionary the last wins. A tree whose keys are
    /// distinct and in byte order, and which costs no more than 16,777,216 units, is given back by
    /// [`Store::tree_of`] as it was. A store of 4,294,967,296 cells is want of memory.
    pub fn load_tree(&mut self, tree: &Tree) -> Result<Value, OutOfMemory>
        ensures value { IfOk result (λ v. v ≡ given 0 self.old.cells (load (view tree.now))) }
        ensures ok { OnOk result (self.new ≡ with_cells self.old (grown 0 self.old.cells (load (view tree.now)))) }
        ensures stands { IfOk result (Names (length self.new.cells) (length self.new.functions)) }
        ensures grows { OnOk result (Grows (cost (view tree.now)) self.old self.new) }
        ensures err { OnErr result (self.new ≡ self.old) }
        ensures given_back { IfOk result (λ v. Fits (view tree.now) → tree_walked self.new.cells v ≡ Ok (view tree.now)) }
    {
        let before = (self.frozen.len() + self.live.len()) as u32;
        let mut made = Vec::with_capacity(self.alloc, ROOM)?;
        let value = make_tree(self.alloc, tree, before, &mut made)?;
        if made.len() > (u32::MAX - before) as usize {
            return Err(OutOfMemory);
        }
        self.live.add_all(self.alloc, made)?;
        Ok(value)
    }

    /// The tree that a value stands for. `Cyclic` if a cell lies inside itself, `HasFunction` if
    /// a function lies in it, `TooLarge` if its cost passes 16,777,216 units: the first of these that
    /// a walk meets which goes depth first, in element order. The keys of each dictionary in the tree
    /// rise, and it costs at most 16,777,216 units.
    pub fn tree_of(&self, value: &Value) -> Result<Tree, TreeFault>
        requires { Names (length self.now.cells) (length self.now.functions) value.now }
        ensures tree { Gives view result (tree_walked self.now.cells value.now) }
        ensures fits { IfOk result (λ t. Fits (view t)) }
    {
        walk_value(self.alloc, self, value)
    }

    /// Changes a cell. `Frozen` exactly if the cell is frozen.
    pub fn change(&mut self, cell: u32, change: Change) -> Result<(), SetFault>
        requires inside { cell < length self.old.cells }
        requires fits { FitsCell change (cell_at self.old.cells cell) }
        requires stands { NamesIn (length self.old.cells) (length self.old.functions) change }
        ensures frozen { IsErrOf result (SetFault.Frozen cell) ↔ (cell < self.old.base) }
        ensures fault { IfErr result (Concerns cell) }
        ensures ok { OnOk result (self.new ≡ with_cells self.old (with_cell self.old.cells cell (changed change.entry (cell_at self.old.cells cell)))) }
        ensures grows { OnOk result (Grows 0 self.old self.new) }
        ensures err { OnErr result (self.new ≡ self.old) }
    {
        if is_frozen(cell, self.base) {
            return Err(SetFault::Frozen { cell });
        }
        let at = cell as usize - self.frozen.len();
        self.live.change(self.alloc, at, change)?;
        Ok(())
    }
}

/// The number of a cell or function behind those that are shared and those that aren't. A store of
/// 4,294,967,295 of them takes no more: that is want of memory.
fn next_number(shared: usize, live: usize) -> Result<u32, OutOfMemory>
    requires { shared + live < 2 ^ 32 }
    ensures { IfOk result (λ n. (n ≡ shared + live) × (n + 1 < 2 ^ 32)) }
{
    let number = (shared + live) as u32;
    if number == u32::MAX {
        return Err(OutOfMemory);
    }
    Ok(number)
}

/// Whether a cell lies below the base.
fn is_frozen(cell: u32, base: u32) -> bool
    ensures frozen { IsTrue result → cell < base }
    ensures live { result ≡ false → base ≤ cell }
{
    base > cell
}
