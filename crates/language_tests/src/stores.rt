// Forks of large stores, cells that are met again, a large dictionary, a long text, and deep values.
ghost use Rattle.std.specs.Prelude.{◌<◌, IfOk, IfSome, length};
ghost use Rattle.dsl_value.specs.Whole.{Names, NamesAll};

use dsl_syntax::Func;
use dsl_value::{Store, TreeFault, Value, equal};
use site_base::{OutOfMemory, Row, Text, Tree};
use std::alloc::Global;
use std::sync::Arc;
use std::test::Fail;
use std::time::{Clock, Duration, Instant};

/// How many seconds the others may take on a busy machine. A copy of every cell, a walk along the keys or along the open
/// cells would take minutes.
const LIMIT: u64 = 10;

/// How many seconds a hundred thousand forks of a hundred thousand cells may take.
const FORK_LIMIT: u64 = 1;

/// Makes so many empty arrays.
fn add_arrays(alloc: Global, store: &mut Store, count: u32) -> Result<(), OutOfMemory> {
    for _ in 0..count {
        store.array(Row::new(alloc))?;
    }
    Ok(())
}

/// How long a hundred thousand forks take.
fn time_of_forks<R: Clock>(rt: &R, store: &Store) -> Result<Duration, Fail> {
    let start = Instant::now(rt)?;
    for _ in 0..100_000u32 {
        store.fork()?;
    }
    Ok(start.elapsed(rt)?)
}

/// A store of a hundred thousand cells that was frozen at half of them and at all.
fn frozen_store(alloc: Global) -> Result<Store, OutOfMemory> {
    let mut store = Store::new(alloc);
    add_arrays(alloc, &mut store, 50_000)?;
    store.freeze();
    add_arrays(alloc, &mut store, 50_000)?;
    store.freeze();
    Ok(store)
}

#[test]
fn a_fork_costs_nothing_in_the_frozen_cells(rt: HostRuntime) -> Result<(), Fail> {
    let store = frozen_store(rt.alloc())?;
    assert!(rt; time_of_forks(&rt, &store)? < Duration::from_secs(FORK_LIMIT));
    Ok(())
}

#[test]
fn a_fork_costs_nothing_in_the_live_cells(rt: HostRuntime) -> Result<(), Fail> {
    let mut store = Store::new(rt.alloc());
    add_arrays(rt.alloc(), &mut store, 100_000)?;
    assert!(rt; time_of_forks(&rt, &store)? < Duration::from_secs(FORK_LIMIT));
    Ok(())
}

/// The cell so far before the end.
fn cell_before_end(store: &Store, back: usize) -> Option<u32>
    requires { 0 < back }
    ensures { IfSome result (λ k. k < length store.now.cells) }
{
    let place = store.len().checked_sub(back)?;
    u32::try_from(place).ok()
}

/// Adds an array that has the last cell but one twice.
fn add_double(alloc: Global, store: &mut Store) -> Result<(), OutOfMemory> {
    let Some(below) = cell_before_end(store, 2) else {
        return Err(OutOfMemory);
    };
    let mut items = Row::new(alloc);
    items.push(Value::Ref(below))?;
    items.push(Value::Ref(below))?;
    store.array(items)?;
    Ok(())
}

/// Two towers of forty arrays, each of which has the one below it twice.
fn towers(alloc: Global) -> Result<Store, OutOfMemory> {
    let mut store = Store::new(alloc);
    add_arrays(alloc, &mut store, 2)?;
    for _ in 0..80u32 {
        add_double(alloc, &mut store)?;
    }
    Ok(store)
}

/// Whether the last two cells are equal.
fn are_last_equal(store: &Store) -> bool {
    match (cell_before_end(store, 2), cell_before_end(store, 1)) {
        (Some(left), Some(right)) => equal(&Value::Ref(left), &Value::Ref(right), store),
        _ => false,
    }
}

#[test]
fn cells_that_are_met_again_are_compared_once(rt: HostRuntime) -> Result<(), Fail> {
    let store = towers(rt.alloc())?;
    let start = Instant::now(&rt)?;
    assert!(rt; are_last_equal(&store));
    assert!(rt; start.elapsed(&rt)? < Duration::from_secs(LIMIT));
    Ok(())
}

/// A hundred thousand pairs with distinct keys, which don't stand in order.
fn unsorted_pairs(alloc: Global) -> Result<Row<(Text, Value)>, OutOfMemory>
    ensures { IfOk result (NamesAll 0 0) }
{
    let mut pairs = Row::new(alloc);
    for number in 0..100_000u64 {
        let mut key = Text::new(alloc);
        key.push_decimal(number * 7_919 % 100_003)?;
        pairs.push((key, Value::Bool(true)))?;
    }
    Ok(pairs)
}

#[test]
fn a_large_dictionary_is_sorted_in_time(rt: HostRuntime) -> Result<(), Fail> {
    let pairs = unsorted_pairs(rt.alloc())?;
    let mut store = Store::new(rt.alloc());
    let start = Instant::now(&rt)?;
    store.dict(pairs)?;
    assert!(rt; start.elapsed(&rt)? < Duration::from_secs(LIMIT));
    assert!(rt; store.get(0, "7919") == Some(&Value::Bool(true)));
    assert!(rt; store.get(0, "100003") == None);
    Ok(())
}

/// A text of 8 MiB.
fn long_text(alloc: Global) -> Result<Text, OutOfMemory> {
    let mut text = Text::copy_of(alloc, "a")?;
    for _ in 0..23u32 {
        let copy = text.clone()?;
        text.push_str(copy.as_str())?;
    }
    Ok(text)
}

/// A text a hundred thousand times.
fn repeated(alloc: Global, text: &Text) -> Result<Row<Value>, OutOfMemory> {
    let mut items = Row::new(alloc);
    for _ in 0..100_000u32 {
        items.push(Value::Str(text.clone()?))?;
    }
    Ok(items)
}

/// A long text stands a hundred thousand times among the elements of an array. Copies would take 800 GB.
#[test]
fn a_long_text_is_shared(rt: HostRuntime) -> Result<(), Fail> {
    let text = long_text(rt.alloc())?;
    assert!(rt; text.len() == 8 * 1024 * 1024);
    let start = Instant::now(&rt)?;
    let items = repeated(rt.alloc(), &text)?;
    assert!(rt; start.elapsed(&rt)? < Duration::from_secs(LIMIT));
    assert!(rt; items.len() == 100_000);
    Ok(())
}

/// A function without parameters and with an empty body.
fn empty_function(alloc: Global) -> Result<Arc<Func>, OutOfMemory> {
    let func = Func {
        params: Row::new(alloc),
        uses: Vec::new(alloc),
        block: Vec::new(alloc),
    };
    Ok(Arc::new(alloc, func)?)
}

/// A store with 300,000 arrays, one inside the other, and the outermost, in whose innermost a function is.
fn deep_value(alloc: Global) -> Result<(Store, Value), OutOfMemory>
    ensures { IfOk result (λ r. Names (length r.0.cells) (length r.0.functions) r.1) }
{
    let mut store = Store::new(alloc);
    let mut inner = store.add_function(&empty_function(alloc)?, Row::new(alloc))?;
    for made in 0..300_000u32 {
        let mut items = Row::new(alloc);
        items.push(inner)?;
        inner = store.array(items)?;
    }
    Ok((store, inner))
}

#[test]
fn a_deep_value_is_walked_in_time(rt: HostRuntime) -> Result<(), Fail> {
    let (store, value) = deep_value(rt.alloc())?;
    let start = Instant::now(&rt)?;
    let fault = store.tree_of(&value).err();
    assert!(rt; start.elapsed(&rt)? < Duration::from_secs(LIMIT));
    assert!(rt; fault == Some(TreeFault::HasFunction));
    Ok(())
}

/// A tree of so many levels.
fn deep_tree(alloc: Global, levels: u32) -> Result<Tree, OutOfMemory> {
    let mut tree = Tree::Null;
    for _ in 0..levels {
        tree = Tree::List(vec![in alloc; Tree::Bool(true), tree]?);
    }
    Ok(tree)
}

/// How many levels of it lie one inside the other.
fn levels_of(tree: &Tree) -> u32 {
    let mut levels = 0u32;
    let mut next = tree;
    loop {
        next = match next {
            Tree::List(items) if items.len() == 2 => &items[1],
            _ => return levels,
        };
        levels = levels.saturating_add(1);
    }
}

/// How many levels of a tree a store gives back.
fn levels_given_back(alloc: Global, tree: &Tree) -> Result<u32, OutOfMemory> {
    let mut store = Store::new(alloc);
    let value = store.load_tree(tree)?;
    Ok(match store.tree_of(&value) {
        Ok(tree) => levels_of(&tree),
        Err(_) => 0,
    })
}

#[test]
fn a_deep_tree_is_given_back(rt: HostRuntime) -> Result<(), Fail> {
    let tree = deep_tree(rt.alloc(), 300_000)?;
    assert!(rt; levels_given_back(rt.alloc(), &tree)? == 300_000);
    Ok(())
}
