// Trees of great depth.
use site_base::{ItemNo, OutOfMemory, Place, TargetNo, Text, Tree, copy_tree};
use site_model::Object;
use site_text::print_object;
use std::alloc::Global;
use std::sync::Arc;
use std::test::Fail;
use std::thread::Builder;

/// How deep the tree is.
const LEVELS: u32 = 100_000;

/// How much stack there is: far less than a call for each level would take.
const STACK: usize = 1 << 20;

/// A list or a dictionary around a tree.
fn around(alloc: Global, tree: Tree, in_list: bool) -> Result<Tree, OutOfMemory> {
    if in_list {
        return Ok(Tree::List(vec![in alloc; Tree::Bool(true), tree, Tree::Null]?));
    }
    let first = pair(alloc, "k", tree)?;
    let last = pair(alloc, "l", Tree::Null)?;
    Ok(Tree::Dict(vec![in alloc; first, last]?))
}

fn pair(alloc: Global, key: &str, tree: Tree) -> Result<(Text, Tree), OutOfMemory> {
    Ok((Text::copy_of(alloc, key)?, tree))
}

fn deep_tree(alloc: Global) -> Result<Tree, OutOfMemory> {
    let mut tree = Tree::Null;
    for level in 0..LEVELS {
        tree = around(alloc, tree, level % 2 == 0)?;
    }
    Ok(tree)
}

/// The copy of a deep tree, which itself is let go.
fn copied(alloc: Global) -> Result<Tree, OutOfMemory> {
    let tree = deep_tree(alloc)?;
    copy_tree(alloc, &tree)
}

/// A host with this tree.
fn host_with(alloc: Global, tree: Arc<Tree>) -> Result<Object, OutOfMemory> {
    let kind = Text::copy_of(alloc, "Host")?;
    Ok(Object {
        kind,
        name: Text::copy_of(alloc, "h")?,
        place: Place {
            file: 0,
            line: 1,
            col: 1,
        },
        number: ItemNo {
            item: 1,
            target: TargetNo {
                item: 0,
                host: 0,
                key: 0,
            },
            key: 0,
        },
        builtin: false,
        tree,
    })
}

/// The line of a host with the copy of a deep tree, which is let go afterwards.
fn line(alloc: Global) -> Result<Text, OutOfMemory> {
    let host = host_with(alloc, Arc::new(alloc, copied(alloc)?)?)?;
    print_object(alloc, &host)
}

/// The same, put together piece by piece.
fn wanted(alloc: Global) -> Result<Text, OutOfMemory> {
    let mut out = Text::copy_of(alloc, "Host \"h\" ")?;
    for _ in 0..LEVELS / 2 {
        out.push_str("{\"k\":[true,")?;
    }
    out.push_str("null")?;
    for _ in 0..LEVELS / 2 {
        out.push_str(",null],\"l\":null}")?;
    }
    out.push('\n')?;
    Ok(out)
}

#[test]
fn a_deep_tree_takes_no_stack(rt: HostRuntime) -> Result<(), Fail> {
    let alloc = rt.alloc();
    let thread = Builder::new()
        .stack_size(STACK)
        .spawn(&rt, move || line(alloc))?;
    let printed = thread.join(&rt)?;
    let wanted = wanted(alloc)?;
    assert!(rt; printed.as_str() == wanted.as_str());
    Ok(())
}
