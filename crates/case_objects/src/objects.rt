// Objects by their heads.
use site_base::{ItemNo, OutOfMemory, Place, TargetNo, Text, Tree};
use site_model::Object;
use std::alloc::Global;
use std::sync::Arc;

/// The object of a head `NUMBER TYPE NAME` and a tree, in the first column of its line. A number that is none counts as 0.
pub fn object_of(alloc: Global, head: &str, tree: Tree) -> Result<Object, OutOfMemory> {
    let (number, rest) = head.split_once(' ').unwrap_or((head, ""));
    let (kind, name) = rest.split_once(' ').unwrap_or((rest, ""));
    let item = number.parse::<u32>().unwrap_or(0);
    Ok(Object {
        kind: Text::copy_of(alloc, kind)?,
        name: Text::copy_of(alloc, name)?,
        place: Place {
            file: item % 2,
            line: item,
            col: 1,
        },
        number: number_of(item),
        builtin: false,
        tree: Arc::new(alloc, tree)?,
    })
}

/// The number of the object that a statement makes, by the statement's place among all of them.
pub fn number_of(item: u32) -> ItemNo {
    ItemNo {
        item,
        target: TargetNo {
            item: 0,
            host: 0,
            key: 0,
        },
        key: 0,
    }
}
