// Tasks in batches.
ghost use Rattle.std.specs.Prelude.{◌≡◌, ◌++◌, ◌∷◌, [], IfOk, OnOk};
ghost use Rattle.commit_board.specs.Work.{all_in};

use site_base::OutOfMemory;
use std::alloc::Global;
use std::mem;

/// Tasks in batches of so many each but for the last.
pub(crate) fn batches_of<T: Drop>(
    alloc: Global,
    tasks: Vec<T>,
    size: usize,
) -> Result<Vec<Vec<T>>, OutOfMemory>
    ensures { IfOk result (λ batches. all_in batches.items ≡ tasks.items) }
{
    let room = size.min(tasks.len());
    let mut batches = Vec::new(alloc);
    let mut batch = Vec::with_capacity(alloc, room)?;
    for task in tasks {
        if batch.len() >= size {
            end_batch(alloc, &mut batches, &mut batch, room)?;
        }
        batch.push(task)?;
    }
    batches.push(batch)?;
    Ok(batches)
}

/// Adds a batch behind others, and begins the next one, with room for so many tasks.
fn end_batch<T: Drop>(
    alloc: Global,
    batches: &mut Vec<Vec<T>>,
    batch: &mut Vec<T>,
    room: usize,
) -> Result<(), OutOfMemory>
    ensures batches { OnOk result (all_in batches.new.items ≡ all_in batches.old.items ++ batch.old.items) }
    ensures batch { OnOk result (batch.new.items ≡ []) }
{
    let next = Vec::with_capacity(alloc, room)?;
    let full = mem::replace(batch, next);
    batches.push(full)?;
    Ok(())
}

/// All that batches hold, one behind another.
pub(crate) fn joined<A: Drop>(alloc: Global, batches: Vec<Vec<A>>) -> Result<Vec<A>, OutOfMemory>
    ensures { IfOk result (λ all. all.items ≡ all_in batches.items) }
{
    let mut all = Vec::new(alloc);
    for batch in batches {
        let mut batch = batch;
        all.append(&mut batch)?;
    }
    Ok(all)
}
