// The order of the walk, while a load goes through it.
ghost use Rattle.std.specs.Prelude.{◌≡◌, ◌+◌, IfOk, IfErr, IfSome, IfNone, [], ◌∷◌, Some, None, List, ℕ, take, drop, length};
ghost use Rattle.eval_meaning.specs.Registration.{loading};
ghost use Rattle.eval_meaning.specs.Files.{with_order};
ghost use Rattle.eval_work.specs.Works.{state_of};
ghost use Rattle.eval_work.specs.Kept.{IsFit, IsStill};
ghost use Rattle.load_work.specs.Orders.{next_number, order_after, Begins, around_order, IsNextFile};

use eval_work::{Stop, Task, Work};
use site_base::OutOfMemory;
use std::alloc::Global;
use std::mem;

/// The part of the order around that of a file, with what is left of it after the file.
#[derive(Drop)]
pub struct Around {
    pub(crate) order: Vec<u32>,
    pub(crate) at: usize,
}

/// The next number of the order in the file that is run; `None` if it has none left.
pub fn next_in_order(work: &mut Work) -> Option<u32>
    requires { IsFit work.old }
    ensures number { result ≡ next_number (loading (state_of work.old)).order }
    ensures state { state_of work.new ≡ with_order (order_after (loading (state_of work.old)).order) (state_of work.old) }
    ensures kept { IsStill work.old work.new }
{
    match &mut work.task {
        Task::Load(load) => {
            let next = load.order.get(load.at).copied();
            if next.is_some() {
                load.at += 1;
            }
            next
        }
        _ => None,
    }
}

/// Begins the part of the next file of the order, and gives the file's index; `None` if there is none, and nothing is
/// changed.
pub fn begin_part(work: &mut Work) -> Result<Option<(u32, Around)>, Stop>
    requires { IsFit work.old }
    ensures part { IfOk result (Begins (loading (state_of work.old)).order (state_of work.old) (state_of work.new)) }
    ensures memory { IfErr result (λ e. e ≡ Stop.Memory) }
    ensures kept { IfOk result (λ _. IsStill work.old work.new) }
{
    match &mut work.task {
        Task::Load(load) => {
            let Some((index, count, behind)) = next_file(&load.order, load.at) else {
                return Ok(None);
            };
            let part = part_of(work.alloc, &load.order, behind, count)?;
            let order = mem::replace(&mut load.order, part);
            load.at = 0;
            let at = behind.saturating_add(count);
            Ok(Some((index, Around { order, at })))
        }
        _ => Ok(None),
    }
}

/// Ends the part of a file: what it left of the order is passed over.
pub fn end_part(work: &mut Work, around: Around)
    requires { IsFit work.old }
    ensures state { state_of work.new ≡ with_order (around_order around) (state_of work.old) }
    ensures kept { IsStill work.old work.new }
{
    if let Task::Load(load) = &mut work.task {
        load.order = around.order;
        load.at = around.at;
    }
}

/// The index of the next file, how long its part is, and where that begins.
fn next_file(order: &[u32], at: usize) -> Option<(u32, usize, usize)>
    ensures { IsNextFile order.now at result }
{
    let left = order.get(at..)?;
    match left {
        [index, count, ..] => Some((*index, *count as usize, order.len() - left.len() + 2)),
        _ => None,
    }
}

/// So many numbers from a place on, or as many as there are.
fn part_of(alloc: Global, order: &[u32], from: usize, count: usize) -> Result<Vec<u32>, OutOfMemory>
    ensures { IfOk result (λ v. v.items ≡ take count (drop from order.now)) }
{
    let from = from.min(order.len());
    let count = count.min(order.len() - from);
    Ok(Vec::from_slice(alloc, &order[from..from + count])?)
}
