// On which checkables callers act.
ghost use Rattle.std.specs.Prelude.{◌≡◌, ◌<◌, ℕ, All, Contains, IfOk};
ghost use Rattle.site_posts.specs.Outlooks.{Ascends};

use crate::act::Act;
use site_base::OutOfMemory;
use std::alloc::Global;

/// The checkables on which callers act, ascending, each once.
pub(crate) fn touched_by(alloc: Global, lists: &[Vec<Act>]) -> Result<Vec<u32>, OutOfMemory>
    ensures ascends { IfOk result (λ touched. Ascends touched.items) }
    ensures all { IfOk result (λ touched. All (λ list. All (λ act. Contains touched.items act.checkable) list.items) lists.now) }
    ensures no_others { (n : ℕ) → All (λ list. All (λ act. act.checkable < n) list.items) lists.now → IfOk result (λ touched. All (λ k. k < n) touched.items) }
{
    let mut touched = Vec::new(alloc);
    for list in lists {
        for act in list {
            touched.push(act.checkable)?;
        }
    }
    each_once(&mut touched);
    Ok(touched)
}

/// Puts these in order, each once.
fn each_once(touched: &mut Vec<u32>)
    ensures ascends { Ascends touched.new.items }
    ensures keeps { (k : ℕ) → Contains touched.old.items k → Contains touched.new.items k }
    ensures no_others { (n : ℕ) → All (λ k. k < n) touched.old.items → All (λ k. k < n) touched.new.items }
{
    touched.sort_unstable();
    touched.dedup();
}
