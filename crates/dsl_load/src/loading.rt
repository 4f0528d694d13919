// The load.
ghost use Rattle.std.specs.Prelude.{map, IfOk};
ghost use Rattle.eval_work.specs.Works.{plain_file};
ghost use Rattle.eval_work.specs.Kept.{IsFit};
ghost use Rattle.dsl_load.specs.Loads.{Runs, Loads, IsLoad};

use crate::LoadParts;
use crate::load_parts::parts_of;
use crate::starting::{first_work, load_view, no_objects};
use dsl_eval::run_order;
use dsl_value::Store;
use eval_work::{Committed, SourceFile, Stop, Templates, Work};
use std::alloc::Global;

/// Runs the files of a site as one evaluation, by the order of their walk, from its first file on. A fault is the first one that
/// is met. Nothing is blocked: at a load it is known that there are no objects.
pub fn eval_files(alloc: Global, files: &[SourceFile], order: &[u32]) -> Result<LoadParts, Stop>
    ensures loads { Loads (map plain_file files.now) order.now result }
    ensures is_load { IfOk result IsLoad }
{
    Ok(parts_of(run_files(alloc, files, order)?))
}

/// The same without the end: what the evaluation of the files comes to, with what is left of the budget.
pub fn run_files(alloc: Global, files: &[SourceFile], order: &[u32]) -> Result<Work, Stop>
    ensures runs { Runs (map plain_file files.now) order.now result }
    ensures fit { IfOk result IsFit }
{
    let store = Store::new(alloc);
    let templates = Templates::new(alloc);
    let objects = Committed::new(alloc);
    let known = no_objects(alloc)?;
    let view = load_view(&store, &templates, &objects, &known, files);
    let mut work = first_work(alloc, order)?;
    run_order(&view, &mut work)?;
    Ok(work)
}
