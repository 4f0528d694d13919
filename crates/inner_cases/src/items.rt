// A row's last object, the view over its load, and what it comes to.
ghost use Rattle.std.specs.Prelude.{◌≡◌, IfSome};
ghost use Rattle.dsl_load.specs.Loads.{IsLoad};
ghost use Rattle.eval_work.specs.Kept.{PairsNamed};
ghost use Rattle.item_body.specs.Lawful.{IsRunnable};
ghost use Rattle.item_start.specs.Ready.{IsLawfulView};

use crate::shown::{push_diag, push_object};
use dsl_load::LoadParts;
use eval_work::{Committed, Item, Known, Stop, WorldView};
use item_body::{ItemAnswer, run_item};
use site_base::{Text, Texts};
use std::alloc::Global;

/// Takes the last object off a load.
#[tactic(auto, using(crate::proofs::Lawful::front_load, crate::proofs::Lawful::last_named))]
pub(crate) fn last_item(parts: &mut LoadParts) -> Option<Item>
    requires { IsLoad parts.old }
    ensures load { IsLoad parts.new }
    ensures captured { IfSome result (λ i. PairsNamed parts.new.store i.captured.items) }
{
    parts.items.pop()
}

/// What evaluations are told once the files were loaded: what the load left, and the objects that the row shows.
#[tactic(auto, using(crate::proofs::Lawful::lawful))]
pub(crate) fn view_over<'a>(
    parts: &'a LoadParts,
    objects: &'a Committed,
    known: &'a Known,
) -> WorldView<'a>
    requires { IsLoad parts.now }
    ensures lawful { IsLawfulView result }
    ensures store { result.store.now ≡ parts.now.store }
{
    WorldView {
        store: &parts.store,
        templates: &parts.templates,
        rules: &parts.rules,
        objects,
        known,
        files: &[],
    }
}

/// Adds what an item comes to.
pub(crate) fn push_item(
    alloc: Global,
    out: &mut Text,
    view: &WorldView,
    item: &Item,
    files: &Texts,
) -> Result<(), Stop>
    requires { IsRunnable view.now item.now }
{
    match run_item(alloc, view, item)? {
        ItemAnswer::Made(object) => Ok(push_object(alloc, out, &object)?),
        ItemAnswer::Blocked(read) => Err(Stop::Blocked(read)),
        ItemAnswer::Diags(faults) => {
            for (i, fault) in faults.as_slice().iter().enumerate() {
                if i > 0 {
                    out.push_str(" / ")?;
                }
                push_diag(alloc, out, fault, files)?;
            }
            Ok(())
        }
    }
}
