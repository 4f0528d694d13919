// Acts that are taken one after another.
ghost use Rattle.std.specs.Prelude.{◌≡◌, ◌++◌, All, Contains, List, length, map, OnErr, OnOk};
ghost use Rattle.site_model.specs.PlainSite.{site_view};
ghost use Rattle.checkable_core.specs.Entries.{rules_in};
ghost use Rattle.depend_graph.specs.Graph.{IsGraphOf};
ghost use Rattle.run_meaning.specs.Alone.{AreOnSite, Move, moves_of};
ghost use Rattle.run_meaning.specs.Turns.{Histories};
ghost use Rattle.site_posts.specs.Books.{AreBooks, histories_of};
ghost use Rattle.site_posts.specs.Made.{asked_of};
ghost use Rattle.site_posts.specs.Outlooks.{Ascends};
ghost use Rattle.site_posts.specs.Progress.{HasCome, HasStopped};

use crate::act::Act;
use crate::gathering::Gathered;
use crate::setting::Setting;
use checkable_core::Checkable;
use site_base::OutOfMemory;

/// Takes the acts of one caller, one after another, and gathers their entries.
///
/// # Errors
///
/// `OutOfMemory` if there is none for an entry or its sights. The books then have the entries of the first of the acts.
pub(crate) fn take_in_order(
    setting: &Setting,
    books: &mut Vec<Checkable>,
    caller: u32,
    list: Vec<Act>,
    gathered: &mut Gathered,
) -> Result<(), OutOfMemory>
    requires graph { IsGraphOf (site_view setting.now.site.now) setting.now.graph.now }
    requires books { AreBooks (site_view setting.now.site.now) setting.now.moment books.old.items }
    requires acts { AreOnSite (site_view setting.now.site.now) (map asked_of list.items) }
    requires touched { All (λ act. Contains gathered.old.touched.items act.checkable) list.items }
    requires ascends { Ascends gathered.old.touched.items }
    requires whole { length gathered.old.rows.items ≡ length gathered.old.touched.items }
    ensures books { AreBooks (site_view setting.now.site.now) setting.now.moment books.new.items }
    ensures same { gathered.new.touched ≡ gathered.old.touched }
    ensures whole { length gathered.new.rows.items ≡ length gathered.old.rows.items }
    ensures come { (before : Histories) (done : List Move) → HasCome (site_view setting.now.site.now) setting.now.zone.now setting.now.moment before gathered.old.touched.items done (histories_of books.old.items) gathered.old.rows.items →
        OnOk result (HasCome (site_view setting.now.site.now) setting.now.zone.now setting.now.moment before gathered.old.touched.items (done ++ moves_of caller (map asked_of list.items)) (histories_of books.new.items) gathered.new.rows.items) }
    ensures stopped { (before : Histories) (done : List Move) → HasCome (site_view setting.now.site.now) setting.now.zone.now setting.now.moment before gathered.old.touched.items done (histories_of books.old.items) gathered.old.rows.items →
        OnErr result (HasStopped (rules_in (site_view setting.now.site.now) setting.now.zone.now) setting.now.moment before done caller (map asked_of list.items) (histories_of books.new.items)) }
{
    let mut sights = Vec::new(setting.alloc);
    for act in list {
        let checkable = act.checkable;
        setting.look(books, checkable, &mut sights)?;
        let entry = setting.take(books, caller, act, &sights)?;
        gathered.add(checkable, entry)?;
    }
    Ok(())
}
