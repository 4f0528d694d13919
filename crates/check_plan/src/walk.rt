// The walk over the checkables that are due.
ghost use Rattle.std.specs.Prelude.{◌≡◌, ◌<◌, ◌-◌, ◌+◌, ◌++◌, ◌∷◌, ◌^◌, ℕ, List, [], All, length, map, slice_set, true, false, IfOk, IfNone, IfSome, OnOk};
ghost use Rattle.site_model.specs.PlainSite.{site_view};
ghost use Rattle.run_meaning.specs.Reachability.{Outlook};
ghost use Rattle.run_meaning.specs.Schedule.{Walk as MeantWalk, due_from, walk_over};
ghost use Rattle.run_meaning.specs.Turns.{Command, Outstanding};
ghost use Rattle.depend_graph.specs.Graph.{IsGraphOf};
ghost use Rattle.site_posts.specs.Books.{AreBooks, histories_of};
ghost use Rattle.check_slots.specs.Watches.{IsFirstDue};
ghost use Rattle.check_plan.specs.Plans.{IsPlan, TellWaiting, slots_in};
ghost use Rattle.check_plan.specs.Walks.{AreAside, IsOnWay, ordered_as, outlook_now, outstanding_as, standing, walked};

use crate::held::gets_order;
use crate::ordered::Ordered;
use check_slots::{Watch, Watches};
use checkable_core::Checkable;
use order_book::OrderBook;
use site_base::{Moment, OutOfMemory};
use site_posts::Setting;

/// How far a walk over those that are due has come.
#[derive(Drop)]
pub(crate) struct Walk {
    pub(crate) orders: Vec<Ordered>,
    /// Those that are passed over. They stand aside until the walk's end, so that none of them is taken again.
    pub(crate) passed: Vec<u32>,
    /// How many orders have no report yet.
    pub(crate) outstanding: usize,
}

/// Gives an order to each checkable that is due and that nothing holds back, by the moment since which it is due and then by
/// its index, until as many orders have no report as may be. One that is held back is due again after its interval.
///
/// # Errors
///
/// `OutOfMemory` if there is none for an order, or to look for what holds a checkable back. Any number of the orders was
/// given then.
pub(crate) fn order_due(
    watches: &mut Watches,
    orders: &mut OrderBook,
    setting: &Setting<'_>,
    books: &[Checkable],
) -> Result<Vec<Ordered>, OutOfMemory>
    requires graph { IsGraphOf (site_view setting.now.site.now) setting.now.graph.now }
    requires books { AreBooks (site_view setting.now.site.now) setting.now.moment books.now }
    requires whole { length watches.old ≡ length (site_view setting.now.site.now).checkables }
    requires numbers { orders.old.given + (site_view setting.now.site.now).max_orders < 2 ^ 64 }
    ensures whole { length watches.new ≡ length watches.old }
    ensures orders { (command : ℕ → Command) →
        IfOk result (λ r. map (ordered_as command) r.items ≡ (walked command (outlook_now (site_view setting.now.site.now) setting.now.zone.now setting.now.moment (histories_of books.now)) (record { watches = watches.old; orders = orders.old })).orders) }
    ensures slots { (command : ℕ → Command) →
        OnOk result (slots_in watches.new ≡ (walked command (outlook_now (site_view setting.now.site.now) setting.now.zone.now setting.now.moment (histories_of books.now)) (record { watches = watches.old; orders = orders.old })).slots) }
    ensures given { IfOk result (λ r. orders.new.given ≡ orders.old.given + length r.items) }
    ensures outstanding { IfOk result (λ r. orders.new.outstanding ≡ orders.old.outstanding ++ map outstanding_as r.items) }
    ensures plan { IsPlan (site_view setting.now.site.now) (record { watches = watches.old; orders = orders.old }) →
        OnOk result (IsPlan (site_view setting.now.site.now) (record { watches = watches.new; orders = orders.new })) }
{
    let mut walk = Walk {
        orders: Vec::new(setting.alloc),
        passed: Vec::new(setting.alloc),
        outstanding: watches.waiting(),
    };
    while let Some(checkable) = next_due(watches, setting, walk.outstanding) {
        step(watches, orders, setting, books, checkable, &mut walk)?;
    }
    put_back(watches, walk.passed.as_slice());
    Ok(walk.orders)
}

/// The one that the walk takes next; `None` if none is due, or as many orders are outstanding as may be.
fn next_due(watches: &Watches, setting: &Setting<'_>, outstanding: usize) -> Option<u32>
    ensures none { IfNone result ((command : ℕ → Command) (o : Outlook) (w : MeantWalk) → o.site ≡ site_view setting.now.site.now → o.moment ≡ setting.now.moment → w.outstanding ≡ outstanding →
        walk_over command o (due_from setting.now.moment 0 watches.now) w ≡ w) }
    ensures first { IfSome result (IsFirstDue setting.now.moment watches.now) }
    ensures room { IfSome result (λ _. outstanding < (site_view setting.now.site.now).max_orders) }
    ensures small { IfSome result (λ _. outstanding < 2 ^ 32) }
{
    if outstanding < setting.site.max_orders as usize {
        watches.due(setting.moment)
    } else {
        None
    }
}

/// Takes the one that is due first: it gets an order, or is passed over.
fn step(
    watches: &mut Watches,
    orders: &mut OrderBook,
    setting: &Setting<'_>,
    books: &[Checkable],
    checkable: u32,
    walk: &mut Walk,
) -> Result<(), OutOfMemory>
    requires graph { IsGraphOf (site_view setting.now.site.now) setting.now.graph.now }
    requires books { AreBooks (site_view setting.now.site.now) setting.now.moment books.now }
    requires whole { length watches.old ≡ length (site_view setting.now.site.now).checkables }
    requires first { IsFirstDue setting.now.moment watches.old checkable }
    requires room { walk.old.outstanding < (site_view setting.now.site.now).max_orders }
    requires small { walk.old.outstanding < 2 ^ 32 }
    requires numbers { orders.old.given < 2 ^ 64 - 1 }
    ensures way { OnOk result (IsOnWay (outlook_now (site_view setting.now.site.now) setting.now.zone.now setting.now.moment (histories_of books.now))
        (standing watches.old orders.old walk.old) (standing watches.new orders.new walk.new)) }
    ensures whole { length watches.new ≡ length watches.old }
    ensures fewer { OnOk result (length (due_from setting.now.moment 0 watches.new) < length (due_from setting.now.moment 0 watches.old)) }
{
    let watch = watches.at(checkable);
    if gets_order(setting, books, checkable, watch.forced)? {
        give(watches, orders, checkable, watch.next, walk)
    } else {
        let spec = &setting.site.checkables.as_slice()[checkable as usize];
        pass_over(
            watches,
            checkable,
            setting.moment.later(spec.check_secs),
            walk,
        )
    }
}

/// Gives an order, which leaves the checkable's next moment and clears what forces it.
fn give(
    watches: &mut Watches,
    orders: &mut OrderBook,
    checkable: u32,
    next: Moment,
    walk: &mut Walk,
) -> Result<(), OutOfMemory>
    requires checkable { checkable < length watches.old }
    requires room { walk.old.outstanding < 2 ^ 32 }
    requires numbers { orders.old.given < 2 ^ 64 - 1 }
    ensures whole { length watches.new ≡ length watches.old }
    ensures watches { OnOk result (watches.new ≡ slice_set watches.old checkable (record { slot = record { next = next; forced = false }; waiting = true })) }
    ensures book { OnOk result (orders.new ≡ record { given = orders.old.given + 1; outstanding = orders.old.outstanding ++ record { order = orders.old.given + 1; checkable = checkable } ∷ [] }) }
    ensures orders { OnOk result (walk.new.orders.items ≡ walk.old.orders.items ++ record { number = orders.old.given + 1; checkable = checkable } ∷ []) }
    ensures passed { OnOk result (walk.new.passed.items ≡ walk.old.passed.items) }
    ensures outstanding { OnOk result (walk.new.outstanding ≡ walk.old.outstanding + 1) }
{
    let number = orders.give(checkable)?;
    walk.orders.push(Ordered { number, checkable })?;
    walk.outstanding += 1;
    watches.set(
        checkable,
        Watch {
            next,
            forced: false,
            waiting: true,
        },
    );
    Ok(())
}

/// Passes over one that isn't forced. It stands aside, as one that waits, and is due again at this moment.
fn pass_over(
    watches: &mut Watches,
    checkable: u32,
    next: Moment,
    walk: &mut Walk,
) -> Result<(), OutOfMemory>
    requires checkable { checkable < length watches.old }
    ensures whole { length watches.new ≡ length watches.old }
    ensures watches { OnOk result (watches.new ≡ slice_set watches.old checkable (record { slot = record { next = next; forced = false }; waiting = true })) }
    ensures orders { OnOk result (walk.new.orders.items ≡ walk.old.orders.items) }
    ensures passed { OnOk result (walk.new.passed.items ≡ walk.old.passed.items ++ checkable ∷ []) }
    ensures outstanding { OnOk result (walk.new.outstanding ≡ walk.old.outstanding) }
{
    walk.passed.push(checkable)?;
    watches.set(
        checkable,
        Watch {
            next,
            forced: false,
            waiting: true,
        },
    );
    Ok(())
}

/// Lets those that stood aside be due again.
fn put_back(watches: &mut Watches, passed: &[u32])
    requires { All (λ k. k < length watches.old) passed.now }
    ensures slots { slots_in watches.new ≡ slots_in watches.old }
    ensures whole { length watches.new ≡ length watches.old }
    ensures waiting { (os : List Outstanding) → AreAside watches.old os passed.now → TellWaiting watches.new os }
{
    for checkable in passed {
        let watch = watches.at(*checkable);
        watches.set(
            *checkable,
            Watch {
                next: watch.next,
                forced: watch.forced,
                waiting: false,
            },
        );
    }
}
