// What is kept of the checks of a site.
ghost use Rattle.std.specs.Prelude.{◌≡◌, ◌<◌, ◌+◌, ◌-◌, ◌^◌, ◌++◌, ℕ, All, length, map, slice_get, Some, IfOk, OnOk};
ghost use Rattle.site_model.specs.PlainSite.{site_view};
ghost use Rattle.run_meaning.specs.Dealing.{checkable_of, without};
ghost use Rattle.run_meaning.specs.Schedule.{schedule};
ghost use Rattle.run_meaning.specs.Turns.{Command, Histories, Plans};
ghost use Rattle.depend_graph.specs.Graph.{IsGraphOf};
ghost use Rattle.depend_graph.specs.Outlooks.{holds_in};
ghost use Rattle.site_posts.specs.Books.{AreBooks};
ghost use Rattle.check_slots.specs.Watches.{watch_as};
ghost use Rattle.check_plan.specs.Plans.{IsPlan, first_plan, slots_in};
ghost use Rattle.check_plan.specs.Rounds.{BeginsWith, IsRoundOf, with_round};
ghost use Rattle.check_plan.specs.Walks.{ordered_as, outstanding_as};

use crate::following::follow;
use crate::ordered::Ordered;
use crate::walk::order_due;
use check_slots::{Watch, Watches};
use checkable_core::Checkable;
use order_book::OrderBook;
use site_base::OutOfMemory;
use site_posts::{Segment, Setting};
use std::alloc::Global;
use std::marker::Model;

/// When each checkable of a site is to be checked next, and which orders have no report yet.
#[derive(Drop)]
pub struct CheckPlan {
    pub(crate) watches: Watches,
    pub(crate) orders: OrderBook,
}

impl Model for CheckPlan {
    ghost use Rattle.check_plan.specs.Plans.{Plan};

    ghost Value = { Plan };

    ghost view = { λ p. record { watches = p.watches; orders = p.orders } };
}

impl CheckPlan {
    /// Before the first order: every one of so many checkables is due at once.
    ///
    /// # Errors
    ///
    /// `OutOfMemory` if there is none for the watches.
    pub fn new(alloc: Global, count: u32) -> Result<CheckPlan, OutOfMemory>
        requires { count < 2 ^ 32 - 1 }
        ensures { IfOk result (λ p. p ≡ first_plan count) }
    {
        Ok(CheckPlan {
            watches: Watches::new(alloc, count)?,
            orders: OrderBook::new(alloc),
        })
    }

    /// Takes a report of an order, and tells the checkable that it is for. `None` comes where the order wasn't given, or had a
    /// report before.
    pub fn take_report(&mut self, order: u64) -> Option<u32>
        ensures checkable { result ≡ checkable_of order self.old.orders.outstanding }
        ensures left { self.new ≡ record { watches = self.old.watches; orders = record { given = self.old.orders.given; outstanding = without order self.old.orders.outstanding } } }
    {
        self.orders.take(order)
    }

    /// Goes on by the entries of a round, and then gives an order to each checkable that is due and that nothing holds back, by the
    /// moment since which it is due and then by its index, until as many orders have no report as may be (Icinga 2 documentation,
    /// Language Reference, `MaxConcurrentChecks`). One that is held back is due again after its interval. The books have the entries
    /// of the round.
    ///
    /// It takes a time that grows with the entries and with the checkables that are due, with the ancestors of these, and with the
    /// logarithm of how many checkables there are.
    ///
    /// # Errors
    ///
    /// `OutOfMemory` if there is none for an order, or to look for what holds a checkable back. Any number of the orders was
    /// given then.
    pub fn after_round(
        &mut self,
        setting: &Setting<'_>,
        books: &[Checkable],
        segments: &[Segment],
    ) -> Result<Vec<Ordered>, OutOfMemory>
        requires graph { IsGraphOf (site_view setting.now.site.now) setting.now.graph.now }
        requires books { AreBooks (site_view setting.now.site.now) setting.now.moment books.now }
        requires whole { length self.old.watches ≡ length (site_view setting.now.site.now).checkables }
        requires within { All (λ x. x.checkable < length (site_view setting.now.site.now).checkables) segments.now }
        requires numbers { self.old.orders.given + (site_view setting.now.site.now).max_orders < 2 ^ 64 }
        ensures whole { length self.new.watches ≡ length self.old.watches }
        ensures orders { (command : ℕ → Command) (plans : Plans) (before round : Histories) → BeginsWith (site_view setting.now.site.now) plans self.old → IsRoundOf (site_view setting.now.site.now) books.now segments.now before round →
            IfOk result (λ r. map (ordered_as command) r.items ≡ (schedule (site_view setting.now.site.now) (holds_in (site_view setting.now.site.now) setting.now.zone.now) command plans setting.now.moment before round).orders) }
        ensures slots { (command : ℕ → Command) (plans : Plans) (before round : Histories) → BeginsWith (site_view setting.now.site.now) plans self.old → IsRoundOf (site_view setting.now.site.now) books.now segments.now before round →
            OnOk result (slots_in self.new.watches ≡ (schedule (site_view setting.now.site.now) (holds_in (site_view setting.now.site.now) setting.now.zone.now) command plans setting.now.moment before round).slots) }
        ensures given { IfOk result (λ r. self.new.orders.given ≡ self.old.orders.given + length r.items) }
        ensures outstanding { IfOk result (λ r. self.new.orders.outstanding ≡ self.old.orders.outstanding ++ map outstanding_as r.items) }
        ensures plan { (before round : Histories) → IsRoundOf (site_view setting.now.site.now) books.now segments.now before round → IsPlan (site_view setting.now.site.now) (with_round (site_view setting.now.site.now) before round self.old) →
            OnOk result (IsPlan (site_view setting.now.site.now) self.new) }
    {
        follow(&mut self.watches, setting.site, segments);
        order_due(&mut self.watches, &mut self.orders, setting, books)
    }

    /// When the checkable of this index is to be checked next.
    pub fn at(&self, checkable: u32) -> Watch
        requires { checkable < length self.now.watches }
        ensures { slice_get self.now.watches checkable ≡ Some (watch_as result) }
    {
        self.watches.at(checkable)
    }

    /// How many orders have no report yet.
    pub fn outstanding(&self) -> usize
        ensures { result ≡ length self.now.orders.outstanding }
    {
        self.orders.outstanding()
    }

    /// How many orders were given.
    pub fn given(&self) -> u64
        ensures { result ≡ self.now.orders.given }
    {
        self.orders.given()
    }
}
