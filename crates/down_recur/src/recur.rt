// The feed of a site's recurring downtimes.
ghost use Rattle.std.specs.Prelude.{◌≡◌, IfOk, OnOk};
ghost use Rattle.site_model.specs.PlainSite.{site_view};
ghost use Rattle.site_posts.specs.Books.{AreBooks, histories_of};

use crate::reading::read_all;
use crate::rests::Rests;
use crate::turn::Turn;
use crate::waiting::Waiting;
use crate::walking::{give_all, rest_from};
use checkable_core::Checkable;
use site_base::{Blob, Moment, OutOfMemory};
use site_model::Site;
use std::alloc::Global;
use std::marker::Model;
use time_range::Zone;
use trail::Told;

/// What gives the command lines of a site's `ScheduledDowntime` objects. Clauses see the site and the zone that it was made for, and what
/// recurs.
#[derive(Drop)]
pub struct Recur<'a> {
    alloc: Global,
    /// The site that it was made for, which clauses alone see.
    site: Told<Site>,
    zone: &'a Zone,
    /// What recurs, in committed order.
    list: Vec<Waiting>,
    /// Until when each of it rests, from the last turn's moment on.
    rests: Rests,
    seen: Moment,
}

impl<'a> Model for Recur<'a> {
    ghost use Rattle.std.specs.Coded.{codes};
    ghost use Rattle.std.specs.Prelude.{map};
    ghost use Rattle.site_base.specs.contracts.tree.Tree as tree;
    ghost use Rattle.down_recur.specs.Contents.{Contents};
    ghost use Rattle.down_recur.specs.Waiting.{AreResting, AreWaiting, recurring_in};

    ghost Value = { Contents };

    ghost coded = { Prim.hlevel (codes, tree.the_row.coded) };

    ghost view = { λ k. record { site = k.site.value; zone = k.zone.now; recurrings = map recurring_in k.list.items } };

    ghost invariant = { λ k. AreWaiting k.zone.now k.list.items × AreResting k.seen k.rests k.list.items };
}

impl<'a> Recur<'a> {
    ghost use Rattle.down_recur.specs.Contents.{after, begun, gives};

    /// What recurs on a site in its zone, before the first turn.
    ///
    /// An object gives nothing if its host's or service's name has a `;` in it, or where no checkable has the name `vars.triggered_by`.
    ///
    /// # Errors
    ///
    /// `OutOfMemory` if there is none for what recurs.
    pub fn new(alloc: Global, site: &Site, zone: &'a Zone) -> Result<Recur<'a>, OutOfMemory>
        ensures { IfOk result (λ r. r ≡ begun site.now zone.now) }
    {
        let list = read_all(alloc, site)?;
        let rests = Rests::awake(alloc, list.len())?;
        Ok(Recur {
            alloc,
            site: Told::of(site),
            zone,
            list,
            rests,
            seen: Moment::of(0).unwrap(),
        })
    }

    /// The lines of a turn at a moment, at which the books stand: for each object in committed order the downtimes of its segments, by their
    /// starts and then by the order of `ranges`. A segment gives one line at most: a day before it begins or at the first turn after that, or, where
    /// it is triggered, at the first turn in it at which its trigger has a downtime in effect.
    ///
    /// It takes a time that grows with what is due, with what waits for its trigger, and with a thousandth of all that recurs.
    ///
    /// # Errors
    ///
    /// `OutOfMemory` if there is none for the lines. Nothing is said of what was given then.
    pub fn lines(&mut self, books: &[Checkable], moment: Moment) -> Result<Vec<Blob>, OutOfMemory>
        requires { AreBooks (site_view self.old.site) moment books.now }
        ensures lines { IfOk result (λ lines. lines.items ≡ gives self.old (histories_of books.now) moment) }
        ensures after { OnOk result (self.new ≡ after self.old (histories_of books.now) moment) }
    {
        rest_from(self.alloc, self.seen, moment, &mut self.rests, &self.list)?;
        self.seen = moment;
        let mut lines = Vec::new(self.alloc);
        let turn = Turn {
            alloc: self.alloc,
            site: &self.site,
            zone: self.zone,
            books,
            moment,
        };
        give_all(&mut lines, &mut self.list, &mut self.rests, &turn)?;
        Ok(lines)
    }
}
