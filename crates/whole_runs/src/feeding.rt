// Recurring downtimes as the feed of a run.
ghost use Rattle.std.specs.Prelude.{◌≡◌, IfOk};

use checkable_core::Checkable;
use down_recur::Recur;
use site_base::{Blob, Moment, OutOfMemory};
use site_model::Site;
use site_run::Feed;
use std::alloc::Global;
use time_range::Zone;

/// The recurring downtimes of a site, before each turn's own lines.
#[derive(Drop)]
pub struct RecurFeed<'a> {
    recur: Recur<'a>,
}

impl<'a> RecurFeed<'a> {
    ghost use Rattle.down_recur.specs.Contents.{begun};

    /// The feed of a site in its zone, before the first turn.
    ///
    /// # Errors
    ///
    /// `OutOfMemory` if there is too little memory for what recurs.
    pub fn new(alloc: Global, site: &Site, zone: &'a Zone) -> Result<RecurFeed<'a>, OutOfMemory>
        ensures { IfOk result (λ f. f.recur ≡ begun site.now zone.now) }
    {
        Ok(RecurFeed {
            recur: Recur::new(alloc, site, zone)?,
        })
    }
}

impl<'a> Feed for RecurFeed<'a> {
    ghost use Rattle.std.specs.Prelude.{◌≡◌};
    ghost use Rattle.site_model.specs.PlainSite.{site_view};
    ghost use Rattle.down_recur.specs.Contents.{after, gives};

    ghost made_for = { λ feed s. site_view feed.recur.site ≡ s };

    ghost gives = { λ feed histories moment. gives feed.recur histories moment };

    ghost after = { λ feed histories moment. record { recur = after feed.recur histories moment } };

    fn lines(&mut self, books: &[Checkable], moment: Moment) -> Result<Vec<Blob>, OutOfMemory> {
        self.recur.lines(books, moment)
    }
}
