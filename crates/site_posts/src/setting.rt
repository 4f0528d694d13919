// What stays the same through a round, and one act of it.
ghost use Rattle.std.specs.Prelude.{◌≡◌, ◌<◌, ℕ, length, IfOk, OnOk, OnErr};
ghost use Rattle.site_model.specs.PlainSite.{site_view};
ghost use Rattle.run_meaning.specs.Alone.{with_entry};
ghost use Rattle.depend_graph.specs.Graph.{IsGraphOf};
ghost use Rattle.site_posts.specs.Books.{AreBooks, histories_of};
ghost use Rattle.site_posts.specs.Sights.{shown};
ghost use Rattle.site_posts.specs.Made.{entry_next};

use crate::act::Act;
use checkable_core::Checkable;
use depend_graph::Graph;
use site_base::{Moment, OutOfMemory};
use site_model::{Entry, Site, View};
use std::alloc::Global;
use time_range::Zone;

/// What stays the same through a round: the site with its graph and its zone, and the moment.
#[derive(Drop)]
pub struct Setting<'a> {
    pub alloc: Global,
    pub site: &'a Site,
    pub graph: &'a Graph,
    pub zone: &'a Zone,
    pub moment: Moment,
}

impl<'a> Setting<'a> {
    /// What the ancestors of a checkable show now, by ascending index. The books are the checkables of the site, one each by index.
    ///
    /// # Errors
    ///
    /// `OutOfMemory` if there is too little memory for the answer.
    pub fn sights(
        &self,
        books: &[Checkable],
        checkable: u32,
    ) -> Result<Vec<(u32, View)>, OutOfMemory>
        requires graph { IsGraphOf (site_view self.now.site.now) self.now.graph.now }
        requires books { AreBooks (site_view self.now.site.now) self.now.moment books.now }
        requires checkable { checkable < length (site_view self.now.site.now).checkables }
        ensures { IfOk result (λ sights. sights.items ≡ shown (site_view self.now.site.now) (histories_of books.now) checkable) }
    {
        let mut sights = Vec::new(self.alloc);
        self.look(books, checkable, &mut sights)?;
        Ok(sights)
    }

    /// Has these be what the ancestors of a checkable show now, as [`Setting::sights`] gives it.
    pub(crate) fn look(
        &self,
        books: &[Checkable],
        checkable: u32,
        sights: &mut Vec<(u32, View)>,
    ) -> Result<(), OutOfMemory>
        requires graph { IsGraphOf (site_view self.now.site.now) self.now.graph.now }
        requires books { AreBooks (site_view self.now.site.now) self.now.moment books.now }
        requires checkable { checkable < length (site_view self.now.site.now).checkables }
        ensures { OnOk result (sights.new.items ≡ shown (site_view self.now.site.now) (histories_of books.now) checkable) }
    {
        let ancestors = self.graph.ancestors(checkable);
        sights.clear();
        sights.reserve_exact(ancestors.len())?;
        for ancestor in ancestors {
            sights.push((*ancestor, books[*ancestor as usize].view()))?;
        }
        Ok(())
    }

    /// Takes an act of a caller by these sights of the ancestors of its checkable, and gives the entry that it makes.
    ///
    /// # Errors
    ///
    /// `OutOfMemory` if there is too little memory for the entry; all books are then as before.
    pub(crate) fn take(
        &self,
        books: &mut Vec<Checkable>,
        caller: u32,
        act: Act,
        sights: &[(u32, View)],
    ) -> Result<Entry, OutOfMemory>
        requires graph { IsGraphOf (site_view self.now.site.now) self.now.graph.now }
        requires books { AreBooks (site_view self.now.site.now) self.now.moment books.old.items }
        requires checkable { act.checkable < length (site_view self.now.site.now).checkables }
        requires sights { sights.now ≡ shown (site_view self.now.site.now) (histories_of books.old.items) act.checkable }
        ensures entry { IfOk result (λ e. e ≡ entry_next (site_view self.now.site.now) self.now.zone.now self.now.moment (histories_of books.old.items) caller act.checkable act.event) }
        ensures kept { IfOk result (λ e. histories_of books.new.items ≡ with_entry act.checkable e (histories_of books.old.items)) }
        ensures books { AreBooks (site_view self.now.site.now) self.now.moment books.new.items }
        ensures err { OnErr result (histories_of books.new.items ≡ histories_of books.old.items) }
    {
        let book = &mut books[act.checkable as usize];
        match book.apply(
            self.site,
            self.graph,
            self.zone,
            caller,
            self.moment,
            act.event,
            sights,
        ) {
            Ok(entry) => Ok(entry),
            Err(_) => Err(OutOfMemory),
        }
    }
}
