// What the callers of a round share.
ghost use Rattle.std.specs.Prelude.{◌≡◌, All, Vec, map, slice_get, IfOk};
ghost use Rattle.std.specs.List.{AllZip};
ghost use Rattle.std.specs.declared.alloc.Global.{Global};
ghost use Rattle.site_model.specs.declared.entry.Entry.{Entry};
ghost use Rattle.site_model.specs.declared.view.View.{View};
ghost use Rattle.post_turn.specs.declared.pass.Pass.{Pass};
ghost use Rattle.post_rounds.specs.declared.caller.Caller.{Caller};
ghost use Rattle.post_rounds.specs.Hands.{HasWalked, IsReady, base_of};
ghost use Rattle.post_rounds.specs.Rounds.{sense};
ghost use Rattle.checkable_core.specs.Contents.{Contents};
ghost use Rattle.checkable_core.specs.Machines.{after_entry, entry_by, glance_by};
ghost use Rattle.checkable_core.specs.declared.deed.Deed.{Deed};
ghost use Rattle.checkable_core.specs.declared.machine.SiteMachine.{SiteMachine};
ghost use Rattle.site_posts.specs.Outlooks.{IsWanted, ahead_in, deed_of};

use crate::ahead::{Ahead, Outlook, shown_with};
use checkable_core::{Deed, SiteMachine};
use post_rounds::{Caller, Maker, Sight, Work, all_at_once, walk};
use post_turn::{Gate, Pass, Post};
use site_base::{Moment, OutOfMemory, Row};
use site_model::{Event, View};
use std::alloc::Global;
use std::sync::Wait;
use std::thread::Threads;

/// What a caller asks for at a post.
#[derive(Drop)]
pub(crate) struct Wanted {
    pub post: u32,
    pub event: Event,
}

/// Makes the deeds of a round, by what is seen of the ancestors of each post's checkable.
#[derive(Drop)]
pub(crate) struct Deeds {
    pub moment: Moment,
    pub outlooks: Vec<Outlook>,
}

impl Deeds {
    /// What lies ahead at a post.
    fn ahead(&self, post: u32) -> &[Ahead]
        ensures { result.now ≡ ahead_in (slice_get self.now.outlooks.items post) }
    {
        match self.outlooks.get(post as usize) {
            Some(outlook) => outlook.ahead.as_slice(),
            None => &[],
        }
    }
}

impl<'a> Maker<SiteMachine<'a>> for Deeds {
    ghost use Rattle.checkable_core.specs.Machines.{IsDeedFor};
    ghost use Rattle.checkable_core.specs.declared.machine.SiteMachine.{SiteMachine};
    ghost use Rattle.post_rounds.specs.declared.sight.Sight.{Sight};
    ghost use Rattle.site_model.specs.declared.view.View.{View};
    ghost use Rattle.site_posts.specs.Outlooks.{IsWanted, deed_of};

    type Want = Wanted;

    ghost apt = { IsWanted };

    ghost event_of = { deed_of };

    fn event(
        &self,
        alloc: Global,
        want: Wanted,
        sights: Row<Sight<View>>,
    ) -> Result<Deed, OutOfMemory>
        ensures event { IfOk result (λ v. v ≡ deed_of self.now want sights) }
        ensures lawful { (m : SiteMachine) → IsWanted self.now m want (map (λ (s : Sight View). s.post) sights) → IfOk result (IsDeedFor m) }
    {
        let Wanted { post, event } = want;
        let sights = shown_with(alloc, self.ahead(post), sights.as_slice())?;
        Ok(Deed {
            moment: self.moment,
            event,
            sights,
        })
    }
}

/// The posts of a round, and what makes its deeds.
#[derive(Drop)]
pub(crate) struct Hall<'a> {
    pub posts: Vec<Post<SiteMachine<'a>>>,
    pub deeds: Deeds,
}

impl<'a> Work for Hall<'a> {
    ghost use Rattle.std.specs.Prelude.{map};
    ghost use Rattle.post_rounds.specs.Hands.{HasWalked, IsReady, base_of};
    ghost use Rattle.post_rounds.specs.Rounds.{sense};
    ghost use Rattle.checkable_core.specs.Machines.{after_entry, entry_by, glance_by};
    ghost use Rattle.site_posts.specs.Outlooks.{IsWanted, deed_of};

    ghost ready = { λ hall caller. IsReady (IsWanted hall.deeds) hall.posts.items caller };

    ghost ended = { λ hall caller hand. HasWalked (sense entry_by (λ e. e.caller) after_entry glance_by (deed_of hall.deeds) (map base_of hall.posts.items)) hall.posts.items caller hand.items };

    type Caller = Caller<SiteMachine<'a>, Wanted>;

    type Hand = Vec<Pass<SiteMachine<'a>>>;

    fn is_idle(&self, caller: &Caller<SiteMachine<'a>, Wanted>) -> bool {
        caller.is_idle()
    }

    fn work<R: Wait, G: Gate>(
        &self,
        rt: &R,
        gate: &G,
        caller: Caller<SiteMachine<'a>, Wanted>,
    ) -> Result<Vec<Pass<SiteMachine<'a>>>, OutOfMemory> {
        walk(rt, self.posts.as_slice(), &self.deeds, gate, caller)
    }
}

/// Has all callers do their jobs in a hall at the same time, and gives back their passes, in their order.
pub(crate) fn all_in<'a, R: Wait + Threads + Sync, G: Gate + Sync>(
    rt: &R,
    alloc: Global,
    hall: &Hall<'a>,
    gate: &G,
    callers: Vec<Caller<SiteMachine<'a>, Wanted>>,
) -> Result<Vec<Vec<Pass<SiteMachine<'a>>>>, OutOfMemory>
    requires ready { All (IsReady (IsWanted hall.now.deeds) hall.now.posts.items) callers.items }
    ensures { IfOk result (λ hands. AllZip (λ (caller : Caller SiteMachine Wanted Contents Deed Entry View) (hand : Vec (Pass SiteMachine Contents Deed Entry View) Global). HasWalked (sense entry_by (λ (e : Entry). e.caller) after_entry glance_by (deed_of hall.now.deeds) (map base_of hall.now.posts.items)) hall.now.posts.items caller hand.items) callers.entry.items hands.items) }
{
    all_at_once(rt, alloc, hall, gate, callers)
}
