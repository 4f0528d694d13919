// How a post and its passes are made.
ghost use Rattle.std.specs.Prelude.{◌≡◌, ℕ, ◌<◌, ◌≤◌, ◌+◌, [], ◌∷◌, length, IfOk};
ghost use Rattle.post_turn.specs.Turns.{everyone, newcomers, resting};
ghost use Rattle.post_turn.specs.Passes.{start_of, callers_of, AreDealt};

use crate::body::Body;
use crate::turns::{About, Deal, Place};
use crate::{Machine, Pass, Post};
use atomic_table::Table;
use site_base::{OutOfMemory, Row};
use std::alloc::Global;
use std::snapshot::Snapshot;

impl<M: Machine> Post<M> {
    /// A post whose history is empty, and a pass for each caller, in order of their numbers. Callers
    /// count from 0. The number is the one that the post's gate points carry.
    ///
    /// Fails for want of memory alone.
    pub fn new(
        alloc: Global,
        machine: M,
        start: M::State,
        callers: u32,
        number: u32,
    ) -> Result<(Post<M>, Row<Pass<M>>), OutOfMemory>
        requires callers { 0 < callers }
        requires start { M.fit machine start }
        ensures post { IfOk result (λ r. (r.0.machine ≡ machine) × (start_of r.0 ≡ start) × (callers_of r.0 ≡ callers) × (r.0.number ≡ number)) }
        ensures passes { IfOk result (λ r. (length r.1 ≡ callers) × AreDealt r.0 r.1) }
    {
        let (post, mut place) = Post::open(alloc, machine, start, callers, number)?;
        let passes = post.deal(alloc, &mut place, callers);
        drop(place);
        let passes = passes?;
        Ok((post, passes))
    }

    // The post, and the place of all its callers.
    fn open(
        alloc: Global,
        machine: M,
        start: M::State,
        callers: u32,
        number: u32,
    ) -> Result<(Post<M>, Place<M>), OutOfMemory>
        requires { (0 < callers) × M.fit machine start }
        ensures post { IfOk result (λ r. (r.0.machine ≡ machine) × (start_of r.0 ≡ start) × (callers_of r.0 ≡ callers) × (r.0.number ≡ number)) }
        ensures place { IfOk result (λ r. (r.1.table_id ≡ r.0.lock.shared.table_id) × (r.1.me ≡ (everyone machine start callers, []))) }
    {
        let about = About {
            machine,
            start,
            callers,
        };
        let key = Snapshot::of(&about);
        let About {
            machine,
            start,
            callers: _,
        } = about;
        let mut slots = Vec::new(alloc);
        slots.push(Some(Body {
            state: start,
            history: Vec::new(alloc),
        }))?;
        match Table::new(alloc, &[0, 0], slots, &key) {
            Ok((lock, place)) => Ok((
                Post {
                    lock,
                    machine,
                    number,
                },
                place,
            )),
            Err(_) => Err(OutOfMemory),
        }
    }

    // A pass for each caller, whose place is cut off from the place of all.
    fn deal(
        &self,
        alloc: Global,
        place: &mut Place<M>,
        callers: u32,
    ) -> Result<Row<Pass<M>>, OutOfMemory>
        requires { (place.old.table_id ≡ self.now.lock.shared.table_id) × (place.old.me ≡ (everyone self.now.machine (start_of self.now) callers, [])) }
        ensures { IfOk result (λ r. (length r ≡ callers) × AreDealt self.now r) }
    {
        let mut passes = Row::new(alloc);
        for caller in 0..callers {
            let place = self.lock.shared.split_seat::<Deal>(place);
            passes.push(Pass { place, caller })?;
        }
        Ok(passes)
    }
}
