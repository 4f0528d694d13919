// Until when each of a list rests.
ghost use Rattle.std.specs.Prelude.{◌≡◌, ◌<◌, ◌≤◌, ◌+◌, ◌*◌, ◌/◌, length, replicate, slice_set, IfOk};
ghost use Rattle.down_recur.specs.Rests.{RestFrom, least_from, least_of as least_in_block, second_at};

use site_base::{Moment, OutOfMemory};
use std::alloc::Global;
use std::marker::Model;

/// How many seconds a block has, and how many blocks a part.
const BLOCK: usize = 32;

/// How many seconds a part has.
const PART: usize = 1_024;

/// Until which second each of a list rests, so that those that don't are found without a look at each. Clauses see these seconds.
#[derive(Drop)]
pub(crate) struct Rests {
    seconds: Vec<u64>,
    /// A second for each block that none of the block is below.
    blocks: Vec<u64>,
    /// The same for each part, which is a block of blocks.
    parts: Vec<u64>,
}

impl Model for Rests {
    ghost use Rattle.std.specs.Prelude.{ℕ, List};
    ghost use Rattle.down_recur.specs.Rests.{AreRests};

    ghost Value = { List ℕ };

    ghost view = { λ r. r.seconds.items };

    ghost invariant = { λ r. AreRests r.seconds.items r.blocks.items r.parts.items };
}

impl Rests {
    /// For so many, of which none rests.
    ///
    /// # Errors
    ///
    /// `OutOfMemory` if there is none for them.
    pub(crate) fn awake(alloc: Global, count: usize) -> Result<Rests, OutOfMemory>
        ensures { IfOk result (λ r. r ≡ replicate count 0) }
    {
        Ok(Rests {
            seconds: vec![in alloc; 0; count]?,
            blocks: vec![in alloc; 0; count / BLOCK + 1]?,
            parts: vec![in alloc; 0; count / PART + 1]?,
        })
    }

    /// The first from a place on that doesn't rest at a moment; how many there are if each of them does.
    pub(crate) fn first(&self, from: usize, moment: Moment) -> usize
        requires { from ≤ length self.now }
        ensures from { from ≤ result }
        ensures within { result ≤ length self.now }
        ensures rest { RestFrom moment from result self.now }
        ensures awake { result < length self.now → second_at self.now result ≤ moment }
    {
        let mut place = from;
        while place < self.seconds.len() {
            let many = self.resting(place, moment);
            if many == 0 {
                return place;
            }
            place += many;
        }
        self.seconds.len()
    }

    /// How many from a place on rest at a moment, as one look shows: a part or a block that begins there, or the one at the place.
    fn resting(&self, place: usize, moment: Moment) -> usize
        requires { place < length self.now }
        ensures rest { RestFrom moment place (place + result) self.now }
        ensures awake { result ≡ 0 → second_at self.now place ≤ moment }
        ensures few { result ≤ 1_024 }
    {
        let now = moment.secs();
        if place % PART == 0 && now < self.parts[place / PART] {
            PART
        } else if place % BLOCK == 0 && now < self.blocks[place / BLOCK] {
            BLOCK
        } else if now < self.seconds[place] {
            1
        } else {
            0
        }
    }

    /// Has the one at a place rest until a second.
    pub(crate) fn set(&mut self, place: usize, second: u64)
        requires { place < length self.old }
        ensures { self.new ≡ slice_set self.old place second }
    {
        if self.seconds[place] == second {
            return;
        }
        self.seconds[place] = second;
        renew(&mut self.blocks, &self.seconds, place / BLOCK);
        renew(&mut self.parts, &self.blocks, place / PART);
    }
}

/// Has the second of a block be the least one in it.
fn renew(blocks: &mut Vec<u64>, seconds: &[u64], block: usize)
    requires block { block < length blocks.old.items }
    requires begins { block * 32 ≤ length seconds.now }
    ensures { blocks.new.items ≡ slice_set blocks.old.items block (least_in_block block seconds.now) }
{
    let start = block * BLOCK;
    let end = seconds.len().min(start + BLOCK);
    blocks[block] = least_of(&seconds[start..end]);
}

/// The least of these seconds.
fn least_of(seconds: &[u64]) -> u64
    ensures { result ≡ least_from 18_446_744_073_709_551_615 seconds.now }
{
    let mut least = u64::MAX;
    for second in seconds {
        least = least.min(*second);
    }
    least
}
