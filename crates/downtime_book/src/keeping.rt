// How a list of downtimes is kept in order of when they end, each with what comes first from it on.
ghost use Rattle.std.specs.Prelude.{◌≡◌, ◌==◌, ◌≤◌, true, false, not, filter, map, drop, length, All, IsPermutation};
ghost use Rattle.downtime_book.specs.Downtime.{is_live, is_triggered_by, after_result};
ghost use Rattle.downtime_book.specs.Contents.{IsInOrder};
ghost use Rattle.downtime_book.specs.Firsts.{AreTold, downtimes_of};

use crate::firsts::Firsts;
use crate::placed::Placed;
use crate::rank::started;
use site_base::Moment;
use std::collections::VecDeque;

/// Gives room back where less than a quarter of it is used.
fn trim(placed: &mut VecDeque<Placed>)
    ensures { placed.new.items ≡ placed.old.items }
{
    let held = placed.len();
    if held < placed.capacity() / 4 {
        placed.shrink_to(2 * held);
    }
}

/// The place from which on they aren't past at this moment.
pub fn first_live(placed: &VecDeque<Placed>, moment: Moment) -> usize
    requires { IsInOrder (downtimes_of placed.now.items) }
    ensures bound { result ≤ length placed.now.items }
    ensures live { downtimes_of (drop result placed.now.items) ≡ filter (is_live moment) (downtimes_of placed.now.items) }
{
    placed.partition_point(|one| !one.downtime.is_live(moment))
}

/// Takes away what has this number.
pub fn remove(placed: &mut VecDeque<Placed>, number: u64)
    ensures kept { downtimes_of placed.new.items ≡ filter (λ d. not (d.number == number)) (downtimes_of placed.old.items) }
    ensures told { AreTold placed.new.items }
{
    placed.retain(|one| one.downtime.number != number);
    tell(placed.make_contiguous());
}

/// Drops what is past at this moment, and most of its room where little is left.
pub fn drop_past(placed: &mut VecDeque<Placed>, moment: Moment)
    requires { IsInOrder (downtimes_of placed.old.items) }
    ensures live { downtimes_of placed.new.items ≡ filter (is_live moment) (downtimes_of placed.old.items) }
    ensures told { AreTold placed.old.items → AreTold placed.new.items }
{
    let past = first_live(placed, moment);
    placed.drain(..past);
    trim(placed);
}

/// Tells each what comes first from it on.
pub fn tell(placed: &mut [Placed])
    ensures same { downtimes_of placed.new ≡ downtimes_of placed.old }
    ensures told { AreTold placed.new }
{
    let mut firsts = Firsts::none();
    let mut place = placed.len();
    while 0 < place {
        place -= 1;
        firsts = firsts.with(&placed[place].downtime);
        placed[place].firsts = firsts;
    }
}

/// Puts downtimes in order of when they end.
pub fn sort(placed: &mut [Placed])
    ensures same { IsPermutation (downtimes_of placed.old) (downtimes_of placed.new) }
    ensures ordered { IsInOrder (downtimes_of placed.new) }
    ensures told { AreTold placed.new }
{
    placed.sort_unstable_by_key(|one| one.downtime.until());
    tell(placed);
}

/// Whether a problem at this moment triggers one of those that are live at it.
pub fn waits(placed: &VecDeque<Placed>, moment: Moment) -> bool
    ensures { result ≡ false → AreTold placed.now.items → All (λ d. is_triggered_by moment d ≡ false) (downtimes_of placed.now.items) }
{
    match placed.front() {
        Some(first) => started(&first.firsts.waiting, moment).is_some(),
        None => false,
    }
}

/// Lets each downtime meet a problem.
pub fn meet_problem(placed: &mut VecDeque<Placed>, moment: Moment)
    ensures met { IsPermutation (map (after_result moment true) (downtimes_of placed.old.items)) (downtimes_of placed.new.items) }
    ensures ordered { IsInOrder (downtimes_of placed.new.items) }
    ensures told { AreTold placed.new.items }
{
    meet_problem_each(placed.make_contiguous(), moment);
}

// The same of a slice.
fn meet_problem_each(placed: &mut [Placed], moment: Moment)
    ensures met { IsPermutation (map (after_result moment true) (downtimes_of placed.old)) (downtimes_of placed.new) }
    ensures ordered { IsInOrder (downtimes_of placed.new) }
    ensures told { AreTold placed.new }
{
    trigger_all(placed, moment);
    sort(placed);
}

// Lets a problem trigger those that wait for one.
fn trigger_all(placed: &mut [Placed], moment: Moment)
    ensures { downtimes_of placed.new ≡ map (after_result moment true) (downtimes_of placed.old) }
{
    for one in placed.iter_mut() {
        one.downtime.meet_problem(moment);
    }
}
