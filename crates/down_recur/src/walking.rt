// All that waits.
ghost use Rattle.std.specs.Prelude.{◌≡◌, ◌++◌, map, OnErr, OnOk};
ghost use Rattle.std.specs.List.{flat_map};
ghost use Rattle.down_recur.specs.Turns.{HasBooks, after_in, lines_in};
ghost use Rattle.down_recur.specs.Waiting.{AreResting, AreWaiting, recurring_in};

use crate::rests::Rests;
use crate::turn::Turn;
use crate::waiting::Waiting;
use site_base::{Blob, Moment, OutOfMemory};
use std::alloc::Global;

/// Gives the lines of all that is due at a turn, in order. It looks at those that don't rest.
pub(crate) fn give_all(
    out: &mut Vec<Blob>,
    list: &mut Vec<Waiting>,
    rests: &mut Rests,
    turn: &Turn<'_>,
) -> Result<(), OutOfMemory>
    requires books { HasBooks turn.now }
    requires waiting { AreWaiting turn.now.zone.now list.old.items }
    requires resting { AreResting turn.now.moment rests.old list.old.items }
    ensures lines { OnOk result (out.new.items ≡ out.old.items ++ flat_map (lines_in turn.now) (map recurring_in list.old.items)) }
    ensures after { OnOk result (map recurring_in list.new.items ≡ map (after_in turn.now) (map recurring_in list.old.items)) }
    ensures waiting { AreWaiting turn.now.zone.now list.new.items }
    ensures resting { AreResting turn.now.moment rests.new list.new.items }
{
    let mut place = rests.first(0, turn.moment);
    while place < list.len() {
        // It is looked at again until it is known until when it rests.
        rests.set(place, 0);
        let waiting = &mut list[place];
        waiting.give(out, turn)?;
        rests.set(place, waiting.rests_until());
        place = rests.first(place + 1, turn.moment);
    }
    Ok(())
}

/// What was found to rest from a moment on rests from this one on too; if this one is earlier, none of it does.
///
/// # Errors
///
/// `OutOfMemory` if there is none to note that; all is as before then.
pub(crate) fn rest_from(
    alloc: Global,
    seen: Moment,
    moment: Moment,
    rests: &mut Rests,
    list: &[Waiting],
) -> Result<(), OutOfMemory>
    requires { AreResting seen rests.old list.now }
    ensures resting { OnOk result (AreResting moment rests.new list.now) }
    ensures same { OnErr result (rests.new ≡ rests.old) }
{
    if moment < seen {
        *rests = Rests::awake(alloc, list.len())?;
    }
    Ok(())
}
