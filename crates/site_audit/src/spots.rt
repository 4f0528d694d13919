// Where the entries of a block stand on tracks.
ghost use Rattle.std.specs.Prelude.{◌≡◌, ◌<◌, ◌++◌, ◌∷◌, ◌^◌, [], map, OnOk};
ghost use Rattle.site_audit.specs.Spots.{kind_of as kind_for, sight_spot, spots_of, track_at as track_for};

use crate::block::EntryLine;
use crate::telling::Said;
use crate::tracks::{Spot, TRACK};
use site_base::{OutOfMemory, Row};
use site_model::Sight;

/// How many kinds of events are told apart for each caller.
const KINDS: u128 = 1 << 66;

/// Adds the spots of an entry that says this: on the track of all, on that of its checkable, and on those of the checkables that it saw.
/// Its caller is one of 64.
pub(crate) fn add_spots(
    thing: usize,
    line: &EntryLine,
    said: &Said,
    spots: &mut Row<Spot>,
) -> Result<(), OutOfMemory>
    requires { line.now.entry.caller < 64 }
    ensures { OnOk result (spots.new ≡ spots.old ++ spots_of thing line.now said.now) }
{
    let caller = line.entry.caller;
    let kind = u128::from(caller) * KINDS + kind_of(line.checkable, said);
    spots.push(Spot { at: kind, thing })?;
    let own = track_at(caller, line.checkable) + u128::from(line.entry.number) * 2;
    spots.push(Spot { at: own, thing })?;
    add_sights(thing, caller, line.entry.sights.as_slice(), spots)
}

/// Among the events of a caller come lines, then reports of orders for which a macro is missing, by number, then other reports, and then ticks,
/// by checkable.
fn kind_of(checkable: u32, said: &Said) -> u128
    ensures value { result ≡ kind_for checkable said.now }
    ensures small { result < 2 ^ 66 }
{
    match said {
        Said::Line(_) => 0,
        Said::Lacking(order) => 1 + u128::from(*order),
        Said::Report(_) => (1 << 64) + 1,
        Said::Tick => (1 << 64) + 2 + u128::from(checkable),
    }
}

/// The track of a checkable of a caller.
fn track_at(caller: u32, checkable: u32) -> u128
    requires { caller < 64 }
    ensures value { result ≡ track_for caller checkable }
    ensures small { result < 2 ^ 120 }
{
    (1 + u128::from(caller) * (1 << 32) + u128::from(checkable)) * TRACK
}

fn add_sights(
    thing: usize,
    caller: u32,
    sights: &[Sight],
    spots: &mut Row<Spot>,
) -> Result<(), OutOfMemory>
    requires { caller < 64 }
    ensures { OnOk result (spots.new ≡ spots.old ++ map (sight_spot thing caller) sights.now) }
{
    for sight in sights {
        add_sight(thing, caller, *sight, spots)?;
    }
    Ok(())
}

fn add_sight(
    thing: usize,
    caller: u32,
    sight: Sight,
    spots: &mut Row<Spot>,
) -> Result<(), OutOfMemory>
    requires { caller < 64 }
    ensures { OnOk result (spots.new ≡ spots.old ++ sight_spot thing caller sight ∷ []) }
{
    let at = track_at(caller, sight.checkable) + u128::from(sight.count) * 2 + 1;
    spots.push(Spot { at, thing })
}
