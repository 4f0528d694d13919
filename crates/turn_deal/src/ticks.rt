// What lasting problems give.
ghost use Rattle.std.specs.Prelude.{◌≡◌, ◌++◌, map, OnOk};
ghost use Rattle.site_posts.specs.Made.{asked_of};
ghost use Rattle.turn_deal.specs.Dealt.{tick_of};

use site_base::OutOfMemory;
use site_model::Event;
use site_posts::Act;

/// Adds a tick of each of these checkables.
pub(crate) fn add_ticks(late: &[u32], acts: &mut Vec<Act>) -> Result<(), OutOfMemory>
    ensures { OnOk result (map asked_of acts.new.items ≡ map asked_of acts.old.items ++ map tick_of late.now) }
{
    for checkable in late {
        acts.push(Act {
            checkable: *checkable,
            event: Event::Tick,
        })?;
    }
    Ok(())
}
