// The run of the generated site.
ghost use Rattle.std.specs.Prelude.{◌≡◌, ◌<◌, ◌≤◌, ◌+◌, ◌-◌, ◌^◌, false, All, length, IfOk, OnOk, MatchOption};
ghost use Rattle.depend_graph.specs.Cycles.{IsOnCycle};
ghost use Rattle.site_model.specs.PlainSite.{PlainSite, site_view};
ghost use Rattle.site_model.specs.Sound.{IsSound};
ghost use Rattle.time_range.specs.Zone.{IsBadFile};
ghost use Rattle.site_gen.specs.Counts.{AreCounts};
ghost use Rattle.site_gen.specs.Going.{IsSoFar};

use crate::counts::Counts;
use crate::turns::turn_of;
use site_base::OutOfMemory;
use site_model::Site;
use std::alloc::Global;
use turn_engine::Engine;

/// What the six turns over so many hosts come to on a site. The site is one that an engine takes.
///
/// # Errors
///
/// `OutOfMemory` if there is none for the run.
pub fn count_run(alloc: Global, hosts: u32, site: Site) -> Result<Counts, OutOfMemory>
    requires sound { IsSound (site_view site) }
    requires few { length (site_view site).checkables < 2 ^ 32 - 1 }
    requires free { All (λ d. IsOnCycle (site_view site) d → ⊥) (site_view site).depends }
    requires zone { MatchOption (site_view site).zone (Unit {0}) (λ bytes. IsBadFile bytes → ⊥) }
    ensures { IfOk result (AreCounts hosts (site_view site)) }
{
    let mut counts = Counts {
        entries: 0,
        sent: 0,
        suppressed: 0,
        orders: 0,
    };
    let mut engine = Engine::new(alloc, site)?;
    for number in 1..7 {
        run_turn(alloc, hosts, number, &mut engine, &mut counts)?;
    }
    Ok(counts)
}

/// Takes the turn of this number, and counts what it gives.
fn run_turn(
    alloc: Global,
    hosts: u32,
    number: u64,
    engine: &mut Engine,
    counts: &mut Counts,
) -> Result<(), OutOfMemory>
    requires number { number ≤ 6 }
    requires fresh { engine.old.spent ≡ false }
    requires few { engine.old.run.turns < 2 ^ 40 }
    ensures { (s : PlainSite) → IsSoFar hosts s number engine.old counts.old → OnOk result (IsSoFar hosts s (number + 1) engine.new counts.new) }
{
    let turn = turn_of(alloc, hosts, number)?;
    let out = engine.turn_one(&turn)?;
    counts.add_turn(&out)?;
    Ok(())
}
