//! Reads rows from standard input as the real world gives them, runs the program of each, and writes each with what
//! its report tells.
//!
//! The head of the file `stdin` says what a row is. Empty lines and those that begin with `#` are written as they
//! are, so that line N of the output is of line N of the input.
#![tactic(auto)]

mod runs;

use live_world::LiveWorld;
use runs::Runs;
use site_edge::World;

fn main(rt: HostRuntime) -> anyhow::Result<()> {
    let mut world = LiveWorld::new(rt.clone()?, rt.clone()?)?;
    let mut runs = Runs::new(rt.alloc());
    for _ in 0..u64::MAX {
        let Some(turn) = world.next()? else {
            break;
        };
        let orders = runs.take(turn)?;
        world.start(orders.as_slice())?;
    }
    runs.write(&rt)
}
