// The world, and whether as many checks as may be have been outstanding for long.
ghost use Rattle.std.specs.Prelude.{◌≡◌};

use crate::said::say;
use site_base::Moment;
use site_edge::{Order, Turn, World, WorldError};
use std::cell::Cell;

/// For so many seconds all checks that may be outstanding have been so, before that is told.
const LONG: u64 = 300;

/// A world of which it is told on standard error if as many checks as `MaxConcurrentChecks` have been outstanding for five minutes, and
/// when that is over.
#[derive(Drop)]
pub(crate) struct Watched<'a, W: World + Drop> {
    rt: &'a HostRuntime,
    world: W,
    /// How many may be outstanding; 0 until there is a site.
    limit: &'a Cell<u32>,
    outstanding: u64,
    /// The moment of the last turn.
    now: Moment,
    /// Since when there are as many as may be.
    full: Option<Moment>,
    told: bool,
}

impl<'a, W: World + Drop> Watched<'a, W> {
    pub(crate) fn new(rt: &'a HostRuntime, world: W, limit: &'a Cell<u32>) -> Watched<'a, W> {
        Watched {
            rt,
            world,
            limit,
            outstanding: 0,
            now: Moment::of(0).unwrap(),
            full: None,
            told: false,
        }
    }

    /// Looks at what is outstanding once a turn's checks were started.
    fn look(&mut self)
        ensures { self.new.world ≡ self.old.world }
    {
        let limit = self.limit.get();
        if limit == 0 || self.outstanding < u64::from(limit) {
            self.tell_room();
            return;
        }
        let Some(since) = self.full else {
            self.full = Some(self.now);
            return;
        };
        if self.now >= since.later(LONG) {
            self.tell_full(limit);
        }
    }

    fn tell_full(&mut self, limit: u32)
        ensures { self.new.world ≡ self.old.world }
    {
        if !self.told {
            say(
                self.rt,
                "for five minutes as many checks have been outstanding as MaxConcurrentChecks allows: ",
                limit,
                "; others wait",
            );
        }
        self.told = true;
    }

    fn tell_room(&mut self)
        ensures { self.new.world ≡ self.old.world }
    {
        if self.told {
            say(
                self.rt,
                "fewer checks are outstanding than MaxConcurrentChecks allows",
                "",
                "",
            );
        }
        self.full = None;
        self.told = false;
    }

    /// Keeps what a turn says.
    fn note(&mut self, turn: &Turn)
        ensures { self.new.world ≡ self.old.world }
    {
        self.now = turn.moment;
        self.outstanding = self.outstanding.saturating_sub(turn.reports.len() as u64);
    }
}

impl<W: World + Drop> World for Watched<'_, W> {
    ghost turns = { λ w. W.turns w.world };

    ghost started = { λ w. W.started w.world };

    ghost calls = { λ w. W.calls w.world };

    ghost faults = { λ w. W.faults w.world };

    ghost calm = { λ w. W.calm w.world };

    fn next(&mut self) -> Result<Option<Turn>, WorldError> {
        self.look();
        let turn = self.world.next();
        if let Ok(Some(turn)) = &turn {
            self.note(turn);
        }
        turn
    }

    fn start(&mut self, orders: &[Order]) -> Result<(), WorldError> {
        self.outstanding = self.outstanding.saturating_add(orders.len() as u64);
        self.world.start(orders)
    }
}
