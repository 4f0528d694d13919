// Several workers.
ghost use Rattle.std.specs.Prelude.{◌≡◌, ◌<◌, ◌^◌, List, false, IfOk, OnOk};
ghost use Rattle.run_meaning.specs.Runs.{TurnLog};
ghost use Rattle.run_meaning.specs.Turns.{Begun};
ghost use Rattle.run_text.specs.LogText.{turn_lines};
ghost use Rattle.site_model.specs.PlainSite.{site_view};
ghost use Rattle.site_model.specs.Sound.{IsSound};
ghost use Rattle.turn_engine.specs.Stages.{Tells, TellsTurn, basis_of_run, stage_from, stage_of, turn_as_read};
ghost use Rattle.engine_log.specs.OnSite.{IsTurnOf};
ghost use Rattle.site_run.specs.Callers.{AreCallers};
ghost use Rattle.site_text.specs.ScriptReading.{Tells as TellsScript};
ghost use Rattle.site_text.specs.Scripts.{Has};

use crate::workers::Workers;
use run_text::Style;
use site_base::{OutOfMemory, Row, Texts};
use site_edge::Turn;
use site_model::Site;
use site_text::ScriptError;
use std::alloc::Global;
use turn_engine::{Engine, TurnOut};

/// So many callers at once, each in a thread of its own if several have something to do. One closure reads a script for
/// them, one takes each turn, and one makes its lines: they have what threads are made and waited for by.
#[derive(Drop)]
pub struct ManyWorkers<D, T, L> {
    pub count: u32,
    pub read: D,
    pub take: T,
    pub tell: L,
}

impl<
    D: Fn(Global, &[u8]) -> Result<Row<Turn>, ScriptError>,
    T: Fn(&mut Engine, &Turn) -> Result<TurnOut, OutOfMemory>,
    L: Fn(Global, Style, &Site, &TurnOut) -> Result<Texts, OutOfMemory>,
> Workers for ManyWorkers<D, T, L> {
    ghost callers = { λ w. w.count };

    ghost apt = { λ w. ((engine : _) (turn : _) → engine.now.spent ≡ false → engine.now.run.turns < 2 ^ 40 → T.pre w.take engine turn) ×
        ((engine : _) (turn : _) (out : _) (left : _) → T.post w.take engine turn out left →
        ((begun : List Begun) → IfOk out (λ o. TellsTurn (basis_of_run engine.now.run) w.count (stage_of engine.now.run begun) (turn_as_read engine.now.run turn.now) o (stage_from engine.now.run begun left.now.run))) ×
        OnOk out (left.now.run.site ≡ engine.now.run.site) × OnOk out (left.now.run.zone ≡ engine.now.run.zone) × OnOk out (left.now.spent ≡ false)) ×
        ((alloc : _) (style : _) (site : _) (turn : _) → IsSound (site_view site.now) → IsTurnOf (site_view site.now) turn.now → L.pre w.tell alloc style site turn) ×
        ((alloc : _) (style : _) (site : _) (turn : _) (out : _) → L.post w.tell alloc style site turn out →
        (l : TurnLog) → Tells turn.now l → IfOk out (λ lines. lines ≡ turn_lines style (site_view site.now) l)) ×
        ((alloc : _) (bytes : _) → D.pre w.read alloc bytes) ×
        ((alloc : _) (bytes : _) (out : _) → D.post w.read alloc bytes out → TellsScript (Has bytes.now) out) };

    fn count(&self) -> u32 {
        self.count
    }

    fn read(&self, alloc: Global, bytes: &[u8]) -> Result<Row<Turn>, ScriptError> {
        (self.read)(alloc, bytes)
    }

    fn turn(&self, engine: &mut Engine, turn: &Turn) -> Result<TurnOut, OutOfMemory> {
        (self.take)(engine, turn)
    }

    fn tell(
        &self,
        alloc: Global,
        style: Style,
        site: &Site,
        turn: &TurnOut,
    ) -> Result<Texts, OutOfMemory> {
        (self.tell)(alloc, style, site, turn)
    }
}
