// Who takes the events of a turn.
ghost use Rattle.std.specs.Prelude.{◌≡◌, ◌<◌, ◌^◌, ℕ, List, false, IfOk, OnOk};
ghost use Rattle.run_meaning.specs.Runs.{TurnLog};
ghost use Rattle.run_meaning.specs.Turns.{Begun};
ghost use Rattle.run_text.specs.LogText.{turn_lines};
ghost use Rattle.site_model.specs.PlainSite.{site_view};
ghost use Rattle.site_model.specs.Sound.{IsSound};
ghost use Rattle.turn_engine.specs.Stages.{Tells, TellsTurn, basis_of_run, stage_from, stage_of, turn_as_read};
ghost use Rattle.engine_log.specs.OnSite.{IsTurnOf};
ghost use Rattle.site_run.specs.Callers.{AreCallers};
ghost use Rattle.site_text.specs.ScriptReading.{Tells as TellsScript};
ghost use Rattle.site_text.specs.Scripts.{Has};

use engine_log::turn_lines;
use run_text::Style;
use site_base::{OutOfMemory, Row, Texts};
use site_edge::Turn;
use site_model::Site;
use site_text::{ScriptError, read_script};
use std::alloc::Global;
use turn_engine::{Engine, TurnOut};

/// Who takes the events of a turn: so many callers at once, to which they are dealt.
pub trait Workers {
    /// How many callers they are.
    ghost callers: { Self → ℕ };

    /// What has to hold so that they take turns as `turn` says.
    ghost apt: { Self → Type 0 };

    /// How many callers they are.
    fn count(&self) -> u32
        ensures { result ≡ callers self.now };

    /// The turns of a script, as [`read_script`] reads them.
    ///
    /// # Errors
    ///
    /// As of [`read_script`].
    fn read(&self, alloc: Global, bytes: &[u8]) -> Result<Row<Turn>, ScriptError>
        requires callers { AreCallers (callers self.now) }
        requires apt { apt self.now }
        ensures { TellsScript (Has bytes.now) result };

    /// Takes a turn of an engine. They are 1 to 64 callers, the engine isn't spent, and fewer than 2^40 turns were taken of it.
    ///
    /// # Errors
    ///
    /// `OutOfMemory` if there is too little memory for what the turn gives. The engine may be spent then.
    fn turn(&self, engine: &mut Engine, turn: &Turn) -> Result<TurnOut, OutOfMemory>
        requires callers { AreCallers (callers self.now) }
        requires apt { apt self.now }
        requires fresh { engine.old.spent ≡ false }
        requires few { engine.old.run.turns < 2 ^ 40 }
        ensures turn { (begun : List Begun) →
            IfOk result (λ out. TellsTurn (basis_of_run engine.old.run) (callers self.now) (stage_of engine.old.run begun) (turn_as_read engine.old.run turn.now) out (stage_from engine.old.run begun engine.new.run)) }
        ensures site { OnOk result (engine.new.run.site ≡ engine.old.run.site) }
        ensures zone { OnOk result (engine.new.run.zone ≡ engine.old.run.zone) }
        ensures fresh { OnOk result (engine.new.spent ≡ false) };

    /// The lines that tell a turn over a site, as [`turn_lines`] gives them.
    ///
    /// # Errors
    ///
    /// `OutOfMemory` if there is too little memory for a line.
    fn tell(
        &self,
        alloc: Global,
        style: Style,
        site: &Site,
        turn: &TurnOut,
    ) -> Result<Texts, OutOfMemory>
        requires callers { AreCallers (callers self.now) }
        requires apt { apt self.now }
        requires sound { IsSound (site_view site.now) }
        requires turn { IsTurnOf (site_view site.now) turn.now }
        ensures { (l : TurnLog) → Tells turn.now l → IfOk result (λ lines. lines ≡ turn_lines style (site_view site.now) l) };
}

/// One caller, that of the run itself: no thread is made.
#[derive(Clone, Copy)]
pub struct OneWorker;

impl Workers for OneWorker {
    ghost callers = { λ _. 1 };

    ghost apt = { λ _. Unit {0} };

    fn count(&self) -> u32 {
        1
    }

    fn read(&self, alloc: Global, bytes: &[u8]) -> Result<Row<Turn>, ScriptError> {
        read_script(alloc, bytes)
    }

    fn turn(&self, engine: &mut Engine, turn: &Turn) -> Result<TurnOut, OutOfMemory> {
        engine.turn_one(turn)
    }

    fn tell(
        &self,
        alloc: Global,
        style: Style,
        site: &Site,
        turn: &TurnOut,
    ) -> Result<Texts, OutOfMemory> {
        turn_lines(alloc, style, site, turn)
    }
}
