// What an evaluation works on.
ghost use Rattle.std.specs.Prelude.{◌≡◌, IfOk, []};
ghost use Rattle.eval_meaning.specs.States.{step as counted, charge as charged};
ghost use Rattle.eval_work.specs.Works.{state_of, Gives, IsFault};
ghost use Rattle.eval_work.specs.Kept.{IsFit, IsStill};

use crate::{Budget, Locals, Stop, Task};
use dsl_value::{Store, Value};
use eval_meaning::Read;
use site_base::{DiagKind, Place, Text};
use std::alloc::Global;

/// What an evaluation works on: the store, the frame with its `this`, its locals and whether it is a file's, what is left of the
/// budget, the reads so far, and the task.
#[derive(Drop)]
pub struct Work {
    pub alloc: Global,
    pub store: Store,
    pub this: Value,
    pub locals: Locals,
    pub in_file: bool,
    pub steps: u64,
    pub space: u64,
    /// How many statements and expressions may be open at once.
    pub depth: u32,
    pub reads: Vec<Read>,
    pub task: Task,
}

/// A fault without a detail.
pub fn fault(alloc: Global, place: Place, kind: DiagKind) -> Stop
    ensures { IsFault result place kind [] }
{
    Stop::Fault {
        place,
        kind,
        text: Text::new(alloc),
    }
}

impl Work {
    /// What is left of the budget.
    pub fn budget(&self) -> Budget
        ensures { result ≡ record { steps = self.now.steps; space = self.now.space; depth = self.now.depth } }
    {
        Budget {
            steps: self.steps,
            space: self.space,
            depth: self.depth,
        }
    }

    /// Counts a step.
    pub fn step(&mut self, place: Place) -> Result<(), Stop>
        requires { IsFit self.old }
        ensures gives { Gives (λ _. tt) result (state_of self.new) (counted place (state_of self.old)) }
        ensures kept { IfOk result (λ _. IsStill self.old self.new) }
        ensures store { self.new.store ≡ self.old.store }
    {
        if self.steps == 0 {
            return Err(fault(self.alloc, place, DiagKind::StepLimit));
        }
        self.steps -= 1;
        Ok(())
    }

    /// Charges so many units of space.
    pub fn charge(&mut self, place: Place, units: u64) -> Result<(), Stop>
        requires { IsFit self.old }
        ensures gives { Gives (λ _. tt) result (state_of self.new) (charged place units (state_of self.old)) }
        ensures kept { IfOk result (λ _. IsStill self.old self.new) }
        ensures store { self.new.store ≡ self.old.store }
    {
        if self.space < units {
            return Err(fault(self.alloc, place, DiagKind::SpaceLimit));
        }
        self.space -= units;
        Ok(())
    }
}
