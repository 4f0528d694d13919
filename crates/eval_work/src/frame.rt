// Frames.
ghost use Rattle.std.specs.Prelude.{◌≡◌, IfOk, []};
ghost use Rattle.eval_meaning.specs.Frames.{entered, ended as ended_with, set_local as local_set};
ghost use Rattle.eval_meaning.specs.States.{done};
ghost use Rattle.eval_work.specs.Works.{state_of, Gives};
ghost use Rattle.eval_work.specs.Kept.{Named, PairsNamed, IsFit, IsStill, FlowNamed};

use crate::work::fault;
use crate::{Locals, Stop, Work};
use dsl_value::{PairsLeft, Value};
use eval_meaning::Flow;
use site_base::{DiagKind, Text};
use std::mem;

/// A frame that is left for a while.
#[derive(Drop)]
pub struct Frame {
    pub this: Value,
    pub locals: Locals,
    pub in_file: bool,
}

impl Work {
    /// Enters a frame, and gives the one that was there before.
    pub fn enter(&mut self, this: Value, locals: Locals, in_file: bool) -> Frame
        requires fit { IsFit self.old }
        requires this { Named self.old.store this }
        requires locals { PairsNamed self.old.store locals }
        ensures frame { result ≡ record { this = self.old.this; locals = self.old.locals; in_file = self.old.in_file } }
        ensures work { self.new ≡ record self.old { this = this; locals = locals; in_file = in_file } }
    {
        let this = mem::replace(&mut self.this, this);
        let locals = mem::replace(&mut self.locals, locals);
        let in_file = mem::replace(&mut self.in_file, in_file);
        Frame {
            this,
            locals,
            in_file,
        }
    }

    /// Leaves a frame for the one that was there before.
    pub fn leave(&mut self, before: Frame)
        ensures { self.new ≡ record self.old { this = before.this; locals = before.locals; in_file = before.in_file } }
    {
        self.this = before.this;
        self.locals = before.locals;
        self.in_file = before.in_file;
    }

    /// What a frame ends with.
    pub fn ended(&self, flow: Flow) -> Result<Value, Stop>
        requires { FlowNamed self.now.store flow }
        ensures gives { Gives (λ v. v) result (state_of self.now) (ended_with flow (state_of self.now)) }
        ensures named { IfOk result (Named self.now.store) }
    {
        match flow {
            Flow::On => Ok(Value::Null),
            Flow::Returned(value) => Ok(value),
            Flow::Broken(place) => Err(fault(self.alloc, place, DiagKind::NotHere)),
            Flow::Continued(place) => Err(fault(self.alloc, place, DiagKind::NotHere)),
        }
    }

    /// Gives a local of the frame a value.
    pub fn set_local(&mut self, name: &Text, value: Value) -> Result<(), Stop>
        requires fit { IsFit self.old }
        requires value { Named self.old.store value }
        ensures gives { Gives (λ _. tt) result (state_of self.new) (done (local_set name.now value (state_of self.old))) }
        ensures kept { IfOk result (λ _. IsStill self.old self.new) }
        ensures store { self.new.store ≡ self.old.store }
    {
        self.locals.put(name, value)?;
        Ok(())
    }
}

ghost use Rattle.eval_meaning.specs.Frames.{first_locals as locals_first};
ghost use Rattle.dsl_value.specs.Whole.{Names, NamesAll};
ghost use Rattle.std.specs.Prelude.{ℕ};

/// The locals that a frame begins with.
pub fn first_locals(
    captured: &[(Text, Value)],
    others: &PairsLeft,
    empty: Locals,
) -> Result<Locals, Stop>
    requires { empty ≡ [] }
    ensures locals { IfOk result (λ l. l ≡ locals_first captured.now others.now) }
    ensures named { (cells functions : ℕ) → NamesAll cells functions captured.now → NamesAll cells functions others.now → IfOk result (λ l. NamesAll cells functions l) }
    ensures memory { Rattle.std.specs.Prelude.IfErr result (λ e. e ≡ Stop.Memory) }
{
    let mut locals = empty;
    locals.put_all(captured)?;
    locals.put_left(others)?;
    Ok(locals)
}
