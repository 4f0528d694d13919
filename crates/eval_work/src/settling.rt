// Members, operators and calls of the library, with what they cost.
ghost use Rattle.std.specs.Prelude.{◌≡◌, IfOk, IfErr, []};
ghost use Rattle.dsl_ops.specs.Table.{unary_outcome};
ghost use Rattle.eval_meaning.specs.Members.{part_value};
ghost use Rattle.eval_meaning.specs.Operators.{operated, op_kind, holds as holds_true};
ghost use Rattle.eval_meaning.specs.Library.{call_plain as plain_called};
ghost use Rattle.eval_meaning.specs.Settled.{settled};
ghost use Rattle.eval_meaning.specs.Visits.{elements as elements_of};
ghost use Rattle.eval_work.specs.Stops.{IsOpStop, IsLibStop, IsMemberStop};
ghost use Rattle.eval_work.specs.Works.{state_of, Gives};
ghost use Rattle.eval_work.specs.Kept.{Named, NamedAll, IsFit, IsKept};

use crate::work::fault;
use crate::{Stop, Work};
use dsl_lib::{LibFault, Plain, call_within};
use dsl_ops::{MemberFault, OpFault, binary_within, member, truth, unary};
use dsl_syntax::{BinOp, UnOp};
use dsl_value::{Cell, Priced, Refusal, Value};
use site_base::{DiagKind, Place};
use std::alloc::Global;

impl Work {
    /// What a value has at a key.
    #[tactic(auto, unfolding(eval_meaning::specs::Members::part_value))]
    pub fn part(&self, place: Place, value: &Value, key: &Value) -> Result<Value, Stop>
        requires value { Named self.now.store value.now }
        ensures gives { Gives (λ v. v) result (state_of self.now) (part_value place value.now key.now (state_of self.now)) }
        ensures named { IfOk result (Named self.now.store) }
    {
        match member(value, key, &self.store) {
            Ok(value) => Ok(value),
            Err(why) => Err(member_stop(self.alloc, place, why)),
        }
    }

    /// Whether a value counts as true.
    pub fn holds(&self, value: &Value) -> bool
        requires { Named self.now.store value.now }
        ensures { result ≡ holds_true (state_of self.now) value.now }
    {
        truth(value, &self.store)
    }

    /// What an operator gives of its operand.
    pub fn unary(&self, place: Place, op: UnOp, value: &Value) -> Result<Value, Stop>
        requires { Named self.now.store value.now }
        ensures gives { Gives (λ v. v) result (state_of self.now) (settled op_kind place 0 (unary_outcome self.now.store.cells op value.now) (state_of self.now)) }
        ensures named { IfOk result (Named self.now.store) }
    {
        match unary(op, value, &self.store) {
            Ok(value) => Ok(value),
            Err(why) => Err(op_stop(self.alloc, place, why)),
        }
    }

    /// What an operator gives of its operands. What it makes is charged.
    #[tactic(auto, unfolding(eval_meaning::specs::Operators::operated))]
    pub fn binary(
        &mut self,
        place: Place,
        op: BinOp,
        left: &Value,
        right: &Value,
    ) -> Result<Value, Stop>
        requires fit { IsFit self.old }
        requires left { Named self.old.store left.now }
        requires right { Named self.old.store right.now }
        ensures gives { Gives (λ v. v) result (state_of self.new) (operated place op left.now right.now (state_of self.old)) }
        ensures kept { IfOk result (IsKept self.old self.new) }
    {
        match binary_within(self.alloc, op, left, right, self.space, &mut self.store) {
            Ok(Priced { value, units }) => {
                self.space -= units;
                Ok(value)
            }
            Err(Refusal::Fault(why)) => Err(op_stop(self.alloc, place, why)),
            Err(Refusal::SpaceLimit) => Err(fault(self.alloc, place, DiagKind::SpaceLimit)),
        }
    }

    /// Calls a function or a method of the library that calls no function. What it makes or writes is charged.
    #[tactic(auto, unfolding(eval_meaning::specs::Library::call_plain))]
    pub fn call_plain(&mut self, place: Place, call: Plain, args: &[Value]) -> Result<Value, Stop>
        requires fit { IsFit self.old }
        requires args { NamedAll self.old.store args.now }
        ensures gives { Gives (λ v. v) result (state_of self.new) (plain_called place call args.now (state_of self.old)) }
        ensures kept { IfOk result (IsKept self.old self.new) }
    {
        match call_within(self.alloc, call, args, self.space, &mut self.store) {
            Ok(Priced { value, units }) => {
                self.space -= units;
                Ok(value)
            }
            Err(Refusal::Fault(why)) => Err(lib_stop(self.alloc, place, why)),
            Err(Refusal::SpaceLimit) => Err(fault(self.alloc, place, DiagKind::SpaceLimit)),
        }
    }

    /// A copy of the elements of an array.
    pub fn elements(&self, value: &Value) -> Result<Vec<Value>, Stop>
        requires { Named self.now.store value.now }
        ensures value { IfOk result (λ v. v.items ≡ elements_of self.now.store.cells value.now) }
        ensures named { IfOk result (λ v. NamedAll self.now.store v.items) }
        ensures memory { IfErr result (λ e. e ≡ Stop.Memory) }
    {
        match value {
            Value::Ref(cell) => match self.store.cell(*cell) {
                Cell::Array(items) => Ok(items.clone()?),
                Cell::Dict(_) => Ok(Vec::new(self.alloc)),
            },
            _ => Ok(Vec::new(self.alloc)),
        }
    }
}

/// An operator's fault at a place.
pub(crate) fn op_stop(alloc: Global, place: Place, why: OpFault) -> Stop
    ensures { IsOpStop result place why }
{
    match why {
        OpFault::WrongType => fault(alloc, place, DiagKind::WrongType),
        OpFault::Overflow => fault(alloc, place, DiagKind::Overflow),
        OpFault::DivZero => fault(alloc, place, DiagKind::DivZero),
        OpFault::OutOfMemory => Stop::Memory,
    }
}

/// A fault of the library at a place.
pub(crate) fn lib_stop(alloc: Global, place: Place, why: LibFault) -> Stop
    ensures { IsLibStop result place why }
{
    match why {
        LibFault::Arity => fault(alloc, place, DiagKind::Arity),
        LibFault::WrongType => fault(alloc, place, DiagKind::WrongType),
        LibFault::Overflow => fault(alloc, place, DiagKind::Overflow),
        LibFault::Frozen => fault(alloc, place, DiagKind::FrozenWrite),
        LibFault::OutOfMemory => Stop::Memory,
    }
}

/// Why a member isn't read or written, at a place.
pub fn member_stop(alloc: Global, place: Place, why: MemberFault) -> Stop
    ensures { IsMemberStop result place why }
{
    match why {
        MemberFault::WrongType => fault(alloc, place, DiagKind::WrongType),
        MemberFault::Frozen => fault(alloc, place, DiagKind::FrozenWrite),
        MemberFault::OutOfMemory => Stop::Memory,
    }
}
