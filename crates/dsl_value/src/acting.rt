// What calls do to a store.
ghost use Rattle.std.specs.Prelude.{◌≡◌, ◌<◌, ◌≤◌, length, IfOk, IfSome, IfNone, OnOk, OnErr};
ghost use Rattle.dsl_value.specs.Changes.{change_units};
ghost use Rattle.dsl_value.specs.Grows.{Grows};
ghost use Rattle.dsl_value.specs.Outcomes.{act_value, act_store, act_units, StandsAct};
ghost use Rattle.dsl_value.specs.Whole.{Names};

use crate::making::units_with;
use crate::{Change, Made, Store, Value};
use site_base::OutOfMemory;

/// What a call comes to, before it is done to a store.
#[derive(Drop)]
pub enum Act<'a> {
    Make(Made),
    /// A change of a cell.
    Write(u32, Change<'a>),
}

impl Act<'_> {
    /// The units that it costs, if these are so many at most; else `None`.
    pub fn units_within(&self, most: u64) -> Option<u64>
        ensures within { IfSome result (λ n. (n ≡ act_units self.now) × (n ≤ most)) }
        ensures over { IfNone result (most < act_units self.now) }
    {
        match self {
            Act::Make(made) => made.units_within(most),
            Act::Write(_, change) => units_with(0, units_put(change), most),
        }
    }

    /// The value, which is null if a cell is changed.
    #[tactic(auto, using(crate::proofs::Growing::grows_one))]
    pub fn put_in(self, store: &mut Store) -> Result<Value, OutOfMemory>
        requires stands { StandsAct store.old self }
        ensures value { IfOk result (λ v. v ≡ act_value (length store.old.cells) self.entry) }
        ensures names { IfOk result (Names (length store.new.cells) (length store.new.functions)) }
        ensures ok { OnOk result (store.new ≡ act_store store.old self.entry) }
        ensures grows { OnOk result (Grows 1 store.old store.new) }
        ensures err { OnErr result (store.new ≡ store.old) }
    {
        match self {
            Act::Make(made) => made.put_in(store),
            Act::Write(cell, change) => match store.change(cell, change) {
                Ok(()) => Ok(Value::Null),
                Err(_) => Err(OutOfMemory),
            },
        }
    }
}

/// How many values a change puts in.
fn units_put(change: &Change) -> usize
    ensures { result ≡ change_units change.now }
{
    match change {
        Change::Put(_, _) | Change::Push(_) | Change::Set(_, _) => 1,
        Change::Remove(_) => 0,
    }
}
