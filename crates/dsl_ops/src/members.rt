// Members and indexes.
ghost use Rattle.std.specs.Prelude.{◌≡◌, ◌<◌, ◌≤◌, ℕ, length, IfOk, OnOk, OnErr, MatchResult, Some};
ghost use Rattle.dsl_value.specs.Changes.{changed, FitsCell, NamesIn};
ghost use Rattle.dsl_value.specs.Contents.{plain, cell_at};
ghost use Rattle.dsl_value.specs.Grows.{Grows};
ghost use Rattle.dsl_value.specs.Outcomes.{Answered, after, made_units};
ghost use Rattle.dsl_value.specs.Whole.{Names};
ghost use Rattle.dsl_ops.specs.Members.{element as element_of, member_in, member_outcome, or_wrong, place_in, with_member, set_outcome, MemberRefused, Returns, IsWrong};
ghost use Rattle.dsl_ops.specs.Table.{whole_part};

use crate::MemberFault;
use crate::bits::part_of;
use dsl_value::{Cell, Change, Priced, Refusal, Store, Value};
use site_base::Num;

/// What a value has at a key, which is a member's name or an index (Icinga 2 documentation, Language Reference,
/// Indexer). A dictionary has the key's value or null, an array the element of a whole number or null out of
/// range, and null has null at each key. All else is `WrongType`.
pub fn member(value: &Value, key: &Value, store: &Store) -> Result<Value, MemberFault>
    requires { Names (length store.now.cells) (length store.now.functions) value.now }
    ensures value { Returns result (member_outcome store.now.cells value.now key.now) }
    ensures names { IfOk result (Names (length store.now.cells) (length store.now.functions)) }
{
    match value {
        Value::Null => Ok(Value::Null),
        Value::Ref(cell) => member_of_cell(*cell, key, store),
        _ => Err(MemberFault::WrongType),
    }
}

fn member_of_cell(cell: u32, key: &Value, store: &Store) -> Result<Value, MemberFault>
    requires { cell < length store.now.cells }
    ensures value { Returns result (or_wrong (member_in (cell_at store.now.cells cell) key.now)) }
    ensures names { IfOk result (Names (length store.now.cells) (length store.now.functions)) }
{
    match (store.cell(cell), key) {
        (Cell::Dict(_), Value::Str(name)) => match store.get(cell, name.as_str()) {
            Some(value) => Ok(value.clone()?),
            None => Ok(Value::Null),
        },
        (Cell::Array(items), Value::Number(index)) => match part_of(index.thousandths()) {
            Some(index) => element(items, index),
            None => Err(MemberFault::WrongType),
        },
        _ => Err(MemberFault::WrongType),
    }
}

/// The element of an index, or null out of range.
fn element(items: &[Value], index: i64) -> Result<Value, MemberFault>
    ensures { MatchResult result (λ v. v ≡ element_of items.now index) (λ e. e ≡ MemberFault.OutOfMemory) }
{
    let Ok(index) = usize::try_from(index) else {
        return Ok(Value::Null);
    };
    match items.get(index) {
        Some(item) => Ok(item.clone()?),
        None => Ok(Value::Null),
    }
}

/// Writes a value at a key, which costs one unit. A dictionary takes a string, and an array an index below its length.
/// All else is `WrongType`, null too; then comes `Frozen`, exactly if the cell is frozen, and then
/// `SpaceLimit`, where no unit is left. After each of these the store is as it was.
#[tactic(auto, using(crate::proofs::Written::is_written, crate::proofs::Written::is_frozen, crate::proofs::Written::is_wrong))]
pub fn set_member(
    value: &Value,
    key: &Value,
    new: Value,
    units: u64,
    store: &mut Store,
) -> Result<Priced, Refusal<MemberFault>>
    requires value { Names (length store.old.cells) (length store.old.functions) value.now }
    requires new { Names (length store.old.cells) (length store.old.functions) new }
    ensures answer { Answered MemberRefused units (length store.old.cells) (set_outcome store.old value.now key.now new) (made_units (set_outcome store.old value.now key.now new)) result }
    ensures ok { OnOk result (store.new ≡ after store.old (set_outcome store.old value.now key.now new)) }
    ensures grows { OnOk result (Grows 0 store.old store.new) }
    ensures err { OnErr result (store.new ≡ store.old) }
{
    let Value::Ref(cell) = value else {
        return Err(Refusal::Fault(MemberFault::WrongType));
    };
    let change = match change_of(store.cell(*cell), key, new) {
        Ok(change) => change,
        Err(fault) => return Err(Refusal::Fault(fault)),
    };
    if store.base() > *cell {
        return Err(Refusal::Fault(MemberFault::Frozen));
    }
    if units == 0 {
        return Err(Refusal::SpaceLimit);
    }
    match store.change(*cell, change) {
        Ok(()) => Ok(Priced {
            value: Value::Null,
            units: 1,
        }),
        Err(_) => Err(Refusal::Fault(MemberFault::OutOfMemory)),
    }
}

/// What writes a value at a key.
fn change_of(cell: &Cell, key: &Value, new: Value) -> Result<Change<'static>, MemberFault>
    ensures change { MatchResult result (λ x. with_member (plain cell.now) key.now new ≡ Some (changed x (plain cell.now))) (IsWrong (with_member (plain cell.now) key.now new)) }
    ensures fits { IfOk result (λ x. FitsCell x (plain cell.now)) }
    ensures names { (cells functions : ℕ) → Names cells functions new → IfOk result (NamesIn cells functions) }
{
    match (cell, key) {
        (Cell::Dict(_), Value::Str(name)) => Ok(Change::Set(name.clone()?, new)),
        (Cell::Array(items), Value::Number(index)) => {
            Ok(Change::Put(place_of(*index, items.len())?, new))
        }
        _ => Err(MemberFault::WrongType),
    }
}

/// The place of an index in an array of so many elements. A place above 4,294,967,295 is want of memory.
fn place_of(index: Num, count: usize) -> Result<u32, MemberFault>
    ensures place { MatchResult result (λ i. place_in count (whole_part index) ≡ Some i) (IsWrong (place_in count (whole_part index))) }
    ensures inside { IfOk result (λ i. i < count) }
{
    let Some(whole) = part_of(index.thousandths()) else {
        return Err(MemberFault::WrongType);
    };
    let Ok(place) = usize::try_from(whole) else {
        return Err(MemberFault::WrongType);
    };
    if place >= count {
        return Err(MemberFault::WrongType);
    }
    match u32::try_from(place) {
        Ok(place) => Ok(place),
        Err(_) => Err(MemberFault::OutOfMemory),
    }
}
