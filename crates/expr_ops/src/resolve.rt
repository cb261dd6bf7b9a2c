// Where the branches of an expression go.
ghost use Rattle.std.specs.Prelude.{◌≡◌, ◌≢◌, ◌≤◌, ◌<◌, ◌+◌, ◌-◌, ◌^◌, ◌⊎◌, ℕ, List, length, OnOk, IfErr, MatchOption, pos, ◌+ℤ◌, true, false};
ghost use Rattle.dw_base.specs.Refusals.{IsRefusedFor};
ghost use Rattle.expr_ops.specs.declared.op.Op.{Op as AnyOp};
ghost use Rattle.expr_ops.specs.inside.Levels.{IsLevelRead, IsFront, IsChained, HasLevelFault, start_at, HasNoTarget, IsTarget};

use crate::head::fault_at;
use crate::op::Op;
use crate::segment::send;
use crate::start::Start;
use dw_base::{Kind, Refusal};

// The place so far on or back, up to an end.
fn place_at(end: usize, distance: i64, len: usize) -> Option<usize>
    ensures { MatchOption result ((n : ℕ) → n ≤ len → pos n ≡ pos end +ℤ distance → ⊥) (λ n. pos n ≡ pos end +ℤ distance) }
{
    let place = end as i128 + i128::from(distance);
    if place < 0 || place > len as i128 {
        return None;
    }
    Some(place as usize)
}

// Which operation begins at a place.
fn start_from(starts: &[Start], place: usize) -> Option<usize>
    requires rising { (i j : ℕ) → i < j → j < length starts.now → (start_at starts.now i).at < (start_at starts.now j).at }
    ensures { MatchOption result ((i : ℕ) → i < length starts.now → (start_at starts.now i).at ≢ place) (λ i. (i < length starts.now) × ((start_at starts.now i).at ≡ place)) }
{
    match starts.binary_search_by_key(&place, |start| start.at) {
        Ok(number) => Some(number),
        Err(_) => None,
    }
}

// The number of the operation to which a branch goes, or the count of all where it goes to the end.
fn target_of(starts: &[Start], len: usize, count: usize, branch: Start) -> Option<usize>
    requires rising { (i j : ℕ) → i < j → j < length starts.now → (start_at starts.now i).at < (start_at starts.now j).at }
    requires inside { (i : ℕ) → i < length starts.now → (start_at starts.now i).at ≤ len }
    ensures { MatchOption result (HasNoTarget starts.now len branch) (IsTarget starts.now len count branch) }
{
    let place = place_at(branch.end, branch.distance, len)?;
    if place == len {
        return Some(count);
    }
    let number = start_from(starts, place)?;
    Some(starts[number].number)
}

// Whether an operation is a branch.
fn has_branch(starts: &[Start]) -> bool
    ensures some { result ≡ true → (k : ℕ) × (k < length starts.now) × ((start_at starts.now k).is_branch ≡ true) }
    ensures none { result ≡ false → (k : ℕ) → k < length starts.now → (start_at starts.now k).is_branch ≡ false }
{
    for start in starts {
        if start.is_branch {
            return true;
        }
    }
    false
}

// Says where the branches of an expression go.
pub(crate) fn resolve(
    starts: &[Start],
    bytes: &[u8],
    deep: u32,
    most: usize,
    first: usize,
    ops: &mut Vec<Op>,
) -> Result<(), Refusal>
    requires few { length ops.old.items < 2 ^ 32 }
    requires front { (outer : List ℕ) × (old : List AnyOp) × (length old ≡ first) × IsFront outer most deep bytes.now old ops.old.items starts.now (length bytes.now) }
    ensures size { length ops.new.items ≡ length ops.old.items }
    ensures bound { IfErr result (IsRefusedFor (λ f. f.place ≤ length bytes.now)) }
    ensures chain { (outer : List ℕ) (from to : ℕ) (old : List AnyOp) → length old ≡ first → IsChained outer from to old ops.old.items → IsChained outer from to old ops.new.items }
    ensures read { (outer : List ℕ) (old : List AnyOp) → length old ≡ first → IsFront outer most deep bytes.now old ops.old.items starts.now (length bytes.now) → OnOk result (IsLevelRead outer most deep bytes.now old ops.new.items) }
    ensures fault { (outer : List ℕ) (old : List AnyOp) → length old ≡ first → IsFront outer most deep bytes.now old ops.old.items starts.now (length bytes.now) → IfErr result (IsRefusedFor (HasLevelFault most deep bytes.now)) }
{
    if !has_branch(starts) {
        return Ok(());
    }
    if bytes.len() > most {
        return Err(Refusal::Refused(fault_at(Kind::Limit, 0)));
    }
    let count = ops.len() - first;
    for k in 0..starts.len() {
        let start = starts[k];
        if start.is_branch {
            match target_of(starts, bytes.len(), count, start) {
                Some(jump) => send(ops, first + start.number, jump),
                None => return Err(Refusal::Refused(fault_at(Kind::Branch, start.at))),
            }
        }
    }
    Ok(())
}
