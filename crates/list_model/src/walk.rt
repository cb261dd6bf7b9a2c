// Lists walked over, entry by entry.
ghost use Rattle.std.specs.Prelude.{◌≡◌, ◌<◌, ◌+◌, ◌^◌, ◌∷◌, [], IfOk, IfErr, OnOk};
ghost use Rattle.dw_base.specs.Refusals.{IsFaultOf, IsFaulty};
ghost use Rattle.list_model.specs.Entries.{Entry, Says};
ghost use Rattle.list_model.specs.Items.{HasTable, IsIndexed, FaultIndex, FaultIndexes};
ghost use Rattle.list_model.specs.Steps.{IsStep};
ghost use Rattle.list_model.specs.inside.Steps.{AsksInVain, IsSpan};

use crate::context::Context;
use crate::entry::{EntryKind, ListKind, RawEntry};
use crate::read::kind_of;
use crate::tables::address;
use dw_base::{Fault, Kind};

/// What an entry does in a walk over its list.
#[derive(Clone, Copy, Debug, PartialEq, Eq)]
pub enum Step {
    /// It sets the base to this address.
    Base(u64),
    /// It is an item from the first address up to the second.
    Between(u64, u64),
    /// It is an item for every address that no other item covers.
    Elsewhere,
    /// It is an item whose start or end is a sum of 2^64 or more.
    Over,
}

// The item between two sums.
fn between(base: u64, start: u64, end: u64) -> Step
    ensures { IsSpan (base + start) (base + end) result }
{
    match (base.checked_add(start), base.checked_add(end)) {
        (Some(start), Some(end)) => Step::Between(start, end),
        _ => Step::Over,
    }
}

// The address with an index, or the fault of the entry at a place.
fn looked_up(context: &Context, addr: &[u8], index: u64, place: u64) -> Result<u64, Fault>
    requires { HasTable addr.now context.now.table }
    ensures address { IfOk result (IsIndexed addr.now context.now index) }
    ensures fits { IfOk result (λ address. address < 2 ^ 64) }
    ensures fault { IfErr result (λ fault. (fault.place ≡ place) × FaultIndex context.now fault.kind index) }
{
    let Some(table) = &context.table else {
        return Err(Fault {
            kind: Kind::NoBase,
            place,
        });
    };
    match address(addr, table, index) {
        Some(address) => Ok(address),
        None => Err(Fault {
            kind: Kind::Pointer,
            place,
        }),
    }
}

// What an entry of a kind, with these operands, does. Its fault is named at a place.
fn kind_step(
    kind: EntryKind,
    a: u64,
    b: u64,
    base: u64,
    context: &Context,
    addr: &[u8],
    place: u64,
) -> Result<Step, Fault>
    requires { HasTable addr.now context.now.table }
    ensures step { IfOk result (IsStep addr.now context.now base kind a b) }
    ensures fault { IfErr result (λ fault. (fault.place ≡ place) × AsksInVain context.now kind a b fault.kind) }
{
    match kind {
        EntryKind::BaseAddressx => {
            let base = looked_up(context, addr, a, place)?;
            Ok(Step::Base(base))
        }
        EntryKind::StartxEndx => {
            let start = looked_up(context, addr, a, place)?;
            let end = looked_up(context, addr, b, place)?;
            Ok(Step::Between(start, end))
        }
        EntryKind::StartxLength => {
            let start = looked_up(context, addr, a, place)?;
            Ok(between(start, 0, b))
        }
        EntryKind::OffsetPair => Ok(between(base, a, b)),
        EntryKind::DefaultLocation => Ok(Step::Elsewhere),
        EntryKind::BaseAddress => Ok(Step::Base(a)),
        EntryKind::StartEnd => Ok(Step::Between(a, b)),
        EntryKind::StartLength => Ok(between(a, 0, b)),
    }
}

/// What the entry `raw` of a list does under a base, in a context (DWARF 5 sections 2.6.2 and 2.17.3). `addr` is the body of
/// .debug_addr, in which the table of the context stands. Places of entries count from the first byte of the list's section,
/// whose file offset is `origin`.
///
/// A fault names the entry: `NoBase` where it has an index and the context no table, and `Pointer` where an index is the count of
/// the table or more. It takes no memory.
pub fn entry_step(
    list: ListKind,
    raw: &RawEntry,
    base: u64,
    context: &Context,
    addr: &[u8],
    origin: u64,
) -> Result<Step, Fault>
    requires entry { (entry : Entry) × Says list raw.now entry }
    requires table { HasTable addr.now context.now.table }
    requires room { origin + raw.now.at < 2 ^ 64 }
    ensures step { IfOk result (λ step. (entry : Entry) → Says list raw.now entry → IsStep addr.now context.now base entry.kind entry.a entry.b step) }
    ensures whole { OnOk result (¬ IsFaulty (FaultIndexes list context.now (raw.now ∷ []))) }
    ensures fault { IfErr result (IsFaultOf (FaultIndexes list context.now (raw.now ∷ [])) origin) }
{
    let Some(kind) = kind_of(list, raw.code) else {
        unreachable!()
    };
    kind_step(kind, raw.a, raw.b, base, context, addr, origin + raw.at)
}
