// Entries read, up to their expressions.
ghost use Rattle.std.specs.Prelude.{◌≡◌, ◌≢◌, ◌≤◌, ◌<◌, ◌+◌, ◌-◌, ◌^◌, Some, length, take, drop, IfOk, IfErr, OnOk, MatchOption};
ghost use Rattle.dw_base.specs.Refusals.{IsFaultOf, IsFaulty};
ghost use Rattle.list_model.specs.declared.entry.EntryKind.{EntryKind};
ghost use Rattle.list_model.specs.Entries.{code_of, first_operand as first_of, second_operand as second_of, SpellsOperand, FaultOperand, FaultEntry, BeginsWithEnd};
ghost use Rattle.list_model.specs.Reading.{IsReadEntry, list_entry_limit as most_entries};

use crate::entry::{EntryKind, ListKind, Operand, RawEntry};
use crate::header::{ADDRESS_SIZE, fault_at};
use dw_base::{Fault, Kind, Reach, Span, constants};
use fixed_width::u64_at;
use leb_codec::{LebFault, ReadU, read_u};

/// An entry that was read, and the place after its last operand.
#[derive(Clone, Copy, Debug, PartialEq, Eq)]
pub struct ReadEntry {
    /// The entry, without its expression.
    pub raw: RawEntry,
    /// The place after its last operand.
    pub end: usize,
}

const NO_EXPR: Span = Span { at: 0, len: 0 };

/// The kind of entry that a code stands for (DWARF 5 sections 7.7.3 and 7.25), or None exactly where it stands for none, as 0
/// does, which ends a list.
pub fn kind_of(list: ListKind, code: u8) -> Option<EntryKind>
    ensures { MatchOption result ((kind : EntryKind) → code_of list kind ≢ Some code) (λ kind. code_of list kind ≡ Some code) }
{
    let kind = match (list, code) {
        (ListKind::Ranges, constants::DW_RLE_BASE_ADDRESSX) => EntryKind::BaseAddressx,
        (ListKind::Ranges, constants::DW_RLE_STARTX_ENDX) => EntryKind::StartxEndx,
        (ListKind::Ranges, constants::DW_RLE_STARTX_LENGTH) => EntryKind::StartxLength,
        (ListKind::Ranges, constants::DW_RLE_OFFSET_PAIR) => EntryKind::OffsetPair,
        (ListKind::Ranges, constants::DW_RLE_BASE_ADDRESS) => EntryKind::BaseAddress,
        (ListKind::Ranges, constants::DW_RLE_START_END) => EntryKind::StartEnd,
        (ListKind::Ranges, constants::DW_RLE_START_LENGTH) => EntryKind::StartLength,
        (ListKind::Locations, constants::DW_LLE_BASE_ADDRESSX) => EntryKind::BaseAddressx,
        (ListKind::Locations, constants::DW_LLE_STARTX_ENDX) => EntryKind::StartxEndx,
        (ListKind::Locations, constants::DW_LLE_STARTX_LENGTH) => EntryKind::StartxLength,
        (ListKind::Locations, constants::DW_LLE_OFFSET_PAIR) => EntryKind::OffsetPair,
        (ListKind::Locations, constants::DW_LLE_DEFAULT_LOCATION) => EntryKind::DefaultLocation,
        (ListKind::Locations, constants::DW_LLE_BASE_ADDRESS) => EntryKind::BaseAddress,
        (ListKind::Locations, constants::DW_LLE_START_END) => EntryKind::StartEnd,
        (ListKind::Locations, constants::DW_LLE_START_LENGTH) => EntryKind::StartLength,
        _ => return None,
    };
    Some(kind)
}

/// The most entries that a list may have, and all lists of a file together.
pub fn list_entry_limit(reach: Reach) -> usize
    ensures { result ≡ most_entries reach }
{
    match reach {
        Reach::Narrow => 1 << 24,
        Reach::Wide => 1 << 25,
    }
}

/// What the first operand of a kind of entry is (DWARF 5 sections 2.6.2 and 2.17.3).
pub fn first_operand(kind: EntryKind) -> Operand
    ensures { result ≡ first_of kind }
{
    match kind {
        EntryKind::DefaultLocation => Operand::Absent,
        EntryKind::BaseAddress | EntryKind::StartEnd | EntryKind::StartLength => Operand::Address,
        _ => Operand::Number,
    }
}

/// What the second operand of a kind of entry is (DWARF 5 sections 2.6.2 and 2.17.3).
pub fn second_operand(kind: EntryKind) -> Operand
    ensures { result ≡ second_of kind }
{
    match kind {
        EntryKind::BaseAddressx | EntryKind::DefaultLocation | EntryKind::BaseAddress => {
            Operand::Absent
        }
        EntryKind::StartEnd => Operand::Address,
        _ => Operand::Number,
    }
}

// The operand at a place, or its fault.
fn read_operand(bytes: &[u8], at: usize, operand: Operand, origin: u64) -> Result<ReadU, Fault>
    requires inside { at ≤ length bytes.now }
    requires room { origin + length bytes.now < 2 ^ 64 }
    ensures within { IfOk result (λ r. (at ≤ r.end) × (r.end ≤ length bytes.now)) }
    ensures read { IfOk result (λ r. SpellsOperand operand r.value (take (r.end - at) (drop at bytes.now))) }
    ensures fault { IfErr result (IsFaultOf (λ kind place. FaultOperand operand kind place (drop at bytes.now)) (origin + at)) }
{
    match operand {
        Operand::Absent => Ok(ReadU { value: 0, end: at }),
        Operand::Number => match read_u(bytes, at) {
            Ok(read) => Ok(read),
            Err(LebFault::Short) => Err(fault_at(Kind::Short, origin, at)),
            Err(LebFault::Wide) => Err(fault_at(Kind::LebWide, origin, at)),
        },
        Operand::Address => {
            if bytes.len() - at < ADDRESS_SIZE {
                return Err(fault_at(Kind::Short, origin, at));
            }
            Ok(ReadU {
                value: u64_at(bytes, at),
                end: at + ADDRESS_SIZE,
            })
        }
    }
}

/// The entry of a list that begins at `at` (DWARF 5 sections 7.7.3 and 7.25), without the expression that follows it in a
/// location list, or None exactly where the list ends there. `bytes` goes from the first byte of the list's section to the end of
/// the contribution. Places count from that first byte, whose file offset is `origin`. ULEB128 numbers may be padded.
///
/// A fault is Short where the bytes end inside the entry or before it, at the code, the number or the address that isn't whole,
/// LebWide at the first byte of a number that doesn't fit 64 bits, and ListEntry at a code that is none of this kind of list. It
/// takes no memory.
pub fn read_entry(
    list: ListKind,
    bytes: &[u8],
    at: usize,
    origin: u64,
) -> Result<Option<ReadEntry>, Fault>
    requires inside { at ≤ length bytes.now }
    requires room { origin + length bytes.now < 2 ^ 64 }
    ensures entry { IfOk result (λ found. MatchOption found (BeginsWithEnd (drop at bytes.now)) (IsReadEntry list bytes.now at)) }
    ensures whole { OnOk result (¬ IsFaulty (λ kind place. FaultEntry list kind place (drop at bytes.now))) }
    ensures fault { IfErr result (IsFaultOf (λ kind place. FaultEntry list kind place (drop at bytes.now)) (origin + at)) }
{
    if at == bytes.len() {
        return Err(fault_at(Kind::Short, origin, at));
    }
    let code = bytes[at];
    if code == 0 {
        return Ok(None);
    }
    let Some(kind) = kind_of(list, code) else {
        return Err(fault_at(Kind::ListEntry, origin, at));
    };
    let first = read_operand(bytes, at + 1, first_operand(kind), origin)?;
    let second = read_operand(bytes, first.end, second_operand(kind), origin)?;
    let raw = RawEntry {
        at: at as u64,
        code,
        a: first.value,
        b: second.value,
        expr: NO_EXPR,
    };
    Ok(Some(ReadEntry {
        raw,
        end: second.end,
    }))
}
