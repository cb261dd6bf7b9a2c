// Entries that are chosen.
ghost use Rattle.std.specs.Prelude.{◌≡◌, ◌≤◌, ◌<◌, ◌^◌, Some, false, MatchOption, OnOk};
ghost use Rattle.list_least.specs.inside.Lookups.{IsIndexOf};
ghost use Rattle.list_least.specs.inside.Search.{AreCosts, AreSomeCosts, IsBytesUnder};
ghost use Rattle.list_least.specs.inside.Ways.{Fails, HasCode, AddsPick, LackedAreZero, IsItemEntry, as_entry};
ghost use Rattle.list_model.specs.declared.entry.EntryKind.TheVariants.{StartxEndx, StartxLength, OffsetPair};
ghost use Rattle.list_model.specs.Entries.{code_of};
ghost use Rattle.list_model.specs.Items.{HasBounds};
ghost use Rattle.list_model.specs.Items.Bounds.{between};
ghost use Rattle.list_model.specs.Costs.{entry_bytes};

use crate::costs::{Costs, piece_at};
use dw_base::NoMemory;
use leb_codec::len_u;
use list_model::{EntryKind, ListKind};

/// An entry of a list before its end (DWARF 5 sections 7.7.3 and 7.25).
#[derive(Clone, Copy, Debug, PartialEq, Eq)]
pub struct Pick {
    /// The code of its kind: one of DW_RLE_* in a range list, of DW_LLE_* in a location list.
    pub code: u8,
    /// The first operand: an address, an index that counts from 0, or an offset from the base. It is 0 where its kind has none.
    pub a: u64,
    /// The second operand: an address, an index, an offset from the base, or a length in bytes. It is 0 where its kind has none.
    pub b: u64,
}

// An entry by its kind.
#[derive(Clone, Copy)]
pub(crate) struct Chosen {
    pub(crate) kind: EntryKind,
    pub(crate) a: u64,
    pub(crate) b: u64,
}

// An entry of a kind.
pub(crate) fn entry_of(kind: EntryKind, a: u64, b: u64) -> Chosen
    ensures { result ≡ record { kind = kind; a = a; b = b } }
{
    Chosen { kind, a, b }
}

// The lowest kind of entry that gives an item under a base in the fewest bytes.
pub(crate) fn item_entry(costs: &Costs, base: u64) -> Chosen
    requires { AreSomeCosts costs.now }
    ensures entry { (addr : _) (context : _) (item : _) → AreCosts addr context item costs.now → IsItemEntry addr context base item (as_entry result) }
    ensures lacked { LackedAreZero result.kind result.a result.b }
{
    if costs.whole {
        return entry_of(EntryKind::DefaultLocation, 0, 0);
    }
    entry_between(costs, base, piece_at(costs, base).cost)
}

// An entry with two indexes, if it takes no more bytes.
fn indexed_entry(first: Option<u64>, last: Option<u64>, bytes: u64) -> Option<Chosen>
    ensures { (addr : _) (context : _) (base start end : _) → IsIndexOf addr context start first → IsIndexOf addr context end last → MatchOption result (Fails addr context base (between start end) StartxEndx bytes) (λ entry. HasBounds addr context base entry.kind entry.a entry.b (between start end) × (entry_bytes entry.kind entry.a entry.b ≤ bytes)) }
{
    let (Some(first), Some(last)) = (first, last) else {
        return None;
    };
    if 1 + len_u(first) as u64 + len_u(last) as u64 <= bytes {
        Some(entry_of(EntryKind::StartxEndx, first, last))
    } else {
        None
    }
}

// An entry with an index and a length, if it takes no more bytes.
fn startx_entry(first: Option<u64>, start: u64, end: u64, bytes: u64) -> Option<Chosen>
    ensures { (addr : _) (context : _) (base : _) → IsIndexOf addr context start first → MatchOption result (Fails addr context base (between start end) StartxLength bytes) (λ entry. HasBounds addr context base entry.kind entry.a entry.b (between start end) × (entry_bytes entry.kind entry.a entry.b ≤ bytes)) }
{
    let Some(first) = first else {
        return None;
    };
    if start <= end && 1 + len_u(first) as u64 + len_u(end - start) as u64 <= bytes {
        Some(entry_of(EntryKind::StartxLength, first, end - start))
    } else {
        None
    }
}

// An entry with two offsets, if it takes no more bytes.
fn pair_entry(start: u64, end: u64, base: u64, bytes: u64) -> Option<Chosen>
    ensures { (addr : _) (context : _) → MatchOption result (Fails addr context base (between start end) OffsetPair bytes) (λ entry. HasBounds addr context base entry.kind entry.a entry.b (between start end) × (entry_bytes entry.kind entry.a entry.b ≤ bytes)) }
{
    if base <= start
        && base <= end
        && 1 + len_u(start - base) as u64 + len_u(end - base) as u64 <= bytes
    {
        Some(entry_of(EntryKind::OffsetPair, start - base, end - base))
    } else {
        None
    }
}

// The same for an item between two addresses, which takes so many bytes.
fn entry_between(costs: &Costs, base: u64, bytes: u64) -> Chosen
    requires some { AreSomeCosts costs.now }
    requires between { costs.now.whole ≡ false }
    requires least { IsBytesUnder costs.now base bytes }
    ensures { (addr : _) (context : _) (item : _) → AreCosts addr context item costs.now → IsItemEntry addr context base item (as_entry result) }
{
    let start = costs.start;
    let end = costs.end;
    if let Some(entry) = indexed_entry(costs.first, costs.last, bytes) {
        return entry;
    }
    if let Some(entry) = startx_entry(costs.first, start, end, bytes) {
        return entry;
    }
    if let Some(entry) = pair_entry(start, end, base, bytes) {
        return entry;
    }
    if bytes >= 17 {
        return entry_of(EntryKind::StartEnd, start, end);
    }
    entry_of(EntryKind::StartLength, start, end - start)
}

// The code of a kind of entry in lists of a kind.
fn code_in(list: ListKind, kind: EntryKind) -> u8
    requires { HasCode list kind }
    ensures { code_of list kind ≡ Some result }
{
    let above = if list == ListKind::Locations { 1 } else { 0 };
    match kind {
        EntryKind::BaseAddressx => 1,
        EntryKind::StartxEndx => 2,
        EntryKind::StartxLength => 3,
        EntryKind::OffsetPair => 4,
        EntryKind::DefaultLocation => 5,
        EntryKind::BaseAddress => 5 + above,
        EntryKind::StartEnd => 6 + above,
        EntryKind::StartLength => 7 + above,
    }
}

// An entry by its code. Its operands fit 64 bits.
fn pick_of(code: u8, a: u64, b: u64) -> Pick
    ensures is { result ≡ record { code = code; a = a; b = b } }
    ensures fits { (a < 2 ^ 64) × (b < 2 ^ 64) }
{
    Pick { code, a, b }
}

// Appends an entry.
pub(crate) fn push_pick(
    picks: &mut Vec<Pick>,
    list: ListKind,
    entry: Chosen,
) -> Result<(), NoMemory>
    requires known { HasCode list entry.kind }
    requires lacked { LackedAreZero entry.kind entry.a entry.b }
    ensures { OnOk result (AddsPick list picks.old.items (as_entry entry) picks.new.items) }
{
    picks.push(pick_of(code_in(list, entry.kind), entry.a, entry.b))?;
    Ok(())
}
