// Location lists read.
ghost use Rattle.std.specs.Prelude.{◌≡◌, ◌≤◌, ◌<◌, ◌+◌, ◌^◌, ◌++◌, ◌∷◌, [], length, drop, IfOk, IfErr, OnOk, MatchOption};
ghost use Rattle.std.specs.List.{All};
ghost use Rattle.dw_base.specs.Refusals.{IsFaultOf, IsFaulty, IsRefusedFor};
ghost use Rattle.list_model.specs.Contributions.{part_end, IsContribution};
ghost use Rattle.list_model.specs.Entries.{BeginsWithEnd};
ghost use Rattle.list_model.specs.Reading.{list_entry_limit as most_entries};
ghost use Rattle.loc_lists.specs.Locations.{FaultExpression, FaultLocation, IsLocationList, AreLocationEntries, FaultLocationList};
ghost use Rattle.loc_lists.specs.inside.Reads.{IsReadExpression, IsReadLocation};

use crate::fault::fault_at;
use crate::items::is_item;
use crate::laws::locations_end;
use dw_base::{Fault, Kind, NoMemory, Reach, Refusal, Span};
use leb_codec::{LebFault, read_u};
use list_model::{Contribution, ListKind, RawEntry, list_entry_limit, read_entry};
use std::alloc::Global;

// An entry with its expression, and the place behind these.
#[derive(Clone, Copy)]
struct ReadLocation {
    raw: RawEntry,
    end: usize,
}

// The expression whose length stands at a place, or the fault of these.
fn read_expression(bytes: &[u8], at: usize, origin: u64) -> Result<Span, Fault>
    requires inside { at ≤ length bytes.now }
    requires room { origin + length bytes.now < 2 ^ 64 }
    ensures expression { IfOk result (IsReadExpression bytes.now at) }
    ensures fault { IfErr result (IsFaultOf (λ kind place. FaultExpression kind place (drop at bytes.now)) (origin + at)) }
{
    let size = match read_u(bytes, at) {
        Ok(size) => size,
        Err(LebFault::Short) => return Err(fault_at(Kind::Short, origin, at)),
        Err(LebFault::Wide) => return Err(fault_at(Kind::LebWide, origin, at)),
    };
    if ((bytes.len() - size.end) as u64) < size.value {
        return Err(fault_at(Kind::Short, origin, at));
    }
    Ok(Span {
        at: size.end as u64,
        len: size.value,
    })
}

// The entry at a place with its expression, or None where the list ends there, or the fault of these.
fn read_location(bytes: &[u8], at: usize, origin: u64) -> Result<Option<ReadLocation>, Fault>
    requires inside { at ≤ length bytes.now }
    requires room { origin + length bytes.now < 2 ^ 64 }
    ensures location { IfOk result (λ found. MatchOption found (BeginsWithEnd (drop at bytes.now)) (IsReadLocation bytes.now at)) }
    ensures fault { IfErr result (IsFaultOf (λ kind place. FaultLocation kind place (drop at bytes.now)) (origin + at)) }
{
    let Some(read) = read_entry(ListKind::Locations, bytes, at, origin)? else {
        return Ok(None);
    };
    if !is_item(&read.raw) {
        return Ok(Some(ReadLocation {
            raw: read.raw,
            end: read.end,
        }));
    }
    let expr = read_expression(bytes, read.end, origin)?;
    let raw = RawEntry { expr, ..read.raw };
    Ok(Some(ReadLocation {
        raw,
        end: (expr.at + expr.len) as usize,
    }))
}

// Appends an entry.
fn push(raws: &mut Vec<RawEntry>, raw: RawEntry) -> Result<(), NoMemory>
    ensures { OnOk result (raws.new.items ≡ raws.old.items ++ raw ∷ []) }
{
    raws.push(raw)?;
    Ok(())
}

/// The entries of the location list that begins at `at` (DWARF 5 sections 2.6.2 and 7.7.3), without its end. `section` is the
/// body of .debug_loclists, and `part` is the contribution to it in which the list is to end. Places count from the section's
/// first byte, whose file offset is `origin`, also those of the expressions. ULEB128 numbers, and the lengths of expressions among
/// them, may be padded. An entry that sets the base has no expression, and its span is `0, 0`.
///
/// A refusal names a fault of the list:
/// - `Short`: the contribution ends before the list does; at the code, the number or the address that isn't whole, and for an
///   expression of which bytes are missing at its length's first byte.
/// - `LebWide`: a number doesn't fit 64 bits; at its first byte.
/// - `ListEntry`: a code is none of a location list; at the code.
/// - `Limit`: the list has more than 2^24 entries, or than 2^25 under the wide limits; at the list's first byte. The entries up
///   to the one that is too many are whole, and what stands behind them may have another fault, which may be named too.
///
/// What the bytes of an expression say isn't looked at. `NoMemory` may come wherever memory is wanting.
pub fn read_locations(
    alloc: Global,
    section: &[u8],
    part: &Contribution,
    at: u64,
    origin: u64,
    reach: Reach,
) -> Result<Vec<RawEntry>, Refusal>
    requires part { IsContribution section.now part.now }
    requires inside { at ≤ part_end part.now }
    requires room { origin + length section.now < 2 ^ 64 }
    ensures entries { IfOk result (λ raws. IsLocationList section.now part.now at raws.items) }
    ensures known { IfOk result (λ raws. AreLocationEntries raws.items) }
    ensures inside { IfOk result (λ raws. All (λ raw. raw.at < length section.now) raws.items) }
    ensures spans { IfOk result (λ raws. All (λ raw. raw.expr.at + raw.expr.len ≤ length section.now) raws.items) }
    ensures few { IfOk result (λ raws. length raws.items ≤ most_entries reach) }
    ensures whole { IfOk result (λ _. ¬ IsFaulty (FaultLocationList section.now part.now at reach)) }
    ensures fault { IfErr result (IsRefusedFor (IsFaultOf (FaultLocationList section.now part.now at reach) origin)) }
{
    locations_end();
    let bytes = &section[..(part.at + part.len) as usize];
    let mut raws: Vec<RawEntry> = Vec::new(alloc);
    let mut place = at as usize;
    loop {
        let Some(read) = read_location(bytes, place, origin)? else {
            // All lists of a file are held at once.
            raws.shrink_to_fit();
            return Ok(raws);
        };
        if raws.len() == list_entry_limit(reach) {
            return Err(Refusal::Refused(Fault {
                kind: Kind::Limit,
                place: origin + at,
            }));
        }
        push(&mut raws, read.raw)?;
        place = read.end;
    }
}
