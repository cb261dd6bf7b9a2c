// Range lists read.
ghost use Rattle.std.specs.Prelude.{◌≡◌, ◌≤◌, ◌<◌, ◌+◌, ◌^◌, ◌++◌, ◌∷◌, [], length, IfOk, IfErr, OnOk};
ghost use Rattle.std.specs.List.{All};
ghost use Rattle.dw_base.specs.Refusals.{IsFaultOf, IsFaulty, IsRefusedFor};
ghost use Rattle.list_model.specs.Contributions.{part_end, IsContribution};
ghost use Rattle.list_model.specs.Reading.{list_entry_limit as most_entries};
ghost use Rattle.range_lists.specs.Ranges.{IsRangeList, AreRangeEntries, FaultRangeList};

use crate::laws::ranges_end;
use dw_base::{Fault, Kind, NoMemory, Reach, Refusal};
use list_model::{Contribution, ListKind, RawEntry, list_entry_limit, read_entry};
use std::alloc::Global;

// Appends an entry.
fn push(raws: &mut Vec<RawEntry>, raw: RawEntry) -> Result<(), NoMemory>
    ensures { OnOk result (raws.new.items ≡ raws.old.items ++ raw ∷ []) }
{
    raws.push(raw)?;
    Ok(())
}

/// The entries of the range list that begins at `at` (DWARF 5 sections 2.17.3 and 7.25), without its end. `section` is the body
/// of .debug_rnglists, and `part` is the contribution to it in which the list is to end. Places count from the section's first
/// byte, whose file offset is `origin`. ULEB128 numbers may be padded.
///
/// A refusal names a fault of the list:
/// - `Short`: the contribution ends before the list does; at the code, the number or the address that isn't whole.
/// - `LebWide`: a number doesn't fit 64 bits; at its first byte.
/// - `ListEntry`: a code is none of a range list; at the code.
/// - `Limit`: the list has more than 2^24 entries, or than 2^25 under the wide limits; at the list's first byte. The entries up
///   to the one that is too many are whole, and what stands behind them may have another fault, which may be named too.
///
/// `NoMemory` may come wherever memory is wanting.
pub fn read_ranges(
    alloc: Global,
    section: &[u8],
    part: &Contribution,
    at: u64,
    origin: u64,
    reach: Reach,
) -> Result<Vec<RawEntry>, Refusal>
    requires part { IsContribution section.now part.now }
    requires inside { at ≤ part_end part.now }
    requires room { origin + length section.now < 2 ^ 64 }
    ensures entries { IfOk result (λ raws. IsRangeList section.now part.now at raws.items) }
    ensures known { IfOk result (λ raws. AreRangeEntries raws.items) }
    ensures inside { IfOk result (λ raws. All (λ raw. raw.at < length section.now) raws.items) }
    ensures few { IfOk result (λ raws. length raws.items ≤ most_entries reach) }
    ensures whole { IfOk result (λ _. ¬ IsFaulty (FaultRangeList section.now part.now at reach)) }
    ensures fault { IfErr result (IsRefusedFor (IsFaultOf (FaultRangeList section.now part.now at reach) origin)) }
{
    ranges_end();
    let bytes = &section[..(part.at + part.len) as usize];
    let mut raws: Vec<RawEntry> = Vec::new(alloc);
    let mut place = at as usize;
    loop {
        let Some(read) = read_entry(ListKind::Ranges, bytes, place, origin)? else {
            // All lists of a file are held at once.
            raws.shrink_to_fit();
            return Ok(raws);
        };
        if raws.len() == list_entry_limit(reach) {
            return Err(Refusal::Refused(Fault {
                kind: Kind::Limit,
                place: origin + at,
            }));
        }
        push(&mut raws, read.raw)?;
        place = read.end;
    }
}
