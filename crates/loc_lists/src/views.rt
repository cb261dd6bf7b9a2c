// View pairs read.
ghost use Rattle.std.specs.Prelude.{◌≡◌, ◌≤◌, ◌<◌, ◌+◌, ◌-◌, ◌^◌, ◌++◌, ◌∷◌, [], length, take, drop, IfOk, IfErr, OnOk};
ghost use Rattle.dw_base.specs.Refusals.{IsFaultOf, IsFaulty, IsRefusedFor};
ghost use Rattle.leb_codec.specs.Leb.{Uleb};
ghost use Rattle.list_model.specs.Contributions.{part_end, IsContribution};
ghost use Rattle.loc_lists.specs.Views.{IsRunAt, FaultView, FaultViews};

use crate::fault::fault_at;
use crate::laws::views_read;
use dw_base::{Fault, Kind, NoMemory, Refusal};
use leb_codec::{LebFault, ReadU, read_u};
use list_model::Contribution;
use std::alloc::Global;

/// The view numbers of the start and the end of a bounded location, which are GNU's extension.
#[derive(Clone, Copy, Debug, PartialEq, Eq)]
pub struct ViewPair {
    /// The view number of the start.
    pub first: u64,
    /// The view number of the end.
    pub last: u64,
}

// The most pairs that a run may have.
const VIEW_LIMIT: u64 = 1 << 24;

// The number at a place, or its fault.
fn read_view(bytes: &[u8], at: usize, origin: u64) -> Result<ReadU, Fault>
    requires inside { at ≤ length bytes.now }
    requires room { origin + length bytes.now < 2 ^ 64 }
    ensures within { IfOk result (λ r. (at ≤ r.end) × (r.end ≤ length bytes.now)) }
    ensures read { IfOk result (λ r. Uleb r.value (take (r.end - at) (drop at bytes.now))) }
    ensures fault { IfErr result (λ fault. (fault.place ≡ origin + at) × FaultView fault.kind (drop at bytes.now)) }
{
    match read_u(bytes, at) {
        Ok(read) => Ok(read),
        Err(LebFault::Short) => Err(fault_at(Kind::Short, origin, at)),
        Err(LebFault::Wide) => Err(fault_at(Kind::LebWide, origin, at)),
    }
}

// Appends a pair.
fn push(pairs: &mut Vec<ViewPair>, first: u64, last: u64) -> Result<(), NoMemory>
    ensures { OnOk result (pairs.new.items ≡ pairs.old.items ++ record { first = first; last = last } ∷ []) }
{
    pairs.push(ViewPair { first, last })?;
    Ok(())
}

/// The view pairs that begin at `at`, as many as `count`: two ULEB128 numbers each, which may be padded. `section` is the body of
/// .debug_loclists, and `part` is the contribution to it in which they are to end. Places count from the section's first byte,
/// whose file offset is `origin`. That view numbers are spelled so is this project's reading of GNU's extension.
///
/// A refusal names a fault of the pairs:
/// - `Short`: the contribution ends inside a number, or before one that is wanted; at its first byte.
/// - `LebWide`: a number doesn't fit 64 bits; at its first byte.
/// - `Limit`: `count` is more than 2^24; at `at`. A pair may have another fault then, which isn't named.
///
/// `NoMemory` may come wherever memory is wanting.
pub fn read_views(
    alloc: Global,
    section: &[u8],
    part: &Contribution,
    at: u64,
    count: u64,
    origin: u64,
) -> Result<Vec<ViewPair>, Refusal>
    requires part { IsContribution section.now part.now }
    requires inside { at ≤ part_end part.now }
    requires room { origin + length section.now < 2 ^ 64 }
    ensures pairs { IfOk result (λ pairs. IsRunAt section.now part.now at pairs.items) }
    ensures count { IfOk result (λ pairs. length pairs.items ≡ count) }
    ensures whole { IfOk result (λ _. ¬ IsFaulty (FaultViews section.now part.now at count)) }
    ensures fault { IfErr result (IsRefusedFor (IsFaultOf (FaultViews section.now part.now at count) origin)) }
{
    views_read();
    if count > VIEW_LIMIT {
        return Err(Refusal::Refused(Fault {
            kind: Kind::Limit,
            place: origin + at,
        }));
    }
    let bytes = &section[..(part.at + part.len) as usize];
    let mut pairs: Vec<ViewPair> = Vec::new(alloc);
    let mut place = at as usize;
    for _ in 0..count {
        let first = read_view(bytes, place, origin)?;
        let last = read_view(bytes, first.end, origin)?;
        push(&mut pairs, first.value, last.value)?;
        place = last.end;
    }
    // All view pairs of a file are held at once.
    pairs.shrink_to_fit();
    Ok(pairs)
}
