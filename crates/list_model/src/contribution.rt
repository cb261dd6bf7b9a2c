// Contributions to the list sections.
ghost use Rattle.std.specs.Prelude.{◌≡◌, ◌≤◌, ◌<◌, ◌+◌, ◌^◌, ◌++◌, ◌∷◌, [], length, IfOk, IfErr, OnOk};
ghost use Rattle.std.specs.List.{All};
ghost use Rattle.dw_base.specs.Refusals.{IsFaultOf, IsFaulty, IsRefusedFor};
ghost use Rattle.list_model.specs.Contributions.{IsContribution, ContributionsTile};
ghost use Rattle.list_model.specs.Faults.{FaultContribution, FaultContributions};

use crate::header::{fault_at, has_header};
use dw_base::{Fault, Kind, NoMemory, Refusal};
use fixed_width::{end_of_unit, u32_at};
use std::alloc::Global;

/// A contribution to .debug_rnglists (DWARF 5 section 7.28) or .debug_loclists (section 7.29): a header, a table of offsets, and
/// lists. Places count from the section's first byte.
#[derive(Clone, Copy, Debug, PartialEq, Eq)]
pub struct Contribution {
    /// The place of its first byte, which is that of its header.
    pub at: u64,
    /// All its bytes, the field with its length among them.
    pub len: u64,
    /// How many offsets its table has, each of 4 bytes. The first stands 12 bytes behind the contribution's first byte.
    pub slots: u32,
}

// The bytes of a contribution's header: its length, its version, the sizes of addresses and segment selectors, and the count of
// its offsets.
const HEADER_SIZE: usize = 12;

// The bytes of an offset.
const OFFSET_SIZE: usize = 4;

// The contribution at a place, or its fault.
fn contribution_at(section: &[u8], at: usize, origin: u64) -> Result<Contribution, Fault>
    requires inside { at ≤ length section.now }
    requires room { origin + length section.now < 2 ^ 64 }
    ensures part { IfOk result (λ part. (part.at ≡ at) × IsContribution section.now part) }
    ensures fault { IfErr result (IsFaultOf (FaultContribution section.now at) origin) }
{
    let Ok(end) = end_of_unit(section, at) else {
        return Err(fault_at(Kind::Short, origin, at));
    };
    if !has_header(section, at, end, HEADER_SIZE) {
        return Err(fault_at(Kind::ListEntry, origin, at));
    }
    let slots = u32_at(section, at + 8);
    let whole_slots = (end - at - HEADER_SIZE) / OFFSET_SIZE;
    if slots as usize > whole_slots {
        let cut = at + HEADER_SIZE + OFFSET_SIZE * whole_slots;
        return Err(fault_at(Kind::Short, origin, cut));
    }
    Ok(Contribution {
        at: at as u64,
        len: (end - at) as u64,
        slots,
    })
}

// Appends a contribution.
fn push(parts: &mut Vec<Contribution>, part: Contribution) -> Result<(), NoMemory>
    ensures { OnOk result (parts.new.items ≡ parts.old.items ++ part ∷ []) }
{
    parts.push(part)?;
    Ok(())
}

/// The contributions of `section`, the body of .debug_rnglists or .debug_loclists (DWARF 5 sections 7.28 and 7.29), which stand
/// one after the other and fill the section. `origin` is the file offset of the section's first byte.
///
/// A contribution that leaves the section, or whose length is a reserved one, from 0xfffffff0 on, is refused as Short at its
/// first byte. One that is whole is refused as ListEntry there where its header has another version than 5, another address size
/// than 8 or another segment selector size than 0, and as Short or ListEntry there where it is too short for its header. Where
/// the header is in order and the table of offsets doesn't fit in the length, that is Short at the first offset that isn't
/// whole. `NoMemory` may come wherever memory is wanting.
pub fn contributions(
    alloc: Global,
    section: &[u8],
    origin: u64,
) -> Result<Vec<Contribution>, Refusal>
    requires room { origin + length section.now < 2 ^ 64 }
    ensures tiled { IfOk result (λ parts. ContributionsTile section.now parts.items) }
    ensures each { IfOk result (λ parts. All (IsContribution section.now) parts.items) }
    ensures whole { IfOk result (λ _. ¬ IsFaulty (FaultContributions section.now)) }
    ensures fault { IfErr result (IsRefusedFor (IsFaultOf (FaultContributions section.now) origin)) }
{
    let mut parts: Vec<Contribution> = Vec::new(alloc);
    let mut at = 0;
    while at < section.len() {
        let part = contribution_at(section, at, origin)?;
        push(&mut parts, part)?;
        at += part.len as usize;
    }
    Ok(parts)
}
