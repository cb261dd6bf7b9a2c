// The headers of units.
ghost use Rattle.std.specs.Prelude.{◌≡◌, ◌≤◌, ◌<◌, ◌+◌, ◌^◌, ◌++◌, ◌∷◌, [], length, IfOk, IfErr, OnOk, MatchOption, MatchResult, IsTrue, ◌↔◌};
ghost use Rattle.std.specs.List.{All};
ghost use Rattle.fixed_width.specs.InitialLengths.{unit_end, IsWhole};
ghost use Rattle.entry_read.specs.Heads.{IsUnitType, header_size as size_of_header, HasHead, head_at, IsHead, Tile};
ghost use Rattle.entry_read.specs.Faults.{FaultHead, FaultHeads};
ghost use Rattle.dw_base.specs.Refusals.{IsFaultOf, IsFaulty, IsRefusedFor};

use dw_base::constants::{DW_UT_COMPILE, DW_UT_SKELETON, DW_UT_TYPE};
use dw_base::{Fault, Kind, NoMemory, Refusal};
use fixed_width::{LengthFault, end_of_unit, u32_at, u64_at, version_of_unit};
use std::alloc::Global;

/// The header of a unit (DWARF 5 section 7.5.1). Places count from the section's first byte.
#[derive(Clone, Copy, Debug, PartialEq, Eq)]
pub struct UnitHead {
    /// The first byte of the unit.
    pub at: u64,
    /// All bytes of the unit, the field with its length among them.
    pub len: u64,
    /// unit_type: 1 for a compilation unit, 2 for a type unit, 3 for a partial unit and 4 for a skeleton unit.
    pub kind: u8,
    /// debug_abbrev_offset
    pub table: u64,
    /// type_signature of a type unit, dwo_id of a skeleton unit, else 0.
    pub extra: u64,
    /// type_offset of a type unit, which counts from the unit's first byte, else 0.
    pub type_at: u64,
}

// The fewest bytes of a header.
const LEAST_HEADER: usize = 12;

// Whether units of a type are read.
fn is_unit_type(kind: u8) -> bool
    ensures { IsTrue result ↔ IsUnitType kind }
{
    kind >= DW_UT_COMPILE && kind <= DW_UT_SKELETON
}

/// How many bytes the header of a unit of a type has.
pub fn header_size(kind: u8) -> usize
    ensures size { result ≡ size_of_header kind }
    ensures small { result ≤ 24 }
{
    match kind {
        DW_UT_TYPE => 24,
        DW_UT_SKELETON => 20,
        _ => LEAST_HEADER,
    }
}

// The header at a place, whose unit ends in the section.
fn parse(info: &[u8], at: usize, end: usize) -> Option<UnitHead>
    requires whole { IsWhole info.now at }
    requires end { end ≡ unit_end info.now at }
    ensures { MatchOption result (¬ HasHead info.now at) (λ head. HasHead info.now at × (head ≡ head_at info.now at)) }
{
    if end - at < LEAST_HEADER || version_of_unit(info, at) != 5 || info[at + 7] != 8 {
        return None;
    }
    let kind = info[at + 6];
    let size = header_size(kind);
    if !is_unit_type(kind) || size > end - at {
        return None;
    }
    Some(UnitHead {
        at: at as u64,
        len: (end - at) as u64,
        kind,
        table: u64::from(u32_at(info, at + 8)),
        extra: if size > LEAST_HEADER {
            u64_at(info, at + 12)
        } else {
            0
        },
        type_at: if kind == DW_UT_TYPE {
            u64::from(u32_at(info, at + 20))
        } else {
            0
        },
    })
}

// The header at a place, or its fault.
fn read_head(info: &[u8], at: usize) -> Result<UnitHead, Kind>
    requires { at ≤ length info.now }
    ensures { MatchResult result (λ head. HasHead info.now at × (head ≡ head_at info.now at)) (λ kind. FaultHead info.now at kind at) }
{
    let end = match end_of_unit(info, at) {
        Ok(end) => end,
        Err(LengthFault::Cut) => return Err(Kind::Short),
        Err(LengthFault::Reserved) => return Err(Kind::UnitHead),
    };
    parse(info, at, end).ok_or(Kind::UnitHead)
}

// Appends a head.
fn push(heads: &mut Vec<UnitHead>, head: UnitHead) -> Result<(), NoMemory>
    ensures { OnOk result (heads.new.items ≡ heads.old.items ++ head ∷ []) }
{
    heads.push(head)?;
    Ok(())
}

/// The headers of all units of `info`, the body of .debug_info (DWARF 5 section 7.5.1), in the order of the units, which
/// stand one after the other and fill the section. `origin` is the file offset of the section's first byte.
///
/// A header is one of version 5 in the 32-bit format with 8-byte addresses, of a compilation, type, partial or skeleton
/// unit. A refusal names the first byte of a unit: Short where the section ends inside the unit, UnitHead where its
/// header is another one or doesn't fit its unit. `NoMemory` may come wherever memory is wanting.
pub fn heads(alloc: Global, info: &[u8], origin: u64) -> Result<Vec<UnitHead>, Refusal>
    requires { origin + length info.now < 2 ^ 64 }
    ensures tiled { IfOk result (λ heads. Tile info.now heads.items) }
    ensures each { IfOk result (λ heads. All (IsHead info.now) heads.items) }
    ensures whole { IfOk result (λ _. ¬ IsFaulty (FaultHeads info.now)) }
    ensures fault { IfErr result (IsRefusedFor (IsFaultOf (FaultHeads info.now) origin)) }
{
    let mut heads: Vec<UnitHead> = Vec::new(alloc);
    let mut at = 0;
    while at < info.len() {
        let head = match read_head(info, at) {
            Ok(head) => head,
            Err(kind) => {
                return Err(Refusal::Refused(Fault {
                    kind,
                    place: origin + at as u64,
                }));
            }
        };
        push(&mut heads, head)?;
        at += head.len as usize;
    }
    Ok(heads)
}
