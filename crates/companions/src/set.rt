// Sets of address ranges read.
ghost use Rattle.std.specs.Prelude.{◌≡◌, ◌≤◌, ◌<◌, ◌+◌, ◌^◌, ◌++◌, ◌∷◌, ℕ, [], length, IfOk, IfErr, OnOk, MatchOption};
ghost use Rattle.dw_base.specs.declared.fault.Refusal.TheVariants.{Refused};
ghost use Rattle.fixed_width.specs.InitialLengths.{unit_end, IsWhole};
ghost use Rattle.companions.specs.Aranges.{AreRising, BeginsAt, IsSet, HasSet, SetsTile, HaveUnits};
ghost use Rattle.companions.specs.Faults.{FaultSets};
ghost use Rattle.dw_base.specs.Refusals.{IsFaultOf, IsFaulty, IsRefusedFor};

use dw_base::{Fault, Kind, NoMemory, Refusal};
use fixed_width::{end_of_unit, u32_at, version_of_unit};
use std::alloc::Global;

/// A set of address ranges (DWARF 5 section 6.1.2).
#[derive(Clone, Copy, Debug, PartialEq, Eq)]
pub struct ArangeSet {
    /// The place of its first byte in the section.
    pub at: u64,
    /// The number of the unit that it names, counted from 0.
    pub unit: u32,
}

const VERSION: u16 = 2;

// The fewest bytes of a set: its length, its version and debug_info_offset.
const LEAST_SET: usize = 10;

// The number of the unit that begins at a place.
fn unit_at(starts: &[u64], place: u64) -> Option<u32>
    requires few { length starts.now < 2 ^ 32 }
    requires rising { AreRising starts.now }
    ensures { MatchOption result (¬ ((unit : ℕ) × BeginsAt starts.now unit place)) (λ unit. BeginsAt starts.now unit place) }
{
    match starts.binary_search(&place) {
        Ok(unit) => Some(unit as u32),
        Err(_) => None,
    }
}

// The set at a place, which is whole.
fn parse(section: &[u8], starts: &[u64], at: usize, end: usize) -> Option<ArangeSet>
    requires few { length starts.now < 2 ^ 32 }
    requires rising { AreRising starts.now }
    requires whole { IsWhole section.now at }
    requires end { end ≡ unit_end section.now at }
    ensures { MatchOption result (¬ HasSet section.now starts.now at) (λ set. (set.at ≡ at) × IsSet section.now starts.now set) }
{
    if end - at < LEAST_SET || version_of_unit(section, at) != VERSION {
        return None;
    }
    let unit = unit_at(starts, u64::from(u32_at(section, at + 6)))?;
    Some(ArangeSet {
        at: at as u64,
        unit,
    })
}

// Appends a set.
fn push(sets: &mut Vec<ArangeSet>, set: ArangeSet) -> Result<(), NoMemory>
    ensures { OnOk result (sets.new.items ≡ sets.old.items ++ set ∷ []) }
{
    sets.push(set)?;
    Ok(())
}

// A refusal at a place of the section.
fn refused(kind: Kind, origin: u64, at: usize) -> Refusal
    requires { origin + at < 2 ^ 64 }
    ensures { result ≡ Refused (record { kind = kind; place = origin + at }) }
{
    Refusal::Refused(Fault {
        kind,
        place: origin + at as u64,
    })
}

/// The sets of `section`, the body of .debug_aranges (DWARF 5 section 6.1.2), which stand one after the other and fill the
/// section. `starts` are the places of the units in .debug_info, by their numbers, and `origin` is the file offset of the
/// section's first byte.
///
/// A set is one of version 2 in the 32-bit format, whose debug_info_offset is where a unit begins. A refusal names the
/// first byte of a set: Short where the set leaves the section or its length is a reserved one, from 0xfffffff0 on, and
/// Aranges where it is whole, and its version is another one, its length is below 6 or no unit begins at its
/// debug_info_offset. `NoMemory` may come wherever memory is wanting.
pub fn read_aranges(
    alloc: Global,
    section: &[u8],
    starts: &Vec<u64>,
    origin: u64,
) -> Result<Vec<ArangeSet>, Refusal>
    requires few { length starts.now.items < 2 ^ 32 }
    requires rising { AreRising starts.now.items }
    requires room { origin + length section.now < 2 ^ 64 }
    ensures tiled { IfOk result (λ sets. SetsTile section.now starts.now.items sets.items) }
    ensures units { IfOk result (λ sets. HaveUnits (length starts.now.items) sets.items) }
    ensures whole { IfOk result (λ _. ¬ IsFaulty (FaultSets section.now starts.now.items)) }
    ensures fault { IfErr result (IsRefusedFor (IsFaultOf (FaultSets section.now starts.now.items) origin)) }
{
    let mut sets: Vec<ArangeSet> = Vec::new(alloc);
    let mut at = 0;
    while at < section.len() {
        let Ok(end) = end_of_unit(section, at) else {
            return Err(refused(Kind::Short, origin, at));
        };
        let Some(set) = parse(section, starts, at, end) else {
            return Err(refused(Kind::Aranges, origin, at));
        };
        push(&mut sets, set)?;
        at = end;
    }
    Ok(sets)
}
