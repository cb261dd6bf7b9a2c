// Where a unit ends, which begins with its length.
ghost use Rattle.std.specs.Prelude.{◌≡◌, ◌≤◌, ◌+◌, length, IfOk, IfErr, OnErr};
ghost use Rattle.fixed_width.specs.InitialLengths.{unit_end, version, IsWhole, LeavesSection, FaultLength};

use crate::read::{u16_at, u32_at};

/// Why a unit isn't whole in its section.
#[derive(Clone, Copy, Debug, PartialEq, Eq)]
pub enum LengthFault {
    /// The section ends inside the unit: in its length, or before the last byte that this counts.
    Cut,
    /// The length is a reserved one, from 0xfffffff0 on. 0xffffffff is among them, with which the 64-bit format begins.
    Reserved,
}

// The bytes of a length.
const LENGTH_SIZE: usize = 4;

// The first of the lengths that are reserved.
const FIRST_RESERVED: u32 = 0xffff_fff0;

/// Where the unit at a place of `section` ends: the place after its last byte, by its initial length in the 32-bit format
/// (DWARF 5 section 7.4). A unit is whatever begins with such a length: a unit of .debug_info, a line number program, a set of
/// address ranges, an address table, or a contribution to a list section. Places count from the section's first byte.
///
/// An error comes exactly where the unit isn't whole in the section, or its length is a reserved one: `Reserved` for such a
/// length, wherever the section ends after it, and else `Cut`. No memory.
pub fn end_of_unit(section: &[u8], at: usize) -> Result<usize, LengthFault>
    requires { at ≤ length section.now }
    ensures end { IfOk result (λ end. end ≡ unit_end section.now at) }
    ensures whole { IfOk result (λ _. IsWhole section.now at) }
    ensures leaves { OnErr result (LeavesSection section.now at) }
    ensures fault { IfErr result (FaultLength section.now at) }
{
    let left = section.len() - at;
    if left < LENGTH_SIZE {
        return Err(LengthFault::Cut);
    }
    let length = u32_at(section, at);
    if length >= FIRST_RESERVED {
        return Err(LengthFault::Reserved);
    }
    if length as usize > left - LENGTH_SIZE {
        return Err(LengthFault::Cut);
    }
    Ok(at + LENGTH_SIZE + length as usize)
}

/// The version of the unit at a place of `section`, which follows its initial length (DWARF 5 sections 6.1.2, 6.2.4, 7.5.1
/// and 7.27 to 7.29). It is to stand in the section.
#[inline]
pub fn version_of_unit(section: &[u8], at: usize) -> u16
    requires { at + 6 ≤ length section.now }
    ensures { result ≡ version section.now at }
{
    u16_at(section, at + LENGTH_SIZE)
}
