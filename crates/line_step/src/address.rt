// The least bytes that advance an address.
ghost use Rattle.std.specs.Prelude.{◌≡◌, ◌≤◌, ◌<◌, ◌+◌, ◌*◌, ◌/◌, ◌^◌, ℕ, IfSome, IsNone};
ghost use Rattle.leb_codec.specs.LineCosts.{IsLeastCost, AdvanceWithin, AdvanceForm, advance_pc_bytes};
ghost use Rattle.line_step.specs.Formulas.{PartWithin};
ghost use Rattle.line_step.specs.Ways.{IsAddressWay};
ghost use Rattle.line_step.specs.inside.Reaching.{ReachWithin, ReachFixedWithin};
ghost use Rattle.line_step.specs.inside.Search.{IsOperandFor, IsBestWith, IsBestBefore};

use crate::way::{AddressOpcodes, AddressWay, Advance};
use leb_codec::len_u;

/// The last special opcode, counted from 0: opcode 255 where opcode_base is 13.
pub const LAST_SPECIAL: u8 = 242;

const SET_ADDRESS: AddressWay = AddressWay {
    opcodes: AddressOpcodes::SetAddress,
    bytes: 11,
};

// The greatest operand of fixed_advance_pc.
const FIXED_LIMIT: u32 = 65_535;

// The bytes of advance_pc, which is left out where its operand is 0.
fn advance_pc_bytes(operand: u64) -> u32
    ensures bytes { result ≡ advance_pc_bytes operand }
    ensures few { result ≤ 11 }
{
    if operand == 0 { 0 } else { 1 + len_u(operand) }
}

// The greatest number whose unsigned LEB128 has this length.
fn greatest_unsigned(len: u32) -> u64
    requires { len ≤ 9 }
    ensures { result + 1 ≡ 128 ^ len }
{
    (1 << (7 * len)) - 1
}

// The operand of advance_pc that leaves at most `limit` of a distance, in the fewest bytes, and then the least distance.
// None: no operand does so in fewer than 11 bytes.
fn operand_for(distance: u64, scale: u64, limit: u64) -> Option<u64>
    requires { 0 < scale }
    ensures none { IsNone result → (q f : ℕ) → q * scale + f ≡ distance → f ≤ limit → 11 ≤ advance_pc_bytes q }
    ensures some { IfSome result (IsOperandFor distance scale limit) }
    ensures fits { IfSome result (λ q. q < 2 ^ 64) }
{
    if distance <= limit {
        return Some(0);
    }
    let least = (distance - limit - 1) / scale + 1;
    let greatest = distance / scale;
    if least > greatest {
        return None;
    }
    let len = len_u(least);
    if len > 9 {
        return None;
    }
    Some(greatest.min(greatest_unsigned(len)))
}

// The best way with so many const_add_pc and fixed_advance_pc, or set_address where that isn't shorter.
fn way_with(range: u8, min: u8, distance: u64, fixed_adds: u32, const_adds: u32) -> AddressWay
    requires range { 0 < range }
    requires scale { 0 < min }
    requires fixed { fixed_adds ≤ 3 }
    requires consts { const_adds ≤ 10 }
    ensures { IsBestWith range min distance fixed_adds const_adds result }
{
    let scale = u64::from(min);
    let taken = u64::from(const_adds) * u64::from(LAST_SPECIAL / range) * scale;
    if taken > distance {
        return SET_ADDRESS;
    }
    let rest = distance - taken;
    let Some(operand) = operand_for(rest, scale, u64::from(FIXED_LIMIT * fixed_adds)) else {
        return SET_ADDRESS;
    };
    let bytes = const_adds + 3 * fixed_adds + advance_pc_bytes(operand);
    if bytes >= SET_ADDRESS.bytes {
        return SET_ADDRESS;
    }
    let advance = Advance {
        operand,
        const_adds,
        fixed_adds,
        fixed_sum: (rest - operand * scale) as u32,
    };
    AddressWay {
        opcodes: AddressOpcodes::AdvanceBy(advance),
        bytes,
    }
}

// The better of a way and of those with so many const_add_pc and fixed_advance_pc.
fn better_way(
    best: AddressWay,
    range: u8,
    min: u8,
    distance: u64,
    fixed_adds: u32,
    const_adds: u32,
) -> AddressWay
    requires range { 0 < range }
    requires scale { 0 < min }
    requires fixed { fixed_adds ≤ 3 }
    requires consts { const_adds ≤ 10 }
    requires best { IsBestBefore range min distance fixed_adds const_adds best }
    ensures { IsBestBefore range min distance fixed_adds (const_adds + 1) result }
{
    let way = way_with(range, min, distance, fixed_adds, const_adds);
    if way.bytes < best.bytes { way } else { best }
}

// The better of a way and of those with so many fixed_advance_pc.
fn better_fixed(best: AddressWay, range: u8, min: u8, distance: u64, fixed_adds: u32) -> AddressWay
    requires range { 0 < range }
    requires scale { 0 < min }
    requires fixed { fixed_adds ≤ 3 }
    requires best { IsBestBefore range min distance fixed_adds 0 best }
    ensures { IsBestBefore range min distance (fixed_adds + 1) 0 result }
{
    let mut best = best;
    for const_adds in 0..11 {
        // From here on the counts alone take as many bytes.
        if const_adds + 3 * fixed_adds >= best.bytes {
            return best;
        }
        best = better_way(best, range, min, distance, fixed_adds, const_adds);
    }
    best
}

/// The way that is taken to advance the address by a distance: it has the fewest bytes, and among equals first the
/// fewest fixed_advance_pc, then the fewest const_add_pc, then the least sum of fixed operands. set_address is taken
/// where nothing is shorter. `range` is line_range and `min` is minimum_instruction_length, neither of them 0; the
/// distance is in bytes, modulo 2^64 (DWARF 5 section 6.2.5).
pub fn advance_way(range: u8, min: u8, distance: u64) -> AddressWay
    requires range { 0 < range }
    requires scale { 0 < min }
    ensures way { IsAddressWay range min distance result }
    ensures few { result.bytes ≤ 11 }
{
    let mut best = SET_ADDRESS;
    for fixed_adds in 0..4 {
        best = better_fixed(best, range, min, distance, fixed_adds);
    }
    best
}

// The least bytes of opcodes that advance the address by a distance or more, where each fixed_advance_pc may have its greatest
// operand; or those of set_address.
fn reach_bytes(range: u8, min: u8, distance: u64) -> u32
    requires range { 0 < range }
    requires scale { 0 < min }
    ensures least { IsLeastCost (ReachWithin range min distance) result }
    ensures few { result ≤ 11 }
{
    let scale = u64::from(min);
    let once = u64::from(LAST_SPECIAL / range) * scale;
    if distance == 0 {
        return 0;
    }
    if distance <= once {
        return 1;
    }
    if distance <= (2 * once).max(127 * scale) {
        return 2;
    }
    if distance <= u64::from(FIXED_LIMIT).max(16_383 * scale) {
        return 3;
    }
    // From here on advance_pc alone reaches as far as anything of as many bytes.
    1 + len_u((distance - 1) / scale + 1)
}

// The same with one fixed_advance_pc or more.
fn reach_bytes_with_fixed(range: u8, min: u8, distance: u64) -> u32
    requires range { 0 < range }
    requires scale { 0 < min }
    ensures least { IsLeastCost (ReachFixedWithin range min distance) result }
    ensures few { result ≤ 11 }
{
    let rest = distance.saturating_sub(u64::from(FIXED_LIMIT));
    SET_ADDRESS.bytes.min(3 + reach_bytes(range, min, rest))
}

// The least bytes of a distance of whole instructions.
fn whole_bytes(range: u8, min: u8, distance: u64, instructions: u64) -> u32
    requires range { 0 < range }
    requires scale { 0 < min }
    requires whole { distance ≡ instructions * min }
    ensures least { IsLeastCost (AdvanceWithin range min distance) result }
    ensures few { result ≤ 11 }
{
    let once = u64::from(LAST_SPECIAL / range);
    if instructions == 0 {
        return 0;
    }
    if instructions == once {
        return 1;
    }
    if instructions < 128 || instructions == 2 * once {
        return 2;
    }
    if distance <= u64::from(FIXED_LIMIT) {
        return 3;
    }
    1 + len_u(instructions)
}

/// The least number of bytes that advance the address by a distance `d`, in bytes, modulo 2^64. `range` is line_range and
/// `min` is minimum_instruction_length, neither of them 0 (DWARF 5 section 6.2.5).
pub fn advance(range: u8, min: u8, d: u64) -> u32
    requires range { 0 < range }
    requires scale { 0 < min }
    ensures least { IsLeastCost (AdvanceWithin range min d) result }
    ensures few { result ≤ 11 }
{
    let scale = u64::from(min);
    if d % scale == 0 {
        whole_bytes(range, min, d, d / scale)
    } else {
        // Of the opcodes other than set_address fixed_advance_pc alone advances by a part of an instruction.
        reach_bytes_with_fixed(range, min, d)
    }
}

/// The least number of bytes that advance the address by a distance `d` before a special opcode that itself advances it by any
/// number of instructions below what const_add_pc does (DWARF 5 section 6.2.5). `range` is line_range, at most 242, and `min` is
/// minimum_instruction_length, neither of them 0.
pub fn advance_before(range: u8, min: u8, d: u64) -> u32
    requires range { 0 < range }
    requires parts { range ≤ 242 }
    requires scale { 0 < min }
    ensures least { IsLeastCost (PartWithin range min d (242 / range)) result }
    ensures few { result ≤ 11 }
{
    let scale = u64::from(min);
    let taken = u64::from(LAST_SPECIAL / range - 1) * scale;
    let left = d.saturating_sub(taken);
    if d % scale == 0 {
        reach_bytes(range, min, left)
    } else {
        reach_bytes_with_fixed(range, min, left)
    }
}
