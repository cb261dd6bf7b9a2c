// The least bytes of a step to a row.
ghost use Rattle.std.specs.Prelude.{◌≡◌, ◌≤◌, ◌<◌, ◌+◌, ◌-◌, ◌*◌, ◌/◌, ◌^◌, ℕ, pos, neg_ℤ, ◌≤ℤ◌, ◌<ℤ◌, ◌-ℤ◌, ◌+ℤ◌, IfSome, IsNone};
ghost use Rattle.leb_codec.specs.LineCosts.{IsLeastCost, StepWithin, SpecialWithin, advance_line_bytes, last_special};
ghost use Rattle.line_step.specs.Ways.{IsRowWay};
ghost use Rattle.line_step.specs.inside.Search.{IsRemainderFor, IsLinePart, IsBestOfPart, IsBestOfParts};

use crate::address::{LAST_SPECIAL, advance, advance_way};
use crate::way::{AddressOpcodes, AddressWay, Advance, RowOpcode, RowWay};
use leb_codec::len_s;

// No opcode: the address stays.
const NO_ADVANCE: AddressWay = AddressWay {
    opcodes: AddressOpcodes::AdvanceBy(Advance {
        operand: 0,
        const_adds: 0,
        fixed_adds: 0,
        fixed_sum: 0,
    }),
    bytes: 0,
};

// The bytes of advance_line, which is left out where its operand is 0.
fn advance_line_bytes(operand: i64) -> u32
    ensures bytes { result ≡ advance_line_bytes operand }
    ensures few { result ≤ 11 }
{
    if operand == 0 { 0 } else { 1 + len_s(operand) }
}

// The greatest number whose signed LEB128 has this length.
fn greatest_signed(len: u32) -> i64
    requires some { 1 ≤ len }
    requires few { len ≤ 9 }
    ensures { result +ℤ pos 1 ≡ pos (64 * 128 ^ (len - 1)) }
{
    (1 << (7 * len - 1)) - 1
}

// What a special opcode adds to line_base, from 0 to `most`, so that what is left of a line distance takes the fewest
// bytes: the number that leaves the nearest to 0, or the least one that leaves as few bytes.
fn remainder_for(line: i64, most: u8) -> u8
    requires low { neg_ℤ (pos (2 ^ 33)) ≤ℤ line }
    requires high { line ≤ℤ pos (2 ^ 33) }
    ensures within { result ≤ most }
    ensures best { IsRemainderFor line most result }
{
    let most_left = i64::from(most);
    if line <= 0 {
        return 0;
    }
    if line <= most_left {
        return line as u8;
    }
    let greatest = greatest_signed(len_s(line - most_left));
    if line <= greatest {
        0
    } else {
        (line - greatest) as u8
    }
}

// A special opcode, and what it leaves of a line distance.
#[derive(Clone, Copy)]
struct LinePart {
    special: u8,
    left: i64,
}

// Of the special opcodes that advance the address by `part` instructions, the one that leaves the fewest bytes of a
// line distance, from which line_base is taken already.
fn line_part(line: i64, range: u8, part: u8) -> LinePart
    requires range { 0 < range }
    requires low { neg_ℤ (pos (2 ^ 33)) ≤ℤ line }
    requires high { line ≤ℤ pos (2 ^ 33) }
    requires part { part ≤ last_special / range }
    ensures { IsLinePart line range part result.special result.left }
{
    let first = part * range;
    let most = (range - 1).min(LAST_SPECIAL - first);
    let remainder = remainder_for(line, most);
    LinePart {
        special: first + remainder,
        left: line - i64::from(remainder),
    }
}

// The best step by a special opcode that advances the address by `part` instructions. None: it has at least `limit`
// bytes.
fn special_way(
    base: i8,
    range: u8,
    min: u8,
    line: i64,
    distance: u64,
    part: u8,
    limit: u32,
) -> Option<RowWay>
    requires range { 0 < range }
    requires scale { 0 < min }
    requires low { neg_ℤ (pos (2 ^ 32)) ≤ℤ line }
    requires high { line ≤ℤ pos (2 ^ 32) }
    requires part { part ≤ last_special / range }
    ensures none { IsNone result → (s n : ℕ) → s ≤ last_special → s / range ≡ part → SpecialWithin base range min line distance s n → limit ≤ n }
    ensures some { IfSome result (IsBestOfPart base range min line distance part) }
    ensures shorter { IfSome result (λ way. way.bytes < limit) }
{
    let row = line_part(line - i64::from(base), range, part);
    let line_bytes = 1 + advance_line_bytes(row.left);
    if line_bytes >= limit {
        return None;
    }
    let left = distance.wrapping_sub(u64::from(part) * u64::from(min));
    // How many bytes the address takes is told without a search for its opcodes.
    if line_bytes + advance(range, min, left) >= limit {
        return None;
    }
    let address = advance_way(range, min, left);
    Some(RowWay {
        address,
        line: row.left,
        opcode: RowOpcode::Special(row.special),
        bytes: line_bytes + address.bytes,
    })
}

// The better of a step and of those by a special opcode that advances the address by `part` instructions.
fn better_step(
    best: RowWay,
    base: i8,
    range: u8,
    min: u8,
    line: i64,
    distance: u64,
    part: u8,
) -> RowWay
    requires range { 0 < range }
    requires scale { 0 < min }
    requires low { neg_ℤ (pos (2 ^ 32)) ≤ℤ line }
    requires high { line ≤ℤ pos (2 ^ 32) }
    requires part { part ≤ last_special / range }
    requires best { IsBestOfParts base range min line distance part best }
    ensures { IsBestOfParts base range min line distance (part + 1) result }
{
    match special_way(base, range, min, line, distance, part, best.bytes) {
        Some(way) => way,
        None => best,
    }
}

// The step by copy.
fn copy_way(base: i8, range: u8, min: u8, line: i64, distance: u64) -> RowWay
    requires range { 0 < range }
    requires scale { 0 < min }
    ensures { IsBestOfParts base range min line distance 0 result }
{
    let address = advance_way(range, min, distance);
    RowWay {
        address,
        line,
        opcode: RowOpcode::Copy,
        bytes: 1 + advance_line_bytes(line) + address.bytes,
    }
}

// The special opcode that makes a step alone, where one does and the step isn't one that copy makes alone: most steps of
// programs are such, and no other way is as short.
fn exact_way(base: i8, range: u8, min: u8, line: i64, distance: u64) -> Option<RowWay>
    requires range { 0 < range }
    requires scale { 0 < min }
    requires low { neg_ℤ (pos (2 ^ 32)) ≤ℤ line }
    requires high { line ≤ℤ pos (2 ^ 32) }
    ensures way { IfSome result (IsRowWay base range min line distance) }
    ensures few { IfSome result (λ way. way.bytes ≡ 1) }
{
    if line == 0 && distance == 0 {
        return None;
    }
    let scale = u64::from(min);
    let part = distance / scale;
    let added = line - i64::from(base);
    if distance % scale != 0
        || part > u64::from(LAST_SPECIAL / range)
        || added < 0
        || added >= i64::from(range)
    {
        return None;
    }
    let special = part * u64::from(range) + added as u64;
    if special > u64::from(LAST_SPECIAL) {
        return None;
    }
    Some(RowWay {
        address: NO_ADVANCE,
        line: 0,
        opcode: RowOpcode::Special(special as u8),
        bytes: 1,
    })
}

/// The way that is taken to step to a row: it has the fewest bytes, and among equals the least opcode, where copy is
/// opcode 1 and below every special opcode. `base` is line_base, `range` is line_range and `min` is
/// minimum_instruction_length, neither of these two 0; `line` is the line distance, from -2^32 to 2^32, and `distance`
/// is the address distance in bytes, modulo 2^64 (DWARF 5 section 6.2.5).
pub fn step_way(base: i8, range: u8, min: u8, line: i64, distance: u64) -> RowWay
    requires range { 0 < range }
    requires scale { 0 < min }
    requires low { neg_ℤ (pos (2 ^ 32)) ≤ℤ line }
    requires high { line ≤ℤ pos (2 ^ 32) }
    ensures way { IsRowWay base range min line distance result }
    ensures few { result.bytes ≤ 18 }
{
    if let Some(way) = exact_way(base, range, min, line, distance) {
        return way;
    }
    let mut best = copy_way(base, range, min, line, distance);
    for part in 0..LAST_SPECIAL / range + 1 {
        best = better_step(best, base, range, min, line, distance, part);
    }
    best
}

/// The least number of bytes of a step to a row: of the opcodes that advance the address and the line, and of the one
/// that appends the row. `base` is line_base, `range` is line_range and `min` is minimum_instruction_length, neither of
/// these two 0; `dl` is the line distance, from -2^32 to 2^32, and `d` is the address distance in bytes, modulo 2^64
/// (DWARF 5 section 6.2.5).
pub fn step(base: i8, range: u8, min: u8, dl: i64, d: u64) -> u32
    requires range { 0 < range }
    requires scale { 0 < min }
    requires low { neg_ℤ (pos (2 ^ 32)) ≤ℤ dl }
    requires high { dl ≤ℤ pos (2 ^ 32) }
    ensures least { IsLeastCost (StepWithin base range min dl d) result }
    ensures few { result ≤ 18 }
{
    step_way(base, range, min, dl, d).bytes
}
