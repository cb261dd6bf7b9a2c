// The address before a row's special opcode.
ghost use Rattle.std.specs.Prelude.{◌≡◌, ◌≤◌, ◌<◌, ◌*◌, ◌/◌, ◌%◌, true};
ghost use Rattle.leb_codec.specs.LineCosts.{IsLeastCost, AdvanceWithin, last_special, address_distance};
ghost use Rattle.line_sums.specs.inside.Windows.{AreWindows};

use line_step::{advance, advance_before};

// The last special opcode, counted from 0: opcode 255 where opcode_base is 13.
pub const LAST_SPECIAL: u8 = 242;

// Special opcodes that add each number from 0 to `most` to line_base, and how many bytes the address takes before them.
#[derive(Clone, Copy, Debug)]
pub struct Window {
    pub most: u8,
    pub address: u32,
}

// The special opcodes that add up to line_range - 1 to line_base, and those that advance the address furthest, which may
// add less. There may be only one of the two kinds, or one may be as good as both: then it stands twice, and `is_one` says so.
#[derive(Clone, Copy, Debug)]
pub struct Windows {
    pub wide: Window,
    pub last: Window,
    pub is_one: bool,
}

// The bytes that advance the address before a special opcode that itself advances it by `part` instructions.
fn address_before(range: u8, min: u8, distance: u64, part: u8) -> u32
    requires range { 0 < range }
    requires scale { 0 < min }
    ensures least { IsLeastCost (AdvanceWithin range min (address_distance (part * min) distance)) result }
    ensures few { result ≤ 11 }
{
    let taken = u64::from(part) * u64::from(min);
    advance(range, min, distance.wrapping_sub(taken))
}

/// The two kinds of special opcodes for an address distance.
pub fn windows_for(range: u8, min: u8, distance: u64) -> Windows
    requires range { 0 < range }
    requires scale { 0 < min }
    ensures windows { AreWindows range min distance result }
    ensures wide_few { result.wide.address ≤ 11 }
    ensures last_few { result.last.address ≤ 11 }
{
    if range > LAST_SPECIAL {
        return one_kind(last_window(range, min, distance));
    }
    let wide = Window {
        most: range - 1,
        address: advance_before(range, min, distance),
    };
    if wide.address == 0 {
        return one_kind(wide);
    }
    let last = last_window(range, min, distance);
    // Those that add every number are as good where they take no more bytes.
    if wide.address <= last.address {
        return one_kind(wide);
    }
    Windows {
        wide,
        last,
        is_one: false,
    }
}

// Windows of one kind of special opcodes.
fn one_kind(window: Window) -> Windows
    ensures { result ≡ record { wide = window; last = window; is_one = true } }
{
    Windows {
        wide: window,
        last: window,
        is_one: true,
    }
}

// The special opcodes that advance the address furthest.
fn last_window(range: u8, min: u8, distance: u64) -> Window
    requires range { 0 < range }
    requires scale { 0 < min }
    ensures most { result.most ≡ last_special % range }
    ensures address { IsLeastCost (AdvanceWithin range min (address_distance (last_special / range * min) distance)) result.address }
    ensures few { result.address ≤ 11 }
{
    Window {
        most: LAST_SPECIAL % range,
        address: address_before(range, min, distance, LAST_SPECIAL / range),
    }
}
