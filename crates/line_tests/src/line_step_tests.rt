// Costs that are known from elsewhere, and costs by a plain search.
ghost use Rattle.std.specs.Prelude.{◌≤◌, ◌<◌, pos, neg_ℤ, ◌≤ℤ◌};

use leb_codec::{len_s, len_u};
use line_step::{AddressOpcodes, Advance, RowOpcode, advance, advance_way, step, step_way};

#[test]
fn known_steps_cost_what_they_do(rt: HostRuntime) {
    for (range, min, d, want) in [
        (14, 4, 4098, 3),
        (49, 1, 4, 1),
        (14, 1, u64::MAX, 11),
        (255, 1, 0, 0),
    ] {
        assert!(rt; range > 0 && min > 0);
        assert_eq!(rt; advance(range, min, d), want, "at distance {d}");
    }
    for (line, d, want) in [(2, 4, 1), (0, 4096, 4), (1000, 4, 4)] {
        assert!(rt; -1000 <= line && line <= 1000);
        assert_eq!(rt; step(-5, 14, 1, line, d), want, "at line distance {line}");
    }
}

// fixed_advance_pc 0x1002; advance_pc 0x1000 and copy; opcode 255 alone.
#[test]
fn known_ways_are_taken(rt: HostRuntime) {
    let fixed = Advance {
        operand: 0,
        const_adds: 0,
        fixed_adds: 1,
        fixed_sum: 0x1002,
    };
    assert_eq!(rt;
        advance_way(14, 4, 4098).opcodes,
        AddressOpcodes::AdvanceBy(fixed)
    );
    let by_operand = Advance {
        operand: 0x1000,
        const_adds: 0,
        fixed_adds: 0,
        fixed_sum: 0,
    };
    let first = step_way(-44, 49, 1, 0, 0x1000);
    assert_eq!(rt;
        first.address.opcodes,
        AddressOpcodes::AdvanceBy(by_operand)
    );
    assert_eq!(rt;
        (first.line, first.opcode, first.bytes),
        (0, RowOpcode::Copy, 4)
    );
    let second = step_way(-44, 49, 1, 2, 4);
    assert_eq!(rt;
        (second.line, second.opcode, second.bytes),
        (0, RowOpcode::Special(242), 1)
    );
}

// The least of 11 and of the bytes of all numbers of opcodes that reach a small distance.
fn plain_advance(range: u8, min: u8, d: u64) -> u32
    requires { 0 < range }
{
    let unit = u64::from(242 / range);
    let mut least = 11;
    for k in 0..11 {
        for j in 0..4 {
            for q in 0..150 {
                let reached = (u64::from(k) * unit + q) * u64::from(min);
                if reached <= d && d - reached <= 65_535 * u64::from(j) {
                    let operand = if q == 0 { 0 } else { 1 + len_u(q) };
                    least = least.min(k + 3 * j + operand);
                }
            }
        }
    }
    least
}

fn line_bytes(line: i64) -> u32
    ensures { result ≤ 11 }
{
    if line == 0 { 0 } else { 1 + len_s(line) }
}

// The least bytes by copy and by all special opcodes.
fn plain_step(base: i8, range: u8, min: u8, line: i64, d: u64) -> u32
    requires range { 0 < range }
    requires scale { 0 < min }
    requires low { neg_ℤ (pos 1000) ≤ℤ line }
    requires high { line ≤ℤ pos 1000 }
{
    let mut least = 1 + line_bytes(line) + advance(range, min, d);
    for s in 0..243u8 {
        let left = line - i64::from(base) - i64::from(s % range);
        let before = d.wrapping_sub(u64::from(s / range) * u64::from(min));
        least = least.min(1 + line_bytes(left) + advance(range, min, before));
    }
    least
}

#[test]
fn costs_are_those_of_a_plain_search(rt: HostRuntime) {
    for (range, min) in [(14, 1), (14, 4), (1, 3), (255, 2), (60, 1)] {
        assert!(rt; range > 0 && min > 0);
        for d in 0..150 {
            assert_eq!(rt;
                advance(range, min, d),
                plain_advance(range, min, d),
                "at distance {d}"
            );
        }
        for base in [-128, -5, 7] {
            for line in [-129, -65, -64, -6, -5, 0, 1, 8, 9, 20, 64, 70, 150] {
                for d in [0, 1, 4, 17, 70] {
                    let want = plain_step(base, range, min, line, d);
                    assert_eq!(rt;
                        step(base, range, min, line, d),
                        want,
                        "at line distance {line}"
                    );
                }
            }
        }
    }
}
