// Least pairs beside a plain search of all pairs.
ghost use Rattle.std.specs.Prelude.{◌<◌};

use crate::rows::{HEAD, are_rows, end, row};
use line_machine::{Head, Row};
use line_params::{Pair, least_pair};
use line_step::{advance, step};
use std::alloc::Global;
use std::test::Fail;

// Line and address distances of rows, and the address distance of the end of their sequence.
#[derive(Clone, Copy)]
struct Steps<'a> {
    rows: &'a [(i16, u16)],
    end: u16,
}

// The rows of steps from line 1 and address 0 on.
fn rows_of(alloc: Global, steps: &Steps<'_>) -> Result<Vec<Row>, Fail> {
    let mut rows = Vec::new(alloc);
    let mut line = 1u64;
    let mut address = 0u64;
    for (lines, bytes) in steps.rows {
        line = line
            .wrapping_add((i64::from(*lines) + 32768) as u64)
            .wrapping_sub(32768);
        address = address.wrapping_add(u64::from(*bytes));
        rows.push(row(address, line, 0)).map_err(|_| "no memory")?;
    }
    let last = end(address.wrapping_add(u64::from(steps.end)));
    rows.push(last).map_err(|_| "no memory")?;
    Ok(rows)
}

// The bytes of steps under a pair, one by one.
fn plain_bytes(base: i8, range: u8, min: u8, steps: &Steps<'_>) -> u32
    requires range { 0 < range }
    requires scale { 0 < min }
{
    let mut bytes = advance(range, min, u64::from(steps.end));
    for (lines, address) in steps.rows {
        let each = step(base, range, min, i64::from(*lines), u64::from(*address));
        bytes = bytes.wrapping_add(each);
    }
    bytes
}

// The first pair with the fewest bytes: the head's, and then by line_range and line_base.
fn plain_pair(min: u8, steps: &Steps<'_>) -> Pair
    requires { 0 < min }
{
    let mut best = Pair {
        base: -5,
        range: 14,
    };
    let mut least = plain_bytes(best.base, best.range, min, steps);
    for below in 0..u8::MAX {
        for place in 0..=u8::MAX {
            let pair = Pair {
                base: (i64::from(place) - 128) as i8,
                range: below + 1,
            };
            let bytes = plain_bytes(pair.base, pair.range, min, steps);
            if bytes < least {
                best = pair;
                least = bytes;
            }
        }
    }
    best
}

#[test]
fn no_pair_is_better(rt: HostRuntime) -> Result<(), Fail> {
    let table: [(u8, Steps<'_>); 5] = [
        (
            1,
            Steps {
                rows: &[(2, 4), (1, 8), (-1, 3), (5, 20)],
                end: 6,
            },
        ),
        (
            4,
            Steps {
                rows: &[(100, 0), (3, 300), (3, 16), (-70, 64), (127, 4098)],
                end: 0,
            },
        ),
        (
            2,
            Steps {
                rows: &[(9, 1001), (1, 1), (1, 1), (-3, 70), (1, 500)],
                end: 244,
            },
        ),
        // lines beyond what special opcodes take under each line_base, and the first and the last that they take
        (
            1,
            Steps {
                rows: &[
                    (300, 4),
                    (-129, 8),
                    (-128, 4),
                    (2000, 4),
                    (381, 2),
                    (382, 6),
                    (-1500, 40),
                ],
                end: 3,
            },
        ),
        (
            4,
            Steps {
                rows: &[
                    (4000, 8),
                    (-192, 4),
                    (-193, 4),
                    (191, 4),
                    (-192, 4),
                    (3, 8),
                    (-192, 4),
                ],
                end: 12,
            },
        ),
    ];
    for (min, steps) in &table {
        assert!(rt; *min > 0);
        let head = Head { min: *min, ..HEAD };
        let rows = rows_of(rt.alloc(), steps)?;
        assert!(rt; are_rows(&rows));
        let least = least_pair(rt.alloc(), &head, &rows).map_err(|_| "no memory")?;
        assert_eq!(rt; least.pair, plain_pair(*min, steps));
    }
    Ok(())
}

// More than a million equal steps, each of which a special opcode makes, before an end that const_add_pc goes to.
#[test]
fn equal_steps_are_counted(rt: HostRuntime) -> Result<(), Fail> {
    let mut rows = Vec::new(rt.alloc());
    for place in 1..=1u64 << 20 {
        rows.push(row(4 * place, 1 + place, 0))
            .map_err(|_| "no memory")?;
    }
    rows.push(end((4 << 20) + 4)).map_err(|_| "no memory")?;
    assert!(rt; are_rows(&rows));
    let least = least_pair(rt.alloc(), &HEAD, &rows).map_err(|_| "no memory")?;
    let want = Pair {
        base: -45,
        range: 49,
    };
    assert_eq!(rt; least.pair, want);
    Ok(())
}
