// Records whose verdict is known from elsewhere.
ghost use Rattle.std.specs.Prelude.{◌≡◌, ◌≢◌, ◌<◌, All};
ghost use Rattle.leb_codec.specs.Records.{AreRuns, IsRun};

use crate::rows::{HEAD, MARKED, are_rows, end, row};
use check_lines::{Run, accept_program};
use dw_base::Span;
use line_machine::{Head, Row};
use std::test::Fail;

// A head with the minimum_instruction_length 1, of a program with so many bytes.
fn head(len: u64) -> Head
    ensures { result.min ≡ 1 }
{
    Head {
        program: Span { at: 0, len },
        ..HEAD
    }
}

// All pairs have one number.
fn equal(number: u32) -> [Run; 1]
    ensures runs { AreRuns result }
    ensures fit { All IsRun result }
{
    [Run {
        len: 65_280,
        number,
    }]
}

// One pair has a number of its own.
fn all_but_one(pair: u32, number: u32, others: u32) -> [Run; 3]
    requires first { 0 < pair }
    requires last { pair < 65279 }
    requires other { number ≢ others }
    ensures runs { AreRuns result }
    ensures fit { All IsRun result }
{
    [
        Run {
            len: pair,
            number: others,
        },
        Run { len: 1, number },
        Run {
            len: 65_279 - pair,
            number: others,
        },
    ]
}

// The size of each program is that of its shortest form, or a byte more: then the first pair is refused that has so short a
// one. The numbers are too small at some pair, as large as they have to be, or above the count of steps.
#[test]
fn equal_numbers_are_checked(rt: HostRuntime) -> Result<(), Fail> {
    let two = [row(0x1000, 1, 0), row(0x1004, 3, 0), end(0x1008)];
    let compiled = [row(0x40_1000, 1, 7), row(0x40_1004, 2, 10), end(0x40_1010)];
    let table: [(&[Row], u64, u32, Option<u32>); 14] = [
        (&[], 0, 0, None),
        (&[], 0, 1, Some(0)),
        (&[end(0)], 3, 0, None),
        (&[end(4)], 4, 0, Some(0)),
        (&[end(4)], 4, 1, None),
        (&two, 9, 2, Some(130)),
        (&two, 9, 3, None),
        (&two, 9, 4, Some(0)),
        (&two, 10, 3, Some(48 * 256 + 84)),
        (&compiled, 15, 2, Some(129)),
        (&compiled, 15, 3, None),
        (&compiled, 16, 3, Some(18 * 256 + 111)),
        (&[MARKED, end(0)], 18, 0, None),
        (&[MARKED, end(0)], 19, 0, Some(0)),
    ];
    for (rows, size, number, want) in table {
        assert!(rt; are_rows(rows));
        let told = accept_program(rt.alloc(), &head(size), rows, &equal(number));
        assert_eq!(rt; told, Ok(want), "{size} bytes, {number}");
    }
    Ok(())
}

// Of two steps a special opcode makes the first under line_base 2 and line_range 1 alone, pair 130: there the bytes of both
// are needed, elsewhere those of the first.
#[test]
fn the_number_of_one_pair_is_checked(rt: HostRuntime) -> Result<(), Fail> {
    let rows = [row(200, 3, 0), end(442)];
    assert!(rt; are_rows(&rows));
    let table = [
        (130, 2, 1, None),
        (130, 1, 2, Some(130)),
        (130, 3, 1, Some(130)),
        (129, 2, 1, Some(130)),
        (131, 0, 2, Some(131)),
        (131, 3, 1, Some(130)),
    ];
    for (pair, number, others, want) in table {
        assert!(rt; pair > 0 && pair < 65_279 && number != others);
        let runs = all_but_one(pair, number, others);
        let told = accept_program(rt.alloc(), &head(5), &rows, &runs);
        assert_eq!(rt; told, Ok(want), "{number} at {pair}");
    }
    Ok(())
}
