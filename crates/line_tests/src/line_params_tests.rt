// Programs whose shortest form is known from elsewhere.
use crate::rows::{HEAD, MARKED, are_rows, end, row};
use dw_base::Run;
use line_machine::{Head, Row};
use line_params::{Program, shrink_program, write_rows};
use std::test::Fail;

// No row; the address passes 2^64; two rows; a compiler's program; the greatest line and a line 0, far apart; and one
// row that sets every register. Of the runs the first is looked at, which begins with line_range 1 and line_base -128.
#[test]
fn known_programs_are_shrunk(rt: HostRuntime) -> Result<(), Fail> {
    let table: [(&[Row], i8, u8, (u32, u32), &[u8]); 6] = [
        (&[], -5, 14, (65_280, 0), &[]),
        (
            &[row(u64::MAX, 1, 0), row(3, 2, 0), end(7)],
            -45,
            49,
            (129, 2),
            &[
                0, 9, 2, 255, 255, 255, 255, 255, 255, 255, 255, 1, 255, 8, 0, 1, 1,
            ],
        ),
        (
            &[row(0x1000, 1, 0), row(0x1004, 3, 0), end(0x1008)],
            -44,
            49,
            (130, 2),
            &[2, 0x80, 0x20, 1, 255, 8, 0, 1, 1],
        ),
        (
            &[row(0x401000, 1, 7), row(0x401004, 2, 10), end(0x401010)],
            -17,
            19,
            (129, 2),
            &[5, 7, 2, 0x80, 0xa0, 0x80, 2, 1, 5, 10, 0x6b, 8, 0, 1, 1],
        ),
        (
            &[row(0, 0xffff_ffff, 0), row(0, 0, 0), end(0)],
            -5,
            14,
            (65_280, 2),
            &[
                3, 0xfe, 0xff, 0xff, 0xff, 0x0f, 1, 3, 0x81, 0x80, 0x80, 0x80, 0x70, 1, 0, 1, 1,
            ],
        ),
        (
            &[MARKED, end(0)],
            -5,
            14,
            (65_280, 0),
            &[4, 2, 5, 3, 12, 4, 6, 7, 10, 11, 0, 2, 4, 5, 1, 0, 1, 1],
        ),
    ];
    for (rows, base, range, first, want) in table {
        let mut all = Vec::new(rt.alloc());
        all.extend_from_slice(rows).map_err(|_| "no memory")?;
        assert!(rt; are_rows(&all));
        let Program {
            base: line_base,
            range: line_range,
            bytes,
            runs,
        } = shrink_program(rt.alloc(), &HEAD, &all).map_err(|_| "no memory")?;
        assert_eq!(rt; (line_base, line_range), (base, range));
        assert_eq!(rt; bytes.as_slice(), want);
        let (len, number) = first;
        assert_eq!(rt; runs.first(), Some(&Run { len, number }));
    }
    Ok(())
}

// Two rows whose address passes 2^64, and two that are near; a row that sets every register, and one that keeps them; and
// a row far off, which two fixed_advance_pc reach.
#[test]
fn known_rows_are_written(rt: HostRuntime) -> Result<(), Fail> {
    let next = Row {
        address: 4,
        line: 3,
        discriminator: 0,
        block: false,
        prologue: false,
        epilogue: false,
        ..MARKED
    };
    let table: [(&[Row], i8, u8, u8, &[u8]); 4] = [
        (
            &[row(u64::MAX, 1, 0), row(3, 2, 0), end(7)],
            -45,
            49,
            1,
            &[
                0, 9, 2, 255, 255, 255, 255, 255, 255, 255, 255, 1, 255, 8, 0, 1, 1,
            ],
        ),
        (
            &[row(0x1000, 1, 0), row(0x1004, 3, 0), end(0x1008)],
            -44,
            49,
            1,
            &[2, 0x80, 0x20, 1, 255, 8, 0, 1, 1],
        ),
        (
            &[MARKED, next, end(8)],
            -5,
            14,
            1,
            &[
                4, 2, 5, 3, 12, 4, 6, 7, 10, 11, 0, 2, 4, 5, 1, 0x4c, 2, 4, 0, 1, 1,
            ],
        ),
        (
            &[row(131_070, 1, 0), end(131_070)],
            -5,
            14,
            4,
            &[9, 255, 255, 9, 255, 255, 1, 0, 1, 1],
        ),
    ];
    for (rows, base, range, min, want) in table {
        assert!(rt; are_rows(rows) && range > 0 && min > 0);
        let head = Head { min, ..HEAD };
        let bytes = write_rows(rt.alloc(), &head, base, range, rows).map_err(|_| "no memory")?;
        assert_eq!(rt; bytes.as_slice(), want);
    }
    Ok(())
}
