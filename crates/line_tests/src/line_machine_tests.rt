// Programs whose rows are known from elsewhere, and programs that have faults.
use crate::rows::{end, row};
use dw_base::{Fault, Kind, Refusal};
use line_machine::{Cursor, Head, Row, count_rows, rows};
use std::alloc::Global;
use std::test::Fail;

// A compiler's program with tables.
const COMPILED: [u8; 76] = [
    0x48, 0, 0, 0, 5, 0, 8, 0, 0x2a, 0, 0, 0, 1, 1, 1, 0xfb, 0x0e, 0x0d, 0, 1, 1, 1, 1, 0, 0, 0, 1,
    0, 0, 1, 1, 1, 0x1f, 1, 4, 0, 0, 0, 2, 1, 0x1f, 2, 0x0f, 2, 0, 0, 0, 0, 0, 0, 0, 0, 0, 0, 5, 7,
    0, 9, 2, 0, 0x10, 0x40, 0, 0, 0, 0, 0, 1, 5, 0x0a, 0x4b, 2, 0x0c, 0, 1, 1,
];

// The address passes 2^64, and const_add_pc appends no row.
const WRAPPED: [u8; 51] = [
    0x2f, 0, 0, 0, 5, 0, 8, 0, 0x16, 0, 0, 0, 1, 1, 1, 0xd3, 0x31, 0x0d, 0, 1, 1, 1, 1, 0, 0, 0, 1,
    0, 0, 1, 0, 0, 0, 0, 0, 9, 2, 255, 255, 255, 255, 255, 255, 255, 255, 1, 255, 8, 0, 1, 1,
];

const TWO_ROWS: [u8; 52] = [
    0x30, 0, 0, 0, 5, 0, 8, 0, 0x16, 0, 0, 0, 1, 1, 1, 0xfb, 0x0e, 0x0d, 0, 1, 1, 1, 1, 0, 0, 0, 1,
    0, 0, 1, 0, 0, 0, 0, 0, 9, 2, 0, 0x10, 0, 0, 0, 0, 0, 0, 1, 0x4c, 2, 4, 0, 1, 1,
];

// The length of the extended opcode has three bytes.
const PADDED: [u8; 40] = [
    0x24, 0, 0, 0, 5, 0, 8, 0, 0x16, 0, 0, 0, 1, 1, 1, 0xfb, 0x0e, 0x0d, 0, 1, 1, 1, 1, 0, 0, 0, 1,
    0, 0, 1, 0, 0, 0, 0, 0x4c, 0, 0x81, 0x80, 0, 1,
];

// With the opcode base 10 the codes 10 and 12 are special.
const BASE_10: [u8; 39] = [
    0x23, 0, 0, 0, 5, 0, 8, 0, 0x13, 0, 0, 0, 1, 1, 1, 0xfb, 0x0e, 0x0a, 0, 1, 1, 1, 1, 0, 0, 0, 1,
    0, 0, 0, 0, 3, 0x0a, 0x0a, 0x0c, 8, 0, 1, 1,
];

// How many rows the program of a section that stands at 64 in the file has, or its fault.
fn count_of(section: &[u8]) -> Result<usize, Fault> {
    let head = Head::read(section, 0, 64)?;
    count_rows(section, &head, 64)
}

// What a cursor over that program answers at the first call and at the second.
fn first_answers(section: &[u8]) -> Result<[Result<Option<Row>, Fault>; 2], Fault> {
    let head = Head::read(section, 0, 64)?;
    let mut cursor = Cursor::new(&head, 64);
    let first = cursor.next(section);
    Ok([first, cursor.next(section)])
}

#[test]
fn known_programs_give_their_rows(rt: HostRuntime) -> Result<(), Fail> {
    let compiled = [row(0x40_1000, 1, 7), row(0x40_1004, 2, 10), end(0x40_1010)];
    let wrapped = [row(u64::MAX, 1, 0), row(3, 2, 0), end(7)];
    let two_rows = [row(0x1000, 1, 0), row(0x1004, 3, 0), end(0x1008)];
    let padded = [row(4, 3, 0), end(4)];
    let base_10 = [row(0, 6, 0), row(0, 3, 0), end(17)];
    let table: [(&[u8], &[Row]); 5] = [
        (&COMPILED, &compiled),
        (&WRAPPED, &wrapped),
        (&TWO_ROWS, &two_rows),
        (&PADDED, &padded),
        (&BASE_10, &base_10),
    ];
    for (section, want) in table {
        let head = Head::read(section, 0, 0).map_err(|_| "no head")?;
        let listed = rows(rt.alloc(), section, &head, 0).map_err(|_| "no rows")?;
        assert_eq!(rt; listed.as_slice(), want);
        assert_eq!(rt; count_of(section), Ok(want.len()));
    }
    Ok(())
}

// A unit whose program has these opcodes, under the line_base -5, the line_range 14 and the opcode_base 13. The program
// begins at 34.
fn unit_of(alloc: Global, min: u8, opcodes: &[u8]) -> Result<Vec<u8>, Fail> {
    let length = u32::try_from(opcodes.len())
        .ok()
        .and_then(|count| count.checked_add(30))
        .ok_or("too long")?;
    let mut unit = length.to_le_bytes().to_vec(alloc)?;
    unit.extend_from_slice(&[5, 0, 8, 0, 0x16, 0, 0, 0, min, 1, 1, 0xfb, 0x0e, 0x0d])?;
    unit.extend_from_slice(&[0, 1, 1, 1, 1, 0, 0, 0, 1, 0, 0, 1, 0, 0, 0, 0])?;
    unit.extend_from_slice(opcodes)?;
    Ok(unit)
}

// The fault of the header or of the rows of a section that stands at 64 in the file.
fn fault_of(alloc: Global, section: &[u8]) -> Result<Fault, Fail> {
    let head = match Head::read(section, 0, 64) {
        Ok(head) => head,
        Err(fault) => return Ok(fault),
    };
    match rows(alloc, section, &head, 64) {
        Ok(_) => Err("accepted")?,
        Err(Refusal::Refused(fault)) => Ok(fault),
        Err(Refusal::NoMemory) => Err("no memory")?,
    }
}

#[test]
fn other_headers_are_refused(rt: HostRuntime) -> Result<(), Fail> {
    // A byte of the header that differs.
    let rows = [
        // unit_length: past the section's end
        (0usize, 0x32u8, Kind::Short),
        (3, 1, Kind::Short),
        // the unit ends in its header
        (0, 0x1d, Kind::LineHead),
        // version, address_size and segment_selector_size
        (4, 4, Kind::LineHead),
        (6, 4, Kind::LineHead),
        (7, 1, Kind::LineHead),
        // header_length: the program begins in the standard lengths, or past the unit
        (8, 0x11, Kind::LineHead),
        (8, 0x29, Kind::LineHead),
        // minimum_instruction_length and maximum_operations_per_instruction
        (12, 0, Kind::LineHead),
        (13, 4, Kind::LineHead),
        // line_range and opcode_base
        (16, 0, Kind::LineHead),
        (17, 9, Kind::LineHead),
        (17, 14, Kind::LineHead),
        // the length of the standard opcode 12
        (29, 0, Kind::LineHead),
    ];
    for (at, byte, kind) in rows {
        let mut section = TWO_ROWS;
        if at < section.len() {
            section[at] = byte;
        }
        let fault = fault_of(rt.alloc(), &section)?;
        assert_eq!(rt; fault, Fault { kind, place: 64 });
    }
    let cut = fault_of(rt.alloc(), &TWO_ROWS[..3])?;
    assert_eq!(rt;
        cut,
        Fault {
            kind: Kind::Short,
            place: 64
        }
    );
    let reserved = fault_of(rt.alloc(), &[0xf0, 0xff, 0xff, 0xff])?;
    assert_eq!(rt;
        reserved,
        Fault {
            kind: Kind::Short,
            place: 64
        }
    );
    Ok(())
}

// What is wrong with opcodes before they give a row, and where, counted from the program's first byte.
#[test]
fn other_opcodes_are_refused(rt: HostRuntime) -> Result<(), Fail> {
    let alloc = rt.alloc();
    let rows: [(&[u8], Kind, u64); 17] = [
        // operands that are cut: a ULEB128, an SLEB128 and a number of two bytes
        (&[2], Kind::Short, 1),
        (&[6, 3, 0x80], Kind::Short, 2),
        (&[6, 9, 0], Kind::Short, 2),
        // an extended opcode whose length is cut, that is cut, and whose operand is cut
        (&[0, 0x80], Kind::Short, 1),
        (&[6, 0, 9, 2, 0], Kind::Short, 1),
        (&[0, 2, 4, 0x80], Kind::Short, 3),
        // 2^64, 2^63 and -2^63 - 1
        (
            &[2, 0x80, 0x80, 0x80, 0x80, 0x80, 0x80, 0x80, 0x80, 0x80, 2],
            Kind::LebWide,
            1,
        ),
        (
            &[3, 0x80, 0x80, 0x80, 0x80, 0x80, 0x80, 0x80, 0x80, 0x80, 1],
            Kind::LebWide,
            1,
        ),
        (
            &[
                3, 0xff, 0xff, 0xff, 0xff, 0xff, 0xff, 0xff, 0xff, 0xff, 0x7e,
            ],
            Kind::LebWide,
            1,
        ),
        // extended opcodes of the length 0, of a code without a meaning, and of a wrong length
        (&[0, 0], Kind::LineOp, 0),
        (&[7, 0, 1, 3], Kind::LineOp, 1),
        (&[0, 2, 1, 0], Kind::LineOp, 0),
        (&[0, 8, 2, 0, 0, 0, 0, 0, 0, 0], Kind::LineOp, 0),
        (&[0, 3, 4, 1, 0], Kind::LineOp, 0),
        // rows of the lines -1 and 2^32, and an advance of 2^64
        (&[3, 0x7e, 1], Kind::LineValue, 2),
        (&[3, 0xff, 0xff, 0xff, 0xff, 0x0f, 1], Kind::LineValue, 6),
        (
            &[2, 0x80, 0x80, 0x80, 0x80, 0x80, 0x80, 0x80, 0x80, 0x80, 1],
            Kind::LineValue,
            0,
        ),
    ];
    for (opcodes, kind, inner) in rows {
        let section = unit_of(alloc, 2, opcodes)?;
        let fault = Fault {
            kind,
            place: 98 + inner,
        };
        assert_eq!(rt; fault_of(alloc, &section)?, fault);
        assert_eq!(rt; count_of(&section), Err(fault));
        assert_eq!(rt; first_answers(&section), Ok([Err(fault), Err(fault)]));
    }
    // A row, and then no end of a sequence.
    let open = fault_of(alloc, &unit_of(alloc, 1, &[1, 6])?)?;
    assert_eq!(rt;
        open,
        Fault {
            kind: Kind::OpenSequence,
            place: 64
        }
    );
    Ok(())
}
