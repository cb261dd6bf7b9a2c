// Sections whose least programs are known from elsewhere, or worked out from the costs of their steps, and sections whose
// faults are known.
use dw_base::{Fault, Kind, Refusal, Span};
use line_machine::Head;
use line_write::{read_lines, shrink_lines};
use std::test::Fail;

// One program in which an operand is padded. With the range 49 const_add_pc advances by 4, and of the line bases under
// which a special opcode advances the line by 2 as well -44 is the least.
const PADDED: [u8; 53] = [
    0x31, 0, 0, 0, 5, 0, 8, 0, 0x16, 0, 0, 0, 1, 1, 1, 0xfb, 0x0e, 0x0d, 0, 1, 1, 1, 1, 0, 0, 0, 1,
    0, 0, 1, 0, 0, 0, 0, 0, 9, 2, 0, 0x10, 0, 0, 0, 0, 0, 0, 1, 0x4c, 2, 0x84, 0, 0, 1, 1,
];

const LEAST: [u8; 43] = [
    0x27, 0, 0, 0, 5, 0, 8, 0, 0x16, 0, 0, 0, 1, 1, 1, 0xd4, 0x31, 0x0d, 0, 1, 1, 1, 1, 0, 0, 0, 1,
    0, 0, 1, 0, 0, 0, 0, 2, 0x80, 0x20, 1, 0xff, 8, 0, 1, 1,
];

// The line number program of a small compiled file.
const SAMPLE: [u8; 76] = [
    0x48, 0, 0, 0, 5, 0, 8, 0, 0x2a, 0, 0, 0, 1, 1, 1, 0xfb, 0x0e, 0x0d, 0, 1, 1, 1, 1, 0, 0, 0, 1,
    0, 0, 1, 1, 1, 0x1f, 1, 4, 0, 0, 0, 2, 1, 0x1f, 2, 0x0f, 2, 0, 0, 0, 0, 0, 0, 0, 0, 0, 0, 5, 7,
    0, 9, 2, 0, 0x10, 0x40, 0, 0, 0, 0, 0, 1, 5, 0x0a, 0x4b, 2, 0x0c, 0, 1, 1,
];

const LEAST_SAMPLE: [u8; 69] = [
    0x41, 0, 0, 0, 5, 0, 8, 0, 0x2a, 0, 0, 0, 1, 1, 1, 0xef, 0x13, 0x0d, 0, 1, 1, 1, 1, 0, 0, 0, 1,
    0, 0, 1, 1, 1, 0x1f, 1, 4, 0, 0, 0, 2, 1, 0x1f, 2, 0x0f, 2, 0, 0, 0, 0, 0, 0, 0, 0, 0, 0, 5, 7,
    2, 0x80, 0xa0, 0x80, 2, 1, 5, 0x0a, 0x6b, 8, 0, 1, 1,
];

// The same program as the first; one whose extended length is padded and which goes on after its last sequence; one with
// a padded discriminator; one with the opcode base 10, where 10 and 12 are special, and other tables, whose end is 22
// instructions away, as const_add_pc advances with the range 11 alone; and one without rows.
const PROGRAMS: [u8; 233] = [
    0x31, 0, 0, 0, 5, 0, 8, 0, 0x16, 0, 0, 0, 1, 1, 1, 0xfb, 0x0e, 0x0d, 0, 1, 1, 1, 1, 0, 0, 0, 1,
    0, 0, 1, 0, 0, 0, 0, 0, 9, 2, 0, 0x10, 0, 0, 0, 0, 0, 0, 1, 0x4c, 2, 0x84, 0, 0, 1, 1, 0x28, 0,
    0, 0, 5, 0, 8, 0, 0x16, 0, 0, 0, 1, 1, 1, 0xfb, 0x0e, 0x0d, 0, 1, 1, 1, 1, 0, 0, 0, 1, 0, 0, 1,
    0, 0, 0, 0, 0x4c, 0, 0x81, 0x80, 0, 1, 6, 2, 0x81, 0, 0x2f, 0, 0, 0, 5, 0, 8, 0, 0x16, 0, 0, 0,
    1, 1, 1, 0xfb, 0x0e, 0x0d, 0, 1, 1, 1, 1, 0, 0, 0, 1, 0, 0, 1, 0, 0, 0, 0, 0, 0x83, 0, 4, 0x81,
    0, 3, 0xff, 0x7f, 0x0b, 0x0c, 0x80, 0, 1, 0, 1, 1, 0x28, 0, 0, 0, 5, 0, 8, 0, 0x14, 0, 0, 0, 1,
    1, 1, 0xfb, 0x0e, 0x0a, 0, 1, 1, 1, 1, 0, 0, 0, 1, 1, 2, 0x83, 0, 4, 3, 0x8a, 0, 0x0a, 0x0c, 8,
    2, 0x85, 0, 0, 1, 1, 0x25, 0, 0, 0, 5, 0, 8, 0, 0x16, 0, 0, 0, 1, 1, 1, 0xfb, 0x0e, 0x0d, 0, 1,
    1, 1, 1, 0, 0, 0, 1, 0, 0, 1, 0, 0, 0, 0, 5, 0x87, 0, 6, 9, 1, 0,
];

const LEAST_PROGRAMS: [u8; 199] = [
    0x27, 0, 0, 0, 5, 0, 8, 0, 0x16, 0, 0, 0, 1, 1, 1, 0xd4, 0x31, 0x0d, 0, 1, 1, 1, 1, 0, 0, 0, 1,
    0, 0, 1, 0, 0, 0, 0, 2, 0x80, 0x20, 1, 0xff, 8, 0, 1, 1, 0x22, 0, 0, 0, 5, 0, 8, 0, 0x16, 0, 0,
    0, 1, 1, 1, 0xfb, 0x0e, 0x0d, 0, 1, 1, 1, 1, 0, 0, 0, 1, 0, 0, 1, 0, 0, 0, 0, 0x4c, 0, 1, 1,
    0x27, 0, 0, 0, 5, 0, 8, 0, 0x16, 0, 0, 0, 1, 1, 1, 0xfb, 0x0e, 0x0d, 0, 1, 1, 1, 1, 0, 0, 0, 1,
    0, 0, 1, 0, 0, 0, 0, 0x0b, 0, 2, 4, 1, 0x11, 0, 1, 1, 0x25, 0, 0, 0, 5, 0, 8, 0, 0x17, 0, 0, 0,
    1, 1, 1, 0xfb, 0x0b, 0x0d, 0, 1, 1, 1, 1, 0, 0, 0, 1, 0, 0, 1, 1, 2, 0x83, 0, 4, 0x17, 0x0f, 8,
    0, 1, 1, 0x1e, 0, 0, 0, 5, 0, 8, 0, 0x16, 0, 0, 0, 1, 1, 1, 0xfb, 0x0e, 0x0d, 0, 1, 1, 1, 1, 0,
    0, 0, 1, 0, 0, 1, 0, 0, 0, 0,
];

// Programs with the opcode bases 11 and 12, where 11 and 12 are the first special opcodes, and one whose address passes 2^64.
const OTHER_BASES: [u8; 149] = [
    0x2c, 0, 0, 0, 5, 0, 8, 0, 0x14, 0, 0, 0, 1, 1, 1, 0xfb, 0x0e, 0x0b, 0, 1, 1, 1, 1, 0, 0, 0, 1,
    0, 0, 0, 0, 0, 3, 0x8a, 0, 0x0a, 0x0b, 0x0c, 5, 0x87, 0, 1, 2, 0x84, 0, 0, 1, 1, 0x26, 0, 0, 0,
    5, 0, 8, 0, 0x15, 0, 0, 0, 1, 1, 1, 0xfb, 0x0e, 0x0c, 0, 1, 1, 1, 1, 0, 0, 0, 1, 0, 0, 0, 0, 0,
    0, 3, 0x8a, 0, 0x0b, 0x0c, 0, 0x81, 0, 1, 0x37, 0, 0, 0, 5, 0, 8, 0, 0x16, 0, 0, 0, 1, 1, 1,
    0xfb, 0x0e, 0x0d, 0, 1, 1, 1, 1, 0, 0, 0, 1, 0, 0, 1, 0, 0, 0, 0, 0, 9, 2, 0xff, 0xff, 0xff,
    0xff, 0xff, 0xff, 0xff, 0xff, 1, 2, 0x84, 0, 3, 0x81, 0, 1, 2, 0x84, 0, 0, 1, 1,
];

const LEAST_OTHER_BASES: [u8; 134] = [
    0x28, 0, 0, 0, 5, 0, 8, 0, 0x16, 0, 0, 0, 1, 1, 1, 0xd5, 0x31, 0x0d, 0, 1, 1, 1, 1, 0, 0, 0, 1,
    0, 0, 1, 0, 0, 0, 0, 0x0a, 0x3d, 0x34, 5, 7, 1, 8, 0, 1, 1, 0x23, 0, 0, 0, 5, 0, 8, 0, 0x16, 0,
    0, 0, 1, 1, 1, 0xfb, 0x0e, 0x0d, 0, 1, 1, 1, 1, 0, 0, 0, 1, 0, 0, 1, 0, 0, 0, 0, 0x0b, 0x17, 0,
    1, 1, 0x2f, 0, 0, 0, 5, 0, 8, 0, 0x16, 0, 0, 0, 1, 1, 1, 0xd3, 0x31, 0x0d, 0, 1, 1, 1, 1, 0, 0,
    0, 1, 0, 0, 1, 0, 0, 0, 0, 0, 9, 2, 0xff, 0xff, 0xff, 0xff, 0xff, 0xff, 0xff, 0xff, 1, 0xff, 8,
    0, 1, 1,
];

// The last of these programs has no rows, and stays. No step is needed to show that it is least: under each of the 65,280
// pairs the number is 0.
#[test]
fn known_sections_are_shrunk(rt: HostRuntime) -> Result<(), Fail> {
    let table: [(&[u8], &[u8], &[u64]); 5] = [
        (&PADDED, &LEAST, &[0]),
        (&SAMPLE, &LEAST_SAMPLE, &[0]),
        (&PROGRAMS, &LEAST_PROGRAMS, &[0, 43, 81, 124, 165]),
        (&OTHER_BASES, &LEAST_OTHER_BASES, &[0, 44, 83]),
        (&LEAST_PROGRAMS, &LEAST_PROGRAMS, &[0, 43, 81, 124, 165]),
    ];
    for (section, want, starts) in table {
        let heads = read_lines(rt.alloc(), section, 64).map_err(|_| "refused")?;
        let least = shrink_lines(rt.alloc(), section, &heads).map_err(|_| "no memory")?;
        assert_eq!(rt; least.bytes.as_slice(), want);
        assert_eq!(rt; least.starts.as_slice(), starts);
    }
    let no_rows = &LEAST_PROGRAMS[165..];
    let heads = read_lines(rt.alloc(), no_rows, 64).map_err(|_| "refused")?;
    let least = shrink_lines(rt.alloc(), no_rows, &heads).map_err(|_| "no memory")?;
    assert_eq!(rt; least.bytes.as_slice(), no_rows);
    assert_eq!(rt; least.records.as_slice(), [1, 0x80, 0xfe, 3, 0].as_slice());
    Ok(())
}

// Heads are those of the bytes, worked out by hand.
#[test]
fn programs_are_read(rt: HostRuntime) -> Result<(), Fail> {
    let head = |at, len, opcode_base, tables, program| Head {
        at,
        len,
        min: 1,
        stmt: true,
        base: -5,
        range: 14,
        opcode_base,
        tables,
        program,
    };
    let span = |at, len| Span { at, len };
    let heads = read_lines(rt.alloc(), &OTHER_BASES, 64).map_err(|_| "refused")?;
    let want = [
        head(0, 48, 11, span(28, 4), span(32, 16)),
        head(48, 42, 12, span(77, 4), span(81, 9)),
        head(90, 59, 13, span(120, 4), span(124, 25)),
    ];
    assert_eq!(rt; heads.as_slice(), want.as_slice());
    let none = read_lines(rt.alloc(), &[], 64).map_err(|_| "refused")?;
    assert!(rt; none.is_empty());
    Ok(())
}

// Sections of files whose faults are known, and places in the sections.
const REFUSED: [(&[u8], Kind, u64); 7] = [
    // an operand of the last opcode is cut
    (
        &[
            0x48, 0, 0, 0, 5, 0, 8, 0, 0x26, 0, 0, 0, 1, 1, 1, 0xff, 0xf3, 0x0d, 0, 1, 1, 1, 1, 0,
            0, 0, 1, 0, 0, 1, 0x9c, 0xae, 0xd2, 0xeb, 0xbc, 0x56, 0xea, 0xd5, 8, 0xd9, 0xb6, 0x87,
            0x37, 0xc2, 0x44, 0xfe, 0xec, 0xc0, 0xc8, 0x53, 0, 0x89, 0, 2, 0xa8, 0, 0, 0, 0, 0, 0,
            0x80, 5, 0x28, 0x0b, 0x0b, 2, 5, 3, 0xd7, 0xfe, 0xff, 0xff, 0x7f, 0xb8, 2,
        ],
        Kind::Short,
        76,
    ),
    // the length of an extended opcode is 10, and its code 2
    (
        &[
            0x4f, 0, 0, 0, 5, 0, 8, 0, 0x26, 0, 0, 0, 1, 1, 1, 0xff, 0xf3, 0x0d, 0, 1, 1, 1, 1, 0,
            0, 0, 1, 0, 0, 1, 0x9c, 0xae, 0xd2, 0xeb, 0xbc, 0x56, 0xea, 0xd5, 8, 0xd9, 0xb6, 0x87,
            0x37, 0xc2, 0x44, 0xfe, 0xec, 0xc0, 0xc8, 0x53, 0, 0x8a, 0, 2, 0xa8, 0, 0, 0, 0, 0, 0,
            0x80, 5, 0x28, 0x0b, 0x0b, 2, 5, 3, 0xd7, 0xfe, 0xff, 0xff, 0x7f, 0xb8, 2, 0xa3, 0x80,
            0, 0, 0x81, 0, 1,
        ],
        Kind::LineOp,
        50,
    ),
    // the standard opcode 2 has 129 operands
    (
        &[
            0x19, 0, 0, 0, 5, 0, 8, 0, 0x10, 0, 0, 0, 2, 1, 1, 0xff, 4, 0x0b, 0, 1, 0x81, 0, 1, 1,
            0, 0, 0, 1, 0,
        ],
        Kind::LineHead,
        0,
    ),
    // the version is 21
    (
        &[
            0x3d, 0, 0, 0, 0x15, 0, 8, 0, 0x19, 0, 0, 0, 1, 1, 1, 1, 0x0a, 0x0d, 0, 1, 1, 1, 1, 0,
            0, 0, 1, 0, 0, 1, 0x11, 0x5e, 0x20, 0xe1, 0xea, 0x21, 0x1a, 0, 9, 2, 0xe7, 0xcb, 0x40,
            0, 0, 0, 0, 0, 3, 0x7e, 0xaf, 4, 2, 3, 0x14, 1, 0x0a, 3, 3, 1, 2, 4, 0, 1, 1,
        ],
        Kind::LineHead,
        0,
    ),
    // the length of an extended opcode is 0
    (
        &[
            0x42, 0, 0, 0, 5, 0, 8, 0, 0x13, 0, 0, 0, 8, 1, 0, 0x80, 4, 0x0a, 0, 1, 1, 1, 1, 0, 0,
            0, 1, 0x68, 1, 0, 0, 0, 0, 0, 0, 0, 0xff, 0xff, 0xff, 0xff, 0xff, 0xff, 2, 0xd0, 0x9f,
            0xb9, 0xcb, 0x8a, 0x86, 0xab, 0x92, 7, 3, 0xe6, 0xc5, 0x81, 0x80, 0x80, 0x80, 0x80,
            0x80, 0x80, 0x80, 0x80, 0x80, 0, 0x5d, 0, 1, 1,
        ],
        Kind::LineOp,
        31,
    ),
    // the product of an advance_pc is 8 * 127 * 2^56
    (
        &[
            0x28, 0, 0, 0, 5, 0, 8, 0, 0x13, 0, 0, 0, 8, 1, 1, 0x7f, 0xf3, 0x0a, 0, 1, 1, 1, 1, 0,
            0, 0, 1, 0xfd, 0x13, 0x65, 0x2e, 2, 0x80, 0x80, 0x80, 0x80, 0x80, 0x80, 0x80, 0x80,
            0x7f, 0, 1, 1, 0x19, 0, 0, 0, 5, 0, 8, 0, 0x11, 0, 0, 0, 0xff, 1, 1, 0x80, 2, 0x0c, 0,
            1, 1, 1, 1, 0, 0, 0, 1, 0, 0,
        ],
        Kind::LineValue,
        31,
    ),
    // the unit ends in its header
    (
        &[
            0x0e, 0, 0, 0, 5, 0, 8, 0, 0x11, 0, 0, 0, 2, 1, 1, 0x4a, 2, 0x0c,
        ],
        Kind::LineHead,
        0,
    ),
];

#[test]
fn other_programs_are_refused(rt: HostRuntime) -> Result<(), Fail> {
    for (section, kind, place) in REFUSED {
        let fault = match read_lines(rt.alloc(), section, 64) {
            Ok(_) => Err("accepted")?,
            Err(Refusal::Refused(fault)) => fault,
            Err(Refusal::NoMemory) => Err("no memory")?,
        };
        let place = 64 + place;
        assert_eq!(rt; fault, Fault { kind, place });
    }
    Ok(())
}
