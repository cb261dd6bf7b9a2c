// Line number programs, by hand.
use crate::check_tests::is_checked;
use crate::test_files::{is_certified, is_unwritten, is_written, shrunk, with_bytes};
use std::alloc::{AllocError, Global};
use std::test::Fail;

/// A line number program without opcodes.
pub const NO_ROWS: [u8; 34] = [
    0x1e, 0, 0, 0, 5, 0, 8, 0, 0x16, 0, 0, 0, 1, 1, 1, 0xfb, 0x0e, 0x0d, 0, 1, 1, 1, 1, 0, 0, 0, 1,
    0, 0, 1, 0, 0, 0, 0,
];

/// One of two rows: address 0x1000 and line 1, address 0x1004 and line 3, and an end at 0x1008.
pub const TWO_ROWS: [u8; 52] = [
    0x30, 0, 0, 0, 5, 0, 8, 0, 0x16, 0, 0, 0, 1, 1, 1, 0xfb, 0x0e, 0x0d, 0, 1, 1, 1, 1, 0, 0, 0, 1,
    0, 0, 1, 0, 0, 0, 0, 0, 9, 2, 0, 0x10, 0, 0, 0, 0, 0, 0, 1, 0x4c, 2, 4, 0, 1, 1,
];

// The same rows with a padded operand.
const PADDED: [u8; 53] = [
    0x31, 0, 0, 0, 5, 0, 8, 0, 0x16, 0, 0, 0, 1, 1, 1, 0xfb, 0x0e, 0x0d, 0, 1, 1, 1, 1, 0, 0, 0, 1,
    0, 0, 1, 0, 0, 0, 0, 0, 9, 2, 0, 0x10, 0, 0, 0, 0, 0, 0, 1, 0x4c, 2, 0x84, 0, 0, 1, 1,
];

/// The least program of these rows: with the range 49 const_add_pc advances by 4.
pub const LEAST_TWO_ROWS: [u8; 43] = [
    0x27, 0, 0, 0, 5, 0, 8, 0, 0x16, 0, 0, 0, 1, 1, 1, 0xd4, 0x31, 0x0d, 0, 1, 1, 1, 1, 0, 0, 0, 1,
    0, 0, 1, 0, 0, 0, 0, 2, 0x80, 0x20, 1, 0xff, 8, 0, 1, 1,
];

// One whose address passes 2^64 from the first row to the second.
const WRAP: [u8; 56] = [
    0x34, 0, 0, 0, 5, 0, 8, 0, 0x16, 0, 0, 0, 1, 1, 1, 0xfb, 0x0e, 0x0d, 0, 1, 1, 1, 1, 0, 0, 0, 1,
    0, 0, 1, 0, 0, 0, 0, 0, 9, 2, 0xff, 0xff, 0xff, 0xff, 0xff, 0xff, 0xff, 0xff, 1, 2, 4, 3, 1, 1,
    2, 4, 0, 1, 1,
];

const LEAST_WRAP: [u8; 51] = [
    0x2f, 0, 0, 0, 5, 0, 8, 0, 0x16, 0, 0, 0, 1, 1, 1, 0xd3, 0x31, 0x0d, 0, 1, 1, 1, 1, 0, 0, 0, 1,
    0, 0, 1, 0, 0, 0, 0, 0, 9, 2, 0xff, 0xff, 0xff, 0xff, 0xff, 0xff, 0xff, 0xff, 1, 0xff, 8, 0, 1,
    1,
];

/// The one of a small compiled file: line 1 at 0x401000, line 2 at 0x401004, and an end at 0x401010.
pub const SAMPLE: [u8; 76] = [
    0x48, 0, 0, 0, 5, 0, 8, 0, 0x2a, 0, 0, 0, 1, 1, 1, 0xfb, 0x0e, 0x0d, 0, 1, 1, 1, 1, 0, 0, 0, 1,
    0, 0, 1, 1, 1, 0x1f, 1, 4, 0, 0, 0, 2, 1, 0x1f, 2, 0x0f, 2, 0, 0, 0, 0, 0, 0, 0, 0, 0, 0, 5, 7,
    0, 9, 2, 0, 0x10, 0x40, 0, 0, 0, 0, 0, 1, 5, 0x0a, 0x4b, 2, 0x0c, 0, 1, 1,
];

/// The least program of these rows, with line_base -17 and line_range 19.
pub const LEAST_SAMPLE: [u8; 69] = [
    0x41, 0, 0, 0, 5, 0, 8, 0, 0x2a, 0, 0, 0, 1, 1, 1, 0xef, 0x13, 0x0d, 0, 1, 1, 1, 1, 0, 0, 0, 1,
    0, 0, 1, 1, 1, 0x1f, 1, 4, 0, 0, 0, 2, 1, 0x1f, 2, 0x0f, 2, 0, 0, 0, 0, 0, 0, 0, 0, 0, 0, 5, 7,
    2, 0x80, 0xa0, 0x80, 2, 1, 5, 0x0a, 0x6b, 8, 0, 1, 1,
];

#[test]
fn least_programs(rt: HostRuntime) -> Result<(), Fail> {
    let alloc = rt.alloc();
    let table: [(&[u8], &[u8]); 5] = [
        (&NO_ROWS, &NO_ROWS),
        (&TWO_ROWS, &LEAST_TWO_ROWS),
        (&PADDED, &LEAST_TWO_ROWS),
        (&WRAP, &LEAST_WRAP),
        (&SAMPLE, &LEAST_SAMPLE),
    ];
    for (section, least) in table {
        let answer = shrunk(alloc, &[(".debug_line", section)])?;
        is_written(&rt, alloc, &answer, &[(".debug_line", least)])?;
    }
    // Under a minimum_instruction_length of 4 no other opcode advances by 4,098.
    let mut odd = with_bytes(alloc, &NO_ROWS, &[(0, 0x2d), (12, 4)])?;
    odd.extend_from_slice(&[0, 9, 2, 2, 0x10, 0, 0, 0, 0, 0, 0, 1, 0, 1, 1])?;
    let mut least = with_bytes(alloc, &NO_ROWS, &[(0, 0x25), (12, 4)])?;
    least.extend_from_slice(&[9, 2, 0x10, 1, 0, 1, 1])?;
    let answer = shrunk(alloc, &[(".debug_line", &odd)])?;
    is_written(&rt, alloc, &answer, &[(".debug_line", &least)])?;
    // Of the one without rows: a run of all 65,280 pairs, with the number 0.
    let answer = shrunk(alloc, &[(".debug_line", &NO_ROWS)])?;
    is_certified(&rt, alloc, &answer, &[1, 0x80, 0xfe, 3, 0])
}

// A program of 1,048,576 rows, each at address 0 and 1,000 lines after the one before. Under every pair a row costs 4 bytes.
fn many_rows(alloc: Global) -> Result<Vec<u8>, AllocError> {
    let length: u32 = 30 + 4_194_307;
    let mut section = length.to_le_bytes().to_vec(alloc)?;
    section.extend_from_slice(&NO_ROWS[4..])?;
    for _ in 0..1 << 20 {
        section.extend_from_slice(&[3, 0xe8, 7, 1])?;
    }
    section.extend_from_slice(&[0, 1, 1])?;
    Ok(section)
}

#[test]
fn a_program_of_many_rows(rt: HostRuntime) -> Result<(), Fail> {
    let alloc = rt.alloc();
    let many = many_rows(alloc)?;
    let answer = shrunk(alloc, &[(".debug_line", &many)])?;
    is_written(&rt, alloc, &answer, &[(".debug_line", &many)])?;
    // one different step, which has to be counted under each of the 65,280 pairs
    is_certified(&rt, alloc, &answer, &[1, 0x80, 0xfe, 3, 1])?;
    let files: [&[u8]; 3] = [&answer.output, &answer.output, &answer.certificate];
    is_checked(&rt, alloc, files, &[], 0, "accepted\n")
}

#[test]
fn a_program_that_leaves_its_section(rt: HostRuntime) -> Result<(), Fail> {
    let answer = shrunk(rt.alloc(), &[(".debug_line", &TWO_ROWS[..51])])?;
    is_unwritten(&rt, &answer, 3, "refused Short at 64\n");
    Ok(())
}
