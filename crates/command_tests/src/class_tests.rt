// Why a file isn't accepted that was written for another: what each reason, and each row of what isn't tidy, is said of.
use crate::check_tests::is_checked;
use crate::line_tests::{LEAST_TWO_ROWS, NO_ROWS, TWO_ROWS};
use crate::overlap_tests::units;
use crate::test_files::{MAGIC, elf_file, with_bytes};
use std::alloc::{AllocError, Global};
use std::test::Fail;

// Units by tables at places, each with its entries, and the tables.
type Units<'a> = (&'a [(u8, &'a [u8])], &'a [u8]);

// A file of units and tables.
fn file_of<'a>(alloc: Global, info: &'a [u8], tables: &'a [u8]) -> Result<Vec<u8>, AllocError> {
    elf_file(alloc, &[(".debug_info", info), (".debug_abbrev", tables)])
}

// A declaration without children and columns, in a table of its own,
const ALONE: [u8; 6] = [1, 0x11, 0, 0, 0, 0];

// such a one and another, each in a table of its own,
const TWO_TABLES: [u8; 12] = [1, 0x11, 0, 0, 0, 0, 1, 0x41, 0, 0, 0, 0];

// these in the other order,
const OTHER_ORDER: [u8; 12] = [1, 0x41, 0, 0, 0, 0, 1, 0x11, 0, 0, 0, 0];

// the first one twice,
const SAME_TWICE: [u8; 12] = [1, 0x11, 0, 0, 0, 0, 1, 0x11, 0, 0, 0, 0];

// a declaration with children and one without,
const TWO: [u8; 11] = [1, 0x11, 1, 0, 0, 2, 0x34, 0, 0, 0, 0];

// and one with children and two without, which are alike.
const ALIKE: [u8; 16] = [1, 0x11, 1, 0, 0, 2, 0x34, 0, 0, 0, 3, 0x34, 0, 0, 0, 0];

// Two units without children by one table, and by two.
const ONCE: [(u8, &[u8]); 2] = [(0, &[1]), (0, &[1])];

const TWICE: [(u8, &[u8]); 2] = [(0, &[1]), (6, &[1])];

// IN, OUT, and what is said. The first byte of .debug_info is 64, and .debug_abbrev stands behind units of 12 bytes and their entries.
const UNTIDY: [(Units<'static>, Units<'static>, &str); 12] = [
    // a table before one that stood in front of it
    (
        (&TWICE, &TWO_TABLES),
        (&[(6, &[1]), (0, &[1])], &OTHER_ORDER),
        "rejected class 90\n",
    ),
    // one that begins inside another
    (
        (&[(0, &[1, 2, 0]), (5, &[2])], &TWO),
        (&[(0, &[1, 2, 0]), (5, &[2])], &TWO),
        "rejected class 97\n",
    ),
    // one with a declaration that no entry has
    (
        (&[(0, &[1, 0])], &TWO),
        (&[(0, &[1, 0])], &TWO),
        "rejected class 78\n",
    ),
    // one whose declarations aren't those of the table in IN, one for one
    (
        (&[(0, &[1, 2, 3, 0])], &ALIKE),
        (&[(0, &[1, 2, 2, 0])], &TWO),
        "rejected class 80\n",
    ),
    // one with the code 129, where 1 has a byte less
    (
        (&[(0, &[0x81, 1])], &[0x81, 1, 0x11, 0, 0, 0, 0]),
        (&[(0, &[0x81, 1])], &[0x81, 1, 0x11, 0, 0, 0, 0]),
        "rejected class 78\n",
    ),
    // a byte that no table has
    (
        (&[(0, &[1])], &ALONE),
        (&[(0, &[1])], &[1, 0x11, 0, 0, 0, 0, 0]),
        "rejected class 83\n",
    ),
    // one table for two, which is said of the end of .debug_abbrev
    (
        (&TWICE, &SAME_TWICE),
        (&ONCE, &ALONE),
        "rejected class 96\n",
    ),
    // a code that falls, in the second declaration
    (
        (&[(0, &[2, 1, 0])], &[2, 0x11, 1, 0, 0, 1, 0x34, 0, 0, 0, 0]),
        (&[(0, &[2, 1, 0])], &[2, 0x11, 1, 0, 0, 1, 0x34, 0, 0, 0, 0]),
        "rejected class 84\n",
    ),
    // an entry that no longer shares its declaration with the one before it
    (
        (&[(0, &[1, 2, 2, 3, 0])], &ALIKE),
        (&[(0, &[1, 2, 3, 3, 0])], &ALIKE),
        "rejected class 78\n",
    ),
    // a byte behind the tree of the second unit
    (
        (&ONCE, &ALONE),
        (&[(0, &[1]), (0, &[1, 0])], &ALONE),
        "rejected class 77\n",
    ),
    // a code in a byte too many
    (
        (&[(0, &[1])], &ALONE),
        (&[(0, &[1])], &[0x81, 0, 0x11, 0, 0, 0, 0]),
        "rejected class 77\n",
    ),
    // another tag in the second unit
    (
        (&TWICE, &TWO_TABLES),
        (&ONCE, &ALONE),
        "rejected differs 1 0\n",
    ),
];

#[test]
fn units_and_tables_that_are_untidy(rt: HostRuntime) -> Result<(), Fail> {
    let alloc = rt.alloc();
    for ((old, old_tables), (new, new_tables), said) in UNTIDY {
        let old = units(alloc, old)?;
        let input = file_of(alloc, &old, old_tables)?;
        let new = units(alloc, new)?;
        let output = file_of(alloc, &new, new_tables)?;
        is_checked(&rt, alloc, [&input, &output, &MAGIC], &[], 7, said)?;
    }
    Ok(())
}

/// A line number program without opcodes, whose opcode_base is 10.
pub const TEN: [u8; 31] = [
    0x1b, 0, 0, 0, 5, 0, 8, 0, 0x13, 0, 0, 0, 1, 1, 1, 0xfb, 0x0e, 0x0a, 0, 1, 1, 1, 1, 0, 0, 0, 1,
    0, 0, 0, 0,
];

// Two sections with the same bytes at 64 and 66, whose offsets stand at 200 and 264; and the headers of a file without debug sections, which
// begin at 80 behind names that end at 75.
#[test]
fn sections_that_are_untidy(rt: HostRuntime) -> Result<(), Fail> {
    let alloc = rt.alloc();
    let texts = elf_file(
        alloc,
        &[(".debug_str", b"a\0"), (".debug_line_str", b"a\0")],
    )?;
    let exchanged = with_bytes(alloc, &texts, &[(200, 66), (264, 64)])?;
    let bare = elf_file(alloc, &[])?;
    let mut later = Vec::new(alloc);
    for (at, byte) in bare.iter().enumerate() {
        if at == 80 {
            later.extend_from_slice(&[0; 8])?;
        }
        later.push(*byte)?;
    }
    let later = with_bytes(alloc, &later, &[(40, 88)])?;
    let filled = with_bytes(alloc, &bare, &[(77, 1)])?;
    let mut longer = bare.as_slice().to_vec(alloc)?;
    longer.push(0)?;
    let few = elf_file(alloc, &[(".debug_line", &TEN)])?;
    let table: [(&[u8], &[u8], &str); 5] = [
        (&texts, &exchanged, "rejected class 64\n"),
        (&bare, &later, "rejected class 88\n"),
        (&bare, &filled, "rejected class 77\n"),
        (&bare, &longer, "rejected class 208\n"),
        (&few, &few, "rejected class 64\n"),
    ];
    for (input, output, said) in table {
        is_checked(&rt, alloc, [input, output, &MAGIC], &[], 7, said)?;
    }
    Ok(())
}

// A contribution without slots, behind whose header are the bytes of lists.
fn contribution(alloc: Global, lists: &[u8]) -> Result<Vec<u8>, AllocError> {
    let length = (lists.len() % 200) as u8 + 8;
    let mut bytes = [length, 0, 0, 0, 5, 0, 8, 0, 0, 0, 0, 0].to_vec(alloc)?;
    bytes.extend_from_slice(lists)?;
    Ok(bytes)
}

// One with a slot, and the list that it names.
fn with_slot(alloc: Global, list: &[u8]) -> Result<Vec<u8>, AllocError> {
    let mut lists = [4u8, 0, 0, 0].to_vec(alloc)?;
    lists.extend_from_slice(list)?;
    let bytes = contribution(alloc, &lists)?;
    with_bytes(alloc, &bytes, &[(8, 1)])
}

// .debug_rnglists stands behind a unit of 17 bytes and a table of 8, at 89. Its list is a byte further on than is due, or ends a byte before
// the contribution does.
#[test]
fn lists_that_are_untidy(rt: HostRuntime) -> Result<(), Fail> {
    let alloc = rt.alloc();
    let lists = contribution(alloc, &[0, 0])?;
    for place in [13u8, 12] {
        let info = units(alloc, &[(0, &[1, place, 0, 0, 0])])?;
        let file = elf_file(
            alloc,
            &[
                (".debug_info", &info),
                (".debug_abbrev", &[1, 0x11, 0, 0x55, 0x17, 0, 0, 0]),
                (".debug_rnglists", &lists),
            ],
        )?;
        is_checked(
            &rt,
            alloc,
            [&file, &file, &MAGIC],
            &[],
            7,
            "rejected class 102\n",
        )?;
    }
    Ok(())
}

#[test]
fn parts_that_differ(rt: HostRuntime) -> Result<(), Fail> {
    let alloc = rt.alloc();
    // another minimum_instruction_length, in the first program and in the second one
    let other = with_bytes(alloc, &NO_ROWS, &[(12, 2)])?;
    let mut both = TWO_ROWS.to_vec(alloc)?;
    both.extend_from_slice(&NO_ROWS)?;
    let mut second = LEAST_TWO_ROWS.to_vec(alloc)?;
    second.extend_from_slice(&other)?;
    // lists that a slot alone names
    let range = with_slot(alloc, &[4, 0, 4, 0])?;
    let longer = with_slot(alloc, &[4, 0, 5, 0])?;
    let location = with_slot(alloc, &[5, 1, 0x30, 0])?;
    let elsewhere = with_slot(alloc, &[5, 1, 0x31, 0])?;
    let table: [(&str, &[u8], &[u8], &str); 5] = [
        (".debug_str", b"a\0", b"b\0", "rejected kept .debug_str\n"),
        (".debug_line", &NO_ROWS, &other, "rejected rows 0\n"),
        (".debug_line", &both, &second, "rejected rows 1\n"),
        (
            ".debug_rnglists",
            &range,
            &longer,
            "rejected table ranges 0\n",
        ),
        (
            ".debug_loclists",
            &location,
            &elsewhere,
            "rejected table locations 0\n",
        ),
    ];
    for (name, old, new, said) in table {
        let input = elf_file(alloc, &[(name, old)])?;
        let output = elf_file(alloc, &[(name, new)])?;
        is_checked(&rt, alloc, [&input, &output, &MAGIC], &[], 7, said)?;
    }
    Ok(())
}

// A certificate with these records.
fn certificate_of(alloc: Global, records: &[u8]) -> Result<Vec<u8>, AllocError> {
    let mut certificate = MAGIC.to_vec(alloc)?;
    certificate.extend_from_slice(records)?;
    Ok(certificate)
}

// With no step of the rows counted the sum is below the size under each pair; where there are no rows there is no step to count, from the
// pair 5 on; and a rank is left over, of a unit without a slot.
#[test]
fn records_that_are_refused(rt: HostRuntime) -> Result<(), Fail> {
    let alloc = rt.alloc();
    let input = elf_file(alloc, &[(".debug_line", &TWO_ROWS)])?;
    let output = elf_file(alloc, &[(".debug_line", &LEAST_TWO_ROWS)])?;
    let low = certificate_of(alloc, &[1, 0x80, 0xfe, 3, 0])?;
    let none = elf_file(alloc, &[(".debug_line", &NO_ROWS)])?;
    let high = certificate_of(alloc, &[1, 5, 0, 0xfb, 0xfd, 3, 1])?;
    let info = units(alloc, &[(0, &[1])])?;
    let unit = file_of(alloc, &info, &ALONE)?;
    let rank = certificate_of(alloc, &[3, 1, 0])?;
    let table: [([&[u8]; 3], &str); 3] = [
        ([&input, &output, &low], "rejected line 0 0\n"),
        ([&none, &none, &high], "rejected line 0 5\n"),
        ([&unit, &unit, &rank], "rejected slot 0 0\n"),
    ];
    for (files, said) in table {
        is_checked(&rt, alloc, files, &[], 7, said)?;
    }
    Ok(())
}
