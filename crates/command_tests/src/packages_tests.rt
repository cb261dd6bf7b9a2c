// The program for debug packages: .debug_line and the entries of lists stay as they are, and columns get the least of the forms that debuggers
// of today read. All bytes were worked out by hand.
use crate::check_tests::is_checked;
use crate::class_tests::TEN;
use crate::device_tests::{held, is_held};
use crate::line_tests::{NO_ROWS, SAMPLE, TWO_ROWS};
use crate::overlap_tests::units;
use crate::range_tests::{TWO_LISTS, contribution};
use crate::sample_tests::{
    CLANG, CLANG_ADDRESSES, CLANG_CERTIFICATE, CLANG_LOCATIONS, CLANG_RANGES, CONVERTED_LOCATIONS,
    GCC, GCC_LOCATIONS, GCC_PAIRS_BEHIND, LEAST_CLANG, LEAST_CLANG_ABBREVS_WITH_LISTS,
    LEAST_CLANG_INFO_WITH_LISTS, LEAST_GCC, LEAST_GCC_ABBREVS_WITH_LISTS,
    LEAST_GCC_INFO_WITH_LISTS, gcc_info,
};
use crate::test_files::{
    BEFORE, CERTIFICATE_BEFORE, MAGIC, elf_file, with_bytes, with_section, words_of,
};
use commands::run_packaged;
use dw_base::MemHost;
use std::alloc::{AllocError, Global};
use std::process::Abort;
use std::test::Fail;

// The first bytes of each certificate for packages.
const PACKED_MAGIC: [u8; 8] = [0x44, 0x57, 0x4d, 0x49, 0x4e, 0x50, 0x31, 0x0a];

/// The certificate of a file with one unit, whose slots all have their smallest sizes.
pub const PACKED_CERTIFICATE: [u8; 10] = [0x44, 0x57, 0x4d, 0x49, 0x4e, 0x50, 0x31, 0x0a, 3, 0];

// What becomes of the file in the manner of gcc: its line number program has no least opcodes, and stays.
const PACKED_GCC: [(&str, &[u8]); 4] = [
    (".debug_info", &LEAST_GCC_INFO_WITH_LISTS),
    (".debug_abbrev", &LEAST_GCC_ABBREVS_WITH_LISTS),
    (".debug_line", &SAMPLE),
    (".debug_loclists", &GCC_LOCATIONS),
];

/// What becomes of the file in the manner of clang: its location list has DW_LLE_offset_pair first, and keeps it.
pub const PACKED_CLANG: [(&str, &[u8]); 6] = [
    (".debug_info", &LEAST_CLANG_INFO_WITH_LISTS),
    (".debug_abbrev", &LEAST_CLANG_ABBREVS_WITH_LISTS),
    (".debug_line", &NO_ROWS),
    (".debug_rnglists", &CLANG_RANGES),
    (".debug_loclists", &CLANG_LOCATIONS),
    (".debug_addr", &CLANG_ADDRESSES),
];

// The range list of clang with DW_RLE_start_length, whose address is in the table, for the first range: DW_RLE_startx_length has 7 bytes less.
const LONG_RANGES: [u8; 30] = [
    0x1a, 0, 0, 0, 5, 0, 8, 0, 1, 0, 0, 0, 4, 0, 0, 0, 7, 0, 0x10, 0x40, 0, 0, 0, 0, 0, 0x10, 3, 1,
    8, 0,
];

// The same, and the location list, with padding in each number; that of the length of the second expression is one more, since it holds
// another such length.
const PADDED_RANGES: [u8; 34] = [
    0x1e, 0, 0, 0, 5, 0, 8, 0, 1, 0, 0, 0, 4, 0, 0, 0, 7, 0, 0x10, 0x40, 0, 0, 0, 0, 0, 0x90, 0, 3,
    0x81, 0x80, 0, 0x88, 0, 0,
];

const PADDED_LOCATIONS: [u8; 41] = [
    0x25, 0, 0, 0, 5, 0, 8, 0, 1, 0, 0, 0, 4, 0, 0, 0, 1, 0x80, 0, 4, 0x80, 0, 0x84, 0, 0x81, 0,
    0x55, 4, 0x84, 0x80, 0, 0x90, 0, 0x85, 0, 0xa3, 0x81, 0, 0x55, 0x9f, 0,
];

// The location list with padding in the length of its first expression.
const PADDED_LENGTH: [u8; 33] = [
    0x1d, 0, 0, 0, 5, 0, 8, 0, 1, 0, 0, 0, 4, 0, 0, 0, 1, 0, 4, 0, 4, 0x81, 0, 0x55, 4, 4, 0x10, 4,
    0xa3, 1, 0x55, 0x9f, 0,
];

// A certificate for packages with these records.
fn certificate_of(alloc: Global, records: &[u8]) -> Result<Vec<u8>, AllocError> {
    let mut certificate = PACKED_MAGIC.to_vec(alloc)?;
    certificate.extend_from_slice(records)?;
    Ok(certificate)
}

// Stops where the program for packages doesn't answer with a status and these words, or where `b` and `c` don't have these bytes then.
fn is_answered(
    rt: &impl Abort,
    alloc: Global,
    words: &[&str],
    files: [&[u8]; 3],
    status: u8,
    said: &str,
    written: [&[u8]; 2],
) -> Result<(), Fail> {
    let [first, second, third] = files;
    let [output, certificate] = written;
    let words = words_of(alloc, words)?;
    let mut host = MemHost::new(alloc, held(alloc, first, second, third)?, Vec::new(alloc));
    assert_eq!(rt; run_packaged(alloc, &words, &mut host), status, "{said}");
    assert_eq!(rt; host.said().as_slice(), said.as_bytes());
    is_held(rt, &host, "a", first)?;
    is_held(rt, &host, "b", output)?;
    is_held(rt, &host, "c", certificate)
}

// Stops where the program for packages doesn't answer `check a b c` so, or where a file differs afterwards.
fn is_checked_packed(
    rt: &impl Abort,
    alloc: Global,
    files: [&[u8]; 3],
    status: u8,
    said: &str,
) -> Result<(), Fail> {
    let [_, output, certificate] = files;
    let words = ["check", "a", "b", "c"];
    is_answered(
        rt,
        alloc,
        &words,
        files,
        status,
        said,
        [output, certificate],
    )
}

// Stops where the program for packages doesn't write this file and this certificate for a file, doesn't accept both, or doesn't write the same
// for the file that it wrote.
fn is_packed(
    rt: &impl Abort,
    alloc: Global,
    input: &[u8],
    output: &[u8],
    certificate: &[u8],
) -> Result<(), Fail> {
    let words = ["shrink", "a", "b", "c"];
    let written = [output, certificate];
    let files: [&[u8]; 3] = [input, &BEFORE, &CERTIFICATE_BEFORE];
    is_answered(rt, alloc, &words, files, 0, "", written)?;
    is_checked_packed(rt, alloc, [input, output, certificate], 0, "accepted\n")?;
    let files: [&[u8]; 3] = [output, output, certificate];
    is_answered(rt, alloc, &words, files, 0, "", written)
}

// Stops where the program for packages doesn't make of a file with these sections one with the others and a certificate with these records, or
// doesn't say so of it beforehand.
fn becomes(
    rt: &impl Abort,
    alloc: Global,
    old: &[(&str, &[u8])],
    new: &[(&str, &[u8])],
    records: &[u8],
    summary: &str,
) -> Result<(), Fail> {
    let input = elf_file(alloc, old)?;
    let output = elf_file(alloc, new)?;
    let certificate = certificate_of(alloc, records)?;
    is_packed(rt, alloc, &input, &output, &certificate)?;
    is_answered(
        rt,
        alloc,
        &["stat", "a"],
        [&input, &BEFORE, &CERTIFICATE_BEFORE],
        0,
        summary,
        [&BEFORE, &CERTIFICATE_BEFORE],
    )
}

#[test]
fn files_for_packages(rt: HostRuntime) -> Result<(), Fail> {
    let alloc = rt.alloc();
    becomes(
        &rt,
        alloc,
        &[],
        &[],
        &[],
        "{\"abbrev\":[0,0],\"entries\":0,\"info\":[0,0],\"line\":[0,0],\"loclists\":[0,0],\"rnglists\":[0,0],\"rows\":0,\"units\":0}\n",
    )?;
    // Programs that aren't the least, the second with the opcode_base 10: it has DW_LNS_copy, the special opcode 16, which advances the line by
    // 1, DW_LNS_advance_pc and the end.
    let mut programs = TWO_ROWS.to_vec(alloc)?;
    programs.extend_from_slice(&with_bytes(alloc, &TEN, &[(0, 0x22)])?)?;
    programs.extend_from_slice(&[1, 0x10, 2, 4, 0, 1, 1])?;
    let sections: [(&str, &[u8]); 2] = [(".debug_line", &programs), (".debug_str", &[0])];
    becomes(
        &rt,
        alloc,
        &sections,
        &sections,
        &[],
        "{\"abbrev\":[0,0],\"entries\":0,\"info\":[0,0],\"line\":[90,90],\"loclists\":[0,0],\"rnglists\":[0,0],\"rows\":6,\"units\":0}\n",
    )?;
    // the file of gcc; and with its view pairs behind their list, and a byte too many in the first number
    becomes(
        &rt,
        alloc,
        &GCC,
        &PACKED_GCC,
        &[3, 0],
        "{\"abbrev\":[71,71],\"entries\":4,\"info\":[101,78],\"line\":[76,76],\"loclists\":[30,30],\"rnglists\":[0,0],\"rows\":3,\"units\":1}\n",
    )?;
    let behind = gcc_info(12, 26);
    let views = with_section(alloc, &GCC, 0, &behind)?;
    becomes(
        &rt,
        alloc,
        &with_section(alloc, &views, 3, &GCC_PAIRS_BEHIND)?,
        &PACKED_GCC,
        &[3, 0],
        "{\"abbrev\":[71,71],\"entries\":4,\"info\":[101,78],\"line\":[76,76],\"loclists\":[31,30],\"rnglists\":[0,0],\"rows\":3,\"units\":1}\n",
    )?;
    // The file of clang: an expression of its location list names the base type, which moves from 0x48 to 0x3e; and its lists have padding in
    // each number.
    let follows = with_bytes(alloc, &CONVERTED_LOCATIONS, &[(24, 0x3e)])?;
    becomes(
        &rt,
        alloc,
        &with_section(alloc, &CLANG, 4, &CONVERTED_LOCATIONS)?,
        &with_section(alloc, &PACKED_CLANG, 4, &follows)?,
        &[3, 0],
        "{\"abbrev\":[76,76],\"entries\":4,\"info\":[77,67],\"line\":[34,34],\"loclists\":[34,34],\"rnglists\":[23,23],\"rows\":0,\"units\":1}\n",
    )?;
    let padded = with_section(alloc, &CLANG, 3, &PADDED_RANGES)?;
    becomes(
        &rt,
        alloc,
        &with_section(alloc, &padded, 4, &PADDED_LOCATIONS)?,
        &with_section(alloc, &PACKED_CLANG, 3, &LONG_RANGES)?,
        &[3, 0],
        "{\"abbrev\":[76,76],\"entries\":4,\"info\":[77,67],\"line\":[34,34],\"loclists\":[41,32],\"rnglists\":[34,30],\"rows\":0,\"units\":1}\n",
    )?;
    // two lists that share their end become two lists, of which the second stands at 19
    let shared_info = units(alloc, &[(0, &[1, 12, 0, 0, 0, 16, 0, 0, 0])])?;
    let shared_lists = contribution(alloc, &[4, 0x80, 0, 4, 4, 8, 12, 0])?;
    let info = units(alloc, &[(0, &[1, 12, 0, 0, 0, 19, 0, 0, 0])])?;
    let lists = contribution(alloc, &[4, 0, 4, 4, 8, 12, 0, 4, 8, 12, 0])?;
    let shared: [(&str, &[u8]); 3] = [
        (".debug_info", &shared_info),
        (".debug_abbrev", &TWO_LISTS),
        (".debug_rnglists", &shared_lists),
    ];
    let apart: [(&str, &[u8]); 3] = [
        (".debug_info", &info),
        (".debug_abbrev", &TWO_LISTS),
        (".debug_rnglists", &lists),
    ];
    becomes(
        &rt,
        alloc,
        &shared,
        &apart,
        &[3, 0],
        "{\"abbrev\":[10,10],\"entries\":1,\"info\":[21,21],\"line\":[0,0],\"loclists\":[0,0],\"rnglists\":[20,23],\"rows\":0,\"units\":1}\n",
    )?;
    // what is kept is read all the same
    let cut = elf_file(alloc, &[(".debug_line", &TWO_ROWS[..51])])?;
    is_answered(
        &rt,
        alloc,
        &["shrink", "a", "b", "c"],
        [&cut, &BEFORE, &CERTIFICATE_BEFORE],
        3,
        "refused Short at 64\n",
        [&BEFORE, &CERTIFICATE_BEFORE],
    )
}

// A column: its form, the bytes of its constant, and those of its values.
type Column<'a> = (u8, &'a [u8], &'a [&'a [u8]]);

// A file whose root, the one entry of the second declaration, has variables with one attribute, by the first declaration.
fn variables(alloc: Global, name: u8, column: Column) -> Result<Vec<u8>, AllocError> {
    let (form, constant, values) = column;
    let mut entries = [2u8].to_vec(alloc)?;
    for value in values {
        entries.push(1)?;
        entries.extend_from_slice(value)?;
    }
    entries.push(0)?;
    let info = units(alloc, &[(0, &entries)])?;
    let mut table = [1, 0x34, 0, name, form].to_vec(alloc)?;
    table.extend_from_slice(constant)?;
    table.extend_from_slice(&[0, 0, 2, 0x11, 1, 0, 0, 0])?;
    elf_file(alloc, &[(".debug_info", &info), (".debug_abbrev", &table)])
}

// The name of an attribute, its column in IN, the least one of all forms and the least one for packages; and what the program for packages says
// of the former with a certificate of its own kind, and the other program of the latter. .debug_abbrev, at whose first byte the declaration of
// the variables stands, begins behind the 64 bytes of the file header, the 12 of the unit's, the code of the root, the variables and a code 0.
const COLUMNS: [(
    u8,
    Column<'static>,
    Column<'static>,
    Column<'static>,
    &str,
    &str,
); 6] = [
    // call_line 300 and 5: 3 bytes in sdata and in udata, and 4 in data2
    (
        0x59,
        (0x05, &[], &[&[0x2c, 1], &[5, 0]]),
        (0x0d, &[], &[&[0xac, 2], &[5]]),
        (0x0f, &[], &[&[0xac, 2], &[5]]),
        "rejected class 83\n",
        "accepted\n",
    ),
    // high_pc 3 three times: a byte in implicit_const, and 3 in data1, sdata and udata
    (
        0x12,
        (0x06, &[], &[&[3, 0, 0, 0], &[3, 0, 0, 0], &[3, 0, 0, 0]]),
        (0x21, &[3], &[&[], &[], &[]]),
        (0x0b, &[], &[&[3], &[3], &[3]]),
        "rejected class 81\n",
        "rejected class 84\n",
    ),
    // const_value 1,000 four times: 2 bytes in implicit_const, and 8 in data2, sdata and udata
    (
        0x1c,
        (0x21, &[0xe8, 7], &[&[], &[], &[], &[]]),
        (0x21, &[0xe8, 7], &[&[], &[], &[], &[]]),
        (0x05, &[], &[&[0xe8, 3], &[0xe8, 3], &[0xe8, 3], &[0xe8, 3]]),
        "rejected class 82\n",
        "rejected class 90\n",
    ),
    // byte_size 3 three times
    (
        0x0b,
        (0x06, &[], &[&[3, 0, 0, 0], &[3, 0, 0, 0], &[3, 0, 0, 0]]),
        (0x21, &[3], &[&[], &[], &[]]),
        (0x21, &[3], &[&[], &[], &[]]),
        "accepted\n",
        "accepted\n",
    ),
    // lower_bound -1 and 5, of which udata has no -1
    (
        0x22,
        (0x0d, &[], &[&[0x7f], &[5]]),
        (0x0d, &[], &[&[0x7f], &[5]]),
        (0x0d, &[], &[&[0x7f], &[5]]),
        "accepted\n",
        "accepted\n",
    ),
    // low_pc by the address with the number 200: a byte in addrx1, and 2 in addrx
    (
        0x11,
        (0x29, &[], &[&[200]]),
        (0x29, &[], &[&[200]]),
        (0x1b, &[], &[&[0xc8, 1]]),
        "rejected class 80\n",
        "rejected class 81\n",
    ),
];

#[test]
fn columns_for_packages(rt: HostRuntime) -> Result<(), Fail> {
    let alloc = rt.alloc();
    let mut other = MAGIC.to_vec(alloc)?;
    other.extend_from_slice(&[3, 0])?;
    for (name, old, least, packed, said, other_said) in COLUMNS {
        let input = variables(alloc, name, old)?;
        let least = variables(alloc, name, least)?;
        let packed = variables(alloc, name, packed)?;
        is_packed(&rt, alloc, &input, &packed, &PACKED_CERTIFICATE)?;
        let status = if said == "accepted\n" { 0 } else { 7 };
        let files: [&[u8]; 3] = [&input, &least, &PACKED_CERTIFICATE];
        is_checked_packed(&rt, alloc, files, status, said)?;
        let status = if other_said == "accepted\n" { 0 } else { 7 };
        let files: [&[u8]; 3] = [&input, &packed, &other];
        is_checked(&rt, alloc, files, &[], status, other_said)?;
    }
    Ok(())
}

// A file with the sections of clang's, of which the one with a number has another body.
fn packed_clang_with(alloc: Global, number: usize, body: &[u8]) -> Result<Vec<u8>, AllocError> {
    elf_file(alloc, &with_section(alloc, &PACKED_CLANG, number, body)?)
}

// Stops where the program for packages doesn't reject these files with these words, or where a file differs afterwards.
fn are_rejected_packed(
    rt: &impl Abort,
    alloc: Global,
    cases: &[([&[u8]; 3], &str)],
) -> Result<(), Fail> {
    for (files, said) in cases {
        is_checked_packed(rt, alloc, *files, 7, said)?;
    }
    Ok(())
}

// Stops where the other program doesn't.
fn are_rejected(rt: &impl Abort, alloc: Global, cases: &[([&[u8]; 3], &str)]) -> Result<(), Fail> {
    for (files, said) in cases {
        is_checked(rt, alloc, *files, &[], 7, said)?;
    }
    Ok(())
}

#[test]
fn certificates_of_the_other_kind(rt: HostRuntime) -> Result<(), Fail> {
    let alloc = rt.alloc();
    let clang = elf_file(alloc, &CLANG)?;
    let least = elf_file(alloc, &LEAST_CLANG)?;
    let packed = elf_file(alloc, &PACKED_CLANG)?;
    // the certificates of clang, each with the first bytes of the other kind
    let exchanged = certificate_of(alloc, &CLANG_CERTIFICATE[8..])?;
    let left_over = certificate_of(alloc, &[3, 0, 3, 0])?;
    are_rejected_packed(
        &rt,
        alloc,
        &[
            // the certificate of the other program, with its file and with the own one
            ([&clang, &least, &CLANG_CERTIFICATE], "rejected record 0\n"),
            ([&clang, &packed, &CLANG_CERTIFICATE], "rejected record 0\n"),
            // a location list with DW_LLE_startx_length in place of DW_LLE_offset_pair; a record of a line number program, where the one of
            // a unit is due; none; and one left over
            ([&clang, &least, &exchanged], "rejected class 280\n"),
            ([&clang, &packed, &exchanged], "rejected record 8\n"),
            ([&clang, &packed, &PACKED_MAGIC], "rejected record 8\n"),
            ([&clang, &packed, &left_over], "rejected record 10\n"),
        ],
    )
}

#[test]
fn certificates_for_packages(rt: HostRuntime) -> Result<(), Fail> {
    let alloc = rt.alloc();
    let clang = elf_file(alloc, &CLANG)?;
    let least = elf_file(alloc, &LEAST_CLANG)?;
    let packed = elf_file(alloc, &PACKED_CLANG)?;
    let mut other = MAGIC.to_vec(alloc)?;
    other.extend_from_slice(&[3, 0])?;
    // The other program takes none, and with its own first bytes it wants the record of the line number program.
    are_rejected(
        &rt,
        alloc,
        &[
            (
                [&clang, &packed, &PACKED_CERTIFICATE],
                "rejected record 0\n",
            ),
            ([&clang, &least, &PACKED_CERTIFICATE], "rejected record 0\n"),
            ([&clang, &packed, &other], "rejected record 8\n"),
        ],
    )
}

#[test]
fn line_programs_that_are_no_packages(rt: HostRuntime) -> Result<(), Fail> {
    let alloc = rt.alloc();
    let gcc = elf_file(alloc, &GCC)?;
    let least_gcc = elf_file(alloc, &LEAST_GCC)?;
    // The special opcode 18 in place of DW_LNS_copy: under the pair of -5 and 14 it adds nothing to the address and the line. And a second
    // program with DW_LNS_set_basic_block behind its last row, and without.
    let rows = elf_file(alloc, &[(".debug_line", &TWO_ROWS)])?;
    let special = with_bytes(alloc, &rows, &[(64 + 45, 0x12)])?;
    let mut two = NO_ROWS.to_vec(alloc)?;
    two.extend_from_slice(&TWO_ROWS)?;
    let both = elf_file(alloc, &[(".debug_line", &two)])?;
    if let Some(length) = two.get_mut(34) {
        *length = 0x31;
    }
    two.push(7)?;
    let flagged = elf_file(alloc, &[(".debug_line", &two)])?;
    are_rejected_packed(
        &rt,
        alloc,
        &[
            // line number programs of the same rows: the least one; and with other opcodes
            (
                [&gcc, &least_gcc, &PACKED_CERTIFICATE],
                "rejected class 213\n",
            ),
            ([&rows, &special, &PACKED_MAGIC], "rejected class 109\n"),
            ([&flagged, &both, &PACKED_MAGIC], "rejected class 98\n"),
            ([&both, &flagged, &PACKED_MAGIC], "rejected class 98\n"),
        ],
    )
}

#[test]
fn lists_that_are_no_packages(rt: HostRuntime) -> Result<(), Fail> {
    let alloc = rt.alloc();
    // .debug_rnglists begins at 241, and .debug_loclists 23 bytes later, each with its list at 16
    let clang = elf_file(alloc, &CLANG)?;
    let packed = elf_file(alloc, &PACKED_CLANG)?;
    let long = elf_file(alloc, &with_section(alloc, &CLANG, 3, &LONG_RANGES)?)?;
    let padded_ranges = packed_clang_with(alloc, 3, &PADDED_RANGES)?;
    let padded_locations = packed_clang_with(alloc, 4, &PADDED_LOCATIONS)?;
    let padded_length = packed_clang_with(alloc, 4, &PADDED_LENGTH)?;
    are_rejected_packed(
        &rt,
        alloc,
        &[
            // a range list with DW_RLE_startx_length in place of DW_RLE_start_length, and the other way round
            (
                [&long, &packed, &PACKED_CERTIFICATE],
                "rejected class 257\n",
            ),
            (
                [&clang, &padded_ranges, &PACKED_CERTIFICATE],
                "rejected class 257\n",
            ),
            // padding: in the second operand of the range list, in the first one of the location list, and in the length of an expression
            // there, which is a slot behind one and a reference of the function, and a reference of the parameter
            (
                [&long, &padded_ranges, &PACKED_CERTIFICATE],
                "rejected class 266\n",
            ),
            (
                [&clang, &padded_locations, &PACKED_CERTIFICATE],
                "rejected class 281\n",
            ),
            (
                [&clang, &padded_length, &PACKED_CERTIFICATE],
                "rejected slot 0 3\n",
            ),
        ],
    )
}
