// Two compiled files, in the manner of gcc and of clang. What their sections become was worked out by hand, byte for byte. A reference
// within a unit becomes DW_FORM_ref_udata (DWARF 5 section 7.5.5), with one byte where its number is below 128.
use crate::line_tests::{LEAST_SAMPLE, NO_ROWS, SAMPLE};
use crate::test_files::{Answer, is_unwritten, is_written, shrunk};
use std::alloc::Global;
use std::test::Fail;

// In the manner of gcc, as it is compiled: a function `f` with a parameter `x`, whose places are in a location list with view
// numbers.
const GCC_INFO: [u8; 101] = [
    0x61, 0, 0, 0, 5, 0, 1, 8, 0, 0, 0, 0, 1, 0, 0, 0, 0, 0x1d, 0, 0, 0, 0, 4, 0, 0, 0, 0, 0x10,
    0x40, 0, 0, 0, 0, 0, 0x10, 0, 0, 0, 0, 0, 0, 0, 0, 0, 0, 0, 2, 0x66, 0, 1, 0x5d, 0, 0, 0, 0,
    0x10, 0x40, 0, 0, 0, 0, 0, 0x10, 0, 0, 0, 0, 0, 0, 0, 1, 0x9c, 0x5d, 0, 0, 0, 3, 0x78, 0, 1,
    0x5d, 0, 0, 0, 0x10, 0, 0, 0, 0x0c, 0, 0, 0, 0, 4, 4, 5, 0x69, 0x6e, 0x74, 0, 0,
];

const GCC_ABBREVS: [u8; 71] = [
    1, 0x11, 1, 0x25, 0x0e, 0x13, 0x0b, 3, 0x1f, 0x1b, 0x1f, 0x11, 1, 0x12, 7, 0x10, 0x17, 0, 0, 2,
    0x2e, 1, 0x3f, 0x19, 3, 8, 0x3a, 0x21, 1, 0x3b, 0x0b, 0x49, 0x13, 0x11, 1, 0x12, 7, 0x40, 0x18,
    1, 0x13, 0, 0, 3, 5, 0, 3, 8, 0x3b, 0x0b, 0x49, 0x13, 2, 0x17, 0xb7, 0x42, 0x17, 0, 0, 4, 0x24,
    0, 0x0b, 0x0b, 0x3e, 0x0b, 3, 8, 0, 0, 0,
];

pub const GCC_LOCATIONS: [u8; 30] = [
    0x1a, 0, 0, 0, 5, 0, 8, 0, 0, 0, 0, 0, 0, 1, 1, 0, 4, 0, 4, 1, 0x55, 4, 4, 0x10, 4, 0xa3, 1,
    0x55, 0x9f, 0,
];

// In the manner of clang, as it is compiled: strings, addresses and lists are told by their indexes.
pub const CLANG_INFO: [u8; 77] = [
    0x49, 0, 0, 0, 5, 0, 1, 8, 0, 0, 0, 0, 1, 0, 0x1d, 0, 1, 8, 0, 0, 0, 0, 0, 0, 0, 2, 0, 0, 0, 0,
    0, 0, 0, 0, 0, 8, 0, 0, 0, 0x0c, 0, 0, 0, 0x0c, 0, 0, 0, 2, 0, 0x10, 0, 0, 0, 1, 0x57, 3, 0, 1,
    0x48, 0, 0, 0, 3, 0, 4, 0, 1, 0x48, 0, 0, 0, 0, 4, 5, 5, 4, 0,
];

pub const CLANG_ABBREVS: [u8; 76] = [
    1, 0x11, 1, 0x25, 0x25, 0x13, 5, 3, 0x25, 0x72, 0x17, 0x10, 0x17, 0x1b, 0x25, 0x11, 1, 0x55,
    0x23, 0x73, 0x17, 0x74, 0x17, 0x8c, 1, 0x17, 0, 0, 2, 0x2e, 1, 0x11, 0x1b, 0x12, 6, 0x40, 0x18,
    3, 0x25, 0x3a, 0x0b, 0x3b, 0x0b, 0x49, 0x13, 0x3f, 0x19, 0, 0, 3, 5, 0, 2, 0x22, 3, 0x25, 0x3a,
    0x0b, 0x3b, 0x0b, 0x49, 0x13, 0, 0, 4, 0x24, 0, 3, 0x25, 0x3e, 0x0b, 0x0b, 0x0b, 0, 0, 0,
];

pub const CLANG_RANGES: [u8; 23] = [
    0x13, 0, 0, 0, 5, 0, 8, 0, 1, 0, 0, 0, 4, 0, 0, 0, 3, 0, 0x10, 3, 1, 8, 0,
];

pub const CLANG_LOCATIONS: [u8; 32] = [
    0x1c, 0, 0, 0, 5, 0, 8, 0, 1, 0, 0, 0, 4, 0, 0, 0, 1, 0, 4, 0, 4, 1, 0x55, 4, 4, 0x10, 4, 0xa3,
    1, 0x55, 0x9f, 0,
];

pub const CLANG_ADDRESSES: [u8; 24] = [
    0x14, 0, 0, 0, 5, 0, 8, 0, 0, 0x10, 0x40, 0, 0, 0, 0, 0, 0, 0x20, 0x40, 0, 0, 0, 0, 0,
];

// The DW_AT_high_pc of the root and of the function, 16, has one byte in place of 8, and DW_AT_type (twice) and DW_AT_sibling have one in
// place of 4. So the unit is 23 bytes shorter (0x4a for 0x61), and the base type stands at 0x46, where these three name it. The list
// stands at 16, and the view pairs, (0, 1) and (1, 0), directly before it, at 12.
pub const LEAST_GCC_INFO_WITH_LISTS: [u8; 78] = [
    0x4a, 0, 0, 0, 5, 0, 1, 8, 0, 0, 0, 0, // the header
    1, 0, 0, 0, 0, 0x1d, 0, 0, 0, 0, 4, 0, 0, 0, 0, 0x10, 0x40, 0, 0, 0, 0, 0, 0x10, 0, 0, 0, 0, // the root at 0x0c
    2, 0x66, 0, 1, 0x46, 0, 0x10, 0x40, 0, 0, 0, 0, 0, 0x10, 1, 0x9c, 0x46, // the function at 0x27
    3, 0x78, 0, 1, 0x46, 0x10, 0, 0, 0, 0x0c, 0, 0, 0, 0, // the parameter at 0x38
    4, 4, 5, 0x69, 0x6e, 0x74, 0, 0, // the base type at 0x46
];

// The two DW_AT_high_pc (0x12) are data1 (0x0b) in place of data8 (7), and DW_AT_type (0x49) and DW_AT_sibling (1) are ref_udata (0x15) in
// place of ref4 (0x13).
pub const LEAST_GCC_ABBREVS_WITH_LISTS: [u8; 71] = [
    1, 0x11, 1, 0x25, 0x0e, 0x13, 0x0b, 3, 0x1f, 0x1b, 0x1f, 0x11, 1, 0x12, 0x0b, 0x10, 0x17, 0, 0,
    2, 0x2e, 1, 0x3f, 0x19, 3, 8, 0x3a, 0x21, 1, 0x3b, 0x0b, 0x49, 0x15, 0x11, 1, 0x12, 0x0b, 0x40,
    0x18, 1, 0x15, 0, 0, 3, 5, 0, 3, 8, 0x3b, 0x0b, 0x49, 0x15, 2, 0x17, 0xb7, 0x42, 0x17, 0, 0, 4,
    0x24, 0, 0x0b, 0x0b, 0x3e, 0x0b, 3, 8, 0, 0, 0,
];

/// The same with the view pairs behind their list, which stands at 12: they stand at 26, and their first number has a byte too many.
pub const GCC_PAIRS_BEHIND: [u8; 31] = [
    0x1b, 0, 0, 0, 5, 0, 8, 0, 0, 0, 0, 0, 4, 0, 4, 1, 0x55, 4, 4, 0x10, 4, 0xa3, 1, 0x55, 0x9f, 0,
    0x80, 0, 1, 1, 0,
];

/// The unit of gcc whose parameter has its DW_AT_location, at 0x54, and its DW_AT_GNU_locviews, at 0x58, at these places.
pub fn gcc_info(list: u8, pairs: u8) -> [u8; 101] {
    let mut info = GCC_INFO;
    info[0x54] = list;
    info[0x58] = pairs;
    info
}

// The answer to the file of gcc with this unit and these location lists.
fn gcc_answer<'a>(alloc: Global, info: &'a [u8], locations: &'a [u8]) -> Result<Answer, Fail> {
    let sections: [(&str, &[u8]); 4] = [
        (".debug_info", info),
        (".debug_abbrev", &GCC_ABBREVS),
        (".debug_line", &SAMPLE),
        (".debug_loclists", locations),
    ];
    shrunk(alloc, &sections)
}

/// The sections of the file in the manner of gcc,
pub const GCC: [(&str, &[u8]); 4] = [
    (".debug_info", &GCC_INFO),
    (".debug_abbrev", &GCC_ABBREVS),
    (".debug_line", &SAMPLE),
    (".debug_loclists", &GCC_LOCATIONS),
];

/// and what becomes of them.
pub const LEAST_GCC: [(&str, &[u8]); 4] = [
    (".debug_info", &LEAST_GCC_INFO_WITH_LISTS),
    (".debug_abbrev", &LEAST_GCC_ABBREVS_WITH_LISTS),
    (".debug_line", &LEAST_SAMPLE),
    (".debug_loclists", &GCC_LOCATIONS),
];

#[test]
fn view_pairs_stand_before_their_list(rt: HostRuntime) -> Result<(), Fail> {
    let answer = gcc_answer(rt.alloc(), &GCC_INFO, &GCC_LOCATIONS)?;
    is_written(&rt, rt.alloc(), &answer, &LEAST_GCC)?;
    // behind the record of the line number program: the potentials 16 and 13 of the list, and no rank of the unit
    let last = [2, 2, 0x10, 0x0d, 3, 0];
    assert_eq!(rt; answer.certificate.as_slice().ends_with(&last), true);
    let behind = gcc_info(12, 26);
    let answer = gcc_answer(rt.alloc(), &behind, &GCC_PAIRS_BEHIND)?;
    is_written(&rt, rt.alloc(), &answer, &LEAST_GCC)
}

// The sections stand from 64 on: .debug_info at 64, .debug_abbrev at 64 + 101, .debug_line at 165 + 71, and .debug_loclists, which has 30
// bytes, at 236 + 76. Of the two pairs that are to stand at 28 one number is there; and none can stand behind the section.
#[test]
fn view_pairs_that_are_refused(rt: HostRuntime) -> Result<(), Fail> {
    let cut = gcc_info(16, 28);
    let answer = gcc_answer(rt.alloc(), &cut, &GCC_LOCATIONS)?;
    is_unwritten(&rt, &answer, 3, "refused Short at 342\n");
    let outside = gcc_info(16, 30);
    let answer = gcc_answer(rt.alloc(), &outside, &GCC_LOCATIONS)?;
    is_unwritten(&rt, &answer, 3, "refused Pointer at 152\n");
    Ok(())
}

// The DW_AT_language of the root, 29, has one byte in place of 2, and the DW_AT_high_pc of the function, 16, and DW_AT_type (twice) have one
// in place of 4. So the unit is 10 bytes shorter (0x3f for 0x49), and the base type stands at 0x3e, where DW_AT_type names it. All else
// is as before: the one contribution of each kind of lists begins where it did.
pub const LEAST_CLANG_INFO_WITH_LISTS: [u8; 67] = [
    0x3f, 0, 0, 0, 5, 0, 1, 8, 0, 0, 0, 0, // the header
    1, 0, 0x1d, 1, 8, 0, 0, 0, 0, 0, 0, 0, 2, 0, 0, 0, 0, 0, 0, 0, 0, 0, // the root at 0x0c, up to DW_AT_ranges
    8, 0, 0, 0, 0x0c, 0, 0, 0, 0x0c, 0, 0, 0, // its bases
    2, 0, 0x10, 1, 0x57, 3, 0, 1, 0x3e, // the function at 0x2e
    3, 0, 4, 0, 1, 0x3e, 0, // the parameter at 0x37
    4, 5, 5, 4, 0, // the base type at 0x3e
];

// DW_AT_language (0x13) is data1 (0x0b) in place of data2 (5), DW_AT_high_pc (0x12) in place of data4 (6), and the two DW_AT_type (0x49) are
// ref_udata (0x15) in place of ref4 (0x13).
pub const LEAST_CLANG_ABBREVS_WITH_LISTS: [u8; 76] = [
    1, 0x11, 1, 0x25, 0x25, 0x13, 0x0b, 3, 0x25, 0x72, 0x17, 0x10, 0x17, 0x1b, 0x25, 0x11, 1, 0x55,
    0x23, 0x73, 0x17, 0x74, 0x17, 0x8c, 1, 0x17, 0, 0, 2, 0x2e, 1, 0x11, 0x1b, 0x12, 0x0b, 0x40,
    0x18, 3, 0x25, 0x3a, 0x0b, 0x3b, 0x0b, 0x49, 0x15, 0x3f, 0x19, 0, 0, 3, 5, 0, 2, 0x22, 3, 0x25,
    0x3a, 0x0b, 0x3b, 0x0b, 0x49, 0x15, 0, 0, 4, 0x24, 0, 3, 0x25, 0x3e, 0x0b, 0x0b, 0x0b, 0, 0, 0,
];

// A list with as many bytes: of the entries of 3 bytes for the first location, up to 4 from the base, DW_LLE_startx_length has the
// lower code.
pub const LEAST_CLANG_LOCATIONS: [u8; 32] = [
    0x1c, 0, 0, 0, 5, 0, 8, 0, 1, 0, 0, 0, 4, 0, 0, 0, 1, 0, 3, 0, 4, 1, 0x55, 4, 4, 0x10, 4, 0xa3,
    1, 0x55, 0x9f, 0,
];

/// The sections of the file in the manner of clang,
pub const CLANG: [(&str, &[u8]); 6] = [
    (".debug_info", &CLANG_INFO),
    (".debug_abbrev", &CLANG_ABBREVS),
    (".debug_line", &NO_ROWS),
    (".debug_rnglists", &CLANG_RANGES),
    (".debug_loclists", &CLANG_LOCATIONS),
    (".debug_addr", &CLANG_ADDRESSES),
];

/// what becomes of them,
pub const LEAST_CLANG: [(&str, &[u8]); 6] = [
    (".debug_info", &LEAST_CLANG_INFO_WITH_LISTS),
    (".debug_abbrev", &LEAST_CLANG_ABBREVS_WITH_LISTS),
    (".debug_line", &NO_ROWS),
    (".debug_rnglists", &CLANG_RANGES),
    (".debug_loclists", &LEAST_CLANG_LOCATIONS),
    (".debug_addr", &CLANG_ADDRESSES),
];

/// what is said of what that wins,
pub const CLANG_SUMMARY: &str =
    "{\"abbrev\":[76,76],\"entries\":4,\"info\":[77,67],\"line\":[34,34],\"loclists\":[32,32],\"rnglists\":[23,23],\"rows\":0,\"units\":1}\n";

/// and the certificate: the program without rows, the range list, the location list and the unit.
pub const CLANG_CERTIFICATE: [u8; 23] = [
    0x44, 0x57, 0x4d, 0x49, 0x4e, 0x30, 0x31, 0x0a, 1, 0x80, 0xfe, 3, 0, 2, 2, 9, 6, 2, 2, 9, 6, 3,
    0,
];

#[test]
fn lists_in_the_manner_of_clang(rt: HostRuntime) -> Result<(), Fail> {
    let answer = shrunk(rt.alloc(), &CLANG)?;
    is_written(&rt, rt.alloc(), &answer, &LEAST_CLANG)?;
    assert_eq!(rt; answer.certificate.as_slice(), CLANG_CERTIFICATE.as_slice());
    Ok(())
}

/// The first location has DW_OP_lit0 and DW_OP_convert to the base type, which stands at 0x48, in place of DW_OP_reg5.
pub const CONVERTED_LOCATIONS: [u8; 34] = [
    0x1e, 0, 0, 0, 5, 0, 8, 0, 1, 0, 0, 0, 4, 0, 0, 0, 1, 0, 4, 0, 4, 3, 0x30, 0xa8, 0x48, 4, 4,
    0x10, 4, 0xa3, 1, 0x55, 0x9f, 0,
];

// The base type stands at 0x3e now.
const LEAST_CONVERTED_LOCATIONS: [u8; 34] = [
    0x1e, 0, 0, 0, 5, 0, 8, 0, 1, 0, 0, 0, 4, 0, 0, 0, 1, 0, 3, 0, 4, 3, 0x30, 0xa8, 0x3e, 4, 4,
    0x10, 4, 0xa3, 1, 0x55, 0x9f, 0,
];

#[test]
fn an_expression_of_a_list_follows_what_it_names(rt: HostRuntime) -> Result<(), Fail> {
    let old: [(&str, &[u8]); 6] = [
        (".debug_info", &CLANG_INFO),
        (".debug_abbrev", &CLANG_ABBREVS),
        (".debug_line", &NO_ROWS),
        (".debug_rnglists", &CLANG_RANGES),
        (".debug_loclists", &CONVERTED_LOCATIONS),
        (".debug_addr", &CLANG_ADDRESSES),
    ];
    let new: [(&str, &[u8]); 6] = [
        (".debug_info", &LEAST_CLANG_INFO_WITH_LISTS),
        (".debug_abbrev", &LEAST_CLANG_ABBREVS_WITH_LISTS),
        (".debug_line", &NO_ROWS),
        (".debug_rnglists", &CLANG_RANGES),
        (".debug_loclists", &LEAST_CONVERTED_LOCATIONS),
        (".debug_addr", &CLANG_ADDRESSES),
    ];
    let answer = shrunk(rt.alloc(), &old)?;
    is_written(&rt, rt.alloc(), &answer, &new)
}

// A second list, which no entry names: its expression is DW_OP_convert to the generic type.
const UNOWNED_LOCATIONS: [u8; 43] = [
    0x27, 0, 0, 0, 5, 0, 8, 0, 2, 0, 0, 0, 8, 0, 0, 0, 0x18, 0, 0, 0, 1, 0, 4, 0, 4, 1, 0x55, 4, 4,
    0x10, 4, 0xa3, 1, 0x55, 0x9f, 0, 4, 0, 4, 2, 0xa8, 0, 0,
];

// The first list is the shortest, and the second one keeps its entries.
const LEAST_UNOWNED_LOCATIONS: [u8; 43] = [
    0x27, 0, 0, 0, 5, 0, 8, 0, 2, 0, 0, 0, 8, 0, 0, 0, 0x18, 0, 0, 0, 1, 0, 3, 0, 4, 1, 0x55, 4, 4,
    0x10, 4, 0xa3, 1, 0x55, 0x9f, 0, 4, 0, 4, 2, 0xa8, 0, 0,
];

#[test]
fn a_list_that_no_entry_names_is_kept(rt: HostRuntime) -> Result<(), Fail> {
    let old: [(&str, &[u8]); 6] = [
        (".debug_info", &CLANG_INFO),
        (".debug_abbrev", &CLANG_ABBREVS),
        (".debug_line", &NO_ROWS),
        (".debug_rnglists", &CLANG_RANGES),
        (".debug_loclists", &UNOWNED_LOCATIONS),
        (".debug_addr", &CLANG_ADDRESSES),
    ];
    let new: [(&str, &[u8]); 6] = [
        (".debug_info", &LEAST_CLANG_INFO_WITH_LISTS),
        (".debug_abbrev", &LEAST_CLANG_ABBREVS_WITH_LISTS),
        (".debug_line", &NO_ROWS),
        (".debug_rnglists", &CLANG_RANGES),
        (".debug_loclists", &LEAST_UNOWNED_LOCATIONS),
        (".debug_addr", &CLANG_ADDRESSES),
    ];
    let answer = shrunk(rt.alloc(), &old)?;
    is_written(&rt, rt.alloc(), &answer, &new)
}

// The answer to the file of clang with these location lists.
fn answer_with(alloc: Global, locations: &[u8]) -> Result<Answer, Fail> {
    let sections: [(&str, &[u8]); 6] = [
        (".debug_info", &CLANG_INFO),
        (".debug_abbrev", &CLANG_ABBREVS),
        (".debug_line", &NO_ROWS),
        (".debug_rnglists", &CLANG_RANGES),
        (".debug_loclists", locations),
        (".debug_addr", &CLANG_ADDRESSES),
    ];
    shrunk(alloc, &sections)
}

// The references of expressions: to the base type, in the list that no entry names, which is at 36 in the section; and to a place
// where no entry stands, at 24.
#[test]
fn references_in_lists_that_are_refused(rt: HostRuntime) -> Result<(), Fail> {
    let alloc = rt.alloc();
    let mut unowned = UNOWNED_LOCATIONS;
    unowned[41] = 0x48;
    let answer = answer_with(alloc, &unowned)?;
    is_unwritten(&rt, &answer, 3, "refused ListShared at 310\n");
    let mut astray = CONVERTED_LOCATIONS;
    astray[24] = 0x49;
    let answer = answer_with(alloc, &astray)?;
    is_unwritten(&rt, &answer, 3, "refused Target at 298\n");
    Ok(())
}

// .debug_info at 64, .debug_abbrev at 64 + 77, .debug_line at 141 + 76, .debug_rnglists at 217 + 34, and .debug_loclists at
// 251 + 23, with the list at 16 there.
#[test]
fn damaged_location_lists_are_refused(rt: HostRuntime) -> Result<(), Fail> {
    // A byte of the section, what stands there instead, and the answer: no kind of entry; an expression that is cut off; an opcode that
    // isn't known; and a slot that tells a place behind the section.
    let table = [
        (16, 9, "refused ListEntry at 290\n"),
        (26, 0x20, "refused Short at 300\n"),
        (22, 0xed, "refused Op at 296\n"),
        (12, 0x14, "refused Pointer at 286\n"),
    ];
    for (at, byte, said) in table {
        let mut locations = CLANG_LOCATIONS;
        locations[at] = byte;
        let answer = answer_with(rt.alloc(), &locations)?;
        is_unwritten(&rt, &answer, 3, said);
    }
    Ok(())
}

// The unit of gcc without what names the location list: the parameter has no DW_AT_location (4 bytes) and no
// DW_AT_GNU_locviews (4 bytes), so that the base type stands at 0x55. Line number programs stay in their own section, which has
// to be there for DW_AT_stmt_list. The expression of DW_AT_frame_base is DW_OP_call_frame_cfa, which is kept.
const GCC_INFO_WITHOUT_LISTS: [u8; 93] = [
    0x59, 0, 0, 0, 5, 0, 1, 8, 0, 0, 0, 0, // the header
    1, 0, 0, 0, 0, 0x1d, 0, 0, 0, 0, 4, 0, 0, 0, 0, 0x10, 0x40, 0, 0, 0, 0, 0, 0x10, 0, 0, 0, 0, 0,
    0, 0, 0, 0, 0, 0, // the root at 0x0c
    2, 0x66, 0, 1, 0x55, 0, 0, 0, 0, 0x10, 0x40, 0, 0, 0, 0, 0, 0x10, 0, 0, 0, 0, 0, 0, 0, 1, 0x9c,
    0x55, 0, 0, 0, // the function at 0x2e
    3, 0x78, 0, 1, 0x55, 0, 0, 0, 0, // the parameter at 0x4c
    4, 4, 5, 0x69, 0x6e, 0x74, 0, 0, // the base type at 0x55
];

const GCC_ABBREVS_WITHOUT_LISTS: [u8; 66] = [
    1, 0x11, 1, 0x25, 0x0e, 0x13, 0x0b, 3, 0x1f, 0x1b, 0x1f, 0x11, 1, 0x12, 7, 0x10, 0x17, 0, 0, 2,
    0x2e, 1, 0x3f, 0x19, 3, 8, 0x3a, 0x21, 1, 0x3b, 0x0b, 0x49, 0x13, 0x11, 1, 0x12, 7, 0x40, 0x18,
    1, 0x13, 0, 0, 3, 5, 0, 3, 8, 0x3b, 0x0b, 0x49, 0x13, 0, 0, 4, 0x24, 0, 0x0b, 0x0b, 0x3e, 0x0b,
    3, 8, 0, 0, 0,
];

// The DW_AT_high_pc of the root and of the function, 16, has one byte in place of 8, and DW_AT_type (twice) and DW_AT_sibling have one in
// place of 4. So the unit is 23 bytes shorter (0x42 for 0x59), and the base type stands at 0x3e, where these three name it. All else is as
// before: the codes, since each declaration has one entry; the other numbers, which take one byte in any form, so that theirs stays;
// and DW_AT_stmt_list, since the one program stands at 0.
const LEAST_GCC_INFO: [u8; 70] = [
    0x42, 0, 0, 0, 5, 0, 1, 8, 0, 0, 0, 0, // the header
    1, 0, 0, 0, 0, 0x1d, 0, 0, 0, 0, 4, 0, 0, 0, 0, 0x10, 0x40, 0, 0, 0, 0, 0, 0x10, 0, 0, 0, 0, // the root at 0x0c
    2, 0x66, 0, 1, 0x3e, 0, 0x10, 0x40, 0, 0, 0, 0, 0, 0x10, 1, 0x9c, 0x3e, // the function at 0x27
    3, 0x78, 0, 1, 0x3e, 0, // the parameter at 0x38
    4, 4, 5, 0x69, 0x6e, 0x74, 0, 0, // the base type at 0x3e
];

// The two DW_AT_high_pc (0x12) are data1 (0x0b) in place of data8 (7): of data1, sdata, udata and implicit_const, with one byte
// each, it has the lowest code. DW_AT_type (0x49) and DW_AT_sibling (1) are ref_udata (0x15) in place of ref4 (0x13).
const LEAST_GCC_ABBREVS: [u8; 66] = [
    1, 0x11, 1, 0x25, 0x0e, 0x13, 0x0b, 3, 0x1f, 0x1b, 0x1f, 0x11, 1, 0x12, 0x0b, 0x10, 0x17, 0, 0,
    2, 0x2e, 1, 0x3f, 0x19, 3, 8, 0x3a, 0x21, 1, 0x3b, 0x0b, 0x49, 0x15, 0x11, 1, 0x12, 0x0b, 0x40,
    0x18, 1, 0x15, 0, 0, 3, 5, 0, 3, 8, 0x3b, 0x0b, 0x49, 0x15, 0, 0, 4, 0x24, 0, 0x0b, 0x0b, 0x3e,
    0x0b, 3, 8, 0, 0, 0,
];

#[test]
fn a_unit_in_the_manner_of_gcc(rt: HostRuntime) -> Result<(), Fail> {
    let old: [(&str, &[u8]); 3] = [
        (".debug_info", &GCC_INFO_WITHOUT_LISTS),
        (".debug_abbrev", &GCC_ABBREVS_WITHOUT_LISTS),
        (".debug_line", &SAMPLE),
    ];
    let new: [(&str, &[u8]); 3] = [
        (".debug_info", &LEAST_GCC_INFO),
        (".debug_abbrev", &LEAST_GCC_ABBREVS),
        (".debug_line", &LEAST_SAMPLE),
    ];
    let answer = shrunk(rt.alloc(), &old)?;
    is_written(&rt, rt.alloc(), &answer, &new)
}

// The unit of clang without what names lists: the root has no DW_AT_ranges (1 byte), DW_AT_rnglists_base and
// DW_AT_loclists_base (4 bytes each), and the parameter has no DW_AT_location (1 byte), so that the base type stands at 0x3e.
// DW_AT_str_offsets_base and DW_AT_addr_base, 8, are numbers that are kept, and so are the indexes of strings and of the
// function's address. The expression of DW_AT_frame_base is DW_OP_reg7, which is kept.
const CLANG_INFO_WITHOUT_LISTS: [u8; 67] = [
    0x3f, 0, 0, 0, 5, 0, 1, 8, 0, 0, 0, 0, // the header
    1, 0, 0x1d, 0, 1, 8, 0, 0, 0, 0, 0, 0, 0, 2, 0, 0, 0, 0, 0, 0, 0, 0, 8, 0, 0, 0, // the root at 0x0c
    2, 0, 0x10, 0, 0, 0, 1, 0x57, 3, 0, 1, 0x3e, 0, 0, 0, // the function at 0x26
    3, 4, 0, 1, 0x3e, 0, 0, 0, 0, // the parameter at 0x35
    4, 5, 5, 4, 0, // the base type at 0x3e
];

const CLANG_ABBREVS_WITHOUT_LISTS: [u8; 67] = [
    1, 0x11, 1, 0x25, 0x25, 0x13, 5, 3, 0x25, 0x72, 0x17, 0x10, 0x17, 0x1b, 0x25, 0x11, 1, 0x73,
    0x17, 0, 0, 2, 0x2e, 1, 0x11, 0x1b, 0x12, 6, 0x40, 0x18, 3, 0x25, 0x3a, 0x0b, 0x3b, 0x0b, 0x49,
    0x13, 0x3f, 0x19, 0, 0, 3, 5, 0, 3, 0x25, 0x3a, 0x0b, 0x3b, 0x0b, 0x49, 0x13, 0, 0, 4, 0x24, 0,
    3, 0x25, 0x3e, 0x0b, 0x0b, 0x0b, 0, 0, 0,
];

// The DW_AT_language of the root, 29, has one byte in place of 2, and the DW_AT_high_pc of the function, 16, and DW_AT_type (twice) have one
// in place of 4. So the unit is 10 bytes shorter (0x35 for 0x3f), and the base type stands at 0x34, where DW_AT_type names it. All else
// is as before: indexes take one byte also in the other forms, so that theirs stays.
const LEAST_CLANG_INFO: [u8; 57] = [
    0x35, 0, 0, 0, 5, 0, 1, 8, 0, 0, 0, 0, // the header
    1, 0, 0x1d, 1, 8, 0, 0, 0, 0, 0, 0, 0, 2, 0, 0, 0, 0, 0, 0, 0, 0, 8, 0, 0, 0, // the root at 0x0c
    2, 0, 0x10, 1, 0x57, 3, 0, 1, 0x34, // the function at 0x25
    3, 4, 0, 1, 0x34, 0, // the parameter at 0x2e
    4, 5, 5, 4, 0, // the base type at 0x34
];

// DW_AT_language (0x13) is data1 (0x0b) in place of data2 (5), DW_AT_high_pc (0x12) in place of data4 (6), and the two DW_AT_type (0x49) are
// ref_udata (0x15) in place of ref4 (0x13).
const LEAST_CLANG_ABBREVS: [u8; 67] = [
    1, 0x11, 1, 0x25, 0x25, 0x13, 0x0b, 3, 0x25, 0x72, 0x17, 0x10, 0x17, 0x1b, 0x25, 0x11, 1, 0x73,
    0x17, 0, 0, 2, 0x2e, 1, 0x11, 0x1b, 0x12, 0x0b, 0x40, 0x18, 3, 0x25, 0x3a, 0x0b, 0x3b, 0x0b,
    0x49, 0x15, 0x3f, 0x19, 0, 0, 3, 5, 0, 3, 0x25, 0x3a, 0x0b, 0x3b, 0x0b, 0x49, 0x15, 0, 0, 4,
    0x24, 0, 3, 0x25, 0x3e, 0x0b, 0x0b, 0x0b, 0, 0, 0,
];

// The program without opcodes and .debug_addr stay as they are.
#[test]
fn a_unit_in_the_manner_of_clang(rt: HostRuntime) -> Result<(), Fail> {
    let old: [(&str, &[u8]); 4] = [
        (".debug_info", &CLANG_INFO_WITHOUT_LISTS),
        (".debug_abbrev", &CLANG_ABBREVS_WITHOUT_LISTS),
        (".debug_line", &NO_ROWS),
        (".debug_addr", &CLANG_ADDRESSES),
    ];
    let new: [(&str, &[u8]); 4] = [
        (".debug_info", &LEAST_CLANG_INFO),
        (".debug_abbrev", &LEAST_CLANG_ABBREVS),
        (".debug_line", &NO_ROWS),
        (".debug_addr", &CLANG_ADDRESSES),
    ];
    let answer = shrunk(rt.alloc(), &old)?;
    is_written(&rt, rt.alloc(), &answer, &new)
}
