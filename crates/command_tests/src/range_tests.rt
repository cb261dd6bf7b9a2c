// Range lists, worked out by hand: the shortest list of some ranges (DWARF 5 section 7.25), and which one of several.
use crate::check_tests::is_checked;
use crate::overlap_tests::units;
use crate::test_files::{MAGIC, answer_to, elf_file, is_written, shrunk};
use std::alloc::{AllocError, Global};
use std::process::Abort;
use std::test::Fail;

/// A contribution without slots that has this list, at 12.
pub fn contribution(alloc: Global, list: &[u8]) -> Result<Vec<u8>, AllocError> {
    let length = (list.len() as u64).saturating_add(8);
    let mut bytes = length.to_le_bytes()[..4].to_vec(alloc)?;
    bytes.extend_from_slice(&[5, 0, 8, 0, 0, 0, 0, 0])?;
    bytes.extend_from_slice(list)?;
    Ok(bytes)
}

// A file whose one unit names a range list by DW_AT_ranges and, where there are addresses, their table by DW_AT_addr_base.
fn file_of(alloc: Global, list: &[u8], addresses: &[u64]) -> Result<Vec<u8>, AllocError> {
    let lists = contribution(alloc, list)?;
    if addresses.is_empty() {
        let info = units(alloc, &[(0, &[1, 12, 0, 0, 0])])?;
        let sections: [(&str, &[u8]); 3] = [
            (".debug_info", &info),
            (".debug_abbrev", &[1, 0x11, 0, 0x55, 0x17, 0, 0, 0]),
            (".debug_rnglists", &lists),
        ];
        return elf_file(alloc, &sections);
    }
    let info = units(alloc, &[(0, &[1, 8, 0, 0, 0, 12, 0, 0, 0])])?;
    let length = (addresses.len() % 30) as u8 * 8 + 4;
    let mut table = [length, 0, 0, 0, 5, 0, 8, 0].to_vec(alloc)?;
    for address in addresses {
        table.extend_from_slice(&address.to_le_bytes())?;
    }
    let sections: [(&str, &[u8]); 4] = [
        (".debug_info", &info),
        (
            ".debug_abbrev",
            &[1, 0x11, 0, 0x73, 0x17, 0x55, 0x17, 0, 0, 0],
        ),
        (".debug_rnglists", &lists),
        (".debug_addr", &table),
    ];
    elf_file(alloc, &sections)
}

// Stops where of a file with a list not the one with the other list is written, or `check` doesn't accept it. Gives the certificate.
fn becomes(
    rt: &impl Abort,
    alloc: Global,
    list: &[u8],
    addresses: &[u64],
    least: &[u8],
) -> Result<Vec<u8>, Fail> {
    let input = file_of(alloc, list, addresses)?;
    let wanted = file_of(alloc, least, addresses)?;
    let kept = input.as_slice().to_vec(alloc)?;
    let answer = answer_to(alloc, &["shrink", "a", "b", "c"], Some(kept), &[])?;
    assert_eq!(rt; answer.output.as_slice(), wanted.as_slice());
    let files: [&[u8]; 3] = [&input, &wanted, &answer.certificate];
    is_checked(rt, alloc, files, &[], 0, "accepted\n")?;
    Ok(answer.certificate)
}

// Of ranges at S = 0x7f0000000000 and 0x1ffffe bytes on: from the base S the second one has offsets of 3 and 4 bytes.
const FAR: u64 = 0x7f0000000000;

// Ranges, the addresses of the table, and the shortest list.
const SHORTEST: [(&[(u64, u64)], &[u64], &[u8]); 9] = [
    (
        &[(0x401000, 0x401010), (0x401020, 0x401024)],
        &[],
        &[
            5, 0, 0x10, 0x40, 0, 0, 0, 0, 0, 4, 0, 0x10, 4, 0x20, 0x24, 0,
        ],
    ),
    (
        &[(0x401000, 0x401010)],
        &[],
        &[4, 0x80, 0xa0, 0x80, 2, 0x90, 0xa0, 0x80, 2, 0],
    ),
    (&[], &[], &[0]),
    // by the start of the later range
    (
        &[(0x402000, 0x402010), (0x401000, 0x401004)],
        &[],
        &[
            5, 0, 0x10, 0x40, 0, 0, 0, 0, 0, 4, 0x80, 0x20, 0x90, 0x20, 4, 0, 4, 0,
        ],
    ),
    (
        &[(0x402000, 0x402010), (0x401000, 0x401004)],
        &[0x401000],
        &[1, 0, 4, 0x80, 0x20, 0x90, 0x20, 3, 0, 4, 0],
    ),
    // of two indexes that take as many bytes the lower one, be its address the lower or the greater
    (
        &[(0x401010, 0x401014)],
        &[0x401000, 0x401008],
        &[1, 0, 4, 0x10, 0x14, 0],
    ),
    (
        &[(0x401010, 0x401014)],
        &[0x401008, 0x401000],
        &[1, 0, 4, 8, 0x0c, 0],
    ),
    // 2 + 4 + 3 * 5 bytes with an index, and 9 + 4 * 3 with the base 0x401070: DW_RLE_base_addressx has the lower code
    (
        &[
            (0x401070, 0x401090),
            (0x4010a0, 0x4010a4),
            (0x4010b0, 0x4010b4),
            (0x4010c0, 0x4010c4),
        ],
        &[0x401000],
        &[
            1, 0, 4, 0x70, 0x90, 1, 4, 0xa0, 1, 0xa4, 1, 4, 0xb0, 1, 0xb4, 1, 4, 0xc0, 1, 0xc4, 1,
            0,
        ],
    ),
    // 9 + 3 + 8 bytes with the base S, or S - 1, and 10 + 10 by DW_RLE_start_length, which has a greater code: the greatest base
    (
        &[(FAR, FAR + 4), (FAR + 0x1ffffe, FAR + 0x200002)],
        &[],
        &[
            5, 0, 0, 0, 0, 0, 0x7f, 0, 0, 4, 0, 4, 4, 0xfe, 0xff, 0x7f, 0x82, 0x80, 0x80, 1, 0,
        ],
    ),
];

#[test]
fn shortest_range_lists(rt: HostRuntime) -> Result<(), Fail> {
    let alloc = rt.alloc();
    for (ranges, addresses, least) in SHORTEST {
        let mut list = Vec::new(alloc);
        for (start, end) in ranges {
            list.push(6)?;
            list.extend_from_slice(&start.to_le_bytes())?;
            list.extend_from_slice(&end.to_le_bytes())?;
        }
        list.push(0)?;
        becomes(&rt, alloc, &list, addresses, least)?;
    }
    Ok(())
}

// A number below 2^21 in LEB128.
fn push_number(bytes: &mut Vec<u8>, number: u64) -> Result<(), AllocError> {
    let first = (number % 128) as u8;
    let second = (number / 128 % 128) as u8;
    let third = (number / 16384 % 128) as u8;
    if number < 128 {
        bytes.extend_from_slice(&[first])
    } else if number < 16384 {
        bytes.extend_from_slice(&[first + 128, second])
    } else {
        bytes.extend_from_slice(&[first + 128, second + 128, third])
    }
}

// The certificate of a file with a list of so many ranges from 0 to 4, in 3 bytes each. A potential counts 9 bytes of a base, the ranges
// from its own on, and the end. A list of more than 16,384 items is frozen and has no record. The unit has no slot.
fn certificate_of(alloc: Global, count: u64) -> Result<Vec<u8>, AllocError> {
    let mut bytes = MAGIC.to_vec(alloc)?;
    if count <= 16384 {
        bytes.push(2)?;
        push_number(&mut bytes, count)?;
        for item in 0..count {
            push_number(&mut bytes, 3 * (count - item) + 10)?;
        }
    }
    bytes.extend_from_slice(&[3, 0])?;
    Ok(bytes)
}

#[test]
fn long_range_lists(rt: HostRuntime) -> Result<(), Fail> {
    let alloc = rt.alloc();
    for count in [2000u64, 16384, 16385] {
        let mut list = Vec::new(alloc);
        for _ in 0..count {
            list.extend_from_slice(&[4, 0, 4])?;
        }
        list.push(0)?;
        let certificate = becomes(&rt, alloc, &list, &[], &list)?;
        let wanted = certificate_of(alloc, count)?;
        assert_eq!(rt;
            certificate.as_slice() == wanted.as_slice(),
            true,
            "{count}"
        );
    }
    Ok(())
}

/// A declaration with DW_AT_ranges and DW_AT_start_scope.
pub const TWO_LISTS: [u8; 10] = [1, 0x11, 0, 0x55, 0x17, 0x2c, 0x17, 0, 0, 0];

// Two lists that share their end become two lists.
#[test]
fn lists_that_share_their_end(rt: HostRuntime) -> Result<(), Fail> {
    let alloc = rt.alloc();
    let info = units(alloc, &[(0, &[1, 12, 0, 0, 0, 15, 0, 0, 0])])?;
    let lists = contribution(alloc, &[4, 0, 4, 4, 8, 12, 0])?;
    let old: [(&str, &[u8]); 3] = [
        (".debug_info", &info),
        (".debug_abbrev", &TWO_LISTS),
        (".debug_rnglists", &lists),
    ];
    let new_info = units(alloc, &[(0, &[1, 12, 0, 0, 0, 19, 0, 0, 0])])?;
    let new_lists = contribution(alloc, &[4, 0, 4, 4, 8, 12, 0, 4, 8, 12, 0])?;
    let new: [(&str, &[u8]); 3] = [
        (".debug_info", &new_info),
        (".debug_abbrev", &TWO_LISTS),
        (".debug_rnglists", &new_lists),
    ];
    is_written(&rt, alloc, &shrunk(alloc, &old)?, &new)
}
