// Files that are cut, and files that were made to mislead: each is refused by a kind and a place, and nothing is written.
use crate::line_tests::NO_ROWS;
use crate::overlap_tests::units;
use crate::sample_tests::{CLANG, GCC};
use crate::test_files::{
    Answer, answer_to, elf_file, is_refused, is_unwritten, shrunk, with_bytes, with_section,
};
use std::alloc::Global;
use std::test::Fail;

// A cut leaves a thing that isn't whole or, where all is gone, names of what isn't there any more; but without .debug_info nothing is named.
// The section that is kept isn't cut.
#[test]
fn sections_that_are_cut(rt: HostRuntime) -> Result<(), Fail> {
    let alloc = rt.alloc();
    for sections in [GCC.as_slice(), &CLANG] {
        for (number, (name, body)) in sections.iter().enumerate() {
            if *name == ".debug_addr" {
                continue;
            }
            for length in 0..=body.len() {
                let cut = with_section(alloc, sections, number, &body[..length])?;
                let answer = shrunk(alloc, &cut)?;
                if length == body.len() || (*name == ".debug_info" && length == 0) {
                    assert_eq!(rt; answer.status, 0, "{name} {length}");
                } else if length == 0 {
                    is_refused(&rt, &answer, "refused Pointer at ");
                } else {
                    is_refused(&rt, &answer, "refused Short at ");
                }
            }
        }
    }
    Ok(())
}

// The section headers end the file, and so no front of it has them.
#[test]
fn files_that_are_cut(rt: HostRuntime) -> Result<(), Fail> {
    let alloc = rt.alloc();
    let file = elf_file(alloc, &CLANG)?;
    assert_eq!(rt; file.len(), 936);
    for length in 0..file.len() {
        let front = file[..length].to_vec(alloc)?;
        let answer = answer_to(alloc, &["shrink", "a", "b", "c"], Some(front), &[])?;
        let said = if length < 64 {
            "refused NotElf64 at 0\n"
        } else {
            "refused Torn at 0\n"
        };
        is_unwritten(&rt, &answer, 3, said);
    }
    Ok(())
}

// The answer for a file with these sections.
fn answer_for<'a>(
    alloc: Global,
    info: &'a [u8],
    abbrevs: &'a [u8],
    lines: &'a [u8],
    ranges: &'a [u8],
) -> Result<Answer, Fail> {
    shrunk(
        alloc,
        &[
            (".debug_info", info),
            (".debug_abbrev", abbrevs),
            (".debug_line", lines),
            (".debug_rnglists", ranges),
        ],
    )
}

// A unit whose root names a range list at 12 or 16 of a contribution that has one slot, and so lists from 16 on.
const NAMES_A_LIST: [u8; 8] = [1, 0x11, 0, 0x55, 0x17, 0, 0, 0];

const ONE_SLOT: [u8; 17] = [13, 0, 0, 0, 5, 0, 8, 0, 1, 0, 0, 0, 4, 0, 0, 0, 0];

#[test]
fn files_that_mislead(rt: HostRuntime) -> Result<(), Fail> {
    let alloc = rt.alloc();
    // DW_LNE_set_address with an address of 7 bytes, directly behind the header of 34
    let mut short_address = with_bytes(alloc, &NO_ROWS, &[(0, 0x28)])?;
    short_address.extend_from_slice(&[0, 8, 2, 0, 0, 0, 0, 0, 0, 0])?;
    let own_offsets = with_bytes(alloc, &ONE_SLOT, &[(12, 0)])?;
    // the units by a table at 0, the table, a line number program, and range lists
    let table: [(&[u8], &[u8], &[u8], &[u8], &str); 5] = [
        // a declaration that says 2 of its children
        (
            &[1],
            &[1, 0x11, 2, 0, 0, 0],
            &[],
            &[],
            "refused FormUnknown at 77\n",
        ),
        // children without an end
        (
            &[1, 1, 1],
            &[1, 0x11, 1, 0, 0, 0],
            &[],
            &[],
            "refused Tree at 64\n",
        ),
        (
            &[1],
            &[1, 0x11, 0, 0, 0, 0],
            &short_address,
            &[],
            "refused LineOp at 117\n",
        ),
        // a list at the table of offsets, named by an entry and by a slot
        (
            &[1, 12, 0, 0, 0],
            &NAMES_A_LIST,
            &[],
            &ONE_SLOT,
            "refused Pointer at 77\n",
        ),
        (
            &[1, 16, 0, 0, 0],
            &NAMES_A_LIST,
            &[],
            &own_offsets,
            "refused Pointer at 101\n",
        ),
    ];
    for (entries, abbrevs, lines, ranges, said) in table {
        let info = units(alloc, &[(0, entries)])?;
        let answer = answer_for(alloc, &info, abbrevs, lines, ranges)?;
        is_unwritten(&rt, &answer, 3, said);
    }
    // version 4 of a unit, and an opcode that isn't known as the frame base of a function
    let table: [(&[(&str, &[u8])], usize, u8, &str); 2] = [
        (&CLANG, 68, 4, "refused UnitHead at 64\n"),
        (&GCC, 135, 0xed, "refused Op at 135\n"),
    ];
    for (sections, at, byte, said) in table {
        let file = with_bytes(alloc, &elf_file(alloc, sections)?, &[(at, byte)])?;
        let answer = answer_to(alloc, &["shrink", "a", "b", "c"], Some(file), &[])?;
        is_unwritten(&rt, &answer, 3, said);
    }
    Ok(())
}

// The section headers stand at 88, and the second one has the alignment at 200. Under 4,096 the section of 1 byte stands there, the names
// behind it in 22 bytes, and the three headers from 4,120 on.
#[test]
fn sections_that_are_aligned(rt: HostRuntime) -> Result<(), Fail> {
    let alloc = rt.alloc();
    let file = elf_file(alloc, &[(".debug_str", &[7])])?;
    let words = ["shrink", "a", "b", "c"];
    let most = with_bytes(alloc, &file, &[(200, 0), (201, 0x10)])?;
    let answer = answer_to(alloc, &words, Some(most), &[])?;
    assert_eq!(rt; answer.status, 0);
    assert_eq!(rt; answer.output.len(), 4120 + 3 * 64);
    assert_eq!(rt; answer.output.get(4096), Some(&7));
    let more = with_bytes(alloc, &file, &[(200, 0), (201, 0x20)])?;
    let answer = answer_to(alloc, &words, Some(more), &[])?;
    is_unwritten(&rt, &answer, 3, "refused Limit at 64\n");
    Ok(())
}
