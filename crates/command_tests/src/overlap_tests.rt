// Units whose abbreviation tables overlap, by hand.
use crate::test_files::{is_unwritten, is_written, shrunk};
use std::alloc::{AllocError, Global};
use std::test::Fail;

// A compilation unit by the table at a place, with these entries.
fn unit(alloc: Global, place: u8, entries: &[u8]) -> Result<Vec<u8>, AllocError> {
    let length = (entries.len() % 200) as u8 + 8;
    let mut bytes = [length, 0, 0, 0, 5, 0, 1, 8, place, 0, 0, 0].to_vec(alloc)?;
    bytes.extend_from_slice(entries)?;
    Ok(bytes)
}

/// Units by tables at places, one after the other.
pub fn units(alloc: Global, rows: &[(u8, &[u8])]) -> Result<Vec<u8>, AllocError> {
    let mut bytes = Vec::new(alloc);
    for (place, entries) in rows {
        bytes.extend_from_slice(&unit(alloc, *place, entries)?)?;
    }
    Ok(bytes)
}

// Three declarations without columns, which begin at 0, 5 and 10.
const THREE: [u8; 16] = [1, 0x11, 0, 0, 0, 2, 0x3c, 0, 0, 0, 3, 0x24, 0, 0, 0, 0];

#[test]
fn tables_that_end_together(rt: HostRuntime) -> Result<(), Fail> {
    let alloc = rt.alloc();
    let info = units(alloc, &[(10, &[3]), (0, &[1]), (5, &[3]), (0, &[2])])?;
    let answer = shrunk(alloc, &[(".debug_info", &info), (".debug_abbrev", &THREE)])?;
    let new_info = units(alloc, &[(17, &[1]), (0, &[1]), (11, &[1]), (0, &[2])])?;
    let new_tables = [
        1u8, 0x11, 0, 0, 0, 2, 0x3c, 0, 0, 0, 0, 1, 0x24, 0, 0, 0, 0, 1, 0x24, 0, 0, 0, 0,
    ];
    is_written(
        &rt,
        alloc,
        &answer,
        &[(".debug_info", &new_info), (".debug_abbrev", &new_tables)],
    )
}

// A code that stands only before the place of the unit's table.
#[test]
fn code_before_the_table(rt: HostRuntime) -> Result<(), Fail> {
    let alloc = rt.alloc();
    let info = units(alloc, &[(0, &[1]), (5, &[1])])?;
    let answer = shrunk(alloc, &[(".debug_info", &info), (".debug_abbrev", &THREE)])?;
    is_unwritten(&rt, &answer, 3, "refused CodeMissing at 89\n");
    Ok(())
}

// A declaration with the code 5 and two columns, and one with the code `last`. From the place 4 on, in the first column, a
// declaration with the code 1, the tag 1 and children is read, and then the last one.
fn read_in_two_ways(last: u8) -> [u8; 15] {
    [5, 0x11, 0, 1, 1, 1, 1, 0, 0, last, 0x24, 0, 0, 0, 0]
}

#[test]
fn table_inside_a_declaration(rt: HostRuntime) -> Result<(), Fail> {
    let alloc = rt.alloc();
    let info = units(alloc, &[(0, &[3]), (4, &[1, 3, 0])])?;
    let answer = shrunk(
        alloc,
        &[
            (".debug_info", &info),
            (".debug_abbrev", &read_in_two_ways(3)),
        ],
    )?;
    let new_info = units(alloc, &[(0, &[1]), (6, &[1, 2, 0])])?;
    let new_tables = [1u8, 0x24, 0, 0, 0, 0, 1, 1, 1, 0, 0, 2, 0x24, 0, 0, 0, 0];
    is_written(
        &rt,
        alloc,
        &answer,
        &[(".debug_info", &new_info), (".debug_abbrev", &new_tables)],
    )
}

// The code 1 comes twice in the table at 4 alone.
#[test]
fn code_twice_where_tables_join(rt: HostRuntime) -> Result<(), Fail> {
    let alloc = rt.alloc();
    let info = units(alloc, &[(0, &[1]), (4, &[1, 1, 0])])?;
    let answer = shrunk(
        alloc,
        &[
            (".debug_info", &info),
            (".debug_abbrev", &read_in_two_ways(1)),
        ],
    )?;
    is_unwritten(&rt, &answer, 3, "refused CodeTwice at 101\n");
    Ok(())
}
