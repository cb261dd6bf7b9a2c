// Units with their abbreviation tables and the address ranges that name them, by hand. A reference within its unit is written in
// DW_FORM_ref_udata (DWARF 5 sections 7.5.5 and 7.6). How many bytes it has depends on its number, and the numbers depend on the bytes
// of all references before what they name: those are written that are the fewest in all.
use crate::test_files::{Answer, is_certified, is_unwritten, is_written, shrunk};
use std::alloc::{AllocError, Global};
use std::process::Abort;
use std::test::Fail;

/// A compilation unit with children: a variable, with a reference in this form and a block, and a base type. The column of blocks
/// keeps its form: up to 127 bytes DW_FORM_block1 and DW_FORM_block have the same size, so that the form of the input comes first.
pub fn table_with(form: u8) -> [u8; 20] {
    [
        1, 0x11, 1, 0, 0, 2, 0x34, 0, 0x49, form, 0x1c, 0x0a, 0, 0, 3, 0x24, 0, 0, 0, 0,
    ]
}

// The same where a unit has two variables, which give their declaration the code 1.
const VARIABLES_FIRST: [u8; 20] = [
    1, 0x34, 0, 0x49, 0x15, 0x1c, 0x0a, 0, 0, 2, 0x11, 1, 0, 0, 3, 0x24, 0, 0, 0, 0,
];

/// A unit by such a table: it begins with these bytes, which end before the block, the block has so many bytes 0, and the base type
/// and the end of the children follow.
pub fn unit(alloc: Global, head: &[u8], size: usize) -> Result<Vec<u8>, AllocError> {
    let mut bytes = head.to_vec(alloc)?;
    for _ in 0..size {
        bytes.push(0)?;
    }
    bytes.extend_from_slice(&[3, 0])?;
    Ok(bytes)
}

// With a block of 111 bytes the base type stands at 130 where the reference to it has four bytes, at 128 where it has two, and at
// 127 where it has one. Both of the latter are told in their bytes; one is the fewest.
pub const FOUR_BYTES: [u8; 19] = [
    0x80, 0, 0, 0, 5, 0, 1, 8, 0, 0, 0, 0, 1, 2, 0x82, 0, 0, 0, 0x6f,
];

const TWO_BYTES: [u8; 17] = [0x7e, 0, 0, 0, 5, 0, 1, 8, 0, 0, 0, 0, 1, 2, 0x80, 1, 0x6f];

const ONE_BYTE: [u8; 16] = [0x7d, 0, 0, 0, 5, 0, 1, 8, 0, 0, 0, 0, 1, 2, 0x7f, 0x6f];

// With a block of 112 bytes DW_FORM_ref1 tells the base type at 128. DW_FORM_ref_udata has two bytes for 128 and more, so that it
// stands at 129.
const IN_REF1: [u8; 16] = [0x7e, 0, 0, 0, 5, 0, 1, 8, 0, 0, 0, 0, 1, 2, 0x80, 0x70];

const ONE_MORE: [u8; 17] = [0x7f, 0, 0, 0, 5, 0, 1, 8, 0, 0, 0, 0, 1, 2, 0x81, 1, 0x70];

// A variable with an empty block that names the end of the children, and one with a block of 108 bytes that names the base type. With
// a byte for each reference the base type would stand at 127 and the end at 128. The latter has two bytes, then the base type stands
// at 128, and with two bytes for this too at 129, and the end at 130.
const TWO_VARIABLES: [u8; 25] = [
    0x83, 0, 0, 0, 5, 0, 1, 8, 0, 0, 0, 0, 1, 2, 0x86, 0, 0, 0, 0, 2, 0x85, 0, 0, 0, 0x6c,
];

const TWO_BYTES_EACH: [u8; 21] = [
    0x7f, 0, 0, 0, 5, 0, 1, 8, 0, 0, 0, 0, 2, 1, 0x82, 1, 0, 1, 0x81, 1, 0x6c,
];

// A type unit, whose type is the base type: behind the longer header this stands at 142, and at 140 where the reference to it has two
// bytes.
const TYPE_UNIT: [u8; 31] = [
    0x8c, 0, 0, 0, 5, 0, 2, 8, 0, 0, 0, 0, 1, 2, 3, 4, 5, 6, 7, 8, 0x8e, 0, 0, 0, 1, 2, 0x8e, 0, 0,
    0, 0x6f,
];

const LEAST_TYPE_UNIT: [u8; 29] = [
    0x8a, 0, 0, 0, 5, 0, 2, 8, 0, 0, 0, 0, 1, 2, 3, 4, 5, 6, 7, 8, 0x8c, 0, 0, 0, 1, 2, 0x8c, 1,
    0x6f,
];

// Units with blocks of 111 bytes, each with these bytes behind it.
fn units(alloc: Global, rows: &[(&[u8], &[u8])]) -> Result<Vec<u8>, AllocError> {
    let mut bytes = Vec::new(alloc);
    for (head, behind) in rows {
        bytes.extend_from_slice(&unit(alloc, head, 111)?)?;
        bytes.extend_from_slice(behind)?;
    }
    Ok(bytes)
}

// Two sets of address ranges, without ranges, of the units at 0 and at a place.
fn sets(alloc: Global, place: u8) -> Result<Vec<u8>, AllocError> {
    let mut bytes = Vec::new(alloc);
    for start in [0, place] {
        bytes.extend_from_slice(&[0x1c, 0, 0, 0, 2, 0, start, 0, 0, 0, 8, 0])?;
        bytes.extend_from_slice(&[0; 20])?;
    }
    Ok(bytes)
}

// A variable whose DW_AT_sibling is the end of the children of its parent, at 18 and then at 15.
const SIBLING_TABLE: [u8; 13] = [1, 0x11, 1, 0, 0, 2, 0x34, 0, 1, 0x13, 0, 0, 0];

const SIBLING: [u8; 19] = [
    0x0f, 0, 0, 0, 5, 0, 1, 8, 0, 0, 0, 0, 1, 2, 0x12, 0, 0, 0, 0,
];

const LEAST_SIBLING_TABLE: [u8; 13] = [1, 0x11, 1, 0, 0, 2, 0x34, 0, 1, 0x15, 0, 0, 0];

const LEAST_SIBLING: [u8; 16] = [0x0c, 0, 0, 0, 5, 0, 1, 8, 0, 0, 0, 0, 1, 2, 0x0f, 0];

// Five variables whose DW_AT_type is the base type, at 35, in DW_FORM_ref1, ref2, ref4, ref8 and ref_udata, the last with a byte too
// many. Of two bytes each, they put it at 23.
const FORMS_TABLE: [u8; 46] = [
    1, 0x11, 1, 0, 0, 2, 0x34, 0, 0x49, 0x11, 0, 0, 3, 0x34, 0, 0x49, 0x12, 0, 0, 4, 0x34, 0, 0x49,
    0x13, 0, 0, 5, 0x34, 0, 0x49, 0x14, 0, 0, 6, 0x34, 0, 0x49, 0x15, 0, 0, 7, 0x24, 0, 0, 0, 0,
];

const FORMS: [u8; 37] = [
    0x21, 0, 0, 0, 5, 0, 1, 8, 0, 0, 0, 0, // the header
    1, 2, 0x23, // DW_FORM_ref1 at 14
    3, 0x23, 0, // DW_FORM_ref2 at 16
    4, 0x23, 0, 0, 0, // DW_FORM_ref4
    5, 0x23, 0, 0, 0, 0, 0, 0, 0, // DW_FORM_ref8
    6, 0xa3, 0, // DW_FORM_ref_udata
    7, 0,
];

const LEAST_FORMS_TABLE: [u8; 46] = [
    1, 0x11, 1, 0, 0, 2, 0x34, 0, 0x49, 0x15, 0, 0, 3, 0x34, 0, 0x49, 0x15, 0, 0, 4, 0x34, 0, 0x49,
    0x15, 0, 0, 5, 0x34, 0, 0x49, 0x15, 0, 0, 6, 0x34, 0, 0x49, 0x15, 0, 0, 7, 0x24, 0, 0, 0, 0,
];

const LEAST_FORMS: [u8; 25] = [
    0x15, 0, 0, 0, 5, 0, 1, 8, 0, 0, 0, 0, 1, 2, 0x17, 3, 0x17, 4, 0x17, 5, 0x17, 6, 0x17, 7, 0,
];

// Two units with a base type at 13. The first has two variables with a DW_AT_sibling in DW_FORM_ref4 and a DW_AT_type in DW_FORM_ref_addr,
// which is the base type of the first unit and that of the second one, at 33. DW_FORM_ref_addr stays, with four bytes each, and the
// second unit stands at 27.
const TWO_UNITS_TABLE: [u8; 20] = [
    1, 0x11, 1, 0, 0, 2, 0x34, 0, 1, 0x13, 0x49, 0x10, 0, 0, 3, 0x24, 0, 0, 0, 0,
];

const TWO_UNITS: [u8; 48] = [
    0x1d, 0, 0, 0, 5, 0, 1, 8, 0, 0, 0, 0, 1, 3, // the first unit up to its variables
    2, 0x17, 0, 0, 0, 0x0d, 0, 0, 0, // the variable at 14
    2, 0x20, 0, 0, 0, 0x2e, 0, 0, 0, 0, // the one at 23
    0x0b, 0, 0, 0, 5, 0, 1, 8, 0, 0, 0, 0, 1, 3, 0, // the second unit
];

const LEAST_TWO_UNITS_TABLE: [u8; 20] = [
    1, 0x11, 1, 0, 0, 2, 0x34, 0, 1, 0x15, 0x49, 0x10, 0, 0, 3, 0x24, 0, 0, 0, 0,
];

const LEAST_TWO_UNITS: [u8; 42] = [
    0x17, 0, 0, 0, 5, 0, 1, 8, 0, 0, 0, 0, 1, 3, // the first unit up to its variables
    2, 0x14, 0x0d, 0, 0, 0, // the variable at 14
    2, 0x1a, 0x28, 0, 0, 0, 0, // the one at 20
    0x0b, 0, 0, 0, 5, 0, 1, 8, 0, 0, 0, 0, 1, 3, 0, // the second unit
];

// The code 129 in two bytes, and the code 1.
const CODE_TABLE: [u8; 7] = [0x81, 1, 0x11, 0, 0, 0, 0];

const CODE: [u8; 14] = [0x0a, 0, 0, 0, 5, 0, 1, 8, 0, 0, 0, 0, 0x81, 1];

const LEAST_CODE_TABLE: [u8; 6] = [1, 0x11, 0, 0, 0, 0];

const LEAST_CODE: [u8; 13] = [9, 0, 0, 0, 5, 0, 1, 8, 0, 0, 0, 0, 1];

// The answer for a file with these sections.
fn answer_for<'a>(
    alloc: Global,
    info: &'a [u8],
    abbrevs: &'a [u8],
    sets: &'a [u8],
) -> Result<Answer, Fail> {
    shrunk(
        alloc,
        &[
            (".debug_info", info),
            (".debug_abbrev", abbrevs),
            (".debug_aranges", sets),
        ],
    )
}

// Stops where the program didn't write such a file.
fn has_written<'a>(
    rt: &impl Abort,
    alloc: Global,
    answer: &Answer,
    info: &'a [u8],
    abbrevs: &'a [u8],
    sets: &'a [u8],
) -> Result<(), Fail> {
    is_written(
        rt,
        alloc,
        answer,
        &[
            (".debug_info", info),
            (".debug_abbrev", abbrevs),
            (".debug_aranges", sets),
        ],
    )
}

#[test]
fn references_in_the_fewest_bytes(rt: HostRuntime) -> Result<(), Fail> {
    let alloc = rt.alloc();
    let least = table_with(0x15);
    // the form of references and the size of the block in a unit, the unit up to its block, and what is to be written
    let table: [(u8, usize, &[u8], &[u8], &[u8]); 6] = [
        (0x13, 111, &FOUR_BYTES, &ONE_BYTE, &least),
        (0x15, 111, &TWO_BYTES, &ONE_BYTE, &least),
        (0x15, 111, &ONE_BYTE, &ONE_BYTE, &least),
        (0x11, 111, &ONE_BYTE, &ONE_BYTE, &least),
        (0x11, 112, &IN_REF1, &ONE_MORE, &least),
        (0x13, 108, &TWO_VARIABLES, &TWO_BYTES_EACH, &VARIABLES_FIRST),
    ];
    for (form, size, head, new_head, new_abbrevs) in table {
        let old = unit(alloc, head, size)?;
        let answer = answer_for(alloc, &old, &table_with(form), &[])?;
        let new = unit(alloc, new_head, size)?;
        has_written(&rt, alloc, &answer, &new, new_abbrevs, &[])?;
    }
    let old = unit(alloc, &FOUR_BYTES, 111)?;
    let answer = answer_for(alloc, &old, &table_with(0x13), &[])?;
    // of a unit without a slot above its smallest size: no rank
    is_certified(&rt, alloc, &answer, &[3, 0])
}

// Units of 132, 132 and 144 bytes become ones of 129, 129 and 142, the first also where three bytes of padding follow its tree.
#[test]
fn units_follow_one_another(rt: HostRuntime) -> Result<(), Fail> {
    let alloc = rt.alloc();
    let new = units(
        alloc,
        &[(&ONE_BYTE, &[]), (&ONE_BYTE, &[]), (&LEAST_TYPE_UNIT, &[])],
    )?;
    let new_sets = sets(alloc, 129)?;
    let mut longer = FOUR_BYTES;
    longer[0] = 0x83;
    // the first unit up to its block, the padding, and the place of the second unit
    let table: [(&[u8], &[u8], u8); 2] = [(&FOUR_BYTES, &[], 132), (&longer, &[0; 3], 135)];
    for (first, padding, second) in table {
        let old = units(
            alloc,
            &[(first, padding), (&FOUR_BYTES, &[]), (&TYPE_UNIT, &[])],
        )?;
        let answer = answer_for(alloc, &old, &table_with(0x13), &sets(alloc, second)?)?;
        has_written(&rt, alloc, &answer, &new, &table_with(0x15), &new_sets)?;
        // no rank, no rank, and the rank 0 of the step to two bytes
        is_certified(&rt, alloc, &answer, &[3, 0, 3, 0, 3, 1, 0])?;
    }
    Ok(())
}

#[test]
fn small_units_written(rt: HostRuntime) -> Result<(), Fail> {
    let alloc = rt.alloc();
    // .debug_info and .debug_abbrev, and what is to be written
    let table: [(&[u8], &[u8], &[u8], &[u8]); 4] = [
        (
            &SIBLING,
            &SIBLING_TABLE,
            &LEAST_SIBLING,
            &LEAST_SIBLING_TABLE,
        ),
        (&FORMS, &FORMS_TABLE, &LEAST_FORMS, &LEAST_FORMS_TABLE),
        (
            &TWO_UNITS,
            &TWO_UNITS_TABLE,
            &LEAST_TWO_UNITS,
            &LEAST_TWO_UNITS_TABLE,
        ),
        (&CODE, &CODE_TABLE, &LEAST_CODE, &LEAST_CODE_TABLE),
    ];
    for (info, abbrevs, new_info, new_abbrevs) in table {
        let answer = answer_for(alloc, info, abbrevs, &[])?;
        has_written(&rt, alloc, &answer, new_info, new_abbrevs, &[])?;
    }
    Ok(())
}

#[test]
fn units_refused(rt: HostRuntime) -> Result<(), Fail> {
    let alloc = rt.alloc();
    // .debug_info and .debug_abbrev, a byte of the first, what stands there instead, and the answer: another version; a sibling past the
    // end of the children; and references to places where no entry stands, in DW_FORM_ref1, DW_FORM_ref2 and DW_FORM_ref_addr
    let table: [(&[u8], &[u8], usize, u8, &str); 5] = [
        (&SIBLING, &SIBLING_TABLE, 4, 4, "refused UnitHead at 64\n"),
        (&SIBLING, &SIBLING_TABLE, 14, 0x13, "refused Target at 78\n"),
        (&FORMS, &FORMS_TABLE, 14, 0x22, "refused Target at 78\n"),
        (&FORMS, &FORMS_TABLE, 17, 1, "refused Target at 80\n"),
        (
            &TWO_UNITS,
            &TWO_UNITS_TABLE,
            19,
            0x0f,
            "refused Target at 83\n",
        ),
    ];
    for (info, abbrevs, at, byte, said) in table {
        let mut old = info.to_vec(alloc)?;
        if let Some(place) = old.get_mut(at) {
            *place = byte;
        }
        let answer = answer_for(alloc, &old, abbrevs, &[])?;
        is_unwritten(&rt, &answer, 3, said);
    }
    Ok(())
}
