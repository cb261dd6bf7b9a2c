// Columns in their least forms (DWARF 5 sections 7.5.3 and 7.5.6), worked out by hand. In each file a root has variables with
// one attribute. Their declaration stands before that of the root, and has the code 1 also where both are used as often.
use crate::test_files::{is_written, shrunk};
use std::alloc::Global;
use std::process::Abort;
use std::test::Fail;

// The .debug_info and .debug_abbrev of a file, and those that are to be written.
#[derive(Clone, Copy)]
struct Case {
    info: &'static [u8],
    abbrevs: &'static [u8],
    new_info: &'static [u8],
    new_abbrevs: &'static [u8],
}

// Stops where the program doesn't write what is wanted.
fn check(rt: &impl Abort, alloc: Global, case: &Case) -> Result<(), Fail> {
    let old = [(".debug_info", case.info), (".debug_abbrev", case.abbrevs)];
    let new = [
        (".debug_info", case.new_info),
        (".debug_abbrev", case.new_abbrevs),
    ];
    let answer = shrunk(alloc, &old)?;
    is_written(rt, alloc, &answer, &new)
}

// Variables with DW_AT_decl_line in the form data1, and one unit of two: its second byte tells no sign of the value 0xff, which
// no other form has, so that the 5 stays as it is too.
const DATA1: [u8; 13] = [1, 0x34, 0, 0x3b, 0x0b, 0, 0, 2, 0x11, 1, 0, 0, 0];

const HIGH_AND_LOW: [u8; 18] = [14, 0, 0, 0, 5, 0, 1, 8, 0, 0, 0, 0, 2, 1, 0xff, 1, 5, 0];

// One of one variable: the byte would stand in the declaration in place of the entry, and among equals the form stays.
const ONE: [u8; 16] = [12, 0, 0, 0, 5, 0, 1, 8, 0, 0, 0, 0, 2, 1, 5, 0];

#[test]
fn columns_that_keep_their_form(rt: HostRuntime) -> Result<(), Fail> {
    for info in [HIGH_AND_LOW.as_slice(), ONE.as_slice()] {
        let case = Case {
            info,
            abbrevs: &DATA1,
            new_info: info,
            new_abbrevs: &DATA1,
        };
        check(&rt, rt.alloc(), &case)?;
    }
    Ok(())
}

// Three lines 5 in the form data2, with 6 bytes: data1 has 3, implicit_const 1.
const CONSTANT: Case = Case {
    info: &[
        19, 0, 0, 0, 5, 0, 1, 8, 0, 0, 0, 0, 2, 1, 5, 0, 1, 5, 0, 1, 5, 0, 0,
    ],
    abbrevs: &[1, 0x34, 0, 0x3b, 5, 0, 0, 2, 0x11, 1, 0, 0, 0],
    new_info: &[13, 0, 0, 0, 5, 0, 1, 8, 0, 0, 0, 0, 2, 1, 1, 1, 0],
    new_abbrevs: &[1, 0x34, 0, 0x3b, 0x21, 5, 0, 0, 2, 0x11, 1, 0, 0, 0],
};

#[test]
fn one_value_in_all_entries(rt: HostRuntime) -> Result<(), Fail> {
    check(&rt, rt.alloc(), &CONSTANT)
}

// A unit of one line 16 in the form data8, and in data1.
const WIDE: [u8; 23] = [
    19, 0, 0, 0, 5, 0, 1, 8, 0, 0, 0, 0, 2, 1, 16, 0, 0, 0, 0, 0, 0, 0, 0,
];

const NARROW: [u8; 16] = [12, 0, 0, 0, 5, 0, 1, 8, 0, 0, 0, 0, 2, 1, 16, 0];

// data1, sdata, udata and implicit_const have one byte, and data1 the lowest code of these.
const SMALLER: Case = Case {
    info: &WIDE,
    abbrevs: &[1, 0x34, 0, 0x3b, 7, 0, 0, 2, 0x11, 1, 0, 0, 0],
    new_info: &NARROW,
    new_abbrevs: &DATA1,
};

#[test]
fn a_form_with_fewer_bytes(rt: HostRuntime) -> Result<(), Fail> {
    check(&rt, rt.alloc(), &SMALLER)
}

// Two variables with DW_AT_external, which is true: flag_present has no bytes.
const FLAGS: Case = Case {
    info: &[14, 0, 0, 0, 5, 0, 1, 8, 0, 0, 0, 0, 2, 1, 1, 1, 1, 0],
    abbrevs: &[1, 0x34, 0, 0x3f, 0x0c, 0, 0, 2, 0x11, 1, 0, 0, 0],
    new_info: &[12, 0, 0, 0, 5, 0, 1, 8, 0, 0, 0, 0, 2, 1, 1, 0],
    new_abbrevs: &[1, 0x34, 0, 0x3f, 0x19, 0, 0, 2, 0x11, 1, 0, 0, 0],
};

#[test]
fn flags_that_are_true(rt: HostRuntime) -> Result<(), Fail> {
    check(&rt, rt.alloc(), &FLAGS)
}

// Two units of one table, with the lines 5 and 0x4000 in the form data4. The first would fit data1, which the second doesn't. It
// has 3 bytes in sdata and in udata, so that the column has 2 + 2 bytes in data2, 1 + 3 in these two, and data2 has the lowest
// code.
const TWO_UNITS: Case = Case {
    info: &[
        15, 0, 0, 0, 5, 0, 1, 8, 0, 0, 0, 0, 2, 1, 5, 0, 0, 0, 0, 15, 0, 0, 0, 5, 0, 1, 8, 0, 0, 0,
        0, 2, 1, 0, 0x40, 0, 0, 0,
    ],
    abbrevs: &[1, 0x34, 0, 0x3b, 6, 0, 0, 2, 0x11, 1, 0, 0, 0],
    new_info: &[
        13, 0, 0, 0, 5, 0, 1, 8, 0, 0, 0, 0, 2, 1, 5, 0, 0, 13, 0, 0, 0, 5, 0, 1, 8, 0, 0, 0, 0, 2,
        1, 0, 0x40, 0,
    ],
    new_abbrevs: &[1, 0x34, 0, 0x3b, 5, 0, 0, 2, 0x11, 1, 0, 0, 0],
};

#[test]
fn one_column_of_two_units(rt: HostRuntime) -> Result<(), Fail> {
    check(&rt, rt.alloc(), &TWO_UNITS)
}

// The lines 5, 5 and 0x7fff in the form data2, with 6 bytes. In sdata, and in udata too, the last one has 3 bytes in place of 2,
// so that its entry grows by one, but each of the other two loses one: the column has 1 + 1 + 3 bytes, and sdata has the lower
// code.
const GROWING: Case = Case {
    info: &[
        19, 0, 0, 0, 5, 0, 1, 8, 0, 0, 0, 0, 2, 1, 5, 0, 1, 5, 0, 1, 0xff, 0x7f, 0,
    ],
    abbrevs: &[1, 0x34, 0, 0x3b, 5, 0, 0, 2, 0x11, 1, 0, 0, 0],
    new_info: &[
        18, 0, 0, 0, 5, 0, 1, 8, 0, 0, 0, 0, 2, 1, 5, 1, 5, 1, 0xff, 0xff, 1, 0,
    ],
    new_abbrevs: &[1, 0x34, 0, 0x3b, 0x0d, 0, 0, 2, 0x11, 1, 0, 0, 0],
};

#[test]
fn an_entry_that_grows(rt: HostRuntime) -> Result<(), Fail> {
    check(&rt, rt.alloc(), &GROWING)
}

// The same unit, behind the declaration of a base type that no entry has: no form is chosen for its columns
// (DW_AT_byte_size as the constant 4 and DW_AT_encoding as data8), it isn't written, and the next column is still that of the
// variable.
const UNUSED: Case = Case {
    info: &WIDE,
    abbrevs: &[
        3, 0x24, 0, 0x0b, 0x21, 4, 0x3e, 7, 0, 0, 1, 0x34, 0, 0x3b, 7, 0, 0, 2, 0x11, 1, 0, 0, 0,
    ],
    new_info: &NARROW,
    new_abbrevs: &DATA1,
};

#[test]
fn columns_of_an_unused_declaration(rt: HostRuntime) -> Result<(), Fail> {
    check(&rt, rt.alloc(), &UNUSED)
}

// The declaration of the root stands first, but the three variables give theirs the code 1. The lines 5, 6 and 7 move with their
// declaration from data2 to data1, with 3 bytes as sdata and udata.
const RENUMBERED: Case = Case {
    info: &[
        19, 0, 0, 0, 5, 0, 1, 8, 0, 0, 0, 0, 1, 2, 5, 0, 2, 6, 0, 2, 7, 0, 0,
    ],
    abbrevs: &[1, 0x11, 1, 0, 0, 2, 0x34, 0, 0x3b, 5, 0, 0, 0],
    new_info: &[16, 0, 0, 0, 5, 0, 1, 8, 0, 0, 0, 0, 2, 1, 5, 1, 6, 1, 7, 0],
    new_abbrevs: &DATA1,
};

#[test]
fn a_column_whose_declaration_gets_another_code(rt: HostRuntime) -> Result<(), Fail> {
    check(&rt, rt.alloc(), &RENUMBERED)
}

// Two units of one table, each with a variable whose DW_AT_type is a DW_FORM_ref_addr: that of the first unit to the code 0 at 18 which
// ends the children of its root, and that of the second, which stands at 19, to itself at 32. Each counts from the first byte of its
// unit then, and has one byte for 4: the first code 0 is at 15 now, and the second variable at 13 of its unit.
const REF_ADDR: [u8; 13] = [1, 0x34, 0, 0x49, 0x10, 0, 0, 2, 0x11, 1, 0, 0, 0];

const INSIDE: Case = Case {
    info: &[
        15, 0, 0, 0, 5, 0, 1, 8, 0, 0, 0, 0, 2, 1, 18, 0, 0, 0, 0, 15, 0, 0, 0, 5, 0, 1, 8, 0, 0,
        0, 0, 2, 1, 32, 0, 0, 0, 0,
    ],
    abbrevs: &REF_ADDR,
    new_info: &[
        12, 0, 0, 0, 5, 0, 1, 8, 0, 0, 0, 0, 2, 1, 15, 0, 12, 0, 0, 0, 5, 0, 1, 8, 0, 0, 0, 0, 2,
        1, 13, 0,
    ],
    new_abbrevs: &[1, 0x34, 0, 0x49, 0x15, 0, 0, 2, 0x11, 1, 0, 0, 0],
};

// The first variable has the type of the second, so that neither reference changes.
const OUTSIDE: [u8; 38] = [
    15, 0, 0, 0, 5, 0, 1, 8, 0, 0, 0, 0, 2, 1, 32, 0, 0, 0, 0, 15, 0, 0, 0, 5, 0, 1, 8, 0, 0, 0, 0,
    2, 1, 32, 0, 0, 0, 0,
];

#[test]
fn references_to_places_in_their_own_units(rt: HostRuntime) -> Result<(), Fail> {
    check(&rt, rt.alloc(), &INSIDE)?;
    let case = Case {
        info: &OUTSIDE,
        abbrevs: &REF_ADDR,
        new_info: &OUTSIDE,
        new_abbrevs: &REF_ADDR,
    };
    check(&rt, rt.alloc(), &case)
}
