// What values refer to, by hand, and values that refer to nothing.
use crate::elf_files::{compile_unit, elf_file, fault_of};
use dw_base::{Fault, Kind, Reach, Span};
use entry_arena::Target;
use expr_ops::Op;
use form_codec::{Value, Whole};
use list_model::ListKind;
use std::alloc::{AllocError, Global};
use std::process::Abort;
use std::test::Fail;
use value_links::{Link, OpLink, World};

// Where .debug_info stands in a file with six sections.
const ORIGIN: u64 = 576;

// Declarations 1 to 8: a root with children; entries with DW_AT_type in the forms ref4 and ref_addr, and with DW_AT_location in
// the forms exprloc and loclistx; a root with DW_AT_loclists_base; and roots without children, with DW_AT_stmt_list, and with
// DW_AT_location in the form sec_offset. Declarations 9 to 13 are roots without children too: with DW_AT_rnglists_base, and
// DW_AT_ranges in the form rnglistx; with DW_AT_addr_base, and DW_AT_low_pc in the form addrx; with DW_AT_ranges in the form
// sec_offset; and with the second attribute of 10 and of 9 alone. Declarations 14 to 16 are roots with DW_AT_GNU_locviews: behind
// DW_AT_location in the form sec_offset; alone; and behind DW_AT_loclists_base, and DW_AT_location in the form loclistx.
const TABLE: [u8; 126] = [
    1, 0x11, 1, 0, 0, 2, 0x34, 0, 0x49, 0x13, 0, 0, 3, 0x34, 0, 0x49, 0x10, 0, 0, 4, 0x34, 0, 2,
    0x18, 0, 0, 5, 0x34, 0, 2, 0x22, 0, 0, 6, 0x11, 1, 0x8c, 1, 0x17, 0, 0, 7, 0x11, 0, 0x10, 0x17,
    0, 0, 8, 0x11, 0, 2, 0x17, 0, 0, 9, 0x11, 0, 0x74, 0x17, 0x55, 0x23, 0, 0, 10, 0x11, 0, 0x73,
    0x17, 0x11, 0x1b, 0, 0, 11, 0x11, 0, 0x55, 0x17, 0, 0, 12, 0x11, 0, 0x11, 0x1b, 0, 0, 13, 0x11,
    0, 0x55, 0x23, 0, 0, 14, 0x11, 0, 2, 0x17, 0xb7, 0x42, 0x17, 0, 0, 15, 0x11, 0, 0xb7, 0x42,
    0x17, 0, 0, 16, 0x11, 0, 0x8c, 1, 0x17, 2, 0x22, 0xb7, 0x42, 0x17, 0, 0, 0,
];

// A unit at 0 and one at 19, each a root at 12 behind the unit's first byte, and an entry at 13 with DW_AT_type. The code 0 that
// ends the children of the root stands at 18. A unit at 38 is a root with the base 12 of range lists.
const UNITS: [u8; 56] = [
    0x0f, 0, 0, 0, 5, 0, 1, 8, 0, 0, 0, 0, 1, 2, 18, 0, 0, 0, 0, 0x0f, 0, 0, 0, 5, 0, 1, 8, 0, 0,
    0, 0, 1, 3, 12, 0, 0, 0, 0, 0x0e, 0, 0, 0, 5, 0, 1, 8, 0, 0, 0, 0, 9, 12, 0, 0, 0, 0,
];

// Units whose roots have view pairs at 17: with a location list at 16, and with the first slot of the base 12; and one whose root has no
// location list.
const VIEWED: [u8; 57] = [
    0x11, 0, 0, 0, 5, 0, 1, 8, 0, 0, 0, 0, 14, 16, 0, 0, 0, 17, 0, 0, 0, 0x12, 0, 0, 0, 5, 0, 1, 8,
    0, 0, 0, 0, 16, 12, 0, 0, 0, 0, 17, 0, 0, 0, 0x0a, 0, 0, 0, 5, 0, 1, 8, 0, 0, 0, 0, 1, 0,
];

// Contributions at 0 and 17: one slot at 12 and a list at 16, and a list at 29.
const RANGES: [u8; 30] = [
    13, 0, 0, 0, 5, 0, 8, 0, 1, 0, 0, 0, 4, 0, 0, 0, 0, 9, 0, 0, 0, 5, 0, 8, 0, 0, 0, 0, 0, 0,
];

// Contributions of location lists at 0 and 18: one slot at 12, which tells 16, and lists at 16 and 17, and a list at 30.
const LOCATIONS: [u8; 31] = [
    14, 0, 0, 0, 5, 0, 8, 0, 1, 0, 0, 0, 4, 0, 0, 0, 0, 0, 9, 0, 0, 0, 5, 0, 8, 0, 0, 0, 0, 0, 0,
];

// An address table of one address, which stands at 8.
const ADDRESSES: [u8; 16] = [12, 0, 0, 0, 5, 0, 8, 0, 0, 0x10, 0, 0, 0, 0, 0, 0];

// Line number programs without an opcode, at 0 and at 34.
const PROGRAMS: [u8; 68] = [
    0x1e, 0, 0, 0, 5, 0, 8, 0, 0x16, 0, 0, 0, 1, 1, 1, 0xfb, 14, 13, 0, 1, 1, 1, 1, 0, 0, 0, 1, 0,
    0, 1, 0, 0, 0, 0, 0x1e, 0, 0, 0, 5, 0, 8, 0, 0x16, 0, 0, 0, 1, 1, 1, 0xfb, 14, 13, 0, 1, 1, 1,
    1, 0, 0, 0, 1, 0, 0, 1, 0, 0, 0, 0,
];

// The file with these bytes of .debug_info.
fn file_of(alloc: Global, info: &[u8]) -> Result<Vec<u8>, AllocError> {
    let sections: [(&str, &[u8]); 6] = [
        (".debug_info", info),
        (".debug_abbrev", &TABLE),
        (".debug_line", &PROGRAMS),
        (".debug_rnglists", &RANGES),
        (".debug_loclists", &LOCATIONS),
        (".debug_addr", &ADDRESSES),
    ];
    elf_file(alloc, &sections)
}

// An entry of a unit, both by their numbers.
fn entry(unit: u32, number: u32) -> Link {
    Link::Place(unit, Target::Entry(number))
}

// The range list at a place.
fn list(at: u64) -> Link {
    Link::List(ListKind::Ranges, at)
}

// A slot of a contribution, both by their numbers.
fn slot(part: u32, number: u32) -> Link {
    Link::Slot(ListKind::Ranges, part, number)
}

// The contribution with a number.
fn base(part: u32) -> Link {
    Link::Base(ListKind::Ranges, part)
}

// What a value of the root of the unit with a number refers to, where there is such a unit. No value is an expression.
fn link_of(world: &World<'_>, unit: u32, name: u64, value: &Value) -> Result<Option<Link>, Fail> {
    if let Value::Expr(_) = *value {
        Err("an expression")?;
    }
    let units = world.units();
    if (unit as usize) < units.len() && units[unit as usize].forest().len() > 0 {
        Ok(world.resolve(unit, 0, name, value))
    } else {
        Err("fewer units")?
    }
}

// Stops where a value refers to anything else than its row says: the unit and the name of the value, the value, and what it refers to.
fn refer(
    rt: &impl Abort,
    world: &World<'_>,
    rows: &[(u32, u64, Value, Option<Link>)],
) -> Result<(), Fail> {
    for (unit, name, value, link) in rows.iter() {
        assert_eq!(rt; link_of(world, *unit, *name, value)?, *link);
    }
    Ok(())
}

// The same of the file with these bytes of .debug_info.
fn values_refer(
    rt: &impl Abort,
    alloc: Global,
    info: &[u8],
    rows: &[(u32, u64, Value, Option<Link>)],
) -> Result<(), Fail> {
    let file = file_of(alloc, info)?;
    match World::read(alloc, &file, Reach::Wide) {
        Ok(world) => refer(rt, &world, rows),
        Err(_) => Err("refused")?,
    }
}

// An operation with a reference, which stands in no expression.
fn op(code: u8, a: u64) -> Op {
    Op {
        at: 0,
        code,
        a,
        s: 0,
        jump: 0,
        bytes: Span { at: 0, len: 0 },
        inner: 0,
    }
}

#[test]
fn links_of_values(rt: HostRuntime) -> Result<(), Fail> {
    let chain_end = Link::Place(0, Target::ChainEnd(0));
    let rows = [
        (1, 0x49, Value::LocalRef(13), Some(entry(1, 1))),
        (0, 0x49, Value::LocalRef(18), Some(chain_end)),
        (0, 0x49, Value::LocalRef(31), None),
        (0, 0x49, Value::LocalRef(0xffff_ffff_ffff_ffff), None),
        (0, 0x49, Value::SectionRef(31), Some(entry(1, 0))),
        (1, 0x49, Value::SectionRef(19), None),
        (1, 0x49, Value::SectionRef(38), None),
        (0, 0x10, Value::Offset(34), Some(Link::Lines(1))),
        (0, 0x10, Value::Offset(33), None),
        (0, 0x73, Value::Offset(8), Some(Link::Kept(8))),
        (0, 0x73, Value::Offset(16), None),
        (0, 0x72, Value::Offset(16), Some(Link::Kept(16))),
        (0, 0x02, Value::Offset(0), None),
        (0, 0x02, Value::LocIndex(0), None),
        (0, 0x0b, Value::Int(Whole::unsigned(12)), Some(Link::Plain)),
    ];
    values_refer(&rt, rt.alloc(), &UNITS, &rows)
}

#[test]
fn links_to_lists(rt: HostRuntime) -> Result<(), Fail> {
    let rows = [
        (0, 0x55, Value::Offset(16), Some(list(16))),
        (0, 0x2c, Value::Offset(29), Some(list(29))),
        (0, 0x55, Value::Offset(15), None),
        (0, 0x55, Value::Offset(17), None),
        (0, 0x55, Value::Offset(30), None),
        (0, 0x74, Value::Offset(12), Some(base(0))),
        (0, 0x74, Value::Offset(29), Some(base(1))),
        (0, 0x74, Value::Offset(16), None),
        (2, 0x55, Value::RangeIndex(0), Some(slot(0, 0))),
        (2, 0x55, Value::RangeIndex(1), None),
        (2, 0x55, Value::RangeIndex(0x1_0000_0000), None),
        (0, 0x55, Value::RangeIndex(0), None),
        (
            0,
            0x02,
            Value::Offset(16),
            Some(Link::List(ListKind::Locations, 16)),
        ),
        (0, 0x02, Value::Offset(18), None),
        (
            0,
            0x8c,
            Value::Offset(12),
            Some(Link::Base(ListKind::Locations, 0)),
        ),
        (2, 0x02, Value::LocIndex(0), None),
    ];
    values_refer(&rt, rt.alloc(), &UNITS, &rows)
}

#[test]
fn links_to_views(rt: HostRuntime) -> Result<(), Fail> {
    let rows = [
        (0, 0x2137, Value::Offset(16), Some(Link::Views(16, 16))),
        (0, 0x2137, Value::Offset(17), Some(Link::Views(16, 17))),
        // an offset of the contribution, the byte past its end, and a place in another contribution
        (0, 0x2137, Value::Offset(15), None),
        (0, 0x2137, Value::Offset(18), None),
        (0, 0x2137, Value::Offset(30), None),
        // what the slot tells
        (1, 0x2137, Value::Offset(17), Some(Link::Views(16, 17))),
        (1, 0x2137, Value::Offset(30), None),
        // no location list
        (2, 0x2137, Value::Offset(17), None),
    ];
    values_refer(&rt, rt.alloc(), &VIEWED, &rows)
}

// What an operation of the unit with a number names, where there is such a unit.
fn op_link_of(world: &World<'_>, unit: u32, op: &Op) -> Result<Option<OpLink>, Fail> {
    if (unit as usize) < world.units().len() {
        Ok(world.resolve_op(unit, op))
    } else {
        Err("fewer units")?
    }
}

// Stops where an operation names anything else than its row says: the unit, the opcode and the reference of the operation, and what it
// names.
fn operations_refer(rt: &impl Abort, world: &World<'_>) -> Result<(), Fail> {
    let rows = [
        // DW_OP_lit0 has no reference
        (0, 0x30, 12, Some(OpLink::Plain)),
        // DW_OP_call4: entries of the unit, the code 0 that ends its children, and a place of its header
        (0, 0x99, 12, Some(OpLink::Entry(0, 0))),
        (1, 0x99, 13, Some(OpLink::Entry(1, 1))),
        (0, 0x99, 18, None),
        (0, 0x99, 31, None),
        (0, 0x99, 0, None),
        // DW_OP_convert, DW_OP_reinterpret and DW_OP_const_type: only the first two name the generic type
        (0, 0xa8, 0, Some(OpLink::Generic)),
        (1, 0xa9, 0, Some(OpLink::Generic)),
        (0, 0xa4, 0, None),
        (1, 0xa8, 12, Some(OpLink::Entry(1, 0))),
        (0, 0xa8, 14, None),
        // DW_OP_call_ref, DW_OP_implicit_pointer and DW_OP_GNU_variable_value: entries of all units
        (0, 0x9a, 50, Some(OpLink::Entry(2, 0))),
        (0, 0xa0, 32, Some(OpLink::Entry(1, 1))),
        (1, 0xa0, 37, None),
        (1, 0xa0, 19, None),
        (2, 0xfd, 13, Some(OpLink::Entry(0, 1))),
        // DW_OP_GNU_parameter_ref
        (0, 0xfa, 13, Some(OpLink::Entry(0, 1))),
        (2, 0xfa, 13, None),
    ];
    for (unit, code, a, link) in rows.iter() {
        assert_eq!(rt; op_link_of(world, *unit, &op(*code, *a))?, *link);
    }
    Ok(())
}

#[test]
fn links_of_operations(rt: HostRuntime) -> Result<(), Fail> {
    let file = file_of(rt.alloc(), &UNITS)?;
    match World::read(rt.alloc(), &file, Reach::Wide) {
        Ok(world) => operations_refer(&rt, &world),
        Err(_) => Err("refused")?,
    }
}

// The fault of the file with these bytes of .debug_info, or none.
fn fault_with(alloc: Global, info: &[u8]) -> Result<Option<Fault>, Fail> {
    let file = file_of(alloc, info)?;
    fault_of(alloc, &file, Reach::Wide)
}

// The fault of the file with a compile unit whose entries begin at 12, or none.
fn fault_in(alloc: Global, entries: &[u8]) -> Result<Option<Fault>, Fail> {
    let info = compile_unit(alloc, entries)?;
    fault_with(alloc, &info)
}

// A type unit with a root at 24, whose type is at a place below 256.
fn type_unit(place: u8) -> [u8; 26] {
    [
        22, 0, 0, 0, 5, 0, 2, 8, 0, 0, 0, 0, 1, 2, 3, 4, 5, 6, 7, 8, place, 0, 0, 0, 1, 0,
    ]
}

// The fault at a byte of .debug_info.
fn fault(kind: Kind, at: u8) -> Fault {
    Fault {
        kind,
        place: ORIGIN + at as u64,
    }
}

// Units, and the entries of compile units, each of whose values refers to what it may.
#[test]
fn linked_units(rt: HostRuntime) -> Result<(), Fail> {
    let alloc = rt.alloc();
    assert_eq!(rt; fault_with(alloc, &[])?, None);
    assert_eq!(rt; fault_with(alloc, &UNITS)?, None);
    // the type is the root
    assert_eq!(rt; fault_with(alloc, &type_unit(24))?, None);
    let rows: [&[u8]; 10] = [
        // DW_OP_lit0; DW_OP_convert to the generic type; and DW_OP_call4, which names the entry itself
        &[1, 4, 1, 0x30, 0],
        &[1, 4, 2, 0xa8, 0, 0],
        &[1, 4, 5, 0x99, 13, 0, 0, 0, 0],
        // the second program
        &[7, 34, 0, 0, 0],
        // the address with the number 0 as the first base
        &[10, 8, 0, 0, 0, 0],
        // the list of the second contribution
        &[11, 29, 0, 0, 0],
        // a location list by its place, and one by its index
        &[8, 16, 0, 0, 0],
        &[6, 12, 0, 0, 0, 5, 0, 0],
        // view pairs that go with such lists
        &[14, 30, 0, 0, 0, 30, 0, 0, 0],
        &[16, 12, 0, 0, 0, 0, 17, 0, 0, 0],
    ];
    for entries in rows.iter() {
        assert_eq!(rt; fault_in(alloc, entries)?, None);
    }
    Ok(())
}

// The entries of a compile unit, and the fault of a value.
#[test]
fn faulty_links(rt: HostRuntime) -> Result<(), Fail> {
    let alloc = rt.alloc();
    let rows: [(&[u8], Fault); 11] = [
        // a reference to the byte behind the entry's code
        (&[1, 2, 14, 0, 0, 0, 0], fault(Kind::Target, 14)),
        // a reference to the header of a unit
        (&[1, 3, 0, 0, 0, 0, 0], fault(Kind::Target, 14)),
        // DW_OP_convert to no entry; DW_OP_lit0, and DW_OP_const_type to the generic type; and DW_OP_regval_type, whose register has
        // two bytes, to the code 0 that ends the children of the root
        (&[1, 4, 2, 0xa8, 14, 0], fault(Kind::Target, 16)),
        (&[1, 4, 4, 0x30, 0xa4, 0, 0, 0], fault(Kind::Target, 17)),
        (&[1, 4, 4, 0xa5, 0x80, 1, 19, 0], fault(Kind::Target, 18)),
        // the index of a location list whose root gives no base, a base of no contribution, and an index past the slots
        (&[1, 5, 0, 0], fault(Kind::NoBase, 14)),
        (&[6, 16, 0, 0, 0, 5, 0, 0], fault(Kind::Pointer, 13)),
        (&[6, 12, 0, 0, 0, 5, 1, 0], fault(Kind::Pointer, 18)),
        // no program begins there
        (&[7, 35, 0, 0, 0], fault(Kind::Pointer, 13)),
        // view pairs of an entry without a location list, and view pairs in another contribution than the list
        (&[15, 17, 0, 0, 0], fault(Kind::Pointer, 13)),
        (&[14, 16, 0, 0, 0, 30, 0, 0, 0], fault(Kind::Pointer, 17)),
    ];
    for (entries, fault) in rows.iter() {
        assert_eq!(rt; fault_in(alloc, entries)?, Some(*fault));
    }
    // a type that is the end of a chain
    let end = fault_with(alloc, &type_unit(25))?;
    assert_eq!(rt; end, Some(fault(Kind::Target, 20)));
    Ok(())
}

// The same of values that name range lists.
#[test]
fn faulty_lists(rt: HostRuntime) -> Result<(), Fail> {
    let alloc = rt.alloc();
    let rows: [(&[u8], Fault); 4] = [
        // a base of no contribution, an index past the slots, and one without a base
        (&[9, 16, 0, 0, 0, 0], fault(Kind::Pointer, 13)),
        (&[9, 12, 0, 0, 0, 1], fault(Kind::Pointer, 17)),
        (&[13, 0], fault(Kind::NoBase, 13)),
        // no list can begin at an offset
        (&[11, 12, 0, 0, 0], fault(Kind::Pointer, 13)),
    ];
    for (entries, fault) in rows.iter() {
        assert_eq!(rt; fault_in(alloc, entries)?, Some(*fault));
    }
    Ok(())
}

// The same of values that name addresses.
#[test]
fn faulty_addresses(rt: HostRuntime) -> Result<(), Fail> {
    let alloc = rt.alloc();
    let rows: [(&[u8], Fault); 3] = [
        // a base of no address table, an address past a table's end, and one without a table
        (&[10, 16, 0, 0, 0, 0], fault(Kind::Pointer, 13)),
        (&[10, 8, 0, 0, 0, 1], fault(Kind::Pointer, 17)),
        (&[12, 0], fault(Kind::NoBase, 13)),
    ];
    for (entries, fault) in rows.iter() {
        assert_eq!(rt; fault_in(alloc, entries)?, Some(*fault));
    }
    Ok(())
}
