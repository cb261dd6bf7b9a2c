// A small file by hand, what is held of it, and files that differ from it in a few bytes and are refused.
ghost use Rattle.std.specs.Prelude.{◌<◌, length};
ghost use Rattle.list_model.specs.declared.entry.ListKind.TheVariants.{Ranges};
ghost use Rattle.value_links.specs.World.{lists_held};

use crate::elf_files::fault_of;
use dw_base::{Fault, Kind, Reach};
use entry_arena::Target;
use form_codec::Value;
use list_model::{Contribution, ListKind};
use loc_lists::ViewPair;
use std::alloc::{AllocError, Global};
use std::process::Abort;
use std::test::Fail;
use value_links::{Link, OpLink, World};

// An executable with .debug_abbrev at 64, .debug_info at 72, .debug_line at 89, .debug_aranges at 142 and .shstrtab at 174. The
// one unit is a root with DW_AT_stmt_list, and the one set of address ranges names it. The headers of sections stand from
// 256 on; at 54 of .shstrtab, which is 228 in the file, stands a name that no section has, .debug_rnglists.
const FILE: [u8; 640] = [
    0x7f, 0x45, 0x4c, 0x46, 2, 1, 1, 0, 0, 0, 0, 0, 0, 0, 0, 0, 2, 0, 0x3e, 0, 1, 0, 0, 0, 0, 0, 0,
    0, 0, 0, 0, 0, 0, 0, 0, 0, 0, 0, 0, 0, 0, 1, 0, 0, 0, 0, 0, 0, 0, 0, 0, 0, 0x40, 0, 0, 0, 0, 0,
    0x40, 0, 6, 0, 5, 0, 1, 0x11, 0, 0x10, 0x17, 0, 0, 0, 0x0d, 0, 0, 0, 5, 0, 1, 8, 0, 0, 0, 0, 1,
    0, 0, 0, 0, 0x31, 0, 0, 0, 5, 0, 8, 0, 0x16, 0, 0, 0, 1, 1, 1, 0xfb, 0x0e, 0x0d, 0, 1, 1, 1, 1,
    0, 0, 0, 1, 0, 0, 1, 0, 0, 0, 0, 0, 9, 2, 0, 0x10, 0, 0, 0, 0, 0, 0, 1, 0x4c, 2, 0x84, 0, 0, 1,
    1, 0x1c, 0, 0, 0, 2, 0, 0, 0, 0, 0, 8, 0, 0, 0, 0, 0, 0, 0, 0, 0, 0, 0, 0, 0, 0, 0, 0, 0, 0, 0,
    0, 0, 0, 0x2e, 0x64, 0x65, 0x62, 0x75, 0x67, 0x5f, 0x61, 0x62, 0x62, 0x72, 0x65, 0x76, 0, 0x2e,
    0x64, 0x65, 0x62, 0x75, 0x67, 0x5f, 0x69, 0x6e, 0x66, 0x6f, 0, 0x2e, 0x64, 0x65, 0x62, 0x75,
    0x67, 0x5f, 0x6c, 0x69, 0x6e, 0x65, 0, 0x2e, 0x64, 0x65, 0x62, 0x75, 0x67, 0x5f, 0x61, 0x72,
    0x61, 0x6e, 0x67, 0x65, 0x73, 0, 0x2e, 0x64, 0x65, 0x62, 0x75, 0x67, 0x5f, 0x72, 0x6e, 0x67,
    0x6c, 0x69, 0x73, 0x74, 0x73, 0, 0x2e, 0x73, 0x68, 0x73, 0x74, 0x72, 0x74, 0x61, 0x62, 0, 0, 0,
    0, 0, 0, 0, 0, 0, 0, 0, 0, 0, 0, 0, 0, 0, 0, 0, 0, 0, 0, 0, 0, 0, 0, 0, 0, 0, 0, 0, 0, 0, 0, 0,
    0, 0, 0, 0, 0, 0, 0, 0, 0, 0, 0, 0, 0, 0, 0, 0, 0, 0, 0, 0, 0, 0, 0, 0, 0, 0, 0, 0, 0, 0, 0, 0,
    1, 0, 0, 0, 1, 0, 0, 0, 0, 0, 0, 0, 0, 0, 0, 0, 0, 0, 0, 0, 0, 0, 0, 0, 0x40, 0, 0, 0, 0, 0, 0,
    0, 8, 0, 0, 0, 0, 0, 0, 0, 0, 0, 0, 0, 0, 0, 0, 0, 1, 0, 0, 0, 0, 0, 0, 0, 0, 0, 0, 0, 0, 0, 0,
    0, 0x0f, 0, 0, 0, 1, 0, 0, 0, 0, 0, 0, 0, 0, 0, 0, 0, 0, 0, 0, 0, 0, 0, 0, 0, 0x48, 0, 0, 0, 0,
    0, 0, 0, 0x11, 0, 0, 0, 0, 0, 0, 0, 0, 0, 0, 0, 0, 0, 0, 0, 1, 0, 0, 0, 0, 0, 0, 0, 0, 0, 0, 0,
    0, 0, 0, 0, 0x1b, 0, 0, 0, 1, 0, 0, 0, 0, 0, 0, 0, 0, 0, 0, 0, 0, 0, 0, 0, 0, 0, 0, 0, 0x59, 0,
    0, 0, 0, 0, 0, 0, 0x35, 0, 0, 0, 0, 0, 0, 0, 0, 0, 0, 0, 0, 0, 0, 0, 1, 0, 0, 0, 0, 0, 0, 0, 0,
    0, 0, 0, 0, 0, 0, 0, 0x27, 0, 0, 0, 1, 0, 0, 0, 0, 0, 0, 0, 0, 0, 0, 0, 0, 0, 0, 0, 0, 0, 0, 0,
    0x8e, 0, 0, 0, 0, 0, 0, 0, 0x20, 0, 0, 0, 0, 0, 0, 0, 0, 0, 0, 0, 0, 0, 0, 0, 1, 0, 0, 0, 0, 0,
    0, 0, 0, 0, 0, 0, 0, 0, 0, 0, 0x46, 0, 0, 0, 3, 0, 0, 0, 0, 0, 0, 0, 0, 0, 0, 0, 0, 0, 0, 0, 0,
    0, 0, 0, 0xae, 0, 0, 0, 0, 0, 0, 0, 0x50, 0, 0, 0, 0, 0, 0, 0, 0, 0, 0, 0, 0, 0, 0, 0, 1, 0, 0,
    0, 0, 0, 0, 0, 0, 0, 0, 0, 0, 0, 0, 0,
];

// The file with other bytes at some places.
fn changed(alloc: Global, changes: &[(usize, u8)]) -> Result<Vec<u8>, AllocError> {
    let mut file = FILE.to_vec(alloc)?;
    for (at, byte) in changes {
        for old in file.iter_mut().skip(*at).take(1) {
            *old = *byte;
        }
    }
    Ok(file)
}

// The file with other bytes at some places, and with these behind it.
fn extended(
    alloc: Global,
    changes: &[(usize, u8)],
    pieces: &[&[u8]],
) -> Result<Vec<u8>, AllocError> {
    let mut file = changed(alloc, changes)?;
    for piece in pieces {
        file.extend_from_slice(piece)?;
    }
    Ok(file)
}

// Stops where a file isn't refused with a fault of this kind at this place.
fn is_refused(
    rt: &impl Abort,
    alloc: Global,
    file: &[u8],
    kind: Kind,
    place: u64,
) -> Result<(), Fail> {
    let fault = fault_of(alloc, file, Reach::Narrow)?;
    assert!(rt; fault == Some(Fault { kind, place }));
    Ok(())
}

// Stops where another world than that of the small file is held.
fn holds_small_file(rt: &impl Abort, world: &World<'_>) -> Result<(), Fail> {
    let counts = (
        world.programs().len(),
        world.units().len(),
        world.tables().len(),
        world.table_numbers().len(),
        world.aranges().len(),
    );
    assert_eq!(rt; counts, (1, 1, 1, 1, 1));
    assert!(rt; world.image().count() == 6);
    if world.units().len() == 1 && world.units()[0].forest().len() == 1 {
        assert!(rt; world.table(0).len() == 1);
        let program = world.resolve(0, 0, 0x10, &Value::Offset(0));
        assert!(rt; program == Some(Link::Lines(0)));
        assert!(rt; world.resolve(0, 0, 0x10, &Value::Offset(1)) == None);
    } else {
        Err("another count of entries")?;
    }
    Ok(())
}

#[test]
fn a_small_file_is_held(rt: HostRuntime) -> Result<(), Fail> {
    match World::read(rt.alloc(), &FILE, Reach::Narrow) {
        Ok(world) => holds_small_file(&rt, &world),
        Err(_) => Err("refused")?,
    }
}

// Abbreviations behind the file: 1 is a root with children, DW_AT_stmt_list and DW_AT_str_offsets_base; 2 has no attribute; 3 has
// DW_AT_type in the form ref4 and DW_AT_declaration in the form flag_present; 4 is a root with DW_AT_str_offsets_base alone; 5 has
// DW_AT_type in the form ref1 and DW_AT_specification in the form ref2.
const TABLE: [u8; 40] = [
    1, 0x11, 1, 0x10, 0x17, 0x72, 0x17, 0, 0, 2, 0x0b, 0, 0, 0, 3, 0x34, 0, 0x49, 0x13, 0x3c, 0x19,
    0, 0, 4, 0x11, 0, 0x72, 0x17, 0, 0, 5, 0x34, 0, 0x49, 0x11, 0x47, 0x12, 0, 0, 0,
];

// Units behind them. The first has a root at 12, and entries by 2, 3, 2 and 3 at 21, 22, 27 and 28, whose types are those at 21
// and 22, and one by 5 at 33, which names both; the second has a root by 4.
const UNITS: [u8; 55] = [
    0x22, 0, 0, 0, 5, 0, 1, 8, 0, 0, 0, 0, 1, 0, 0, 0, 0, 8, 0, 0, 0, 2, 3, 21, 0, 0, 0, 2, 3, 22,
    0, 0, 0, 5, 21, 22, 0, 0, 0x0d, 0, 0, 0, 5, 0, 1, 8, 0, 0, 0, 0, 4, 16, 0, 0, 0,
];

// The file with these, where its headers have their places and sizes.
fn with_units(alloc: Global) -> Result<Vec<u8>, AllocError> {
    let places = [
        (344, 0x80),
        (345, 2),
        (352, 40),
        (408, 0xa8),
        (409, 2),
        (416, 55),
    ];
    extended(alloc, &places, &[&TABLE, &UNITS])
}

// The unit of a value, the number of the value, and what it refers to.
fn have_links(rt: &impl Abort, world: &World<'_>) -> Result<(), Fail> {
    let rows = [
        (0, 0, Link::Lines(0)),
        (0, 1, Link::Kept(8)),
        (0, 2, Link::Place(0, Target::Entry(1))),
        (0, 3, Link::Plain),
        (0, 4, Link::Place(0, Target::Entry(2))),
        (0, 5, Link::Plain),
        (0, 6, Link::Place(0, Target::Entry(1))),
        (0, 7, Link::Place(0, Target::Entry(2))),
        (1, 0, Link::Kept(16)),
    ];
    for (unit, value, link) in rows.iter() {
        let units = world.units();
        if (*unit as usize) < units.len() && *value < units[*unit as usize].forest().value_count() {
            assert_eq!(rt; world.link(*unit, *value), *link);
        } else {
            Err("fewer values")?;
        }
    }
    Ok(())
}

#[test]
fn links_by_number(rt: HostRuntime) -> Result<(), Fail> {
    let file = with_units(rt.alloc())?;
    match World::read(rt.alloc(), &file, Reach::Narrow) {
        Ok(world) => have_links(&rt, &world),
        Err(_) => Err("refused")?,
    }
}

// Abbreviations behind the file: 1 is a root with children, 2 has DW_AT_location in the form exprloc, and 3 is a base type.
const EXPR_TABLE: [u8; 18] = [
    1, 0x11, 1, 0, 0, 2, 0x34, 0, 2, 0x18, 0, 0, 3, 0x24, 0, 0, 0, 0,
];

// A unit behind them. Its root stands at 12, the base type at 13, and a variable at 14, whose expression begins at 16: DW_OP_call4,
// DW_OP_convert to the base type and to the generic type, DW_OP_implicit_pointer and DW_OP_GNU_parameter_ref.
const EXPR_UNIT: [u8; 37] = [
    0x21, 0, 0, 0, 5, 0, 1, 8, 0, 0, 0, 0, 1, 3, 2, 20, 0x99, 14, 0, 0, 0, 0xa8, 13, 0xa8, 0, 0xa0,
    13, 0, 0, 0, 0, 0xfa, 13, 0, 0, 0, 0,
];

// Where the unit stands in the file with these.
const EXPR_UNIT_AT: usize = 658;

// The file with these, where its headers have their places and sizes, and with other bytes at some places.
fn with_expression(alloc: Global, changes: &[(usize, u8)]) -> Result<Vec<u8>, AllocError> {
    let places = [
        (344, 0x80),
        (345, 2),
        (352, 18),
        (408, 0x92),
        (409, 2),
        (416, 37),
    ];
    let mut file = extended(alloc, &places, &[&EXPR_TABLE, &EXPR_UNIT])?;
    for (at, byte) in changes {
        for old in file.iter_mut().skip(*at).take(1) {
            *old = *byte;
        }
    }
    Ok(file)
}

// Of each operation of the expression its place, its opcode, its reference, and what it names.
fn holds_operations(rt: &impl Abort, world: &World<'_>) -> Result<(), Fail> {
    let rows = [
        (0, 0x99, 14, Some(OpLink::Entry(0, 2))),
        (5, 0xa8, 13, Some(OpLink::Entry(0, 1))),
        (7, 0xa8, 0, Some(OpLink::Generic)),
        (9, 0xa0, 13, Some(OpLink::Entry(0, 1))),
        (15, 0xfa, 13, Some(OpLink::Entry(0, 1))),
    ];
    if world.units().len() == 1 && world.units()[0].forest().value_count() == 1 {
        assert!(rt; world.link(0, 0) == Link::Plain);
        for operations in world.operations().iter() {
            let ops = operations.of_value(0);
            assert_eq!(rt; ops.len(), rows.len());
            for (op, row) in ops.iter().zip(rows.iter()) {
                assert_eq!(rt; (op.at, op.code, op.a, world.resolve_op(0, op)), *row);
            }
        }
    } else {
        Err("another count of values")?;
    }
    Ok(())
}

#[test]
fn operations_are_held(rt: HostRuntime) -> Result<(), Fail> {
    let file = with_expression(rt.alloc(), &[])?;
    match World::read(rt.alloc(), &file, Reach::Narrow) {
        Ok(world) => holds_operations(&rt, &world),
        Err(_) => Err("refused")?,
    }
}

// Faults of the expression: an opcode that isn't known, an operand that is cut off, and references that name nothing.
#[test]
fn refused_expressions(rt: HostRuntime) -> Result<(), Fail> {
    let alloc = rt.alloc();
    let code = (EXPR_UNIT_AT + 21, 1);
    let long_operand = (EXPR_UNIT_AT + 31, 0x0e);
    let place = (EXPR_UNIT_AT + 26, 11);
    let rows: [(&[(usize, u8)], Kind, u64); 7] = [
        (&[code], Kind::Op, 679),
        (&[long_operand], Kind::Short, 690),
        (&[(EXPR_UNIT_AT + 17, 15)], Kind::Target, 675),
        (&[(EXPR_UNIT_AT + 22, 15)], Kind::Target, 680),
        (&[place], Kind::Target, 684),
        // the code 0 that ends the children of the root
        (&[(EXPR_UNIT_AT + 32, 36)], Kind::Target, 690),
        // what isn't an expression names nothing
        (&[place, code], Kind::Op, 679),
    ];
    for (changes, kind, place) in rows.iter() {
        let file = with_expression(alloc, changes)?;
        is_refused(&rt, alloc, &file, *kind, *place)?;
    }
    Ok(())
}

// Abbreviations behind the file: 1 is a root with children, DW_AT_low_pc in the form addr and DW_AT_rnglists_base; 2 has DW_AT_ranges
// in the form rnglistx, and 3 in the form sec_offset.
const RANGES_TABLE: [u8; 24] = [
    1, 0x11, 1, 0x11, 1, 0x74, 0x17, 0, 0, 2, 0x0b, 0, 0x55, 0x23, 0, 0, 3, 0x0b, 0, 0x55, 0x17, 0,
    0, 0,
];

// A unit behind them. Its root, at 12, has the base 0x1000 and names the contribution; its children, at 25 and 27, name the list of
// slot 0 and the list at 35.
const RANGES_UNIT: [u8; 33] = [
    0x1d, 0, 0, 0, 5, 0, 1, 8, 0, 0, 0, 0, 1, 0, 0x10, 0, 0, 0, 0, 0, 0, 12, 0, 0, 0, 2, 0, 3, 35,
    0, 0, 0, 0,
];

// A contribution behind it with two slots, at 12 and 16, which name the lists at 20 and 24: 16 bytes from 0x10 behind the base, and 16
// bytes from 0x2000. The last list, at 35, is 8 bytes from the base.
const RANGES: [u8; 39] = [
    0x23, 0, 0, 0, 5, 0, 8, 0, 2, 0, 0, 0, 8, 0, 0, 0, 12, 0, 0, 0, 4, 0x10, 0x20, 0, 7, 0, 0x20,
    0, 0, 0, 0, 0, 0, 0x10, 0, 4, 0, 8, 0,
];

// Where the unit and the contribution stand in the file with these.
const RANGES_UNIT_AT: usize = 664;

const RANGES_AT: usize = 697;

// The file with these, where its headers have their places and sizes, and with other bytes at some places. .debug_aranges is
// .debug_rnglists.
fn with_ranges(alloc: Global, changes: &[(usize, u8)]) -> Result<Vec<u8>, AllocError> {
    let places = [
        (344, 0x80),
        (345, 2),
        (352, 24),
        (408, 0x98),
        (409, 2),
        (416, 33),
        (512, 54),
        (536, 0xb9),
        (537, 2),
        (544, 39),
    ];
    let mut file = extended(alloc, &places, &[&RANGES_TABLE, &RANGES_UNIT, &RANGES])?;
    for (at, byte) in changes {
        for old in file.iter_mut().skip(*at).take(1) {
            *old = *byte;
        }
    }
    Ok(file)
}

// Whether the range list with a number is frozen.
fn is_list_frozen(world: &World<'_>, number: usize) -> bool
    requires { number < length (lists_held world.now Ranges) }
{
    let at = world.lists(ListKind::Ranges).at(number);
    world.is_frozen(ListKind::Ranges, at)
}

// The place of each list, its owner, how many entries it has, and whether it is frozen.
fn holds_range_lists(rt: &impl Abort, world: &World<'_>) -> Result<(), Fail> {
    let part = Contribution {
        at: 0,
        len: 39,
        slots: 2,
    };
    assert_eq!(rt; world.contributions(ListKind::Ranges), &[part][..]);
    assert!(rt; world.contributions(ListKind::Locations).is_empty());
    assert!(rt; world.lists(ListKind::Locations).is_empty());
    let rows = [
        (20, Some(0), 1, false),
        (24, None, 1, true),
        (35, Some(0), 1, false),
    ];
    let lists = world.lists(ListKind::Ranges);
    assert_eq!(rt; lists.len(), rows.len());
    for (number, row) in rows.iter().enumerate() {
        if number < lists.len() {
            let list = (lists.at(number), lists.owner(number));
            assert_eq!(rt;
                (
                    list.0,
                    list.1,
                    lists.entry_count(number),
                    lists.is_frozen(number)
                ),
                *row
            );
        }
    }
    if lists.len() == 3 {
        assert!(rt; !is_list_frozen(world, 0));
        assert!(rt; is_list_frozen(world, 1));
        assert!(rt; !is_list_frozen(world, 2));
    }
    Ok(())
}

#[test]
fn range_lists_are_held(rt: HostRuntime) -> Result<(), Fail> {
    let file = with_ranges(rt.alloc(), &[])?;
    match World::read(rt.alloc(), &file, Reach::Narrow) {
        Ok(world) => holds_range_lists(&rt, &world),
        Err(_) => Err("refused")?,
    }
}

// The number of a value of the unit, and what it refers to.
fn name_range_lists(rt: &impl Abort, world: &World<'_>) -> Result<(), Fail> {
    let rows = [
        (0, Link::Plain),
        (1, Link::Base(ListKind::Ranges, 0)),
        (2, Link::List(ListKind::Ranges, 20)),
        (3, Link::List(ListKind::Ranges, 35)),
    ];
    if world.units().len() == 1 && world.units()[0].forest().len() == 3 {
        for (value, link) in rows.iter() {
            if *value < world.units()[0].forest().value_count() {
                assert_eq!(rt; world.link(0, *value), *link);
            } else {
                Err("fewer values")?;
            }
        }
        let slot = world.resolve(0, 0, 0x55, &Value::RangeIndex(1));
        assert!(rt; slot == Some(Link::Slot(ListKind::Ranges, 0, 1)));
        assert!(rt; world.resolve(0, 0, 0x55, &Value::RangeIndex(2)) == None);
        assert!(rt; world.context(0).base == 0x1000);
    } else {
        Err("another count of units")?;
    }
    Ok(())
}

#[test]
fn values_name_range_lists(rt: HostRuntime) -> Result<(), Fail> {
    let file = with_ranges(rt.alloc(), &[])?;
    match World::read(rt.alloc(), &file, Reach::Narrow) {
        Ok(world) => name_range_lists(&rt, &world),
        Err(_) => Err("refused")?,
    }
}

// Faults of range lists, of what names them, and of which of these is named.
#[test]
fn refused_range_lists(rt: HostRuntime) -> Result<(), Fail> {
    let alloc = rt.alloc();
    let version = (RANGES_AT + 4, 4);
    let slot = (RANGES_AT + 16, 200);
    let code = (RANGES_AT + 20, 9);
    let no_end = (RANGES_AT + 38, 1);
    let base = (RANGES_UNIT_AT + 21, 13);
    let index = (RANGES_UNIT_AT + 26, 2);
    let place = (RANGES_UNIT_AT + 28, 39);
    let rows: [(&[(usize, u8)], Kind, usize); 10] = [
        (&[version], Kind::ListEntry, RANGES_AT),
        (&[base], Kind::Pointer, RANGES_UNIT_AT + 21),
        (&[index], Kind::Pointer, RANGES_UNIT_AT + 26),
        (&[place], Kind::Pointer, RANGES_UNIT_AT + 28),
        (&[slot], Kind::Pointer, RANGES_AT + 16),
        (&[code], Kind::ListEntry, RANGES_AT + 20),
        (&[no_end], Kind::Short, RANGES_AT + 39),
        (&[index, version], Kind::ListEntry, RANGES_AT),
        (&[slot, place], Kind::Pointer, RANGES_UNIT_AT + 28),
        (&[code, index], Kind::Pointer, RANGES_UNIT_AT + 26),
    ];
    for (changes, kind, place) in rows.iter() {
        let file = with_ranges(alloc, changes)?;
        is_refused(&rt, alloc, &file, *kind, *place as u64)?;
    }
    Ok(())
}

// Abbreviations behind the file: 1 is a root with DW_AT_low_pc in the form addr, and DW_AT_location and DW_AT_GNU_locviews in the form
// sec_offset.
const VIEWS_TABLE: [u8; 13] = [1, 0x11, 0, 0x11, 1, 2, 0x17, 0xb7, 0x42, 0x17, 0, 0, 0];

// A unit behind them, whose root has the base 0x1000 and names the list at 14 and the view pairs at 12.
const VIEWS_UNIT: [u8; 29] = [
    0x19, 0, 0, 0, 5, 0, 1, 8, 0, 0, 0, 0, 1, 0, 0x10, 0, 0, 0, 0, 0, 0, 14, 0, 0, 0, 12, 0, 0, 0,
];

// A contribution behind it: at 12 one pair, and at 14 a list of 16 bytes from 0x10 behind the base, with DW_OP_lit0.
const VIEWED: [u8; 20] = [
    0x10, 0, 0, 0, 5, 0, 8, 0, 0, 0, 0, 0, 0, 1, 4, 0x10, 0x20, 1, 0x30, 0,
];

// Where the unit and the contribution stand in the file with these.
const VIEWS_UNIT_AT: usize = 653;

const VIEWED_AT: usize = 682;

// The file with these, where its headers have their places and sizes, and with other bytes at some places. .debug_aranges is
// .debug_loclists.
fn with_views(alloc: Global, changes: &[(usize, u8)]) -> Result<Vec<u8>, AllocError> {
    let places = [
        (235, 0x6c),
        (236, 0x6f),
        (237, 0x63),
        (344, 0x80),
        (345, 2),
        (352, 13),
        (408, 0x8d),
        (409, 2),
        (416, 29),
        (512, 54),
        (536, 0xaa),
        (537, 2),
        (544, 20),
    ];
    let mut file = extended(alloc, &places, &[&VIEWS_TABLE, &VIEWS_UNIT, &VIEWED])?;
    for (at, byte) in changes {
        for old in file.iter_mut().skip(*at).take(1) {
            *old = *byte;
        }
    }
    Ok(file)
}

// The place of the list, that of its view pairs, and the pairs; and what the values of the root refer to.
fn holds_view_pairs(rt: &impl Abort, world: &World<'_>) -> Result<(), Fail> {
    let pair = ViewPair { first: 0, last: 1 };
    assert_eq!(rt; world.views().len(), 1);
    let views = world.views();
    for run in 0..views.len() {
        assert_eq!(rt; (views.list(run), views.at(run)), (14, 12));
        assert_eq!(rt; views.pair_count(run), 1);
        if views.pair_count(run) == 1 {
            assert!(rt; views.pair(run, 0) == pair);
        }
    }
    if world.units().len() == 1 && world.units()[0].forest().value_count() == 3 {
        assert!(rt; world.link(0, 1) == Link::List(ListKind::Locations, 14));
        assert!(rt; world.link(0, 2) == Link::Views(14, 12));
    } else {
        Err("another count of values")?;
    }
    Ok(())
}

#[test]
fn view_pairs_are_held(rt: HostRuntime) -> Result<(), Fail> {
    let file = with_views(rt.alloc(), &[])?;
    match World::read(rt.alloc(), &file, Reach::Narrow) {
        Ok(world) => holds_view_pairs(&rt, &world),
        Err(_) => Err("refused")?,
    }
}

// View pairs that end past their contribution, a place of them before its lists, and an entry without a list in DW_AT_location.
#[test]
fn refused_view_pairs(rt: HostRuntime) -> Result<(), Fail> {
    let alloc = rt.alloc();
    let views = VIEWS_UNIT_AT + 25;
    let rows: [(&[(usize, u8)], Kind, usize); 3] = [
        (&[(views, 19)], Kind::Short, VIEWED_AT + 20),
        (&[(views, 11)], Kind::Pointer, views),
        // The list is that of DW_AT_frame_base.
        (&[(645, 0x40)], Kind::Pointer, views),
    ];
    for (changes, kind, place) in rows.iter() {
        let file = with_views(alloc, changes)?;
        is_refused(&rt, alloc, &file, *kind, *place as u64)?;
    }
    Ok(())
}

// Of several faults the one in the first pass is named.
#[test]
fn the_first_pass_with_a_fault_decides(rt: HostRuntime) -> Result<(), Fail> {
    let alloc = rt.alloc();
    // .debug_loclists in place of .debug_aranges
    let list_name: [(usize, u8); 4] = [(512, 54), (235, 0x6c), (236, 0x6f), (237, 0x63)];
    // .debug_xnglists, which isn't known
    let unknown_name: [(usize, u8); 2] = [(512, 54), (235, 0x78)];
    let program_version = (93, 4);
    let with_version = [program_version, unknown_name[0], unknown_name[1]];
    let lists_with_version = [
        program_version,
        list_name[0],
        list_name[1],
        list_name[2],
        list_name[3],
    ];
    let table_place = (80, 8);
    let program_place = (85, 1);
    let set_version = (146, 3);
    let rows: [(&[(usize, u8)], Kind, u64); 11] = [
        (&[(0, 0)], Kind::NotElf64, 0),
        (&unknown_name, Kind::Companion, 142),
        // a set of address ranges is no contribution: its version is 2
        (&list_name, Kind::ListEntry, 142),
        (&[program_version], Kind::LineHead, 89),
        (&[table_place], Kind::Pointer, 72),
        (&[program_place], Kind::Pointer, 85),
        (&[set_version], Kind::Aranges, 142),
        (&with_version, Kind::Companion, 142),
        (&lists_with_version, Kind::LineHead, 89),
        (&[table_place, program_version], Kind::LineHead, 89),
        (&[set_version, table_place], Kind::Pointer, 72),
    ];
    for (changes, kind, place) in rows.iter() {
        let file = changed(alloc, changes)?;
        is_refused(&rt, alloc, &file, *kind, *place)?;
    }
    Ok(())
}
