// The contexts of lists, by hand, and files whose contexts can't be told.
use crate::elf_files::{compile_unit, elf_file, fault_of};
use dw_base::{Fault, Kind, Reach};
use list_model::{AddrTable, Context};
use std::alloc::{AllocError, Global};
use std::process::Abort;
use std::test::Fail;
use value_links::World;

// Declarations 1 to 6, each of a root: with DW_AT_low_pc in the form addr; with DW_AT_addr_base, and DW_AT_low_pc in the form
// addrx; with the latter alone; without attributes; with DW_AT_low_pc in the forms data1, addr and addr; and with DW_AT_addr_base.
const TABLE: [u8; 47] = [
    1, 0x11, 0, 0x11, 1, 0, 0, 2, 0x11, 0, 0x73, 0x17, 0x11, 0x1b, 0, 0, 3, 0x11, 0, 0x11, 0x1b, 0,
    0, 4, 0x11, 0, 0, 0, 5, 0x11, 0, 0x11, 0x0b, 0x11, 1, 0x11, 1, 0, 0, 6, 0x11, 0, 0x73, 0x17, 0,
    0, 0,
];

// Units of a root each: by 1; by 2, with the bases 8 and 32 and the numbers 1 and 0; by 6, with the base 8; and by 4 and 5.
const UNITS: [u8; 117] = [
    0x11, 0, 0, 0, 5, 0, 1, 8, 0, 0, 0, 0, 1, 0, 0x10, 0, 0, 0, 0, 0, 0, 0x0e, 0, 0, 0, 5, 0, 1, 8,
    0, 0, 0, 0, 2, 8, 0, 0, 0, 1, 0x0e, 0, 0, 0, 5, 0, 1, 8, 0, 0, 0, 0, 2, 0x20, 0, 0, 0, 0, 0x0d,
    0, 0, 0, 5, 0, 1, 8, 0, 0, 0, 0, 6, 8, 0, 0, 0, 9, 0, 0, 0, 5, 0, 1, 8, 0, 0, 0, 0, 4, 0x1a, 0,
    0, 0, 5, 0, 1, 8, 0, 0, 0, 0, 5, 7, 0, 0x40, 0, 0, 0, 0, 0, 0, 0, 0x50, 0, 0, 0, 0, 0, 0,
];

// Address tables at 0, 24 and 40, the last of version 4, of the addresses 0x2000 and 0x2100, 0x3000, and 0x3100.
const ADDRESSES: [u8; 56] = [
    0x14, 0, 0, 0, 5, 0, 8, 0, 0, 0x20, 0, 0, 0, 0, 0, 0, 0, 0x21, 0, 0, 0, 0, 0, 0, 0x0c, 0, 0, 0,
    5, 0, 8, 0, 0, 0x30, 0, 0, 0, 0, 0, 0, 0x0c, 0, 0, 0, 4, 0, 8, 0, 0, 0x31, 0, 0, 0, 0, 0, 0,
];

// Where .debug_info stands in a file with three sections.
const INFO_AT: u64 = 384;

// Where .debug_addr stands in a file with a unit of 18 bytes.
const ADDRESSES_AT: u64 = 449;

// The file with these bytes of .debug_info and of .debug_addr.
fn file_of<'a>(alloc: Global, info: &'a [u8], addresses: &'a [u8]) -> Result<Vec<u8>, AllocError> {
    let sections: [(&str, &'a [u8]); 3] = [
        (".debug_info", info),
        (".debug_abbrev", &TABLE),
        (".debug_addr", addresses),
    ];
    elf_file(alloc, &sections)
}

// Stops where a unit has another context: the number of a unit, the address from which its lists count, and its address table.
fn have_contexts(rt: &impl Abort, world: &World<'_>) -> Result<(), Fail> {
    let first = AddrTable { at: 0, count: 2 };
    let second = AddrTable { at: 24, count: 1 };
    let rows = [
        (0, 0x1000, None),
        (1, 0x2100, Some(first)),
        (2, 0x3000, Some(second)),
        (3, 0, Some(first)),
        (4, 0, None),
        (5, 0x4000, None),
    ];
    for (unit, base, table) in rows.iter() {
        if (*unit as usize) < world.units().len() {
            let context = world.context(*unit);
            assert_eq!(rt; (context.base, context.table), (*base, *table));
        } else {
            Err("fewer units")?;
        }
    }
    Ok(())
}

#[test]
fn contexts_of_units(rt: HostRuntime) -> Result<(), Fail> {
    let file = file_of(rt.alloc(), &UNITS, &ADDRESSES[..40])?;
    match World::read(rt.alloc(), &file, Reach::Narrow) {
        Ok(world) => have_contexts(&rt, &world),
        Err(_) => Err("refused")?,
    }
}

// The fault of the file with a compile unit whose entries begin at 12, and with these address tables, or none.
fn fault_in(alloc: Global, entries: &[u8], addresses: &[u8]) -> Result<Option<Fault>, Fail> {
    let info = compile_unit(alloc, entries)?;
    let file = file_of(alloc, &info, addresses)?;
    fault_of(alloc, &file, Reach::Narrow)
}

// Roots that give no context: the entries of a compile unit, the address tables, and the kind and the place of the fault.
#[test]
fn refused_contexts(rt: HostRuntime) -> Result<(), Fail> {
    let rows: [(&[u8], &[u8], Kind, u64); 6] = [
        // a number past the table, and a base of no table
        (
            &[2, 8, 0, 0, 0, 2],
            &ADDRESSES[..40],
            Kind::Pointer,
            INFO_AT + 17,
        ),
        (
            &[2, 9, 0, 0, 0, 0],
            &ADDRESSES[..40],
            Kind::Pointer,
            INFO_AT + 13,
        ),
        // a table of version 4, and its place where it isn't there
        (
            &[2, 48, 0, 0, 0, 0],
            &ADDRESSES,
            Kind::ListEntry,
            ADDRESSES_AT + 40,
        ),
        (
            &[2, 48, 0, 0, 0, 0],
            &ADDRESSES[..40],
            Kind::Pointer,
            INFO_AT + 13,
        ),
        // no base, where no table is looked at
        (&[3, 0], &ADDRESSES[..40], Kind::NoBase, INFO_AT + 13),
        (&[3, 0], &ADDRESSES, Kind::NoBase, INFO_AT + 13),
    ];
    for (entries, addresses, kind, place) in rows.iter() {
        let fault = Fault {
            kind: *kind,
            place: *place,
        };
        assert_eq!(rt; fault_in(rt.alloc(), entries, addresses)?, Some(fault));
    }
    Ok(())
}
