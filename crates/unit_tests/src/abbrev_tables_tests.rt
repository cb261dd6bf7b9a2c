// Tables of the two samples, codes out of order, and tables that are cut off.
use abbrev_numbering::number;
use abbrev_tables::{Spec, Table, write_table};
use dw_base::{Fault, Kind, Refusal};
use std::alloc::Global;
use std::process::Abort;
use std::test::Fail;

// As gcc and clang write them.
const GCC: [u8; 71] = [
    0x01, 0x11, 0x01, 0x25, 0x0e, 0x13, 0x0b, 0x03, 0x1f, 0x1b, 0x1f, 0x11, 0x01, 0x12, 0x07, 0x10,
    0x17, 0x00, 0x00, 0x02, 0x2e, 0x01, 0x3f, 0x19, 0x03, 0x08, 0x3a, 0x21, 0x01, 0x3b, 0x0b, 0x49,
    0x13, 0x11, 0x01, 0x12, 0x07, 0x40, 0x18, 0x01, 0x13, 0x00, 0x00, 0x03, 0x05, 0x00, 0x03, 0x08,
    0x3b, 0x0b, 0x49, 0x13, 0x02, 0x17, 0xb7, 0x42, 0x17, 0x00, 0x00, 0x04, 0x24, 0x00, 0x0b, 0x0b,
    0x3e, 0x0b, 0x03, 0x08, 0x00, 0x00, 0x00,
];

const CLANG: [u8; 76] = [
    0x01, 0x11, 0x01, 0x25, 0x25, 0x13, 0x05, 0x03, 0x25, 0x72, 0x17, 0x10, 0x17, 0x1b, 0x25, 0x11,
    0x01, 0x55, 0x23, 0x73, 0x17, 0x74, 0x17, 0x8c, 0x01, 0x17, 0x00, 0x00, 0x02, 0x2e, 0x01, 0x11,
    0x1b, 0x12, 0x06, 0x40, 0x18, 0x03, 0x25, 0x3a, 0x0b, 0x3b, 0x0b, 0x49, 0x13, 0x3f, 0x19, 0x00,
    0x00, 0x03, 0x05, 0x00, 0x02, 0x22, 0x03, 0x25, 0x3a, 0x0b, 0x3b, 0x0b, 0x49, 0x13, 0x00, 0x00,
    0x04, 0x24, 0x00, 0x03, 0x25, 0x3e, 0x0b, 0x0b, 0x0b, 0x00, 0x00, 0x00,
];

fn read_and_write(
    rt: &impl Abort,
    alloc: Global,
    bytes: &[u8],
    columns: usize,
) -> Result<(), Fail> {
    if bytes.is_empty() {
        return Ok(());
    }
    let table = Table::read(alloc, bytes, 0, 0).ok().ok_or("refused")?;
    assert_eq!(rt; table.end() as usize, bytes.len());
    assert_eq!(rt; table.len(), 4);
    assert_eq!(rt; table.specs().len(), columns);
    assert_eq!(rt; table.by_code(1), Some(0));
    assert_eq!(rt; table.by_code(4), Some(3));
    assert_eq!(rt; table.by_code(5), None);
    let numbers = vec![in alloc; 1u32, 2, 3, 4]?;
    let columns = table.specs().to_vec(alloc)?;
    let written = write_table(alloc, &table, &numbers, &columns)
        .ok()
        .ok_or("no memory")?;
    assert_eq!(rt; written.as_slice(), bytes);
    Ok(())
}

fn fault_of(alloc: Global, bytes: &[u8], origin: u64) -> Option<Fault> {
    if bytes.is_empty() {
        return None;
    }
    match Table::read(alloc, bytes, 0, origin) {
        Err(Refusal::Refused(fault)) => Some(fault),
        _ => None,
    }
}

#[test]
fn tables_of_samples(rt: HostRuntime) -> Result<(), Fail> {
    let alloc = rt.alloc();
    read_and_write(&rt, alloc, &GCC, 24)?;
    read_and_write(&rt, alloc, &CLANG, 27)?;
    for cut in 1..71usize {
        let fault = fault_of(alloc, &GCC[..cut], 0).ok_or("not refused")?;
        assert_eq!(rt; fault.kind, Kind::Short);
    }
    Ok(())
}

#[test]
fn codes_out_of_order(rt: HostRuntime) -> Result<(), Fail> {
    let alloc = rt.alloc();
    let bytes = [
        9u8, 2, 0x11, 0, 0x49, 0x21, 0x7f, 0, 0, 1, 0x24, 1, 0, 0, 7, 0x24, 1, 0, 0, 0,
    ];
    let table = Table::read(alloc, &bytes, 1, 64).ok().ok_or("refused")?;
    assert_eq!(rt; table.len(), 3);
    assert_eq!(rt; table.end(), 20);
    assert_eq!(rt; table.by_code(2), Some(0));
    assert_eq!(rt; table.by_code(1), Some(1));
    assert_eq!(rt; table.by_code(7), Some(2));
    assert_eq!(rt; table.by_code(3), None);
    let second = table.decl(1);
    assert_eq!(rt;
        (second.at, second.tag, second.first, second.count),
        (9, 0x24, 1, 0)
    );
    assert_eq!(rt; table.columns(1).len(), 0);
    let columns = table.columns(0).to_vec(alloc)?;
    assert_eq!(rt; columns.as_slice(), table.specs());
    assert_eq!(rt; columns.len(), 1);
    assert_eq!(rt; columns[0].constant, -1);
    let numbers = vec![in alloc; 130u32, 1, 0]?;
    let written = write_table(alloc, &table, &numbers, &columns)
        .ok()
        .ok_or("no memory")?;
    assert_eq!(rt;
        written.as_slice(),
        &[
            1u8, 0x24, 1, 0, 0, 0x82, 1, 0x11, 0, 0x49, 0x21, 0x7f, 0, 0, 0
        ][..]
    );
    Ok(())
}

// The bytes of a table, and the kind and the place of its fault.
#[test]
fn refused_tables(rt: HostRuntime) -> Result<(), Fail> {
    let alloc = rt.alloc();
    let rows = [
        ([1u8, 0x11, 2, 0, 0, 0, 0, 0, 0, 0], Kind::FormUnknown, 64),
        ([1, 0x11, 0, 0, 1, 0, 0, 0, 0, 0], Kind::FormUnknown, 64),
        ([1, 0x11, 0, 3, 0, 0, 0, 0, 0, 0], Kind::FormUnknown, 64),
        ([1, 0x11, 0, 3, 2, 0, 0, 0, 0, 0], Kind::FormUnknown, 64),
        ([1, 0x11, 0, 0, 0, 1, 0x24, 0, 0, 0], Kind::CodeTwice, 69),
        (
            [1, 0x80, 0x80, 0x80, 0x80, 0x10, 0, 0, 0, 0],
            Kind::Limit,
            65,
        ),
        ([1, 0x11, 0, 0, 0, 2, 0x24, 0x01, 3, 0x88], Kind::Short, 73),
    ];
    for (bytes, kind, place) in rows {
        let fault = fault_of(alloc, &bytes, 64).ok_or("not refused")?;
        assert_eq!(rt; fault, Fault { kind, place });
    }
    Ok(())
}

// A compilation unit, a subprogram, and a variable that has a name (DWARF 5 section 7.5.3).
const TABLE: [u8; 18] = [
    1, 0x11, 1, 0, 0, 2, 0x2e, 0, 0, 0, 3, 0x34, 0, 0x03, 0x08, 0, 0, 0,
];

// With the variable twice, its name in .debug_str, and the subprogram never.
const ANEW: [u8; 13] = [1, 0x34, 0, 0x03, 0x0e, 0, 0, 2, 0x11, 1, 0, 0, 0];

#[test]
fn used_declarations_by_falling_uses(rt: HostRuntime) -> Result<(), Fail> {
    let alloc = rt.alloc();
    let table = Table::read(alloc, &TABLE, 0, 0).ok().ok_or("no table")?;
    if table.len() != 3 || table.specs().len() != 1 {
        return Err("not three declarations with one column")?;
    }
    let uses = vec![in alloc; 1u64, 0, 2]?;
    let columns = vec![in alloc;
        Spec {
            name: 3,
            form: 0x0e,
            constant: 0
        },
    ]?;
    let numbers = number(alloc, &uses).ok().ok_or("no memory")?;
    assert_eq!(rt; numbers.as_slice(), &[2u32, 0, 1][..]);
    let bytes = write_table(alloc, &table, &numbers, &columns)
        .ok()
        .ok_or("no memory")?;
    assert_eq!(rt; bytes.as_slice(), &ANEW[..]);
    Ok(())
}
