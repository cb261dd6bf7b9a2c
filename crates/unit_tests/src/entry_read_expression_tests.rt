// The expressions of a unit, value by value, and units with a fault in one.
use abbrev_tables::Table;
use dw_base::{Fault, Kind, Reach, Refusal, Span};
use entry_arena::Operations;
use entry_read::{Counts, heads, read_expressions, read_unit};
use expr_ops::Op;
use std::alloc::Global;
use std::process::Abort;

// A subprogram whose frame base is call_frame_cfa, and variables at fbreg -20, at addr 0x404028, nowhere, and of the value 0,
// as gcc writes them.
const INFO: [u8; 46] = [
    0x2a, 0, 0, 0, 5, 0, 1, 8, 0, 0, 0, 0, 1, 2, 1, 0x9c, 3, 0x78, 0, 2, 0x91, 0x6c, 3, 0x79, 0, 9,
    3, 0x28, 0x40, 0x40, 0, 0, 0, 0, 0, 3, 0x7a, 0, 0, 3, 0, 2, 0x30, 0x9f, 0, 0,
];

const TABLE: [u8; 22] = [
    1, 0x11, 1, 0, 0, 2, 0x2e, 1, 0x40, 0x18, 0, 0, 3, 0x34, 0, 3, 8, 2, 0x18, 0, 0, 0,
];

const NONE_BEFORE: Counts = Counts {
    entries: 0,
    values: 0,
};

fn op(at: u64, code: u8, a: u64, s: i64) -> Op {
    Op {
        at,
        code,
        a,
        s,
        jump: 0,
        bytes: Span { at: 0, len: 0 },
        inner: 0,
    }
}

// The operations of the first unit of a section that stands at 64 in the file.
fn read(alloc: Global, info: &[u8]) -> Result<Operations, Refusal> {
    let table = Table::read(alloc, &TABLE, 0, 0)?;
    let heads = heads(alloc, info, 64)?;
    let Some(head) = heads.first() else {
        return Err(Refusal::NoMemory);
    };
    let unit = read_unit(alloc, info, head, &table, NONE_BEFORE, 64)?;
    read_expressions(alloc, &unit, 64, Reach::Narrow)
}

// The same unit with other bytes from a place on.
fn changed(rt: &impl Abort, at: usize, bytes: &[u8]) -> [u8; 46] {
    let mut info = INFO;
    assert!(rt; at <= info.len() && bytes.len() <= info.len() - at);
    info[at..at + bytes.len()].copy_from_slice(bytes);
    info
}

#[test]
fn expressions_have_their_operations(rt: HostRuntime) -> Result<(), Refusal> {
    let held = read(rt.alloc(), &INFO)?;
    let wants: [(u32, &[Op]); 10] = [
        (0, &[op(0, 0x9c, 0, 0)]),
        (1, &[]),
        (2, &[op(0, 0x91, 0, -20)]),
        (3, &[]),
        (4, &[op(0, 0x03, 0x404028, 0)]),
        (5, &[]),
        (6, &[]),
        (7, &[]),
        (8, &[op(0, 0x30, 0, 0), op(1, 0x9f, 0, 0)]),
        (9, &[]),
    ];
    for (value, want) in wants {
        assert_eq!(rt; held.of_value(value), want);
    }
    Ok(())
}

#[test]
fn a_fault_has_its_place(rt: HostRuntime) {
    // Bytes from a place on, and the fault: no opcode has the number 1, const1u lacks its byte, and skip goes past the end.
    let rows: [(usize, &[u8], Kind, u64); 4] = [
        (15, &[1], Kind::Op, 79),
        (42, &[0x30, 1], Kind::Op, 107),
        (42, &[0x30, 8], Kind::Short, 108),
        (
            26,
            &[0x2f, 9, 0, 0x96, 0x96, 0x96, 0x96, 0x96, 0x96],
            Kind::Branch,
            90,
        ),
    ];
    for (at, bytes, kind, place) in rows {
        let fault = match read(rt.alloc(), &changed(&rt, at, bytes)) {
            Err(Refusal::Refused(fault)) => Some(fault),
            _ => None,
        };
        assert_eq!(rt; fault, Some(Fault { kind, place }));
    }
}
