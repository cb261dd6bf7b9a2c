// Operations of values, and what each value has of them.
use dw_base::Span;
use entry_arena::{OpRange, Operations};
use expr_ops::Op;
use std::alloc::Global;
use std::process::Abort;
use std::test::Fail;

// Values, each with the opcode of one of its operations.
const ROWS: [(u32, u8); 6] = [
    (2, 0x30),
    (2, 0x96),
    (2, 0x9f),
    (5, 0x9c),
    (9, 0x91),
    (9, 0x06),
];

// A value, its range, and the opcodes of its operations.
type Want<'w> = (u32, u32, u32, &'w [u8]);

fn op(code: u8) -> Op {
    Op {
        at: 0,
        code,
        a: 0,
        s: 0,
        jump: 0,
        bytes: Span { at: 0, len: 0 },
        inner: 0,
    }
}

// Pushes the operations of rows, which are in the order of their values.
fn filled(rt: &impl Abort, alloc: Global, rows: &[(u32, u8)]) -> Result<Operations, Fail> {
    let mut held = Operations::new(alloc);
    let mut last = 0u32;
    for (number, row) in rows.iter().enumerate() {
        let (value, code) = *row;
        assert!(rt; last <= value);
        assert_eq!(rt; held.push_op(value, op(code))? as usize, number);
        last = value;
    }
    Ok(held)
}

fn are_ops(ops: &[Op], codes: &[u8]) -> bool {
    ops.len() == codes.len()
        && ops
            .iter()
            .zip(codes.iter())
            .all(|(held, code)| *held == op(*code))
}

#[test]
fn values_have_runs(rt: HostRuntime) -> Result<(), Fail> {
    let mut held = filled(&rt, rt.alloc(), &ROWS)?;
    let wants: [Want<'_>; 6] = [
        (0, 0, 0, &[]),
        (2, 0, 3, &[0x30, 0x96, 0x9f]),
        (3, 0, 0, &[]),
        (5, 3, 1, &[0x9c]),
        (9, 4, 2, &[0x91, 0x06]),
        (10, 0, 0, &[]),
    ];
    for (value, first, count, codes) in wants {
        assert_eq!(rt; held.ops_of(value), OpRange { first, count });
        assert!(rt; are_ops(held.of_value(value), codes));
        held.shrink_to_fit();
    }
    assert_eq!(rt; held.op_count(), 6);
    assert!(rt; held.op_count() > 3);
    assert_eq!(rt; held.op(3), op(0x9c));
    assert!(rt; are_ops(held.ops(), &[0x30, 0x96, 0x9f, 0x9c, 0x91, 0x06]));
    Ok(())
}
