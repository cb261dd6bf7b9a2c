// Expressions whose operations are known from elsewhere.
ghost use Rattle.std.specs.Prelude.{length};
ghost use Rattle.expr_ops.specs.Ops.{Chain};

use dw_base::{Fault, Kind, NoMemory, Reach, Refusal, Span};
use expr_ops::{Named, Op, named_by, push_expr, read_expr, reference_place};
use std::alloc::Global;

fn op(at: u64, code: u8, a: u64, s: i64) -> Op {
    Op {
        at,
        code,
        a,
        s,
        jump: 0,
        bytes: Span { at: 0, len: 0 },
        inner: 0,
    }
}

fn branch(at: u64, code: u8, jump: u32) -> Op {
    let mut branch = op(at, code, 0, 0);
    branch.jump = jump;
    branch
}

fn entry(at: u64, inner: u32) -> Op {
    let mut entry = op(at, 0xa3, 0, 0);
    entry.inner = inner;
    entry
}

fn block(at: u64, code: u8, a: u64, bytes: Span) -> Op {
    let mut block = op(at, code, a, 0);
    block.bytes = bytes;
    block
}

#[test]
fn operations_are_read(rt: HostRuntime) -> Result<(), Refusal> {
    let branches = [
        op(0, 0x30, 0, 0),
        branch(1, 0x28, 3),
        op(4, 0xa8, 42, 0),
        op(9, 0x96, 0, 0),
        branch(10, 0x2f, 5),
    ];
    let numbers = [
        op(0, 0x0a, 0xfffe, 0),
        op(3, 0x0b, 0, -2),
        op(6, 0x10, 656, 0),
        op(9, 0x11, 0, -127),
        op(12, 0x92, 5, -2),
        op(15, 0x9d, 3, 4),
        op(18, 0xa5, 42, 3),
        op(21, 0xa6, 42, 8),
        op(24, 0x99, 0x1234, 0),
        op(27, 0xa0, 0x0403_0201, -1),
    ];
    let held = [
        entry(0, 3),
        branch(2, 0x2f, 2),
        op(5, 0x99, 7, 0),
        block(8, 0x9e, 0, Span { at: 10, len: 1 }),
        block(11, 0xa4, 42, Span { at: 14, len: 2 }),
        branch(16, 0x28, 5),
    ];
    let rows: [(&[u8], &[Op]); 4] = [
        (
            &[
                0x30, 0x28, 5, 0, 0xa8, 0xaa, 0x80, 0x80, 0, 0x96, 0x2f, 0, 0,
            ],
            &branches,
        ),
        (
            &[
                0x0a, 0xfe, 0xff, 0x0b, 0xfe, 0xff, 0x10, 0x90, 5, 0x11, 0x81, 0x7f, 0x92, 5, 0x7e,
                0x9d, 3, 4, 0xa5, 3, 0x2a, 0xa6, 8, 0x2a, 0x98, 0x34, 0x12, 0xa0, 1, 2, 3, 4, 0x7f,
            ],
            &numbers,
        ),
        (
            &[
                0xa3, 9, 0x2f, 3, 0, 0x98, 7, 0, 0x9e, 1, 5, 0xa4, 0x2a, 2, 7, 8, 0x28, 0xfd, 0xff,
            ],
            &held,
        ),
        (&[], &[]),
    ];
    for (bytes, want) in rows {
        let ops = read_expr(rt.alloc(), bytes, 0, Reach::Narrow)?;
        assert_eq!(rt; ops.as_slice(), want);
    }
    Ok(())
}

// The fault for which an expression that begins at the place 100 is refused.
fn fault_of(alloc: Global, bytes: &[u8], reach: Reach) -> Option<Fault> {
    match read_expr(alloc, bytes, 100, reach) {
        Err(Refusal::Refused(fault)) => Some(fault),
        _ => None,
    }
}

fn refused(kind: Kind, place: u64) -> Option<Fault> {
    Some(Fault { kind, place })
}

#[test]
fn faults_are_named(rt: HostRuntime) {
    // nine entry_values, one inside the other
    let nested = [
        0xa3, 17, 0xa3, 15, 0xa3, 13, 0xa3, 11, 0xa3, 9, 0xa3, 7, 0xa3, 5, 0xa3, 3, 0xa3, 1, 0x30,
    ];
    let rows: [(&[u8], Option<Fault>); 16] = [
        (&nested, refused(Kind::Limit, 116)),
        (&nested[2..], None),
        (&[0x30, 0x01], refused(Kind::Op, 101)),
        (&[0xa3, 1, 0xff, 0x30], refused(Kind::Op, 102)),
        (&[0x08], refused(Kind::Short, 101)),
        (&[0xa3, 2, 0x0a, 5, 0x30], refused(Kind::Short, 103)),
        (&[0x92, 5, 0x80], refused(Kind::Short, 102)),
        (&[0x9e, 3, 1, 2], refused(Kind::Short, 101)),
        (&[0xa4, 5, 2, 1], refused(Kind::Short, 102)),
        // 2^64 - 1 and 2^64
        (
            &[
                0x10, 0xff, 0xff, 0xff, 0xff, 0xff, 0xff, 0xff, 0xff, 0xff, 1,
            ],
            None,
        ),
        (
            &[
                0x10, 0x80, 0x80, 0x80, 0x80, 0x80, 0x80, 0x80, 0x80, 0x80, 2,
            ],
            refused(Kind::LebWide, 101),
        ),
        // 2^63 with a sign
        (
            &[
                0x11, 0x80, 0x80, 0x80, 0x80, 0x80, 0x80, 0x80, 0x80, 0x80, 1,
            ],
            refused(Kind::LebWide, 101),
        ),
        (&[0x30, 0x28, 1, 0, 0x08, 0], refused(Kind::Branch, 101)),
        (&[0x2f, 0xfc, 0xff], refused(Kind::Branch, 100)),
        (&[0x2f, 1, 0], refused(Kind::Branch, 100)),
        (&[0xa3, 3, 0x2f, 1, 0, 0x30], refused(Kind::Branch, 102)),
    ];
    for (bytes, want) in rows {
        assert_eq!(rt; fault_of(rt.alloc(), bytes, Reach::Narrow), want);
    }
}

// So many bytes, of which the last are operations of one byte.
fn filled(alloc: Global, front: &[u8], count: usize) -> Result<Vec<u8>, NoMemory> {
    let mut bytes = Vec::new(alloc);
    for place in 0..count {
        match front.get(place) {
            Some(byte) => bytes.push(*byte)?,
            None => bytes.push(0x96)?,
        }
    }
    Ok(bytes)
}

#[test]
fn a_branch_limits_the_bytes(rt: HostRuntime) -> Result<(), NoMemory> {
    let rows: [(&[u8], usize, Reach, Option<Fault>); 7] = [
        (&[0x28, 0, 0], 4096, Reach::Narrow, None),
        (
            &[0x28, 0, 0],
            4097,
            Reach::Narrow,
            refused(Kind::Limit, 100),
        ),
        (&[0x28, 0, 0], 20480, Reach::Wide, None),
        (&[0x28, 0, 0], 20481, Reach::Wide, refused(Kind::Limit, 100)),
        // a branch inside an entry_value alone, and beside one
        (&[0xa3, 3, 0x28, 0, 0], 4097, Reach::Narrow, None),
        (
            &[0xa3, 0, 0x28, 0, 0],
            4097,
            Reach::Narrow,
            refused(Kind::Limit, 100),
        ),
        (&[], 4097, Reach::Narrow, None),
    ];
    for (front, count, reach, want) in rows {
        let bytes = filled(rt.alloc(), front, count)?;
        assert_eq!(rt; fault_of(rt.alloc(), &bytes, reach), want);
    }
    Ok(())
}

#[test]
fn expressions_share_a_list(rt: HostRuntime) -> Result<(), Refusal> {
    let mut ops = Vec::new(rt.alloc());
    push_expr(rt.alloc(), &[0x30, 0x96], 0, Reach::Narrow, &mut ops)?;
    push_expr(rt.alloc(), &[0x96, 0x2f, 0, 0], 2, Reach::Narrow, &mut ops)?;
    let want = [
        op(0, 0x30, 0, 0),
        op(1, 0x96, 0, 0),
        op(0, 0x96, 0, 0),
        branch(1, 0x2f, 2),
    ];
    assert_eq!(rt; ops.as_slice(), &want[..]);
    Ok(())
}

// What the reference of the first operation names, and where it begins.
fn first_reference(ops: &[Op], bytes: &[u8]) -> Option<(Named, u64)>
    requires { Chain bytes.now 0 ops.now (length bytes.now) }
{
    match ops.first() {
        Some(op) => Some((named_by(op.code), reference_place(op, bytes))),
        None => None,
    }
}

#[test]
fn references_are_found(rt: HostRuntime) -> Result<(), Refusal> {
    let rows: [(&[u8], Named, u64); 6] = [
        (&[0x96], Named::Nothing, 1),
        (&[0x98, 7, 0], Named::UnitEntry, 1),
        (&[0x9a, 7, 0, 0, 0], Named::SectionEntry, 1),
        (&[0xa4, 5, 1, 2], Named::BaseType, 1),
        (&[0xa5, 0x90, 5, 0x2a], Named::BaseType, 3),
        (&[0xa7, 8, 0x2a], Named::BaseType, 2),
    ];
    for (bytes, name, place) in rows {
        let ops = read_expr(rt.alloc(), bytes, 0, Reach::Narrow)?;
        assert_eq!(rt; first_reference(&ops, bytes), Some((name, place)));
    }
    Ok(())
}
