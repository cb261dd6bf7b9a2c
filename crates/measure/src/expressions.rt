// Drawn expressions, read and written anew.
ghost use Rattle.std.specs.Prelude.{◌≡◌, ◌≤◌, ◌<◌, ◌^◌, IfOk, length};
ghost use Rattle.std.specs.List.{All};

use crate::draws::Draws;
use dw_base::{NoMemory, Reach, Refusal};
use expr_ops::{Op, has_reference, push_expr, write_shortest};
use std::alloc::Global;

// How many expressions are drawn; they are read and written in turns.
const DRAWN: u32 = 4_096;

/// What is told of expressions.
#[derive(Clone, Copy, Default)]
pub struct Totals {
    /// How many operations were read.
    pub operations: u64,
    /// How many bytes were written.
    pub bytes: u64,
    /// A sum of the bytes that were written that tells their order, too.
    pub sum: u64,
}

// Expressions one after the other, and where each ends.
#[derive(Drop)]
struct Expressions {
    bytes: Vec<u8>,
    ends: Vec<usize>,
}

// Appends a LEB128 number of one or two bytes.
fn push_leb(bytes: &mut Vec<u8>, draws: &mut Draws) -> Result<(), NoMemory> {
    if draws.below(2) == 0 {
        bytes.push(128 + draws.below(128) as u8)?;
    }
    bytes.push(1 + draws.below(63) as u8)?;
    Ok(())
}

// Appends an opcode and a number in LEB128.
fn push_with_leb(bytes: &mut Vec<u8>, draws: &mut Draws, code: u8) -> Result<(), NoMemory> {
    bytes.push(code)?;
    push_leb(bytes, draws)
}

// Appends DW_OP_addr.
fn push_address(bytes: &mut Vec<u8>, draws: &mut Draws) -> Result<(), NoMemory> {
    bytes.push(0x03)?;
    for _ in 0..8 {
        bytes.push(draws.below(256) as u8)?;
    }
    Ok(())
}

// Appends an operation as compilers write them: DW_OP_fbreg most often, then addresses, registers and converts.
fn push_operation(bytes: &mut Vec<u8>, draws: &mut Draws) -> Result<(), NoMemory> {
    match draws.below(8) {
        0 | 1 => push_with_leb(bytes, draws, 0x91),
        2 => push_address(bytes, draws),
        3 => push_with_leb(bytes, draws, 0x77),
        4 => push_with_leb(bytes, draws, 0x23),
        5 => push_with_leb(bytes, draws, 0xa8),
        6 => {
            bytes.push(0x9f)?;
            Ok(())
        }
        _ => {
            bytes.push(0x50)?;
            Ok(())
        }
    }
}

// Appends an entry_value of a register in one of 16 expressions, and a branch to the end in one of 16.
fn push_rare(bytes: &mut Vec<u8>, draws: &mut Draws) -> Result<(), NoMemory> {
    match draws.below(16) {
        0 => {
            bytes.extend_from_slice(&[0xa3, 1, 0x55])?;
            Ok(())
        }
        1 => {
            bytes.extend_from_slice(&[0x2f, 0, 0])?;
            Ok(())
        }
        _ => Ok(()),
    }
}

// Draws expressions of one to three operations.
fn drawn_expressions(alloc: Global, draws: &mut Draws) -> Result<Expressions, NoMemory> {
    let mut bytes: Vec<u8> = Vec::new(alloc);
    let mut ends: Vec<usize> = Vec::new(alloc);
    for _ in 0..DRAWN {
        for _ in 0..=draws.below(3) {
            push_operation(&mut bytes, draws)?;
        }
        push_rare(&mut bytes, draws)?;
        ends.push(bytes.len())?;
    }
    Ok(Expressions { bytes, ends })
}

// The new references of operations: each is so much greater than the old one.
fn new_refs(refs: &mut Vec<u64>, ops: &[Op], more: u64) -> Result<(), NoMemory>
    ensures { All (λ n. n < 2 ^ 32) refs.new.items }
{
    refs.clear();
    for op in ops {
        if has_reference(op) {
            refs.push(op.a.wrapping_add(more) % (1 << 32))?;
        }
    }
    Ok(())
}

// The totals with those of one more expression.
fn with_expression(
    alloc: Global,
    totals: Totals,
    bytes: &[u8],
    ops: &mut Vec<Op>,
    refs: &mut Vec<u64>,
    out: &mut Vec<u8>,
) -> Result<Totals, Refusal> {
    ops.clear();
    out.clear();
    push_expr(alloc, bytes, 0, Reach::Narrow, ops)?;
    new_refs(refs, ops, totals.operations)?;
    write_shortest(out, ops, refs, bytes)?;
    let mut totals = totals;
    totals.operations = totals.operations.wrapping_add(ops.len() as u64);
    totals.bytes = totals.bytes.wrapping_add(out.len() as u64);
    for byte in out.iter() {
        totals.sum = totals.sum.wrapping_mul(31).wrapping_add(u64::from(*byte));
    }
    Ok(totals)
}

/// Reads and writes drawn expressions until so many operations were read, or some more with the last expression.
pub fn totals_of_expressions(alloc: Global, count: u64) -> Result<Totals, Refusal> {
    let drawn = drawn_expressions(alloc, &mut Draws::default())?;
    let all = drawn.bytes.as_slice();
    let mut ops: Vec<Op> = Vec::new(alloc);
    let mut refs: Vec<u64> = Vec::new(alloc);
    let mut out: Vec<u8> = Vec::new(alloc);
    let mut totals = Totals::default();
    for _ in 0..count {
        let mut from = 0;
        for end in drawn.ends.iter() {
            if totals.operations >= count {
                return Ok(totals);
            }
            let to = (*end).min(all.len()).max(from);
            let bytes = &all[from..to];
            totals = with_expression(alloc, totals, bytes, &mut ops, &mut refs, &mut out)?;
            from = to;
        }
    }
    Ok(totals)
}
