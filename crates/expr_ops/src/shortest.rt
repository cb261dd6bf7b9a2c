// Expressions in their fewest bytes.
ghost use Rattle.std.specs.Prelude.{◌≡◌, ◌≤◌, ◌<◌, ◌*◌, ◌^◌, ℕ, List, length, drop, All, IfOk, OnOk, OnErr};
ghost use Rattle.dw_base.specs.declared.fault.Reach.TheVariants.{Narrow};
ghost use Rattle.expr_ops.specs.Expressions.{IsExpression};
ghost use Rattle.expr_ops.specs.Ops.{meant, all_meant};
ghost use Rattle.expr_ops.specs.Shortest.{needed_size, needed_slot, shortest_length, shortest_sizes, fixed_size, LengthsSplit, IsWrittenShortest};
ghost use Rattle.expr_ops.specs.Puts.{Adds};
ghost use Rattle.expr_ops.specs.Nests.{Nest};
ghost use Rattle.expr_ops.specs.inside.Cursors.{Leaves};

use crate::op::{CALL4, ENTRY_VALUE, Op};
use crate::simple::{are_simple, write_simple};
use crate::size::own_size;
use crate::write::{has_slot, with_next_ref, write_expr};
use dw_base::NoMemory;
use leb_codec::len_u;
use std::alloc::Global;

// The bytes that an operation's slot needs, where the operations that it holds have so many.
fn needed_size(op: &Op, held: u64) -> u32
    ensures size { (bytes : List ℕ) → result ≡ needed_size (meant bytes op.now) held }
    ensures few { result ≤ 10 }
{
    match op.code {
        ENTRY_VALUE => len_u(held),
        CALL4 => { if op.a < 65536 { 2 } else { 4 } }
        _ => len_u(op.a),
    }
}

// The same, if the operation has a slot; `new` is the operation with its new reference.
pub(crate) fn needed_slot(op: &Op, new: &Op, held: u64) -> Option<u32>
    ensures { (bytes : List ℕ) → result ≡ needed_slot (meant bytes op.now) (meant bytes new.now) held }
{
    if has_slot(op) {
        Some(needed_size(new, held))
    } else {
        None
    }
}

// The bytes of operations that stand one behind the other, with those that they hold, and with the next references.
fn len_of(ops: &[Op], refs: &[u64], ref_at: &mut usize, bytes: &[u8]) -> u64
    requires nest { Nest (all_meant bytes.now ops.now) }
    requires fits { shortest_length (drop ref_at.old refs.now) (all_meant bytes.now ops.now) < 2 ^ 64 }
    ensures len { result ≡ shortest_length (drop ref_at.old refs.now) (all_meant bytes.now ops.now) }
    ensures rest { Leaves (drop ref_at.old refs.now) (all_meant bytes.now ops.now) (drop ref_at.new refs.now) }
{
    let mut sum = 0u64;
    let mut at = 0;
    while at < ops.len() {
        let op = &ops[at];
        let new = with_next_ref(op, refs, ref_at);
        let end = at + 1 + op.inner as usize;
        let held = len_of(&ops[at + 1..end], refs, ref_at, bytes);
        sum = sum + own_size(&new, needed_slot(op, &new, held), bytes) + held;
        at = end;
    }
    sum
}

/// How many bytes an expression has that is written by `write_shortest` with these references.
pub fn shortest_len(ops: &[Op], refs: &[u64], bytes: &[u8]) -> u64
    requires old { IsExpression Narrow (all_meant bytes.now ops.now) bytes.now }
    requires refs { All (λ n. n < 2 ^ 32) refs.now }
    ensures len { result ≡ shortest_length refs.now (all_meant bytes.now ops.now) }
    ensures bound { result ≤ 3 * length bytes.now }
{
    let mut ref_at = 0;
    len_of(ops, refs, &mut ref_at, bytes)
}

// How many bytes an operation has beside its slot, if it has one, without those of the operations that it holds.
pub(crate) fn fixed_own(op: &Op, bytes: &[u8]) -> u64
    ensures { result ≡ fixed_size (meant bytes.now op.now) }
{
    if op.code == CALL4 {
        return 1;
    }
    let slot = if has_slot(op) { Some(0) } else { None };
    own_size(op, slot, bytes)
}

/// How many bytes each slot needs for the new references, in the order of the operations: those with which [`write_shortest`] writes
/// them, for [`write_expr`](crate::write_expr). An Err is want of memory.
pub fn sizes_of(alloc: Global, ops: &[Op], refs: &[u64], bytes: &[u8]) -> Result<Vec<u8>, NoMemory>
    requires nest { Nest (all_meant bytes.now ops.now) }
    requires fits { shortest_length refs.now (all_meant bytes.now ops.now) < 2 ^ 64 }
    ensures { IfOk result (λ sizes. sizes.items ≡ shortest_sizes refs.now (all_meant bytes.now ops.now)) }
{
    let mut sizes = Vec::new(alloc);
    let mut ref_at = 0;
    for k in 0..ops.len() {
        let op = &ops[k];
        let new = with_next_ref(op, refs, &mut ref_at);
        if !has_slot(op) {
            continue;
        }
        let mut inner_at = ref_at;
        let held = len_of(
            &ops[k + 1..k + 1 + op.inner as usize],
            refs,
            &mut inner_at,
            bytes,
        );
        sizes.push(needed_size(&new, held) as u8)?;
    }
    Ok(sizes)
}

/// Appends an expression of these operations with new references, in the order of the operations: a reference to a base type, the length
/// of an entry_value and all other numbers in LEB128 have their fewest bytes, and a call is a call2 where its number is below 65,536; a
/// branch goes to the operation to which it went, and the generic type keeps its 0, whatever number stands for it in `refs`. `bytes` are
/// those of the expression from which the operations were read, of which their spans tell.
///
/// An Err leaves `out` as it was.
pub fn write_shortest(
    out: &mut Vec<u8>,
    ops: &[Op],
    refs: &[u64],
    bytes: &[u8],
) -> Result<(), NoMemory>
    requires few { length ops.now < 2 ^ 32 }
    requires old { IsExpression Narrow (all_meant bytes.now ops.now) bytes.now }
    requires refs { All (λ n. n < 2 ^ 32) refs.now }
    ensures ok { OnOk result (Adds (IsWrittenShortest refs.now bytes.now ops.now) out.old.items out.new.items) }
    ensures err { OnErr result (out.new.items ≡ out.old.items) }
{
    // No list has so many bytes.
    if shortest_len(ops, refs, bytes) >= 1 << 63 {
        return Err(NoMemory);
    }
    if are_simple(ops) {
        return write_simple(out, ops, refs, bytes);
    }
    let sizes = sizes_of(*out.allocator(), ops, refs, bytes)?;
    write_expr(out, ops, refs, &sizes, bytes)
}

/// A law: the bytes of an expression that are no slot's don't depend on its references, and the rest are the sizes of its slots.
pub fn lengths_split()
    ensures { LengthsSplit }
{}
