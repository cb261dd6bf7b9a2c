// Expressions, written.
ghost use Rattle.std.specs.Prelude.{◌≡◌, ◌++◌, ◌≤◌, ◌<◌, ◌+◌, ◌^◌, ◌∷◌, ℕ, List, Some, OnOk, OnErr, IsTrue, ◌↔◌, take, drop, length, slice_index_or, IfOk, pos, ◌+ℤ◌};
ghost use Rattle.spelled.specs.Spelled.{Joined};
ghost use Rattle.expr_ops.specs.declared.write.Draft.{Draft as AnyDraft};
ghost use Rattle.expr_ops.specs.Expressions.{Operation};
ghost use Rattle.expr_ops.specs.Puts.{Adds};
ghost use Rattle.expr_ops.specs.Ops.{meant, all_meant};
ghost use Rattle.expr_ops.specs.Drafts.{is_typed as is_base_typed, is_generic, has_reference as is_reference, is_slot, first_or, rest_of, with_refs, slots_of, PutsDraft, IsPuttable, all_ops, all_slots, sizes_in, total, starts_from, IsAimed, AreAimed, AreFirsts};
ghost use Rattle.expr_ops.specs.Writing.{CanBeWritten, IsSpelledAnew};

use crate::op::{CALL4, ENTRY_VALUE, Op};
use crate::put::put_op;
use crate::segment::is_branch;
use crate::size::own_size;
use dw_base::NoMemory;
use dw_base::constants::{DW_OP_CONVERT, DW_OP_REINTERPRET};
use std::alloc::Global;

/// The opcodes of references to base types in unsigned LEB128, which are slots.
fn is_typed(code: u8) -> bool
    ensures { result ≡ is_base_typed code }
{
    code >= 0xa4 && code <= 0xa9
}

/// Whether an operation's `a` is a reference: to an entry of its unit, or of .debug_info.
pub fn has_reference(op: &Op) -> bool
    ensures { result ≡ is_reference op.now.code }
{
    if is_typed(op.code) {
        true
    } else if op.code == CALL4 {
        true
    } else if op.code == 0xfa {
        true
    } else if op.code == 0x9a {
        true
    } else if op.code == 0xfd {
        true
    } else {
        op.code == 0xa0
    }
}

/// Whether the reference of an operation is the 0 of convert or reinterpret, which is the generic type and names no entry (DWARF 5
/// section 2.5.1.6).
pub fn is_generic(op: &Op) -> bool
    ensures { result ≡ is_generic op.now.code op.now.a }
{
    (op.code == DW_OP_CONVERT || op.code == DW_OP_REINTERPRET) && op.a == 0
}

/// Whether an operation has a slot: the length of an entry_value, a call, or a typed reference other than the generic
/// type's 0.
pub fn has_slot(op: &Op) -> bool
    ensures { result ≡ is_slot op.now.code op.now.a }
{
    if op.code == ENTRY_VALUE {
        true
    } else if op.code == CALL4 {
        true
    } else if is_typed(op.code) {
        if is_generic(op) { false } else { true }
    } else {
        false
    }
}

// An operation as it is written, and the bytes of its slot, if it has one.
#[derive(Clone, Copy)]
pub(crate) struct Draft {
    pub op: Op,
    pub slot: Option<u32>,
}

// The next of some numbers, or 0 past the last.
fn next_number(numbers: &[u64], at: &mut usize) -> u64
    ensures number { result ≡ first_or 0 (drop at.old numbers.now) }
    ensures rest { drop at.new numbers.now ≡ rest_of (drop at.old numbers.now) }
{
    match numbers.get(*at) {
        Some(number) => {
            *at += 1;
            *number
        }
        None => 0,
    }
}

// The operation with the next reference, if it has one. The generic type stays, whatever number stands for it.
pub(crate) fn with_next_ref(op: &Op, refs: &[u64], at: &mut usize) -> Op
    ensures next { (bytes : List ℕ) (more : List Operation) → with_refs (drop at.old refs.now) (meant bytes op.now ∷ more) ≡ meant bytes result ∷ with_refs (drop at.new refs.now) more }
    ensures code { result.code ≡ op.now.code }
{
    if !has_reference(op) {
        return *op;
    }
    let number = next_number(refs, at);
    if is_generic(op) {
        return *op;
    }
    let mut next = *op;
    next.a = number;
    next
}

// The size of an operation's slot, if it has one.
fn next_slot(op: &Op, sizes: &[u8], at: &mut usize) -> Option<u32>
    ensures { (bytes : List ℕ) (more : List Operation) → slots_of (drop at.old sizes.now) (meant bytes op.now ∷ more) ≡ result ∷ slots_of (drop at.new sizes.now) more }
{
    if !has_slot(op) {
        return None;
    }
    match sizes.get(*at) {
        Some(size) => {
            *at += 1;
            Some(u32::from(*size))
        }
        None => Some(1),
    }
}

// The operations with new references, and their slots.
fn drafts_of(alloc: Global, ops: &[Op], refs: &[u64], sizes: &[u8]) -> Result<Vec<Draft>, NoMemory>
    ensures ops { IfOk result (λ drafts. (bytes : List ℕ) → all_ops bytes drafts.items ≡ with_refs refs.now (all_meant bytes ops.now)) }
    ensures slots { IfOk result (λ drafts. (bytes : List ℕ) → all_slots drafts.items ≡ slots_of sizes.now (all_meant bytes ops.now)) }
{
    let mut drafts = Vec::new(alloc);
    let mut ref_at = 0;
    let mut size_at = 0;
    for op in ops {
        let slot = next_slot(op, sizes, &mut size_at);
        let next = with_next_ref(op, refs, &mut ref_at);
        drafts.push(Draft { op: next, slot })?;
    }
    Ok(drafts)
}

// Where each operation begins, and the place after all.
fn places_of(alloc: Global, drafts: &[Draft], bytes: &[u8]) -> Result<Vec<u64>, NoMemory>
    requires { total (sizes_in bytes.now drafts.now) < 2 ^ 63 }
    ensures { IfOk result (λ places. places.items ≡ starts_from 0 (sizes_in bytes.now drafts.now)) }
{
    let mut places = Vec::new(alloc);
    let mut place = 0u64;
    for draft in drafts {
        places.push(place)?;
        place = place + own_size(&draft.op, draft.slot, bytes);
    }
    places.push(place)?;
    Ok(places)
}

// Puts one number at all places from it on, up to an end.
fn mark(firsts: &mut Vec<u32>, first: u32, end: usize)
    requires order { first ≤ end }
    requires inside { end ≤ length firsts.old.items }
    ensures size { length firsts.new.items ≡ length firsts.old.items }
    ensures marked { (k : ℕ) → first ≤ k → k < end → slice_index_or firsts.new.items k 0 ≡ first }
    ensures before { (k : ℕ) → k < first → slice_index_or firsts.new.items k 0 ≡ slice_index_or firsts.old.items k 0 }
    ensures behind { (k : ℕ) → end ≤ k → slice_index_or firsts.new.items k 0 ≡ slice_index_or firsts.old.items k 0 }
{
    for k in first as usize..end {
        firsts[k] = first;
    }
}

fn zeros(alloc: Global, count: usize) -> Result<Vec<u32>, NoMemory>
    ensures count { IfOk result (λ zeros. length zeros.items ≡ count) }
    ensures zero { IfOk result (λ zeros. (k : ℕ) → slice_index_or zeros.items k 0 ≡ 0) }
{
    let mut zeros: Vec<u32> = Vec::new(alloc);
    for _ in 0..count {
        zeros.push(0)?;
    }
    Ok(zeros)
}

// The number of the first operation of the expression in which each operation stands.
fn firsts_of(alloc: Global, ops: &[Op]) -> Result<Vec<u32>, NoMemory>
    requires { length ops.now < 2 ^ 32 }
    ensures { IfOk result (λ firsts. AreFirsts ops.now (length ops.now) firsts.items) }
{
    let mut firsts = zeros(alloc, ops.len())?;
    for k in 0..ops.len() {
        if ops[k].code == ENTRY_VALUE {
            let end = (k + 1 + ops[k].inner as usize).min(ops.len());
            mark(&mut firsts, (k + 1) as u32, end);
        }
    }
    Ok(firsts)
}

fn place_at(places: &[u64], k: u64) -> u64
    ensures { result ≡ slice_index_or places.now k 0 }
{
    if k < places.len() as u64 {
        places[k as usize]
    } else {
        0
    }
}

// The number that is so far on from another.
fn distance_to(to: u64, from: u64) -> i64
    requires to { to < 2 ^ 63 }
    requires from { from < 2 ^ 63 }
    ensures { pos to ≡ pos from +ℤ result }
{
    to as i64 - from as i64
}

// The operation with the length or the distance that follows from places.
fn aimed(draft: &Draft, places: &[u64], first: u32, k: usize) -> Draft
    requires small { (j : ℕ) → slice_index_or places.now j 0 < 2 ^ 63 }
    requires rising { (i j : ℕ) → i ≤ j → j < length places.now → slice_index_or places.now i 0 ≤ slice_index_or places.now j 0 }
    requires inside { k + 1 + draft.now.op.inner < length places.now }
    ensures { IsAimed places.now first k draft.now result }
{
    let behind = place_at(places, k as u64 + 1);
    let mut next = *draft;
    if draft.op.code == ENTRY_VALUE {
        next.op.a = place_at(places, k as u64 + 1 + u64::from(draft.op.inner)) - behind;
    } else if is_branch(draft.op.code) {
        let to = place_at(places, u64::from(first) + u64::from(draft.op.jump));
        next.op.s = distance_to(to, behind);
    }
    next
}

fn first_at(firsts: &[u32], k: usize) -> u32
    ensures { result ≡ slice_index_or firsts.now k 0 }
{
    if k < firsts.len() { firsts[k] } else { 0 }
}

// All of them.
fn aim_all(
    alloc: Global,
    drafts: &[Draft],
    places: &[u64],
    firsts: &[u32],
) -> Result<Vec<Draft>, NoMemory>
    requires small { (j : ℕ) → slice_index_or places.now j 0 < 2 ^ 63 }
    requires rising { (i j : ℕ) → i ≤ j → j < length places.now → slice_index_or places.now i 0 ≤ slice_index_or places.now j 0 }
    requires inside { (k : ℕ) (d : AnyDraft) → k < length drafts.now → k + 1 + (slice_index_or drafts.now k d).op.inner < length places.now }
    ensures { IfOk result (λ aims. AreAimed places.now firsts.now drafts.now aims.items (length drafts.now)) }
{
    let mut aims = Vec::new(alloc);
    for k in 0..drafts.len() {
        aims.push(aimed(&drafts[k], places, first_at(firsts, k), k))?;
    }
    Ok(aims)
}

// Writes operations one after the other.
fn put_all(out: &mut Vec<u8>, drafts: &[Draft], bytes: &[u8]) -> Result<(), NoMemory>
    requires { (k : ℕ) (d : AnyDraft) → k < length drafts.now → IsPuttable (slice_index_or drafts.now k d) }
    ensures { OnOk result ((made : List ℕ) × Joined (PutsDraft bytes.now) drafts.now made × (out.new.items ≡ out.old.items ++ made)) }
{
    for draft in drafts {
        put_op(out, &draft.op, draft.slot, bytes)?;
    }
    Ok(())
}

fn append(out: &mut Vec<u8>, bytes: &[u8]) -> Result<(), NoMemory>
    ensures ok { OnOk result (out.new.items ≡ out.old.items ++ bytes.now) }
    ensures err { OnErr result (out.new.items ≡ out.old.items) }
{
    out.extend_from_slice(bytes)?;
    Ok(())
}

/// Appends an expression with these operations. `refs` has the new number of each reference, and `sizes` the bytes of each
/// slot, in the order of the operations; the generic type keeps its 0, whatever number stands for it. `bytes` are those of
/// the expression from which the operations were read, of which their spans tell.
///
/// What is appended spells the same operations with the new references: each slot has its size, and all other numbers are in
/// their shortest form; the length of an entry_value counts the bytes of the operations that it holds, and a branch goes to the
/// operation to which it went. For that each number has to fit its slot or operand, and each distance 16 bits. Limits of depth and of
/// bytes beside a branch are kept where the operations keep the first and the new bytes the second.
///
/// An Err leaves `out` as it was.
pub fn write_expr(
    out: &mut Vec<u8>,
    ops: &[Op],
    refs: &[u64],
    sizes: &[u8],
    bytes: &[u8],
) -> Result<(), NoMemory>
    requires few { length ops.now < 2 ^ 32 }
    requires fits { CanBeWritten refs.now sizes.now bytes.now ops.now }
    ensures ok { OnOk result (Adds (IsSpelledAnew refs.now sizes.now bytes.now ops.now) out.old.items out.new.items) }
    ensures err { OnErr result (out.new.items ≡ out.old.items) }
{
    let alloc = *out.allocator();
    let drafts = drafts_of(alloc, ops, refs, sizes)?;
    let places = places_of(alloc, &drafts, bytes)?;
    let firsts = firsts_of(alloc, ops)?;
    let aims = aim_all(alloc, &drafts, &places, &firsts)?;
    let mut made = Vec::new(alloc);
    put_all(&mut made, &aims, bytes)?;
    append(out, &made)
}
