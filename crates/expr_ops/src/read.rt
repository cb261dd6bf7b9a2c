// Expressions, read.
ghost use Rattle.std.specs.Prelude.{◌≡◌, ◌≤◌, ◌<◌, ◌+◌, ◌-◌, ◌^◌, ◌∷◌, ◌++◌, [], ℕ, List, length, take, drop, OnOk, OnErr, IfOk, IfErr};
ghost use Rattle.dw_base.specs.Refusals.{IsRefusedFor, IsFaultOf};
ghost use Rattle.expr_ops.specs.Expressions.{IsExpression, branch_limit as limit_of};
ghost use Rattle.expr_ops.specs.ExpressionFaults.{FaultExpression};
ghost use Rattle.expr_ops.specs.Reading.{IsExpressionRead};
ghost use Rattle.expr_ops.specs.Ops.{all_meant, Chain, Stands};
ghost use Rattle.expr_ops.specs.inside.Levels.{Extends, IsSegmentRead, IsLevelRead, IsFront, IsChained, IsMoved, HasSegmentFault, HasLevelFault};

use crate::head::{ReadHead, fault_at, read_head};
use crate::op::{ENTRY_VALUE, Op};
use crate::resolve::resolve;
use crate::segment::{hold, op_of, push_op};
use crate::start::{Starts, push_start, start_of};
use dw_base::{Fault, Kind, Reach, Refusal};
use std::alloc::Global;

// The same refusal, with a fault's place so much further on.
fn moved(refusal: Refusal, from: u64) -> Refusal
    requires { IsRefusedFor (λ f. f.place + from < 2 ^ 64) refusal }
    ensures { IsMoved from refusal result }
{
    match refusal {
        Refusal::NoMemory => Refusal::NoMemory,
        Refusal::Refused(fault) => Refusal::Refused(Fault {
            kind: fault.kind,
            place: fault.place + from,
        }),
    }
}

// Reads the operation at a place and those that it holds.
#[cycle(levels)]
fn read_segment(
    alloc: Global,
    bytes: &[u8],
    at: usize,
    base: u64,
    deep: u32,
    most: usize,
    ops: &mut Vec<Op>,
) -> Result<ReadHead, Refusal>
    requires inside { at < length bytes.now }
    requires placed { base + length bytes.now < 2 ^ 64 }
    requires few { length ops.old.items < 2 ^ 32 }
    ensures few { IfOk result (λ _. length ops.new.items < 2 ^ 32) }
    ensures read { (outer : List ℕ) → Stands outer base bytes.now → IfOk result (IsSegmentRead outer most deep bytes.now at ops.old.items ops.new.items) }
    ensures chain { (outer : List ℕ) → Stands outer base bytes.now → IfOk result (λ h. IsChained outer (base + at) (base + h.end) ops.old.items ops.new.items) }
    ensures kept { Extends ops.old.items ops.new.items }
    ensures step { IfOk result (λ h. (at < h.end) × (h.end ≤ length bytes.now)) }
    ensures grown { IfOk result (λ _. length ops.old.items ≤ length ops.new.items) }
    ensures fault { IfErr result (IsRefusedFor (HasSegmentFault most deep bytes.now at)) }
    ensures bound { IfErr result (IsRefusedFor (λ f. f.place ≤ length bytes.now)) }
{
    let head = read_head(bytes, at)?;
    let number = ops.len();
    push_op(ops, op_of(&head, base + at as u64, base))?;
    if head.code != ENTRY_VALUE {
        return Ok(head);
    }
    if deep == 0 {
        return Err(Refusal::Refused(fault_at(Kind::Limit, at)));
    }
    let from = head.end - head.block.len as usize;
    match read_level(
        alloc,
        &bytes[from..head.end],
        base + from as u64,
        deep - 1,
        most,
        ops,
    ) {
        Ok(_) => {
            hold(ops, number);
            Ok(head)
        }
        Err(refusal) => Err(moved(refusal, from as u64)),
    }
}

// Reads the operations of an expression.
#[cycle(levels)]
fn read_level(
    alloc: Global,
    bytes: &[u8],
    base: u64,
    deep: u32,
    most: usize,
    ops: &mut Vec<Op>,
) -> Result<(), Refusal>
    requires placed { base + length bytes.now < 2 ^ 64 }
    requires few { length ops.old.items < 2 ^ 32 }
    ensures few { OnOk result (length ops.new.items < 2 ^ 32) }
    ensures read { (outer : List ℕ) → Stands outer base bytes.now → OnOk result (IsLevelRead outer most deep bytes.now ops.old.items ops.new.items) }
    ensures chain { (outer : List ℕ) → Stands outer base bytes.now → OnOk result (IsChained outer base (base + length bytes.now) ops.old.items ops.new.items) }
    ensures kept { Extends ops.old.items ops.new.items }
    ensures grown { OnOk result (length ops.old.items ≤ length ops.new.items) }
    ensures fault { IfErr result (IsRefusedFor (HasLevelFault most deep bytes.now)) }
    ensures bound { IfErr result (IsRefusedFor (λ f. f.place ≤ length bytes.now)) }
{
    let first = ops.len();
    let mut starts = Starts::new(alloc);
    let mut at = 0;
    while at < bytes.len() {
        let number = ops.len() - first;
        let head = read_segment(alloc, bytes, at, base, deep, most, ops)?;
        push_start(&mut starts, start_of(&head, at, number))?;
        at = head.end;
    }
    resolve(starts.as_slice(), bytes, deep, most, first, ops)
}

// How many entry_values may stand inside one another.
const DEEPEST: u32 = 8;

// How many bytes an expression with a branch may have.
fn branch_limit(reach: Reach) -> usize
    ensures { result ≡ limit_of reach }
{
    match reach {
        Reach::Narrow => 4096,
        Reach::Wide => 20480,
    }
}

/// As `read_expr`, but the operations are put behind those of a list, with the places and numbers that `read_expr` gives them.
/// So many expressions can share a list.
///
/// An Err comes where it comes from `read_expr`, and leaves `ops` as it was.
pub fn push_expr(
    alloc: Global,
    bytes: &[u8],
    origin: u64,
    reach: Reach,
    ops: &mut Vec<Op>,
) -> Result<(), Refusal>
    requires placed { origin + length bytes.now < 2 ^ 64 }
    requires few { length ops.old.items < 2 ^ 32 }
    ensures read { OnOk result (IsExpressionRead reach bytes.now ops.old.items ops.new.items) }
    ensures err { OnErr result (ops.new.items ≡ ops.old.items) }
    ensures fault { IfErr result (IsRefusedFor (IsFaultOf (λ k at. FaultExpression reach k at bytes.now) origin)) }
{
    let before = ops.len();
    match read_level(alloc, bytes, 0, DEEPEST, branch_limit(reach), ops) {
        Ok(()) => Ok(()),
        Err(refusal) => {
            ops.truncate(before);
            Err(moved(refusal, origin))
        }
    }
}

/// Reads the operations of an expression, in the order of their bytes (DWARF 5 sections 2.5 and 2.6.1). An entry_value is
/// followed by the operations of the expression that it holds. `origin` is the place of the first byte in the file.
///
/// Op is refused at an opcode that isn't known; Short and LebWide at an operand that the bytes of its expression cut off, or
/// that doesn't fit 64 bits; Branch at a branch that goes neither to an operation of its own expression nor to its end;
/// Limit at the first byte of an expression with a branch among its own operations and more than 4,096 bytes, or 20,480
/// in the wide reach, and at the ninth of entry_values that stand inside one another.
pub fn read_expr(alloc: Global, bytes: &[u8], origin: u64, reach: Reach) -> Result<Vec<Op>, Refusal>
    requires { origin + length bytes.now < 2 ^ 64 }
    ensures read { IfOk result (λ ops. IsExpression reach (all_meant bytes.now ops.items) bytes.now) }
    ensures places { IfOk result (λ ops. Chain bytes.now 0 ops.items (length bytes.now)) }
    ensures few { IfOk result (λ ops. length ops.items < 2 ^ 32) }
    ensures fault { IfErr result (IsRefusedFor (IsFaultOf (λ k at. FaultExpression reach k at bytes.now) origin)) }
{
    let mut ops = Vec::new(alloc);
    push_expr(alloc, bytes, origin, reach, &mut ops)?;
    Ok(ops)
}
