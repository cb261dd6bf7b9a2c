// One operation and those that it holds: how it is pushed.
ghost use Rattle.std.specs.Prelude.{◌≡◌, ◌≤◌, ◌<◌, ◌+◌, ◌-◌, ◌^◌, ◌∷◌, ◌++◌, [], ℕ, List, length, OnOk, OnErr, IsTrue, ◌↔◌, FitsSigned};
ghost use Rattle.std.specs.Int.{w64};
ghost use Rattle.expr_ops.specs.declared.op.Op.{Op as AnyOp};
ghost use Rattle.expr_ops.specs.Heads.{IsBlockOf};
ghost use Rattle.expr_ops.specs.Reads.{bytes_in};
ghost use Rattle.expr_ops.specs.inside.Reads.{head_in};
ghost use Rattle.expr_ops.specs.Expressions.{operation_of, plain_code, kept_sign, kept_block, IsBranch};
ghost use Rattle.expr_ops.specs.Ops.{meant, Stands};
ghost use Rattle.expr_ops.specs.inside.Levels.{IsSpanOf, with_inner, with_jump};

use crate::head::ReadHead;
use crate::op::{BRA, CALL2, CALL4, CONST_TYPE, IMPLICIT_VALUE, Op, SKIP};
use dw_base::{NoMemory, Span};

// No more operations are held than 32 bits count.
const MOST: usize = 0xffff_ffff;

pub(crate) fn is_branch(code: u8) -> bool
    ensures { IsTrue result ↔ IsBranch code }
{
    code == BRA || code == SKIP
}

fn code_of(code: u8) -> u8
    ensures { result ≡ plain_code code }
{
    if code == CALL2 { CALL4 } else { code }
}

fn sign_of(code: u8, s: i64) -> i64
    ensures sign { result ≡ kept_sign code s }
    ensures fits { FitsSigned w64 result }
{
    if is_branch(code) { 0 } else { s }
}

// Where the block of an operation stands; 0, 0 where none is kept.
fn span_of(code: u8, block: Span, base: u64) -> Span
    requires { base + block.at < 2 ^ 64 }
    ensures place { IsSpanOf code base block result }
    ensures bytes { (bytes outer : List ℕ) → Stands outer base bytes → block.at + block.len ≤ length bytes → IsBlockOf code (bytes_in bytes block) → bytes_in outer result ≡ kept_block code (bytes_in bytes block) }
{
    if code == IMPLICIT_VALUE || code == CONST_TYPE {
        Span {
            at: base + block.at,
            len: block.len,
        }
    } else {
        Span { at: 0, len: 0 }
    }
}

// The operation of an opcode and its operands, before it is known where it goes and how many operations it holds.
pub(crate) fn op_of(head: &ReadHead, at: u64, base: u64) -> Op
    requires { base + head.now.block.at < 2 ^ 64 }
    ensures at { result.at ≡ at }
    ensures block { IsSpanOf head.now.code base head.now.block result.bytes }
    ensures means { (bytes outer : List ℕ) → Stands outer base bytes → head.now.block.at + head.now.block.len ≤ length bytes → IsBlockOf head.now.code (bytes_in bytes head.now.block) → meant outer result ≡ operation_of (head_in bytes head.now) 0 0 }
{
    Op {
        at,
        code: code_of(head.code),
        a: head.a,
        s: sign_of(head.code, head.s),
        jump: 0,
        bytes: span_of(head.code, head.block, base),
        inner: 0,
    }
}

pub(crate) fn push_op(ops: &mut Vec<Op>, op: Op) -> Result<(), NoMemory>
    ensures pushed { OnOk result (ops.new.items ≡ ops.old.items ++ op ∷ []) }
    ensures few { OnOk result (length ops.new.items < 2 ^ 32) }
    ensures size { OnOk result (length ops.new.items ≡ length ops.old.items + 1) }
    ensures err { OnErr result (ops.new.items ≡ ops.old.items) }
{
    if ops.len() >= MOST {
        return Err(NoMemory);
    }
    ops.push(op)?;
    Ok(())
}

// Says that the operations behind one are those that it holds.
pub(crate) fn hold(ops: &mut Vec<Op>, number: usize)
    requires inside { number < length ops.old.items }
    requires few { length ops.old.items < 2 ^ 32 }
    ensures size { length ops.new.items ≡ length ops.old.items }
    ensures held { (before held : List AnyOp) (op : AnyOp) → ops.old.items ≡ before ++ op ∷ held → length before ≡ number → ops.new.items ≡ before ++ with_inner op (length held) ∷ held }
{
    ops[number].inner = (ops.len() - number - 1) as u32;
}

// Says where a branch goes.
pub(crate) fn send(ops: &mut Vec<Op>, number: usize, jump: usize)
    requires inside { number < length ops.old.items }
    requires few { jump < 2 ^ 32 }
    ensures size { length ops.new.items ≡ length ops.old.items }
    ensures sent { (before behind : List AnyOp) (op : AnyOp) → ops.old.items ≡ before ++ op ∷ behind → length before ≡ number → ops.new.items ≡ before ++ with_jump op jump ∷ behind }
{
    ops[number].jump = jump as u32;
}
