// Expressions without branches and entry_values, written at once.
ghost use Rattle.std.specs.Prelude.{◌≡◌, ◌<◌, ◌^◌, All, OnOk, OnErr, true};
ghost use Rattle.leb_codec.specs.Digits.{Extends};
ghost use Rattle.dw_base.specs.declared.fault.Reach.TheVariants.{Narrow};
ghost use Rattle.expr_ops.specs.Expressions.{IsExpression};
ghost use Rattle.expr_ops.specs.Ops.{all_meant};
ghost use Rattle.expr_ops.specs.Puts.{Adds};
ghost use Rattle.expr_ops.specs.Shortest.{AreSimple, shortest_length, IsWrittenShortest};

use crate::op::{ENTRY_VALUE, Op};
use crate::put::put_op;
use crate::segment::is_branch;
use crate::shortest::needed_slot;
use crate::write::with_next_ref;
use dw_base::NoMemory;

// Whether no operation is a branch or an entry_value: then no length and no distance follows from places.
pub(crate) fn are_simple(ops: &[Op]) -> bool
    ensures { result ≡ true → AreSimple ops.now }
{
    for op in ops {
        if op.code == ENTRY_VALUE {
            return false;
        }
        if is_branch(op.code) {
            return false;
        }
    }
    true
}

// Appends each operation with its next reference, or a front of what is written of them.
fn put_simple(out: &mut Vec<u8>, ops: &[Op], refs: &[u64], bytes: &[u8]) -> Result<(), NoMemory>
    requires old { IsExpression Narrow (all_meant bytes.now ops.now) bytes.now }
    requires simple { AreSimple ops.now }
    requires refs { All (λ n. n < 2 ^ 32) refs.now }
    requires fits { shortest_length refs.now (all_meant bytes.now ops.now) < 2 ^ 63 }
    ensures ok { OnOk result (Adds (IsWrittenShortest refs.now bytes.now ops.now) out.old.items out.new.items) }
    ensures err { OnErr result (Extends out.old.items out.new.items) }
{
    let mut ref_at = 0;
    for op in ops {
        let next = with_next_ref(op, refs, &mut ref_at);
        put_op(out, &next, needed_slot(op, &next, 0), bytes)?;
    }
    Ok(())
}

// Appends the operations with new references. An Err leaves `out` as it was.
pub(crate) fn write_simple(
    out: &mut Vec<u8>,
    ops: &[Op],
    refs: &[u64],
    bytes: &[u8],
) -> Result<(), NoMemory>
    requires old { IsExpression Narrow (all_meant bytes.now ops.now) bytes.now }
    requires simple { AreSimple ops.now }
    requires refs { All (λ n. n < 2 ^ 32) refs.now }
    requires fits { shortest_length refs.now (all_meant bytes.now ops.now) < 2 ^ 63 }
    ensures ok { OnOk result (Adds (IsWrittenShortest refs.now bytes.now ops.now) out.old.items out.new.items) }
    ensures err { OnErr result (out.new.items ≡ out.old.items) }
{
    let start = out.len();
    match put_simple(out, ops, refs, bytes) {
        Ok(()) => Ok(()),
        Err(error) => {
            out.truncate(start);
            Err(error)
        }
    }
}
