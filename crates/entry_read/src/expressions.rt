// The expressions of a unit.
ghost use Rattle.std.specs.Prelude.{◌≤◌, ◌<◌, ◌+◌, ◌^◌, length, IfOk, IfErr, OnOk};
ghost use Rattle.dw_base.specs.Refusals.{IsFaultOf, IsRefusedFor};
ghost use Rattle.entry_arena.specs.Operations.{ComesLast};
ghost use Rattle.entry_arena.specs.Order.{IsInOrder};
ghost use Rattle.entry_read.specs.Expressions.{HasOperations, FaultExpressions};
ghost use Rattle.entry_read.specs.inside.Pushing.{AreRunsOfFew, AddsOps};

use crate::unit::Unit;
use dw_base::{NoMemory, Reach, Refusal};
use entry_arena::{Forest, Operations};
use expr_ops::{Op, push_expr};
use form_codec::Value;
use std::alloc::Global;

// Appends the operations of the expression that is the value with a number.
fn push_all(held: &mut Operations, number: u32, ops: &[Op]) -> Result<(), NoMemory>
    requires last { ComesLast held.old.runs number }
    requires runs { AreRunsOfFew held.old }
    ensures { OnOk result (AddsOps number ops.now held.old held.new) }
{
    for op in ops {
        held.push_op(number, *op)?;
    }
    Ok(())
}

// A law, which costs nothing: what the values of a forest lend lies in its section.
fn stands_in_order(forest: &Forest<'_>)
    ensures { IsInOrder forest.now }
{
    let _entries = forest.entries();
}

/// Reads the expressions of a unit: the operations of each value of form DW_FORM_exprloc (DWARF 5 sections 2.5, 2.6.1, 7.5.5 and
/// 7.7.1). `origin` is the file offset of the first byte of the unit's section, and `reach` says how many bytes an expression with
/// a branch may have.
///
/// A refusal names a fault of one of the expressions: Op at an opcode that isn't known; Short and LebWide at an operand that its
/// expression cuts off, or that doesn't fit 64 bits; Branch at a branch that goes neither to an operation of its expression nor to
/// its end; Limit at the first byte of an expression with a branch and too many bytes, and at the ninth of entry_values inside one
/// another. `NoMemory` may come wherever memory is wanting.
pub fn read_expressions(
    alloc: Global,
    unit: &Unit<'_>,
    origin: u64,
    reach: Reach,
) -> Result<Operations, Refusal>
    requires room { origin + length unit.now.forest.section < 2 ^ 64 }
    ensures read { IfOk result (HasOperations reach unit.now.forest) }
    ensures fault { IfErr result (IsRefusedFor (IsFaultOf (FaultExpressions unit.now.forest reach) origin)) }
{
    let forest = unit.forest();
    stands_in_order(forest);
    let mut held = Operations::new(alloc);
    let mut ops: Vec<Op> = Vec::new(alloc);
    for number in 0..forest.value_count() {
        let Value::Expr(span) = forest.value(number) else {
            continue;
        };
        ops.clear();
        push_expr(alloc, forest.bytes(span), origin + span.at, reach, &mut ops)?;
        push_all(&mut held, number, &ops)?;
    }
    held.shrink_to_fit();
    Ok(held)
}
