// The new bytes of a unit's expressions.
ghost use Rattle.std.specs.Prelude.{◌≡◌, ◌<◌, ◌*◌, ◌^◌, length, IfOk, OnOk};
ghost use Rattle.std.specs.List.{All};
ghost use Rattle.dw_base.specs.declared.fault.Reach.TheVariants.{Narrow};
ghost use Rattle.entry_arena.specs.Operations.{ops_of};
ghost use Rattle.entry_arena.specs.Order.{IsInOrder};
ghost use Rattle.entry_read.specs.Expressions.{HasOperations};
ghost use Rattle.unit_write.specs.NewExpressions.{AreEndsFor, AreWrittenShortest, refs_of};
ghost use Rattle.unit_write.specs.inside.Expressions.{PutsExpression};

use crate::parts::part;
use dw_base::NoMemory;
use entry_arena::Operations;
use entry_read::Unit;
use expr_ops::{has_reference, shortest_is_few, write_shortest};
use form_codec::Value;
use std::alloc::Global;

// The new references of the expression that is the value with a number. `numbers` has one for each operation of the unit. Where no
// operation has a reference no memory is taken.
fn new_refs(
    alloc: Global,
    operations: &Operations,
    number: u32,
    numbers: &Vec<u64>,
) -> Result<Vec<u64>, NoMemory>
    requires narrow { All (λ number. number < 2 ^ 32) numbers.now.items }
    ensures refs { IfOk result (λ refs. refs.items ≡ refs_of operations.now numbers.now.items number) }
    ensures narrow { IfOk result (λ refs. All (λ number. number < 2 ^ 32) refs.items) }
    ensures few { length (ops_of operations.now number) < 2 ^ 32 }
{
    let range = operations.ops_of(number);
    let own = part(numbers, range.first, range.count);
    let mut refs: Vec<u64> = Vec::new(alloc);
    for (op, reference) in operations.of_value(number).iter().zip(own) {
        if !has_reference(op) {
            continue;
        }
        refs.push(*reference)?;
    }
    Ok(refs)
}

/// The new bytes of the expressions of a unit.
#[derive(Drop)]
pub struct NewExpressions {
    /// For each value where the bytes of its expression end; a value that is no expression has none.
    pub ends: Vec<u32>,
    /// The bytes, one expression after the other.
    pub bytes: Vec<u8>,
}

// Appends the new bytes of the value with a number, if it is an expression.
fn put_expression(
    alloc: Global,
    out: &mut Vec<u8>,
    unit: &Unit<'_>,
    operations: &Operations,
    numbers: &Vec<u64>,
    number: u32,
) -> Result<(), NoMemory>
    requires operations { HasOperations Narrow unit.now.forest operations.now }
    requires narrow { All (λ number. number < 2 ^ 32) numbers.now.items }
    requires number { number < length unit.now.forest.values }
    ensures put { OnOk result (PutsExpression unit.now.forest operations.now numbers.now.items number out.old.items out.new.items) }
    ensures order { IsInOrder unit.now.forest }
{
    // A law, which costs nothing: an expression gets at most three times its bytes.
    shortest_is_few();
    let forest = unit.forest();
    // In order the bytes that a value lends lie in the section.
    let _entries = forest.entries();
    match forest.value(number) {
        Value::Expr(span) => {
            let refs = new_refs(alloc, operations, number, numbers)?;
            write_shortest(out, operations.of_value(number), &refs, forest.bytes(span))
        }
        _ => Ok(()),
    }
}

/// The expressions of a unit written anew one after the other (DWARF 5 sections 2.5, 2.6.1 and 7.7.1). `numbers` has one for each
/// operation: its new reference, below 2^32, where it has one.
///
/// Each number has its fewest bytes: a reference to a base type, and the length of an expression that an entry_value holds. A call is a
/// call2 where its number is below 65,536. A branch goes to the operation to which it went. An expression gets at most three times its
/// bytes. The only error is want of memory.
pub fn write_expressions(
    alloc: Global,
    unit: &Unit<'_>,
    operations: &Operations,
    numbers: &Vec<u64>,
) -> Result<NewExpressions, NoMemory>
    requires operations { HasOperations Narrow unit.now.forest operations.now }
    requires room { 3 * length unit.now.forest.section < 2 ^ 32 }
    requires numbers { (length numbers.now.items ≡ length operations.now.ops) × All (λ number. number < 2 ^ 32) numbers.now.items }
    ensures ends { IfOk result (λ new. AreEndsFor unit.now.forest new.ends.items) }
    ensures written { IfOk result (λ new. AreWrittenShortest unit.now.forest operations.now new.ends.items numbers.now.items new.bytes.items) }
{
    let mut ends: Vec<u32> = Vec::new(alloc);
    let mut bytes: Vec<u8> = Vec::new(alloc);
    for number in 0..unit.forest().value_count() {
        put_expression(alloc, &mut bytes, unit, operations, numbers, number)?;
        ends.push(bytes.len() as u32)?;
    }
    Ok(NewExpressions { ends, bytes })
}
