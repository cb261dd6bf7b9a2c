// What the values of a unit take beside their slots, and how many slots each has.
ghost use Rattle.std.specs.Prelude.{◌≡◌, ◌<◌, ◌+◌, ℕ, length, IfOk};
ghost use Rattle.dw_base.specs.declared.fault.Reach.{Reach};
ghost use Rattle.entry_read.specs.Expressions.{HasOperations};
ghost use Rattle.entry_read.specs.Slots.{operations_in};
ghost use Rattle.unit_write.specs.inside.Marks.{IsMeasured, AreMeasured, AreShort};

use dw_base::NoMemory;
use entry_arena::Operations;
use entry_read::Unit;
use expr_ops::{fixed_len, slot_count, slots_are_few};
use form_codec::Value;
use std::alloc::Global;

/// What the values of a unit take.
#[derive(Drop)]
pub(crate) struct Measured {
    /// How many bytes of each value are no slot's, where it is an expression; none of another value.
    pub fixed: Vec<u32>,
    /// How many slots each value has.
    pub slots: Vec<u32>,
}

// Adds the value with a number.
fn measure_value(
    measured: &mut Measured,
    unit: &Unit<'_>,
    operations: &Operations,
    number: u32,
) -> Result<(), NoMemory>
    requires operations { (reach : Reach) × HasOperations reach unit.now.forest operations.now }
    requires short { AreShort unit.now.forest }
    requires number { number < length unit.now.forest.values }
    requires before { IsMeasured unit.now.forest (operations_in unit.now.forest operations.now) measured.old number }
    ensures { IfOk result (λ _. IsMeasured unit.now.forest (operations_in unit.now.forest operations.now) measured.new (number + 1)) }
{
    // Laws, which cost nothing: an expression has no more slots than bytes.
    slots_are_few();
    let forest = unit.forest();
    // In order the bytes that a value lends lie in the section.
    let _entries = forest.entries();
    let (fixed, slots) = match forest.value(number) {
        Value::LocalRef(_) => (0, 1),
        Value::Expr(span) => {
            let ops = operations.of_value(number);
            let fixed = fixed_len(ops, forest.bytes(span)) as u32;
            (fixed, 1 + slot_count(ops) as u32)
        }
        _ => (0, 0),
    };
    measured.fixed.push(fixed)?;
    measured.slots.push(slots)?;
    Ok(())
}

/// Measures the values of a unit. The only error is want of memory.
pub(crate) fn measure(
    alloc: Global,
    unit: &Unit<'_>,
    operations: &Operations,
) -> Result<Measured, NoMemory>
    requires operations { (reach : Reach) × HasOperations reach unit.now.forest operations.now }
    requires short { AreShort unit.now.forest }
    ensures measured { IfOk result (AreMeasured unit.now.forest (operations_in unit.now.forest operations.now)) }
{
    let mut measured = Measured {
        fixed: Vec::new(alloc),
        slots: Vec::new(alloc),
    };
    for number in 0..unit.forest().value_count() {
        measure_value(&mut measured, unit, operations, number)?;
    }
    Ok(measured)
}
