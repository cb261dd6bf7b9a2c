// The slots of values: how many bytes each has.
ghost use Rattle.std.specs.Prelude.{◌≡◌, ◌≤◌, ◌<◌, ◌+◌, ◌^◌, ℕ, ℤ, suc, length, sum, OnOk};
ghost use Rattle.dw_base.specs.declared.fault.Reach.TheVariants.{Wide};
ghost use Rattle.leb_codec.specs.Leb.{Uleb};
ghost use Rattle.slot_layout.specs.Rows.{most_slots};
ghost use Rattle.form_codec.specs.Forms.{Meaning, SpellsValue};
ghost use Rattle.form_codec.specs.Values.{IsPlaced};
ghost use Rattle.entry_arena.specs.Arena.{entry_at, value_at};
ghost use Rattle.entry_arena.specs.Trees.{SpellsBetween};
ghost use Rattle.entry_read.specs.Expressions.{HasOperations};
ghost use Rattle.entry_read.specs.Slots.{meaning_at, operations_in};
ghost use Rattle.entry_read.specs.Units.{declarations_of, IsTable, IsUnitHeld};
ghost use Rattle.unit_slots.specs.inside.Added.{AddsSizes, GoesOn, HasValueSizes};
ghost use Rattle.unit_slots.specs.inside.Own.{unit_by, operations_by, AreSizesBefore};

use crate::expressions::push_expression_sizes;
use crate::operands::push_size;
use abbrev_tables::{Spec, Table};
use dw_base::NoMemory;
use entry_arena::{Forest, Operations};
use entry_read::{Unit, columns_of};
use form_codec::{Value, read_value};
use leb_codec::read_u;

// Where the code at a place ends.
fn code_end(info: &[u8], at: usize) -> usize
    requires { (code : ℕ) × (to : ℕ) × SpellsBetween (Uleb code) info.now at to }
    ensures { (code to : ℕ) → SpellsBetween (Uleb code) info.now at to → result ≡ to }
{
    match read_u(info, at) {
        Ok(code) => code.end,
        // A code that stands there ends and fits.
        Err(_) => unreachable!(),
    }
}

// Where the value of a column at a place ends.
fn value_end(info: &[u8], at: usize, column: Spec) -> usize
    requires { (meaning : Meaning) × (to : ℕ) × SpellsBetween (SpellsValue column.name column.form column.constant meaning) info.now at to }
    ensures { (meaning : Meaning) (to : ℕ) → SpellsBetween (SpellsValue column.name column.form column.constant meaning) info.now at to → result ≡ to }
{
    match read_value(
        info,
        at,
        info.len(),
        column.name,
        column.form,
        column.constant,
        0,
    ) {
        Ok(read) => read.end,
        // A value that stands there has no fault.
        Err(_) => unreachable!(),
    }
}

// Appends the sizes of the slots of the value with a number, which stands from a place up to another.
fn push_value_sizes(
    sizes: &mut Vec<u32>,
    forest: &Forest<'_>,
    operations: &Operations,
    number: u32,
    from: usize,
    to: usize,
) -> Result<(), NoMemory>
    requires operations { HasOperations Wide forest.now operations.now }
    requires known { number < length forest.now.values }
    requires stands { (name : ℕ) × (form : ℕ) × (constant : ℤ) × SpellsBetween (SpellsValue name form constant (meaning_at forest.now number)) forest.now.section from to }
    requires placed { IsPlaced (value_at forest.now.values number) from to }
    requires short { length forest.now.section < 2 ^ 32 }
    requires few { length sizes.old.items ≤ most_slots }
    ensures added { OnOk result (AddsSizes (HasValueSizes forest.now.section from to (meaning_at forest.now number) (operations_in forest.now operations.now number)) sizes.old.items sizes.new.items) }
    ensures few { OnOk result (length sizes.new.items ≤ most_slots) }
{
    match forest.value(number) {
        Value::LocalRef(_) => push_size(sizes, (to - from) as u32),
        Value::Expr(span) => {
            let ops = operations.of_value(number);
            push_expression_sizes(sizes, forest.section(), from, span, ops)
        }
        _ => Ok(()),
    }
}

/// Appends the sizes of the slots of the values of an entry, behind those of the entries before it. `table` is the abbreviation table by
/// which the unit was read.
pub(crate) fn push_entry_sizes(
    sizes: &mut Vec<u32>,
    unit: &Unit<'_>,
    table: &Table,
    operations: &Operations,
    id: u32,
) -> Result<(), NoMemory>
    requires table { IsTable table.now }
    requires unit { IsUnitHeld unit.now.forest.section unit.now.head (declarations_of table.now) unit.now.forest }
    requires operations { HasOperations Wide unit.now.forest operations.now }
    requires short { length unit.now.forest.section < 2 ^ 32 }
    requires id { id < length unit.now.forest.entries }
    requires few { length sizes.old.items ≤ most_slots }
    requires before { AreSizesBefore (unit_by unit.now table.now) (operations_by (unit_by unit.now table.now) operations.now) (entry_at unit.now.forest.entries id).first sizes.old.items }
    ensures sizes { let entry = entry_at unit.now.forest.entries id in
        OnOk result (AreSizesBefore (unit_by unit.now table.now) (operations_by (unit_by unit.now table.now) operations.now) (entry.first + entry.count) sizes.new.items) }
    ensures room { OnOk result (sum sizes.new.items ≤ sum sizes.old.items + (entry_at unit.now.forest.entries id).len) }
    ensures behind { OnOk result (GoesOn sizes.old.items sizes.new.items) }
    ensures few { OnOk result (length sizes.new.items ≤ most_slots) }
{
    let forest = unit.forest();
    let entry = forest.entry(id);
    let info = forest.section();
    let columns = columns_of(table, entry.decl);
    // A number of 32 bits counts the values, so the number behind the last one fits.
    let _count = forest.value_count();
    let mut from = code_end(info, entry.at as usize);
    let mut number = entry.first;
    for column in columns {
        let to = value_end(info, from, *column);
        push_value_sizes(sizes, forest, operations, number, from, to)?;
        number += 1;
        from = to;
    }
    Ok(())
}
