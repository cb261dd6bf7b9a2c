// What the slots of a unit name.
ghost use Rattle.std.specs.Prelude.{◌≡◌, ◌<◌, ◌+◌, ◌^◌, ℕ, List, true, IfOk, OnOk, length};
ghost use Rattle.std.specs.List.{All};
ghost use Rattle.dw_base.specs.declared.fault.Reach.{Reach};
ghost use Rattle.dw_base.specs.declared.fault.Reach.TheVariants.{Narrow};
ghost use Rattle.expr_ops.specs.Expressions.{Operation};
ghost use Rattle.expr_ops.specs.Ops.{meant, all_meant};
ghost use Rattle.expr_ops.specs.Drafts.{is_slot};
ghost use Rattle.expr_ops.specs.Slots.{op_aim, expression_aims};
ghost use Rattle.form_codec.specs.declared.value.Value.{Value as AnyValue};
ghost use Rattle.unit_write.specs.Slots.{AreSpotsOf, IsSpotAt, IsSpotFor};
ghost use Rattle.value_links.specs.World.{IsWorldOf};
ghost use Rattle.rewriter.specs.inside.Taken.{IsTakenFrom};
ghost use Rattle.rewriter.specs.inside.Placed.{unit_in, operations_for};
ghost use Rattle.rewriter.specs.inside.Held.{MeansSomething, EntryMeans, entry_in, OperationNames, AddsSpots, AreSpotsUpTo};

use crate::numbers::{end_number, link_of, name_of, place_in, value_of};
use dw_base::NoMemory;
use entry_arena::Target;
use entry_read::Unit;
use expr_ops::{Op, has_slot};
use form_codec::Value;
use std::alloc::Global;
use unit_write::Spot;
use value_links::{Link, OpLink, World};

// What a reference within a unit names there.
fn spot_of(world: &World<'_>, unit: u32, id: u32, name: u64, old: u64) -> Spot
    requires id { id < length (unit_in world.now.units unit).forest.entries }
    requires unit { unit < length world.now.units }
    requires short { length (unit_in world.now.units unit).forest.section < 2 ^ 32 }
    requires means { MeansSomething world.now unit id name (AnyValue.LocalRef old) }
    ensures { IsSpotAt (unit_in world.now.units unit).forest result ((unit_in world.now.units unit).head.at + old) }
{
    match link_of(world, unit, id, name, &Value::LocalRef(old)) {
        Link::Place(_, target) => match target {
            Target::Entry(number) => Spot::Entry(number),
            Target::ChainEnd(_) => {
                let own = &world.units()[unit as usize];
                Spot::End(end_number(own.forest().chain_ends(), place_in(own, old)) as u32)
            }
        },
        // A reference names a place in .debug_info.
        _ => unreachable!(),
    }
}

// What the slot of an operation names, in an expression of the unit with a number.
pub(crate) fn op_spot(world: &World<'_>, unit: u32, op: &Op) -> Spot
    requires world { (reach : Reach) × IsWorldOf world.now.image reach world.now }
    requires unit { unit < length world.now.units }
    requires slot { is_slot op.now.code op.now.a ≡ true }
    requires names { OperationNames world.now unit op.now }
    ensures { (bytes : List ℕ) (behind : List Operation) → IsSpotFor (unit_in world.now.units unit).forest (unit_in world.now.units unit).head.at (op_aim (meant bytes op.now) behind) result }
{
    match world.resolve_op(unit, op) {
        Some(link) => match link {
            OpLink::Entry(_, id) => Spot::Entry(id),
            // The length of an expression names nothing.
            _ => Spot::Nothing,
        },
        // An operation of a valid file names something.
        None => unreachable!(),
    }
}

// Appends what the slots of an expression name.
fn push_expression_spots(
    spots: &mut Vec<Spot>,
    world: &World<'_>,
    unit: u32,
    ops: &[Op],
) -> Result<(), NoMemory>
    requires world { (reach : Reach) × IsWorldOf world.now.image reach world.now }
    requires unit { unit < length world.now.units }
    requires names { All (OperationNames world.now unit) ops.now }
    ensures { OnOk result ((bytes : List ℕ) → AddsSpots (unit_in world.now.units unit) (expression_aims (all_meant bytes ops.now)) spots.old.items spots.new.items) }
{
    spots.push(Spot::Nothing)?;
    for op in ops {
        if has_slot(op) {
            spots.push(op_spot(world, unit, op))?;
        }
    }
    Ok(())
}

// Appends what the slots of a value name, which is the one with a number among those of an entry.
fn push_value_spots(
    spots: &mut Vec<Spot>,
    world: &World<'_>,
    own: &Unit<'_>,
    unit: u32,
    id: u32,
    column: u32,
) -> Result<(), NoMemory>
    requires world { IsWorldOf world.now.image Narrow world.now }
    requires own { IsTakenFrom (unit_in world.now.units unit) own.now }
    requires entry { EntryMeans world.now own.now unit id }
    requires column { column < (entry_in world.now unit id).count }
    requires short { length (unit_in world.now.units unit).forest.section < 2 ^ 32 }
    requires before { AreSpotsUpTo own.now (operations_for world.now own.now unit) spots.old.items ((entry_in world.now unit id).first + column) }
    ensures { OnOk result (AreSpotsUpTo own.now (operations_for world.now own.now unit) spots.new.items ((entry_in world.now unit id).first + column + 1)) }
{
    match value_of(world, own, unit, id, column) {
        Value::LocalRef(old) => {
            let name = name_of(world, unit, id, column);
            spots.push(spot_of(world, unit, id, name, old))?;
            Ok(())
        }
        Value::Expr(_) => {
            let number = world.units()[unit as usize].forest().entry(id).first + column;
            let operations = &world.operations()[unit as usize];
            push_expression_spots(spots, world, unit, operations.of_value(number))
        }
        _ => Ok(()),
    }
}

// Appends what the slots of an entry name.
fn push_spots(
    spots: &mut Vec<Spot>,
    world: &World<'_>,
    own: &Unit<'_>,
    unit: u32,
    id: u32,
) -> Result<(), NoMemory>
    requires world { IsWorldOf world.now.image Narrow world.now }
    requires own { IsTakenFrom (unit_in world.now.units unit) own.now }
    requires entry { EntryMeans world.now own.now unit id }
    requires short { length (unit_in world.now.units unit).forest.section < 2 ^ 32 }
    requires before { AreSpotsUpTo own.now (operations_for world.now own.now unit) spots.old.items (entry_in world.now unit id).first }
    ensures { OnOk result (AreSpotsUpTo own.now (operations_for world.now own.now unit) spots.new.items ((entry_in world.now unit id).first + (entry_in world.now unit id).count)) }
{
    let count = world.units()[unit as usize].forest().entry(id).count;
    for column in 0..count {
        push_value_spots(spots, world, own, unit, id, column)?;
    }
    Ok(())
}

/// What the slots of the unit with a number name, in their order. `own` is the unit as it is written. The only error is want of memory.
pub fn spots_of(
    alloc: Global,
    world: &World<'_>,
    own: &Unit<'_>,
    unit: u32,
) -> Result<Vec<Spot>, NoMemory>
    requires world { IsWorldOf world.now.image Narrow world.now }
    requires unit { unit < length world.now.units }
    requires own { IsTakenFrom (unit_in world.now.units unit) own.now }
    ensures { IfOk result (λ spots. AreSpotsOf own.now (operations_for world.now own.now unit) spots.items) }
{
    let count = world.units()[unit as usize].forest().len();
    let mut spots: Vec<Spot> = Vec::new(alloc);
    for id in 0..count {
        push_spots(&mut spots, world, own, unit, id)?;
    }
    Ok(spots)
}
