// The slots of the location lists that a unit owns.
ghost use Rattle.std.specs.Prelude.{◌≡◌, ◌<◌, ◌^◌, ℕ, List, length, OnOk};
ghost use Rattle.dw_base.specs.declared.fault.Reach.TheVariants.{Wide};
ghost use Rattle.expr_ops.specs.Expressions.{Operation};
ghost use Rattle.list_model.specs.declared.entry.ListKind.TheVariants.{Locations};
ghost use Rattle.value_links.specs.Operations.{IsSomeExpression};
ghost use Rattle.value_links.specs.Sections.{debug_lists};
ghost use Rattle.unit_slots.specs.inside.Added.{AreOperationsOf};
ghost use Rattle.unit_slots.specs.inside.Rows.{HasSpots};
ghost use Rattle.unit_slots.specs.inside.Made.{ItemStands, ItemsStand, ListsStand, IsBegun, AddsItem, AddsItems, AddsLists};

use crate::StandingSlots;
use crate::expressions::push_expression_sizes;
use crate::list_operands::operands_end;
use crate::rows::push_expression_slots;
use crate::spots::Spots;
use dw_base::{NoMemory, Reach, Refusal};
use entry_read::Unit;
use expr_ops::{Op, never_both, push_expr};
use list_model::{ListKind, RawEntry};
use loc_lists::{bytes_of, is_item};
use std::alloc::Global;
use value_links::World;

// Reads the operations of an expression of a valid file, in place of those that are there.
fn read_again(alloc: Global, bytes: &[u8], ops: &mut Vec<Op>) -> Result<(), NoMemory>
    requires { IsSomeExpression Wide bytes.now }
    ensures { OnOk result (AreOperationsOf bytes.now ops.new.items) }
{
    // What is an expression has no fault.
    never_both();
    ops.clear();
    match push_expr(alloc, bytes, 0, Reach::Wide, ops) {
        Ok(()) => Ok(()),
        Err(Refusal::NoMemory) => Err(NoMemory),
        Err(Refusal::Refused(_)) => unreachable!(),
    }
}

// Appends the slots of the expression of an item. `ops` is memory for operations, which is used again.
fn push_item(
    alloc: Global,
    made: &mut StandingSlots,
    unit: &Unit<'_>,
    spots: &Spots,
    section: &[u8],
    raw: &RawEntry,
    ops: &mut Vec<Op>,
) -> Result<(), NoMemory>
    requires begun { IsBegun unit.now spots.now made.old.slots.items made.old.sizes.items }
    requires item { ItemStands unit.now section.now raw.now }
    requires short { length unit.now.forest.section < 2 ^ 32 }
    requires brief { length section.now < 2 ^ 32 }
    ensures added { OnOk result ((held : ℕ → List Operation) (own : List ℕ) → HasSpots unit.now held own spots.now → AddsItem unit.now held own section.now raw.now made.old.slots.items made.old.sizes.items made.new.slots.items made.new.sizes.items) }
    ensures begun { OnOk result (IsBegun unit.now spots.now made.new.slots.items made.new.sizes.items) }
{
    let bytes = bytes_of(section, raw.expr);
    read_again(alloc, bytes, ops)?;
    // The length of the expression stands behind the operands.
    let at = operands_end(section, ListKind::Locations, raw);
    push_expression_sizes(&mut made.sizes, section, at, raw.expr, ops)?;
    push_expression_slots(&mut made.slots, ops, bytes, unit, spots)
}

// Appends the slots of the expressions of a list's entries.
fn push_items(
    alloc: Global,
    made: &mut StandingSlots,
    unit: &Unit<'_>,
    spots: &Spots,
    section: &[u8],
    raws: &[RawEntry],
    ops: &mut Vec<Op>,
) -> Result<(), NoMemory>
    requires begun { IsBegun unit.now spots.now made.old.slots.items made.old.sizes.items }
    requires items { ItemsStand unit.now section.now raws.now }
    requires short { length unit.now.forest.section < 2 ^ 32 }
    requires brief { length section.now < 2 ^ 32 }
    ensures added { OnOk result ((held : ℕ → List Operation) (own : List ℕ) → HasSpots unit.now held own spots.now → AddsItems unit.now held own section.now raws.now made.old.slots.items made.old.sizes.items made.new.slots.items made.new.sizes.items) }
    ensures begun { OnOk result (IsBegun unit.now spots.now made.new.slots.items made.new.sizes.items) }
{
    for raw in raws {
        if is_item(raw) {
            push_item(alloc, made, unit, spots, section, raw, ops)?;
        }
    }
    Ok(())
}

// The section of location lists.
fn section_of<'a>(world: &'a World<'_>) -> &'a [u8]
    ensures { result.now ≡ debug_lists world.now.image Locations }
{
    world.section(b".debug_loclists".as_slice())
}

/// Appends the slots of the location lists with these numbers, which the unit owns: those of the expressions of their items, in their order.
pub(crate) fn push_lists(
    alloc: Global,
    made: &mut StandingSlots,
    world: &World<'_>,
    unit: &Unit<'_>,
    spots: &Spots,
    lists: &[usize],
) -> Result<(), NoMemory>
    requires begun { IsBegun unit.now spots.now made.old.slots.items made.old.sizes.items }
    requires lists { ListsStand world.now unit.now (debug_lists world.now.image Locations) lists.now }
    requires short { length unit.now.forest.section < 2 ^ 32 }
    requires brief { length (debug_lists world.now.image Locations) < 2 ^ 32 }
    ensures added { OnOk result ((held : ℕ → List Operation) (own : List ℕ) → HasSpots unit.now held own spots.now → AddsLists world.now unit.now held own lists.now made.old.slots.items made.old.sizes.items made.new.slots.items made.new.sizes.items) }
{
    let section = section_of(world);
    let all = world.lists(ListKind::Locations);
    let mut ops: Vec<Op> = Vec::new(alloc);
    for number in lists {
        let list = all.list(alloc, *number)?;
        push_items(alloc, made, unit, spots, section, list.entries(), &mut ops)?;
    }
    Ok(())
}
