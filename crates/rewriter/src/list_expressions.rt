// The expressions of lists written anew.
ghost use Rattle.std.specs.Prelude.{◌≡◌, ◌≤◌, ◌<◌, ◌+◌, ◌^◌, length, IfOk, OnOk};
ghost use Rattle.std.specs.List.{All, Contains};
ghost use Rattle.dw_base.specs.declared.fault.Reach.TheVariants.{Narrow};
ghost use Rattle.value_links.specs.Sections.{debug_lists};
ghost use Rattle.value_links.specs.Operations.{IsSomeExpression};
ghost use Rattle.value_links.specs.World.{IsWorldOf, lists_held};
ghost use Rattle.rewriter.specs.inside.Held.{AllHavePlaces, IsReferenceOf};
ghost use Rattle.rewriter.specs.inside.Plans.{AreExpressionsFor};
ghost use Rattle.rewriter.specs.inside.ListNumbers.{owner_in, IsOwnedIn, AreListReferences, IsReadAgain, IsExpressionPut};

use crate::numbers::{entry_place, op_number};
use dw_base::{NoMemory, Reach, Refusal};
use expr_ops::{Named, Op, has_reference, named_by, push_expr, write_shortest};
use list_arena::ListRead;
use list_model::ListKind;
use list_write::NewExpressions;
use loc_lists::{bytes_of, is_item};
use std::alloc::Global;
use unit_write::Places;
use value_links::{OpLink, World};

// The new number of the reference of an operation in an expression of a list that no unit owns: it counts from the first byte of
// .debug_info, or names nothing.
fn section_number(world: &World<'_>, places: &Vec<Places>, op: &Op) -> u64
    requires world { IsWorldOf world.now.image Narrow world.now }
    requires placed { AllHavePlaces world.now places.now.items }
    ensures number { IsReferenceOf world.now places.now.items (length world.now.units) op.now result }
    ensures fits { result < 2 ^ 32 }
{
    if named_by(op.code) != Named::SectionEntry {
        return 0;
    }
    match world.resolve_place(op.a) {
        Some(OpLink::Entry(unit, id)) => entry_place(places, unit, id),
        _ => 0,
    }
}

// The new number of the reference of an operation in an expression of a list, by the unit that owns the list.
fn number_in(world: &World<'_>, places: &Vec<Places>, owner: Option<u32>, op: &Op) -> u64
    requires world { IsWorldOf world.now.image Narrow world.now }
    requires placed { AllHavePlaces world.now places.now.items }
    requires owner { IsOwnedIn world.now owner }
    ensures number { IsReferenceOf world.now places.now.items (owner_in world.now owner) op.now result }
    ensures fits { result < 2 ^ 32 }
{
    match owner {
        Some(unit) => op_number(world, places, unit, op),
        None => section_number(world, places, op),
    }
}

// The new references of operations, those alone that have one. Where none has one no memory is taken.
fn new_references(
    alloc: Global,
    world: &World<'_>,
    places: &Vec<Places>,
    owner: Option<u32>,
    ops: &[Op],
) -> Result<Vec<u64>, NoMemory>
    requires world { IsWorldOf world.now.image Narrow world.now }
    requires placed { AllHavePlaces world.now places.now.items }
    requires owner { IsOwnedIn world.now owner }
    ensures references { IfOk result (λ refs. AreListReferences world.now places.now.items (owner_in world.now owner) ops.now refs.items) }
    ensures narrow { IfOk result (λ refs. All (λ reference. reference < 2 ^ 32) refs.items) }
{
    let mut refs: Vec<u64> = Vec::new(alloc);
    for op in ops {
        if !has_reference(op) {
            continue;
        }
        refs.push(number_in(world, places, owner, op))?;
    }
    Ok(refs)
}

// Reads the operations of an expression of a valid file, in place of those that are there.
pub(crate) fn read_again(alloc: Global, bytes: &[u8], ops: &mut Vec<Op>) -> Result<(), NoMemory>
    requires valid { IsSomeExpression Narrow bytes.now }
    ensures { OnOk result (IsReadAgain bytes.now ops.new.items) }
{
    ops.clear();
    match push_expr(alloc, bytes, 0, Reach::Narrow, ops) {
        Ok(()) => Ok(()),
        Err(Refusal::NoMemory) => Err(NoMemory),
        // What is an expression has no fault.
        Err(Refusal::Refused(_)) => unreachable!(),
    }
}

// Appends the new bytes of an expression of a list. `ops` is memory that is used again.
fn put_expression(
    alloc: Global,
    out: &mut Vec<u8>,
    world: &World<'_>,
    places: &Vec<Places>,
    owner: Option<u32>,
    bytes: &[u8],
    ops: &mut Vec<Op>,
) -> Result<(), NoMemory>
    requires world { IsWorldOf world.now.image Narrow world.now }
    requires placed { AllHavePlaces world.now places.now.items }
    requires owner { IsOwnedIn world.now owner }
    requires valid { IsSomeExpression Narrow bytes.now }
    ensures { OnOk result (IsExpressionPut world.now places.now.items (owner_in world.now owner) bytes.now out.old.items out.new.items) }
{
    read_again(alloc, bytes, ops)?;
    let refs = new_references(alloc, world, places, owner, ops)?;
    write_shortest(out, ops, &refs, bytes)
}

/// The new expressions of the items of a list, in their order, with the numbers of references at the new places of what these name.
/// Ranges have none. `section` is the body of the section that has the list. The only error is want of memory.
pub(crate) fn new_expressions(
    alloc: Global,
    world: &World<'_>,
    places: &Vec<Places>,
    kind: ListKind,
    list: &ListRead,
    section: &[u8],
) -> Result<NewExpressions, NoMemory>
    requires world { IsWorldOf world.now.image Narrow world.now }
    requires placed { AllHavePlaces world.now places.now.items }
    requires list { Contains (lists_held world.now kind) list.now }
    requires section { section.now ≡ debug_lists world.now.image kind }
    ensures { IfOk result (AreExpressionsFor world.now places.now.items kind list.now) }
{
    let mut new = NewExpressions {
        bytes: Vec::new(alloc),
        ends: Vec::new(alloc),
    };
    if kind == ListKind::Ranges {
        return Ok(new);
    }
    let mut ops: Vec<Op> = Vec::new(alloc);
    for entry in list.entries() {
        if !is_item(entry) {
            continue;
        }
        let bytes = bytes_of(section, entry.expr);
        put_expression(
            alloc,
            &mut new.bytes,
            world,
            places,
            list.owner(),
            bytes,
            &mut ops,
        )?;
        new.ends.push(new.bytes.len() as u32)?;
    }
    Ok(new)
}
