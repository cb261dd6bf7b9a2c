// The numbers of lists and of their expressions.
ghost use Rattle.std.specs.Prelude.{IfOk, OnOk};
ghost use Rattle.std.specs.List.{All};
ghost use Rattle.dw_base.specs.declared.fault.Reach.{Reach as AnyReach};
ghost use Rattle.dw_base.specs.declared.fault.Reach.TheVariants.{Wide};
ghost use Rattle.list_model.specs.declared.entry.ListKind.TheVariants.{Locations};
ghost use Rattle.value_links.specs.Operations.{IsSomeExpression};
ghost use Rattle.value_links.specs.World.{IsWorldOf};
ghost use Rattle.tidy_places.specs.Firsts.{IsLeastFound};
ghost use Rattle.tidy_numbers.specs.LongLists.{AreLongOperandsOf, IsLongLength, HoldsBehindCode, is_owned, IsLongInLists};
ghost use Rattle.tidy_numbers.specs.inside.Expressions.{AreOperationsOf};
ghost use Rattle.tidy_numbers.specs.inside.Held.{OfReading};
ghost use Rattle.tidy_numbers.specs.inside.ListEntries.{EntryStands, LengthStands, ExpressionStands, ListStands, HoldsAmong, IsLongInItem, IsLongInOperands, IsLongInUnnamed, IsLongInLocations, IsLongInHeld};

use crate::fronts::earlier;
use crate::list_operands::{first_in_entry, long_length};
use crate::operations::first_at;
use dw_base::{Classes, NoMemory, Reach, Refusal};
use expr_ops::{Op, never_both, push_expr};
use list_arena::ListRead;
use list_model::{ListKind, Meaning, RawEntry};
use loc_lists::{bytes_of, is_item};
use std::alloc::Global;
use value_links::World;

// The first operand of some entries with a byte too many.
fn first_operand_in(section: &[u8], kind: ListKind, raws: &[RawEntry]) -> Option<u64>
    requires { All (EntryStands kind section.now) raws.now }
    ensures { IsLeastFound (HoldsAmong (HoldsBehindCode AreLongOperandsOf kind section.now) raws.now) result }
{
    let mut found = None;
    for raw in raws {
        found = earlier(found, first_in_entry(section, kind, raw));
    }
    found
}

// The first operand of a list, if it is kept.
fn first_in_kept(classes: Classes, section: &[u8], kind: ListKind, list: &ListRead) -> Option<u64>
    requires { All (EntryStands kind section.now) list.now.raw }
    ensures { IsLeastFound (IsLongInOperands classes kind section.now list.now) result }
{
    if classes.lists && matches!(list.meaning(), Meaning::Live(_)) {
        return None;
    }
    first_operand_in(section, kind, list.entries())
}

// The first length of an expression of some entries of location lists with a byte too many.
fn first_length_in(section: &[u8], raws: &[RawEntry]) -> Option<u64>
    requires entries { All (EntryStands Locations section.now) raws.now }
    requires lengths { All (LengthStands section.now) raws.now }
    ensures { IsLeastFound (HoldsAmong (HoldsBehindCode IsLongLength Locations section.now) raws.now) result }
{
    let mut found = None;
    for raw in raws {
        found = earlier(found, long_length(section, raw));
    }
    found
}

// The first length of an expression of a location list, if no entry names it.
fn first_in_unnamed(section: &[u8], list: &ListRead) -> Option<u64>
    requires entries { All (EntryStands Locations section.now) list.now.raw }
    requires lengths { All (LengthStands section.now) list.now.raw }
    ensures { IsLeastFound (IsLongInUnnamed section.now list.now) result }
{
    match list.owner() {
        None => first_length_in(section, list.entries()),
        Some(_) => None,
    }
}

// Reads the operations of an expression of a valid file, in place of those that are there.
fn read_again(alloc: Global, bytes: &[u8], ops: &mut Vec<Op>) -> Result<(), NoMemory>
    requires { IsSomeExpression Wide bytes.now }
    ensures { OnOk result (AreOperationsOf bytes.now ops.new.items) }
{
    // What is an expression has no fault.
    never_both();
    ops.clear();
    match push_expr(alloc, bytes, 0, Reach::Wide, ops) {
        Ok(()) => Ok(()),
        Err(Refusal::NoMemory) => Err(NoMemory),
        Err(Refusal::Refused(_)) => unreachable!(),
    }
}

// The first number of the expression of an entry of a location list, if it has one. `ops` is memory for operations, which is used again.
fn first_in_item(
    alloc: Global,
    section: &[u8],
    raw: &RawEntry,
    owned: bool,
    ops: &mut Vec<Op>,
) -> Result<Option<u64>, NoMemory>
    requires { ExpressionStands section.now raw.now }
    ensures { IfOk result (IsLeastFound (IsLongInItem owned section.now raw.now)) }
{
    if !is_item(raw) {
        return Ok(None);
    }
    read_again(alloc, bytes_of(section, raw.expr), ops)?;
    Ok(first_at(section, raw.expr, ops, owned))
}

// The first number of the expressions of some entries of location lists.
fn first_in_items(
    alloc: Global,
    section: &[u8],
    raws: &[RawEntry],
    owned: bool,
    ops: &mut Vec<Op>,
) -> Result<Option<u64>, NoMemory>
    requires { All (ExpressionStands section.now) raws.now }
    ensures { IfOk result (IsLeastFound (HoldsAmong (IsLongInItem owned section.now) raws.now)) }
{
    let mut found = None;
    for raw in raws {
        found = earlier(found, first_in_item(alloc, section, raw, owned, ops)?);
    }
    Ok(found)
}

// The first number of a location list but for its operands.
fn first_in_locations(
    alloc: Global,
    section: &[u8],
    list: &ListRead,
    ops: &mut Vec<Op>,
) -> Result<Option<u64>, NoMemory>
    requires { ListStands Locations section.now list.now }
    ensures { IfOk result (IsLeastFound (IsLongInLocations section.now list.now)) }
{
    let length = first_in_unnamed(section, list);
    let inside = first_in_items(alloc, section, list.entries(), list.owner().is_some(), ops)?;
    Ok(earlier(length, inside))
}

// The first number of a list.
fn first_in_list(
    alloc: Global,
    classes: Classes,
    section: &[u8],
    kind: ListKind,
    list: &ListRead,
    ops: &mut Vec<Op>,
) -> Result<Option<u64>, NoMemory>
    requires { ListStands kind section.now list.now }
    ensures { IfOk result (IsLeastFound (IsLongInHeld classes kind section.now list.now)) }
{
    let operand = first_in_kept(classes, section, kind, list);
    match kind {
        ListKind::Ranges => Ok(operand),
        ListKind::Locations => Ok(earlier(operand, first_in_locations(alloc, section, list, ops)?)),
    }
}

/// The first number of the lists of a kind with a byte too many, by its place in their section.
pub(crate) fn first_in_lists(
    alloc: Global,
    classes: Classes,
    world: &World<'_>,
    kind: ListKind,
) -> Result<Option<u64>, NoMemory>
    requires { (reach : AnyReach) × IsWorldOf world.now.image reach world.now }
    ensures { IfOk result (λ place. OfReading world.now (λ s. IsLeastFound (IsLongInLists classes s kind) place)) }
{
    let section = world.lists_section(kind);
    let mut ops = Vec::new(alloc);
    let mut found = None;
    let lists = world.lists(kind);
    for number in 0..lists.len() {
        let list = lists.list(alloc, number)?;
        found = earlier(
            found,
            first_in_list(alloc, classes, section, kind, &list, &mut ops)?,
        );
    }
    Ok(found)
}
