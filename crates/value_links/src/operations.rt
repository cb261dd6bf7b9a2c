// What the operations of expressions refer to.
ghost use Rattle.std.specs.Prelude.{◌≡◌, ◌≤◌, ◌<◌, ◌+◌, ◌^◌, ℕ, List, length, true, IsTrue, OnOk, IfOk, IfErr};
ghost use Rattle.dw_base.specs.Refusals.{IsFaultOf, IsRefusedFor};
ghost use Rattle.dw_base.specs.declared.fault.Reach.TheVariants.{Wide};
ghost use Rattle.expr_ops.specs.Drafts.{has_reference as is_reference};
ghost use Rattle.entry_read.specs.Expressions.{IsExprAt};
ghost use Rattle.value_links.specs.Reading.{Linkable};
ghost use Rattle.value_links.specs.Operations.{NamesUnitEntry, NamesSectionEntry, NamesType};
ghost use Rattle.value_links.specs.Links.{held_at, IsOpLinkFound, IsNamedThing};
ghost use Rattle.value_links.specs.World.{HaveOperations};
ghost use Rattle.value_links.specs.Parts.{AreUnitsHeld, HoldsLists, HoldsParts};
ghost use Rattle.value_links.specs.inside.Links.{entry_link};
ghost use Rattle.value_links.specs.inside.Checks.{AreSomeUnits, InEach, IsAstray, IsExprLinked, IsUnitFault, IsSomeExpressionFault};

use crate::link::{Link, local_target, section_target, unit_of};
use crate::parts::Parts;
use crate::units::Units;
use dw_base::{Fault, Kind, Reach, Refusal, Span};
use entry_arena::{Operations, Target};
use entry_read::read_expressions;
use expr_ops::{
    Named, Op, has_reference, is_generic, named_by, reference_place, references_inside,
    references_named,
};
use std::alloc::Global;

/// What an operation names (DWARF 5 sections 2.5.1.1, 2.5.1.3, 2.5.1.5 and 2.6.1.1).
#[derive(Clone, Copy, Debug, PartialEq, Eq)]
pub enum OpLink {
    /// No other thing.
    Plain,
    /// The generic type, which is the 0 of convert and reinterpret.
    Generic,
    /// An entry: the number of its unit, counted from 0, and its number among the entries of that unit.
    Entry(u32, u32),
}

// What stands in a unit, as what an operation names: an entry alone.
fn entry_in(unit: u32, target: Target) -> Option<OpLink>
    ensures { result ≡ entry_link unit target }
{
    match target {
        Target::Entry(id) => Some(OpLink::Entry(unit, id)),
        Target::ChainEnd(_) => None,
    }
}

// The entry of a unit that stands at a place, counted from the unit's first byte.
fn unit_entry(parts: &Parts<'_>, unit: u32, offset: u64) -> Option<OpLink>
    requires unit { unit < length parts.now.units.units.items }
    ensures { InEach parts.now (λ r. IsNamedThing (NamesUnitEntry r unit offset) result) }
{
    let target = local_target(unit_of(&parts.units, unit), offset)?;
    entry_in(unit, target)
}

// The entry of any unit that stands at a place of .debug_info.
pub(crate) fn section_entry(parts: &Parts<'_>, place: u64) -> Option<OpLink>
    ensures { InEach parts.now (λ r. IsNamedThing (NamesSectionEntry r place) result) }
{
    let link = section_target(&parts.units.units, place)?;
    match link {
        Link::Place(unit, target) => entry_in(unit, target),
        _ => None,
    }
}

// The base type of a unit that an operation names by its place, counted from the unit's first byte, or the generic type.
fn base_type(parts: &Parts<'_>, unit: u32, op: &Op) -> Option<OpLink>
    requires unit { unit < length parts.now.units.units.items }
    ensures { InEach parts.now (λ r. IsNamedThing (NamesType r unit op.now.code op.now.a) result) }
{
    if is_generic(op) {
        Some(OpLink::Generic)
    } else {
        unit_entry(parts, unit, op.a)
    }
}

/// What an operation names that stands in an expression of the unit with this number, counted from 0, or None exactly where it names
/// nothing that it may. It takes no memory.
pub fn resolve_op(parts: &Parts<'_>, unit: u32, op: &Op) -> Option<OpLink>
    requires unit { unit < length parts.now.units.units.items }
    ensures { (file : List ℕ) (r : Linkable) → HoldsParts file r parts.now → IsOpLinkFound r unit op.now result }
{
    match named_by(op.code) {
        Named::Nothing => Some(OpLink::Plain),
        Named::BaseType => base_type(parts, unit, op),
        Named::UnitEntry => unit_entry(parts, unit, op.a),
        Named::SectionEntry => section_entry(parts, op.a),
    }
}

// Whether an operation in an expression of the unit with this number names nothing, though it is to name something. Then it has a
// reference.
pub(crate) fn is_astray(parts: &Parts<'_>, unit: u32, op: &Op) -> bool
    requires unit { unit < length parts.now.units.units.items }
    ensures astray { InEach parts.now (λ r. IsAstray r unit op.now result) }
    ensures reference { IsTrue result → is_reference op.now.code ≡ true }
{
    // What names something has a reference.
    references_named();
    if !has_reference(op) {
        return false;
    }
    resolve_op(parts, unit, op).is_none()
}

// Checks that the operations of an expression of the unit with a number name what they may. The expression is the value with this
// number, and stands at `span`. The place of a fault counts from the section's first byte: that of the reference.
pub(crate) fn check_expression(
    parts: &Parts<'_>,
    unit: u32,
    number: u32,
    span: Span,
) -> Result<(), Fault>
    requires lists { HoldsLists parts.now }
    requires held { AreSomeUnits parts.now.units }
    requires unit { unit < length parts.now.units.units.items }
    requires room { length (held_at parts.now.units.units.items unit).forest.section < 2 ^ 64 }
    requires stands { IsExprAt (held_at parts.now.units.units.items unit).forest number span }
    requires operations { HaveOperations Wide parts.now.units.units.items parts.now.operations.items }
    ensures linked { OnOk result (InEach parts.now (λ r. IsExprLinked r unit number)) }
    ensures fault { IfErr result (λ fault. InEach parts.now (IsUnitFault unit fault)) }
    ensures inside { IfErr result (λ fault. fault.place ≤ length (held_at parts.now.units.units.items unit).forest.section) }
{
    // References stand in their expression.
    references_inside();
    let bytes = unit_of(&parts.units, unit).forest().bytes(span);
    let ops = parts.operations[unit as usize].of_value(number);
    for op in ops.iter() {
        if is_astray(parts, unit, op) {
            return Err(Fault {
                kind: Kind::Target,
                place: span.at + reference_place(op, bytes),
            });
        }
    }
    Ok(())
}

// Reads the operations of the expressions of all units (DWARF 5 sections 2.5, 2.6.1 and 7.7.1). `info` is the body of .debug_info, of
// which the units were read, and `origin` its file offset.
//
// A refusal names a fault of an expression, as `read_expressions` does. `NoMemory` may come wherever memory is wanting.
pub(crate) fn read_operations(
    alloc: Global,
    units: &Units<'_>,
    info: &[u8],
    origin: u64,
    reach: Reach,
) -> Result<Vec<Operations>, Refusal>
    requires held { (abbrevs : List ℕ) × AreUnitsHeld info.now abbrevs units.now }
    requires room { origin + length info.now < 2 ^ 64 }
    ensures read { IfOk result (λ held. HaveOperations reach units.now.units.items held.items) }
    ensures fault { IfErr result (IsRefusedFor (IsFaultOf (IsSomeExpressionFault units.now.units.items reach) origin)) }
{
    let mut held = Vec::new(alloc);
    for number in 0..units.units.len() as u32 {
        let operations = read_expressions(alloc, unit_of(units, number), origin, reach)?;
        held.push(operations)?;
    }
    Ok(held)
}
