// The expressions of location lists (DWARF 5 sections 2.6.2 and 7.7.3).
ghost use Rattle.std.specs.Prelude.{◌≡◌, ◌≤◌, ◌<◌, ◌+◌, ◌⊎◌, ◌^◌, ◌↔◌, ℕ, Option, Bool, length, true, Some, None, IsTrue, OnOk, IfErr};
ghost use Rattle.std.specs.List.{All};
ghost use Rattle.dw_base.specs.Refusals.{IsFaultOf, IsRefusedFor};
ghost use Rattle.expr_ops.specs.Drafts.{has_reference as is_reference};
ghost use Rattle.value_links.specs.Parts.{HoldsLists};
ghost use Rattle.value_links.specs.ListFaults.{IsAstrayIn};
ghost use Rattle.value_links.specs.inside.Checks.{InEach};
ghost use Rattle.value_links.specs.inside.Namings.{slot_number, first_naming};
ghost use Rattle.value_links.specs.inside.ListExpressions.{IsOwnerBy, IsTorn, OpCounts, IsExprRead, FaultExprBy, AreExprsRead, FaultExpressionsBy};
ghost use Rattle.list_model.specs.declared.entry.ListKind.TheVariants.{Locations};

use crate::namings::{Naming, SLOT};
use crate::operations::{is_astray, section_entry};
use crate::parts::Parts;
use dw_base::{Fault, Kind, Reach, Refusal};
use expr_ops::{
    Named, Op, is_generic, named_by, push_expr, reference_place, references_inside,
    references_named,
};
use list_model::RawEntry;
use loc_lists::{bytes_of, is_item};
use std::alloc::Global;

/// The unit that owns a list: the first of those that name it, or None where a slot stands first.
pub(crate) fn owner_of(named: &[Naming]) -> Option<u32>
    requires { 0 < length named.now }
    ensures { IsOwnerBy named.now result }
{
    let (_, unit) = named[0];
    if unit == SLOT { None } else { Some(unit) }
}

// Whether no unit names a list, or more than one.
fn is_torn(named: &[Naming]) -> bool
    requires { 0 < length named.now }
    ensures { IsTrue result ↔ IsTorn named.now }
{
    let (_, first) = named[0];
    first == SLOT
        || named
            .iter()
            .any(|naming| naming.1 != SLOT && naming.1 != first)
}

// Whether what an operation names counts from the first byte of its unit.
fn counts_in_unit(op: &Op) -> bool
    ensures { IsTrue result ↔ OpCounts op.now }
{
    match named_by(op.code) {
        Named::BaseType => !is_generic(op),
        Named::UnitEntry => true,
        Named::Nothing | Named::SectionEntry => false,
    }
}

// Whether an operation of an expression of a list names nothing, though it is to name something. Where no unit owns the list this is
// asked only of what counts from the first byte of .debug_info.
fn is_astray_in(parts: &Parts<'_>, owner: Option<u32>, op: &Op) -> bool
    requires owner { (u : ℕ) → owner ≡ Some u → u < length parts.now.units.units.items }
    ensures astray { IsTrue result → InEach parts.now (λ r. IsAstrayIn r owner op.now.code op.now.a) }
    ensures linked { ¬ IsTrue result → InEach parts.now (λ r. ¬ IsAstrayIn r owner op.now.code op.now.a) }
    ensures reference { IsTrue result → is_reference op.now.code ≡ true }
{
    // What names something has a reference.
    references_named();
    match owner {
        Some(unit) => is_astray(parts, unit, op),
        None => { named_by(op.code) == Named::SectionEntry && section_entry(parts, op.a).is_none() }
    }
}

// What is known of a list while its expressions are read.
#[derive(Clone, Copy)]
struct OfList {
    // The unit that owns it.
    owner: Option<u32>,
    // Whether no unit names it, or more than one.
    torn: bool,
    // Where it begins in the file.
    place: u64,
}

// Reads an expression of a list, which is torn where it has no owner. It stands at `from` in the file. `ops` is memory that is used
// again.
fn read_expression(
    alloc: Global,
    parts: &Parts<'_>,
    list: &OfList,
    bytes: &[u8],
    from: u64,
    reach: Reach,
    ops: &mut Vec<Op>,
) -> Result<(), Refusal>
    requires owner { (u : ℕ) → list.now.owner ≡ Some u → u < length parts.now.units.units.items }
    requires alone { list.now.owner ≡ None → list.now.torn ≡ true }
    requires room { from + length bytes.now < 2 ^ 64 }
    ensures read { OnOk result (InEach parts.now (λ r. IsExprRead r list.now.owner list.now.torn reach bytes.now)) }
    ensures fault { IfErr result (IsRefusedFor (λ fault. InEach parts.now (λ r. FaultExprBy r list.now.owner list.now.torn reach bytes.now from list.now.place fault.kind fault.place))) }
{
    // References stand in their expression.
    references_inside();
    ops.clear();
    push_expr(alloc, bytes, from, reach, ops)?;
    for op in ops.iter() {
        if list.torn && counts_in_unit(op) {
            return Err(Refusal::Refused(Fault {
                kind: Kind::ListShared,
                place: list.place,
            }));
        }
        if is_astray_in(parts, list.owner, op) {
            return Err(Refusal::Refused(Fault {
                kind: Kind::Target,
                place: from + reference_place(op, bytes),
            }));
        }
    }
    Ok(())
}

/// Reads the expressions of the location list that all of these name, whose entries are `raw`. `section` is the body of .debug_loclists,
/// whose file offset is `origin`.
///
/// A refusal names a fault of the list: that of an expression, as `read_expr` tells it; Target where an operation names no entry that it
/// may, at its reference; or ListShared where an operation counts in a unit and not exactly one unit names the list, at the list.
pub(crate) fn check_expressions(
    alloc: Global,
    parts: &Parts<'_>,
    named: &[Naming],
    raw: &Vec<RawEntry>,
    section: &[u8],
    origin: u64,
    reach: Reach,
) -> Result<(), Refusal>
    requires lists { HoldsLists parts.now }
    requires some { 0 < length named.now }
    requires known { (first_naming named.now).1 < length parts.now.units.units.items ⊎ ((first_naming named.now).1 ≡ slot_number) }
    requires inside { All (λ raw. raw.expr.at + raw.expr.len ≤ length section.now) raw.now.items }
    requires here { (first_naming named.now).0 ≤ length section.now }
    requires room { origin + length section.now < 2 ^ 64 }
    ensures read { OnOk result (InEach parts.now (λ r. (owner : Option ℕ) (torn : Bool) → IsOwnerBy named.now owner → (torn ≡ true) ↔ IsTorn named.now → AreExprsRead Locations section.now r owner torn reach raw.now.items)) }
    ensures fault { IfErr result (λ refusal. InEach parts.now (λ r. IsRefusedFor (IsFaultOf (FaultExpressionsBy Locations section.now named.now reach raw.now.items r) origin) refusal)) }
{
    let list = OfList {
        owner: owner_of(named),
        torn: is_torn(named),
        place: origin + named[0].0,
    };
    let mut ops: Vec<Op> = Vec::new(alloc);
    for entry in raw.iter() {
        if !is_item(entry) {
            continue;
        }
        let bytes = bytes_of(section, entry.expr);
        let from = origin + entry.expr.at;
        read_expression(alloc, parts, &list, bytes, from, reach, &mut ops)?;
    }
    Ok(())
}
