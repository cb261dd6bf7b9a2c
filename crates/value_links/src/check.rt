// What all values of a file refer to.
ghost use Rattle.std.specs.Prelude.{◌≡◌, ◌≤◌, ◌<◌, ◌+◌, ◌^◌, ◌↔◌, ℕ, List, OnOk, IfErr, IsTrue, true, length};
ghost use Rattle.dw_base.specs.Refusals.{IsFaultOf};
ghost use Rattle.dw_base.specs.declared.fault.Reach.{Reach};
ghost use Rattle.dw_base.specs.declared.fault.Reach.TheVariants.{Wide};
ghost use Rattle.value_links.specs.World.{HaveOperations};
ghost use Rattle.form_codec.specs.Values.{meant_in, LiesIn};
ghost use Rattle.abbrev_tables.specs.Listings.{Listing, spec_at};
ghost use Rattle.entry_arena.specs.Arena.{entry_at, value_at};
ghost use Rattle.entry_arena.specs.Order.{IsInOrder};
ghost use Rattle.entry_arena.specs.Trees.{declared_at};
ghost use Rattle.entry_read.specs.Units.{declarations_of, IsTable};
ghost use Rattle.value_links.specs.Reading.{Linkable, unit_at};
ghost use Rattle.value_links.specs.Links.{held_at};
ghost use Rattle.value_links.specs.inside.Checks.{AreSomeUnits, table_held, name_at, IsUnitWithTable, root_attributes, IsAttributeAt, IsBaseIn, IsBaseFound, HasBase, IsBaseCause, IsCause, NamesType, IsTyped, IsChecked, IsNoExpr, IsColumnLinked, AreColumnsLinked, IsUnitLinked, InEach, IsUnitFault};
ghost use Rattle.value_links.specs.Whole.{AreFirstBases};
ghost use Rattle.value_links.specs.Laws.{AreLinked};
ghost use Rattle.value_links.specs.Parts.{AreUnitsHeld, HoldsLists, HoldsParts, LinkFault};

use crate::link::{local_target, resolve, unit_of};
use crate::operations::check_expression;
use crate::parts::Parts;
use crate::roots::check_first_base;
use crate::units::Units;
use abbrev_tables::Table;
use dw_base::{Fault, Kind, constants};
use entry_arena::{Forest, Target};
use entry_read::{Unit, place_of_value};
use form_codec::Value;

// Where type_offset stands in a type unit (DWARF 5 section 7.5.1.3).
const TYPE_OFFSET_AT: u64 = 20;

// The table by which a unit was read.
pub(crate) fn table_of<'a>(held: &'a Units<'_>, number: u32) -> &'a Table
    requires held { AreSomeUnits held.now }
    requires number { number < length held.now.units.items }
    ensures table { result.now ≡ table_held held.now number }
    ensures unit { IsUnitWithTable (held_at held.now.units.items number) result.now }
{
    &held.tables[held.table_of[number as usize] as usize].table
}

// The name of a column of a declaration.
pub(crate) fn column_name(table: &Table, number: u32, column: u32) -> u64
    requires table { IsTable table.now }
    requires number { number < length (declarations_of table.now) }
    requires column { column < length (declared_at (declarations_of table.now) number).columns }
    ensures { result ≡ (spec_at (declared_at (declarations_of table.now) number).columns column).name }
{
    table.columns(number)[column as usize].name
}

// How many attributes the root of a unit has.
pub(crate) fn root_count(unit: &Unit<'_>) -> u32
    requires { (table : Listing) × IsUnitWithTable unit.now table }
    ensures { (table : Listing) → IsUnitWithTable unit.now table → result ≡ length (root_attributes unit.now.forest (declarations_of table)) }
{
    unit.forest().entry(0).count
}

// The name and the value of the attribute of an entry of a unit that has this number.
pub(crate) fn attribute_of(unit: &Unit<'_>, table: &Table, id: u32, column: u32) -> (u64, Value)
    requires unit { IsUnitWithTable unit.now table.now }
    requires id { id < length unit.now.forest.entries }
    requires column { column < (entry_at unit.now.forest.entries id).count }
    ensures name { result.0 ≡ name_at (declarations_of table.now) (entry_at unit.now.forest.entries id) column }
    ensures value { result.1 ≡ value_at unit.now.forest.values ((entry_at unit.now.forest.entries id).first + column) }
    ensures lies { LiesIn (length unit.now.forest.section) result.1 }
{
    let forest = unit.forest();
    let entry = forest.entry(id);
    let name = column_name(table, entry.decl, column);
    // Numbers of 32 bits name the values.
    let _count = forest.value_count();
    let value = forest.value(entry.first + column);
    (name, value)
}

// The name and the value of the attribute of the root of a unit that has this number.
pub(crate) fn root_attribute(unit: &Unit<'_>, table: &Table, column: u32) -> (u64, Value)
    requires unit { IsUnitWithTable unit.now table.now }
    requires column { column < length (root_attributes unit.now.forest (declarations_of table.now)) }
    ensures { IsAttributeAt (root_attributes unit.now.forest (declarations_of table.now)) column (result.0, meant_in unit.now.forest.section result.1) }
{
    attribute_of(unit, table, 0, column)
}

// The base of a name that an attribute gives: it has the name, and its value is a section offset.
fn base_in(named: u64, value: &Value, name: u64) -> Option<u64>
    ensures { (section : List ℕ) → IsBaseIn (named, meant_in section value.now) name result }
{
    match *value {
        Value::Offset(place) if named == name => Some(place),
        _ => None,
    }
}

// The first base of this name that the root of a unit gives.
pub(crate) fn base_of(unit: &Unit<'_>, table: &Table, name: u64) -> Option<u64>
    requires { IsUnitWithTable unit.now table.now }
    ensures { IsBaseFound (root_attributes unit.now.forest (declarations_of table.now)) name result }
{
    for column in 0..root_count(unit) {
        let (named, value) = root_attribute(unit, table, column);
        if let Some(base) = base_in(named, &value, name) {
            return Some(base);
        }
    }
    None
}

// Whether the root of a unit gives a base of this name: the attribute with a section offset.
fn gives_base(unit: &Unit<'_>, table: &Table, name: u64) -> bool
    requires { IsUnitWithTable unit.now table.now }
    ensures { IsTrue result ↔ HasBase (root_attributes unit.now.forest (declarations_of table.now)) name }
{
    base_of(unit, table, name).is_some()
}

// Why an index that counts from a base names nothing.
pub(crate) fn base_cause(unit: &Unit<'_>, table: &Table, name: u64) -> Kind
    requires { IsUnitWithTable unit.now table.now }
    ensures { IsBaseCause (root_attributes unit.now.forest (declarations_of table.now)) name result }
{
    if gives_base(unit, table, name) {
        Kind::Pointer
    } else {
        Kind::NoBase
    }
}

// Why a value names nothing, where it does.
fn cause_of(unit: &Unit<'_>, table: &Table, value: &Value) -> Kind
    requires { IsUnitWithTable unit.now table.now }
    ensures { IsCause (root_attributes unit.now.forest (declarations_of table.now)) value.now result }
{
    match *value {
        Value::LocalRef(_) | Value::SectionRef(_) => Kind::Target,
        Value::LocIndex(_) => base_cause(unit, table, constants::DW_AT_LOCLISTS_BASE),
        Value::RangeIndex(_) => base_cause(unit, table, constants::DW_AT_RNGLISTS_BASE),
        _ => Kind::Pointer,
    }
}

// The fault of a value of an entry of the unit with a number, as that of an attribute with a name. The value is no expression.
fn fault_of(parts: &Parts<'_>, number: u32, id: u32, name: u64, value: &Value) -> Option<Kind>
    requires lists { HoldsLists parts.now }
    requires held { AreSomeUnits parts.now.units }
    requires number { number < length parts.now.units.units.items }
    requires id { id < length (held_at parts.now.units.units.items number).forest.entries }
    requires plain { IsNoExpr value.now }
    ensures { InEach parts.now (λ r. IsChecked r number id name (meant_in (unit_at r number).forest.section value.now) result) }
{
    let unit = unit_of(&parts.units, number);
    match resolve(parts, number, id, name, value) {
        Some(_) => None,
        None => Some(cause_of(unit, table_of(&parts.units, number), value)),
    }
}

// The number of the value of a column of an entry, counted over the values of all entries.
fn value_number(forest: &Forest<'_>, id: u32, column: u32) -> u32
    requires id { id < length forest.now.entries }
    requires inside { (entry_at forest.now.entries id).first + column < length forest.now.values }
    ensures { result ≡ (entry_at forest.now.entries id).first + column }
{
    // Numbers of 32 bits name the values.
    let _count = forest.value_count();
    forest.entry(id).first + column
}

// Checks the value of a column of the entry with number `id` of a unit. The place of a fault counts from the section's first byte.
fn check_column(parts: &Parts<'_>, number: u32, id: u32, column: u32) -> Result<(), Fault>
    requires lists { HoldsLists parts.now }
    requires held { AreSomeUnits parts.now.units }
    requires number { number < length parts.now.units.units.items }
    requires id { id < length (held_at parts.now.units.units.items number).forest.entries }
    requires column { column < (entry_at (held_at parts.now.units.units.items number).forest.entries id).count }
    requires room { length (held_at parts.now.units.units.items number).forest.section < 2 ^ 64 }
    requires operations { HaveOperations Wide parts.now.units.units.items parts.now.operations.items }
    ensures linked { OnOk result (InEach parts.now (λ r. IsColumnLinked r number id column)) }
    ensures fault { IfErr result (λ fault. InEach parts.now (IsUnitFault number fault)) }
    ensures inside { IfErr result (λ fault. fault.place ≤ length (held_at parts.now.units.units.items number).forest.section) }
{
    let unit = unit_of(&parts.units, number);
    let table = table_of(&parts.units, number);
    let (name, value) = attribute_of(unit, table, id, column);
    if let Value::Expr(span) = value {
        let own = value_number(unit.forest(), id, column);
        return check_expression(parts, number, own, span);
    }
    match fault_of(parts, number, id, name, &value) {
        Some(kind) => {
            let place = place_of_value(unit, table, id, column);
            Err(Fault { kind, place })
        }
        None => Ok(()),
    }
}

// Checks the values of the entry with number `id` of a unit. The place of a fault counts from the section's first byte.
fn check_entry(parts: &Parts<'_>, number: u32, id: u32) -> Result<(), Fault>
    requires lists { HoldsLists parts.now }
    requires held { AreSomeUnits parts.now.units }
    requires number { number < length parts.now.units.units.items }
    requires id { id < length (held_at parts.now.units.units.items number).forest.entries }
    requires room { length (held_at parts.now.units.units.items number).forest.section < 2 ^ 64 }
    requires operations { HaveOperations Wide parts.now.units.units.items parts.now.operations.items }
    ensures linked { OnOk result (InEach parts.now (λ r. AreColumnsLinked r number id (entry_at (held_at parts.now.units.units.items number).forest.entries id).count)) }
    ensures fault { IfErr result (λ fault. InEach parts.now (IsUnitFault number fault)) }
    ensures inside { IfErr result (λ fault. fault.place ≤ length (held_at parts.now.units.units.items number).forest.section) }
{
    let entry = unit_of(&parts.units, number).forest().entry(id);
    for column in 0..entry.count {
        check_column(parts, number, id, column)?;
    }
    Ok(())
}

// Whether the type_offset of a unit names an entry.
fn names_type(unit: &Unit<'_>) -> bool
    ensures { IsInOrder unit.now.forest → IsTrue result ↔ NamesType unit.now }
{
    let Some(target) = local_target(unit, unit.head().type_at) else {
        return false;
    };
    match target {
        Target::Entry(_) => true,
        Target::ChainEnd(_) => false,
    }
}

// Whether a unit that is a type unit has the entry of its type.
fn is_typed(unit: &Unit<'_>) -> bool
    ensures { IsInOrder unit.now.forest → IsTyped unit.now result }
{
    unit.head().kind != constants::DW_UT_TYPE || names_type(unit)
}

// Checks the values of a unit, the type of a type unit, and the first base of its lists. The place of a fault counts from the
// section's first byte.
fn check_unit(parts: &Parts<'_>, number: u32) -> Result<(), Fault>
    requires lists { HoldsLists parts.now }
    requires held { AreSomeUnits parts.now.units }
    requires number { number < length parts.now.units.units.items }
    requires room { length (held_at parts.now.units.units.items number).forest.section < 2 ^ 64 }
    requires operations { HaveOperations Wide parts.now.units.units.items parts.now.operations.items }
    ensures linked { OnOk result (InEach parts.now (λ r. IsUnitLinked r number)) }
    ensures fault { IfErr result (λ fault. InEach parts.now (IsUnitFault number fault)) }
    ensures inside { IfErr result (λ fault. fault.place ≤ length (held_at parts.now.units.units.items number).forest.section) }
{
    let unit = unit_of(&parts.units, number);
    for id in 0..unit.forest().len() {
        check_entry(parts, number, id)?;
    }
    if !is_typed(unit) {
        return Err(Fault {
            kind: Kind::Target,
            place: unit.head().at + TYPE_OFFSET_AT,
        });
    }
    check_first_base(parts, number)
}

/// Whether each value of the units refers to what it may (DWARF 5 sections 7.5.4 and 7.5.5), each type unit names an entry, and each
/// first base of lists that is the number of an address is one of the unit's address table (sections 3.1.1 and 7.27). So it is asked
/// of each operation of an expression too (section 2.5).
/// `info` is the body of .debug_info, of which the units were read by the tables of `abbrevs`, and `origin` its file offset.
///
/// A fault stands at the first byte of a value: Target where a reference has no target, Pointer where a section offset names
/// nothing that its attribute's class allows, an index counts from such a base, or it is past the slots of its base, and NoBase where
/// an index has no base. Of view pairs Pointer says that the entry has no location list, or that they aren't in its contribution. At
/// the DW_AT_low_pc that gives the number of an address it is NoBase where the root names no table, and Pointer where the table has no
/// such address. Target stands at the field type_offset that names no entry, and at the reference of an operation that names no entry
/// that it may.
pub fn check_links(parts: &Parts<'_>, info: &[u8], abbrevs: &[u8], origin: u64) -> Result<(), Fault>
    requires lists { HoldsLists parts.now }
    requires held { AreUnitsHeld info.now abbrevs.now parts.now.units }
    requires room { origin + length info.now < 2 ^ 64 }
    requires operations { HaveOperations Wide parts.now.units.units.items parts.now.operations.items }
    ensures linked { OnOk result ((file : List ℕ) (r : Linkable) → HoldsParts file r parts.now → AreLinked r) }
    ensures based { OnOk result ((file : List ℕ) (r : Linkable) → HoldsParts file r parts.now → AreFirstBases r) }
    ensures fault { IfErr result (λ fault. (file : List ℕ) (r : Linkable) (reach : Reach) → HoldsParts file r parts.now → IsFaultOf (LinkFault r reach) origin fault) }
{
    for number in 0..parts.units.units.len() as u32 {
        match check_unit(parts, number) {
            Ok(()) => {}
            Err(fault) => {
                return Err(Fault {
                    kind: fault.kind,
                    place: origin + fault.place,
                });
            }
        }
    }
    Ok(())
}
