// What roots give for lists: the first base, and the address tables that entries name (DWARF 5 sections 3.1.1 and 7.27).
ghost use Rattle.std.specs.Prelude.{◌≡◌, ◌≢◌, ◌≤◌, ◌<◌, ◌↔◌, ℕ, List, length, IsTrue, IfErr, OnOk, MatchOption};
ghost use Rattle.form_codec.specs.declared.value.Value.TheVariants.{AddrIndex};
ghost use Rattle.value_links.specs.Reading.{Linkable, unit_at};
ghost use Rattle.value_links.specs.Values.{root_of};
ghost use Rattle.value_links.specs.Contexts.{IsTableOf};
ghost use Rattle.value_links.specs.Linked.{HasAddress, IsFirstLow};
ghost use Rattle.value_links.specs.LinkFaults.{FaultNumber, FaultLow};
ghost use Rattle.value_links.specs.Whole.{HasAddrBase};
ghost use Rattle.value_links.specs.Links.{held_at};
ghost use Rattle.value_links.specs.Parts.{HoldsParts};
ghost use Rattle.value_links.specs.inside.Checks.{AreSomeUnits, IsUnitWithTable, IsAddrBase, HasAddrBaseIn, HasSomeAddrBase, InEach};

use crate::check::{attribute_of, base_cause, root_attribute, table_of};
use crate::contexts::first_low_pc;
use crate::link::unit_of;
use crate::parts::Parts;
use abbrev_tables::Table;
use dw_base::constants::DW_AT_ADDR_BASE;
use dw_base::{Fault, Kind};
use entry_read::{Unit, place_of_value};
use form_codec::Value;
use list_model::AddrTable;

// The address table that the root of the unit with a number names.
fn addresses_for(parts: &Parts<'_>, number: u32) -> Option<AddrTable>
    requires { number < length parts.now.units.units.items }
    ensures { InEach parts.now (λ r. IsTableOf r.addresses (root_of (unit_at r number)).attributes result) }
{
    parts.contexts.get(number as usize)?.table
}

// Why the number of an address can't be looked up, where it can't: the root of the unit with a number names no table, or the table
// has no such address.
fn number_fault(parts: &Parts<'_>, number: u32, index: u64) -> Option<Kind>
    requires held { AreSomeUnits parts.now.units }
    requires number { number < length parts.now.units.units.items }
    ensures { InEach parts.now (λ r. MatchOption result (HasAddress r number index) (FaultNumber r number index)) }
{
    let Some(addresses) = addresses_for(parts, number) else {
        let unit = unit_of(&parts.units, number);
        return Some(base_cause(unit, table_of(&parts.units, number), DW_AT_ADDR_BASE));
    };
    if index < addresses.count {
        None
    } else {
        Some(Kind::Pointer)
    }
}

// The number of an address, where a value is one.
fn number_in(value: &Value) -> Option<u64>
    ensures { MatchOption result ((i : ℕ) → value.now ≢ AddrIndex i) (λ i. value.now ≡ AddrIndex i) }
{
    match *value {
        Value::AddrIndex(index) => Some(index),
        _ => None,
    }
}

/// Checks the first base of the lists of a unit, where it is the number of an address. The place of a fault is the first byte of the
/// value, and counts from the section's first byte.
pub(crate) fn check_first_base(parts: &Parts<'_>, number: u32) -> Result<(), Fault>
    requires held { AreSomeUnits parts.now.units }
    requires number { number < length parts.now.units.units.items }
    ensures found { OnOk result (InEach parts.now (λ r. (i place : ℕ) → IsFirstLow r number i place → HasAddress r number i)) }
    ensures fault { IfErr result (λ fault. InEach parts.now (λ r. FaultLow r number fault.kind fault.place)) }
    ensures inside { IfErr result (λ fault. fault.place ≤ length (held_at parts.now.units.units.items number).forest.section) }
{
    let unit = unit_of(&parts.units, number);
    let table = table_of(&parts.units, number);
    let Some(column) = first_low_pc(unit, table) else {
        return Ok(());
    };
    let Some(index) = number_in(&root_attribute(unit, table, column).1) else {
        return Ok(());
    };
    match number_fault(parts, number, index) {
        None => Ok(()),
        Some(kind) => Err(Fault {
            kind,
            place: place_of_value(unit, table, 0, column),
        }),
    }
}

// Whether an attribute is a DW_AT_addr_base that is a section offset.
fn is_addr_base(named: u64, value: &Value) -> bool
    ensures { IsTrue result ↔ IsAddrBase named value.now }
{
    match *value {
        Value::Offset(_) => named == DW_AT_ADDR_BASE,
        _ => false,
    }
}

// Whether an entry of a unit has such an attribute.
fn entry_names_addresses(unit: &Unit<'_>, table: &Table, id: u32) -> bool
    requires unit { IsUnitWithTable unit.now table.now }
    requires id { id < length unit.now.forest.entries }
    ensures { IsTrue result ↔ HasAddrBaseIn unit.now table.now id }
{
    for column in 0..unit.forest().entry(id).count {
        let (named, value) = attribute_of(unit, table, id, column);
        if is_addr_base(named, &value) {
            return true;
        }
    }
    false
}

// Whether some entry of a unit has one.
fn unit_names_addresses(unit: &Unit<'_>, table: &Table) -> bool
    requires unit { IsUnitWithTable unit.now table.now }
    ensures { IsTrue result ↔ HasSomeAddrBase unit.now table.now }
{
    for id in 0..unit.forest().len() {
        if entry_names_addresses(unit, table, id) {
            return true;
        }
    }
    false
}

/// Whether some entry has a DW_AT_addr_base that is a section offset, so that address tables are to fill .debug_addr.
pub(crate) fn names_addresses(parts: &Parts<'_>) -> bool
    requires held { AreSomeUnits parts.now.units }
    ensures { (file : List ℕ) (r : Linkable) → HoldsParts file r parts.now → IsTrue result ↔ HasAddrBase r.units }
{
    let held = &parts.units;
    for number in 0..held.units.len() as u32 {
        if unit_names_addresses(unit_of(held, number), table_of(held, number)) {
            return true;
        }
    }
    false
}
