// The context in which the lists of a unit are read: what its root gives (DWARF 5 sections 2.17.3, 3.1.1 and 7.27).
ghost use Rattle.std.specs.Prelude.{◌≡◌, ◌<◌, ℕ, List, [], length, filter, IfOk, IfSome, MatchOption};
ghost use Rattle.form_codec.specs.Forms.{Meaning};
ghost use Rattle.form_codec.specs.Forms.Meaning.{AddressNumber};
ghost use Rattle.form_codec.specs.Values.{meant_in};
ghost use Rattle.entry_read.specs.Units.{declarations_of};
ghost use Rattle.list_model.specs.Addresses.{IsAddrTable, AreAllTables};
ghost use Rattle.value_links.specs.inside.Checks.{AreSomeUnits, IsUnitWithTable, IsFirstLowIn, root_attributes, AreContextsHeld};
ghost use Rattle.value_links.specs.Contexts.{is_low_pc, low_pcs, address_by, IsTableOf, IsContext};

use crate::check::{base_of, root_attribute, root_count, table_of};
use crate::link::unit_of;
use crate::units::Units;
use abbrev_tables::Table;
use dw_base::NoMemory;
use dw_base::constants::{DW_AT_ADDR_BASE, DW_AT_LOW_PC};
use entry_read::Unit;
use form_codec::Value;
use list_model::{AddrTable, Context, address, table_with_base};
use std::alloc::Global;

// Whether an attribute is a DW_AT_low_pc whose value is an address, or the number of one.
fn gives_address(named: u64, value: &Value) -> bool
    ensures { (section : List ℕ) → result ≡ is_low_pc (named, meant_in section value.now) }
{
    match *value {
        Value::Addr(_) | Value::AddrIndex(_) => named == DW_AT_LOW_PC,
        _ => false,
    }
}

// The number of the first such attribute of the root of a unit.
pub(crate) fn first_low_pc(unit: &Unit<'_>, table: &Table) -> Option<u32>
    requires { IsUnitWithTable unit.now table.now }
    ensures { MatchOption result (filter is_low_pc (root_attributes unit.now.forest (declarations_of table.now)) ≡ []) (IsFirstLowIn (root_attributes unit.now.forest (declarations_of table.now))) }
{
    for column in 0..root_count(unit) {
        let (named, value) = root_attribute(unit, table, column);
        if gives_address(named, &value) {
            return Some(column);
        }
    }
    None
}

// The address with a number in a table, or 0 where there is none.
fn address_or_zero(addr: &[u8], addresses: &Option<AddrTable>, index: u64) -> u64
    requires { IfSome addresses.now (IsAddrTable addr.now) }
    ensures { result ≡ address_by addr.now addresses.now (AddressNumber index) }
{
    let Some(table) = *addresses else {
        return 0;
    };
    match address(addr, &table, index) {
        Some(address) => address,
        None => 0,
    }
}

// The address that a value gives: the address itself, or the one with a number.
fn address_for(addr: &[u8], addresses: &Option<AddrTable>, value: &Value) -> u64
    requires { IfSome addresses.now (IsAddrTable addr.now) }
    ensures { (section : List ℕ) → result ≡ address_by addr.now addresses.now (meant_in section value.now) }
{
    match *value {
        Value::Addr(address) => address,
        Value::AddrIndex(index) => address_or_zero(addr, addresses, index),
        _ => 0,
    }
}

// The address table that the root of a unit names. `tables` are those of .debug_addr.
fn addresses_of(tables: &[AddrTable], unit: &Unit<'_>, table: &Table) -> Option<AddrTable>
    requires { IsUnitWithTable unit.now table.now }
    ensures { (addr : List ℕ) → AreAllTables addr tables.now → IsTableOf addr (root_attributes unit.now.forest (declarations_of table.now)) result }
{
    let base = base_of(unit, table, DW_AT_ADDR_BASE)?;
    table_with_base(tables, base)
}

// The context of the lists of a unit that was read by a table. `tables` are those of .debug_addr.
fn context_of(addr: &[u8], tables: &[AddrTable], unit: &Unit<'_>, table: &Table) -> Context
    requires tables { AreAllTables addr.now tables.now }
    requires unit { IsUnitWithTable unit.now table.now }
    ensures { IsContext addr.now (root_attributes unit.now.forest (declarations_of table.now)) result }
{
    let addresses = addresses_of(tables, unit, table);
    let base = match first_low_pc(unit, table) {
        Some(column) => address_for(addr, &addresses, &root_attribute(unit, table, column).1),
        None => 0,
    };
    Context {
        base,
        table: addresses,
    }
}

/// Of each unit the context of its lists. `addr` is the body of .debug_addr, and `tables` are its address tables. The only error is
/// want of memory.
pub(crate) fn contexts_of(
    alloc: Global,
    addr: &[u8],
    tables: &[AddrTable],
    held: &Units<'_>,
) -> Result<Vec<Context>, NoMemory>
    requires tables { AreAllTables addr.now tables.now }
    requires held { AreSomeUnits held.now }
    ensures { IfOk result (λ contexts. AreContextsHeld addr.now held.now contexts.items) }
{
    let mut contexts = Vec::new(alloc);
    for number in 0..held.units.len() as u32 {
        let unit = unit_of(held, number);
        contexts.push(context_of(addr, tables, unit, table_of(held, number)))?;
    }
    Ok(contexts)
}
