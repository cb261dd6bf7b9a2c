// Address tables, and the addresses in them.
ghost use Rattle.std.specs.Prelude.{◌≡◌, ◌≤◌, ◌<◌, ◌+◌, ◌^◌, ◌++◌, ◌∷◌, [], List, ℕ, length, OnOk, IfOk, IfErr, MatchOption};
ghost use Rattle.dw_base.specs.Refusals.{IsFaultOf, IsFaulty};
ghost use Rattle.list_model.specs.Addresses.{address_place, address_of, IsAddrTable, TablesFollow, AreAllTables, HasBase};
ghost use Rattle.list_model.specs.Faults.{FaultTable, FaultTables, FaultBefore};

use crate::header::{ADDRESS_SIZE, fault_at, has_header};
use dw_base::{Fault, Kind, NoMemory};
use fixed_width::{end_of_unit, u64_at};
use std::alloc::Global;

/// A table of addresses (DWARF 5 section 7.27).
#[derive(Clone, Copy, Debug, PartialEq, Eq)]
pub struct AddrTable {
    /// The place of its first byte in the section, which is that of its header.
    pub at: u64,
    /// How many addresses it has, each of 8 bytes.
    pub count: u64,
}

// The bytes of a table's header: its length, its version and the sizes of addresses and segment selectors.
const HEADER_SIZE: usize = 8;

// The table at a place, or its fault.
#[tactic(auto, using(crate::proofs::Walking::cut_fault))]
fn table_at(section: &[u8], at: usize, origin: u64) -> Result<AddrTable, Fault>
    requires inside { at ≤ length section.now }
    requires room { origin + length section.now < 2 ^ 64 }
    ensures table { IfOk result (λ table. (table.at ≡ at) × IsAddrTable section.now table) }
    ensures fault { IfErr result (IsFaultOf (FaultTable section.now at) origin) }
{
    let Ok(end) = end_of_unit(section, at) else {
        return Err(fault_at(Kind::Short, origin, at));
    };
    if !has_header(section, at, end, HEADER_SIZE) {
        return Err(fault_at(Kind::ListEntry, origin, at));
    }
    let size = end - at - HEADER_SIZE;
    let cut = size % ADDRESS_SIZE;
    if cut != 0 {
        return Err(fault_at(Kind::Short, origin, end - cut));
    }
    Ok(AddrTable {
        at: at as u64,
        count: (size / ADDRESS_SIZE) as u64,
    })
}

// Where the address with this number stands, and for a table's count where the table ends.
fn place_of(table: &AddrTable, index: u64) -> usize
    requires { address_place table.now.at index < 2 ^ 64 }
    ensures { result ≡ address_place table.now.at index }
{
    table.at as usize + HEADER_SIZE + ADDRESS_SIZE * index as usize
}

/// The address table of `addr`, the body of .debug_addr (DWARF 5 section 7.27), whose addresses begin at the place `base`. Places
/// count from the section's first byte, as DW_AT_addr_base does. Tables stand one after the other, and are walked from there on.
/// A table is met that begins 8 bytes before `base` or earlier; later ones aren't looked at. None comes exactly where no table
/// that is met has a fault and the addresses of none begin at `base`.
///
/// An error comes exactly where a table that is met has a fault, and its place is an offset in the file, in which the section
/// begins at `origin`. A table that leaves the section, or whose length is a reserved one, from 0xfffffff0 on, is Short at its
/// first byte. One that is whole is ListEntry there where its header has another version than 5, another address size than 8 or
/// another segment selector size than 0, and Short or ListEntry there where it is too short for its header. Where the header is
/// in order and the last address is cut, that is Short at this address. It takes no memory.
#[tactic(auto, using(crate::proofs::Walking::base_whole))]
pub fn addr_table(addr: &[u8], base: u64, origin: u64) -> Result<Option<AddrTable>, Fault>
    requires room { origin + length addr.now < 2 ^ 64 }
    ensures table { IfOk result (λ found. MatchOption found ((table : _) → HasBase addr.now base table → ⊥) (HasBase addr.now base)) }
    ensures whole { OnOk result (¬ IsFaulty (FaultBefore addr.now base)) }
    ensures fault { IfErr result (IsFaultOf (FaultBefore addr.now base) origin) }
{
    let mut at = 0;
    while at < addr.len() && (at + HEADER_SIZE) as u64 <= base {
        let table = table_at(addr, at, origin)?;
        if (at + HEADER_SIZE) as u64 == base {
            return Ok(Some(table));
        }
        at = place_of(&table, table.count);
    }
    Ok(None)
}

// Appends a table.
fn push(tables: &mut Vec<AddrTable>, table: AddrTable) -> Result<(), NoMemory>
    ensures { OnOk result (tables.new.items ≡ tables.old.items ++ table ∷ []) }
{
    tables.push(table)?;
    Ok(())
}

/// The address tables of a section, one after the other from its first byte on.
#[derive(Drop)]
pub struct AddrTables {
    /// Those up to the section's end, or up to a table that has a fault.
    pub tables: Vec<AddrTable>,
    /// That fault, or None where the tables fill the section.
    pub fault: Option<Fault>,
}

/// The address tables of `addr`, the body of .debug_addr (DWARF 5 section 7.27), one after the other from its first byte on, up
/// to its end or to a table that has one of the faults that `addr_table` tells, which counts from the section's file offset
/// `origin`. The only error is want of memory.
pub fn addr_tables(alloc: Global, addr: &[u8], origin: u64) -> Result<AddrTables, NoMemory>
    requires room { origin + length addr.now < 2 ^ 64 }
    ensures all { IfOk result (λ read. AreAllTables addr.now read.tables.items) }
    ensures fault { IfOk result (λ read. MatchOption read.fault (TablesFollow addr.now read.tables.items 0 (length addr.now)) (IsFaultOf (FaultTables addr.now) origin)) }
{
    let mut tables = Vec::new(alloc);
    let mut at = 0;
    while at < addr.len() {
        let table = match table_at(addr, at, origin) {
            Ok(table) => table,
            Err(fault) => {
                return Ok(AddrTables {
                    tables,
                    fault: Some(fault),
                });
            }
        };
        push(&mut tables, table)?;
        at = place_of(&table, table.count);
    }
    Ok(AddrTables {
        tables,
        fault: None,
    })
}

/// The one of all tables of a section whose addresses begin at the place `base`, or None exactly where there is none. It takes no
/// memory.
pub fn table_with_base(tables: &[AddrTable], base: u64) -> Option<AddrTable>
    ensures { (addr : List ℕ) → AreAllTables addr tables.now → MatchOption result ((table : AddrTable) → HasBase addr base table → ⊥) (HasBase addr base) }
{
    let at = base.checked_sub(HEADER_SIZE as u64)?;
    match tables.binary_search_by_key(&at, |table| table.at) {
        Ok(number) => Some(tables[number]),
        Err(_) => None,
    }
}

/// The address with the number `index` in a table, counted from 0 (DWARF 5 section 7.27), or None exactly where `index` is the
/// table's count or more. The table is to be one of `addr`, the body of .debug_addr. It takes no memory.
pub fn address(addr: &[u8], table: &AddrTable, index: u64) -> Option<u64>
    requires { IsAddrTable addr.now table.now }
    ensures { MatchOption result (table.now.count ≤ index) (λ address. (index < table.now.count) × (address ≡ address_of addr.now table.now index)) }
{
    if index >= table.count {
        return None;
    }
    Some(u64_at(addr, place_of(table, index)))
}
