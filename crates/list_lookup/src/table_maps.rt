// The maps of the address tables that units name.
ghost use Rattle.std.specs.Prelude.{◌≡◌, ℕ, List, length, IfOk};
ghost use Rattle.dw_base.specs.declared.fault.Reach.{Reach};
ghost use Rattle.list_least.specs.Maps.{IsMapOf};
ghost use Rattle.value_links.specs.Sections.{debug_addr};
ghost use Rattle.value_links.specs.World.{World as AnyWorld, IsWorldOf};
ghost use Rattle.list_lookup.specs.Maps.{AreAllTables, AreTablesIn, AreMapsFor, IsContextIn};

use dw_base::NoMemory;
use list_least::AddressMap;
use list_model::{AddrTable, Context};
use std::alloc::Global;
use value_links::World;

// The map of an address table, by which the indexes of its addresses are looked up.
#[derive(Drop)]
struct TableMap {
    // Where the table begins in .debug_addr.
    at: u64,
    map: AddressMap,
}

/// The maps of the address tables that units name, each once, by rising place, and that of no table.
#[derive(Drop)]
pub struct TableMaps {
    tables: Vec<TableMap>,
    none: AddressMap,
}

// The tables of the contexts of all units, in the order of the units.
fn all_tables(alloc: Global, world: &World<'_>) -> Result<Vec<(u64, u64)>, NoMemory>
    requires world { (reach : Reach) × IsWorldOf world.now.image reach world.now }
    ensures { IfOk result (λ tables. AreTablesIn world.now (length world.now.units) tables.items) }
{
    let mut tables: Vec<(u64, u64)> = Vec::new(alloc);
    for unit in 0..world.units().len() {
        if let Some(table) = world.context(unit as u32).table {
            tables.push((table.at, table.count))?;
        }
    }
    Ok(tables)
}

// The same, each once, by rising place.
fn tables_of(alloc: Global, world: &World<'_>) -> Result<Vec<(u64, u64)>, NoMemory>
    requires world { (reach : Reach) × IsWorldOf world.now.image reach world.now }
    ensures { IfOk result (λ tables. AreAllTables world.now tables.items) }
{
    let mut tables = all_tables(alloc, world)?;
    tables.sort_unstable();
    tables.dedup();
    Ok(tables)
}

impl TableMaps {
    /// The maps of the tables that the units of a file name.
    pub fn new(alloc: Global, world: &World<'_>, addr: &[u8]) -> Result<TableMaps, NoMemory>
        requires world { (reach : Reach) × IsWorldOf world.now.image reach world.now }
        requires addr { addr.now ≡ debug_addr world.now.image }
        ensures { IfOk result (AreMapsFor world.now addr.now) }
    {
        let named = tables_of(alloc, world)?;
        let mut tables: Vec<TableMap> = Vec::new(alloc);
        for pair in named.iter() {
            let table = AddrTable {
                at: pair.0,
                count: pair.1,
            };
            let map = AddressMap::new(alloc, addr, &Some(table))?;
            tables.push(TableMap { at: table.at, map })?;
        }
        let none = AddressMap::new(alloc, addr, &None)?;
        Ok(TableMaps { tables, none })
    }

    /// The map of the table of a context.
    pub fn of(&self, context: &Context) -> &AddressMap
        requires { (world : AnyWorld) × (addr : List ℕ) × AreMapsFor world addr self.now × IsContextIn world context.now }
        ensures { (world : AnyWorld) (addr : List ℕ) → AreMapsFor world addr self.now → IsContextIn world context.now → IsMapOf addr context.now.table result.now }
    {
        let Some(table) = context.table else {
            return &self.none;
        };
        match self
            .tables
            .binary_search_by_key(&table.at, |named| named.at)
        {
            Ok(number) => &self.tables[number].map,
            // Each context is that of a unit.
            Err(_) => unreachable!(),
        }
    }
}
