// The abbreviation tables that units name.
ghost use Rattle.std.specs.Prelude.{◌≡◌, ◌<◌, ◌+◌, ◌^◌, ◌++◌, ◌∷◌, [], ℕ, length, drop, slice_index, IfOk, IfErr, OnOk};
ghost use Rattle.std.specs.List.{All, Contains};
ghost use Rattle.dw_base.specs.Refusals.{IsFaultOf, IsRefusedFor};
ghost use Rattle.abbrev_tables.specs.Faults.{FaultTable};
ghost use Rattle.value_links.specs.inside.Tabled.{AreTablePlaces, AreNumbers, IsNamed, places_of, named_places};

use crate::units::NamedTable;
use abbrev_tables::Table;
use dw_base::{NoMemory, Refusal};
use entry_read::UnitHead;
use std::alloc::Global;

// The places of the tables that units name, in the order of the units.
fn places_named(alloc: Global, heads: &[UnitHead]) -> Result<Vec<u64>, NoMemory>
    ensures { IfOk result (λ places. places.items ≡ named_places heads.now) }
{
    let places = heads.iter().map(|head| head.table).collect(alloc)?;
    Ok(places)
}

/// The places of the tables that units name, each once, and rising.
pub(crate) fn table_places(alloc: Global, heads: &[UnitHead]) -> Result<Vec<u64>, NoMemory>
    ensures { IfOk result (λ places. AreTablePlaces heads.now places.items) }
{
    let mut places = places_named(alloc, heads)?;
    places.sort_unstable();
    places.dedup();
    Ok(places)
}

// Reads the table at a place.
fn read_named(alloc: Global, place: u64, abbrevs: &[u8], origin: u64) -> Result<NamedTable, Refusal>
    requires inside { place < length abbrevs.now }
    requires room { origin + length abbrevs.now < 2 ^ 64 }
    ensures place { IfOk result (λ named. named.place ≡ place) }
    ensures table { IfOk result (IsNamed abbrevs.now) }
    ensures fault { IfErr result (IsRefusedFor (IsFaultOf (λ kind at. FaultTable kind at (drop place abbrevs.now)) (origin + place))) }
{
    let table = Table::read(alloc, abbrevs, place, origin)?;
    Ok(NamedTable { place, table })
}

// Appends a table.
fn push_table(tables: &mut Vec<NamedTable>, table: NamedTable) -> Result<(), NoMemory>
    ensures { OnOk result (tables.new.items ≡ tables.old.items ++ table ∷ []) }
{
    tables.push(table)?;
    Ok(())
}

/// Reads the tables at places of `abbrevs`, the body of .debug_abbrev, whose first byte has the file offset `origin`. A refusal
/// names a fault of the table at one of the places.
pub(crate) fn read_tables(
    alloc: Global,
    places: &[u64],
    abbrevs: &[u8],
    origin: u64,
) -> Result<Vec<NamedTable>, Refusal>
    requires inside { (place : ℕ) → Contains places.now place → place < length abbrevs.now }
    requires room { origin + length abbrevs.now < 2 ^ 64 }
    ensures places { IfOk result (λ tables. places_of tables.items ≡ places.now) }
    ensures each { IfOk result (λ tables. All (IsNamed abbrevs.now) tables.items) }
    ensures fault { IfErr result (IsRefusedFor (λ fault. (place : ℕ) × Contains places.now place × IsFaultOf (λ kind at. FaultTable kind at (drop place abbrevs.now)) (origin + place) fault)) }
{
    let mut tables: Vec<NamedTable> = Vec::new(alloc);
    for place in places {
        let table = read_named(alloc, *place, abbrevs, origin)?;
        push_table(&mut tables, table)?;
    }
    Ok(tables)
}

// The number of a place among places that rise, which is one of them.
fn number_of(places: &[u64], place: u64) -> u32
    requires few { length places.now < 2 ^ 32 }
    requires rising { (i j : ℕ) → i < j → j < length places.now → slice_index places.now i < slice_index places.now j }
    requires known { Contains places.now place }
    ensures inside { result < length places.now }
    ensures is { slice_index places.now result ≡ place }
{
    places.partition_point(|other| *other < place) as u32
}

// Appends a number.
fn push_number(numbers: &mut Vec<u32>, number: u32) -> Result<(), NoMemory>
    ensures { OnOk result (numbers.new.items ≡ numbers.old.items ++ number ∷ []) }
{
    numbers.push(number)?;
    Ok(())
}

/// For each unit the number of its table, by the places of all tables.
pub(crate) fn table_numbers(
    alloc: Global,
    heads: &[UnitHead],
    places: &[u64],
) -> Result<Vec<u32>, NoMemory>
    requires few { length places.now < 2 ^ 32 }
    requires places { AreTablePlaces heads.now places.now }
    ensures { IfOk result (λ numbers. AreNumbers heads.now places.now numbers.items) }
{
    let mut numbers: Vec<u32> = Vec::new(alloc);
    for head in heads {
        push_number(&mut numbers, number_of(places, head.table))?;
    }
    Ok(numbers)
}
