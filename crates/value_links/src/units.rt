// The units of a file, with the abbreviation tables that they name.
ghost use Rattle.std.specs.Prelude.{◌≡◌, ◌≤◌, ◌<◌, ◌+◌, ◌^◌, ◌++◌, ◌∷◌, [], ℕ, List, length, OnOk, IfOk, IfErr};
ghost use Rattle.std.specs.List.{All};
ghost use Rattle.dw_base.specs.Refusals.{IsFaultOf, IsRefusedFor};
ghost use Rattle.dw_base.specs.declared.fault.Kind.TheVariants.{Pointer};
ghost use Rattle.entry_read.specs.declared.unit.Counts.{Counts as AnyCounts};
ghost use Rattle.entry_read.specs.Heads.{head_numbered, IsHead, Tile};
ghost use Rattle.entry_read.specs.Units.{IsTable, IsWithin};
ghost use Rattle.value_links.specs.Faults.{FaultUnits, InfoFault};
ghost use Rattle.value_links.specs.Parts.{AreUnitsHeld, IsUnitsFault};
ghost use Rattle.value_links.specs.inside.Tabled.{AreNumbers, IsNamed, HoldFront, places_of};

use crate::tables::{read_tables, table_numbers, table_places};
use abbrev_tables::Table;
use dw_base::{Fault, Kind, NoMemory, Refusal};
use entry_read::{Counts, Unit, UnitHead, heads, read_unit};
use std::alloc::Global;

/// An abbreviation table that units name.
#[derive(Drop)]
pub struct NamedTable {
    /// Its place in .debug_abbrev, which units have as debug_abbrev_offset.
    pub place: u64,
    pub table: Table,
}

/// The units of .debug_info in their order, and the abbreviation tables that they name.
#[derive(Drop)]
pub struct Units<'a> {
    pub units: Vec<Unit<'a>>,
    /// Each table once, by rising place.
    pub tables: Vec<NamedTable>,
    /// For each unit the number of its table.
    pub table_of: Vec<u32>,
}

// The most tables, since units have their numbers in 32 bits.
const MOST_TABLES: usize = 0xffff_ffff;

// Whether each unit names a place of .debug_abbrev, which has `size` bytes. A fault stands at the unit's first byte.
fn check_offsets(heads: &[UnitHead], size: usize, origin: u64) -> Result<(), Fault>
    requires { (u : ℕ) → u < length heads.now → origin + (head_numbered heads.now u).at < 2 ^ 64 }
    ensures inside { OnOk result ((u : ℕ) → u < length heads.now → (head_numbered heads.now u).table < size) }
    ensures fault { IfErr result (λ fault. (u : ℕ) × (u < length heads.now) × (size ≤ (head_numbered heads.now u).table) × (fault ≡ record { kind = Pointer; place = origin + (head_numbered heads.now u).at })) }
{
    for head in heads {
        if head.table >= size as u64 {
            return Err(Fault {
                kind: Kind::Pointer,
                place: origin + head.at,
            });
        }
    }
    Ok(())
}

// The headers of the units, each of which names a place of .debug_abbrev.
fn named_heads(
    alloc: Global,
    info: &[u8],
    abbrevs: &[u8],
    origin: u64,
) -> Result<Vec<UnitHead>, Refusal>
    requires { origin + length info.now < 2 ^ 64 }
    ensures tiled { IfOk result (λ all. Tile info.now all.items) }
    ensures heads { IfOk result (λ all. All (IsHead info.now) all.items) }
    ensures inside { IfOk result (λ all. (u : ℕ) → u < length all.items → (head_numbered all.items u).table < length abbrevs.now) }
    ensures fault { IfErr result (IsRefusedFor (IsFaultOf (InfoFault info.now abbrevs.now) origin)) }
{
    let all = heads(alloc, info, origin)?;
    check_offsets(&all, abbrevs.len(), origin)?;
    Ok(all)
}

// How many entries and values there are with those of one more unit.
fn counted(before: Counts, unit: &Unit<'_>) -> Counts
    requires { IsWithin before (length unit.now.forest.entries) (length unit.now.forest.values) }
    ensures { result ≡ record { entries = before.entries + length unit.now.forest.entries; values = before.values + length unit.now.forest.values } }
{
    Counts {
        entries: before.entries + u64::from(unit.forest().len()),
        values: before.values + u64::from(unit.forest().value_count()),
    }
}

// Appends a unit.
fn push_unit<'a>(units: &mut Vec<Unit<'a>>, unit: Unit<'a>) -> Result<(), NoMemory>
    ensures { OnOk result (units.new.items ≡ units.old.items ++ unit.entry ∷ []) }
{
    units.push(unit)?;
    Ok(())
}

// Reads the units of all heads, each by the table with its number.
fn read_each<'a>(
    alloc: Global,
    info: &'a [u8],
    heads: &[UnitHead],
    tables: &[NamedTable],
    numbers: &[u32],
    origin: u64,
) -> Result<Vec<Unit<'a>>, Refusal>
    requires heads { All (IsHead info.now) heads.now }
    requires tables { All (λ t. IsTable t.table) tables.now }
    requires numbers { AreNumbers heads.now (places_of tables.now) numbers.now }
    requires room { origin + length info.now < 2 ^ 64 }
    ensures read { IfOk result (λ units. (abbrevs : List ℕ) → All (IsNamed abbrevs) tables.now → (counts : AnyCounts) × HoldFront info.entry.now abbrevs heads.now tables.now numbers.now units.items counts (length heads.now)) }
    ensures fault { IfErr result (λ refusal. (abbrevs : List ℕ) → Tile info.entry.now heads.now → All (IsNamed abbrevs) tables.now → IsRefusedFor (IsFaultOf (FaultUnits info.entry.now abbrevs) origin) refusal) }
{
    let mut units: Vec<Unit<'a>> = Vec::new(alloc);
    let mut before = Counts {
        entries: 0,
        values: 0,
    };
    for (number, head) in heads.iter().enumerate() {
        let table = &tables[numbers[number] as usize].table;
        let unit = read_unit(alloc, info, head, table, before, origin)?;
        before = counted(before, &unit);
        push_unit(&mut units, unit)?;
    }
    Ok(units)
}

/// Reads the units of `info`, the body of .debug_info, with the abbreviation tables that they name in `abbrevs`, the body of
/// .debug_abbrev (DWARF 5 sections 7.5.1 to 7.5.3). Each origin is the file offset of its section's first byte. Each table is
/// read once.
///
/// A refusal names a fault of a unit's header, of its debug_abbrev_offset, of a table that a unit names, or of the entries of a
/// unit. `NoMemory` may come wherever memory is wanting, and answers 2^32 tables.
pub fn read_units<'a>(
    alloc: Global,
    info: &'a [u8],
    abbrevs: &[u8],
    info_origin: u64,
    abbrev_origin: u64,
) -> Result<Units<'a>, Refusal>
    requires info { info_origin + length info.now < 2 ^ 64 }
    requires abbrevs { abbrev_origin + length abbrevs.now < 2 ^ 64 }
    ensures read { IfOk result (λ units. AreUnitsHeld info.entry.now abbrevs.now units) }
    ensures fault { IfErr result (IsRefusedFor (IsUnitsFault info.entry.now abbrevs.now info_origin abbrev_origin)) }
{
    let all = named_heads(alloc, info, abbrevs, info_origin)?;
    let places = table_places(alloc, &all)?;
    if places.len() > MOST_TABLES {
        return Err(Refusal::NoMemory);
    }
    let tables = read_tables(alloc, &places, abbrevs, abbrev_origin)?;
    let table_of = table_numbers(alloc, &all, &places)?;
    let units = read_each(alloc, info, &all, &tables, &table_of, info_origin)?;
    Ok(Units {
        units,
        tables,
        table_of,
    })
}
