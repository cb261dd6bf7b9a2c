// Where units stand in the new .debug_info.
ghost use Rattle.std.specs.Prelude.{◌≤◌, ◌<◌, ◌+◌, ◌^◌, ℕ, length, IfOk};
ghost use Rattle.dw_base.specs.declared.fault.Reach.TheVariants.{Narrow};
ghost use Rattle.unit_write.specs.Most.{most_bytes};
ghost use Rattle.value_links.specs.World.{IsWorldOf};
ghost use Rattle.list_lookup.specs.Owned.{AreOwnedIn};
ghost use Rattle.rewriter.specs.inside.Placed.{unit_in, AreTaken, AreWritable, ArePlacesOf, AreRanksOf};
ghost use Rattle.rewriter.specs.inside.Held.{IsPlacedFrom};

use crate::list_slots::list_slots;
use crate::spots::spots_of;
use crate::tables::NewTable;
use crate::taken::{taken_unit, written_unit};
use certificates::{Proof, put_record};
use dw_base::NoMemory;
use list_lookup::owned_lists;
use std::alloc::Global;
use unit_write::{Places, lay_out, slots_fit};
use value_links::World;

/// Where units stand, and why their slots can't be smaller.
#[derive(Drop)]
pub struct PlacedUnits {
    /// The places of each unit, in their order.
    pub places: Vec<Places>,
    /// The records that show why the layout of each is the least, one after the other.
    pub records: Vec<u8>,
}

// Where the unit with a number stands, from a place on, which leaves room for it. It owns these location lists. Appends its record.
fn place_numbered(
    alloc: Global,
    records: &mut Vec<u8>,
    world: &World<'_>,
    tables: &Vec<NewTable>,
    owned: &[usize],
    number: usize,
    start: u64,
) -> Result<Places, NoMemory>
    requires world { IsWorldOf world.now.image Narrow world.now }
    requires known { number < length world.now.units }
    requires owned { AreOwnedIn world.now number owned.now }
    requires taken { AreTaken world.now tables.now.items }
    requires writable { AreWritable world.now tables.now.items }
    requires room { start + most_bytes (unit_in world.now.units number) < 2 ^ 31 }
    ensures placed { IfOk result (IsPlacedFrom world.now tables.now.items number start records.old.items records.new.items) }
    ensures most { IfOk result (λ places. places.end ≤ start + most_bytes (unit_in world.now.units number)) }
{
    // A law, which costs nothing: the unit has few slots.
    slots_fit();
    let taken = taken_unit(alloc, world, tables, number)?;
    let unit = written_unit(world, tables, &taken, number);
    let operations = &world.operations()[number];
    let spots = spots_of(alloc, world, unit, number as u32)?;
    let lists = list_slots(alloc, world, number as u32, owned)?;
    let table = world.table_numbers()[number] as usize;
    let decls = &world.tables()[table].table;
    let new = &tables[table];
    let laid = lay_out(
        alloc,
        unit,
        operations,
        decls,
        &new.columns,
        &new.numbers,
        &spots,
        &lists,
    )?;
    put_record(records, &Proof::Layout(laid.ranks))?;
    Ok(laid.places.moved_to(start))
}

/// Where the units of a file stand in the new .debug_info, with their entries and the codes 0 that end chains, by the new columns
/// and codes of their tables, the slots of each unit and of the location lists that it owns in their least sizes, with the records that
/// show why. There is room for them: the file is within the narrow limits. The only error is want of memory.
pub fn place_units(
    alloc: Global,
    world: &World<'_>,
    tables: &Vec<NewTable>,
) -> Result<PlacedUnits, NoMemory>
    requires world { IsWorldOf world.now.image Narrow world.now }
    requires taken { AreTaken world.now tables.now.items }
    requires writable { AreWritable world.now tables.now.items }
    ensures placed { IfOk result (λ units. (size : ℕ) × ArePlacesOf world.now tables.now.items units.places.items size) }
    ensures records { IfOk result (λ units. AreRanksOf world.now tables.now.items units.places.items units.records.items) }
{
    let owned = owned_lists(alloc, world)?;
    let mut places: Vec<Places> = Vec::new(alloc);
    let mut records = Vec::new(alloc);
    let mut start = 0;
    for number in 0..world.units().len() {
        let lists = &owned[number].lists;
        let unit = place_numbered(alloc, &mut records, world, tables, lists, number, start)?;
        start = unit.end;
        places.push(unit)?;
    }
    Ok(PlacedUnits { places, records })
}
