// Units written anew.
ghost use Rattle.std.specs.Prelude.{◌≡◌, ◌<◌, ◌^◌, ℕ, List, IfOk, OnOk, length};
ghost use Rattle.dw_base.specs.declared.classes.Classes.{Classes};
ghost use Rattle.dw_base.specs.declared.fault.Reach.TheVariants.{Narrow};
ghost use Rattle.leb_codec.specs.Digits.{Extends};
ghost use Rattle.fixed_width.specs.InitialLengths.{least_reserved};
ghost use Rattle.value_links.specs.Reading.{UnitRead, Reading};
ghost use Rattle.value_links.specs.World.{IsWorldOf, Holds};
ghost use Rattle.rewriter.specs.inside.Tables.{AreTablesWritten};
ghost use Rattle.rewriter.specs.inside.Placed.{places_at, AreTaken, AreWritable, ArePlacesOf};
ghost use Rattle.rewriter.specs.inside.Units.{AreUnitsWritten};
ghost use Rattle.rewriter.specs.inside.Held.{AreNewPlaces, IsUnitBehind};

use crate::new_places::NewPlaces;
use crate::numbers::new_numbers;
use crate::tables::Tables;
use crate::taken::{taken_unit, written_unit};
use dw_base::NoMemory;
use std::alloc::Global;
use unit_write::{Places, layouts_hold, write_unit};
use value_links::World;

// Appends the unit with a number, at its new place.
fn write_numbered(
    alloc: Global,
    info: &mut Vec<u8>,
    world: &World<'_>,
    tables: &Tables,
    places: &Vec<Places>,
    new_places: &NewPlaces,
    number: u32,
) -> Result<(), NoMemory>
    requires world { IsWorldOf world.now.image Narrow world.now }
    requires known { number < length world.now.units }
    requires tables { (classes : Classes) × AreTablesWritten classes world.now tables.now.bytes.items tables.now.tables.items }
    requires narrow { length tables.now.bytes.items < 2 ^ 32 }
    requires taken { AreTaken world.now tables.now.tables.items }
    requires writable { AreWritable world.now tables.now.tables.items }
    requires places { (size : ℕ) × ArePlacesOf world.now tables.now.tables.items places.now.items size }
    requires new_places { AreNewPlaces world.now new_places.now }
    requires behind { length info.old.items ≡ (places_at places.now.items number).start }
    ensures written { OnOk result (IsUnitBehind world.now tables.now.tables.items places.now.items new_places.now number info.new.items) }
    ensures behind { OnOk result (Extends info.old.items info.new.items) }
{
    // A law, which costs nothing: the slots have the sizes by which the unit has its places.
    layouts_hold();
    let taken = taken_unit(alloc, world, &tables.tables, number as usize)?;
    let unit = written_unit(world, &tables.tables, &taken, number as usize);
    let new = new_numbers(
        alloc,
        world,
        unit,
        &tables.tables,
        places,
        new_places,
        number,
    )?;
    let table = world.table_numbers()[number as usize] as usize;
    let old = &world.tables()[table];
    let anew = &tables.tables[table];
    write_unit(
        alloc,
        info,
        unit,
        &old.table,
        &anew.columns,
        &anew.numbers,
        &new,
    )?;
    Ok(())
}

// How many bytes units have together that stand at these places, one after the other.
fn size_of(places: &[Places]) -> usize {
    match places.last() {
        Some(unit) => unit.end as usize,
        None => 0,
    }
}

/// Writes the units of a file anew, as the new .debug_info (DWARF 5 section 7.5), at these places. `new_places` are
/// those of what section offsets name. The only error is want of memory.
pub fn write_units(
    alloc: Global,
    world: &World<'_>,
    tables: &Tables,
    places: &Vec<Places>,
    new_places: &NewPlaces,
) -> Result<Vec<u8>, NoMemory>
    requires world { IsWorldOf world.now.image Narrow world.now }
    requires tables { (classes : Classes) × AreTablesWritten classes world.now tables.now.bytes.items tables.now.tables.items }
    requires narrow { length tables.now.bytes.items < 2 ^ 32 }
    requires taken { AreTaken world.now tables.now.tables.items }
    requires writable { AreWritable world.now tables.now.tables.items }
    requires places { (size : ℕ) × ArePlacesOf world.now tables.now.tables.items places.now.items size }
    requires new_places { AreNewPlaces world.now new_places.now }
    ensures written { IfOk result (λ info. (file : List ℕ) (r : Reading) → Holds file world.now r → (units : List UnitRead) × AreUnitsWritten world.now r.links tables.now.tables.items places.now.items new_places.now info.items tables.now.bytes.items units) }
    ensures fits { IfOk result (λ info. length info.items < least_reserved) }
{
    let mut info: Vec<u8> = Vec::with_capacity(alloc, size_of(places))?;
    for number in 0..world.units().len() {
        write_numbered(
            alloc,
            &mut info,
            world,
            tables,
            places,
            new_places,
            number as u32,
        )?;
    }
    Ok(info)
}
