// Where entries and codes 0 stand, counted by hand from DWARF 5 sections 7.5 and 7.6.
ghost use Rattle.std.specs.Prelude.{◌≡◌, ◌≢◌, ◌<◌, ◌+◌, length, IsTrue};
ghost use Rattle.std.specs.List.{All};
ghost use Rattle.fixed_width.specs.InitialLengths.{least_reserved};
ghost use Rattle.entry_read.specs.Heads.{IsHead};
ghost use Rattle.entry_read.specs.Units.{declarations_of, IsTable, IsUnitHeld};
ghost use Rattle.unit_write.specs.Most.{most_bytes};

use abbrev_tables::Table;
use dw_base::NoMemory;
use entry_read::{Counts, Unit, UnitHead, heads, read_unit};
use std::alloc::Global;
use std::process::Abort;
use std::test::Fail;
use unit_write::{Places, place_unit};

/// Whether a unit that is written from a place on has room there, however long it gets.
pub fn has_room(unit: &Unit<'_>, start: u64) -> bool
    ensures { IsTrue result → start + most_bytes unit.now < least_reserved }
{
    let len = unit.head().len;
    if len >= 0xffff_fff0 || start >= 0xffff_fff0 {
        return false;
    }
    let forest = unit.forest();
    let more = 4 * u64::from(forest.len()) + 10 * u64::from(forest.value_count());
    start + 3 * len + more < 0xffff_fff0
}

/// Whether these are new codes of the declarations of a table without columns.
pub fn are_codes(table: &Table, numbers: &Vec<u32>) -> bool
    ensures bare { IsTrue result → length table.now.specs ≡ 0 }
    ensures numbered { IsTrue result → length numbers.now.items ≡ length table.now.decls }
    ensures used { IsTrue result → All (λ number. number ≢ 0) numbers.now.items }
{
    table.specs().is_empty()
        && numbers.len() == table.len() as usize
        && numbers.iter().all(|number| *number != 0)
}

// The places of a unit whose entries have no values, written with these codes.
fn place_bare(
    alloc: Global,
    unit: &Unit<'_>,
    table: &Table,
    numbers: &[u32],
    start: u64,
) -> Result<Result<Places, NoMemory>, Fail>
    requires head { IsHead unit.now.forest.section unit.now.head }
    requires held { IsUnitHeld unit.now.forest.section unit.now.head (declarations_of table.now) unit.now.forest }
{
    let numbers = numbers.to_vec(alloc)?;
    if !are_codes(table, &numbers) {
        return Err("no codes")?;
    }
    if unit.forest().value_count() != 0 {
        return Err("values")?;
    }
    if !has_room(unit, start) {
        return Err("no room")?;
    }
    let lens = Vec::new(alloc);
    Ok(place_unit(alloc, unit, table, &Vec::new(alloc), &numbers, &lens, start))
}

// The places of a unit of a section.
fn place_at(
    alloc: Global,
    info: &[u8],
    head: &UnitHead,
    table: &Table,
    numbers: &[u32],
    start: u64,
) -> Result<Result<Places, NoMemory>, Fail>
    requires head { IsHead info.now head.now }
    requires table { IsTable table.now }
{
    let before = Counts {
        entries: 0,
        values: 0,
    };
    match read_unit(alloc, info, head, table, before, 0) {
        Ok(unit) => place_bare(alloc, &unit, table, numbers, start),
        Err(_) => Err("refused")?,
    }
}

// The places of the first unit of a section.
fn placed(
    alloc: Global,
    info: &[u8],
    table: &[u8],
    numbers: &[u32],
    start: u64,
) -> Result<Result<Places, NoMemory>, Fail> {
    if table.is_empty() {
        return Err("no table")?;
    }
    let table = Table::read(alloc, table, 0, 0).ok().ok_or("no table")?;
    let heads = heads(alloc, info, 0).ok().ok_or("no heads")?;
    for head in heads.iter() {
        return place_at(alloc, info, head, &table, numbers, start);
    }
    Err("no unit")?
}

// A root with two children, of which the first has one child. The codes 0 that end the chains are padded, and so is the
// last entry's code.
const TREE: [u8; 22] = [
    0x12, 0, 0, 0, 5, 0, 1, 8, 0, 0, 0, 0, 1, 1, 2, 0x80, 0, 0x82, 0, 0x80, 0x80, 0,
];

/// Two declarations without columns, of which the first has children.
pub const BARE_TABLE: [u8; 11] = [1, 0x11, 1, 0, 0, 2, 0x34, 0, 0, 0, 0];

#[test]
fn entries_and_ends_have_places(rt: HostRuntime) -> Result<(), Fail> {
    let alloc = rt.alloc();
    // the codes 127 and 128 have one byte and two
    let places = placed(alloc, &TREE, &BARE_TABLE, &[127, 128], 1000)?
        .ok()
        .ok_or("no memory")?;
    assert_eq!(rt; places.start, 1000);
    assert_eq!(rt;
        places.entries.as_slice(),
        [1012, 1013, 1014, 1017].as_slice()
    );
    assert_eq!(rt; places.ends.as_slice(), [1016, 1019].as_slice());
    assert_eq!(rt; places.end, 1020);
    // the last place with room for three times the 22 bytes that were read and 4 more for each of four entries
    let places = placed(alloc, &TREE, &BARE_TABLE, &[127, 128], 4_294_967_197)?
        .ok()
        .ok_or("no memory")?;
    assert_eq!(rt; places.end, 4_294_967_217);
    Ok(())
}
