// Layouts of slots, worked out by hand from DWARF 5 sections 2.5.1, 7.5 and 7.6.
ghost use Rattle.std.specs.Prelude.{◌≤◌, ◌<◌, ◌^◌, length, IsTrue};
ghost use Rattle.dw_base.specs.declared.fault.Reach.TheVariants.{Narrow};
ghost use Rattle.entry_arena.specs.Arena.{entry_at};
ghost use Rattle.entry_read.specs.Expressions.{HasOperations};
ghost use Rattle.entry_read.specs.Heads.{IsHead};
ghost use Rattle.entry_read.specs.Units.{declarations_of, IsTable, IsUnitHeld};

use crate::unit_write_place_tests::{are_codes, has_room};
use abbrev_tables::{Spec, Table};
use dw_base::Reach;
use entry_arena::Operations;
use entry_read::{Counts, Unit, UnitHead, heads, read_expressions, read_unit};
use slot_layout::{Slot, SlotKind};
use std::alloc::Global;
use std::process::Abort;
use std::test::Fail;
use unit_write::{LaidOut, ListSlot, Spot, lay_out, slots_of};

// The slots of a list, and how they are laid out.
#[derive(Drop)]
struct Laid {
    slots: Vec<Slot>,
    out: LaidOut,
}

// An expression of a list: how many of its bytes are no slot's, and the entry to which it refers.
#[derive(Clone, Copy)]
struct Drawn {
    fixed: u32,
    target: u32,
}

// Whether a unit has the entry to which an expression refers.
fn is_there(unit: &Unit<'_>, drawn: Drawn) -> bool
    ensures small { IsTrue result → drawn.fixed < 2 ^ 31 }
    ensures inside { IsTrue result → drawn.target < length unit.now.forest.entries }
    ensures behind { IsTrue result → unit.now.head.at ≤ (entry_at unit.now.forest.entries drawn.target).at }
{
    let forest = unit.forest();
    drawn.fixed < 1 << 31
        && drawn.target < forest.len()
        && unit.head().at <= u64::from(forest.entry(drawn.target).at)
}

// The layout of a unit whose entries have no values, written with these codes, where it owns a list with one expression.
fn lay_out_bare(
    alloc: Global,
    unit: &Unit<'_>,
    operations: &Operations,
    table: &Table,
    numbers: &[u32],
    drawn: Drawn,
) -> Result<Laid, Fail>
    requires head { IsHead unit.now.forest.section unit.now.head }
    requires held { IsUnitHeld unit.now.forest.section unit.now.head (declarations_of table.now) unit.now.forest }
    requires operations { HasOperations Narrow unit.now.forest operations.now }
{
    let numbers = numbers.to_vec(alloc)?;
    if !are_codes(table, &numbers) {
        return Err("no codes")?;
    }
    if unit.forest().value_count() != 0 {
        return Err("values")?;
    }
    if !has_room(unit, 1 << 31) {
        return Err("no room")?;
    }
    if !is_there(unit, drawn) {
        return Err("no entry")?;
    }
    let specs: Vec<Spec> = Vec::new(alloc);
    let spots: Vec<Spot> = Vec::new(alloc);
    let lists = [
        ListSlot::Length(drawn.fixed, 1),
        ListSlot::Place(SlotKind::Uleb, Spot::Entry(drawn.target)),
    ];
    let slots = slots_of(
        alloc, unit, operations, table, &specs, &numbers, &spots, &lists,
    )?;
    let out = lay_out(
        alloc, unit, operations, table, &specs, &numbers, &spots, &lists,
    )?;
    Ok(Laid { slots, out })
}

// The same of a unit of a section.
fn lay_out_at(
    alloc: Global,
    info: &[u8],
    head: &UnitHead,
    table: &Table,
    numbers: &[u32],
    drawn: Drawn,
) -> Result<Laid, Fail>
    requires head { IsHead info.now head.now }
    requires table { IsTable table.now }
{
    let before = Counts {
        entries: 0,
        values: 0,
    };
    match read_unit(alloc, info, head, table, before, 0) {
        Ok(unit) => match read_expressions(alloc, &unit, 0, Reach::Narrow) {
            Ok(held) => lay_out_bare(alloc, &unit, &held, table, numbers, drawn),
            Err(_) => Err("expressions")?,
        },
        Err(_) => Err("refused")?,
    }
}

// The same of the first unit of a section.
fn laid_out(
    alloc: Global,
    info: &[u8],
    table: &[u8],
    numbers: &[u32],
    drawn: Drawn,
) -> Result<Laid, Fail> {
    if table.is_empty() {
        return Err("no table")?;
    }
    let table = Table::read(alloc, table, 0, 0).ok().ok_or("no table")?;
    let heads = heads(alloc, info, 0).ok().ok_or("no heads")?;
    for head in heads.iter() {
        return lay_out_at(alloc, info, head, &table, numbers, drawn);
    }
    Err("no unit")?
}

// A root with 24 base types.
const BASES: [u8; 38] = [
    0x22, 0, 0, 0, 5, 0, 1, 8, 0, 0, 0, 0, 1, 2, 2, 2, 2, 2, 2, 2, 2, 2, 2, 2, 2, 2, 2, 2, 2, 2, 2,
    2, 2, 2, 2, 2, 2, 0,
];

// Two declarations without columns, of which the first has children.
const BASES_TABLE: [u8; 11] = [1, 0x11, 1, 0, 0, 2, 0x24, 0, 0, 0, 0];

// Where the root and the base types stand where each base type has five bytes.
const BASES_PLACES: [u32; 25] = [
    12, 13, 18, 23, 28, 33, 38, 43, 48, 53, 58, 63, 68, 73, 78, 83, 88, 93, 98, 103, 108, 113, 118,
    123, 128,
];

fn uleb(fixed: u64, from: u32, to: u32) -> Slot {
    Slot {
        kind: SlotKind::Uleb,
        fixed,
        from,
        to,
    }
}

#[test]
fn slots_of_lists_are_laid_out(rt: HostRuntime) -> Result<(), Fail> {
    // the root stands at 12 and has one byte, and with the code 2^28 each base type has five: the last one stands at 128, and the one
    // before it at 123. The code 0 that ends them stands at 133, and the unit ends at 134. A reference to 128 needs two bytes from the start;
    // then its expression has 128 too, and its length needs two
    let rows: [(u32, u64, &[u64]); 2] = [(24, 128, &[1, 0]), (23, 123, &[])];
    for (target, place, ranks) in rows {
        let drawn = Drawn { fixed: 126, target };
        let laid = laid_out(rt.alloc(), &BASES, &BASES_TABLE, &[1, 1 << 28], drawn)?;
        let slots = [uleb(126, 1, 2), uleb(place, 0, 0)];
        assert_eq!(rt; laid.slots.as_slice(), slots.as_slice());
        assert_eq!(rt; laid.out.ranks.as_slice(), ranks);
        assert_eq!(rt; laid.out.lens.len(), 0);
        let places = &laid.out.places;
        assert_eq!(rt; places.start, 0);
        assert_eq!(rt; places.entries.as_slice(), BASES_PLACES.as_slice());
        assert_eq!(rt; places.ends.as_slice(), &[133][..]);
        assert_eq!(rt; places.end, 134);
    }
    Ok(())
}
