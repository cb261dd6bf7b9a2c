// The new numbers of references and section offsets, and the new expressions.
ghost use Rattle.std.specs.Prelude.{◌≡◌, ◌≤◌, ◌<◌, ◌+◌, ◌^◌, ℕ, List, IfOk, OnOk, length, slice_index};
ghost use Rattle.dw_base.specs.declared.classes.Classes.{Classes};
ghost use Rattle.dw_base.specs.declared.fault.Reach.{Reach};
ghost use Rattle.dw_base.specs.declared.fault.Reach.TheVariants.{Narrow};
ghost use Rattle.entry_arena.specs.declared.entry.Target.{Target};
ghost use Rattle.entry_arena.specs.Arena.{entry_at, chain_end_at, HasChainEnd};
ghost use Rattle.entry_read.specs.Units.{HeadAndForest};
ghost use Rattle.list_write.specs.Written.{moved_at};
ghost use Rattle.value_links.specs.Reading.{Reading};
ghost use Rattle.value_links.specs.Linked.{IsTargetAt};
ghost use Rattle.value_links.specs.World.{IsWorldOf, Holds};
ghost use Rattle.value_links.specs.inside.Checks.{IsNoExpr};
ghost use Rattle.rewriter.specs.declared.new_places.NewPlaces.{NewPlaces as AnyPlaces};
ghost use Rattle.rewriter.specs.inside.NewPlaces.{moved_lists, ViewsRise, AreViewsMoved};
ghost use Rattle.rewriter.specs.inside.Tables.{AreTablesWritten};
ghost use Rattle.rewriter.specs.inside.Placed.{unit_in, written_in, places_anew, places_at, AreTaken, ArePlacesOf};
ghost use Rattle.rewriter.specs.inside.Numbers.{MovesTo, AreNewNumbers};
ghost use Rattle.rewriter.specs.inside.Held.{HavePlaces, AllHavePlaces, AreNewPlaces, MeansSomething, IsLinkFor, IsNumberOf, EntryMeans, entry_in, name_in, value_in, AreNumbersOf, UnitMeans, AreNumbered, IsEntryPlaced, IsCounted, IsReferenceOf, AreOperationsNumbered, HasType, IsTypeMoved};

use crate::new_places::{ListPlaces, MovedViews, NewPlaces};
use crate::tables::NewTable;
use dw_base::NoMemory;
use dw_base::constants::DW_UT_TYPE;
use entry_arena::{ChainEnd, Entry, Target};
use entry_read::Unit;
use expr_ops::{Named, Op, named_by};
use form_codec::Value;
use list_model::ListKind;
use list_write::Moved;
use std::alloc::Global;
use unit_write::{NewNumbers, Places, write_expressions};
use value_links::{Link, OpLink, World};

// The bytes of a contribution's header, behind which its offsets begin (DWARF 5 section 7.28).
const HEADER_SIZE: u64 = 12;

// The number of the entry that stands at a place.
fn entry_number(entries: &[Entry], place: u64) -> usize
    requires rising { (i j : ℕ) → i < j → j < length entries.now → (entry_at entries.now i).at < (entry_at entries.now j).at }
    requires stands { (id : ℕ) × (id < length entries.now) × ((entry_at entries.now id).at ≡ place) }
    ensures inside { result < length entries.now }
    ensures at { (entry_at entries.now result).at ≡ place }
{
    match entries.binary_search_by_key(&place, |entry| u64::from(entry.at)) {
        Ok(number) => number,
        // The entry stands there.
        Err(_) => unreachable!(),
    }
}

// The number of the code 0 that stands at a place.
pub(crate) fn end_number(ends: &[ChainEnd], place: u64) -> usize
    requires rising { (i j : ℕ) → i < j → j < length ends.now → (chain_end_at ends.now i).at < (chain_end_at ends.now j).at }
    requires stands { (id : ℕ) × HasChainEnd ends.now id place }
    ensures inside { result < length ends.now }
    ensures at { (chain_end_at ends.now result).at ≡ place }
{
    match ends.binary_search_by_key(&place, |end| u64::from(end.at)) {
        Ok(number) => number,
        // The code stands there.
        Err(_) => unreachable!(),
    }
}

// The new place of what stands at an old place in a unit.
fn new_place(unit: &Unit<'_>, places: &Places, target: Target, old: u64) -> u64
    requires placed { HavePlaces unit.now.forest (places_anew places.now) }
    requires stands { IsTargetAt unit.now.forest target old }
    ensures moves { MovesTo unit.now.forest (places_anew places.now) old result }
    ensures after { places.now.start ≤ result }
    ensures fits { result < 2 ^ 32 }
{
    match target {
        Target::Entry(id) => u64::from(places.entries[id as usize]),
        Target::ChainEnd(_) => {
            let number = end_number(unit.forest().chain_ends(), old);
            u64::from(places.ends[number])
        }
    }
}

// A place of a unit, which counts from the unit's first byte, counted from the section's.
pub(crate) fn place_in(unit: &Unit<'_>, offset: u64) -> u64
    requires { (target : Target) × IsTargetAt unit.now.forest target (unit.now.head.at + offset) }
    ensures { result ≡ unit.now.head.at + offset }
{
    // What stands there lies in the section, so that the sum fits.
    let _section = unit.forest().section();
    let _entries = unit.forest().entries();
    unit.head().at + offset
}

// What a value that is no expression refers to, where it means something.
pub(crate) fn link_of(world: &World<'_>, unit: u32, id: u32, name: u64, value: &Value) -> Link
    requires unit { unit < length world.now.units }
    requires id { id < length (unit_in world.now.units unit).forest.entries }
    requires plain { IsNoExpr value.now }
    requires means { MeansSomething world.now unit id name value.now }
    ensures { IsLinkFor world.now unit id name value.now result }
{
    match world.resolve(unit, id, name, value) {
        Some(link) => link,
        // A valid file has only values that mean something.
        None => unreachable!(),
    }
}

// The new number of a reference that counts from the first byte of its unit.
fn local_number(
    world: &World<'_>,
    places: &Vec<Places>,
    unit: u32,
    id: u32,
    name: u64,
    old: u64,
) -> u64
    requires id { id < length (unit_in world.now.units unit).forest.entries }
    requires unit { unit < length world.now.units }
    requires placed { AllHavePlaces world.now places.now.items }
    requires means { MeansSomething world.now unit id name (Value.LocalRef old) }
    ensures number { (new_places : AnyPlaces) → IsNumberOf world.now places.now.items new_places unit id name (Value.LocalRef old) result }
    ensures fits { result < 2 ^ 32 }
{
    match link_of(world, unit, id, name, &Value::LocalRef(old)) {
        Link::Place(_, target) => {
            let own = &world.units()[unit as usize];
            let new = &places[unit as usize];
            new_place(own, new, target, place_in(own, old)) - new.start
        }
        // A reference names a place in .debug_info.
        _ => unreachable!(),
    }
}

// The new number of a reference that counts from the first byte of .debug_info.
fn section_number(
    world: &World<'_>,
    places: &Vec<Places>,
    unit: u32,
    id: u32,
    name: u64,
    old: u64,
) -> u64
    requires id { id < length (unit_in world.now.units unit).forest.entries }
    requires unit { unit < length world.now.units }
    requires placed { AllHavePlaces world.now places.now.items }
    requires means { MeansSomething world.now unit id name (Value.SectionRef old) }
    ensures number { (new_places : AnyPlaces) → IsNumberOf world.now places.now.items new_places unit id name (Value.SectionRef old) result }
    ensures fits { result < 2 ^ 32 }
{
    match link_of(world, unit, id, name, &Value::SectionRef(old)) {
        Link::Place(other, target) => {
            let there = &world.units()[other as usize];
            new_place(there, &places[other as usize], target, old)
        }
        // A reference names a place in .debug_info.
        _ => unreachable!(),
    }
}

// The new place of the list that began at a place.
fn list_place(moved: &[Moved], old: u64) -> u64
    requires rising { (j k : ℕ) → j < k → k < length moved.now → (moved_at moved.now j).old < (moved_at moved.now k).old }
    requires stands { (k : ℕ) × (k < length moved.now) × ((moved_at moved.now k).old ≡ old) }
    ensures { (k : ℕ) × (k < length moved.now) × ((moved_at moved.now k).old ≡ old) × ((moved_at moved.now k).new ≡ result) }
{
    match moved.binary_search_by_key(&old, |list| list.old) {
        Ok(number) => moved[number].new,
        // A list began there.
        Err(_) => unreachable!(),
    }
}

// The new places of lists of a kind.
fn places_of(new_places: &NewPlaces, kind: ListKind) -> &ListPlaces
    ensures { result.now ≡ moved_lists new_places.now kind }
{
    match kind {
        ListKind::Ranges => &new_places.ranges,
        ListKind::Locations => &new_places.locations,
    }
}

// The new place of view pairs that began at a place, and went with the list at another.
fn views_place(moved: &[MovedViews], list: u64, old: u64) -> u64
    requires rising { ViewsRise moved.now }
    requires stands { (new : ℕ) × AreViewsMoved moved.now list old new }
    ensures { AreViewsMoved moved.now list old result }
{
    match moved.binary_search_by_key(&(list, old), |views| (views.list, views.old)) {
        Ok(run) => moved[run].new,
        // Some began there.
        Err(_) => unreachable!(),
    }
}

// The new number of a section offset: the place of a line number program, a list, a contribution or view pairs, else the old number.
fn offset_number(
    world: &World<'_>,
    new_places: &NewPlaces,
    unit: u32,
    id: u32,
    name: u64,
    old: u64,
) -> u64
    requires id { id < length (unit_in world.now.units unit).forest.entries }
    requires unit { unit < length world.now.units }
    requires new_places { AreNewPlaces world.now new_places.now }
    requires means { MeansSomething world.now unit id name (Value.Offset old) }
    ensures number { (places : List Places) → IsNumberOf world.now places new_places.now unit id name (Value.Offset old) result }
    ensures fits { result < 2 ^ 32 }
{
    match link_of(world, unit, id, name, &Value::Offset(old)) {
        Link::Lines(program) => new_places.programs[program as usize],
        Link::List(kind, _) => list_place(&places_of(new_places, kind).lists, old),
        Link::Base(kind, part) => places_of(new_places, kind).parts[part as usize].at + HEADER_SIZE,
        Link::Views(list, place) => views_place(&new_places.views, list, place),
        Link::Kept(_) => old,
        // A section offset names a program, a list, a contribution of lists or view pairs, or is kept.
        _ => unreachable!(),
    }
}

// The new number of a value, which is 0 where it is no reference and no section offset.
fn new_number(
    world: &World<'_>,
    places: &Vec<Places>,
    new_places: &NewPlaces,
    unit: u32,
    id: u32,
    name: u64,
    value: Value,
) -> u64
    requires id { id < length (unit_in world.now.units unit).forest.entries }
    requires unit { unit < length world.now.units }
    requires placed { AllHavePlaces world.now places.now.items }
    requires new_places { AreNewPlaces world.now new_places.now }
    requires means { MeansSomething world.now unit id name value }
    ensures number { IsNumberOf world.now places.now.items new_places.now unit id name value result }
    ensures fits { result < 2 ^ 32 }
{
    match value {
        Value::LocalRef(old) => local_number(world, places, unit, id, name, old),
        Value::SectionRef(old) => section_number(world, places, unit, id, name, old),
        Value::Offset(old) => offset_number(world, new_places, unit, id, name, old),
        _ => 0,
    }
}

// The name of an attribute of an entry.
pub(crate) fn name_of(world: &World<'_>, unit: u32, id: u32, column: u32) -> u64
    requires entry { (own : HeadAndForest) × EntryMeans world.now own unit id }
    requires column { column < (entry_in world.now unit id).count }
    ensures { result ≡ name_in world.now unit id column }
{
    let entry = world.units()[unit as usize].forest().entry(id);
    let table = world.table_numbers()[unit as usize] as usize;
    let named = &world.tables()[table];
    named.table.columns(entry.decl)[column as usize].name
}

// Its value, in its unit as it is written.
pub(crate) fn value_of(world: &World<'_>, own: &Unit<'_>, unit: u32, id: u32, column: u32) -> Value
    requires entry { EntryMeans world.now own.now unit id }
    requires column { column < (entry_in world.now unit id).count }
    ensures { result ≡ value_in world.now own.now unit id column }
{
    let first = world.units()[unit as usize].forest().entry(id).first;
    let forest = own.forest();
    // The numbers of all values fit 32 bits.
    let _count = forest.value_count();
    forest.value(first + column)
}

// Appends the new numbers of an entry's values.
fn push_numbers(
    held: &mut Vec<u64>,
    world: &World<'_>,
    own: &Unit<'_>,
    places: &Vec<Places>,
    new_places: &NewPlaces,
    unit: u32,
    id: u32,
) -> Result<(), NoMemory>
    requires entry { EntryMeans world.now own.now unit id }
    requires placed { AllHavePlaces world.now places.now.items }
    requires new_places { AreNewPlaces world.now new_places.now }
    ensures { OnOk result (AreNumbersOf world.now own.now places.now.items new_places.now unit id held.old.items held.new.items) }
{
    let count = world.units()[unit as usize].forest().entry(id).count;
    for column in 0..count {
        let name = name_of(world, unit, id, column);
        let value = value_of(world, own, unit, id, column);
        let number = new_number(world, places, new_places, unit, id, name, value);
        held.push(number)?;
    }
    Ok(())
}

// The new numbers of all values of a unit.
fn new_held(
    alloc: Global,
    world: &World<'_>,
    own: &Unit<'_>,
    places: &Vec<Places>,
    new_places: &NewPlaces,
    unit: u32,
) -> Result<Vec<u64>, NoMemory>
    requires unit { UnitMeans world.now own.now unit }
    requires placed { AllHavePlaces world.now places.now.items }
    requires new_places { AreNewPlaces world.now new_places.now }
    ensures { IfOk result (λ held. AreNumbered world.now own.now places.now.items new_places.now unit held.items) }
{
    let forest = world.units()[unit as usize].forest();
    let mut held: Vec<u64> = Vec::with_capacity(alloc, forest.value_count() as usize)?;
    for id in 0..forest.len() {
        push_numbers(&mut held, world, own, places, new_places, unit, id)?;
    }
    Ok(held)
}

// The new place of an entry of the unit with a number.
pub(crate) fn entry_place(places: &Vec<Places>, unit: u32, id: u32) -> u64
    requires unit { unit < length places.now.items }
    requires entry { id < length (places_at places.now.items unit).entries }
    ensures place { result ≡ slice_index (places_at places.now.items unit).entries id }
    ensures fits { result < 2 ^ 32 }
{
    let there = &places[unit as usize];
    u64::from(there.entries[id as usize])
}

// The new number of a reference to an entry of the unit `other`, in an expression of the unit with a number.
fn counted(places: &Vec<Places>, unit: u32, named: Named, other: u32, id: u32) -> u64
    requires placed { IsEntryPlaced places.now.items unit named other id }
    ensures number { IsCounted places.now.items unit named other id result }
    ensures fits { result < 2 ^ 32 }
{
    let place = entry_place(places, other, id);
    match named {
        Named::SectionEntry => place,
        _ => {
            let own = &places[unit as usize];
            place - own.start
        }
    }
}

// The new number of the reference of an operation in an expression of the unit with a number; 0 where it names no entry.
pub(crate) fn op_number(world: &World<'_>, places: &Vec<Places>, unit: u32, op: &Op) -> u64
    requires world { (reach : Reach) × IsWorldOf world.now.image reach world.now }
    requires unit { unit < length world.now.units }
    requires placed { AllHavePlaces world.now places.now.items }
    ensures number { IsReferenceOf world.now places.now.items unit op.now result }
    ensures fits { result < 2 ^ 32 }
{
    match world.resolve_op(unit, op) {
        Some(link) => match link {
            OpLink::Entry(other, id) => counted(places, unit, named_by(op.code), other, id),
            _ => 0,
        },
        None => 0,
    }
}

// The new numbers of all operations of a unit.
fn op_numbers(
    alloc: Global,
    world: &World<'_>,
    places: &Vec<Places>,
    unit: u32,
) -> Result<Vec<u64>, NoMemory>
    requires world { (reach : Reach) × IsWorldOf world.now.image reach world.now }
    requires unit { unit < length world.now.units }
    requires placed { AllHavePlaces world.now places.now.items }
    ensures { IfOk result (λ numbers. AreOperationsNumbered world.now places.now.items unit numbers.items) }
{
    let mut numbers: Vec<u64> = Vec::new(alloc);
    let operations = &world.operations()[unit as usize];
    let count = operations.op_count();
    for id in 0..count {
        let op = operations.op(id);
        numbers.push(op_number(world, places, unit, &op))?;
    }
    Ok(numbers)
}

// The new type_offset of a unit, which is 0 where it is no type unit.
fn new_type_offset(unit: &Unit<'_>, places: &Places) -> u64
    requires placed { HavePlaces unit.now.forest (places_anew places.now) }
    requires typed { HasType unit.now }
    ensures { IsTypeMoved unit.now (places_anew places.now) result }
{
    let head = unit.head();
    if head.kind != DW_UT_TYPE {
        return 0;
    }
    let number = entry_number(unit.forest().entries(), place_in(unit, head.type_at));
    u64::from(places.entries[number]) - places.start
}

/// The new numbers of the unit with a number: the new places of all that its references and section offsets name, and its expressions
/// with those that their operations name. `own` is the unit as it is written, `places` are those of the units, and `new_places` those of what section offsets name. Each
/// number fits the 32 bits of an offset. The only error is want of memory.
pub fn new_numbers(
    alloc: Global,
    world: &World<'_>,
    own: &Unit<'_>,
    tables: &Vec<NewTable>,
    places: &Vec<Places>,
    new_places: &NewPlaces,
    unit: u32,
) -> Result<NewNumbers, NoMemory>
    requires world { IsWorldOf world.now.image Narrow world.now }
    requires unit { unit < length world.now.units }
    requires tables { (abbrevs : List ℕ) × (length abbrevs < 2 ^ 32) × (classes : Classes) × AreTablesWritten classes world.now abbrevs tables.now.items }
    requires own { own.now ≡ written_in world.now tables.now.items unit }
    requires taken { AreTaken world.now tables.now.items }
    requires places { (size : ℕ) × ArePlacesOf world.now tables.now.items places.now.items size }
    requires new_places { AreNewPlaces world.now new_places.now }
    ensures numbers { IfOk result (λ new. (file : List ℕ) (r : Reading) → Holds file world.now r → AreNewNumbers world.now r.links tables.now.items places.now.items new_places.now unit new) }
{
    let held = new_held(alloc, world, own, places, new_places, unit)?;
    let numbers = op_numbers(alloc, world, places, unit)?;
    let old = &world.units()[unit as usize];
    let operations = &world.operations()[unit as usize];
    let expressions = write_expressions(alloc, old, operations, &numbers)?;
    let new = &places[unit as usize];
    let table = world.table_numbers()[unit as usize] as usize;
    Ok(NewNumbers {
        end: new.end,
        table: tables[table].at,
        type_offset: new_type_offset(old, new),
        held,
        expressions,
    })
}
