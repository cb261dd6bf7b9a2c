// What names lists of a kind: values of entries, and slots of contributions (DWARF 5 sections 7.5.5, 7.28 and 7.29).
ghost use Rattle.std.specs.Prelude.{◌≡◌, ◌<◌, ◌+◌, ◌++◌, ◌∷◌, ◌^◌, ◌↔◌, ℕ, List, [], length, IfOk, IfErr, OnOk, IfSome, MatchOption, IsTrue};
ghost use Rattle.std.specs.List.{All};
ghost use Rattle.dw_base.specs.Refusals.{IsFaultOf, IsRefusedFor};
ghost use Rattle.form_codec.specs.Forms.Meaning.{SectionPlace};
ghost use Rattle.form_codec.specs.Values.{meant_in};
ghost use Rattle.value_links.specs.Reading.{Linkable, unit_at, part_at};
ghost use Rattle.value_links.specs.Values.{entry_of};
ghost use Rattle.value_links.specs.ListPlaces.{IsListPlace, SlotNames};
ghost use Rattle.value_links.specs.Links.{held_at};
ghost use Rattle.value_links.specs.Attributes.{offset_class};
ghost use Rattle.value_links.specs.Parts.{HoldsLists, section_held, lists_in};
ghost use Rattle.value_links.specs.inside.Checks.{AreSomeUnits, InEach};
ghost use Rattle.value_links.specs.inside.ListPlaces.{AreContributions};
ghost use Rattle.value_links.specs.inside.Namings.{AreJoined, IsSlotNaming, IsPartNaming, AreSlotsFollowed, ArePartsFollowed, FaultSlots, class_of, index_meaning, IsIndexIn, CanName, ValueNames, IsPlaceNamed, IsColumnNaming, IsEntryNaming, IsUnitNaming, IsSomeNaming, AreNamings, AreInOrder};

use crate::check::{column_name, table_of};
use crate::link::{is_of_locations, is_of_ranges, slot_of, unit_of};
use crate::list_places::{Contributions, holder_of, slot_place, told_by};
use crate::parts::Parts;
use dw_base::{Fault, Kind, NoMemory, Refusal};
use form_codec::Value;
use list_model::ListKind;
use std::alloc::Global;

/// The place at which a list begins, and the number of a unit of which an entry names it, or `SLOT`.
pub(crate) type Naming = (u64, u32);

/// What stands for a unit where a slot names a list. Units have lower numbers, so that slots come last.
pub(crate) const SLOT: u32 = u32::MAX;

// Appends a naming.
fn push(namings: &mut Vec<Naming>, naming: Naming) -> Result<(), NoMemory>
    ensures { OnOk result (namings.new.items ≡ namings.old.items ++ naming ∷ []) }
{
    namings.push(naming)?;
    Ok(())
}

// The place of the list that a slot of a contribution names, or None where the slot tells a place at which no list can begin.
fn named_by_slot(contributions: &Contributions<'_>, part: u32, slot: u32) -> Option<u64>
    requires tiled { AreContributions contributions.now }
    requires part { part < length contributions.now.parts.items }
    requires slot { slot < (part_at (section_held contributions.now) part).slots }
    ensures { MatchOption result ((at : ℕ) → ¬ SlotNames (section_held contributions.now) part slot at) (SlotNames (section_held contributions.now) part slot) }
{
    let at = told_by(contributions, part, slot);
    holder_of(contributions, at)?;
    Some(at)
}

// Appends what the slots of a contribution name, or tells a slot that names nothing.
fn push_part(
    namings: &mut Vec<Naming>,
    contributions: &Contributions<'_>,
    part: u32,
    origin: u64,
) -> Result<(), Refusal>
    requires tiled { AreContributions contributions.now }
    requires part { part < length contributions.now.parts.items }
    requires room { origin + length contributions.now.section.now < 2 ^ 64 }
    ensures joined { OnOk result (AreJoined namings.old.items namings.new.items (IsSlotNaming (section_held contributions.now) part (part_at (section_held contributions.now) part).slots)) }
    ensures followed { OnOk result (AreSlotsFollowed (section_held contributions.now) part (part_at (section_held contributions.now) part).slots) }
    ensures fault { IfErr result (IsRefusedFor (IsFaultOf (FaultSlots (section_held contributions.now)) origin)) }
{
    let holder = &contributions.parts[part as usize];
    for slot in 0..holder.slots {
        let Some(at) = named_by_slot(contributions, part, slot) else {
            return Err(Refusal::Refused(Fault {
                kind: Kind::Pointer,
                place: origin + slot_place(holder, slot),
            }));
        };
        push(namings, (at, SLOT))?;
    }
    Ok(())
}

// Appends what the slots of all contributions name, or tells a slot that names nothing.
fn push_slots(
    namings: &mut Vec<Naming>,
    contributions: &Contributions<'_>,
    origin: u64,
) -> Result<(), Refusal>
    requires tiled { AreContributions contributions.now }
    requires room { origin + length contributions.now.section.now < 2 ^ 64 }
    ensures joined { OnOk result (AreJoined namings.old.items namings.new.items (IsPartNaming (section_held contributions.now) (length contributions.now.parts.items))) }
    ensures followed { OnOk result (ArePartsFollowed (section_held contributions.now) (length contributions.now.parts.items)) }
    ensures fault { IfErr result (IsRefusedFor (IsFaultOf (FaultSlots (section_held contributions.now)) origin)) }
{
    for part in 0..contributions.parts.len() as u32 {
        push_part(namings, contributions, part, origin)?;
    }
    Ok(())
}

// Whether the section offsets of an attribute with a name are those of lists of a kind.
fn has_offsets(kind: ListKind, name: u64) -> bool
    ensures { IsTrue result ↔ (offset_class name ≡ class_of kind) }
{
    match kind {
        ListKind::Ranges => is_of_ranges(name),
        ListKind::Locations => is_of_locations(name),
    }
}

// The place of the list of a kind that a section offset names, as the value of an attribute with a name.
fn named_by_offset(parts: &Parts<'_>, kind: ListKind, name: u64, place: u64) -> Option<u64>
    requires lists { HoldsLists parts.now }
    ensures named { (u id : ℕ) → InEach parts.now (λ r. IsPlaceNamed r kind u id name (SectionPlace place) result) }
    ensures begins { IfSome result (λ at. (p : ℕ) × IsListPlace (section_held (lists_in parts.now kind)) p at) }
{
    if !has_offsets(kind, name) {
        return None;
    }
    holder_of(parts.lists(kind), place)?;
    Some(place)
}

// The place of the list of a kind that an index names in the unit with a number.
fn named_by_index(parts: &Parts<'_>, kind: ListKind, unit: u32, index: u64) -> Option<u64>
    requires lists { HoldsLists parts.now }
    requires unit { unit < length parts.now.units.units.items }
    ensures named { (id name : ℕ) → InEach parts.now (λ r. IsPlaceNamed r kind unit id name (index_meaning kind index) result) }
    ensures begins { IfSome result (λ at. (p : ℕ) × IsListPlace (section_held (lists_in parts.now kind)) p at) }
{
    let (part, slot) = slot_of(parts, kind, unit, index)?;
    named_by_slot(parts.lists(kind), part, slot)
}

// The index of a list of a kind that a value is.
fn index_in(kind: ListKind, value: &Value) -> Option<u64>
    ensures { IsIndexIn kind value.now result }
{
    match (kind, *value) {
        (ListKind::Ranges, Value::RangeIndex(index)) => Some(index),
        (ListKind::Locations, Value::LocIndex(index)) => Some(index),
        _ => None,
    }
}

// The place of the list of a kind that a value of the unit with a number names, as that of an attribute with a name.
fn named_by(parts: &Parts<'_>, kind: ListKind, unit: u32, name: u64, value: &Value) -> Option<u64>
    requires lists { HoldsLists parts.now }
    requires unit { unit < length parts.now.units.units.items }
    ensures named { (id : ℕ) → InEach parts.now (λ r. IsPlaceNamed r kind unit id name (meant_in (unit_at r unit).forest.section value.now) result) }
    ensures begins { IfSome result (λ at. (p : ℕ) × IsListPlace (section_held (lists_in parts.now kind)) p at) }
{
    if let Value::Offset(place) = *value {
        return named_by_offset(parts, kind, name, place);
    }
    let index = index_in(kind, value)?;
    named_by_index(parts, kind, unit, index)
}

// Appends what a value of the unit with a number names, as that of an attribute with a name.
fn push_value(
    namings: &mut Vec<Naming>,
    parts: &Parts<'_>,
    kind: ListKind,
    unit: u32,
    name: u64,
    value: &Value,
) -> Result<(), NoMemory>
    requires lists { HoldsLists parts.now }
    requires unit { unit < length parts.now.units.units.items }
    ensures joined { OnOk result ((id : ℕ) → InEach parts.now (λ r. AreJoined namings.old.items namings.new.items (λ naming. ValueNames r kind unit id name (meant_in (unit_at r unit).forest.section value.now) naming.0 × (naming.1 ≡ unit)))) }
    ensures known { OnOk result (All (IsSomeNaming (section_held (lists_in parts.now kind)) (length parts.now.units.units.items)) namings.old.items → All (IsSomeNaming (section_held (lists_in parts.now kind)) (length parts.now.units.units.items)) namings.new.items) }
{
    if let Some(at) = named_by(parts, kind, unit, name, value) {
        push(namings, (at, unit))?;
    }
    Ok(())
}

// Whether a value can name a list of a kind, as that of some attribute.
fn can_name(kind: ListKind, value: &Value) -> bool
    ensures { (section : List ℕ) → IsTrue result ↔ CanName kind (meant_in section value.now) }
{
    match (kind, *value) {
        (_, Value::Offset(_)) => true,
        (ListKind::Ranges, Value::RangeIndex(_)) => true,
        (ListKind::Locations, Value::LocIndex(_)) => true,
        _ => false,
    }
}

// Appends what the values of an entry name.
fn push_entry(
    namings: &mut Vec<Naming>,
    parts: &Parts<'_>,
    kind: ListKind,
    unit: u32,
    id: u32,
) -> Result<(), NoMemory>
    requires lists { HoldsLists parts.now }
    requires held { AreSomeUnits parts.now.units }
    requires unit { unit < length parts.now.units.units.items }
    requires id { id < length (held_at parts.now.units.units.items unit).forest.entries }
    ensures joined { OnOk result (InEach parts.now (λ r. AreJoined namings.old.items namings.new.items (IsColumnNaming r kind unit id (entry_of (unit_at r unit) id).count))) }
    ensures known { OnOk result (All (IsSomeNaming (section_held (lists_in parts.now kind)) (length parts.now.units.units.items)) namings.old.items → All (IsSomeNaming (section_held (lists_in parts.now kind)) (length parts.now.units.units.items)) namings.new.items) }
{
    let forest = unit_of(&parts.units, unit).forest();
    let table = table_of(&parts.units, unit);
    let entry = forest.entry(id);
    // Numbers of 32 bits name the values.
    let _count = forest.value_count();
    for column in 0..entry.count {
        let value = forest.value(entry.first + column);
        if !can_name(kind, &value) {
            continue;
        }
        let name = column_name(table, entry.decl, column);
        push_value(namings, parts, kind, unit, name, &value)?;
    }
    Ok(())
}

// Appends what the values of a unit name.
fn push_unit(
    namings: &mut Vec<Naming>,
    parts: &Parts<'_>,
    kind: ListKind,
    unit: u32,
) -> Result<(), NoMemory>
    requires lists { HoldsLists parts.now }
    requires held { AreSomeUnits parts.now.units }
    requires unit { unit < length parts.now.units.units.items }
    ensures joined { OnOk result (InEach parts.now (λ r. AreJoined namings.old.items namings.new.items (IsEntryNaming r kind unit (length (unit_at r unit).forest.entries)))) }
    ensures known { OnOk result (All (IsSomeNaming (section_held (lists_in parts.now kind)) (length parts.now.units.units.items)) namings.old.items → All (IsSomeNaming (section_held (lists_in parts.now kind)) (length parts.now.units.units.items)) namings.new.items) }
{
    for id in 0..unit_of(&parts.units, unit).forest().len() {
        push_entry(namings, parts, kind, unit, id)?;
    }
    Ok(())
}

// Appends what the values of all units name.
fn push_units(namings: &mut Vec<Naming>, parts: &Parts<'_>, kind: ListKind) -> Result<(), NoMemory>
    requires lists { HoldsLists parts.now }
    requires held { AreSomeUnits parts.now.units }
    ensures joined { OnOk result (InEach parts.now (λ r. AreJoined namings.old.items namings.new.items (IsUnitNaming r kind (length r.units)))) }
    ensures known { OnOk result (All (IsSomeNaming (section_held (lists_in parts.now kind)) (length parts.now.units.units.items)) namings.old.items → All (IsSomeNaming (section_held (lists_in parts.now kind)) (length parts.now.units.units.items)) namings.new.items) }
{
    for unit in 0..parts.units.units.len() as u32 {
        push_unit(namings, parts, kind, unit)?;
    }
    Ok(())
}

/// All that names lists of a kind, by the places of the lists, and of one list by the units that name it. A refusal tells a slot that
/// names nothing, or want of memory.
pub(crate) fn namings_of(
    alloc: Global,
    parts: &Parts<'_>,
    kind: ListKind,
    origin: u64,
) -> Result<Vec<Naming>, Refusal>
    requires lists { HoldsLists parts.now }
    requires held { AreSomeUnits parts.now.units }
    requires room { origin + length (lists_in parts.now kind).section.now < 2 ^ 64 }
    ensures all { IfOk result (λ namings. InEach parts.now (λ r. AreNamings r kind namings.items)) }
    ensures known { IfOk result (λ namings. All (IsSomeNaming (section_held (lists_in parts.now kind)) (length parts.now.units.units.items)) namings.items) }
    ensures order { IfOk result (λ namings. AreInOrder namings.items) }
    ensures fault { IfErr result (IsRefusedFor (IsFaultOf (FaultSlots (section_held (lists_in parts.now kind))) origin)) }
{
    let mut namings = Vec::new(alloc);
    push_slots(&mut namings, parts.lists(kind), origin)?;
    push_units(&mut namings, parts, kind)?;
    namings.sort_unstable();
    Ok(namings)
}
