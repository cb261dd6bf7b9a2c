// What values refer to.
ghost use Rattle.std.specs.Prelude.{◌≡◌, ◌≢◌, ◌≤◌, ◌<◌, ◌+◌, ◌^◌, ◌↔◌, ℕ, List, length, IfSome, MatchOption, IsTrue};
ghost use Rattle.form_codec.specs.Values.{meant_in};
ghost use Rattle.entry_arena.specs.Order.{IsInOrder};
ghost use Rattle.value_links.specs.Attributes.{offset_class};
ghost use Rattle.value_links.specs.Reading.{Linkable, unit_at, of_kind, part_at};
ghost use Rattle.value_links.specs.Attributes.OffsetClass.{LinePtr, RngList, LocList, AddrPtr, Views};
ghost use Rattle.value_links.specs.ListPlaces.{IsBaseOf};
ghost use Rattle.value_links.specs.Linked.{OffsetLinks, IndexLinks};
ghost use Rattle.value_links.specs.Links.{held_at, IsFoundFor, IsLinkFound};
ghost use Rattle.value_links.specs.inside.Links.{program_among, IsLastFrom, IsTargetFound, IsSectionTargetFound, AreProgramsApart, AreUnitsApart};
ghost use Rattle.value_links.specs.inside.Checks.{AreSomeUnits, InEach, IsNoExpr};
ghost use Rattle.value_links.specs.inside.ListPlaces.{AreContributions};
ghost use Rattle.value_links.specs.Parts.{HoldsParts, HoldsLists, lists_in, section_held};
ghost use Rattle.value_links.specs.inside.Namings.{class_of};
ghost use Rattle.value_links.specs.inside.Links.{base_class};

use crate::list_places::{holder_of, part_with_offsets};
use crate::located::viewed_list;
use crate::parts::Parts;
use crate::units::Units;
use dw_base::constants::{
    DW_AT_ADDR_BASE, DW_AT_DATA_MEMBER_LOCATION, DW_AT_FRAME_BASE, DW_AT_GNU_LOCVIEWS,
    DW_AT_LOCATION, DW_AT_LOCLISTS_BASE, DW_AT_MACROS, DW_AT_RANGES, DW_AT_RETURN_ADDR,
    DW_AT_RNGLISTS_BASE, DW_AT_SEGMENT, DW_AT_START_SCOPE, DW_AT_STATIC_LINK, DW_AT_STMT_LIST,
    DW_AT_STR_OFFSETS_BASE, DW_AT_STRING_LENGTH, DW_AT_USE_LOCATION, DW_AT_VTABLE_ELEM_LOCATION,
};
use entry_arena::Target;
use entry_read::Unit;
use form_codec::Value;
use line_machine::Head;
use list_model::{ListKind, table_with_base};

/// What the value of an attribute refers to. Units, entries, line number programs, contributions and slots are numbered from 0 in
/// their order.
#[derive(Clone, Copy, Debug, PartialEq, Eq)]
pub enum Link {
    /// No other thing: the value is what it says.
    Plain,
    /// An entry, or the end of the children of an entry, of the unit with a number.
    Place(u32, Target),
    /// A line number program.
    Lines(u32),
    /// The list of a kind that begins at a place of its section.
    List(ListKind, u64),
    /// A slot of a contribution to the section of lists of a kind, both by their numbers. The slot tells where the list begins.
    Slot(ListKind, u32, u32),
    /// A contribution to the section of lists of a kind.
    Base(ListKind, u32),
    /// The place of a location list, and that of view pairs which go with it. Both are in .debug_loclists.
    Views(u64, u64),
    /// A place of a section into which it isn't followed.
    Kept(u64),
}

// The unit with a number.
pub(crate) fn unit_of<'a, 'b>(held: &'a Units<'b>, number: u32) -> &'a Unit<'b>
    requires { number < length held.now.units.items }
    ensures { result.now ≡ held_at held.now.units.items number }
{
    &held.units[number as usize]
}

// The target of a local reference, which counts from the unit's first byte. Past the section's end there is none.
pub(crate) fn local_target(unit: &Unit<'_>, offset: u64) -> Option<Target>
    ensures { IsInOrder unit.now.forest → IsTargetFound unit.now.forest (unit.now.head.at + offset) result }
{
    let forest = unit.forest();
    let from = unit.head().at;
    let room = (forest.section().len() as u64).saturating_sub(from);
    if offset >= room {
        return None;
    }
    forest.target_at(from + offset)
}

// The number in 32 bits, where it has no more.
fn narrow(number: u64) -> Option<u32>
    ensures { MatchOption result (2 ^ 32 ≤ number) (λ same. same ≡ number) }
{
    u32::try_from(number).ok()
}

// The number of the last unit that begins at a place or before it.
fn last_from(units: &[Unit<'_>], place: u64) -> Option<usize>
    ensures bound { IfSome result (λ i. i < length units.now) }
    ensures last { AreUnitsApart units.now → IsLastFrom units.now place result }
{
    units
        .partition_point(|unit| unit.head().at <= place)
        .checked_sub(1)
}

// What a reference that counts from the first byte of .debug_info refers to.
pub(crate) fn section_target(units: &[Unit<'_>], place: u64) -> Option<Link>
    ensures { AreUnitsApart units.now → IsSectionTargetFound units.now place result }
{
    let number = last_from(units, place)?;
    let target = units[number].forest().target_at(place)?;
    let unit = narrow(number as u64)?;
    Some(Link::Place(unit, target))
}

// The number of the line number program that begins at a place of .debug_line.
fn program_from(programs: &[Head], place: u64) -> Option<u32>
    ensures { AreProgramsApart programs.now → MatchOption result ((i : ℕ) → i < length programs.now → (program_among programs.now i).at ≢ place) (λ i. (i < length programs.now) × ((program_among programs.now i).at ≡ place)) }
{
    match programs.binary_search_by_key(&place, |head| head.at) {
        Ok(number) => narrow(number as u64),
        Err(_) => None,
    }
}

// The same, as what a section offset refers to.
fn lines_at(parts: &Parts<'_>, place: u64) -> Option<Link>
    ensures { (file : List ℕ) (r : Linkable) (u id : ℕ) → HoldsParts file r parts.now → IsFoundFor (OffsetLinks r u id LinePtr place) result }
{
    let program = program_from(&parts.programs, place)?;
    Some(Link::Lines(program))
}

// The list of a kind that can begin at a place.
fn list_at(parts: &Parts<'_>, kind: ListKind, place: u64) -> Option<Link>
    requires held { AreContributions (lists_in parts.now kind) }
    ensures { (file : List ℕ) (r : Linkable) (u id : ℕ) → HoldsParts file r parts.now → IsFoundFor (OffsetLinks r u id (class_of kind) place) result }
{
    holder_of(parts.lists(kind), place)?;
    Some(Link::List(kind, place))
}

// The contribution to a section of lists of a kind whose offsets begin at a place.
fn base_at(parts: &Parts<'_>, kind: ListKind, place: u64) -> Option<Link>
    requires held { AreContributions (lists_in parts.now kind) }
    ensures { (file : List ℕ) (r : Linkable) (u id : ℕ) → HoldsParts file r parts.now → IsFoundFor (OffsetLinks r u id (base_class kind) place) result }
{
    let part = part_with_offsets(parts.lists(kind), place)?;
    Some(Link::Base(kind, part))
}

// Whether the section offsets of an attribute with a name are those of range lists.
pub(crate) fn is_of_ranges(name: u64) -> bool
    ensures { IsTrue result ↔ (offset_class name ≡ RngList) }
{
    matches!(name, DW_AT_RANGES | DW_AT_START_SCOPE)
}

// Whether they are those of location lists.
pub(crate) fn is_of_locations(name: u64) -> bool
    ensures { IsTrue result ↔ (offset_class name ≡ LocList) }
{
    matches!(
        name,
        DW_AT_LOCATION
            | DW_AT_STRING_LENGTH
            | DW_AT_RETURN_ADDR
            | DW_AT_DATA_MEMBER_LOCATION
            | DW_AT_FRAME_BASE
            | DW_AT_SEGMENT
            | DW_AT_STATIC_LINK
            | DW_AT_USE_LOCATION
            | DW_AT_VTABLE_ELEM_LOCATION
    )
}

// The place itself, where addresses of an address table begin there.
fn addresses_at(parts: &Parts<'_>, place: u64) -> Option<Link>
    ensures { (file : List ℕ) (r : Linkable) (u id : ℕ) → HoldsParts file r parts.now → IsFoundFor (OffsetLinks r u id AddrPtr place) result }
{
    table_with_base(&parts.tables, place)?;
    Some(Link::Kept(place))
}

// The view pairs at a place that an offset of an entry names.
fn views_at(parts: &Parts<'_>, unit: u32, id: u32, place: u64) -> Option<Link>
    requires lists { HoldsLists parts.now }
    requires held { AreSomeUnits parts.now.units }
    requires unit { unit < length parts.now.units.units.items }
    requires id { id < length (held_at parts.now.units.units.items unit).forest.entries }
    ensures { (file : List ℕ) (r : Linkable) → HoldsParts file r parts.now → IsFoundFor (OffsetLinks r unit id Views place) result }
{
    let list = viewed_list(parts, unit, id, place)?;
    Some(Link::Views(list, place))
}

// What a section offset refers to, which is the value of an attribute of this name in an entry.
fn section_place(parts: &Parts<'_>, unit: u32, id: u32, name: u64, place: u64) -> Option<Link>
    requires lists { HoldsLists parts.now }
    requires held { AreSomeUnits parts.now.units }
    requires unit { unit < length parts.now.units.units.items }
    requires id { id < length (held_at parts.now.units.units.items unit).forest.entries }
    ensures { (file : List ℕ) (r : Linkable) → HoldsParts file r parts.now → IsFoundFor (OffsetLinks r unit id (offset_class name) place) result }
{
    if is_of_ranges(name) {
        return list_at(parts, ListKind::Ranges, place);
    }
    if is_of_locations(name) {
        return list_at(parts, ListKind::Locations, place);
    }
    match name {
        DW_AT_STMT_LIST => lines_at(parts, place),
        DW_AT_RNGLISTS_BASE => base_at(parts, ListKind::Ranges, place),
        DW_AT_LOCLISTS_BASE => base_at(parts, ListKind::Locations, place),
        DW_AT_ADDR_BASE => addresses_at(parts, place),
        DW_AT_STR_OFFSETS_BASE | DW_AT_MACROS => Some(Link::Kept(place)),
        DW_AT_GNU_LOCVIEWS => views_at(parts, unit, id, place),
        _ => None,
    }
}

/// The contribution that the root of the unit with a number names for the indexes of lists of a kind, and the slot in it that an index
/// counts; or None where the root names none or it has no such slot.
pub(crate) fn slot_of(
    parts: &Parts<'_>,
    kind: ListKind,
    unit: u32,
    index: u64,
) -> Option<(u32, u32)>
    requires lists { HoldsLists parts.now }
    requires unit { unit < length parts.now.units.units.items }
    ensures known { IfSome result (λ found. (found.0 < length (lists_in parts.now kind).parts.items) × (found.1 < (part_at (section_held (lists_in parts.now kind)) found.0).slots)) }
    ensures slot { InEach parts.now (λ r. MatchOption result ((p : ℕ) → IsBaseOf r unit kind p → (part_at (of_kind r kind) p).slots ≤ index) (λ found. IsBaseOf r unit kind found.0 × (found.1 ≡ index))) }
{
    let part = parts.bases(kind)[unit as usize]?;
    let slot = narrow(index)?;
    if slot < parts.lists(kind).parts[part as usize].slots {
        Some((part, slot))
    } else {
        None
    }
}

// The slot of a contribution that an index of a list of a kind counts in the unit with a number.
fn slot_at(parts: &Parts<'_>, kind: ListKind, unit: u32, index: u64) -> Option<Link>
    requires lists { HoldsLists parts.now }
    requires unit { unit < length parts.now.units.units.items }
    ensures { (file : List ℕ) (r : Linkable) → HoldsParts file r parts.now → IsFoundFor (IndexLinks r unit kind index) result }
{
    let (part, slot) = slot_of(parts, kind, unit, index)?;
    Some(Link::Slot(kind, part, slot))
}

/// What a value refers to that stands in an entry of the unit with this number, both counted from 0, as the value of an attribute of
/// this name (DWARF 5 sections 7.5.4 and 7.5.5), or None exactly where it names nothing that it may name. An index of a list refers to
/// its slot, whatever the slot tells. View pairs go with the list of the entry's first DW_AT_location that has one. The value is no
/// expression: the operations of one name things themselves. It takes no memory.
pub fn resolve(parts: &Parts<'_>, unit: u32, id: u32, name: u64, value: &Value) -> Option<Link>
    requires lists { HoldsLists parts.now }
    requires held { AreSomeUnits parts.now.units }
    requires unit { unit < length parts.now.units.units.items }
    requires id { id < length (held_at parts.now.units.units.items unit).forest.entries }
    requires plain { IsNoExpr value.now }
    ensures { (file : List ℕ) (r : Linkable) → HoldsParts file r parts.now → IsLinkFound r unit id name (meant_in (unit_at r unit).forest.section value.now) result }
{
    match *value {
        Value::LocalRef(offset) => {
            let target = local_target(unit_of(&parts.units, unit), offset)?;
            Some(Link::Place(unit, target))
        }
        Value::SectionRef(place) => section_target(&parts.units.units, place),
        Value::Offset(place) => section_place(parts, unit, id, name, place),
        Value::RangeIndex(index) => slot_at(parts, ListKind::Ranges, unit, index),
        Value::LocIndex(index) => slot_at(parts, ListKind::Locations, unit, index),
        _ => Some(Link::Plain),
    }
}
