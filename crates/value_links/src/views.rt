// The view pairs that go with location lists, which are an extension of GNU's.
ghost use Rattle.std.specs.Prelude.{◌≡◌, ◌≤◌, ◌<◌, ◌+◌, ◌++◌, ◌∷◌, ◌^◌, ◌↔◌, ℕ, List, [], length, map, slice_index_or, IfOk, IfErr, OnOk, IsTrue};
ghost use Rattle.std.specs.List.{All, AllPairs};
ghost use Rattle.dw_base.specs.Refusals.{IsFaultOf, IsRefusedFor};
ghost use Rattle.form_codec.specs.Values.{meant_in};
ghost use Rattle.list_arena.specs.Held.{HeldList, AreListsApart};
ghost use Rattle.list_model.specs.declared.entry.ListKind.TheVariants.{Locations};
ghost use Rattle.loc_lists.specs.Views.{view_limit, FaultRun};
ghost use Rattle.value_links.specs.Reading.{Linkable, ListRead as AnyRead, ViewRead as AnyViews, unit_at, part_at};
ghost use Rattle.value_links.specs.Values.{entry_of};
ghost use Rattle.value_links.specs.ListPlaces.{IsListPlace};
ghost use Rattle.value_links.specs.Lists.{pair_total, AreListsOf, AreViewsRead};
ghost use Rattle.value_links.specs.ListFaults.{FaultOfViews};
ghost use Rattle.value_links.specs.Links.{held_at};
ghost use Rattle.value_links.specs.Parts.{HoldsParts, HoldsLists, section_held};
ghost use Rattle.value_links.specs.World.{HoldLists, HoldViews};
ghost use Rattle.value_links.specs.inside.Checks.{AreSomeUnits, InEach};
ghost use Rattle.value_links.specs.inside.ListPlaces.{AreContributions};
ghost use Rattle.value_links.specs.inside.Namings.{AreJoined};
ghost use Rattle.value_links.specs.inside.Views.{IsViewing, IsViewingFound, HaveViews, IsEntryViewing, IsUnitViewing, IsSomeViewing, IsBefore, AreViewings, AreLocationsHeld, IsListFrom, HasListFrom, HaveLists, is_bounded_code, raw_pairs, pairs_from, total_for, PassesWith, turn, AreTurned, IsRunRead, IsWanted, FaultWanted, AreRunsRead};

use crate::check::{attribute_of, table_of};
use crate::link::unit_of;
use crate::list_places::Contributions;
use crate::located::viewed_list;
use crate::parts::Parts;
use abbrev_tables::Spec;
use dw_base::constants::{
    DW_AT_GNU_LOCVIEWS, DW_LLE_OFFSET_PAIR, DW_LLE_START_END, DW_LLE_START_LENGTH,
    DW_LLE_STARTX_ENDX, DW_LLE_STARTX_LENGTH,
};
use dw_base::{Fault, Kind, NoMemory, Refusal};
use form_codec::Value;
use list_arena::{Lists, Views};
use list_model::RawEntry;
use loc_lists::{ViewPair, read_views};
use std::alloc::Global;

/// The place at which view pairs stand, and that of the list with which they go.
type Viewing = (u64, u64);

// The most view pairs that all runs of a file may have together.
const VIEW_LIMIT: u64 = 1 << 24;

// The view pairs that a value of an entry names, as that of an attribute with a name.
fn viewed_by(parts: &Parts<'_>, unit: u32, id: u32, name: u64, value: &Value) -> Option<Viewing>
    requires lists { HoldsLists parts.now }
    requires held { AreSomeUnits parts.now.units }
    requires unit { unit < length parts.now.units.units.items }
    requires id { id < length (held_at parts.now.units.units.items unit).forest.entries }
    ensures { InEach parts.now (λ r. IsViewingFound r unit id name (meant_in (unit_at r unit).forest.section value.now) result) }
{
    if name != DW_AT_GNU_LOCVIEWS {
        return None;
    }
    let Value::Offset(place) = *value else {
        return None;
    };
    let list = viewed_list(parts, unit, id, place)?;
    Some((place, list))
}

// Appends a viewing.
fn push(viewings: &mut Vec<Viewing>, viewing: Viewing) -> Result<(), NoMemory>
    ensures { OnOk result (viewings.new.items ≡ viewings.old.items ++ viewing ∷ []) }
{
    viewings.push(viewing)?;
    Ok(())
}

// Appends the view pairs that a value of an entry names, as that of an attribute with a name.
fn push_value(
    viewings: &mut Vec<Viewing>,
    parts: &Parts<'_>,
    unit: u32,
    id: u32,
    name: u64,
    value: &Value,
) -> Result<(), NoMemory>
    requires lists { HoldsLists parts.now }
    requires held { AreSomeUnits parts.now.units }
    requires unit { unit < length parts.now.units.units.items }
    requires id { id < length (held_at parts.now.units.units.items unit).forest.entries }
    ensures { OnOk result (InEach parts.now (λ r. AreJoined viewings.old.items viewings.new.items (IsViewing r unit id name (meant_in (unit_at r unit).forest.section value.now)))) }
{
    if let Some(viewing) = viewed_by(parts, unit, id, name, value) {
        push(viewings, viewing)?;
    }
    Ok(())
}

// Whether one of the columns of a declaration is that of view pairs.
fn have_views(columns: &[Spec]) -> bool
    ensures { IsTrue result ↔ HaveViews columns.now }
{
    columns
        .iter()
        .any(|column| column.name == DW_AT_GNU_LOCVIEWS)
}

// Appends the view pairs that the values of an entry name.
fn push_entry(
    viewings: &mut Vec<Viewing>,
    parts: &Parts<'_>,
    unit: u32,
    id: u32,
) -> Result<(), NoMemory>
    requires lists { HoldsLists parts.now }
    requires held { AreSomeUnits parts.now.units }
    requires unit { unit < length parts.now.units.units.items }
    requires id { id < length (held_at parts.now.units.units.items unit).forest.entries }
    ensures { OnOk result (InEach parts.now (λ r. AreJoined viewings.old.items viewings.new.items (IsEntryViewing r unit id (entry_of (unit_at r unit) id).count))) }
{
    let own = unit_of(&parts.units, unit);
    let table = table_of(&parts.units, unit);
    let entry = own.forest().entry(id);
    // Few declarations have such a column.
    if !have_views(table.columns(entry.decl)) {
        return Ok(());
    }
    for column in 0..entry.count {
        let (name, value) = attribute_of(own, table, id, column);
        push_value(viewings, parts, unit, id, name, &value)?;
    }
    Ok(())
}

// Appends those that the values of a unit name.
fn push_unit(viewings: &mut Vec<Viewing>, parts: &Parts<'_>, unit: u32) -> Result<(), NoMemory>
    requires lists { HoldsLists parts.now }
    requires held { AreSomeUnits parts.now.units }
    requires unit { unit < length parts.now.units.units.items }
    ensures { OnOk result (InEach parts.now (λ r. AreJoined viewings.old.items viewings.new.items (IsUnitViewing r unit (length (unit_at r unit).forest.entries)))) }
{
    for id in 0..unit_of(&parts.units, unit).forest().len() {
        push_entry(viewings, parts, unit, id)?;
    }
    Ok(())
}

// Appends those that the values of all units name.
fn push_units(viewings: &mut Vec<Viewing>, parts: &Parts<'_>) -> Result<(), NoMemory>
    requires lists { HoldsLists parts.now }
    requires held { AreSomeUnits parts.now.units }
    ensures { OnOk result (InEach parts.now (λ r. AreJoined viewings.old.items viewings.new.items (IsSomeViewing r (length r.units)))) }
{
    for unit in 0..parts.units.units.len() as u32 {
        push_unit(viewings, parts, unit)?;
    }
    Ok(())
}

// All view pairs that values name, by rising place, and those of one place by the rising place of their list.
fn viewings_of(alloc: Global, parts: &Parts<'_>) -> Result<Vec<Viewing>, NoMemory>
    requires lists { HoldsLists parts.now }
    requires held { AreSomeUnits parts.now.units }
    ensures all { IfOk result (λ viewings. InEach parts.now (λ r. AreViewings r viewings.items)) }
    ensures rising { IfOk result (λ viewings. AllPairs IsBefore viewings.items) }
{
    let mut viewings: Vec<Viewing> = Vec::new(alloc);
    push_units(&mut viewings, parts)?;
    viewings.sort_unstable();
    viewings.dedup();
    Ok(viewings)
}

// Whether view numbers go with an entry: it is an item from a start up to an end (DWARF 5 section 7.7.3).
fn is_bounded(entry: &RawEntry) -> bool
    ensures { result ≡ is_bounded_code entry.now.code }
{
    matches!(
        entry.code,
        DW_LLE_STARTX_ENDX
            | DW_LLE_STARTX_LENGTH
            | DW_LLE_OFFSET_PAIR
            | DW_LLE_START_END
            | DW_LLE_START_LENGTH
    )
}

// How many view pairs go with the list with a number.
fn pair_count(lists: &Lists, number: usize) -> u64
    requires { number < length lists.now }
    ensures { (d : HeldList) → result ≡ raw_pairs (slice_index_or lists.now number d).raw }
{
    let mut count = 0;
    for index in 0..lists.entry_count(number) {
        if is_bounded(&lists.entry(number, index)) {
            count += 1;
        }
    }
    count
}

// The number of the list that begins at a place.
fn list_from(lists: &Lists, place: u64) -> usize
    requires apart { AreListsApart lists.now }
    requires known { HasListFrom lists.now place }
    ensures inside { result < length lists.now }
    ensures from { (d : HeldList) → IsListFrom lists.now place (slice_index_or lists.now result d) }
{
    match lists.find(place) {
        Some(number) => number,
        // A list begins there.
        None => unreachable!(),
    }
}

// How many view pairs go with the list that begins at a place.
fn pairs_with(lists: &Lists, place: u64) -> u64
    requires apart { AreListsApart lists.now }
    requires known { HasListFrom lists.now place }
    ensures { result ≡ pairs_from lists.now place }
{
    pair_count(lists, list_from(lists, place))
}

// Whether all view pairs together keep the limit. A fault is that of the run with which they pass it.
fn check_total(viewings: &[Viewing], lists: &Lists, origin: u64) -> Result<(), Fault>
    requires apart { AreListsApart lists.now }
    requires lists { HaveLists viewings.now lists.now }
    requires room { All (λ viewing. origin + viewing.0 < 2 ^ 64) viewings.now }
    ensures few { OnOk result (total_for lists.now viewings.now ≤ view_limit) }
    ensures fault { IfErr result (PassesWith viewings.now lists.now origin) }
{
    let mut total = 0;
    for (place, list) in viewings {
        let count = pairs_with(lists, *list);
        if count > VIEW_LIMIT - total {
            return Err(Fault {
                kind: Kind::Limit,
                place: origin + *place,
            });
        }
        total += count;
    }
    Ok(())
}

// View pairs, the place of the list before their own.
fn turn_all(alloc: Global, viewings: &[Viewing]) -> Result<Vec<Viewing>, NoMemory>
    ensures { IfOk result (λ turned. turned.items ≡ map turn viewings.now) }
{
    let turned = viewings
        .iter()
        .map(|viewing| (viewing.1, viewing.0))
        .collect(alloc)?;
    Ok(turned)
}

// View pairs by the places of their lists, and those of one list by their own.
fn by_list(alloc: Global, viewings: &[Viewing]) -> Result<Vec<Viewing>, NoMemory>
    ensures { IfOk result (λ turned. AreTurned viewings.now turned.items) }
{
    let mut turned = turn_all(alloc, viewings)?;
    turned.sort_unstable();
    Ok(turned)
}

// Reads the view pairs at a place that go with the list with a number.
fn read_run(
    alloc: Global,
    contributions: &Contributions<'_>,
    lists: &Lists,
    number: usize,
    place: u64,
    origin: u64,
) -> Result<Vec<ViewPair>, Refusal>
    requires tiled { AreContributions contributions.now }
    requires inside { number < length lists.now }
    requires stands { (d : HeldList) → IsListPlace (section_held contributions.now) (slice_index_or lists.now number d).part place }
    requires few { (d : HeldList) → raw_pairs (slice_index_or lists.now number d).raw ≤ view_limit }
    requires room { origin + length contributions.now.section.now < 2 ^ 64 }
    ensures read { IfOk result (λ pairs. (d : HeldList) → IsRunRead (section_held contributions.now) (slice_index_or lists.now number d) place (record { list = (slice_index_or lists.now number d).at; at = place; pairs = pairs.items })) }
    ensures fault { IfErr result (λ refusal. (d : HeldList) → IsRefusedFor (IsFaultOf (FaultRun contributions.now.section.now (part_at (section_held contributions.now) (slice_index_or lists.now number d).part) place (raw_pairs (slice_index_or lists.now number d).raw)) origin) refusal) }
{
    let part = &contributions.parts[lists.part(number) as usize];
    let count = pair_count(lists, number);
    read_views(alloc, contributions.section, part, place, count, origin)
}

// Reads the view pairs at places, each behind that of the list with which they go.
fn read_runs(
    alloc: Global,
    contributions: &Contributions<'_>,
    lists: &Lists,
    turned: &[Viewing],
    origin: u64,
) -> Result<Views, Refusal>
    requires tiled { AreContributions contributions.now }
    requires apart { AreListsApart lists.now }
    requires lists { All (IsWanted (section_held contributions.now) lists.now) turned.now }
    requires room { origin + length contributions.now.section.now < 2 ^ 64 }
    ensures read { IfOk result (λ views. AreRunsRead (section_held contributions.now) lists.now turned.now views) }
    ensures fault { IfErr result (IsRefusedFor (IsFaultOf (FaultWanted (section_held contributions.now) lists.now turned.now) origin)) }
{
    let mut views = Views::new(alloc);
    for (list, place) in turned {
        let number = list_from(lists, *list);
        let pairs = read_run(alloc, contributions, lists, number, *place, origin)?;
        views.push(*list, *place, &pairs)?;
    }
    views.shrink_to_fit();
    Ok(views)
}

/// The view pairs that values name, once for each location list with which they go, by rising place of the list and then by their own.
/// `lists` are the location lists that something names, by rising place, and `origin` is the file offset of .debug_loclists.
///
/// A refusal names a fault of the section, with its place in the file: `Short` and `LebWide` as `read_views` tells, and `Limit` at the
/// run with which all have more than 2^24 pairs, in the order of their places, once for each list. `NoMemory` may come wherever memory
/// is wanting.
pub(crate) fn read_view_runs(
    alloc: Global,
    parts: &Parts<'_>,
    lists: &Lists,
    origin: u64,
) -> Result<Views, Refusal>
    requires held { AreSomeUnits parts.now.units }
    requires parts { HoldsLists parts.now }
    requires lists { AreLocationsHeld parts.now lists.now }
    requires room { origin + length parts.now.locations.section.now < 2 ^ 64 }
    ensures views { IfOk result (λ views. (file : List ℕ) (r : Linkable) (read : List AnyRead) → HoldsParts file r parts.now → AreListsOf r Locations read → HoldLists r Locations read lists.now → (runs : List AnyViews) × AreViewsRead r read runs × HoldViews runs views × (pair_total runs ≤ view_limit)) }
    ensures fault { IfErr result (λ refusal. (file : List ℕ) (r : Linkable) → HoldsParts file r parts.now → IsRefusedFor (IsFaultOf (FaultOfViews r) origin) refusal) }
{
    let viewings = viewings_of(alloc, parts)?;
    check_total(&viewings, lists, origin)?;
    let turned = by_list(alloc, &viewings)?;
    read_runs(alloc, &parts.locations, lists, &turned, origin)
}
