// The list of an entry's location, with which its view pairs go. View pairs are an extension of GNU's.
ghost use Rattle.std.specs.Prelude.{◌≡◌, ◌<◌, ◌↔◌, ℕ, List, length, IsTrue, MatchOption};
ghost use Rattle.form_codec.specs.Values.{meant_in};
ghost use Rattle.value_links.specs.Reading.{unit_at};
ghost use Rattle.value_links.specs.Linked.{is_located as is_located_attribute, TellsPlace, IsFirstLocated, AreTogether, ViewLinks};
ghost use Rattle.value_links.specs.Linked.Linked.{ViewsAt};
ghost use Rattle.value_links.specs.Links.{held_at};
ghost use Rattle.value_links.specs.Parts.{HoldsLists, section_held};
ghost use Rattle.value_links.specs.inside.Checks.{AreSomeUnits, InEach};
ghost use Rattle.value_links.specs.inside.ListPlaces.{AreContributions};
ghost use Rattle.list_model.specs.declared.entry.ListKind.TheVariants.{Locations};

use crate::check::{attribute_of, table_of};
use crate::link::{slot_of, unit_of};
use crate::list_places::{Contributions, holder_of, told_by};
use crate::parts::Parts;
use dw_base::constants::DW_AT_LOCATION;
use form_codec::Value;
use list_model::ListKind;

// Whether an attribute is a DW_AT_location with a location list.
fn is_located(name: u64, value: &Value) -> bool
    ensures { (section : List ℕ) → result ≡ is_located_attribute (name, meant_in section value.now) }
{
    match *value {
        Value::Offset(_) | Value::LocIndex(_) => name == DW_AT_LOCATION,
        _ => false,
    }
}

// The place that the value of such an attribute tells in the unit with a number, or None where it names nothing. It is where a list
// begins, or what a slot tells, whatever stands there.
fn place_told(parts: &Parts<'_>, unit: u32, value: &Value) -> Option<u64>
    requires lists { HoldsLists parts.now }
    requires unit { unit < length parts.now.units.units.items }
    ensures { InEach parts.now (λ r. MatchOption result ((list : ℕ) → ¬ TellsPlace r unit (meant_in (unit_at r unit).forest.section value.now) list) (TellsPlace r unit (meant_in (unit_at r unit).forest.section value.now))) }
{
    match *value {
        Value::Offset(place) => {
            holder_of(&parts.locations, place)?;
            Some(place)
        }
        Value::LocIndex(index) => {
            let (part, slot) = slot_of(parts, ListKind::Locations, unit, index)?;
            Some(told_by(&parts.locations, part, slot))
        }
        _ => None,
    }
}

// The place that the first DW_AT_location with a location list of an entry tells, or None where there is none or it names nothing.
fn located_place(parts: &Parts<'_>, unit: u32, id: u32) -> Option<u64>
    requires lists { HoldsLists parts.now }
    requires held { AreSomeUnits parts.now.units }
    requires unit { unit < length parts.now.units.units.items }
    requires id { id < length (held_at parts.now.units.units.items unit).forest.entries }
    ensures { InEach parts.now (λ r. MatchOption result ((list : ℕ) → ¬ IsFirstLocated r unit id list) (IsFirstLocated r unit id)) }
{
    let own = unit_of(&parts.units, unit);
    let table = table_of(&parts.units, unit);
    for column in 0..own.forest().entry(id).count {
        let (name, value) = attribute_of(own, table, id, column);
        if is_located(name, &value) {
            return place_told(parts, unit, &value);
        }
    }
    None
}

// Whether view pairs at a place can go with what begins at another: they stand in the contribution of the list, where one begins there.
fn are_together(contributions: &Contributions<'_>, list: u64, place: u64) -> bool
    requires tiled { AreContributions contributions.now }
    ensures { IsTrue result ↔ AreTogether (section_held contributions.now) list place }
{
    let Some(part) = holder_of(contributions, list) else {
        return true;
    };
    match holder_of(contributions, place) {
        Some(own) => own == part,
        None => false,
    }
}

/// The place of the location list with which view pairs go that an offset of an entry names, or None exactly where it names none. It is
/// what the location tells, whether or not a list can begin there.
pub(crate) fn viewed_list(parts: &Parts<'_>, unit: u32, id: u32, place: u64) -> Option<u64>
    requires lists { HoldsLists parts.now }
    requires held { AreSomeUnits parts.now.units }
    requires unit { unit < length parts.now.units.units.items }
    requires id { id < length (held_at parts.now.units.units.items unit).forest.entries }
    ensures { InEach parts.now (λ r. MatchOption result ((list : ℕ) → ¬ ViewLinks r unit id place (ViewsAt list place)) (λ list. ViewLinks r unit id place (ViewsAt list place))) }
{
    let list = located_place(parts, unit, id)?;
    if are_together(&parts.locations, list, place) {
        Some(list)
    } else {
        None
    }
}
