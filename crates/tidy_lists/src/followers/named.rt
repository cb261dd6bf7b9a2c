// The numbers of the lists and of the runs of view pairs that values and slots name.
ghost use Rattle.std.specs.Prelude.{◌≡◌, ◌<◌, ◌↔◌, ℕ, length, Some};
ghost use Rattle.dw_base.specs.declared.fault.Reach.{Reach};
ghost use Rattle.value_links.specs.Links.{held_at};
ghost use Rattle.value_links.specs.World.{IsWorldOf, contributions_held, contribution_at};
ghost use Rattle.tidy_lists.specs.inside.NamedNumbers.{OfReading, IsListNumber, IsRunNumber, IsThere, IsToldBy, IsNamedBy, IsNamedBySlot};

use form_codec::Value;
use list_model::ListKind;
use value_links::{Link, World};

/// What is sought among what values name: the lists of a kind, or runs of view pairs.
#[derive(Clone, Copy)]
pub(crate) enum Sought {
    Lists(ListKind),
    Runs,
}

// The number of the list of a kind that begins at a place.
fn list_number(world: &World<'_>, kind: ListKind, place: u64) -> u32
    requires world { (reach : Reach) × IsWorldOf world.now.image reach world.now }
    requires there { OfReading world.now (λ r. (k : ℕ) × IsListNumber r kind place k) }
    ensures { OfReading world.now (λ r. IsListNumber r kind place result) }
{
    match world.lists(kind).find(place) {
        Some(number) => number as u32,
        // One begins there.
        None => unreachable!(),
    }
}

// The number of the run of view pairs that goes with the list at a place and stands at another.
fn run_number(world: &World<'_>, list: u64, place: u64) -> u32
    requires world { (reach : Reach) × IsWorldOf world.now.image reach world.now }
    requires there { OfReading world.now (λ r. (k : ℕ) × IsRunNumber r list place k) }
    ensures { OfReading world.now (λ r. IsRunNumber r list place result) }
{
    match world.views().find(list, place) {
        Some(number) => number as u32,
        // One stands there.
        None => unreachable!(),
    }
}

// The number of what is sought, where a link tells one.
fn told_by(world: &World<'_>, sought: Sought, link: Link) -> Option<u32>
    requires world { (reach : Reach) × IsWorldOf world.now.image reach world.now }
    requires there { OfReading world.now (λ r. IsThere r link) }
    ensures { OfReading world.now (λ r. (k : ℕ) → (result ≡ Some k) ↔ IsToldBy sought r link k) }
{
    match sought {
        Sought::Lists(kind) => match link {
            Link::List(of, place) => {
                if of != kind {
                    return None;
                }
                Some(list_number(world, kind, place))
            }
            _ => None,
        },
        Sought::Runs => match link {
            Link::Views(list, place) => Some(run_number(world, list, place)),
            _ => None,
        },
    }
}

/// The number of what is sought, where the value with a number among those of a unit names one by its place.
pub(crate) fn named_by(world: &World<'_>, sought: Sought, unit: u32, number: u32) -> Option<u32>
    requires world { (reach : Reach) × IsWorldOf world.now.image reach world.now }
    requires unit { unit < length world.now.units }
    requires number { number < length (held_at world.now.units unit).forest.values }
    ensures { OfReading world.now (λ r. (k : ℕ) → (result ≡ Some k) ↔ IsNamedBy sought r unit number k) }
{
    match world.units()[unit as usize].forest().value(number) {
        Value::Offset(_) => told_by(world, sought, world.link(unit, number)),
        // Only an offset into a section names a place. Most values are none, and aren't resolved.
        _ => None,
    }
}

/// The number of the list of a kind that a slot of a contribution names.
pub(crate) fn named_by_slot(world: &World<'_>, kind: ListKind, part: u32, slot: u32) -> u32
    requires world { (reach : Reach) × IsWorldOf world.now.image reach world.now }
    requires part { part < length (contributions_held world.now kind) }
    requires slot { slot < (contribution_at world.now kind part).slots }
    ensures { OfReading world.now (λ r. (k : ℕ) → (k ≡ result) ↔ IsNamedBySlot kind r part slot k) }
{
    list_number(world, kind, world.told(kind, part, slot))
}
