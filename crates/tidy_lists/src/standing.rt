// Where the lists and view pairs of a file stand.
ghost use Rattle.std.specs.Prelude.{◌≡◌, ◌<◌, ℕ, length, map, slice_index_or, IfOk};
ghost use Rattle.dw_base.specs.declared.fault.Reach.{Reach};
ghost use Rattle.list_arena.specs.Held.{HeldList};
ghost use Rattle.value_links.specs.World.{IsWorldOf, lists_held};
ghost use Rattle.tidy_lists.specs.inside.Compared.{OfBoth};
ghost use Rattle.tidy_lists.specs.inside.DuePlaces.{runs_held, standing, IsPartOfList, StandRuns};

use crate::due::{Place, run_count};
use dw_base::NoMemory;
use list_model::ListKind;
use std::alloc::Global;
use value_links::World;

/// Where the lists of a kind stand, by their numbers.
pub(crate) fn list_places(
    alloc: Global,
    world: &World<'_>,
    kind: ListKind,
) -> Result<Vec<Place>, NoMemory>
    ensures { IfOk result (λ places. places.items ≡ map standing (lists_held world.now kind)) }
{
    let mut places = Vec::new(alloc);
    let lists = world.lists(kind);
    for number in 0..lists.len() {
        let place = Place {
            part: lists.part(number),
            at: lists.at(number),
        };
        places.push(place)?;
    }
    Ok(places)
}

// The number of the contribution of the list of a kind that begins at a place.
fn part_of_list(world: &World<'_>, kind: ListKind, at: u64) -> u32
    requires world { (reach : Reach) × IsWorldOf world.now.image reach world.now }
    requires there { (k : ℕ) × (k < length (lists_held world.now kind)) × ((list : HeldList) → (slice_index_or (lists_held world.now kind) k list).at ≡ at) }
    ensures { OfBoth world.now world.now (λ r s. IsPartOfList kind s at result) }
{
    let lists = world.lists(kind);
    match lists.find(at) {
        Some(number) => lists.part(number),
        // A list begins there.
        None => unreachable!(),
    }
}

/// Where the runs of view pairs stand that go with lists of a kind, by their numbers. Their contributions are those of their lists.
pub(crate) fn run_places(
    alloc: Global,
    world: &World<'_>,
    kind: ListKind,
) -> Result<Vec<Place>, NoMemory>
    requires { (reach : Reach) × IsWorldOf world.now.image reach world.now }
    ensures count { IfOk result (λ places. length places.items ≡ length (runs_held world.now kind)) }
    ensures each { IfOk result (λ places. OfBoth world.now world.now (λ r s. StandRuns kind s (length places.items) places.items)) }
{
    let mut places = Vec::new(alloc);
    let views = world.views();
    for number in 0..run_count(world, kind) {
        let part = part_of_list(world, kind, views.list(number));
        places.push(Place {
            part,
            at: views.at(number),
        })?;
    }
    Ok(places)
}
