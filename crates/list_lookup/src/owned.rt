// The location lists that units own.
ghost use Rattle.std.specs.Prelude.{length, IfOk};
ghost use Rattle.dw_base.specs.declared.fault.Reach.{Reach};
ghost use Rattle.value_links.specs.World.{IsWorldOf};
ghost use Rattle.list_lookup.specs.Owned.{OwnNothing, AreAllOwned};

use dw_base::NoMemory;
use list_model::ListKind;
use std::alloc::Global;
use value_links::World;

/// The location lists that a unit owns.
#[derive(Drop)]
pub struct Owned {
    /// Their numbers, rising.
    pub lists: Vec<usize>,
}

// For each of so many units no lists yet.
fn nothing_owned(alloc: Global, units: usize) -> Result<Vec<Owned>, NoMemory>
    ensures { IfOk result (λ all. OwnNothing units all.items) }
{
    let mut all = Vec::new(alloc);
    for _ in 0..units {
        all.push(Owned {
            lists: Vec::new(alloc),
        })?;
    }
    Ok(all)
}

/// For each unit of a file the location lists that it owns: those that an entry of it names, and none of a unit before. The only error
/// is want of memory.
pub fn owned_lists(alloc: Global, world: &World<'_>) -> Result<Vec<Owned>, NoMemory>
    requires world { (reach : Reach) × IsWorldOf world.now.image reach world.now }
    ensures { IfOk result (λ all. AreAllOwned world.now (length world.now.locations) all.items) }
{
    let mut all = nothing_owned(alloc, world.units().len())?;
    let lists = world.lists(ListKind::Locations);
    for number in 0..lists.len() {
        if let Some(unit) = lists.owner(number) {
            all[unit as usize].lists.push(number)?;
        }
    }
    Ok(all)
}
