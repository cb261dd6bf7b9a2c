// Entries: those that had one declaration have one, and those that had others have others.
ghost use Rattle.std.specs.Prelude.{◌≡◌, ◌<◌, ℕ, length, IfOk};
ghost use Rattle.dw_base.specs.declared.fault.Reach.{Reach};
ghost use Rattle.value_links.specs.Links.{held_at};
ghost use Rattle.value_links.specs.Same.{Same};
ghost use Rattle.value_links.specs.World.{IsWorldOf};
ghost use Rattle.tidy_places.specs.Firsts.{IsLeastFound};
ghost use Rattle.tidy_tables.specs.Untidy.{IsUntidyEntry, IsFurther};
ghost use Rattle.tidy_tables.specs.inside.Compared.{OfBoth};

use crate::pairings::{add_unit, no_pairings};
use dw_base::NoMemory;
use entry_arena::Entry;
use std::alloc::Global;
use value_links::World;

// The entries of the unit with a number.
fn entries_of<'a>(world: &'a World<'_>, unit: usize) -> &'a [Entry]
    requires { unit < length world.now.units }
    ensures { result.now ≡ (held_at world.entry.now.units unit).forest.entries }
{
    world.units()[unit].forest().entries()
}

/// The first entry of a written file whose declaration isn't the one that corresponds to its old one, by its place in .debug_info. Each
/// old table is written at one place.
pub(crate) fn first_entry(
    alloc: Global,
    before: &World<'_>,
    after: &World<'_>,
) -> Result<Option<u64>, NoMemory>
    requires before { (reach : Reach) × IsWorldOf before.now.image reach before.now }
    requires after { (reach : Reach) × IsWorldOf after.now.image reach after.now }
    requires same { Same before.now.image after.now.image }
    requires once { OfBoth before.now after.now (λ r s. (q : ℕ) → IsFurther r.links s.links q → ⊥) }
    ensures { IfOk result (λ place. OfBoth before.now after.now (λ r s. IsLeastFound (IsUntidyEntry r.links s.links) place)) }
{
    let mut all = no_pairings(alloc, before.tables().len())?;
    let table_of = before.table_numbers();
    for unit in 0..table_of.len() {
        let pairings = &mut all[table_of[unit] as usize];
        let (old, written) = (entries_of(before, unit), entries_of(after, unit));
        if let Some(place) = add_unit(pairings, old, written)? {
            return Ok(Some(place));
        }
    }
    Ok(None)
}
