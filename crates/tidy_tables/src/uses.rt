// The uses of declarations.
ghost use Rattle.std.specs.Prelude.{◌≡◌, ◌<◌, ◌+◌, ◌^◌, ℕ, length, slice_index, OnOk, IfOk};
ghost use Rattle.dw_base.specs.declared.fault.Reach.{Reach};
ghost use Rattle.value_links.specs.World.{IsWorldOf};
ghost use Rattle.tidy_tables.specs.inside.UseCounts.{HaveDeclarations, AddsUses, AreCountable, AreCounted, AreNone};

use dw_base::NoMemory;
use entry_arena::Entry;
use entry_read::Unit;
use std::alloc::Global;
use value_links::{NamedTable, World};

/// How many entries have each declaration of a table.
#[derive(Drop)]
pub(crate) struct Uses {
    /// The entries of each declaration, in the order of the table.
    pub(crate) counts: Vec<u64>,
}

// For each table no uses yet.
fn no_uses(alloc: Global, tables: &Vec<NamedTable>) -> Result<Vec<Uses>, NoMemory>
    ensures { IfOk result (λ all. AreNone tables.now.items all.items) }
{
    let mut all = Vec::new(alloc);
    for named in tables.iter() {
        let counts = vec![in alloc; 0u64; named.table.len() as usize]?;
        all.push(Uses { counts })?;
    }
    Ok(all)
}

// Adds the uses that entries make of the declarations of their table.
fn add_entries(counts: &mut Vec<u64>, entries: &[Entry])
    requires inside { HaveDeclarations (length counts.old.items) entries.now }
    requires room { (number : ℕ) → number < length counts.old.items → slice_index counts.old.items number + length entries.now < 2 ^ 64 }
    ensures { AddsUses entries.now counts.old.items counts.new.items }
{
    for entry in entries.iter() {
        counts[entry.decl as usize] += 1;
    }
}

// Counts for each table how many entries have each of its declarations, over all units whose table it is. `table_of` has for
// each unit the number of its table.
fn count_among(
    alloc: Global,
    units: &Vec<Unit<'_>>,
    tables: &Vec<NamedTable>,
    table_of: &Vec<u32>,
) -> Result<Vec<Uses>, NoMemory>
    requires { AreCountable units.now.items tables.now.items table_of.now.items }
    ensures { IfOk result (λ all. AreCounted units.now.items tables.now.items all.items) }
{
    let mut all = no_uses(alloc, tables)?;
    for u in 0..units.len() {
        let uses = &mut all[table_of[u] as usize];
        add_entries(&mut uses.counts, units[u].forest().entries());
    }
    Ok(all)
}

/// Counts for each table that units of a file name how many entries have each of its declarations, over all units that name it.
pub(crate) fn count_uses(alloc: Global, world: &World<'_>) -> Result<Vec<Uses>, NoMemory>
    requires world { (reach : Reach) × IsWorldOf world.now.image reach world.now }
    ensures { IfOk result (λ all. AreCounted world.now.units world.now.tables all.items) }
{
    count_among(alloc, world.units(), world.tables(), world.table_numbers())
}
