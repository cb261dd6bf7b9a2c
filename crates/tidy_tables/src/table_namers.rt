// The units that name each abbreviation table.
ghost use Rattle.std.specs.Prelude.{◌<◌, ◌^◌, [], length, IfOk};
ghost use Rattle.std.specs.List.{All};
ghost use Rattle.tidy_tables.specs.inside.TableNamers.{AreNamers};

use dw_base::NoMemory;
use std::alloc::Global;

/// The units that name one table.
#[derive(Drop)]
pub(crate) struct Namers {
    /// Their numbers, rising.
    pub units: Vec<u32>,
}

// For each table no units yet.
fn no_namers(alloc: Global, tables: usize) -> Result<Vec<Namers>, NoMemory>
    ensures { IfOk result (λ all. AreNamers [] tables 0 all.items) }
{
    let mut all = Vec::new(alloc);
    for _ in 0..tables {
        all.push(Namers {
            units: Vec::new(alloc),
        })?;
    }
    Ok(all)
}

/// For each of so many tables the numbers of the units that name it. `table_of` has for each unit the number of its table. The
/// only error is want of memory.
pub(crate) fn units_by_table(
    alloc: Global,
    table_of: &Vec<u32>,
    tables: usize,
) -> Result<Vec<Namers>, NoMemory>
    requires inside { All (λ number. number < tables) table_of.now.items }
    requires few { length table_of.now.items < 2 ^ 32 }
    ensures { IfOk result (λ all. AreNamers table_of.now.items tables (length table_of.now.items) all.items) }
{
    let mut all = no_namers(alloc, tables)?;
    for u in 0..table_of.len() {
        let namers = &mut all[table_of[u] as usize];
        namers.units.push(u as u32)?;
    }
    Ok(all)
}
