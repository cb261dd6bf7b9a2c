// The entries of units.
ghost use Rattle.std.specs.Prelude.{◌<◌, ◌≤◌, ◌+◌, ◌^◌, length, IfOk};
ghost use Rattle.entry_read.specs.Heads.{IsHead};
ghost use Rattle.entry_read.specs.Units.{IsTable};

use crate::values::held;
use abbrev_tables::Table;
use dw_base::Refusal;
use entry_arena::Forest;
use entry_read::{Counts, UnitHead, heads, read_unit};
use std::alloc::Global;

/// What is told of the entries that were read.
#[derive(Clone, Copy, Default)]
pub struct Totals {
    pub entries: u64,
    pub values: u64,
    /// Places, depths, and what values hold, modulo 2^64.
    pub sum: u64,
}

// The totals with those of a unit.
fn with_forest(totals: Totals, forest: &Forest<'_>) -> Totals {
    let mut sum = totals.sum;
    for entry in forest.entries().iter() {
        sum = sum
            .wrapping_add(u64::from(entry.at))
            .wrapping_add(u64::from(entry.depth));
    }
    for number in 0..forest.value_count() {
        sum = sum.wrapping_add(held(forest.value(number)));
    }
    for end in forest.chain_ends().iter() {
        sum = sum
            .wrapping_add(u64::from(end.at))
            .wrapping_add(u64::from(end.entry));
    }
    Totals {
        entries: totals.entries.wrapping_add(u64::from(forest.len())),
        values: totals.values.wrapping_add(u64::from(forest.value_count())),
        sum,
    }
}

// The same of a unit that is read.
fn with_unit(
    alloc: Global,
    totals: Totals,
    info: &[u8],
    head: &UnitHead,
    table: &Table,
) -> Result<Totals, Refusal>
    requires head { IsHead info.now head.now }
    requires table { IsTable table.now }
{
    let before = Counts {
        entries: totals.entries,
        values: totals.values,
    };
    let unit = read_unit(alloc, info, head, table, before, 0)?;
    Ok(with_forest(totals, unit.forest()))
}

/// The totals of all units of .debug_info, which have one table.
pub fn totals_of_entries(alloc: Global, info: &[u8], table: &[u8]) -> Result<Totals, Refusal>
    requires { 0 < length table.now }
{
    let table = Table::read(alloc, table, 0, 0)?;
    let heads = heads(alloc, info, 0)?;
    let mut totals = Totals::default();
    for head in heads.iter() {
        totals = with_unit(alloc, totals, info, head, &table)?;
    }
    Ok(totals)
}
