// Whole tables: where they stand, which declarations they have, and their codes.
ghost use Rattle.std.specs.Prelude.{◌≡◌, ◌⊎◌, ℕ, length, IfOk};
ghost use Rattle.dw_base.specs.declared.fault.Reach.{Reach};
ghost use Rattle.value_links.specs.Same.{Same};
ghost use Rattle.value_links.specs.World.{IsWorldOf};
ghost use Rattle.tidy_places.specs.Firsts.{IsLeastFound};
ghost use Rattle.tidy_tables.specs.Untidy.{IsTooEarly, IsInside, IsFurther, HasUnused, HasOthers, HasMoreBytes, IsUntidyTable};
ghost use Rattle.tidy_tables.specs.inside.Compared.{OfBoth};
ghost use Rattle.tidy_tables.specs.inside.WrittenTables.{AreWrittenAs};

use crate::codes::first_wasteful;
use crate::outlines::first_other;
use crate::table_places::{first_early, first_further, first_inside, lesser};
use crate::uses::count_uses;
use crate::written::written_numbers;
use dw_base::NoMemory;
use std::alloc::Global;
use value_links::World;

// The least place of a written table that doesn't stand where it is to stand: before that of an earlier old table, inside another, or as
// a further one of its old table. `written` has for each old table the number of the written one.
fn first_elsewhere(before: &World<'_>, after: &World<'_>, written: &Vec<u32>) -> Option<u64>
    requires before { (reach : Reach) × IsWorldOf before.now.image reach before.now }
    requires after { (reach : Reach) × IsWorldOf after.now.image reach after.now }
    requires units { length after.now.table_of ≡ length before.now.table_of }
    requires written { AreWrittenAs before.now.table_of after.now.table_of (length before.now.tables) written.now.items }
    ensures { OfBoth before.now after.now (λ r s. IsLeastFound (λ q. IsTooEarly r.links s.links q ⊎ (IsInside s.links q ⊎ IsFurther r.links s.links q)) result) }
{
    let tables = after.tables();
    let early = first_early(written, tables);
    let inside = first_inside(tables);
    let further = first_further(
        written,
        before.table_numbers(),
        after.table_numbers(),
        tables,
    );
    lesser(early, lesser(inside, further))
}

// The least place of a written table that has other declarations than it is to have, or codes that take more bytes than they need.
// `written` has for each old table the number of the written one.
fn first_otherwise(
    alloc: Global,
    before: &World<'_>,
    after: &World<'_>,
    written: &Vec<u32>,
) -> Result<Option<u64>, NoMemory>
    requires before { (reach : Reach) × IsWorldOf before.now.image reach before.now }
    requires after { (reach : Reach) × IsWorldOf after.now.image reach after.now }
    requires units { length after.now.table_of ≡ length before.now.table_of }
    requires written { AreWrittenAs before.now.table_of after.now.table_of (length before.now.tables) written.now.items }
    ensures { IfOk result (λ place. OfBoth before.now after.now (λ r s. IsLeastFound (λ q. HasUnused s.links q ⊎ (HasOthers r.links s.links q ⊎ HasMoreBytes s.links q)) place)) }
{
    let old_uses = count_uses(alloc, before)?;
    let other = first_other(alloc, before.tables(), &old_uses, written, after.tables())?;
    let new_uses = count_uses(alloc, after)?;
    let wasteful = first_wasteful(alloc, after.tables(), &new_uses)?;
    Ok(lesser(other, wasteful))
}

/// The first table of a written file that isn't as a writer makes it, by its place in .debug_abbrev.
pub(crate) fn first_table(
    alloc: Global,
    before: &World<'_>,
    after: &World<'_>,
) -> Result<Option<u64>, NoMemory>
    requires before { (reach : Reach) × IsWorldOf before.now.image reach before.now }
    requires after { (reach : Reach) × IsWorldOf after.now.image reach after.now }
    requires same { Same before.now.image after.now.image }
    ensures { IfOk result (λ place. OfBoth before.now after.now (λ r s. IsLeastFound (IsUntidyTable r.links s.links) place)) }
{
    let written = written_numbers(
        alloc,
        before.table_numbers(),
        after.table_numbers(),
        before.tables().len(),
    )?;
    let elsewhere = first_elsewhere(before, after, &written);
    let otherwise = first_otherwise(alloc, before, after, &written)?;
    Ok(lesser(elsewhere, otherwise))
}
