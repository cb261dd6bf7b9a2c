//! Whether the abbreviation tables of a file that was written anew for another are as a writer makes them, and else the first place at
//! which they aren't.
#![tactic(auto)]

ghost use Rattle.std.specs.Prelude.{IfOk, IsNone};
ghost use Rattle.dw_base.specs.declared.fault.Reach.{Reach};
ghost use Rattle.written_files.specs.Classes.{HaveLeastCodes, HaveLeastColumns};
ghost use Rattle.value_links.specs.Same.{Same};
ghost use Rattle.value_links.specs.World.{IsWorldOf};
ghost use Rattle.tidy_places.specs.Firsts.{IsFirstFoundIn};
ghost use Rattle.tidy_tables.specs.Rows.{IsUntidy, order_of};

mod codes;
mod column_values;
mod declarations;
mod entries;
mod laws;
mod loose;
mod offsets;
mod outlines;
mod pairings;
mod table_namers;
mod table_places;
mod tables;
mod uses;
mod written;

use crate::declarations::first_declaration;
use crate::entries::first_entry;
pub use crate::laws::written_tables;
use crate::loose::{first_loose_byte, is_missing};
pub use crate::offsets::offset_in_file;
use crate::tables::first_table;
use dw_base::{Classes, NoMemory};
use std::alloc::Global;
use value_links::World;

/// The first place of a written file, as an offset in it, at which its abbreviation tables aren't as a writer makes them, or None where
/// there is none (DWARF 5 sections 7.5.2 and 7.5.3). `before` and `after` are what was read of the file for which it was written, and of
/// itself; they mean the same.
///
/// These are looked for in this order, and of the first that is found the least place is answered:
///
/// - a table that stands before one of an earlier old table, begins inside another, is a second one of an old table, has a declaration that
///   no entry has or others than the old table, or whose codes take more bytes than they need;
/// - a byte of .debug_abbrev that no table has;
/// - a missing table, where two old tables are written as one, which is said of the end of .debug_abbrev;
/// - a declaration with a column that isn't in a least form of the classes, or with a code that isn't above the one before it;
/// - an entry that has another declaration than an earlier one where both had one, or one declaration where both had others.
///
/// Where there is none, each column of the written file is in a least form of the classes for its values, and the codes of each table take
/// the fewest bytes for its uses (DWARF 5 sections 7.5.3 and 7.5.6). The only error is want of memory.
pub fn first_untidy(
    alloc: Global,
    classes: Classes,
    before: &World<'_>,
    after: &World<'_>,
) -> Result<Option<u64>, NoMemory>
    requires before { (reach : Reach) × IsWorldOf before.now.image reach before.now }
    requires after { (reach : Reach) × IsWorldOf after.now.image reach after.now }
    requires same { Same before.now.image after.now.image }
    ensures first { IfOk result (IsFirstFoundIn order_of (IsUntidy classes before.now.image after.now.image)) }
    ensures columns { IfOk result (λ place. IsNone place → HaveLeastColumns classes after.now.image after.now.image) }
    ensures codes { IfOk result (λ place. IsNone place → HaveLeastCodes after.now.image after.now.image) }
{
    if let Some(place) = first_table(alloc, before, after)? {
        return Ok(Some(offset_in_file(after, b".debug_abbrev", place)));
    }
    if let Some(place) = first_loose_byte(before, after) {
        return Ok(Some(offset_in_file(after, b".debug_abbrev", place)));
    }
    if is_missing(alloc, before, after)? {
        let end = after.section(b".debug_abbrev").len() as u64;
        return Ok(Some(offset_in_file(after, b".debug_abbrev", end)));
    }
    if let Some(place) = first_declaration(alloc, classes, after)? {
        return Ok(Some(offset_in_file(after, b".debug_abbrev", place)));
    }
    match first_entry(alloc, before, after)? {
        Some(place) => Ok(Some(offset_in_file(after, b".debug_info", place))),
        None => Ok(None),
    }
}
