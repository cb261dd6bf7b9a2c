//! Whether two files mean the same, and else the first thing by which they differ: what is kept, line number programs, contributions of
//! lists, and units with their entries.
#![tactic(auto)]

ghost use Rattle.std.specs.Prelude.{◌↔◌, IfOk, IfSome, IsNone};
ghost use Rattle.dw_base.specs.declared.fault.Reach.{Reach};
ghost use Rattle.value_links.specs.Same.{Same};
ghost use Rattle.value_links.specs.World.{IsWorldOf};
ghost use Rattle.same_meaning.specs.Differences.{IsFirstDifference};

mod attributes;
mod entries;
mod expressions;
mod headers;
mod kept;
mod laws;
mod lists;
mod parts;
mod programs;
mod reason;
mod same_lists;
mod units;
mod values;

use crate::kept::first_kept;
use crate::parts::first_part;
use crate::programs::first_program;
use crate::same_lists::SameLists;
use crate::units::first_entry;
use dw_base::NoMemory;
pub use laws::reasons_decide;
use list_model::ListKind;
pub use reason::Reason;
use std::alloc::Global;
use value_links::World;

/// Whether two files mean the same: None where they do, and else the first reason why they don't. `before` and `after` are what was
/// read of them.
///
/// They mean the same where the loaded bytes, the count, names and headers of sections, but for the offset and size of those that may
/// move, and the bodies of those that aren't written anew are the same, and the same is meant by line number programs, contributions of
/// lists, units and sets of address ranges (DWARF 5 sections 2.1 to 2.3, 2.6.2, 2.17.3, 3.1, 6.1.2, 6.2 and 7). Reasons are looked for
/// in the order `Kept`, `Rows`, `Table` of range lists, `Table` of location lists and `Differs`, and of one kind by their numbers; no other
/// is answered. The only error is want of memory: expressions of location lists are read again, one after the other.
pub fn first_difference(
    alloc: Global,
    before: &World<'_>,
    after: &World<'_>,
) -> Result<Option<Reason>, NoMemory>
    requires before { (reach : Reach) × IsWorldOf before.now.image reach before.now }
    requires after { (reach : Reach) × IsWorldOf after.now.image reach after.now }
    ensures same { IfOk result (λ reason. IsNone reason ↔ Same before.now.image after.now.image) }
    ensures first { IfOk result (λ reason. IfSome reason (IsFirstDifference before.now.image after.now.image)) }
{
    if let Some(section) = first_kept(before, after) {
        return Ok(Some(Reason::Kept(section)));
    }
    if let Some(program) = first_program(before, after) {
        return Ok(Some(Reason::Rows(program)));
    }
    let mut lists = SameLists::new(alloc);
    if let Some(part) = first_part(&mut lists, before, after, ListKind::Ranges)? {
        return Ok(Some(Reason::Table(ListKind::Ranges, part)));
    }
    if let Some(part) = first_part(&mut lists, before, after, ListKind::Locations)? {
        return Ok(Some(Reason::Table(ListKind::Locations, part)));
    }
    match first_entry(&mut lists, before, after)? {
        Some((unit, entry)) => Ok(Some(Reason::Differs(unit, entry))),
        None => Ok(None),
    }
}
