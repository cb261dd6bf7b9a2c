//! Whether a file that was written anew for another is as a writer makes it, and else the first place at which it isn't.
#![tactic(auto)]

ghost use Rattle.std.specs.Prelude.{◌↔◌, IfOk, IfSome, IsNone};
ghost use Rattle.dw_base.specs.declared.fault.Reach.{Reach};
ghost use Rattle.written_files.specs.Classes.{HaveLeastCodes, HaveLeastColumns};
ghost use Rattle.value_links.specs.Same.{Same};
ghost use Rattle.value_links.specs.World.{IsWorldOf};
ghost use Rattle.tidy_files.specs.Tidy.{IsTidy, IsFirstUntidy};

mod laws;
mod lists;
mod programs;
mod units;

pub use crate::laws::{tidy_files_are_whole, written_classes};
use crate::lists::first_changed_list;
use crate::programs::first_line_amiss;
use crate::units::first_padded_unit;
use dw_base::{Classes, NoMemory};
use std::alloc::Global;
use tidy_lists::first_misplaced_list;
use tidy_numbers::first_long_number;
use tidy_places::first_misplaced;
use tidy_tables::first_untidy;
use value_links::World;

/// Whether a written file is tidy in some classes: None where it is, and else the first place at which it isn't, as an offset in it. `before` and `after` are
/// what was read of the file for which it was written, and of itself; they mean the same, which `same_meaning::first_difference` tells.
///
/// These are looked for in this order, and of the first that is found the least place is answered: a section, the section headers or a byte
/// between or behind them that is amiss; an abbreviation table, a byte of none, a missing one, a declaration or an entry (DWARF 5 sections
/// 7.5.2 and 7.5.3); a unit with bytes behind its tree (section 7.5); a line number program whose opcode_base isn't 13 (section 6.2.4), or, where the
/// classes keep .debug_line, a byte of it that isn't the one that stood there; a list
/// or view pairs that stand elsewhere, or a byte of a contribution that none of them has (sections 7.28 and 7.29); where the classes keep the entries of
/// lists, a list that has others; and a LEB128 number with
/// a byte too many (section 7.6), but for those that have sizes of their own. Where there is none, each column of the written file is in a
/// least form for its values, and the codes of each abbreviation table take the fewest bytes for its uses. The only error is want of memory.
pub fn accept_classes(
    alloc: Global,
    classes: Classes,
    before: &World<'_>,
    after: &World<'_>,
) -> Result<Option<u64>, NoMemory>
    requires before { (reach : Reach) × IsWorldOf before.now.image reach before.now }
    requires after { (reach : Reach) × IsWorldOf after.now.image reach after.now }
    requires same { Same before.now.image after.now.image }
    ensures tidy { IfOk result (λ place. IsNone place ↔ IsTidy classes before.now.image after.now.image) }
    ensures first { IfOk result (λ place. IfSome place (IsFirstUntidy classes before.now.image after.now.image)) }
    ensures columns { IfOk result (λ place. IsNone place → HaveLeastColumns classes after.now.image after.now.image) }
    ensures codes { IfOk result (λ place. IsNone place → HaveLeastCodes after.now.image after.now.image) }
{
    if let Some(place) = first_misplaced(alloc, before.image(), after.image())? {
        return Ok(Some(place));
    }
    if let Some(place) = first_untidy(alloc, classes, before, after)? {
        return Ok(Some(place));
    }
    if let Some(place) = first_padded_unit(after) {
        return Ok(Some(place));
    }
    if let Some(place) = first_line_amiss(classes, before, after) {
        return Ok(Some(place));
    }
    if let Some(place) = first_misplaced_list(alloc, before, after)? {
        return Ok(Some(place));
    }
    if let Some(place) = first_changed_list(classes, before, after) {
        return Ok(Some(place));
    }
    first_long_number(alloc, classes, after)
}
