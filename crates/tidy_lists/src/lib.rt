//! Whether the lists and view pairs of a file that was written anew for another stand where they are to stand, and else the first place
//! that is amiss.
#![tactic(auto)]

ghost use Rattle.std.specs.Prelude.{IfOk};
ghost use Rattle.dw_base.specs.declared.fault.Reach.{Reach};
ghost use Rattle.value_links.specs.Same.{Same};
ghost use Rattle.value_links.specs.World.{IsWorldOf};
ghost use Rattle.tidy_places.specs.Firsts.{IsFirstFoundIn};
ghost use Rattle.tidy_lists.specs.Due.{order_of};
ghost use Rattle.tidy_lists.specs.Rows.{IsMisplaced};

mod due;
mod elsewhere;
mod firsts;
mod followers;
mod laws;
mod least;
mod lengths;
mod loose;
mod rows;
mod standing;

pub use crate::laws::written_lists;
use crate::rows::{first_list, first_loose};
use dw_base::NoMemory;
use std::alloc::Global;
use value_links::{World, one_reading};

/// The first place of the lists of a written file that is amiss, as an offset in the file, or None where there is none (DWARF 5 sections 7.28
/// and 7.29). `before` and `after` are what was read of the file for which it was written, and of itself; they mean the same.
///
/// First a list or a run of view pairs that stands elsewhere than where it is due: in its old contribution, in the order of the old places,
/// each list directly behind its view pairs, and nothing between; then a byte of a contribution that no list has and no view pairs; and of
/// one of these two the least place. The only error is want of memory.
pub fn first_misplaced_list(
    alloc: Global,
    before: &World<'_>,
    after: &World<'_>,
) -> Result<Option<u64>, NoMemory>
    requires before { (reach : Reach) × IsWorldOf before.now.image reach before.now }
    requires after { (reach : Reach) × IsWorldOf after.now.image reach after.now }
    requires same { Same before.now.image after.now.image }
    ensures { IfOk result (IsFirstFoundIn order_of (IsMisplaced before.now.image after.now.image)) }
{
    // A file is read in one way.
    one_reading();
    match first_list(alloc, before, after)? {
        Some(place) => Ok(Some(place)),
        None => first_loose(alloc, after),
    }
}
