// Where contributions and lists will stand, by the sizes of the lists alone.
ghost use Rattle.std.specs.Prelude.{◌≡◌, ◌<◌, ◌+◌, ◌^◌, List, length, IfOk};
ghost use Rattle.list_write.specs.Written.{ToWrite, front_size as front_bytes};
ghost use Rattle.list_write.specs.inside.Places.{extent_sizes, extent_place, AreAppended, CanBePlaced, ArePlaced};

use crate::image::Moved;
use crate::part::{HEADER_SIZE, OFFSET_SIZE};
use crate::pieces::{ListExtent, RunExtent};
use dw_base::NoMemory;
use list_model::Contribution;
use std::alloc::Global;

/// Where the contributions, the lists and the view pairs of a section will stand.
#[derive(Drop)]
pub(crate) struct Places {
    pub(crate) parts: Vec<Contribution>,
    pub(crate) lists: Vec<Moved>,
    pub(crate) views: Vec<Moved>,
}

/// The bytes of a contribution before its lists: its header and its offsets.
pub(crate) fn front_size(part: &Contribution) -> u64
    ensures { result ≡ front_bytes part.now }
{
    (HEADER_SIZE + OFFSET_SIZE * part.slots as usize) as u64
}

// Appends where runs of view pairs will stand that follow one another from a place on, and gives the place behind them.
fn place_runs(views: &mut Vec<Moved>, runs: &[RunExtent], at: u64) -> Result<u64, NoMemory>
    requires room { at + extent_sizes runs.now < 2 ^ 64 }
    ensures placed { IfOk result (λ _. AreAppended (extent_place runs.now at) (length runs.now) views.old.items views.new.items) }
    ensures end { IfOk result (λ end. end ≡ at + extent_sizes runs.now) }
{
    let mut place = at;
    for run in runs {
        views.push(Moved {
            old: run.at,
            new: place,
        })?;
        place += run.size;
    }
    Ok(place)
}

/// Where contributions, their lists and the view pairs of these will stand, one after the other from 0 on.
pub(crate) fn place_parts(
    alloc: Global,
    parts: &[Contribution],
    lists: &[ListExtent],
    runs: &[RunExtent],
) -> Result<Places, NoMemory>
    requires ready { (written : List ToWrite) × CanBePlaced parts.now written lists.now runs.now }
    ensures { IfOk result (λ places. (written : List ToWrite) → CanBePlaced parts.now written lists.now runs.now → ArePlaced parts.now written places.parts.items places.lists.items places.views.items) }
{
    let mut placed = Vec::with_capacity(alloc, parts.len())?;
    let mut moved = Vec::with_capacity(alloc, lists.len())?;
    let mut views = Vec::with_capacity(alloc, runs.len())?;
    let mut at = 0;
    for (number, part) in parts.iter().enumerate() {
        let begin = at;
        at += front_size(part);
        while moved.len() < lists.len() && lists[moved.len()].part as usize == number {
            let list = lists[moved.len()];
            let first = views.len();
            let own = place_runs(&mut views, &runs[first..first + list.runs], at)?;
            moved.push(Moved {
                old: list.at,
                new: own,
            })?;
            at = own + list.size;
        }
        placed.push(Contribution {
            at: begin,
            len: at - begin,
            slots: part.slots,
        })?;
    }
    Ok(Places {
        parts: placed,
        lists: moved,
        views,
    })
}
