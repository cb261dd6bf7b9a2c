// What is left of a list under a base.
ghost use Rattle.std.specs.Prelude.{◌≡◌, ◌≤◌, ◌<◌, ◌-◌, length, map, drop, IfOk};
ghost use Rattle.list_least.specs.Plans.{bounds_of};
ghost use Rattle.list_least.specs.inside.Search.{AreAllCosts, AreKnownCosts};
ghost use Rattle.list_least.specs.inside.Ways.{IsFar, IsLeftUnder};

use crate::costs::{Costs, piece_at};
use dw_base::NoMemory;
use std::alloc::Global;

// What is left of a list under a base from one item on.
#[derive(Drop)]
pub(crate) struct Left {
    // The bytes from each item on, the last item's first. A base may be set before any of them but the one that it began with.
    pub(crate) bytes: Vec<u64>,
    // The number of the last of these items, or of items where they go up to the end.
    pub(crate) to: usize,
}

// The first item from some on that is so far that another base is set before it in any shortest list, or the number of items. The
// bytes up to there under this base, and its potential, are more than what another item gives by more than the 9 bytes that set
// any base. So whatever keeps the base for longer is more than that, too.
fn far_under(potentials: &[u64], costs: &[Costs], base: u64, from: usize) -> usize
    requires known { AreKnownCosts costs.now }
    requires same { length potentials.now ≡ length costs.now }
    requires inside { from ≤ length costs.now }
    requires few { length costs.now ≤ 16384 }
    ensures order { from ≤ result }
    ensures inside { result ≤ length costs.now }
    ensures far { result < length costs.now → (addr : _) (context : _) (items : _) → AreAllCosts addr context items costs.now → IsFar addr context base (map bounds_of (drop from items)) (drop from potentials.now) (result - from) }
{
    if from == costs.len() {
        return from;
    }
    let mut sum = 0;
    let mut best = potentials[from];
    for at in from..costs.len() {
        let here = potentials[at].saturating_add(sum);
        if here.saturating_sub(best) > 9 {
            return at;
        }
        best = best.min(here);
        sum += piece_at(&costs[at], base).cost;
    }
    costs.len()
}

// What is left under a base from an item on.
pub(crate) fn left_under(
    alloc: Global,
    potentials: &[u64],
    costs: &[Costs],
    base: u64,
    from: usize,
) -> Result<Left, NoMemory>
    requires known { AreKnownCosts costs.now }
    requires same { length potentials.now ≡ length costs.now }
    requires inside { from ≤ length costs.now }
    requires few { length costs.now ≤ 16384 }
    ensures { IfOk result (λ left. (addr : _) (context : _) (items : _) → AreAllCosts addr context items costs.now → IsLeftUnder addr context base items potentials.now from left) }
{
    let to = far_under(potentials, costs, base, from);
    let mut left = if to < potentials.len() {
        potentials[to]
    } else {
        1
    };
    let mut bytes: Vec<u64> = Vec::new(alloc);
    bytes.push(left)?;
    let mut i = to;
    while i > from {
        i -= 1;
        left = potentials[i].min(left.saturating_add(piece_at(&costs[i], base).cost));
        bytes.push(left)?;
    }
    Ok(Left { bytes, to })
}
