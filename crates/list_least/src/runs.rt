// Bases with as many bytes.
ghost use Rattle.std.specs.Prelude.{◌≡◌, drop, ◌≤◌, ◌<◌, ◌+◌, ◌^◌, length, IfOk, OnOk, ℕ};
ghost use Rattle.leb_codec.specs.LineCosts.{IsLeastCost};
ghost use Rattle.list_model.specs.Costs.{ItemWithin};
ghost use Rattle.list_least.specs.Tails.{run_at, GoDown, StartAtTop, IsIn, AreLeft};
ghost use Rattle.list_least.specs.inside.Search.{BeginFrom, IsPushed, AddsDown, IsAbove, AreCosts, AreLeftBehind, IsLowered};

use crate::costs::{Costs, is_free, piece_at};
use dw_base::NoMemory;
use std::alloc::Global;

// Under the bases from `upto` down to the next run, what is left has `gain` bytes fewer than a number that all runs have in common.
#[derive(Clone, Copy)]
pub(crate) struct Run {
    pub(crate) upto: u64,
    pub(crate) gain: u64,
}

// Appends a run, or lets the last one go on where it has as many bytes.
fn push(runs: &mut Vec<Run>, run: Run) -> Result<(), NoMemory>
    ensures { OnOk result (IsPushed runs.old.items run runs.new.items) }
{
    let count = runs.len();
    if count > 0 && runs[count - 1].gain == run.gain {
        return Ok(());
    }
    runs.push(run)?;
    Ok(())
}

// Appends the bases from one down under which an item costs as much, no further than to `lowest`, and answers the last of them.
fn push_piece(
    runs: &mut Vec<Run>,
    costs: &Costs,
    gain: u64,
    top: u64,
    lowest: u64,
) -> Result<u64, NoMemory>
    requires order { lowest ≤ top }
    requires few { costs.now.free ≤ 17 }
    requires small { gain ≤ 2 ^ 62 }
    requires down { GoDown runs.old.items }
    requires above { BeginFrom runs.old.items (top + 1) }
    ensures within { IfOk result (λ bottom. (lowest ≤ bottom) × (bottom ≤ top)) }
    ensures adds { IfOk result (λ bottom. AddsDown costs.now gain top bottom runs.old.items runs.new.items) }
{
    let piece = piece_at(costs, top);
    let bottom = piece.bottom.max(lowest);
    let run = Run {
        upto: top,
        gain: gain + (costs.free - piece.cost),
    };
    push(runs, run)?;
    Ok(bottom)
}

// Appends the runs of an item from one base down to another, where those behind it have this gain.
fn push_run(
    runs: &mut Vec<Run>,
    costs: &Costs,
    gain: u64,
    top: u64,
    lowest: u64,
) -> Result<(), NoMemory>
    requires order { lowest ≤ top }
    requires few { costs.now.free ≤ 17 }
    requires small { gain ≤ 2 ^ 62 }
    requires down { GoDown runs.old.items }
    requires above { BeginFrom runs.old.items (top + 1) }
    ensures { OnOk result (AddsDown costs.now gain top lowest runs.old.items runs.new.items) }
{
    let mut bottom = push_piece(runs, costs, gain, top, lowest)?;
    while bottom > lowest {
        bottom = push_piece(runs, costs, gain, bottom - 1, lowest)?;
    }
    Ok(())
}

// The lowest base of a run.
pub(crate) fn lowest_of(runs: &[Run], i: usize) -> u64
    requires inside { i < length runs.now }
    requires down { GoDown runs.now }
    ensures within { result ≤ (run_at runs.now i).upto }
    ensures above { IsAbove runs.now (i + 1) result }
{
    let upto = runs[i].upto;
    if i + 1 < runs.len() {
        let next = runs[i + 1].upto;
        prove!(next < upto);
        next + 1
    } else {
        0
    }
}

// The number of a run before which an item takes as many bytes as without a base: the last such that is found.
pub(crate) fn first_near(runs: &[Run], costs: &Costs) -> usize
    requires few { costs.now.free ≤ 17 }
    requires top { StartAtTop runs.now }
    requires down { GoDown runs.now }
    ensures inside { result < length runs.now }
    ensures free { (addr : _) (context : _) (item : _) → AreCosts addr context item costs.now → (j base : ℕ) → j < result → base < 2 ^ 64 → IsIn runs.now j base → IsLeastCost (ItemWithin addr context base item) costs.now.free }
{
    let high = piece_at(costs, u64::MAX);
    if high.cost != costs.free {
        return 0;
    }
    let mut i = runs.len() - 1;
    while i > 0 && runs[i].upto < high.bottom {
        i -= 1;
    }
    i
}

// The number of a run from which on an item takes as many bytes as without a base: the first such that is found, from one on.
pub(crate) fn first_far(runs: &[Run], costs: &Costs, from: usize) -> usize
    requires few { costs.now.free ≤ 17 }
    requires down { GoDown runs.now }
    requires inside { from ≤ length runs.now }
    ensures order { from ≤ result }
    ensures inside { result ≤ length runs.now }
    ensures free { (addr : _) (context : _) (item : _) → AreCosts addr context item costs.now → (j base : ℕ) → result ≤ j → IsIn runs.now j base → IsLeastCost (ItemWithin addr context base item) costs.now.free }
{
    for i in from..runs.len() {
        if is_free(costs, runs[i].upto, 0) {
            return i + 1;
        }
    }
    runs.len()
}

// A copy of the runs from one on.
fn runs_from(alloc: Global, runs: &[Run], from: usize) -> Result<Vec<Run>, NoMemory>
    requires { from ≤ length runs.now }
    ensures { IfOk result (λ rest. rest.items ≡ drop from runs.now) }
{
    let mut rest: Vec<Run> = Vec::new(alloc);
    rest.extend_from_slice(&runs[from..])?;
    Ok(rest)
}

// The gains under each base from an item on, where the base stays for it, from those behind it. They count from the number of
// before and the bytes of the item without a base. The runs that aren't near the item stay as they are.
pub(crate) fn behind(
    alloc: Global,
    runs: Vec<Run>,
    most: u64,
    costs: &Costs,
) -> Result<Vec<Run>, NoMemory>
    requires top { StartAtTop runs.items }
    requires down { GoDown runs.items }
    requires few { costs.now.free ≤ 17 }
    requires gains { (i : ℕ) → i < length runs.items → (run_at runs.items i).gain ≤ most }
    requires small { most ≤ 2 ^ 61 }
    ensures top { IfOk result (λ new. StartAtTop new.items) }
    ensures down { IfOk result (λ new. GoDown new.items) }
    ensures small { IfOk result (λ new. (i : ℕ) → i < length new.items → (run_at new.items i).gain ≤ most + 17) }
    ensures left { IfOk result (λ new. (addr : _) (context : _) (item : _) (items : _) (potentials : _) (under : ℕ) → AreCosts addr context item costs.now → AreLeft addr context items potentials under runs.items → AreLeftBehind addr context item items potentials (under + costs.now.free) new.items 0) }
{
    let _most = most;
    let all = runs.as_slice();
    let from = first_near(all, costs);
    let rest = runs_from(alloc, all, from)?;
    let old = rest.as_slice();
    let mut new = runs;
    new.truncate(from);
    let until = first_far(old, costs, 0);
    for i in 0..until {
        let lowest = lowest_of(old, i);
        push_run(&mut new, costs, old[i].gain, old[i].upto, lowest)?;
    }
    new.extend_from_slice(&old[until..])?;
    Ok(new)
}

// The same runs, with their gains lowered.
pub(crate) fn lower(alloc: Global, runs: Vec<Run>, by: u64) -> Result<Vec<Run>, NoMemory>
    requires top { StartAtTop runs.items }
    requires down { GoDown runs.items }
    ensures { IfOk result (λ new. IsLowered by runs.items new.items) }
{
    if by == 0 {
        return Ok(runs);
    }
    let old = runs.as_slice();
    let mut new: Vec<Run> = Vec::new(alloc);
    for i in 0..old.len() {
        let _lowest = lowest_of(old, i);
        let gain = old[i].gain.saturating_sub(by);
        let run = Run {
            upto: old[i].upto,
            gain,
        };
        push(&mut new, run)?;
    }
    Ok(new)
}
