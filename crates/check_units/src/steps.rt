// The steps of all slots, in the order in which they are taken.
ghost use Rattle.std.specs.Prelude.{◌≡◌, ◌≤◌, ◌<◌, ◌+◌, ◌++◌, ◌^◌, length, IfOk, OnOk};
ghost use Rattle.check_units.specs.inside.Dealing.{AreCuts, AreInOrder, pieces, steps_from, steps_of};

use dw_base::NoMemory;
use std::alloc::Global;

// A step of a slot: its rank, and its number among the steps of the slot, which counts from 0.
#[derive(Clone, Copy)]
pub(crate) struct Step {
    pub rank: u64,
    pub slot: u32,
    pub number: u32,
}

// Appends the steps of one slot.
fn push_steps(all: &mut Vec<Step>, slot: u32, own: &[u64]) -> Result<(), NoMemory>
    requires { length own.now < 2 ^ 32 }
    ensures { OnOk result (all.new.items ≡ all.old.items ++ steps_from slot 0 own.now) }
{
    for number in 0..own.len() {
        all.push(Step {
            rank: own[number],
            slot,
            number: number as u32,
        })?;
    }
    Ok(())
}

// The steps of so many slots, in slot order. Those of a slot have the ranks from one start up to the next.
fn steps_in_slot_order(
    alloc: Global,
    count: usize,
    ranks: &[u64],
    starts: &[usize],
) -> Result<Vec<Step>, NoMemory>
    requires cuts { AreCuts (length ranks.now) starts.now }
    requires count { length starts.now ≡ count + 1 }
    requires few { count < 2 ^ 32 }
    ensures { IfOk result (λ steps. steps.items ≡ steps_of 0 (pieces ranks.now starts.now)) }
{
    let mut all = Vec::new(alloc);
    for i in 0..count {
        push_steps(&mut all, i as u32, &ranks[starts[i]..starts[i + 1]])?;
    }
    Ok(all)
}

// The same by rising rank.
pub(crate) fn ordered_steps(
    alloc: Global,
    count: usize,
    ranks: &[u64],
    starts: &[usize],
) -> Result<Vec<Step>, NoMemory>
    requires cuts { AreCuts (length ranks.now) starts.now }
    requires count { length starts.now ≡ count + 1 }
    requires few { count < 2 ^ 32 }
    ensures { IfOk result (λ steps. AreInOrder (pieces ranks.now starts.now) steps.items) }
{
    let mut steps = steps_in_slot_order(alloc, count, ranks, starts)?;
    steps.sort_unstable_by_key(|step| step.rank);
    Ok(steps)
}
