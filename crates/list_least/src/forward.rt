// The entries of a list, from its first item to its last.
ghost use Rattle.std.specs.Prelude.{◌≡◌, ◌≤◌, ◌<◌, ◌+◌, ◌-◌, ◌⊎◌, ◌↔◌, ℕ, length, map, IfOk, OnOk, IsTrue, false, Some, None};
ghost use Rattle.leb_codec.specs.LineCosts.{IsLeastCost};
ghost use Rattle.list_model.specs.Potentials.{OnFrom};
ghost use Rattle.list_least.specs.Plans.{bounds_of, IsItemOf, IsPlanned};
ghost use Rattle.list_least.specs.inside.Search.{AreCosts, AreSomeCosts, IsBytesUnder, costs_at, kept_bounds};
ghost use Rattle.list_least.specs.inside.Ways.{IsPlaced, IsBasePicked, IsSearched, IsSearchedFrom, left_from};

use crate::cheapest::Choice;
use crate::costs::{Costs, piece_at};
use crate::fill::{Left, left_under};
use crate::pick::{Pick, entry_of, item_entry, push_pick};
use dw_base::NoMemory;
use list_model::{EntryKind, ListKind};
use std::alloc::Global;

// Picks the entry of an item under a base.
fn place(picks: &mut Vec<Pick>, list: ListKind, costs: &Costs, base: u64) -> Result<(), NoMemory>
    requires some { AreSomeCosts costs.now }
    requires fits { IsItemOf list (kept_bounds costs.now) }
    ensures { OnOk result ((addr : _) (context : _) (item : _) → AreCosts addr context item costs.now → IsPlaced list addr context base item picks.old.items picks.new.items) }
{
    push_pick(picks, list, item_entry(costs, base))?;
    Ok(())
}

// Picks the entry that sets a base by its index.
fn set_indexed(picks: &mut Vec<Pick>, list: ListKind, index: u64, base: u64) -> Result<(), NoMemory>
    ensures { OnOk result ((addr : _) (context : _) → IsBasePicked list addr context (Some index) base picks.old.items picks.new.items) }
{
    let _base = base;
    push_pick(picks, list, entry_of(EntryKind::BaseAddressx, index, 0))?;
    Ok(())
}

// Picks the entry that sets a base by its address.
fn set_address(picks: &mut Vec<Pick>, list: ListKind, base: u64) -> Result<(), NoMemory>
    ensures { OnOk result ((addr : _) (context : _) → IsBasePicked list addr context None base picks.old.items picks.new.items) }
{
    push_pick(picks, list, entry_of(EntryKind::BaseAddress, base, 0))?;
    Ok(())
}

// Picks the entry that sets a base.
fn set_base(picks: &mut Vec<Pick>, list: ListKind, choice: &Choice) -> Result<(), NoMemory>
    ensures { OnOk result ((addr : _) (context : _) → IsBasePicked list addr context choice.now.index choice.now.base picks.old.items picks.new.items) }
{
    match choice.index {
        None => set_address(picks, list, choice.base),
        Some(index) => set_indexed(picks, list, index, choice.base),
    }
}

// Whether two numbers of bytes are together no more than a third.
fn is_within(next: u64, bytes: u64, here: u64) -> bool
    ensures { IsTrue result ↔ (next + bytes ≤ here) }
{
    bytes <= here && next <= here - bytes
}

// Whether a base is set before an item that isn't the last one of those under the base before it: where that is least and the
// item's entry under this base isn't, or is of a higher kind. `here` bytes are left for the item and those behind it, `next` for
// those behind it alone, and `bytes` are the item's.
fn is_base_next(costs: &Costs, base: u64, choice: &Choice, here: u64, next: u64, bytes: u64) -> bool
    requires some { AreSomeCosts costs.now }
    requires either { (choice.now.bytes ≤ here) ⊎ (next + bytes ≤ here) }
    ensures set { IsTrue result → choice.now.bytes ≤ here }
    ensures kept { (result ≡ false) → next + bytes ≤ here }
{
    if choice.bytes > here {
        return false;
    }
    if !is_within(next, bytes, here) || choice.index.is_some() {
        return true;
    }
    matches!(
        item_entry(costs, base).kind,
        EntryKind::StartEnd | EntryKind::StartLength
    )
}

// Whether a base is set before an item, where this is left under the base before it.
fn is_set_before(left: &Left, i: usize, costs: &Costs, base: u64, choice: &Choice) -> bool
    requires some { AreSomeCosts costs.now }
    requires order { i ≤ left.now.to }
    requires inside { left.now.to - i < length left.now.bytes.items }
    requires last { i ≡ left.now.to → choice.now.bytes ≤ left_from left.now i }
    requires either { i < left.now.to → (bytes : ℕ) → IsBytesUnder costs.now base bytes → (choice.now.bytes ≤ left_from left.now i) ⊎ (left_from left.now (i + 1) + bytes ≤ left_from left.now i) }
    ensures set { IsTrue result → choice.now.bytes ≤ left_from left.now i }
    ensures kept { (result ≡ false) → (i < left.now.to) × ((bytes : ℕ) × IsBytesUnder costs.now base bytes × (left_from left.now (i + 1) + bytes ≤ left_from left.now i)) }
{
    if i == left.to {
        return true;
    }
    let ahead = left.to - i;
    let bytes = piece_at(costs, base).cost;
    is_base_next(
        costs,
        base,
        choice,
        left.bytes[ahead],
        left.bytes[ahead - 1],
        bytes,
    )
}

// The entries of a list, in its order: at each place the lowest kind of those with which it stays shortest.
pub(crate) fn picks_of(
    alloc: Global,
    list: ListKind,
    costs: &[Costs],
    first_base: u64,
    potentials: &[u64],
    choices: &[Choice],
) -> Result<Vec<Pick>, NoMemory>
    requires known { IsSearchedFrom first_base costs.now potentials.now choices.now }
    requires same { length potentials.now ≡ length costs.now }
    requires counted { length choices.now ≡ length costs.now }
    requires few { length costs.now ≤ 16384 }
    requires fits { (i : ℕ) → i < length costs.now → IsItemOf list (kept_bounds (costs_at costs.now i)) }
    ensures { IfOk result (λ picks. (addr : _) (context : _) (items : _) → context.base ≡ first_base → IsSearched addr context items costs.now potentials.now choices.now → (size : ℕ) → IsLeastCost (OnFrom addr context context.base (map bounds_of items) potentials.now) size → IsPlanned list addr context (map bounds_of items) picks.items size) }
{
    let mut picks: Vec<Pick> = Vec::new(alloc);
    let mut base = first_base;
    let mut left = left_under(alloc, potentials, costs, base, 0)?;
    for i in 0..costs.len() {
        let item = costs[i];
        let choice = choices[i];
        if is_set_before(&left, i, &item, base, &choice) {
            set_base(&mut picks, list, &choice)?;
            base = choice.base;
            left = left_under(alloc, potentials, costs, base, i + 1)?;
        }
        place(&mut picks, list, &item, base)?;
    }
    Ok(picks)
}
