// The base that is set at the least cost.
ghost use Rattle.std.specs.Prelude.{◌≡◌, ◌≤◌, ◌<◌, ◌+◌, ◌^◌, [], ◌∷◌, length, ℕ, IsTrue, false};
ghost use Rattle.std.specs.Option.{ForSome, option_copied};
ghost use Rattle.list_least.specs.Maps.{IsMapOf};
ghost use Rattle.list_least.specs.Tails.{GoDown, StartAtTop, IsSet, IsReady};
ghost use Rattle.list_least.specs.inside.Search.{AreCosts, AreLeftBehind, IsBaseBetween, IsRunBytes, IsChoiceAt, IsNear, IsNearTo};
ghost use Rattle.list_model.specs.Items.{HasTable, IsIndexed};
ghost use Rattle.list_model.specs.Costs.{ItemWithin};
ghost use Rattle.leb_codec.specs.LineCosts.{IsLeastCost};

use crate::costs::{Costs, is_free};
use crate::map::{AddressMap, least_index};
use crate::runs::{Run, first_far, first_near, lowest_of};
use leb_codec::len_u;
use list_model::{Context, address};

// A base that is set, its index where it is set by one, and bytes: those that set it, and where it is said those from there on.
#[derive(Clone, Copy)]
pub(crate) struct Choice {
    pub(crate) bytes: u64,
    pub(crate) base: u64,
    pub(crate) index: Option<u64>,
}

// The address with an index.
fn address_at(context: &Context, addr: &[u8], index: u64) -> u64
    requires table { HasTable addr.now context.now.table }
    requires known { (at : ℕ) × IsIndexed addr.now context.now index at }
    ensures { IsIndexed addr.now context.now index result }
{
    let Some(table) = &context.table else {
        unreachable!()
    };
    let Some(at) = address(addr, table, index) else {
        unreachable!()
    };
    at
}

// The shortest entry that sets a base from one up to another: by the lowest index, or of the greatest base.
pub(crate) fn setting_between(
    context: &Context,
    addr: &[u8],
    indexes: Option<&AddressMap>,
    from: u64,
    to: u64,
) -> Choice
    requires table { HasTable addr.now context.now.table }
    requires mapped { ForSome (option_copied indexes) (IsMapOf addr.now context.now.table) }
    requires order { from ≤ to }
    ensures between { IsBaseBetween addr.now context.now from to result.bytes }
    ensures is { IsSet addr.now context.now result.index result.base result.bytes }
    ensures above { from ≤ result.base }
    ensures below { result.base ≤ to }
    ensures few { result.bytes ≤ 9 }
{
    if let Some(index) = least_index(context, addr, indexes, from, to) {
        let bytes = 1 + len_u(index) as u64;
        if bytes <= 9 {
            return Choice {
                bytes,
                base: address_at(context, addr, index),
                index: Some(index),
            };
        }
    }
    Choice {
        bytes: 9,
        base: to,
        index: None,
    }
}

// The cheapest base of a run, and the bytes from there on.
fn choice_in(
    runs: &[Run],
    i: usize,
    under: u64,
    context: &Context,
    addr: &[u8],
    indexes: Option<&AddressMap>,
) -> Choice
    requires table { HasTable addr.now context.now.table }
    requires mapped { ForSome (option_copied indexes) (IsMapOf addr.now context.now.table) }
    requires inside { i < length runs.now }
    requires down { GoDown runs.now }
    requires small { under ≤ 2 ^ 62 }
    ensures bytes { IsRunBytes addr.now context.now under runs.now i result.bytes }
    ensures at { IsChoiceAt addr.now context.now under runs.now result }
{
    let lowest = lowest_of(runs, i);
    let set = setting_between(context, addr, indexes, lowest, runs[i].upto);
    Choice {
        bytes: set.bytes + under.saturating_sub(runs[i].gain),
        base: set.base,
        index: set.index,
    }
}

// Whether a choice takes fewer bytes than one that was found before it, or as many by a lower kind of entry, a
// lower index or a greater base.
fn is_better(choice: &Choice, before: &Choice) -> bool
    ensures better { IsTrue result → choice.now.bytes ≤ before.now.bytes }
    ensures worse { (result ≡ false) → before.now.bytes ≤ choice.now.bytes }
{
    if choice.bytes != before.bytes {
        return choice.bytes < before.bytes;
    }
    match (choice.index, before.index) {
        (Some(_), None) => true,
        (Some(index), Some(other)) => index < other,
        (None, None) => choice.base > before.base,
        (None, Some(_)) => false,
    }
}

// The better of a choice and the cheapest base of a run. Where the item needs no base under those of the run, none of them is
// looked at: setting one is no cheaper than what was the best before the items behind the item.
fn nearer(
    runs: &[Run],
    i: usize,
    under: u64,
    best: &Choice,
    costs: &Costs,
    context: &Context,
    addr: &[u8],
    indexes: Option<&AddressMap>,
) -> Choice
    requires table { HasTable addr.now context.now.table }
    requires mapped { ForSome (option_copied indexes) (IsMapOf addr.now context.now.table) }
    requires few { costs.now.free ≤ 17 }
    requires inside { i < length runs.now }
    requires down { GoDown runs.now }
    requires small { under ≤ 2 ^ 62 }
    ensures { (before : Choice) → IsNearTo addr.now context.now costs.now under runs.now before i best.now → IsNearTo addr.now context.now costs.now under runs.now before (i + 1) result }
{
    let lowest = lowest_of(runs, i);
    if is_free(costs, runs[i].upto, lowest) {
        return *best;
    }
    let choice = choice_in(runs, i, under, context, addr, indexes);
    if is_better(&choice, best) {
        return choice;
    }
    *best
}

// The base that is set at the least cost, of what it costs and of what is left under it. `before` is the best before the items
// behind the item.
pub(crate) fn cheapest(
    runs: &[Run],
    under: u64,
    before: &Choice,
    costs: &Costs,
    context: &Context,
    addr: &[u8],
    indexes: Option<&AddressMap>,
) -> Choice
    requires table { HasTable addr.now context.now.table }
    requires mapped { ForSome (option_copied indexes) (IsMapOf addr.now context.now.table) }
    requires few { costs.now.free ≤ 17 }
    requires top { StartAtTop runs.now }
    requires down { GoDown runs.now }
    requires small { under ≤ 2 ^ 62 }
    requires room { before.now.bytes ≤ 2 ^ 62 }
    ensures near { (item : _) (items : _) (potentials : _) → AreCosts addr.now context.now item costs.now → IsReady addr.now context.now items potentials before.now → AreLeftBehind addr.now context.now item items potentials under runs.now 0 → IsNear addr.now context.now item items potentials result }
    ensures few { result.bytes ≤ before.now.bytes + 17 }
{
    let mut best = Choice {
        bytes: before.bytes + costs.free,
        base: before.base,
        index: before.index,
    };
    let from = first_near(runs, costs);
    let until = first_far(runs, costs, from);
    for i in from..until {
        best = nearer(runs, i, under, &best, costs, context, addr, indexes);
    }
    best
}

// The base that is set at the least cost before an item with a potential. `choice` is the best where the base stays for the item.
pub(crate) fn best_before(
    choice: &Choice,
    potential: u64,
    context: &Context,
    addr: &[u8],
    indexes: Option<&AddressMap>,
) -> Choice
    requires table { HasTable addr.now context.now.table }
    requires mapped { ForSome (option_copied indexes) (IsMapOf addr.now context.now.table) }
    requires small { choice.now.bytes ≤ 2 ^ 62 }
    ensures ready { (item : _) (items : _) (potentials : _) → IsNear addr.now context.now item items potentials choice.now → IsReady addr.now context.now (item ∷ items) (potential ∷ potentials) result }
    ensures few { result.bytes ≤ choice.now.bytes }
{
    if choice.bytes <= potential {
        return *choice;
    }
    let set = setting_between(context, addr, indexes, 0, u64::MAX);
    let bytes = set.bytes + potential;
    if choice.bytes <= bytes {
        return *choice;
    }
    Choice {
        bytes,
        base: set.base,
        index: set.index,
    }
}

// The base that is set at the least cost where nothing but the end is left.
pub(crate) fn first_choice(context: &Context, addr: &[u8], indexes: Option<&AddressMap>) -> Choice
    requires table { HasTable addr.now context.now.table }
    requires mapped { ForSome (option_copied indexes) (IsMapOf addr.now context.now.table) }
    ensures ready { IsReady addr.now context.now [] [] result }
    ensures few { result.bytes ≤ 10 }
{
    let set = setting_between(context, addr, indexes, 0, u64::MAX);
    Choice {
        bytes: set.bytes + 1,
        base: set.base,
        index: set.index,
    }
}
