// What is left of a list from one of its items on.
ghost use Rattle.std.specs.Prelude.{◌≡◌, ◌≤◌, ◌<◌, ◌↔◌, ℕ, [], ◌∷◌, length, IfOk};
ghost use Rattle.std.specs.Option.{ForSome, option_copied};
ghost use Rattle.leb_codec.specs.LineCosts.{IsLeastCost};
ghost use Rattle.list_model.specs.Items.{HasTable};
ghost use Rattle.list_model.specs.Potentials.{AcceptsFirst, OnFrom};
ghost use Rattle.list_least.specs.Maps.{IsMapOf};
ghost use Rattle.list_least.specs.Plans.{bounds_of};
ghost use Rattle.list_least.specs.Tails.{IsTail, IsTailOf};
ghost use Rattle.list_least.specs.Tails.{AreLeft, GoDown, StartAtTop};
ghost use Rattle.list_least.specs.inside.Search.{AreCosts, IsStep};

use crate::cheapest::{Choice, best_before, cheapest, first_choice};
use crate::costs::{Costs, costs_of};
use crate::map::AddressMap;
use crate::runs::{Run, behind, lower};
use dw_base::NoMemory;
use list_model::{Context, Item};
use std::alloc::Global;

/// The last items of a list, each with a potential: how many bytes are left for them and for the end of the list under each base,
/// where another base is set before any of them at its potential. A list is walked with it from its last item to its first.
#[derive(Drop)]
pub struct Tail {
    // Bases with as many bytes.
    pub(crate) runs: Vec<Run>,
    // The number of bytes that all runs have in common.
    pub(crate) under: u64,
    // No gain is greater.
    pub(crate) most: u64,
    // The base that is set before these items at the least cost.
    pub(crate) before: Choice,
}

/// A tail that has grown by one item.
#[derive(Drop)]
pub struct Longer {
    /// The tail with the item.
    pub tail: Tail,
    /// The greatest potential of the item that is accepted.
    pub greatest: u64,
}

// The same, and the base that is set where the item has its greatest potential.
#[derive(Drop)]
pub(crate) struct Step {
    pub(crate) tail: Tail,
    pub(crate) choice: Choice,
}

// The runs under which nothing but the end is left.
fn end_runs(alloc: Global) -> Result<Vec<Run>, NoMemory>
    ensures { IfOk result (λ runs. runs.items ≡ record { upto = 18446744073709551615; gain = 0 } ∷ []) }
{
    let mut runs = Vec::new(alloc);
    runs.push(Run {
        upto: u64::MAX,
        gain: 0,
    })?;
    Ok(runs)
}

// What is left under a base.
fn bytes_under(runs: &[Run], base: u64, under: u64) -> u64
    requires top { StartAtTop runs.now }
    requires down { GoDown runs.now }
    ensures { (addr : _) (context : _) (items : _) (potentials : _) → AreLeft addr context items potentials under runs.now → IsLeastCost (OnFrom addr context base items potentials) result }
{
    let mut i = 0;
    while i + 1 < runs.len() && base <= runs[i + 1].upto {
        i += 1;
    }
    under.saturating_sub(runs[i].gain)
}

impl Tail {
    /// The end of a list in a context. `addr` is the body of .debug_addr, and `indexes` the map of the context's table, or None,
    /// where the table is walked over. The only error is want of memory.
    pub fn end(
        alloc: Global,
        context: &Context,
        addr: &[u8],
        indexes: Option<&AddressMap>,
    ) -> Result<Tail, NoMemory>
        requires table { HasTable addr.now context.now.table }
        requires mapped { ForSome (option_copied indexes) (IsMapOf addr.now context.now.table) }
        ensures { IfOk result (IsTailOf addr.now context.now [] []) }
    {
        let runs = end_runs(alloc)?;
        Ok(Tail {
            runs,
            under: 1,
            most: 0,
            before: first_choice(context, addr, indexes),
        })
    }

    // Puts an item that costs this much before the tail, with a potential, or else with the greatest that is accepted.
    pub(crate) fn put_costs(
        self,
        alloc: Global,
        costs: &Costs,
        given: Option<u64>,
        context: &Context,
        addr: &[u8],
        indexes: Option<&AddressMap>,
    ) -> Result<Step, NoMemory>
        requires table { HasTable addr.now context.now.table }
        requires mapped { ForSome (option_copied indexes) (IsMapOf addr.now context.now.table) }
        requires few { costs.now.free ≤ 17 }
        requires tail { IsTail self }
        ensures { IfOk result (λ step. (item : _) (items : _) (potentials : _) → AreCosts addr.now context.now item costs.now → IsTailOf addr.now context.now items potentials self → IsStep addr.now context.now item items potentials given step) }
    {
        let Tail {
            runs,
            under,
            most,
            before,
        } = self;
        let next = behind(alloc, runs, most, costs)?;
        let all = under + costs.free;
        let choice = cheapest(next.as_slice(), all, &before, costs, context, addr, indexes);
        let potential = given.unwrap_or(choice.bytes);
        let by = all.saturating_sub(potential);
        let tail = Tail {
            runs: lower(alloc, next, by)?,
            under: all - by,
            most: most + 17,
            before: best_before(&choice, potential, context, addr, indexes),
        };
        Ok(Step { tail, choice })
    }

    /// Puts an item before those of the tail, with this potential, whether it is accepted or not. The context, the body of
    /// .debug_addr and the map are those of the tail, which has at most 16,384 items with this one. The only error is want of
    /// memory.
    pub fn put_before(
        self,
        alloc: Global,
        item: &Item,
        potential: u64,
        context: &Context,
        addr: &[u8],
        indexes: Option<&AddressMap>,
    ) -> Result<Longer, NoMemory>
        requires table { HasTable addr.now context.now.table }
        requires mapped { ForSome (option_copied indexes) (IsMapOf addr.now context.now.table) }
        requires tail { IsTail self }
        ensures tail { IfOk result (λ longer. (items : _) (potentials : _) → IsTailOf addr.now context.now items potentials self → length items < 16384 → IsTailOf addr.now context.now (bounds_of item.now ∷ items) (potential ∷ potentials) longer.tail) }
        ensures greatest { IfOk result (λ longer. (items : _) (potentials : _) → IsTailOf addr.now context.now items potentials self → (other : ℕ) → AcceptsFirst addr.now context.now (bounds_of item.now ∷ items) (other ∷ potentials) ↔ (other ≤ longer.greatest)) }
    {
        let costs = costs_of(item, context, addr, indexes);
        let step = self.put_costs(alloc, &costs, Some(potential), context, addr, indexes)?;
        Ok(Longer {
            tail: step.tail,
            greatest: step.choice.bytes,
        })
    }

    /// The fewest bytes that are left under this base: for some of the items, and for the potential of what follows these. It
    /// takes no memory.
    pub fn size_under(&self, base: u64) -> u64
        requires { IsTail self.now }
        ensures { (addr : _) (context : _) (items : _) (potentials : _) → IsTailOf addr context items potentials self.now → IsLeastCost (OnFrom addr context base items potentials) result }
    {
        bytes_under(self.runs.as_slice(), base, self.under)
    }
}
