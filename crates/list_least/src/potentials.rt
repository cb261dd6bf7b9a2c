// The potentials of a list.
ghost use Rattle.std.specs.Prelude.{◌≤◌, length, map, reverse, IfOk};
ghost use Rattle.std.specs.Option.{ForSome, option_copied};
ghost use Rattle.list_least.specs.Maps.{IsMapOf};
ghost use Rattle.list_least.specs.Plans.{bounds_of};
ghost use Rattle.list_least.specs.inside.Search.{AreAllCosts, AreChosen};
ghost use Rattle.list_model.specs.Items.{HasTable};
ghost use Rattle.list_model.specs.Potentials.{AreGreatest, AcceptsSize};

use crate::cheapest::Choice;
use crate::costs::Costs;
use crate::map::AddressMap;
use crate::tail::Tail;
use dw_base::NoMemory;
use list_model::{Context, Item};
use std::alloc::Global;

// What is known of a list from its last item to its first.
#[derive(Drop)]
pub(crate) struct Backward {
    // The potentials, the last item's first.
    pub(crate) potentials: Vec<u64>,
    // For each of them the base that is set.
    pub(crate) choices: Vec<Choice>,
    // The bytes of the list.
    pub(crate) size: u64,
}

// The potentials of items that cost this much, and the bytes of the list from its first base on.
pub(crate) fn potentials_of(
    alloc: Global,
    items: &[Item],
    costs: &[Costs],
    context: &Context,
    addr: &[u8],
    indexes: Option<&AddressMap>,
) -> Result<Backward, NoMemory>
    requires table { HasTable addr.now context.now.table }
    requires mapped { ForSome (option_copied indexes) (IsMapOf addr.now context.now.table) }
    requires all { AreAllCosts addr.now context.now items.now costs.now }
    requires few { length items.now ≤ 16384 }
    ensures greatest { IfOk result (λ found. AreGreatest addr.now context.now (map bounds_of items.now) (reverse found.potentials.items)) }
    ensures chosen { IfOk result (λ found. AreChosen addr.now context.now (map bounds_of items.now) (reverse found.potentials.items) (reverse found.choices.items)) }
    ensures size { IfOk result (λ found. AcceptsSize addr.now context.now (map bounds_of items.now) (reverse found.potentials.items) found.size) }
{
    let mut potentials: Vec<u64> = Vec::new(alloc);
    let mut choices: Vec<Choice> = Vec::new(alloc);
    let mut tail = Tail::end(alloc, context, addr, indexes)?;
    let mut count = items.len();
    while count > 0 {
        count -= 1;
        let step = tail.put_costs(alloc, &costs[count], None, context, addr, indexes)?;
        potentials.push(step.choice.bytes)?;
        choices.push(step.choice)?;
        tail = step.tail;
    }
    let size = tail.size_under(context.base);
    Ok(Backward {
        potentials,
        choices,
        size,
    })
}
