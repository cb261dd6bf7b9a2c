// The shortest lists.
ghost use Rattle.std.specs.Prelude.{◌≤◌, ◌<◌, ◌*◌, ℕ, length, map, IfOk};
ghost use Rattle.list_least.specs.Maps.{IsMapOf};
ghost use Rattle.list_least.specs.Plans.{bounds_of, IsPlanned, IsItemOf, item_at};
ghost use Rattle.list_model.specs.Items.{HasTable};
ghost use Rattle.list_model.specs.Potentials.{AcceptsList, AreGreatest};

use crate::costs::costs_of_all;
use crate::forward::picks_of;
use crate::map::AddressMap;
use crate::pick::Pick;
use crate::potentials::potentials_of;
use dw_base::NoMemory;
use list_model::{Context, Item, ListKind};
use std::alloc::Global;

/// How a list is written in the fewest bytes, and why it takes no fewer.
#[derive(Debug, Drop)]
pub struct Plan {
    /// Its entries, in order, without the end of the list.
    pub picks: Vec<Pick>,
    /// For each item, in order, the fewest bytes of an entry that sets a base right before it, of the entries from there on, and
    /// of the end of the list.
    pub potentials: Vec<u64>,
    /// The bytes of the list: those of its entries without padding, and one for its end. The lengths and the bytes of expressions
    /// aren't among them.
    pub size: u64,
}

/// The shortest list of a kind that gives these items, in this order, in a context: its entries are of any kind, and set any bases
/// (DWARF 5 sections 2.6.2, 2.17.3, 7.7.3 and 7.25). Empty items are kept, and so are adjoining ones. Addresses are those of the
/// program, indexes count from 0 in the context's table, and offsets from the base that was set last, or from the context's base
/// before one is. `addr` is the body of .debug_addr, in which this table stands (section 7.27). There are at most 16,384 items,
/// and default locations stand in location lists alone. Sizes are in bytes.
///
/// Of the shortest lists it is the one that takes at each place the lowest code; of bases that are set by the same code it takes
/// the least index or the greatest address. The only error is want of memory.
pub fn least(
    alloc: Global,
    kind: ListKind,
    items: &Vec<Item>,
    context: &Context,
    addr: &[u8],
) -> Result<Plan, NoMemory>
    requires table { HasTable addr.now context.now.table }
    requires few { length items.now.items ≤ 16384 }
    requires fits { (i : ℕ) → i < length items.now.items → IsItemOf kind (bounds_of (item_at items.now.items i)) }
    ensures planned { IfOk result (λ plan. IsPlanned kind addr.now context.now (map bounds_of items.now.items) plan.picks.items plan.size) }
    ensures accepted { IfOk result (λ plan. AcceptsList addr.now context.now (map bounds_of items.now.items) plan.potentials.items plan.size) }
    ensures greatest { IfOk result (λ plan. AreGreatest addr.now context.now (map bounds_of items.now.items) plan.potentials.items) }
{
    let indexes = AddressMap::new(alloc, addr, &context.table)?;
    least_in(alloc, kind, items.as_slice(), context, addr, &indexes)
}

/// The same as `least`, where `indexes` is the map of the context's table in `addr`, or of no table where the context has none. One
/// map serves any number of lists. The only error is want of memory.
pub fn least_in(
    alloc: Global,
    kind: ListKind,
    items: &[Item],
    context: &Context,
    addr: &[u8],
    indexes: &AddressMap,
) -> Result<Plan, NoMemory>
    requires table { HasTable addr.now context.now.table }
    requires mapped { IsMapOf addr.now context.now.table indexes.now }
    requires few { length items.now ≤ 16384 }
    requires fits { (i : ℕ) → i < length items.now → IsItemOf kind (bounds_of (item_at items.now i)) }
    ensures planned { IfOk result (λ plan. IsPlanned kind addr.now context.now (map bounds_of items.now) plan.picks.items plan.size) }
    ensures accepted { IfOk result (λ plan. AcceptsList addr.now context.now (map bounds_of items.now) plan.potentials.items plan.size) }
    ensures greatest { IfOk result (λ plan. AreGreatest addr.now context.now (map bounds_of items.now) plan.potentials.items) }
    ensures few { IfOk result (λ plan. length plan.picks.items ≤ 2 * length items.now) }
{
    let costs = costs_of_all(alloc, items, context, addr, Some(indexes))?;
    let back = potentials_of(alloc, items, costs.as_slice(), context, addr, Some(indexes))?;
    let mut potentials = back.potentials;
    let mut choices = back.choices;
    potentials.reverse();
    choices.reverse();
    let picks = picks_of(
        alloc,
        kind,
        costs.as_slice(),
        context.base,
        potentials.as_slice(),
        choices.as_slice(),
    )?;
    Ok(Plan {
        picks,
        potentials,
        size: back.size,
    })
}
