// What items and bases cost.
ghost use Rattle.std.specs.Prelude.{◌≤◌};
ghost use Rattle.list_least.specs.Plans.{bounds_of, IsItemOf};
ghost use Rattle.leb_codec.specs.LineCosts.{IsLeastCost};
ghost use Rattle.list_model.specs.Items.{HasTable};
ghost use Rattle.list_model.specs.Costs.{ItemWithin, BaseWithin};

use crate::cheapest::setting_between;
use crate::costs::{costs_of, piece_at};
use list_model::{Context, Item, ListKind};

/// The fewest bytes of an entry that is this item of a list of a kind, in a context, where offsets count from `base` (DWARF 5
/// sections 2.6.2, 2.17.3, 7.7.3 and 7.25). The length and the bytes of an expression aren't among them. `addr` is the body of
/// .debug_addr, in which the table of the context stands (section 7.27). Default locations stand in location lists alone. It takes
/// no memory, and walks over the table: for many items make an `AddressMap`, and call `least_in`.
pub fn item_cost(kind: ListKind, item: &Item, base: u64, context: &Context, addr: &[u8]) -> u64
    requires table { HasTable addr.now context.now.table }
    requires fits { IsItemOf kind (bounds_of item.now) }
    ensures least { IsLeastCost (ItemWithin addr.now context.now base (bounds_of item.now)) result }
    ensures few { result ≤ 17 }
{
    let _kind = kind;
    let costs = costs_of(item, context, addr, None);
    piece_at(&costs, base).cost
}

/// The fewest bytes of an entry that sets the base to this address in a context, by its address or by an index of it (DWARF 5
/// sections 2.6.2, 2.17.3, 7.7.3 and 7.25). `addr` is the body of .debug_addr, in which the table of the context stands
/// (section 7.27). It takes no memory, and walks over the table.
pub fn base_cost(base: u64, context: &Context, addr: &[u8]) -> u64
    requires table { HasTable addr.now context.now.table }
    ensures least { IsLeastCost (BaseWithin addr.now context.now base) result }
    ensures few { result ≤ 9 }
{
    setting_between(context, addr, None, base, base).bytes
}
