// The potentials of a record, judged from the last item's to the first's.
ghost use Rattle.std.specs.Prelude.{◌≡◌, ◌≤◌, length, map, IfOk};
ghost use Rattle.std.specs.Option.{ForSome, option_copied};
ghost use Rattle.list_model.specs.Items.{HasTable};
ghost use Rattle.list_model.specs.Potentials.{AcceptsAt, AcceptsSize};
ghost use Rattle.list_least.specs.Maps.{IsMapOf};
ghost use Rattle.list_least.specs.Plans.{bounds_of};
ghost use Rattle.check_lists.specs.inside.Walks.{IsFirstFrom};

use dw_base::NoMemory;
use list_least::{AddressMap, Tail};
use list_model::{Context, Item};
use std::alloc::Global;

// What a walk over the items finds.
#[derive(Clone, Copy)]
pub(crate) struct Found {
    // The first item whose potential isn't accepted, or the count of items.
    pub(crate) first: usize,
    // The one size that is accepted.
    pub(crate) size: u64,
}

// Judges each potential by those behind it, as they are given.
pub(crate) fn walk_back(
    alloc: Global,
    items: &[Item],
    context: &Context,
    addr: &[u8],
    indexes: Option<&AddressMap>,
    potentials: &[u64],
) -> Result<Found, NoMemory>
    requires table { HasTable addr.now context.now.table }
    requires mapped { ForSome (option_copied indexes) (IsMapOf addr.now context.now.table) }
    requires few { length items.now ≤ 16384 }
    requires each { length potentials.now ≡ length items.now }
    ensures first { IfOk result (λ found. IsFirstFrom (AcceptsAt addr.now context.now (map bounds_of items.now) potentials.now) 0 (length items.now) found.first) }
    ensures size { IfOk result (λ found. AcceptsSize addr.now context.now (map bounds_of items.now) potentials.now found.size) }
{
    let mut tail = Tail::end(alloc, context, addr, indexes)?;
    let mut first = items.len();
    let mut i = items.len();
    while i > 0 {
        i -= 1;
        let longer = tail.put_before(alloc, &items[i], potentials[i], context, addr, indexes)?;
        if potentials[i] > longer.greatest {
            first = i;
        }
        tail = longer.tail;
    }
    Ok(Found {
        first,
        size: tail.size_under(context.base),
    })
}
