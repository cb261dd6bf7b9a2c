//! The check of a list's record: whether its potentials and its size show that no list with these items is shorter (DWARF 5
//! sections 2.6.2, 2.17.3, 7.7.3 and 7.25).
#![tactic(auto)]

ghost use Rattle.std.specs.Prelude.{◌≡◌, ◌≤◌, ◌↔◌, length, map, IfOk, IfSome, IsNone};
ghost use Rattle.std.specs.Option.{ForSome, option_copied};
ghost use Rattle.list_model.specs.Items.{HasTable};
ghost use Rattle.list_model.specs.Potentials.{AcceptsList};
ghost use Rattle.list_least.specs.Maps.{IsMapOf};
ghost use Rattle.list_least.specs.Plans.{bounds_of};
ghost use Rattle.check_lists.specs.Laws.{NeverBoth, OneRefused};
ghost use Rattle.check_lists.specs.Refused.{IsFirstRefused};

mod walk;

use dw_base::NoMemory;
use list_least::AddressMap;
use list_model::{Context, Item};
use std::alloc::Global;
use walk::walk_back;

/// Whether a record shows that no list that gives these items in a context has fewer bytes than `size`: None where it is accepted,
/// and else the first place, counted from 0, by which it is refused.
///
/// `potentials` has for each item a number of bytes that no list has fewer of from there on, where a base is set right before the
/// item. It is accepted where whatever base is set, and however many items stay under it, these and the potential behind them
/// take no fewer; potentials needn't be the greatest that are accepted. The size is accepted where it is exactly the least of what
/// some items under the first base and the potential behind them take. Bytes are those of entries without padding and of the end
/// of the list, without the lengths and the bytes of expressions (DWARF 5 sections 2.6.2, 2.17.3, 7.7.3 and 7.25).
///
/// The place is 0 where the counts of potentials and of items differ, or that of the first item whose potential isn't accepted, or
/// the count of items where the size alone isn't. By `no_shorter` of list_least no list with these items is shorter than the size
/// of a record that is accepted.
///
/// `addr` is the body of .debug_addr, in which the context's table stands (section 7.27), and `indexes` the map of this table, or
/// None, where the table is walked over for each item. There are at most 16,384 items. The only error is want of memory.
pub fn accept_list(
    alloc: Global,
    items: &[Item],
    context: &Context,
    addr: &[u8],
    indexes: Option<&AddressMap>,
    size: u64,
    potentials: &[u64],
) -> Result<Option<u32>, NoMemory>
    requires table { HasTable addr.now context.now.table }
    requires mapped { ForSome (option_copied indexes) (IsMapOf addr.now context.now.table) }
    requires few { length items.now ≤ 16384 }
    ensures accepted { IfOk result (λ refused. IsNone refused ↔ AcceptsList addr.now context.now (map bounds_of items.now) potentials.now size) }
    ensures first { IfOk result (λ refused. IfSome refused (IsFirstRefused addr.now context.now (map bounds_of items.now) potentials.now size)) }
{
    if potentials.len() != items.len() {
        return Ok(Some(0));
    }
    let found = walk_back(alloc, items, context, addr, indexes, potentials)?;
    if found.first < items.len() {
        Ok(Some(found.first as u32))
    } else if found.size != size {
        Ok(Some(items.len() as u32))
    } else {
        Ok(None)
    }
}

/// Laws: no record is both accepted and refused, and one place alone is the first by which a record is refused. They do nothing
/// when they run.
pub fn one_verdict()
    ensures never_both { NeverBoth }
    ensures one_refused { OneRefused }
{}
