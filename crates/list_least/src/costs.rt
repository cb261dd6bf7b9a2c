// What items cost.
ghost use Rattle.std.specs.Prelude.{◌≡◌, ◌≤◌, ◌-◌, ◌^◌, ℕ, IsTrue, IfOk, MatchOption};
ghost use Rattle.leb_codec.specs.Leb.{least_unsigned_len};
ghost use Rattle.std.specs.Option.{ForSome, option_copied};
ghost use Rattle.list_least.specs.Maps.{IsMapOf};
ghost use Rattle.list_least.specs.Plans.{bounds_of};
ghost use Rattle.list_least.specs.inside.Search.{AreCosts, AreAllCosts, IsPiece, address_bytes, both_bytes, free_of};
ghost use Rattle.leb_codec.specs.LineCosts.{IsLeastCost};
ghost use Rattle.list_model.specs.Costs.{ItemWithin};
ghost use Rattle.list_model.specs.Items.{HasTable};
ghost use Rattle.list_model.specs.Items.Bounds.{between};

use crate::map::{AddressMap, index_of};
use dw_base::NoMemory;
use leb_codec::len_u;
use list_model::{Context, Item};
use std::alloc::Global;

// An item, the least indexes of its start and its end, and its bytes by entries that need no base.
#[derive(Clone, Copy)]
pub(crate) struct Costs {
    pub(crate) start: u64,
    pub(crate) end: u64,
    pub(crate) whole: bool,
    pub(crate) first: Option<u64>,
    pub(crate) last: Option<u64>,
    pub(crate) free: u64,
}

// The bytes of an item under the bases from one down to `bottom`.
#[derive(Clone, Copy)]
pub(crate) struct Piece {
    pub(crate) cost: u64,
    pub(crate) bottom: u64,
}

// The bytes of an address, by its index where it has one.
fn start_bytes(index: Option<u64>) -> u64
    ensures { result ≡ address_bytes index }
{
    match index {
        None => 8,
        Some(index) => (len_u(index) as u64).min(8),
    }
}

// The bytes of two addresses, by their indexes where both have one.
fn pair_bytes(first: Option<u64>, last: Option<u64>) -> u64
    ensures { result ≡ both_bytes first last }
{
    match (first, last) {
        (Some(first), Some(last)) => (len_u(first) as u64 + len_u(last) as u64).min(16),
        _ => 16,
    }
}

// The bytes of the item between two addresses by entries that need no base, where the addresses have these indexes.
fn free_bytes(start: u64, end: u64, first: Option<u64>, last: Option<u64>) -> u64
    ensures { result ≡ free_of start end first last }
{
    let pair = pair_bytes(first, last);
    if start > end {
        return 1 + pair;
    }
    1 + pair.min(start_bytes(first) + len_u(end - start) as u64)
}

// What the item between two addresses costs.
fn costs_between(
    start: u64,
    end: u64,
    context: &Context,
    addr: &[u8],
    indexes: Option<&AddressMap>,
) -> Costs
    requires table { HasTable addr.now context.now.table }
    requires mapped { ForSome (option_copied indexes) (IsMapOf addr.now context.now.table) }
    ensures { AreCosts addr.now context.now (between start end) result }
{
    let first = index_of(context, addr, indexes, start);
    let last = index_of(context, addr, indexes, end);
    Costs {
        start,
        end,
        whole: false,
        first,
        last,
        free: free_bytes(start, end, first, last),
    }
}

// What an item costs.
pub(crate) fn costs_of(
    item: &Item,
    context: &Context,
    addr: &[u8],
    indexes: Option<&AddressMap>,
) -> Costs
    requires table { HasTable addr.now context.now.table }
    requires mapped { ForSome (option_copied indexes) (IsMapOf addr.now context.now.table) }
    ensures { AreCosts addr.now context.now (bounds_of item.now) result }
{
    if !item.whole {
        return costs_between(item.start, item.end, context, addr, indexes);
    }
    Costs {
        start: item.start,
        end: item.end,
        whole: true,
        first: None,
        last: None,
        free: 1,
    }
}

// What each of some items costs.
pub(crate) fn costs_of_all(
    alloc: Global,
    items: &[Item],
    context: &Context,
    addr: &[u8],
    indexes: Option<&AddressMap>,
) -> Result<Vec<Costs>, NoMemory>
    requires table { HasTable addr.now context.now.table }
    requires mapped { ForSome (option_copied indexes) (IsMapOf addr.now context.now.table) }
    ensures { IfOk result (λ all. AreAllCosts addr.now context.now items.now all.items) }
{
    let mut all = Vec::new(alloc);
    for i in 0..items.len() {
        all.push(costs_of(&items[i], context, addr, indexes))?;
    }
    Ok(all)
}

// The least number that doesn't fit so many bytes, or none where each number of 64 bits fits.
fn power(len: u32) -> Option<u64>
    requires { 1 ≤ len }
    ensures { MatchOption result (10 ≤ len) (λ power. power ≡ 128 ^ len) }
{
    let power = match len {
        1 => 0x80,
        2 => 0x4000,
        3 => 0x20_0000,
        4 => 0x1000_0000,
        5 => 0x8_0000_0000,
        6 => 0x400_0000_0000,
        7 => 0x2_0000_0000_0000,
        8 => 0x100_0000_0000_0000,
        9 => 0x8000_0000_0000_0000,
        _ => return None,
    };
    Some(power)
}

// The least base from which an offset to an address has no more than `len` bytes.
fn lowest_base(address: u64, len: u32) -> u64
    requires { 1 ≤ len }
    ensures below { result ≤ address }
    ensures enough { least_unsigned_len (address - result) ≤ len }
{
    match power(len) {
        None => 0,
        Some(power) => address.saturating_sub(power - 1),
    }
}

// The bytes of an item under a base, and the bases below it under which it has as many. Bases between that one and the last
// that is answered have as many, and the next piece begins below it.
pub(crate) fn piece_at(costs: &Costs, top: u64) -> Piece
    requires { costs.now.free ≤ 17 }
    ensures piece { (addr : _) (context : _) (item : _) → AreCosts addr context item costs.now → IsPiece addr context item top result }
    ensures few { result.cost ≤ costs.now.free }
    ensures below { result.bottom ≤ top }
{
    if costs.whole {
        return Piece {
            cost: costs.free,
            bottom: 0,
        };
    }
    let low = costs.start.min(costs.end);
    if top > low {
        return Piece {
            cost: costs.free,
            bottom: low + 1,
        };
    }
    let first = len_u(costs.start - top);
    let second = len_u(costs.end - top);
    let cost = 1 + first as u64 + second as u64;
    if cost >= costs.free {
        return Piece {
            cost: costs.free,
            bottom: 0,
        };
    }
    let near = lowest_base(costs.start, first).max(lowest_base(costs.end, second));
    let bottom = top.min(near);
    Piece { cost, bottom }
}

// Whether an item takes as many bytes under the bases from one down to another as without a base.
pub(crate) fn is_free(costs: &Costs, top: u64, lowest: u64) -> bool
    requires few { costs.now.free ≤ 17 }
    ensures { IsTrue result → (addr : _) (context : _) (item : _) → AreCosts addr context item costs.now → (base : ℕ) → lowest ≤ base → base ≤ top → IsLeastCost (ItemWithin addr context base item) costs.now.free }
{
    let piece = piece_at(costs, top);
    piece.cost == costs.free && piece.bottom <= lowest
}
