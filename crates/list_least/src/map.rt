// Indexes of addresses.
ghost use Rattle.std.specs.Prelude.{◌≡◌, ◌≤◌, ◌<◌, ◌+◌, ℕ, List, length, Some, IfOk, MatchOption};
ghost use Rattle.std.specs.Option.{ForSome, option_copied};
ghost use Rattle.list_model.specs.declared.context.Context.{Context};
ghost use Rattle.list_model.specs.declared.tables.AddrTable.{AddrTable};
ghost use Rattle.list_model.specs.Items.{HasTable};
ghost use Rattle.list_least.specs.Maps.{HasNoIndex, IsLeastIndex, pair_at, AreRising, AreSorted, AreHalves, IsTree, IsMapOf, IsMap};
ghost use Rattle.list_least.specs.inside.Lookups.{IsIndexOf, addresses_among, AreLeaves, IsLeastOf};

use dw_base::NoMemory;
use list_model::{AddrTable, Context, address};
use std::alloc::Global;

/// The addresses of an address table (DWARF 5 section 7.27), in the order of the addresses, for looking up their indexes. The map
/// of no table has none.
#[derive(Drop)]
pub struct AddressMap {
    // Each address and its index.
    sorted: Vec<(u64, u64)>,
    // The indexes in this order, and behind them the lesser of each two, again and again.
    tree: Vec<u64>,
}

// The addresses of a table and their indexes, in the order of the table.
fn addresses_in(alloc: Global, addr: &[u8], table: &AddrTable) -> Result<Vec<(u64, u64)>, NoMemory>
    requires { HasTable addr.now (Some table.now) }
    ensures { IfOk result (λ all. all.items ≡ addresses_among addr.now table.now table.now.count) }
{
    let mut all = Vec::new(alloc);
    for index in 0..table.count {
        let Some(at) = address(addr, table, index) else {
            unreachable!()
        };
        all.push((at, index))?;
    }
    Ok(all)
}

// The same, in the order of the addresses.
fn sorted_in(alloc: Global, addr: &[u8], table: &AddrTable) -> Result<Vec<(u64, u64)>, NoMemory>
    requires { HasTable addr.now (Some table.now) }
    ensures { IfOk result (λ sorted. AreSorted addr.now (Some table.now) sorted.items) }
{
    let mut sorted = addresses_in(alloc, addr, table)?;
    sorted.sort_unstable();
    Ok(sorted)
}

// The indexes of addresses.
fn leaves_of(alloc: Global, sorted: &[(u64, u64)]) -> Result<Vec<u64>, NoMemory>
    ensures { IfOk result (λ leaves. AreLeaves sorted.now leaves.items (length sorted.now)) }
{
    let mut leaves = Vec::new(alloc);
    for i in 0..sorted.len() {
        leaves.push(sorted[i].1)?;
    }
    Ok(leaves)
}

// The indexes of addresses, and behind them the lesser of each two of this list, in order.
fn tree_of(alloc: Global, sorted: &[(u64, u64)]) -> Result<Vec<u64>, NoMemory>
    ensures { IfOk result (λ tree. IsTree sorted.now tree.items) }
{
    let mut tree = leaves_of(alloc, sorted)?;
    for i in 0..sorted.len().saturating_sub(1) {
        let least = tree[2 * i].min(tree[2 * i + 1]);
        tree.push(least)?;
    }
    Ok(tree)
}

// How many addresses are less than one.
fn first_from(sorted: &[(u64, u64)], address: u64) -> usize
    requires { AreRising sorted.now }
    ensures inside { result ≤ length sorted.now }
    ensures before { (i : ℕ) → i < result → (pair_at sorted.now i).0 < address }
    ensures behind { (i : ℕ) → result ≤ i → i < length sorted.now → address ≤ (pair_at sorted.now i).0 }
{
    let mut low = 0;
    let mut high = sorted.len();
    while low < high {
        let middle = low + (high - low) / 2;
        if sorted[middle].0 < address {
            low = middle + 1;
        } else {
            high = middle;
        }
    }
    low
}

// How many addresses are no more than one.
fn first_above(sorted: &[(u64, u64)], address: u64) -> usize
    requires { AreRising sorted.now }
    ensures inside { result ≤ length sorted.now }
    ensures before { (i : ℕ) → i < result → (pair_at sorted.now i).0 ≤ address }
    ensures behind { (i : ℕ) → result ≤ i → i < length sorted.now → address < (pair_at sorted.now i).0 }
{
    let mut low = 0;
    let mut high = sorted.len();
    while low < high {
        let middle = low + (high - low) / 2;
        if sorted[middle].0 <= address {
            low = middle + 1;
        } else {
            high = middle;
        }
    }
    low
}

// The least index of some addresses.
fn least_of(tree: &[u64], count: usize, from: usize, to: usize) -> u64
    requires halves { AreHalves count tree.now }
    requires order { from < to }
    requires inside { to ≤ length tree.now }
    ensures { IsLeastOf tree.now from to result }
{
    let mut best = tree[from];
    let mut low = from;
    let mut high = to;
    while low < high {
        best = best.min(tree[low]).min(tree[high - 1]);
        low = count + (low + 1) / 2;
        high = count + high / 2;
    }
    best
}

impl AddressMap {
    /// The map of a table, or of no table. `addr` is the body of .debug_addr, in which the table stands. The only error is want of
    /// memory.
    pub fn new(
        alloc: Global,
        addr: &[u8],
        table: &Option<AddrTable>,
    ) -> Result<AddressMap, NoMemory>
        requires { HasTable addr.now table.now }
        ensures { IfOk result (IsMapOf addr.now table.now) }
    {
        let sorted = match table {
            None => Vec::new(alloc),
            Some(table) => sorted_in(alloc, addr, table)?,
        };
        let tree = tree_of(alloc, sorted.as_slice())?;
        Ok(AddressMap { sorted, tree })
    }

    /// The least index of an address in the table, counted from 0, or None exactly where the table hasn't this address. It takes no
    /// memory.
    pub fn index_of(&self, address: u64) -> Option<u64>
        requires { IsMap self.now }
        ensures { (addr : List ℕ) (context : Context) → IsMapOf addr context.table self.now → MatchOption result (HasNoIndex addr context address address) (IsLeastIndex addr context address address) }
    {
        let sorted = self.sorted.as_slice();
        let i = first_from(sorted, address);
        if i < sorted.len() && sorted[i].0 == address {
            Some(sorted[i].1)
        } else {
            None
        }
    }

    /// The least index of an address from `from` up to `to`, both counted in, or None exactly where the table has none of these
    /// addresses. It takes no memory.
    pub fn least_between(&self, from: u64, to: u64) -> Option<u64>
        requires { IsMap self.now }
        ensures { (addr : List ℕ) (context : Context) → IsMapOf addr context.table self.now → MatchOption result (HasNoIndex addr context from to) (IsLeastIndex addr context from to) }
    {
        let sorted = self.sorted.as_slice();
        let low = first_from(sorted, from);
        let high = first_above(sorted, to);
        if low < high {
            Some(least_of(self.tree.as_slice(), sorted.len(), low, high))
        } else {
            None
        }
    }
}

// The least index of the addresses from one up to another: by the map of the table, or else by a walk over the table.
pub(crate) fn least_index(
    context: &Context,
    addr: &[u8],
    indexes: Option<&AddressMap>,
    from: u64,
    to: u64,
) -> Option<u64>
    requires table { HasTable addr.now context.now.table }
    requires mapped { ForSome (option_copied indexes) (IsMapOf addr.now context.now.table) }
    ensures { MatchOption result (HasNoIndex addr.now context.now from to) (IsLeastIndex addr.now context.now from to) }
{
    match indexes {
        None => walked_index(context, addr, from, to),
        Some(map) => map.least_between(from, to),
    }
}

// The least index of an address, likewise.
pub(crate) fn index_of(
    context: &Context,
    addr: &[u8],
    indexes: Option<&AddressMap>,
    address: u64,
) -> Option<u64>
    requires table { HasTable addr.now context.now.table }
    requires mapped { ForSome (option_copied indexes) (IsMapOf addr.now context.now.table) }
    ensures { IsIndexOf addr.now context.now address result }
{
    match indexes {
        None => walked_index(context, addr, address, address),
        Some(map) => map.index_of(address),
    }
}

// The least index of the addresses from one up to another, by a walk over the table.
fn walked_index(context: &Context, addr: &[u8], from: u64, to: u64) -> Option<u64>
    requires { HasTable addr.now context.now.table }
    ensures { MatchOption result (HasNoIndex addr.now context.now from to) (IsLeastIndex addr.now context.now from to) }
{
    let Some(table) = &context.table else {
        return None;
    };
    let count = table.count;
    for index in 0..count {
        if let Some(at) = address(addr, table, index) {
            if from <= at && at <= to {
                return Some(index);
            }
        }
    }
    None
}
