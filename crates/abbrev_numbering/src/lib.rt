//! The numbers of the declarations of an abbreviation table (DWARF 5 section 7.5.3): those that make the table and its
//! entries least.
#![tactic(auto)]

ghost use Rattle.std.specs.Prelude.{◌≡◌, ◌<◌, ◌≤◌, ◌^◌, ◌↔◌, ℕ, length, slice_index, IfOk};
ghost use Rattle.leb_codec.specs.Numbering.{IsLeastNumbering, RiseByFallingUses, AreFirstNumbers, IsUsed};
ghost use Rattle.abbrev_numbering.specs.inside.Order.{used_among, ArePlaces, AreNumbered};

use dw_base::NoMemory;
use leb_codec::least_lens;
use std::alloc::Global;
use std::cmp::Reverse;

// The declarations that have uses, in order of place.
fn used(alloc: Global, uses: &[u64]) -> Result<Vec<(Reverse<u64>, u32)>, NoMemory>
    requires { length uses.now < 2 ^ 32 }
    ensures { IfOk result (λ order. order.items ≡ used_among uses.now (length uses.now)) }
{
    let mut order = Vec::new(alloc);
    for (place, count) in uses.iter().enumerate() {
        if *count > 0 {
            order.push((Reverse(*count), place as u32))?;
        }
    }
    Ok(order)
}

// The numbers from 1 on, in this order.
fn numbered(
    alloc: Global,
    order: &[(Reverse<u64>, u32)],
    count: usize,
) -> Result<Vec<u32>, NoMemory>
    requires few { length order.now < 2 ^ 32 }
    requires places { ArePlaces order.now count }
    ensures { IfOk result (λ numbers. AreNumbered order.now count numbers.items) }
{
    let mut numbers = vec![in alloc; 0u32; count]?;
    for i in 0..order.len() {
        let (_, place) = order[i];
        numbers[place as usize] = i as u32 + 1;
    }
    Ok(numbers)
}

/// Numbers the declarations of an abbreviation table so that their codes take the least bytes in all, in the
/// declarations and in the entries (ULEB128, DWARF 5 sections 7.5.2 and 7.5.3).
///
/// `uses` has for each declaration, in the table's order, how many entries have it; there are fewer than 2^32.
/// The answer has its number there: 0 where there is no use, else 1 for the most uses and so on, equal uses by place.
/// The only error is want of memory.
pub fn number(alloc: Global, uses: &Vec<u64>) -> Result<Vec<u32>, NoMemory>
    requires { length uses.now.items < 2 ^ 32 }
    ensures same_length { IfOk result (λ numbers. length numbers.items ≡ length uses.now.items) }
    ensures unused { IfOk result (λ numbers.
        (i : ℕ) → i < length uses.now.items → (slice_index numbers.items i ≡ 0) ↔ (slice_index uses.now.items i ≡ 0)) }
    ensures one_to_one { IfOk result (λ numbers.
        (i j : ℕ) → IsUsed uses.now.items i → IsUsed uses.now.items j → slice_index numbers.items i ≡ slice_index numbers.items j → i ≡ j) }
    ensures order { IfOk result (λ numbers. RiseByFallingUses uses.now.items numbers.items) }
    ensures first { IfOk result (λ numbers. AreFirstNumbers uses.now.items numbers.items) }
    ensures least { IfOk result (λ numbers. IsLeastNumbering uses.now.items numbers.items) }
{
    // A law, which costs nothing: a greater number has no shorter code.
    least_lens();
    let mut order = used(alloc, uses)?;
    order.sort_unstable();
    numbered(alloc, &order, uses.len())
}
