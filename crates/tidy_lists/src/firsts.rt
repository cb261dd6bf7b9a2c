// The first written thing that each old one is.
ghost use Rattle.std.specs.Prelude.{◌≡◌, ◌<◌, ◌^◌, ℕ, length, min, slice_index, IfOk};
ghost use Rattle.std.specs.List.{Contains};
ghost use Rattle.tidy_lists.specs.inside.LeastPlaces.{IsFirstOf};

use crate::followers::Follower;
use dw_base::NoMemory;
use std::alloc::Global;

// Lowers a number to another one where that is less.
fn lower(number: &mut u32, other: u32)
    ensures lowered { number.new ≡ min number.old other }
    ensures fits { other < 2 ^ 32 }
{
    *number = (*number).min(other);
}

/// Of each old thing, up to a count, the least number of a written one that it is by some pairs. `u32::MAX` stands for none.
pub(crate) fn first_followers(
    alloc: Global,
    pairs: &[Follower],
    count: usize,
) -> Result<Vec<u32>, NoMemory>
    requires { (k m : ℕ) → Contains pairs.now (record { old = k; new = m }) → k < count }
    ensures count { IfOk result (λ firsts. length firsts.items ≡ count) }
    ensures firsts { IfOk result (λ firsts. (k m : ℕ) → Contains pairs.now (record { old = k; new = m }) → IsFirstOf pairs.now k (slice_index firsts.items k)) }
{
    let mut firsts = vec![in alloc; u32::MAX; count]?;
    for pair in pairs {
        lower(&mut firsts[pair.old as usize], pair.new);
    }
    Ok(firsts)
}
