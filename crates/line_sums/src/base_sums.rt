// A sum for each line_base.
ghost use Rattle.std.specs.Prelude.{◌≡◌, ◌≤◌, ◌<◌, ◌+◌, ◌^◌, ℕ, length, slice_index, replicate, IfOk, IsTrue};
ghost use Rattle.line_sums.specs.Sums.{IsFirstLeast};

use dw_base::NoMemory;
use std::alloc::Global;
use std::marker::Model;

/// How many line_base there are.
pub const BASES: usize = 256;

/// A sum for each line_base, in their order. What is held for a place is how much its sum is above the one before, in 64 bits
/// that wrap: so adding to a run of neighbours changes the two ends of the run alone, however long it is. The last place stands
/// behind all line_base, so that a run has an end there too. Contracts see the sums.
#[derive(Drop)]
pub struct BaseSums {
    changes: Vec<u64>,
}

impl Model for BaseSums {
    ghost use Rattle.std.specs.Prelude.{◌≡◌, ℕ, List, length};
    ghost use Rattle.line_sums.specs.inside.RunningSums.{sums_from};

    ghost Value = { List ℕ };

    ghost view = { λ s. sums_from 0 s.changes.items };

    ghost invariant = { λ s. length s.changes.items ≡ 257 };
}

// So many zeros.
fn zeros(alloc: Global, count: usize) -> Result<Vec<u64>, NoMemory>
    ensures { IfOk result (λ zeros. zeros.items ≡ replicate count 0) }
{
    Ok(vec![in alloc; 0u64; count]?)
}

impl BaseSums {
    /// Sums that are all 0. The only error is want of memory.
    pub fn new(alloc: Global) -> Result<BaseSums, NoMemory>
        ensures { IfOk result (λ sums. (place : ℕ) → place < 256 → slice_index sums place ≡ 0) }
    {
        Ok(BaseSums {
            changes: zeros(alloc, BASES + 1)?,
        })
    }

    /// Sets all sums to 0.
    pub fn clear(&mut self)
        ensures { (place : ℕ) → place < 256 → slice_index self.new place ≡ 0 }
    {
        self.changes.fill(0);
    }

    /// Adds a number to the sums from one place up to another.
    pub fn add_between(&mut self, from: usize, to: usize, amount: u64)
        requires order { from ≤ to }
        requires within { to ≤ 256 }
        requires room { (place : ℕ) → from ≤ place → place < to → slice_index self.old place + amount < 2 ^ 64 }
        ensures added { (place : ℕ) → from ≤ place → place < to → slice_index self.new place ≡ slice_index self.old place + amount }
        ensures before { (place : ℕ) → place < from → slice_index self.new place ≡ slice_index self.old place }
        ensures after { (place : ℕ) → to ≤ place → place < 256 → slice_index self.new place ≡ slice_index self.old place }
    {
        self.changes[from] = self.changes[from].wrapping_add(amount);
        self.changes[to] = self.changes[to].wrapping_sub(amount);
    }

    /// Under no line_base do the sum and the rest stay below so many bytes.
    pub fn are_past(&self, rest: u64, bytes: u64) -> bool
        requires { (place : ℕ) → place < 256 → slice_index self.now place + rest < 2 ^ 64 }
        ensures { IsTrue result → (place : ℕ) → place < 256 → bytes ≤ slice_index self.now place + rest }
    {
        let mut sum = 0u64;
        for place in 0..BASES {
            sum = sum.wrapping_add(self.changes[place]);
            if sum + rest < bytes {
                return false;
            }
        }
        true
    }

    /// Writes out all sums.
    pub fn totals(&self, totals: &mut [u64])
        requires { length totals.old ≡ 256 }
        ensures size { length totals.new ≡ 256 }
        ensures each { (place : ℕ) → place < 256 → slice_index totals.new place ≡ slice_index self.now place }
    {
        let mut sum = 0u64;
        for place in 0..BASES {
            sum = sum.wrapping_add(self.changes[place]);
            totals[place] = sum;
        }
    }

    /// The first place of the least sum, and that sum.
    pub fn first_least(&self) -> (usize, u64)
        ensures first { IsFirstLeast self.now result.0 }
        ensures sum { result.1 ≡ slice_index self.now result.0 }
    {
        let mut sum = self.changes[0];
        let mut first = 0;
        let mut least = sum;
        for place in 1..BASES {
            sum = sum.wrapping_add(self.changes[place]);
            if sum < least {
                first = place;
                least = sum;
            }
        }
        (first, least)
    }
}
