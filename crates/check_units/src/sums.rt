// Sums of ranges of sizes, while sizes grow.
ghost use Rattle.std.specs.Prelude.{◌≡◌, ◌≤◌, ◌<◌, ◌+◌, ◌-◌, ◌*◌, ◌/◌, ◌^◌, ℕ, length, map, sum, slice_index, slice_range, slice_set, IfOk};
ghost use Rattle.slot_layout.specs.Rows.{rows_of};
ghost use Rattle.slot_layout.specs.inside.Rounds.{smallest_of};
ghost use Rattle.check_units.specs.inside.Sums.{AreSums, numbers_of, odd_cell};

use crate::kinds::size_after;
use dw_base::NoMemory;
use slot_layout::Slot;
use std::alloc::Global;

// Numbers, with sums of them by which the sum of any range comes in few steps: the second half of the cells has the numbers, and
// each cell p before it, but that at 0, has the sum of the cells 2 p and 2 p + 1.
#[derive(Drop)]
pub(crate) struct SizeSums {
    cells: Vec<u64>,
}

impl SizeSums {
    // The sum of those cells at the ends of a range whose twin is outside. The cells above have the sums of all others, by twos.
    fn ends(&self, low: usize, high: usize) -> u64
        requires order { low < high }
        requires inside { high ≤ length self.now.cells.items }
        requires room { slice_index self.now.cells.items low + slice_index self.now.cells.items (high - 1) < 2 ^ 64 }
        ensures { result ≡ odd_cell self.now.cells.items low low + odd_cell self.now.cells.items high (high - 1) }
    {
        let first = if low % 2 == 1 { self.cells[low] } else { 0 };
        let last = if high % 2 == 1 {
            self.cells[high - 1]
        } else {
            0
        };
        first + last
    }

    // The sum of the numbers from one up to but not including another.
    pub(crate) fn between(&self, from: usize, to: usize) -> u64
        requires sums { AreSums self.now.cells.items }
        requires order { from ≤ to }
        requires inside { to ≤ length self.now.cells.items / 2 }
        requires room { sum (numbers_of self.now.cells.items) < 2 ^ 63 }
        ensures { result ≡ sum (slice_range (numbers_of self.now.cells.items) from to) }
    {
        let count = self.cells.len() / 2;
        let mut low = count + from;
        let mut high = count + to;
        let mut sum = 0;
        while low < high {
            sum += self.ends(low, high);
            low = (low + 1) / 2;
            high /= 2;
        }
        sum
    }

    // Adds to a number, and to each sum that has it.
    pub(crate) fn add(&mut self, place: usize, more: u64)
        requires sums { AreSums self.old.cells.items }
        requires inside { place < length self.old.cells.items / 2 }
        requires room { sum (numbers_of self.old.cells.items) + more < 2 ^ 63 }
        ensures sums { AreSums self.new.cells.items }
        ensures added { let numbers = numbers_of self.old.cells.items in
            numbers_of self.new.cells.items ≡ slice_set numbers place (slice_index numbers place + more) }
    {
        let mut at = self.cells.len() / 2 + place;
        self.cells[at] += more;
        while at > 1 {
            at /= 2;
            self.cells[at] += more;
        }
    }
}

// As many cells again as there are slots, and the smallest size of each slot.
fn smallest_cells(alloc: Global, slots: &[Slot]) -> Result<Vec<u64>, NoMemory>
    requires { length slots.now < 2 ^ 32 }
    ensures long { IfOk result (λ cells. length cells.items ≡ 2 * length slots.now) }
    ensures numbers { IfOk result (λ cells. numbers_of cells.items ≡ smallest_of (rows_of slots.now)) }
{
    let mut cells = vec![in alloc; 0u64; slots.len()]?;
    for slot in slots {
        cells.push(size_after(slot.kind, 0))?;
    }
    Ok(cells)
}

// The sums of the smallest sizes.
pub(crate) fn smallest_sums(alloc: Global, slots: &[Slot]) -> Result<SizeSums, NoMemory>
    requires { length slots.now < 2 ^ 32 }
    ensures sums { IfOk result (λ sums. AreSums sums.cells.items) }
    ensures numbers { IfOk result (λ sums. numbers_of sums.cells.items ≡ smallest_of (rows_of slots.now)) }
{
    let mut cells = smallest_cells(alloc, slots)?;
    for p in (1..slots.len()).rev() {
        cells[p] = cells[2 * p] + cells[2 * p + 1];
    }
    Ok(SizeSums { cells })
}
