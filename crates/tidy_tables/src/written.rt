// Which written table stands for each old one.
ghost use Rattle.std.specs.Prelude.{◌≡◌, ◌<◌, ℕ, length, slice_index, IfOk};
ghost use Rattle.tidy_tables.specs.inside.WrittenTables.{AreWrittenAs};

use dw_base::NoMemory;
use std::alloc::Global;

/// For each of so many old tables the number of the one as which it is written: of those that the units name which name the old one, the one
/// that stands first. `old_of` and `new_of` have for each unit the numbers of its tables in both files, which rise with their places.
pub(crate) fn written_numbers(
    alloc: Global,
    old_of: &Vec<u32>,
    new_of: &Vec<u32>,
    count: usize,
) -> Result<Vec<u32>, NoMemory>
    requires units { length new_of.now.items ≡ length old_of.now.items }
    requires known { (u : ℕ) → u < length old_of.now.items → slice_index old_of.now.items u < count }
    requires named { (number : ℕ) → number < count → (u : ℕ) × (u < length old_of.now.items) × (slice_index old_of.now.items u ≡ number) }
    ensures { IfOk result (λ written. AreWrittenAs old_of.now.items new_of.now.items count written.items) }
{
    let mut written = vec![in alloc; u32::MAX; count]?;
    for unit in 0..old_of.len() {
        let old = old_of[unit] as usize;
        let new = new_of[unit];
        if new < written[old] {
            written[old] = new;
        }
    }
    Ok(written)
}
