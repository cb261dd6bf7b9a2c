// The number of each pair.
ghost use Rattle.std.specs.Prelude.{◌≡◌, IfOk};
ghost use Rattle.line_sums.specs.Accepted.{numbers_of};

use dw_base::{NoMemory, Run};
use std::alloc::Global;

/// The number of each pair, from the runs of pairs.
pub fn spread(alloc: Global, runs: &[Run]) -> Result<Vec<u32>, NoMemory>
    ensures { IfOk result (λ numbers. numbers.items ≡ numbers_of runs.now) }
{
    let mut numbers = Vec::new(alloc);
    for run in runs {
        numbers.resize(numbers.len() + run.len as usize, run.number)?;
    }
    Ok(numbers)
}
