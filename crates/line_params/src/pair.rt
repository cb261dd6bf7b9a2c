// The pair under which a program is shortest.
ghost use Rattle.std.specs.Prelude.{◌≡◌, ◌<◌, ◌+◌, length, IfOk};
ghost use Rattle.leb_codec.specs.LineCosts.{IsLeastCost};
ghost use Rattle.line_machine.specs.Class.{AreRows};
ghost use Rattle.line_sums.specs.Accepted.{AreLeastRuns};
ghost use Rattle.line_sums.specs.Steps.{StepsWithin, steps_of, fixed_bytes};
ghost use Rattle.line_params.specs.Pairs.{IsLeastPair};

use crate::search::{first_choice, try_ranges};
use dw_base::{NoMemory, Run};
use line_machine::{Head, Row};
use line_sums::{BASES, BaseSums, Ways, count_steps};
use std::alloc::Global;

/// The most rows: their bytes are counted in 64 bits.
const MOST_ROWS: usize = u32::MAX as usize;

/// The two fields of a header by which special opcodes step (DWARF 5 section 6.2.4).
#[derive(Clone, Copy, Debug, PartialEq, Eq)]
pub struct Pair {
    /// line_base
    pub base: i8,
    /// line_range, which isn't 0.
    pub range: u8,
}

/// The pair under which steps cost least, and what shows it.
#[derive(Debug, Drop)]
pub struct LeastPair {
    /// The pair.
    pub pair: Pair,
    /// The bytes of the steps under it.
    pub bytes: u64,
    /// For each pair the least number of different steps that shows that it isn't better.
    pub runs: Vec<Run>,
}

// So many zeros.
fn zeros(alloc: Global, count: usize) -> Result<Vec<u64>, NoMemory>
    ensures { IfOk result (λ zeros. length zeros.items ≡ count) }
{
    Ok(vec![in alloc; 0u64; count]?)
}

// So many numbers, all 0.
fn no_numbers(alloc: Global, count: usize) -> Result<Vec<u32>, NoMemory>
    ensures { IfOk result (λ zeros. length zeros.items ≡ count) }
{
    Ok(vec![in alloc; 0u32; count]?)
}

/// The pair of line_base and line_range under which the steps of `rows` cost least, with the minimum_instruction_length
/// of `head` and the opcode_base 13. Of several it is the pair of `head`, or else the one with the least line_range, and
/// among those the one with the least line_base.
///
/// Its runs tell for each pair the least number of the different steps that shows that the steps cost no less under it, of 0,
/// the powers of two below the count of different steps, and that count; as runs of neighbours with equal numbers, by
/// line_range from 1 on and then by line_base from -128 on. The steps are taken by falling count and then by first appearance
/// (DWARF 5 section 6.2).
///
/// The rows are such as a program gives: the last ends a sequence, or there is none; a row that ends one has an address
/// alone; and the line of another is below 2^32. Neither minimum_instruction_length nor line_range is 0. `NoMemory` may
/// come wherever memory is wanting, and comes for more than 2^32 - 1 rows.
pub fn least_pair(alloc: Global, head: &Head, rows: &[Row]) -> Result<LeastPair, NoMemory>
    requires rows { AreRows rows.now }
    requires scale { 0 < head.now.min }
    requires range { 0 < head.now.range }
    ensures pair { IfOk result (λ least. IsLeastPair head.now (steps_of rows.now) least.pair) }
    ensures bytes { IfOk result (λ least. IsLeastCost (StepsWithin least.pair.base least.pair.range head.now.min (steps_of rows.now)) least.bytes) }
    ensures runs { IfOk result (λ least. AreLeastRuns head.now rows.now (fixed_bytes head.now.stmt rows.now + least.bytes) least.runs.items) }
{
    if rows.len() > MOST_ROWS {
        return Err(NoMemory);
    }
    let counted = count_steps(alloc, rows)?;
    let mut sums = BaseSums::new(alloc)?;
    let mut ways = Ways::new(alloc, head.min)?;
    let mut totals = zeros(alloc, BASES)?;
    let mut numbers = no_numbers(alloc, BASES)?;
    let mut runs = Vec::new(alloc);
    let mut best = first_choice(&mut sums, &mut ways, &mut totals, head, &counted);
    while let Some(better) = try_ranges(
        &mut runs,
        &mut sums,
        &mut ways,
        &mut totals,
        &mut numbers,
        head,
        &counted,
        best,
    )? {
        best = better;
    }
    Ok(LeastPair {
        pair: best.pair,
        bytes: best.bytes,
        runs,
    })
}
