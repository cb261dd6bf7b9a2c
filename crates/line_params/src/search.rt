// The search over the pairs.
ghost use Rattle.std.specs.Prelude.{◌≡◌, ◌≤◌, ◌<◌, ◌+◌, ◌-◌, ◌*◌, ◌^◌, ℕ, All, IfOk, IfSome, IsNone, length};
ghost use Rattle.line_sums.specs.Counting.{HasCountedLine, count_of};
ghost use Rattle.line_params.specs.inside.Joined.{AreLeastRunsOf};
ghost use Rattle.line_params.specs.inside.PairSearch.{AreSums, IsBestTried, IsBetter};

use crate::choice::{Choice, own_pair};
use crate::numbers::try_range;
use crate::pair::Pair;
use crate::runs::push_numbers;
use dw_base::{NoMemory, Run};
use line_machine::Head;
use line_sums::{BASES, BaseSums, CountedStep, Ways, add_next, row_total};
use std::alloc::Global;

// Line_ranges under which programs of compilers are short: a search that begins with the best of them seldom begins again.
const FIRST_RANGES: [u8; 5] = [12, 14, 18, 22, 242];

// Sums up what counted steps cost under each line_base.
fn fill_sums(sums: &mut BaseSums, ways: &mut Ways, range: u8, min: u8, counted: &[CountedStep])
    requires ways { ways.old ≡ min }
    requires range { 0 < range }
    requires scale { 0 < min }
    requires lines { All HasCountedLine counted.now }
    requires few { count_of counted.now < 2 ^ 32 }
    ensures ways { ways.new ≡ ways.old }
    ensures sums { AreSums range min counted.now sums.new }
{
    sums.clear();
    let mut rest = row_total(counted);
    for index in 0..counted.len() {
        rest = add_next(sums, ways, range, min, counted, index, rest);
    }
}

// The pair of a head, with the bytes of the steps under it.
fn own_choice(
    sums: &mut BaseSums,
    ways: &mut Ways,
    totals: &mut [u64],
    head: &Head,
    counted: &[CountedStep],
) -> Choice
    requires ways { ways.old ≡ head.now.min }
    requires scale { 0 < head.now.min }
    requires lines { All HasCountedLine counted.now }
    requires few { count_of counted.now < 2 ^ 32 }
    requires range { 0 < head.now.range }
    requires totals { length totals.old ≡ 256 }
    ensures ways { ways.new ≡ ways.old }
    ensures totals { length totals.new ≡ 256 }
    ensures best { IsBestTried head.now counted.now 1 result }
{
    fill_sums(sums, ways, head.range, head.min, counted);
    sums.totals(totals);
    Choice {
        pair: own_pair(head),
        bytes: totals[(i64::from(head.base) + 128) as usize],
    }
}

// The better of a choice and of the pairs with a line_range.
fn better_of_range(
    sums: &mut BaseSums,
    ways: &mut Ways,
    range: u8,
    head: &Head,
    counted: &[CountedStep],
    best: Choice,
) -> Choice
    requires ways { ways.old ≡ head.now.min }
    requires scale { 0 < head.now.min }
    requires lines { All HasCountedLine counted.now }
    requires few { count_of counted.now < 2 ^ 32 }
    requires range { 0 < range }
    requires best { IsBestTried head.now counted.now 1 best }
    ensures ways { ways.new ≡ ways.old }
    ensures best { IsBestTried head.now counted.now 1 result }
{
    fill_sums(sums, ways, range, head.min, counted);
    let (place, bytes) = sums.first_least();
    if bytes < best.bytes {
        Choice {
            pair: Pair {
                base: (place as i64 - 128) as i8,
                range,
            },
            bytes,
        }
    } else {
        best
    }
}

/// A choice to begin with: the pair of a head, or a better one of some line_ranges.
pub fn first_choice(
    sums: &mut BaseSums,
    ways: &mut Ways,
    totals: &mut [u64],
    head: &Head,
    counted: &[CountedStep],
) -> Choice
    requires ways { ways.old ≡ head.now.min }
    requires scale { 0 < head.now.min }
    requires lines { All HasCountedLine counted.now }
    requires few { count_of counted.now < 2 ^ 32 }
    requires range { 0 < head.now.range }
    requires totals { length totals.old ≡ 256 }
    ensures ways { ways.new ≡ ways.old }
    ensures totals { length totals.new ≡ 256 }
    ensures best { IsBestTried head.now counted.now 1 result }
{
    let mut best = own_choice(sums, ways, totals, head, counted);
    for range in &FIRST_RANGES {
        best = better_of_range(sums, ways, *range, head, counted, best);
    }
    best
}

/// Tries all pairs against a choice: a better choice, or `None` where there is none, and then the runs that show it.
pub fn try_ranges(
    runs: &mut Vec<Run>,
    sums: &mut BaseSums,
    ways: &mut Ways,
    totals: &mut [u64],
    numbers: &mut [u32],
    head: &Head,
    counted: &[CountedStep],
    best: Choice,
) -> Result<Option<Choice>, NoMemory>
    requires ways { ways.old ≡ head.now.min }
    requires scale { 0 < head.now.min }
    requires lines { All HasCountedLine counted.now }
    requires few { count_of counted.now < 2 ^ 32 }
    requires steps { length counted.now < 2 ^ 32 }
    requires totals { length totals.old ≡ 256 }
    requires numbers { length numbers.old ≡ 256 }
    requires best { IsBestTried head.now counted.now 1 best }
    ensures ways { ways.new ≡ ways.old }
    ensures totals { length totals.new ≡ 256 }
    ensures size { length numbers.new ≡ 256 }
    ensures better { IfOk result (λ found. IfSome found (IsBetter head.now counted.now best)) }
    ensures kept { IfOk result (λ found. IsNone found → IsBestTried head.now counted.now 256 best) }
    ensures runs { IfOk result (λ found. IsNone found → AreLeastRunsOf head.now.min best.bytes counted.now runs.new.items) }
{
    runs.clear();
    let total = row_total(counted);
    for below in 0..u8::MAX {
        let range = below + 1;
        let better = try_range(
            sums, ways, totals, numbers, range, head, counted, total, best,
        );
        if better.is_some() {
            return Ok(better);
        }
        push_numbers(runs, numbers)?;
    }
    Ok(None)
}
