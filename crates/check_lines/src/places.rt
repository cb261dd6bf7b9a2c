// The pairs of one line_range, each named by the place of its line_base among all of them, from -128 on.
ghost use Rattle.std.specs.Prelude.{◌≡◌, ◌≤◌, ◌<◌, ◌+◌, ◌^◌, ◌⊎◌, ℕ, All, length, slice_index, [], MatchOption};
ghost use Rattle.line_sums.specs.Counting.{HasCountedLine, count_of, counted_price, row_bytes};
ghost use Rattle.line_sums.specs.Sums.{AreSummed};
ghost use Rattle.check_lines.specs.inside.Looking.{IsFirstPlace, IsNextNumber, numbers_above};

use line_sums::{BASES, BaseSums, CountedStep, Ways, add_next};

// The first place whose number is above the count of different steps, or 256.
fn first_above(numbers: &[u32], count: usize) -> usize
    requires { length numbers.now ≡ 256 }
    ensures within { result ≤ 256 }
    ensures good { (place : ℕ) → place < result → slice_index numbers.now place ≤ count }
    ensures bad { (result ≡ 256) ⊎ (count < slice_index numbers.now result) }
{
    numbers
        .iter()
        .position(|number| *number as usize > count)
        .unwrap_or(BASES)
}

// The least number above an index.
fn next_number(numbers: &[u32], index: usize) -> Option<usize>
    ensures { MatchOption result (numbers_above index numbers.now ≡ []) (λ next. IsNextNumber index numbers.now next) }
{
    numbers
        .iter()
        .map(|number| *number as usize)
        .filter(|number| *number > index)
        .min()
}

// Adds what the counted steps from one index up to another cost to the sums of those before: answers the bytes of the opcodes
// that append the rows of those that are left.
fn add_until(
    sums: &mut BaseSums,
    ways: &mut Ways,
    range: u8,
    min: u8,
    counted: &[CountedStep],
    from: usize,
    to: usize,
    rest: u64,
) -> u64
    requires ways { ways.old ≡ min }
    requires range { 0 < range }
    requires scale { 0 < min }
    requires lines { All HasCountedLine counted.now }
    requires few { count_of counted.now < 2 ^ 32 }
    requires order { from ≤ to }
    requires inside { to ≤ length counted.now }
    requires summed { AreSummed range min row_bytes counted.now from sums.old rest }
    ensures ways { ways.new ≡ ways.old }
    ensures summed { AreSummed range min row_bytes counted.now to sums.new result }
{
    let mut rest = rest;
    for index in from..to {
        rest = add_next(sums, ways, range, min, counted, index, rest);
    }
    rest
}

// The first place whose number is the index and whose sum is below the bytes that are missing, or how many places there are.
fn first_short(sums: &BaseSums, numbers: &[u32], index: usize, missing: u64) -> usize
    requires { length numbers.now ≤ 256 }
    ensures before { result ≤ length numbers.now }
    ensures good { (place : ℕ) → place < result → slice_index numbers.now place ≡ index → missing ≤ slice_index sums.now place }
    ensures bad { (result ≡ length numbers.now) ⊎ ((slice_index numbers.now result ≡ index) × (slice_index sums.now result < missing)) }
{
    let mut totals = [0; BASES];
    sums.totals(&mut totals);
    numbers
        .iter()
        .zip(totals.iter())
        .position(|(number, total)| *number as usize == index && *total < missing)
        .unwrap_or(numbers.len())
}

/// The first place whose number isn't accepted under a line_range against so many bytes, or 256. `numbers` has the number of
/// each place, and `rest` is the bytes of the opcodes that append the rows of all steps.
///
/// The sums go on from number to number, and only places before the first refused one are looked at: so no step is summed up
/// that isn't needed for one of them.
pub fn first_refused(
    sums: &mut BaseSums,
    ways: &mut Ways,
    range: u8,
    min: u8,
    counted: &[CountedStep],
    rest: u64,
    numbers: &[u32],
    bytes: u64,
) -> usize
    requires ways { ways.old ≡ min }
    requires range { 0 < range }
    requires scale { 0 < min }
    requires lines { All HasCountedLine counted.now }
    requires few { count_of counted.now < 2 ^ 32 }
    requires rest { rest ≡ counted_price row_bytes counted.now }
    requires numbers { length numbers.now ≡ 256 }
    ensures ways { ways.new ≡ ways.old }
    ensures first { IsFirstPlace range min bytes counted.now numbers.now result }
{
    sums.clear();
    let mut rest = rest;
    let mut index = 0;
    let mut failed = first_above(numbers, counted.len());
    loop {
        failed = first_short(sums, &numbers[..failed], index, bytes.saturating_sub(rest));
        let Some(next) = next_number(&numbers[..failed], index) else {
            return failed;
        };
        rest = add_until(sums, ways, range, min, counted, index, next, rest);
        index = next;
    }
}
