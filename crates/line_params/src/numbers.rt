// The least numbers of different steps by which the pairs of one line_range are accepted.
ghost use Rattle.std.specs.Prelude.{◌≡◌, ◌≢◌, ◌≤◌, ◌<◌, ◌+◌, ◌^◌, ◌↔◌, ℕ, All, length, slice_index, IsTrue, IsNone, IfSome};
ghost use Rattle.line_sums.specs.Accepted.{IsAccepted, IsCandidate, IsLeastNumber};
ghost use Rattle.line_sums.specs.Counting.{HasCountedLine, count_of, counted_price, row_bytes};
ghost use Rattle.line_sums.specs.Sums.{base_at};
ghost use Rattle.line_params.specs.inside.Numbers.{IsRound, GivesOnce};
ghost use Rattle.line_params.specs.inside.PairSearch.{IsBestTried, IsBetter, MayCome};

use crate::choice::{Choice, better_choice, may_come};
use line_machine::Head;
use line_sums::{BASES, BaseSums, CountedStep, Ways, add_next};

// The number of a line_base: the index where it has that of all steps and its total is large enough.
fn number_at(number: u32, all: u32, index: u32, total: u64, bytes: u64) -> u32
    ensures { GivesOnce all index bytes total number result }
{
    if number == all && total >= bytes {
        index
    } else {
        number
    }
}

// Gives the index to each line_base that has the number of all steps and whose total is large enough, the rest counted in.
fn give(totals: &[u64], numbers: &mut [u32], all: u32, index: u32, rest: u64, bytes: u64)
    requires totals { length totals.now ≡ 256 }
    requires numbers { length numbers.old ≡ 256 }
    requires room { (place : ℕ) → place < 256 → slice_index totals.now place + rest < 2 ^ 64 }
    ensures size { length numbers.new ≡ 256 }
    ensures each { (place : ℕ) → place < 256 → GivesOnce all index bytes (slice_index totals.now place + rest) (slice_index numbers.old place) (slice_index numbers.new place) }
{
    for place in 0..BASES {
        numbers[place] = number_at(numbers[place], all, index, totals[place] + rest, bytes);
    }
}

// The index is 0 or a power of two.
fn is_round(index: usize) -> bool
    ensures { IsTrue result ↔ IsRound index }
{
    index == 0 || index.is_power_of_two()
}

// The least number that a record has of so many steps, from an index below them on.
fn next_number(index: u32, all: u32) -> u32
    requires { index < all }
    ensures candidate { IsCandidate all result }
    ensures from { index ≤ result }
    ensures first { (n : ℕ) → index ≤ n → IsCandidate all n → result ≤ n }
{
    if index == 0 {
        return 0;
    }
    u64::from(index).next_power_of_two().min(u64::from(all)) as u32
}

// How often it is looked whether a line_range can be left between the powers of two.
const LOOKED_AT: usize = 32;

/// Tries the pairs of one line_range against a choice: a better choice, or `None` where there is none, and then for each
/// line_base the least number of different steps that is accepted against the choice's bytes, of 0, the powers of two below the
/// count of steps, and that count. `total` is the bytes of the opcodes that append the rows of all steps.
pub fn try_range(
    sums: &mut BaseSums,
    ways: &mut Ways,
    totals: &mut [u64],
    numbers: &mut [u32],
    range: u8,
    head: &Head,
    counted: &[CountedStep],
    total: u64,
    best: Choice,
) -> Option<Choice>
    requires ways { ways.old ≡ head.now.min }
    requires range { 0 < range }
    requires scale { 0 < head.now.min }
    requires lines { All HasCountedLine counted.now }
    requires few { count_of counted.now < 2 ^ 32 }
    requires steps { length counted.now < 2 ^ 32 }
    requires total { total ≡ counted_price row_bytes counted.now }
    requires totals { length totals.old ≡ 256 }
    requires numbers { length numbers.old ≡ 256 }
    requires best { IsBestTried head.now counted.now range best }
    ensures ways { ways.new ≡ ways.old }
    ensures totals { length totals.new ≡ 256 }
    ensures size { length numbers.new ≡ 256 }
    ensures kept { IsNone result → IsBestTried head.now counted.now (range + 1) best }
    ensures least { IsNone result → (place : ℕ) → place < 256 → IsLeastNumber (base_at place) range head.now.min 0 best.bytes counted.now (slice_index numbers.new place) }
    ensures better { IfSome result (IsBetter head.now counted.now best) }
{
    let all = counted.len() as u32;
    numbers.fill(all);
    sums.clear();
    let mut rest = total;
    // Under a pair that would be taken first of equals, as many bytes aren't enough.
    let limit = best.bytes + u64::from(may_come(head, range, best.pair));
    for index in 0..counted.len() {
        let round = is_round(index);
        if round {
            sums.totals(totals);
            give(totals, numbers, all, index as u32, rest, best.bytes);
        }
        if (round || index % LOOKED_AT == 0) && sums.are_past(rest, limit) {
            sums.totals(totals);
            let next = next_number(index as u32, all);
            give(totals, numbers, all, next, rest, best.bytes);
            return None;
        }
        rest = add_next(sums, ways, range, head.min, counted, index, rest);
    }
    let (place, bytes) = sums.first_least();
    better_choice(head, best, range, place, bytes)
}
