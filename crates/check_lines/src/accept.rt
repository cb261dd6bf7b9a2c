// A record checked.
ghost use Rattle.std.specs.Prelude.{◌≡◌, ◌<◌, ◌^◌, ◌↔◌, ℕ, All, length, IfOk, IfSome, IsNone, MatchOption};
ghost use Rattle.leb_codec.specs.Records.{AreRuns, IsRun, pair_count};
ghost use Rattle.line_machine.specs.Class.{AreRows};
ghost use Rattle.line_sums.specs.Accepted.{AreAcceptedRuns};
ghost use Rattle.line_sums.specs.Counting.{HasCountedLine, count_of};
ghost use Rattle.check_lines.specs.Refused.{IsFirstRefused};
ghost use Rattle.check_lines.specs.inside.Looking.{IsFirstNumber, IsNumberAccepted};

use crate::places::first_refused;
use crate::spread::spread;
use dw_base::{NoMemory, Run};
use line_machine::{Head, Row};
use line_sums::{BASES, BaseSums, CountedStep, Ways, count_steps, fixed_size, row_total};
use std::alloc::Global;

// The most rows: their bytes are counted in 64 bits.
const MOST_ROWS: usize = u32::MAX as usize;

// The first pair whose number isn't accepted against so many bytes. `numbers` has the number of each pair.
fn first_pair(
    sums: &mut BaseSums,
    ways: &mut Ways,
    min: u8,
    counted: &[CountedStep],
    numbers: &[u32],
    bytes: u64,
) -> Option<u32>
    requires ways { ways.old ≡ min }
    requires scale { 0 < min }
    requires lines { All HasCountedLine counted.now }
    requires few { count_of counted.now < 2 ^ 32 }
    requires numbers { length numbers.now ≡ pair_count }
    ensures { MatchOption result ((pair : ℕ) → pair < pair_count → IsNumberAccepted min bytes counted.now numbers.now pair) (IsFirstNumber min bytes counted.now numbers.now) }
{
    let rest = row_total(counted);
    for below in 0..u8::MAX {
        let from = BASES * below as usize;
        let own = &numbers[from..from + BASES];
        let place = first_refused(sums, ways, below + 1, min, counted, rest, own, bytes);
        if place < BASES {
            return Some((from + place) as u32);
        }
    }
    None
}

/// The first pair of line_base and line_range whose number in `runs` isn't accepted for the program of `head`, or `None` exactly
/// where that of each pair is. Pairs are counted from 0 on, by line_range from 1 on and then by line_base from -128 on.
///
/// A number is accepted for a pair where there are at least so many different steps of `rows`, and the first of them show that
/// no program under the pair is shorter than that of `head`: what they cost under the pair, the bytes of the opcodes that append
/// the rows of the others, and the bytes that no pair changes are together at least its size. The steps are taken by falling
/// count and then by first appearance, with the minimum_instruction_length of `head` and the opcode_base 13 (DWARF 5 section
/// 6.2).
///
/// The rows are those that the program gives: the last ends a sequence, or there is none; a row that ends one has an address
/// alone; and the line of another is below 2^32. The minimum_instruction_length isn't 0, and the runs are those of a record: each
/// has some pairs, together they have all, and neighbours have different numbers. `NoMemory` may come wherever memory is wanting,
/// and comes for more than 2^32 - 1 rows.
pub fn accept_program(
    alloc: Global,
    head: &Head,
    rows: &[Row],
    runs: &[Run],
) -> Result<Option<u32>, NoMemory>
    requires rows { AreRows rows.now }
    requires scale { 0 < head.now.min }
    requires runs { AreRuns runs.now }
    requires fit { All IsRun runs.now }
    ensures accepted { IfOk result (λ refused. IsNone refused ↔ AreAcceptedRuns head.now rows.now head.now.program.len runs.now) }
    ensures first { IfOk result (λ refused. IfSome refused (IsFirstRefused head.now rows.now head.now.program.len runs.now)) }
{
    if rows.len() > MOST_ROWS {
        return Err(NoMemory);
    }
    let counted = count_steps(alloc, rows)?;
    let numbers = spread(alloc, runs)?;
    let bytes = head.program.len.saturating_sub(fixed_size(head.stmt, rows));
    let mut sums = BaseSums::new(alloc)?;
    let mut ways = Ways::new(alloc, head.min)?;
    Ok(first_pair(&mut sums, &mut ways, head.min, &counted, &numbers, bytes))
}
