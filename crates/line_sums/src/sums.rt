// What steps cost under each line_base.
ghost use Rattle.std.specs.Prelude.{◌≡◌, ◌≤◌, ◌<◌, ◌+◌, ◌-◌, ◌*◌, ◌^◌, ◌↔◌, ℕ, ℤ, pos, neg_ℤ, ◌≤ℤ◌, ◌<ℤ◌, ◌-ℤ◌, slice_index, IsTrue};
ghost use Rattle.line_sums.specs.Counting.{HasCountedLine};
ghost use Rattle.line_sums.specs.Sums.{AddsCost, base_at};
ghost use Rattle.line_sums.specs.inside.Windows.{IsStepRun, AddsRun};
ghost use Rattle.line_sums.specs.declared.window.Windows.{Windows};
ghost use Rattle.line_sums.specs.declared.step.Step.TheVariants.{Row as RowStep};

use crate::base_sums::{BASES, BaseSums};
use crate::count::CountedStep;
use crate::line_run::{line_bytes, line_run};
use crate::step::Step;
use crate::ways::Ways;
use crate::window::{Window, Windows};

// How many bytes a step takes whose line distance less line_base is known, and down to which such distance all take as many.
#[derive(Clone, Copy, Debug)]
struct StepRun {
    bytes: u32,
    low: i64,
}

// The run of a step whose line distance less line_base is `left`, and which takes `copy` bytes where copy appends the row.
fn step_run(left: i64, copy: u32, windows: &Windows) -> StepRun
    requires low { neg_ℤ (pos (2 ^ 33)) ≤ℤ left }
    requires high { left ≤ℤ pos (2 ^ 33) }
    requires wide { windows.now.wide.address ≤ 11 }
    requires last { windows.now.last.address ≤ 11 }
    ensures run { IsStepRun left copy windows.now result }
    ensures below { result.low ≤ℤ left }
    ensures above { neg_ℤ (pos (2 ^ 34)) ≤ℤ result.low }
    ensures few { result.bytes ≤ copy }
{
    let wide = line_run(left, windows.wide.most);
    let last = line_run(left, windows.last.most);
    let wide_bytes = 1 + windows.wide.address + wide.bytes;
    let last_bytes = 1 + windows.last.address + last.bytes;
    StepRun {
        bytes: copy.min(wide_bytes).min(last_bytes),
        low: wide.low.max(last.low),
    }
}

// How many line_base, from -128 on, leave at least `low` of a line distance: the first of them leaves `top`.
fn places_down_to(top: i64, low: i64) -> usize
    requires high { top ≤ℤ pos (2 ^ 34) }
    requires low { neg_ℤ (pos (2 ^ 34)) ≤ℤ low }
    requires order { low ≤ℤ top }
    ensures within { result ≤ 256 }
    ensures before { (place : ℕ) → place < result → low ≤ℤ (top -ℤ pos place) }
    ensures after { (place : ℕ) → place < 256 → low ≤ℤ (top -ℤ pos place) → place < result }
{
    let more = top - low;
    if more >= 255 {
        BASES
    } else {
        more as usize + 1
    }
}

// How many line_base, from -128 on, leave more than `low` of a line distance: the first of them leaves `top`.
fn places_above(top: i64, low: i64) -> usize
    requires top_from { neg_ℤ (pos (2 ^ 34)) ≤ℤ top }
    requires top_to { top ≤ℤ pos (2 ^ 34) }
    requires low_from { neg_ℤ (pos (2 ^ 34)) ≤ℤ low }
    requires low_to { low ≤ℤ pos (2 ^ 34) }
    ensures within { result ≤ 256 }
    ensures before { (place : ℕ) → place < result → low <ℤ (top -ℤ pos place) }
    ensures after { (place : ℕ) → result ≤ place → place < 256 → (top -ℤ pos place) ≤ℤ low }
{
    (top - low).max(0).min(256) as usize
}

// Adds what a row's step costs, run by run of line_base.
fn add_runs(sums: &mut BaseSums, line: i64, copy: u32, windows: &Windows, count: u32)
    requires low { neg_ℤ (pos (2 ^ 32)) ≤ℤ line }
    requires high { line ≤ℤ pos (2 ^ 32) }
    requires few { copy ≤ 18 }
    requires wide { windows.now.wide.address ≤ 11 }
    requires last { windows.now.last.address ≤ 11 }
    requires room { (place : ℕ) → place < 256 → slice_index sums.old place < 2 ^ 63 }
    ensures { (place : ℕ) → place < 256 → AddsRun line copy windows.now count place (slice_index sums.old place) (slice_index sums.new place) }
{
    let top = line + 128;
    let mut from = 0;
    while from < BASES {
        let run = step_run(top - from as i64, copy, windows);
        let to = places_down_to(top, run.low);
        sums.add_between(from, to, u64::from(count) * u64::from(run.bytes));
        from = to;
    }
}

// A line distance so near to 0 that less any line_base it takes at most three bytes before a special opcode.
fn is_near(line: i64) -> bool
    ensures { IsTrue result ↔ ((neg_ℤ (pos 8000) ≤ℤ line) × (line ≤ℤ pos 8000)) }
{
    -8000 <= line && line <= 8000
}

// The same of a near line distance where special opcodes are of one kind: those that reach the line take no advance_line, and
// on either side 63 or 64 lines take two bytes and all others three.
fn add_near(sums: &mut BaseSums, line: i64, copy: u32, window: Window, count: u32)
    requires low { neg_ℤ (pos 8000) ≤ℤ line }
    requires high { line ≤ℤ pos 8000 }
    requires few { copy ≤ 18 }
    requires address { window.address ≤ 11 }
    requires room { (place : ℕ) → place < 256 → slice_index sums.old place < 2 ^ 63 }
    ensures { (windows : Windows) → windows.wide ≡ window → windows.last ≡ window → (place : ℕ) → place < 256 → AddsRun line copy windows count place (slice_index sums.old place) (slice_index sums.new place) }
{
    let top = line + 128;
    let most = i64::from(window.most);
    let special = 1 + window.address;
    let inside = u64::from(count) * u64::from(copy.min(special));
    let near = u64::from(count) * u64::from(copy.min(special + 2));
    let far = u64::from(count) * u64::from(copy.min(special + 3));
    let above_near = places_above(top, most + 63);
    let above = places_above(top, most);
    let reached = places_above(top, -1);
    let below_near = places_above(top, -65);
    sums.add_between(0, above_near, far);
    sums.add_between(above_near, above, near);
    sums.add_between(above, reached, inside);
    sums.add_between(reached, below_near, near);
    sums.add_between(below_near, BASES, far);
}

// Adds what a row's step costs under each line_base, times its count.
fn add_row(sums: &mut BaseSums, ways: &mut Ways, range: u8, line: i64, distance: u64, count: u32)
    requires range { 0 < range }
    requires low { neg_ℤ (pos (2 ^ 32)) ≤ℤ line }
    requires high { line ≤ℤ pos (2 ^ 32) }
    requires room { (place : ℕ) → place < 256 → slice_index sums.old place < 2 ^ 63 }
    ensures ways { ways.new ≡ ways.old }
    ensures added { (place : ℕ) → place < 256 → AddsCost (base_at place) range ways.old (record { step = RowStep line distance; count = count }) (slice_index sums.old place) (slice_index sums.new place) }
{
    let way = ways.of(range, distance);
    let copy = 1 + line_bytes(line) + way.advance;
    if way.windows.is_one && is_near(line) {
        add_near(sums, line, copy, way.windows.wide, count);
    } else {
        add_runs(sums, line, copy, &way.windows, count);
    }
}

/// Adds what a step costs under each line_base, times its count.
pub fn add_step(sums: &mut BaseSums, ways: &mut Ways, range: u8, min: u8, counted: CountedStep)
    requires ways { ways.old ≡ min }
    requires range { 0 < range }
    requires scale { 0 < min }
    requires line { HasCountedLine counted }
    requires room { (place : ℕ) → place < 256 → slice_index sums.old place < 2 ^ 63 }
    ensures ways { ways.new ≡ ways.old }
    ensures added { (place : ℕ) → place < 256 → AddsCost (base_at place) range min counted (slice_index sums.old place) (slice_index sums.new place) }
{
    match counted.step {
        Step::Row(line, distance) => add_row(sums, ways, range, line, distance, counted.count),
        Step::End(distance) => {
            let bytes = 3 + ways.of(range, distance).advance;
            sums.add_between(0, BASES, u64::from(counted.count) * u64::from(bytes));
        }
    }
}
