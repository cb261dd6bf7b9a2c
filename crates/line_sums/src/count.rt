// The different steps of a program, and how often each comes.
ghost use Rattle.std.specs.Prelude.{◌≡◌, ◌<◌, ◌+◌, ◌-◌, ◌^◌, ℕ, pos, length, All, IfOk, OnOk};
ghost use Rattle.line_machine.specs.Class.{AreRows, IsRow};
ghost use Rattle.line_sums.specs.Steps.{steps_of, step_to, line_left_by, address_left_by};
ghost use Rattle.line_sums.specs.Counting.{IsCounted, HasLine, HasCountedLine, counted_price, count_of};
ghost use Rattle.line_sums.specs.Ordered.{AreOrdered, counted_once, first_counts as first_counts_of};
ghost use Rattle.line_sums.specs.inside.Places.{ArePlaces};

use crate::step::Step;
use dw_base::NoMemory;
use line_machine::Row;
use std::alloc::Global;
use std::collections::BTreeMap;

/// A step, and how often it comes.
#[derive(Clone, Copy, Debug, PartialEq, Eq)]
pub struct CountedStep {
    /// The step.
    pub step: Step,
    /// How many times it comes.
    pub count: u32,
}

// A line and an address from which a step is taken.
#[derive(Clone, Copy)]
struct Place {
    line: u64,
    address: u64,
}

// The start of a sequence.
const START: Place = Place {
    line: 1,
    address: 0,
};

// The step to a row.
fn step_to_row(from: Place, row: &Row) -> Step
    requires line { from.line < 2 ^ 32 }
    requires row { IsRow row.now }
    ensures step { result ≡ step_to (pos from.line) from.address row.now }
    ensures lines { HasLine result }
{
    let distance = row.address.wrapping_sub(from.address);
    if row.end {
        Step::End(distance)
    } else {
        Step::Row(row.line as i64 - from.line as i64, distance)
    }
}

// The place that a row leaves: its own, or the start of a sequence after the end of one.
fn place_after(row: &Row) -> Place
    requires { IsRow row.now }
    ensures line { pos result.line ≡ line_left_by row.now }
    ensures address { result.address ≡ address_left_by row.now }
    ensures below { result.line < 2 ^ 32 }
{
    if row.end {
        START
    } else {
        Place {
            line: row.line,
            address: row.address,
        }
    }
}

// Counts a step. The map tells of each step that is counted its place among them.
fn count_step(
    places: &mut BTreeMap<Step, usize>,
    counted: &mut Vec<CountedStep>,
    step: Step,
) -> Result<(), NoMemory>
    requires places { ArePlaces places.old counted.old.items }
    requires room { count_of counted.old.items + 1 < 2 ^ 32 }
    ensures places { OnOk result (ArePlaces places.new counted.new.items) }
    ensures once { OnOk result (counted.new.items ≡ counted_once counted.old.items step) }
    ensures prices { OnOk result ((price : Step → ℕ) → counted_price price counted.new.items ≡ counted_price price counted.old.items + price step) }
    ensures lines { OnOk result (All HasCountedLine counted.old.items → HasLine step → All HasCountedLine counted.new.items) }
{
    if let Some(place) = places.get(&step).copied() {
        counted[place].count += 1;
        return Ok(());
    }
    places.insert(step, counted.len())?;
    counted.push(CountedStep { step, count: 1 })?;
    Ok(())
}

// The different steps in the order in which they first come.
fn first_counts(alloc: Global, rows: &[Row]) -> Result<Vec<CountedStep>, NoMemory>
    requires rows { AreRows rows.now }
    requires few { length rows.now < 2 ^ 32 }
    ensures counted { IfOk result (λ counted. IsCounted (steps_of rows.now) counted.items) }
    ensures firsts { IfOk result (λ counted. counted.items ≡ first_counts_of (steps_of rows.now)) }
    ensures lines { IfOk result (λ counted. All HasCountedLine counted.items) }
{
    let mut places = BTreeMap::new(alloc);
    let mut counted = Vec::new(alloc);
    let mut place = START;
    for row in rows {
        count_step(&mut places, &mut counted, step_to_row(place, row))?;
        place = place_after(row);
    }
    Ok(counted)
}

/// The different steps of rows with their counts, those that come most often first, and of those that come as often the one
/// that appears first. A search that sums up their costs in this order may leave off early.
///
/// The rows are such as a program gives: the last ends a sequence, or there is none; a row that ends one has an address
/// alone; and the line of another is below 2^32. The only error is want of memory.
pub fn count_steps(alloc: Global, rows: &[Row]) -> Result<Vec<CountedStep>, NoMemory>
    requires rows { AreRows rows.now }
    requires few { length rows.now < 2 ^ 32 }
    ensures counted { IfOk result (λ counted. IsCounted (steps_of rows.now) counted.items) }
    ensures order { IfOk result (λ counted. AreOrdered (steps_of rows.now) counted.items) }
    ensures lines { IfOk result (λ counted. All HasCountedLine counted.items) }
{
    let mut counted = first_counts(alloc, rows)?;
    counted.sort_by(|a, b| b.count.cmp(&a.count))?;
    Ok(counted)
}
