// The bytes of the opcodes that append the rows of steps, which is what they cost at least.
ghost use Rattle.std.specs.Prelude.{◌≡◌, ◌≤◌, ◌<◌, ◌+◌, ◌*◌, ◌^◌, All, length};
ghost use Rattle.line_sums.specs.Counting.{HasCountedLine, count_of, counted_price, row_bytes as row_bytes_of};
ghost use Rattle.line_sums.specs.Sums.{AreSummed};

use crate::base_sums::BaseSums;
use crate::count::CountedStep;
use crate::step::Step;
use crate::sums::add_step;
use crate::ways::Ways;

// The bytes of the opcodes that append the rows of a counted step.
fn row_bytes(counted: CountedStep) -> u64
    ensures is { result ≡ counted.count * row_bytes_of counted.step }
    ensures few { result ≤ 3 * counted.count }
{
    let each = match counted.step {
        Step::Row(_, _) => 1,
        Step::End(_) => 3,
    };
    each * u64::from(counted.count)
}

/// The bytes of the opcodes that append the rows of counted steps.
pub fn row_total(counted: &[CountedStep]) -> u64
    requires few { count_of counted.now < 2 ^ 32 }
    ensures { result ≡ counted_price row_bytes_of counted.now }
{
    let mut bytes = 0;
    for counted_step in counted {
        bytes += row_bytes(*counted_step);
    }
    bytes
}

/// Adds what the next of the counted steps costs to the sums of those before it: answers the bytes of the opcodes that append
/// the rows of those that are left.
pub fn add_next(
    sums: &mut BaseSums,
    ways: &mut Ways,
    range: u8,
    min: u8,
    counted: &[CountedStep],
    index: usize,
    rest: u64,
) -> u64
    requires ways { ways.old ≡ min }
    requires range { 0 < range }
    requires scale { 0 < min }
    requires lines { All HasCountedLine counted.now }
    requires few { count_of counted.now < 2 ^ 32 }
    requires inside { index < length counted.now }
    requires summed { AreSummed range min row_bytes_of counted.now index sums.old rest }
    ensures ways { ways.new ≡ ways.old }
    ensures summed { AreSummed range min row_bytes_of counted.now (index + 1) sums.new result }
{
    let next = counted[index];
    add_step(sums, ways, range, min, next);
    rest - row_bytes(next)
}
