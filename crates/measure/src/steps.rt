// The costs of steps between rows.
use crate::draws::Draws;
use line_step::step;

// The bytes of a drawn step. One step in sixteen goes far.
fn drawn_step(draws: &mut Draws) -> u32 {
    let base = 10 - draws.below(64) as i8;
    let range = draws.below(255) as u8 + 1;
    let min = draws.below(4) as u8 + 1;
    let is_far = draws.below(16) == 0;
    let (lines, addresses) = if is_far {
        (1 << 31, 1 << 31)
    } else {
        (400, 8192)
    };
    let line = i64::from(draws.below(lines)) - i64::from(lines / 4);
    let distance = u64::from(draws.below(addresses));
    step(base, range, min, line, distance)
}

/// The sum of the bytes of so many drawn steps.
pub fn sum_of_steps(count: u64) -> u64 {
    let mut draws = Draws::default();
    let mut sum = 0u64;
    for _ in 0..count {
        sum = sum.wrapping_add(u64::from(drawn_step(&mut draws)));
    }
    sum
}
