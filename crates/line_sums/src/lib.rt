//! What the steps of a line number program cost (DWARF 5 section 6.2): the different steps with their counts, and for each
//! line_base under a line_range the sum of their least bytes.
#![tactic(auto)]

ghost use Rattle.line_sums.specs.Laws.{NoShorter, OneOrder};

mod base_sums;
mod count;
mod fixed;
mod line_run;
mod rest;
mod step;
mod sums;
mod ways;
mod window;

pub use base_sums::{BASES, BaseSums};
pub use count::{CountedStep, count_steps};
pub use fixed::fixed_size;
pub use rest::{add_next, row_total};
pub use step::Step;
pub use sums::add_step;
pub use ways::Ways;

/// A law: no program that gives rows under a pair is shorter than what the rows cost under that pair.
pub fn no_shorter()
    ensures { NoShorter }
{}

/// A law: the different steps of a program stand in one order.
pub fn one_order()
    ensures { OneOrder }
{}
