//! A valid file with debug sections of any size, drawn from a number: units with functions, their parameters and blocks, with line
//! number programs, range lists, location lists with view pairs, and sets of address ranges, in the manner of gcc.
#![tactic(auto)]

mod abbrevs;
mod aranges;
mod drawn;
mod draws;
mod elf;
mod entries;
mod lines;
mod lists;
mod make;
mod numbers;
mod units;

pub use make::sample;
