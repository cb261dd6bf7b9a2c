//! A whole file written anew: its line number programs, range lists, location lists, abbreviation tables and units, with all that refers to them.
#![tactic(auto)]

mod anew;
mod assemble;
mod columns;
mod file;
mod inside_columns;
mod list_expressions;
mod list_slots;
mod lists;
mod new_places;
mod numbers;
mod places;
mod sections;
mod spots;
mod tables;
mod taken;
mod units;
mod uses;

pub use file::{Rewritten, rewrite, rewrite_in, rewrite_world};
