//! Tests of lists and of sets of address ranges, by public calls alone.
#![tactic(auto)]

#[cfg(test)]
mod check_lists_tests;
#[cfg(test)]
mod companions_tests;
#[cfg(test)]
mod list_arena_items_tests;
#[cfg(test)]
mod list_arena_tests;
#[cfg(test)]
mod list_least_tests;
#[cfg(test)]
mod list_model_tests;
#[cfg(test)]
mod list_write_tests;
#[cfg(test)]
mod loc_lists_tests;
#[cfg(test)]
mod range_lists_tests;
#[cfg(test)]
mod samples;
