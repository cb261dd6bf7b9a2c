//! Worked files through the commands, over hosts in memory. The tests stand in a crate of their own, as a crate that has tests is proved once
//! more with them.
#![tactic(auto)]

#[cfg(test)]
mod check_tests;
#[cfg(test)]
mod class_tests;
#[cfg(test)]
mod column_tests;
#[cfg(test)]
mod corner_tests;
#[cfg(test)]
mod device_tests;
#[cfg(test)]
mod file_tests;
#[cfg(test)]
mod hostile_tests;
#[cfg(test)]
mod line_tests;
#[cfg(test)]
mod make_tests;
#[cfg(test)]
mod overlap_tests;
#[cfg(test)]
mod packages_tests;
#[cfg(test)]
mod range_tests;
#[cfg(test)]
mod sample_tests;
#[cfg(test)]
mod stat_tests;
#[cfg(test)]
mod test_files;
#[cfg(test)]
mod unit_tests;
