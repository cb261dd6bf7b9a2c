//! Tests of numbers, of line number programs and of records, by public calls alone.
#![tactic(auto)]

#[cfg(test)]
mod certificates_tests;
#[cfg(test)]
mod check_lines_tests;
#[cfg(test)]
mod fixed_width_tests;
#[cfg(test)]
mod leb_codec_tests;
#[cfg(test)]
mod line_machine_tests;
#[cfg(test)]
mod line_params_pair_tests;
#[cfg(test)]
mod line_params_runs_tests;
#[cfg(test)]
mod line_params_tests;
#[cfg(test)]
mod line_step_tests;
#[cfg(test)]
mod line_write_tests;
#[cfg(test)]
mod rows;
