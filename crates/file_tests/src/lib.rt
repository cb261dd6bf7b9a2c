//! Tests of what is read of a whole file, what is made of it, and the hosts in memory, by public calls alone.
#![tactic(auto)]

#[cfg(test)]
mod dw_base_tests;
#[cfg(test)]
mod elf_files;
#[cfg(test)]
mod elf_place_tests;
#[cfg(test)]
mod elf_sections_tests;
#[cfg(test)]
mod rewriter_certificate_tests;
#[cfg(test)]
mod rewriter_place_tests;
#[cfg(test)]
mod rewriter_tests;
#[cfg(test)]
mod same_meaning_tests;
#[cfg(test)]
mod sample_maker_tests;
#[cfg(test)]
mod system_host_tests;
#[cfg(test)]
mod tidy_files_tests;
#[cfg(test)]
mod value_links_context_tests;
#[cfg(test)]
mod value_links_link_tests;
#[cfg(test)]
mod value_links_unit_tests;
#[cfg(test)]
mod value_links_world_tests;
