//! The sections of an ELF-64 file.
#![tactic(auto)]

mod ends;
mod fields;
mod header;
mod image;
mod laws;
mod names;
mod numbers;
mod section;
mod sound;
mod sums;
mod table;
mod texts;

pub use image::Image;
pub use laws::{headers_are_the_abis, images_whole};
pub use names::{is_listed, is_written};
pub use section::Section;
