//! The forms of attribute values (DWARF 5 sections 7.5.5 and 7.5.6): which bytes spell which value.
#![tactic(auto)]

mod encoding;
mod form;
mod laws;
mod read;
mod signs;
mod value;
mod whole;
mod write;

pub use form::{Content, Form, Role, Shape, Width};
pub use laws::{constants, some_form, values_end, values_whole};
pub use read::{known, read_value};
pub use signs::unsigned;
pub use value::{ReadValue, Value};
pub use whole::Whole;
pub use write::{admits, constant_of, put_low, size_in, size_of, spelled_size, write_value};
