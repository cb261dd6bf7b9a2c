//! Location lists (DWARF 5 sections 2.6.2 and 7.7.3): their entries with expressions, what they say, and view numbers.
#![tactic(auto)]

mod fault;
mod items;
mod laws;
mod read;
mod views;

pub use items::{bytes_of, is_item, location_items};
pub use laws::{locations_end, locations_mean, locations_written, views_read};
pub use read::read_locations;
pub use views::{ViewPair, read_views};
