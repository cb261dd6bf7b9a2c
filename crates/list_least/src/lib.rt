//! Range lists and location lists in the fewest bytes: the entries of a list whose items are known, chosen over every base that
//! can be set, and the record by which a checker sees that no list with these items is shorter (DWARF 5 sections 2.6.2, 2.17.3,
//! 7.7.3 and 7.25).
#![tactic(auto)]

mod cheapest;
mod costs;
mod fill;
mod forward;
mod item_costs;
mod laws;
mod map;
mod pick;
mod plan;
mod potentials;
mod runs;
mod tail;

pub use item_costs::{base_cost, item_cost};
pub use laws::{few_bases, no_shorter, shortest_lists};
pub use map::AddressMap;
pub use pick::Pick;
pub use plan::{Plan, least, least_in};
pub use tail::{Longer, Tail};
