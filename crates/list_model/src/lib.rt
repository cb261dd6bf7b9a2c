//! What range lists and location lists stand on: the address tables of .debug_addr (DWARF 5 section 7.27), the contributions to
//! .debug_rnglists and .debug_loclists (sections 7.28 and 7.29), the kinds of their entries, what entries say, and the context of
//! a unit's lists.
#![tactic(auto)]

mod context;
mod contribution;
mod entry;
mod header;
mod item;
mod laws;
mod read;
mod tables;
mod walk;

pub use context::Context;
pub use contribution::{Contribution, contributions};
pub use entry::{EntryKind, ListKind, Operand, RawEntry};
pub use item::{Item, Items, Meaning};
pub use laws::{addresses_have_one_table, contributions_tile, entries_end, entries_say};
pub use read::{ReadEntry, first_operand, kind_of, list_entry_limit, read_entry, second_operand};
pub use tables::{AddrTable, AddrTables, addr_table, addr_tables, address, table_with_base};
pub use walk::{Step, entry_step};
