//! The operations of location expressions (DWARF 5 sections 2.5 and 2.6.1).
#![tactic(auto)]

mod bounds;
mod head;
mod laws;
mod names;
mod op;
mod part;
mod place_laws;
mod put;
mod read;
mod resolve;
mod segment;
mod shortest;
mod simple;
mod size;
mod slots;
mod start;
mod table;
mod write;

pub use bounds::shortest_is_few;
pub use laws::{
    expression_or_fault, narrow_is_wide, never_both, one_list, one_reading, one_reference_place,
    operations_end, operations_whole, operations_written, places_written, references_named,
};
pub use names::{Named, named_by, reference_place};
pub use op::{CALL4, ENTRY_VALUE, Op};
pub use place_laws::{few_operations, operations_have_places, references_inside};
pub use read::{push_expr, read_expr};
pub use shortest::{lengths_split, shortest_len, sizes_of, write_shortest};
pub use slots::{fixed_len, needed_are_shortest, slot_count, slots_are_few};
pub use table::{Operands, Shape, Width, operands_of};
pub use write::{has_reference, has_slot, is_generic, write_expr};
