//! Tests of operations, values, declarations, entries and units, by public calls alone.
#![tactic(auto)]

#[cfg(test)]
mod abbrev_numbering_tests;
#[cfg(test)]
mod abbrev_tables_columns_tests;
#[cfg(test)]
mod abbrev_tables_tests;
#[cfg(test)]
mod check_units_tests;
#[cfg(test)]
mod column_forms_tests;
#[cfg(test)]
mod entry_arena_operation_tests;
#[cfg(test)]
mod entry_arena_tests;
#[cfg(test)]
mod entry_read_expression_tests;
#[cfg(test)]
mod entry_read_tests;
#[cfg(test)]
mod expr_ops_slots_tests;
#[cfg(test)]
mod expr_ops_tests;
#[cfg(test)]
mod expr_ops_write_tests;
#[cfg(test)]
mod form_codec_tests;
#[cfg(test)]
mod slot_layout_tests;
#[cfg(test)]
mod unit_write_layout_tests;
#[cfg(test)]
mod unit_write_place_tests;
#[cfg(test)]
mod unit_write_write_tests;
