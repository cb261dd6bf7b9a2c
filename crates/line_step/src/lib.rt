//! The least bytes of an address distance and of a step between two rows of a line program (DWARF 5 section 6.2.5),
//! under opcode_base 13, and the opcodes that have them.
#![tactic(auto)]

ghost use Rattle.std.specs.Prelude.{◌≤◌, ℕ};
ghost use Rattle.line_step.specs.Formulas.{CostFormulas};
ghost use Rattle.line_step.specs.Laws.{AddressLaws, DistanceLaws, LineLaws};

mod address;
mod row;
mod way;

pub use address::{advance, advance_before, advance_way};
pub use row::{step, step_way};
pub use way::{AddressOpcodes, AddressWay, Advance, RowOpcode, RowWay};

/// A law: the costs are least values over all numbers of opcodes, and over copy and all 243 special opcodes.
pub fn cost_formulas()
    ensures { CostFormulas }
{}

/// Laws of address distances: no opcode that changes the address makes a distance cheaper by more than its own bytes,
/// also where the sum passes 2^64.
pub fn address_laws()
    ensures costs { (range scale : ℕ) → scale ≤ 255 → AddressLaws range scale }
    ensures distances { DistanceLaws }
{}

/// Laws of line distances: no advance_line makes a distance cheaper by more than its own bytes.
pub fn line_laws()
    ensures { LineLaws }
{}
