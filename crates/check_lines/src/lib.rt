//! The check of a line number program's record: whether it shows for each pair of line_base and line_range that no program
//! under that pair is shorter (DWARF 5 section 6.2).
#![tactic(auto)]

ghost use Rattle.check_lines.specs.Laws.{AcceptedAreLeast, AcceptedTakeFewest, OneVerdict};

mod accept;
mod places;
mod spread;

pub use accept::accept_program;
pub use dw_base::Run;

/// Laws: where a record is accepted against a size, its rows take no fewer bytes under any pair, and no byte string that gives
/// them under any pair is shorter.
pub fn accepted_programs_are_least()
    ensures fewest { AcceptedTakeFewest }
    ensures least { AcceptedAreLeast }
{}

/// A law: no record is both accepted and refused, and none is refused for two pairs.
pub fn one_verdict()
    ensures { OneVerdict }
{}
