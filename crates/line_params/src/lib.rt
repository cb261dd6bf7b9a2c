//! Line number programs in their shortest form (DWARF 5 section 6.2): the pair of line_base and line_range, and the opcodes.
#![tactic(auto)]

ghost use Rattle.line_params.specs.Laws.{ShortestSpell, NoneShorter, SpelledHaveCodes};

mod choice;
mod numbers;
mod opcodes;
mod pair;
mod program;
mod rows;
mod runs;
mod search;
mod write;

pub use dw_base::Run;
pub use line_sums::Step;
pub use pair::{LeastPair, Pair, least_pair};
pub use program::{Program, shrink_program};
pub use rows::write_rows;
pub use write::put_opcode;

/// Laws of the shortest bytes of opcodes: they spell them, and none that do are shorter.
pub fn shortest_opcodes()
    ensures spell { ShortestSpell }
    ensures least { NoneShorter }
    ensures codes { SpelledHaveCodes }
{}
