//! Line number programs (DWARF 5 section 6.2) read, and written anew: each in the fewest bytes that give the same rows.
#![tactic(auto)]

ghost use Rattle.line_write.specs.Laws.{OneMeaning, LinesRead};

mod lines;
mod read;
mod unit;

pub use lines::{Lines, shrink_lines};
pub use read::read_lines;

/// A law: the programs of a section have one list of meanings.
pub fn one_meaning()
    ensures { OneMeaning }
{}

/// A law: a section whose programs are read has none of their faults.
pub fn lines_read()
    ensures { LinesRead }
{}
