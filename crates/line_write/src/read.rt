// The headers of all programs of a section.
ghost use Rattle.std.specs.Prelude.{◌≡◌, ◌<◌, ◌+◌, ◌^◌, ◌++◌, ◌∷◌, [], length, IfOk, IfErr, OnOk};
ghost use Rattle.dw_base.specs.Refusals.{IsFaultOf, IsFaulty, IsRefusedFor};
ghost use Rattle.line_write.specs.Faults.{LinesFault};
ghost use Rattle.line_write.specs.Readings.{AreRead};

use dw_base::{Fault, Kind, NoMemory, Refusal};
use line_machine::{Head, count_rows};
use std::alloc::Global;

// The most rows of all programs.
const TOTAL_LIMIT: usize = 1 << 25;

// Appends a head.
fn push(heads: &mut Vec<Head>, head: Head) -> Result<(), NoMemory>
    ensures { OnOk result (heads.new.items ≡ heads.old.items ++ head ∷ []) }
{
    heads.push(head)?;
    Ok(())
}

/// The headers of all line number programs of `section`, the body of .debug_line (DWARF 5 section 6.2.4), in their order,
/// where `origin` is the file offset of the section's first byte. The programs follow one another from the section's first
/// byte to its last. Each gives rows, which are counted and not kept.
///
/// The first fault is answered: of a header as `Head::read` says it, of a program as `rows` does, `Limit` at the unit of
/// a program of more than 2^24 rows among them, and `Limit` at the unit of the program with which all have more than
/// 2^25 rows. `NoMemory` may come wherever memory is wanting.
pub fn read_lines(alloc: Global, section: &[u8], origin: u64) -> Result<Vec<Head>, Refusal>
    requires room { origin + length section.now < 2 ^ 64 }
    ensures read { IfOk result (λ heads. AreRead section.now heads.items) }
    ensures whole { IfOk result (λ _. ¬ IsFaulty (LinesFault section.now)) }
    ensures fault { IfErr result (IsRefusedFor (IsFaultOf (LinesFault section.now) origin)) }
{
    let mut heads: Vec<Head> = Vec::new(alloc);
    let mut at = 0;
    let mut total = 0;
    while at < section.len() as u64 {
        let head = Head::read(section, at, origin)?;
        total += count_rows(section, &head, origin)?;
        if total > TOTAL_LIMIT {
            return Err(Refusal::Refused(Fault {
                kind: Kind::Limit,
                place: origin + at,
            }));
        }
        push(&mut heads, head)?;
        at += head.len;
    }
    Ok(heads)
}
