// The rows of line programs.
ghost use Rattle.std.specs.Prelude.{◌≡◌, ◌≤◌, ◌<◌, ◌+◌, ◌^◌, length};
ghost use Rattle.line_machine.specs.Heads.{IsHead};

use dw_base::Fault;
use line_machine::{Cursor, Head, Row};

/// How many rows there are, and the sums of their fields modulo 2^64.
#[derive(Clone, Copy, Default)]
pub struct Sums {
    pub rows: u64,
    pub addresses: u64,
    pub lines: u64,
    /// Files, columns, isas, discriminators and flags together.
    pub others: u64,
}

impl Sums {
    // With a row more. A row that ends a sequence has an address alone.
    fn with(self, row: Row) -> Sums {
        let flags = u64::from(row.stmt)
            + u64::from(row.block)
            + u64::from(row.prologue)
            + u64::from(row.epilogue);
        let registers = row
            .file
            .wrapping_add(row.column)
            .wrapping_add(row.isa)
            .wrapping_add(row.discriminator);
        Sums {
            rows: self.rows.wrapping_add(1),
            addresses: self.addresses.wrapping_add(row.address),
            lines: self.lines.wrapping_add(row.line),
            others: self.others.wrapping_add(registers).wrapping_add(flags),
        }
    }
}

// The sums with those of a program.
fn with_program(sums: Sums, section: &[u8], head: &Head) -> Result<Sums, Fault>
    requires head { IsHead section.now head.now }
    requires room { length section.now < 2 ^ 64 }
{
    let mut sums = sums;
    let mut cursor = Cursor::new(head, 0);
    // A row has at least one byte.
    for _ in 0..section.len() {
        match cursor.next(section)? {
            Some(row) => sums = sums.with(row),
            None => break,
        }
    }
    Ok(sums)
}

/// The sums of all programs of a section.
pub fn sums_of(section: &[u8]) -> Result<Sums, Fault> {
    let mut sums = Sums::default();
    let mut at = 0;
    while at < section.len() as u64 {
        let head = Head::read(section, at, 0)?;
        sums = with_program(sums, section, &head)?;
        at = head.at + head.len;
    }
    Ok(sums)
}
