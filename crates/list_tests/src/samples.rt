// Sections, contexts and items that several tests use.
ghost use Rattle.list_model.specs.Items.{HasTable};

use dw_base::Span;
use list_model::{Context, Item, addr_table};
use std::alloc::Global;
use std::test::Fail;

/// Where the section stands in the file.
pub const ORIGIN: u64 = 100;

/// A table of one address, 0x401000.
pub const ADDR: [u8; 16] = [12, 0, 0, 0, 5, 0, 8, 0, 0, 0x10, 0x40, 0, 0, 0, 0, 0];

// The header of a contribution without offsets.
const HEADER: [u8; 12] = [0, 0, 0, 0, 5, 0, 8, 0, 0, 0, 0, 0];

/// A contribution that holds these bytes, and another one, whose first byte would end a range list and is no code of a location
/// list.
pub fn section_of(alloc: Global, list: &[u8]) -> Result<Vec<u8>, Fail> {
    let mut section = HEADER.to_vec(alloc)?;
    if list.len() > 200 {
        Err("too long")?;
    }
    section[0] = 8 + list.len() as u8;
    section.extend_from_slice(list)?;
    section.extend_from_slice(&[9, 0, 0, 0, 5, 0, 8, 0, 0, 0, 0, 0, 0])?;
    Ok(section)
}

/// A context with this first base, and with the table of `addr`, if it has one.
pub fn context_of(addr: &[u8], base: u64) -> Context
    ensures { HasTable addr.now result.table }
{
    match addr_table(addr, 8, 0) {
        Ok(table) => Context { base, table },
        Err(_) => Context { base, table: None },
    }
}

/// The context in which offsets count from 0 at first, with the first table of a section or with none.
pub fn context_with(addr: &[u8], has_table: bool) -> Context
    ensures { HasTable addr.now result.table }
{
    match addr_table(addr, 8, 0) {
        Ok(table) if has_table => Context { base: 0, table },
        _ => Context {
            base: 0,
            table: None,
        },
    }
}

/// A range.
pub fn range(start: u64, end: u64) -> Item {
    Item {
        start,
        end,
        whole: false,
        expr: Span { at: 0, len: 0 },
    }
}
