// Files made by hand of their sections, and the faults of files.
use dw_base::{Fault, Reach, Refusal};
use std::alloc::{AllocError, Global};
use std::test::Fail;
use value_links::World;

// The name of the section that holds the names.
const NAMES: &[u8] = b".shstrtab\0";

/// Where the first body stands in a file with so many sections, behind the headers of these, of section 0 and of the one that holds
/// the names.
pub fn bodies_at(count: usize) -> usize {
    count.saturating_add(3).saturating_mul(64)
}

// Adds the rest of the header of a file, whose sections have their headers behind it.
fn push_head(file: &mut Vec<u8>, count: usize) -> Result<(), AllocError> {
    let last = (count as u64).saturating_add(1);
    file.extend_from_slice(&[0; 8])?;
    file.extend_from_slice(&[2, 0, 62, 0, 1, 0, 0, 0])?;
    file.extend_from_slice(&[0; 16])?;
    file.extend_from_slice(&[64, 0, 0, 0, 0, 0, 0, 0])?;
    file.extend_from_slice(&[0, 0, 0, 0, 64, 0, 0, 0, 0, 0, 64, 0])?;
    file.extend_from_slice(&last.saturating_add(1).to_le_bytes()[..2])?;
    file.extend_from_slice(&last.to_le_bytes()[..2])
}

// Adds the header of a section without flags, whose alignment is 1.
fn push_header(
    file: &mut Vec<u8>,
    name: usize,
    kind: u8,
    at: usize,
    len: usize,
) -> Result<(), AllocError> {
    file.extend_from_slice(&(name as u64).to_le_bytes()[..4])?;
    file.extend_from_slice(&[kind, 0, 0, 0])?;
    file.extend_from_slice(&[0; 16])?;
    file.extend_from_slice(&(at as u64).to_le_bytes())?;
    file.extend_from_slice(&(len as u64).to_le_bytes())?;
    file.extend_from_slice(&[0; 8])?;
    file.extend_from_slice(&[1, 0, 0, 0, 0, 0, 0, 0])?;
    file.extend_from_slice(&[0; 8])
}

// Adds the headers of sections whose names and bodies stand one after the other, and of the one that holds the names.
fn push_headers(file: &mut Vec<u8>, sections: &[(&str, &[u8])]) -> Result<(), AllocError> {
    file.extend_from_slice(&[0; 64])?;
    let mut named: usize = 1;
    let mut at = bodies_at(sections.len());
    for (name, body) in sections {
        push_header(file, named, 1, at, body.len())?;
        named = named.saturating_add(name.len()).saturating_add(1);
        at = at.saturating_add(body.len());
    }
    push_header(file, named, 3, at, named.saturating_add(NAMES.len()))
}

/// An executable file with these sections and, behind them, the one that holds the names.
pub fn elf_file(alloc: Global, sections: &[(&str, &[u8])]) -> Result<Vec<u8>, AllocError> {
    let mut file = [0x7f, 0x45, 0x4c, 0x46, 2, 1, 1, 0].to_vec(alloc)?;
    push_head(&mut file, sections.len())?;
    push_headers(&mut file, sections)?;
    for (_, body) in sections {
        file.extend_from_slice(body)?;
    }
    file.push(0)?;
    for (name, _) in sections {
        file.extend_from_slice(name.as_bytes())?;
        file.push(0)?;
    }
    file.extend_from_slice(NAMES)?;
    Ok(file)
}

/// A compile unit whose entries begin at 12, and whose abbreviation table stands at 0.
pub fn compile_unit(alloc: Global, entries: &[u8]) -> Result<Vec<u8>, AllocError> {
    let len = (entries.len() as u64).saturating_add(8);
    let mut unit = len.to_le_bytes()[..4].to_vec(alloc)?;
    unit.extend_from_slice(&[5, 0, 1, 8, 0, 0, 0, 0])?;
    unit.extend_from_slice(entries)?;
    Ok(unit)
}

/// The fault of a file, or none.
pub fn fault_of(alloc: Global, file: &[u8], reach: Reach) -> Result<Option<Fault>, Fail> {
    match World::read(alloc, file, reach) {
        Ok(_) => Ok(None),
        Err(Refusal::Refused(fault)) => Ok(Some(fault)),
        Err(Refusal::NoMemory) => Err("no memory")?,
    }
}
