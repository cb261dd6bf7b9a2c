// The ELF-64 file around the sections (System V ABI). It has no segments.
ghost use Rattle.std.specs.Prelude.{◌≡◌, ◌<◌, ◌+◌, ◌++◌, ◌^◌, length, IfOk, OnOk};
ghost use Rattle.sample_maker.specs.inside.Images.{debug_row as row_for, rows_for, sizes_of, end_of as end_for, bodies_bytes, file_header_bytes, section_header_bytes, section_headers_bytes, no_section, names_bytes, image_bytes};

use crate::abbrevs::{TABLE, put_table};
use crate::lists::{HEADER_SIZE, put_contribution};
use crate::numbers::{put_long, put_word};
use crate::units::Sections;
use dw_base::NoMemory;
use std::alloc::Global;

/// What is told of a section in its header: the place of its name among the names, its type, and how many bytes it has.
#[derive(Clone, Copy)]
struct Row {
    name: u64,
    kind: u64,
    size: u64,
}

// The bytes of the file's header.
const FILE_HEADER_SIZE: u64 = 64;

// The file's header up to the place of the section headers: ELF-64 with the lowest byte first, an executable for x86-64.
const FILE_HEADER_START: [u8; 40] = [
    0x7f, 0x45, 0x4c, 0x46, 2, 1, 1, 0, 0, 0, 0, 0, 0, 0, 0, 0, 2, 0, 62, 0, 1, 0, 0, 0, 0, 0, 0,
    0, 0, 0, 0, 0, 0, 0, 0, 0, 0, 0, 0, 0,
];

// What follows that place: headers of 64 bytes, of which there are 8, and section 7 has the names.
const FILE_HEADER_END: [u8; 16] = [0, 0, 0, 0, 64, 0, 0, 0, 0, 0, 64, 0, 8, 0, 7, 0];

// The header of section 0, which every file has.
const NO_SECTION: [u8; 64] = [0; 64];

// The section headers begin at a multiple of this.
const TABLE_GRAIN: u64 = 8;

const GAP: [u8; 8] = [0; 8];

const SHT_PROGBITS: u64 = 1;

const SHT_STRTAB: u64 = 3;

const SECTION_ALIGN: u64 = 1;

// The names of the sections, each with a byte 0 behind it. Section 0 has none.
const NAMES: [u8; 96] =
    *b"\0.debug_info\0.debug_abbrev\0.debug_line\0.debug_rnglists\0.debug_loclists\0.debug_aranges\0.shstrtab\0";

fn debug_row(name: u64, size: u64) -> Row
    ensures { result ≡ row_for name size }
{
    Row {
        name,
        kind: SHT_PROGBITS,
        size,
    }
}

// The sections in their order, without section 0.
fn rows_of(sections: &Sections) -> [Row; 7]
    ensures { result ≡ rows_for sections.now.info.items sections.now.lines.items sections.now.ranges.items sections.now.locations.items sections.now.aranges.items }
{
    [
        debug_row(1, sections.info.len() as u64),
        debug_row(13, TABLE.len() as u64),
        debug_row(27, sections.lines.len() as u64),
        debug_row(39, HEADER_SIZE + sections.ranges.len() as u64),
        debug_row(55, HEADER_SIZE + sections.locations.len() as u64),
        debug_row(71, sections.aranges.len() as u64),
        Row {
            name: 86,
            kind: SHT_STRTAB,
            size: NAMES.len() as u64,
        },
    ]
}

// Where the last section ends.
fn end_of(rows: &[Row]) -> u64
    requires { sizes_of rows.now < 2 ^ 60 }
    ensures { result ≡ end_for rows.now }
{
    let mut end = FILE_HEADER_SIZE;
    for row in rows {
        end += row.size;
    }
    end
}

#[tactic(auto, unfolding(crate::specs::inside::Images::file_header_bytes))]
fn put_file_header(out: &mut Vec<u8>, table: u64) -> Result<(), NoMemory>
    ensures { OnOk result (out.new.items ≡ out.old.items ++ file_header_bytes table) }
{
    out.extend_from_slice(&FILE_HEADER_START)?;
    put_long(out, table)?;
    out.extend_from_slice(&FILE_HEADER_END)?;
    Ok(())
}

#[tactic(auto, unfolding(crate::specs::inside::Images::names_bytes))]
fn put_names(out: &mut Vec<u8>) -> Result<(), NoMemory>
    ensures { OnOk result (out.new.items ≡ out.old.items ++ names_bytes) }
{
    out.extend_from_slice(&NAMES)?;
    Ok(())
}

fn put_bodies(out: &mut Vec<u8>, sections: &Sections) -> Result<(), NoMemory>
    ensures { OnOk result (out.new.items ≡ out.old.items ++ bodies_bytes sections.now.info.items sections.now.lines.items sections.now.ranges.items sections.now.locations.items sections.now.aranges.items) }
{
    out.extend_from_slice(&sections.info)?;
    put_table(out)?;
    out.extend_from_slice(&sections.lines)?;
    put_contribution(out, &sections.ranges)?;
    put_contribution(out, &sections.locations)?;
    out.extend_from_slice(&sections.aranges)?;
    put_names(out)
}

// Appends the header of a section whose body begins at a place. All fields that a row doesn't tell are 0, but for the alignment.
#[tactic(auto, unfolding(crate::specs::inside::Images::section_header_bytes))]
fn put_section_header(out: &mut Vec<u8>, row: Row, at: u64) -> Result<(), NoMemory>
    ensures { OnOk result (out.new.items ≡ out.old.items ++ section_header_bytes row at) }
{
    put_word(out, row.name)?;
    put_word(out, row.kind)?;
    put_long(out, 0)?;
    put_long(out, 0)?;
    put_long(out, at)?;
    put_long(out, row.size)?;
    put_word(out, 0)?;
    put_word(out, 0)?;
    put_long(out, SECTION_ALIGN)?;
    put_long(out, 0)
}

#[tactic(auto, unfolding(crate::specs::inside::Images::no_section))]
fn put_no_section(out: &mut Vec<u8>) -> Result<(), NoMemory>
    ensures { OnOk result (out.new.items ≡ out.old.items ++ no_section) }
{
    out.extend_from_slice(&NO_SECTION)?;
    Ok(())
}

fn put_section_headers(out: &mut Vec<u8>, rows: &[Row]) -> Result<(), NoMemory>
    requires { sizes_of rows.now < 2 ^ 60 }
    ensures { OnOk result (out.new.items ≡ out.old.items ++ (no_section ++ section_headers_bytes 64 rows.now)) }
{
    put_no_section(out)?;
    let mut at = FILE_HEADER_SIZE;
    for row in rows {
        put_section_header(out, *row, at)?;
        at += row.size;
    }
    Ok(())
}

/// The file with these sections and the abbreviation table. Their bodies follow the file's header, without gaps, then the names,
/// and then the section headers.
pub(crate) fn write_file(alloc: Global, sections: &Sections) -> Result<Vec<u8>, NoMemory>
    requires { sizes_of (rows_for sections.now.info.items sections.now.lines.items sections.now.ranges.items sections.now.locations.items sections.now.aranges.items) < 2 ^ 60 }
    ensures { IfOk result (λ file. file.items ≡ image_bytes sections.now.info.items sections.now.lines.items sections.now.ranges.items sections.now.locations.items sections.now.aranges.items) }
{
    let rows = rows_of(sections);
    let end = end_of(&rows);
    let gap = (TABLE_GRAIN - end % TABLE_GRAIN) % TABLE_GRAIN;
    let mut out = Vec::new(alloc);
    put_file_header(&mut out, end + gap)?;
    put_bodies(&mut out, sections)?;
    out.extend_from_slice(&GAP[..gap as usize])?;
    put_section_headers(&mut out, &rows)?;
    Ok(out)
}
