// The fixed end of a file.
ghost use Rattle.std.specs.Prelude.{◌≡◌, ◌≤◌, ◌<◌};
ghost use Rattle.elf_sections.specs.Elf.{greatest, segment_end, segment_count, section_count, fixed_end_of, loaded_end};
ghost use Rattle.elf_sections.specs.inside.Faults.{HasTables};

use crate::fields::{read_body, read_flags};
use crate::numbers::{u16_at, u64_at};

// The greatest end of a segment.
fn segments_end(file: &[u8]) -> u64
    requires { HasTables file.now }
    ensures { result ≡ greatest (segment_end file.now) (segment_count file.now) }
{
    let count = u64::from(u16_at(file, 56));
    let mut end = 0;
    for i in 0..count {
        let at = (u64_at(file, 32) + 56 * i) as usize;
        end = end.max(u64_at(file, at + 8) + u64_at(file, at + 32));
    }
    end
}

// The end of a section, if it is loaded.
fn loaded_end(file: &[u8], i: u32) -> u64
    requires tables { HasTables file.now }
    requires inside { i < section_count file.now }
    ensures { result ≡ loaded_end file.now i }
{
    if read_flags(file, i) & 2 == 0 {
        return 0;
    }
    let body = read_body(file, i);
    body.at + body.len
}

// The greatest end of a loaded section.
fn loaded_sections_end(file: &[u8]) -> u64
    requires { HasTables file.now }
    ensures { result ≡ greatest (loaded_end file.now) (section_count file.now) }
{
    let count = u32::from(u16_at(file, 60));
    let mut end = 0;
    for i in 0..count {
        end = end.max(loaded_end(file, i));
    }
    end
}

/// The end of what may not move.
pub fn fixed_end(file: &[u8]) -> u64
    requires { HasTables file.now }
    ensures { result ≡ fixed_end_of file.now }
{
    if u16_at(file, 60) == 0 {
        return file.len() as u64;
    }
    let segments = u64::from(u16_at(file, 56));
    let table = if segments == 0 {
        0
    } else {
        u64_at(file, 32) + 56 * segments
    };
    table
        .max(64)
        .max(segments_end(file).max(loaded_sections_end(file)))
}
