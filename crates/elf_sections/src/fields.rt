// The fields of the headers of sections, where their table lies in the file.
ghost use Rattle.std.specs.Prelude.{◌≡◌, ◌≤◌, ◌<◌, ◌+◌, length};
ghost use Rattle.elf_sections.specs.Elf.{section_count, header_at, flags_of, offset_of, body_span};
ghost use Rattle.elf_sections.specs.Faults.{HasSection, HasSectionTable};

use crate::numbers::{u32_at, u64_at};
use dw_base::Span;

/// Where the header of a section stands.
pub fn header_place(file: &[u8], i: u32) -> usize
    requires header { 64 ≤ length file.now }
    requires table { HasSectionTable file.now }
    requires number { i < section_count file.now }
    ensures place { result ≡ header_at file.now i }
    ensures inside { result + 64 ≤ length file.now }
    ensures header { HasSection file.now i }
{
    u64_at(file, 40) as usize + 64 * i as usize
}

/// sh_flags.
pub fn read_flags(file: &[u8], i: u32) -> u64
    requires header { 64 ≤ length file.now }
    requires table { HasSectionTable file.now }
    requires number { i < section_count file.now }
    ensures { result ≡ flags_of file.now i }
{
    u64_at(file, header_place(file, i) + 8)
}

/// sh_offset.
pub fn read_offset(file: &[u8], i: u32) -> u64
    requires header { 64 ≤ length file.now }
    requires table { HasSectionTable file.now }
    requires number { i < section_count file.now }
    ensures { result ≡ offset_of file.now i }
{
    u64_at(file, header_place(file, i) + 24)
}

/// The span of a section's bytes.
pub fn read_body(file: &[u8], i: u32) -> Span
    requires header { 64 ≤ length file.now }
    requires table { HasSectionTable file.now }
    requires number { i < section_count file.now }
    ensures { result ≡ body_span file.now i }
{
    let at = header_place(file, i);
    let kind = u32_at(file, at + 4);
    if kind == 0 || kind == 8 {
        return Span { at: 0, len: 0 };
    }
    Span {
        at: u64_at(file, at + 24),
        len: u64_at(file, at + 32),
    }
}
