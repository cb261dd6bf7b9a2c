// The file's header, and whether its two tables lie in the file.
ghost use Rattle.std.specs.Prelude.{◌≡◌, ◌≢◌, ◌+◌, ◌*◌, ◌≤◌, ◌<◌, ◌⊎◌, ◌↔◌, ℕ, length, IsTrue, IfErr, OnOk};
ghost use Rattle.elf_sections.specs.Elf.{IsElf64, file_type, header_at, segment_at, section_count, segment_count, segment_end};
ghost use Rattle.elf_sections.specs.Faults.{file_limit, IsHeaderSmall, HasSectionTable, HasSegmentTable};
ghost use Rattle.elf_sections.specs.inside.Faults.{HasFault, HasFaultAnyway, IsHeaderSound};

use crate::numbers::{u16_at, u64_at};
use dw_base::{Fault, Kind, Reach};

const MAGIC: [u8; 7] = [0x7f, b'E', b'L', b'F', 2, 1, 1];

/// Whether the file begins as an ELF-64 file of low-first numbers.
pub fn is_elf64(file: &[u8]) -> bool
    ensures { IsTrue result ↔ IsElf64 file.now }
{
    file.len() >= 64 && file[..7] == MAGIC[..]
}

// The most bytes of a file.
fn file_limit(reach: Reach) -> u64
    ensures { result ≡ file_limit reach }
{
    match reach {
        Reach::Narrow => 1 << 30,
        Reach::Wide => 1 << 35,
    }
}

/// Whether `len` bytes from a place on lie in the file.
pub fn lies_in(file: &[u8], at: u64, len: u64) -> bool
    ensures { IsTrue result ↔ (at + len ≤ length file.now) }
{
    let whole = file.len() as u64;
    at <= whole && len <= whole - at
}

// Only programs and shared objects are linked.
fn check_type(file: &[u8]) -> Result<(), Fault>
    requires { 64 ≤ length file.now }
    ensures fault { IfErr result (λ f. HasFaultAnyway file.now f) }
    ensures linked { OnOk result ((file_type file.now ≡ 2) ⊎ (file_type file.now ≡ 3)) }
{
    match u16_at(file, 16) {
        2 | 3 => Ok(()),
        _ => Err(Fault {
            kind: Kind::FileType,
            place: 16,
        }),
    }
}

// The counts of the header. Those that only section 0 could tell are too large.
fn check_counts(file: &[u8], reach: Reach) -> Result<(), Fault>
    requires { 64 ≤ length file.now }
    ensures fault { IfErr result (λ f. HasFault file.now reach f) }
    ensures small { OnOk result (IsHeaderSmall file.now reach) }
{
    let sections = u16_at(file, 60);
    if file.len() as u64 > file_limit(reach)
        || sections > 65279
        || u16_at(file, 56) > 65534
        || u16_at(file, 62) == 65535
        || (sections == 0 && u64_at(file, 40) != 0)
    {
        return Err(Fault {
            kind: Kind::Limit,
            place: 0,
        });
    }
    Ok(())
}

// The table of the sections.
fn check_section_table(file: &[u8]) -> Result<(), Fault>
    requires { 64 ≤ length file.now }
    ensures fault { IfErr result (λ f. HasFaultAnyway file.now f) }
    ensures table { OnOk result (HasSectionTable file.now) }
{
    let count = u16_at(file, 60);
    let names = u16_at(file, 62);
    if count != 0
        && (u16_at(file, 58) != 64 || !lies_in(file, u64_at(file, 40), 64 * u64::from(count)))
    {
        return Err(Fault {
            kind: Kind::Torn,
            place: 0,
        });
    }
    if names != 0 && names >= count {
        return Err(Fault {
            kind: Kind::Torn,
            place: 0,
        });
    }
    Ok(())
}

// The table of the segments.
fn check_segment_table(file: &[u8]) -> Result<(), Fault>
    requires { 64 ≤ length file.now }
    ensures fault { IfErr result (λ f. HasFaultAnyway file.now f) }
    ensures table { OnOk result (HasSegmentTable file.now) }
{
    let count = u16_at(file, 56);
    if count != 0
        && (u16_at(file, 54) != 56 || !lies_in(file, u64_at(file, 32), 56 * u64::from(count)))
    {
        return Err(Fault {
            kind: Kind::Torn,
            place: 0,
        });
    }
    Ok(())
}

// The bytes of each segment.
fn check_segments(file: &[u8]) -> Result<(), Fault>
    requires header { 64 ≤ length file.now }
    requires table { HasSegmentTable file.now }
    ensures fault { IfErr result (λ f. HasFaultAnyway file.now f) }
    ensures segments { OnOk result ((i : ℕ) → i < segment_count file.now → segment_end file.now i ≤ length file.now) }
{
    for i in 0..u64::from(u16_at(file, 56)) {
        let at = u64_at(file, 32) + 56 * i;
        let offset = u64_at(file, at as usize + 8);
        let size = u64_at(file, at as usize + 32);
        if !lies_in(file, offset, size) {
            return Err(Fault {
                kind: Kind::Torn,
                place: at,
            });
        }
    }
    Ok(())
}

/// The header, its two tables, and the bytes of the segments.
pub fn check_header(file: &[u8], reach: Reach) -> Result<(), Fault>
    requires { 64 ≤ length file.now }
    ensures fault { IfErr result (λ f. HasFault file.now reach f) }
    ensures sound { OnOk result (IsHeaderSound file.now reach) }
{
    check_type(file)?;
    check_counts(file, reach)?;
    check_section_table(file)?;
    check_segment_table(file)?;
    check_segments(file)
}
