// A file whose header, tables and names have no fault.
ghost use Rattle.std.specs.Prelude.{◌≡◌, ◌≤◌, ◌<◌, ℕ, List, length, IfOk, IfErr, OnOk, MatchOption};
ghost use Rattle.dw_base.specs.declared.fault.Reach.TheVariants.{Wide};
ghost use Rattle.elf_sections.specs.Elf.{IsElf64, section_count, segment_count, segments_end, segment_end, loaded_end, offset_of, body_of, header_of, fixed_end_of, is_movable};
ghost use Rattle.elf_sections.specs.Names.{name_of};
ghost use Rattle.elf_sections.specs.Sections.{section_of, IsFirstNamed, HasNone};
ghost use Rattle.elf_sections.specs.Faults.{IsRead, HasNoElfFault, HasNoNameFault, NamesFirstFault};
ghost use Rattle.elf_sections.specs.inside.Faults.{IsElfSound, NamesElfFault};

use crate::header::{check_header, is_elf64};
use crate::section::Section;
use crate::sound::{check_arranged, check_known};
use crate::table::SectionTable;
use dw_base::{Fault, Kind, Reach, Refusal};
use std::alloc::Global;
use std::marker::Model;

/// A linked ELF-64 file whose header, tables and names of sections have no fault (System V ABI, ELF-64 object file
/// format). Contracts see it as the bytes of the file, which it borrows. Sections are numbered from 0, as in their
/// table; section 0 is one of them.
#[derive(Drop)]
pub struct Image<'a> {
    table: SectionTable<'a>,
}

impl<'a> Model for Image<'a> {
    ghost Value = { List ℕ };

    ghost view = { λ i. i.table };

    ghost invariant = { λ i. IsRead i.table Wide };
}

// Reads an ELF-64 file whose header, tables and sections have no fault of the first pass.
fn read_arranged<'a>(
    alloc: Global,
    file: &'a [u8],
    reach: Reach,
) -> Result<SectionTable<'a>, Refusal>
    ensures table { IfOk result (λ table. table ≡ file.entry.now) }
    ensures sound { OnOk result (IsElfSound file.entry.now reach) }
    ensures refused { IfErr result (NamesElfFault file.entry.now reach) }
{
    if !is_elf64(file) {
        return Err(Refusal::Refused(Fault {
            kind: Kind::NotElf64,
            place: 0,
        }));
    }
    check_header(file, reach)?;
    let table = SectionTable::read(alloc, file)?;
    check_arranged(alloc, &table, reach)?;
    Ok(table)
}

impl<'a> Image<'a> {
    /// Reads the header, the tables and the names of a file, which is held to the limits of `reach`.
    ///
    /// A fault of the first pass comes exactly where there is one: NotElf64 at 0 where the file has fewer than 64 bytes or
    /// doesn't begin as an ELF-64 file of low-first numbers, and FileType, Torn, Overlap, Compressed, Relocated,
    /// TwoSections, Placed or Limit, each at the place that docs/FORMATS.md says. Companion comes only where no fault of
    /// these does. Of several faults in one pass any may be named. NoMemory comes where memory is wanting.
    pub fn read(alloc: Global, file: &'a [u8], reach: Reach) -> Result<Image<'a>, Refusal>
        ensures read { IfOk result (λ image. (image ≡ file.entry.now) × IsRead file.entry.now reach) }
        ensures faultless { OnOk result (HasNoElfFault file.entry.now reach) }
        ensures known { OnOk result (HasNoNameFault file.entry.now) }
        ensures refused { IfErr result (λ refusal. NamesFirstFault file.entry.now reach refusal) }
    {
        let table = read_arranged(alloc, file, reach)?;
        check_known(&table)?;
        Ok(Image { table })
    }

    /// The bytes of the file, without a fault.
    pub fn whole(&self) -> &[u8]
        ensures bytes { result.now ≡ self.now }
        ensures read { IsRead self.now Wide }
    {
        self.table.whole()
    }

    /// How many sections there are.
    pub fn count(&self) -> u32
        ensures { result ≡ section_count self.now }
    {
        self.table.count()
    }

    /// The fields of a section.
    pub fn section(&self, i: u32) -> Section
        requires { i < section_count self.now }
        ensures { result ≡ section_of self.now i }
    {
        self.table.section(i)
    }

    /// The name of a section without its zero byte; empty where no section holds the names.
    pub fn name(&self, i: u32) -> &[u8]
        requires { i < section_count self.now }
        ensures { result.now ≡ name_of self.now i }
    {
        self.table.name(i)
    }

    /// sh_offset of a section, as its header has it, also where the section holds no bytes.
    pub fn offset(&self, i: u32) -> u64
        requires { i < section_count self.now }
        ensures { result ≡ offset_of self.now i }
    {
        self.table.offset(i)
    }

    /// The 64 bytes of a section's header.
    pub fn header(&self, i: u32) -> &[u8]
        requires { i < section_count self.now }
        ensures bytes { result.now ≡ header_of self.now i }
        ensures len { length result.now ≡ 64 }
    {
        self.table.header(i)
    }

    /// The bytes of a section; none where its type is SHT_NULL (0) or SHT_NOBITS (8).
    pub fn body(&self, i: u32) -> &[u8]
        requires { i < section_count self.now }
        ensures { result.now ≡ body_of self.now i }
    {
        self.table.body(i)
    }

    /// The first section of this name, which is given without its zero byte. None exactly where there is none.
    pub fn find(&self, name: &[u8]) -> Option<u32>
        ensures { MatchOption result (HasNone self.now name.now) (λ i. IsFirstNamed self.now name.now i) }
    {
        self.table.find(name)
    }

    /// The offset below which nothing may move: the greatest end of the file's header, the table of the segments, the
    /// segments and the loaded sections, or the file's length where it has no sections.
    pub fn fixed_end(&self) -> u64
        ensures value { result ≡ fixed_end_of self.now }
        ensures header { 64 ≤ result }
        ensures within { result ≤ length self.now }
        ensures table { segments_end self.now ≤ result }
        ensures segments { (i : ℕ) → i < segment_count self.now → segment_end self.now i ≤ result }
        ensures loaded { (i : ℕ) → i < section_count self.now → loaded_end self.now i ≤ result }
    {
        self.table.fixed_end()
    }

    /// Whether a section may move: it holds bytes, isn't loaded, and begins at the fixed end or after it.
    pub fn is_movable(&self, i: u32) -> bool
        requires { i < section_count self.now }
        ensures { result ≡ is_movable self.now i }
    {
        self.table.is_movable(i)
    }
}
