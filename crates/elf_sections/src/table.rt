// The sections of a file whose tables, and all that they name, lie in it.
ghost use Rattle.std.specs.Prelude.{◌≡◌, ◌≢◌, ◌≤◌, ◌<◌, ◌+◌, ◌*◌, ◌^◌, ℕ, List, length, slice_range, IfOk, IfErr, OnOk, MatchOption};
ghost use Rattle.dw_base.specs.declared.fault.Reach.TheVariants.{Wide};
ghost use Rattle.elf_sections.specs.Elf.{section_count, names_index, name_offset, segment_count, segments_at, segments_end, segment_end, section_end, loaded_end, offset_of, body_span, body_of, header_of, fixed_end_of, is_movable};
ghost use Rattle.elf_sections.specs.Names.{names_of, name_of, IsNamed};
ghost use Rattle.elf_sections.specs.inside.Names.{AreTextEnds};
ghost use Rattle.elf_sections.specs.Sections.{section_of, name_span, IsFirstNamed, HasNone};
ghost use Rattle.elf_sections.specs.inside.Sections.{first_sections};
ghost use Rattle.dw_base.specs.Refusals.{IsRefusedFor};
ghost use Rattle.elf_sections.specs.Faults.{HasSection, IsHeaderSmall, HasSectionTable};
ghost use Rattle.elf_sections.specs.inside.Faults.{HasFaultAnyway, IsHeaderSound, HasTables};

use crate::ends::fixed_end;
use crate::fields::{header_place, read_body, read_flags, read_offset};
use crate::header::lies_in;
use crate::numbers::{u16_at, u32_at, u64_at};
use crate::section::Section;
use crate::texts::text_len;
use dw_base::{Fault, Kind, NoMemory, Refusal, Span};
use std::alloc::Global;
use std::collections::BTreeSet;
use std::marker::Model;

// The sections of a file. Contracts see them as the bytes of the file.
#[derive(Drop)]
pub struct SectionTable<'a> {
    file: &'a [u8],
    sections: Vec<Section>,
    end: u64,
}

impl<'a> Model for SectionTable<'a> {
    ghost Value = { List ℕ };

    ghost view = { λ t. t.file.now };

    ghost invariant = { λ t. HasTables t.file.now × (t.sections.items ≡ first_sections t.file.now (section_count t.file.now)) × (t.end ≡ fixed_end_of t.file.now) };
}

// The span of the section that holds the names, which is empty where none does.
fn read_names(file: &[u8]) -> Result<Span, Fault>
    requires header { 64 ≤ length file.now }
    requires table { HasSectionTable file.now }
    ensures fault { IfErr result (λ f. HasFaultAnyway file.now f) }
    ensures span { IfOk result (λ names. names_index file.now ≢ 0 → names ≡ body_span file.now (names_index file.now)) }
    ensures inside { IfOk result (λ names. names.at + names.len ≤ length file.now) }
    ensures bytes { IfOk result (λ names. slice_range file.now names.at (names.at + names.len) ≡ names_of file.now) }
{
    let index = u32::from(u16_at(file, 62));
    if index == 0 {
        return Ok(Span { at: 0, len: 0 });
    }
    let names = read_body(file, index);
    if lies_in(file, names.at, names.len) {
        return Ok(names);
    }
    Err(Fault {
        kind: Kind::Torn,
        place: header_place(file, index) as u64,
    })
}

// The span of a section's name, where it and its zero byte lie in the section that holds the names.
fn read_name(
    file: &[u8],
    names: Span,
    ends: &mut BTreeSet<(usize, usize)>,
    i: u32,
) -> Result<Option<Span>, NoMemory>
    requires header { 64 ≤ length file.now }
    requires table { HasSectionTable file.now }
    requires number { i < section_count file.now }
    requires span { names_index file.now ≢ 0 → names ≡ body_span file.now (names_index file.now) }
    requires inside { names.at + names.len ≤ length file.now }
    requires bytes { slice_range file.now names.at (names.at + names.len) ≡ names_of file.now }
    requires ends { AreTextEnds (names_of file.now) ends.old.keys }
    ensures name { IfOk result (λ name. MatchOption name (¬ IsNamed file.now i) (λ name. (name ≡ name_span file.now i) × IsNamed file.now i)) }
    ensures ends { AreTextEnds (names_of file.now) ends.new.keys }
{
    if u16_at(file, 62) == 0 {
        return Ok(Some(Span { at: 0, len: 0 }));
    }
    let offset = u32_at(file, header_place(file, i));
    let end = names.at + names.len;
    match text_len(
        &file[names.at as usize..end as usize],
        ends,
        offset as usize,
    )? {
        Some(len) => Ok(Some(Span {
            at: names.at + u64::from(offset),
            len: len as u64,
        })),
        None => Ok(None),
    }
}

// A section, where its bytes and its name lie where they should.
fn read_section(
    file: &[u8],
    names: Span,
    ends: &mut BTreeSet<(usize, usize)>,
    i: u32,
) -> Result<Section, Refusal>
    requires header { 64 ≤ length file.now }
    requires table { HasSectionTable file.now }
    requires number { i < section_count file.now }
    requires span { names_index file.now ≢ 0 → names ≡ body_span file.now (names_index file.now) }
    requires inside { names.at + names.len ≤ length file.now }
    requires bytes { slice_range file.now names.at (names.at + names.len) ≡ names_of file.now }
    requires ends { AreTextEnds (names_of file.now) ends.old.keys }
    ensures fault { IfErr result (IsRefusedFor (HasFaultAnyway file.now)) }
    ensures section { IfOk result (λ s. s ≡ section_of file.now i) }
    ensures fits { OnOk result (section_end file.now i ≤ length file.now) }
    ensures named { OnOk result (IsNamed file.now i) }
    ensures ends { AreTextEnds (names_of file.now) ends.new.keys }
{
    let at = header_place(file, i);
    let torn = Refusal::Refused(Fault {
        kind: Kind::Torn,
        place: at as u64,
    });
    let body = read_body(file, i);
    if !lies_in(file, body.at, body.len) {
        return Err(torn);
    }
    let Some(name) = read_name(file, names, ends, i)? else {
        return Err(torn);
    };
    Ok(Section {
        name,
        kind: u32_at(file, at + 4),
        flags: read_flags(file, i),
        body,
        link: u32_at(file, at + 40),
        info: u32_at(file, at + 44),
        align: u64_at(file, at + 48),
    })
}

// All sections in order.
fn read_sections(alloc: Global, file: &[u8]) -> Result<Vec<Section>, Refusal>
    requires header { 64 ≤ length file.now }
    requires table { HasSectionTable file.now }
    ensures fault { IfErr result (IsRefusedFor (HasFaultAnyway file.now)) }
    ensures sections { IfOk result (λ s. s.items ≡ first_sections file.now (section_count file.now)) }
    ensures fit { OnOk result ((i : ℕ) → i < section_count file.now → section_end file.now i ≤ length file.now) }
    ensures named { OnOk result ((i : ℕ) → i < section_count file.now → IsNamed file.now i) }
{
    let names = read_names(file)?;
    let count = u32::from(u16_at(file, 60));
    let mut ends = BTreeSet::new(alloc);
    let mut sections = Vec::new(alloc);
    for i in 0..count {
        let section = read_section(file, names, &mut ends, i)?;
        sections.push(section)?;
    }
    Ok(sections)
}

impl<'a> SectionTable<'a> {
    /// Reads the sections of a file whose header is sound.
    pub fn read(alloc: Global, file: &'a [u8]) -> Result<SectionTable<'a>, Refusal>
        requires header { 64 ≤ length file.now }
        requires sound { IsHeaderSound file.now Wide }
        ensures fault { IfErr result (IsRefusedFor (HasFaultAnyway file.entry.now)) }
        ensures table { IfOk result (λ table. (table ≡ file.entry.now) × HasTables file.entry.now) }
    {
        let sections = read_sections(alloc, file)?;
        let end = fixed_end(file);
        Ok(SectionTable {
            file,
            sections,
            end,
        })
    }

    /// The bytes of the file.
    pub fn whole(&self) -> &[u8]
        ensures { result.now ≡ self.now }
    {
        self.file
    }

    /// How many sections there are.
    pub fn count(&self) -> u32
        ensures { result ≡ section_count self.now }
    {
        u32::from(u16_at(self.file, 60))
    }

    /// The section with a number.
    pub fn section(&self, i: u32) -> Section
        requires { i < section_count self.now }
        ensures { result ≡ section_of self.now i }
    {
        self.sections[i as usize]
    }

    /// sh_offset, also of a section without bytes.
    pub fn offset(&self, i: u32) -> u64
        requires { i < section_count self.now }
        ensures offset { result ≡ offset_of self.now i }
        ensures header { HasSection self.now i }
    {
        read_offset(self.file, i)
    }

    /// The 64 bytes of the header of a section.
    pub fn header(&self, i: u32) -> &[u8]
        requires { i < section_count self.now }
        ensures bytes { result.now ≡ header_of self.now i }
        ensures len { length result.now ≡ 64 }
    {
        let at = header_place(self.file, i);
        &self.file[at..at + 64]
    }

    /// The bytes of a section.
    pub fn body(&self, i: u32) -> &[u8]
        requires { i < section_count self.now }
        ensures { result.now ≡ body_of self.now i }
    {
        let body = read_body(self.file, i);
        &self.file[body.at as usize..(body.at + body.len) as usize]
    }

    /// Where the bytes of a section end, or 0 where it holds none.
    pub fn body_end(&self, i: u32) -> u64
        requires { i < section_count self.now }
        ensures { result ≡ section_end self.now i }
    {
        let body = read_body(self.file, i);
        body.at + body.len
    }

    /// The name without its zero byte.
    pub fn name(&self, i: u32) -> &[u8]
        requires { i < section_count self.now }
        ensures { result.now ≡ name_of self.now i }
    {
        let name = self.section(i).name;
        &self.file[name.at as usize..(name.at + name.len) as usize]
    }

    /// Where the name begins in the section that holds the names.
    pub fn name_place(&self, i: u32) -> usize
        requires { i < section_count self.now }
        ensures { result ≡ name_offset self.now i }
    {
        u32_at(self.file, header_place(self.file, i)) as usize
    }

    /// The bytes of the section that holds the names, or none where no section does.
    pub fn names(&self) -> &[u8]
        ensures { result.now ≡ names_of self.now }
    {
        match self.names_index() {
            0 => &self.file[..0],
            index => self.body(index),
        }
    }

    /// The number of the section that holds the names, or 0 where none does.
    pub fn names_index(&self) -> u32
        ensures { result ≡ names_index self.now }
    {
        u32::from(u16_at(self.file, 62))
    }

    /// The span of the table of the segments, which is empty at 0 where there are none.
    pub fn segment_table(&self) -> Span
        ensures at { segment_count self.now ≢ 0 → result.at ≡ segments_at self.now }
        ensures len { result.len ≡ 56 * segment_count self.now }
        ensures fits { result.at + result.len < 2 ^ 64 }
    {
        let count = u64::from(u16_at(self.file, 56));
        if count == 0 {
            return Span { at: 0, len: 0 };
        }
        Span {
            at: u64_at(self.file, 32),
            len: 56 * count,
        }
    }

    /// The fixed end of the file.
    pub fn fixed_end(&self) -> u64
        ensures value { result ≡ fixed_end_of self.now }
        ensures header { 64 ≤ result }
        ensures within { result ≤ length self.now }
        ensures table { segments_end self.now ≤ result }
        ensures segments { (i : ℕ) → i < segment_count self.now → segment_end self.now i ≤ result }
        ensures loaded { (i : ℕ) → i < section_count self.now → loaded_end self.now i ≤ result }
    {
        self.end
    }

    /// Whether a section is movable.
    pub fn is_movable(&self, i: u32) -> bool
        requires { i < section_count self.now }
        ensures { result ≡ is_movable self.now i }
    {
        let section = self.section(i);
        section.has_bytes() && !section.is_loaded() && self.end <= section.body.at
    }

    /// The number of the first section with a name.
    pub fn find(&self, name: &[u8]) -> Option<u32>
        ensures { MatchOption result (HasNone self.now name.now) (λ i. IsFirstNamed self.now name.now i) }
    {
        for i in 0..self.count() {
            if self.name(i) == name {
                return Some(i);
            }
        }
        None
    }
}
