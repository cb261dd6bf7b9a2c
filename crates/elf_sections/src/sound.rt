// Whether each section may stand as it does, by its bytes, its flags and its name, and whether it is known.
ghost use Rattle.std.specs.Prelude.{◌≡◌, ◌≢◌, ◌≤◌, ◌<◌, ◌⊎◌, ◌↔◌, ℕ, Bool, false, length, IsTrue, IfErr, OnOk, MatchOption};
ghost use Rattle.dw_base.specs.Refusals.{IsRefusedFor};
ghost use Rattle.elf_sections.specs.Elf.{IsElf64, section_count, offset_of};
ghost use Rattle.elf_sections.specs.Names.{names_of};
ghost use Rattle.elf_sections.specs.Faults.{debug_limit, movable_limit, movable_bytes, holds_e_shoff, is_overlapping, is_compressed, is_debug_relocation, is_misplaced, is_companion, is_too_long, is_overaligned, ImageFault, NameFault, HasSection, DoSegmentsOverlap, IsSectionSound, HasDistinctNames, HasKnownSections};
ghost use Rattle.elf_sections.specs.inside.Faults.{HasFault, HasFaultAnyway, IsArranged};

use crate::names::{is_debug_name, is_listed, is_written, is_zdebug_name};
use crate::numbers::{u16_at, u64_at};
use crate::sums::TextSums;
use crate::table::SectionTable;
use dw_base::{Fault, Kind, Reach, Refusal};
use std::alloc::Global;
use std::collections::BTreeSet;

const COMPRESSED: u64 = 0x800;

// The most bytes of a section with a debug name.
fn debug_limit(reach: Reach) -> u64
    ensures { result ≡ debug_limit reach }
{
    match reach {
        Reach::Narrow => 1 << 28,
        Reach::Wide => (1 << 32) - 1,
    }
}

// The most bytes of all movable sections together.
fn movable_limit(reach: Reach) -> u64
    ensures { result ≡ movable_limit reach }
{
    match reach {
        Reach::Narrow => 1 << 30,
        Reach::Wide => 1 << 35,
    }
}

// Whether the bytes from one place up to another hold one of the bytes 40 to 47, e_shoff.
fn holds_e_shoff(from: u64, to: u64) -> bool
    ensures { result ≡ holds_e_shoff from to }
{
    from.max(40) < to.min(48)
}

// Whether a section lies across the fixed end, or holds a byte of e_shoff.
fn is_overlapping(table: &SectionTable, i: u32) -> bool
    requires { i < section_count table.now }
    ensures { result ≡ is_overlapping table.now i }
{
    let section = table.section(i);
    if !section.has_bytes() {
        return false;
    }
    let from = section.body.at;
    let to = table.body_end(i);
    let end = table.fixed_end();
    (from < end && end < to) || holds_e_shoff(from, to)
}

// Whether a section is compressed, by its flag or by its old name.
fn is_compressed(table: &SectionTable, i: u32) -> bool
    requires { i < section_count table.now }
    ensures { result ≡ is_compressed table.now i }
{
    let name = table.name(i);
    (is_debug_name(name) && table.section(i).flags & COMPRESSED != 0) || is_zdebug_name(name)
}

// Whether a section has the relocations of a debug section.
fn is_debug_relocation(table: &SectionTable, i: u32) -> bool
    requires { i < section_count table.now }
    ensures { result ≡ is_debug_relocation table.now i }
{
    let section = table.section(i);
    (section.kind == 4 || section.kind == 9)
        && section.info < table.count()
        && is_debug_name(table.name(section.info))
}

// Whether a section that is to be written can't move, or holds the names.
fn is_misplaced(table: &SectionTable, i: u32) -> bool
    requires { i < section_count table.now }
    ensures { result ≡ is_misplaced table.now i }
{
    is_written(table.name(i)) && (!table.is_movable(i) || i == table.names_index())
}

// Whether a section is an index that goes with debug sections, or a debug section that isn't known.
fn is_companion(table: &SectionTable, i: u32) -> bool
    requires { i < section_count table.now }
    ensures { result ≡ is_companion table.now i }
{
    let name = table.name(i);
    name == b".gdb_index".as_slice() || (is_debug_name(name) && !is_listed(name))
}

// Whether a section with a debug name has too many bytes.
fn is_too_long(table: &SectionTable, reach: Reach, i: u32) -> bool
    requires { i < section_count table.now }
    ensures { result ≡ is_too_long table.now reach i }
{
    is_debug_name(table.name(i)) && debug_limit(reach) < table.section(i).body.len
}

// Whether a movable section has too large an alignment.
fn is_overaligned(table: &SectionTable, i: u32) -> bool
    requires { i < section_count table.now }
    ensures { result ≡ is_overaligned table.now i }
{
    table.is_movable(i) && table.section(i).align > 4096
}

// What a section shows by itself, but for a name that isn't known.
fn fault_of(table: &SectionTable, reach: Reach, i: u32) -> Option<Kind>
    requires { i < section_count table.now }
    ensures { MatchOption result (IsSectionSound table.now reach i) (λ kind. HasSection table.now i → ImageFault table.now reach kind (offset_of table.now i)) }
{
    if is_overlapping(table, i) {
        return Some(Kind::Overlap);
    }
    if is_compressed(table, i) {
        return Some(Kind::Compressed);
    }
    if is_debug_relocation(table, i) {
        return Some(Kind::Relocated);
    }
    if is_misplaced(table, i) {
        return Some(Kind::Placed);
    }
    if is_too_long(table, reach, i) {
        return Some(Kind::Limit);
    }
    if is_overaligned(table, i) {
        return Some(Kind::Limit);
    }
    None
}

// Each section by itself.
fn check_each(table: &SectionTable, reach: Reach) -> Result<(), Fault>
    ensures fault { IfErr result (λ f. HasFault table.now reach f) }
    ensures sound { OnOk result ((i : ℕ) → i < section_count table.now → IsSectionSound table.now reach i) }
{
    for i in 0..table.count() {
        if let Some(kind) = fault_of(table, reach, i) {
            return Err(Fault {
                kind,
                place: table.offset(i),
            });
        }
    }
    Ok(())
}

// The table of the segments, where there is one, and the field e_shoff.
fn check_segments_apart(table: &SectionTable) -> Result<(), Fault>
    ensures fault { IfErr result (λ f. HasFaultAnyway table.now f) }
    ensures apart { OnOk result (¬ DoSegmentsOverlap table.now) }
{
    let segments = table.segment_table();
    if segments.len != 0 && holds_e_shoff(segments.at, segments.at + segments.len) {
        return Err(Fault {
            kind: Kind::Overlap,
            place: segments.at,
        });
    }
    Ok(())
}

// The bytes of all movable sections together.
fn check_movable_bytes(table: &SectionTable, reach: Reach) -> Result<(), Fault>
    ensures fault { IfErr result (λ f. HasFault table.now reach f) }
    ensures within { OnOk result (movable_bytes table.now (section_count table.now) ≤ movable_limit reach) }
{
    let most = movable_limit(reach);
    let mut total = 0;
    for i in 0..table.count() {
        if table.is_movable(i) {
            let len = table.section(i).body.len;
            if len > most - total {
                return Err(Fault {
                    kind: Kind::Limit,
                    place: table.offset(i),
                });
            }
            total += len;
        }
    }
    Ok(())
}

// Debug sections of one name, where the numbers of the texts of names are known. Names are compared by their lengths first, then by their
// numbers, and only then by their bytes.
fn check_names(alloc: Global, table: &SectionTable, sums: &TextSums<'_>) -> Result<(), Refusal>
    requires sums { sums.now.0 ≡ names_of table.now }
    ensures fault { IfErr result (IsRefusedFor (HasFaultAnyway table.now)) }
    ensures distinct { OnOk result (HasDistinctNames table.now) }
{
    let mut names = BTreeSet::new(alloc);
    for i in 0..table.count() {
        let name = table.name(i);
        if is_debug_name(name)
            && !names.insert((name.len(), sums.sum_at(table.name_place(i)), name))?
        {
            return Err(Refusal::Refused(Fault {
                kind: Kind::TwoSections,
                place: table.offset(i),
            }));
        }
    }
    Ok(())
}

// Debug sections of one name.
fn check_distinct(alloc: Global, table: &SectionTable) -> Result<(), Refusal>
    ensures fault { IfErr result (IsRefusedFor (HasFaultAnyway table.now)) }
    ensures distinct { OnOk result (HasDistinctNames table.now) }
{
    let sums = TextSums::read(alloc, table.names())?;
    check_names(alloc, table, &sums)
}

// What the sections show but for their names.
fn check_bodies(table: &SectionTable, reach: Reach) -> Result<(), Fault>
    ensures fault { IfErr result (λ f. HasFault table.now reach f) }
    ensures apart { OnOk result (¬ DoSegmentsOverlap table.now) }
    ensures sections { OnOk result ((i : ℕ) → i < section_count table.now → IsSectionSound table.now reach i) }
    ensures movable { OnOk result (movable_bytes table.now (section_count table.now) ≤ movable_limit reach) }
{
    check_segments_apart(table)?;
    check_each(table, reach)?;
    check_movable_bytes(table, reach)
}

/// Whether the sections may stand as they do: the faults of the first pass that they show, by themselves and beside one
/// another. NoMemory comes where memory is wanting.
pub fn check_arranged(alloc: Global, table: &SectionTable, reach: Reach) -> Result<(), Refusal>
    ensures fault { IfErr result (IsRefusedFor (HasFault table.now reach)) }
    ensures arranged { OnOk result (IsArranged table.now reach) }
{
    check_bodies(table, reach)?;
    check_distinct(alloc, table)
}

/// Whether each section is known, or goes with no debug section: the faults of the second pass.
pub fn check_known(table: &SectionTable) -> Result<(), Fault>
    ensures fault { IfErr result (λ f. IsElf64 table.now → NameFault table.now f.kind f.place) }
    ensures known { OnOk result (HasKnownSections table.now) }
{
    for i in 0..table.count() {
        if is_companion(table, i) {
            return Err(Fault {
                kind: Kind::Companion,
                place: table.offset(i),
            });
        }
    }
    Ok(())
}
