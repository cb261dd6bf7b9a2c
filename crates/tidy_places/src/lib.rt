//! Whether the parts of a file that was written anew for another stand where they are to stand, and else the first place that is amiss.
#![tactic(auto)]

ghost use Rattle.std.specs.Prelude.{◌≡◌, ◌≢◌, ◌≤◌, ◌<◌, ◌^◌, ◌⊎◌, ℕ, length, IfOk, IsNone, Some};
ghost use Rattle.elf_sections.specs.Elf.{section_count, sections_at, header_at, body_of, fixed_end_of};
ghost use Rattle.elf_place.specs.Layout.{IsLaidOut};
ghost use Rattle.elf_place.specs.Same.{KeepsLoaded, KeepsHeaders};
ghost use Rattle.tidy_places.specs.Firsts.{IsLeastPlace, IsLeastFound, IsFirstFoundIn};
ghost use Rattle.tidy_places.specs.Misplaced.{IsMisplaced, order_of};
ghost use Rattle.tidy_places.specs.inside.Chains.{AreDue, due_at, IsOff, IsFilledBetween, IsFilledAmong, StandDue};

mod due;
mod laws;

use crate::due::{Due, due_sections};
use dw_base::NoMemory;
use elf_place::next_multiple;
use elf_sections::Image;
use fixed_width::u64_at;
pub use laws::laid_out_files;
use std::alloc::Global;

// The place of e_shoff in the header of the file.
const SECTIONS_AT: usize = 40;

// How many bytes the header of a section has.
const HEADER_SIZE: u64 = 64;

// What section headers are aligned to.
const HEADERS_ALIGN: u64 = 8;

// The lesser of a place, if there is one, and of another.
fn lesser(first: Option<u64>, place: u64) -> u64
    ensures { IsLeastPlace (λ p. (first ≡ Some p) ⊎ (p ≡ place)) result }
{
    match first {
        Some(earlier) => earlier.min(place),
        None => place,
    }
}

// The first section, by its offset, that stands elsewhere than where it is due.
fn first_off(after: &Image<'_>, sections: &[Due]) -> Option<u64>
    requires { (k : ℕ) → k < length sections.now → (due_at sections.now k).section < section_count after.now }
    ensures { IsLeastFound (IsOff after.now sections.now) result }
{
    let mut first = None;
    for due in sections {
        let at = after.offset(due.section);
        if at != due.at {
            first = Some(lesser(first, at));
        }
    }
    first
}

// The first byte other than 0 from a place up to another.
fn first_filled(file: &[u8], from: usize, to: usize) -> Option<u64>
    requires { (from ≤ to) × (to ≤ length file.now) }
    ensures { IsLeastFound (IsFilledBetween file.now from to) result }
{
    for place in from..to {
        if file[place] != 0 {
            return Some(place as u64);
        }
    }
    None
}

// The first byte other than 0 before one of these sections and behind the one before it.
fn first_filled_among(file: &[u8], sections: &[Due], from: u64) -> Option<u64>
    requires small { length file.now ≤ 2 ^ 35 }
    requires due { (end : ℕ) × AreDue file.now from sections.now end × (end ≤ length file.now) }
    ensures { IsLeastFound (IsFilledAmong file.now from sections.now) result }
{
    let mut start = from;
    for due in sections {
        if let Some(place) = first_filled(file, start as usize, due.at as usize) {
            return Some(place);
        }
        start = due.at + due.len;
    }
    None
}

// The first byte from a place on, if there is one.
fn first_behind(file: &[u8], end: u64) -> Option<u64>
    ensures { IsLeastFound (λ p. (end ≤ p) × (p < length file.now)) result }
{
    if end < file.len() as u64 {
        Some(end)
    } else {
        None
    }
}

// The first byte other than 0 between the sections, which stand where they are due and end at a place, and between them and the section
// headers, or else the first byte behind these.
fn first_stray(before: &Image<'_>, after: &Image<'_>, sections: &[Due], end: u64) -> Option<u64>
    requires headers { KeepsHeaders before.now after.now }
    requires some { section_count after.now ≢ 0 }
    requires due { AreDue after.now (fixed_end_of before.now) sections.now end }
    requires stand { StandDue after.now sections.now }
    requires behind { end ≤ sections_at after.now }
    ensures { IsLeastFound (λ p. IsFilledAmong after.now (fixed_end_of before.now) sections.now p ⊎ (IsFilledBetween after.now end (sections_at after.now) p ⊎ ((header_at after.now (section_count after.now) ≤ p) × (p < length after.now)))) result }
{
    let file = after.whole();
    if let Some(place) = first_filled_among(file, sections, before.fixed_end()) {
        return Some(place);
    }
    let headers = u64_at(file, SECTIONS_AT);
    if let Some(place) = first_filled(file, end as usize, headers as usize) {
        return Some(place);
    }
    first_behind(file, headers + HEADER_SIZE * u64::from(after.count()))
}

/// The first place of a written file that is amiss, as an offset in it, or None where there is none. `before` is the image of the file for
/// which it was written.
///
/// First a movable section that stands elsewhere than behind the fixed end, in the order in which the sections stood, at the next multiple
/// of its alignment, which is said of its offset; then section headers that stand elsewhere than at the next multiple of 8 behind these
/// (System V ABI, ELF-64); then a byte other than 0 between them, or a byte behind the section headers; and of one of these three the least
/// place. Where there is none the file is laid out as a writer lays it out. The only error is want of memory.
pub fn first_misplaced(
    alloc: Global,
    before: &Image<'_>,
    after: &Image<'_>,
) -> Result<Option<u64>, NoMemory>
    requires loaded { KeepsLoaded before.now after.now }
    requires headers { KeepsHeaders before.now after.now }
    ensures first { IfOk result (IsFirstFoundIn order_of (IsMisplaced before.now after.now)) }
    ensures laid_out { IfOk result (λ place. IsNone place → section_count before.now ≢ 0 → IsLaidOut before.now (body_of after.now) after.now) }
{
    let due = due_sections(alloc, before, after)?;
    if let Some(place) = first_off(after, &due.sections) {
        return Ok(Some(place));
    }
    // What was read is in order.
    let (_before, file) = (before.whole(), after.whole());
    if after.count() == 0 {
        return Ok(first_behind(file, before.fixed_end()));
    }
    let headers = u64_at(file, SECTIONS_AT);
    if headers != next_multiple(due.end, HEADERS_ALIGN) {
        return Ok(Some(headers));
    }
    Ok(first_stray(before, after, &due.sections, due.end))
}
