// What is kept of a file: its loaded bytes, and its sections but for those that are written anew.
ghost use Rattle.std.specs.Prelude.{◌≡◌, ◌≢◌, ◌<◌, ◌+◌, ◌↔◌, ℕ, List, length, map, slice_get, IsTrue, MatchOption};
ghost use Rattle.dw_base.specs.declared.fault.Reach.TheVariants.{Wide};
ghost use Rattle.elf_sections.specs.Elf.{section_count, size_of, body_span};
ghost use Rattle.elf_sections.specs.Faults.{IsRead};
ghost use Rattle.companions.specs.Aranges.{SetsTile};
ghost use Rattle.value_links.specs.Debug.{set_meaning};
ghost use Rattle.same_meaning.specs.Kept.{HasByte, DiffersOutside, HasOtherField, HasOtherPlace, HasOtherBody, HasOtherAranges, SectionDiffers, KeptDiffers};
ghost use Rattle.same_meaning.specs.inside.Compared.{IsSomeWorld, IsFirstFound};
ghost use Rattle.same_meaning.specs.inside.Parts.{HasOtherParts, DifferOutsideFields};

use companions::ArangeSet;
use elf_sections::{Image, is_written};
use fixed_width::u64_at;
use value_links::World;

// The place of e_shoff in the header of the file.
const SECTIONS_AT: usize = 40;

// The place behind e_shoff.
const BEHIND_SECTIONS_AT: usize = 48;

// The place of sh_offset in the header of a section.
const PLACE_AT: usize = 24;

// The place of sh_size, which follows it.
const SIZE_AT: usize = 32;

// The place behind both.
const BEHIND_PLACE: usize = 40;

// The place of debug_info_offset in a set of address ranges.
const UNIT_AT: usize = 6;

// How many bytes debug_info_offset has.
const UNIT_SIZE: usize = 4;

// Whether the body of a section has a byte of the file.
fn has_byte(image: &Image<'_>, section: u32, place: u64) -> bool
    requires { section < section_count image.now }
    ensures { IsTrue result ↔ HasByte image.now section place }
{
    let body = image.section(section).body;
    body.at <= place && place - body.at < body.len
}

// A section that has a byte of the file.
fn section_with(image: &Image<'_>, place: u64) -> Option<u32>
    ensures { MatchOption result ((i : ℕ) → i < section_count image.now → ¬ HasByte image.now i place) (λ i. (i < section_count image.now) × HasByte image.now i place) }
{
    for section in 0..image.count() {
        if has_byte(image, section, place) {
            return Some(section);
        }
    }
    None
}

// The place behind the body of a section.
fn body_end(image: &Image<'_>, section: u32) -> u64
    requires read { IsRead image.now Wide }
    requires inside { section < section_count image.now }
    ensures { result ≡ (body_span image.now section).at + (body_span image.now section).len }
{
    let body = image.section(section).body;
    body.at + body.len
}

// Whether a byte of the old file is another one in the new file, or past its end.
fn is_other_byte(before: &[u8], after: &[u8], place: usize) -> bool
    requires { place < length before.now }
    ensures { IsTrue result ↔ (slice_get after.now place ≢ slice_get before.now place) }
{
    place >= after.len() || after[place] != before[place]
}

// Whether a loaded byte that no section has is another one in the new file, or past its end. Where a section has a byte that differs, the
// rest of its bytes are passed over, so that sections aren't searched for each of them.
fn differs_outside(old: &Image<'_>, new: &Image<'_>) -> bool
    ensures { IsTrue result ↔ DiffersOutside old.now new.now }
{
    let (before, after) = (old.whole(), new.whole());
    let end = old.fixed_end() as usize;
    let mut place = 0;
    while place < end {
        let is_kept = place < SECTIONS_AT || place >= BEHIND_SECTIONS_AT;
        if is_kept && is_other_byte(before, after, place) {
            match section_with(old, place as u64) {
                Some(section) => place = body_end(old, section) as usize,
                None => return true,
            }
        } else {
            place += 1;
        }
    }
    false
}

// Whether a byte of a section's header differs that isn't of its offset or its size.
fn has_other_field(old: &Image<'_>, new: &Image<'_>, section: u32) -> bool
    requires old { section < section_count old.now }
    requires new { section < section_count new.now }
    ensures { IsTrue result ↔ HasOtherField old.now new.now section }
{
    let (before, after) = (old.header(section), new.header(section));
    before[..PLACE_AT] != after[..PLACE_AT] || before[BEHIND_PLACE..] != after[BEHIND_PLACE..]
}

// sh_size of a section, also of one without bytes.
fn size_of(image: &Image<'_>, section: u32) -> u64
    requires { section < section_count image.now }
    ensures { result ≡ size_of image.now section }
{
    u64_at(image.header(section), SIZE_AT)
}

// Whether a section that isn't movable has another offset or another size.
fn has_other_place(old: &Image<'_>, new: &Image<'_>, section: u32) -> bool
    requires old { section < section_count old.now }
    requires new { section < section_count new.now }
    ensures { IsTrue result ↔ HasOtherPlace old.now new.now section }
{
    !old.is_movable(section)
        && (old.offset(section) != new.offset(section)
            || size_of(old, section) != size_of(new, section))
}

// Whether the body of a section that isn't written anew differs.
fn has_other_body(old: &Image<'_>, new: &Image<'_>, section: u32) -> bool
    requires old { section < section_count old.now }
    requires new { section < section_count new.now }
    ensures { IsTrue result ↔ HasOtherBody old.now new.now section }
{
    !is_written(old.name(section)) && old.body(section) != new.body(section)
}

// Whether the name of a section differs, its header or its body, as far as they are kept.
fn has_other_parts(old: &Image<'_>, new: &Image<'_>, section: u32) -> bool
    requires old { section < section_count old.now }
    requires new { section < section_count new.now }
    ensures { IsTrue result ↔ HasOtherParts old.now new.now section }
{
    if old.name(section) != new.name(section) {
        return true;
    }
    if has_other_field(old, new, section) {
        return true;
    }
    has_other_place(old, new, section) || has_other_body(old, new, section)
}

// Whether two lists of sets of address ranges have other units.
fn have_other_units(before: &[ArangeSet], after: &[ArangeSet]) -> bool
    ensures { IsTrue result ↔ (map set_meaning after.now ≢ map set_meaning before.now) }
{
    if before.len() != after.len() {
        return true;
    }
    for i in 0..before.len() {
        if before[i].unit != after[i].unit {
            return true;
        }
    }
    false
}

// Whether two bodies of .debug_aranges differ outside the places of units, where these are the sets of the first.
fn differ_outside_fields(before: &[u8], after: &[u8], sets: &[ArangeSet]) -> bool
    requires { (starts : List ℕ) × SetsTile before.now starts sets.now }
    ensures { IsTrue result ↔ DifferOutsideFields before.now after.now sets.now }
{
    if before.len() != after.len() {
        return true;
    }
    let mut from = 0;
    for set in sets {
        let field = set.at as usize + UNIT_AT;
        if before[from..field] != after[from..field] {
            return true;
        }
        from = field + UNIT_SIZE;
    }
    before[from..] != after[from..]
}

// Whether .debug_aranges differs, where the section with a number is that.
fn has_other_aranges(before: &World<'_>, after: &World<'_>, section: u32) -> bool
    requires before { IsSomeWorld before.now }
    requires after { IsSomeWorld after.now }
    requires old { section < section_count before.now.image }
    requires new { section < section_count after.now.image }
    ensures { IsTrue result ↔ HasOtherAranges before.now.image after.now.image section }
{
    let (old, new) = (before.image(), after.image());
    if old.name(section) != b".debug_aranges".as_slice() {
        return false;
    }
    let sets = before.aranges();
    differ_outside_fields(old.body(section), new.body(section), sets)
        || have_other_units(sets, after.aranges())
}

// Whether what is kept of a section differs.
fn section_differs(before: &World<'_>, after: &World<'_>, section: u32) -> bool
    requires before { IsSomeWorld before.now }
    requires after { IsSomeWorld after.now }
    requires old { section < section_count before.now.image }
    requires new { section < section_count after.now.image }
    ensures { IsTrue result ↔ SectionDiffers before.now.image after.now.image section }
{
    has_other_parts(before.image(), after.image(), section)
        || has_other_aranges(before, after, section)
}

// The first section by which what is kept differs.
fn first_section(before: &World<'_>, after: &World<'_>) -> Option<u32>
    requires before { IsSomeWorld before.now }
    requires after { IsSomeWorld after.now }
    requires count { section_count after.now.image ≡ section_count before.now.image }
    ensures { IsFirstFound (λ i. (i < section_count before.now.image) × SectionDiffers before.now.image after.now.image i) result }
{
    for section in 0..before.image().count() {
        if section_differs(before, after, section) {
            return Some(section);
        }
    }
    None
}

/// The first number of a section by which what is kept differs.
pub(crate) fn first_kept(before: &World<'_>, after: &World<'_>) -> Option<u32>
    requires before { IsSomeWorld before.now }
    requires after { IsSomeWorld after.now }
    ensures { IsFirstFound (KeptDiffers before.now.image after.now.image) result }
{
    let (old, new) = (before.image(), after.image());
    if old.count() != new.count() || differs_outside(old, new) {
        return Some(0);
    }
    first_section(before, after)
}
