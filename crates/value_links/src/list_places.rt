// Places at which lists begin, and what tells them (DWARF 5 sections 7.28 and 7.29).
ghost use Rattle.std.specs.Prelude.{◌≡◌, ◌≤◌, ◌<◌, ◌+◌, ◌*◌, ◌^◌, ℕ, List, length, IfSome, MatchOption};
ghost use Rattle.fixed_width.specs.Numbers.{number_at};
ghost use Rattle.list_model.specs.Contributions.{part_header_size, offset_size, offsets_at, offset_place, ContributionsTile};
ghost use Rattle.value_links.specs.Reading.{part_at};
ghost use Rattle.value_links.specs.ListPlaces.{IsListPlace, IsOffsetsAt, IsSlot};
ghost use Rattle.value_links.specs.Parts.{section_held};
ghost use Rattle.value_links.specs.inside.ListPlaces.{AreContributions, IsLastPart};

use fixed_width::u32_at;
use list_model::Contribution;

/// A section of lists: its body, and the contributions that fill it.
#[derive(Drop)]
pub struct Contributions<'a> {
    pub section: &'a [u8],
    pub parts: Vec<Contribution>,
}

// The bytes of a contribution's header.
const HEADER_SIZE: u64 = 12;

// The bytes of an offset.
const OFFSET_SIZE: u64 = 4;

// How many bytes a contribution has before its lists: its header and its offsets.
fn bytes_before_lists(part: &Contribution) -> u64
    ensures { result ≡ part_header_size + offset_size * part.now.slots }
{
    HEADER_SIZE + OFFSET_SIZE * u64::from(part.slots)
}

// Where the offsets of a contribution begin.
fn offsets_of(part: &Contribution) -> u64
    requires { offsets_at part.now.at < 2 ^ 64 }
    ensures { result ≡ offsets_at part.now.at }
{
    part.at + HEADER_SIZE
}

// Where the slot with a number stands, counted from 0.
pub(crate) fn slot_place(part: &Contribution, slot: u32) -> u64
    requires { offset_place part.now.at slot < 2 ^ 64 }
    ensures { result ≡ offset_place part.now.at slot }
{
    offsets_of(part) + OFFSET_SIZE * u64::from(slot)
}

// The place that a slot of a contribution to a section tells.
fn told_in(section: &[u8], part: &Contribution, slot: u32) -> u64
    requires { offset_place part.now.at slot + offset_size ≤ length section.now }
    ensures { result ≡ offsets_at part.now.at + number_at 4 (offset_place part.now.at slot) section.now }
{
    let number = u32_at(section, slot_place(part, slot) as usize);
    offsets_of(part) + u64::from(number)
}

// The place that a slot of a contribution tells.
pub(crate) fn told_by(contributions: &Contributions<'_>, part: u32, slot: u32) -> u64
    requires tiled { AreContributions contributions.now }
    requires part { part < length contributions.now.parts.items }
    requires slot { slot < (part_at (section_held contributions.now) part).slots }
    ensures { IsSlot (section_held contributions.now) part slot result }
{
    told_in(
        contributions.section,
        &contributions.parts[part as usize],
        slot,
    )
}

// The number of the last contribution that begins at a place or before it.
fn last_part(parts: &[Contribution], place: u64) -> Option<usize>
    ensures bound { IfSome result (λ p. p < length parts.now) }
    ensures last { (section : List ℕ) → ContributionsTile section parts.now → IsLastPart parts.now place result }
{
    parts
        .partition_point(|part| part.at <= place)
        .checked_sub(1)
}

// The number of the contribution in which a list can begin at a place: the last one that begins there or before, where the place is
// past its offsets and not past its end.
pub(crate) fn holder_of(contributions: &Contributions<'_>, place: u64) -> Option<u32>
    requires tiled { AreContributions contributions.now }
    ensures { MatchOption result ((p : ℕ) → ¬ IsListPlace (section_held contributions.now) p place) (λ p. IsListPlace (section_held contributions.now) p place) }
{
    let number = last_part(&contributions.parts, place)?;
    let part = &contributions.parts[number];
    let within = place - part.at;
    if bytes_before_lists(part) <= within && within < part.len {
        Some(number as u32)
    } else {
        None
    }
}

// The number of the contribution whose offsets begin at a place.
pub(crate) fn part_with_offsets(contributions: &Contributions<'_>, place: u64) -> Option<u32>
    requires tiled { AreContributions contributions.now }
    ensures { MatchOption result ((p : ℕ) → ¬ IsOffsetsAt (section_held contributions.now) place p) (IsOffsetsAt (section_held contributions.now) place) }
{
    let at = place.checked_sub(HEADER_SIZE)?;
    match contributions
        .parts
        .binary_search_by_key(&at, |part| part.at)
    {
        Ok(number) => Some(number as u32),
        Err(_) => None,
    }
}
