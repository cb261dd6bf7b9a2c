// What a contribution has before its lists: a header, and offsets.
ghost use Rattle.std.specs.Prelude.{◌≡◌, ◌≤◌, ◌<◌, ◌+◌, ◌*◌, ◌^◌, ◌++◌, ℕ, length, OnOk};
ghost use Rattle.list_model.specs.Contributions.{offsets_at, lists_at};
ghost use Rattle.list_write.specs.Written.{moved_at};
ghost use Rattle.list_write.specs.inside.Puts.{header_bytes, told_at, IsMovedFrom, OldRise, AreSlotsPut};

use crate::image::Moved;
use dw_base::NoMemory;
use fixed_width::u32_at;
use form_codec::{Width, put_low};
use list_model::Contribution;

/// The bytes of a contribution's header.
pub(crate) const HEADER_SIZE: usize = 12;

/// The bytes of an offset.
pub(crate) const OFFSET_SIZE: usize = 4;

const LENGTH_SIZE: u64 = 4;

const VERSION: u64 = 5;

const ADDRESS_SIZE: u64 = 8;

const SEGMENT_SELECTOR_SIZE: u64 = 0;

/// Appends the header of a contribution.
pub(crate) fn put_header(out: &mut Vec<u8>, part: &Contribution) -> Result<(), NoMemory>
    requires { 4 ≤ part.now.len }
    ensures { OnOk result (out.new.items ≡ out.old.items ++ header_bytes part.now) }
{
    put_low(out, Width::Four, part.len - LENGTH_SIZE)?;
    put_low(out, Width::Two, VERSION)?;
    put_low(out, Width::One, ADDRESS_SIZE)?;
    put_low(out, Width::One, SEGMENT_SELECTOR_SIZE)?;
    put_low(out, Width::Four, u64::from(part.slots))
}

// The list that the offset at a place of the section tells. It counts from the first offset of its contribution.
fn told_list(section: &[u8], offsets: usize, place: usize, lists: &Vec<Moved>) -> Moved
    requires inside { place + 4 ≤ length section.now }
    requires before { offsets ≤ place }
    requires rise { OldRise lists.now.items }
    requires told { (k : ℕ) × (k < length lists.now.items) × ((moved_at lists.now.items k).old ≡ told_at section.now offsets place) }
    ensures { IsMovedFrom lists.now.items (told_at section.now offsets place) result }
{
    let old = offsets as u64 + u64::from(u32_at(section, place));
    match lists.binary_search_by_key(&old, |list| list.old) {
        Ok(number) => lists[number],
        Err(_) => unreachable!(),
    }
}

/// Appends the offsets of a contribution, each of which tells the new place of the list that it told. `at` is the new place of the
/// contribution, and `lists` has the lists of the whole section.
pub(crate) fn put_slots(
    out: &mut Vec<u8>,
    section: &[u8],
    part: &Contribution,
    at: u64,
    lists: &Vec<Moved>,
) -> Result<(), NoMemory>
    requires inside { lists_at part.now ≤ length section.now }
    requires rise { OldRise lists.now.items }
    requires told { (slot : ℕ) → slot < part.now.slots → (k : ℕ) × (k < length lists.now.items) × ((moved_at lists.now.items k).old ≡ told_at section.now (offsets_at part.now.at) (offsets_at part.now.at + 4 * slot)) }
    requires behind { (k : ℕ) → k < length lists.now.items → offsets_at part.now.at ≤ (moved_at lists.now.items k).old → offsets_at at ≤ (moved_at lists.now.items k).new }
    requires room { at < 2 ^ 32 }
    ensures { OnOk result (AreSlotsPut section.now (offsets_at part.now.at) (offsets_at at) lists.now.items part.now.slots out.old.items out.new.items) }
{
    let offsets = part.at as usize + HEADER_SIZE;
    let new_offsets = at + HEADER_SIZE as u64;
    for slot in 0..part.slots as usize {
        let list = told_list(section, offsets, offsets + OFFSET_SIZE * slot, lists);
        put_low(out, Width::Four, list.new - new_offsets)?;
    }
    Ok(())
}
