// How many bytes lists and runs of view pairs have as they stand.
ghost use Rattle.std.specs.Prelude.{◌≡◌, ◌≤◌, ◌<◌, ◌+◌, ◌^◌, ℕ, length, take, slice_index_or};
ghost use Rattle.dw_base.specs.declared.fault.Reach.{Reach};
ghost use Rattle.list_arena.specs.Held.{HeldList};
ghost use Rattle.list_model.specs.Contributions.{part_end};
ghost use Rattle.value_links.specs.Reading.{of_kind, lists_of, list_at, view_at};
ghost use Rattle.value_links.specs.Sections.{debug_lists};
ghost use Rattle.value_links.specs.World.{IsWorldOf, lists_held, contributions_held, contribution_at};
ghost use Rattle.tidy_lists.specs.Followers.{HasLength, RunHasLength};
ghost use Rattle.tidy_lists.specs.inside.Compared.{OfBoth};
ghost use Rattle.tidy_lists.specs.inside.Lengths.{IsBareUpTo, IsEntryUpTo, IsListUpTo, AreNumbersUpTo};

use leb_codec::read_u;
use list_arena::Lists;
use list_model::{ListKind, RawEntry, entries_end, read_entry};
use loc_lists::is_item;
use value_links::World;

// The place behind the code and the operands of an entry of a list. `bytes` goes from the first byte of the section to the end of the
// contribution.
fn operands_end(kind: ListKind, bytes: &[u8], raw: &RawEntry) -> u64
    requires small { length bytes.now < 2 ^ 63 }
    requires entry { (end : ℕ) × IsBareUpTo kind bytes.now raw.now end }
    ensures { (end : ℕ) → IsBareUpTo kind bytes.now raw.now end → result ≡ end }
{
    // An entry ends by itself.
    entries_end();
    match read_entry(kind, bytes, raw.at as usize, 0) {
        Ok(Some(read)) => read.end as u64,
        // What was read is an entry.
        Ok(None) => unreachable!(),
        Err(_) => unreachable!(),
    }
}

// The place behind an entry of a list, with its expression.
fn entry_end(kind: ListKind, bytes: &[u8], raw: &RawEntry) -> u64
    requires small { length bytes.now < 2 ^ 63 }
    requires entry { (end : ℕ) × IsEntryUpTo kind bytes.now raw.now end }
    ensures { (end : ℕ) → IsEntryUpTo kind bytes.now raw.now end → result ≡ end }
{
    match kind {
        ListKind::Ranges => operands_end(kind, bytes, raw),
        ListKind::Locations => {
            if is_item(raw) {
                raw.expr.at + raw.expr.len
            } else {
                operands_end(kind, bytes, raw)
            }
        }
    }
}

// The place behind so many numbers in ULEB128 from a place on.
fn numbers_end(bytes: &[u8], at: usize, count: usize) -> usize
    requires numbers { (end : ℕ) × AreNumbersUpTo bytes.now at count end }
    ensures { (end : ℕ) → AreNumbersUpTo bytes.now at count end → result ≡ end }
{
    let mut place = at;
    for _ in 0..count {
        match read_u(bytes, place) {
            Ok(number) => place = number.end,
            // What was read are numbers.
            Err(_) => unreachable!(),
        }
    }
    place
}

// The place behind the list of a kind with a number, with its end. `bytes` goes from the first byte of the section to the end of the
// contribution.
fn list_end(kind: ListKind, bytes: &[u8], lists: &Lists, number: usize) -> u64
    requires small { length bytes.now < 2 ^ 63 }
    requires inside { number < length lists.now }
    requires list { (d : HeldList) → (end : ℕ) × IsListUpTo kind bytes.now (slice_index_or lists.now number d).at (slice_index_or lists.now number d).raw end }
    ensures { (d : HeldList) (end : ℕ) → IsListUpTo kind bytes.now (slice_index_or lists.now number d).at (slice_index_or lists.now number d).raw end → result ≡ end }
{
    let count = lists.entry_count(number);
    // The end of a list has one byte.
    if count == 0 {
        return lists.at(number) + 1;
    }
    entry_end(kind, bytes, &lists.entry(number, count - 1)) + 1
}

// The bytes of the section of lists of a kind from its first one to the end of the contribution with a number.
fn bytes_to<'a>(world: &'a World<'_>, kind: ListKind, part: u32) -> &'a [u8]
    requires world { (reach : Reach) × IsWorldOf world.now.image reach world.now }
    requires inside { part < length (contributions_held world.now kind) }
    ensures bytes { result.now ≡ take (part_end (contribution_at world.now kind part)) (debug_lists world.now.image kind) }
    ensures small { length result.now < 2 ^ 63 }
{
    let part = world.contributions(kind)[part as usize];
    &world.lists_section(kind)[..(part.at + part.len) as usize]
}

/// The bytes of the list of a kind with a number.
pub(crate) fn list_len(world: &World<'_>, kind: ListKind, number: u32) -> u64
    requires world { (reach : Reach) × IsWorldOf world.now.image reach world.now }
    requires inside { number < length (lists_held world.now kind) }
    ensures len { OfBoth world.now world.now (λ r s. HasLength kind s (list_at (lists_of s kind) number) result) }
    ensures within { OfBoth world.now world.now (λ r s. (list_at (lists_of s kind) number).at + result ≤ length (of_kind s.links kind).section) }
{
    let lists = world.lists(kind);
    let number = number as usize;
    let bytes = bytes_to(world, kind, lists.part(number));
    list_end(kind, bytes, lists, number) - lists.at(number)
}

/// The bytes of the run of view pairs with a number.
pub(crate) fn run_len(world: &World<'_>, number: u32) -> u64
    requires world { (reach : Reach) × IsWorldOf world.now.image reach world.now }
    requires inside { number < length world.now.views }
    ensures len { OfBoth world.now world.now (λ r s. RunHasLength s (view_at s.views number) result) }
    ensures within { OfBoth world.now world.now (λ r s. (view_at s.views number).at + result ≤ length s.links.locations.section) }
{
    let views = world.views();
    let number = number as usize;
    let section = world.lists_section(ListKind::Locations);
    let at = views.at(number) as usize;
    (numbers_end(section, at, 2 * views.pair_count(number)) - at) as u64
}
