// Lists whose entries the classes keep. The list with a number in the written file is compared with the one that has its number in the old
// file, since lists of a kind stay in their order. It keeps the entries where it has as many, with the same codes and the same operands,
// whose bytes may be others. References in its expressions go to what has moved, so that these aren't compared here.
ghost use Rattle.std.specs.Prelude.{◌≡◌, ◌<◌, ◌↔◌, IsTrue, List, length, slice_index_or, false};
ghost use Rattle.dw_base.specs.declared.fault.Reach.{Reach};
ghost use Rattle.list_model.specs.Entries.{Entry, AreSaid};
ghost use Rattle.list_arena.specs.Held.{HeldList};
ghost use Rattle.value_links.specs.World.{IsWorldOf};
ghost use Rattle.tidy_places.specs.Firsts.{IsLeastFound};
ghost use Rattle.tidy_files.specs.Tidy.{SayTheSame, IsChangedOf, IsChangedList};

use dw_base::Classes;
use list_arena::Lists;
use list_model::ListKind;
use tidy_numbers::earlier;
use value_links::World;

// Whether the lists of a kind with a number have the same entries in both files.
fn say_the_same(kind: ListKind, old: &Lists, new: &Lists, number: usize) -> bool
    requires before { number < length old.now }
    requires after { number < length new.now }
    requires said { (d : HeldList) → (entries : List Entry) × AreSaid kind (slice_index_or old.now number d).raw entries }
    ensures { (d : HeldList) → IsTrue result ↔ SayTheSame kind (slice_index_or old.now number d).raw (slice_index_or new.now number d).raw }
{
    let count = old.entry_count(number);
    let others = new.entry_count(number);
    if count != others {
        return false;
    }
    for index in 0..count {
        let one = old.entry(number, index);
        let other = new.entry(number, index);
        if one.code != other.code || one.a != other.a || one.b != other.b {
            return false;
        }
    }
    true
}

// The first list of a kind that has other entries than the one with its number in the old file, as an offset in the written file.
fn first_changed_of(before: &World<'_>, after: &World<'_>, kind: ListKind) -> Option<u64>
    requires before { (reach : Reach) × IsWorldOf before.now.image reach before.now }
    requires after { (reach : Reach) × IsWorldOf after.now.image reach after.now }
    ensures { IsLeastFound (IsChangedOf before.now.image after.now.image kind) result }
{
    let old = before.lists(kind);
    let new = after.lists(kind);
    for number in 0..old.len().min(new.len()) {
        if !say_the_same(kind, old, new, number) {
            return Some(after.lists_offset(kind, new.at(number)));
        }
    }
    None
}

/// Where the classes keep the entries of lists, the first list that has others than the one with its number in the old file, as an offset
/// in the written file (DWARF 5 sections 2.6.2 and 2.17.3): more or fewer, other kinds, or other operands. It takes no memory.
pub(crate) fn first_changed_list(
    classes: Classes,
    before: &World<'_>,
    after: &World<'_>,
) -> Option<u64>
    requires before { (reach : Reach) × IsWorldOf before.now.image reach before.now }
    requires after { (reach : Reach) × IsWorldOf after.now.image reach after.now }
    ensures { IsLeastFound (λ p. (classes.lists ≡ false) × IsChangedList before.now.image after.now.image p) result }
{
    if classes.lists {
        return None;
    }
    let ranges = first_changed_of(before, after, ListKind::Ranges);
    let locations = first_changed_of(before, after, ListKind::Locations);
    earlier(ranges, locations)
}
