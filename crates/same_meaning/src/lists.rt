// Range lists and location lists (DWARF 5 sections 2.6.2 and 2.17.3).
ghost use Rattle.std.specs.Prelude.{◌≡◌, ◌≤◌, ◌↔◌, length, IsTrue, IfOk};
ghost use Rattle.std.specs.List.{Contains};
ghost use Rattle.list_model.specs.declared.entry.ListKind.{ListKind as AnyKind};
ghost use Rattle.list_model.specs.declared.entry.ListKind.TheVariants.{Locations};
ghost use Rattle.value_links.specs.Sections.{debug_lists};
ghost use Rattle.value_links.specs.Lists.{owner_unit};
ghost use Rattle.value_links.specs.Resolved.{Content, MeansList};
ghost use Rattle.value_links.specs.World.{lists_held};
ghost use Rattle.same_meaning.specs.inside.Compared.{IsSomeWorld, OfBoth, MeanOne, HasListAt, held_expressions, MeanSameExpressions};
ghost use Rattle.same_meaning.specs.inside.Lists.{IsSameEntry, AreSameEntries, CoversSame, CoverSame, IsNextItem, HasContent};

use crate::expressions::{ReadAgain, mean_same_bytes};
use dw_base::NoMemory;
use list_arena::ListRead;
use list_model::{Item, ListKind, Meaning, RawEntry};
use loc_lists::{bytes_of, is_item};
use std::alloc::Global;
use value_links::World;

// The list of a kind that begins at a place and that something names.
fn list_at(alloc: Global, world: &World<'_>, kind: ListKind, at: u64) -> Result<ListRead, NoMemory>
    requires world { IsSomeWorld world.now }
    requires named { HasListAt world.now kind at }
    ensures list { IfOk result (λ list. Contains (lists_held world.now kind) list) }
    ensures at { IfOk result (λ list. list.at ≡ at) }
{
    let lists = world.lists(kind);
    match lists.find(at) {
        Some(number) => lists.list(alloc, number),
        // A list begins there.
        None => unreachable!(),
    }
}

// Whether two entries are the same, but for their places and expressions.
fn is_same_entry(old: &RawEntry, new: &RawEntry) -> bool
    ensures { IsTrue result ↔ IsSameEntry old.now new.now }
{
    old.code == new.code && old.a == new.a && old.b == new.b
}

// Whether the entries of two lists are the same, one by one.
fn have_same_entries(before: &[RawEntry], after: &[RawEntry]) -> bool
    ensures { IsTrue result ↔ AreSameEntries before.now after.now }
{
    if before.len() != after.len() {
        return false;
    }
    for (old, new) in before.iter().zip(after) {
        if !is_same_entry(old, new) {
            return false;
        }
    }
    true
}

// Whether two items cover the same addresses.
fn covers_same(old: &Item, new: &Item) -> bool
    ensures { IsTrue result ↔ CoversSame old.now new.now }
{
    old.whole == new.whole && old.start == new.start && old.end == new.end
}

// Whether items cover the same addresses, one by one.
fn have_same_bounds(before: &[Item], after: &[Item]) -> bool
    ensures { IsTrue result ↔ CoverSame before.now after.now }
{
    if before.len() != after.len() {
        return false;
    }
    for (old, new) in before.iter().zip(after) {
        if !covers_same(old, new) {
            return false;
        }
    }
    true
}

// Whether two lists have the same items in the contexts of their owners or, where they are frozen, the same entries.
fn have_same_content(before: &ListRead, after: &ListRead) -> bool
    ensures { (kind : AnyKind) (content other : Content) → HasContent kind before.now content → HasContent kind after.now other → IsTrue result ↔ (other ≡ content) }
{
    match (before.meaning(), after.meaning()) {
        (Meaning::Live(old), Meaning::Live(new)) => {
            have_same_bounds(old.as_slice(), new.as_slice())
        }
        (Meaning::Dead, Meaning::Dead) => have_same_entries(before.entries(), after.entries()),
        _ => false,
    }
}

// The number of the first entry that is an item, from one on, or the count of entries.
fn next_item(raw: &[RawEntry], from: usize) -> usize
    requires { from ≤ length raw.now }
    ensures { IsNextItem raw.now from result }
{
    let mut i = from;
    while i < raw.len() && !is_item(&raw[i]) {
        i += 1;
    }
    i
}

// The section of location lists.
fn location_section<'a>(world: &'a World<'_>) -> &'a [u8]
    ensures { result.now ≡ debug_lists world.now.image Locations }
{
    world.section(b".debug_loclists".as_slice())
}

// Whether the expressions of two location lists mean the same.
fn have_same_expressions(
    alloc: Global,
    before: &World<'_>,
    after: &World<'_>,
    old: &ListRead,
    new: &ListRead,
) -> Result<bool, NoMemory>
    requires before { IsSomeWorld before.now }
    requires after { IsSomeWorld after.now }
    requires first { Contains (lists_held before.now Locations) old.now }
    requires second { Contains (lists_held after.now Locations) new.now }
    ensures { IfOk result (λ same. OfBoth before.now after.now (λ r s. IsTrue same ↔ MeanSameExpressions r.links (owner_unit r.links old.now.owner) (held_expressions r.links.locations.section old.now) s.links (owner_unit s.links new.now.owner) (held_expressions s.links.locations.section new.now))) }
{
    let first = location_section(before);
    let second = location_section(after);
    let (old_entries, new_entries) = (old.entries(), new.entries());
    let mut memory = ReadAgain::new(alloc);
    let (mut i, mut j) = (next_item(old_entries, 0), next_item(new_entries, 0));
    while i < old_entries.len() && j < new_entries.len() {
        let a = bytes_of(first, old_entries[i].expr);
        let b = bytes_of(second, new_entries[j].expr);
        if !mean_same_bytes(
            alloc,
            before,
            old.owner(),
            a,
            after,
            new.owner(),
            b,
            &mut memory,
        )? {
            return Ok(false);
        }
        i = next_item(old_entries, i + 1);
        j = next_item(new_entries, j + 1);
    }
    Ok(i == old_entries.len() && j == new_entries.len())
}

/// Whether the lists of a kind that begin at two places mean the same.
pub(crate) fn mean_same_list(
    alloc: Global,
    before: &World<'_>,
    after: &World<'_>,
    kind: ListKind,
    first: u64,
    second: u64,
) -> Result<bool, NoMemory>
    requires before { IsSomeWorld before.now }
    requires after { IsSomeWorld after.now }
    requires first { HasListAt before.now kind first }
    requires second { HasListAt after.now kind second }
    ensures { IfOk result (λ same. OfBoth before.now after.now (λ r s. IsTrue same ↔ MeanOne (MeansList r kind first) (MeansList s kind second))) }
{
    let old = list_at(alloc, before, kind, first)?;
    let new = list_at(alloc, after, kind, second)?;
    if !have_same_content(&old, &new) {
        return Ok(false);
    }
    match kind {
        ListKind::Ranges => Ok(true),
        ListKind::Locations => have_same_expressions(alloc, before, after, &old, &new),
    }
}
