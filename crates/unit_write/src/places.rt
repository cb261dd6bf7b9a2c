// Where the entries of a unit stand when it is written anew.
ghost use Rattle.std.specs.Prelude.{◌≡◌, ◌≤◌, ◌<◌, ◌+◌, ◌^◌, ℕ, List, length, map, slice_index, IfOk, OnOk};
ghost use Rattle.std.specs.List.{All};
ghost use Rattle.leb_codec.specs.Leb.{least_unsigned_len};
ghost use Rattle.form_codec.specs.Values.{IsValueIn};
ghost use Rattle.abbrev_tables.specs.Listings.{Listing};
ghost use Rattle.entry_arena.specs.Arena.{entry_at};
ghost use Rattle.entry_read.specs.Units.{HeadAndForest};
ghost use Rattle.fixed_width.specs.InitialLengths.{least_reserved};
ghost use Rattle.unit_write.specs.Lens.{AreLensFor};
ghost use Rattle.unit_write.specs.Values.{HaveSize};
ghost use Rattle.unit_write.specs.Placing.{EntrySize, values_in};
ghost use Rattle.unit_write.specs.Most.{most_bytes};
ghost use Rattle.unit_write.specs.inside.Most.{HaveRoom, HasRoom};
ghost use Rattle.unit_write.specs.Moved.{IsWritable, IsPlacedAt};
ghost use Rattle.unit_write.specs.inside.Readings.{AreStanding, HasItem, PutsItem};

use crate::items::{Items, Next};
use crate::laws::bytes_are_small;
use crate::parts::{new_columns, part, read_row};
use crate::values::written_size;
use abbrev_tables::{Spec, Table};
use dw_base::NoMemory;
use entry_arena::Forest;
use entry_read::{Unit, header_size};
use form_codec::Value;
use leb_codec::len_u;
use std::alloc::Global;

/// Where a unit, its entries and the codes 0 that end chains stand: those of `lay_out` are counted from the unit's first byte, with `start` 0, and
/// those of `place_unit` from the section's.
#[derive(Drop)]
pub struct Places {
    /// The first byte of the unit.
    pub start: u64,
    /// The entries, by their numbers.
    pub entries: Vec<u32>,
    /// The codes 0 that end chains, in their order.
    pub ends: Vec<u32>,
    /// The place after the unit's last byte.
    pub end: u64,
}

impl Places {
    /// The places of the same unit where it begins at `start`: these are counted from its first byte, and `start` is added to each. It has to end
    /// below 0xffff_fff0, as a section of the 32-bit format does (DWARF 5 section 7.4).
    pub fn moved_to(self, start: u64) -> Places
        requires placed { (unit : HeadAndForest) × (table : Listing) × (columns : List Spec) × (numbers : List ℕ) × (lens : List ℕ) × IsPlacedAt unit table columns numbers lens 0 self.entries.items self.ends.items self.end }
        requires room { start + self.end < least_reserved }
        ensures start { result.start ≡ start }
        ensures end { result.end ≡ start + self.end }
        ensures entries { result.entries.items ≡ map (λ (place : ℕ). place + start) self.entries.items }
        ensures ends { result.ends.items ≡ map (λ (place : ℕ). place + start) self.ends.items }
        ensures placed { (unit : HeadAndForest) (table : Listing) (columns : List Spec) (numbers lens : List ℕ) → IsPlacedAt unit table columns numbers lens 0 self.entries.items self.ends.items self.end → IsPlacedAt unit table columns numbers lens start result.entries.items result.ends.items result.end }
    {
        let Places {
            mut entries,
            mut ends,
            end,
            ..
        } = self;
        // Each stands before the end, so that 32 bits hold it.
        let shift = start as u32;
        for id in 0..entries.len() {
            entries[id] += shift;
        }
        for number in 0..ends.len() {
            ends[number] += shift;
        }
        Places {
            start,
            entries,
            ends,
            end: start + end,
        }
    }
}

// Contracts see new codes, and how many bytes values take, as lists of numbers. Each is below 2^32.
pub(crate) fn numbers_are_small(numbers: &Vec<u32>)
    ensures { All (λ number. number < 2 ^ 32) numbers.now.items }
{
    let _numbers = numbers;
}

// The place after the values of columns, which are written from a place on (DWARF 5 section 7.5.2). Both count from the
// section's first byte. `lens` has the bytes of each value that is an expression, with its length, or a reference within the unit.
fn after_values(columns: &[Spec], values: &[Value], lens: &[u32], at: u64) -> u64
    requires { HaveRoom columns.now values.now lens.now at }
    ensures { (section : List ℕ) (size : ℕ) → length section < 2 ^ 63 → All (IsValueIn section) values.now → HaveSize section columns.now values.now lens.now size → result ≡ at + size }
{
    let mut to = at;
    for ((column, value), len) in columns.iter().zip(values).zip(lens) {
        to += written_size(*column, value, *len);
    }
    to
}

// How many bytes the new code of a declaration has.
fn code_size(numbers: &Vec<u32>, number: u32) -> u64
    requires { number < length numbers.now.items }
    ensures { result ≡ least_unsigned_len (slice_index numbers.now.items number) }
{
    u64::from(len_u(u64::from(numbers[number as usize])))
}

// The place after an entry, which is written at a place. Its values are read into `row`.
fn after_entry(
    forest: &Forest<'_>,
    decls: &Table,
    specs: &Vec<Spec>,
    numbers: &Vec<u32>,
    lens: &Vec<u32>,
    row: &mut Vec<Value>,
    id: u32,
    at: u64,
) -> Result<u64, NoMemory>
    requires id { id < length forest.now.entries }
    requires declared { (entry_at forest.now.entries id).decl < length decls.now.decls }
    requires numbered { length numbers.now.items ≡ length decls.now.decls }
    requires stands { AreStanding forest.now.section (values_in forest.now id) }
    requires room { (size : ℕ) × EntrySize decls.now specs.now.items numbers.now.items forest.now lens.now.items id size × (at + size < least_reserved) }
    ensures { IfOk result (λ to. (size : ℕ) → EntrySize decls.now specs.now.items numbers.now.items forest.now lens.now.items id size → to ≡ at + size) }
{
    bytes_are_small(forest.section());
    let entry = forest.entry(id);
    let values_at = at + code_size(numbers, entry.decl);
    let columns = new_columns(decls, specs, entry.decl);
    read_row(forest, id, row)?;
    let own = part(lens, entry.first, entry.count);
    Ok(after_values(columns, row, own, values_at))
}

// Puts what stands next behind all that has its place.
fn place_next(
    places: &mut Places,
    unit: &Unit<'_>,
    decls: &Table,
    specs: &Vec<Spec>,
    numbers: &Vec<u32>,
    lens: &Vec<u32>,
    row: &mut Vec<Value>,
    next: Next,
) -> Result<(), NoMemory>
    requires fits { places.old.end < least_reserved }
    requires writable { IsWritable unit.now decls.now specs.now.items numbers.now.items lens.now.items }
    requires item { HasItem unit.now.forest next }
    requires room { HasRoom (EntrySize decls.now specs.now.items numbers.now.items unit.now.forest lens.now.items) next places.old.end }
    ensures start { places.new.start ≡ places.old.start }
    ensures put { OnOk result (PutsItem (EntrySize decls.now specs.now.items numbers.now.items unit.now.forest lens.now.items) next places.old places.new) }
{
    let place = places.end as u32;
    match next {
        Next::Entry(id) => {
            places.entries.push(place)?;
            places.end = after_entry(
                unit.forest(),
                decls,
                specs,
                numbers,
                lens,
                row,
                id,
                places.end,
            )?;
        }
        Next::End => {
            places.ends.push(place)?;
            places.end += 1;
        }
    }
    Ok(())
}

/// Where the entries of a unit and its codes 0 stand when the unit is written anew from `start` on (DWARF 5 section 7.5),
/// counted from the first byte of the section, with the unit's table `decls`, a new column in place of each of the table's,
/// and the new code of each declaration, which is 0 where no entry has it.
///
/// `lens` has for each value how many bytes it takes where it is an expression, with its length, or a reference within the unit, as
/// `lay_out` says; for another value any number.
///
/// Every other LEB128 number has its fewest bytes. A code takes at most 4 bytes more than the old one, an expression three times its
/// old bytes and 10 for its length, and another value at most 10 more than the old bytes: the caller shows that even so the unit would
/// end below 0xffff_fff0, as a section of the 32-bit format does (DWARF 5 section 7.4). The only error is want of memory.
pub fn place_unit(
    alloc: Global,
    unit: &Unit<'_>,
    decls: &Table,
    specs: &Vec<Spec>,
    numbers: &Vec<u32>,
    lens: &Vec<u32>,
    start: u64,
) -> Result<Places, NoMemory>
    requires writable { IsWritable unit.now decls.now specs.now.items numbers.now.items lens.now.items }
    requires lens { AreLensFor unit.now.forest lens.now.items }
    requires room { start + most_bytes unit.now < least_reserved }
    ensures start { IfOk result (λ places. places.start ≡ start) }
    ensures placed { IfOk result (λ places. IsPlacedAt unit.now decls.now specs.now.items numbers.now.items lens.now.items start places.entries.items places.ends.items places.end) }
    ensures most { IfOk result (λ places. places.end ≤ start + most_bytes unit.now) }
    ensures fits { IfOk result (λ places. places.end < least_reserved) }
{
    numbers_are_small(numbers);
    let mut places = Places {
        start,
        entries: Vec::new(alloc),
        ends: Vec::new(alloc),
        end: start + header_size(unit.head().kind) as u64,
    };
    let mut items = Items::new();
    let mut row = Vec::new(alloc);
    while let Some(next) = items.next(unit.forest()) {
        place_next(
            &mut places,
            unit,
            decls,
            specs,
            numbers,
            lens,
            &mut row,
            next,
        )?;
    }
    // The places of all units are held at once.
    places.entries.shrink_to_fit();
    places.ends.shrink_to_fit();
    Ok(places)
}
