// Forests, as they are held.
ghost use Rattle.std.specs.Prelude.{◌≡◌, ◌≢◌, ◌≤◌, ◌<◌, ◌+◌, ◌^◌, ℕ, length, slice_range, None, Some, IsTrue, IfOk, IfErr, OnOk, MatchOption, ◌↔◌};
ghost use Rattle.form_codec.specs.Values.{bytes_in};
ghost use Rattle.entry_arena.specs.declared.entry.Target.TheVariants.{Entry as TheEntry, ChainEnd as TheEnd};
ghost use Rattle.entry_arena.specs.Arena.{nothing_of, with_entry, with_value, with_values, with_end, entry_at, value_at, chain_end_at, IsEntryAt, HasChainEnd, IsChainEndAt};
ghost use Rattle.entry_arena.specs.Order.{IsInOrder, IsNextEntry, IsNextValue, IsNextEnd, LendAlike};

use crate::entry::{ChainEnd, Entry, Target};
use crate::values::Values;
use dw_base::{NoMemory, Span};
use form_codec::Value;
use std::alloc::Global;
use std::marker::Model;

// No more things of a kind are held than 32 bits count.
const MOST: usize = 0xffff_ffff;

/// The entries of a unit in preorder, with their values and the codes 0 that end chains of siblings (DWARF 5 sections
/// 2.3 and 7.5.2). Contracts see it as these lists and the bytes of the section, which it borrows. Places and spans count
/// from the first byte of the section, and numbers of things that are held from 0.
#[derive(Drop)]
pub struct Forest<'a> {
    section: &'a [u8],
    entries: Vec<Entry>,
    values: Values,
    ends: Vec<ChainEnd>,
    // For each 64 bytes of the section, from the first entry on, the number of the first entry that begins in them or behind. It is
    // where a search begins, and nothing is promised of it.
    blocks: Vec<u32>,
}

impl<'a> Model for Forest<'a> {
    ghost use Rattle.entry_arena.specs.Arena.{Arena};
    ghost use Rattle.entry_arena.specs.Order.{IsHeld};

    ghost Value = { Arena };

    ghost view = { λ f. record { section = f.section.now; entries = f.entries.items; values = f.values; ends = f.ends.items } };

    ghost invariant = { λ f. IsHeld (record { section = f.section.now; entries = f.entries.items; values = f.values; ends = f.ends.items }) };
}

// How many bytes a block has, in which a search for an entry begins.
const BLOCK: u64 = 64;

// Whether the entries before one number begin before a place, and those from another number on behind it.
fn is_between(entries: &[Entry], from: usize, to: usize, place: u64) -> bool
    requires rising { (i j : ℕ) → i < j → j < length entries.now → (entry_at entries.now i).at < (entry_at entries.now j).at }
    ensures order { IsTrue result → (from ≤ to) × (to ≤ length entries.now) }
    ensures before { IsTrue result → (i : ℕ) → i < from → (entry_at entries.now i).at < place }
    ensures behind { IsTrue result → (i : ℕ) → to ≤ i → i < length entries.now → place < (entry_at entries.now i).at }
{
    from <= to
        && to <= entries.len()
        && (from == 0 || u64::from(entries[from - 1].at) < place)
        && (to == entries.len() || place < u64::from(entries[to].at))
}

// The number of the entry that begins at a place, among those from one number up to another.
fn entry_among(entries: &[Entry], from: usize, to: usize, place: u64) -> Option<u32>
    requires few { length entries.now < 2 ^ 32 }
    requires rising { (i j : ℕ) → i < j → j < length entries.now → (entry_at entries.now i).at < (entry_at entries.now j).at }
    requires order { (from ≤ to) × (to ≤ length entries.now) }
    ensures { MatchOption result ((i : ℕ) → from ≤ i → i < to → (entry_at entries.now i).at ≢ place) (λ i. (i < length entries.now) × ((entry_at entries.now i).at ≡ place)) }
{
    match entries[from..to].binary_search_by_key(&place, |entry| u64::from(entry.at)) {
        Ok(number) => Some((from + number) as u32),
        Err(_) => None,
    }
}

// The number of the entry that begins at a place. It is looked for from one number up to another, or, where it can't be among these, among
// all.
fn entry_from(entries: &[Entry], from: usize, to: usize, place: u64) -> Option<u32>
    requires few { length entries.now < 2 ^ 32 }
    requires rising { (i j : ℕ) → i < j → j < length entries.now → (entry_at entries.now i).at < (entry_at entries.now j).at }
    ensures { MatchOption result ((i : ℕ) → i < length entries.now → (entry_at entries.now i).at ≢ place) (λ i. (i < length entries.now) × ((entry_at entries.now i).at ≡ place)) }
{
    if is_between(entries, from, to, place) {
        entry_among(entries, from, to, place)
    } else {
        entry_among(entries, 0, entries.len(), place)
    }
}

// The number of the block of a place, where the first entry begins at another.
fn block_of(first: u32, place: u64) -> usize
    ensures { result < 2 ^ 58 }
{
    (place.saturating_sub(u64::from(first)) / BLOCK) as usize
}

// Gives blocks an entry's number until there are so many.
fn fill(blocks: &mut Vec<u32>, count: usize, id: u32) -> Result<(), NoMemory> {
    for _ in blocks.len()..count {
        blocks.push(id)?;
    }
    Ok(())
}

// The number of the entry whose children a code 0 at a place ends.
fn parent_of(ends: &[ChainEnd], place: u64) -> Option<u32>
    requires rising { (i j : ℕ) → i < j → j < length ends.now → (chain_end_at ends.now i).at < (chain_end_at ends.now j).at }
    ensures { MatchOption result ((i : ℕ) → i < length ends.now → (chain_end_at ends.now i).at ≢ place) (λ id. HasChainEnd ends.now id place) }
{
    match ends.binary_search_by_key(&place, |end| u64::from(end.at)) {
        Ok(number) => Some(ends[number].entry),
        Err(_) => None,
    }
}

// These values, as they are held.
fn held(alloc: Global, values: &[Value]) -> Result<Values, NoMemory>
    ensures { IfOk result (λ held. held ≡ values.now) }
{
    let mut held = Values::new(alloc);
    for value in values {
        held.push(value)?;
    }
    held.shrink_to_fit();
    Ok(held)
}

impl<'a> Forest<'a> {
    /// A forest without entries, of a section that it borrows.
    pub fn new(alloc: Global, section: &'a [u8]) -> Forest<'a>
        ensures { result ≡ nothing_of section.entry.now }
    {
        Forest {
            section,
            entries: Vec::new(alloc),
            values: Values::new(alloc),
            ends: Vec::new(alloc),
            blocks: Vec::new(alloc),
        }
    }

    /// Appends the next entry in preorder, and answers its number. Its bytes, at least one, lie in the section and after
    /// all entries and chain ends that were pushed. Its depth is at most one above that of the last entry, and the first
    /// entry has depth 0. Its `count` values from `first` on were pushed before it, and follow those of the last entry.
    /// The only error is want of memory, which also answers an entry past the first 2^32 - 1; it changes nothing.
    pub fn push_entry(&mut self, e: Entry) -> Result<u32, NoMemory>
        requires { IsNextEntry self.old e }
        ensures pushed { IfOk result (λ id. (id ≡ length self.old.entries) × (self.new ≡ with_entry self.old e)) }
        ensures unchanged { IfErr result (λ _. self.new ≡ self.old) }
    {
        if self.entries.len() >= MOST {
            return Err(NoMemory);
        }
        let id = self.entries.len() as u32;
        self.reach_block(e.at, id)?;
        self.entries.push(e)?;
        Ok(id)
    }

    // Notes that an entry that is pushed next, with this number, is the first one that begins at a place or behind it, from the first
    // block on of which that isn't known.
    fn reach_block(&mut self, at: u32, id: u32) -> Result<(), NoMemory>
        ensures { self.new ≡ self.old }
    {
        let first = match self.entries.first() {
            Some(entry) => entry.at,
            None => at,
        };
        fill(&mut self.blocks, block_of(first, u64::from(at)) + 1, id)
    }

    /// Appends the next value of the entry that is pushed next, and answers its number. The bytes that it lends lie in the
    /// section, and after those of all values that were pushed. The only error is want of memory, which also answers a
    /// value past the first 2^32 - 1; it changes nothing.
    pub fn push_value(&mut self, v: Value) -> Result<u32, NoMemory>
        requires { IsNextValue self.old v }
        ensures pushed { IfOk result (λ id. (id ≡ length self.old.values) × (self.new ≡ with_value self.old v)) }
        ensures unchanged { IfErr result (λ _. self.new ≡ self.old) }
    {
        if self.values.len() >= MOST {
            return Err(NoMemory);
        }
        let id = self.values.len() as u32;
        self.values.push(&v)?;
        Ok(id)
    }

    /// Appends the place of the code 0 that ends the children of the entry with number `id`, which was pushed. The place
    /// is one of the section, after all entries and chain ends that were pushed. The only error is want of memory, which
    /// also answers a chain end past the first 2^32 - 1; it changes nothing.
    pub fn push_chain_end(&mut self, id: u32, at: u32) -> Result<(), NoMemory>
        requires { IsNextEnd self.old id at }
        ensures pushed { IfOk result (λ _. self.new ≡ with_end self.old (record { entry = id; at = at })) }
        ensures unchanged { IfErr result (λ _. self.new ≡ self.old) }
    {
        if self.ends.len() >= MOST {
            return Err(NoMemory);
        }
        self.ends.push(ChainEnd { entry: id, at })?;
        Ok(())
    }

    /// Gives the memory back that is held for entries, values and chain ends that weren't pushed. It changes nothing of
    /// what is held, and more may be pushed later. There is no error: where a smaller block can't be had, the larger stays.
    pub fn shrink_to_fit(&mut self)
        ensures { self.new ≡ self.old }
    {
        self.entries.shrink_to_fit();
        self.values.shrink_to_fit();
        self.ends.shrink_to_fit();
        self.blocks.shrink_to_fit();
    }

    /// The same entries and chain ends with other values in place of the forest's own, one for each, which lend the same bytes of
    /// the section. The only error is want of memory, as `push_value` says.
    pub fn with_values(&self, alloc: Global, values: &[Value]) -> Result<Forest<'a>, NoMemory>
        requires { LendAlike self.now.values values.now }
        ensures { IfOk result (λ forest. forest ≡ with_values self.now values.now) }
    {
        let values = held(alloc, values)?;
        let mut entries = Vec::with_capacity(alloc, self.entries.len())?;
        entries.extend_from_slice(&self.entries)?;
        let mut ends = Vec::with_capacity(alloc, self.ends.len())?;
        ends.extend_from_slice(&self.ends)?;
        let mut blocks = Vec::with_capacity(alloc, self.blocks.len())?;
        blocks.extend_from_slice(&self.blocks)?;
        Ok(Forest {
            section: self.section,
            entries,
            values,
            ends,
            blocks,
        })
    }

    /// How many entries there are.
    pub fn len(&self) -> u32
        ensures { result ≡ length self.now.entries }
    {
        self.entries.len() as u32
    }

    /// Whether there are no entries.
    pub fn is_empty(&self) -> bool
        ensures { IsTrue result ↔ (length self.now.entries ≡ 0) }
    {
        self.entries.is_empty()
    }

    /// How many values the entries have.
    pub fn value_count(&self) -> u32
        ensures { result ≡ length self.now.values }
    {
        self.values.len() as u32
    }

    /// The entry with a number, counted from 0 in preorder.
    pub fn entry(&self, id: u32) -> Entry
        requires { id < length self.now.entries }
        ensures { result ≡ entry_at self.now.entries id }
    {
        self.entries[id as usize]
    }

    /// The value with a number, counted from 0 over all entries in preorder.
    pub fn value(&self, id: u32) -> Value
        requires { id < length self.now.values }
        ensures { result ≡ value_at self.now.values id }
    {
        self.values.value(id as usize)
    }

    // Writes the values from the number `first` on over what a row holds, which takes less time than appending them.
    fn write_over(&self, first: usize, row: &mut Vec<Value>)
        requires { first + length row.old.items ≤ length self.now.values }
        ensures { row.new.items ≡ slice_range self.now.values first (first + length row.old.items) }
    {
        for place in 0..row.len() {
            row[place] = self.values.value(first + place);
        }
    }

    /// Reads values, `count` from the number `first` on, into `row`, in place of what it holds. The only error is want of memory.
    pub fn read_values(&self, first: u32, count: u32, row: &mut Vec<Value>) -> Result<(), NoMemory>
        requires { first + count ≤ length self.now.values }
        ensures values { OnOk result (row.new.items ≡ slice_range self.now.values first (first + count)) }
        ensures order { IsInOrder self.now }
    {
        let first = first as usize;
        let end = first + count as usize;
        row.truncate(count as usize);
        self.write_over(first, row);
        for number in first + row.len()..end {
            row.push(self.values.value(number))?;
        }
        Ok(())
    }

    /// The bytes of a span of the section.
    pub fn bytes(&self, span: Span) -> &[u8]
        requires { span.at + span.len ≤ length self.now.section }
        ensures { result.now ≡ bytes_in self.now.section span }
    {
        &self.section[span.at as usize..(span.at + span.len) as usize]
    }

    /// The section that the forest borrows.
    pub fn section(&self) -> &'a [u8]
        ensures { result.now ≡ self.now.section }
    {
        self.section
    }

    /// The entries in preorder.
    pub fn entries(&self) -> &[Entry]
        ensures entries { result.now ≡ self.now.entries }
        ensures order { IsInOrder self.now }
    {
        &self.entries
    }

    /// The codes 0 that end chains of siblings, in the order of their places.
    pub fn chain_ends(&self) -> &[ChainEnd]
        ensures ends { result.now ≡ self.now.ends }
        ensures order { IsInOrder self.now }
    {
        &self.ends
    }

    /// The values of all entries, in the order of their numbers.
    pub fn values(&self) -> &Values
        ensures values { result.now ≡ self.now.values }
        ensures order { IsInOrder self.now }
    {
        &self.values
    }

    // From which number on and up to which an entry is looked for that begins at a place.
    fn near(&self, offset: u64) -> (usize, usize) {
        let first = match self.entries.first() {
            Some(entry) => entry.at,
            None => return (0, 0),
        };
        let block = block_of(first, offset);
        let from = match self.blocks.get(block) {
            Some(id) => *id as usize,
            None => return (0, self.entries.len()),
        };
        match self.blocks.get(block + 1) {
            Some(id) => (from, *id as usize),
            None => (from, self.entries.len()),
        }
    }

    /// What begins at `offset`, counted from the first byte of the section: an entry or a chain end exactly where that
    /// has this place, and None exactly where neither has.
    pub fn target_at(&self, offset: u64) -> Option<Target>
        ensures entry { (id : ℕ) → (result ≡ Some (TheEntry id)) ↔ IsEntryAt self.now id offset }
        ensures chain_end { (id : ℕ) → (result ≡ Some (TheEnd id)) ↔ IsChainEndAt self.now id offset }
        ensures none { (result ≡ None) ↔ ((id : ℕ) → (IsEntryAt self.now id offset → ⊥) × (IsChainEndAt self.now id offset → ⊥)) }
    {
        let (from, to) = self.near(offset);
        if let Some(id) = entry_from(&self.entries, from, to, offset) {
            return Some(Target::Entry(id));
        }
        let parent = parent_of(&self.ends, offset)?;
        Some(Target::ChainEnd(parent))
    }
}
