// All lists of a kind.
ghost use Rattle.std.specs.Prelude.{◌≡◌, ◌≤◌, ◌<◌, ◌++◌, ◌∷◌, [], length, take, slice_index_or, slice_range, IfOk, OnOk, OnErr, ◌↔◌, IsTrue};
ghost use Rattle.std.specs.List.{All};
ghost use Rattle.list_model.specs.declared.entry.RawEntry.{RawEntry as AnyEntry};
ghost use Rattle.list_model.specs.declared.item.Item.{Item as AnyItem};
ghost use Rattle.list_model.specs.declared.item.Meaning.TheVariants.{Dead};
ghost use Rattle.list_arena.specs.Held.{HeldList, items_of, AreListsApart, IsListFound};
ghost use Rattle.list_arena.specs.inside.Words.{GrowsTo};
ghost use Rattle.list_arena.specs.inside.Rows.{begin_of};
ghost use Rattle.list_arena.specs.inside.Lists.{entry_held, IsEntryRow, entries_held, item_held, IsItemRow, items_held, owner_held, meaning_held, IsMeant, IsRowOf, entry_ends, item_ends, lists_held, AreHeldWell, IsOneMore};

use crate::read::ListRead;
use crate::words::LongNumbers;
use dw_base::{NoMemory, Span};
use list_model::{Item, Items, Meaning, RawEntry};
use std::alloc::Global;
use std::marker::Model;

// An entry. Its fields are words.
#[derive(Clone, Copy)]
struct EntryRow {
    at: u32,
    a: u32,
    b: u32,
    expr_at: u32,
    expr_len: u32,
    code: u8,
}

// An item. Its fields are words.
#[derive(Clone, Copy)]
struct ItemRow {
    start: u32,
    end: u32,
    expr_at: u32,
    expr_len: u32,
    whole: bool,
}

// A list, whose entries and items stand behind those of the list before.
#[derive(Clone, Copy)]
struct ListRow {
    // A word.
    at: u32,
    part: u32,
    // The number of its owner, or `NO_OWNER`.
    owner: u32,
    // How many entries there are up to its end.
    entries: u32,
    // How many items.
    items: u32,
    frozen: bool,
}

const NO_OWNER: u32 = u32::MAX;

// All lists of a file are held at once.
const _: () = prove!(size_of::<EntryRow>() == 24);

const _: () = prove!(size_of::<ItemRow>() == 20);

const _: () = prove!(size_of::<ListRow>() == 24);

/// Lists of a kind, which are all held at once: a list takes 24 bytes, an entry of it 24 and an item 20, with 8 more for each number that
/// doesn't fit 31 bits. Contracts see them as a list.
#[derive(Drop)]
pub struct Lists {
    long: LongNumbers,
    rows: Vec<ListRow>,
    entries: Vec<EntryRow>,
    items: Vec<ItemRow>,
}

impl Model for Lists {
    ghost use Rattle.std.specs.Prelude.{List};
    ghost use Rattle.list_arena.specs.Held.{HeldList};
    ghost use Rattle.list_arena.specs.inside.Lists.{lists_held, AreHeldWell};

    ghost Value = { List HeldList };

    ghost view = { λ l. lists_held l.long l.rows.items l.entries.items l.items.items };

    ghost invariant = { λ l. AreHeldWell l.long l.rows.items l.entries.items l.items.items };
}

// The row of an entry.
fn entry_row(long: &mut LongNumbers, entry: &RawEntry) -> Result<EntryRow, NoMemory>
    ensures grown { GrowsTo long.old long.new }
    ensures row { IfOk result (λ row. IsEntryRow long.new row × (entry_held long.new row ≡ entry.now)) }
{
    Ok(EntryRow {
        at: long.word(entry.at)?,
        a: long.word(entry.a)?,
        b: long.word(entry.b)?,
        expr_at: long.word(entry.expr.at)?,
        expr_len: long.word(entry.expr.len)?,
        code: entry.code,
    })
}

// The entry of a row.
fn entry_of(long: &LongNumbers, row: &EntryRow) -> RawEntry
    requires { IsEntryRow long.now row.now }
    ensures { result ≡ entry_held long.now row.now }
{
    RawEntry {
        at: long.number(row.at),
        code: row.code,
        a: long.number(row.a),
        b: long.number(row.b),
        expr: Span {
            at: long.number(row.expr_at),
            len: long.number(row.expr_len),
        },
    }
}

// The row of an item.
fn item_row(long: &mut LongNumbers, item: &Item) -> Result<ItemRow, NoMemory>
    ensures grown { GrowsTo long.old long.new }
    ensures row { IfOk result (λ row. IsItemRow long.new row × (item_held long.new row ≡ item.now)) }
{
    Ok(ItemRow {
        start: long.word(item.start)?,
        end: long.word(item.end)?,
        expr_at: long.word(item.expr.at)?,
        expr_len: long.word(item.expr.len)?,
        whole: item.whole,
    })
}

// The item of a row.
fn item_of(long: &LongNumbers, row: &ItemRow) -> Item
    requires { IsItemRow long.now row.now }
    ensures { result ≡ item_held long.now row.now }
{
    Item {
        start: long.number(row.start),
        end: long.number(row.end),
        whole: row.whole,
        expr: Span {
            at: long.number(row.expr_at),
            len: long.number(row.expr_len),
        },
    }
}

// The number that stands for an owner.
fn owner_number(owner: Option<u32>) -> Result<u32, NoMemory>
    ensures { IfOk result (λ number. owner_held number ≡ owner) }
{
    match owner {
        None => Ok(NO_OWNER),
        Some(NO_OWNER) => Err(NoMemory),
        Some(unit) => Ok(unit),
    }
}

// The owner for which a number stands.
fn owner_of(number: u32) -> Option<u32>
    ensures { result ≡ owner_held number }
{
    if number == NO_OWNER {
        None
    } else {
        Some(number)
    }
}

// Appends the rows of entries. An Err leaves some of them behind the others.
fn push_entries(
    rows: &mut Vec<EntryRow>,
    long: &mut LongNumbers,
    entries: &[RawEntry],
) -> Result<(), NoMemory>
    requires { All (IsEntryRow long.old) rows.old.items }
    ensures grown { GrowsTo long.old long.new }
    ensures well { All (IsEntryRow long.new) rows.new.items }
    ensures kept { take (length rows.old.items) rows.new.items ≡ rows.old.items }
    ensures held { OnOk result (entries_held long.new rows.new.items ≡ entries_held long.old rows.old.items ++ entries.now) }
{
    for entry in entries {
        let row = entry_row(long, entry)?;
        rows.push(row)?;
    }
    Ok(())
}

// Appends the rows of items. An Err leaves some of them behind the others.
fn push_items(
    rows: &mut Vec<ItemRow>,
    long: &mut LongNumbers,
    items: &[Item],
) -> Result<(), NoMemory>
    requires { All (IsItemRow long.old) rows.old.items }
    ensures grown { GrowsTo long.old long.new }
    ensures well { All (IsItemRow long.new) rows.new.items }
    ensures kept { take (length rows.old.items) rows.new.items ≡ rows.old.items }
    ensures held { OnOk result (items_held long.new rows.new.items ≡ items_held long.old rows.old.items ++ items.now) }
{
    for item in items {
        let row = item_row(long, item)?;
        rows.push(row)?;
    }
    Ok(())
}

// The items of a meaning: none where it is Dead.
fn live_items(meaning: &Meaning) -> &[Item]
    ensures { IsMeant meaning.now result.now }
{
    match meaning {
        Meaning::Live(items) => items.as_slice(),
        Meaning::Dead => &[],
    }
}

// The row of a list whose entries and items are those up to these numbers.
fn list_row(
    long: &mut LongNumbers,
    list: &ListRead,
    entries: usize,
    items: usize,
) -> Result<ListRow, NoMemory>
    ensures grown { GrowsTo long.old long.new }
    ensures row { IfOk result (IsRowOf long.new list.now entries items) }
{
    let (Ok(entries), Ok(items)) = (u32::try_from(entries), u32::try_from(items)) else {
        return Err(NoMemory);
    };
    Ok(ListRow {
        at: long.word(list.at())?,
        part: list.part(),
        owner: owner_number(list.owner())?,
        entries,
        items,
        frozen: matches!(list.meaning(), Meaning::Dead),
    })
}

// Appends the rows of a list. An Err leaves some of those of its entries and items behind the others.
fn push_rows(
    long: &mut LongNumbers,
    rows: &mut Vec<ListRow>,
    entries: &mut Vec<EntryRow>,
    items: &mut Vec<ItemRow>,
    list: &ListRead,
) -> Result<(), NoMemory>
    requires { AreHeldWell long.old rows.old.items entries.old.items items.old.items }
    ensures grown { GrowsTo long.old long.new }
    ensures pushed { OnOk result (IsOneMore (lists_held long.old rows.old.items entries.old.items items.old.items) list.now long.new rows.new.items entries.new.items items.new.items) }
    ensures rows { OnErr result (rows.new.items ≡ rows.old.items) }
    ensures entries { OnErr result (take (length entries.old.items) entries.new.items ≡ entries.old.items) }
    ensures items { OnErr result (take (length items.old.items) items.new.items ≡ items.old.items) }
{
    push_entries(entries, long, list.entries())?;
    push_items(items, long, live_items(list.meaning()))?;
    let row = list_row(long, list, entries.len(), items.len())?;
    rows.push(row)?;
    Ok(())
}

// The number of the first entry of the list with a number, and that of its first item.
fn begin(rows: &[ListRow], number: usize) -> (usize, usize)
    requires { number < length rows.now }
    ensures entry { result.0 ≡ begin_of 0 (entry_ends rows.now) number }
    ensures item { result.1 ≡ begin_of 0 (item_ends rows.now) number }
{
    if number == 0 {
        return (0, 0);
    }
    let before = rows[number - 1];
    (before.entries as usize, before.items as usize)
}

// The entries of the rows from one on up to another.
fn read_entries(
    alloc: Global,
    long: &LongNumbers,
    rows: &[EntryRow],
    from: usize,
    to: usize,
) -> Result<Vec<RawEntry>, NoMemory>
    requires order { from ≤ to }
    requires inside { to ≤ length rows.now }
    requires well { All (IsEntryRow long.now) rows.now }
    ensures { IfOk result (λ entries. entries.items ≡ slice_range (entries_held long.now rows.now) from to) }
{
    let own = &rows[from..to];
    let mut entries = Vec::with_capacity(alloc, own.len())?;
    for row in own {
        entries.push(entry_of(long, row))?;
    }
    Ok(entries)
}

// The items of the rows from one on up to another.
fn read_items(
    alloc: Global,
    long: &LongNumbers,
    rows: &[ItemRow],
    from: usize,
    to: usize,
) -> Result<Vec<Item>, NoMemory>
    requires order { from ≤ to }
    requires inside { to ≤ length rows.now }
    requires well { All (IsItemRow long.now) rows.now }
    ensures { IfOk result (λ items. items.items ≡ slice_range (items_held long.now rows.now) from to) }
{
    let own = &rows[from..to];
    let mut items = Vec::with_capacity(alloc, own.len())?;
    for row in own {
        items.push(item_of(long, row))?;
    }
    Ok(items)
}

// What a list means that has the items of these rows, or is frozen.
fn read_meaning(
    alloc: Global,
    long: &LongNumbers,
    frozen: bool,
    rows: &[ItemRow],
    from: usize,
    to: usize,
) -> Result<Meaning, NoMemory>
    requires order { from ≤ to }
    requires inside { to ≤ length rows.now }
    requires well { All (IsItemRow long.now) rows.now }
    ensures { IfOk result (λ meaning. meaning ≡ meaning_held frozen (slice_range (items_held long.now rows.now) from to)) }
{
    if frozen {
        return Ok(Meaning::Dead);
    }
    Ok(Meaning::Live(Items::new(read_items(alloc, long, rows, from, to)?)))
}

impl Lists {
    /// No lists.
    pub fn new(alloc: Global) -> Lists
        ensures { result ≡ [] }
    {
        Lists {
            long: LongNumbers::new(alloc),
            rows: Vec::new(alloc),
            entries: Vec::new(alloc),
            items: Vec::new(alloc),
        }
    }

    /// How many lists there are.
    pub fn len(&self) -> usize
        ensures { result ≡ length self.now }
    {
        self.rows.len()
    }

    /// Whether there is none.
    pub fn is_empty(&self) -> bool
        ensures { IsTrue result ↔ (self.now ≡ []) }
    {
        self.rows.is_empty()
    }

    /// Appends a list. The only error is want of memory, which also answers an owner with the number 2^32 - 1 and counts of entries or
    /// items of 2^32 or more; it changes nothing.
    pub fn push(&mut self, list: &ListRead) -> Result<(), NoMemory>
        ensures pushed { OnOk result (self.new ≡ self.old ++ list.now ∷ []) }
        ensures unchanged { OnErr result (self.new ≡ self.old) }
    {
        let (entries, items) = (self.entries.len(), self.items.len());
        match push_rows(
            &mut self.long,
            &mut self.rows,
            &mut self.entries,
            &mut self.items,
            list,
        ) {
            Ok(()) => Ok(()),
            Err(error) => {
                self.entries.truncate(entries);
                self.items.truncate(items);
                Err(error)
            }
        }
    }

    /// The list with a number, counted from 0, with its entries and items in memory of its own. The only error is want of memory.
    pub fn list(&self, alloc: Global, number: usize) -> Result<ListRead, NoMemory>
        requires { number < length self.now }
        ensures { IfOk result (λ list. (d : HeldList) → list ≡ slice_index_or self.now number d) }
    {
        let row = self.rows[number];
        let (entry, item) = begin(&self.rows, number);
        let (entries, items) = (row.entries as usize, row.items as usize);
        Ok(ListRead::new(
            self.long.number(row.at),
            row.part,
            owner_of(row.owner),
            read_entries(alloc, &self.long, &self.entries, entry, entries)?,
            read_meaning(alloc, &self.long, row.frozen, &self.items, item, items)?,
        ))
    }

    /// Where the list with a number begins, counted from the first byte of the section. Numbers count from 0.
    pub fn at(&self, number: usize) -> u64
        requires { number < length self.now }
        ensures { (d : HeldList) → result ≡ (slice_index_or self.now number d).at }
    {
        self.long.number(self.rows[number].at)
    }

    /// The number of the contribution in which the list with a number begins. Both count from 0.
    pub fn part(&self, number: usize) -> u32
        requires { number < length self.now }
        ensures { (d : HeldList) → result ≡ (slice_index_or self.now number d).part }
    {
        self.rows[number].part
    }

    /// The number of the first unit of which an entry names the list with a number, or None where a slot alone does. Numbers count
    /// from 0.
    pub fn owner(&self, number: usize) -> Option<u32>
        requires { number < length self.now }
        ensures { (d : HeldList) → result ≡ (slice_index_or self.now number d).owner }
    {
        owner_of(self.rows[number].owner)
    }

    /// Whether the list with a number, counted from 0, is frozen.
    pub fn is_frozen(&self, number: usize) -> bool
        requires { number < length self.now }
        ensures { (d : HeldList) → IsTrue result ↔ ((slice_index_or self.now number d).meaning ≡ Dead) }
    {
        self.rows[number].frozen
    }

    /// How many entries the list with a number has before its end. Numbers count from 0.
    pub fn entry_count(&self, number: usize) -> usize
        requires { number < length self.now }
        ensures { (d : HeldList) → result ≡ length (slice_index_or self.now number d).raw }
    {
        self.rows[number].entries as usize - begin(&self.rows, number).0
    }

    /// The entry with an index of the list with a number. Both count from 0.
    pub fn entry(&self, number: usize, index: usize) -> RawEntry
        requires number { number < length self.now }
        requires index { (d : HeldList) → index < length (slice_index_or self.now number d).raw }
        ensures { (d : HeldList) (other : AnyEntry) → result ≡ slice_index_or (slice_index_or self.now number d).raw index other }
    {
        entry_of(
            &self.long,
            &self.entries[begin(&self.rows, number).0 + index],
        )
    }

    /// How many items the list with a number, counted from 0, has: those that its entries give in the context of its owner, and none
    /// where it is frozen. It takes no memory.
    pub fn item_count(&self, number: usize) -> usize
        requires { number < length self.now }
        ensures { (d : HeldList) → result ≡ length (items_of (slice_index_or self.now number d).meaning) }
    {
        let row = self.rows[number];
        if row.frozen {
            return 0;
        }
        row.items as usize - begin(&self.rows, number).1
    }

    /// The item with an index of the list with a number, which isn't frozen then. Both count from 0. It takes no memory.
    pub fn item(&self, number: usize, index: usize) -> Item
        requires number { number < length self.now }
        requires index { (d : HeldList) → index < length (items_of (slice_index_or self.now number d).meaning) }
        ensures { (d : HeldList) (other : AnyItem) → result ≡ slice_index_or (items_of (slice_index_or self.now number d).meaning) index other }
    {
        item_of(&self.long, &self.items[begin(&self.rows, number).1 + index])
    }

    /// The number, counted from 0, of the list that begins at a place, which counts from the first byte of the section, or None where none
    /// does. It takes no memory.
    pub fn find(&self, at: u64) -> Option<usize>
        requires { AreListsApart self.now }
        ensures { IsListFound self.now at result }
    {
        let (mut from, mut to) = (0, self.len());
        while from < to {
            let middle = from + (to - from) / 2;
            let here = self.at(middle);
            if here == at {
                return Some(middle);
            }
            if here < at {
                from = middle + 1;
            } else {
                to = middle;
            }
        }
        None
    }

    /// Gives the memory back that is held for lists that weren't pushed.
    pub fn shrink_to_fit(&mut self)
        ensures { self.new ≡ self.old }
    {
        self.long.shrink_to_fit();
        self.rows.shrink_to_fit();
        self.entries.shrink_to_fit();
        self.items.shrink_to_fit();
    }
}
