// All runs of view pairs.
ghost use Rattle.std.specs.Prelude.{◌≡◌, ◌<◌, ◌++◌, ◌∷◌, [], length, take, slice_index_or, IfOk, OnOk, OnErr, ◌↔◌, IsTrue};
ghost use Rattle.std.specs.List.{All};
ghost use Rattle.loc_lists.specs.declared.views.ViewPair.{ViewPair as AnyPair};
ghost use Rattle.list_arena.specs.Held.{HeldViews, ViewsRise, AreViewsFound};
ghost use Rattle.list_arena.specs.inside.Words.{GrowsTo};
ghost use Rattle.list_arena.specs.inside.Rows.{begin_of};
ghost use Rattle.list_arena.specs.inside.Views.{pair_held, IsPairRow, pairs_held, pair_ends, runs_held, AreRunsHeldWell, IsOneMoreRun};

use crate::words::LongNumbers;
use dw_base::NoMemory;
use loc_lists::ViewPair;
use std::alloc::Global;
use std::marker::Model;

// A pair. Its fields are words.
#[derive(Clone, Copy)]
struct PairRow {
    first: u32,
    last: u32,
}

// A run, whose pairs stand behind those of the run before.
#[derive(Clone, Copy)]
struct RunRow {
    // A word.
    list: u32,
    // A word.
    at: u32,
    // How many pairs there are up to its end.
    pairs: u32,
}

// All runs of a file are held at once.
const _: () = prove!(size_of::<PairRow>() == 8);

const _: () = prove!(size_of::<RunRow>() == 12);

/// Runs of view pairs, which are all held at once: a run takes 12 bytes and a pair 8, with 8 more for each number that doesn't fit 31
/// bits. Contracts see them as a list.
#[derive(Drop)]
pub struct Views {
    long: LongNumbers,
    rows: Vec<RunRow>,
    pairs: Vec<PairRow>,
}

impl Model for Views {
    ghost use Rattle.std.specs.Prelude.{List};
    ghost use Rattle.list_arena.specs.Held.{HeldViews};
    ghost use Rattle.list_arena.specs.inside.Views.{runs_held, AreRunsHeldWell};

    ghost Value = { List HeldViews };

    ghost view = { λ v. runs_held v.long v.rows.items v.pairs.items };

    ghost invariant = { λ v. AreRunsHeldWell v.long v.rows.items v.pairs.items };
}

// The row of a pair.
fn pair_row(long: &mut LongNumbers, pair: &ViewPair) -> Result<PairRow, NoMemory>
    ensures grown { GrowsTo long.old long.new }
    ensures row { IfOk result (λ row. IsPairRow long.new row × (pair_held long.new row ≡ pair.now)) }
{
    Ok(PairRow {
        first: long.word(pair.first)?,
        last: long.word(pair.last)?,
    })
}

// The pair of a row.
fn pair_of(long: &LongNumbers, row: &PairRow) -> ViewPair
    requires { IsPairRow long.now row.now }
    ensures { result ≡ pair_held long.now row.now }
{
    ViewPair {
        first: long.number(row.first),
        last: long.number(row.last),
    }
}

// Appends the rows of pairs. An Err leaves some of them behind the others.
fn push_pairs(
    rows: &mut Vec<PairRow>,
    long: &mut LongNumbers,
    pairs: &[ViewPair],
) -> Result<(), NoMemory>
    requires { All (IsPairRow long.old) rows.old.items }
    ensures grown { GrowsTo long.old long.new }
    ensures well { All (IsPairRow long.new) rows.new.items }
    ensures kept { take (length rows.old.items) rows.new.items ≡ rows.old.items }
    ensures held { OnOk result (pairs_held long.new rows.new.items ≡ pairs_held long.old rows.old.items ++ pairs.now) }
{
    for pair in pairs {
        let row = pair_row(long, pair)?;
        rows.push(row)?;
    }
    Ok(())
}

// Appends the rows of a run. An Err leaves some of those of its pairs behind the others.
fn push_rows(
    long: &mut LongNumbers,
    rows: &mut Vec<RunRow>,
    pairs: &mut Vec<PairRow>,
    list: u64,
    at: u64,
    run: &[ViewPair],
) -> Result<(), NoMemory>
    requires { AreRunsHeldWell long.old rows.old.items pairs.old.items }
    ensures grown { GrowsTo long.old long.new }
    ensures pushed { OnOk result (IsOneMoreRun (runs_held long.old rows.old.items pairs.old.items) record { list = list; at = at; pairs = run.now } long.new rows.new.items pairs.new.items) }
    ensures rows { OnErr result (rows.new.items ≡ rows.old.items) }
    ensures pairs { OnErr result (take (length pairs.old.items) pairs.new.items ≡ pairs.old.items) }
{
    push_pairs(pairs, long, run)?;
    let Ok(end) = u32::try_from(pairs.len()) else {
        return Err(NoMemory);
    };
    let row = RunRow {
        list: long.word(list)?,
        at: long.word(at)?,
        pairs: end,
    };
    rows.push(row)?;
    Ok(())
}

// The number of the first pair of the run with a number.
fn begin(rows: &[RunRow], number: usize) -> usize
    requires { number < length rows.now }
    ensures { result ≡ begin_of 0 (pair_ends rows.now) number }
{
    if number == 0 {
        return 0;
    }
    rows[number - 1].pairs as usize
}

impl Views {
    /// No runs.
    pub fn new(alloc: Global) -> Views
        ensures { result ≡ [] }
    {
        Views {
            long: LongNumbers::new(alloc),
            rows: Vec::new(alloc),
            pairs: Vec::new(alloc),
        }
    }

    /// How many runs there are.
    pub fn len(&self) -> usize
        ensures { result ≡ length self.now }
    {
        self.rows.len()
    }

    /// Whether there is none.
    pub fn is_empty(&self) -> bool
        ensures { IsTrue result ↔ (self.now ≡ []) }
    {
        self.rows.is_empty()
    }

    /// Appends a run: where the list begins with which it goes, where the first of its pairs stands, and the pairs. Places count from the
    /// first byte of .debug_loclists. The only error is want of memory, which also answers counts of pairs of 2^32 or more; it changes
    /// nothing.
    pub fn push(&mut self, list: u64, at: u64, pairs: &[ViewPair]) -> Result<(), NoMemory>
        ensures pushed { OnOk result (self.new ≡ self.old ++ record { list = list; at = at; pairs = pairs.now } ∷ []) }
        ensures unchanged { OnErr result (self.new ≡ self.old) }
    {
        let count = self.pairs.len();
        match push_rows(
            &mut self.long,
            &mut self.rows,
            &mut self.pairs,
            list,
            at,
            pairs,
        ) {
            Ok(()) => Ok(()),
            Err(error) => {
                self.pairs.truncate(count);
                Err(error)
            }
        }
    }

    /// Where the list begins with which the run with a number goes. Numbers count from 0, and places from the first byte of
    /// .debug_loclists.
    pub fn list(&self, number: usize) -> u64
        requires { number < length self.now }
        ensures { (d : HeldViews) → result ≡ (slice_index_or self.now number d).list }
    {
        self.long.number(self.rows[number].list)
    }

    /// Where the first pair of the run with a number stands. Numbers count from 0, and places from the first byte of .debug_loclists.
    pub fn at(&self, number: usize) -> u64
        requires { number < length self.now }
        ensures { (d : HeldViews) → result ≡ (slice_index_or self.now number d).at }
    {
        self.long.number(self.rows[number].at)
    }

    /// How many pairs the run with a number has: one for each bounded entry of its list. Numbers count from 0.
    pub fn pair_count(&self, number: usize) -> usize
        requires { number < length self.now }
        ensures { (d : HeldViews) → result ≡ length (slice_index_or self.now number d).pairs }
    {
        self.rows[number].pairs as usize - begin(&self.rows, number)
    }

    /// The pair with an index of the run with a number. Both count from 0.
    pub fn pair(&self, number: usize, index: usize) -> ViewPair
        requires number { number < length self.now }
        requires index { (d : HeldViews) → index < length (slice_index_or self.now number d).pairs }
        ensures { (d : HeldViews) (other : AnyPair) → result ≡ slice_index_or (slice_index_or self.now number d).pairs index other }
    {
        pair_of(&self.long, &self.pairs[begin(&self.rows, number) + index])
    }

    /// The number, counted from 0, of the run that goes with the list at a place and stands at another, or None where there is none.
    /// Places count from the first byte of .debug_loclists. It takes no memory.
    pub fn find(&self, list: u64, at: u64) -> Option<usize>
        requires { ViewsRise self.now }
        ensures { AreViewsFound self.now list at result }
    {
        let (mut from, mut to) = (0, self.len());
        while from < to {
            let middle = from + (to - from) / 2;
            let here = (self.list(middle), self.at(middle));
            if here == (list, at) {
                return Some(middle);
            }
            if here < (list, at) {
                from = middle + 1;
            } else {
                to = middle;
            }
        }
        None
    }

    /// Gives the memory back that is held for runs that weren't pushed.
    pub fn shrink_to_fit(&mut self)
        ensures { self.new ≡ self.old }
    {
        self.long.shrink_to_fit();
        self.rows.shrink_to_fit();
        self.pairs.shrink_to_fit();
    }
}
