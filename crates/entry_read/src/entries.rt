// The entries of a unit, read one after the other.
ghost use Rattle.std.specs.Prelude.{◌≡◌, ◌≢◌, ◌≤◌, ◌<◌, ◌+◌, ◌-◌, ◌^◌, ◌↔◌, ◌⊎◌, ◌++◌, ◌∷◌, ℕ, List, [], length, reverse, IfOk, IfErr, OnOk, IsTrue, if◌then◌else◌};
ghost use Rattle.dw_base.specs.declared.fault.Refusal.TheVariants.{Refused};
ghost use Rattle.leb_codec.specs.Leb.{Uleb};
ghost use Rattle.abbrev_tables.specs.Faults.{FaultNumber};
ghost use Rattle.entry_arena.specs.Arena.{nothing_of};
ghost use Rattle.entry_arena.specs.Trees.{SpellsBetween, bytes_between, AddsEntry, declared_at, listed_to};
ghost use Rattle.entry_arena.specs.Walks.{IsGoing};
ghost use Rattle.entry_read.specs.Heads.{IsHead};
ghost use Rattle.entry_read.specs.Units.{declarations_of, IsTable, IsWithin, end_of, entries_at};
ghost use Rattle.entry_read.specs.Faults.{FaultUnit};
ghost use Rattle.dw_base.specs.Refusals.{IsFaultOf, IsRefusedFor};
ghost use Rattle.entry_read.specs.Readings.{AreKnown};
ghost use Rattle.entry_read.specs.inside.Readings.{AddsValues, FaultOfColumns, IsWalked, IsWalkedBy, HasFront};

use crate::head::{UnitHead, header_size};
use crate::unit::Counts;
use abbrev_tables::{Spec, Table};
use dw_base::{Fault, Kind, NoMemory, Refusal};
use entry_arena::{Entry, Forest};
use form_codec::read_value;
use leb_codec::{LebFault, ReadU, read_u};
use std::alloc::Global;

// The most entries and the most values of all units together.
const ENTRY_LIMIT: u64 = 1 << 24;

const VALUE_LIMIT: u64 = 1 << 26;

/// What is said of a unit while its entries are read.
#[derive(Clone, Copy)]
pub struct Scope {
    pub head: UnitHead,
    pub before: Counts,
    /// The file offset of the section's first byte.
    pub origin: u64,
}

impl Scope {
    /// The place after the unit's last byte.
    pub fn end(&self) -> usize
        requires { end_of self.now.head < 2 ^ 64 }
        ensures { result ≡ end_of self.now.head }
    {
        (self.head.at + self.head.len) as usize
    }

    /// A refusal at a place of the section.
    pub fn refused(&self, kind: Kind, at: usize) -> Refusal
        requires { self.now.origin + at < 2 ^ 64 }
        ensures { result ≡ Refused (record { kind = kind; place = self.now.origin + at }) }
    {
        Refusal::Refused(Fault {
            kind,
            place: self.origin + at as u64,
        })
    }
}

// Whether there are no more than a limit, with those before.
fn fits(before: u64, count: u32, limit: u64) -> bool
    ensures { IsTrue result ↔ (before + count ≤ limit) }
{
    u64::from(count) <= limit && before <= limit - u64::from(count)
}

// Whether so many entries and values keep the limits.
fn is_within(before: Counts, entries: u32, values: u32) -> bool
    ensures { IsTrue result ↔ IsWithin before entries values }
{
    fits(before.entries, entries, ENTRY_LIMIT) && fits(before.values, values, VALUE_LIMIT)
}

// The code at a place, which is to end by another.
fn read_code(info: &[u8], at: usize, end: usize) -> Result<ReadU, Kind>
    requires order { at ≤ end }
    requires inside { end ≤ length info.now }
    ensures read { IfOk result (λ r. (at < r.end) × (r.end ≤ end) × SpellsBetween (Uleb r.value) info.now at r.end) }
    ensures fault { IfErr result (λ kind. FaultNumber kind 0 (bytes_between info.now at end)) }
{
    match read_u(&info[at..end], 0) {
        Ok(read) => Ok(ReadU {
            value: read.value,
            end: at + read.end,
        }),
        Err(LebFault::Short) => Err(Kind::Short),
        Err(LebFault::Wide) => Err(Kind::LebWide),
    }
}

/// The columns, in their order, of the declaration with a number in the abbreviation table by which a unit is read (DWARF 5
/// section 7.5.3). Declarations are counted from 0, as `decl` of an entry counts them. There is no error.
pub fn columns_of(table: &Table, number: u32) -> &[Spec]
    requires table { IsTable table.now }
    requires inside { number < length (declarations_of table.now) }
    ensures columns { result.now ≡ (declared_at (declarations_of table.now) number).columns }
    ensures known { AreKnown result.now }
{
    table.columns(number)
}

// Appends the values of columns, and gives the place after them.
fn read_values<'a>(
    forest: &mut Forest<'a>,
    info: &[u8],
    from: usize,
    end: usize,
    columns: &[Spec],
    origin: u64,
) -> Result<usize, Refusal>
    requires order { from ≤ end }
    requires inside { end ≤ length info.now }
    requires room { origin + length info.now < 2 ^ 64 }
    requires known { AreKnown columns.now }
    requires walked { IsWalkedBy info.now forest.old from }
    ensures within { IfOk result (λ to. to ≤ end) }
    ensures read { IfOk result (AddsValues info.now columns.now forest.old from forest.new) }
    ensures fault { IfErr result (IsRefusedFor (IsFaultOf (FaultOfColumns info.now end columns.now from) origin)) }
{
    let mut at = from;
    for column in columns {
        let read = read_value(
            info,
            at,
            end,
            column.name,
            column.form,
            column.constant,
            origin,
        )?;
        forest.push_value(read.value)?;
        at = read.end;
    }
    Ok(at)
}

/// Where an entry stands, and where its code ends.
#[derive(Clone, Copy)]
pub struct Start {
    pub at: usize,
    pub values_at: usize,
    /// The number of its declaration.
    pub number: u32,
    pub depth: u32,
}

// A place, or how many bytes, in 32 bits. No section of the 32-bit format has so many that they don't fit (DWARF 5 section 7.4): there
// is no memory for more.
fn narrow(number: usize) -> Result<u32, NoMemory>
    ensures { IfOk result (λ same. same ≡ number) }
{
    u32::try_from(number).map_err(|_| NoMemory)
}

// Appends an entry and its values, and gives the place after it.
fn read_entry<'a>(
    forest: &mut Forest<'a>,
    info: &[u8],
    table: &Table,
    start: Start,
    end: usize,
    origin: u64,
) -> Result<usize, Refusal>
    requires table { IsTable table.now }
    requires number { start.number < length (declarations_of table.now) }
    requires inside { end ≤ length info.now }
    requires room { origin + length info.now < 2 ^ 64 }
    requires within { start.values_at ≤ end }
    requires coded { SpellsBetween (Uleb ((declared_at (declarations_of table.now) start.number).code)) info.now start.at start.values_at }
    requires some { start.at < start.values_at }
    requires walked { (chains : List ℕ) × (length chains ≡ start.depth) × IsWalked info.now (declarations_of table.now) forest.old chains start.at }
    ensures within { IfOk result (λ to. (start.at < to) × (to ≤ end)) }
    ensures section { IfOk result (λ _. forest.new.section ≡ info.now) }
    ensures read { IfOk result (λ to. AddsEntry info.now (declarations_of table.now) start.depth start.number (listed_to forest.old start.at) (listed_to forest.new to)) }
    ensures fault { IfErr result (IsRefusedFor (IsFaultOf (FaultOfColumns info.now end ((declared_at (declarations_of table.now) start.number).columns) start.values_at) origin)) }
{
    let first = forest.value_count();
    let columns = columns_of(table, start.number);
    let to = read_values(forest, info, start.values_at, end, columns, origin)?;
    let entry = Entry {
        at: narrow(start.at)?,
        len: narrow(to - start.at)?,
        depth: start.depth,
        decl: start.number,
        first,
        count: forest.value_count() - first,
    };
    forest.push_entry(entry)?;
    Ok(to)
}

// Lets the children of an entry come next, where it has some.
fn open_chain(chains: &mut Vec<u32>, id: u32, children: bool) -> Result<(), NoMemory>
    ensures { OnOk result (chains.new.items ≡ chains.old.items ++ (if children then id ∷ [] else [])) }
{
    if children {
        chains.push(id)?;
    }
    Ok(())
}

// Appends the entry at a place, whose code was read, and gives the place after it.
fn add_entry<'a>(
    forest: &mut Forest<'a>,
    chains: &mut Vec<u32>,
    info: &[u8],
    table: &Table,
    scope: &Scope,
    at: usize,
    code: ReadU,
) -> Result<usize, Refusal>
    requires table { IsTable table.now }
    requires head { IsHead info.now scope.now.head }
    requires room { scope.now.origin + length info.now < 2 ^ 64 }
    requires front { HasFront info.now scope.now.head (declarations_of table.now) scope.now.before forest.old (reverse chains.old.items) at }
    requires going { IsGoing (listed_to forest.old at) (reverse chains.old.items) }
    requires coded { SpellsBetween (Uleb code.value) info.now at code.end }
    requires within { (at < code.end) × (code.end ≤ end_of scope.now.head) }
    requires not_end { code.value ≢ 0 }
    ensures front { IfOk result (HasFront info.now scope.now.head (declarations_of table.now) scope.now.before forest.new (reverse chains.new.items)) }
    ensures some { IfOk result (λ _. forest.new.entries ≢ []) }
    ensures on { IfOk result (λ to. at < to) }
    ensures fault { IfErr result (IsRefusedFor (IsFaultOf (FaultUnit info.now scope.now.head (declarations_of table.now) scope.now.before) scope.now.origin)) }
{
    let Some(number) = table.by_code(code.value) else {
        return Err(scope.refused(Kind::CodeMissing, at));
    };
    let id = forest.len();
    let start = Start {
        at,
        values_at: code.end,
        number,
        depth: chains.len() as u32,
    };
    let to = read_entry(forest, info, table, start, scope.end(), scope.origin)?;
    if !is_within(scope.before, forest.len(), forest.value_count()) {
        return Err(scope.refused(Kind::Limit, at));
    }
    open_chain(chains, id, table.decl(number).children)?;
    Ok(to)
}

// Reads the entry or the code 0 at a place, and gives the place after it.
fn read_next<'a>(
    forest: &mut Forest<'a>,
    chains: &mut Vec<u32>,
    info: &[u8],
    table: &Table,
    scope: &Scope,
    at: usize,
) -> Result<usize, Refusal>
    requires table { IsTable table.now }
    requires head { IsHead info.now scope.now.head }
    requires room { scope.now.origin + length info.now < 2 ^ 64 }
    requires front { HasFront info.now scope.now.head (declarations_of table.now) scope.now.before forest.old (reverse chains.old.items) at }
    requires going { IsGoing (listed_to forest.old at) (reverse chains.old.items) }
    ensures front { IfOk result (HasFront info.now scope.now.head (declarations_of table.now) scope.now.before forest.new (reverse chains.new.items)) }
    ensures some { IfOk result (λ _. forest.new.entries ≢ []) }
    ensures on { IfOk result (λ to. at < to) }
    ensures fault { IfErr result (IsRefusedFor (IsFaultOf (FaultUnit info.now scope.now.head (declarations_of table.now) scope.now.before) scope.now.origin)) }
{
    let end = scope.end();
    if at >= end {
        return Err(scope.refused(Kind::Tree, scope.head.at as usize));
    }
    let code = match read_code(info, at, end) {
        Ok(code) => code,
        Err(kind) => return Err(scope.refused(kind, at)),
    };
    if code.value != 0 {
        return add_entry(forest, chains, info, table, scope, at, code);
    }
    let Some(id) = chains.pop() else {
        return Err(scope.refused(Kind::Tree, scope.head.at as usize));
    };
    forest.push_chain_end(id, narrow(at)?)?;
    Ok(code.end)
}

/// Reads the entries of a unit, and gives the place after their tree.
pub fn read_entries<'a>(
    alloc: Global,
    forest: &mut Forest<'a>,
    info: &[u8],
    table: &Table,
    scope: &Scope,
) -> Result<usize, Refusal>
    requires table { IsTable table.now }
    requires head { IsHead info.now scope.now.head }
    requires room { scope.now.origin + length info.now < 2 ^ 64 }
    requires bare { forest.old ≡ nothing_of info.now }
    ensures front { IfOk result (HasFront info.now scope.now.head (declarations_of table.now) scope.now.before forest.new []) }
    ensures some { IfOk result (λ _. forest.new.entries ≢ []) }
    ensures within { IfOk result (λ to. to ≤ end_of scope.now.head) }
    ensures fault { IfErr result (IsRefusedFor (IsFaultOf (FaultUnit info.now scope.now.head (declarations_of table.now) scope.now.before) scope.now.origin)) }
{
    let mut chains: Vec<u32> = Vec::new(alloc);
    let mut at = scope.head.at as usize + header_size(scope.head.kind);
    loop {
        at = read_next(forest, &mut chains, info, table, scope, at)?;
        if chains.is_empty() {
            return Ok(at);
        }
    }
}
