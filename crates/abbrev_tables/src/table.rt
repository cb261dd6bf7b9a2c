// Tables, as they are held.
ghost use Rattle.std.specs.Prelude.{◌≡◌, ◌≢◌, ◌≤◌, ◌<◌, ◌+◌, ◌-◌, ◌^◌, ◌++◌, ◌∷◌, [], ℕ, length, drop, take, true, false, Some, OnOk, IfOk, IfErr, MatchOption, IsTrue, ◌↔◌};
ghost use Rattle.std.specs.Ordering.{nat_cmp};
ghost use Rattle.std.specs.BTreeMap.{get};
ghost use Rattle.abbrev_tables.specs.Faults.{FaultTable};
ghost use Rattle.abbrev_tables.specs.Listings.{decl_at, spec_at, declared_in, IsTableAt};
ghost use Rattle.abbrev_tables.specs.Index.{IsIndex, HasCode};
ghost use Rattle.abbrev_tables.specs.inside.Index.{IsAdded, IsReadFrom};
ghost use Rattle.abbrev_tables.specs.Readings.{IsRefusal};
ghost use Rattle.abbrev_tables.specs.inside.Readings.{IsStop};

use crate::decl::{Decl, Spec, columns_of};
use crate::read::{FaultAt, Head, Stop, fault_after, read_declared};
use dw_base::{Fault, Kind, NoMemory, Refusal};
use std::alloc::Global;
use std::collections::BTreeMap;
use std::marker::Model;

const MOST: usize = 0xffff_ffff;

/// An abbreviation table (DWARF 5 section 7.5.3). Contracts see it as its declarations, with their places, its columns,
/// and its end.
#[derive(Drop)]
pub struct Table {
    pub(crate) decls: Vec<Decl>,
    specs: Vec<Spec>,
    // Numbers of declarations by their codes, but where the code is 1 more than the number.
    others: BTreeMap<u64, u32>,
    end: u64,
}

impl Model for Table {
    ghost use Rattle.abbrev_tables.specs.Listings.{Listing};
    ghost use Rattle.abbrev_tables.specs.Index.{IsHeld};

    ghost Value = { Listing };

    ghost view = { λ t. record { decls = t.decls.items; specs = t.specs.items; end = t.end } };

    ghost invariant = { λ t. IsHeld t.decls.items t.specs.items t.others };
}

// The number of the declaration with a code. Most codes are 1, 2, 3, and so on.
fn find(decls: &[Decl], others: &BTreeMap<u64, u32>, code: u64) -> Option<u32>
    requires index { IsIndex decls.now others.now }
    requires few { length decls.now < 2 ^ 32 }
    ensures { MatchOption result (HasCode decls.now code → ⊥) (λ i. (i < length decls.now) × ((decl_at decls.now i).code ≡ code)) }
{
    if code > 0 && code <= decls.len() as u64 && decls[(code - 1) as usize].code == code {
        return Some((code - 1) as u32);
    }
    others.get(&code).copied()
}

fn insert(others: &mut BTreeMap<u64, u32>, code: u64, number: u32) -> Result<(), NoMemory>
    ensures here { OnOk result (get nat_cmp others.new code ≡ Some number) }
    ensures apart { OnOk result ((other : ℕ) → other ≢ code → get nat_cmp others.new other ≡ get nat_cmp others.old other) }
{
    others.insert(code, number)?;
    Ok(())
}

// Lets a declaration be found that is to come behind these.
fn index(decls: &[Decl], others: &mut BTreeMap<u64, u32>, decl: Decl) -> Result<(), NoMemory>
    requires index { IsIndex decls.now others.old }
    requires few { length decls.now < 2 ^ 32 - 1 }
    requires fresh { HasCode decls.now decl.code → ⊥ }
    ensures { OnOk result (IsIndex (decls.now ++ decl ∷ []) others.new) }
{
    if decl.code == decls.len() as u64 + 1 {
        return Ok(());
    }
    insert(others, decl.code, decls.len() as u32)?;
    Ok(())
}

// Appends a declaration, or answers false where an earlier one has its code.
fn add(decls: &mut Vec<Decl>, others: &mut BTreeMap<u64, u32>, decl: Decl) -> Result<bool, NoMemory>
    requires index { IsIndex decls.old.items others.old }
    requires few { length decls.old.items < 2 ^ 32 }
    ensures { IfOk result (IsAdded decls.old.items decl decls.new.items others.new) }
{
    match find(decls, others, decl.code) {
        Some(_) => return Ok(false),
        None => {}
    }
    if decls.len() >= MOST {
        return Err(NoMemory);
    }
    index(decls, others, decl)?;
    decls.push(decl)?;
    Ok(true)
}

// A declaration with the columns from `first` up to but not including `last`.
fn declaration(at: u64, head: Head, first: usize, last: usize) -> Decl
    requires order { first ≤ last }
    requires few { last < 2 ^ 32 }
    ensures { result ≡ record { at = at; code = head.code; tag = head.tag; children = head.children; first = first; count = last - first } }
{
    Decl {
        at,
        code: head.code,
        tag: head.tag,
        children: head.children,
        first: first as u32,
        count: (last - first) as u32,
    }
}

// Reads the table at the front, whose first byte stands at `start`.
fn read_table(alloc: Global, rest: &[u8], start: u64) -> Result<Table, Stop>
    requires { start + length rest.now < 2 ^ 64 }
    ensures table { IfOk result (IsReadFrom rest.now start) }
    ensures fault { IfErr result (IsStop FaultTable rest.now) }
{
    let mut decls: Vec<Decl> = Vec::new(alloc);
    let mut specs: Vec<Spec> = Vec::new(alloc);
    let mut others: BTreeMap<u64, u32> = BTreeMap::new(alloc);
    let mut at = 0;
    while at < rest.len() {
        let first = specs.len();
        let read = match read_declared(&mut specs, &rest[at..]) {
            Ok(read) => read,
            Err(Stop::Fault(fault)) => return Err(Stop::Fault(fault_after(at, fault))),
            Err(Stop::NoMemory) => return Err(Stop::NoMemory),
        };
        let last = specs.len();
        if last > MOST {
            return Err(Stop::NoMemory);
        }
        let Some(head) = read.head else {
            return Ok(Table {
                decls,
                specs,
                others,
                end: start + (at + read.end) as u64,
            });
        };
        let decl = declaration(start + at as u64, head, first, last);
        let is_new = add(&mut decls, &mut others, decl)?;
        if !is_new {
            return Err(Stop::Fault(FaultAt {
                kind: Kind::CodeTwice,
                at,
            }));
        }
        at += read.end;
    }
    Err(Stop::Fault(FaultAt {
        kind: Kind::Short,
        at,
    }))
}

impl Table {
    /// Reads the table that begins at `at`, counted from 0 in `section` (DWARF 5 section 7.5.3). `origin` is the place of
    /// the section's first byte in the file, from which the places of faults count. Padded LEB128 numbers are read.
    ///
    /// A refusal names one of the faults of the table: Limit at a tag or the name of an attribute that is 2^32 or more; LebWide
    /// at a LEB128 number that doesn't fit 64 bits; Short at a number or a children byte that the section cuts off;
    /// FormUnknown at the first byte of a declaration whose children byte is above 1, in which exactly one of a name and
    /// its form is 0, or that has a form that isn't known; and CodeTwice at the first byte of a declaration whose code
    /// an earlier one has. A table with 2^32 declarations or columns is answered as want of memory.
    pub fn read(alloc: Global, section: &[u8], at: u64, origin: u64) -> Result<Table, Refusal>
        requires { at < length section.now }
        ensures table { IfOk result (IsTableAt section.now at) }
        ensures fault { IfErr result (IsRefusal section.now at origin) }
    {
        match read_table(alloc, &section[at as usize..], at) {
            Ok(table) => Ok(table),
            Err(Stop::Fault(fault)) => Err(Refusal::Refused(Fault {
                kind: fault.kind,
                place: origin.wrapping_add(at + fault.at as u64),
            })),
            Err(Stop::NoMemory) => Err(Refusal::NoMemory),
        }
    }

    /// The place after the code 0 that ends the table, counted from the first byte of the section.
    pub fn end(&self) -> u64
        ensures { result ≡ self.now.end }
    {
        self.end
    }

    /// How many declarations there are.
    pub fn len(&self) -> u32
        ensures { result ≡ length self.now.decls }
    {
        self.decls.len() as u32
    }

    /// Whether there are no declarations.
    pub fn is_empty(&self) -> bool
        ensures { IsTrue result ↔ (length self.now.decls ≡ 0) }
    {
        self.decls.is_empty()
    }

    /// The declaration with a number, counted from 0 in the order of the table.
    pub fn decl(&self, i: u32) -> Decl
        requires { i < length self.now.decls }
        ensures { result ≡ decl_at self.now.decls i }
    {
        self.decls[i as usize]
    }

    /// The columns of the declaration with a number, in their order.
    pub fn columns(&self, i: u32) -> &[Spec]
        requires { i < length self.now.decls }
        ensures { result.now ≡ (declared_in self.now.specs (decl_at self.now.decls i)).columns }
    {
        columns_of(&self.specs, self.decl(i))
    }

    /// The column with a number, counted from 0 over all declarations in the order of the table.
    pub fn spec(&self, i: u32) -> Spec
        requires { i < length self.now.specs }
        ensures { result ≡ spec_at self.now.specs i }
    {
        self.specs[i as usize]
    }

    /// The columns of all declarations, in the order of the table.
    pub fn specs(&self) -> &[Spec]
        ensures { result.now ≡ self.now.specs }
    {
        &self.specs
    }

    /// The number of the declaration with a code, or None exactly where no declaration has it.
    pub fn by_code(&self, code: u64) -> Option<u32>
        ensures { MatchOption result (HasCode self.now.decls code → ⊥) (λ i. (i < length self.now.decls) × ((decl_at self.now.decls i).code ≡ code)) }
    {
        find(&self.decls, &self.others, code)
    }
}
