// Units.
ghost use Rattle.std.specs.Prelude.{◌≡◌, ◌≤◌, ◌<◌, ◌+◌, ◌^◌, ◌↔◌, ℕ, [], length, slice_index, IfOk, IfErr, IsTrue};
ghost use Rattle.entry_arena.specs.Order.{LendAlike};
ghost use Rattle.entry_arena.specs.Trees.{listed_to};
ghost use Rattle.entry_read.specs.Heads.{IsHead};
ghost use Rattle.entry_read.specs.Units.{declarations_of, unit_with, IsTable, IsUnitHeld, IsWithin};
ghost use Rattle.entry_read.specs.Faults.{FaultUnit};
ghost use Rattle.dw_base.specs.Refusals.{IsFaultOf, IsFaulty, IsRefusedFor};

use crate::entries::{Scope, read_entries};
use crate::head::UnitHead;
use abbrev_tables::Table;
use dw_base::{Kind, NoMemory, Refusal};
use entry_arena::Forest;
use form_codec::Value;
use std::alloc::Global;
use std::marker::Model;

/// How many entries and values the units before a unit have.
#[derive(Clone, Copy, Debug, PartialEq, Eq)]
pub struct Counts {
    /// How many entries, of which all units together may have 2^24.
    pub entries: u64,
    /// How many values, of which all units together may have 2^26.
    pub values: u64,
}

/// A unit of .debug_info (DWARF 5 section 7.5): its header and its entries. Places count from the section's first byte.
#[derive(Drop)]
pub struct Unit<'a> {
    head: UnitHead,
    forest: Forest<'a>,
}

impl<'a> Model for Unit<'a> {
    ghost use Rattle.entry_read.specs.Units.{HeadAndForest};

    ghost Value = { HeadAndForest };

    ghost view = { λ u. record { head = u.head; forest = u.forest } };
}

impl<'a> Unit<'a> {
    /// The unit's header.
    pub fn head(&self) -> UnitHead
        ensures { result ≡ self.now.head }
    {
        self.head
    }

    /// The unit's entries with their values, and the codes 0 that end chains of siblings.
    pub fn forest(&self) -> &Forest<'a>
        ensures { result.now ≡ self.now.forest }
    {
        &self.forest
    }

    /// The same unit with other values in place of its own, one for each, which lend the same bytes of the section. The only error
    /// is want of memory.
    pub fn with_values(&self, alloc: Global, values: &[Value]) -> Result<Unit<'a>, NoMemory>
        requires { LendAlike self.now.forest.values values.now }
        ensures { IfOk result (λ unit. unit ≡ unit_with self.now values.now) }
    {
        Ok(Unit {
            head: self.head,
            forest: self.forest.with_values(alloc, values)?,
        })
    }
}

// Whether all bytes are 0.
fn is_padding(bytes: &[u8]) -> bool
    ensures { IsTrue result ↔ ((k : ℕ) → k < length bytes.now → slice_index bytes.now k ≡ 0) }
{
    bytes.iter().all(|byte| *byte == 0)
}

/// Reads the unit of `head` in `info`, the body of .debug_info (DWARF 5 section 7.5), from which the head was read.
/// `table` is the abbreviation table that the header names. `before` counts the entries and values of the units before it, and
/// `origin` is the file offset of the section's first byte. Padded LEB128 numbers are read. Values keep their bytes, so that no
/// expression is read.
///
/// The entries are one tree, after which the unit may have more bytes 0. A refusal names one of the faults of the unit:
/// Tree at the unit's first byte where the root's code is 0, the unit ends inside a chain of siblings, or a byte other
/// than 0 follows the tree; Short at a code or a value that the unit cuts off, and LebWide at one with a LEB128 number
/// that doesn't fit 64 bits; CodeMissing at an entry whose code isn't declared; Text at a text without a zero byte in the
/// unit; and Limit at the entry with which all units have more than 2^24 entries or 2^26 values. `NoMemory` may come
/// wherever memory is wanting.
pub fn read_unit<'a>(
    alloc: Global,
    info: &'a [u8],
    head: &UnitHead,
    table: &Table,
    before: Counts,
    origin: u64,
) -> Result<Unit<'a>, Refusal>
    requires head { IsHead info.now head.now }
    requires table { IsTable table.now }
    requires room { origin + length info.now < 2 ^ 64 }
    ensures unit { IfOk result (λ u. IsUnitHeld info.entry.now head.now (declarations_of table.now) u.forest) }
    ensures head { IfOk result (λ u. u.head ≡ head.now) }
    ensures section { IfOk result (λ u. u.forest.section ≡ info.entry.now) }
    ensures within { IfOk result (λ u. IsWithin before (length u.forest.entries) (length u.forest.values)) }
    ensures whole { IfOk result (λ _. ¬ IsFaulty (FaultUnit info.entry.now head.now (declarations_of table.now) before)) }
    ensures fault { IfErr result (IsRefusedFor (IsFaultOf (FaultUnit info.entry.now head.now (declarations_of table.now) before) origin)) }
{
    let scope = Scope {
        head: *head,
        before,
        origin,
    };
    let mut forest = Forest::new(alloc, info);
    let end = read_entries(alloc, &mut forest, info, table, &scope)?;
    if !is_padding(&info[end..scope.end()]) {
        return Err(scope.refused(Kind::Tree, head.at as usize));
    }
    // All units are held at once, each with no more memory than it needs.
    forest.shrink_to_fit();
    Ok(Unit {
        head: *head,
        forest,
    })
}
