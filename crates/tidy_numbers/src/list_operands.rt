// The numbers of one entry of a list.
ghost use Rattle.std.specs.Prelude.{◌≡◌, ◌≤◌, ◌↔◌, length, drop, IsTrue};
ghost use Rattle.list_model.specs.declared.entry.ListKind.TheVariants.{Locations};
ghost use Rattle.list_model.specs.Entries.{SpellsOperand, SpellsOperands};
ghost use Rattle.tidy_places.specs.Firsts.{IsLeastFound};
ghost use Rattle.tidy_numbers.specs.LongLists.{IsLongOperandOf, AreLongOperandsOf, IsLongLength, HoldsBehindCode};
ghost use Rattle.tidy_numbers.specs.inside.Operands.{Begins, IsEndOf, HoldsFrom};
ghost use Rattle.tidy_numbers.specs.inside.ListEntries.{EntryStands, LengthStands};

use crate::fronts::is_long;
use crate::operands::end_of_number;
use list_model::{EntryKind, ListKind, Operand, RawEntry, first_operand, kind_of, second_operand};
use loc_lists::is_item;

// How many bytes an address has.
const ADDRESS_SIZE: usize = 8;

// Whether the operand at a place has a byte too many.
fn is_long_operand(bytes: &[u8], at: usize, operand: Operand) -> bool
    requires within { at ≤ length bytes.now }
    requires there { Begins (SpellsOperand operand) (drop at bytes.now) }
    ensures { IsTrue result ↔ IsLongOperandOf operand 0 (drop at bytes.now) }
{
    operand == Operand::Number && is_long(bytes, at)
}

// The place behind the operand at a place.
fn end_of_operand(bytes: &[u8], at: usize, operand: Operand) -> usize
    requires within { at ≤ length bytes.now }
    requires there { Begins (SpellsOperand operand) (drop at bytes.now) }
    ensures { IsEndOf (SpellsOperand operand) bytes.now at result }
{
    match operand {
        Operand::Absent => at,
        Operand::Number => end_of_number(bytes, at),
        Operand::Address => at + ADDRESS_SIZE,
    }
}

// The first number of the operand at a place.
fn first_of_operand(bytes: &[u8], at: usize, operand: Operand) -> Option<u64>
    requires within { at ≤ length bytes.now }
    requires there { Begins (SpellsOperand operand) (drop at bytes.now) }
    ensures { IsLeastFound (HoldsFrom (IsLongOperandOf operand) at bytes.now) result }
{
    is_long_operand(bytes, at, operand).then_some(at as u64)
}

// The first number of the operands at a place, which are those of an entry of a kind.
fn first_of_operands(bytes: &[u8], at: usize, kind: EntryKind) -> Option<u64>
    requires within { at ≤ length bytes.now }
    requires there { Begins (SpellsOperands kind) (drop at bytes.now) }
    ensures { IsLeastFound (HoldsFrom (AreLongOperandsOf kind) at bytes.now) result }
{
    let first = first_operand(kind);
    if is_long_operand(bytes, at, first) {
        return Some(at as u64);
    }
    let next = end_of_operand(bytes, at, first);
    first_of_operand(bytes, next, second_operand(kind))
}

// The place behind the operands at a place, which are those of an entry of a kind.
fn end_of_operands(bytes: &[u8], at: usize, kind: EntryKind) -> usize
    requires within { at ≤ length bytes.now }
    requires there { Begins (SpellsOperands kind) (drop at bytes.now) }
    ensures { IsEndOf (SpellsOperands kind) bytes.now at result }
{
    let next = end_of_operand(bytes, at, first_operand(kind));
    end_of_operand(bytes, next, second_operand(kind))
}

/// The first operand of an entry with a byte too many, by its place in the section.
pub(crate) fn first_in_entry(section: &[u8], list: ListKind, raw: &RawEntry) -> Option<u64>
    requires { EntryStands list section.now raw.now }
    ensures { IsLeastFound (HoldsBehindCode AreLongOperandsOf list section.now raw.now) result }
{
    let kind = kind_of(list, raw.code)?;
    first_of_operands(section, raw.at as usize + 1, kind)
}

/// The length of the expression of an entry of a location list, where it has a byte too many, by its place in the section.
pub(crate) fn long_length(section: &[u8], raw: &RawEntry) -> Option<u64>
    requires entry { EntryStands Locations section.now raw.now }
    requires there { LengthStands section.now raw.now }
    ensures { IsLeastFound (HoldsBehindCode IsLongLength Locations section.now raw.now) result }
{
    if !is_item(raw) {
        return None;
    }
    let kind = kind_of(ListKind::Locations, raw.code)?;
    let at = end_of_operands(section, raw.at as usize + 1, kind);
    first_of_operand(section, at, Operand::Number)
}
