// The numbers of an entry: its code, and its values one after the other.
ghost use Rattle.std.specs.Prelude.{◌≡◌, ◌≤◌, ◌<◌, ◌↔◌, ◌++◌, ℕ, List, length, drop, IsTrue};
ghost use Rattle.leb_codec.specs.Leb.{Uleb};
ghost use Rattle.form_codec.specs.declared.value.Value.{Value};
ghost use Rattle.form_codec.specs.Forms.{Meaning, SpellsShape, SpellsValue};
ghost use Rattle.entry_arena.specs.Trees.{SpellsBetween, ValuesBetween};
ghost use Rattle.tidy_places.specs.Firsts.{IsLeastFound};
ghost use Rattle.tidy_numbers.specs.LongUnits.{BeginsLongShape, BeginsLongValue};
ghost use Rattle.tidy_numbers.specs.inside.LongEntries.{IsEntryWith, IsLongAmongValues, IsLongInEntry};

use crate::fronts::{earlier, is_long, is_long_signed};
use abbrev_tables::Spec;
use form_codec::{Content, Form, Role, Shape, read_value};
use leb_codec::read_u;

// Where the code at a place ends.
fn code_end(info: &[u8], at: usize) -> usize
    requires { (code : ℕ) × (to : ℕ) × SpellsBetween (Uleb code) info.now at to }
    ensures { (code to : ℕ) → SpellsBetween (Uleb code) info.now at to → result ≡ to }
{
    match read_u(info, at) {
        Ok(code) => code.end,
        // A code that stands there ends and fits.
        Err(_) => unreachable!(),
    }
}

// Where the value of a column at a place ends.
fn value_end(info: &[u8], at: usize, column: Spec) -> usize
    requires { (meaning : Meaning) × (to : ℕ) × SpellsBetween (SpellsValue column.name column.form column.constant meaning) info.now at to }
    ensures { (meaning : Meaning) (to : ℕ) → SpellsBetween (SpellsValue column.name column.form column.constant meaning) info.now at to → result ≡ to }
{
    match read_value(
        info,
        at,
        info.len(),
        column.name,
        column.form,
        column.constant,
        0,
    ) {
        Ok(read) => read.end,
        // A value that stands there has no fault.
        Err(_) => unreachable!(),
    }
}

// Whether the value of this shape at a place begins with a number that has a byte too many and is no slot.
fn begins_long(info: &[u8], at: usize, shape: Shape) -> bool
    requires within { at ≤ length info.now }
    requires value { (meaning : Meaning) × (first : List ℕ) × (rest : List ℕ) × SpellsShape shape meaning first × (drop at info.now ≡ first ++ rest) }
    ensures { IsTrue result ↔ BeginsLongShape shape (drop at info.now) }
{
    match shape {
        // The size of a reference within the unit is the matter of the unit's layout, and so is that of an expression's length.
        Shape::Uleb(Role::LocalRef) => false,
        Shape::Uleb(_) => is_long(info, at),
        Shape::Sleb => is_long_signed(info, at),
        Shape::UlebCounted(Content::Data) => is_long(info, at),
        _ => false,
    }
}

// Likewise of the value of a column.
fn is_long_value(info: &[u8], at: usize, column: Spec) -> bool
    requires { (meaning : Meaning) × (to : ℕ) × SpellsBetween (SpellsValue column.name column.form column.constant meaning) info.now at to }
    ensures { IsTrue result ↔ BeginsLongValue column (drop at info.now) }
{
    match Form::from_code(column.form) {
        Some(form) => begins_long(info, at, form.shape(column.name, column.constant)),
        // A value that stands there has a form that is known.
        None => unreachable!(),
    }
}

// The first of the values of columns, from a place on, that begins so.
fn first_in_values(info: &[u8], from: usize, columns: &[Spec]) -> Option<u64>
    requires { (values : List Value) × (to : ℕ) × ValuesBetween info.now columns.now values from to }
    ensures { IsLeastFound (IsLongAmongValues info.now columns.now from (length columns.now)) result }
{
    let mut first = None;
    let mut at = from;
    for column in columns {
        let here = is_long_value(info, at, *column).then_some(at as u64);
        first = earlier(first, here);
        at = value_end(info, at, *column);
    }
    first
}

/// The first number of the entry at a place with a byte too many: its code, or one of its values, which stand behind it in the order of
/// the columns.
pub(crate) fn first_in_entry(info: &[u8], at: usize, columns: &[Spec]) -> Option<u64>
    requires { IsEntryWith info.now columns.now at }
    ensures { IsLeastFound (IsLongInEntry info.now columns.now at) result }
{
    let code = is_long(info, at).then_some(at as u64);
    let values_at = code_end(info, at);
    earlier(code, first_in_values(info, values_at, columns))
}
