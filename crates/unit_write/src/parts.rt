// The parts of what is written of an entry: the new columns of its declaration, and its values.
ghost use Rattle.std.specs.Prelude.{◌≡◌, ◌≤◌, ◌<◌, length, take, drop, slice_index, OnOk};
ghost use Rattle.entry_arena.specs.Order.{IsInOrder};
ghost use Rattle.unit_write.specs.NewExpressions.{begin_of as begin_among, made_of};
ghost use Rattle.unit_write.specs.Placing.{columns_of, values_in};

use abbrev_tables::{Spec, Table};
use dw_base::NoMemory;
use entry_arena::Forest;
use form_codec::Value;

/// So many of a list from a place on, as far as there are.
pub fn part<T>(all: &[T], first: u32, count: u32) -> &[T]
    ensures { result.now ≡ take count (drop first all.now) }
{
    let rest = &all[all.len().min(first as usize)..];
    &rest[..rest.len().min(count as usize)]
}

/// The new columns of the declaration with a number, where `specs` are the new ones of the whole table.
pub fn new_columns<'a>(table: &Table, specs: &'a [Spec], number: u32) -> &'a [Spec]
    requires { number < length table.now.decls }
    ensures { result.now ≡ columns_of table.now specs.entry.now number }
{
    let declared = table.decl(number);
    part(specs, declared.first, declared.count)
}

/// Reads the values of the entry with a number into `row`, in place of what it holds. The only error is want of memory.
pub fn read_row(forest: &Forest<'_>, id: u32, row: &mut Vec<Value>) -> Result<(), NoMemory>
    requires { id < length forest.now.entries }
    ensures values { OnOk result (row.new.items ≡ values_in forest.now id) }
    ensures order { IsInOrder forest.now }
{
    // In order the values of an entry are among those of the forest.
    let _entries = forest.entries();
    let entry = forest.entry(id);
    forest.read_values(entry.first, entry.count, row)
}

/// Where the bytes of the expression of the value with a number begin, where `ends` says of each value where they end.
pub fn begin_of(ends: &[u32], number: usize) -> u32
    requires { number ≤ length ends.now }
    ensures { result ≡ begin_among ends.now number }
{
    if number == 0 { 0 } else { ends[number - 1] }
}

/// The bytes of the expression of the value with a number, among those of all.
pub fn made_for<'a>(ends: &[u32], expressions: &'a [u8], number: usize) -> &'a [u8]
    requires number { number < length ends.now }
    requires rising { begin_among ends.now number ≤ slice_index ends.now number }
    requires inside { slice_index ends.now number ≤ length expressions.now }
    ensures { result.now ≡ made_of ends.now expressions.entry.now number }
{
    let begin = begin_of(ends, number) as usize;
    &expressions[begin..ends[number] as usize]
}
