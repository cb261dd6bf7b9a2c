// The forms of columns.
ghost use Rattle.std.specs.Prelude.{◌<◌, ◌^◌};

use crate::draws::Draws;
use abbrev_tables::Spec;
use column_forms::Tallies;
use dw_base::{Classes, NoMemory};
use form_codec::{Value, Whole};
use std::alloc::Global;

/// How many columns the table has.
pub const WIDTH: u64 = 8;

fn column(form: u64) -> Spec {
    Spec {
        name: 0,
        form,
        constant: 0,
    }
}

// The columns of the table, in data4, data8, sdata, flag, flag, strp, strx and data1.
fn columns() -> [Spec; 8] {
    [
        column(0x06),
        column(0x07),
        column(0x0d),
        column(0x0c),
        column(0x0c),
        column(0x0e),
        column(0x1a),
        column(0x0b),
    ]
}

// The values of an entry: constants of one byte, of two, and below 0, a flag, one that is always set, a place of a string,
// the number of one, and a constant that is always the same.
fn drawn_row(draws: &mut Draws) -> [Value; 8] {
    [
        Value::Int(Whole::unsigned(u64::from(draws.below(1 << 7)))),
        Value::Int(Whole::unsigned(u64::from(draws.below(1 << 15)))),
        Value::Int(Whole::signed(-1 - i64::from(draws.below(1 << 12)))),
        Value::Flag(draws.below(2) == 1),
        Value::Flag(true),
        Value::StrOffset(u64::from(draws.below(1 << 24))),
        Value::StrIndex(u64::from(draws.below(1000))),
        Value::Int(Whole::unsigned(7)),
    ]
}

/// The columns in the forms that are the least for so many drawn entries.
pub fn least_columns(alloc: Global, entries: u64) -> Result<Vec<Spec>, NoMemory>
    requires { entries < 2 ^ 63 }
{
    let mut draws = Draws::default();
    let columns = columns();
    let mut tallies = Tallies::new(alloc, columns.len())?;
    for _ in 0..entries {
        tallies.add_row(alloc, 0, &columns, &drawn_row(&mut draws))?;
    }
    tallies.best(alloc, Classes::every(), &columns)
}
