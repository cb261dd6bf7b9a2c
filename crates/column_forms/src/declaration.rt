// The least forms of all columns of a declaration.
ghost use Rattle.std.specs.Prelude.{◌≡◌, ◌<◌, ◌+◌, ◌*◌, ℕ, List, length, IfOk};
ghost use Rattle.column_forms.specs.Tallies.{IsTally};
ghost use Rattle.column_forms.specs.Rows.{AreChosen, AreHere, column_of};

use crate::tally::Tally;
use abbrev_tables::Spec;
use dw_base::{Classes, NoMemory};
use form_codec::Value;
use std::alloc::Global;

// The sums of a column over all rows.
fn tally_of(
    alloc: Global,
    name: u64,
    values: &[Value],
    width: usize,
    column: usize,
    rows: usize,
) -> Result<Tally, NoMemory>
    requires inside { column < width }
    requires some { 0 < rows }
    requires all { length values.now ≡ rows * width }
    ensures name { IfOk result (λ t. t.name ≡ name) }
    ensures tally { IfOk result (λ t. (section : List ℕ) → AreHere section values.now → IsTally section (column_of values.now width column rows) t) }
{
    let mut tally = Tally::new(alloc, name, &values[column])?;
    for row in 1..rows {
        tally.add(&values[row * width + column]);
    }
    Ok(tally)
}

/// The columns of one declaration, each in the form that takes the fewest bytes in the classes with all members: those of its
/// values in the entries and, for DW_FORM_implicit_const, those of the constant in the declaration (DWARF 5 sections 7.5.3 and
/// 7.5.6). Among equals a column keeps its form, or else has the one with the lowest code. Names stay, and a column whose form isn't
/// DW_FORM_implicit_const has the constant 0. References within a unit get DW_FORM_ref_udata, whose bytes don't count here: each
/// has as many as the layout of its unit gives it.
///
/// `values` are row by row, a row for each of the `uses` entries and in it a value for each of `specs`, which its form
/// spells; of a column with another value nothing is said. The only error is want of memory.
pub fn choose(
    alloc: Global,
    specs: &Vec<Spec>,
    uses: u64,
    values: &Vec<Value>,
) -> Result<Vec<Spec>, NoMemory>
    requires uses { 0 < uses }
    requires rows { length values.now.items ≡ uses * length specs.now.items }
    ensures { IfOk result (λ chosen. AreChosen specs.now.items uses (length specs.now.items) values.now.items chosen.items) }
{
    let width = specs.len();
    let mut chosen = Vec::new(alloc);
    for column in 0..width {
        let tally = tally_of(
            alloc,
            specs[column].name,
            values,
            width,
            column,
            uses as usize,
        )?;
        chosen.push(tally.best(Classes::every(), specs[column]))?;
    }
    Ok(chosen)
}
