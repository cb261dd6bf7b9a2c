// The sums of all columns of an abbreviation table.
ghost use Rattle.std.specs.Prelude.{◌≡◌, ◌≢◌, ◌≤◌, ◌<◌, ◌+◌, ◌^◌, ◌↔◌, ℕ, List, [], length, IsTrue, IfOk, IfSome, OnOk};
ghost use Rattle.form_codec.specs.declared.value.Value.{Value as AValue};
ghost use Rattle.form_codec.specs.Columns.{AreSpelled, IsLeastForm};
ghost use Rattle.column_forms.specs.Tallies.{meanings_in};
ghost use Rattle.column_forms.specs.Rows.{AreHere};
ghost use Rattle.column_forms.specs.TableColumns.{AreTalliesOf, HaveNames, AddsRow, HaveRoomForRow, HaveAtMost, AreBestFor};
ghost use Rattle.column_forms.specs.inside.TableColumns.{IsNextTally, HasOneMore, IsBestOfTally, IsLeastOfTally};

use crate::tally::Tally;
use abbrev_tables::Spec;
use dw_base::{Classes, NoMemory};
use form_codec::Value;
use std::alloc::Global;
use std::marker::Model;

/// The sums of all columns of an abbreviation table (DWARF 5 section 7.5.3), whose values come entry by entry. Columns are
/// numbered from 0 over all declarations of the table. Contracts see for each column what a `Tally` holds, or nothing for one
/// that has no value yet.
#[derive(Drop)]
pub struct Tallies {
    columns: Vec<Option<Tally>>,
}

impl Model for Tallies {
    ghost use Rattle.std.specs.Prelude.{List, Option};
    ghost use Rattle.column_forms.specs.Tallies.{Tallying};

    ghost Value = { List (Option Tallying) };

    ghost view = { λ t. t.columns.items };
}

// Counts one more value of a column of the attribute with a name.
fn count_in(
    slot: &mut Option<Tally>,
    alloc: Global,
    name: u64,
    value: &Value,
) -> Result<(), NoMemory>
    requires { IfSome slot.old (λ tally. tally.count < 2 ^ 63) }
    ensures next { OnOk result (IsNextTally name value.now slot.old slot.new) }
    ensures more { OnOk result (HasOneMore slot.old slot.new) }
{
    match slot {
        Some(tally) => tally.add(value),
        None => *slot = Some(Tally::new(alloc, name, value)?),
    }
    Ok(())
}

// A column in its best form, or as it is where it has no value.
fn best_for(tally: &Option<Tally>, classes: Classes, column: Spec) -> Spec
    ensures { IsBestOfTally classes tally.now column result }
{
    match tally {
        Some(tally) => tally.best(classes, column),
        None => column,
    }
}

// Whether a column that has values is in a least form.
fn is_least_for(tally: &Option<Tally>, classes: Classes, column: Spec) -> bool
    ensures { IsLeastOfTally classes tally.now column result }
{
    match tally {
        Some(tally) => tally.is_least(classes, column),
        // A column without a value takes no bytes, and isn't asked for.
        None => true,
    }
}

impl Tallies {
    /// The sums of so many columns, of which none has a value. The only error is want of memory.
    pub fn new(alloc: Global, count: usize) -> Result<Tallies, NoMemory>
        ensures count { IfOk result (λ tallies. length tallies ≡ count) }
        ensures few { IfOk result (λ tallies. HaveAtMost 0 tallies) }
        ensures none { IfOk result (λ tallies. (section : List ℕ) (names : ℕ → ℕ) → AreTalliesOf section names (λ (k : ℕ). []) tallies) }
    {
        let mut columns = Vec::new(alloc);
        for _ in 0..count {
            columns.push(None)?;
        }
        Ok(Tallies { columns })
    }

    /// Counts the values of one more entry, whose declaration has these columns, numbered from `first` on. The only error is want of
    /// memory, after which nothing is said of the sums.
    pub fn add_row(
        &mut self,
        alloc: Global,
        first: usize,
        columns: &[Spec],
        row: &[Value],
    ) -> Result<(), NoMemory>
        requires inside { first + length row.now ≤ length self.old }
        requires width { length columns.now ≡ length row.now }
        requires room { HaveRoomForRow self.old }
        ensures count { length self.new ≡ length self.old }
        ensures few { OnOk result ((n : ℕ) → HaveAtMost n self.old → HaveAtMost (n + 1) self.new) }
        ensures added { OnOk result ((section : List ℕ) (names : ℕ → ℕ) (before after : ℕ → List AValue) → AreHere section row.now → HaveNames names first columns.now → AddsRow first row.now before after → AreTalliesOf section names before self.old → AreTalliesOf section names after self.new) }
    {
        for j in 0..row.len() {
            count_in(
                &mut self.columns[first + j],
                alloc,
                columns[j].name,
                &row[j],
            )?;
        }
        Ok(())
    }

    /// The columns, each in the form of the classes in which its values and its constant take the fewest bytes, as `Tally::best` says; one
    /// without a value is kept. `columns` are those whose values were counted, in their order. The only error is want of memory.
    pub fn best(
        &self,
        alloc: Global,
        classes: Classes,
        columns: &[Spec],
    ) -> Result<Vec<Spec>, NoMemory>
        requires { length columns.now ≡ length self.now }
        ensures { IfOk result (λ best. (section : List ℕ) (names : ℕ → ℕ) (values : ℕ → List AValue) → HaveNames names 0 columns.now → AreTalliesOf section names values self.now → AreBestFor classes section values columns.now best.items) }
    {
        let mut best = Vec::new(alloc);
        for k in 0..columns.len() {
            best.push(best_for(&self.columns[k], classes, columns[k]))?;
        }
        Ok(best)
    }

    /// Whether the column with a number is in a form of the classes that takes the fewest bytes, as `Tally::is_least` says; of one without a value
    /// nothing is said. `column` is the one whose values were counted.
    pub fn is_least(&self, k: usize, classes: Classes, column: Spec) -> bool
        requires { k < length self.now }
        ensures { (section : List ℕ) (names : ℕ → ℕ) (values : ℕ → List AValue) → names k ≡ column.name → AreTalliesOf section names values self.now → values k ≢ [] → AreSpelled column.name column.form column.constant (meanings_in section (values k)) → IsTrue result ↔ IsLeastForm classes column.name (meanings_in section (values k)) column.form column.constant }
    {
        is_least_for(&self.columns[k], classes, column)
    }
}
