// Columns of DW_FORM_ref_addr whose values all name places in their own units, and so can be references within these.
ghost use Rattle.std.specs.Prelude.{◌≡◌, ◌≢◌, ◌≤◌, ◌<◌, ◌+◌, ◌++◌, ℕ, List, [], ◌∷◌, false, length, map, IfOk, OnOk};
ghost use Rattle.form_codec.specs.declared.form.Form.TheVariants.{RefAddr};
ghost use Rattle.form_codec.specs.Forms.{Meaning, code_of};
ghost use Rattle.form_codec.specs.Values.{meant_in};
ghost use Rattle.abbrev_tables.specs.Listings.{spec_at};
ghost use Rattle.entry_read.specs.Units.{HeadAndForest, declarations_of, IsTable, IsUnitHeld};
ghost use Rattle.entry_read.specs.declared.head.UnitHead.{UnitHead as Head};
ghost use Rattle.written_files.specs.Uses.{names_inside};
ghost use Rattle.rewriter.specs.inside.Columns.{AreUnitsOf, AreSeen, AreInside, SeesEntries, SeesRow, seen_of, meanings_of_units};

use abbrev_tables::{Spec, Table};
use dw_base::NoMemory;
use dw_base::constants::{DW_FORM_REF_ADDR, DW_FORM_REF_UDATA};
use entry_read::{Unit, UnitHead};
use form_codec::Value;
use std::alloc::Global;

/// What the values of a column name that were seen.
#[derive(Clone, Copy, Debug, PartialEq, Eq)]
pub enum Seen {
    /// None was seen.
    Nothing,
    /// Each counts from the first byte of .debug_info and names a place in its own unit.
    Inside,
    /// Some value doesn't.
    Outside,
}

// Whether a value of a unit with this header counts from the first byte of .debug_info and names a place in the unit.
fn is_inside(head: &UnitHead, value: &Value) -> bool
    ensures { (section : List ℕ) → result ≡ names_inside head.now (meant_in section value.now) }
{
    match value {
        Value::SectionRef(place) => head.at <= *place && *place - head.at < head.len,
        _ => false,
    }
}

// What is seen of a column with one value more.
fn seen_after(seen: Seen, inside: bool) -> Seen
    ensures { (values : List (Head × Meaning)) (v : Head × Meaning) → seen ≡ seen_of values → inside ≡ names_inside v.0 v.1 → result ≡ seen_of (values ++ v ∷ []) }
{
    match seen {
        Seen::Outside => Seen::Outside,
        _ => { if inside { Seen::Inside } else { Seen::Outside } }
    }
}

// Sees the values of an entry of a unit with this header, whose declaration has the columns from one on.
fn see_row(seen: &mut Vec<Seen>, first: usize, head: &UnitHead, row: &[Value])
    requires { first + length row.now ≤ length seen.old.items }
    ensures count { length seen.new.items ≡ length seen.old.items }
    ensures seen { (section : List ℕ) (before after : ℕ → List (Head × Meaning)) → SeesRow first (map (λ v. (head.now, meant_in section v)) row.now) before after → AreSeen (length seen.old.items) before seen.old.items → AreSeen (length seen.old.items) after seen.new.items }
{
    for j in 0..row.len() {
        let column = &mut seen[first + j];
        *column = seen_after(*column, is_inside(head, &row[j]));
    }
}

// Sees the values of all entries of a unit.
fn see_unit(
    alloc: Global,
    seen: &mut Vec<Seen>,
    table: &Table,
    unit: &Unit<'_>,
) -> Result<(), NoMemory>
    requires table { IsTable table.now }
    requires unit { IsUnitHeld unit.now.forest.section unit.now.head (declarations_of table.now) unit.now.forest }
    requires wide { length seen.old.items ≡ length table.now.specs }
    ensures { OnOk result (SeesEntries table.now.decls unit.now unit.now.forest.entries seen.old.items seen.new.items) }
{
    let head = unit.head();
    let mut row = Vec::new(alloc);
    for entry in unit.forest().entries().iter() {
        let decl = table.decl(entry.decl);
        unit.forest()
            .read_values(entry.first, entry.count, &mut row)?;
        see_row(seen, decl.first as usize, &head, &row);
    }
    Ok(())
}

/// What the values of each column of a table name, over all entries of these units, which have the table. `units` are all units, and
/// `named` are the numbers of those. The only error is want of memory.
pub fn see_columns(
    alloc: Global,
    units: &Vec<Unit<'_>>,
    named: &Vec<u32>,
    table: &Table,
) -> Result<Vec<Seen>, NoMemory>
    requires table { IsTable table.now }
    requires named { (section : List ℕ) × AreUnitsOf units.now.items table.now named.now.items section }
    ensures { IfOk result (λ seen. AreSeen (length table.now.specs) (meanings_of_units units.now.items table.now.decls named.now.items) seen.items) }
{
    let mut seen = vec![in alloc; Seen::Nothing; table.specs().len()]?;
    for number in named.iter() {
        see_unit(alloc, &mut seen, table, &units[*number as usize])?;
    }
    Ok(seen)
}

/// Whether some column has DW_FORM_ref_addr.
pub fn has_section_refs(columns: &[Spec]) -> bool
    ensures { result ≡ false → (k : ℕ) → k < length columns.now → (spec_at columns.now k).form ≢ code_of RefAddr }
{
    columns.iter().any(|column| column.form == DW_FORM_REF_ADDR)
}

/// Gives DW_FORM_ref_udata to each column of DW_FORM_ref_addr that has values, and whose values all name places in their own units.
pub fn take_inside(columns: &mut Vec<Spec>, seen: &[Seen])
    requires { length seen.now ≡ length columns.old.items }
    ensures { (values : ℕ → List (Head × Meaning)) → AreSeen (length columns.old.items) values seen.now → AreInside values columns.old.items columns.new.items }
{
    for k in 0..columns.len() {
        if columns[k].form == DW_FORM_REF_ADDR && seen[k] == Seen::Inside {
            columns[k] = Spec {
                name: columns[k].name,
                form: DW_FORM_REF_UDATA,
                constant: 0,
            };
        }
    }
}
