// The shortest bytes of lists and of view pairs.
ghost use Rattle.std.specs.Prelude.{◌≡◌, ◌<◌, ◌≤◌, ◌+◌, ℕ, List, [], length, slice_index_or, OnOk};
ghost use Rattle.spelled.specs.Spelled.{Joined, Appends};
ghost use Rattle.list_model.specs.Entries.{Entry};
ghost use Rattle.loc_lists.specs.Views.{ShortestPair};
ghost use Rattle.list_least.specs.Plans.{IsPick, ArePicks};
ghost use Rattle.list_least.specs.Shortest.{FitsOperand, ShortestEntry};
ghost use Rattle.list_write.specs.Written.{AreEnds, IsSized, ShortestWith, pieces, to_write};
ghost use Rattle.list_write.specs.inside.Puts.{ShortestOperand, ShortestExpression, carries};

use crate::named::{NamedList, NewExpressions};
use dw_base::NoMemory;
use form_codec::{Width, put_low};
use leb_codec::put_u;
use list_least::Pick;
use list_model::{EntryKind, ListKind, Operand, first_operand, kind_of, second_operand};
use loc_lists::ViewPair;

const LIST_END: u8 = 0;

// Appends an operand, a number in its fewest bytes.
fn put_operand(out: &mut Vec<u8>, operand: Operand, value: u64) -> Result<(), NoMemory>
    ensures { OnOk result (FitsOperand operand value → Appends (ShortestOperand operand) value out.old.items out.new.items) }
{
    match operand {
        Operand::Absent => Ok(()),
        Operand::Number => put_u(out, value),
        Operand::Address => put_low(out, Width::Eight, value),
    }
}

// Appends an entry.
fn put_entry(out: &mut Vec<u8>, kind: ListKind, pick: Pick) -> Result<(), NoMemory>
    requires picked { (entry : Entry) × IsPick kind pick entry }
    ensures { OnOk result ((entry : Entry) → IsPick kind pick entry → Appends (ShortestEntry kind) entry out.old.items out.new.items) }
{
    let Some(entry_kind) = kind_of(kind, pick.code) else {
        unreachable!()
    };
    out.push(pick.code)?;
    put_operand(out, first_operand(entry_kind), pick.a)?;
    put_operand(out, second_operand(entry_kind), pick.b)
}

// The expression with a number among some that stand one after the other.
fn expression_at(expressions: &NewExpressions, number: usize) -> &[u8]
    requires ends { AreEnds expressions.now }
    requires number { number < length expressions.now.ends.items }
    ensures { result.now ≡ slice_index_or (pieces 0 expressions.now.ends.items expressions.now.bytes.items) number [] }
{
    let from = match number.checked_sub(1) {
        Some(before) => expressions.ends[before],
        None => 0,
    };
    let end = expressions.ends[number];
    &expressions.bytes[from as usize..end as usize]
}

// Appends an expression behind its length.
fn put_expression(out: &mut Vec<u8>, expression: &[u8]) -> Result<(), NoMemory>
    ensures { OnOk result (Appends ShortestExpression expression.now out.old.items out.new.items) }
{
    put_u(out, expression.len() as u64)?;
    out.extend_from_slice(expression)?;
    Ok(())
}

/// Whether an entry of a list of a kind has an expression behind it.
pub(crate) fn has_expression(kind: ListKind, pick: &Pick) -> bool
    requires { (entry : Entry) × IsPick kind pick.now entry }
    ensures { (entry : Entry) → IsPick kind pick.now entry → result ≡ carries kind entry.kind }
{
    match kind_of(kind, pick.code) {
        Some(EntryKind::BaseAddressx | EntryKind::BaseAddress) => false,
        _ => kind == ListKind::Locations,
    }
}

/// Appends the entries of a list with the expressions of its items, and its end.
pub(crate) fn put_list(out: &mut Vec<u8>, kind: ListKind, list: &NamedList) -> Result<(), NoMemory>
    requires sized { IsSized kind (to_write list.now) }
    requires ends { AreEnds list.now.expressions }
    ensures { OnOk result ((entries : List Entry) → ArePicks kind list.now.plan.picks.items entries → Appends (λ expressions bytes. (bare : List ℕ) × ShortestWith kind entries expressions bytes bare) (to_write list.now).expressions out.old.items out.new.items) }
{
    let mut next = 0;
    for pick in &list.plan.picks {
        put_entry(out, kind, *pick)?;
        if has_expression(kind, pick) {
            put_expression(out, expression_at(&list.expressions, next))?;
            next += 1;
        }
    }
    out.push(LIST_END)?;
    Ok(())
}

// Appends a view pair.
fn put_pair(out: &mut Vec<u8>, first: u64, last: u64) -> Result<(), NoMemory>
    ensures { OnOk result (Appends ShortestPair (record { first = first; last = last }) out.old.items out.new.items) }
{
    put_u(out, first)?;
    put_u(out, last)
}

/// Appends a run of view pairs.
pub(crate) fn put_run(out: &mut Vec<u8>, pairs: &Vec<ViewPair>) -> Result<(), NoMemory>
    ensures { OnOk result (Appends (Joined ShortestPair) pairs.now.items out.old.items out.new.items) }
{
    for pair in pairs {
        put_pair(out, pair.first, pair.last)?;
    }
    Ok(())
}
