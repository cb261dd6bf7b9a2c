// Lists that keep their entries.
ghost use Rattle.std.specs.Prelude.{◌≡◌, ◌≤◌, ◌+◌, ◌^◌, List, length, IfOk};
ghost use Rattle.std.specs.List.{All};
ghost use Rattle.list_model.specs.Costs.{operand_bytes, entry_bytes};
ghost use Rattle.list_model.specs.Entries.{Entry, AreSaid, Says};
ghost use Rattle.list_least.specs.Plans.{entries_bytes, ArePicks};
ghost use Rattle.list_least.specs.Shortest.{FitOperands};

use dw_base::NoMemory;
use leb_codec::len_u;
use list_least::{Pick, Plan};
use list_model::{ListKind, Operand, RawEntry, first_operand, kind_of, second_operand};
use std::alloc::Global;

// The fewest bytes of an operand.
fn operand_size(operand: Operand, value: u64) -> u64
    ensures is { result ≡ operand_bytes operand value }
    ensures few { result ≤ 10 }
{
    match operand {
        Operand::Absent => 0,
        Operand::Number => u64::from(len_u(value)),
        Operand::Address => 8,
    }
}

// The fewest bytes of an entry.
fn entry_size(kind: ListKind, raw: &RawEntry) -> u64
    requires said { (entry : Entry) × Says kind raw.now entry }
    ensures is { (entry : Entry) → Says kind raw.now entry → result ≡ entry_bytes entry.kind entry.a entry.b }
    ensures few { result ≤ 21 }
{
    let Some(entry_kind) = kind_of(kind, raw.code) else {
        unreachable!()
    };
    1 + operand_size(first_operand(entry_kind), raw.a)
        + operand_size(second_operand(entry_kind), raw.b)
}

/// The plan of a list that is kept: its own kinds of entries and operands, each number in its fewest bytes (DWARF 5 sections
/// 2.6.2, 2.17.3, 7.7.3 and 7.25). `raws` are its entries as they were read. It has no potentials. The only error is want of
/// memory.
pub fn kept_plan(alloc: Global, kind: ListKind, raws: &Vec<RawEntry>) -> Result<Plan, NoMemory>
    requires few { length raws.now.items ≤ 2 ^ 25 }
    requires said { (entries : List Entry) × AreSaid kind raws.now.items entries × All (λ entry. FitOperands entry.kind entry.a entry.b) entries }
    ensures picked { IfOk result (λ plan. (entries : List Entry) → AreSaid kind raws.now.items entries → ArePicks kind plan.picks.items entries) }
    ensures bytes { IfOk result (λ plan. (entries : List Entry) → AreSaid kind raws.now.items entries → plan.size ≡ entries_bytes entries + 1) }
{
    let mut picks = Vec::new(alloc);
    let mut size = 1;
    for raw in raws {
        picks.push(Pick {
            code: raw.code,
            a: raw.a,
            b: raw.b,
        })?;
        size += entry_size(kind, raw);
    }
    Ok(Plan {
        picks,
        potentials: Vec::new(alloc),
        size,
    })
}
