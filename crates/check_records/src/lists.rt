// The record of a list.
ghost use Rattle.std.specs.Prelude.{◌≡◌, ◌<◌, length, slice_index_or, IfOk};
ghost use Rattle.dw_base.specs.declared.fault.Reach.{Reach};
ghost use Rattle.leb_codec.specs.Records.{OfList};
ghost use Rattle.list_model.specs.declared.item.Meaning.TheVariants.{Dead};
ghost use Rattle.list_arena.specs.Held.{HeldList};
ghost use Rattle.value_links.specs.Sections.{debug_addr};
ghost use Rattle.value_links.specs.World.{IsWorldOf, lists_held};
ghost use Rattle.list_lookup.specs.Maps.{AreMapsFor};
ghost use Rattle.check_records.specs.Parts.{AList};
ghost use Rattle.check_records.specs.inside.Bare.{StandFrom, HasBareSize};
ghost use Rattle.check_records.specs.inside.Judged.{IsVerdictOn};

use check_lists::accept_list;
use dw_base::NoMemory;
use list_arena::ListRead;
use list_lookup::TableMaps;
use list_model::{ListKind, Meaning};
use std::alloc::Global;
use unit_slots::operands_end;
use value_links::World;

// The bytes of a list without its expressions and their lengths: of each entry its code and its operands, and the end of the list.
fn bare_size(section: &[u8], kind: ListKind, list: &ListRead) -> u64
    requires { StandFrom kind section.now 0 list.now.raw }
    ensures { HasBareSize kind section.now list.now.raw result }
{
    let mut size = 1;
    for raw in list.entries() {
        size += operands_end(section, kind, raw) as u64 - raw.at;
    }
    size
}

/// Whether the potentials of the list of a kind with a number, which isn't frozen, are accepted: None, or the first item by which they
/// aren't (DWARF 5 sections 2.6.2 and 2.17.3). `maps` are those of the file's address tables.
pub(crate) fn judge_list(
    alloc: Global,
    written: &World<'_>,
    maps: &TableMaps,
    kind: ListKind,
    number: u32,
    potentials: &[u64],
) -> Result<Option<u32>, NoMemory>
    requires world { (reach : Reach) × IsWorldOf written.now.image reach written.now }
    requires known { number < length (lists_held written.now kind) }
    requires live { (d : HeldList) → ¬ ((slice_index_or (lists_held written.now kind) number d).meaning ≡ Dead) }
    requires maps { AreMapsFor written.now (debug_addr written.now.image) maps.now }
    ensures { IfOk result (IsVerdictOn written.now.image (AList kind number) (OfList potentials.now)) }
{
    let list = written.lists(kind).list(alloc, number as usize)?;
    let (Meaning::Live(items), Some(owner)) = (list.meaning(), list.owner()) else {
        // A list that isn't frozen has items and an owner.
        unreachable!()
    };
    let addr = written.section(b".debug_addr".as_slice());
    let context = written.context(owner);
    let size = bare_size(written.lists_section(kind), kind, &list);
    accept_list(
        alloc,
        items.as_slice(),
        &context,
        addr,
        Some(maps.of(&context)),
        size,
        potentials,
    )
}
