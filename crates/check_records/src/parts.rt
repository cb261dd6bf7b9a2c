// The parts of a file that have records.
ghost use Rattle.std.specs.Prelude.{◌≡◌, ◌<◌, ◌^◌, ◌↔◌, ℕ, length, if◌then◌else◌, IsTrue, IfOk, OnOk};
ghost use Rattle.dw_base.specs.declared.fault.Reach.{Reach};
ghost use Rattle.certificates.specs.Reading.{record_of};
ghost use Rattle.value_links.specs.Reading.{Reading};
ghost use Rattle.value_links.specs.Whole.{IsReading};
ghost use Rattle.value_links.specs.World.{IsWorldOf};
ghost use Rattle.check_records.specs.Parts.{AreParts, IsFor};
ghost use Rattle.check_records.specs.inside.Parts.{part_of, parts_of, AreThere};
ghost use Rattle.check_records.specs.inside.Pushed.{AddsAllLists};

use certificates::Proof;
use dw_base::{Classes, NoMemory};
use list_model::ListKind;
use std::alloc::Global;
use value_links::World;

// The most parts, since numbers of 32 bits count them.
const MOST_PARTS: usize = 0xffff_ffff;

/// A part of a written file for which its certificate has a record. Numbers count from 0.
#[derive(Clone, Copy)]
pub(crate) enum Part {
    /// The line number program with a number.
    Program(u32),
    /// The list of a kind with a number, which isn't kept. Those that are count too.
    List(ListKind, u32),
    /// The unit with a number.
    Unit(u32),
}

impl Part {
    /// Whether a record is of the kind that the part has.
    pub(crate) fn has(self, proof: &Proof) -> bool
        ensures { IsTrue result ↔ IsFor (part_of self) (record_of proof.now) }
    {
        matches!(
            (self, proof),
            (Part::Program(_), Proof::Lines(_))
                | (Part::List(..), Proof::List(_))
                | (Part::Unit(_), Proof::Layout(_))
        )
    }
}

// Appends the lists of a kind that aren't kept.
fn push_lists(
    parts: &mut Vec<Part>,
    classes: Classes,
    world: &World<'_>,
    kind: ListKind,
) -> Result<(), NoMemory>
    requires { (reach : Reach) × IsWorldOf world.now.image reach world.now }
    ensures { OnOk result (AddsAllLists classes world.now kind parts.old.items parts.new.items) }
{
    let lists = world.lists(kind);
    for number in 0..lists.len() {
        if classes.lists && !lists.is_frozen(number) {
            parts.push(Part::List(kind, number as u32))?;
        }
    }
    Ok(())
}

// How many line number programs have records.
pub(crate) fn searched_programs(classes: Classes, world: &World<'_>) -> usize
    ensures { result ≡ (if classes.lines then length world.now.programs else 0) }
{
    if classes.lines {
        world.programs().len()
    } else {
        0
    }
}

/// The parts of a written file, in the order of their records: the line number programs, unless the classes keep them, the range lists and then
/// the location lists that aren't kept, and the units. More than 2^32 - 1 of them are answered as want of memory: their records alone would have more than 8 GB.
pub(crate) fn parts_of_file(
    alloc: Global,
    classes: Classes,
    world: &World<'_>,
) -> Result<Vec<Part>, NoMemory>
    requires { (reach : Reach) × IsWorldOf world.now.image reach world.now }
    ensures parts { IfOk result (λ parts. (s : Reading) → IsReading world.now.image s → AreParts classes s (parts_of parts.items)) }
    ensures there { IfOk result (λ parts. AreThere world.now parts.items) }
    ensures few { IfOk result (λ parts. length parts.items < 2 ^ 32) }
{
    let mut parts = Vec::new(alloc);
    for number in 0..searched_programs(classes, world) {
        parts.push(Part::Program(number as u32))?;
    }
    push_lists(&mut parts, classes, world, ListKind::Ranges)?;
    push_lists(&mut parts, classes, world, ListKind::Locations)?;
    for number in 0..world.units().len() {
        parts.push(Part::Unit(number as u32))?;
    }
    if parts.len() > MOST_PARTS {
        return Err(NoMemory);
    }
    Ok(parts)
}
