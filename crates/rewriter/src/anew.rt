// What the sections of a file that are written anew are made of.
ghost use Rattle.std.specs.Prelude.{◌≡◌, ◌<◌, ◌-◌, ◌^◌, ℕ, List, [], length, map, slice_index, IfOk, true, false};
ghost use Rattle.std.specs.List.{All};
ghost use Rattle.spelled.specs.Spelled.{Joined};
ghost use Rattle.dw_base.specs.declared.fault.Reach.TheVariants.{Narrow};
ghost use Rattle.dw_base.specs.declared.record.Run.{Run};
ghost use Rattle.leb_codec.specs.Records.{OfLines, SpellsRecord};
ghost use Rattle.line_sums.specs.Accepted.{AreLeastRuns};
ghost use Rattle.line_write.specs.Least.{LeastLines, OrderedLines};
ghost use Rattle.line_write.specs.Readings.{StandAnew};
ghost use Rattle.line_machine.specs.declared.head.Head.{Head as AnyHead};
ghost use Rattle.written_files.specs.Kept.{HaveRunsIn};
ghost use Rattle.companions.specs.Aranges.{SetsTile, HaveUnits, IsOutside};
ghost use Rattle.unit_write.specs.declared.places.Places.{Places as AnyPlaces};
ghost use Rattle.value_links.specs.Sections.{debug_line, debug_aranges};
ghost use Rattle.value_links.specs.World.{IsWorldOf};

use companions::{ArangeSet, patch_aranges};
use dw_base::{Classes, NoMemory};
use line_write::{Lines, shrink_lines};
use std::alloc::Global;
use unit_write::Places;
use value_links::World;

// The line number programs of a file as they are: their section, and where they begin. There are no records.
fn keep_lines(alloc: Global, world: &World<'_>) -> Result<Lines, NoMemory>
    requires world { IsWorldOf world.now.image Narrow world.now }
    ensures bytes { IfOk result (λ lines. lines.bytes.items ≡ debug_line world.now.image) }
    ensures starts { IfOk result (λ lines. lines.starts.items ≡ map (λ (head : AnyHead). head.at) world.now.programs) }
    ensures records { IfOk result (λ lines. lines.records.items ≡ []) }
{
    let starts = world.programs().iter().map(|head| head.at).collect(alloc)?;
    Ok(Lines {
        bytes: world.section(b".debug_line").to_vec(alloc)?,
        starts,
        records: Vec::new(alloc),
    })
}

/// The line number programs of a file written anew, or as they are where the classes keep them, in fewer than the 2^32 - 1 bytes that a
/// section of the 32-bit format can't have (DWARF 5 section 7.4), and a record for each that shows why it is least, or none where they
/// are kept. The only error is want of memory.
pub fn write_lines(alloc: Global, classes: Classes, world: &World<'_>) -> Result<Lines, NoMemory>
    requires world { IsWorldOf world.now.image Narrow world.now }
    ensures stand { IfOk result (λ lines. StandAnew (debug_line world.now.image) world.now.programs lines.bytes.items lines.starts.items) }
    ensures least { IfOk result (λ lines. classes.lines ≡ true → LeastLines (debug_line world.now.image) lines.bytes.items) }
    ensures order { IfOk result (λ lines. classes.lines ≡ true → OrderedLines (debug_line world.now.image) lines.bytes.items) }
    ensures kept { IfOk result (λ lines. classes.lines ≡ false → lines.bytes.items ≡ debug_line world.now.image) }
    ensures fits { IfOk result (λ lines. length lines.bytes.items < 2 ^ 32 - 1) }
    ensures records { IfOk result (λ lines. (all : List (List Run)) × HaveRunsIn classes AreLeastRuns lines.bytes.items all × Joined SpellsRecord (map OfLines all) lines.records.items) }
{
    if classes.lines {
        shrink_lines(alloc, world.section(b".debug_line"), world.programs())
    } else {
        keep_lines(alloc, world)
    }
}

// Where units begin.
fn starts_of(alloc: Global, places: &[Places]) -> Result<Vec<u64>, NoMemory>
    ensures { IfOk result (λ starts. starts.items ≡ map (λ (unit : AnyPlaces). unit.start) places.now) }
{
    let starts = places.iter().map(|unit| unit.start).collect(alloc)?;
    Ok(starts)
}

// The bytes of sets of address ranges, whose units begin at these places now.
fn patched(
    alloc: Global,
    section: &[u8],
    sets: &Vec<ArangeSet>,
    starts: &Vec<u64>,
) -> Result<Vec<u8>, NoMemory>
    requires sets { (old_starts : List ℕ) × SetsTile section.now old_starts sets.now.items }
    requires units { HaveUnits (length starts.now.items) sets.now.items }
    requires fit { All (λ start. start < 2 ^ 32) starts.now.items }
    ensures tiled { IfOk result (λ aranges. SetsTile aranges.items starts.now.items sets.now.items) }
    ensures others { IfOk result (λ aranges. (k : ℕ) → IsOutside sets.now.items k → slice_index aranges.items k ≡ slice_index section.now k) }
    ensures size { IfOk result (λ aranges. length aranges.items ≡ length section.now) }
{
    let mut aranges = section.to_vec(alloc)?;
    patch_aranges(&mut aranges, sets, starts);
    Ok(aranges)
}

/// The sets of address ranges of a file with the new places of the units that they name (DWARF 5 section 6.1.2). The only error
/// is want of memory.
pub fn write_aranges(
    alloc: Global,
    world: &World<'_>,
    places: &Vec<Places>,
) -> Result<Vec<u8>, NoMemory>
    requires world { IsWorldOf world.now.image Narrow world.now }
    requires count { length places.now.items ≡ length world.now.units }
    requires fit { All (λ (unit : AnyPlaces). unit.start < 2 ^ 32) places.now.items }
    ensures tiled { IfOk result (λ aranges. SetsTile aranges.items (map (λ (unit : AnyPlaces). unit.start) places.now.items) world.now.sets) }
    ensures others { IfOk result (λ aranges. (k : ℕ) → IsOutside world.now.sets k → slice_index aranges.items k ≡ slice_index (debug_aranges world.now.image) k) }
    ensures size { IfOk result (λ aranges. length aranges.items ≡ length (debug_aranges world.now.image)) }
{
    let starts = starts_of(alloc, places)?;
    let section = world.section(b".debug_aranges");
    patched(alloc, section, world.aranges(), &starts)
}
