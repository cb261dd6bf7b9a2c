// What writing a file anew would win, in one line.
ghost use Rattle.std.specs.Prelude.{◌≡◌, ◌<◌, ◌^◌, ℕ, List, length, IfOk, IfErr, OnOk, string_bytes};
ghost use Rattle.std.specs.List.{sum_by};
ghost use Rattle.std.specs.Option.{ForSome};
ghost use Rattle.dw_base.specs.declared.fault.Kind.{Kind as AnyKind};
ghost use Rattle.dw_base.specs.declared.fault.Reach.TheVariants.{Narrow, Wide};
ghost use Rattle.line_write.specs.Faults.{LinesFault};
ghost use Rattle.line_write.specs.Meaning.{ProgramMeaning, HaveMeanings};
ghost use Rattle.line_write.specs.Programs.{Tile};
ghost use Rattle.serde_json.specs.View.{view};
ghost use Rattle.value_links.specs.Debug.{Debug, Means};
ghost use Rattle.value_links.specs.Faults.{NamesFault, IsValid as IsValidWithin};
ghost use Rattle.value_links.specs.Sections.{body_named};
ghost use Rattle.value_links.specs.World.{IsWorldOf};
ghost use Rattle.commands.specs.File.{IsValid};
ghost use Rattle.commands.specs.Summary.{summary_text};
ghost use Rattle.commands.specs.declared.ending.Ending.TheVariants.{WriteFault};
ghost use Rattle.commands.specs.inside.Run.{HasReadCause, EndsByFault, RefusesLong};
ghost use Rattle.commands.specs.inside.Summary.{AreSizes, AreCounts, IsLineOf, sizes_data, summary_data};

use crate::anew::rewrite_held;
use crate::ending::Ending;
use crate::reading::read_input;
use dw_base::{Classes, Host, Reach, Refusal};
use elf_sections::Image;
use entry_read::Unit;
use line_machine::{Head, count_rows};
use serde_json::{Value, json};
use std::alloc::{AllocError, Global};
use value_links::{World, sections_found};

/// How many bytes the sections of a file have that are written anew.
#[derive(Clone, Copy)]
pub struct Sizes {
    /// .debug_abbrev
    pub tables: u64,
    /// .debug_info
    pub units: u64,
    /// .debug_line
    pub lines: u64,
    /// .debug_loclists
    pub locations: u64,
    /// .debug_rnglists
    pub ranges: u64,
}

/// What a file means, in numbers.
#[derive(Clone, Copy)]
pub struct Counts {
    /// The entries of all units.
    pub entries: u64,
    /// The rows of all line number programs.
    pub rows: u64,
    /// The units.
    pub units: u64,
}

// How many bytes the section with a name has, which is given without its zero byte; none where no section has it.
fn size_named(image: &Image<'_>, name: &[u8]) -> u64
    ensures { result ≡ length (body_named image.now name.now) }
{
    // A law, which costs nothing: a section is found exactly where one has its name.
    sections_found();
    match image.find(name) {
        Some(number) => image.body(number).len() as u64,
        None => 0,
    }
}

// The sizes of a file.
fn sizes_of(image: &Image<'_>) -> Sizes
    ensures { AreSizes image.now result }
{
    Sizes {
        tables: size_named(image, b".debug_abbrev"),
        units: size_named(image, b".debug_info"),
        lines: size_named(image, b".debug_line"),
        locations: size_named(image, b".debug_loclists"),
        ranges: size_named(image, b".debug_rnglists"),
    }
}

// How many entries units have together.
fn entry_total(units: &[Unit<'_>]) -> u64
    requires { sum_by (λ unit. length unit.forest.entries) units.now < 2 ^ 64 }
    ensures { result ≡ sum_by (λ unit. length unit.forest.entries) units.now }
{
    let mut total = 0;
    for unit in units {
        total += u64::from(unit.forest().len());
    }
    total
}

// How many rows the line number programs of a section have together, none of which has a fault.
fn row_total(section: &[u8], heads: &[Head]) -> u64
    requires tiled { Tile section.now heads.now }
    requires faultless { (kind : AnyKind) (place : ℕ) → LinesFault section.now kind place → ⊥ }
    ensures { (programs : List ProgramMeaning) → HaveMeanings section.now heads.now programs → result ≡ sum_by (λ program. length program.rows) programs }
{
    let mut total = 0;
    for head in heads {
        match count_rows(section, head, 0) {
            Ok(count) => total += count as u64,
            // No program has a fault.
            Err(_) => unreachable!(),
        }
    }
    total
}

// The counts of a file that is held.
fn counts_of(world: &World<'_>) -> Counts
    requires { IsWorldOf world.now.image Narrow world.now }
    ensures { (debug : Debug) × Means world.now.image debug × AreCounts debug result }
{
    Counts {
        entries: entry_total(world.units()),
        rows: row_total(world.section(b".debug_line"), world.programs()),
        units: world.units().len() as u64,
    }
}

// The sizes of a valid file. Of it no more than its headers are read.
fn read_sizes(alloc: Global, file: &[u8]) -> Result<Sizes, AllocError>
    requires { IsValidWithin file.now Wide }
    ensures { IfOk result (λ sizes. AreSizes file.now sizes) }
{
    match Image::read(alloc, file, Reach::Wide) {
        Ok(image) => Ok(sizes_of(&image)),
        Err(Refusal::NoMemory) => Err(AllocError),
        // A valid file is read.
        Err(Refusal::Refused(_)) => unreachable!(),
    }
}

// How many bytes a section has in a file and in one that may be written for it, as an array of JSON.
fn sizes_value(alloc: Global, old: u64, new: u64) -> Result<Value, AllocError>
    ensures { IfOk result (λ value. view value ≡ sizes_data old new) }
{
    json!(in alloc; [old, new])
}

// These numbers, those of a file and of one that may be written for it, as an object.
fn summary_value(
    alloc: Global,
    old: &Sizes,
    new: &Sizes,
    counts: &Counts,
) -> Result<Value, AllocError>
    ensures { IfOk result (λ value. view value ≡ summary_data old.now new.now counts.now) }
{
    let tables = sizes_value(alloc, old.tables, new.tables)?;
    let units = sizes_value(alloc, old.units, new.units)?;
    let lines = sizes_value(alloc, old.lines, new.lines)?;
    let locations = sizes_value(alloc, old.locations, new.locations)?;
    let ranges = sizes_value(alloc, old.ranges, new.ranges)?;
    json!(in alloc; {
        "abbrev": tables,
        "entries": counts.entries,
        "info": units,
        "line": lines,
        "loclists": locations,
        "rnglists": ranges,
        "rows": counts.rows,
        "units": counts.units
    })
}

// The line of these numbers.
fn summary_line(
    alloc: Global,
    old: &Sizes,
    new: &Sizes,
    counts: &Counts,
) -> Result<String, AllocError>
    ensures { IfOk result (λ text. (file : List ℕ) (written : List ℕ) (debug : Debug) → AreSizes file old.now → AreSizes written new.now → AreCounts debug counts.now → string_bytes text ≡ summary_text file written debug) }
{
    let value = summary_value(alloc, old, new, counts)?;
    let mut line = value.to_string(alloc)?;
    line.push('\n')?;
    Ok(line)
}

// The line of a file.
fn line_of(alloc: Global, classes: Classes, file: &[u8]) -> Result<String, Refusal>
    ensures valid { IfOk result (λ _. IsValid file.now) }
    ensures line { IfOk result (λ text. IsLineOf classes file.now (string_bytes text)) }
    ensures refused { IfErr result (λ refusal. NamesFault file.now Narrow refusal) }
{
    let world = World::read(alloc, file, Reach::Narrow)?;
    let old = sizes_of(world.image());
    let counts = counts_of(&world);
    let written = rewrite_held(alloc, classes, world)?;
    let new = read_sizes(alloc, &written.file)?;
    Ok(summary_line(alloc, &old, &new, &counts)?)
}

/// Reads the input, and tells in a line of JSON what writing it anew in some classes would win: how many bytes the sections that are written anew have
/// in it and in the output, and how many entries, rows of line number programs and units it has. Nothing is written.
///
/// Refused comes where the input isn't valid, with a fault of the first pass that has one, and where it has more bytes than an input may have,
/// as Limit at 0; ReadFault comes exactly where the host fails to read the input; NoMemory may come wherever memory is wanting, and WriteFault never comes.
pub fn summarise<H: Host>(
    alloc: Global,
    classes: Classes,
    input: &str,
    host: &mut H,
) -> Result<String, Ending>
    ensures valid { OnOk result (ForSome (H.bytes host.old input.now) IsValid) }
    ensures line { IfOk result (λ text. (file : List ℕ) × ForSome (H.bytes host.old input.now) (λ b. file ≡ b) × IsLineOf classes file (string_bytes text)) }
    ensures refused { EndsByFault (H.bytes host.old input.now) result }
    ensures long { RefusesLong (H.bytes host.old input.now) result }
    ensures unwritten { IfErr result (λ ending. ending ≡ WriteFault → ⊥) }
    ensures files { (f : List ℕ) → H.bytes host.new f ≡ H.bytes host.old f }
    ensures said { H.said host.new ≡ H.said host.old }
    ensures reads { HasReadCause (H.read_faults host.old input.now) (H.read_faults host.new input.now) result }
    ensures writes { (f : List ℕ) → H.write_faults host.new f ≡ H.write_faults host.old f }
    ensures says { H.say_faults host.new ≡ H.say_faults host.old }
{
    let file = read_input(alloc, input, host)?;
    Ok(line_of(alloc, classes, &file)?)
}
