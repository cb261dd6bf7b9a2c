// The sections of a file that are written anew.
ghost use Rattle.std.specs.Prelude.{◌≡◌, ◌++◌, IfOk, true, false};
ghost use Rattle.leb_codec.specs.Records.{magic};
ghost use Rattle.dw_base.specs.declared.fault.Reach.TheVariants.{Narrow};
ghost use Rattle.line_write.specs.Least.{LeastLines, OrderedLines};
ghost use Rattle.value_links.specs.Sections.{debug_line};
ghost use Rattle.value_links.specs.Reading.{Reading};
ghost use Rattle.value_links.specs.Whole.{IsReading};
ghost use Rattle.value_links.specs.World.{Holds, IsWorldOf};
ghost use Rattle.rewriter.specs.inside.Sections.{AreFor};
ghost use Rattle.rewriter.specs.inside.Anew.{AreAnew};

use crate::anew::{write_aranges, write_lines};
use crate::lists::{WrittenLists, write_kind};
use crate::new_places::{ListPlaces, NewPlaces, moved_views};
use crate::places::{PlacedUnits, place_units};
use crate::tables::write_tables;
use crate::units::write_units;
use certificates::magic;
use dw_base::{Classes, NoMemory};
use list_lookup::TableMaps;
use list_model::ListKind;
use loc_lists::locations_written;
use range_lists::ranges_written;
use std::alloc::Global;
use unit_write::values_have_sizes;
use value_links::World;

/// The new bodies of the debug sections that are written anew. One that the file lacks is empty.
#[derive(Drop)]
pub struct NewSections {
    /// .debug_info
    pub info: Vec<u8>,
    /// .debug_abbrev
    pub abbrevs: Vec<u8>,
    /// .debug_line
    pub lines: Vec<u8>,
    /// .debug_rnglists
    pub ranges: Vec<u8>,
    /// .debug_loclists
    pub locations: Vec<u8>,
    /// .debug_aranges
    pub aranges: Vec<u8>,
}

/// The sections of a file that are written anew, and its certificate.
#[derive(Drop)]
pub struct Anew {
    /// The sections.
    pub sections: NewSections,
    /// The record file that shows why their parts are least.
    pub certificate: Vec<u8>,
}

// A record file of these records for these classes: of line number programs, of range lists, of location lists and of units.
fn certificate_of(
    alloc: Global,
    classes: Classes,
    lines: Vec<u8>,
    ranges: Vec<u8>,
    locations: Vec<u8>,
    units: Vec<u8>,
) -> Result<Vec<u8>, NoMemory>
    ensures { IfOk result (λ certificate. certificate.items ≡ magic classes ++ (lines.items ++ (ranges.items ++ (locations.items ++ units.items)))) }
{
    let mut certificate = Vec::new(alloc);
    certificate.extend_from_slice(&magic(classes))?;
    certificate.extend_from_slice(&lines)?;
    certificate.extend_from_slice(&ranges)?;
    certificate.extend_from_slice(&locations)?;
    certificate.extend_from_slice(&units)?;
    Ok(certificate)
}

/// Writes the debug sections of a file anew in some classes: its line number programs and abbreviation tables, then its lists by the new
/// places of its units, then its units, and the sets of address ranges that name these; and the certificate that shows why nothing
/// shorter is in their classes. Each section has fewer than the 2^32 - 1 bytes that one of the 32-bit format can't have (DWARF 5 section
/// 7.4). The only error is want of memory.
pub fn write_sections(alloc: Global, classes: Classes, world: &World<'_>) -> Result<Anew, NoMemory>
    requires world { IsWorldOf world.now.image Narrow world.now }
    ensures anew { IfOk result (λ new. (r : Reading) → IsReading world.now.image r → Holds world.now.image world.now r → (s : Reading) × AreAnew classes world.now.image world.now r s new.sections new.certificate.items) }
    ensures sections { IfOk result (λ new. AreFor world.now.image new.sections) }
    ensures least { IfOk result (λ new. classes.lines ≡ true → LeastLines (debug_line world.now.image) new.sections.lines.items) }
    ensures order { IfOk result (λ new. classes.lines ≡ true → OrderedLines (debug_line world.now.image) new.sections.lines.items) }
    ensures kept { IfOk result (λ new. classes.lines ≡ false → new.sections.lines.items ≡ debug_line world.now.image) }
{
    // Laws, which cost nothing: what was read of a unit can be written, and lists that are written are read.
    values_have_sizes();
    ranges_written();
    locations_written();
    let lines = write_lines(alloc, classes, world)?;
    let tables = write_tables(alloc, classes, world)?;
    let PlacedUnits {
        places,
        records: unit_records,
    } = place_units(alloc, world, &tables.tables)?;
    let maps = TableMaps::new(alloc, world, world.section(b".debug_addr"))?;
    let WrittenLists {
        image: ranges,
        records: range_records,
    } = write_kind(alloc, classes, world, &maps, &places, ListKind::Ranges)?;
    let WrittenLists {
        image: locations,
        records: location_records,
    } = write_kind(alloc, classes, world, &maps, &places, ListKind::Locations)?;
    let certificate = certificate_of(
        alloc,
        classes,
        lines.records,
        range_records,
        location_records,
        unit_records,
    )?;
    let new_places = NewPlaces {
        programs: lines.starts,
        ranges: ListPlaces {
            parts: ranges.parts,
            lists: ranges.lists,
        },
        locations: ListPlaces {
            parts: locations.parts,
            lists: locations.lists,
        },
        views: moved_views(alloc, world.views(), &locations.views)?,
    };
    let info = write_units(alloc, world, &tables, &places, &new_places)?;
    let aranges = write_aranges(alloc, world, &places)?;
    let sections = NewSections {
        info,
        abbrevs: tables.bytes,
        lines: lines.bytes,
        ranges: ranges.bytes,
        locations: locations.bytes,
        aranges,
    };
    Ok(Anew {
        sections,
        certificate,
    })
}
