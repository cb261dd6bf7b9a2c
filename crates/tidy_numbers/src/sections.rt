// The first number of each section, as an offset in the file.
ghost use Rattle.std.specs.Prelude.{◌≡◌, ◌<◌, ◌+◌, length, IfOk, IfSome, IsNone, MatchOption, Some};
ghost use Rattle.dw_base.specs.declared.fault.Reach.{Reach};
ghost use Rattle.value_links.specs.Sections.{body_named, offset_named, debug_abbrev, debug_lists, abbrev_name, info_name, lists_name};
ghost use Rattle.value_links.specs.World.{IsWorldOf};
ghost use Rattle.tidy_places.specs.Firsts.{IsLeastFound};
ghost use Rattle.tidy_numbers.specs.LongNumbers.{HoldsIn, IsLongInTables, IsLongInInfo, IsLongInSection};
ghost use Rattle.tidy_numbers.specs.inside.Held.{OfReading};

use crate::fronts::earlier;
use crate::lists::first_in_lists;
use crate::operations::first_in_expressions;
use crate::tables::first_in_tables;
use crate::units::first_in_entries;
use crate::views::first_in_views;
use dw_base::{Classes, NoMemory};
use list_model::ListKind;
use std::alloc::Global;
use value_links::World;

// The file offset of a place in the section with a name.
fn in_file(world: &World<'_>, name: &[u8], place: Option<u64>) -> Option<u64>
    requires world { (reach : Reach) × IsWorldOf world.now.image reach world.now }
    requires inside { IfSome place (λ p. p < length (body_named world.now.image name.now)) }
    ensures { MatchOption place (IsNone result) (λ p. result ≡ Some (offset_named world.now.image name.now + p)) }
{
    let place = place?;
    let image = world.image();
    match image.find(name) {
        Some(section) => Some(image.offset(section) + place),
        // A section that isn't there has no places.
        None => unreachable!(),
    }
}

// The file offset of a place in the section of lists of a kind, where there is one.
fn in_lists(world: &World<'_>, kind: ListKind, place: Option<u64>) -> Option<u64>
    requires { IfSome place (λ p. p < length (debug_lists world.now.image kind)) }
    ensures { MatchOption place (IsNone result) (λ p. result ≡ Some (offset_named world.now.image (lists_name kind) + p)) }
{
    Some(world.lists_offset(kind, place?))
}

/// The first number of abbreviation tables with a byte too many, as an offset in the file.
pub(crate) fn first_in_abbrev(world: &World<'_>) -> Option<u64>
    requires { (reach : Reach) × IsWorldOf world.now.image reach world.now }
    ensures { OfReading world.now (λ s. IsLeastFound (HoldsIn world.now.image abbrev_name (IsLongInTables (debug_abbrev world.now.image) s)) result) }
{
    in_file(world, b".debug_abbrev".as_slice(), first_in_tables(world))
}

/// The first number of entries or of their expressions with a byte too many, as an offset in the file.
pub(crate) fn first_in_info(world: &World<'_>) -> Option<u64>
    requires { (reach : Reach) × IsWorldOf world.now.image reach world.now }
    ensures { OfReading world.now (λ s. IsLeastFound (HoldsIn world.now.image info_name (IsLongInInfo s)) result) }
{
    let place = earlier(first_in_entries(world), first_in_expressions(world));
    in_file(world, b".debug_info".as_slice(), place)
}

/// The first number of the lists of a kind or of their view pairs with a byte too many, as an offset in the file.
pub(crate) fn first_in_section(
    alloc: Global,
    classes: Classes,
    world: &World<'_>,
    kind: ListKind,
) -> Result<Option<u64>, NoMemory>
    requires { (reach : Reach) × IsWorldOf world.now.image reach world.now }
    ensures { IfOk result (λ place. OfReading world.now (λ s. IsLeastFound (HoldsIn world.now.image (lists_name kind) (IsLongInSection classes s kind)) place)) }
{
    let lists = first_in_lists(alloc, classes, world, kind)?;
    match kind {
        ListKind::Ranges => Ok(in_lists(world, kind, lists)),
        ListKind::Locations => {
            // Only location lists have view pairs.
            let place = earlier(lists, first_in_views(world));
            Ok(in_lists(world, kind, place))
        }
    }
}
