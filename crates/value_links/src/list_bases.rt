// The contributions that the roots of units name, from whose offsets the indexes of their lists count (DWARF 5 sections 7.28 and 7.29).
ghost use Rattle.std.specs.Prelude.{◌≡◌, ◌<◌, length, IfOk};
ghost use Rattle.entry_read.specs.Units.{declarations_of};
ghost use Rattle.value_links.specs.ListPlaces.{base_of};
ghost use Rattle.value_links.specs.Links.{held_at};
ghost use Rattle.value_links.specs.Parts.{section_held};
ghost use Rattle.value_links.specs.inside.Checks.{AreSomeUnits, table_held, root_attributes};
ghost use Rattle.value_links.specs.inside.ListPlaces.{AreContributions, IsPartFound, AreBasesHeld};

use crate::check::{base_of as root_base, table_of};
use crate::link::unit_of;
use crate::list_places::{Contributions, part_with_offsets};
use crate::units::Units;
use dw_base::NoMemory;
use dw_base::constants::{DW_AT_LOCLISTS_BASE, DW_AT_RNGLISTS_BASE};
use list_model::ListKind;
use std::alloc::Global;

// The attribute by which a root gives the base of the indexes of a kind.
fn base_name(kind: ListKind) -> u64
    ensures { result ≡ base_of kind }
{
    match kind {
        ListKind::Ranges => DW_AT_RNGLISTS_BASE,
        ListKind::Locations => DW_AT_LOCLISTS_BASE,
    }
}

// The contribution to a section of lists of a kind that the root of the unit with a number names.
fn base_for(
    kind: ListKind,
    contributions: &Contributions<'_>,
    held: &Units<'_>,
    number: u32,
) -> Option<u32>
    requires contributions { AreContributions contributions.now }
    requires held { AreSomeUnits held.now }
    requires number { number < length held.now.units.items }
    ensures { IsPartFound (section_held contributions.now) (root_attributes (held_at held.now.units.items number).forest (declarations_of (table_held held.now number))) (base_of kind) result }
{
    let unit = unit_of(held, number);
    let base = root_base(unit, table_of(held, number), base_name(kind))?;
    part_with_offsets(contributions, base)
}

/// Of each unit the contribution to a section of lists of a kind that its root names. The only error is want of memory.
pub(crate) fn bases_of(
    alloc: Global,
    kind: ListKind,
    contributions: &Contributions<'_>,
    held: &Units<'_>,
) -> Result<Vec<Option<u32>>, NoMemory>
    requires contributions { AreContributions contributions.now }
    requires held { AreSomeUnits held.now }
    ensures { IfOk result (λ bases. AreBasesHeld (section_held contributions.now) (base_of kind) held.now bases.items) }
{
    let mut bases = Vec::new(alloc);
    for number in 0..held.units.len() as u32 {
        bases.push(base_for(kind, contributions, held, number))?;
    }
    Ok(bases)
}
