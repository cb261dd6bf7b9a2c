// The least places of a file at which something is amiss with its lists, by offsets in the file.
ghost use Rattle.std.specs.Prelude.{◌≡◌, ◌≤◌, ◌+◌, length, IfOk, IfSome, option_map};
ghost use Rattle.dw_base.specs.declared.fault.Reach.{Reach};
ghost use Rattle.value_links.specs.Same.{Same};
ghost use Rattle.value_links.specs.Sections.{offset_named, lists_name, debug_lists};
ghost use Rattle.value_links.specs.World.{IsWorldOf};
ghost use Rattle.tidy_places.specs.Firsts.{IsLeastFound};
ghost use Rattle.tidy_lists.specs.Due.Row.{OfList, OfLooseByte};
ghost use Rattle.tidy_lists.specs.inside.Compared.{OfBoth};
ghost use Rattle.tidy_lists.specs.inside.LeastPlaces.{RowHolds};

use crate::elsewhere::first_elsewhere;
use crate::least::lesser;
use crate::loose::first_loose_byte;
use dw_base::NoMemory;
use list_model::ListKind;
use std::alloc::Global;
use value_links::World;

// A place of the section of lists of a kind, where there is one, as an offset in the file.
fn in_file(world: &World<'_>, kind: ListKind, place: Option<u64>) -> Option<u64>
    requires { IfSome place (λ at. at ≤ length (debug_lists world.now.image kind)) }
    ensures { result ≡ option_map (λ at. offset_named world.now.image (lists_name kind) + at) place }
{
    match place {
        Some(at) => Some(world.lists_offset(kind, at)),
        None => None,
    }
}

/// The first list or run of view pairs that stands elsewhere than where it is due.
pub(crate) fn first_list(
    alloc: Global,
    before: &World<'_>,
    after: &World<'_>,
) -> Result<Option<u64>, NoMemory>
    requires before { (reach : Reach) × IsWorldOf before.now.image reach before.now }
    requires after { (reach : Reach) × IsWorldOf after.now.image reach after.now }
    requires same { Same before.now.image after.now.image }
    ensures { IfOk result (λ place. OfBoth before.now after.now (λ r s. IsLeastFound (RowHolds after.now.image OfList r s) place)) }
{
    let ranges = first_elsewhere(alloc, before, after, ListKind::Ranges)?;
    let locations = first_elsewhere(alloc, before, after, ListKind::Locations)?;
    Ok(lesser(
        in_file(after, ListKind::Ranges, ranges),
        in_file(after, ListKind::Locations, locations),
    ))
}

/// The first byte of a contribution, behind its offsets, that no list has and no view pairs.
pub(crate) fn first_loose(alloc: Global, after: &World<'_>) -> Result<Option<u64>, NoMemory>
    requires { (reach : Reach) × IsWorldOf after.now.image reach after.now }
    ensures { IfOk result (λ place. OfBoth after.now after.now (λ r s. IsLeastFound (RowHolds after.now.image OfLooseByte r s) place)) }
{
    let ranges = first_loose_byte(alloc, after, ListKind::Ranges)?;
    let locations = first_loose_byte(alloc, after, ListKind::Locations)?;
    Ok(lesser(
        in_file(after, ListKind::Ranges, ranges),
        in_file(after, ListKind::Locations, locations),
    ))
}
