// Bytes of contributions that no list has and no view pairs. A span of bytes is a pair: the place of the first byte, and how many there are.
ghost use Rattle.std.specs.Prelude.{◌<◌, length, IfOk, OnOk};
ghost use Rattle.dw_base.specs.declared.fault.Reach.{Reach};
ghost use Rattle.list_model.specs.declared.entry.ListKind.TheVariants.{Locations as OfLocations};
ghost use Rattle.value_links.specs.World.{IsWorldOf, lists_held};
ghost use Rattle.tidy_places.specs.Firsts.{IsLeastFound};
ghost use Rattle.tidy_lists.specs.Due.{IsLoose};
ghost use Rattle.tidy_lists.specs.inside.Compared.{OfBoth};
ghost use Rattle.tidy_lists.specs.inside.LooseBytes.{EndBy, AreRising, IsGap, AddsBytes, AddsSpan, AreTaken, section_end, HasHeadByteAt, HasListByteAt, HasRunByteAt, HasRunByteIn, SomeBytes};
ghost use Rattle.tidy_lists.specs.inside.NamedNumbers.{OfReading};

use crate::lengths::{list_len, run_len};
use dw_base::NoMemory;
use leb_codec::numbers_end;
use list_model::ListKind;
use loc_lists::locations_end;
use range_lists::ranges_end;
use std::alloc::Global;
use value_links::World;

// The bytes of a contribution's header, which its offsets follow.
const HEADER_SIZE: u64 = 12;

// The bytes of an offset.
const OFFSET_SIZE: u64 = 4;

// Appends a span of bytes.
fn push_span(spans: &mut Vec<(u64, u64)>, start: u64, len: u64) -> Result<(), NoMemory>
    ensures { OnOk result (AddsSpan start len spans.old.items spans.new.items) }
{
    spans.push((start, len))?;
    Ok(())
}

// Appends the spans of the headers of contributions of a kind with their offsets.
fn push_heads(
    spans: &mut Vec<(u64, u64)>,
    world: &World<'_>,
    kind: ListKind,
) -> Result<(), NoMemory>
    ensures { OnOk result (OfReading world.now (λ s. AddsBytes (section_end kind s) (SomeBytes (HasHeadByteAt kind s)) spans.old.items spans.new.items)) }
{
    for part in world.contributions(kind) {
        push_span(
            spans,
            part.at,
            HEADER_SIZE + OFFSET_SIZE * u64::from(part.slots),
        )?;
    }
    Ok(())
}

// Appends the span of the list of a kind with a number.
fn push_list(
    spans: &mut Vec<(u64, u64)>,
    world: &World<'_>,
    kind: ListKind,
    number: u32,
) -> Result<(), NoMemory>
    requires world { (reach : Reach) × IsWorldOf world.now.image reach world.now }
    requires inside { number < length (lists_held world.now kind) }
    ensures { OnOk result (OfReading world.now (λ s. AddsBytes (section_end kind s) (HasListByteAt kind s number) spans.old.items spans.new.items)) }
{
    // The bytes of a list end by themselves, so that it has one length.
    ranges_end();
    locations_end();
    let start = world.lists(kind).at(number as usize);
    push_span(spans, start, list_len(world, kind, number))
}

// Appends the spans of the lists of a kind.
fn push_lists(
    spans: &mut Vec<(u64, u64)>,
    world: &World<'_>,
    kind: ListKind,
) -> Result<(), NoMemory>
    requires world { (reach : Reach) × IsWorldOf world.now.image reach world.now }
    ensures { OnOk result (OfReading world.now (λ s. AddsBytes (section_end kind s) (SomeBytes (HasListByteAt kind s)) spans.old.items spans.new.items)) }
{
    for number in 0..world.lists(kind).len() {
        push_list(spans, world, kind, number as u32)?;
    }
    Ok(())
}

// Appends the span of the run of view pairs with a number.
fn push_run(spans: &mut Vec<(u64, u64)>, world: &World<'_>, number: u32) -> Result<(), NoMemory>
    requires world { (reach : Reach) × IsWorldOf world.now.image reach world.now }
    requires inside { number < length world.now.views }
    ensures { OnOk result (OfReading world.now (λ s. AddsBytes (section_end OfLocations s) (HasRunByteAt s number) spans.old.items spans.new.items)) }
{
    // The bytes of a number end by themselves, so that a run has one length.
    numbers_end();
    let start = world.views().at(number as usize);
    push_span(spans, start, run_len(world, number))
}

// Appends the spans of the runs of view pairs.
fn push_runs(spans: &mut Vec<(u64, u64)>, world: &World<'_>) -> Result<(), NoMemory>
    requires world { (reach : Reach) × IsWorldOf world.now.image reach world.now }
    ensures { OnOk result (OfReading world.now (λ s. AddsBytes (section_end OfLocations s) (SomeBytes (HasRunByteAt s)) spans.old.items spans.new.items)) }
{
    for number in 0..world.views().len() {
        push_run(spans, world, number as u32)?;
    }
    Ok(())
}

// Appends the spans of what stands among lists of a kind besides them: view pairs among location lists.
fn push_runs_among(
    spans: &mut Vec<(u64, u64)>,
    world: &World<'_>,
    kind: ListKind,
) -> Result<(), NoMemory>
    requires world { (reach : Reach) × IsWorldOf world.now.image reach world.now }
    ensures { OnOk result (OfReading world.now (λ s. AddsBytes (section_end kind s) (HasRunByteIn kind s) spans.old.items spans.new.items)) }
{
    match kind {
        ListKind::Ranges => Ok(()),
        ListKind::Locations => push_runs(spans, world),
    }
}

// The spans of all that has bytes of the section of lists of a kind, by rising place: headers with their offsets, lists, and view pairs.
fn taken_spans(
    alloc: Global,
    world: &World<'_>,
    kind: ListKind,
) -> Result<Vec<(u64, u64)>, NoMemory>
    requires world { (reach : Reach) × IsWorldOf world.now.image reach world.now }
    ensures those { IfOk result (λ spans. OfReading world.now (λ s. AreTaken kind s spans.items)) }
    ensures rising { IfOk result (λ spans. AreRising spans.items) }
{
    let mut spans: Vec<(u64, u64)> = Vec::new(alloc);
    push_heads(&mut spans, world, kind)?;
    push_lists(&mut spans, world, kind)?;
    push_runs_among(&mut spans, world, kind)?;
    spans.sort_unstable();
    Ok(spans)
}

// The first byte before an end that none of the spans has.
fn first_gap(spans: &[(u64, u64)], end: u64) -> Option<u64>
    requires rising { AreRising spans.now }
    requires within { EndBy end spans.now }
    ensures { IsLeastFound (IsGap spans.now end) result }
{
    // All bytes before this place are those of spans, and no span so far goes past it.
    let mut covered = 0;
    for &(start, len) in spans {
        if covered < start {
            return Some(covered);
        }
        covered = covered.max(start + len);
    }
    if covered < end { Some(covered) } else { None }
}

/// The first byte of a contribution of lists of a kind, behind its offsets, that no list has and no view pairs, by its place in the section.
pub(crate) fn first_loose_byte(
    alloc: Global,
    after: &World<'_>,
    kind: ListKind,
) -> Result<Option<u64>, NoMemory>
    requires after { (reach : Reach) × IsWorldOf after.now.image reach after.now }
    ensures { IfOk result (λ place. OfBoth after.now after.now (λ r s. IsLeastFound (IsLoose kind s) place)) }
{
    // Contributions fill the section, so that a loose byte is one that nothing has, their headers and offsets among what does.
    let spans = taken_spans(alloc, after, kind)?;
    Ok(first_gap(&spans, after.lists_section(kind).len() as u64))
}
