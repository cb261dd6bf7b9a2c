// Which lists and view pairs of a written file are those of the old file.
ghost use Rattle.std.specs.Prelude.{◌≡◌, ◌<◌, ◌⊎◌, ◌↔◌, ℕ, length, IfOk, OnOk};
ghost use Rattle.std.specs.List.{Contains};
ghost use Rattle.dw_base.specs.declared.fault.Reach.{Reach};
ghost use Rattle.value_links.specs.Links.{held_at};
ghost use Rattle.value_links.specs.Same.{Same};
ghost use Rattle.value_links.specs.World.{IsWorldOf, contributions_held, contribution_at};
ghost use Rattle.tidy_lists.specs.declared.followers.Follower.{Follower as AnyFollower};
ghost use Rattle.tidy_lists.specs.inside.Compared.{OfBoth};
ghost use Rattle.tidy_lists.specs.inside.NamedNumbers.{Adds, ArePairedBy, ArePairedIn, ArePairedByValues, ArePairedBySlot, ArePairedInPart, ArePairedBySlots};
ghost use Rattle.tidy_lists.specs.inside.Pairs.{AreListPairs, AreRunPairs};

mod named;

use dw_base::NoMemory;
use list_model::ListKind;
use named::{Sought, named_by, named_by_slot};
use std::alloc::Global;
use value_links::World;

/// A list of the old file and one of the written file that it is, or two runs of view pairs, by their numbers.
#[derive(Clone, Copy, Debug, PartialEq, Eq)]
pub struct Follower {
    pub old: u32,
    pub new: u32,
}

// Appends a pair, unless it is the last one: values that follow one another often name the same list.
fn push_pair(pairs: &mut Vec<Follower>, pair: Follower) -> Result<(), NoMemory>
    ensures { OnOk result ((x : AnyFollower) → Contains pairs.new.items x ↔ (Contains pairs.old.items x ⊎ (pair ≡ x))) }
{
    if let Some(last) = pairs.last() {
        if *last == pair {
            return Ok(());
        }
    }
    pairs.push(pair)?;
    Ok(())
}

// Appends the pair that the value with a number in a unit of both files names, where it names one in each.
fn push_named(
    pairs: &mut Vec<Follower>,
    before: &World<'_>,
    after: &World<'_>,
    sought: Sought,
    unit: u32,
    number: u32,
) -> Result<(), NoMemory>
    requires before { (reach : Reach) × IsWorldOf before.now.image reach before.now }
    requires after { (reach : Reach) × IsWorldOf after.now.image reach after.now }
    requires unit { unit < length before.now.units }
    requires again { unit < length after.now.units }
    requires number { number < length (held_at before.now.units unit).forest.values }
    requires other { number < length (held_at after.now.units unit).forest.values }
    ensures { OnOk result (OfBoth before.now after.now (λ r s. Adds (ArePairedBy sought r s unit number) pairs.old.items pairs.new.items)) }
{
    let Some(old) = named_by(before, sought, unit, number) else {
        return Ok(());
    };
    let Some(new) = named_by(after, sought, unit, number) else {
        return Ok(());
    };
    push_pair(pairs, Follower { old, new })
}

// Appends the pairs that values of a unit name. Files that mean the same have as many values, so that none is left out.
fn push_unit(
    pairs: &mut Vec<Follower>,
    before: &World<'_>,
    after: &World<'_>,
    sought: Sought,
    unit: u32,
) -> Result<(), NoMemory>
    requires before { (reach : Reach) × IsWorldOf before.now.image reach before.now }
    requires after { (reach : Reach) × IsWorldOf after.now.image reach after.now }
    requires unit { unit < length before.now.units }
    requires again { unit < length after.now.units }
    ensures { OnOk result (OfBoth before.now after.now (λ r s. Adds (ArePairedIn sought r s unit) pairs.old.items pairs.new.items)) }
{
    let old = before.units()[unit as usize].forest().value_count();
    let new = after.units()[unit as usize].forest().value_count();
    for number in 0..old.min(new) {
        push_named(pairs, before, after, sought, unit, number)?;
    }
    Ok(())
}

// Appends the pairs that values name.
fn push_by_values(
    pairs: &mut Vec<Follower>,
    before: &World<'_>,
    after: &World<'_>,
    sought: Sought,
) -> Result<(), NoMemory>
    requires before { (reach : Reach) × IsWorldOf before.now.image reach before.now }
    requires after { (reach : Reach) × IsWorldOf after.now.image reach after.now }
    ensures { OnOk result (OfBoth before.now after.now (λ r s. Adds (ArePairedByValues sought r s) pairs.old.items pairs.new.items)) }
{
    let common = before.units().len().min(after.units().len()) as u32;
    for unit in 0..common {
        push_unit(pairs, before, after, sought, unit)?;
    }
    Ok(())
}

// Appends the pair that a slot of both files names.
fn push_slot(
    pairs: &mut Vec<Follower>,
    before: &World<'_>,
    after: &World<'_>,
    kind: ListKind,
    part: u32,
    slot: u32,
) -> Result<(), NoMemory>
    requires before { (reach : Reach) × IsWorldOf before.now.image reach before.now }
    requires after { (reach : Reach) × IsWorldOf after.now.image reach after.now }
    requires part { part < length (contributions_held before.now kind) }
    requires again { part < length (contributions_held after.now kind) }
    requires slot { slot < (contribution_at before.now kind part).slots }
    requires other { slot < (contribution_at after.now kind part).slots }
    ensures { OnOk result (OfBoth before.now after.now (λ r s. Adds (ArePairedBySlot kind r s part slot) pairs.old.items pairs.new.items)) }
{
    let old = named_by_slot(before, kind, part, slot);
    let new = named_by_slot(after, kind, part, slot);
    push_pair(pairs, Follower { old, new })
}

// Appends the pairs that slots of a contribution name. Files that mean the same have as many slots.
fn push_part(
    pairs: &mut Vec<Follower>,
    before: &World<'_>,
    after: &World<'_>,
    kind: ListKind,
    part: u32,
) -> Result<(), NoMemory>
    requires before { (reach : Reach) × IsWorldOf before.now.image reach before.now }
    requires after { (reach : Reach) × IsWorldOf after.now.image reach after.now }
    requires part { part < length (contributions_held before.now kind) }
    requires again { part < length (contributions_held after.now kind) }
    ensures { OnOk result (OfBoth before.now after.now (λ r s. Adds (ArePairedInPart kind r s part) pairs.old.items pairs.new.items)) }
{
    let old = before.contributions(kind)[part as usize].slots;
    let new = after.contributions(kind)[part as usize].slots;
    for slot in 0..old.min(new) {
        push_slot(pairs, before, after, kind, part, slot)?;
    }
    Ok(())
}

// Appends the pairs that slots name.
fn push_by_slots(
    pairs: &mut Vec<Follower>,
    before: &World<'_>,
    after: &World<'_>,
    kind: ListKind,
) -> Result<(), NoMemory>
    requires before { (reach : Reach) × IsWorldOf before.now.image reach before.now }
    requires after { (reach : Reach) × IsWorldOf after.now.image reach after.now }
    ensures { OnOk result (OfBoth before.now after.now (λ r s. Adds (ArePairedBySlots kind r s) pairs.old.items pairs.new.items)) }
{
    let (old, new) = (before.contributions(kind), after.contributions(kind));
    let common = old.len().min(new.len()) as u32;
    for part in 0..common {
        push_part(pairs, before, after, kind, part)?;
    }
    Ok(())
}

/// The lists of a kind that the same value names, or the same slot. A pair may come several times.
pub(crate) fn followers_of_lists(
    alloc: Global,
    before: &World<'_>,
    after: &World<'_>,
    kind: ListKind,
) -> Result<Vec<Follower>, NoMemory>
    requires before { (reach : Reach) × IsWorldOf before.now.image reach before.now }
    requires after { (reach : Reach) × IsWorldOf after.now.image reach after.now }
    requires same { Same before.now.image after.now.image }
    ensures { IfOk result (λ pairs. OfBoth before.now after.now (λ r s. AreListPairs kind r s pairs.items)) }
{
    let mut pairs: Vec<Follower> = Vec::new(alloc);
    push_by_values(&mut pairs, before, after, Sought::Lists(kind))?;
    push_by_slots(&mut pairs, before, after, kind)?;
    Ok(pairs)
}

/// The runs of view pairs that the same value names. A pair may come several times.
pub(crate) fn followers_of_runs(
    alloc: Global,
    before: &World<'_>,
    after: &World<'_>,
) -> Result<Vec<Follower>, NoMemory>
    requires before { (reach : Reach) × IsWorldOf before.now.image reach before.now }
    requires after { (reach : Reach) × IsWorldOf after.now.image reach after.now }
    requires same { Same before.now.image after.now.image }
    ensures { IfOk result (λ pairs. OfBoth before.now after.now (λ r s. AreRunPairs r s pairs.items)) }
{
    let mut pairs: Vec<Follower> = Vec::new(alloc);
    push_by_values(&mut pairs, before, after, Sought::Runs)?;
    Ok(pairs)
}
