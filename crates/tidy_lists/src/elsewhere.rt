// Lists and view pairs that stand elsewhere than where they are due.
ghost use Rattle.std.specs.Prelude.{◌≡◌, length, IfOk};
ghost use Rattle.dw_base.specs.declared.fault.Reach.{Reach};
ghost use Rattle.value_links.specs.Reading.{lists_of};
ghost use Rattle.value_links.specs.Same.{Same};
ghost use Rattle.value_links.specs.World.{IsWorldOf, lists_held};
ghost use Rattle.tidy_places.specs.Firsts.{IsLeastFound};
ghost use Rattle.tidy_lists.specs.Due.{IsListElsewhere, IsElsewhere};
ghost use Rattle.tidy_lists.specs.inside.Compared.{OfBoth};
ghost use Rattle.tidy_lists.specs.inside.DuePlaces.{runs_of, runs_held, AreKindRunPairs, IsKindRunElsewhere, AreListsDue, AreRunsDue};
ghost use Rattle.tidy_lists.specs.inside.Pairs.{AreListPairs};

use crate::due::{DuePlaces, Place, due_places, run_count};
use crate::firsts::first_followers;
use crate::followers::{Follower, followers_of_lists, followers_of_runs};
use crate::least::{first_displaced, lesser};
use crate::standing::{list_places, run_places};
use dw_base::NoMemory;
use list_model::ListKind;
use std::alloc::Global;
use value_links::World;

// The runs of view pairs that go with lists of a kind and that the same value names. A pair may come several times.
fn followers_of_kind(
    alloc: Global,
    before: &World<'_>,
    after: &World<'_>,
    kind: ListKind,
) -> Result<Vec<Follower>, NoMemory>
    requires before { (reach : Reach) × IsWorldOf before.now.image reach before.now }
    requires after { (reach : Reach) × IsWorldOf after.now.image reach after.now }
    requires same { Same before.now.image after.now.image }
    ensures { IfOk result (λ pairs. OfBoth before.now after.now (λ r s. AreKindRunPairs kind r s pairs.items)) }
{
    match kind {
        ListKind::Ranges => Ok(Vec::new(alloc)),
        ListKind::Locations => followers_of_runs(alloc, before, after),
    }
}

// Where the old lists of a kind are due, and their runs of view pairs, by the pairs of old and written ones.
fn due_by(
    alloc: Global,
    before: &World<'_>,
    after: &World<'_>,
    kind: ListKind,
    lists: &[Follower],
    runs: &[Follower],
) -> Result<DuePlaces, NoMemory>
    requires before { (reach : Reach) × IsWorldOf before.now.image reach before.now }
    requires after { (reach : Reach) × IsWorldOf after.now.image reach after.now }
    requires same { Same before.now.image after.now.image }
    requires lists { OfBoth before.now after.now (λ r s. AreListPairs kind r s lists.now) }
    requires runs { OfBoth before.now after.now (λ r s. AreKindRunPairs kind r s runs.now) }
    ensures lists_long { IfOk result (λ due. length due.lists.items ≡ length (lists_held before.now kind)) }
    ensures runs_long { IfOk result (λ due. length due.runs.items ≡ length (runs_held before.now kind)) }
    ensures lists { IfOk result (λ due. OfBoth before.now after.now (λ r s. AreListsDue kind r s (length (lists_of r kind)) due.lists.items)) }
    ensures runs { IfOk result (λ due. OfBoth before.now after.now (λ r s. AreRunsDue kind r s (length (runs_of r kind)) due.runs.items)) }
{
    let first_lists = first_followers(alloc, lists, before.lists(kind).len())?;
    let first_runs = first_followers(alloc, runs, run_count(before, kind))?;
    due_places(alloc, before, after, kind, &first_lists, &first_runs)
}

// The first list of a kind that stands elsewhere than where it is due.
fn first_list_elsewhere(
    alloc: Global,
    before: &World<'_>,
    after: &World<'_>,
    kind: ListKind,
    pairs: &[Follower],
    due: &[Place],
) -> Result<Option<u64>, NoMemory>
    requires before { (reach : Reach) × IsWorldOf before.now.image reach before.now }
    requires after { (reach : Reach) × IsWorldOf after.now.image reach after.now }
    requires pairs { OfBoth before.now after.now (λ r s. AreListPairs kind r s pairs.now) }
    requires long { length due.now ≡ length (lists_held before.now kind) }
    requires due { OfBoth before.now after.now (λ r s. AreListsDue kind r s (length (lists_of r kind)) due.now) }
    ensures { IfOk result (λ place. OfBoth before.now after.now (λ r s. IsLeastFound (IsListElsewhere kind r s) place)) }
{
    let stands = list_places(alloc, after, kind)?;
    Ok(first_displaced(pairs, &stands, due))
}

// The first run of view pairs that stands elsewhere than where it is due, of those that go with lists of a kind.
fn first_run_elsewhere(
    alloc: Global,
    before: &World<'_>,
    after: &World<'_>,
    kind: ListKind,
    pairs: &[Follower],
    due: &[Place],
) -> Result<Option<u64>, NoMemory>
    requires before { (reach : Reach) × IsWorldOf before.now.image reach before.now }
    requires after { (reach : Reach) × IsWorldOf after.now.image reach after.now }
    requires pairs { OfBoth before.now after.now (λ r s. AreKindRunPairs kind r s pairs.now) }
    requires long { length due.now ≡ length (runs_held before.now kind) }
    requires due { OfBoth before.now after.now (λ r s. AreRunsDue kind r s (length (runs_of r kind)) due.now) }
    ensures { IfOk result (λ place. OfBoth before.now after.now (λ r s. IsLeastFound (IsKindRunElsewhere kind r s) place)) }
{
    let stands = run_places(alloc, after, kind)?;
    Ok(first_displaced(pairs, &stands, due))
}

/// The first list or run of view pairs of a section of lists that stands elsewhere than where it is due, by its place in the section.
pub(crate) fn first_elsewhere(
    alloc: Global,
    before: &World<'_>,
    after: &World<'_>,
    kind: ListKind,
) -> Result<Option<u64>, NoMemory>
    requires before { (reach : Reach) × IsWorldOf before.now.image reach before.now }
    requires after { (reach : Reach) × IsWorldOf after.now.image reach after.now }
    requires same { Same before.now.image after.now.image }
    ensures { IfOk result (λ place. OfBoth before.now after.now (λ r s. IsLeastFound (IsElsewhere kind r s) place)) }
{
    let lists = followers_of_lists(alloc, before, after, kind)?;
    let runs = followers_of_kind(alloc, before, after, kind)?;
    let due = due_by(alloc, before, after, kind, &lists, &runs)?;
    let list_place = first_list_elsewhere(alloc, before, after, kind, &lists, &due.lists)?;
    let run_place = first_run_elsewhere(alloc, before, after, kind, &runs, &due.runs)?;
    Ok(lesser(list_place, run_place))
}
