// Where the lists and view pairs of an old file are due in the written one.
ghost use Rattle.std.specs.Prelude.{◌≡◌, ◌≤◌, ◌<◌, length, IfOk, OnOk};
ghost use Rattle.dw_base.specs.declared.fault.Reach.{Reach};
ghost use Rattle.list_model.specs.Contributions.{lists_at};
ghost use Rattle.value_links.specs.Reading.{lists_of};
ghost use Rattle.value_links.specs.Same.{Same};
ghost use Rattle.value_links.specs.World.{IsWorldOf, lists_held};
ghost use Rattle.tidy_lists.specs.inside.Compared.{OfBoth};
ghost use Rattle.tidy_lists.specs.inside.DuePlaces.{held_place, runs_of, runs_held, AreFirstLists, AreFirstRuns, pieces_before, IsHeldEnd, AreListsDue, AreRunsDue, IsNextDue, AreRunsHeld};

use crate::lengths::{list_len, run_len};
use dw_base::NoMemory;
use list_model::{Contribution, ListKind};
use std::alloc::Global;
use value_links::World;

/// Where a list or a run of view pairs stands or is due: the number of its contribution, and the place of its first byte, counted from the
/// first byte of the section.
#[derive(Clone, Copy, Debug, PartialEq, Eq)]
pub struct Place {
    pub part: u32,
    pub at: u64,
}

/// Where the old lists of a kind are due in the written file, and the runs of view pairs that go with them, both by their numbers. Where a
/// place would be past `u64::MAX`, that stands for it, at which nothing stands.
#[derive(Drop)]
pub(crate) struct DuePlaces {
    pub(crate) lists: Vec<Place>,
    pub(crate) runs: Vec<Place>,
}

// The bytes of the header of a contribution.
const PART_HEADER_SIZE: u64 = 12;

// The bytes of an offset.
const OFFSET_SIZE: u64 = 4;

/// How many runs of view pairs of a file go with lists of a kind; range lists have none.
pub(crate) fn run_count(world: &World<'_>, kind: ListKind) -> usize
    ensures { result ≡ length (runs_held world.now kind) }
{
    match kind {
        ListKind::Ranges => 0,
        ListKind::Locations => world.views().len(),
    }
}

// Where the lists of a contribution begin, behind its offsets.
fn lists_begin(part: &Contribution) -> u64
    ensures { result ≡ held_place (lists_at part.now) }
{
    part.at
        .saturating_add(PART_HEADER_SIZE + OFFSET_SIZE * u64::from(part.slots))
}

// Where the list with a number is due with its view pairs: behind the list before, where that is of the same contribution, and else where
// the lists of its contribution begin. `due` has the places of the lists before, and `firsts` the first written lists that the old ones are.
fn begin_of(
    before: &World<'_>,
    after: &World<'_>,
    kind: ListKind,
    firsts: &[u32],
    due: &[Place],
    number: usize,
) -> Place
    requires before { (reach : Reach) × IsWorldOf before.now.image reach before.now }
    requires after { (reach : Reach) × IsWorldOf after.now.image reach after.now }
    requires same { Same before.now.image after.now.image }
    requires inside { number < length (lists_held before.now kind) }
    requires count { length due.now ≡ number }
    requires long { length firsts.now ≡ length (lists_held before.now kind) }
    requires firsts { OfBoth before.now after.now (λ r s. AreFirstLists kind r s firsts.now) }
    requires due { OfBoth before.now after.now (λ r s. AreListsDue kind r s number due.now) }
    ensures { OfBoth before.now after.now (λ r s. IsHeldEnd kind r s number (pieces_before r kind number) result) }
{
    let part = before.lists(kind).part(number);
    if number > 0 && due[number - 1].part == part {
        let len = list_len(after, kind, firsts[number - 1]);
        let at = due[number - 1].at.saturating_add(len);
        return Place { part, at };
    }
    let at = lists_begin(&after.contributions(kind)[part as usize]);
    Place { part, at }
}

// Appends where the runs of view pairs of a list are due, one behind the other from a place on, and returns where the list is due behind
// them. `firsts` are the first written runs that the old ones are.
fn push_runs(
    before: &World<'_>,
    after: &World<'_>,
    kind: ListKind,
    firsts: &[u32],
    number: usize,
    begin: Place,
    due: &mut Vec<Place>,
) -> Result<Place, NoMemory>
    requires before { (reach : Reach) × IsWorldOf before.now.image reach before.now }
    requires after { (reach : Reach) × IsWorldOf after.now.image reach after.now }
    requires inside { number < length (lists_held before.now kind) }
    requires long { length firsts.now ≡ length (runs_held before.now kind) }
    requires firsts { OfBoth before.now after.now (λ r s. AreFirstRuns kind r s firsts.now) }
    requires within { length due.old.items ≤ length (runs_held before.now kind) }
    requires due { OfBoth before.now after.now (λ r s. IsNextDue kind r s number due.old.items begin) }
    ensures next { IfOk result (λ next. OfBoth before.now after.now (λ r s. IsNextDue kind r s number due.new.items next)) }
    ensures runs { OnOk result (AreRunsHeld before.now kind number (length due.old.items) (length due.new.items)) }
{
    let views = before.views();
    let count = run_count(before, kind);
    let list = before.lists(kind).at(number);
    let mut next = begin;
    while due.len() < count && views.list(due.len()) == list {
        let len = run_len(after, firsts[due.len()]);
        due.push(next)?;
        next.at = next.at.saturating_add(len);
    }
    Ok(next)
}

/// Where the old lists of a kind are due in the written file, and their runs of view pairs (DWARF 5 sections 7.28 and 7.29): in their
/// contributions, one behind the other behind the offsets, by rising old place, and each list directly behind its runs. `first_lists` and
/// `first_runs` are the numbers of the first written ones that the old ones are.
pub(crate) fn due_places(
    alloc: Global,
    before: &World<'_>,
    after: &World<'_>,
    kind: ListKind,
    first_lists: &[u32],
    first_runs: &[u32],
) -> Result<DuePlaces, NoMemory>
    requires before { (reach : Reach) × IsWorldOf before.now.image reach before.now }
    requires after { (reach : Reach) × IsWorldOf after.now.image reach after.now }
    requires same { Same before.now.image after.now.image }
    requires lists_long { length first_lists.now ≡ length (lists_held before.now kind) }
    requires runs_long { length first_runs.now ≡ length (runs_held before.now kind) }
    requires first_lists { OfBoth before.now after.now (λ r s. AreFirstLists kind r s first_lists.now) }
    requires first_runs { OfBoth before.now after.now (λ r s. AreFirstRuns kind r s first_runs.now) }
    ensures lists_long { IfOk result (λ due. length due.lists.items ≡ length (lists_held before.now kind)) }
    ensures runs_long { IfOk result (λ due. length due.runs.items ≡ length (runs_held before.now kind)) }
    ensures lists { IfOk result (λ due. OfBoth before.now after.now (λ r s. AreListsDue kind r s (length (lists_of r kind)) due.lists.items)) }
    ensures runs { IfOk result (λ due. OfBoth before.now after.now (λ r s. AreRunsDue kind r s (length (runs_of r kind)) due.runs.items)) }
{
    let mut lists = Vec::new(alloc);
    let mut runs = Vec::new(alloc);
    for number in 0..before.lists(kind).len() {
        let begin = begin_of(before, after, kind, first_lists, &lists, number);
        let next = push_runs(before, after, kind, first_runs, number, begin, &mut runs)?;
        lists.push(next)?;
    }
    Ok(DuePlaces { lists, runs })
}
