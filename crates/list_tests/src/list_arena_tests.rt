// Lists and runs of view pairs as they were pushed, among them numbers that are held whole.
ghost use Rattle.std.specs.Prelude.{◌<◌, length, slice_index_or, IsTrue};
ghost use Rattle.list_arena.specs.Held.{HeldViews, AreListsApart, ViewsRise};
ghost use Rattle.list_arena.specs.inside.Views.{IsRunBefore};

use dw_base::{NoMemory, Span};
use list_arena::{ListRead, Lists, Views};
use list_model::{Item, Items, Meaning, RawEntry};
use loc_lists::ViewPair;
use std::alloc::Global;
use std::process::Abort;
use std::test::Fail;

// A list, whose items are None where it is frozen.
#[derive(Clone, Copy)]
struct Sample<'r, 'i> {
    at: u64,
    part: u32,
    owner: Option<u32>,
    raw: &'r [RawEntry],
    live: Option<&'i [Item]>,
}

// A run of view pairs.
#[derive(Clone, Copy)]
struct Run<'r> {
    list: u64,
    at: u64,
    pairs: &'r [ViewPair],
}

// Places, and the numbers of the lists that begin there.
const LIST_PLACES: [(u64, Option<usize>); 6] = [
    (12, Some(0)),
    (45, Some(1)),
    (0x1_0000_0000, Some(2)),
    (0, None),
    (13, None),
    (0xffff_ffff_ffff_ffff, None),
];

// Places of lists and of pairs, and the numbers of the runs there.
const RUN_PLACES: [(u64, u64, Option<usize>); 6] = [
    (12, 8, Some(0)),
    (12, 0x8000_0000, Some(1)),
    (0xffff_ffff_ffff_ffff, 5, Some(2)),
    (12, 9, None),
    (5, 0xffff_ffff_ffff_ffff, None),
    (13, 8, None),
];

fn entries() -> [RawEntry; 2] {
    [
        RawEntry {
            at: 12,
            code: 4,
            a: 0x7fff_ffff,
            b: 0x8000_0000,
            expr: Span { at: 23, len: 1 },
        },
        RawEntry {
            at: 24,
            code: 7,
            a: 0x40_1000,
            b: 0xffff_ffff_ffff_ffff,
            expr: Span { at: 42, len: 2 },
        },
    ]
}

fn items() -> [Item; 2] {
    [
        Item {
            start: 0x8040_0fff,
            end: 0x8040_1000,
            whole: false,
            expr: Span { at: 23, len: 1 },
        },
        Item {
            start: 0x40_1000,
            end: 0xffff_ffff_ffff_ffff,
            whole: true,
            expr: Span { at: 42, len: 2 },
        },
    ]
}

fn base() -> RawEntry {
    RawEntry {
        at: 45,
        code: 6,
        a: 0xffff_ffff_ffff_fff0,
        b: 0,
        expr: Span { at: 0, len: 0 },
    }
}

fn meaning_of(alloc: Global, live: Option<&[Item]>) -> Result<Meaning, NoMemory> {
    let Some(live) = live else {
        return Ok(Meaning::Dead);
    };
    let mut items = Vec::new(alloc);
    for item in live {
        items.push(*item)?;
    }
    Ok(Meaning::Live(Items::new(items)))
}

fn list_of(alloc: Global, sample: Sample<'_, '_>) -> Result<ListRead, NoMemory> {
    let mut raw = Vec::new(alloc);
    for entry in sample.raw {
        raw.push(*entry)?;
    }
    let meaning = meaning_of(alloc, sample.live)?;
    Ok(ListRead::new(sample.at, sample.part, sample.owner, raw, meaning))
}

// Holds lists, with no spare memory.
fn lists_of(rt: &impl Abort, alloc: Global, samples: &[Sample<'_, '_>]) -> Result<Lists, NoMemory> {
    let mut lists = Lists::new(alloc);
    assert!(rt; lists.is_empty());
    for sample in samples {
        let list = list_of(alloc, *sample)?;
        lists.push(&list)?;
    }
    lists.shrink_to_fit();
    Ok(lists)
}

fn means(meaning: &Meaning, live: Option<&[Item]>) -> bool {
    match meaning {
        Meaning::Live(items) => match live {
            Some(expected) => items.as_slice() == expected,
            None => false,
        },
        Meaning::Dead => live.is_none(),
    }
}

// Asks for all that a list has.
fn check_list(
    rt: &impl Abort,
    alloc: Global,
    lists: &Lists,
    number: usize,
    sample: Sample<'_, '_>,
) -> Result<(), NoMemory> {
    assert!(rt; number < lists.len());
    assert_eq!(rt; lists.at(number), sample.at);
    assert_eq!(rt; lists.part(number), sample.part);
    assert_eq!(rt; lists.owner(number), sample.owner);
    assert_eq!(rt; lists.is_frozen(number), sample.live.is_none());
    assert_eq!(rt; lists.entry_count(number), sample.raw.len());
    for (index, entry) in sample.raw.iter().enumerate() {
        assert!(rt; index < lists.entry_count(number));
        assert_eq!(rt; lists.entry(number, index), *entry);
    }
    let list = lists.list(alloc, number)?;
    assert_eq!(rt; list.at(), sample.at);
    assert_eq!(rt; list.part(), sample.part);
    assert_eq!(rt; list.owner(), sample.owner);
    assert_eq!(rt; list.entries().as_slice(), sample.raw);
    assert!(rt; means(list.meaning(), sample.live));
    Ok(())
}

// Whether each list begins before a later one.
fn are_lists_apart(lists: &Lists) -> bool
    ensures { IsTrue result → AreListsApart lists.now }
{
    for later in 0..lists.len() {
        for earlier in 0..later {
            if lists.at(earlier) >= lists.at(later) {
                return false;
            }
        }
    }
    true
}

#[test]
fn lists_as_they_were_pushed(rt: HostRuntime) -> Result<(), Fail> {
    let alloc = rt.alloc();
    let entries = entries();
    let items = items();
    let bases = [base()];
    let samples = [
        Sample {
            at: 12,
            part: 0,
            owner: Some(0),
            raw: &entries,
            live: Some(&items),
        },
        Sample {
            at: 45,
            part: 0,
            owner: None,
            raw: &bases,
            live: None,
        },
        Sample {
            at: 0x1_0000_0000,
            part: 1,
            owner: Some(7),
            raw: &[],
            live: Some(&[]),
        },
    ];
    let lists = lists_of(&rt, alloc, &samples)?;
    assert_eq!(&rt; lists.len(), 3);
    for (number, sample) in samples.iter().enumerate() {
        check_list(&rt, alloc, &lists, number, *sample)?;
    }
    assert!(&rt; are_lists_apart(&lists));
    for (at, number) in LIST_PLACES {
        assert_eq!(&rt; lists.find(at), number);
    }
    Ok(())
}

fn pair(first: u64, last: u64) -> ViewPair {
    ViewPair { first, last }
}

// Asks for all that a run has.
fn check_run(rt: &impl Abort, views: &Views, number: usize, run: Run<'_>) {
    assert!(rt; number < views.len());
    assert_eq!(rt; views.list(number), run.list);
    assert_eq!(rt; views.at(number), run.at);
    assert_eq!(rt; views.pair_count(number), run.pairs.len());
    for (index, pair) in run.pairs.iter().enumerate() {
        assert!(rt; index < views.pair_count(number));
        assert_eq!(rt; views.pair(number, index), *pair);
    }
}

fn comes_before(views: &Views, earlier: usize, later: usize) -> bool
    requires earlier { earlier < length views.now }
    requires later { later < length views.now }
    ensures { IsTrue result → (d : HeldViews) → IsRunBefore (slice_index_or views.now earlier d) (slice_index_or views.now later d).list (slice_index_or views.now later d).at }
{
    views.list(earlier) < views.list(later)
        || views.list(earlier) == views.list(later) && views.at(earlier) < views.at(later)
}

// Whether each run comes before a later one.
fn are_views_apart(views: &Views) -> bool
    ensures { IsTrue result → ViewsRise views.now }
{
    for later in 0..views.len() {
        for earlier in 0..later {
            if !comes_before(views, earlier, later) {
                return false;
            }
        }
    }
    true
}

#[test]
fn views_as_they_were_pushed(rt: HostRuntime) -> Result<(), Fail> {
    let two = [pair(0, 0x8000_0000), pair(0xffff_ffff_ffff_ffff, 1)];
    let one = [pair(0x7fff_ffff, 2)];
    let runs = [
        Run {
            list: 12,
            at: 8,
            pairs: &two,
        },
        Run {
            list: 12,
            at: 0x8000_0000,
            pairs: &[],
        },
        Run {
            list: 0xffff_ffff_ffff_ffff,
            at: 5,
            pairs: &one,
        },
    ];
    let mut views = Views::new(rt.alloc());
    assert!(&rt; views.is_empty());
    for run in runs {
        views.push(run.list, run.at, run.pairs)?;
    }
    views.shrink_to_fit();
    assert_eq!(&rt; views.len(), 3);
    for (number, run) in runs.iter().enumerate() {
        check_run(&rt, &views, number, *run);
    }
    assert!(&rt; are_views_apart(&views));
    for (list, at, number) in RUN_PLACES {
        assert_eq!(&rt; views.find(list, at), number);
    }
    Ok(())
}
