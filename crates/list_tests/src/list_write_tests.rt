// Sections of lists written anew, by hand from the layouts of DWARF 5 sections 7.7.3, 7.25, 7.28 and 7.29.
ghost use Rattle.std.specs.Prelude.{◌≡◌, ◌≤◌, ◌+◌, List, length, map, IfOk, IfSome, IsTrue, OnOk};
ghost use Rattle.std.specs.List.{All, sum_by};
ghost use Rattle.list_model.specs.Contributions.{lists_at, IsContribution};
ghost use Rattle.list_model.specs.Entries.{Entry};
ghost use Rattle.list_least.specs.Plans.{IsPick, ArePicks};
ghost use Rattle.list_least.specs.Shortest.{FitsOperand};
ghost use Rattle.list_write.specs.Written.{pieces, AreEnds, run_of, to_write, behind_size, pair_size, run_size, front_size as front_bytes, AllAreTold};
ghost use Rattle.list_write.specs.inside.Puts.{carried_count, carries};
ghost use Rattle.list_tests.specs.Writable.{AreSized, IsEntry, AreEntries, AtsRise, IsHeld, AreHeld, HasList, AreTold, HasRoom};

use dw_base::Span;
use fixed_width::u32_at;
use leb_codec::len_u;
use list_least::Pick;
use list_model::{
    Contribution, EntryKind, ListKind, Operand, RawEntry, contributions, first_operand, kind_of,
    second_operand,
};
use list_write::{ListImage, Moved, NamedList, NewExpressions, ViewRun, kept_plan, write_lists};
use loc_lists::ViewPair;
use std::alloc::Global;
use std::process::Abort;
use std::test::Fail;

// ---- what can be written

// The bytes of a contribution's header, and of each of its offsets.
const HEADER_SIZE: usize = 12;

const OFFSET_SIZE: usize = 4;

// Whether some bytes spell an operand.
fn fits(operand: Operand, value: u64) -> bool
    ensures { IsTrue result → FitsOperand operand value }
{
    match operand {
        Operand::Absent => value == 0,
        Operand::Number | Operand::Address => true,
    }
}

// Whether some bytes spell an entry.
fn is_entry(kind: ListKind, raw: &RawEntry) -> bool
    ensures { IsTrue result → IsEntry kind raw.now }
{
    let Some(entry_kind) = kind_of(kind, raw.code) else {
        return false;
    };
    fits(first_operand(entry_kind), raw.a) && fits(second_operand(entry_kind), raw.b)
}

// Whether some bytes spell entries.
fn are_entries(kind: ListKind, raws: &Vec<RawEntry>) -> bool
    ensures { IsTrue result → AreEntries kind raws.now.items }
{
    for raw in raws {
        if !is_entry(kind, raw) {
            return false;
        }
    }
    true
}

// Whether lists stand by rising places.
fn are_rising(lists: &Vec<NamedList>) -> bool
    ensures { IsTrue result → AtsRise (map to_write lists.now.items) }
{
    for number in 1..lists.len() {
        if lists[number].at <= lists[number - 1].at {
            return false;
        }
    }
    true
}

// The bytes of a contribution before its lists.
fn front_size(part: &Contribution) -> u64
    ensures { result ≡ front_bytes part.now }
{
    (HEADER_SIZE + OFFSET_SIZE * part.slots as usize) as u64
}

// Whether a list begins in its contribution.
fn is_held(parts: &[Contribution], list: &NamedList) -> bool
    ensures { IsTrue result → IsHeld parts.now (to_write list.now) }
{
    let number = list.part as usize;
    if number >= parts.len() {
        return false;
    }
    let part = parts[number];
    list.at >= part.at && list.at - part.at >= front_size(&part) && list.at - part.at < part.len
}

// Whether each list begins in its contribution.
fn are_held(parts: &[Contribution], lists: &Vec<NamedList>) -> bool
    ensures { IsTrue result → AreHeld parts.now (map to_write lists.now.items) }
{
    for list in lists {
        if !is_held(parts, list) {
            return false;
        }
    }
    true
}

// Whether a list begins at a place.
fn has_list(lists: &Vec<NamedList>, at: u64) -> bool
    ensures { IsTrue result → HasList (map to_write lists.now.items) at }
{
    for list in lists {
        if list.at == at {
            return true;
        }
    }
    false
}

// Whether each offset of a contribution tells a list.
fn are_told(section: &[u8], part: &Contribution, lists: &Vec<NamedList>) -> bool
    requires { lists_at part.now ≤ length section.now }
    ensures { IsTrue result → AreTold section.now part.now (map to_write lists.now.items) }
{
    let offsets = part.at as usize + HEADER_SIZE;
    for slot in 0..part.slots as usize {
        let told = u32_at(section, offsets + OFFSET_SIZE * slot);
        if !has_list(lists, offsets as u64 + u64::from(told)) {
            return false;
        }
    }
    true
}

// Whether each offset of contributions tells a list.
fn all_are_told(section: &[u8], parts: &[Contribution], lists: &Vec<NamedList>) -> bool
    requires { All (IsContribution section.now) parts.now }
    ensures { IsTrue result → AllAreTold section.now parts.now (map to_write lists.now.items) }
{
    for part in parts {
        if !are_told(section, part, lists) {
            return false;
        }
    }
    true
}

// Whether expressions stand one after the other.
fn are_ends(expressions: &NewExpressions) -> bool
    ensures { IsTrue result → AreEnds expressions.now }
{
    let mut from = 0;
    for end in &expressions.ends {
        if *end < from || *end as usize > expressions.bytes.len() {
            return false;
        }
        from = *end;
    }
    true
}

// Whether those of each list do.
fn are_ended(lists: &Vec<NamedList>) -> bool
    ensures { IsTrue result → All (λ list. AreEnds list.expressions) lists.now.items }
{
    for list in lists {
        if !are_ends(&list.expressions) {
            return false;
        }
    }
    true
}

// Whether an entry has an expression behind it.
fn has_expression(kind: ListKind, pick: &Pick) -> bool
    requires { (entry : Entry) × IsPick kind pick.now entry }
    ensures { (entry : Entry) → IsPick kind pick.now entry → result ≡ carries kind entry.kind }
{
    match kind_of(kind, pick.code) {
        Some(EntryKind::BaseAddressx | EntryKind::BaseAddress) => false,
        _ => kind == ListKind::Locations,
    }
}

// How many of the entries that are picked have an expression behind them.
fn expression_count(kind: ListKind, picks: &Vec<Pick>) -> usize
    requires { (entries : List Entry) × ArePicks kind picks.now.items entries }
    ensures { (entries : List Entry) → ArePicks kind picks.now.items entries → result ≡ carried_count kind entries }
{
    let mut count = 0;
    for pick in picks {
        if has_expression(kind, pick) {
            count += 1;
        }
    }
    count
}

// A size with the bytes of expressions and their lengths, if the sum fits.
fn with_behind(size: u64, expressions: &NewExpressions) -> Option<u64>
    requires { AreEnds expressions.now }
    ensures { IfSome result (λ sum. sum ≡ size + sum_by behind_size (pieces 0 expressions.now.ends.items expressions.now.bytes.items)) }
{
    let mut sum = size;
    let mut from = 0;
    for end in &expressions.ends {
        let len = u64::from(*end - from);
        let Some(more) = sum.checked_add(u64::from(len_u(len)) + len) else {
            return None;
        };
        sum = more;
        from = *end;
    }
    Some(sum)
}

// A size with the bytes of view pairs, if the sum fits.
fn with_pairs(size: u64, pairs: &Vec<ViewPair>) -> Option<u64>
    ensures { IfSome result (λ sum. sum ≡ size + sum_by pair_size pairs.now.items) }
{
    let mut sum = size;
    for pair in pairs {
        let Some(more) = sum.checked_add(u64::from(len_u(pair.first) + len_u(pair.last))) else {
            return None;
        };
        sum = more;
    }
    Some(sum)
}

// The same of runs of them.
fn with_runs(size: u64, runs: &Vec<ViewRun>) -> Option<u64>
    ensures { IfSome result (λ sum. sum ≡ size + sum_by run_size (map run_of runs.now.items)) }
{
    let mut sum = size;
    for run in runs {
        let Some(more) = with_pairs(sum, &run.pairs) else {
            return None;
        };
        sum = more;
    }
    Some(sum)
}

// The first of the lengths that are reserved.
const FIRST_RESERVED: u64 = 0xffff_fff0;

// The bytes of contributions before their lists, if the sum fits.
fn front_sizes(parts: &[Contribution]) -> Option<u64>
    ensures { IfSome result (λ sum. sum ≡ sum_by front_bytes parts.now) }
{
    let mut sum: u64 = 0;
    for part in parts {
        let Some(more) = sum.checked_add(front_size(part)) else {
            return None;
        };
        sum = more;
    }
    Some(sum)
}

// Whether all that is written fits.
fn has_room(parts: &[Contribution], lists: &Vec<NamedList>) -> bool
    requires { All (λ list. AreEnds list.expressions) lists.now.items }
    ensures { IsTrue result → HasRoom parts.now (map to_write lists.now.items) }
{
    let Some(fronts) = front_sizes(parts) else {
        return false;
    };
    let mut size = fronts;
    for list in lists {
        let Some(bare) = size.checked_add(list.plan.size) else {
            return false;
        };
        let Some(own) = with_behind(bare, &list.expressions) else {
            return false;
        };
        let Some(more) = with_runs(own, &list.views) else {
            return false;
        };
        size = more;
    }
    size < FIRST_RESERVED
}

// The image of a section with lists, which it names.
fn written(
    alloc: Global,
    kind: ListKind,
    section: &[u8],
    lists: &Vec<NamedList>,
) -> Result<ListImage, Fail>
    requires { AreSized kind (map to_write lists.now.items) }
{
    let Ok(all) = contributions(alloc, section, 0) else {
        return Err("no contributions")?;
    };
    let parts = all.as_slice();
    if !are_rising(lists)
        || !are_held(parts, lists)
        || !all_are_told(section, parts, lists)
        || !are_ended(lists)
        || !has_room(parts, lists)
    {
        return Err("lists that can't be written")?;
    }
    match write_lists(alloc, kind, section, parts, lists.as_slice()) {
        Ok(image) => Ok(image),
        Err(_) => Err("no memory")?,
    }
}

// ---- tests

// An entry.
fn entry(code: u8, a: u64, b: u64) -> RawEntry {
    RawEntry {
        at: 0,
        code,
        a,
        b,
        expr: Span { at: 0, len: 0 },
    }
}

// The expressions of a range list, which has none.
fn no_expressions(alloc: Global) -> NewExpressions {
    NewExpressions {
        bytes: Vec::new(alloc),
        ends: Vec::new(alloc),
    }
}

// A run of view pairs that begins at a place.
fn run_at(alloc: Global, at: u64, numbers: &[(u64, u64)]) -> Result<ViewRun, Fail> {
    let mut pairs = Vec::new(alloc);
    for (first, last) in numbers {
        pairs.push(ViewPair {
            first: *first,
            last: *last,
        })?;
    }
    Ok(ViewRun { at, pairs })
}

// Appends a list that keeps these entries, with expressions for its items and view pairs before it.
fn push_kept(
    lists: &mut Vec<NamedList>,
    alloc: Global,
    kind: ListKind,
    part: u32,
    at: u64,
    raws: &[RawEntry],
    expressions: NewExpressions,
    views: Vec<ViewRun>,
) -> Result<(), Fail>
    requires { AreSized kind (map to_write lists.old.items) }
    ensures { OnOk result (AreSized kind (map to_write lists.new.items)) }
{
    let raws = raws.to_vec(alloc)?;
    if raws.len() > 100 || !are_entries(kind, &raws) {
        return Err("no entries")?;
    }
    let Ok(plan) = kept_plan(alloc, kind, &raws) else {
        return Err("no memory")?;
    };
    if expression_count(kind, &plan.picks) != expressions.ends.len() {
        return Err("expressions of other items")?;
    }
    lists.push(NamedList {
        part,
        at,
        plan,
        expressions,
        views,
    })?;
    Ok(())
}

#[test]
fn a_shared_end_is_written_twice(rt: HostRuntime) -> Result<(), Fail> {
    let alloc = rt.alloc();
    let kind = ListKind::Ranges;
    let section = [
        0x0f, 0, 0, 0, 5, 0, 8, 0, 0, 0, 0, 0, 4, 0, 4, 4, 8, 0x0c, 0,
    ];
    let mut lists = Vec::new(alloc);
    let entries = [entry(4, 0, 4), entry(4, 8, 0x0c)];
    push_kept(
        &mut lists,
        alloc,
        kind,
        0,
        12,
        &entries,
        no_expressions(alloc),
        Vec::new(alloc),
    )?;
    push_kept(
        &mut lists,
        alloc,
        kind,
        0,
        15,
        &entries[1..],
        no_expressions(alloc),
        Vec::new(alloc),
    )?;
    let image = written(alloc, kind, &section, &lists)?;
    let expected = [
        0x13, 0, 0, 0, 5, 0, 8, 0, 0, 0, 0, 0, 4, 0, 4, 4, 8, 0x0c, 0, 4, 8, 0x0c, 0,
    ];
    assert_eq!(rt; image.bytes.as_slice(), expected.as_slice());
    assert_eq!(rt;
        image.lists.as_slice(),
        [Moved { old: 12, new: 12 }, Moved { old: 15, new: 19 }].as_slice()
    );
    let part = Contribution {
        at: 0,
        len: 23,
        slots: 0,
    };
    assert_eq!(rt; image.parts.as_slice(), [part].as_slice());
    Ok(())
}

#[test]
fn an_offset_tells_a_list_behind_its_contribution(rt: HostRuntime) -> Result<(), Fail> {
    let alloc = rt.alloc();
    let kind = ListKind::Ranges;
    // The second contribution has a list with a padded number.
    let section = [
        0x17, 0, 0, 0, 5, 0, 8, 0, 2, 0, 0, 0, 0x0b, 0, 0, 0, 0x1b, 0, 0, 0, 4, 1, 2, 4, 3, 4, 0,
        0x0d, 0, 0, 0, 5, 0, 8, 0, 0, 0, 0, 0, 4, 0x80, 0, 8, 0,
    ];
    let mut lists = Vec::new(alloc);
    let entries = [entry(4, 1, 2), entry(4, 3, 4)];
    push_kept(
        &mut lists,
        alloc,
        kind,
        0,
        20,
        &entries,
        no_expressions(alloc),
        Vec::new(alloc),
    )?;
    push_kept(
        &mut lists,
        alloc,
        kind,
        0,
        23,
        &entries[1..],
        no_expressions(alloc),
        Vec::new(alloc),
    )?;
    push_kept(
        &mut lists,
        alloc,
        kind,
        1,
        39,
        &[entry(4, 0, 8)],
        no_expressions(alloc),
        Vec::new(alloc),
    )?;
    let image = written(alloc, kind, &section, &lists)?;
    let expected = [
        0x1b, 0, 0, 0, 5, 0, 8, 0, 2, 0, 0, 0, 0x0f, 0, 0, 0, 0x1f, 0, 0, 0, 4, 1, 2, 4, 3, 4, 0,
        4, 3, 4, 0, 0x0c, 0, 0, 0, 5, 0, 8, 0, 0, 0, 0, 0, 4, 0, 8, 0,
    ];
    assert_eq!(rt; image.bytes.as_slice(), expected.as_slice());
    let moved = [
        Moved { old: 20, new: 20 },
        Moved { old: 23, new: 27 },
        Moved { old: 39, new: 43 },
    ];
    assert_eq!(rt; image.lists.as_slice(), moved.as_slice());
    Ok(())
}

#[test]
fn entries_keep_their_kinds(rt: HostRuntime) -> Result<(), Fail> {
    let alloc = rt.alloc();
    let kind = ListKind::Locations;
    // A default location whose expression has a padded length, an index that sets the base, and an address with a padded length and
    // an empty expression. Behind this list stands one of an offset pair.
    let section = [
        0x23, 0, 0, 0, 5, 0, 8, 0, 0, 0, 0, 0, 5, 0x82, 0, 0x30, 0x9f, 1, 0x7f, 8, 0, 0x10, 0x40,
        0, 0, 0, 0, 0, 0x80, 0xa0, 0, 0, 0, 4, 0, 4, 1, 0x9c, 0,
    ];
    let entries = [
        entry(5, 0, 0),
        entry(1, 0x7f, 0),
        entry(8, 0x40_1000, 0x1000),
    ];
    let mut lists = Vec::new(alloc);
    let expressions = NewExpressions {
        bytes: [0x31, 0x9f].to_vec(alloc)?,
        ends: [2, 2].to_vec(alloc)?,
    };
    push_kept(
        &mut lists,
        alloc,
        kind,
        0,
        12,
        &entries,
        expressions,
        Vec::new(alloc),
    )?;
    let expressions = NewExpressions {
        bytes: [0x9c].to_vec(alloc)?,
        ends: [1].to_vec(alloc)?,
    };
    push_kept(
        &mut lists,
        alloc,
        kind,
        0,
        33,
        &[entry(4, 0, 4)],
        expressions,
        Vec::new(alloc),
    )?;
    let image = written(alloc, kind, &section, &lists)?;
    let expected = [
        0x21, 0, 0, 0, 5, 0, 8, 0, 0, 0, 0, 0, 5, 2, 0x31, 0x9f, 1, 0x7f, 8, 0, 0x10, 0x40, 0, 0,
        0, 0, 0, 0x80, 0x20, 0, 0, 4, 0, 4, 1, 0x9c, 0,
    ];
    assert_eq!(rt; image.bytes.as_slice(), expected.as_slice());
    let moved = [Moved { old: 12, new: 12 }, Moved { old: 33, new: 31 }];
    assert_eq!(rt; image.lists.as_slice(), moved.as_slice());
    Ok(())
}

#[test]
fn view_pairs_stand_before_their_list(rt: HostRuntime) -> Result<(), Fail> {
    let alloc = rt.alloc();
    let kind = ListKind::Locations;
    // A list of one offset pair, behind two view pairs and then one with a padded number, which is to stand first.
    let section = [
        0x16, 0, 0, 0, 5, 0, 8, 0, 0, 0, 0, 0, 0, 1, 1, 0, 0x80, 0x81, 0, 2, 4, 0, 4, 1, 0x9c, 0,
    ];
    let mut lists = Vec::new(alloc);
    let expressions = NewExpressions {
        bytes: [0x9c].to_vec(alloc)?,
        ends: [1].to_vec(alloc)?,
    };
    let mut views = Vec::new(alloc);
    views.push(run_at(alloc, 16, &[(0x80, 2)])?)?;
    views.push(run_at(alloc, 12, &[(0, 1), (1, 0)])?)?;
    views.push(run_at(alloc, 20, &[])?)?;
    push_kept(
        &mut lists,
        alloc,
        kind,
        0,
        20,
        &[entry(4, 0, 4)],
        expressions,
        views,
    )?;
    let image = written(alloc, kind, &section, &lists)?;
    let expected = [
        0x15, 0, 0, 0, 5, 0, 8, 0, 0, 0, 0, 0, 0x80, 1, 2, 0, 1, 1, 0, 4, 0, 4, 1, 0x9c, 0,
    ];
    assert_eq!(rt; image.bytes.as_slice(), expected.as_slice());
    assert_eq!(rt;
        image.lists.as_slice(),
        [Moved { old: 20, new: 19 }].as_slice()
    );
    let moved = [
        Moved { old: 16, new: 12 },
        Moved { old: 12, new: 15 },
        Moved { old: 20, new: 19 },
    ];
    assert_eq!(rt; image.views.as_slice(), moved.as_slice());
    Ok(())
}
