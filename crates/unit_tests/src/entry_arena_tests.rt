// Forests of two units, as gcc and clang write them, and what begins at each place.
ghost use Rattle.std.specs.Prelude.{◌≡◌, ◌≤◌, ◌<◌, ◌+◌, ℕ, [], length, IsTrue, ◌↔◌};
ghost use Rattle.form_codec.specs.Values.{LiesIn};
ghost use Rattle.entry_arena.specs.Arena.{entry_at, value_at, span_of};
ghost use Rattle.entry_arena.specs.Order.{ComesBefore, ComesAfterAll, IsNextEntry, IsNextValue, IsNextEnd};

use dw_base::{NoMemory, Span};
use entry_arena::{ChainEnd, Entry, Forest, Target};
use form_codec::{Value, Whole};
use std::alloc::Global;
use std::process::Abort;
use std::test::Fail;

const GCC: [u8; 101] = [
    0x61, 0, 0, 0, 5, 0, 1, 8, 0, 0, 0, 0, 1, 0, 0, 0, 0, 0x1d, 0, 0, 0, 0, 4, 0, 0, 0, 0, 0x10,
    0x40, 0, 0, 0, 0, 0, 0x10, 0, 0, 0, 0, 0, 0, 0, 0, 0, 0, 0, 2, 0x66, 0, 1, 0x5d, 0, 0, 0, 0,
    0x10, 0x40, 0, 0, 0, 0, 0, 0x10, 0, 0, 0, 0, 0, 0, 0, 1, 0x9c, 0x5d, 0, 0, 0, 3, 0x78, 0, 1,
    0x5d, 0, 0, 0, 0x10, 0, 0, 0, 0xc, 0, 0, 0, 0, 4, 4, 5, 0x69, 0x6e, 0x74, 0, 0,
];

const CLANG: [u8; 77] = [
    0x49, 0, 0, 0, 5, 0, 1, 8, 0, 0, 0, 0, 1, 0, 0x1d, 0, 1, 8, 0, 0, 0, 0, 0, 0, 0, 2, 0, 0, 0, 0,
    0, 0, 0, 0, 0, 8, 0, 0, 0, 0xc, 0, 0, 0, 0xc, 0, 0, 0, 2, 0, 0x10, 0, 0, 0, 1, 0x57, 3, 0, 1,
    0x48, 0, 0, 0, 3, 0, 4, 0, 1, 0x48, 0, 0, 0, 0, 4, 5, 5, 4, 0,
];

// The place, the bytes, the depth, the declaration, the first value and the count of values of each entry.
type Row = (u32, u32, u32, u32, u32, u32);

const GCC_ENTRIES: [Row; 4] = [
    (12, 34, 0, 0, 0, 7),
    (46, 30, 1, 1, 7, 9),
    (76, 16, 2, 2, 16, 5),
    (93, 7, 1, 3, 21, 3),
];

fn int(number: i64) -> Value {
    Value::Int(Whole::signed(number))
}

fn gcc_values() -> [Value; 24] {
    [
        Value::StrOffset(0),
        int(29),
        Value::LineStrOffset(0),
        Value::LineStrOffset(4),
        Value::Addr(0x401000),
        int(16),
        Value::Offset(0),
        Value::Flag(true),
        Value::Text(Span { at: 47, len: 1 }),
        int(1),
        int(1),
        Value::LocalRef(93),
        Value::Addr(0x401000),
        int(16),
        Value::Expr(Span { at: 71, len: 1 }),
        Value::LocalRef(93),
        Value::Text(Span { at: 77, len: 1 }),
        int(1),
        Value::LocalRef(93),
        Value::Offset(16),
        Value::Offset(12),
        int(4),
        int(5),
        Value::Text(Span { at: 96, len: 3 }),
    ]
}

const GCC_ENDS: [ChainEnd; 2] = [
    ChainEnd { entry: 1, at: 92 },
    ChainEnd { entry: 0, at: 100 },
];

const CLANG_ENTRIES: [Row; 4] = [
    (12, 35, 0, 0, 0, 11),
    (47, 15, 1, 1, 11, 8),
    (62, 9, 2, 2, 19, 5),
    (72, 4, 1, 3, 24, 3),
];

fn clang_values() -> [Value; 27] {
    [
        Value::StrIndex(0),
        int(29),
        Value::StrIndex(1),
        Value::Offset(8),
        Value::Offset(0),
        Value::StrIndex(2),
        Value::Addr(0),
        Value::RangeIndex(0),
        Value::Offset(8),
        Value::Offset(12),
        Value::Offset(12),
        Value::AddrIndex(0),
        int(16),
        Value::Expr(Span { at: 54, len: 1 }),
        Value::StrIndex(3),
        int(0),
        int(1),
        Value::LocalRef(72),
        Value::Flag(true),
        Value::LocIndex(0),
        Value::StrIndex(4),
        int(0),
        int(1),
        Value::LocalRef(72),
        Value::StrIndex(5),
        int(5),
        int(4),
    ]
}

const CLANG_ENDS: [ChainEnd; 2] = [ChainEnd { entry: 1, at: 71 }, ChainEnd { entry: 0, at: 76 }];

// A section with one unit, what it has, and the bytes of a span.
#[derive(Clone, Copy)]
struct Sample<'v> {
    section: &'static [u8],
    entries: &'static [Row],
    values: &'v [Value],
    ends: &'static [ChainEnd],
    span: Span,
    bytes: &'static [u8],
}

fn entry_of(row: Row) -> Entry {
    let (at, len, depth, decl, first, count) = row;
    Entry {
        at,
        len,
        depth,
        decl,
        first,
        count,
    }
}

fn lent(value: Value) -> Option<Span>
    ensures { result ≡ span_of value }
{
    match value {
        Value::Wide16(span) => Some(span),
        Value::Block(span) => Some(span),
        Value::Expr(span) => Some(span),
        Value::Text(span) => Some(span),
        _ => None,
    }
}

fn ends_by(at: u64, len: u64, place: u64) -> bool
    ensures { IsTrue result ↔ (at + len ≤ place) }
{
    at <= place && len <= place - at
}

fn comes_before(value: Value, next: Value) -> bool
    ensures { IsTrue result → ComesBefore value next }
{
    match lent(value) {
        None => true,
        Some(span) => match lent(next) {
            None => true,
            Some(other) => ends_by(span.at, span.len, other.at),
        },
    }
}

// Whether what is held comes before a place.
fn comes_after_all(forest: &Forest<'_>, place: u64) -> bool
    ensures { IsTrue result → ComesAfterAll forest.now.entries forest.now.ends place }
{
    let entries = forest.entries();
    let ends = forest.chain_ends();
    entries.iter().all(|entry| ends_by(u64::from(entry.at), u64::from(entry.len), place))
        && ends.iter().all(|end| u64::from(end.at) < place)
}

fn lies_in(value: Value, size: u64) -> bool
    ensures { IsTrue result → LiesIn size value }
{
    match lent(value) {
        None => true,
        Some(span) => ends_by(span.at, span.len, size),
    }
}

// Whether the bytes that all values lend come before those of another.
fn come_before(forest: &Forest<'_>, next: &Value) -> bool
    ensures { IsTrue result → (i : ℕ) → i < length forest.now.values → ComesBefore (value_at forest.now.values i) next.now }
{
    for number in 0..forest.value_count() {
        if !comes_before(forest.value(number), *next) {
            return false;
        }
    }
    true
}

// Whether these may be pushed.
fn is_next_value(forest: &Forest<'_>, value: Value) -> bool
    ensures { IsTrue result → IsNextValue forest.now value }
{
    lies_in(value, forest.section().len() as u64) && come_before(forest, &value)
}

fn is_next_end(forest: &Forest<'_>, end: ChainEnd) -> bool
    ensures { IsTrue result → IsNextEnd forest.now end.entry end.at }
{
    comes_after_all(forest, u64::from(end.at))
        && u64::from(end.at) < forest.section().len() as u64
        && end.entry < forest.len()
}

// Whether the depth and the values follow those of the last entry.
fn follows(forest: &Forest<'_>, entry: Entry) -> bool
    ensures root { IsTrue result → forest.now.entries ≡ [] → (entry.depth ≡ 0) × (entry.first ≡ 0) }
    ensures below { IsTrue result → (last : ℕ) → last + 1 ≡ length forest.now.entries → entry.depth ≤ (entry_at forest.now.entries last).depth + 1 }
    ensures adjacent { IsTrue result → (last : ℕ) → last + 1 ≡ length forest.now.entries → entry.first ≡ (entry_at forest.now.entries last).first + (entry_at forest.now.entries last).count }
{
    let count = forest.len();
    if count == 0 {
        return entry.depth == 0 && entry.first == 0;
    }
    let last = forest.entry(count - 1);
    u64::from(entry.depth) <= u64::from(last.depth) + 1
        && u64::from(entry.first) == u64::from(last.first) + u64::from(last.count)
}

fn is_next_entry(forest: &Forest<'_>, entry: Entry) -> bool
    ensures { IsTrue result → IsNextEntry forest.now entry }
{
    let (at, len) = (u64::from(entry.at), u64::from(entry.len));
    comes_after_all(forest, at)
        && len > 0
        && ends_by(at, len, forest.section().len() as u64)
        && follows(forest, entry)
        && u64::from(entry.first) + u64::from(entry.count) <= u64::from(forest.value_count())
}

// Pushes the values of an entry, the entry, and the code 0 that stands right behind it.
fn push(
    rt: &impl Abort,
    forest: &mut Forest<'_>,
    sample: Sample,
    entry: Entry,
) -> Result<u32, NoMemory> {
    let values = sample.values.iter().skip(entry.first as usize);
    for value in values.take(entry.count as usize) {
        assert!(rt; is_next_value(forest, *value));
        forest.push_value(*value)?;
    }
    assert!(rt; is_next_entry(forest, entry));
    let id = forest.push_entry(entry)?;
    for end in sample.ends {
        if entry.at.wrapping_add(entry.len) == end.at {
            assert!(rt; is_next_end(forest, *end));
            forest.push_chain_end(end.entry, end.at)?;
        }
    }
    Ok(id)
}

// What begins at a place, by a look at all that the sample has.
fn sought(sample: Sample, place: u64) -> Option<Target> {
    let mut target = None;
    let mut id = 0u32;
    for row in sample.entries {
        if u64::from(row.0) == place {
            target = Some(Target::Entry(id));
        }
        id = id.wrapping_add(1);
    }
    for end in sample.ends {
        if u64::from(end.at) == place {
            target = Some(Target::ChainEnd(end.entry));
        }
    }
    target
}

// Builds the forest, which has no spare memory after each entry, and asks it for all that was pushed and for what begins at
// each place.
fn check(rt: &impl Abort, alloc: Global, sample: Sample) -> Result<(), NoMemory> {
    let mut forest = Forest::new(alloc, sample.section);
    assert!(rt; forest.is_empty());
    for (number, row) in sample.entries.iter().enumerate() {
        let entry = entry_of(*row);
        assert_eq!(rt; push(rt, &mut forest, sample, entry)? as usize, number);
        assert!(rt; number < forest.len() as usize);
        assert_eq!(rt; forest.entry(number as u32), entry);
        forest.shrink_to_fit();
    }
    assert_eq!(rt; forest.len() as usize, sample.entries.len());
    assert_eq!(rt; forest.value_count() as usize, sample.values.len());
    let mut row = Vec::new(alloc);
    forest.read_values(0, forest.value_count(), &mut row)?;
    assert_eq!(rt; row.as_slice(), sample.values);
    assert!(rt; forest.value_count() > 23);
    assert_eq!(rt; Some(forest.value(23)), sample.values.get(23).copied());
    assert_eq!(rt; forest.chain_ends(), sample.ends);
    let (at, len) = (sample.span.at, sample.span.len);
    assert!(rt; ends_by(at, len, forest.section().len() as u64));
    assert_eq!(rt; forest.bytes(sample.span), sample.bytes);
    for place in 0..sample.section.len() as u64 + 2 {
        assert_eq!(rt; forest.target_at(place), sought(sample, place));
    }
    Ok(())
}

#[test]
fn forests_of_samples(rt: HostRuntime) -> Result<(), Fail> {
    let gcc_values = gcc_values();
    let clang_values = clang_values();
    let gcc = Sample {
        section: &GCC,
        entries: &GCC_ENTRIES,
        values: &gcc_values,
        ends: &GCC_ENDS,
        span: Span { at: 96, len: 3 },
        bytes: b"int",
    };
    let clang = Sample {
        section: &CLANG,
        entries: &CLANG_ENTRIES,
        values: &clang_values,
        ends: &CLANG_ENDS,
        span: Span { at: 54, len: 1 },
        bytes: &[0x57],
    };
    check(&rt, rt.alloc(), gcc)?;
    check(&rt, rt.alloc(), clang)?;
    Ok(())
}

// A number as a value of each kind that has one alone.
fn numbered(number: u64) -> [Value; 12] {
    [
        Value::Addr(number),
        Value::AddrIndex(number),
        Value::LocalRef(number),
        Value::SectionRef(number),
        Value::Signature(number),
        Value::StrOffset(number),
        Value::LineStrOffset(number),
        Value::SupStr(number),
        Value::StrIndex(number),
        Value::Offset(number),
        Value::LocIndex(number),
        Value::RangeIndex(number),
    ]
}

// Values of all other kinds, one of which lends bytes.
fn unnumbered(lending: Value) -> [Value; 14] {
    [
        int(0),
        int(0xffff_ffff),
        int(0x1_0000_0000),
        Value::Flag(false),
        int(-1),
        Value::Int(Whole::unsigned(0xffff_ffff_ffff_ffff)),
        Value::Flag(true),
        Value::Fixed(1, 0x80),
        Value::Fixed(8, 0x8000_0000_0000_0000),
        Value::Fixed(2, 0x8000),
        Value::Fixed(4, 0x8000_0000),
        Value::Fixed(2, 0x1_0000_0000),
        lending,
        Value::SupRef(8, 5),
    ]
}

// Pushes values, and asks for each.
fn come_back(rt: &impl Abort, alloc: Global, values: &[Value]) -> Result<(), NoMemory> {
    let mut held = Forest::new(alloc, &GCC);
    for value in values {
        assert!(rt; is_next_value(&held, *value));
        held.push_value(*value)?;
    }
    held.shrink_to_fit();
    assert_eq!(rt; held.value_count() as usize, values.len());
    for (number, value) in values.iter().enumerate() {
        assert!(rt; number < held.value_count() as usize);
        assert_eq!(rt; held.value(number as u32), *value);
    }
    Ok(())
}

#[test]
fn values_as_they_were_pushed(rt: HostRuntime) -> Result<(), Fail> {
    for number in [0, 0xffff_ffff, 0x1_0000_0000, 0xffff_ffff_ffff_ffff] {
        let values = numbered(number);
        come_back(&rt, rt.alloc(), &values)?;
    }
    let span = Span { at: 71, len: 1 };
    for lending in [
        Value::Wide16(span),
        Value::Block(span),
        Value::Expr(span),
        Value::Text(span),
    ] {
        come_back(&rt, rt.alloc(), &unnumbered(lending))?;
    }
    Ok(())
}
