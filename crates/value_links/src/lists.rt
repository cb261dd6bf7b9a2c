// The lists of a kind that something names (DWARF 5 sections 2.6.2, 2.17.3, 7.7.3, 7.25, 7.28 and 7.29).
ghost use Rattle.std.specs.Prelude.{◌≡◌, ◌≢◌, ◌≤◌, ◌<◌, ◌+◌, ◌^◌, ◌⊎◌, ◌↔◌, ℕ, List, Option, Bool, length, IfOk, IfErr, OnOk, MatchOption, true, false};
ghost use Rattle.std.specs.List.{All, Contains};
ghost use Rattle.dw_base.specs.Refusals.{IsFaultOf, IsFaulty, IsRefusedFor};
ghost use Rattle.list_model.specs.declared.context.Context.{Context as AnyContext};
ghost use Rattle.list_model.specs.declared.entry.ListKind.TheVariants.{Locations};
ghost use Rattle.list_model.specs.declared.item.Item.{Item};
ghost use Rattle.list_model.specs.declared.item.Meaning.TheVariants.{Live, Dead};
ghost use Rattle.list_model.specs.Items.{HasTable, FaultIndexes};
ghost use Rattle.list_model.specs.Contributions.{part_end, IsContribution};
ghost use Rattle.value_links.specs.Reading.{Linkable, ListRead as AnyRead};
ghost use Rattle.value_links.specs.Lists.{IsListOf, AreListsOf, AreWithinReach, long_limit};
ghost use Rattle.value_links.specs.ListFaults.{expression_bytes, FaultOfKind, AreEarlier};
ghost use Rattle.value_links.specs.ListFaults.{expression_limit as most_bytes};
ghost use Rattle.value_links.specs.World.{IsMeaningOf, HoldLists};
ghost use Rattle.list_model.specs.Reading.{list_entry_limit as most_entries};
ghost use Rattle.value_links.specs.Parts.{AreUnitsHeld, HoldsParts, HoldsLists, lists_in, section_held};
ghost use Rattle.value_links.specs.inside.Checks.{InEach};
ghost use Rattle.value_links.specs.inside.ListExpressions.{IsOwnerBy, IsTorn, AreExprsRead, FaultExpressionsBy};
ghost use Rattle.value_links.specs.inside.Namings.{slot_number, first_naming, IsSomeNaming, AreInOrder};
ghost use Rattle.value_links.specs.inside.NamedLists.{context_held, AreEntriesOf, AreLookedUpBy, IsLookedUpIn, IsOtherContext, IsNextContext, IsKeptBy, FaultLookingBy, FaultListOf, PassesBy, IsNextTotal, AreCounted, AreFew, no_totals, IsReadBy, FaultNamed, IsGroup, IsNext};

use crate::list_expressions::{check_expressions, owner_of};
use crate::list_places::holder_of;
use crate::namings::{Naming, SLOT, namings_of};
use crate::parts::Parts;
use dw_base::{Fault, Kind, Reach, Refusal};
use list_arena::{ListRead, Lists};
use list_model::{Context, Contribution, ListKind, Meaning, RawEntry, list_entry_limit};
use loc_lists::{location_items, read_locations};
use range_lists::{range_items, read_ranges};
use std::alloc::Global;

// How many entries lists have together, and how many bytes their expressions.
#[derive(Clone, Copy)]
pub(crate) struct ListTotals {
    pub(crate) entries: usize,
    pub(crate) bytes: u64,
}

// Lists of a kind, each once, by rising place, and what they have together with those before them.
#[derive(Drop)]
pub(crate) struct NamedLists {
    pub(crate) lists: Lists,
    pub(crate) totals: ListTotals,
}

// The most items of a list that isn't frozen.
const LONG: usize = 1 << 14;

// The most bytes that the expressions of all lists may have together.
fn expression_limit(reach: Reach) -> u64
    ensures { result ≡ most_bytes reach }
{
    match reach {
        Reach::Narrow => 1 << 27,
        Reach::Wide => 1 << 30,
    }
}

// The entries of the list of a kind that begins at a place of a contribution, as `read_ranges` and `read_locations` tell.
fn read_list(
    alloc: Global,
    kind: ListKind,
    section: &[u8],
    part: &Contribution,
    at: u64,
    origin: u64,
    reach: Reach,
) -> Result<Vec<RawEntry>, Refusal>
    requires part { IsContribution section.now part.now }
    requires inside { at ≤ part_end part.now }
    requires room { origin + length section.now < 2 ^ 64 }
    ensures read { IfOk result (λ raws. IsListOf kind section.now part.now at raws.items) }
    ensures known { IfOk result (λ raws. AreEntriesOf kind raws.items) }
    ensures inside { IfOk result (λ raws. All (λ raw. raw.at < length section.now) raws.items) }
    ensures spans { IfOk result (λ raws. kind ≡ Locations → All (λ raw. raw.expr.at + raw.expr.len ≤ length section.now) raws.items) }
    ensures few { IfOk result (λ raws. length raws.items ≤ most_entries reach) }
    ensures fault { IfErr result (IsRefusedFor (IsFaultOf (FaultListOf kind section.now part.now at reach) origin)) }
{
    match kind {
        ListKind::Ranges => read_ranges(alloc, section, part, at, origin, reach),
        ListKind::Locations => read_locations(alloc, section, part, at, origin, reach),
    }
}

// What the list of a kind with these entries says in a context, as `range_items` and `location_items` tell.
fn items_of(
    alloc: Global,
    kind: ListKind,
    raw: &Vec<RawEntry>,
    context: &Context,
    addr: &[u8],
    origin: u64,
) -> Result<Meaning, Refusal>
    requires entries { AreEntriesOf kind raw.now.items }
    requires table { HasTable addr.now context.now.table }
    requires room { All (λ entry. origin + entry.at < 2 ^ 64) raw.now.items }
    ensures meaning { IfOk result (IsMeaningOf kind addr.now context.now raw.now.items) }
    ensures whole { IfOk result (λ _. ¬ IsFaulty (FaultIndexes kind context.now raw.now.items)) }
    ensures fault { IfErr result (IsRefusedFor (IsFaultOf (FaultIndexes kind context.now raw.now.items) origin)) }
{
    match kind {
        ListKind::Ranges => range_items(alloc, raw, context, addr, origin),
        ListKind::Locations => location_items(alloc, raw, context, addr, origin),
    }
}

// The context of a unit, where it differs from the last one. Then all indexes of a list are looked up in it. A slot has none.
fn next_context(
    alloc: Global,
    parts: &Parts<'_>,
    kind: ListKind,
    raw: &Vec<RawEntry>,
    unit: u32,
    last: &Context,
    origin: u64,
) -> Result<Option<Context>, Refusal>
    requires lists { HoldsLists parts.now }
    requires unit { (unit < length parts.now.units.units.items) ⊎ (unit ≡ slot_number) }
    requires entries { AreEntriesOf kind raw.now.items }
    requires room { All (λ entry. origin + entry.at < 2 ^ 64) raw.now.items }
    ensures next { IfOk result (IsNextContext kind parts.now.addr.now parts.now.contexts.items raw.now.items unit last.now) }
    ensures fault { IfErr result (IsRefusedFor (IsFaultOf (λ k place. (unit ≢ slot_number) × FaultIndexes kind (context_held parts.now.contexts.items unit) raw.now.items k place) origin)) }
{
    if unit == SLOT {
        return Ok(None);
    }
    let context = &parts.contexts[unit as usize];
    if *context == *last {
        return Ok(None);
    }
    items_of(alloc, kind, raw, context, parts.addr, origin)?;
    Ok(Some(*context))
}

// Whether units with another context than `owned` are among those that name a list. All its indexes are looked up in each of their
// contexts.
fn is_shared(
    alloc: Global,
    parts: &Parts<'_>,
    kind: ListKind,
    named: &[Naming],
    raw: &Vec<RawEntry>,
    owned: &Context,
    origin: u64,
) -> Result<bool, Refusal>
    requires lists { HoldsLists parts.now }
    requires named { All (IsSomeNaming (section_held (lists_in parts.now kind)) (length parts.now.units.units.items)) named.now }
    requires entries { AreEntriesOf kind raw.now.items }
    requires room { All (λ entry. origin + entry.at < 2 ^ 64) raw.now.items }
    requires owned { IsLookedUpIn kind parts.now.addr.now raw.now.items owned.now }
    ensures looked { OnOk result (AreLookedUpBy kind parts.now.addr.now parts.now.contexts.items named.now raw.now.items) }
    ensures shared { IfOk result (λ shared. IsOtherContext parts.now.contexts.items named.now owned.now shared) }
    ensures fault { IfErr result (IsRefusedFor (IsFaultOf (FaultLookingBy kind parts.now.contexts.items named.now raw.now.items) origin)) }
{
    let mut shared = false;
    let mut last = *owned;
    for i in 0..named.len() {
        let (_, unit) = named[i];
        if let Some(context) = next_context(alloc, parts, kind, raw, unit, &last, origin)? {
            shared = true;
            last = context;
        }
    }
    Ok(shared)
}

// The items of a list that isn't shared, or Dead where they are too many.
fn few_items(meaning: Meaning) -> Meaning
    ensures live { (items : List Item) → result ≡ Live items → (meaning ≡ Live items) × (length items ≤ long_limit) }
    ensures dead { result ≡ Dead → (meaning ≡ Dead) ⊎ ((items : List Item) × (meaning ≡ Live items) × (long_limit < length items)) }
{
    match meaning {
        Meaning::Live(items) if items.as_slice().len() <= LONG => Meaning::Live(items),
        _ => Meaning::Dead,
    }
}

// The items of a list in the contexts of the units that name it, or Dead where it is frozen. All its indexes are looked up in each
// of these contexts.
fn meaning_of(
    alloc: Global,
    parts: &Parts<'_>,
    kind: ListKind,
    named: &[Naming],
    raw: &Vec<RawEntry>,
    origin: u64,
) -> Result<Meaning, Refusal>
    requires lists { HoldsLists parts.now }
    requires some { 0 < length named.now }
    requires order { AreInOrder named.now }
    requires named { All (IsSomeNaming (section_held (lists_in parts.now kind)) (length parts.now.units.units.items)) named.now }
    requires few { length parts.now.units.units.items < 2 ^ 32 }
    requires here { (y : ℕ × ℕ) → Contains named.now y → y.0 ≡ (first_naming named.now).0 }
    requires entries { AreEntriesOf kind raw.now.items }
    requires room { All (λ entry. origin + entry.at < 2 ^ 64) raw.now.items }
    ensures looked { OnOk result (AreLookedUpBy kind parts.now.addr.now parts.now.contexts.items named.now raw.now.items) }
    ensures kept { IfOk result (IsKeptBy kind parts.now.addr.now parts.now.contexts.items named.now raw.now.items) }
    ensures fault { IfErr result (IsRefusedFor (IsFaultOf (FaultLookingBy kind parts.now.contexts.items named.now raw.now.items) origin)) }
{
    let (_, unit) = named[0];
    if unit == SLOT {
        return Ok(Meaning::Dead);
    }
    let owned = &parts.contexts[unit as usize];
    let meaning = items_of(alloc, kind, raw, owned, parts.addr, origin)?;
    if is_shared(alloc, parts, kind, named, raw, owned, origin)? {
        return Ok(Meaning::Dead);
    }
    Ok(few_items(meaning))
}

// The bytes of the expressions of entries, or None where there are more than so many.
fn bytes_within(raw: &[RawEntry], most: u64) -> Option<u64>
    ensures { MatchOption result (most < expression_bytes raw.now) (λ bytes. (bytes ≡ expression_bytes raw.now) × (bytes ≤ most)) }
{
    let mut bytes = 0;
    for entry in raw {
        if entry.expr.len > most - bytes {
            return None;
        }
        bytes += entry.expr.len;
    }
    Some(bytes)
}

// What lists have together with one more, or None where that passes a limit.
fn with_list(before: &ListTotals, raw: &[RawEntry], reach: Reach) -> Option<ListTotals>
    requires { AreFew reach before.now }
    ensures { MatchOption result (PassesBy reach before.now raw.now) (IsNextTotal reach before.now raw.now) }
{
    if raw.len() > list_entry_limit(reach) - before.entries {
        return None;
    }
    let bytes = bytes_within(raw, expression_limit(reach) - before.bytes)?;
    Some(ListTotals {
        entries: before.entries + raw.len(),
        bytes: before.bytes + bytes,
    })
}

// A list with what lists have together up to it.
#[derive(Drop)]
struct Counted {
    list: ListRead,
    totals: ListTotals,
}

// The list of a kind that all of these name, with so much of lists before it, but for its expressions.
fn read_named(
    alloc: Global,
    parts: &Parts<'_>,
    kind: ListKind,
    named: &[Naming],
    origin: u64,
    before: &ListTotals,
    reach: Reach,
) -> Result<Counted, Refusal>
    requires lists { HoldsLists parts.now }
    requires some { 0 < length named.now }
    requires order { AreInOrder named.now }
    requires named { All (IsSomeNaming (section_held (lists_in parts.now kind)) (length parts.now.units.units.items)) named.now }
    requires few { length parts.now.units.units.items < 2 ^ 32 }
    requires here { (y : ℕ × ℕ) → Contains named.now y → y.0 ≡ (first_naming named.now).0 }
    requires room { origin + length (lists_in parts.now kind).section.now < 2 ^ 64 }
    requires before { AreFew reach before.now }
    ensures read { IfOk result (λ counted. IsReadBy kind (section_held (lists_in parts.now kind)) parts.now.addr.now parts.now.contexts.items named.now counted.list) }
    ensures spans { IfOk result (λ counted. kind ≡ Locations → All (λ raw. raw.expr.at + raw.expr.len ≤ length (lists_in parts.now kind).section.now) counted.list.raw) }
    ensures totals { IfOk result (λ counted. IsNextTotal reach before.now counted.list.raw counted.totals) }
    ensures fault { IfErr result (IsRefusedFor (IsFaultOf (FaultNamed kind (section_held (lists_in parts.now kind)) parts.now.contexts.items named.now reach before.now) origin)) }
{
    let contributions = parts.lists(kind);
    let (at, _) = named[0];
    let Some(part) = holder_of(contributions, at) else {
        unreachable!()
    };
    let holder = &contributions.parts[part as usize];
    let raw = read_list(
        alloc,
        kind,
        contributions.section,
        holder,
        at,
        origin,
        reach,
    )?;
    let Some(totals) = with_list(before, &raw, reach) else {
        return Err(Refusal::Refused(Fault {
            kind: Kind::Limit,
            place: origin + at,
        }));
    };
    let meaning = meaning_of(alloc, parts, kind, named, &raw, origin)?;
    let list = ListRead::new(at, part, owner_of(named), raw, meaning);
    Ok(Counted { list, totals })
}

// Reads the expressions of the list of a kind that all of these name, whose entries are `raw`. Ranges have none.
fn check_kind(
    alloc: Global,
    parts: &Parts<'_>,
    kind: ListKind,
    named: &[Naming],
    raw: &Vec<RawEntry>,
    origin: u64,
    reach: Reach,
) -> Result<(), Refusal>
    requires lists { HoldsLists parts.now }
    requires some { 0 < length named.now }
    requires named { All (IsSomeNaming (section_held (lists_in parts.now kind)) (length parts.now.units.units.items)) named.now }
    requires inside { kind ≡ Locations → All (λ raw. raw.expr.at + raw.expr.len ≤ length (lists_in parts.now kind).section.now) raw.now.items }
    requires room { origin + length (lists_in parts.now kind).section.now < 2 ^ 64 }
    ensures read { OnOk result (InEach parts.now (λ r. (owner : Option ℕ) (torn : Bool) → IsOwnerBy named.now owner → (torn ≡ true) ↔ IsTorn named.now → AreExprsRead kind (lists_in parts.now kind).section.now r owner torn reach raw.now.items)) }
    ensures fault { IfErr result (λ refusal. InEach parts.now (λ r. IsRefusedFor (IsFaultOf (FaultExpressionsBy kind (lists_in parts.now kind).section.now named.now reach raw.now.items r) origin) refusal)) }
{
    match kind {
        ListKind::Ranges => Ok(()),
        ListKind::Locations => {
            let section = parts.locations.section;
            check_expressions(alloc, parts, named, raw, section, origin, reach)
        }
    }
}

// How many of the first of these name one list.
fn same_list(namings: &[Naming]) -> usize
    requires { 0 < length namings.now }
    ensures { IsGroup namings.now result }
{
    let mut count = 1;
    while count < namings.len() && namings[count].0 == namings[0].0 {
        count += 1;
    }
    count
}

// The namings from a number on that name one list.
fn next_named<'a>(namings: &'a [Naming], from: usize) -> &'a [Naming]
    requires { from < length namings.now }
    ensures { IsNext namings.now from result.now }
{
    let rest = &namings[from..];
    let count = same_list(rest);
    &rest[..count]
}

/// The lists of a kind that something names, each once, by rising place. `origin` is the file offset of their section, and `abbrevs`
/// and `info` are the bodies of .debug_abbrev and .debug_info, from which the units were read. `before` is what the lists of the other
/// kind have together that are counted before these: that of all range lists for location lists, and nothing for range lists.
///
/// A refusal names a fault of the section, with its place in the file:
/// - `Pointer`: a slot tells a place at which no list can begin; at the slot. Or an index of an entry is past its address table;
///   at the entry.
/// - `NoBase`: an entry has an index, and a unit that names the list has no address table; at the entry.
/// - `Short`, `LebWide`, `ListEntry`: as `read_ranges` and `read_locations` tell of the list.
/// - `Op`, `Branch`, and also `Short`, `LebWide` and `Limit`: as `read_expr` tells of an expression. `Target`: an operation names no
///   entry that it may; at its reference.
/// - `ListShared`: an operation counts from the first byte of its unit, and entries of two units name the list, or of none; at the list.
/// - `Limit`: the lists up to one have more than 2^24 entries together, or their expressions more than 2^27 bytes, or 2^25 and 2^30 under
///   the wide limits; at this list.
///
/// `NoMemory` may come wherever memory is wanting.
pub(crate) fn read_lists(
    alloc: Global,
    parts: &Parts<'_>,
    kind: ListKind,
    info: &[u8],
    abbrevs: &[u8],
    origin: u64,
    before: &ListTotals,
    reach: Reach,
) -> Result<NamedLists, Refusal>
    requires held { AreUnitsHeld info.now abbrevs.now parts.now.units }
    requires lists { HoldsLists parts.now }
    requires room { origin + length (lists_in parts.now kind).section.now < 2 ^ 64 }
    requires before { AreFew reach before.now }
    ensures lists { IfOk result (λ named. (file : List ℕ) (r : Linkable) → HoldsParts file r parts.now → (read : List AnyRead) × AreListsOf r kind read × HoldLists r kind read named.lists × AreCounted before.now read named.totals × AreWithinReach r kind reach read) }
    ensures few { IfOk result (λ named. AreFew reach named.totals) }
    ensures fault { IfErr result (λ refusal. (file : List ℕ) (r : Linkable) (earlier : List AnyRead) → HoldsParts file r parts.now → AreEarlier r kind earlier → AreCounted no_totals earlier before.now → IsRefusedFor (IsFaultOf (FaultOfKind r reach kind) origin) refusal) }
{
    let namings = namings_of(alloc, parts, kind, origin)?;
    let mut lists = Lists::new(alloc);
    let mut totals = *before;
    let mut from = 0;
    while from < namings.len() {
        let named = next_named(&namings, from);
        let counted = read_named(alloc, parts, kind, named, origin, &totals, reach)?;
        let entries = counted.list.entries();
        check_kind(alloc, parts, kind, named, entries, origin, reach)?;
        totals = counted.totals;
        from += named.len();
        lists.push(&counted.list)?;
    }
    lists.shrink_to_fit();
    Ok(NamedLists { lists, totals })
}
