// The lists of a file written anew.
ghost use Rattle.std.specs.Prelude.{◌≡◌, ◌≢◌, ◌⊎◌, true, false, ◌≤◌, ◌<◌, [], length, slice_index_or, slice_range, IfOk};
ghost use Rattle.std.specs.List.{Contains};
ghost use Rattle.dw_base.specs.declared.classes.Classes.{Classes as AnyClasses};
ghost use Rattle.dw_base.specs.declared.fault.Reach.TheVariants.{Narrow};
ghost use Rattle.spelled.specs.Spelled.{Appends};
ghost use Rattle.leb_codec.specs.Records.{OfList, SpellsRecord};
ghost use Rattle.fixed_width.specs.InitialLengths.{least_reserved};
ghost use Rattle.list_arena.specs.Held.{HeldViews};
ghost use Rattle.list_model.specs.declared.item.Meaning.TheVariants.{Live, Dead};
ghost use Rattle.value_links.specs.Sections.{debug_addr};
ghost use Rattle.value_links.specs.Reading.{Reading};
ghost use Rattle.value_links.specs.World.{World as AnyWorld, IsWorldOf, Holds, lists_held};
ghost use Rattle.list_lookup.specs.Maps.{AreMapsFor};
ghost use Rattle.rewriter.specs.inside.Held.{AllHavePlaces};
ghost use Rattle.rewriter.specs.inside.Plans.{IsPlanOf, ArePotentialsOf, ArePiecesPlanned, AreRecordedTo};
ghost use Rattle.rewriter.specs.inside.Runs.{views_held, AreRunsWith};
ghost use Rattle.rewriter.specs.inside.Lists.{AreListsWritten, AreListsRecorded};

use crate::list_expressions::new_expressions;
use certificates::{Proof, put_record};
use dw_base::{Classes, NoMemory};
use list_arena::{ListRead, Views};
use list_least::{Plan, least_in, shortest_lists};
use list_lookup::TableMaps;
use list_model::{Item, ListKind, Meaning, entries_say};
use list_write::{ListImage, NamedList, ViewRun, WrittenPieces, assemble, kept_plan};
use loc_lists::ViewPair;
use std::alloc::Global;
use unit_write::{Places, bytes_are_small};
use value_links::World;

// The plan of a list that isn't kept: the shortest entries that give its items in the context of its owner.
fn live_plan(
    alloc: Global,
    world: &World<'_>,
    maps: &TableMaps,
    addr: &[u8],
    kind: ListKind,
    list: &ListRead,
    items: &[Item],
) -> Result<Plan, NoMemory>
    requires world { IsWorldOf world.now.image Narrow world.now }
    requires addr { addr.now ≡ debug_addr world.now.image }
    requires maps { AreMapsFor world.now addr.now maps.now }
    requires list { Contains (lists_held world.now kind) list.now }
    requires items { list.now.meaning ≡ Live items.now }
    ensures plan { IfOk result (λ plan. (classes : AnyClasses) → classes.lists ≡ true → IsPlanOf classes world.now kind list.now plan) }
    ensures potentials { IfOk result (λ plan. (classes : AnyClasses) → classes.lists ≡ true → ArePotentialsOf classes world.now kind list.now plan.potentials.items) }
{
    // Laws: the shortest bytes of a plan are least in the class of the list, and entries mean one thing.
    shortest_lists();
    entries_say();
    bytes_are_small(addr);
    let Some(owner) = list.owner() else {
        // A list that only slots name is frozen.
        unreachable!()
    };
    let context = world.context(owner);
    let indexes = maps.of(&context);
    least_in(alloc, kind, items, &context, addr, indexes)
}

// The plan of a list that is kept: its own entries.
fn plan_kept(
    alloc: Global,
    classes: Classes,
    kind: ListKind,
    list: &ListRead,
) -> Result<Plan, NoMemory>
    requires list { (world : AnyWorld) × IsWorldOf world.image Narrow world × Contains (lists_held world kind) list.now }
    requires kept { (classes.lists ≡ false) ⊎ (list.now.meaning ≡ Dead) }
    ensures { IfOk result (λ plan. (world : AnyWorld) → IsPlanOf classes world kind list.now plan) }
{
    // Laws: the shortest bytes of entries are least in their class, and what was read says one list of entries.
    shortest_lists();
    entries_say();
    kept_plan(alloc, kind, list.entries())
}

// How a list is written: the shortest entries that give its items in the context of its owner or, where it is kept, its own.
fn plan_of(
    alloc: Global,
    classes: Classes,
    world: &World<'_>,
    maps: &TableMaps,
    addr: &[u8],
    kind: ListKind,
    list: &ListRead,
) -> Result<Plan, NoMemory>
    requires world { IsWorldOf world.now.image Narrow world.now }
    requires addr { addr.now ≡ debug_addr world.now.image }
    requires maps { AreMapsFor world.now addr.now maps.now }
    requires list { Contains (lists_held world.now kind) list.now }
    ensures plan { IfOk result (IsPlanOf classes world.now kind list.now) }
    ensures potentials { IfOk result (λ plan. classes.lists ≡ true → list.now.meaning ≢ Dead → ArePotentialsOf classes world.now kind list.now plan.potentials.items) }
{
    match list.meaning() {
        Meaning::Live(items) if classes.lists => {
            live_plan(alloc, world, maps, addr, kind, list, items.as_slice())
        }
        _ => plan_kept(alloc, classes, kind, list),
    }
}

// How many runs of view pairs go with lists of a kind. Ranges have none.
fn run_count(world: &World<'_>, kind: ListKind) -> usize
    ensures { result ≡ length (views_held world.now kind) }
{
    match kind {
        ListKind::Ranges => 0,
        ListKind::Locations => world.views().len(),
    }
}

// The run of view pairs with a number as it is to be written: as it was.
fn same_run(alloc: Global, views: &Views, number: usize) -> Result<ViewRun, NoMemory>
    requires { number < length views.now }
    ensures { IfOk result (λ new. (d : HeldViews) → (new.at ≡ (slice_index_or views.now number d).at) × (new.pairs.items ≡ (slice_index_or views.now number d).pairs)) }
{
    let mut pairs: Vec<ViewPair> = Vec::new(alloc);
    for index in 0..views.pair_count(number) {
        pairs.push(views.pair(number, index))?;
    }
    Ok(ViewRun {
        at: views.at(number),
        pairs,
    })
}

// The first of the runs from one number up to another that go with the list at a place.
fn runs_with(
    alloc: Global,
    views: &Views,
    from: usize,
    to: usize,
    list: u64,
) -> Result<Vec<ViewRun>, NoMemory>
    requires from { from ≤ to }
    requires to { to ≤ length views.now }
    ensures { IfOk result (λ runs. AreRunsWith (slice_range views.now from to) list runs.items) }
{
    let mut runs: Vec<ViewRun> = Vec::new(alloc);
    for number in from..to {
        if views.list(number) != list {
            return Ok(runs);
        }
        runs.push(same_run(alloc, views, number)?)?;
    }
    Ok(runs)
}

// Appends the record of a list that isn't kept, whose potentials are taken from its plan: nothing else asks for them.
fn record_plan(
    alloc: Global,
    classes: Classes,
    records: &mut Vec<u8>,
    list: &ListRead,
    plan: Plan,
) -> Result<Plan, NoMemory>
    ensures recorded { IfOk result (λ rest. classes.lists ≡ true → list.now.meaning ≢ Dead → Appends SpellsRecord (OfList plan.potentials.items) records.old.items records.new.items) }
    ensures kept { IfOk result (λ rest. (classes.lists ≡ false) ⊎ (list.now.meaning ≡ Dead) → records.new.items ≡ records.old.items) }
    ensures picks { IfOk result (λ rest. (rest.picks.items ≡ plan.picks.items) × (rest.size ≡ plan.size)) }
{
    let Plan {
        picks,
        potentials,
        size,
    } = plan;
    if classes.lists && matches!(list.meaning(), Meaning::Live(_)) {
        put_record(records, &Proof::List(potentials))?;
    }
    Ok(Plan {
        picks,
        potentials: Vec::new(alloc),
        size,
    })
}

// The lists of a kind that something names, each written by its plan with the new expressions of its items, behind the view pairs
// that go with it. Each is written as soon as it is planned, so that no more than one plan is held. Appends the records of those
// that aren't kept.
fn write_pieces(
    alloc: Global,
    classes: Classes,
    records: &mut Vec<u8>,
    world: &World<'_>,
    maps: &TableMaps,
    places: &Vec<Places>,
    kind: ListKind,
) -> Result<WrittenPieces, NoMemory>
    requires world { IsWorldOf world.now.image Narrow world.now }
    requires maps { AreMapsFor world.now (debug_addr world.now.image) maps.now }
    requires placed { AllHavePlaces world.now places.now.items }
    requires none { records.old.items ≡ [] }
    ensures planned { IfOk result (λ pieces. ArePiecesPlanned classes world.now places.now.items kind (length (lists_held world.now kind)) (length (views_held world.now kind)) pieces) }
    ensures recorded { IfOk result (λ pieces. AreRecordedTo classes world.now kind (length (lists_held world.now kind)) records.new.items) }
{
    let addr = world.section(b".debug_addr");
    let section = world.lists_section(kind);
    let lists = world.lists(kind);
    let count = run_count(world, kind);
    let mut next = 0;
    let mut pieces = WrittenPieces::new(alloc);
    for number in 0..lists.len() {
        let list = lists.list(alloc, number)?;
        let planned = plan_of(alloc, classes, world, maps, addr, kind, &list)?;
        let plan = record_plan(alloc, classes, records, &list, planned)?;
        let expressions = new_expressions(alloc, world, places, kind, &list, section)?;
        let runs = runs_with(alloc, world.views(), next, count, list.at())?;
        next += runs.len();
        let named = NamedList {
            part: list.part(),
            at: list.at(),
            plan,
            expressions,
            views: runs,
        };
        pieces.push(kind, &named)?;
    }
    Ok(pieces)
}

/// The lists of a kind written anew.
#[derive(Drop)]
pub struct WrittenLists {
    /// Their section.
    pub image: ListImage,
    /// The records that show why each list that isn't kept is the shortest, one after the other in the order of the lists.
    pub records: Vec<u8>,
}

/// The body of .debug_rnglists or .debug_loclists with the lists that something names written anew (DWARF 5 sections 2.6.2, 2.17.3,
/// 7.7.3, 7.25, 7.28 and 7.29), each in its contribution and in the fewest bytes of its class, with its expressions, in which each
/// reference counts to the new place of what it names. Before it stand its view pairs. `places` are those of the units. The only error is
/// want of memory.
pub fn write_kind(
    alloc: Global,
    classes: Classes,
    world: &World<'_>,
    maps: &TableMaps,
    places: &Vec<Places>,
    kind: ListKind,
) -> Result<WrittenLists, NoMemory>
    requires world { IsWorldOf world.now.image Narrow world.now }
    requires maps { AreMapsFor world.now (debug_addr world.now.image) maps.now }
    requires placed { AllHavePlaces world.now places.now.items }
    ensures written { IfOk result (λ new. (r : Reading) → Holds world.now.image world.now r → AreListsWritten classes r places.now.items kind new.image.bytes.items new.image.parts.items new.image.lists.items new.image.views.items) }
    ensures recorded { IfOk result (λ new. (r : Reading) → Holds world.now.image world.now r → AreListsRecorded classes r kind new.records.items) }
    ensures fits { IfOk result (λ new. length new.image.bytes.items < least_reserved) }
{
    let mut records = Vec::new(alloc);
    let pieces = write_pieces(alloc, classes, &mut records, world, maps, places, kind)?;
    let section = world.lists_section(kind);
    let parts = world.contributions(kind);
    let image = assemble(alloc, kind, section, parts, &pieces)?;
    Ok(WrittenLists { image, records })
}
