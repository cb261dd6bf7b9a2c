// A file that is held with what is read of it.
ghost use Rattle.std.specs.Prelude.{◌≡◌, ◌≤◌, ◌<◌, ◌+◌, ◌^◌, ◌↔◌, ℕ, List, length, slice_index, IfOk, IfErr, OnOk, IsTrue, MatchOption};
ghost use Rattle.std.specs.List.{Contains};
ghost use Rattle.dw_base.specs.Refusals.{IsFaultOf, IsRefusedFor};
ghost use Rattle.dw_base.specs.declared.fault.Refusal.TheVariants.{Refused};
ghost use Rattle.list_model.specs.Addresses.{TablesFollow, AreAllTables};
ghost use Rattle.list_model.specs.Faults.{FaultContributions};
ghost use Rattle.list_model.specs.Faults.{FaultTables as FaultTablesOf};
ghost use Rattle.dw_base.specs.declared.fault.Reach.{Reach};
ghost use Rattle.dw_base.specs.declared.fault.Reach.TheVariants.{Wide};
ghost use Rattle.elf_sections.specs.Faults.{IsRead};
ghost use Rattle.form_codec.specs.Values.{meant_in};
ghost use Rattle.entry_read.specs.Places.{HaveOwners};
ghost use Rattle.entry_read.specs.Units.{declarations_of, IsTable};
ghost use Rattle.line_write.specs.Readings.{AreRead};
ghost use Rattle.companions.specs.declared.set.ArangeSet.{ArangeSet as AnySet};
ghost use Rattle.companions.specs.Aranges.{SetsTile};
ghost use Rattle.value_links.specs.Sections.{body_named, offset_named, debug_line, debug_addr, debug_lists, debug_aranges, addr_name, lists_name};
ghost use Rattle.value_links.specs.Reading.{Linkable, Reading, ListRead as AnyRead, ViewRead as AnyViews, of_kind, unit_at, context_at, lists_of};
ghost use Rattle.list_model.specs.declared.entry.ListKind.TheVariants.{Locations};
ghost use Rattle.loc_lists.specs.Views.{view_limit};
ghost use Rattle.value_links.specs.Lists.{IsFrozen, AreListsOf, AreViewsRead, pair_total};
ghost use Rattle.value_links.specs.Faults.{NamesFault};
ghost use Rattle.value_links.specs.Laws.{IsImageInOrder};
ghost use Rattle.value_links.specs.declared.link.Link.{Link as AnyLink};
ghost use Rattle.list_arena.specs.Held.{HeldList as AnyList};
ghost use Rattle.value_links.specs.Links.{held_at, HasLink, IsLinkFound, IsFollowed, IsOpLinkFound, IsNamedThing};
ghost use Rattle.value_links.specs.Parts.{HoldsParts};
ghost use Rattle.value_links.specs.inside.ListPlaces.{AreContributions};
ghost use Rattle.value_links.specs.Whole.{AreAddressesRead};
ghost use Rattle.value_links.specs.inside.Passes.{starts_of, ArePartsRead, ArePartsInOrder, HoldAllLists, NamesLaterFault};
ghost use Rattle.value_links.specs.ListPlaces.{IsSlot};
ghost use Rattle.value_links.specs.World.{World, Holds, HoldLists, HoldViews, contributions_held, contribution_at, lists_held, table_at, IsWorldOf, HaveOperations};
ghost use Rattle.value_links.specs.Operations.{NamesSectionEntry};
ghost use Rattle.value_links.specs.inside.Checks.{IsNoExpr};
ghost use Rattle.list_arena.specs.Held.{AreListsApart};
ghost use Rattle.value_links.specs.inside.World.{own_table};

use crate::check::check_links;
use crate::contexts::contexts_of;
use crate::link::{Link, resolve};
use crate::list_bases::bases_of;
use crate::list_places::{Contributions, told_by};
use crate::lists::{ListTotals, read_lists};
use crate::operations::{OpLink, read_operations, resolve_op, section_entry};
use crate::owners::{attribute_name, owner_of};
use crate::parts::Parts;
use crate::roots::names_addresses;
use crate::sections::{DebugSection, debug_section};
use crate::units::{NamedTable, read_units};
use crate::views::read_view_runs;
use abbrev_tables::Table;
use companions::{ArangeSet, read_aranges};
use dw_base::{Fault, Kind, NoMemory, Reach, Refusal};
use elf_sections::Image;
use entry_arena::{Forest, Operations};
use entry_read::Unit;
use expr_ops::{Op, narrow_is_wide};
use form_codec::Value;
use line_machine::Head;
use line_write::read_lines;
use list_arena::{Lists, Views};
use list_model::{
    AddrTable, AddrTables, Context, Contribution, ListKind, addr_tables, contributions,
};
use std::alloc::Global;
use std::marker::Model;

// The most contributions, since numbers of 32 bits name them.
const MOST_CONTRIBUTIONS: usize = 0xffff_ffff;

// The image of a file.
fn read_image<'a>(alloc: Global, file: &'a [u8], reach: Reach) -> Result<Image<'a>, Refusal>
    ensures image { IfOk result (λ image. image ≡ file.entry.now) }
    ensures read { OnOk result (IsRead file.entry.now Wide) }
    ensures order { OnOk result (IsImageInOrder file.entry.now reach) }
    ensures refused { IfErr result (λ refusal. NamesFault file.entry.now reach refusal) }
{
    Image::read(alloc, file, reach)
}

// The headers of the line number programs of a file.
fn read_programs<'a>(alloc: Global, file: &'a [u8], image: &Image<'a>) -> Result<Vec<Head>, Refusal>
    requires image { image.now ≡ file.now }
    requires read { IsRead file.now Wide }
    ensures read { IfOk result (λ heads. AreRead (debug_line file.now) heads.items) }
    ensures refused { IfErr result (λ refusal. (reach : Reach) → NamesLaterFault file.now reach refusal) }
{
    let line = debug_section(file, image, b".debug_line".as_slice());
    read_lines(alloc, line.bytes, line.origin)
}

// The address tables of .debug_addr, up to its end or to one that has a fault.
fn read_addresses<'a>(
    alloc: Global,
    file: &'a [u8],
    image: &Image<'a>,
) -> Result<AddrTables, NoMemory>
    requires image { image.now ≡ file.now }
    requires read { IsRead file.now Wide }
    ensures all { IfOk result (λ read. AreAllTables (debug_addr file.now) read.tables.items) }
    ensures fault { IfOk result (λ read. MatchOption read.fault (TablesFollow (debug_addr file.now) read.tables.items 0 (length (debug_addr file.now))) (IsFaultOf (FaultTablesOf (debug_addr file.now)) (offset_named file.now addr_name))) }
{
    let addr = debug_section(file, image, b".debug_addr".as_slice());
    addr_tables(alloc, addr.bytes, addr.origin)
}

// The section of lists of a kind.
fn lists_section<'a>(file: &'a [u8], image: &Image<'_>, kind: ListKind) -> DebugSection<'a>
    requires image { image.now ≡ file.now }
    requires read { IsRead file.now Wide }
    ensures bytes { result.bytes.now ≡ debug_lists file.entry.now kind }
    ensures origin { result.origin ≡ offset_named file.entry.now (lists_name kind) }
    ensures room { result.origin + length result.bytes.now < 2 ^ 64 }
{
    match kind {
        ListKind::Ranges => debug_section(file, image, b".debug_rnglists".as_slice()),
        ListKind::Locations => debug_section(file, image, b".debug_loclists".as_slice()),
    }
}

// The contributions of lists of a kind. Numbers of 32 bits name them.
fn read_contributions<'a>(
    alloc: Global,
    file: &'a [u8],
    image: &Image<'a>,
    kind: ListKind,
) -> Result<Contributions<'a>, Refusal>
    requires image { image.now ≡ file.now }
    requires read { IsRead file.now Wide }
    ensures section { IfOk result (λ held. (held.section.now ≡ debug_lists file.entry.now kind) × AreContributions held) }
    ensures fault { IfErr result (IsRefusedFor (IsFaultOf (FaultContributions (debug_lists file.entry.now kind)) (offset_named file.entry.now (lists_name kind)))) }
{
    let lists = lists_section(file, image, kind);
    let parts = contributions(alloc, lists.bytes, lists.origin)?;
    if parts.len() > MOST_CONTRIBUTIONS {
        return Err(Refusal::NoMemory);
    }
    Ok(Contributions {
        section: lists.bytes,
        parts,
    })
}

// What the values of a file refer to. `programs` are its line number programs, and `tables` its address tables. Expressions come last,
// since their faults are those of a later pass.
fn read_parts<'a>(
    alloc: Global,
    file: &'a [u8],
    image: &Image<'a>,
    programs: Vec<Head>,
    tables: Vec<AddrTable>,
    reach: Reach,
) -> Result<Parts<'a>, Refusal>
    requires image { image.now ≡ file.now }
    requires read { IsRead file.now Wide }
    requires programs { AreRead (debug_line file.now) programs.items }
    requires tables { AreAllTables (debug_addr file.now) tables.items }
    ensures parts { IfOk result (λ parts. ArePartsRead file.entry.now parts) }
    ensures tables { IfOk result (λ parts. parts.tables.items ≡ tables.items) }
    ensures operations { IfOk result (λ parts. HaveOperations reach parts.units.units.items parts.operations.items) }
    ensures refused { IfErr result (λ refusal. NamesLaterFault file.entry.now reach refusal) }
{
    let info = debug_section(file, image, b".debug_info".as_slice());
    let abbrev = debug_section(file, image, b".debug_abbrev".as_slice());
    let addr = debug_section(file, image, b".debug_addr".as_slice());
    let units = read_units(alloc, info.bytes, abbrev.bytes, info.origin, abbrev.origin)?;
    let ranges = read_contributions(alloc, file, image, ListKind::Ranges)?;
    let locations = read_contributions(alloc, file, image, ListKind::Locations)?;
    let contexts = contexts_of(alloc, addr.bytes, &tables, &units)?;
    let range_bases = bases_of(alloc, ListKind::Ranges, &ranges, &units)?;
    let location_bases = bases_of(alloc, ListKind::Locations, &locations, &units)?;
    // What keeps the narrow limits keeps the wide ones.
    narrow_is_wide();
    let operations = read_operations(alloc, &units, info.bytes, info.origin, reach)?;
    Ok(Parts {
        programs,
        units,
        contexts,
        addr: addr.bytes,
        tables,
        ranges,
        locations,
        operations,
        range_bases,
        location_bases,
    })
}

// Whether the address tables of a file are in order, where entries name some. `fault` is that of the first one that has one.
fn check_addresses(file: &[u8], parts: &Parts<'_>, fault: Option<Fault>) -> Result<(), Fault>
    requires parts { ArePartsRead file.now parts.now }
    requires fault { MatchOption fault (TablesFollow (debug_addr file.now) parts.now.tables.items 0 (length (debug_addr file.now))) (IsFaultOf (FaultTablesOf (debug_addr file.now)) (offset_named file.now addr_name)) }
    ensures tables { OnOk result ((r : Linkable) → HoldsParts file.now r parts.now → AreAddressesRead r.units r.addresses) }
    ensures refused { IfErr result (λ fault. (reach : Reach) → NamesLaterFault file.now reach (Refused fault)) }
{
    // The tables are those of this file.
    let _file = file;
    match fault {
        Some(fault) if names_addresses(parts) => Err(fault),
        _ => Ok(()),
    }
}

// Whether each value of a file refers to what it may, and roots and address tables are in order. `fault` is that of the first address
// table that has one. It is told before values are looked at: up to it nothing says which of them name a table.
fn check_parts<'a>(
    file: &'a [u8],
    image: &Image<'a>,
    parts: &Parts<'a>,
    fault: Option<Fault>,
) -> Result<(), Fault>
    requires image { image.now ≡ file.now }
    requires read { IsRead file.now Wide }
    requires parts { ArePartsRead file.now parts.now }
    requires fault { MatchOption fault (TablesFollow (debug_addr file.now) parts.now.tables.items 0 (length (debug_addr file.now))) (IsFaultOf (FaultTablesOf (debug_addr file.now)) (offset_named file.now addr_name)) }
    ensures linked { OnOk result ((reach : Reach) → IsImageInOrder file.now reach → ArePartsInOrder file.now parts.now) }
    ensures refused { IfErr result (λ fault. (reach : Reach) → NamesLaterFault file.now reach (Refused fault)) }
{
    check_addresses(file, parts, fault)?;
    let info = debug_section(file, image, b".debug_info".as_slice());
    let abbrev = debug_section(file, image, b".debug_abbrev".as_slice());
    check_links(parts, info.bytes, abbrev.bytes, info.origin)?;
    Ok(())
}

// Where units begin.
fn unit_starts(alloc: Global, units: &[Unit<'_>]) -> Result<Vec<u64>, NoMemory>
    ensures { IfOk result (λ starts. starts.items ≡ starts_of units.now) }
{
    let starts = units.iter().map(|unit| unit.head().at).collect(alloc)?;
    Ok(starts)
}

// The sets of address ranges of a file, of which these parts were read.
fn read_sets<'a>(
    alloc: Global,
    file: &'a [u8],
    image: &Image<'a>,
    parts: &Parts<'a>,
) -> Result<Vec<ArangeSet>, Refusal>
    requires image { image.now ≡ file.now }
    requires read { IsRead file.now Wide }
    requires parts { (reach : Reach) × IsImageInOrder file.now reach × ArePartsInOrder file.now parts.now }
    ensures sets { IfOk result (λ sets. SetsTile (debug_aranges file.now) (starts_of parts.now.units.units.items) sets.items) }
    ensures refused { IfErr result (λ refusal. (reach : Reach) → NamesLaterFault file.now reach refusal) }
{
    let starts = unit_starts(alloc, &parts.units.units)?;
    let aranges = debug_section(file, image, b".debug_aranges".as_slice());
    read_aranges(alloc, aranges.bytes, &starts, aranges.origin)
}

// What lists have together before the first one.
const NO_TOTALS: ListTotals = ListTotals {
    entries: 0,
    bytes: 0,
};

// The lists of a file, of which these parts and sets were read: range lists, then location lists.
fn read_named_lists<'a>(
    alloc: Global,
    file: &'a [u8],
    image: &Image<'a>,
    parts: &Parts<'a>,
    sets: &Vec<ArangeSet>,
    reach: Reach,
) -> Result<(Lists, Lists), Refusal>
    requires image { image.now ≡ file.now }
    requires read { IsRead file.now Wide }
    requires parts { (reach : Reach) × IsImageInOrder file.now reach × ArePartsInOrder file.now parts.now }
    requires operations { HaveOperations reach parts.now.units.units.items parts.now.operations.items }
    requires sets { SetsTile (debug_aranges file.now) (starts_of parts.now.units.units.items) sets.now.items }
    ensures lists { IfOk result (λ lists. (r : Linkable) → HoldsParts file.now r parts.now → HoldAllLists r reach lists.0 lists.1) }
    ensures refused { IfErr result (λ refusal. NamesLaterFault file.now reach refusal) }
{
    // The sets are of the pass before.
    let _sets = sets;
    let info = debug_section(file, image, b".debug_info".as_slice()).bytes;
    let abbrev = debug_section(file, image, b".debug_abbrev".as_slice()).bytes;
    let kind = ListKind::Ranges;
    let origin = lists_section(file, image, kind).origin;
    let ranges = read_lists(alloc, parts, kind, info, abbrev, origin, &NO_TOTALS, reach)?;
    let kind = ListKind::Locations;
    let origin = lists_section(file, image, kind).origin;
    let locations = read_lists(
        alloc,
        parts,
        kind,
        info,
        abbrev,
        origin,
        &ranges.totals,
        reach,
    )?;
    Ok((ranges.lists, locations.lists))
}

// The view pairs of a file, of which these parts and location lists were read.
fn read_file_views<'a>(
    alloc: Global,
    file: &'a [u8],
    image: &Image<'a>,
    parts: &Parts<'a>,
    locations: &Lists,
    reach: Reach,
) -> Result<Views, Refusal>
    requires image { image.now ≡ file.now }
    requires read { IsRead file.now Wide }
    requires parts { (reach : Reach) × IsImageInOrder file.now reach × ArePartsInOrder file.now parts.now }
    requires operations { HaveOperations reach parts.now.units.units.items parts.now.operations.items }
    requires sets { (sets : List AnySet) × SetsTile (debug_aranges file.now) (starts_of parts.now.units.units.items) sets }
    requires lists { (r : Linkable) → HoldsParts file.now r parts.now → (ranges : List AnyList) × HoldAllLists r reach ranges locations.now }
    ensures views { IfOk result (λ views. (r : Linkable) (read : List AnyRead) → HoldsParts file.now r parts.now → AreListsOf r Locations read → HoldLists r Locations read locations.now → (runs : List AnyViews) × AreViewsRead r read runs × HoldViews runs views × (pair_total runs ≤ view_limit)) }
    ensures refused { IfErr result (λ refusal. NamesLaterFault file.now reach refusal) }
{
    let origin = lists_section(file, image, ListKind::Locations).origin;
    read_view_runs(alloc, parts, locations, origin)
}

/// A valid file with what is read of it: its image, the headers of its line number programs, its units with the operations of their
/// expressions, the abbreviation tables that they name and the contexts of their lists, its range lists and location lists, the view
/// pairs of the latter, and its sets of address ranges. It borrows the bytes of the file.
#[derive(Drop)]
pub struct World<'a> {
    image: Image<'a>,
    parts: Parts<'a>,
    ranges: Lists,
    locations: Lists,
    views: Views,
    sets: Vec<ArangeSet>,
}

impl<'a> Model for World<'a> {
    ghost use Rattle.value_links.specs.World.{World};
    ghost use Rattle.value_links.specs.inside.World.{IsHeldIn};

    ghost Value = { World };

    ghost view = { λ w. record { image = w.image; programs = w.parts.programs.items; units = w.parts.units.units.items; operations = w.parts.operations.items; tables = w.parts.units.tables.items; table_of = w.parts.units.table_of.items; contexts = w.parts.contexts.items; range_parts = w.parts.ranges.parts.items; ranges = w.ranges; location_parts = w.parts.locations.parts.items; locations = w.locations; views = w.views; sets = w.sets.items } };

    ghost invariant = { λ w. IsHeldIn w.image w.parts (record { image = w.image; programs = w.parts.programs.items; units = w.parts.units.units.items; operations = w.parts.operations.items; tables = w.parts.units.tables.items; table_of = w.parts.units.table_of.items; contexts = w.parts.contexts.items; range_parts = w.parts.ranges.parts.items; ranges = w.ranges; location_parts = w.parts.locations.parts.items; locations = w.locations; views = w.views; sets = w.sets.items }) };
}

impl<'a> World<'a> {
    /// Reads a file, which is held to the limits of `reach`.
    ///
    /// A refusal names a fault of the first pass that has one, and never comes where the file is valid. `NoMemory` may come
    /// wherever memory is wanting.
    pub fn read(alloc: Global, file: &'a [u8], reach: Reach) -> Result<World<'a>, Refusal>
        ensures world { IfOk result (λ world. IsWorldOf file.entry.now reach world) }
        ensures refused { IfErr result (λ refusal. NamesFault file.entry.now reach refusal) }
    {
        let image = read_image(alloc, file, reach)?;
        let programs = read_programs(alloc, file, &image)?;
        let AddrTables { tables, fault } = read_addresses(alloc, file, &image)?;
        let parts = read_parts(alloc, file, &image, programs, tables, reach)?;
        check_parts(file, &image, &parts, fault)?;
        let sets = read_sets(alloc, file, &image, &parts)?;
        let (ranges, locations) = read_named_lists(alloc, file, &image, &parts, &sets, reach)?;
        let views = read_file_views(alloc, file, &image, &parts, &locations, reach)?;
        Ok(World {
            image,
            parts,
            ranges,
            locations,
            views,
            sets,
        })
    }

    /// The image of the file.
    pub fn image(&self) -> &Image<'a>
        ensures { result.now ≡ self.now.image }
    {
        &self.image
    }

    /// The image of the file, where nothing else that was read is needed any longer.
    pub fn into_image(self) -> Image<'a>
        ensures { result ≡ self.entry.image }
    {
        self.image
    }

    /// The body of the section with a name, which is given without its zero byte; none where no section has it.
    pub fn section(&self, name: &[u8]) -> &[u8]
        ensures { result.now ≡ body_named self.now.image name.now }
    {
        debug_section(self.image.whole(), &self.image, name).bytes
    }

    /// The body of the section of lists of a kind, .debug_rnglists (DWARF 5 section 7.28) or .debug_loclists (section 7.29); none where
    /// the file has no such section.
    pub fn lists_section(&self, kind: ListKind) -> &[u8]
        ensures { result.now ≡ debug_lists self.now.image kind }
    {
        lists_section(self.image.whole(), &self.image, kind).bytes
    }

    /// The offset in the file of a place in the section of lists of a kind, or of that section's end (DWARF 5 sections 7.28 and 7.29). A
    /// section that is missing stands at 0.
    pub fn lists_offset(&self, kind: ListKind, place: u64) -> u64
        requires { place ≤ length (debug_lists self.now.image kind) }
        ensures { result ≡ offset_named self.now.image (lists_name kind) + place }
    {
        lists_section(self.image.whole(), &self.image, kind).origin + place
    }

    /// The headers of the line number programs of .debug_line, in their order.
    pub fn programs(&self) -> &Vec<Head>
        ensures { result.now.items ≡ self.now.programs }
    {
        &self.parts.programs
    }

    /// The units of .debug_info, in their order.
    pub fn units(&self) -> &Vec<Unit<'a>>
        ensures { result.now.items ≡ self.now.units }
    {
        &self.parts.units.units
    }

    /// Of each unit the operations of its expressions, by the numbers of their values (DWARF 5 sections 2.5 and 7.5.5).
    pub fn operations(&self) -> &Vec<Operations>
        ensures { result.now.items ≡ self.now.operations }
    {
        &self.parts.operations
    }

    /// The abbreviation tables that units name, each once, by rising place.
    pub fn tables(&self) -> &Vec<NamedTable>
        ensures { result.now.items ≡ self.now.tables }
    {
        &self.parts.units.tables
    }

    /// For each unit the number of its table in `tables`.
    pub fn table_numbers(&self) -> &Vec<u32>
        ensures { result.now.items ≡ self.now.table_of }
    {
        &self.parts.units.table_of
    }

    /// The abbreviation table of the unit with a number, counted from 0.
    pub fn table(&self, unit: u32) -> &Table
        requires { unit < length self.now.units }
        ensures { result.now ≡ (table_at self.now.tables (slice_index self.now.table_of unit)).table }
    {
        &self.parts.units.tables[self.parts.units.table_of[unit as usize] as usize].table
    }

    /// The contributions to the section of lists of a kind, in their order.
    pub fn contributions(&self, kind: ListKind) -> &[Contribution]
        ensures { result.now ≡ contributions_held self.now kind }
    {
        &self.parts.lists(kind).parts
    }

    /// The lists of a kind that something names, each once, by rising place.
    pub fn lists(&self, kind: ListKind) -> &Lists
        ensures lists { result.now ≡ lists_held self.now kind }
        ensures rising { AreListsApart result.now }
    {
        match kind {
            ListKind::Ranges => &self.ranges,
            ListKind::Locations => &self.locations,
        }
    }

    /// The place that a slot of a contribution to the section of lists of a kind tells, where all three count from 0: the one of the
    /// slots and the other of the contributions in their order, and the place from the first byte of the section (DWARF 5 sections
    /// 7.28 and 7.29).
    pub fn told(&self, kind: ListKind, part: u32, slot: u32) -> u64
        requires part { part < length (contributions_held self.now kind) }
        requires slot { slot < (contribution_at self.now kind part).slots }
        ensures { (file : List ℕ) (r : Reading) → Holds file self.now r → IsSlot (of_kind r.links kind) part slot result }
    {
        told_by(self.parts.lists(kind), part, slot)
    }

    /// Whether the list of a kind that begins at a place is frozen: a start or an end in it is a sum of 2^64 or more, units with
    /// different contexts name it, no unit does, or it has more than 16,384 items. The place is to be that of a list that something
    /// names. It takes no memory.
    pub fn is_frozen(&self, kind: ListKind, at: u64) -> bool
        requires { (list : AnyList) × Contains (lists_held self.now kind) list × (list.at ≡ at) }
        ensures { (file : List ℕ) (r : Reading) (list : AnyRead) → Holds file self.now r → Contains (lists_of r kind) list → list.at ≡ at → IsTrue result ↔ IsFrozen r.links kind list }
    {
        let lists = self.lists(kind);
        match lists.find(at) {
            Some(number) => lists.is_frozen(number),
            // A list begins there.
            None => unreachable!(),
        }
    }

    /// The view pairs of location lists, once for each list with which they go, by rising place of the list and then by their own.
    pub fn views(&self) -> &Views
        ensures { result.now ≡ self.now.views }
    {
        &self.views
    }

    /// The sets of address ranges of .debug_aranges, in their order.
    pub fn aranges(&self) -> &Vec<ArangeSet>
        ensures { result.now.items ≡ self.now.sets }
    {
        &self.sets
    }

    /// What a value refers to that stands in an entry of the unit with this number, both counted from 0, as the value of an attribute
    /// of this name (DWARF 5 sections 7.5.4 and 7.5.5), or None exactly where it names nothing that it may name. An index of a list
    /// refers to its slot; `link` says which list the slot names. View pairs go with the list of the entry's first DW_AT_location that
    /// has one. The value is no expression, whose operations name things themselves (`resolve_op`). It takes no memory.
    pub fn resolve(&self, unit: u32, id: u32, name: u64, value: &Value) -> Option<Link>
        requires unit { unit < length self.now.units }
        requires id { id < length (held_at self.now.units unit).forest.entries }
        requires plain { IsNoExpr value.now }
        ensures { (file : List ℕ) (r : Reading) → Holds file self.now r → IsLinkFound r.links unit id name (meant_in (unit_at r.links unit).forest.section value.now) result }
    {
        resolve(&self.parts, unit, id, name, value)
    }

    /// What an operation names that stands in an expression of the unit with this number, counted from 0 (DWARF 5 sections 2.5.1.1,
    /// 2.5.1.3, 2.5.1.5 and 2.6.1.1), or None exactly where it names nothing that it may. It takes no memory.
    pub fn resolve_op(&self, unit: u32, op: &Op) -> Option<OpLink>
        requires { unit < length self.now.units }
        ensures { (file : List ℕ) (r : Reading) → Holds file self.now r → IsOpLinkFound r.links unit op.now result }
    {
        resolve_op(&self.parts, unit, op)
    }

    /// The entry of any unit that stands at a place, counted from the first byte of .debug_info, as what an operation names (DWARF 5
    /// sections 2.5.1.5 and 2.6.1.1), or None exactly where none does. It takes no memory.
    pub fn resolve_place(&self, place: u64) -> Option<OpLink>
        ensures { (file : List ℕ) (r : Reading) → Holds file self.now r → IsNamedThing (NamesSectionEntry r.links place) result }
    {
        section_entry(&self.parts, place)
    }

    // The entries of the unit with a number, each of whose values is one of an entry. What is held is of a valid file.
    fn entries_of(&self, unit: u32) -> &Forest<'a>
        requires { unit < length self.now.units }
        ensures world { (reach : Reach) × IsWorldOf self.now.image reach self.now }
        ensures forest { result.now ≡ (held_at self.now.units unit).forest }
        ensures table { IsTable (own_table self.now unit) }
        ensures owned { HaveOwners (declarations_of (own_table self.now unit)) (held_at self.now.units unit).forest }
    {
        self.parts.units.units[unit as usize].forest()
    }

    // What a value with this link refers to: a list, where the link tells a slot.
    fn followed(&self, link: Link) -> Link
        requires { (file : List ℕ) × (r : Reading) × (to : AnyLink) × Holds file self.now r × IsFollowed r.links link to }
        ensures { (file : List ℕ) (r : Reading) → Holds file self.now r → IsFollowed r.links link result }
    {
        match link {
            Link::Slot(kind, part, slot) => Link::List(
                kind,
                told_by(self.parts.lists(kind), part, slot),
            ),
            _ => link,
        }
    }

    /// What the value with a number refers to, counted from 0 over the values of all entries of the unit with a number, which is
    /// counted from 0 too (DWARF 5 sections 7.5.4 and 7.5.5). Each value of a valid file means something, so that there is no
    /// error. An index of a list refers to the list that its slot names. An expression has no link but those of its operations
    /// (`resolve_op`). The entry that has the value is searched for. It takes no memory.
    pub fn link(&self, unit: u32, value: u32) -> Link
        requires unit { unit < length self.now.units }
        requires value { value < length (held_at self.now.units unit).forest.values }
        ensures { (file : List ℕ) (r : Reading) → Holds file self.now r → HasLink r.links unit value result }
    {
        let forest = self.entries_of(unit);
        let held = forest.value(value);
        if let Value::Expr(_) = held {
            return Link::Plain;
        }
        let id = owner_of(forest, value);
        let name = attribute_name(forest, self.table(unit), id, value);
        match self.resolve(unit, id, name, &held) {
            Some(link) => self.followed(link),
            // Each value means something.
            None => unreachable!(),
        }
    }

    /// The context of the lists of the unit with this number, counted from 0 (DWARF 5 sections 2.6.2, 2.17.3 and 7.27). Its table
    /// is the one of .debug_addr whose addresses begin where the root's first DW_AT_addr_base of form DW_FORM_sec_offset says. Its
    /// base is the address of the root's first DW_AT_low_pc of form DW_FORM_addr or a form of addrx, which is looked up in this
    /// table, or 0 where the root has none.
    ///
    /// The table is None where the root has no such DW_AT_addr_base. It takes no memory.
    pub fn context(&self, unit: u32) -> Context
        requires { unit < length self.now.units }
        ensures { (file : List ℕ) (r : Reading) → Holds file self.now r → result ≡ context_at r.links unit }
    {
        self.parts.contexts[unit as usize]
    }
}
