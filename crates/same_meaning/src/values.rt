// The values of attributes (DWARF 5 sections 2.2 and 7.5).
ghost use Rattle.std.specs.Prelude.{◌≡◌, ◌≤◌, ◌<◌, ◌+◌, ◌↔◌, ℕ, List, length, slice_index_or, IsTrue, IfOk};
ghost use Rattle.form_codec.specs.Forms.{Meaning};
ghost use Rattle.form_codec.specs.Values.{LiesIn, bytes_in, meant_in};
ghost use Rattle.list_model.specs.declared.entry.ListKind.{ListKind as AnyKind};
ghost use Rattle.loc_lists.specs.declared.views.ViewPair.{ViewPair as AnyPair};
ghost use Rattle.list_arena.specs.Held.{HeldViews, ViewsRise};
ghost use Rattle.value_links.specs.declared.link.Link.TheVariants.{List as AtList, Slot, Views as AtViews};
ghost use Rattle.value_links.specs.Links.{held_at};
ghost use Rattle.value_links.specs.Reading.{unit_at};
ghost use Rattle.value_links.specs.inside.Checks.{IsNoExpr};
ghost use Rattle.same_meaning.specs.inside.Compared.{IsSomeWorld, OfBoth, MeanOne, HasListAt, AreSameLists, StandsIn, MeansValue};
ghost use Rattle.same_meaning.specs.inside.Values.{OfReading, IsTold, TellSame, HoldsPairs, IsThere, section_at, IsValueOf, MeansHeld};

use crate::expressions::mean_same_expression;
use crate::same_lists::SameLists;
use dw_base::{NoMemory, Span};
use form_codec::Value;
use list_arena::Views;
use list_model::ListKind;
use loc_lists::ViewPair;
use value_links::{Link, World, one_meaning, one_reading};

// The place of a value among those of both files: its unit, its entry, and the name of its attribute.
#[derive(Clone, Copy)]
pub(crate) struct Attribute {
    pub(crate) unit: u32,
    pub(crate) id: u32,
    pub(crate) name: u64,
}

// The bytes of a span of .debug_info.
fn bytes_at<'a>(world: &'a World<'_>, unit: u32, span: Span) -> &'a [u8]
    requires known { unit < length world.now.units }
    requires inside { span.at + span.len ≤ length (section_at world.now unit) }
    ensures { result.now ≡ bytes_in (section_at world.now unit) span }
{
    world.units()[unit as usize].forest().bytes(span)
}

// Whether two values that are no expressions are the same in themselves.
fn are_same_plain(
    before: &World<'_>,
    after: &World<'_>,
    unit: u32,
    old: &Value,
    new: &Value,
) -> bool
    requires known { unit < length before.now.units }
    requires again { unit < length after.now.units }
    requires first { LiesIn (length (section_at before.now unit)) old.now }
    requires second { LiesIn (length (section_at after.now unit)) new.now }
    requires plain { IsNoExpr old.now }
    requires other { IsNoExpr new.now }
    ensures { IsTrue result ↔ (meant_in (section_at before.now unit) old.now ≡ meant_in (section_at after.now unit) new.now) }
{
    match *old {
        Value::Wide16(a) => match *new {
            Value::Wide16(b) => bytes_at(before, unit, a) == bytes_at(after, unit, b),
            _ => false,
        },
        Value::Block(a) => match *new {
            Value::Block(b) => bytes_at(before, unit, a) == bytes_at(after, unit, b),
            _ => false,
        },
        Value::Text(a) => match *new {
            Value::Text(b) => bytes_at(before, unit, a) == bytes_at(after, unit, b),
            _ => false,
        },
        _ => *old == *new,
    }
}

// The number of the run of view pairs that goes with the location list at a place, and stands at another.
fn run_among(views: &Views, list: u64, at: u64) -> usize
    requires rising { ViewsRise views.now }
    requires there { (pairs : List AnyPair) × HoldsPairs views.now list at pairs }
    ensures inside { result < length views.now }
    ensures run { (d : HeldViews) → HoldsPairs views.now list at (slice_index_or views.now result d).pairs }
{
    match views.find(list, at) {
        Some(number) => number,
        // Some begin there.
        None => unreachable!(),
    }
}

// Whether the view pairs of two runs are the same, one by one.
fn have_same_pairs(before: &Views, first: usize, after: &Views, second: usize) -> bool
    requires first { first < length before.now }
    requires second { second < length after.now }
    ensures { (d : HeldViews) → IsTrue result ↔ ((slice_index_or before.now first d).pairs ≡ (slice_index_or after.now second d).pairs) }
{
    let count = before.pair_count(first);
    if count != after.pair_count(second) {
        return false;
    }
    for i in 0..count {
        if before.pair(first, i) != after.pair(second, i) {
            return false;
        }
    }
    true
}

// Whether another link names view pairs that are the same as those at a place.
fn name_same_pairs(before: &World<'_>, after: &World<'_>, list: u64, at: u64, other: Link) -> bool
    requires before { IsSomeWorld before.now }
    requires after { IsSomeWorld after.now }
    requires first { IsThere before.now (AtViews list at) }
    requires second { IsThere after.now other }
    ensures { TellSame before.now after.now (AtViews list at) other result }
{
    match other {
        Link::Views(other_list, place) => {
            let (old, new) = (before.views(), after.views());
            let first = run_among(old, list, at);
            let second = run_among(new, other_list, place);
            have_same_pairs(old, first, new, second)
        }
        _ => false,
    }
}

// Whether another link names a list of the same meaning as the list of a kind at a place.
fn name_same_list(
    lists: &mut SameLists,
    before: &World<'_>,
    after: &World<'_>,
    kind: ListKind,
    at: u64,
    other: Link,
) -> Result<bool, NoMemory>
    requires before { IsSomeWorld before.now }
    requires after { IsSomeWorld after.now }
    requires first { IsThere before.now (AtList kind at) }
    requires second { IsThere after.now other }
    requires lists { AreSameLists before.now after.now lists.old }
    ensures same { IfOk result (TellSame before.now after.now (AtList kind at) other) }
    ensures lists { AreSameLists before.now after.now lists.new }
{
    match other {
        Link::List(other_kind, place) => {
            if other_kind != kind {
                return Ok(false);
            }
            lists.mean_same(before, after, kind, at, place)
        }
        _ => Ok(false),
    }
}

// Whether another link is that of the same slot of a unit's contribution, and it names a list of the same meaning.
fn name_same_slot(
    lists: &mut SameLists,
    before: &World<'_>,
    after: &World<'_>,
    kind: ListKind,
    part: u32,
    slot: u32,
    other: Link,
) -> Result<bool, NoMemory>
    requires before { IsSomeWorld before.now }
    requires after { IsSomeWorld after.now }
    requires first { IsThere before.now (Slot kind part slot) }
    requires second { IsThere after.now other }
    requires lists { AreSameLists before.now after.now lists.old }
    ensures same { IfOk result (TellSame before.now after.now (Slot kind part slot) other) }
    ensures lists { AreSameLists before.now after.now lists.new }
{
    match other {
        Link::Slot(other_kind, other_part, other_slot) => {
            if other_kind != kind || other_slot != slot {
                return Ok(false);
            }
            let first = before.told(kind, part, slot);
            let second = after.told(kind, other_part, slot);
            lists.mean_same(before, after, kind, first, second)
        }
        _ => Ok(false),
    }
}

// What a value refers to that is no expression.
fn link_of(world: &World<'_>, at: Attribute, value: &Value) -> Link
    requires world { IsSomeWorld world.now }
    requires known { at.unit < length world.now.units }
    requires value { IsValueOf world.now at.unit at.id at.name value.now }
    requires plain { IsNoExpr value.now }
    ensures told { OfReading world.now (λ r. IsTold r at.unit at.id at.name (meant_in (unit_at r.links at.unit).forest.section value.now) result) }
    ensures there { IsThere world.now result }
{
    one_reading();
    one_meaning();
    match world.resolve(at.unit, at.id, at.name, value) {
        Some(link) => link,
        // Each value of a valid file is linked.
        None => unreachable!(),
    }
}

// Whether two links are the same.
fn are_same_links(first: Link, second: Link) -> bool
    ensures { IsTrue result ↔ (first ≡ second) }
{
    first == second
}

// Whether two values that are no expressions refer to the same, or are the same.
fn refer_to_same(
    lists: &mut SameLists,
    before: &World<'_>,
    after: &World<'_>,
    at: Attribute,
    old: &Value,
    new: &Value,
) -> Result<bool, NoMemory>
    requires before { IsSomeWorld before.now }
    requires after { IsSomeWorld after.now }
    requires known { at.unit < length before.now.units }
    requires again { at.unit < length after.now.units }
    requires first { IsValueOf before.now at.unit at.id at.name old.now }
    requires second { IsValueOf after.now at.unit at.id at.name new.now }
    requires plain { IsNoExpr old.now }
    requires other { IsNoExpr new.now }
    requires lists { AreSameLists before.now after.now lists.old }
    ensures same { IfOk result (λ same. OfBoth before.now after.now (λ r s. IsTrue same ↔ MeanOne (MeansHeld r at.unit at.id at.name old.now) (MeansHeld s at.unit at.id at.name new.now))) }
    ensures lists { AreSameLists before.now after.now lists.new }
{
    let first = link_of(before, at, old);
    let second = link_of(after, at, new);
    let is_same = are_same_links(first, second);
    match first {
        Link::Plain => Ok(is_same && are_same_plain(before, after, at.unit, old, new)),
        Link::List(kind, place) => name_same_list(lists, before, after, kind, place, second),
        Link::Slot(kind, part, slot) => {
            name_same_slot(lists, before, after, kind, part, slot, second)
        }
        Link::Views(list, place) => Ok(name_same_pairs(before, after, list, place, second)),
        // An entry, a program, a contribution or a place that is kept.
        _ => Ok(is_same),
    }
}

/// Whether two values mean the same that stand in the same entry of both files as that of an attribute with the same name. `first` and
/// `second` are their numbers among the values of the unit.
pub(crate) fn mean_same_value(
    lists: &mut SameLists,
    before: &World<'_>,
    after: &World<'_>,
    at: Attribute,
    first: u32,
    second: u32,
) -> Result<bool, NoMemory>
    requires before { IsSomeWorld before.now }
    requires after { IsSomeWorld after.now }
    requires known { at.unit < length before.now.units }
    requires again { at.unit < length after.now.units }
    requires stands { OfBoth before.now after.now (λ r s. StandsIn r at.unit at.id at.name first × StandsIn s at.unit at.id at.name second) }
    requires lists { AreSameLists before.now after.now lists.old }
    ensures same { IfOk result (λ same. OfBoth before.now after.now (λ r s. IsTrue same ↔ MeanOne (MeansValue r at.unit at.id at.name first) (MeansValue s at.unit at.id at.name second))) }
    ensures lists { AreSameLists before.now after.now lists.new }
{
    let old = before.units()[at.unit as usize].forest().value(first);
    let new = after.units()[at.unit as usize].forest().value(second);
    match old {
        Value::Expr(a) => match new {
            Value::Expr(b) => Ok(mean_same_expression(before, after, at.unit, first, a, second, b)),
            _ => Ok(false),
        },
        _ => match new {
            Value::Expr(_) => Ok(false),
            _ => refer_to_same(lists, before, after, at, &old, &new),
        },
    }
}
