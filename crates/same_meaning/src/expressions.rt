// Expressions (DWARF 5 sections 2.5 and 2.6.1).
ghost use Rattle.std.specs.Prelude.{◌≡◌, ◌<◌, ◌↔◌, ℕ, length, IsTrue, IfOk, OnOk};
ghost use Rattle.dw_base.specs.declared.fault.Reach.TheVariants.{Wide};
ghost use Rattle.entry_read.specs.Expressions.{IsExprAt};
ghost use Rattle.value_links.specs.Lists.{owner_unit};
ghost use Rattle.value_links.specs.Links.{held_at};
ghost use Rattle.value_links.specs.Operations.{LinksExpression, IsSomeExpression};
ghost use Rattle.value_links.specs.Reading.{unit_at};
ghost use Rattle.form_codec.specs.Values.{bytes_in};
ghost use Rattle.same_meaning.specs.inside.Compared.{IsSomeWorld, OfBoth, MeanOne, AreLinkedTo, AreAllLinked, IsLinkedSomehow};
ghost use Rattle.same_meaning.specs.inside.Expressions.{OfOne, IsHeldOwner, AreOperationsOf, IsBlockIn, NamesSomething, TellsNamed, KeepAlike, ReferAlike, MeanSameOperation};

use dw_base::{NoMemory, Reach, Refusal, Span};
use entry_read::units_lie;
use expr_ops::{
    Named, Op, has_reference, named_by, narrow_is_wide, never_both, one_reading, push_expr,
    references_named,
};
use std::alloc::Global;
use value_links::{OpLink, World};

// What an operation names in an expression of a list that no unit owns, where it names something: nothing counts from the first byte of a
// unit there.
fn named_alone(world: &World<'_>, op: &Op) -> Option<OpLink>
    ensures { OfOne world.now (λ r. TellsNamed r.links (length r.links.units) op.now result) }
{
    // What an operation names is one thing.
    value_links::one_meaning();
    match named_by(op.code) {
        Named::SectionEntry => world.resolve_place(op.a),
        Named::BaseType => Some(OpLink::Generic),
        _ => Some(OpLink::Plain),
    }
}

// What an operation names in an expression of a unit, or of a list that no unit owns, where it names something.
fn named(world: &World<'_>, owner: Option<u32>, op: &Op) -> Option<OpLink>
    requires { IsHeldOwner world.now owner }
    ensures { OfOne world.now (λ r. TellsNamed r.links (owner_unit r.links owner) op.now result) }
{
    // What an operation names is one thing.
    value_links::one_meaning();
    match owner {
        Some(unit) => world.resolve_op(unit, op),
        None => named_alone(world, op),
    }
}

// Whether what was found of two operations is the same.
fn is_one_link(first: Option<OpLink>, second: Option<OpLink>) -> bool
    ensures { IsTrue result ↔ (first ≡ second) }
{
    first == second
}

// Whether two operations with the same opcode name one thing, and have the same first number where that is no reference.
fn refer_alike(
    before: &World<'_>,
    owner: Option<u32>,
    old: &Op,
    after: &World<'_>,
    other_owner: Option<u32>,
    new: &Op,
) -> bool
    requires owner { IsHeldOwner before.now owner }
    requires other { IsHeldOwner after.now other_owner }
    requires code { old.now.code ≡ new.now.code }
    requires named { OfBoth before.now after.now (λ r s. NamesSomething r.links (owner_unit r.links owner) old.now × NamesSomething s.links (owner_unit s.links other_owner) new.now) }
    ensures { OfBoth before.now after.now (λ r s. IsTrue result ↔ ReferAlike r.links (owner_unit r.links owner) old.now s.links (owner_unit s.links other_owner) new.now) }
{
    // What names nothing has no reference.
    references_named();
    if has_reference(old) {
        is_one_link(named(before, owner, old), named(after, other_owner, new))
    } else {
        old.a == new.a
    }
}

// The bytes that an operation of an expression keeps.
fn block_of<'a>(bytes: &'a [u8], op: &Op) -> &'a [u8]
    requires { IsBlockIn bytes.now op.now }
    ensures { result.now ≡ bytes_in bytes.entry.now op.now.bytes }
{
    &bytes[op.bytes.at as usize..(op.bytes.at + op.bytes.len) as usize]
}

// Whether two operations, each of an expression with these bytes, are the same but for their first numbers.
fn keep_alike(bytes: &[u8], old: &Op, other_bytes: &[u8], new: &Op) -> bool
    requires block { IsBlockIn bytes.now old.now }
    requires other { IsBlockIn other_bytes.now new.now }
    ensures { IsTrue result ↔ KeepAlike bytes.now old.now other_bytes.now new.now }
{
    old.code == new.code
        && old.s == new.s
        && old.jump == new.jump
        && old.inner == new.inner
        && block_of(bytes, old) == block_of(other_bytes, new)
}

// The operations of an expression with its bytes, and the unit in which its references count, or None where there is none.
#[derive(Clone, Copy)]
struct Held<'a> {
    owner: Option<u32>,
    bytes: &'a [u8],
    ops: &'a [Op],
}

// Whether an operation of one expression means the same as an operation of another.
fn mean_same_op(
    before: &World<'_>,
    old: &Held<'_>,
    old_op: &Op,
    after: &World<'_>,
    new: &Held<'_>,
    new_op: &Op,
) -> bool
    requires owner { IsHeldOwner before.now old.now.owner }
    requires other { IsHeldOwner after.now new.now.owner }
    requires block { IsBlockIn old.now.bytes.now old_op.now }
    requires other_block { IsBlockIn new.now.bytes.now new_op.now }
    requires named { OfBoth before.now after.now (λ r s. NamesSomething r.links (owner_unit r.links old.now.owner) old_op.now × NamesSomething s.links (owner_unit s.links new.now.owner) new_op.now) }
    ensures { OfBoth before.now after.now (λ r s. IsTrue result ↔ MeanSameOperation r.links (owner_unit r.links old.now.owner) old.now.bytes.now old_op.now s.links (owner_unit s.links new.now.owner) new.now.bytes.now new_op.now) }
{
    keep_alike(old.bytes, old_op, new.bytes, new_op)
        && refer_alike(before, old.owner, old_op, after, new.owner, new_op)
}

// Whether the operations of two expressions mean the same.
fn mean_same_ops(before: &World<'_>, old: &Held<'_>, after: &World<'_>, new: &Held<'_>) -> bool
    requires owner { IsHeldOwner before.now old.now.owner }
    requires other { IsHeldOwner after.now new.now.owner }
    requires ops { AreOperationsOf old.now.bytes.now old.now.ops.now }
    requires other_ops { AreOperationsOf new.now.bytes.now new.now.ops.now }
    requires linked { OfBoth before.now after.now (λ r s. AreAllLinked r.links (owner_unit r.links old.now.owner) old.now.bytes.now old.now.ops.now × AreAllLinked s.links (owner_unit s.links new.now.owner) new.now.bytes.now new.now.ops.now) }
    ensures { OfBoth before.now after.now (λ r s. IsTrue result ↔ MeanOne (AreLinkedTo r.links (owner_unit r.links old.now.owner) old.now.bytes.now old.now.ops.now) (AreLinkedTo s.links (owner_unit s.links new.now.owner) new.now.bytes.now new.now.ops.now)) }
{
    if old.ops.len() != new.ops.len() {
        return false;
    }
    for i in 0..old.ops.len() {
        if !mean_same_op(before, old, &old.ops[i], after, new, &new.ops[i]) {
            return false;
        }
    }
    true
}

// The expression that is the value of a unit with a number and stands at a span, with its operations.
fn held_value<'a>(world: &'a World<'_>, unit: u32, number: u32, span: Span) -> Held<'a>
    requires world { IsSomeWorld world.now }
    requires unit { unit < length world.now.units }
    requires stands { IsExprAt (held_at world.now.units unit).forest number span }
    ensures owner { result.owner ≡ Some unit }
    ensures bytes { OfOne world.now (λ r. result.bytes.now ≡ bytes_in (unit_at r.links unit).forest.section span) }
    ensures ops { AreOperationsOf result.bytes.now result.ops.now }
    ensures linked { OfOne world.now (λ r. AreAllLinked r.links unit result.bytes.now result.ops.now) }
{
    // A file and an expression are read in one way, and values lie in their section, each as that of one entry.
    value_links::one_reading();
    one_reading();
    narrow_is_wide();
    units_lie();
    Held {
        owner: Some(unit),
        bytes: world.units()[unit as usize].forest().bytes(span),
        ops: world.operations()[unit as usize].of_value(number),
    }
}

/// Whether the expressions that are values of two units mean the same. The units have the same number, the values one each, and the
/// expressions stand at these spans.
pub(crate) fn mean_same_expression(
    before: &World<'_>,
    after: &World<'_>,
    unit: u32,
    first: u32,
    old: Span,
    second: u32,
    new: Span,
) -> bool
    requires before { IsSomeWorld before.now }
    requires after { IsSomeWorld after.now }
    requires known { unit < length before.now.units }
    requires again { unit < length after.now.units }
    requires first { IsExprAt (held_at before.now.units unit).forest first old }
    requires second { IsExprAt (held_at after.now.units unit).forest second new }
    ensures { OfBoth before.now after.now (λ r s. IsTrue result ↔ MeanOne (LinksExpression r.links unit (bytes_in (unit_at r.links unit).forest.section old)) (LinksExpression s.links unit (bytes_in (unit_at s.links unit).forest.section new))) }
{
    // An expression is read in one way.
    one_reading();
    let old = held_value(before, unit, first, old);
    let new = held_value(after, unit, second, new);
    mean_same_ops(before, &old, after, &new)
}

/// Memory for the operations of two expressions, which is used again.
#[derive(Drop)]
pub(crate) struct ReadAgain {
    first: Vec<Op>,
    second: Vec<Op>,
}

impl ReadAgain {
    /// No operations yet.
    pub(crate) fn new(alloc: Global) -> ReadAgain {
        ReadAgain {
            first: Vec::new(alloc),
            second: Vec::new(alloc),
        }
    }
}

// Reads the operations of an expression of a valid file, in place of those that are there.
fn read_again(alloc: Global, bytes: &[u8], ops: &mut Vec<Op>) -> Result<(), NoMemory>
    requires valid { IsSomeExpression Wide bytes.now }
    ensures { OnOk result (AreOperationsOf bytes.now ops.new.items) }
{
    // What is an expression has no fault.
    never_both();
    ops.clear();
    match push_expr(alloc, bytes, 0, Reach::Wide, ops) {
        Ok(()) => Ok(()),
        Err(Refusal::NoMemory) => Err(NoMemory),
        Err(Refusal::Refused(_)) => unreachable!(),
    }
}

/// Whether the bytes of two expressions of location lists mean the same, each in the unit that owns its list, if any does.
pub(crate) fn mean_same_bytes(
    alloc: Global,
    before: &World<'_>,
    owner: Option<u32>,
    old: &[u8],
    after: &World<'_>,
    other_owner: Option<u32>,
    new: &[u8],
    memory: &mut ReadAgain,
) -> Result<bool, NoMemory>
    requires before { IsSomeWorld before.now }
    requires after { IsSomeWorld after.now }
    requires owner { (u : ℕ) → owner ≡ Some u → u < length before.now.units }
    requires other { (u : ℕ) → other_owner ≡ Some u → u < length after.now.units }
    requires linked { OfBoth before.now after.now (λ r s. (IsLinkedSomehow r.links (owner_unit r.links owner) old.now) × (IsLinkedSomehow s.links (owner_unit s.links other_owner) new.now)) }
    ensures { IfOk result (λ same. OfBoth before.now after.now (λ r s. IsTrue same ↔ MeanOne (LinksExpression r.links (owner_unit r.links owner) old.now) (LinksExpression s.links (owner_unit s.links other_owner) new.now))) }
{
    // An expression is read in one way.
    one_reading();
    read_again(alloc, old, &mut memory.first)?;
    read_again(alloc, new, &mut memory.second)?;
    let old = Held {
        owner,
        bytes: old,
        ops: &memory.first,
    };
    let new = Held {
        owner: other_owner,
        bytes: new,
        ops: &memory.second,
    };
    Ok(mean_same_ops(before, &old, after, &new))
}
