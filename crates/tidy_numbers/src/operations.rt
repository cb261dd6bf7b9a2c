// The numbers of expressions.
ghost use Rattle.std.specs.Prelude.{◌≡◌, ◌≤◌, ◌<◌, ◌+◌, ◌^◌, length, IfSome};
ghost use Rattle.std.specs.Option.{option_map};
ghost use Rattle.dw_base.specs.declared.fault.Reach.{Reach};
ghost use Rattle.dw_base.specs.declared.fault.Reach.TheVariants.{Wide};
ghost use Rattle.expr_ops.specs.Expressions.{IsExpression};
ghost use Rattle.expr_ops.specs.Ops.{all_meant, Chain};
ghost use Rattle.form_codec.specs.Values.{bytes_in};
ghost use Rattle.value_links.specs.World.{IsWorldOf};
ghost use Rattle.tidy_places.specs.Firsts.{IsLeastFound};
ghost use Rattle.tidy_numbers.specs.LongOperations.{IsLongInExpression};
ghost use Rattle.tidy_numbers.specs.LongNumbers.{IsLongInExpressions};
ghost use Rattle.tidy_numbers.specs.inside.Held.{OfReading};
ghost use Rattle.tidy_numbers.specs.inside.Expressions.{AreOperationsOf, AreExpressionsHeld, IsLongAt, IsLongInValue, IsLongInValues};

use crate::fronts::earlier;
use crate::operands::first_in_operation;
use dw_base::Span;
use entry_arena::{Forest, Operations};
use expr_ops::Op;
use form_codec::Value;
use loc_lists::bytes_of;
use value_links::World;

/// The first number of an expression with a byte too many, by its place in the expression. `ops` are its operations, and `owned` says whether
/// it is one of a unit.
pub(crate) fn first_in_expression(bytes: &[u8], ops: &[Op], owned: bool) -> Option<u64>
    requires spelled { IsExpression Wide (all_meant bytes.now ops.now) bytes.now }
    requires places { Chain bytes.now 0 ops.now (length bytes.now) }
    ensures { IsLeastFound (IsLongInExpression owned bytes.now) result }
{
    let mut found = None;
    for op in ops {
        found = earlier(found, first_in_operation(bytes, op, owned));
    }
    found
}

// A place that counts from another one.
fn counted_from(from: u64, place: Option<u64>) -> Option<u64>
    requires { IfSome place (λ p. from + p < 2 ^ 64) }
    ensures { result ≡ option_map (λ p. from + p) place }
{
    Some(from + place?)
}

/// The first number of the expression at a span of a section, by its place in the section. `ops` are its operations, and `owned` says whether
/// it is one of a unit.
pub(crate) fn first_at(section: &[u8], span: Span, ops: &[Op], owned: bool) -> Option<u64>
    requires inside { span.at + span.len ≤ length section.now }
    requires ops { AreOperationsOf (bytes_in section.now span) ops.now }
    ensures { IsLeastFound (IsLongAt owned section.now span) result }
{
    let bytes = bytes_of(section, span);
    counted_from(span.at, first_in_expression(bytes, ops, owned))
}

// The first number of the value with a number of a unit, if it is an expression, by its place in .debug_info.
fn first_in_value(forest: &Forest<'_>, operations: &Operations, number: u32) -> Option<u64>
    requires held { AreExpressionsHeld forest.now operations.now }
    requires known { number < length forest.now.values }
    ensures { IsLeastFound (IsLongInValue forest.now number) result }
{
    match forest.value(number) {
        Value::Expr(span) => first_at(forest.section(), span, operations.of_value(number), true),
        _ => None,
    }
}

// The first number of the expressions of a unit, by its place in .debug_info.
fn first_in_values(forest: &Forest<'_>, operations: &Operations) -> Option<u64>
    requires { AreExpressionsHeld forest.now operations.now }
    ensures { IsLeastFound (IsLongInValues forest.now) result }
{
    let mut found = None;
    for number in 0..forest.value_count() {
        found = earlier(found, first_in_value(forest, operations, number));
    }
    found
}

/// The first number of the expressions of entries with a byte too many, by its place in .debug_info.
pub(crate) fn first_in_expressions(world: &World<'_>) -> Option<u64>
    requires { (reach : Reach) × IsWorldOf world.now.image reach world.now }
    ensures { OfReading world.now (λ s. IsLeastFound (IsLongInExpressions s) result) }
{
    let mut found = None;
    for unit in 0..world.units().len() {
        let forest = world.units()[unit].forest();
        let operations = &world.operations()[unit];
        found = earlier(found, first_in_values(forest, operations));
    }
    found
}
