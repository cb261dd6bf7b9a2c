// The slots of expressions: how many bytes each has.
ghost use Rattle.std.specs.Prelude.{◌≤◌, ◌<◌, ◌+◌, ◌^◌, length, drop, OnOk};
ghost use Rattle.leb_codec.specs.Leb.{Uleb};
ghost use Rattle.slot_layout.specs.Rows.{most_slots};
ghost use Rattle.form_codec.specs.Values.{bytes_in};
ghost use Rattle.unit_slots.specs.inside.Added.{Begins, AreOperationsOf, HasExpressionSizes, AddsSizes};

use crate::operands::{number_len, push_op_sizes, push_size};
use dw_base::{NoMemory, Span};
use expr_ops::Op;
use loc_lists::bytes_of;

/// Appends the sizes of the slots of the expression at a span of a section: that of its length, which stands at a place, and those of its
/// operations.
pub(crate) fn push_expression_sizes(
    sizes: &mut Vec<u32>,
    section: &[u8],
    at: usize,
    span: Span,
    ops: &[Op],
) -> Result<(), NoMemory>
    requires within { at ≤ length section.now }
    requires counted { Begins Uleb (drop at section.now) }
    requires inside { span.at + span.len ≤ length section.now }
    requires ops { AreOperationsOf (bytes_in section.now span) ops.now }
    requires short { length section.now < 2 ^ 32 }
    requires few { length sizes.old.items ≤ most_slots }
    ensures added { OnOk result (AddsSizes (HasExpressionSizes (drop at section.now) (bytes_in section.now span) ops.now) sizes.old.items sizes.new.items) }
    ensures few { OnOk result (length sizes.new.items ≤ most_slots) }
{
    push_size(sizes, number_len(section, at))?;
    push_op_sizes(sizes, bytes_of(section, span), ops)
}
