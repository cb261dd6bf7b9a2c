// The operands of each opcode.
ghost use Rattle.std.specs.Prelude.{◌≡◌, Some};
ghost use Rattle.expr_ops.specs.declared.table.Shape.TheVariants as shape;
ghost use Rattle.expr_ops.specs.declared.table.Operands.TheVariants as operands;
ghost use Rattle.expr_ops.specs.Table.{operands_of};

/// How many bytes a number of fixed size has.
#[derive(Clone, Copy, Debug, PartialEq, Eq)]
pub enum Width {
    /// A byte.
    One,
    /// Two bytes, the low one first, as all that follow.
    Two,
    /// Four bytes.
    Four,
    /// Eight bytes.
    Eight,
}

/// How an operand is written.
#[derive(Clone, Copy, Debug, PartialEq, Eq)]
pub enum Shape {
    /// A number of fixed size without a sign.
    Unsigned(Width),
    /// A number of fixed size with a sign, in two's complement.
    Signed(Width),
    /// A number in unsigned LEB128 (DWARF 5 section 7.6).
    Uleb,
    /// A number in signed LEB128.
    Sleb,
    /// A length in unsigned LEB128 and as many bytes.
    Counted,
    /// A length of one byte and as many bytes.
    ByteCounted,
}

/// What follows an opcode.
#[derive(Clone, Copy, Debug, PartialEq, Eq)]
pub enum Operands {
    /// The opcode stands alone.
    Nothing,
    /// One operand.
    One(Shape),
    /// Two operands, one after the other.
    Two(Shape, Shape),
    /// A number and then the place of a base type in unsigned LEB128.
    Typed(Shape),
}

fn unsigned(width: Width) -> Option<Operands>
    ensures { result ≡ Some (operands.One (shape.Unsigned width)) }
{
    Some(Operands::One(Shape::Unsigned(width)))
}

fn signed(width: Width) -> Option<Operands>
    ensures { result ≡ Some (operands.One (shape.Signed width)) }
{
    Some(Operands::One(Shape::Signed(width)))
}

/// What follows an opcode (DWARF 5 section 7.7.1), or None where it isn't one of those that are understood: those of the
/// standard, and GNU's e0 (push_tls_address), f0 (uninit), fa (parameter_ref) and fd (variable_value).
pub fn operands_of(code: u8) -> Option<Operands>
    ensures { result ≡ operands_of code }
{
    match code {
        0x06 | 0x12..=0x14 | 0x16..=0x22 | 0x24..=0x27 | 0x29..=0x2e | 0x30..=0x6f => {
            Some(Operands::Nothing)
        }
        0x96 | 0x97 | 0x9b | 0x9c | 0x9f | 0xe0 | 0xf0 => Some(Operands::Nothing),
        0x08 | 0x15 | 0x94 | 0x95 => unsigned(Width::One),
        0x09 => signed(Width::One),
        0x0a | 0x98 => unsigned(Width::Two),
        0x0b | 0x28 | 0x2f => signed(Width::Two),
        0x0c | 0x99 | 0x9a | 0xfa | 0xfd => unsigned(Width::Four),
        0x0d => signed(Width::Four),
        0x03 | 0x0e => unsigned(Width::Eight),
        0x0f => signed(Width::Eight),
        0x10 | 0x23 | 0x90 | 0x93 | 0xa1 | 0xa2 | 0xa8 | 0xa9 => Some(Operands::One(Shape::Uleb)),
        0x11 | 0x70..=0x8f | 0x91 => Some(Operands::One(Shape::Sleb)),
        0x9e | 0xa3 => Some(Operands::One(Shape::Counted)),
        0x92 => Some(Operands::Two(Shape::Uleb, Shape::Sleb)),
        0x9d => Some(Operands::Two(Shape::Uleb, Shape::Uleb)),
        0xa0 => Some(Operands::Two(Shape::Unsigned(Width::Four), Shape::Sleb)),
        0xa4 => Some(Operands::Two(Shape::Uleb, Shape::ByteCounted)),
        0xa5 => Some(Operands::Typed(Shape::Uleb)),
        0xa6 | 0xa7 => Some(Operands::Typed(Shape::Unsigned(Width::One))),
        _ => None,
    }
}
