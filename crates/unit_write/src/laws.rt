// Laws of the definitions.
ghost use Rattle.std.specs.Prelude.{◌<◌, ◌^◌, length};
ghost use Rattle.spelled.specs.Spelled.{AreBytes};
ghost use Rattle.unit_write.specs.Values.{OneSize};
ghost use Rattle.unit_write.specs.Placing.{OnePlacing};
ghost use Rattle.unit_write.specs.Slots.{LayoutsHold, SlotsFit};
ghost use Rattle.unit_write.specs.Sizes.{NumbersHaveSizes, ExpressionsHaveSizes, ShortestHaveSizes};

use expr_ops::{lengths_split, needed_are_shortest, slots_are_few};

/// A law: the bytes that are written for a value in a column have one size, whatever number stands in the value. That of a reference
/// within the unit is the one that it is given.
pub fn one_size()
    ensures { OneSize }
{}

/// A law: the entries of a unit and its codes 0 have one place each where they are written one after the other from a place
/// on. So a unit has one end.
pub fn one_placing()
    ensures { OnePlacing }
{}

/// A law: in a least layout each slot has as many bytes as its number needs. So what `lay_out` gives is how long the references and the
/// expressions are that are written with the numbers of their places.
pub fn layouts_hold()
    ensures { LayoutsHold }
{
    // Laws, which cost nothing: an expression whose slots have just the sizes that they need is in its fewest bytes.
    lengths_split();
    needed_are_shortest();
}

/// A law: a unit has no more slots than values, and one more for two bytes.
pub fn slots_fit()
    ensures { SlotsFit }
{
    // Laws, which cost nothing: an expression has no more than one slot for two bytes.
    slots_are_few();
}

/// Laws: something can be written for a reference or a section offset in the form in which it is written, whatever its number, for an
/// expression in DW_FORM_exprloc, whatever its bytes, and for another value that its column's form and constant spell. So callers show
/// that a unit can be written.
pub fn values_have_sizes()
    ensures numbers { NumbersHaveSizes }
    ensures expressions { ExpressionsHaveSizes }
    ensures others { ShortestHaveSizes }
{}

/// A law: contracts see a slice as a list of numbers, which has fewer than 2^63, and each is a byte.
pub fn bytes_are_small(section: &[u8])
    ensures few { length section.now < 2 ^ 63 }
    ensures small { AreBytes section.now }
{
    let _section = section;
}
