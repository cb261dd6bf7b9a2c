// The slots of a unit.
ghost use Rattle.std.specs.Prelude.{◌≡◌, ◌<◌, ◌≤◌, ◌^◌};
ghost use Rattle.leb_codec.specs.Layout.{need as need_of, size_after, steps_to, IsSlotSize};
ghost use Rattle.slot_layout.specs.Rows.{form_of};

use leb_codec::len_u;

/// What spells a slot's number.
#[derive(Clone, Copy, Debug, PartialEq, Eq)]
pub enum SlotKind {
    /// A ULEB128 number, 1 to 10 bytes (DWARF 5 section 7.6).
    Uleb,
    /// The operand of DW_OP_call2 or DW_OP_call4, 2 or 4 bytes (DWARF 5 section 2.5.1.5).
    Call,
}

impl SlotKind {
    // The bytes that a number needs.
    pub(crate) fn need(self, number: u64) -> u8
        ensures need { result ≡ need_of (form_of self) number }
        ensures few { result ≤ 10 }
    {
        match self {
            SlotKind::Uleb => len_u(number) as u8,
            SlotKind::Call => { if number < 65536 { 2 } else { 4 } }
        }
    }

    pub(crate) fn smallest(self) -> u8
        ensures { result ≡ size_after (form_of self) 0 }
    {
        match self {
            SlotKind::Uleb => 1,
            SlotKind::Call => 2,
        }
    }

    // The steps that lead from the smallest size to this one.
    pub(crate) fn steps(self, size: u8) -> usize
        requires { 1 ≤ size }
        ensures { result ≡ steps_to (form_of self) size }
    {
        match self {
            SlotKind::Uleb => size as usize - 1,
            SlotKind::Call => usize::from(size == 4),
        }
    }
}

/// A place whose number is `fixed` plus the sizes of the slots `from` up to but not including `to`, which are counted
/// from 0 in the unit's byte order.
#[derive(Clone, Copy, Debug, PartialEq, Eq)]
pub struct Slot {
    pub kind: SlotKind,
    pub fixed: u64,
    pub from: u32,
    pub to: u32,
}
