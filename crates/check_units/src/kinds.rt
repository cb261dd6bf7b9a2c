// What the kind of a slot says of its sizes.
ghost use Rattle.std.specs.Prelude.{◌≡◌, ◌≤◌, ◌<◌, ◌+◌, ◌^◌, ◌↔◌, IsTrue};
ghost use Rattle.leb_codec.specs.Layout.{need as need_of, size_after as size_of, steps_to, IsSlotNumber};
ghost use Rattle.slot_layout.specs.Rows.{form_of, CanHaveSize};

use leb_codec::len_u;
use slot_layout::SlotKind;

// The bytes that a slot's number needs, which is a fixed part and a sum of sizes. A number past 64 bits needs as many as the greatest
// one of 64 bits.
pub(crate) fn need(kind: SlotKind, fixed: u64, sizes: u64) -> u32
    ensures { result ≡ need_of (form_of kind) (fixed + sizes) }
{
    let number = fixed.saturating_add(sizes);
    match kind {
        SlotKind::Uleb => len_u(number),
        SlotKind::Call => { if number < 65536 { 2 } else { 4 } }
    }
}

// Whether a size holds a slot's number.
pub(crate) fn holds(kind: SlotKind, size: u32, fixed: u64, sizes: u64) -> bool
    ensures { IsTrue result ↔ ((need_of (form_of kind) (fixed + sizes) ≤ size) × IsSlotNumber (form_of kind) (fixed + sizes)) }
{
    let enough = need(kind, fixed, sizes) <= size;
    match kind {
        SlotKind::Uleb => enough,
        SlotKind::Call => enough && fixed.saturating_add(sizes) < 1 << 32,
    }
}

// The size after so many steps from the smallest one.
pub(crate) fn size_after(kind: SlotKind, steps: u64) -> u64
    requires { steps < 2 ^ 62 }
    ensures { result ≡ size_of (form_of kind) steps }
{
    match kind {
        SlotKind::Uleb => 1 + steps,
        SlotKind::Call => 2 + 2 * steps,
    }
}

// The steps to a size.
pub(crate) fn steps_from_smallest(kind: SlotKind, size: u32) -> usize
    requires { CanHaveSize (form_of kind) size }
    ensures exact { result ≡ steps_to (form_of kind) size }
    ensures few { result < 2 ^ 32 }
{
    match kind {
        SlotKind::Uleb => size as usize - 1,
        SlotKind::Call => usize::from(size == 4),
    }
}
