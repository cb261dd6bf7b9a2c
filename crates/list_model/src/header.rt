// What the headers of address tables and of contributions have in common. A thing is such a table or contribution.
ghost use Rattle.std.specs.Prelude.{◌≡◌, ◌≤◌, ◌<◌, ◌+◌, ◌^◌, ◌↔◌, length, IsTrue};
ghost use Rattle.fixed_width.specs.InitialLengths.{unit_end, IsWhole};
ghost use Rattle.list_model.specs.Headers.{IsHeader};

use dw_base::{Fault, Kind};
use fixed_width::version_of_unit;

const VERSION: u16 = 5;

// The bytes of an address.
pub(crate) const ADDRESS_SIZE: usize = 8;

// Whether the header of the thing at a place, which is whole, is one that is understood. The header has `size` bytes.
#[tactic(auto, using(crate::proofs::Walking::byte_at))]
pub(crate) fn has_header(section: &[u8], at: usize, end: usize, size: usize) -> bool
    requires size { 8 ≤ size }
    requires whole { IsWhole section.now at }
    requires end { end ≡ unit_end section.now at }
    ensures { IsTrue result ↔ IsHeader size section.now at }
{
    end - at >= size
        && version_of_unit(section, at) == VERSION
        && section[at + 6] as usize == ADDRESS_SIZE
        && section[at + 7] == 0
}

// A fault at a place of the section.
pub(crate) fn fault_at(kind: Kind, origin: u64, at: usize) -> Fault
    requires { origin + at < 2 ^ 64 }
    ensures { result ≡ record { kind = kind; place = origin + at } }
{
    Fault {
        kind,
        place: origin + at as u64,
    }
}
