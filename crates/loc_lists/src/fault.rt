// Faults at a place.
ghost use Rattle.std.specs.Prelude.{◌≡◌, ◌<◌, ◌+◌, ◌^◌};

use dw_base::{Fault, Kind};

// A fault at a place of the section.
pub(crate) fn fault_at(kind: Kind, origin: u64, at: usize) -> Fault
    requires { origin + at < 2 ^ 64 }
    ensures { result ≡ record { kind = kind; place = origin + at } }
{
    Fault {
        kind,
        place: origin + at as u64,
    }
}
