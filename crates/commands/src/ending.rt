// How the work ends where it isn't done.
ghost use Rattle.std.specs.Prelude.{◌≡◌};
ghost use Rattle.dw_base.specs.declared.fault.Refusal.{Refusal};
ghost use Rattle.commands.specs.inside.Ending.{ending_of};
ghost use Rattle.commands.specs.declared.ending.Ending.TheVariants.{NoMemory};

use dw_base::{Fault, NoMemory as WantOfMemory, Refusal};
use std::alloc::{AllocError, AllocFailed};

/// Why the work wasn't done.
#[derive(Clone, Copy, Debug, PartialEq, Eq)]
pub enum Ending {
    Refused(Fault),
    ReadFault,
    WriteFault,
    NoMemory,
}

impl From<Refusal> for Ending {
    ghost from_gives = { λ r e. e ≡ ending_of r };

    fn from(refusal: Refusal) -> Self {
        match refusal {
            Refusal::Refused(fault) => Ending::Refused(fault),
            Refusal::NoMemory => Ending::NoMemory,
        }
    }
}

impl From<WantOfMemory> for Ending {
    ghost from_gives = { λ _ e. e ≡ NoMemory };

    fn from(_: WantOfMemory) -> Self {
        Ending::NoMemory
    }
}

impl From<AllocError> for Ending {
    ghost from_gives = { λ _ e. e ≡ NoMemory };

    fn from(_: AllocError) -> Self {
        Ending::NoMemory
    }
}

impl<T: Drop> From<AllocFailed<T>> for Ending {
    ghost from_gives = { λ _ e. e ≡ NoMemory };

    fn from(_: AllocFailed<T>) -> Self {
        Ending::NoMemory
    }
}
