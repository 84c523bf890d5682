// Why a call that reads and allocates gives no value.
ghost use Rattle.std.specs.Prelude.{◌≡◌};
ghost use Rattle.sending.specs.declared.fault.Fault.TheVariants.{Refused, Memory};

use answer::refusal::Refusal;
use std::alloc::{AllocError, AllocFailed};

// A refusal, or memory ran out.
#[derive(Drop)]
pub(crate) enum Fault {
    Refused(Refusal),
    Memory,
}

impl From<Refusal> for Fault {
    ghost from_gives = { λ refusal r. r ≡ Refused refusal };

    fn from(refusal: Refusal) -> Fault {
        Fault::Refused(refusal)
    }
}

impl From<AllocError> for Fault {
    ghost from_gives = { λ _ r. r ≡ Memory };

    fn from(_e: AllocError) -> Fault {
        Fault::Memory
    }
}

impl<T: Drop> From<AllocFailed<T>> for Fault {
    ghost from_gives = { λ _ r. r ≡ Memory };

    fn from(_e: AllocFailed<T>) -> Fault {
        Fault::from(AllocError)
    }
}
