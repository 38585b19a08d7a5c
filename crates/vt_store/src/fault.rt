// Why a change wasn't made.
ghost use Rattle.std.specs.Prelude.{◌≡◌};
ghost use Rattle.vt_store.specs.declared.fault.StoreFault.TheVariants as fault;

use std::alloc::AllocError;
use thiserror::Error;
use vt_base::NoMemory;
use vt_model::Refusal;

/// Why a change wasn't made. The store is as it was before.
#[derive(Clone, Copy, Debug, PartialEq, Eq, Error)]
pub enum StoreFault {
    /// The change is refused, for the first reason that applies.
    #[error("the change is refused, as one that names an object that never was")]
    Refused(Refusal),
    /// Memory ran out. It may stand for any other answer.
    #[error("there is no memory for the change")]
    NoMemory,
}

impl From<AllocError> for StoreFault {
    ghost from_gives = { λ _ e. e ≡ fault.NoMemory };

    fn from(_: AllocError) -> StoreFault {
        StoreFault::NoMemory
    }
}

impl From<NoMemory> for StoreFault {
    ghost from_gives = { λ _ e. e ≡ fault.NoMemory };

    fn from(_: NoMemory) -> StoreFault {
        StoreFault::NoMemory
    }
}

impl From<Refusal> for StoreFault {
    ghost from_gives = { λ why e. e ≡ fault.Refused why };

    fn from(why: Refusal) -> StoreFault {
        StoreFault::Refused(why)
    }
}
