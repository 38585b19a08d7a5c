// Why a transaction isn't made.
ghost use Rattle.std.specs.Prelude.{◌≡◌};
ghost use Rattle.vt_change.specs.declared.fault.ApplyFault.TheVariants as fault;

use thiserror::Error;
use vt_base::NoMemory;
use vt_model::Refusal;

/// Why a transaction isn't made. The store is as it was before.
#[derive(Clone, Copy, Debug, PartialEq, Eq, Error)]
pub enum ApplyFault {
    /// A change is refused, the first of those that are: its place, counted from 0, and the first
    /// reason that applies.
    #[error("change {at} is refused: {why}")]
    Refused { at: u32, why: Refusal },
    /// Memory ran out. It may stand for any other answer.
    #[error("there is no memory for the transaction")]
    NoMemory,
}

impl From<NoMemory> for ApplyFault {
    ghost from_gives = { λ _ e. e ≡ fault.NoMemory };

    fn from(_: NoMemory) -> ApplyFault {
        ApplyFault::NoMemory
    }
}
