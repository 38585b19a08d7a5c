// Why a call of a session is refused.
ghost use Rattle.std.specs.Prelude.{◌≡◌};
ghost use Rattle.vt_session.specs.declared.fault.SessionFault.TheVariants as fault;
ghost use Rattle.vt_session.specs.declared.fault.StartFault.TheVariants as start;

use thiserror::Error;
use vt_base::NoMemory;
use vt_model::Refusal;

/// Why a call of a session is refused.
#[derive(Clone, Copy, Debug, PartialEq, Eq, Error)]
pub enum SessionFault {
    /// The client has a transaction open.
    #[error("the client has a transaction open")]
    AlreadyOpen,
    /// 64 clients have a transaction open.
    #[error("64 clients have a transaction open, as many as may")]
    TooManyOpen,
    /// The client has no transaction open.
    #[error("the client has no transaction open")]
    NotOpen,
    /// The client's transaction has 65,536 changes.
    #[error("the transaction has 65536 changes, as many as it may")]
    TooManyChanges,
    /// A change of the transaction is refused, the first of those that are: its place, counted from 0,
    /// and the first reason that applies. The transaction has ended, and changed nothing.
    #[error("change {at} is refused: {why}")]
    Refused { at: u32, why: Refusal },
    /// Memory ran out. It may stand for any other answer, and the session is as it was.
    #[error("there is no memory for the call")]
    NoMemory,
}

/// Why no session starts.
#[derive(Clone, Copy, Debug, PartialEq, Eq, Error)]
pub enum StartFault {
    /// Memory ran out.
    #[error("there is no memory for the session")]
    NoMemory,
}

impl From<NoMemory> for SessionFault {
    ghost from_gives = { λ _ e. e ≡ fault.NoMemory };

    fn from(_: NoMemory) -> SessionFault {
        SessionFault::NoMemory
    }
}

impl From<NoMemory> for StartFault {
    ghost from_gives = { λ _ e. e ≡ start.NoMemory };

    fn from(_: NoMemory) -> StartFault {
        StartFault::NoMemory
    }
}
