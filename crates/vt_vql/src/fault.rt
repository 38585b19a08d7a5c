// Why a query file is refused.
ghost use Rattle.std.specs.Prelude.{◌≡◌};

use std::alloc::{AllocError, AllocFailed};
use thiserror::Error;
use vt_base::NoMemory;

/// The first fault of a query file, in the order of docs/FORMATS.md.
#[derive(Clone, Copy, Debug, PartialEq, Eq, Drop, Error)]
pub enum QueryFault {
    /// The bytes aren't UTF-8, as the one byte `\xff`. The place is 0.
    #[error("the bytes are no text in UTF-8")]
    NotText { place: u64 },
    /// The first text that is no token begins on this line, as `1a`, `$` or a string that isn't
    /// closed.
    #[error("line {line}: no token begins here")]
    BadToken { line: u32 },
    /// The tokens make no program that this version reads, as `import "a"`, a class that the
    /// metamodel lacks, or `pattern p(x) { }`, where x stands in no constraint. The place is 0.
    #[error("the file has a form that isn't read, or breaks a rule of the forms that are")]
    NotBuilt { place: u64 },
    /// Memory ran out, whatever the file is.
    #[error("memory ran out")]
    NoMemory,
}

impl From<AllocError> for QueryFault {
    ghost use Rattle.vt_vql.specs.declared.fault.QueryFault.TheVariants as fault;

    ghost from_gives = { λ _ e. e ≡ fault.NoMemory };

    fn from(_: AllocError) -> QueryFault {
        QueryFault::NoMemory
    }
}

impl<T: Drop> From<AllocFailed<T>> for QueryFault {
    ghost use Rattle.vt_vql.specs.declared.fault.QueryFault.TheVariants as fault;

    ghost from_gives = { λ _ e. e ≡ fault.NoMemory };

    fn from(_: AllocFailed<T>) -> QueryFault {
        QueryFault::NoMemory
    }
}

impl From<NoMemory> for QueryFault {
    ghost use Rattle.vt_vql.specs.declared.fault.QueryFault.TheVariants as fault;

    ghost from_gives = { λ _ e. e ≡ fault.NoMemory };

    fn from(_: NoMemory) -> QueryFault {
        QueryFault::NoMemory
    }
}

/// Why patterns make no program.
#[derive(Clone, Copy, Debug, PartialEq, Eq)]
pub(crate) enum Stuck {
    /// They are of another form than narrow ones, or break a rule of these.
    NotNarrow,
    /// Memory ran out, whatever they are.
    NoMemory,
}

impl From<NoMemory> for Stuck {
    ghost use Rattle.vt_vql.specs.declared.fault.Stuck.TheVariants as stuck;

    ghost from_gives = { λ _ e. e ≡ stuck.NoMemory };

    fn from(_: NoMemory) -> Stuck {
        Stuck::NoMemory
    }
}
