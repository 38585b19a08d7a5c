// Why a script is refused.
ghost use Rattle.std.specs.Prelude.{◌≡◌};
ghost use Rattle.vt_script.specs.declared.fault.ScriptFault.TheVariants as fault;
ghost use Rattle.vt_script.specs.declared.fault.Stuck.TheVariants as stuck;

use thiserror::Error;
use vt_base::NoMemory;

/// The first fault of a script, in the order of docs/SCRIPTS.md. Lines count from 1, and those that
/// are skipped count too.
#[derive(Clone, Copy, Debug, PartialEq, Eq, Error)]
pub enum ScriptFault {
    /// The bytes aren't UTF-8. The line is 1.
    #[error("line {line}: the bytes are no UTF-8")]
    NotText { line: u32 },
    /// The first line that is no command, as `begin` with no client behind it.
    #[error("line {line} is no command")]
    Syntax { line: u32 },
    /// All lines are commands, and this one comes after 100,000 others.
    #[error("line {line} has one command too many")]
    TooMany { line: u32 },
    /// Memory ran out. It may stand for any other answer.
    #[error("memory ran out before the script was read")]
    NoMemory,
}

impl From<NoMemory> for ScriptFault {
    ghost from_gives = { λ _ e. e ≡ fault.NoMemory };

    fn from(_: NoMemory) -> ScriptFault {
        ScriptFault::NoMemory
    }
}

/// Why a line is read as no command.
#[derive(Clone, Copy, Debug, PartialEq, Eq)]
pub(crate) enum Stuck {
    NoCommand,
    NoMemory,
}

impl From<NoMemory> for Stuck {
    ghost from_gives = { λ _ e. e ≡ stuck.NoMemory };

    fn from(_: NoMemory) -> Stuck {
        Stuck::NoMemory
    }
}

impl From<std::alloc::AllocError> for Stuck {
    ghost from_gives = { λ _ e. e ≡ stuck.NoMemory };

    fn from(_: std::alloc::AllocError) -> Stuck {
        Stuck::NoMemory
    }
}
