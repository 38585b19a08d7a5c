// Why a reading stops.
use std::alloc::{AllocError, AllocFailed};
use thiserror::Error;
use vt_base::NoMemory;

/// Why a reading stops.
#[derive(Clone, Copy, Debug, PartialEq, Eq, Drop, Error)]
pub enum Stop {
    /// No value that the grammar spells has the next lexeme here, as the second comma in `(a,, b)`,
    /// or the lexemes end before it does, as `(a,`: so many are left, 0 at the end.
    #[error("the lexemes go wrong where {0} of them are left")]
    Fault(usize),
    /// Memory ran out, whatever the lexemes are.
    #[error("memory ran out")]
    NoMemory,
}

impl From<AllocError> for Stop {
    ghost use Rattle.std.specs.Prelude.{◌≡◌};
    ghost use Rattle.vt_grammar.specs.declared.stop.Stop.TheVariants.{NoMemory as WantOfMemory};

    ghost from_gives = { λ _ e. e ≡ WantOfMemory };

    fn from(_: AllocError) -> Stop {
        Stop::NoMemory
    }
}

impl<T: Drop> From<AllocFailed<T>> for Stop {
    ghost use Rattle.std.specs.Prelude.{◌≡◌};
    ghost use Rattle.vt_grammar.specs.declared.stop.Stop.TheVariants.{NoMemory as WantOfMemory};

    ghost from_gives = { λ _ e. e ≡ WantOfMemory };

    fn from(_: AllocFailed<T>) -> Stop {
        Stop::NoMemory
    }
}

impl From<NoMemory> for Stop {
    ghost use Rattle.std.specs.Prelude.{◌≡◌};
    ghost use Rattle.vt_grammar.specs.declared.stop.Stop.TheVariants.{NoMemory as WantOfMemory};

    ghost from_gives = { λ _ e. e ≡ WantOfMemory };

    fn from(_: NoMemory) -> Stop {
        Stop::NoMemory
    }
}
