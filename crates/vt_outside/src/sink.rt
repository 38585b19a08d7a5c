// Where the text goes.
ghost use Rattle.std.specs.Prelude.{◌≡◌, ℕ, List, Option, OnOk, OnErr};
ghost use Rattle.std.specs.Io.KnownBytes.{Appends};
ghost use Rattle.vt_outside.specs.Faults.{CountsPut};
ghost use Rattle.vt_outside.specs.Sink.{AppendsPrefix};
ghost use Rattle.vt_outside.specs.declared.sink.PutFail.TheVariants.{NoMemory as NoRoom};

use std::alloc::AllocError;
use thiserror::Error;
use vt_base::NoMemory;

/// Why a piece was not written whole.
#[derive(Clone, Copy, Debug, PartialEq, Eq, Error)]
pub enum PutFail {
    /// The device failed, or took nothing of a piece that wasn't empty, as a full disk does. The sink
    /// counted it.
    #[error("the output takes no more, as a disk that is full")]
    Failed,
    /// Memory ran out.
    #[error("there is no memory for what is to be written")]
    NoMemory,
}

impl From<AllocError> for PutFail {
    ghost from_gives = { λ _ e. e ≡ NoRoom };

    fn from(_: AllocError) -> PutFail {
        PutFail::NoMemory
    }
}

impl From<NoMemory> for PutFail {
    ghost from_gives = { λ _ e. e ≡ NoRoom };

    fn from(_: NoMemory) -> PutFail {
        PutFail::NoMemory
    }
}

/// What takes a text, piece after piece.
pub trait Sink {
    /// What was written, where the sink tells it.
    ghost written: { Self → Option (List ℕ) };

    /// How often a put failed. It never falls.
    ghost faults: { Self → ℕ };

    /// Writes a piece after what was written.
    fn put(&mut self, piece: &[u8]) -> Result<(), PutFail>
        ensures whole { OnOk result (Appends (written self.old) (written self.new) piece.now) }

        // After a failure a prefix of the piece stands there.
        ensures prefix { OnErr result (AppendsPrefix (written self.old) (written self.new) piece.now) }

        // It fails only where this is counted.
        ensures cause { CountsPut (faults self.old) (faults self.new) result };
}
