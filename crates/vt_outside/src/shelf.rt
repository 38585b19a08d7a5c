// Where files come from.
ghost use Rattle.std.specs.Prelude.{◌≡◌, ◌≤◌, ℕ, List, Option, IfOk, IfSome};
ghost use Rattle.vt_outside.specs.Faults.{CountsFetch};
ghost use Rattle.vt_outside.specs.Shelf.{NamedFiles, file_at, fetched_of, IsWithin};
ghost use Rattle.vt_outside.specs.declared.shelf.FetchFail.TheVariants.{NoMemory as NoRoom};

use std::alloc::{AllocError, Global};
use thiserror::Error;
use vt_base::{List, NoMemory, Text};

/// What a shelf has under a name, up to a limit.
#[derive(Debug, Drop)]
pub enum Fetched {
    /// All bytes of the file.
    Bytes(List<u8>),
    /// There is no file of this name.
    Absent,
    /// The file has more bytes than the limit: at least so many.
    Long(u64),
}

/// Why a fetch has no answer.
#[derive(Clone, Copy, Debug, PartialEq, Eq, Error)]
pub enum FetchFail {
    /// The device failed, as at a folder in place of a file. The shelf counted it, and knows the name
    /// that was asked for.
    #[error("the file can't be read, as where its path leads to a folder")]
    Failed,
    /// Memory ran out.
    #[error("there is no memory for the bytes of the file")]
    NoMemory,
}

impl From<AllocError> for FetchFail {
    ghost from_gives = { λ _ e. e ≡ NoRoom };

    fn from(_: AllocError) -> FetchFail {
        FetchFail::NoMemory
    }
}

impl From<NoMemory> for FetchFail {
    ghost from_gives = { λ _ e. e ≡ NoRoom };

    fn from(_: NoMemory) -> FetchFail {
        FetchFail::NoMemory
    }
}

/// Files under names. No call changes them.
pub trait Shelf {
    /// The files, where the shelf tells them.
    ghost files: { Self → Option NamedFiles };

    /// How often a fetch failed. It never falls.
    ghost faults: { Self → ℕ };

    /// The name that the last failed fetch asked for, and none before any.
    ghost failed: { Self → Option (List ℕ) };

    /// The bytes of the first file with this name, where there are no more than the limit.
    fn fetch(&mut self, alloc: Global, name: &Text, limit: u64) -> Result<Fetched, FetchFail>
        requires { limit ≤ 4294967295 }

        // Where the files are told, this is the answer, unless the device or the memory failed.
        ensures told { IfOk result (λ fetched. IfSome (files self.old) (λ known.
            fetched ≡ fetched_of limit (file_at known name.now))) }

        // Told or not, the answer keeps to the limit.
        ensures within { IfOk result (IsWithin limit) }

        ensures files { files self.new ≡ files self.old }

        // It fails only where this is counted, and the name is kept.
        ensures cause { CountsFetch (faults self.old) (faults self.new)
            (failed self.old) (failed self.new) name.now result };
}
