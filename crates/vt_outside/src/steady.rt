// A shelf and a sink in memory that never fail.
ghost use Rattle.std.specs.Prelude.{◌≡◌, ◌≤◌, [], Some, None, IfOk};
ghost use Rattle.std.specs.Option.{option_copied};
ghost use Rattle.vt_outside.specs.Shelf.{file_at, fetched_of};

use crate::{FetchFail, Fetched, PutFail, Shelf, Sink};
use std::alloc::Global;
use std::marker::Model;
use vt_base::{List, NoMemory, Plain, Text};

/// Files in memory, which are always there. Contracts see the files.
#[derive(Debug, Drop)]
pub struct SteadyShelf {
    files: List<(Text, List<u8>)>,
}

impl Model for SteadyShelf {
    ghost use Rattle.vt_outside.specs.Shelf.{NamedFiles};

    ghost Value = { NamedFiles };

    ghost view = { λ s. s.files };
}

impl SteadyShelf {
    /// A shelf of these files. Of two with one name the first counts.
    pub fn new(files: List<(Text, List<u8>)>) -> SteadyShelf
        ensures { result ≡ files }
    {
        SteadyShelf { files }
    }
}

impl Shelf for SteadyShelf {
    ghost files = { λ s. Some s };

    ghost faults = { λ _. 0 };

    ghost failed = { λ _. None };

    fn fetch(&mut self, alloc: Global, name: &Text, limit: u64) -> Result<Fetched, FetchFail> {
        Ok(look_up(alloc, &self.files, name, limit)?)
    }
}

// The bytes of the first file with this name.
fn find_file<'a>(files: &'a List<(Text, List<u8>)>, name: &Text) -> Option<&'a List<u8>>
    ensures { option_copied result ≡ file_at files.now name.now }
{
    let found = files
        .as_slice()
        .iter()
        .find(|file| file.0.is(name.as_str()));
    found.map(|file| &file.1)
}

/// What a limit lets through of the first file with this name.
pub(crate) fn look_up(
    alloc: Global,
    files: &List<(Text, List<u8>)>,
    name: &Text,
    limit: u64,
) -> Result<Fetched, NoMemory>
    requires { limit ≤ 4294967295 }
    ensures { IfOk result (λ fetched. fetched ≡ fetched_of limit (file_at files.now name.now)) }
{
    match find_file(files, name) {
        None => Ok(Fetched::Absent),
        Some(bytes) if bytes.len() as u64 > limit => Ok(Fetched::Long(limit + 1)),
        Some(bytes) => Ok(Fetched::Bytes(bytes.copy(alloc)?)),
    }
}

/// Text in memory, which grows as long as there is memory. Contracts see its bytes.
#[derive(Debug, Drop)]
pub struct SteadySink {
    bytes: List<u8>,
}

impl Model for SteadySink {
    ghost use Rattle.std.specs.Prelude.{List, ℕ};

    ghost Value = { List ℕ };

    ghost view = { λ s. s.bytes };
}

impl SteadySink {
    /// A sink to which nothing was written. It takes no memory.
    pub fn new(alloc: Global) -> SteadySink
        ensures { result ≡ [] }
    {
        SteadySink {
            bytes: List::new(alloc),
        }
    }

    /// What was written.
    pub fn bytes(&self) -> &[u8]
        ensures { result.now ≡ self.now }
    {
        self.bytes.as_slice()
    }
}

impl Sink for SteadySink {
    ghost written = { λ s. Some s };

    ghost faults = { λ _. 0 };

    fn put(&mut self, piece: &[u8]) -> Result<(), PutFail> {
        Ok(self.bytes.extend(piece)?)
    }
}
