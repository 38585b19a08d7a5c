// The files of the system.
ghost use Rattle.std.specs.Prelude.{◌≡◌, ◌↔◌, ◌≤◌, ◌+◌, length, take, None, Some, Err, IfOk, IfSome, OnErr};
ghost use Rattle.std.specs.Io.KnownBytes.{Consumes, IsAtEnd, Keeps};
ghost use Rattle.vt_outside.specs.Faults.{CountsFetch};
ghost use Rattle.vt_outside.specs.Shelf.{fetched_of, IsWithin};
ghost use Rattle.vt_outside.specs.Inside.Reading.{TakesAtMost};

use crate::{FetchFail, Fetched, Shelf};
use std::alloc::Global;
use std::fs::File;
use std::io::{ErrorKind, Read};
use std::marker::Model;
use std::rt::Files;
use vt_base::{List, Text};

// How many bytes are asked for at once.
const CHUNK: usize = 65536;

/// The files of the system, by their paths. What they hold is not told.
///
/// A file that isn't there is `Absent`. A folder, a file that may not be read and a path that leads
/// through a file are `Failed`, and so is whatever else the system refuses, but for memory.
#[derive(Drop)]
pub struct FileShelf<'a, R: Files> {
    runtime: &'a R,
    faults: u64,
    failed: Option<Text>,
}

impl<'a, R: Files> Model for FileShelf<'a, R> {
    ghost use Rattle.vt_outside.specs.Device.{DeviceShelf};

    ghost Value = { DeviceShelf };

    ghost view = { λ s. record { faults = s.faults; failed = s.failed } };
}

impl<'a, R: Files> FileShelf<'a, R> {
    /// The files that this runtime reaches.
    pub fn new(runtime: &'a R) -> FileShelf<'a, R>
        ensures { result ≡ record { faults = 0; failed = None } }
    {
        FileShelf {
            runtime,
            faults: 0,
            failed: None,
        }
    }

    // Answers a failure, and counts it where it is the device's.
    fn give_up(&mut self, fail: FetchFail, name: &Text) -> Result<Fetched, FetchFail>
        ensures fail { result ≡ Err fail }
        ensures cause { CountsFetch self.old.faults self.new.faults
            self.old.failed self.new.failed name.now result }
    {
        if fail == FetchFail::Failed {
            self.faults = self.faults.saturating_add(1);
            self.failed = Some(name.share());
        }
        Err(fail)
    }
}

impl<R: Files> Shelf for FileShelf<'_, R> {
    ghost files = { λ _. None };

    ghost faults = { λ s. s.faults };

    ghost failed = { λ s. s.failed };

    fn fetch(&mut self, alloc: Global, name: &Text, limit: u64) -> Result<Fetched, FetchFail> {
        let mut file = match File::open(self.runtime, name.as_str()) {
            Ok(file) => file,
            Err(e) if e.kind() == ErrorKind::NotFound => return Ok(Fetched::Absent),
            Err(e) => return self.give_up(fail_of(e.kind()), name),
        };
        match read_within(alloc, &mut file, limit) {
            Ok(fetched) => Ok(fetched),
            Err(fail) => self.give_up(fail, name),
        }
    }
}

// What an error of the system is answered with.
fn fail_of(kind: ErrorKind) -> FetchFail
    ensures { (result ≡ FetchFail.NoMemory) ↔ (kind ≡ ErrorKind.OutOfMemory) }
{
    match kind {
        ErrorKind::OutOfMemory => FetchFail::NoMemory,
        _ => FetchFail::Failed,
    }
}

// One read, tried again where a signal cuts it off.
fn read_some<F: Read>(file: &mut F, chunk: &mut [u8]) -> Result<usize, FetchFail>
    ensures fits { IfOk result (λ n. n ≤ length chunk.old) }
    ensures taken { IfOk result (λ n. Consumes (F.remaining file.old) (F.remaining file.new) (take n chunk.new)) }
    ensures end { IfOk result (λ n. n ≡ 0 → 1 ≤ length chunk.old → IsAtEnd (F.remaining file.new)) }
    ensures kept { OnErr result (Keeps (F.remaining file.old) (F.remaining file.new)) }
{
    for _ in 0..u64::MAX {
        match file.read(chunk) {
            Ok(n) => return Ok(n),
            Err(e) if e.kind() == ErrorKind::Interrupted => {}
            Err(e) => return Err(fail_of(e.kind())),
        }
    }
    Err(FetchFail::Failed)
}

/// All that is left to read, where it is no more than the limit. No more than one byte past the
/// limit is taken.
pub(crate) fn read_within<F: Read>(
    alloc: Global,
    file: &mut F,
    limit: u64,
) -> Result<Fetched, FetchFail>
    requires { limit ≤ 4294967295 }
    ensures told { IfOk result (λ fetched. IfSome (F.remaining file.old) (λ bytes.
        fetched ≡ fetched_of limit (Some bytes))) }
    ensures within { IfOk result (IsWithin limit) }
    ensures taken { TakesAtMost (limit + 1) (F.remaining file.old) (F.remaining file.new) }
{
    let most = limit as usize + 1;
    let mut bytes = List::new(alloc);
    let mut chunk = [0u8; CHUNK];
    while bytes.len() < most {
        let asked = CHUNK.min(most - bytes.len());
        let n = read_some(file, &mut chunk[..asked])?;
        if n == 0 {
            return Ok(Fetched::Bytes(bytes));
        }
        bytes.extend(&chunk[..n])?;
    }
    Ok(Fetched::Long(limit + 1))
}
