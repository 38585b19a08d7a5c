// A shelf and a sink in memory whose k-th call fails, for each k in a list.
ghost use Rattle.std.specs.Prelude.{◌≡◌, ◌↔◌, ◌≤◌, [], Some, None, IfOk, IfSome, OnOk, OnErr, IsErrOf, Contains};
ghost use Rattle.std.specs.Io.KnownBytes.{Appends};
ghost use Rattle.vt_outside.specs.Faults.{raised, CountsFetch, CountsPut};
ghost use Rattle.vt_outside.specs.Shelf.{file_at, fetched_of, IsWithin};

use crate::steady::look_up;
use crate::{FetchFail, Fetched, PutFail, Shelf, Sink};
use std::alloc::Global;
use std::marker::Model;
use vt_base::{List, Text};

/// Files in memory, behind a device that fails at given calls.
#[derive(Debug, Drop)]
pub struct MemShelf {
    files: List<(Text, List<u8>)>,
    failing: List<u64>,
    calls: u64,
    faults: u64,
    failed: Option<Text>,
}

impl Model for MemShelf {
    ghost use Rattle.vt_outside.specs.Memory.{FailingShelf};

    ghost Value = { FailingShelf };

    ghost view = { λ s. record { files = s.files; failing = s.failing; calls = s.calls; faults = s.faults; failed = s.failed } };
}

impl MemShelf {
    /// A shelf of these files, whose k-th call fails for each k in `failing`, counted from 1. Of two
    /// files with one name the first counts.
    pub fn new(files: List<(Text, List<u8>)>, failing: List<u64>) -> MemShelf
        ensures { result ≡ record { files = files; failing = failing; calls = 0; faults = 0; failed = None } }
    {
        MemShelf {
            files,
            failing,
            calls: 0,
            faults: 0,
            failed: None,
        }
    }
}

impl Shelf for MemShelf {
    ghost files = { λ s. Some s.files };

    ghost faults = { λ s. s.faults };

    ghost failed = { λ s. s.failed };

    fn fetch(&mut self, alloc: Global, name: &Text, limit: u64) -> Result<Fetched, FetchFail>
        requires { limit ≤ 4294967295 }

        // The answer of the trait.
        ensures told { IfOk result (λ fetched. IfSome (Some self.old.files) (λ known.
            fetched ≡ fetched_of limit (file_at known name.now))) }
        ensures within { IfOk result (IsWithin limit) }
        ensures files { Some self.new.files ≡ Some self.old.files }
        ensures cause { CountsFetch self.old.faults self.new.faults
            self.old.failed self.new.failed name.now result }

        // The calls are counted, and exactly those in the list fail.
        ensures calls { self.new.calls ≡ raised self.old.calls }
        ensures failing { self.new.failing ≡ self.old.failing }
        ensures due { IsErrOf result FetchFail.Failed ↔ Contains self.old.failing self.new.calls }
    {
        self.calls = self.calls.saturating_add(1);
        if self.failing.as_slice().contains(&self.calls) {
            self.faults = self.faults.saturating_add(1);
            self.failed = Some(name.share());
            return Err(FetchFail::Failed);
        }
        Ok(look_up(alloc, &self.files, name, limit)?)
    }
}

/// Text in memory, behind a device that fails at given calls.
#[derive(Debug, Drop)]
pub struct MemSink {
    bytes: List<u8>,
    failing: List<u64>,
    calls: u64,
    faults: u64,
}

impl Model for MemSink {
    ghost use Rattle.vt_outside.specs.Memory.{FailingSink};

    ghost Value = { FailingSink };

    ghost view = { λ s. record { bytes = s.bytes; failing = s.failing; calls = s.calls; faults = s.faults } };
}

impl MemSink {
    /// A sink to which nothing was written, whose k-th call fails for each k in `failing`, counted
    /// from 1. It takes no memory.
    pub fn new(alloc: Global, failing: List<u64>) -> MemSink
        ensures { result ≡ record { bytes = []; failing = failing; calls = 0; faults = 0 } }
    {
        MemSink {
            bytes: List::new(alloc),
            failing,
            calls: 0,
            faults: 0,
        }
    }

    /// What was written.
    pub fn bytes(&self) -> &[u8]
        ensures { result.now ≡ self.now.bytes }
    {
        self.bytes.as_slice()
    }
}

impl Sink for MemSink {
    ghost written = { λ s. Some s.bytes };

    ghost faults = { λ s. s.faults };

    fn put(&mut self, piece: &[u8]) -> Result<(), PutFail>
        // The answer of the trait, and a piece that isn't written whole isn't written at all.
        ensures whole { OnOk result (Appends (Some self.old.bytes) (Some self.new.bytes) piece.now) }
        ensures unchanged { OnErr result (self.new.bytes ≡ self.old.bytes) }
        ensures cause { CountsPut self.old.faults self.new.faults result }

        // The calls are counted, and exactly those in the list fail.
        ensures calls { self.new.calls ≡ raised self.old.calls }
        ensures failing { self.new.failing ≡ self.old.failing }
        ensures due { IsErrOf result PutFail.Failed ↔ Contains self.old.failing self.new.calls }
    {
        self.calls = self.calls.saturating_add(1);
        if self.failing.as_slice().contains(&self.calls) {
            self.faults = self.faults.saturating_add(1);
            return Err(PutFail::Failed);
        }
        Ok(self.bytes.extend(piece)?)
    }
}
