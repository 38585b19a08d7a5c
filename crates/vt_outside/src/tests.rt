// What no clause says: that a call succeeds, how devices are tried again, and what the system answers.
ghost use Rattle.std.specs.Prelude.{◌≤◌, length, IfOk};

use crate::files::read_within;
use crate::{
    FetchFail, Fetched, FileShelf, MemShelf, MemSink, PutFail, Shelf, Sink, StdSink, SteadyShelf,
    SteadySink,
};
use std::alloc::Global;
use std::cell::Cell;
use std::fmt::Display;
use std::io::{ErrorKind, Read};
use std::path::PathBuf;
use std::test::Fail;
use std::time::{SystemTime, UNIX_EPOCH};
use std::{env, fs, io};
use vt_base::{List, NoMemory, Text};

// What is wanted of a fetch.
#[derive(Clone, Copy, Debug)]
enum Want {
    Bytes(&'static [u8]),
    Absent,
    Long(u64),
    Failed,
    NoMemory,
}

fn has_bytes(got: &Result<Fetched, FetchFail>, wanted: &[u8]) -> bool {
    match got {
        Ok(Fetched::Bytes(bytes)) => bytes.as_slice() == wanted,
        _ => false,
    }
}

fn is_wanted(got: &Result<Fetched, FetchFail>, want: Want) -> bool {
    match (got, want) {
        (_, Want::Bytes(wanted)) => has_bytes(got, wanted),
        (Ok(Fetched::Absent), Want::Absent) => true,
        (Ok(Fetched::Long(count)), Want::Long(wanted)) => *count == wanted,
        (Err(FetchFail::Failed), Want::Failed) => true,
        (Err(FetchFail::NoMemory), Want::NoMemory) => true,
        _ => false,
    }
}

// More bytes than are read or written at once, none like those next to it.
const MANY: usize = 70_001;

fn many_bytes(alloc: Global) -> Result<List<u8>, NoMemory> {
    let mut bytes = List::new(alloc);
    let mut next = 0u8;
    for _ in 0..MANY {
        bytes.add(next)?;
        next = if next == 250 { 0 } else { next.wrapping_add(1) };
    }
    Ok(bytes)
}

// ---- in memory

// Two files `a`, and an empty file.
fn sample_files(alloc: Global) -> Result<List<(Text, List<u8>)>, NoMemory> {
    let mut files = List::new(alloc);
    for (name, text) in [("a", "first"), ("a", "second"), ("empty", "")] {
        let mut bytes = List::new(alloc);
        bytes.extend(text.as_bytes())?;
        files.add((Text::new(alloc, name)?, bytes))?;
    }
    Ok(files)
}

#[test]
fn the_first_file_of_a_name_is_fetched_up_to_the_limit(rt: HostRuntime) -> Result<(), Fail> {
    let alloc = rt.alloc();
    let mut steady = SteadyShelf::new(sample_files(alloc)?);
    let mut memory = MemShelf::new(sample_files(alloc)?, List::new(alloc));
    for (name, limit, want) in [
        ("a", 6, Want::Bytes(b"first")),
        ("a", 5, Want::Bytes(b"first")),
        ("a", 4, Want::Long(5)),
        ("a", 0, Want::Long(1)),
        ("empty", 0, Want::Bytes(b"")),
        ("b", 4_294_967_295, Want::Absent),
        ("", 9, Want::Absent),
    ] {
        let asked = Text::new(alloc, name)?;
        let from_steady = steady.fetch(alloc, &asked, limit);
        let from_memory = memory.fetch(alloc, &asked, limit);
        assert!(rt; is_wanted(&from_steady, want), "{name} {limit}");
        assert!(rt; is_wanted(&from_memory, want), "{name} {limit}");
    }
    Ok(())
}

#[test]
fn exactly_the_listed_calls_fail(rt: HostRuntime) -> Result<(), Fail> {
    let alloc = rt.alloc();
    let name = Text::new(alloc, "a")?;
    let mut steady = SteadySink::new(alloc);
    for (listed, written) in [
        ([0u64, 0], "123"),
        ([1, 1], "23"),
        ([2, 9], "13"),
        ([9, 3], "12"),
        ([3, 1], "2"),
    ] {
        let mut failing = List::new(alloc);
        failing.extend(&listed)?;
        let mut shelf = MemShelf::new(sample_files(alloc)?, failing);
        let mut failing = List::new(alloc);
        failing.extend(&listed)?;
        let mut sink = MemSink::new(alloc, failing);
        for (call, piece) in [(1u64, "1"), (2, "2"), (3, "3")] {
            let (fetched, put) = if listed.contains(&call) {
                (Want::Failed, Err(PutFail::Failed))
            } else {
                (Want::Bytes(b"first"), Ok(()))
            };
            let got = shelf.fetch(alloc, &name, 5);
            assert!(rt; is_wanted(&got, fetched), "{listed:?} {call}");
            assert_eq!(rt; sink.put(piece.as_bytes()), put, "{listed:?} {call}");
            assert_eq!(rt; steady.put(piece.as_bytes()), Ok(()));
        }
        assert_eq!(rt; sink.bytes(), written.as_bytes());
    }
    assert_eq!(rt; steady.bytes(), b"123123123123123".as_slice());
    Ok(())
}

// ---- devices that falter

const TEXT: &'static [u8] = b"abcdefgh";

// A device that gives a few bytes at a time, and fails at one of its calls.
#[derive(Drop)]
struct Source {
    step: usize,
    failing: u64,
    kind: ErrorKind,
    calls: u64,
    rest: &'static [u8],
}

impl Read for Source {
    fn read(&mut self, buf: &mut [u8]) -> io::Result<usize> {
        self.calls = self.calls.saturating_add(1);
        if self.calls == self.failing {
            return Err(io::Error::from(self.kind));
        }
        let n = self.step.min(buf.len());
        self.rest.read(&mut buf[..n])
    }
}

#[test]
fn a_reader_is_read_to_one_byte_past_the_limit(rt: HostRuntime) -> Result<(), Fail> {
    for (step, failing, kind, limit, want, left) in [
        (3, 0, ErrorKind::Other, 9, Want::Bytes(TEXT), 0),
        (3, 0, ErrorKind::Other, 8, Want::Bytes(TEXT), 0),
        (3, 0, ErrorKind::Other, 7, Want::Long(8), 0),
        (9, 0, ErrorKind::Other, 3, Want::Long(4), 4),
        (3, 1, ErrorKind::Other, 8, Want::Failed, 8),
        (3, 3, ErrorKind::Other, 8, Want::Failed, 2),
        (3, 3, ErrorKind::OutOfMemory, 8, Want::NoMemory, 2),
        (3, 3, ErrorKind::Interrupted, 8, Want::Bytes(TEXT), 0),
    ] {
        let mut source = Source {
            step,
            failing,
            kind,
            calls: 0,
            rest: TEXT,
        };
        let got = read_within(rt.alloc(), &mut source, limit);
        assert!(rt; is_wanted(&got, want), "{step} {failing} {limit}");
        assert_eq!(rt; source.rest.len(), left, "{step} {failing} {limit}");
    }
    Ok(())
}

// An output that takes a few bytes at a time, and fails at one of its calls. It compares what comes
// with a text.
#[derive(Drop)]
struct Screen<'a> {
    step: usize,
    failing: u64,
    kind: ErrorKind,
    calls: Cell<u64>,
    text: &'a [u8],
    taken: Cell<usize>,
    astray: Cell<bool>,
}

impl Print for Screen<'_> {
    fn print<D: Display + Drop>(&self, _value: D) -> io::Result<()> {
        Err(io::Error::from(ErrorKind::Other))
    }

    fn println<D: Display + Drop>(&self, _value: D) -> io::Result<()> {
        Err(io::Error::from(ErrorKind::Other))
    }

    fn write_all(&self, _bytes: &[u8]) -> io::Result<()> {
        Err(io::Error::from(ErrorKind::Other))
    }

    fn write_some(&self, bytes: &[u8]) -> io::Result<usize>
        ensures bound { IfOk result (λ n. n ≤ length bytes.now) }
    {
        let call = self.calls.get().saturating_add(1);
        self.calls.set(call);
        if call == self.failing {
            return Err(io::Error::from(self.kind));
        }
        let taken = self.taken.get();
        if self.text.get(taken..) != Some(bytes) {
            self.astray.set(true);
        }
        let n = self.step.min(bytes.len());
        self.taken.set(taken.saturating_add(n));
        Ok(n)
    }
}

#[test]
fn a_piece_is_written_by_as_many_writes_as_it_takes(rt: HostRuntime) -> Result<(), Fail> {
    let failed = Err(PutFail::Failed);
    let no_room = Err(PutFail::NoMemory);
    let text = many_bytes(rt.alloc())?;
    for (step, failing, kind, length, want, taken) in [
        (3, 0, ErrorKind::Other, 8, Ok(()), 8),
        (9, 0, ErrorKind::Other, 8, Ok(()), 8),
        (MANY, 0, ErrorKind::Other, MANY, Ok(()), MANY),
        (65_536, 0, ErrorKind::Other, MANY, Ok(()), MANY),
        (0, 0, ErrorKind::Other, 8, failed, 0),
        (0, 0, ErrorKind::Other, 0, Ok(()), 0),
        (9, 1, ErrorKind::BrokenPipe, 8, failed, 0),
        (9, 1, ErrorKind::Interrupted, 8, Ok(()), 8),
        (3, 3, ErrorKind::Interrupted, 8, Ok(()), 8),
        (3, 3, ErrorKind::OutOfMemory, 8, no_room, 6),
        (65_536, 2, ErrorKind::StorageFull, MANY, failed, 65_536),
    ] {
        let piece = text.as_slice().get(..length).unwrap_or(&[]);
        let screen = Screen {
            step,
            failing,
            kind,
            calls: Cell::new(0),
            text: piece,
            taken: Cell::new(0),
            astray: Cell::new(false),
        };
        let put = StdSink::new(&screen).put(piece);
        assert_eq!(rt; put, want, "{step} {failing} {length}");
        assert_eq!(rt; screen.taken.get(), taken, "{step} {failing} {length}");
        assert!(rt; !screen.astray.get(), "{step} {failing} {length}");
    }
    assert_eq!(rt; StdSink::new(&rt).put(b"load: step 0\n"), Ok(()));
    Ok(())
}

// ---- the system

// A folder of its own with two files.
fn sample_folder(rt: &HostRuntime, many: &[u8]) -> Result<PathBuf, Fail> {
    let alloc = rt.alloc();
    let age = SystemTime::now(rt)?.duration_since(UNIX_EPOCH)?.as_nanos();
    let name = format!(in alloc; "vt_outside_{age}")?;
    let folder = env::temp_dir(rt)?.join(alloc, name.as_str())?;
    fs::create_dir(rt, folder.as_path())?;
    for (name, bytes) in [("open", TEXT), ("many", many)] {
        let file = folder.join(alloc, name)?;
        fs::write(rt, file.as_path(), bytes)?;
    }
    Ok(folder)
}

#[test]
fn only_a_file_that_is_not_there_is_absent(rt: HostRuntime) -> Result<(), Fail> {
    let alloc = rt.alloc();
    let many = many_bytes(alloc)?;
    let folder = sample_folder(&rt, many.as_slice())?;
    let mut shelf = FileShelf::new(&rt);
    for (name, limit, want) in [
        ("open", 9, Want::Bytes(TEXT)),
        ("open", 8, Want::Bytes(TEXT)),
        ("open", 7, Want::Long(8)),
        ("many", 70_000, Want::Long(70_001)),
        ("missing", 8, Want::Absent),
        ("missing/open", 8, Want::Absent),
        ("", 8, Want::Failed),
        ("open/open", 8, Want::Failed),
    ] {
        let asked = Text::new(alloc, folder.join(alloc, name)?.as_str())?;
        let got = shelf.fetch(alloc, &asked, limit);
        assert!(rt; is_wanted(&got, want), "{name} {limit}");
    }
    let asked = Text::new(alloc, folder.join(alloc, "many")?.as_str())?;
    let got = shelf.fetch(alloc, &asked, 70_001);
    assert!(rt; has_bytes(&got, many.as_slice()), "many 70001");
    fs::remove_dir_all(&rt, folder.as_path())?;
    Ok(())
}
