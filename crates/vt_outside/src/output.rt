// The standard output of the system.
ghost use Rattle.std.specs.Prelude.{◌≡◌, ◌↔◌, ◌≤◌, length, take, None, IfOk, OnOk, OnErr};
ghost use Rattle.std.specs.Io.KnownBytes.{Appends, Keeps};
ghost use Rattle.vt_outside.specs.Sink.{AppendsPrefix};

use crate::{PutFail, Sink};
use std::io;
use std::io::{ErrorKind, Write};
use std::marker::Model;

/// The standard output of the system. What was written is not told. Contracts see how often a put
/// failed.
#[derive(Drop)]
pub struct StdSink<'a, P: Print> {
    runtime: &'a P,
    faults: u64,
}

impl<'a, P: Print> Model for StdSink<'a, P> {
    ghost use Rattle.std.specs.Prelude.{ℕ};

    ghost Value = { ℕ };

    ghost view = { λ s. s.faults };
}

impl<'a, P: Print> StdSink<'a, P> {
    /// The output to which this runtime prints.
    pub fn new(runtime: &'a P) -> StdSink<'a, P>
        ensures { result ≡ 0 }
    {
        StdSink { runtime, faults: 0 }
    }
}

impl<P: Print> Sink for StdSink<'_, P> {
    ghost written = { λ _. None };

    ghost faults = { λ s. s };

    fn put(&mut self, piece: &[u8]) -> Result<(), PutFail> {
        let written = write_whole(&mut io::writer(self.runtime), piece);
        if written == Err(PutFail::Failed) {
            self.faults = self.faults.saturating_add(1);
        }
        written
    }
}

// What an error of the system is answered with.
fn fail_of(kind: ErrorKind) -> PutFail
    ensures { (result ≡ PutFail.NoMemory) ↔ (kind ≡ ErrorKind.OutOfMemory) }
{
    match kind {
        ErrorKind::OutOfMemory => PutFail::NoMemory,
        _ => PutFail::Failed,
    }
}

// One write, tried again where a signal cuts it off. A device that takes nothing failed.
fn write_some<W: Write>(out: &mut W, piece: &[u8]) -> Result<usize, PutFail>
    requires { 1 ≤ length piece.now }
    ensures some { IfOk result (λ n. 1 ≤ n) }
    ensures fits { IfOk result (λ n. n ≤ length piece.now) }
    ensures written { IfOk result (λ n.
        Appends (W.contents out.old) (W.contents out.new) (take n piece.now)) }
    ensures kept { OnErr result (Keeps (W.contents out.old) (W.contents out.new)) }
{
    for _ in 0..u64::MAX {
        match out.write(piece) {
            Ok(0) => return Err(PutFail::Failed),
            Ok(n) => return Ok(n),
            Err(e) if e.kind() == ErrorKind::Interrupted => {}
            Err(e) => return Err(fail_of(e.kind())),
        }
    }
    Err(PutFail::Failed)
}

#[tactic(auto, using(crate::proofs::Pieces::written_on))]
/// Writes all of a piece, by as many writes as it takes.
pub(crate) fn write_whole<W: Write>(out: &mut W, piece: &[u8]) -> Result<(), PutFail>
    ensures whole { OnOk result (Appends (W.contents out.old) (W.contents out.new) piece.now) }
    ensures prefix { OnErr result (AppendsPrefix (W.contents out.old) (W.contents out.new) piece.now) }
{
    let mut done = 0;
    while done < piece.len() {
        done += write_some(out, &piece[done..])?;
    }
    Ok(())
}
