// How what a command comes to is written.
ghost use Rattle.std.specs.Prelude.{◌≡◌, ℕ, List};
ghost use Rattle.vt_outside.specs.Faults.{CountsPut};
ghost use Rattle.vt_cli.specs.Running.{IsRun};
ghost use Rattle.vt_cli.specs.declared.ending.Outcome.{Outcome};
ghost use Rattle.vt_cli.specs.Inside.Prepared.{Delivers};
ghost use Rattle.vt_cli.specs.Inside.Begun.{ground_of, IsBegun, IsPut, ended, IsReady, ComesTo, IsWhole};

use crate::ending::{Ending, Outcome};
use crate::prepared::{Prepared, Run};
use crate::running::put_replies;
use std::alloc::Global;
use std::sync::ledger::Ledger;
use vt_base::Steps;
use vt_direct::narrow_tables_stand;
use vt_outside::{PutFail, Sink};

// The ending of a text that was to be put: its failure is told in place of the ending.
fn ended(due: Ending, put: Result<(), PutFail>) -> Ending
    ensures { result ≡ ended due put }
{
    match put {
        Ok(()) => due,
        Err(PutFail::Failed) => Ending::WriteFault,
        Err(PutFail::NoMemory) => Ending::NoMemory,
    }
}

// Puts the load and the reply to each command.
fn put_run<K: Sink, L: Ledger>(
    alloc: Global,
    run: Run,
    out: &mut K,
    steps: &mut Steps<L>,
) -> Result<(), PutFail>
    requires begun { IsBegun run.session run.lines }
    ensures put { (text : List ℕ) × IsRun (ground_of run.session) run.session.model run.lines text
        × IsPut result (K.written out.old) (K.written out.new) text }
    ensures cause { CountsPut (K.faults out.old) (K.faults out.new) result }
{
    let Run { session, lines } = run;
    let mut session = session;
    narrow_tables_stand();
    out.put(b"load: step 0\n")?;
    put_replies(alloc, &mut session, lines.as_slice(), out, steps)
}

/// Writes what a command comes to. A failure is told in place of its ending.
pub(crate) fn deliver<K: Sink, L: Ledger>(
    alloc: Global,
    prepared: Prepared,
    out: &mut K,
    steps: &mut Steps<L>,
) -> Ending
    requires ready { IsReady prepared }
    ensures delivered { (outcome : Outcome) × ComesTo prepared outcome × Delivers outcome result
        (K.faults out.old) (K.faults out.new) (K.written out.old) (K.written out.new) }
    ensures ticks { IsWhole prepared → steps.new ≡ steps.old }
{
    match prepared {
        Prepared::Told(outcome) => ended(outcome.ending, out.put(outcome.text.as_slice())),
        Prepared::Begun(run) => ended(Ending::Done, put_run(alloc, run, out, steps)),
    }
}
