//! The commands: words and files in, text and an ending out.
//!
//! It stands on all crates below. Read `specs/Command.antt`, `specs/Lines.antt`, `specs/Texts.antt`,
//! `specs/Unbuilt.antt`, `specs/Refusals.antt`, `specs/Lists.antt`, `specs/Replies.antt`,
//! `specs/Running.antt`, `specs/Result.antt` and `specs/Answer.antt`; then `viatra`, below.
#![tactic(auto)]

ghost use Rattle.std.specs.Prelude.{◌≡◌};
ghost use Rattle.vt_outside.specs.Faults.{Rose};
ghost use Rattle.vt_cli.specs.Command.{command_of, AsksNothing};
ghost use Rattle.vt_cli.specs.declared.ending.Role.{Role};
ghost use Rattle.vt_cli.specs.Answer.{IsRefusal, IsAnswered, TellsUsage, IsUnread, IsUnwritten, WritesFront, IsCompleted};

// What the words come to, and how a run ends.
mod command;
mod delivery;
mod documents;
mod ending;
mod fetching;
mod lines;
mod matches;
mod outcome;
mod prepared;
mod refusals;
// A session, and the replies to its script.
mod beginning;
mod events;
mod replies;
mod running;
mod unbuilt;
// What holds of every run.
mod laws;

// How a run ends.
pub use ending::{Ending, Role};
// What holds of every run.
use delivery::deliver;
pub use laws::one_outcome_is_due;
use outcome::prepare;
use std::alloc::Global;
use std::sync::ledger::Ledger;
use vt_base::{NoMemory, Steps, Text};
use vt_outside::{Shelf, Sink};

/// Runs one command: fetches its files from the shelf, writes its text to the sink, and answers
/// how it ended.
pub fn viatra<S: Shelf, K: Sink, L: Ledger>(
    alloc: Global,
    words: &[Text],
    shelf: &mut S,
    out: &mut K,
    steps: &mut Steps<L>,
) -> Ending
    // Where the shelf tells its files, they and the words decide. No fetch failed, and the whole text
    // that is due was written.
    ensures done { result ≡ Ending.Done → IsAnswered words.now (S.files shelf.old)
        (S.faults shelf.old) (S.faults shelf.new) result (K.written out.old) (K.written out.new) }

    // The same of no command, and of a file that is refused, missing or too large.
    ensures refused { IsRefusal result → IsAnswered words.now (S.files shelf.old)
        (S.faults shelf.old) (S.faults shelf.new) result (K.written out.old) (K.written out.new) }

    // No command is told as such, told files or not.
    ensures usage { TellsUsage words.now result }

    // A fetch failed: the shelf counted it and names the file, those before it are there, and the
    // line that tells it was written.
    ensures read_fault { (file : Role) → result ≡ Ending.ReadFault file
        → IsUnread words.now (S.files shelf.old) file (S.faults shelf.old) (S.faults shelf.new)
        (S.failed shelf.new) (K.written out.old) (K.written out.new) }

    // The sink counted a failure, and took a prefix of the text.
    ensures write_fault { result ≡ Ending.WriteFault → IsUnwritten words.now (S.files shelf.old)
        (S.faults shelf.old) (S.faults shelf.new) (S.failed shelf.new)
        (K.faults out.old) (K.faults out.new) (K.written out.old) (K.written out.new) }

    // Memory ran out, before the text was written or while it was.
    ensures no_memory { result ≡ Ending.NoMemory → WritesFront words.now (S.files shelf.old)
        (S.faults shelf.old) (S.faults shelf.new) (S.failed shelf.new)
        (K.written out.old) (K.written out.new) }

    // Where no device failed, the words and the files decide, unless memory ran out.
    ensures completes { ¬ Rose (S.faults shelf.old) (S.faults shelf.new)
        → ¬ Rose (K.faults out.old) (K.faults out.new) → IsCompleted result }

    // `show` asks the model for no rows: those that are asked for are counted.
    ensures ticks { AsksNothing (command_of words.now) → steps.new ≡ steps.old }
{
    match prepare(alloc, words, shelf, steps) {
        Ok(prepared) => deliver(alloc, prepared, out, steps),
        Err(NoMemory) => Ending::NoMemory,
    }
}
