// What the words come to over a shelf.
ghost use Rattle.std.specs.Prelude.{◌≡◌, None, Some, IfOk};
ghost use Rattle.vt_cli.specs.Command.{command_of, AsksNothing, IsWithoutRows};
ghost use Rattle.vt_cli.specs.Result.{usage, shown, IsDueToTexts};
ghost use Rattle.vt_cli.specs.declared.command.Task.TheVariants as tasks;
ghost use Rattle.vt_cli.specs.declared.ending.Outcome.{Outcome};
ghost use Rattle.vt_cli.specs.Inside.Prepared.{AreSmall, IsOfFiles, Prepares};
ghost use Rattle.vt_cli.specs.Inside.Begun.{IsReady, ComesTo, IsWhole};
ghost use Rattle.vt_cli.specs.Inside.Seen.{seen, loaded_of};

use crate::command::{Command, Task, parse};
use crate::documents::load;
use crate::ending::{Ending, Outcome, Role};
use crate::fetching::{fetch_files, text_of};
use crate::prepared::Prepared;
use crate::{beginning, lines, matches};
use std::alloc::Global;
use std::sync::ledger::Ledger;
use vt_base::{List, NoMemory, Steps, Text};
use vt_model_json::write_model;
use vt_outside::Shelf;
use vt_store::Store;

fn usage(alloc: Global) -> Result<Outcome, NoMemory>
    ensures { IfOk result (λ outcome. outcome ≡ usage) }
{
    Ok(Outcome {
        ending: Ending::Usage,
        text: lines::usage_line(alloc)?,
    })
}

// The dump of a model.
fn dump(alloc: Global, store: &Store) -> Result<Outcome, NoMemory>
    ensures { IfOk result (λ outcome. outcome ≡ shown (loaded_of store.now)) }
{
    let mut text = write_model(alloc, store)?;
    text.add(b'\n')?;
    Ok(Outcome {
        ending: Ending::Done,
        text,
    })
}

// What `show` makes of its texts.
fn show(alloc: Global, texts: &[(Role, List<u8>)]) -> Result<Outcome, NoMemory>
    requires { AreSmall texts.now }
    ensures due { IfOk result (λ outcome. IsDueToTexts tasks.Show texts.now outcome) }
    ensures suits { IfOk result (λ outcome. IsOfFiles outcome.ending) }
{
    match load(alloc, texts)? {
        Ok(store) => dump(alloc, &store),
        Err(outcome) => Ok(outcome),
    }
}

// What `matches` makes of its texts.
fn list<L: Ledger>(
    alloc: Global,
    texts: &[(Role, List<u8>)],
    steps: &mut Steps<L>,
) -> Result<Outcome, NoMemory>
    requires { AreSmall texts.now }
    ensures due { IfOk result (λ outcome. IsDueToTexts tasks.Matches texts.now outcome) }
    ensures suits { IfOk result (λ outcome. IsOfFiles outcome.ending) }
{
    match load(alloc, texts)? {
        Ok(store) => matches::matches(alloc, &store, text_of(texts, Role::Queries), steps),
        Err(outcome) => Ok(outcome),
    }
}

// What a command makes of its texts: each command has a line.
fn answer<L: Ledger>(
    alloc: Global,
    task: Task,
    texts: &[(Role, List<u8>)],
    steps: &mut Steps<L>,
) -> Result<Prepared, NoMemory>
    requires { AreSmall texts.now }
    ensures due { IfOk result (λ prepared. (outcome : Outcome) → ComesTo prepared outcome
        → IsDueToTexts task texts.now outcome) }
    ensures suits { IfOk result (λ prepared. (outcome : Outcome) → ComesTo prepared outcome → IsOfFiles outcome.ending) }
    ensures ready { IfOk result IsReady }
    ensures whole { IsWithoutRows task → IfOk result IsWhole }
    ensures ticks { IsWithoutRows task → steps.new ≡ steps.old }
{
    match task {
        Task::Show => Ok(Prepared::Told(show(alloc, texts)?)),
        Task::Matches => Ok(Prepared::Told(list(alloc, texts, steps)?)),
        Task::Run => beginning::run(alloc, texts, steps),
    }
}

// What a command comes to over a shelf. All files are fetched before any is judged.
fn fetch_and_answer<S: Shelf, L: Ledger>(
    alloc: Global,
    command: &Command<'_>,
    shelf: &mut S,
    steps: &mut Steps<L>,
) -> Result<Prepared, NoMemory>
    ensures prepared { IfOk result (λ prepared. (outcome : Outcome) → ComesTo prepared outcome
        → Prepares (Some (seen command.now)) (S.files shelf.old)
        (S.faults shelf.old) (S.faults shelf.new) (S.failed shelf.new) outcome) }
    ensures ready { IfOk result IsReady }
    ensures whole { AsksNothing (Some (seen command.now)) → IfOk result IsWhole }
    ensures ticks { AsksNothing (Some (seen command.now)) → steps.new ≡ steps.old }
{
    match fetch_files(alloc, shelf, command.roles, command.names)? {
        Ok(texts) => answer(alloc, command.task, texts.as_slice(), steps),
        Err(outcome) => Ok(Prepared::Told(outcome)),
    }
}

/// What the words come to over a shelf.
pub(crate) fn prepare<S: Shelf, L: Ledger>(
    alloc: Global,
    words: &[Text],
    shelf: &mut S,
    steps: &mut Steps<L>,
) -> Result<Prepared, NoMemory>
    ensures prepared { IfOk result (λ prepared. (outcome : Outcome) → ComesTo prepared outcome
        → Prepares (command_of words.now) (S.files shelf.old)
        (S.faults shelf.old) (S.faults shelf.new) (S.failed shelf.new) outcome) }
    ensures ready { IfOk result IsReady }
    ensures whole { AsksNothing (command_of words.now) → IfOk result IsWhole }
    ensures ticks { AsksNothing (command_of words.now) → steps.new ≡ steps.old }
{
    match parse(words) {
        Some(command) => fetch_and_answer(alloc, &command, shelf, steps),
        None => Ok(Prepared::Told(usage(alloc)?)),
    }
}
