// The command `run` before its first reply: its files are judged, and a session begins.
ghost use Rattle.std.specs.Prelude.{◌≡◌, ◌≤◌, IfOk, IfErr, length, Ok, Err};
ghost use Rattle.vt_model.specs.Base.{base_of, counts_of};
ghost use Rattle.vt_delta.specs.Deltas.{IsNet};
ghost use Rattle.vt_model.specs.Model.{empty_model};
ghost use Rattle.vt_query.specs.Narrow.{IsNarrow};
ghost use Rattle.vt_script.specs.Script.{script_of};
ghost use Rattle.vt_cli.specs.Texts.{file_limit};
ghost use Rattle.vt_cli.specs.Refusals.{refused_script};
ghost use Rattle.vt_cli.specs.Result.{IsTold, IsRunOf, IsDueToModel, IsDueToTexts};
ghost use Rattle.vt_cli.specs.declared.command.Task.TheVariants as tasks;
ghost use Rattle.vt_cli.specs.declared.ending.Outcome.{Outcome};
ghost use Rattle.vt_cli.specs.Inside.Prepared.{AreSmall, IsOfFiles};
ghost use Rattle.vt_cli.specs.Inside.Begun.{AreBuilt, IsReady, ComesTo};
ghost use Rattle.vt_cli.specs.Inside.Seen.{loaded_of};

use crate::documents::load_new;
use crate::ending::{Outcome, Role};
use crate::fetching::text_of;
use crate::prepared::{Prepared, Run};
use crate::refusals;
use crate::unbuilt::first_unbuilt;
use std::alloc::Global;
use std::sync::ledger::Ledger;
use vt_base::{List, NoMemory, Steps};
use vt_delta::BaseDelta;
use vt_query::Program;
use vt_script::{Line, accepted_is_formed, read_script};
use vt_session::{Session, StartFault};
use vt_store::Store;
use vt_vql::read_queries;

// The commands of a script, or the outcome of its first fault.
fn commands(alloc: Global, bytes: &[u8]) -> Result<Result<List<Line>, Outcome>, NoMemory>
    requires { length bytes.now ≤ file_limit }
    ensures due { IfOk result (λ judged. judged ≡ refused_script (script_of bytes.now)) }
    ensures suits { IfOk result (λ judged. IfErr judged (λ outcome. IsOfFiles outcome.ending)) }
    ensures built { IfOk result (λ judged. IfOk judged AreBuilt) }
    ensures few { IfOk result (λ judged. IfOk judged (λ lines. length lines ≤ 100000)) }
{
    accepted_is_formed();
    let lines = match read_script(alloc, bytes) {
        Ok(lines) => lines,
        Err(fault) => return Ok(Err(refusals::script(alloc, fault)?)),
    };
    match first_unbuilt(lines.as_slice()) {
        Some(number) => Ok(Err(refusals::unbuilt(alloc, number)?)),
        None => Ok(Ok(lines)),
    }
}

// A session over a program, and the commands of its script.
fn start<L: Ledger>(
    alloc: Global,
    store: Store,
    loaded: BaseDelta,
    program: Program,
    lines: List<Line>,
    steps: &mut Steps<L>,
) -> Result<Prepared, NoMemory>
    requires narrow { IsNarrow (counts_of store.meta) program }
    requires numbered { length program.patterns ≤ 65536 }
    requires loaded { IsNet (base_of store.meta empty_model) (base_of store.meta store.model) loaded }
    requires built { AreBuilt lines }
    requires few { length lines ≤ 100000 }
    ensures due { IfOk result (λ prepared. (outcome : Outcome) → ComesTo prepared outcome
        → IsTold (loaded_of store) program lines outcome) }
    ensures suits { IfOk result (λ prepared. (outcome : Outcome) → ComesTo prepared outcome → IsOfFiles outcome.ending) }
    ensures ready { IfOk result IsReady }
{
    match Session::start(alloc, store, loaded, program, steps) {
        Ok(session) => Ok(Prepared::Begun(Run { session, lines })),
        Err(StartFault::NoMemory) => Err(NoMemory),
    }
}

// What the rules and the script come to over a program. The rules are judged before the script.
fn over_program<L: Ledger>(
    alloc: Global,
    store: Store,
    loaded: BaseDelta,
    program: Program,
    texts: &[(Role, List<u8>)],
    steps: &mut Steps<L>,
) -> Result<Prepared, NoMemory>
    requires small { AreSmall texts.now }
    requires narrow { IsNarrow (counts_of store.meta) program }
    requires numbered { length program.patterns ≤ 65536 }
    requires loaded { IsNet (base_of store.meta empty_model) (base_of store.meta store.model) loaded }
    ensures due { IfOk result (λ prepared. (outcome : Outcome) → ComesTo prepared outcome
        → IsRunOf (loaded_of store) texts.now program outcome) }
    ensures suits { IfOk result (λ prepared. (outcome : Outcome) → ComesTo prepared outcome → IsOfFiles outcome.ending) }
    ensures ready { IfOk result IsReady }
{
    if let Err(outcome) = refusals::rules(alloc, text_of(texts, Role::Rules))? {
        return Ok(Prepared::Told(outcome));
    }
    match commands(alloc, text_of(texts, Role::Script))? {
        Ok(lines) => start(alloc, store, loaded, program, lines, steps),
        Err(outcome) => Ok(Prepared::Told(outcome)),
    }
}

// What the queries and the texts that are about them come to over a model.
#[tactic(auto, using(crate::proofs::FewLemmas::few_patterns))]
fn over_model<L: Ledger>(
    alloc: Global,
    store: Store,
    loaded: BaseDelta,
    texts: &[(Role, List<u8>)],
    steps: &mut Steps<L>,
) -> Result<Prepared, NoMemory>
    requires small { AreSmall texts.now }
    requires loaded { IsNet (base_of store.meta empty_model) (base_of store.meta store.model) loaded }
    ensures due { IfOk result (λ prepared. (outcome : Outcome) → ComesTo prepared outcome
        → IsDueToModel tasks.Run (loaded_of store) texts.now outcome) }
    ensures suits { IfOk result (λ prepared. (outcome : Outcome) → ComesTo prepared outcome → IsOfFiles outcome.ending) }
    ensures ready { IfOk result IsReady }
{
    match read_queries(alloc, store.meta(), text_of(texts, Role::Queries)) {
        Ok(program) => over_program(alloc, store, loaded, program, texts, steps),
        Err(fault) => Ok(Prepared::Told(refusals::queries(alloc, fault)?)),
    }
}

/// What the command `run` makes of its texts.
pub(crate) fn run<L: Ledger>(
    alloc: Global,
    texts: &[(Role, List<u8>)],
    steps: &mut Steps<L>,
) -> Result<Prepared, NoMemory>
    requires { AreSmall texts.now }
    ensures due { IfOk result (λ prepared. (outcome : Outcome) → ComesTo prepared outcome
        → IsDueToTexts tasks.Run texts.now outcome) }
    ensures suits { IfOk result (λ prepared. (outcome : Outcome) → ComesTo prepared outcome → IsOfFiles outcome.ending) }
    ensures ready { IfOk result IsReady }
{
    match load_new(alloc, texts)? {
        Ok((store, loaded)) => over_model(alloc, store, loaded, texts, steps),
        Err(outcome) => Ok(Prepared::Told(outcome)),
    }
}
