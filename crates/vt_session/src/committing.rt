// A transaction that is made, and what comes of it: the new tables, and the report of the step.
ghost use Rattle.std.specs.Prelude.{◌≡◌, ◌<◌, ◌≤◌, ℕ, IfOk, OnErr, OnOk, Err, Ok, length, map};
ghost use Rattle.vt_model.specs.Base.{counts_of};
ghost use Rattle.vt_model.specs.Model.{Model};
ghost use Rattle.vt_model.specs.Touched.{AreTouched, Rise};
ghost use Rattle.vt_model.specs.Transaction.{transaction};
ghost use Rattle.vt_model.specs.declared.change.Refusal.{Refusal};
ghost use Rattle.vt_query.specs.Narrow.{IsNarrow};
ghost use Rattle.vt_query.specs.Tables.{StandFor};
ghost use Rattle.vt_change.specs.declared.fault.ApplyFault.TheVariants as fault;
ghost use Rattle.vt_session.specs.Inside.Next.{AllHoldLive, IsNext, IsOfPattern};
ghost use Rattle.vt_history.specs.Report.{AreOfPatterns};

use std::alloc::Global;
use std::sync::ledger::Ledger;
use vt_base::{List, NoMemory, ObjId, PatternId, Rows, Steps};
use vt_change::{ApplyFault, try_apply};
use vt_direct::evaluate_directly;
use vt_history::{PatternEvents, StepReport};
use vt_model::Change;
use vt_query::{Program, narrow_rows_are_named};
use vt_store::Store;

// What a step leaves, and its report.
#[derive(Drop)]
pub(crate) struct Next {
    pub(crate) tables: List<Rows>,
    pub(crate) report: StepReport,
}

// What happened to the matches of a pattern.
fn pattern_events(
    alloc: Global,
    number: usize,
    before: &[Rows],
    after: &[Rows],
    touched: &[ObjId],
) -> Result<PatternEvents, NoMemory>
    requires rise { Rise touched.now }
    requires there { number < length after.now }
    requires same { length before.now ≡ length after.now }
    requires numbered { length after.now ≤ 65536 }
    ensures { IfOk result (λ e. IsOfPattern (record { 0 = number }) (map (λ rows. rows.items) before.now)
        (map (λ rows. rows.items) after.now) touched.now e) }
{
    PatternEvents::between(
        alloc,
        PatternId(number as u16),
        &before[number],
        &after[number],
        touched,
    )
}

// What happened to the matches of each pattern.
fn all_events(
    alloc: Global,
    before: &[Rows],
    after: &[Rows],
    touched: &[ObjId],
) -> Result<List<PatternEvents>, NoMemory>
    requires rise { Rise touched.now }
    requires same { length before.now ≡ length after.now }
    requires numbered { length after.now ≤ 65536 }
    ensures { IfOk result (λ events. (g h : Model) → AreTouched g h touched.now
        → AllHoldLive g (map (λ rows. rows.items) before.now) → AllHoldLive h (map (λ rows. rows.items) after.now)
        → AreOfPatterns g h (map (λ rows. rows.items) before.now) (map (λ rows. rows.items) after.now) events) }
{
    let mut events = List::new(alloc);
    for number in 0..after.len() {
        events.add(pattern_events(alloc, number, before, after, touched)?)?;
    }
    Ok(events)
}

fn copied(alloc: Global, objects: &[ObjId]) -> Result<List<ObjId>, NoMemory>
    ensures { IfOk result (λ copy. copy ≡ objects.now) }
{
    let mut copy = List::new(alloc);
    copy.extend(objects)?;
    Ok(copy)
}

// What comes of a step to the store's model, which touched these objects.
fn outcome<L: Ledger>(
    alloc: Global,
    store: &Store,
    program: &Program,
    before: &[Rows],
    touched: &[ObjId],
    number: u64,
    steps: &mut Steps<L>,
) -> Result<Next, NoMemory>
    requires narrow { IsNarrow (counts_of store.now.meta) program.now }
    requires numbered { length program.now.patterns ≤ 65536 }
    requires same { length before.now ≡ length program.now.patterns }
    requires rise { Rise touched.now }
    ensures { IfOk result (λ next. (g : Model) → AreTouched g store.now.model touched.now → AllHoldLive g (map (λ rows. rows.items) before.now)
        → IsNext store.now.meta program.now g store.now.model (map (λ rows. rows.items) before.now)
        (map (λ rows. rows.items) next.tables) number next.report) }
{
    // What rows of a valid model name lives.
    store.meta();
    narrow_rows_are_named();
    let tables = evaluate_directly(alloc, program, store, steps)?;
    let events = all_events(alloc, before, tables.as_slice(), touched)?;
    let touched = copied(alloc, touched)?;
    Ok(Next {
        tables,
        report: StepReport {
            step: number,
            events,
            touched,
            fired: None,
        },
    })
}

// Makes changes, and all that comes of them, or nothing.
pub(crate) fn make<L: Ledger>(
    alloc: Global,
    store: &mut Store,
    program: &Program,
    before: &[Rows],
    changes: &[Change],
    number: u64,
    steps: &mut Steps<L>,
) -> Result<Next, ApplyFault>
    requires narrow { IsNarrow (counts_of store.old.meta) program.now }
    requires numbered { length program.now.patterns ≤ 65536 }
    requires stand { StandFor store.old.meta store.old.model program.now (map (λ rows. rows.items) before.now) }
    requires few { length changes.now ≤ 65536 }
    ensures meta { store.new.meta ≡ store.old.meta }
    ensures made { OnOk result (transaction store.old.meta store.old.model changes.now ≡ Ok store.new.model) }
    ensures next { IfOk result (λ next. IsNext store.old.meta program.now store.old.model store.new.model
        (map (λ rows. rows.items) before.now) (map (λ rows. rows.items) next.tables) number next.report) }
    ensures refused { (at : ℕ) (why : Refusal) → result ≡ Err (fault.Refused at why)
        → transaction store.old.meta store.old.model changes.now ≡ Err (record { at = at; why = why }) }
    ensures unchanged { OnErr result (store.new.model ≡ store.old.model) }
{
    // What rows of a valid model name lives.
    store.meta();
    narrow_rows_are_named();
    let applied = try_apply(alloc, store, changes)?;
    match outcome(
        alloc,
        store,
        program,
        before,
        applied.touched(),
        number,
        steps,
    ) {
        Ok(next) => Ok(next),
        Err(NoMemory) => {
            applied.undo(store);
            Err(ApplyFault::NoMemory)
        }
    }
}
