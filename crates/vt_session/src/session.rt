// A session.
ghost use Rattle.std.specs.Prelude.{◌≡◌, ◌⊎◌, ◌<◌, ◌≤◌, ℕ, ◌&&◌, IfErr, IfOk, OnErr, OnOk, Err, length, option_map, position};
ghost use Rattle.std.specs.Option.{option_copied};
ghost use Rattle.vt_facts.specs.Names.{is_name};
ghost use Rattle.vt_delta.specs.Deltas.{IsNet};
ghost use Rattle.vt_model.specs.Base.{base_of, counts_of};
ghost use Rattle.vt_model.specs.Model.{empty_model};
ghost use Rattle.vt_model.specs.declared.change.Refusal.{Refusal};
ghost use Rattle.vt_query.specs.Narrow.{IsNarrow};
ghost use Rattle.vt_session.specs.Buffers.{aborted, begun, changed, not_open};
ghost use Rattle.vt_session.specs.Run.{IsStart, State, committed, without};
ghost use Rattle.vt_session.specs.Session.{Commits, HasBuffers, IsDenied, IsOfOne, StandsFor, table_named};
ghost use Rattle.vt_session.specs.declared.fault.SessionFault.TheVariants as fault;

use crate::buffers::{Buffer, add_change, begin, end, place_of, refused};
use crate::committing::make;
use crate::{SessionFault, StartFault};
use std::alloc::Global;
use std::marker::Model;
use std::sync::ledger::Ledger;
use vt_base::{List, Rows, Steps, Text};
use vt_change::ApplyFault;
use vt_delta::BaseDelta;
use vt_direct::evaluate_directly;
use vt_history::StepReport;
use vt_model::Change;
use vt_query::{Pattern, Program};
use vt_store::Store;

/// A model, the match lists of a program over it, and the transactions that clients have open.
#[derive(Drop)]
pub struct Session {
    store: Store,
    program: Program,
    tables: List<Rows>,
    // The number of the last step.
    step: u64,
    buffers: Vec<Buffer>,
}

impl Model for Session {
    ghost use Rattle.std.specs.Prelude.{map};
    ghost use Rattle.std.specs.Coded.{codes};
    ghost use Rattle.vt_text.specs.contracts.expr.Expr as expr;
    ghost use Rattle.vt_session.specs.Session.{Kept};
    ghost use Rattle.vt_session.specs.Inside.Order.{IsInOrder};

    ghost Value = { Kept };

    ghost coded = { Prim.hlevel (codes, expr.the_row.coded) };

    ghost view = { λ s. record {
      meta = s.store.meta;
      program = s.program;
      model = s.store.model;
      tables = map (λ rows. rows.items) s.tables;
      step = s.step;
      buffers = s.buffers.items;
    } };

    ghost invariant = { λ s. IsInOrder s.store s.program (map (λ rows. rows.items) s.tables) s.buffers.items };
}

// ---- the start

impl Session {
    /// A session over a loaded model. The load is step 0. `loaded` is what came in with it: the
    /// difference of its rows from those of the empty model.
    pub fn start<L: Ledger>(
        alloc: Global,
        store: Store,
        loaded: BaseDelta,
        program: Program,
        steps: &mut Steps<L>,
    ) -> Result<Session, StartFault>
        requires narrow { IsNarrow (counts_of store.meta) program }
        requires numbered { length program.patterns ≤ 65536 }
        requires loaded { IsNet (base_of store.meta empty_model) (base_of store.meta store.model) loaded }
        ensures of { IfOk result (λ s. (s.meta ≡ store.meta) × (s.program ≡ program)) }
        ensures starts { IfOk result (λ s. (state : State)
            × IsStart store.meta program store.model state × StandsFor s state) }
    {
        let tables = evaluate_directly(alloc, &program, &store, steps)?;
        Ok(Session {
            store,
            program,
            tables,
            step: 0,
            buffers: Vec::new(alloc),
        })
    }
}

// ---- transactions

impl Session {
    /// Opens a client's transaction.
    pub fn begin(&mut self, alloc: Global, client: &Text) -> Result<(), SessionFault>
        ensures of { IsOfOne self.old self.new }
        ensures done { (state : State) → StandsFor self.old state
            → OnOk result (HasBuffers (begun client.now state.buffers) state self.new) }
        ensures refused { (state : State) → StandsFor self.old state
            → IfErr result (λ why. IsDenied why (begun client.now state.buffers)) }
        ensures unchanged { OnErr result (self.new ≡ self.old) }
    {
        begin(&mut self.buffers, alloc, client)
    }

    /// Adds a change to a client's transaction.
    pub fn change(&mut self, client: &Text, change: Change) -> Result<(), SessionFault>
        ensures of { IsOfOne self.old self.new }
        ensures done { (state : State) → StandsFor self.old state
            → OnOk result (HasBuffers (changed client.now change state.buffers) state self.new) }
        ensures refused { (state : State) → StandsFor self.old state
            → IfErr result (λ why. IsDenied why (changed client.now change state.buffers)) }
        ensures unchanged { OnErr result (self.new ≡ self.old) }
    {
        add_change(&mut self.buffers, client, change)
    }

    /// Makes a client's transaction: one step of the session. It is made whole, or is refused and
    /// changes nothing; either way it ends.
    pub fn commit<L: Ledger>(
        &mut self,
        alloc: Global,
        client: &Text,
        steps: &mut Steps<L>,
    ) -> Result<StepReport, SessionFault>
        requires countable { self.old.step < 9223372036854775807 }
        ensures of { IsOfOne self.old self.new }
        ensures done { (state : State) → StandsFor self.old state
            → IfOk result (λ report. Commits client.now state report self.old self.new) }
        ensures refused { (state : State) → StandsFor self.old state
            → IfErr result (λ why. IsDenied why (committed self.old.meta client.now state)) }

        // A refused transaction ends, and changes nothing.
        ensures ended { (state : State) → StandsFor self.old state → (at : ℕ) (why : Refusal)
            → result ≡ Err (fault.Refused at why) → StandsFor self.new (without client.now state) }
        ensures unchanged { (result ≡ Err fault.NotOpen) ⊎ (result ≡ Err fault.NoMemory) → self.new ≡ self.old }
    {
        let Some(at) = place_of(&self.buffers, client) else {
            return Err(SessionFault::NotOpen);
        };
        let made = make(
            alloc,
            &mut self.store,
            &self.program,
            self.tables.as_slice(),
            self.buffers[at].changes.changes(),
            self.step + 1,
            steps,
        );
        match made {
            Ok(next) => {
                // Nothing below may fail.
                end(&mut self.buffers, client);
                self.tables = next.tables;
                self.step += 1;
                Ok(next.report)
            }
            Err(fault) => match fault {
                ApplyFault::Refused { at, why } => {
                    Err(refused(&mut self.buffers, client, at, why))
                }
                ApplyFault::NoMemory => Err(SessionFault::NoMemory),
            },
        }
    }

    /// Drops a client's transaction. It takes no memory.
    pub fn abort(&mut self, client: &Text) -> Result<(), SessionFault>
        ensures of { IsOfOne self.old self.new }
        ensures done { (state : State) → StandsFor self.old state
            → OnOk result (HasBuffers (aborted client.now state.buffers) state self.new) }
        ensures refused { (state : State) → StandsFor self.old state
            → IfErr result (λ why. (why ≡ fault.NotOpen) × (aborted client.now state.buffers ≡ Err not_open)) }
        ensures unchanged { OnErr result (self.new ≡ self.old) }
    {
        if !end(&mut self.buffers, client) {
            return Err(SessionFault::NotOpen);
        }
        Ok(())
    }
}

// ---- what is read

// The place of the pattern of this name that isn't private.
fn shown_place(patterns: &[Pattern], pattern: &Text) -> Option<usize>
    ensures { result ≡ position (λ p. p.shown && is_name p.name pattern.now) patterns.now }
{
    patterns.iter().position(|p| p.shown && p.name == *pattern)
}

impl Session {
    /// The matches of the pattern of this name. None of a name that no pattern has, or a private one.
    pub fn matches(&self, pattern: &Text) -> Option<&Rows>
        ensures { option_map (λ rows. rows.items) (option_copied result) ≡ table_named self.now pattern.now }
    {
        match shown_place(self.program.patterns.as_slice(), pattern) {
            Some(at) => self.tables.get(at),
            None => None,
        }
    }

    /// The patterns.
    pub fn program(&self) -> &Program
        ensures { result.now ≡ self.now.program }
    {
        &self.program
    }

    /// The model.
    pub fn store(&self) -> &Store
        ensures meta { result.now.meta ≡ self.now.meta }
        ensures model { result.now.model ≡ self.now.model }
    {
        &self.store
    }

    /// The number of the last step.
    pub fn step(&self) -> u64
        ensures { result ≡ self.now.step }
    {
        self.step
    }
}
