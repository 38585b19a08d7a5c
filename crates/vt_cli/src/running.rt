// The run of a script: its commands one after the other, each with its reply.
ghost use Rattle.std.specs.Prelude.{◌≡◌, ◌≤◌, ◌<◌, ◌+◌, length, false, Some, None};
ghost use Rattle.vt_model.specs.declared.change.Change.{Change};
ghost use Rattle.vt_outside.specs.Faults.{CountsPut};
ghost use Rattle.vt_session.specs.Run.{State};
ghost use Rattle.vt_session.specs.Session.{IsOfOne};
ghost use Rattle.vt_script.specs.declared.line.Line.TheVariants as commands;
ghost use Rattle.vt_cli.specs.Unbuilt.{is_unbuilt};
ghost use Rattle.vt_cli.specs.Inside.Begun.{IsAt, AreBuilt, Replies, PutsReplies};

use crate::{events, replies};
use std::alloc::Global;
use std::sync::ledger::Ledger;
use vt_base::{List, NoMemory, Steps, Text};
use vt_direct::narrow_tables_stand;
use vt_model::{Change, transaction_keeps_names};
use vt_model_json::write_model;
use vt_outside::{PutFail, Sink};
use vt_query::narrow_rows_are_named;
use vt_script::Line;
use vt_session::Session;

fn begin(alloc: Global, session: &mut Session, client: &Text) -> Result<List<u8>, NoMemory>
    ensures of { IsOfOne session.old session.new }
    ensures reply { Replies (commands.Begin client.now) session.old session.new result }
{
    let answer = session.begin(alloc, client);
    replies::answered(alloc, "begin", client, answer)
}

fn change(
    alloc: Global,
    session: &mut Session,
    client: &Text,
    change: &Change,
) -> Result<List<u8>, NoMemory>
    ensures of { IsOfOne session.old session.new }
    ensures reply { Replies (commands.Change client.now change.now) session.old session.new result }
{
    // What a change gives can be held, since it is held.
    change.gives_storable();
    let answer = session.change(client, change.share());
    replies::answered(alloc, "change", client, answer)
}

fn abort(alloc: Global, session: &mut Session, client: &Text) -> Result<List<u8>, NoMemory>
    ensures of { IsOfOne session.old session.new }
    ensures reply { Replies (commands.Abort client.now) session.old session.new result }
{
    let answer = session.abort(client);
    replies::answered(alloc, "abort", client, answer)
}

fn commit<L: Ledger>(
    alloc: Global,
    session: &mut Session,
    client: &Text,
    steps: &mut Steps<L>,
) -> Result<List<u8>, NoMemory>
    requires at { (state : State) × IsAt session.old state }
    requires countable { session.old.step < 9223372036854775807 }
    ensures of { IsOfOne session.old session.new }
    ensures reply { Replies (commands.Commit client.now) session.old session.new result }
{
    // What the rows name has a name, and keeps it: the model is valid before and after.
    narrow_rows_are_named();
    transaction_keeps_names();
    session.store().meta();
    match session.commit(alloc, client, steps) {
        Ok(report) => {
            let store = session.store();
            store.meta();
            let patterns = session.program().patterns.as_slice();
            events::step(alloc, client, patterns, &report, store)
        }
        Err(fault) => replies::refused(alloc, "commit", client, fault),
    }
}

fn matches(alloc: Global, session: &Session, pattern: &Text) -> Result<List<u8>, NoMemory>
    requires at { (state : State) × IsAt session.now state }
    ensures reply { Replies (commands.Matches pattern.now) session.now session.now result }
{
    narrow_rows_are_named();
    let store = session.store();
    store.meta();
    match session.matches(pattern) {
        Some(rows) => replies::matches(alloc, pattern, rows, store),
        None => replies::told(alloc, "matches", pattern, "refused UnknownPattern"),
    }
}

fn dump(alloc: Global, session: &Session) -> Result<List<u8>, NoMemory>
    ensures reply { Replies commands.Dump session.now session.now result }
{
    let mut text = write_model(alloc, session.store())?;
    text.add(b'\n')?;
    Ok(text)
}

// Makes a command, and answers the reply to it.
fn reply<L: Ledger>(
    alloc: Global,
    session: &mut Session,
    line: &Line,
    steps: &mut Steps<L>,
) -> Result<List<u8>, NoMemory>
    requires at { (state : State) × IsAt session.old state }
    requires built { is_unbuilt line.now ≡ false }
    requires countable { session.old.step < 9223372036854775807 }
    ensures of { IsOfOne session.old session.new }
    ensures reply { Replies line.now session.old session.new result }
{
    match line {
        Line::Begin(client) => begin(alloc, session, client),
        Line::Change {
            client,
            change: edit,
        } => change(alloc, session, client, edit),
        Line::Commit(client) => commit(alloc, session, client, steps),
        Line::Abort(client) => abort(alloc, session, client),
        Line::Matches(pattern) => matches(alloc, session, pattern),
        Line::Dump => dump(alloc, session),
        _ => unreachable!(),
    }
}

/// Makes the commands, and puts the reply to each before the next is made: no more than one stands in
/// memory.
pub(crate) fn put_replies<K: Sink, L: Ledger>(
    alloc: Global,
    session: &mut Session,
    lines: &[Line],
    out: &mut K,
    steps: &mut Steps<L>,
) -> Result<(), PutFail>
    requires at { (state : State) × IsAt session.old state }
    requires built { AreBuilt lines.now }
    requires countable { session.old.step + length lines.now ≤ 9223372036854775807 }
    ensures put { PutsReplies lines.now session.old result (K.written out.old) (K.written out.new) }
    ensures cause { CountsPut (K.faults out.old) (K.faults out.new) result }
{
    // Where memory runs out, a text is due nevertheless.
    narrow_tables_stand();
    for line in lines {
        let text = reply(alloc, session, line, steps)?;
        out.put(text.as_slice())?;
    }
    Ok(())
}
