// The command that a line spells.
ghost use Rattle.vt_script.specs.Commands.{edited, change_of, commanded, command_of};
ghost use Rattle.vt_script.specs.Inside.Gives.{Gives};

use crate::Line;
use crate::fault::Stuck;
use crate::value::value;
use crate::verbs::{Edit, Verb, edit_named, verb_named};
use crate::words::{identifier, number, object_name, policy, something, split};
use std::alloc::Global;
use vt_model::Change;

const MOST_FIRINGS: u64 = 100_000;

const LAST_COLUMN: u64 = 15;

fn create(alloc: Global, rest: &str) -> Result<Change, Stuck>
    ensures { Gives result (edited Edit.Create rest.now) }
{
    let Some((name, class)) = split(rest) else {
        return Err(Stuck::NoCommand);
    };
    Ok(Change::Create {
        name: object_name(alloc, name)?,
        class: identifier(alloc, class)?,
        number: None,
    })
}

fn set(alloc: Global, rest: &str) -> Result<Change, Stuck>
    ensures { Gives result (edited Edit.Set rest.now) }
{
    let Some((name, rest)) = split(rest) else {
        return Err(Stuck::NoCommand);
    };
    let name = object_name(alloc, name)?;
    let Some((attr, given)) = split(rest) else {
        return Err(Stuck::NoCommand);
    };
    Ok(Change::Set {
        name,
        attr: identifier(alloc, attr)?,
        value: value(alloc, given)?,
    })
}

fn unset(alloc: Global, rest: &str) -> Result<Change, Stuck>
    ensures { Gives result (edited Edit.Unset rest.now) }
{
    let Some((name, attr)) = split(rest) else {
        return Err(Stuck::NoCommand);
    };
    Ok(Change::Unset {
        name: object_name(alloc, name)?,
        attr: identifier(alloc, attr)?,
    })
}

fn link(alloc: Global, rest: &str) -> Result<Change, Stuck>
    ensures { Gives result (edited Edit.Link rest.now) }
{
    let Some((name, rest)) = split(rest) else {
        return Err(Stuck::NoCommand);
    };
    let name = object_name(alloc, name)?;
    let Some((reference, target)) = split(rest) else {
        return Err(Stuck::NoCommand);
    };
    Ok(Change::Link {
        name,
        reference: identifier(alloc, reference)?,
        target: object_name(alloc, target)?,
    })
}

fn unlink(alloc: Global, rest: &str) -> Result<Change, Stuck>
    ensures { Gives result (edited Edit.Unlink rest.now) }
{
    let Some((name, rest)) = split(rest) else {
        return Err(Stuck::NoCommand);
    };
    let name = object_name(alloc, name)?;
    let Some((reference, target)) = split(rest) else {
        return Err(Stuck::NoCommand);
    };
    Ok(Change::Unlink {
        name,
        reference: identifier(alloc, reference)?,
        target: object_name(alloc, target)?,
    })
}

fn move_into(alloc: Global, rest: &str) -> Result<Change, Stuck>
    ensures { Gives result (edited Edit.Move rest.now) }
{
    let Some((child, rest)) = split(rest) else {
        return Err(Stuck::NoCommand);
    };
    let child = object_name(alloc, child)?;
    let Some((parent, reference)) = split(rest) else {
        return Err(Stuck::NoCommand);
    };
    Ok(Change::Move {
        child,
        parent: object_name(alloc, parent)?,
        reference: identifier(alloc, reference)?,
    })
}

// The change that an edit's word makes of what stands behind it.
fn edited(alloc: Global, word: Edit, rest: &str) -> Result<Change, Stuck>
    ensures { Gives result (edited word rest.now) }
{
    match word {
        Edit::Create => create(alloc, rest),
        Edit::Delete => Ok(Change::Delete {
            name: object_name(alloc, rest)?,
        }),
        Edit::Set => set(alloc, rest),
        Edit::Unset => unset(alloc, rest),
        Edit::Link => link(alloc, rest),
        Edit::Unlink => unlink(alloc, rest),
        Edit::Move => move_into(alloc, rest),
    }
}

// The change that is written behind the client's name.
#[tactic(auto, unfolding(crate::specs::Commands::change_of))]
fn change_of(alloc: Global, rest: &str) -> Result<Change, Stuck>
    ensures { Gives result (change_of rest.now) }
{
    let Some((word, rest)) = split(rest) else {
        return Err(Stuck::NoCommand);
    };
    let Some(word) = edit_named(word) else {
        return Err(Stuck::NoCommand);
    };
    edited(alloc, word, rest)
}

fn client_change(alloc: Global, rest: &str) -> Result<Line, Stuck>
    ensures { Gives result (commanded Verb.Change rest.now) }
{
    let Some((client, rest)) = split(rest) else {
        return Err(Stuck::NoCommand);
    };
    Ok(Line::Change {
        client: object_name(alloc, client)?,
        change: change_of(alloc, rest)?,
    })
}

fn fire(alloc: Global, rest: &str) -> Result<Line, Stuck>
    ensures { Gives result (commanded Verb.Fire rest.now) }
{
    let Some((agenda, n)) = split(rest) else {
        return Err(Stuck::NoCommand);
    };
    let Some(n) = number(n, MOST_FIRINGS) else {
        return Err(Stuck::NoCommand);
    };
    Ok(Line::Fire {
        agenda: identifier(alloc, agenda)?,
        n: n as u32,
    })
}

fn swap(alloc: Global, rest: &str) -> Result<Line, Stuck>
    ensures { Gives result (commanded Verb.Swap rest.now) }
{
    let Some((agenda, kind)) = split(rest) else {
        return Err(Stuck::NoCommand);
    };
    let Some(kind) = policy(kind) else {
        return Err(Stuck::NoCommand);
    };
    Ok(Line::Swap {
        agenda: identifier(alloc, agenda)?,
        kind,
    })
}

fn group(alloc: Global, rest: &str) -> Result<Line, Stuck>
    ensures { Gives result (commanded Verb.Group rest.now) }
{
    let Some((pattern, rest)) = split(rest) else {
        return Err(Stuck::NoCommand);
    };
    let Some((column, rest)) = split(rest) else {
        return Err(Stuck::NoCommand);
    };
    let Some(column) = number(column, LAST_COLUMN) else {
        return Err(Stuck::NoCommand);
    };
    Ok(Line::Group {
        pattern: identifier(alloc, pattern)?,
        column: column as u16,
        rest: something(alloc, rest)?,
    })
}

// The command that a word makes of what stands behind it.
fn commanded(alloc: Global, word: Verb, rest: &str) -> Result<Line, Stuck>
    ensures { Gives result (commanded word rest.now) }
{
    match word {
        Verb::Begin => Ok(Line::Begin(object_name(alloc, rest)?)),
        Verb::Commit => Ok(Line::Commit(object_name(alloc, rest)?)),
        Verb::Abort => Ok(Line::Abort(object_name(alloc, rest)?)),
        Verb::Change => client_change(alloc, rest),
        Verb::Fire => fire(alloc, rest),
        Verb::Swap => swap(alloc, rest),
        Verb::Matches => Ok(Line::Matches(identifier(alloc, rest)?)),
        Verb::Activations => Ok(Line::Activations(identifier(alloc, rest)?)),
        Verb::Group => group(alloc, rest),
    }
}

/// The command of a line.
#[tactic(auto, unfolding(crate::specs::Commands::command_of))]
pub(crate) fn command(alloc: Global, line: &str) -> Result<Line, Stuck>
    ensures { Gives result (command_of line.now) }
{
    if line == "dump" {
        return Ok(Line::Dump);
    }
    let Some((word, rest)) = split(line) else {
        return Err(Stuck::NoCommand);
    };
    let Some(word) = verb_named(word) else {
        return Err(Stuck::NoCommand);
    };
    commanded(alloc, word, rest)
}
