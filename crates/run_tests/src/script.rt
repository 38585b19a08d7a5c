//! Scripts with what each must give. In a table each line is a case.
mod commands;
mod lines;
mod values;

use std::alloc::Global;
use std::process::Abort;
use std::test::Fail;
use vt_base::{List, Policy};
use vt_model::{Change, Given};
use vt_script::{Line, ScriptFault, read_script};

fn answer(alloc: Global, bytes: &[u8]) -> Result<List<Line>, ScriptFault> {
    if bytes.len() >= 1_000_000 {
        return Err(ScriptFault::NoMemory);
    }
    read_script(alloc, bytes)
}

// ---- a script as a text

fn given_text(alloc: Global, given: &Given) -> Result<String, Fail> {
    let text = match given {
        Given::Bool(b) => format!(in alloc; "{b}")?,
        Given::Int(n) => format!(in alloc; "{n}")?,
        Given::Text(text) => {
            let text = text.as_str();
            format!(in alloc; "<{text}>")?
        }
        Given::Literal(_, _) => String::from_str(alloc, "a literal")?,
    };
    Ok(text)
}

// The word of a change, then the names that it holds.
fn named(alloc: Global, word: &str, names: &[&str]) -> Result<String, Fail> {
    let mut text = String::from_str(alloc, word)?;
    for name in names {
        text.push(' ')?;
        text.push_str(name)?;
    }
    Ok(text)
}

fn created_text(
    alloc: Global,
    name: &str,
    class: &str,
    number: Option<u32>,
) -> Result<String, Fail> {
    match number {
        Some(n) => Ok(format!(in alloc; "Create {name} {class} as {n}")?),
        None => Ok(format!(in alloc; "Create {name} {class}")?),
    }
}

fn set_text(alloc: Global, name: &str, attr: &str, given: &Given) -> Result<String, Fail> {
    let given = given_text(alloc, given)?;
    let given = given.as_str();
    Ok(format!(in alloc; "Set {name} {attr} {given}")?)
}

fn change_text(alloc: Global, change: &Change) -> Result<String, Fail> {
    match change {
        Change::Create {
            name,
            class,
            number,
        } => created_text(alloc, name.as_str(), class.as_str(), *number),
        Change::Delete { name } => named(alloc, "Delete", &[name.as_str()]),
        Change::Set { name, attr, value } => set_text(alloc, name.as_str(), attr.as_str(), value),
        Change::Unset { name, attr } => named(alloc, "Unset", &[name.as_str(), attr.as_str()]),
        Change::Link {
            name,
            reference,
            target,
        } => named(
            alloc,
            "Link",
            &[name.as_str(), reference.as_str(), target.as_str()],
        ),
        Change::Unlink {
            name,
            reference,
            target,
        } => named(
            alloc,
            "Unlink",
            &[name.as_str(), reference.as_str(), target.as_str()],
        ),
        Change::Move {
            child,
            parent,
            reference,
        } => named(
            alloc,
            "Move",
            &[child.as_str(), parent.as_str(), reference.as_str()],
        ),
    }
}

fn policy_word(kind: Policy) -> &'static str {
    match kind {
        Policy::Fixed => "Fixed",
        Policy::Inverted => "Inverted",
        Policy::Oldest => "Oldest",
        Policy::Turns => "Turns",
    }
}

fn changed_text(alloc: Global, client: &str, change: &Change) -> Result<String, Fail> {
    let change = change_text(alloc, change)?;
    let change = change.as_str();
    Ok(format!(in alloc; "Change {client} {change}")?)
}

fn line_text(alloc: Global, line: &Line) -> Result<String, Fail> {
    match line {
        Line::Begin(client) => named(alloc, "Begin", &[client.as_str()]),
        Line::Commit(client) => named(alloc, "Commit", &[client.as_str()]),
        Line::Abort(client) => named(alloc, "Abort", &[client.as_str()]),
        Line::Change { client, change } => changed_text(alloc, client.as_str(), change),
        Line::Fire { agenda, n } => {
            let agenda = agenda.as_str();
            Ok(format!(in alloc; "Fire {agenda} {n}")?)
        }
        Line::Swap { agenda, kind } => {
            let agenda = agenda.as_str();
            let kind = policy_word(*kind);
            Ok(format!(in alloc; "Swap {agenda} {kind}")?)
        }
        Line::Matches(pattern) => named(alloc, "Matches", &[pattern.as_str()]),
        Line::Activations(agenda) => named(alloc, "Activations", &[agenda.as_str()]),
        Line::Group {
            pattern,
            column,
            rest,
        } => {
            let pattern = pattern.as_str();
            let rest = rest.as_str();
            Ok(format!(in alloc; "Group {pattern} {column} <{rest}>")?)
        }
        Line::Dump => Ok(String::from_str(alloc, "Dump")?),
    }
}

fn fault_text(alloc: Global, fault: ScriptFault) -> Result<String, Fail> {
    let text = match fault {
        ScriptFault::NotText { line } => format!(in alloc; "NotText {line}")?,
        ScriptFault::Syntax { line } => format!(in alloc; "Syntax {line}")?,
        ScriptFault::TooMany { line } => format!(in alloc; "TooMany {line}")?,
        ScriptFault::NoMemory => String::from_str(alloc, "NoMemory")?,
    };
    Ok(text)
}

// The commands of a script, each with a `;` behind it, or its fault.
fn outcome(alloc: Global, bytes: &[u8]) -> Result<String, Fail> {
    let lines = match answer(alloc, bytes) {
        Ok(lines) => lines,
        Err(fault) => return fault_text(alloc, fault),
    };
    let mut all = String::new(alloc);
    for line in lines.as_slice() {
        all.push_str(line_text(alloc, line)?.as_str())?;
        all.push(';')?;
    }
    Ok(all)
}

// How many commands a script has, or its fault.
fn count(alloc: Global, text: &str) -> Result<String, Fail> {
    match answer(alloc, text.as_bytes()) {
        Ok(lines) => {
            let n = lines.len();
            Ok(format!(in alloc; "{n}")?)
        }
        Err(fault) => fault_text(alloc, fault),
    }
}

// ---- tables

// A case, in which a picture of a control character stands for that character, and `␢` for the mark
// of byte order.
fn unpictured(alloc: Global, line: &str) -> Result<String, Fail> {
    let mut text = String::new(alloc);
    for c in line.chars() {
        text.push(match c {
            '␉' => '\t',
            '␊' => '\n',
            '␋' => '\u{b}',
            '␍' => '\r',
            '␢' => '\u{feff}',
            c => c,
        })?;
    }
    Ok(text)
}

// So many times the same text, one after the other.
fn repeated(alloc: Global, piece: &str, times: u32) -> Result<String, Fail> {
    let mut text = String::new(alloc);
    for _ in 0..times {
        text.push_str(piece)?;
    }
    Ok(text)
}

// Each script gives what stands behind its arrow.
fn give_all(rt: &impl Abort, alloc: Global, table: &str) -> Result<(), Fail> {
    for line in table.lines() {
        let case = unpictured(alloc, line)?;
        let (text, given) = case.as_str().split_once('→').ok_or("no answer")?;
        assert_eq!(rt; outcome(alloc, text.as_bytes())?.as_str(), given, "{line}");
    }
    Ok(())
}
