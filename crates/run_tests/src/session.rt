//! Sessions over a small library: what clients may do, and what each step reports.
mod library;
mod told;

ghost use Rattle.std.specs.Prelude.{◌≡◌, ◌<◌};

use library::{change, empty_library};
use std::alloc::Global;
use std::fmt::Write;
use std::marker::Brand;
use std::sync::ledger::{Blank, Ledger};
use std::test::Fail;
use told::add_report;
use vt_base::{Steps, Text};
use vt_session::{Session, SessionFault};

// ---- scripts

fn add_answer(text: &mut String, answer: Result<(), SessionFault>) -> Result<(), Fail> {
    match answer {
        Ok(()) => text.push_str("ok\n")?,
        Err(why) => write!(text, "{why}\n")?,
    }
    Ok(())
}

fn add_commit<L: Ledger>(
    text: &mut String,
    alloc: Global,
    session: &mut Session,
    client: &Text,
    steps: &mut Steps<L>,
) -> Result<(), Fail> {
    if session.step() >= 1000 {
        return Err(Fail::new("too many steps"));
    }
    match session.commit(alloc, client, steps) {
        Ok(report) => add_report(text, session, &report),
        Err(why) => add_answer(text, Err(why)),
    }
}

fn add_matches(text: &mut String, session: &Session, pattern: &Text) -> Result<(), Fail> {
    match session.matches(pattern) {
        Some(rows) => write!(text, "{} matches\n", rows.len())?,
        None => text.push_str("no such pattern\n")?,
    }
    Ok(())
}

// A change as `create x Book`, which is given so many times.
fn give(
    alloc: Global,
    session: &mut Session,
    client: &str,
    line: &str,
    times: u32,
) -> Result<Result<(), SessionFault>, Fail> {
    let client = Text::new(alloc, client)?;
    let mut answer = Ok(());
    for _ in 0..times {
        answer = session.change(&client, change(alloc, line)?);
    }
    Ok(answer)
}

// What a line asks for: `begin ann`, `commit ann`, `abort ann`, `matches book`, a change as
// `ann create x Book`, or `65535 delete x` for so many of ann, of which the last is answered.
fn add_line<L: Ledger>(
    text: &mut String,
    alloc: Global,
    session: &mut Session,
    line: &str,
    steps: &mut Steps<L>,
) -> Result<(), Fail> {
    let (first, rest) = line.split_once(' ').ok_or("one word")?;
    let name = Text::new(alloc, rest)?;
    match first {
        "begin" => add_answer(text, session.begin(alloc, &name)),
        "abort" => add_answer(text, session.abort(&name)),
        "commit" => add_commit(text, alloc, session, &name, steps),
        "matches" => add_matches(text, session, &name),
        _ => match first.parse::<u32>() {
            Ok(times) => add_answer(text, give(alloc, session, "ann", rest, times)?),
            Err(_) => add_answer(text, give(alloc, session, first, rest, 1)?),
        },
    }
}

// What a session over the empty library answers to the lines of a script.
fn answers<L: Ledger>(alloc: Global, script: &Text, blank: Blank) -> Result<String, Fail>
    requires name { blank.name ≡ L.name }
    requires parts { blank.parts ≡ L.parts }
    requires some { 0 < blank.parts }
{
    let mut steps = Steps::<L>::new(blank);
    let mut session = empty_library(alloc, &mut steps)?;
    let mut text = String::new(alloc);
    for line in script.as_str().lines() {
        add_line(&mut text, alloc, &mut session, line, &mut steps)?;
    }
    Ok(text)
}

fn text_of(alloc: Global, script: &str) -> Result<String, Fail> {
    let script = Text::new(alloc, script)?;
    answers::<Brand>(alloc, &script, Blank::new(1))
}

// Whether these are the answers, one a line.
fn answers_so(alloc: Global, script: &str, expected: &str) -> Result<bool, Fail> {
    let text = text_of(alloc, script)?;
    Ok(text.as_str() == expected)
}

// Whether these are the last answers.
fn ends_so(alloc: Global, script: &str, expected: &str) -> Result<bool, Fail> {
    let text = text_of(alloc, script)?;
    Ok(text.as_str().ends_with(expected))
}

// ---- steps

#[test]
fn a_step_reports_what_came_what_went_and_what_has_other_values(
    rt: HostRuntime,
) -> Result<(), Fail> {
    let script = "begin ann\nann create a Shelf\nann create x Book\ncommit ann\n\
        begin ann\nann set x pages 3\ncommit ann\n\
        begin ann\nann set x pages 4\nann set x pages 3\ncommit ann\n\
        begin ann\nann delete x\nann create y Book\ncommit ann\n\
        begin ann\ncommit ann";
    let expected = "ok\nok\nok\nstep 1 book[+x] shelf[+a] touched[]\n\
        ok\nok\nstep 2 book[~x] shelf[] touched[x]\n\
        ok\nok\nok\nstep 3 book[] shelf[] touched[]\n\
        ok\nok\nok\nstep 4 book[+y -x] shelf[] touched[]\n\
        ok\nstep 5 book[] shelf[] touched[]\n";
    assert!(rt; answers_so(rt.alloc(), script, expected)?);
    Ok(())
}

#[test]
fn a_refused_transaction_ends_and_changes_nothing(rt: HostRuntime) -> Result<(), Fail> {
    let script = "begin ann\nann create x Book\nann delete z\ncommit ann\nmatches book\n\
        commit ann\nann create x Book\nabort ann\n\
        begin ann\nann create x Book\ncommit ann\nmatches book";
    let expected =
        "ok\nok\nok\nchange 1 is refused: an object that is named never existed\n0 matches\n\
        the client has no transaction open\nthe client has no transaction open\nthe client has no transaction open\n\
        ok\nok\nstep 1 book[+x] shelf[] touched[]\n1 matches\n";
    assert!(rt; answers_so(rt.alloc(), script, expected)?);
    Ok(())
}

// ---- clients

#[test]
fn clients_take_turns_and_each_commits_its_own_changes(rt: HostRuntime) -> Result<(), Fail> {
    let script = "begin ann\nbegin bob\nbegin ann\nann create p Book\nbob create q Book\n\
        commit bob\nbob create r Book\nann create s Shelf\ncommit ann\nbegin bob\nabort bob\nabort bob";
    let expected = "ok\nok\nthe client has a transaction open\nok\nok\n\
        step 1 book[+q] shelf[] touched[]\nthe client has no transaction open\nok\n\
        step 2 book[+p] shelf[+s] touched[]\nok\nok\nthe client has no transaction open\n";
    assert!(rt; answers_so(rt.alloc(), script, expected)?);
    Ok(())
}

#[test]
fn a_commit_works_on_the_model_that_the_last_step_left(rt: HostRuntime) -> Result<(), Fail> {
    let script = "begin ann\nann create a Shelf\nann create x Book\nbegin bob\nbob delete x\n\
        commit ann\ncommit bob\nbegin ann\nann set x pages 3\ncommit ann\nmatches book";
    let expected = "ok\nok\nok\nok\nok\n\
        step 1 book[+x] shelf[+a] touched[]\nstep 2 book[-x] shelf[] touched[]\n\
        ok\nok\nchange 0 is refused: an object that is named was deleted\n0 matches\n";
    assert!(rt; answers_so(rt.alloc(), script, expected)?);
    Ok(())
}

// The first so many clients begin, then one of them once more, and one more.
fn begin_all(alloc: Global, count: u32) -> Result<String, Fail> {
    let mut script = String::new(alloc);
    for client in 0..count {
        write!(script, "begin {client}\n")?;
    }
    script.push_str("begin 0\nbegin one-more")?;
    Ok(script)
}

fn begins_end_so(alloc: Global, count: u32, expected: &str) -> Result<bool, Fail> {
    let script = begin_all(alloc, count)?;
    ends_so(alloc, script.as_str(), expected)
}

#[test]
fn at_most_64_clients_have_a_transaction_open(rt: HostRuntime) -> Result<(), Fail> {
    let few = "the client has a transaction open\nok\n";
    let many =
        "the client has a transaction open\n64 clients have a transaction open, as many as may\n";
    assert!(rt; begins_end_so(rt.alloc(), 63, few)?);
    assert!(rt; begins_end_so(rt.alloc(), 64, many)?);
    Ok(())
}

#[test]
fn at_most_65536_changes_are_collected(rt: HostRuntime) -> Result<(), Fail> {
    let few = "begin ann\n65535 delete x\nann delete x\nabort ann";
    let many = "begin ann\n65536 delete x\nann delete x\nabort ann";
    let full = "ok\nok\nthe transaction has 65536 changes, as many as it may\nok\n";
    assert!(rt; answers_so(rt.alloc(), few, "ok\nok\nok\nok\n")?);
    assert!(rt; answers_so(rt.alloc(), many, full)?);
    Ok(())
}

// ---- match lists

#[test]
fn a_private_pattern_has_no_list(rt: HostRuntime) -> Result<(), Fail> {
    let script = "begin ann\nann create a Shelf\nann create x Book\ncommit ann\n\
        matches book\nmatches shelf\nmatches desk";
    let expected = "1 matches\nno such pattern\nno such pattern\n";
    assert!(rt; ends_so(rt.alloc(), script, expected)?);
    Ok(())
}
