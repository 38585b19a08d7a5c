// Runs that end early: rules and scripts that are refused, limits, and devices that fail.
use super::replies::MOVED_BOOK;
use super::{LIBRARY, answer, shelf_of, word_list};
use std::alloc::Global;
use std::process::Abort;
use std::test::Fail;
use vt_base::List;

// Two shelves, of which the first has two books, and a third book.
const BOOKS: &str = concat!(
    r#"{"format":1,"objects":[{"name":"a","class":"Shelf","links":{"books":["x","y"]}},"#,
    r#"{"name":"b","class":"Shelf"},{"name":"x","class":"Book","attributes":{"pages":5,"title":"X"}},"#,
    r#"{"name":"y","class":"Book","attributes":{"pages":5}},{"name":"z","class":"Book"}]}"#,
);

pub(super) const HOLDS: &str = "pattern holds(s: Shelf, b: Book) { Shelf.books(s, b); }";

// A run over the library.
#[derive(Clone, Copy)]
struct Case<'a> {
    queries: &'a str,
    rules: &'a str,
    script: &'a [u8],
    failing: &'a [u64],
}

// How it ends, and what it writes.
fn run_case(alloc: Global, case: &Case<'_>) -> Result<(u8, String), Fail> {
    let words = word_list(
        alloc,
        &["run", "meta", "model", "queries", "rules", "script"],
    )?;
    let shelf = shelf_of(
        alloc,
        &[
            ("meta", LIBRARY.as_bytes()),
            ("model", BOOKS.as_bytes()),
            ("queries", case.queries.as_bytes()),
            ("rules", case.rules.as_bytes()),
            ("script", case.script),
        ],
    )?;
    let mut failing = List::new(alloc);
    failing.extend(case.failing)?;
    let (ending, text) = answer(alloc, &words, shelf, failing)?;
    Ok((ending.status(), text))
}

// A script over the library has these replies.
pub(super) fn assert_replies(
    rt: &impl Abort,
    alloc: Global,
    queries: &str,
    script: &str,
    replies: &str,
) -> Result<(), Fail> {
    let case = Case {
        queries,
        rules: "",
        script: script.as_bytes(),
        failing: &[],
    };
    let (status, text) = run_case(alloc, &case)?;
    assert_eq!(rt; text.as_str(), replies, "{script}");
    assert_eq!(rt; status, 0, "{script}");
    Ok(())
}

// ---- a run that has nothing to do

#[test]
fn a_model_without_objects_has_no_matches(rt: HostRuntime) -> Result<(), Fail> {
    let alloc = rt.alloc();
    let words = word_list(alloc, &["run", "m", "o", "q", "r", "s"])?;
    for (script, text) in [
        ("", "load: step 0\n"),
        ("matches a", "load: step 0\nmatches a: 0\n"),
    ] {
        let shelf = shelf_of(
            alloc,
            &[
                ("m", r#"{"format":1,"classes":[{"name":"A"}]}"#.as_bytes()),
                ("o", r#"{"format":1,"objects":[]}"#.as_bytes()),
                ("q", "pattern a(x: A) { A(x); }".as_bytes()),
                ("r", "".as_bytes()),
                ("s", script.as_bytes()),
            ],
        )?;
        let (ending, written) = answer(alloc, &words, shelf, List::new(alloc))?;
        assert_eq!(rt; ending.status(), 0);
        assert_eq!(rt; written.as_str(), text);
    }
    Ok(())
}

// ---- rules and scripts that are refused

// A script, and the line that tells its first fault. Most have another fault behind it.
const REFUSED_SCRIPTS: &[(&str, &str)] = &[
    (
        "dump\n\n// begin\nbegin\ncommit\n",
        "fault: script Syntax 4\n",
    ),
    ("fire main 1\ndump \n", "fault: script Syntax 2\n"),
    ("swap main worst\n", "fault: script Syntax 1\n"),
    (
        "dump\nfire main 1\nswap main turns",
        "fault: script NotBuilt 2\n",
    ),
    (
        "\n// one\ndump\n\nactivations main\nfire main 0\n",
        "fault: script NotBuilt 2\n",
    ),
    (
        "swap main turns\nmatches holds\n",
        "fault: script NotBuilt 1\n",
    ),
    (
        "dump\ndump\ngroup holds 1 y\n",
        "fault: script NotBuilt 3\n",
    ),
];

// A script over the library is refused, and this line tells why.
fn assert_refused(rt: &impl Abort, alloc: Global, script: &[u8], line: &str) -> Result<(), Fail> {
    let case = Case {
        queries: HOLDS,
        rules: "",
        script,
        failing: &[],
    };
    let (status, text) = run_case(alloc, &case)?;
    assert_eq!(rt; text.as_str(), line, "{script:?}");
    assert_eq!(rt; status, 3, "{script:?}");
    Ok(())
}

#[test]
fn the_first_fault_of_a_script_is_told(rt: HostRuntime) -> Result<(), Fail> {
    let alloc = rt.alloc();
    for (script, line) in REFUSED_SCRIPTS {
        assert_refused(&rt, alloc, script.as_bytes(), line)?;
    }
    let line = "fault: script NotText 1\n";
    assert_refused(&rt, alloc, b"\xff\nbegin", line)?;
    assert_refused(&rt, alloc, b"fire main 1\n\xff", line)
}

#[test]
fn files_are_judged_in_the_order_of_the_words(rt: HostRuntime) -> Result<(), Fail> {
    let alloc = rt.alloc();
    for (queries, rules, line) in [
        ("1a", "\n", "fault: queries BadToken 1\n"),
        (HOLDS, "\n", "fault: rules NotBuilt 0\n"),
        (HOLDS, "rule drop", "fault: rules NotBuilt 0\n"),
        (HOLDS, "", "fault: script Syntax 1\n"),
    ] {
        let case = Case {
            queries,
            rules,
            script: b"begin\n",
            failing: &[],
        };
        let (status, text) = run_case(alloc, &case)?;
        assert_eq!(rt; text.as_str(), line, "{queries} {rules:?}");
        assert_eq!(rt; status, 3, "{queries} {rules:?}");
    }
    Ok(())
}

// A line so many times, and then another text.
fn repeated(alloc: Global, line: &str, count: usize, end: &str) -> Result<String, Fail> {
    let mut text = String::new(alloc);
    for _ in 0..count {
        text.push_str(line)?;
    }
    text.push_str(end)?;
    Ok(text)
}

#[test]
fn a_script_has_100000_commands_at_most(rt: HostRuntime) -> Result<(), Fail> {
    let alloc = rt.alloc();
    let lines = repeated(alloc, "abort c\n", 99_999, "fire main 1\n")?;
    for (end, line) in [
        ("", "fault: script NotBuilt 100000\n"),
        ("\ndump", "fault: script TooMany 100002\n"),
    ] {
        let script = format!(in alloc; "{lines}{end}")?;
        assert_refused(&rt, alloc, script.as_bytes(), line)?;
    }
    Ok(())
}

// ---- limits

#[test]
fn sixty_four_clients_may_have_a_transaction_open(rt: HostRuntime) -> Result<(), Fail> {
    let alloc = rt.alloc();
    let mut script = String::new(alloc);
    let mut replies = String::from_str(alloc, "load: step 0\n")?;
    for n in 0..64u32 {
        let line = format!(in alloc; "begin c{n}\n")?;
        script.push_str(line.as_str())?;
        let line = format!(in alloc; "begin c{n}: ok\n")?;
        replies.push_str(line.as_str())?;
    }
    script.push_str("begin d\nbegin c7\nabort c7\nbegin d\n")?;
    replies.push_str(
        "begin d: refused TooManyOpen\nbegin c7: refused AlreadyOpen\nabort c7: ok\nbegin d: ok\n",
    )?;
    assert_replies(&rt, alloc, HOLDS, script.as_str(), replies.as_str())
}

#[test]
fn a_transaction_takes_65536_changes(rt: HostRuntime) -> Result<(), Fail> {
    let alloc = rt.alloc();
    let body = repeated(alloc, "change c unset z pages\n", 65_537, "commit c\n")?;
    let script = format!(in alloc; "begin c\n{body}")?;
    let told = repeated(
        alloc,
        "change c: ok\n",
        65_536,
        "change c: refused TooManyChanges\ncommit c: step 1\n",
    )?;
    let replies = format!(in alloc; "load: step 0\nbegin c: ok\n{told}")?;
    assert_replies(&rt, alloc, HOLDS, script.as_str(), replies.as_str())
}

// ---- devices that fail

#[test]
fn a_run_is_written_up_to_the_reply_that_fails(rt: HostRuntime) -> Result<(), Fail> {
    let alloc = rt.alloc();
    // Each reply is one piece, with its events.
    for (call, text) in [
        (1, ""),
        (2, "load: step 0\n"),
        (4, "load: step 0\nbegin c: ok\nchange c: ok\n"),
        (
            5,
            "load: step 0\nbegin c: ok\nchange c: ok\ncommit c: step 1\n  - holds(a, x)\n  + holds(b, x)\n",
        ),
    ] {
        let case = Case {
            queries: HOLDS,
            rules: "",
            script: MOVED_BOOK.as_bytes(),
            failing: &[call],
        };
        let (status, written) = run_case(alloc, &case)?;
        assert_eq!(rt; written.as_str(), text, "{call}");
        assert_eq!(rt; status, 6, "{call}");
    }
    Ok(())
}
