// How a command ends: by its words, by its files, and by the devices.
use super::{LIBRARY, NODES, TWO_NODES, TWO_NODES_DUMP, add_file, answer, matched, shown};
use std::alloc::Global;
use std::test::Fail;
use vt_base::{List, NoMemory, Text};
use vt_outside::MemShelf;

// The files of the table below.
const FILES: &[(&str, &str)] = &[
    ("nodes", NODES),
    ("two", TWO_NODES),
    ("edges", "pattern edge(a, b) { Node.to(a, b); }"),
    ("library", LIBRARY),
    ("open", "{"),
    ("list", "[]"),
    ("token", "1a"),
    ("empty", ""),
    ("script", "matches edge"),
    // The class of the nodes, but abstract.
    (
        "abstract",
        r#"{"format":1,"classes":[{"name":"Node","abstract":true,"attributes":[{"name":"w","kind":"int"}],"references":[{"name":"to","target":"Node","many":true}]}]}"#,
    ),
    // The first of the two nodes leads to an object that isn't there.
    (
        "astray",
        r#"{"format":1,"objects":[{"name":"p","class":"Node","attributes":{"w":7},"links":{"to":["r","p","q"]}},{"name":"q","class":"Node"}]}"#,
    ),
    // Two books of one name.
    (
        "ones",
        r#"{"format":1,"objects":[{"name":"a","class":"Book"},{"name":"a","class":"Book"}]}"#,
    ),
];

// Words, the fetches and the puts that fail, counted from 1, the exit status, and the text. The dump and
// the match lists of the two nodes, and a run over them, stand as `dump`, `lists` and `run`.
const RUNS: &str = r#"show nodes two;;;0;dump
matches nodes two edges;;;0;lists
run nodes two edges empty script;;;0;run
;1;;2;usage
show;1;;2;usage
show nodes;1;;2;usage
show nodes two two;1;;2;usage
show nodes two edges two;1;;2;usage
nodes two show;1;;2;usage
Show nodes two;1;;2;usage
shows nodes two;1;;2;usage
sho nodes two;1;;2;usage
matches;1;;2;usage
matches nodes two;1;;2;usage
matches nodes two edges more;1;;2;usage
Matches nodes two edges;1;;2;usage
matche nodes two edges;1;;2;usage
run nodes two edges empty;1;;2;usage
run nodes two edges empty script more;1;;2;usage
Run nodes two edges empty script;1;;2;usage
show open two;;;3;metamodel NotJson 0
show list two;;;3;metamodel BadShape 0
show two nodes;;;3;metamodel BadShape 0
show open open;;;3;metamodel NotJson 0
show list open;;;3;metamodel BadShape 0
show nodes open;;;3;model NotJson 0
show nodes list;;;3;model BadShape 0
show abstract open;;;3;model NotJson 0
show abstract two;;;3;model AbstractClass 0
show nodes astray;;;3;model UnknownObject 3
show library ones;;;3;model NameTaken 1
matches open open token;;;3;metamodel NotJson 0
matches nodes astray token;;;3;model UnknownObject 3
matches nodes two token;;;3;queries BadToken 1
show open none;;;4;model missing
show nodes none;;;4;model missing
show none open;;;4;metamodel missing
show none none;;;4;metamodel missing
matches nodes two none;;;4;queries missing
matches open two none;;;4;queries missing
matches nodes open none;;;4;queries missing
matches open none none;;;4;model missing
matches none none token;;;4;metamodel missing
run nodes two edges empty none;;;4;script missing
run nodes two edges none none;;;4;rules missing
run open two token none none;;;4;rules missing
run open two token token token;;;3;metamodel NotJson 0
run nodes open token token token;;;3;model NotJson 0
run nodes two token token token;;;3;queries BadToken 1
run nodes two edges token token;;;3;rules NotBuilt 0
run nodes two edges empty token;;;3;script Syntax 1
run nodes two edges empty script;4;;4;rules unreadable
run nodes two edges empty script;5;;4;script unreadable
run nodes two edges none script;5;;4;rules missing
run nodes two edges empty token;;1;6;
show nodes two;1;;4;metamodel unreadable
show nodes two;2;;4;model unreadable
show nodes two;1 2;;4;metamodel unreadable
show nodes none;2;;4;model unreadable
show none two;2;;4;metamodel missing
show nodes two;3;2;0;dump
show nodes none;3;2;4;model missing
matches nodes two edges;3;;4;queries unreadable
matches nodes two edges;2 3;;4;model unreadable
matches nodes none edges;3;;4;model missing
matches nodes two edges;4;2;0;lists
matches nodes two edges;;1;6;
matches nodes two edges;3;1;6;
show nodes two;;1;6;
show nodes two;1;1;6;
show nodes two;2;1;6;
show nodes none;;1;6;
show nodes open;;1;6;
show;;1;6;"#;

const LISTS: &str = "pattern edge 2\n  (p, p)\n  (p, q)\n";

const REPLIES: &str = "load: step 0\nmatches edge: 2\n  (p, p)\n  (p, q)\n";

fn numbers_of(alloc: Global, text: &str) -> Result<List<u64>, Fail> {
    let mut numbers = List::new(alloc);
    for digits in text.split(' ') {
        if let Ok(number) = digits.parse::<u64>() {
            numbers.add(number)?;
        }
    }
    Ok(numbers)
}

fn table_files(alloc: Global) -> Result<List<(Text, List<u8>)>, NoMemory> {
    let mut files = List::new(alloc);
    for (name, text) in FILES {
        add_file(&mut files, alloc, name, text.as_bytes())?;
    }
    Ok(files)
}

fn words_of(alloc: Global, text: &str) -> Result<List<Text>, NoMemory> {
    let mut words = List::new(alloc);
    if text != "" {
        for word in text.split(' ') {
            words.add(Text::new(alloc, word)?)?;
        }
    }
    Ok(words)
}

// The exit status of a run, and what it writes.
fn answer_of(alloc: Global, run: &str) -> Result<(u8, String), Fail> {
    let mut parts = run.split(';');
    let words = words_of(alloc, parts.next().unwrap_or(""))?;
    let fetches = numbers_of(alloc, parts.next().unwrap_or(""))?;
    let puts = numbers_of(alloc, parts.next().unwrap_or(""))?;
    let shelf = MemShelf::new(table_files(alloc)?, fetches);
    let (ending, text) = answer(alloc, &words, shelf, puts)?;
    Ok((ending.status(), text))
}

// What is wanted of a run.
fn wanted_of(alloc: Global, run: &str) -> Result<(u8, String), Fail> {
    let mut parts = run.split(';').skip(3);
    let status = parts.next().unwrap_or("").parse::<u8>()?;
    let text = match parts.next().unwrap_or("") {
        "" => String::new(alloc),
        "dump" => String::from_str(alloc, TWO_NODES_DUMP)?,
        "lists" => String::from_str(alloc, LISTS)?,
        "run" => String::from_str(alloc, REPLIES)?,
        told => format!(in alloc; "fault: {told}\n")?,
    };
    Ok((status, text))
}

#[test]
fn words_files_and_devices_decide(rt: HostRuntime) -> Result<(), Fail> {
    for run in RUNS.lines() {
        let (status, text) = answer_of(rt.alloc(), run)?;
        let (wanted_status, wanted_text) = wanted_of(rt.alloc(), run)?;
        assert_eq!(rt; status, wanted_status, "{run}");
        assert_eq!(rt; text.as_str(), wanted_text.as_str(), "{run}");
    }
    Ok(())
}

// The text, and spaces up to a length.
fn padded(alloc: Global, text: &str, length: usize) -> Result<Vec<u8>, NoMemory> {
    let mut bytes = Vec::from_slice(alloc, text.as_bytes())?;
    for _ in text.len()..length {
        bytes.push(b' ')?;
    }
    Ok(bytes)
}

#[test]
fn a_file_has_at_most_16777216_bytes(rt: HostRuntime) -> Result<(), Fail> {
    let alloc = rt.alloc();
    // How much longer a file is doesn't show. All are fetched before one is judged.
    for (meta, length, status, text) in [
        (NODES, 16_777_216, 0, TWO_NODES_DUMP),
        (NODES, 16_777_217, 7, "fault: model too large 16777217\n"),
        ("{", 16_777_999, 7, "fault: model too large 16777217\n"),
    ] {
        let model = padded(alloc, TWO_NODES, length)?;
        let (ending, written) = shown(alloc, meta, model.as_slice())?;
        assert_eq!(rt; ending.status(), status, "{length}");
        assert_eq!(rt; written.as_str(), text, "{length}");
    }
    let queries = padded(alloc, "", 16_777_217)?;
    let (ending, written) = matched(alloc, "{", TWO_NODES, queries.as_slice())?;
    assert_eq!(rt; ending.status(), 7);
    assert_eq!(rt; written.as_str(), "fault: queries too large 16777217\n");
    Ok(())
}
