//! Lines and their numbers, and which fault comes first.
use super::{count, give_all, outcome, repeated};
use std::alloc::Global;
use std::test::Fail;

// ---- what is skipped, and where a line ends

const LINES: &str = r#"→
␊→
␊␊→
dump␊→Dump;
dump␊dump→Dump;Dump;
dump␊␊dump␊→Dump;Dump;
 ␉␊dump→Dump;
dump␊ →Dump;
// x␊dump→Dump;
//␊dump→Dump;
//dump→
/// x→
//␍␊dump→Dump;
 // x→Syntax 1
␉//→Syntax 1
/→Syntax 1
/ / x→Syntax 1
/* x */→Syntax 1
dump // x→Syntax 1
␍␊dump→Dump;
 ␍␊dump→Dump;
dump␍␊dump␍␊→Dump;Dump;
dump␍→Syntax 1
␍→Syntax 1
␍␍␊→Syntax 1
dump␍␍␊→Syntax 1
dump␍dump→Syntax 1
dump␋→Syntax 1
␋→Syntax 1
␢dump→Syntax 1
change c set x a "b␍␊→Syntax 1
change c set x a "b␊c"→Syntax 1
group p 1 a␍␊dump→Group p 1 <a>;Dump;
group p 1 a␍b→Group p 1 <a␍b>;"#;

// ---- the first line that is no command, counted with those that are skipped

const FAULTS: &str = r#"x→Syntax 1
dump␊x→Syntax 2
x␊y→Syntax 1
␊␊x→Syntax 3
// a␊ ␊dump␊x␊dump→Syntax 4
␍␊x→Syntax 2
dump␊fire a 100001␊group p 16 x→Syntax 2
dump␊dump␊ //→Syntax 3"#;

#[test]
fn lines_are_skipped_counted_and_refused(rt: HostRuntime) -> Result<(), Fail> {
    give_all(&rt, rt.alloc(), LINES)?;
    give_all(&rt, rt.alloc(), FAULTS)
}

// ---- NotText comes before all others

#[test]
fn only_text_is_looked_into(rt: HostRuntime) -> Result<(), Fail> {
    assert_eq!(rt; outcome(rt.alloc(), b"\xff")?.as_str(), "NotText 1");
    assert_eq!(rt; outcome(rt.alloc(), b"x\n\xff")?.as_str(), "NotText 1");
    assert_eq!(rt;
        outcome(rt.alloc(), b"dump\n// \xc3")?.as_str(),
        "NotText 1"
    );
    assert_eq!(rt;
        outcome(rt.alloc(), b"dump\n\xed\xa0\x80\nx")?.as_str(),
        "NotText 1"
    );
    Ok(())
}

// ---- 100,000 commands are read, and one more is refused

// What a script gives of so many dumps between two texts.
fn dumps(alloc: Global, before: &str, times: u32, after: &str) -> Result<String, Fail> {
    let mut text = String::from_str(alloc, before)?;
    text.push_str(repeated(alloc, "dump\n", times)?.as_str())?;
    text.push_str(after)?;
    count(alloc, text.as_str())
}

#[test]
fn a_script_has_at_most_100000_commands(rt: HostRuntime) -> Result<(), Fail> {
    for (before, times, after, given) in [
        ("", 100_000, "", "100000"),
        ("\n// x\n", 100_000, "\n \n// y", "100000"),
        ("", 100_001, "", "TooMany 100001"),
        ("\n// x\n", 100_001, "", "TooMany 100003"),
        ("", 100_000, "\n\nbegin c", "TooMany 100003"),
        ("", 100_001, "dump\n", "TooMany 100001"),
        ("", 100_001, "\nx", "Syntax 100003"),
        ("", 100_000, "x", "Syntax 100001"),
        ("x\n", 100_001, "", "Syntax 1"),
    ] {
        assert_eq!(rt; dumps(rt.alloc(), before, times, after)?.as_str(), given);
    }
    Ok(())
}
