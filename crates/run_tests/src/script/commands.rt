//! Each command, and lines that are nearly one.
use super::{count, give_all, repeated};
use std::alloc::Global;
use std::test::Fail;

const COMMANDS: &str = r#"begin ann→Begin ann;
commit ann→Commit ann;
abort ann→Abort ann;
change ann create x Book→Change ann Create x Book;
change ann delete x→Change ann Delete x;
change ann set x pages 5→Change ann Set x pages 5;
change ann unset x pages→Change ann Unset x pages;
change ann link a books x→Change ann Link a books x;
change ann unlink a books x→Change ann Unlink a books x;
change ann move x a books→Change ann Move x a books;
fire main 10→Fire main 10;
swap main fixed→Swap main Fixed;
swap main inverted→Swap main Inverted;
swap main oldest→Swap main Oldest;
swap main turns→Swap main Turns;
matches holds→Matches holds;
activations main→Activations main;
group paged 2 5→Group paged 2 <5>;
dump→Dump;"#;

// ---- one space stands between words, and nothing behind the last

const SPACES: &str = r#"begin→Syntax 1
begin →Syntax 1
begin  ann→Syntax 1
begin ann →Syntax 1
 begin ann→Syntax 1
begin␉ann→Syntax 1
begin ann bob→Syntax 1
dump →Syntax 1
 dump→Syntax 1
dump x→Syntax 1
change ann→Syntax 1
change ann →Syntax 1
change ann create→Syntax 1
change ann create x→Syntax 1
change ann create x →Syntax 1
change ann create  x Book→Syntax 1
change ann create x Book →Syntax 1
change ann create x Book 7→Syntax 1
change ann delete x y→Syntax 1
change ann set x pages→Syntax 1
change ann set x pages →Syntax 1
change ann set x pages  5→Syntax 1
change ann unset x pages 5→Syntax 1
change ann link a books→Syntax 1
change ann unlink a books x y→Syntax 1
change ann move x a→Syntax 1
change ann  delete x→Syntax 1
fire main→Syntax 1
fire main 1 1→Syntax 1
fire main 1 →Syntax 1
swap main→Syntax 1
swap main fixed →Syntax 1
matches a b→Syntax 1
activations→Syntax 1
group paged→Syntax 1
group paged 2→Syntax 1
group paged 2 →Syntax 1
group paged  2 5→Syntax 1
group paged 2  5 →Group paged 2 < 5 >;
group paged 2 (x, "y")→Group paged 2 <(x, "y")>;
group paged 2 é→Group paged 2 <é>;"#;

// ---- words and names

const WORDS: &str = r#"Begin ann→Syntax 1
begins ann→Syntax 1
DUMP→Syntax 1
show→Syntax 1
change ann rename x y→Syntax 1
change ann Delete x→Syntax 1
swap main first→Syntax 1
swap main Fixed→Syntax 1
begin _→Begin _;
begin _7→Begin _7;
begin a.b-c_D9→Begin a.b-c_D9;
begin 7a→Syntax 1
begin .a→Syntax 1
begin -a→Syntax 1
begin a!→Syntax 1
begin é→Syntax 1
begin "ann"→Syntax 1
change a.b delete x-y→Change a.b Delete x-y;
change 1 delete x→Syntax 1
change ann delete 1→Syntax 1
change ann create x-y Book→Change ann Create x-y Book;
change ann create x B-k→Syntax 1
change ann set x pa.ges 5→Syntax 1
change ann set x! pages 5→Syntax 1
change ann link a bo-oks x→Syntax 1
change ann link a books x.y→Change ann Link a books x.y;
change ann link a books 9→Syntax 1
change ann unlink a.b books x→Change ann Unlink a.b books x;
change ann unlink a books.x x→Syntax 1
change ann move x.y a-b books→Change ann Move x.y a-b books;
change ann move x a bo.oks→Syntax 1
fire ma-in 1→Syntax 1
swap ma.in fixed→Syntax 1
matches _→Matches _;
matches find→Matches find;
matches a.b→Syntax 1
matches 1a→Syntax 1
activations a-b→Syntax 1
group pa.ged 2 5→Syntax 1"#;

// ---- numbers

const NUMBERS: &str = r#"fire main 0→Fire main 0;
fire main 100000→Fire main 100000;
fire main 100001→Syntax 1
fire main 007→Fire main 7;
fire main 00000000000000000000000100000→Fire main 100000;
fire main 18446744073709551616→Syntax 1
fire main 18446744073709551617→Syntax 1
fire main 4294967296→Syntax 1
fire main -0→Syntax 1
fire main -1→Syntax 1
fire main +1→Syntax 1
fire main 1.0→Syntax 1
fire main 1a→Syntax 1
fire main x→Syntax 1
fire main 0x1→Syntax 1
group paged 0 x→Group paged 0 <x>;
group paged 15 x→Group paged 15 <x>;
group paged 16 x→Syntax 1
group paged 015 x→Group paged 15 <x>;
group paged 65537 x→Syntax 1
group paged -1 x→Syntax 1
group paged x y→Syntax 1"#;

#[test]
fn lines_spell_their_commands_or_none(rt: HostRuntime) -> Result<(), Fail> {
    give_all(&rt, rt.alloc(), COMMANDS)?;
    give_all(&rt, rt.alloc(), SPACES)?;
    give_all(&rt, rt.alloc(), WORDS)?;
    give_all(&rt, rt.alloc(), NUMBERS)
}

// ---- names of objects and clients have 64 bytes at most, and identifiers any number

// What a line gives in which a name has so many bytes.
fn with_name(alloc: Global, before: &str, bytes: u32) -> Result<String, Fail> {
    let mut text = String::from_str(alloc, before)?;
    text.push_str(repeated(alloc, "n", bytes)?.as_str())?;
    count(alloc, text.as_str())
}

#[test]
fn names_of_objects_and_clients_are_short(rt: HostRuntime) -> Result<(), Fail> {
    for (before, bytes, given) in [
        ("begin ", 64, "1"),
        ("begin ", 65, "Syntax 1"),
        ("change ann delete ", 64, "1"),
        ("change ann delete ", 65, "Syntax 1"),
        ("change ann create x ", 65, "1"),
        ("matches ", 65, "1"),
        ("matches ", 1_000, "1"),
    ] {
        assert_eq!(rt;
            with_name(rt.alloc(), before, bytes)?.as_str(),
            given,
            "{before} {bytes}"
        );
    }
    Ok(())
}
