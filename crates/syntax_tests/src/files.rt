//! Texts with what they spell as query files, or how many lexemes are left at their fault. In a table
//! each line is a case.
use super::shown;
use std::alloc::Global;
use std::test::Fail;
use vt_base::List;
use vt_grammar::{
    Lexeme, Stop, fault_spells_nothing, one_fault, one_tree, reading_is_spelling, spells_or_fault,
};
use vt_syntax::{FileTree, balanced_is_longest, expression_is_spelled, part_goes_on, read_file};
use vt_tokens::{lexemes, tokens};

fn lexemes_of(alloc: Global, text: &str) -> Result<List<Lexeme>, Fail> {
    if text.len() >= 1_000_000 {
        return Err(Fail::new("a long text"));
    }
    let tokens = tokens(alloc, text)?;
    Ok(lexemes(alloc, text, tokens.as_slice())?)
}

// A `␊` stands for a line end.
fn outcome(alloc: Global, text: &str) -> Result<String, Fail> {
    let mut lines = String::new(alloc);
    for c in text.chars() {
        lines.push(if c == '␊' { '\n' } else { c })?;
    }
    let lexemes = lexemes_of(alloc, lines.as_str())?;
    match read_file(alloc, lexemes.as_slice()) {
        Ok(file) => shown::file(alloc, &file),
        Err(Stop::Fault(left)) => Ok(format!(in alloc; "{left} left")?),
        Err(Stop::NoMemory) => Ok(String::from_str(alloc, "no memory")?),
    }
}

// A constraint alone, as it stands in the one body of a pattern.
fn constraint_outcome(alloc: Global, constraint: &str) -> Result<String, Fail> {
    let file = format!(in alloc; "pattern p() {{ {constraint}; }}")?;
    let outcome = outcome(alloc, file.as_str())?;
    let inner = outcome.as_str().strip_prefix("pattern p() { ");
    let inner = inner.and_then(|text| text.strip_suffix("; }"));
    Ok(String::from_str(alloc, inner.unwrap_or(outcome.as_str()))?)
}

// ---- files, imports and patterns

const FILES: &str = r##"→
package a→
package a.b.c; import "d" import "é";→import d import é
import "" import ""→import  import 
pattern p() { }→pattern p() { }
import "a" pattern p() { } pattern p() { }→import a pattern p() { } pattern p() { }
pattern p(x, y : T, z:java a.b, x : int) { }→pattern p(x, y : T, z : java@1, x : int) { }
pattern p(x :␊java a) { }→pattern p(x : java@2) { }
private pattern p() { } or { } or { T(x); }→private pattern p() { } or { } or { T(x); }
@A pattern p() { }→pattern p() { }
@A @B() @C(k = {x}, "a" or [1]) private pattern p() { }→private pattern p() { }
pattern p() { T(x); T(x); U(y); }→pattern p() { T(x); T(x); U(y); }"##;

// ---- constraints

const CONSTRAINTS: &str = r##"find q()→find q()
find q(x, _, 7, -7, "a", true, false, E::L)→find q(x, _, 7, -7, "a", true, false, E::L)
find q(#, #x, x, #)→find q(#, #, x, #)
find q+(x, y)→find q@1(x, y)
find␊␊q␊* (x)→find q@4(x)
neg find q(x)→neg find q(x)
neg find q+()→neg find q@1()
check(x > 1 && y)→check@1(e)
␊check␊(x)→check@2(e)
check()→check@1(!)
check(x = 1)→check@1(!)
check(f(x)[1], {y; z})→check@1(!)
check(((x)))→check@1(e)
check(x.y == 1)→check@1(!)
T(x)→T(x)
T(_)→T(_)
T(5)→T(5)
java a(x)→java@1(x)
␊java a.b.c(E::L)→java@2(E::L)
T.f(x, y)→T.f(x, y)
T.f.g.h(_, "a")→T.f.g.h(_, "a")
T.sum.find.java(x, y)→T.sum.find.java(x, y)
x == y→x == y
x == 007→x == 7
-9223372036854775807 == x→-9223372036854775807 == x
E::L == E::true→E::L == E::true
"a" == true→"a" == true
_ == x→_ == x
x != y→x != y
false != E::find→false != E::find
E::import != _→E::import != _
x == eval(y + 1)→x == eval@1(e)
E::L == eval()→E::L == eval@1(!)
x == sum find q(y, #)→x == sum find q(y, #)
x == min find q(#)→x == min find q(#)
_ == max find q(#k)→_ == max find q(#)
x ==␊avg find q(#)→x == avg@2 find q(#)
x == count find q+()→x == count@1 find q@1()"##;

// ---- a fault in a file, an import or the head of a pattern

const FAULTS: &str = r##";→1 left
package→0 left
package;→1 left
package a.;→1 left
package a. find→1 left
package a;;→1 left
package a package b→2 left
import a→1 left
import "a" "b"→1 left
import "a";;→1 left
import "a"; package b→2 left
pattern p() { } import "a"→2 left
pattern→0 left
private→0 left
private private pattern p() { }→7 left
pattern find() { }→5 left
pattern p { }→2 left
pattern p(x→0 left
pattern p(x, ) { }→3 left
pattern p(x y) { }→4 left
pattern p(_) { }→4 left
pattern p(x : 1) { }→4 left
pattern p(x : java) { }→3 left
pattern p(x : a.b) { }→5 left
pattern p()→0 left
pattern p();→1 left
pattern p() { } or→0 left
pattern p() { } or;→1 left
pattern p() { };→1 left
pattern p() { } x→1 left
@→0 left
@A→0 left
@1 pattern p() { }→7 left
@A(→0 left
@A(] pattern p() { }→7 left
@A( pattern p() { }→0 left
@A() import "a"→2 left"##;

// ---- a fault in a constraint, behind which ` ; }` stands

const WRONG: &str = r##"→2 left
x→2 left
x = y→4 left
x == y == z→4 left
x != eval(1)→6 left
x == check(1)→6 left
eval(1) == x→8 left
x == sum q(#)→6 left
x == sum neg find q()→7 left
x == find q()→6 left
x == T(y)→5 left
5(x)→5 left
5 .f(x, y)→9 left
-x == 1→5 left
- - 1 == x→6 left
x == --1→4 left
E::L(x)→5 left
E::L.f(x, y)→9 left
E:: == x→4 left
true::L == x→6 left
T()→3 left
T(x, y)→5 left
T(find)→4 left
T.f(x)→3 left
T.f(x, y, z)→5 left
T.f == x→4 left
T.(x, y)→7 left
T.1(x, y)→8 left
sum(x)→6 left
sum.f(x, y)→10 left
java(x)→5 left
java a.b == x→4 left
java sum(x)→6 left
find find(x)→6 left
find q→2 left
find q++(x)→6 left
find q.f(x)→7 left
find q(x, )→3 left
find q(x y)→4 left
find q(#x y)→4 left
find q(-)→3 left
find q() == x→4 left
neg→2 left
neg neg find q()→7 left
neg check(x)→6 left
neg T(x)→6 left
check x→3 left
check(x])→4 left
check(x) == y→4 left
x == eval y→3 left
?→3 left"##;

#[test]
fn files_are_read_or_their_fault_is_found(rt: HostRuntime) -> Result<(), Fail> {
    let alloc = rt.alloc();
    for table in [FILES, FAULTS] {
        for line in table.lines() {
            let (text, answer) = line.split_once('→').ok_or("no answer")?;
            assert_eq!(rt; outcome(alloc, text)?.as_str(), answer, "{line}");
        }
    }
    for table in [CONSTRAINTS, WRONG] {
        for line in table.lines() {
            let (text, answer) = line.split_once('→').ok_or("no answer")?;
            assert_eq!(rt; constraint_outcome(alloc, text)?.as_str(), answer, "{line}");
        }
    }
    Ok(())
}

// ---- long files

// So many times the same text, one after the other.
fn repeated(alloc: Global, piece: &str, times: u32) -> Result<String, Fail> {
    let mut text = String::new(alloc);
    for _ in 0..times {
        text.push_str(piece)?;
    }
    Ok(text)
}

#[test]
fn long_lists_are_read(rt: HostRuntime) -> Result<(), Fail> {
    let alloc = rt.alloc();
    let mut text = repeated(alloc, "(", 20_000)?;
    text.push_str(repeated(alloc, ")", 20_000)?.as_str())?;
    let text = text.as_str();
    let check = format!(in alloc; "check({text})")?;
    assert_eq!(rt;
        constraint_outcome(alloc, check.as_str())?.as_str(),
        "check@1(!)"
    );

    let file = repeated(alloc, "pattern p() { T(x); }", 2_000)?;
    let lexemes = lexemes_of(alloc, file.as_str())?;
    let file = read_file(alloc, lexemes.as_slice())?;
    assert_eq!(rt; file.patterns.len(), 2_000);
    Ok(())
}

#[test]
fn files_have_the_laws(rt: HostRuntime) -> Result<(), Fail> {
    one_tree::<FileTree>();
    reading_is_spelling::<FileTree>();
    spells_or_fault::<FileTree>();
    one_fault::<FileTree>();
    fault_spells_nothing::<FileTree>();
    part_goes_on();
    balanced_is_longest();
    expression_is_spelled();
    Ok(())
}
