//! Files that make no program, each with its fault.
use super::{answer_all, outcome};
use std::test::Fail;

// ---- only text is looked into

const NO_TEXTS: [&[u8]; 3] = [b"pattern a() { }\xff", b"// \xc3", b"1a \xed\xa0\x80"];

// ---- the first bad token is told by its line

const BAD_TOKENS: &str = r#"1a→BadToken 1
pattern a() { }␍␊$→BadToken 2
/* one␊two */ pattern é() { }→BadToken 2
pattern a() {␊/* one␊two */␊1a $ }→BadToken 4
package a␊import b␊"open→BadToken 3
pattern a(␊/* open␊␊→BadToken 2"#;

// ---- names are known and differ

const NAMES: &str = r#"pattern p(x) { Nod(x); }
pattern p(x : Nod) { Node(x); }
pattern p(x) { Nod.to(x, x); }
pattern p(x) { node(x); }
pattern p(x : int) { Node.w(_, x); }
pattern p(x) { Node.w(_, x); int(x); }
pattern p(x) { Node.from(x, x); }
pattern p(x) { Node.o(x, x); }
pattern p() { } pattern p() { }
pattern p() { } pattern q() { } private pattern p() { }
pattern p(x, x) { Node(x); }
pattern p(x, y, x : Node) { Node.to(x, y); }"#;

// ---- each variable has one kind

const KINDS: &str = r#"pattern p(x) { }
pattern p(x, y) { Node(x); }
pattern p(x : Node, y) { }
pattern p(x) { Node.w(x, x); }
pattern p(x) { Node.w(x, v); Node(v); }
pattern p(x) { Track(v); Node.w(x, v); }
pattern p(x : Node, v : Node) { Node.w(x, v); }
pattern p(x) { Node.w(x, v); Node.to(v, x); }"#;

// ---- other forms

const FORMS: &str = r#"package a
import "http://rail"
package a pattern p() { }
import "http://rail" pattern p() { }
@Slow pattern p() { }
pattern p(x) { Node(x); } or { Track(x); }
pattern p(x) { Node(x); } pattern q(x) { find p(x); }
pattern p(x) { Node(x); } pattern q(x) { Node(x); neg find p(x); }
pattern p(x) { Node(x); check(1 < 2); }
pattern p(x, y) { Node.to(x, y); x == y; }
pattern p(x, y) { Node.to(x, y); x != y; }
pattern p(x, v) { Node(x); v == eval(1); }
pattern p(x, y) { Node.to.to(x, y); }
pattern p(x) { Node.w(x, 5); }
pattern p(x) { Node(5); }
pattern p(in x) { Node(x); }"#;

// ---- a file is spelled to its end

const ENDS: &str = r#"pattern
pattern p
pattern p(x) { Node(x) }
pattern p(x) { Node(x);
pattern p(x) { Node(x); } x
pattern p(x) { Node(x); };
pattern p(x) Node(x);
pattern p(x,) { Node(x); }
pattern p(, x) { Node(x); }
pattern p(x :) { Node(x); }
pattern p(x y) { Node.to(x, y); }
pattern p(x) { ; }
pattern p(x) { Node(x, x); }
pattern p(x) { Node.to(x); }
pattern p(x) { Node(); }
pattern p(_) { Node(_); }
pattern find() { }
pattern p(find) { Node(find); }
private private pattern p() { }
private
p(x) { Node(x); }"#;

#[test]
fn other_files_have_their_first_fault(rt: HostRuntime) -> Result<(), Fail> {
    for bytes in NO_TEXTS {
        assert_eq!(rt; outcome(rt.alloc(), bytes)?.as_str(), "NotText 0");
    }
    answer_all(&rt, rt.alloc(), BAD_TOKENS)?;
    for table in [NAMES, KINDS, FORMS, ENDS] {
        for text in table.lines() {
            assert_eq!(rt;
                outcome(rt.alloc(), text.as_bytes())?.as_str(),
                "NotBuilt 0",
                "{text}"
            );
        }
    }
    Ok(())
}
