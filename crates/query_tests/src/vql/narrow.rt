//! Narrow files, each with its program.
use super::answer_all;
use std::test::Fail;

// ---- constraints name classes and features, and a feature may be named as a keyword

const NAMES: &str = r#"pattern edge(x, y) { Node.to(x, y); }→edge x y | 2: ref 0.0 0 1;␊
pattern back(y, x) { Node.to(x, y); }→back y x | 2: ref 0.0 1 0;␊
pattern loop(x) { Node.to(x, x); }→loop x | 1: ref 0.0 0 0;␊
pattern track(t) { Track(t); }→track t | 1: is 1 0;␊
pattern rail(t, u, n) { Track.to(t, u); Track.from(t, n); }→rail t u n | 3: ref 1.2 0 1; ref 1.1 0 2;␊
pattern weights(x, v, t, w) { Node.w(x, v); Track.w(t, w); }→weights x v t w | 4: attr 0.0 0 1; attr 1.2 2 3;␊
pattern case(x, X) { Node.to(x, X); }→case x X | 2: ref 0.0 0 1;␊
pattern named(Node) { Node(Node); }→named Node | 1: is 0 0;␊
pattern keyword(x, y) { Node.find(x, y); }→keyword x y | 2: attr 0.1 0 1;␊"#;

// ---- variables are numbered where they first stand

const VARIABLES: &str =
    r#"pattern path(x, z) { Node.to(x, y); Node.to(y, z); }→path x z | 3: ref 0.0 0 2; ref 0.0 2 1;␊
pattern same(x, y) { Node.w(x, v); Node.w(y, v); }→same x y | 3: attr 0.0 0 2; attr 0.0 1 2;␊
pattern loose(x) { Node.to(x, _); Node.w(x, _); Node.to(_, x); }→loose x | 4: ref 0.0 0 1; attr 0.0 0 2; ref 0.0 3 0;␊
pattern any() { Node.to(_, _); }→any | 2: ref 0.0 0 1;␊
pattern later(x) { Node.to(b, a); Node.to(a, x); Track.from(_, b); }→later x | 4: ref 0.0 1 2; ref 0.0 2 0; ref 1.1 3 1;␊"#;

// ---- declared types come first

const TYPES: &str = r#"pattern node(x : Node) { }→node x:0 | 1: is 0 0;␊
pattern typed(v, x : Node, t:Track) { Node.w(x, v); Track.from(t, x); }→typed v x:0 t:1 | 3: is 0 1; is 1 2; attr 0.0 1 0; ref 1.1 2 1;␊
pattern both(x : Node) { Track(x); }→both x:0 | 1: is 0 0; is 1 0;␊"#;

// ---- a file has any number of patterns

const PATTERNS: &str = r#"→
pattern none() { }→none | 0:␊
pattern a(x) { Node(x); } private pattern b(x) { Track(x); } pattern c() { }→a x | 1: is 0 0;␊private b x | 1: is 1 0;␊c | 0:␊"#;

// ---- what stands between tokens means nothing

const BETWEEN: &str = r#"// nothing→
 ␉␍␊/* nothing␊ */→
// café␍␊pattern/**/a(x)␍␊{␊␉Node/* to␊ */(x)␊;}␊// end→a x | 1: is 0 0;␊
pattern a(x){Node(x);}→a x | 1: is 0 0;␊"#;

#[test]
fn narrow_files_make_their_programs(rt: HostRuntime) -> Result<(), Fail> {
    for table in [NAMES, VARIABLES, TYPES, PATTERNS, BETWEEN] {
        answer_all(&rt, rt.alloc(), table)?;
    }
    Ok(())
}
