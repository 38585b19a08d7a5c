// Query files over models, each with its match lists or its fault.
use super::{FIVE_THINGS, NODES, TWO_NODES, ZOO, matched};
use std::alloc::Global;
use std::process::Abort;
use std::test::Fail;
use vt_cli::{Ending, Role};

// A query file over a model has these match lists.
fn assert_lists(
    rt: &impl Abort,
    alloc: Global,
    meta: &str,
    model: &str,
    queries: &str,
    lists: &str,
) -> Result<(), Fail> {
    let (ending, text) = matched(alloc, meta, model, queries.as_bytes())?;
    assert_eq!(rt; ending, Ending::Done, "{queries}");
    assert_eq!(rt; ending.status(), 0, "{queries}");
    assert_eq!(rt; text.as_str(), lists, "{queries}");
    Ok(())
}

#[test]
fn a_query_file_has_its_match_lists(rt: HostRuntime) -> Result<(), Fail> {
    let alloc = rt.alloc();
    for (queries, lists) in [
        // Lists stand in the order of the file, and a private pattern has none.
        (
            concat!(
                "pattern edge(a: Node, b: Node) { Node.to(a, b); } ",
                "pattern self(n) { Node.to(n, n); Node.w(n, _); } ",
                "private pattern out(n: Node) { Node.to(n, _); }",
            ),
            "pattern edge 2\n  (p, p)\n  (p, q)\npattern self 1\n  (p)\n",
        ),
        ("", ""),
        (" // nothing\n", ""),
        ("private pattern p(n) { Node(n); }", ""),
    ] {
        assert_lists(&rt, alloc, NODES, TWO_NODES, queries, lists)?;
    }
    for (queries, lists) in [
        // Objects of a class are those of the classes below it too.
        (
            "pattern p(x) { Thing(x); }",
            "pattern p 5\n  (a)\n  (b)\n  (c)\n  (d)\n  (e)\n",
        ),
        ("pattern p(x: Dog) { }", "pattern p 1\n  (c)\n"),
        // An object that leads to itself.
        ("pattern p(x) { Thing.next(x, x); }", "pattern p 1\n  (a)\n"),
        // Two references over a variable that both have.
        (
            "pattern p(x, z) { Thing.next(x, y); Thing.next(y, z); }",
            "pattern p 6\n  (a, a)\n  (a, b)\n  (a, c)\n  (b, a)\n  (c, a)\n  (c, b)\n",
        ),
        // Two objects with one number.
        (
            "pattern p(x, y) { Thing.n(x, n); Thing.n(y, n); }",
            "pattern p 7\n  (a, a)\n  (a, c)\n  (b, b)\n  (c, a)\n  (c, c)\n  (d, d)\n  (e, e)\n",
        ),
        // A parameter in two constraints. A string without a value makes no match.
        (
            "pattern p(x, n) { Thing.n(x, n); Cat.name(x, s); }",
            "pattern p 3\n  (a, 3)\n  (b, -1)\n  (e, 0)\n",
        ),
        // Without parameters there is one row, or none.
        ("pattern p() { Thing.next(x, x); }", "pattern p 1\n  ()\n"),
        ("pattern p() { }", "pattern p 1\n  ()\n"),
        ("pattern p() { Dog.next(x, x); }", "pattern p 0\n"),
        ("pattern p(x) { Dog(x); Cat(x); }", "pattern p 0\n"),
        // Each `_` is a variable of its own.
        ("pattern p() { Dog.next(_, _); }", "pattern p 1\n  ()\n"),
        (
            "pattern p(x) { Thing.next(x, _); Thing.next(_, x); }",
            "pattern p 3\n  (a)\n  (b)\n  (c)\n",
        ),
        // The row of two links is there once.
        (
            "pattern p(x) { Cat.next(x, _); }",
            "pattern p 2\n  (a)\n  (b)\n",
        ),
        // Rows ascend by their values, in the order of the parameters.
        (
            "pattern p(n, x) { Thing.n(x, n); }",
            "pattern p 5\n  (-20, d)\n  (-1, b)\n  (0, e)\n  (3, a)\n  (3, c)\n",
        ),
        (
            "pattern p(y, x) { Thing.next(x, y); }",
            "pattern p 4\n  (a, a)\n  (a, c)\n  (b, a)\n  (c, b)\n",
        ),
        // Texts ascend by bytes, and literals by their places.
        (
            "pattern p(s, x) { Cat.name(x, s); }",
            "pattern p 3\n  (\"B\", b)\n  (\"b\\\"\\n\", a)\n  (\"é\", e)\n",
        ),
        (
            "pattern p(m, x) { Cat.mood(x, m); }",
            "pattern p 4\n  (Mood::CALM, b)\n  (Mood::CALM, d)\n  (Mood::CALM, e)\n  (Mood::ANGRY, a)\n",
        ),
        (
            "pattern p(w, x) { Cat.wild(x, w); }",
            "pattern p 4\n  (false, b)\n  (false, d)\n  (false, e)\n  (true, a)\n",
        ),
        // A class has the features of the classes above it, and its own objects alone.
        (
            "pattern p(x, n) { Cat.n(x, n); } pattern q(x, n) { Dog.n(x, n); }",
            "pattern p 4\n  (a, 3)\n  (b, -1)\n  (d, -20)\n  (e, 0)\npattern q 1\n  (c, 3)\n",
        ),
        // The class before the dot is the source's, not the target's.
        (
            "pattern p(x, y) { Cat.next(x, y); }",
            "pattern p 3\n  (a, a)\n  (a, b)\n  (b, c)\n",
        ),
        (
            "pattern p(x: Dog, y: Cat) { Thing.next(x, y); }",
            "pattern p 1\n  (c, a)\n",
        ),
        // Parameters that nothing binds together.
        (
            "pattern p(y: Cat, x: Dog) { }",
            "pattern p 4\n  (a, c)\n  (b, c)\n  (d, c)\n  (e, c)\n",
        ),
        // Lists stand in the order of the file, and not of the names.
        (
            "pattern z() { Dog(_); }\nprivate pattern m() { Dog(_); }\npattern a(x) { Dog(x); }",
            "pattern z 1\n  ()\npattern a 1\n  (c)\n",
        ),
    ] {
        assert_lists(&rt, alloc, ZOO, FIVE_THINGS, queries, lists)?;
    }
    Ok(())
}

// A query file over the nodes is refused, with this fault and the line that tells it.
fn assert_refused(
    rt: &impl Abort,
    alloc: Global,
    queries: &[u8],
    code: u16,
    place: u64,
    line: &str,
) -> Result<(), Fail> {
    let (ending, text) = matched(alloc, NODES, TWO_NODES, queries)?;
    let refused = Ending::BadInput {
        file: Role::Queries,
        code,
        place,
    };
    assert_eq!(rt; ending, refused, "{queries:?}");
    assert_eq!(rt; ending.status(), 3, "{queries:?}");
    assert_eq!(rt; text.as_str(), line, "{queries:?}");
    Ok(())
}

#[test]
fn a_query_file_is_refused(rt: HostRuntime) -> Result<(), Fail> {
    let alloc = rt.alloc();
    assert_refused(&rt, alloc, b"\xff", 1, 0, "fault: queries NotText 0\n")?;
    let token = "fault: queries BadToken 1\n";
    assert_refused(&rt, alloc, b"pattern p(x: Node) { 1a; }", 2, 1, token)?;
    // A bad token is told before a form that isn't read.
    let token = "fault: queries BadToken 3\n";
    assert_refused(&rt, alloc, b"pattern p(x) { }\n\n\"x", 2, 3, token)?;
    for queries in [
        "pattern p(x: Node) { find q(x); }",
        "pattern p(x) { }",
        // No such class, no such feature, a number that is an object too, two patterns of one name.
        "pattern p(x: Zug) { }",
        "pattern p(x) { Node.zug(x, _); }",
        "pattern p(x) { Node.w(_, x); Node(x); }",
        "pattern p() { } pattern p() { }",
    ] {
        let line = "fault: queries NotBuilt 0\n";
        assert_refused(&rt, alloc, queries.as_bytes(), 90, 0, line)?;
    }
    Ok(())
}
