// Scripts over the library, each with its replies.
use super::runs::{HOLDS, assert_replies};
use std::test::Fail;

pub(super) const MOVED_BOOK: &str = "begin c
change c link x shelf b
commit c
begin c
change c link a sub b
change c unlink b books x
change c link b sub a
commit c
matches holds
";

const MOVED_BOOK_REPLIES: &str = "load: step 0
begin c: ok
change c: ok
commit c: step 1
  - holds(a, x)
  + holds(b, x)
begin c: ok
change c: ok
change c: ok
change c: ok
commit c: refused at 2 ContainmentCycle
matches holds: 2
  (a, y)
  (b, x)
";

const TWINS: &str = "begin c
change c create w Book
change c link x twin y
change c link z twin w
commit c
begin c
change c link x twin w
commit c
";

const TWINS_REPLIES: &str = "load: step 0
begin c: ok
change c: ok
change c: ok
change c: ok
commit c: step 1
  + tw(x, y)
  + tw(z, w)
begin c: ok
change c: ok
commit c: step 2
  - tw(x, y)
  + tw(x, w)
  - tw(z, w)
";

const BACK_AND_FORTH: &str = "begin c
change c unlink a books x
change c link a books x
change c set x pages 7
change c set x pages 5
commit c
begin c
change c set x pages 6
commit c
";

const BACK_AND_FORTH_REPLIES: &str = "load: step 0
begin c: ok
change c: ok
change c: ok
change c: ok
change c: ok
commit c: step 1
begin c: ok
change c: ok
commit c: step 2
  ~ holds(a, x)
";

const TAKEN_NAMES: &str = "begin c
change c create n Book
change c delete n
commit c
begin c
change c create n Book
commit c
begin c
change c create _9 Book
commit c
";

const TAKEN_NAMES_REPLIES: &str = "load: step 0
begin c: ok
change c: ok
change c: ok
commit c: step 1
begin c: ok
change c: ok
commit c: refused at 0 NameTaken
begin c: ok
change c: ok
commit c: refused at 0 ReservedName
";

const REFUSED_CALLS: &str = "begin c
begin c
change d delete x
commit d
matches none
abort c
abort c
";

const REFUSED_CALLS_REPLIES: &str = "load: step 0
begin c: ok
begin c: refused AlreadyOpen
change d: refused NotOpen
commit d: refused NotOpen
matches none: refused UnknownPattern
abort c: ok
abort c: refused NotOpen
";

// Two clients at once; a refused transaction, and one that is dropped, change nothing.
const TWO_CLIENTS: &str = "begin c
begin d
change c delete x
change d set x pages 1
change d set y pages 1
commit c
commit d
commit d
begin d
change d delete y
abort d
matches holds
begin d
commit d
";

const TWO_CLIENTS_REPLIES: &str = "load: step 0
begin c: ok
begin d: ok
change c: ok
change d: ok
change d: ok
commit c: step 1
  - holds(a, x)
commit d: refused at 0 Gone
commit d: refused NotOpen
begin d: ok
change d: ok
abort d: ok
matches holds: 1
  (a, y)
begin d: ok
commit d: step 2
";

const DUMPED: &str = "// Blank lines and remarks have no reply.

begin c
change c delete a
commit c
dump
";

// The shelf goes with the books in it.
const DUMPED_REPLIES: &str = concat!(
    "load: step 0
begin c: ok
change c: ok
commit c: step 1
  - holds(a, x)
  - holds(a, y)
",
    r#"{"format":1,"next":5,"objects":[{"attributes":{},"class":"Shelf","links":{},"name":"b","number":1},"#,
    r#"{"attributes":{"pages":0},"class":"Book","links":{},"name":"z","number":4}]}"#,
    "\n",
);

#[test]
fn a_script_has_its_replies(rt: HostRuntime) -> Result<(), Fail> {
    let alloc = rt.alloc();
    let twins = "pattern tw(p, q) { Book.twin(p, q); }";
    for (queries, script, replies) in [
        (HOLDS, MOVED_BOOK, MOVED_BOOK_REPLIES),
        (twins, TWINS, TWINS_REPLIES),
        (HOLDS, BACK_AND_FORTH, BACK_AND_FORTH_REPLIES),
        (HOLDS, TAKEN_NAMES, TAKEN_NAMES_REPLIES),
        (HOLDS, REFUSED_CALLS, REFUSED_CALLS_REPLIES),
        (HOLDS, TWO_CLIENTS, TWO_CLIENTS_REPLIES),
        (HOLDS, DUMPED, DUMPED_REPLIES),
        (HOLDS, "", "load: step 0\n"),
        (HOLDS, "\n// nothing\n", "load: step 0\n"),
        (
            "",
            "matches holds",
            "load: step 0\nmatches holds: refused UnknownPattern\n",
        ),
    ] {
        assert_replies(&rt, alloc, queries, script, replies)?;
    }
    Ok(())
}

// Patterns stand in the order of the file, and the tuples of each in one order.
const PATTERNS: &str = concat!(
    "pattern pages(b, n) { Book.pages(b, n); } ",
    "private pattern hidden(b) { Book(b); } ",
    "pattern some() { Shelf.books(_, _); } ",
    "pattern book(b) { Book(b); }",
);

const PATTERNS_SCRIPT: &str = "matches hidden
matches some
begin c
change c set x pages 4
change c set y title \"Y\"
change c delete z
change c unlink a books x
change c unlink a books y
change c create k Book
commit c
matches some
matches pages
";

const PATTERNS_REPLIES: &str = "load: step 0
matches hidden: refused UnknownPattern
matches some: 1
  ()
begin c: ok
change c: ok
change c: ok
change c: ok
change c: ok
change c: ok
change c: ok
commit c: step 1
  + pages(x, 4)
  - pages(x, 5)
  ~ pages(y, 5)
  - pages(z, 0)
  + pages(k, 0)
  - some()
  ~ book(x)
  ~ book(y)
  - book(z)
  + book(k)
matches some: 0
matches pages: 3
  (x, 4)
  (y, 5)
  (k, 0)
";

#[test]
fn events_stand_by_pattern_and_tuple(rt: HostRuntime) -> Result<(), Fail> {
    assert_replies(&rt, rt.alloc(), PATTERNS, PATTERNS_SCRIPT, PATTERNS_REPLIES)
}
