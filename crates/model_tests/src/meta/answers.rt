//! What small metamodels answer.
use std::alloc::Global;
use std::test::Fail;
use vt_base::{ClassId, Names, ObjId};
use vt_meta::{Feature, Metamodel, read_meta};

// Two classes, each with a feature `w` and a feature `to`.
const RAIL: &str = r#"{"format":1,"uri":"http://rail","classes":[
    {"name":"Node","attributes":[{"name":"w","kind":"int"},{"name":"h","kind":"int"}],
        "references":[{"name":"to","target":"Node","many":true}]},
    {"name":"Track","attributes":[{"name":"w","kind":"int"}],
        "references":[{"name":"from","target":"Node","many":true},{"name":"to","target":"Track","many":true}]}]}"#;

// Each class; each attribute with its class; each reference with its class, its target, whether it
// is many and a containment; for each class and a number that no class has, which of these it is or
// is below; what each name stands for, as a class, as an enum, and in each class.
const RAIL_ANSWERS: &str = r#"Node false
Track false
w 0 Int
h 0 Int
w 1 Int
to 0 0 true false None
from 1 0 true false None
to 1 1 true false None
100
010
001
w None None a0 a2 -
h None None a1 - -
to None None r0 r2 -
from None None - r1 -
node None None - - -
Node Some(ClassId(0)) None - - -
"#;

// Two enums, and classes of which some are below others: a book is an item, and both an item and a
// shelf have a name.
const LIBRARY: &str = r#"{"format":1,"enums":[
    {"name":"Genre","literals":["Novel","Poem"]},{"name":"Binding","literals":["Paper","Novel","Genre"]}],"classes":[
    {"name":"Named","abstract":true,"attributes":[{"name":"name","kind":"string"}]},
    {"name":"Shelf","supers":["Named"],
        "references":[{"name":"books","target":"Book","many":true,"containment":true,"opposite":"shelf"}]},
    {"name":"Book","supers":["Item"],"attributes":[{"name":"genre","kind":"Genre"},{"name":"lent","kind":"boolean"}],
        "references":[{"name":"shelf","target":"Shelf","opposite":"books"},
            {"name":"next","target":"Book","opposite":"prior"},{"name":"prior","target":"Book","opposite":"next"}]},
    {"name":"Item","supers":["Named"],"attributes":[{"name":"pages","kind":"int"}]}]}"#;

const LIBRARY_ANSWERS: &str = r#"Named true
Shelf false
Book false
Item false
name 0 Text
genre 2 Enum(0)
lent 2 Bool
pages 3 Int
books 1 2 true true Some(RefId(1))
shelf 2 1 false false Some(RefId(0))
next 2 2 false false Some(RefId(3))
prior 2 2 false false Some(RefId(2))
10000
11000
10110
10010
00001
name None None a0 a0 a0 a0 -
pages None None - - a3 a3 -
genre None None - - a1 - -
prior None None - - r3 - -
books None None - r0 - - -
Name None None - - - - -
Genre None Some(0) - - - - -
Binding None Some(1) - - - - -
Book Some(ClassId(2)) None - - - - -
string None None - - - - -
"#;

// The lists of a metamodel, one item a line.
fn add_lists(alloc: Global, text: &mut String, meta: &Metamodel) -> Result<(), Fail> {
    for c in 0..meta.class_count() {
        let info = meta.class(ClassId(c)).ok_or("a class")?;
        text.push_str(format!(in alloc;
            "{} {}\n",
            info.name.as_str(),
            info.is_abstract
        )?.as_str())?;
    }
    for info in meta.attributes() {
        text.push_str(format!(in alloc;
            "{} {} {:?}\n",
            info.name.as_str(),
            info.class.0,
            info.kind
        )?.as_str())?;
    }
    for info in meta.references() {
        text.push_str(format!(in alloc;
            "{} {} {} {} {} {:?}\n",
            info.name.as_str(),
            info.class.0,
            info.target.0,
            info.many,
            info.containment,
            info.opposite
        )?
        .as_str())?;
    }
    Ok(())
}

// Which of so many numbers of classes are which.
fn add_marks(text: &mut String, meta: &Metamodel, count: u16) -> Result<(), Fail> {
    for c in 0..count {
        for d in 0..count {
            text.push_str(if meta.isa(ClassId(c), ClassId(d)) {
                "1"
            } else {
                "0"
            })?;
        }
        text.push_str("\n")?;
    }
    Ok(())
}

// What a name stands for.
fn add_name(
    alloc: Global,
    text: &mut String,
    meta: &Metamodel,
    name: &str,
    count: u16,
) -> Result<(), Fail> {
    text.push_str(format!(in alloc;
        "{name} {:?} {:?}",
        meta.class_named(name),
        meta.enum_named(name)
    )?
    .as_str())?;
    for c in 0..count {
        let found = match meta.feature(ClassId(c), name) {
            Some(Feature::Attr(a)) => format!(in alloc; " a{}", a.0)?,
            Some(Feature::Ref(r)) => format!(in alloc; " r{}", r.0)?,
            None => String::from_str(alloc, " -")?,
        };
        text.push_str(found.as_str())?;
    }
    text.push_str("\n")?;
    Ok(())
}

// All that a metamodel answers of so many numbers of classes.
fn told(alloc: Global, meta: &Metamodel, names: &str, count: u16) -> Result<String, Fail> {
    let mut text = String::new(alloc);
    add_lists(alloc, &mut text, meta)?;
    add_marks(&mut text, meta, count)?;
    for name in names.lines() {
        add_name(alloc, &mut text, meta, name, count)?;
    }
    Ok(text)
}

#[test]
fn a_metamodel_answers_by_number_and_by_name(rt: HostRuntime) -> Result<(), Fail> {
    let alloc = rt.alloc();
    let first = read_meta(alloc, RAIL.as_bytes())?;
    let rail = first.share();
    drop(first);
    assert_eq!(rt; rail.uri(), "http://rail");
    assert_eq!(rt; (rail.attr_count(), rail.ref_count()), (3, 3));
    assert_eq!(rt;
        told(alloc, &rail, "w\nh\nto\nfrom\nnode\nNode", 3)?.as_str(),
        RAIL_ANSWERS
    );
    let library = read_meta(alloc, LIBRARY.as_bytes())?;
    assert_eq!(rt; library.uri(), "");
    let names = "name\npages\ngenre\nprior\nbooks\nName\nGenre\nBinding\nBook\nstring";
    assert_eq!(rt; told(alloc, &library, names, 5)?.as_str(), LIBRARY_ANSWERS);
    Ok(())
}

#[test]
fn literals_have_names_and_numbers(rt: HostRuntime) -> Result<(), Fail> {
    let meta = read_meta(rt.alloc(), LIBRARY.as_bytes())?;
    for (info, literal, numbers) in [
        ("Genre", "Poem", Some((0, 1))),
        ("Binding", "Novel", Some((1, 1))),
        ("Binding", "Genre", Some((1, 2))),
        ("Genre", "Paper", None),
        ("Novel", "Novel", None),
    ] {
        assert_eq!(rt;
            meta.literal_named(info, literal),
            numbers,
            "{info} {literal}"
        );
    }
    let (info, literal) = meta.literal_text(1, 2).ok_or("literal 2 of enum 1")?;
    assert_eq!(rt; (info.as_str(), literal.as_str()), ("Binding", "Genre"));
    assert!(rt; meta.literal_text(0, 2).is_none() && meta.literal_text(2, 0).is_none());
    assert!(rt; meta.object_text(ObjId(0)).is_none());
    Ok(())
}
