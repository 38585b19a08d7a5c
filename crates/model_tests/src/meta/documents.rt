//! Documents with the answer that each must give.
use std::alloc::Global;
use std::test::Fail;
use vt_meta::read_meta;

// An answer and the document that gives it. Other lines say what is shown. Most documents that are
// refused have a fault of a later number too.
const CASES: &str = r#"# Only JSON is looked into.
NotJson { place: 0 }→
NotJson { place: 0 }→{
NotJson { place: 0 }→{"format":1,"classes":[]
NotJson { place: 0 }→{"format":1,"classes":[],}
NotJson { place: 0 }→{"format":1,"classes":[{"name":"A"},]}
NotJson { place: 0 }→{"format":1,"classes":[]}x
NotJson { place: 0 }→{"format":1,"classes":[]}{}
NotJson { place: 0 }→{'format':1,"classes":[]}
NotJson { place: 0 }→{"format":01,"classes":[]}
NotJson { place: 0 }→{"format":1,"classes":[],"uri":"\ud800"}
NotJson { place: 0 }→{"classes":[},"format":1,"classes":[]}
# A document has its keys.
BadShape { place: 0 }→[]
BadShape { place: 0 }→null
BadShape { place: 0 }→{}
BadShape { place: 0 }→{"classes":[]}
BadShape { place: 0 }→{"format":1}
BadShape { place: 0 }→{"format":2,"classes":[]}
BadShape { place: 0 }→{"format":1.0,"classes":[]}
BadShape { place: 0 }→{"format":"1","classes":[]}
BadShape { place: 0 }→{"format":1,"classes":[],"version":1}
BadShape { place: 0 }→{"format":1,"classes":[],"uri":7}
BadShape { place: 0 }→{"format":1,"classes":[],"uri":null}
BadShape { place: 0 }→{"format":1,"classes":{}}
BadShape { place: 0 }→{"format":1,"classes":[7]}
BadShape { place: 0 }→{"format":1,"classes":[],"enums":null}
BadShape { place: 0 }→{"format":1,"classes":[],"enums":[{"name":"E","literals":[]}]}
BadShape { place: 0 }→{"format":1,"classes":[],"enums":[{"name":"E"}]}
BadShape { place: 0 }→{"format":1,"classes":[],"enums":[{"name":"E","literals":["A-B"]}]}
BadShape { place: 0 }→{"format":1,"classes":[],"enums":[{"name":"E","literals":["A"],"base":1}]}
read→{"format":1,"classes":[],"enums":[{"name":"E","literals":["A"]}]}
read→{"format":1,"classes":[],"enums":[]}
read→{"format":1,"classes":[]}
read→{"\u0066ormat":1,"classes":[]}
read→{"format":2,"classes":7,"format":1,"classes":[]}
read→{"format":2,"\u0066ormat":1,"classes":[]}
BadShape { place: 0 }→{"format":1,"format":2,"classes":[]}
# A class has its keys.
read→{"format":1,"classes":[{"name":"A"}]}
read→{"format":1,"classes":[{"name":"_"},{"name":"a0_Z"}]}
read→{"format":1,"classes":[{"name":"A","abstract":true,"supers":[],"attributes":[],"references":[]}]}
read→{"format":1,"classes":[{"references":[],"attributes":[],"name":"A"}]}
BadShape { place: 0 }→{"format":1,"classes":[{}]}
BadShape { place: 0 }→{"format":1,"classes":[{"name":""}]}
BadShape { place: 0 }→{"format":1,"classes":[{"name":"0"}]}
BadShape { place: 0 }→{"format":1,"classes":[{"name":"a.b"}]}
BadShape { place: 0 }→{"format":1,"classes":[{"name":"é"}]}
BadShape { place: 0 }→{"format":1,"classes":[{"name":7}]}
BadShape { place: 0 }→{"format":1,"classes":[{"name":"A","abstract":0}]}
BadShape { place: 0 }→{"format":1,"classes":[{"name":"A","supers":[""]}]}
BadShape { place: 0 }→{"format":1,"classes":[{"name":"A","attributes":{}}]}
BadShape { place: 0 }→{"format":1,"classes":[{"name":"A","features":[]}]}
# The shape is asked first, over the whole document.
BadShape { place: 0 }→{"format":1,"classes":[{"name":"int"},{"name":"0"}]}
# A feature has its keys.
read→{"format":1,"classes":[{"name":"A","attributes":[{"name":"w","kind":"int"}]}]}
BadShape { place: 0 }→{"format":1,"classes":[{"name":"A","attributes":[{"name":"w","kind":7}]}]}
BadShape { place: 0 }→{"format":1,"classes":[{"name":"A","attributes":[{"name":"w"}]}]}
BadShape { place: 0 }→{"format":1,"classes":[{"name":"A","attributes":[{"kind":"int"}]}]}
BadShape { place: 0 }→{"format":1,"classes":[{"name":"A","attributes":[{"name":"w","kind":"int","many":true}]}]}
read→{"format":1,"classes":[{"name":"A","references":[{"name":"r","target":"A"}]}]}
read→{"format":1,"classes":[{"name":"A","references":[{"name":"r","target":"A","many":true,"containment":true}]}]}
BadShape { place: 0 }→{"format":1,"classes":[{"name":"A","references":[{"name":"r","target":"A","opposite":null}]}]}
BadShape { place: 0 }→{"format":1,"classes":[{"name":"A","references":[{"name":"r","many":true}]}]}
BadShape { place: 0 }→{"format":1,"classes":[{"name":"A","references":[{"target":"A","many":true}]}]}
BadShape { place: 0 }→{"format":1,"classes":[{"name":"A","references":[{"name":"r","target":"A","many":1}]}]}
BadShape { place: 0 }→{"format":1,"classes":[{"name":"A","references":[{"name":"r","target":"A","kind":"int"}]}]}
# A name has 64 bytes at most.
read→{"format":1,"classes":[{"name":"abcdefghijklmnopqrstuvwxyz_0123456789_ABCDEFGHIJKLMNOPQRSTUVWXYZ"}]}
BadShape { place: 0 }→{"format":1,"classes":[{"name":"aabcdefghijklmnopqrstuvwxyz_0123456789_ABCDEFGHIJKLMNOPQRSTUVWXYZ"}]}
# An enum has the name of a kind or of an earlier enum, or two equal literals.
DuplicateName { place: 0 }→{"format":1,"enums":[{"name":"int","literals":["a"]}],"classes":[{"name":"Last","supers":["Nothing"]}]}
DuplicateName { place: 2 }→{"format":1,"enums":[{"name":"E","literals":["a"]},{"name":"F","literals":["a"]},{"name":"E","literals":["b"]}],"classes":[{"name":"Last","supers":["Nothing"]}]}
DuplicateName { place: 1 }→{"format":1,"enums":[{"name":"E","literals":["a"]},{"name":"F","literals":["a","b","a"]}],"classes":[{"name":"Last","supers":["Nothing"]}]}
# A class has the name of a kind, of an enum or of an earlier class.
DuplicateName { place: 1 }→{"format":1,"enums":[],"classes":[{"name":"A"},{"name":"boolean"},{"name":"Last","supers":["Nothing"]}]}
DuplicateName { place: 2 }→{"format":1,"enums":[{"name":"E","literals":["a"]}],"classes":[{"name":"A"},{"name":"string"},{"name":"Last","supers":["Nothing"]}]}
DuplicateName { place: 3 }→{"format":1,"enums":[{"name":"E","literals":["a"]},{"name":"F","literals":["a"]}],"classes":[{"name":"A"},{"name":"F"},{"name":"Last","supers":["Nothing"]}]}
DuplicateName { place: 2 }→{"format":1,"enums":[],"classes":[{"name":"A"},{"name":"B"},{"name":"A"},{"name":"Last","supers":["Nothing"]}]}
# A class declares two features of one name.
DuplicateName { place: 1 }→{"format":1,"enums":[{"name":"E","literals":["a"]}],"classes":[{"name":"A","attributes":[{"name":"w","kind":"int"},{"name":"w","kind":"E"}]},{"name":"Last","supers":["Nothing"]}]}
DuplicateName { place: 1 }→{"format":1,"enums":[],"classes":[{"name":"A"},{"name":"B","references":[{"name":"r","target":"A"},{"name":"r","target":"B"}]},{"name":"Last","supers":["Nothing"]}]}
DuplicateName { place: 0 }→{"format":1,"enums":[],"classes":[{"name":"A","attributes":[{"name":"w","kind":"int"}],"references":[{"name":"w","target":"A"}]},{"name":"Last","supers":["Nothing"]}]}
# The first of several places, enums before classes.
DuplicateName { place: 1 }→{"format":1,"enums":[{"name":"E","literals":["a"]},{"name":"F","literals":["a","a"]},{"name":"E","literals":["a"]}],"classes":[{"name":"E"},{"name":"Last","supers":["Nothing"]}]}
DuplicateName { place: 1 }→{"format":1,"enums":[],"classes":[{"name":"A"},{"name":"A"},{"name":"int"},{"name":"Last","supers":["Nothing"]}]}
# A type is there.
# A supertype that is nothing, an enum or a kind.
UnknownType { place: 2 }→{"format":1,"enums":[{"name":"E","literals":["a"]}],"classes":[{"name":"A"},{"name":"B","supers":["A","Z"]},{"name":"Last","supers":["Last"]}]}
UnknownType { place: 1 }→{"format":1,"enums":[{"name":"E","literals":["a"]}],"classes":[{"name":"A","supers":["E"]},{"name":"Last","supers":["Last"]}]}
UnknownType { place: 1 }→{"format":1,"enums":[{"name":"E","literals":["a"]}],"classes":[{"name":"A","supers":["int"]},{"name":"Last","supers":["Last"]}]}
# A kind that is nothing, or a class.
UnknownType { place: 1 }→{"format":1,"enums":[{"name":"E","literals":["a"]}],"classes":[{"name":"A","attributes":[{"name":"w","kind":""}]},{"name":"Last","supers":["Last"]}]}
UnknownType { place: 1 }→{"format":1,"enums":[{"name":"E","literals":["a"]}],"classes":[{"name":"A","attributes":[{"name":"w","kind":"Int"}]},{"name":"Last","supers":["Last"]}]}
UnknownType { place: 2 }→{"format":1,"enums":[{"name":"E","literals":["a"]}],"classes":[{"name":"A"},{"name":"B","attributes":[{"name":"v","kind":"E"},{"name":"w","kind":"A"}]},{"name":"Last","supers":["Last"]}]}
# A target that is nothing, an enum or a kind.
UnknownType { place: 1 }→{"format":1,"enums":[{"name":"E","literals":["a"]}],"classes":[{"name":"A","references":[{"name":"r","target":""}]},{"name":"Last","supers":["Last"]}]}
UnknownType { place: 1 }→{"format":1,"enums":[{"name":"E","literals":["a"]}],"classes":[{"name":"A","references":[{"name":"q","target":"A"},{"name":"r","target":"a"}]},{"name":"Last","supers":["Last"]}]}
UnknownType { place: 2 }→{"format":1,"enums":[{"name":"E","literals":["a"]}],"classes":[{"name":"A"},{"name":"B","references":[{"name":"r","target":"E"}]},{"name":"Last","supers":["Last"]}]}
UnknownType { place: 1 }→{"format":1,"enums":[{"name":"E","literals":["a"]}],"classes":[{"name":"A","references":[{"name":"r","target":"int"}]},{"name":"Last","supers":["Last"]}]}
# The first of several places.
UnknownType { place: 1 }→{"format":1,"enums":[{"name":"E","literals":["a"]}],"classes":[{"name":"A","attributes":[{"name":"w","kind":"Z"}]},{"name":"B","supers":["Z"]},{"name":"Last","supers":["Last"]}]}
# No class is above itself.
SuperCycle { place: 2 }→{"format":1,"enums":[{"name":"E","literals":["a"]}],"classes":[{"name":"A"},{"name":"B","supers":["B"]},{"name":"Last","references":[{"name":"r","target":"Last","opposite":"s"}]}]}
SuperCycle { place: 1 }→{"format":1,"enums":[{"name":"E","literals":["a"]}],"classes":[{"name":"A","supers":["B"]},{"name":"B","supers":["A"]},{"name":"Last","references":[{"name":"r","target":"Last","opposite":"s"}]}]}
# A class below a cycle isn't on it.
SuperCycle { place: 2 }→{"format":1,"enums":[{"name":"E","literals":["a"]}],"classes":[{"name":"A","supers":["B"]},{"name":"B","supers":["C"]},{"name":"C","supers":["D"]},{"name":"D","supers":["B"]},{"name":"Last","references":[{"name":"r","target":"Last","opposite":"s"}]}]}
# Nor is one above it.
SuperCycle { place: 2 }→{"format":1,"enums":[{"name":"E","literals":["a"]}],"classes":[{"name":"Top"},{"name":"A","supers":["Top","B"]},{"name":"B","supers":["A"]},{"name":"Last","references":[{"name":"r","target":"Last","opposite":"s"}]}]}
# The first of several places.
SuperCycle { place: 3 }→{"format":1,"enums":[{"name":"E","literals":["a"]}],"classes":[{"name":"A"},{"name":"B","supers":["A","C"]},{"name":"C","supers":["C"]},{"name":"D","supers":["D"]},{"name":"Last","references":[{"name":"r","target":"Last","opposite":"s"}]}]}
# An opposite answers.
# It isn't there, or is an attribute.
BadOpposite { place: 2 }→{"format":1,"enums":[{"name":"E","literals":["a"]}],"classes":[{"name":"A"},{"name":"B","references":[{"name":"r","target":"A","opposite":"s"}]},{"name":"Last","references":[{"name":"r","target":"Last","containment":true,"opposite":"s"},{"name":"s","target":"Last","many":true,"opposite":"r"}]}]}
BadOpposite { place: 1 }→{"format":1,"enums":[{"name":"E","literals":["a"]}],"classes":[{"name":"A","references":[{"name":"r","target":"B","opposite":"s"}]},{"name":"B","attributes":[{"name":"s","kind":"int"}]},{"name":"Last","references":[{"name":"r","target":"Last","containment":true,"opposite":"s"},{"name":"s","target":"Last","many":true,"opposite":"r"}]}]}
# It leads elsewhere.
BadOpposite { place: 1 }→{"format":1,"enums":[{"name":"E","literals":["a"]}],"classes":[{"name":"A","references":[{"name":"r","target":"B","opposite":"s"}]},{"name":"B","references":[{"name":"s","target":"B","opposite":"r"}]},{"name":"Last","references":[{"name":"r","target":"Last","containment":true,"opposite":"s"},{"name":"s","target":"Last","many":true,"opposite":"r"}]}]}
# It names none as its opposite, or another.
BadOpposite { place: 1 }→{"format":1,"enums":[{"name":"E","literals":["a"]}],"classes":[{"name":"A","references":[{"name":"r","target":"B","opposite":"s"}]},{"name":"B","references":[{"name":"s","target":"A"}]},{"name":"Last","references":[{"name":"r","target":"Last","containment":true,"opposite":"s"},{"name":"s","target":"Last","many":true,"opposite":"r"}]}]}
BadOpposite { place: 1 }→{"format":1,"enums":[{"name":"E","literals":["a"]}],"classes":[{"name":"A","references":[{"name":"q","target":"B","opposite":"s"},{"name":"r","target":"B","opposite":"s"}]},{"name":"B","references":[{"name":"s","target":"A","opposite":"q"}]},{"name":"Last","references":[{"name":"r","target":"Last","containment":true,"opposite":"s"},{"name":"s","target":"Last","many":true,"opposite":"r"}]}]}
# It is the reference itself.
BadOpposite { place: 1 }→{"format":1,"enums":[{"name":"E","literals":["a"]}],"classes":[{"name":"A","references":[{"name":"r","target":"A","opposite":"r"}]},{"name":"Last","references":[{"name":"r","target":"Last","containment":true,"opposite":"s"},{"name":"s","target":"Last","many":true,"opposite":"r"}]}]}
# The target has it from a class above, and so doesn't declare it.
BadOpposite { place: 3 }→{"format":1,"enums":[{"name":"E","literals":["a"]}],"classes":[{"name":"Top","references":[{"name":"s","target":"A"}]},{"name":"B","supers":["Top"]},{"name":"A","references":[{"name":"r","target":"B","opposite":"s"}]},{"name":"Last","references":[{"name":"r","target":"Last","containment":true,"opposite":"s"},{"name":"s","target":"Last","many":true,"opposite":"r"}]}]}
# The first of several places.
BadOpposite { place: 2 }→{"format":1,"enums":[{"name":"E","literals":["a"]}],"classes":[{"name":"A"},{"name":"B","references":[{"name":"p","target":"A","opposite":"p"}]},{"name":"C","references":[{"name":"p","target":"A","opposite":"p"}]},{"name":"Last","references":[{"name":"r","target":"Last","containment":true,"opposite":"s"},{"name":"s","target":"Last","many":true,"opposite":"r"}]}]}
# The opposite of a containment is single.
# It leads to many.
BadContainment { place: 1 }→{"format":1,"enums":[{"name":"E","literals":["a"]}],"classes":[{"name":"A","references":[{"name":"r","target":"B","containment":true,"opposite":"s"}]},{"name":"B","references":[{"name":"s","target":"A","many":true,"opposite":"r"}]},{"name":"High","attributes":[{"name":"w","kind":"int"}]},{"name":"Low","supers":["High"],"attributes":[{"name":"w","kind":"int"}]}]}
BadContainment { place: 2 }→{"format":1,"enums":[{"name":"E","literals":["a"]}],"classes":[{"name":"B","references":[{"name":"s","target":"A","many":true,"opposite":"r"}]},{"name":"A","references":[{"name":"r","target":"B","many":true,"containment":true,"opposite":"s"}]},{"name":"High","attributes":[{"name":"w","kind":"int"}]},{"name":"Low","supers":["High"],"attributes":[{"name":"w","kind":"int"}]}]}
# It is a containment.
BadContainment { place: 2 }→{"format":1,"enums":[{"name":"E","literals":["a"]}],"classes":[{"name":"C"},{"name":"A","references":[{"name":"r","target":"B","many":true,"containment":true,"opposite":"s"}]},{"name":"B","references":[{"name":"s","target":"A","containment":true,"opposite":"r"}]},{"name":"High","attributes":[{"name":"w","kind":"int"}]},{"name":"Low","supers":["High"],"attributes":[{"name":"w","kind":"int"}]}]}
# A class has one feature of a name. The text `LONG` stands for an enum of 1,025 literals.
# A class has the name again that it has from above.
FeatureClash { place: 2 }→{"format":1,"enums":[LONG],"classes":[{"name":"A","attributes":[{"name":"w","kind":"int"}]},{"name":"B","supers":["A"],"attributes":[{"name":"w","kind":"int"}]}]}
FeatureClash { place: 3 }→{"format":1,"enums":[LONG],"classes":[{"name":"A","attributes":[{"name":"w","kind":"int"}]},{"name":"M","supers":["A"]},{"name":"B","supers":["M"],"references":[{"name":"w","target":"A"}]}]}
# It has the name from two classes above, and so has each class below it.
FeatureClash { place: 3 }→{"format":1,"enums":[LONG],"classes":[{"name":"A","attributes":[{"name":"w","kind":"int"}]},{"name":"B","attributes":[{"name":"w","kind":"int"}]},{"name":"C","supers":["A","B"]},{"name":"D","supers":["C"]}]}
FeatureClash { place: 1 }→{"format":1,"enums":[LONG],"classes":[{"name":"D","supers":["C"]},{"name":"C","supers":["A","B"]},{"name":"A","references":[{"name":"w","target":"A"}]},{"name":"B","references":[{"name":"w","target":"A"}]}]}
# What looks like a fault and is none.
# One feature reaches a class by two ways.
read→{"format":1,"classes":[{"name":"A","attributes":[{"name":"w","kind":"int"}]},{"name":"B","supers":["A"]},{"name":"C","supers":["A"]},{"name":"D","supers":["B","C"]}]}
# A class is named twice as a supertype, and stands below the classes that come later.
read→{"format":1,"classes":[{"name":"B","supers":["A","A"]},{"name":"A","attributes":[{"name":"w","kind":"int"}]}]}
# Two references of one class are each other's opposites.
read→{"format":1,"classes":[{"name":"A","references":[{"name":"r","target":"A","opposite":"s"},{"name":"s","target":"A","many":true,"opposite":"r"}]}]}
# References of one name in two classes are.
read→{"format":1,"classes":[{"name":"A","references":[{"name":"r","target":"B","opposite":"r"}]},{"name":"B","references":[{"name":"r","target":"A","opposite":"r"}]}]}
# The opposite of a containment is single, of many any.
read→{"format":1,"classes":[{"name":"A","references":[{"name":"r","target":"A","many":true,"containment":true,"opposite":"s"},{"name":"s","target":"A","opposite":"r"}]}]}
# Features and literals have the names of kinds, classes, enums or literals.
read→{"format":1,"enums":[{"name":"E","literals":["int","E","A"]},{"name":"F","literals":["E","int"]}],"classes":[{"name":"A","attributes":[{"name":"A","kind":"E"},{"name":"int","kind":"F"},{"name":"E","kind":"string"}],"references":[{"name":"B","target":"B"}]},{"name":"B"},{"name":"Int"}]}
# Two classes that have no class in common have features of one name.
read→{"format":1,"classes":[{"name":"A","attributes":[{"name":"w","kind":"int"}]},{"name":"B","references":[{"name":"w","target":"A"}]}]}"#;

// The fault of a document, or that it is read.
fn answer(alloc: Global, bytes: &[u8]) -> Result<String, Fail> {
    match read_meta(alloc, bytes) {
        Ok(_) => Ok(String::from_str(alloc, "read")?),
        Err(fault) => Ok(format!(in alloc; "{fault:?}")?),
    }
}

// So many items, each with its number between two texts.
fn items(alloc: Global, before: &str, after: &str, count: u32) -> Result<String, Fail> {
    let mut text = String::new(alloc);
    for i in 0..count {
        text.push_str(format!(in alloc; "{before}{i}{after}")?.as_str())?;
    }
    Ok(text)
}

// An enum with so many literals and one more.
fn long_enum(alloc: Global, count: u32) -> Result<String, Fail> {
    let more = items(alloc, ",\"l", "\"", count)?;
    Ok(format!(in alloc; "{{\"name\":\"Long\",\"literals\":[\"l\"{more}]}}")?)
}

// A class with so many attributes and one more, and with one reference.
fn wide_class(alloc: Global, count: u32) -> Result<String, Fail> {
    let more = items(alloc, "{\"name\":\"a", "\",\"kind\":\"int\"},", count)?;
    Ok(format!(in alloc;
        "{{\"name\":\"Wide\",\"attributes\":[{more}{{\"name\":\"a\",\"kind\":\"int\"}}],\"references\":[{{\"name\":\"r\",\"target\":\"Wide\"}}]}}"
    )?)
}

// A document with so many enums and a long one, so many classes and a wide one.
fn sized(
    alloc: Global,
    enums: u32,
    literals: u32,
    classes: u32,
    attributes: u32,
) -> Result<String, Fail> {
    let enums = items(alloc, "{\"name\":\"E", "\",\"literals\":[\"a\"]},", enums)?;
    let long = long_enum(alloc, literals)?;
    let classes = items(alloc, "{\"name\":\"C", "\"},", classes)?;
    let wide = wide_class(alloc, attributes)?;
    Ok(format!(in alloc;
        "{{\"format\":1,\"enums\":[{enums}{long}],\"classes\":[{classes}{wide}]}}"
    )?)
}

// `LONG` in a document stands for an enum of 1,025 literals.
#[test]
fn documents_have_their_answers(rt: HostRuntime) -> Result<(), Fail> {
    let alloc = rt.alloc();
    let long = long_enum(alloc, 1024)?;
    for line in CASES.lines() {
        let Some((wanted, document)) = line.split_once('→') else {
            continue;
        };
        let text = match document.split_once("LONG") {
            Some((front, back)) => format!(in alloc; "{front}{long}{back}")?,
            None => String::from_str(alloc, document)?,
        };
        assert_eq!(rt; answer(alloc, text.as_bytes())?.as_str(), wanted, "{line}");
    }
    // A mark of byte order, a line feed in a text, and a byte that is no UTF-8.
    for bytes in [
        b"\xef\xbb\xbf{\"format\":1,\"classes\":[]}".as_slice(),
        b"{\"format\":1,\"classes\":[],\"uri\":\"\n\"}",
        b"{\"format\":1,\"classes\":[],\"uri\":\"\xff\"}",
    ] {
        assert_eq!(rt; answer(alloc, bytes)?.as_str(), "NotJson { place: 0 }");
    }
    Ok(())
}

// The last case has 70,000 features.
#[test]
fn limits_are_kept_to_the_last_one(rt: HostRuntime) -> Result<(), Fail> {
    let alloc = rt.alloc();
    for (enums, literals, classes, attributes, wanted) in [
        (1023, 1023, 1023, 4094, "read"),
        (1024, 0, 0, 0, "TooMany { place: 1025 }"),
        (0, 1024, 0, 0, "TooMany { place: 1025 }"),
        (0, 0, 1024, 0, "TooMany { place: 1025 }"),
        (0, 0, 0, 4095, "TooMany { place: 4097 }"),
        // Classes are counted before enums.
        (1025, 0, 1024, 0, "TooMany { place: 1025 }"),
        (0, 0, 0, 69_998, "TooMany { place: 70000 }"),
    ] {
        let text = sized(alloc, enums, literals, classes, attributes)?;
        assert_eq!(rt; answer(alloc, text.as_bytes())?.as_str(), wanted);
    }
    Ok(())
}
