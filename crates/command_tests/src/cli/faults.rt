// Metamodels and models that are refused, each with its first fault. In a table of text each line is
// one case.
use super::shown;
use std::alloc::Global;
use std::process::Abort;
use std::test::Fail;
use vt_cli::{Ending, Role};

// Nodes that lead to nodes and hold nodes, and tracks that lead to nodes.
const RAIL: &str = concat!(
    r#"{"format":1,"enums":[{"name":"Color","literals":["RED","GREEN"]}],"classes":[{"name":"Part","abstract":true},"#,
    r#"{"name":"Node","supers":["Part"],"attributes":[{"name":"w","kind":"int"},{"name":"color","kind":"Color"},{"name":"on","kind":"boolean"},{"name":"text","kind":"string"}],"#,
    r#""references":[{"name":"to","target":"Node","many":true},{"name":"parts","target":"Node","many":true,"containment":true}]},"#,
    r#"{"name":"Track","attributes":[{"name":"length","kind":"int"}],"references":[{"name":"from","target":"Node","many":true}]}]}"#,
);

// ---- no JSON

const CUT_OFF_OR_GONE_ON: &str = r#"{
{"format":1,"objects":[
{"format":1,"objects":[],}
{"format":1,"objects":[]}x
{"format":1,"objects":[]}{}
{"format":1,"objects":[],"objects":[}"#;

const NO_NUMBERS_AND_TEXTS: &str = r#"{"format":01,"objects":[]}
{"format":1,"next":1e999,"objects":[]}
{"format":1,"objects":[{"name":"\ud800","class":"Node"}]}
{"format":1,"objects":[{'name':"p","class":"Node"}]}"#;

// ---- documents of another shape

const OTHER_VALUES: &str = r#"null
7
"objects"
[]
{}"#;

const FORMATS: &str = r#"{"objects":[]}
{"format":0,"objects":[]}
{"format":2,"objects":[]}
{"format":1.0,"objects":[]}
{"format":1e0,"objects":[]}
{"format":"1","objects":[]}
{"format":null,"objects":[]}
{"format":1,"objects":[],"format":2}"#;

const LISTS_OF_OBJECTS: &str = r#"{"format":1}
{"format":1,"objects":null}
{"format":1,"objects":{}}
{"format":1,"objects":[7]}
{"format":1,"objects":[null]}
{"format":1,"objects":[["p","Node"]]}"#;

const UNKNOWN_KEYS: &str = r#"{"format":1,"objects":[],"uri":""}
{"format":1,"objects":[],"Next":0}
{"format":1,"objects":[],"":0}"#;

const NEXT_NUMBERS: &str = r#"{"format":1,"next":null,"objects":[]}
{"format":1,"next":"0","objects":[]}
{"format":1,"next":-1,"objects":[]}
{"format":1,"next":-0,"objects":[]}
{"format":1,"next":0.0,"objects":[]}
{"format":1,"next":0e0,"objects":[]}
{"format":1,"next":1048577,"objects":[]}
{"format":1,"next":4294967296,"objects":[]}
{"format":1,"next":18446744073709551616,"objects":[]}
{"format":1,"next":0,"objects":[{"name":"p","class":"Node"}]}
{"format":1,"next":7,"objects":[{"name":"p","class":"Node","number":7}]}
{"format":1,"next":1048577,"objects":[{"name":"p","class":"Node","number":1048576}]}"#;

// ---- objects of another shape

const OBJECT_KEYS: &str = r#"{}
{"name":"p"}
{"class":"Node"}
{"name":"p","class":7}
{"name":"p","class":null}
{"name":"p","class":["Node"]}
{"name":"p","class":"Node","id":1}
{"name":"p","class":"Node","Number":1}"#;

const NAMES: &str = r#"{"name":7,"class":"Node"}
{"name":null,"class":"Node"}
{"name":"","class":"Node"}
{"name":"1","class":"Node"}
{"name":"-a","class":"Node"}
{"name":".a","class":"Node"}
{"name":"a b","class":"Node"}
{"name":"a\u0000","class":"Node"}
{"name":"aé","class":"Node"}
{"name":"abcdefghijklmnopqrstuvwxyzABCDEFGHIJKLMNOPQRSTUVWXYZ0123456789_-.","class":"Node"}"#;

const NUMBERS: &str = r#"{"name":"p","class":"Node","number":null}
{"name":"p","class":"Node","number":"0"}
{"name":"p","class":"Node","number":-1}
{"name":"p","class":"Node","number":-0}
{"name":"p","class":"Node","number":1.0}
{"name":"p","class":"Node","number":1e0}
{"name":"p","class":"Node","number":1048576}
{"name":"p","class":"Node","number":1048577}
{"name":"p","class":"Node","number":18446744073709551615}
{"name":"p","class":"Node"},{"name":"q","class":"Node","number":0}
{"name":"p","class":"Node","number":5},{"name":"q","class":"Node","number":5}
{"name":"p","class":"Node","number":5},{"name":"q","class":"Node","number":4}
{"name":"p","class":"Node","number":1048575},{"name":"q","class":"Node"}"#;

const ATTRIBUTES: &str = r#"{"name":"p","class":"Node","attributes":null}
{"name":"p","class":"Node","attributes":[]}
{"name":"p","class":"Node","attributes":"w"}
{"name":"p","class":"Node","attributes":{"w":[1]}}
{"name":"p","class":"Node","attributes":{"w":{}}}
{"name":"p","class":"Node","attributes":{"w":1.0}}
{"name":"p","class":"Node","attributes":{"w":1e0}}
{"name":"p","class":"Node","attributes":{"w":-0}}
{"name":"p","class":"Node","attributes":{"w":9223372036854775808}}
{"name":"p","class":"Node","attributes":{"w":-9223372036854775809}}
{"name":"p","class":"Node","attributes":{"w":18446744073709551616}}"#;

const LINKS: &str = r#"{"name":"p","class":"Node","links":null}
{"name":"p","class":"Node","links":[]}
{"name":"p","class":"Node","links":{"to":null}}
{"name":"p","class":"Node","links":{"to":"p"}}
{"name":"p","class":"Node","links":{"to":{}}}
{"name":"p","class":"Node","links":{"to":[null]}}
{"name":"p","class":"Node","links":{"to":["p",7]}}
{"name":"p","class":"Node","links":{"to":[["p"]]}}
{"name":"p","class":"Node","links":{"to":["p",""]}}
{"name":"p","class":"Node","links":{"to":["1"]}}"#;

// The shape of the whole document is asked before any change.
const ALSO_REFUSED: &str = r#"{"name":"p","class":"Zug"},{"name":"1","class":"Node"}
{"name":"p","class":"Node","attributes":{"v":1.5}}
{"name":"p","class":"Node","links":{"w":["1"]}}"#;

// ---- changes that are refused

const NO_CLASSES: &str = r#"{"name":"p","class":"Zug"}
{"name":"p","class":"node"}
{"name":"p","class":"Node\n"}
{"name":"p","class":""}"#;

const NAMES_OF_OTHER_NUMBERS: &str = r#"{"name":"_","class":"Node"}
{"name":"_p","class":"Node"}
{"name":"_1","class":"Node"}
{"name":"_00","class":"Node"}
{"name":"_07","class":"Node","number":7}
{"name":"_7","class":"Node","number":8}"#;

// Behind the creation of the one object.
const NO_FEATURES: &str = r#"{"name":"p","class":"Node","attributes":{"v":1}}
{"name":"p","class":"Node","attributes":{"v":null}}
{"name":"p","class":"Node","attributes":{"W":1}}
{"name":"p","class":"Node","attributes":{"":1}}
{"name":"p","class":"Node","attributes":{"length":1}}
{"name":"p","class":"Node","links":{"from":["p"]}}
{"name":"p","class":"Node","links":{"t\to":["p"]}}"#;

// A value on a reference, a link on an attribute, and a value of another kind.
const WRONG_KINDS: &str = r#"{"name":"p","class":"Node","attributes":{"to":1}}
{"name":"p","class":"Node","attributes":{"to":null}}
{"name":"p","class":"Node","links":{"w":["p"]}}
{"name":"p","class":"Node","attributes":{"w":"7"}}
{"name":"p","class":"Node","attributes":{"w":""}}
{"name":"p","class":"Node","attributes":{"w":true}}
{"name":"p","class":"Node","attributes":{"w":false}}
{"name":"p","class":"Node","attributes":{"on":0}}
{"name":"p","class":"Node","attributes":{"on":"true"}}
{"name":"p","class":"Node","attributes":{"text":7}}
{"name":"p","class":"Node","attributes":{"color":0}}
{"name":"p","class":"Node","attributes":{"color":true}}"#;

const NO_LITERALS: &str = r#"{"name":"p","class":"Node","attributes":{"color":"BLUE"}}
{"name":"p","class":"Node","attributes":{"color":"red"}}
{"name":"p","class":"Node","attributes":{"color":"Color::RED"}}
{"name":"p","class":"Node","attributes":{"color":""}}"#;

// ---- tables of cases with their faults: code, name and place, and the document

const METAMODELS: &str = r#"1;NotJson;0;{
1;NotJson;0;{"format":1,"classes":[{"name":"A"}]
2;BadShape;0;[]
2;BadShape;0;{"format":1,"classes":[{"name":"A"},{"name":"1"}]}
4;UnknownType;2;{"format":1,"enums":[{"name":"E","literals":["L"]}],"classes":[{"name":"A","attributes":[{"name":"e","kind":"E"}]},{"name":"B","attributes":[{"name":"m","kind":"A"}]}]}
5;SuperCycle;1;{"format":1,"classes":[{"name":"A"},{"name":"B","supers":["C"]},{"name":"C","supers":["B"]}]}
6;BadOpposite;1;{"format":1,"classes":[{"name":"A"},{"name":"B","references":[{"name":"x","target":"A","opposite":"y"}]}]}
7;BadContainment;1;{"format":1,"classes":[{"name":"A"},{"name":"B","references":[{"name":"x","target":"C","containment":true,"opposite":"y"}]},{"name":"C","references":[{"name":"y","target":"B","many":true,"opposite":"x"}]}]}
8;FeatureClash;3;{"format":1,"classes":[{"name":"A"},{"name":"B","supers":["A"],"attributes":[{"name":"m","kind":"int"}]},{"name":"C","supers":["A"],"attributes":[{"name":"m","kind":"int"}]},{"name":"D","supers":["B","C"]}]}"#;

// An earlier fault of a later kind doesn't count. Enums are counted before classes.
const FIRST_KINDS: &str =
    r#"3;DuplicateName;2;{"format":1,"enums":[{"name":"E","literals":["L"]}],"classes":[{"name":"A","supers":["Z"]},{"name":"A"},{"name":"A"}]}
3;DuplicateName;1;{"format":1,"enums":[{"name":"E","literals":["L"]},{"name":"F","literals":["M","M"]}],"classes":[{"name":"int"}]}"#;

// Behind changes that are made, and before one that is refused too.
const AMONG_OTHERS: &str =
    r#"103;UnknownClass;1;{"name":"p","class":"Node"},{"name":"q","class":"Zug"},{"name":"r","class":"Part"}
104;AbstractClass;1;{"name":"p","class":"Node"},{"name":"q","class":"Part"},{"name":"p","class":"Node"}
105;NameTaken;2;{"name":"p","class":"Node"},{"name":"q","class":"Node"},{"name":"p","class":"Track"},{"name":"_1","class":"Node"}
106;ReservedName;1;{"name":"_0","class":"Node"},{"name":"_2","class":"Node"},{"name":"r","class":"Zug"}
107;UnknownFeature;4;{"name":"p","class":"Node","attributes":{"w":1}},{"name":"q","class":"Track","attributes":{"w":1,"length":2},"links":{"from":["r"]}}
108;WrongKind;2;{"name":"p","class":"Node","attributes":{"zug":1,"on":7,"color":"RED"}}
109;WrongValue;3;{"name":"p","class":"Node","attributes":{"color":"GREEN"}},{"name":"q","class":"Node","attributes":{"w":"","color":"BLUE"}}
101;UnknownObject;4;{"name":"p","class":"Node","links":{"to":["q","r","t"]}},{"name":"q","class":"Node"},{"name":"t","class":"Track"}
110;WrongTarget;4;{"name":"p","class":"Node","links":{"to":["q","t","r"]}},{"name":"q","class":"Node"},{"name":"t","class":"Track"}
111;ContainmentCycle;5;{"name":"p","class":"Node","links":{"parts":["q"]}},{"name":"q","class":"Node","links":{"to":["s"],"parts":["r","p"]}},{"name":"r","class":"Node"}"#;

// The keys rise within an object, and attributes come before all links.
const OUT_OF_ORDER: &str =
    r#"108;WrongKind;3;{"name":"p","class":"Node","links":{"to":["r"]},"attributes":{"w":1}},{"name":"q","class":"Node","attributes":{"w":""}}
107;UnknownFeature;1;{"name":"p","class":"Node","links":{"to":["r"],"from":["p"]}}"#;

const IN_ITSELF: &str =
    r#"111;ContainmentCycle;1;{"name":"p","class":"Node","links":{"parts":["p"]}}"#;

// Of a change's refusals the first is told.
const TWO_REFUSALS: &str =
    r#"103;UnknownClass;1;{"name":"p","class":"Node"},{"name":"p","class":"Zug"}
104;AbstractClass;1;{"name":"p","class":"Node"},{"name":"p","class":"Part"}
105;NameTaken;1;{"name":"_0","class":"Node"},{"name":"_0","class":"Node"}
101;UnknownObject;1;{"name":"p","class":"Node","links":{"zug":["r"]}}
101;UnknownObject;1;{"name":"p","class":"Node","links":{"w":["r"]}}"#;

// A line of such a table, in its parts.
fn fault_and_document(line: &str) -> Result<((u16, &str, u64), &str), Fail> {
    let mut parts = line.split(';');
    let code = parts.next().unwrap_or("").parse::<u16>()?;
    let name = parts.next().unwrap_or("");
    let place = parts.next().unwrap_or("").parse::<u64>()?;
    Ok(((code, name, place), parts.next().unwrap_or("")))
}

// A file is refused, with this fault at this place and the line that says so.
fn assert_refused(
    rt: &impl Abort,
    alloc: Global,
    meta: &str,
    model: &str,
    file: Role,
    fault: (u16, &str, u64),
) -> Result<(), Fail> {
    let (code, name, place) = fault;
    let (ending, text) = shown(alloc, meta, model.as_bytes())?;
    let role = match file {
        Role::Metamodel => "metamodel",
        _ => "model",
    };
    let line = format!(in alloc; "fault: {role} {name} {place}\n")?;
    assert_eq!(rt;
        ending,
        Ending::BadInput { file, code, place },
        "{meta} {model}"
    );
    assert_eq!(rt; text.as_str(), line.as_str(), "{meta} {model}");
    Ok(())
}

// A model of the rail is refused.
fn assert_no_model(
    rt: &impl Abort,
    alloc: Global,
    model: &str,
    fault: (u16, &str, u64),
) -> Result<(), Fail> {
    assert_refused(rt, alloc, RAIL, model, Role::Model, fault)
}

// The document with these objects.
fn with_objects(alloc: Global, objects: &str) -> Result<String, Fail> {
    Ok(format!(in alloc; "{{\"format\":1,\"objects\":[{objects}]}}")?)
}

#[test]
fn a_metamodel_is_refused_for_its_first_fault(rt: HostRuntime) -> Result<(), Fail> {
    let alloc = rt.alloc();
    for table in [METAMODELS, FIRST_KINDS] {
        for line in table.lines() {
            let (fault, meta) = fault_and_document(line)?;
            assert_refused(&rt, alloc, meta, "{", Role::Metamodel, fault)?;
        }
    }
    // One literal too many: the place is the count.
    let mut meta = String::from_str(alloc, r#"{"format":1,"enums":[{"name":"E","literals":["L""#)?;
    for n in 1..1025u64 {
        let literal = format!(in alloc; ",\"L{n}\"")?;
        meta.push_str(literal.as_str())?;
    }
    meta.push_str(r#"]}],"classes":[]}"#)?;
    let fault = (9, "TooMany", 1025);
    assert_refused(&rt, alloc, meta.as_str(), "{", Role::Metamodel, fault)
}

#[test]
fn a_model_without_its_shape_is_refused(rt: HostRuntime) -> Result<(), Fail> {
    let alloc = rt.alloc();
    let no_json = (1, "NotJson", 0);
    for table in [CUT_OFF_OR_GONE_ON, NO_NUMBERS_AND_TEXTS] {
        for model in table.lines() {
            assert_no_model(&rt, alloc, model, no_json)?;
        }
    }
    for model in [
        "",
        " \r\n",
        "\u{feff}{\"format\":1,\"objects\":[]}",
        "{\"format\":1,\"objects\":[{\"name\":\"p\t\",\"class\":\"Node\"}]}",
    ] {
        assert_no_model(&rt, alloc, model, no_json)?;
    }
    let (_, text) = shown(alloc, RAIL, b"{\"format\":1,\"objects\":[],\"\xff\":0}")?;
    assert_eq!(rt; text.as_str(), "fault: model NotJson 0\n");

    let bad_shape = (2, "BadShape", 0);
    for table in [
        OTHER_VALUES,
        FORMATS,
        LISTS_OF_OBJECTS,
        UNKNOWN_KEYS,
        NEXT_NUMBERS,
    ] {
        for model in table.lines() {
            assert_no_model(&rt, alloc, model, bad_shape)?;
        }
    }
    for table in [OBJECT_KEYS, NAMES, NUMBERS, ATTRIBUTES, LINKS, ALSO_REFUSED] {
        for objects in table.lines() {
            let model = with_objects(alloc, objects)?;
            assert_no_model(&rt, alloc, model.as_str(), bad_shape)?;
        }
    }
    Ok(())
}

#[test]
fn a_model_is_refused_for_its_first_refused_change(rt: HostRuntime) -> Result<(), Fail> {
    let alloc = rt.alloc();
    for (table, fault) in [
        (NO_CLASSES, (103, "UnknownClass", 0)),
        (NAMES_OF_OTHER_NUMBERS, (106, "ReservedName", 0)),
        (NO_FEATURES, (107, "UnknownFeature", 1)),
        (WRONG_KINDS, (108, "WrongKind", 1)),
        (NO_LITERALS, (109, "WrongValue", 1)),
    ] {
        for objects in table.lines() {
            let model = with_objects(alloc, objects)?;
            assert_no_model(&rt, alloc, model.as_str(), fault)?;
        }
    }
    for table in [AMONG_OTHERS, OUT_OF_ORDER, IN_ITSELF, TWO_REFUSALS] {
        for line in table.lines() {
            let (fault, objects) = fault_and_document(line)?;
            let model = with_objects(alloc, objects)?;
            assert_no_model(&rt, alloc, model.as_str(), fault)?;
        }
    }
    Ok(())
}
