// Documents that make no model, each with its first fault. In a table each line is a case.
use super::{answer, assert_answers, metamodel};
use std::test::Fail;

// Boxes in boxes, which are toys or have a lid; a lid belongs to one box. A thing is abstract.
const BOXES: &str = concat!(
    r#"{"format":1,"enums":[{"name":"Size","literals":["Small","Large"]}],"classes":["#,
    r#"{"name":"Thing","abstract":true,"attributes":[{"name":"size","kind":"Size"}]},"#,
    r#"{"name":"Box","supers":["Thing"],"attributes":[{"name":"open","kind":"boolean"}],"#,
    r#""references":[{"name":"inner","target":"Box","many":true,"containment":true,"opposite":"outer"},"#,
    r#"{"name":"outer","target":"Box","opposite":"inner"},{"name":"lid","target":"Lid"}]},"#,
    r#"{"name":"Lid","supers":["Thing"],"attributes":[{"name":"label","kind":"string"},{"name":"weight","kind":"int"}]}]}"#,
);

// At the end: after the greatest number there would be no next number.
const NO_DOCUMENTS: &str = r#"→no JSON
{"format":1,"objects":[]→no JSON
{"format":1,"objects":[{"name":"a","class":"Nothing"}]}x→no JSON
[]→bad shape
{"objects":[]}→bad shape
{"format":2,"objects":[]}→bad shape
{"format":1,"objects":[],"uri":""}→bad shape
{"format":1,"objects":[{"name":"a","class":"Nothing","extra":1}]}→bad shape
{"format":1,"objects":[{"name":"a","class":"Lid","attributes":{"weight":1.5}}]}→bad shape
{"format":1,"objects":[{"name":"a","class":"Box","links":{"inner":"a"}}]}→bad shape
{"format":1,"objects":[{"name":"a","class":"Box","number":4},{"name":"b","class":"Box","number":4}]}→bad shape
{"format":1,"next":1,"objects":[{"name":"a","class":"Box","number":1}]}→bad shape
{"format":1,"next":1048577,"objects":[]}→bad shape
{"format":1,"objects":[{"name":"a","class":"Box","number":1048576}]}→bad shape"#;

// In each document a change that is made comes before the one that is refused, and in most another
// that would be refused comes after it. Creations come first, in the order of the document, and
// their class comes before their name; then attributes, each object's in rising order of key; links
// come last, and a target that is unknown before a feature that is. At the end an object would be in
// itself, told from either side, or in one that is in it.
const REFUSED: &str =
    r#"{"format":1,"objects":[{"name":"a","class":"Box"},{"name":"b","class":"Nothing"},{"name":"a","class":"Box"}]}→1 UnknownClass
{"format":1,"objects":[{"name":"a","class":"Box"},{"name":"b","class":"Thing"},{"name":"c","class":"Nothing"}]}→1 AbstractClass
{"format":1,"objects":[{"name":"a","class":"Box","attributes":{"weight":1}},{"name":"b","class":"Lid"},{"name":"a","class":"Lid"}]}→2 NameTaken
{"format":1,"objects":[{"name":"_0","class":"Box"},{"name":"_07","class":"Box","number":7},{"name":"_0","class":"Box"}]}→1 ReservedName
{"format":1,"objects":[{"name":"a","class":"Box"},{"name":"_","class":"Box"},{"name":"b","class":"Thing"}]}→1 ReservedName
{"format":1,"objects":[{"name":"a","class":"Box"},{"name":"a","class":"Thing"}]}→1 AbstractClass
{"format":1,"objects":[{"name":"a","class":"Box","attributes":{"open":true,"width":2}},{"name":"b","class":"Box","attributes":{"open":1},"links":{"lid":["a"]}}]}→3 UnknownFeature
{"format":1,"objects":[{"name":"a","class":"Box","attributes":{"open":1,"label":"x"}}]}→1 UnknownFeature
{"format":1,"objects":[{"name":"a","class":"Box","attributes":{"open":1,"width":2}}]}→1 WrongKind
{"format":1,"objects":[{"name":"a","class":"Box","attributes":{"open":true,"outer":"a"},"links":{"lid":["a"]}}]}→2 WrongKind
{"format":1,"objects":[{"name":"a","class":"Box","attributes":{"outer":null,"width":null}}]}→1 WrongKind
{"format":1,"objects":[{"name":"a","class":"Lid","attributes":{"label":"x","size":1,"weight":"x"}}]}→2 WrongKind
{"format":1,"objects":[{"name":"a","class":"Lid","attributes":{"label":null,"size":"Huge","weight":true}}]}→2 WrongValue
{"format":1,"objects":[{"name":"a","class":"Box","links":{"inner":["b"],"lid":["c"],"open":["d"]}},{"name":"b","class":"Box"}]}→3 UnknownObject
{"format":1,"objects":[{"name":"a","class":"Box","links":{"inner":["b"],"width":["c"]}},{"name":"b","class":"Box"}]}→3 UnknownObject
{"format":1,"objects":[{"name":"a","class":"Box","links":{"inner":["b"],"width":["b"]}},{"name":"b","class":"Box","links":{"open":["a"]}}]}→3 UnknownFeature
{"format":1,"objects":[{"name":"a","class":"Box","links":{"inner":["b"],"open":["b"],"width":["c"]}},{"name":"b","class":"Box"}]}→3 WrongKind
{"format":1,"objects":[{"name":"a","class":"Box","links":{"inner":["b"],"lid":["b"],"outer":["a"]}},{"name":"b","class":"Box"}]}→3 WrongTarget
{"format":1,"objects":[{"name":"a","class":"Box","links":{"inner":["b","a"]}},{"name":"b","class":"Box","links":{"lid":["a"]}}]}→3 ContainmentCycle
{"format":1,"objects":[{"name":"a","class":"Box","links":{"outer":["a"]}},{"name":"b","class":"Box","links":{"lid":["a"]}}]}→2 ContainmentCycle
{"format":1,"objects":[{"name":"a","class":"Box","links":{"inner":["b"]}},{"name":"b","class":"Box","links":{"inner":["c"]}},{"name":"c","class":"Box","links":{"inner":["a"],"lid":["a"]}}]}→5 ContainmentCycle
{"format":1,"objects":[{"name":"a","class":"Box","links":{"outer":["b"]}},{"name":"b","class":"Box","links":{"outer":["c"]}},{"name":"c","class":"Box","links":{"lid":["a"],"outer":["a"]}}]}→5 WrongTarget
{"format":1,"objects":[{"name":"a","class":"Box","links":{"outer":["b"]}},{"name":"b","class":"Box","links":{"outer":["c"]}},{"name":"c","class":"Box","links":{"outer":["a"],"width":["a"]}}]}→5 ContainmentCycle"#;

#[test]
fn the_first_fault_is_told(rt: HostRuntime) -> Result<(), Fail> {
    for table in [NO_DOCUMENTS, REFUSED] {
        assert_answers(&rt, rt.alloc(), BOXES, table)?;
    }
    let meta = metamodel(rt.alloc(), BOXES)?;
    let told = answer(
        rt.alloc(),
        &meta,
        b"{\"format\":1,\"objects\":[],\"\xff\":1}",
    )?;
    assert_eq!(rt; told.as_str(), "no JSON");
    Ok(())
}
