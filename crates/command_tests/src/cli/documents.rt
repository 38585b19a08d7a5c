// Odd documents that are right, each with its dump.
use super::{FIVE_THINGS, LIBRARY, NODES, TWO_NODES, TWO_NODES_DUMP, ZOO, shown};
use std::alloc::Global;
use std::process::Abort;
use std::test::Fail;
use vt_cli::Ending;

const EMPTY: &str = r#"{"format":1,"classes":[]}"#;

// Features whose names don't rise, two of them with one name.
const RAIL: &str = concat!(
    r#"{"format":1,"uri":"the \"rail\"\n\u00fc","enums":[],"classes":["#,
    r#"{"name":"Station","attributes":[{"name":"z","kind":"int"},{"name":"a","kind":"int"},{"name":"M","kind":"int"}],"#,
    r#""references":[{"name":"next","target":"Station","many":true},{"name":"Line","target":"Track","many":true}]},"#,
    r#"{"name":"Track","abstract":false,"supers":[],"references":[{"name":"to","target":"Station","many":true},{"name":"a","target":"Track","many":true}]}]}"#,
);

// A name of 64 bytes.
const LONG: &str =
    r#"{"format":1,"classes":[{"name":"_","attributes":[{"name":"abcdefghijklmnopqrstuvwxyzABCDEFGHIJKLMNOPQRSTUVWXYZ0123456789__","kind":"int"}],"references":[{"name":"_","target":"_","many":true}]}]}"#;

// A class that has a feature by two ways.
const DIAMOND: &str =
    r#"{"format":1,"classes":[{"name":"A","attributes":[{"name":"n","kind":"int"}]},{"name":"B","supers":["A"]},{"name":"C","supers":["A"]},{"name":"D","supers":["B","C"]}]}"#;

// The model of a metamodel has this dump, and so has the dump itself.
fn assert_dump(
    rt: &impl Abort,
    alloc: Global,
    meta: &str,
    model: &str,
    dump: &str,
) -> Result<(), Fail> {
    for text in [model, dump] {
        let (ending, written) = shown(alloc, meta, text.as_bytes())?;
        assert_eq!(rt; ending, Ending::Done, "{text}");
        assert_eq!(rt; written.as_str(), dump, "{text}");
    }
    Ok(())
}

#[test]
fn a_right_document_has_its_dump(rt: HostRuntime) -> Result<(), Fail> {
    for (meta, model, dump) in [
        (NODES, TWO_NODES, TWO_NODES_DUMP),
        // Nothing at all, and the number that the next object gets.
        (
            EMPTY,
            r#"{"format":1,"objects":[]}"#,
            "{\"format\":1,\"next\":0,\"objects\":[]}\n",
        ),
        (
            EMPTY,
            r#"{"format":1,"next":9,"objects":[]}"#,
            "{\"format\":1,\"next\":9,\"objects\":[]}\n",
        ),
        (
            EMPTY,
            r#"{"format":1,"next":1048576,"objects":[]}"#,
            "{\"format\":1,\"next\":1048576,\"objects\":[]}\n",
        ),
        // Numbers with gaps, and targets by number and not by name.
        (
            NODES,
            concat!(
                r#"{"format":1,"objects":[{"name":"d","class":"Node","number":3},"#,
                r#"{"name":"c","class":"Node","links":{"to":["a","b","c","d"]}},"#,
                r#"{"name":"b","class":"Node","number":10},"#,
                r#"{"name":"a","class":"Node","number":1048575}]}"#,
            ),
            concat!(
                r#"{"format":1,"next":1048576,"objects":[{"attributes":{"w":0},"class":"Node","links":{},"name":"d","number":3},"#,
                r#"{"attributes":{"w":0},"class":"Node","links":{"to":["d","c","b","a"]},"name":"c","number":4},"#,
                r#"{"attributes":{"w":0},"class":"Node","links":{},"name":"b","number":10},"#,
                r#"{"attributes":{"w":0},"class":"Node","links":{},"name":"a","number":1048575}]}"#,
                "\n",
            ),
        ),
        // A name that is kept for its number, and a next number that isn't the one after.
        (
            NODES,
            r#"{"format":1,"next":12,"objects":[{"name":"_7","class":"Node","number":7}]}"#,
            concat!(
                r#"{"format":1,"next":12,"objects":[{"attributes":{"w":0},"class":"Node","links":{},"name":"_7","number":7}]}"#,
                "\n",
            ),
        ),
        // Names of 64 bytes, and of one.
        (
            NODES,
            concat!(
                r#"{"format":1,"objects":[{"name":"abcdefghijklmnopqrstuvwxyzABCDEFGHIJKLMNOPQRSTUVWXYZ0123456789_-","class":"Node"},"#,
                r#"{"name":"a","class":"Node"},{"name":"A.1-_","class":"Node"}]}"#,
            ),
            concat!(
                r#"{"format":1,"next":3,"objects":[{"attributes":{"w":0},"class":"Node","links":{},"name":"abcdefghijklmnopqrstuvwxyzABCDEFGHIJKLMNOPQRSTUVWXYZ0123456789_-","number":0},"#,
                r#"{"attributes":{"w":0},"class":"Node","links":{},"name":"a","number":1},"#,
                r#"{"attributes":{"w":0},"class":"Node","links":{},"name":"A.1-_","number":2}]}"#,
                "\n",
            ),
        ),
        (
            LONG,
            r#"{"format":1,"objects":[{"name":"_0","class":"_","attributes":{"abcdefghijklmnopqrstuvwxyzABCDEFGHIJKLMNOPQRSTUVWXYZ0123456789__":-5},"links":{"_":["_0"]}}]}"#,
            concat!(
                r#"{"format":1,"next":1,"objects":[{"attributes":{"abcdefghijklmnopqrstuvwxyzABCDEFGHIJKLMNOPQRSTUVWXYZ0123456789__":-5},"class":"_","links":{"_":["_0"]},"name":"_0","number":0}]}"#,
                "\n",
            ),
        ),
        // Keys in any order, with white space between; an object that leads to itself, told twice.
        (
            NODES,
            "\r\n{ \"objects\" : [\t{\"links\":{\"to\":[ \"p\" , \"p\" ]},\"class\":\"Node\",\"attributes\":{\"w\": -1},\"name\":\"p\"}\n] , \"format\" : 1 }\r\n",
            concat!(
                r#"{"format":1,"next":1,"objects":[{"attributes":{"w":-1},"class":"Node","links":{"to":["p"]},"name":"p","number":0}]}"#,
                "\n",
            ),
        ),
        // A value of null is the default's, and of a key that comes again the last value counts.
        (
            NODES,
            concat!(
                r#"{"format":2,"format":1,"objects":7,"objects":[{"name":"p","class":"Node","attributes":{"w":null}},"#,
                r#"{"name":"q","class":"Node","attributes":{"w":5,"w":null},"links":{"to":["p"],"to":[]}},"#,
                r#"{"name":"1","name":"r","class":"Node","attributes":{"w":null,"w":5},"links":{"to":7,"to":["p"]}}]}"#,
            ),
            concat!(
                r#"{"format":1,"next":3,"objects":[{"attributes":{"w":0},"class":"Node","links":{},"name":"p","number":0},"#,
                r#"{"attributes":{"w":0},"class":"Node","links":{},"name":"q","number":1},"#,
                r#"{"attributes":{"w":5},"class":"Node","links":{"to":["p"]},"name":"r","number":2}]}"#,
                "\n",
            ),
        ),
        // Escapes in keys and texts; an empty list is no link, under whatever key.
        (
            NODES,
            r#"{"\u0066ormat":1,"objects":[{"n\u0061me":"\u0070","class":"N\u006fde","attributes":{"\u0077":7},"links":{"t\u006F":["\u0070"],"a \"link\"\n\u0000":[],"w":[],"":[]}}]}"#,
            concat!(
                r#"{"format":1,"next":1,"objects":[{"attributes":{"w":7},"class":"Node","links":{"to":["p"]},"name":"p","number":0}]}"#,
                "\n",
            ),
        ),
        // The least and the greatest number.
        (
            NODES,
            r#"{"format":1,"objects":[{"name":"p","class":"Node","attributes":{"w":-9223372036854775808},"links":{}},{"name":"q","class":"Node","attributes":{"w":9223372036854775807},"links":{"to":[]}}]}"#,
            concat!(
                r#"{"format":1,"next":2,"objects":[{"attributes":{"w":-9223372036854775808},"class":"Node","links":{},"name":"p","number":0},"#,
                r#"{"attributes":{"w":9223372036854775807},"class":"Node","links":{},"name":"q","number":1}]}"#,
                "\n",
            ),
        ),
        // The keys of a dump rise, in whatever order features are declared and values are given.
        (
            RAIL,
            concat!(
                r#"{"format":1,"objects":[{"name":"s","class":"Station","attributes":{"z":3,"M":-1},"links":{"next":["t","s"],"Line":["k"]}},"#,
                r#"{"name":"k","class":"Track","attributes":{},"links":{"to":["t"],"a":["k"]}},"#,
                r#"{"name":"t","class":"Station","attributes":{"a":5}}]}"#,
            ),
            concat!(
                r#"{"format":1,"next":3,"objects":[{"attributes":{"M":-1,"a":0,"z":3},"class":"Station","links":{"Line":["k"],"next":["s","t"]},"name":"s","number":0},"#,
                r#"{"attributes":{},"class":"Track","links":{"a":["k"],"to":["t"]},"name":"k","number":1},"#,
                r#"{"attributes":{"M":0,"a":5,"z":0},"class":"Station","links":{},"name":"t","number":2}]}"#,
                "\n",
            ),
        ),
        // No object of a class that is there.
        (
            r#"{"format":1,"classes":[{"name":"A"}]}"#,
            r#"{"format":1,"objects":[]}"#,
            "{\"format\":1,\"next\":0,\"objects\":[]}\n",
        ),
        // A feature that comes by two ways is there once.
        (
            DIAMOND,
            r#"{"format":1,"objects":[{"name":"d","class":"D"}]}"#,
            concat!(
                r#"{"format":1,"next":1,"objects":[{"attributes":{"n":0},"class":"D","links":{},"name":"d","number":0}]}"#,
                "\n",
            ),
        ),
        // Values of each kind. A string without a value has no key, a literal stands by its name.
        (
            ZOO,
            FIVE_THINGS,
            concat!(
                r#"{"format":1,"next":5,"objects":[{"attributes":{"mood":"ANGRY","n":3,"name":"b\"\n","wild":true},"class":"Cat","links":{"next":["a","b"]},"name":"a","number":0},"#,
                r#"{"attributes":{"mood":"CALM","n":-1,"name":"B","wild":false},"class":"Cat","links":{"next":["c"]},"name":"b","number":1},"#,
                r#"{"attributes":{"n":3},"class":"Dog","links":{"next":["a"]},"name":"c","number":2},"#,
                r#"{"attributes":{"mood":"CALM","n":-20,"wild":false},"class":"Cat","links":{},"name":"d","number":3},"#,
                r#"{"attributes":{"mood":"CALM","n":0,"name":"é","wild":false},"class":"Cat","links":{},"name":"e","number":4}]}"#,
                "\n",
            ),
        ),
        // A link brings the opposite one.
        (
            LIBRARY,
            concat!(
                r#"{"format":1,"objects":[{"name":"a","class":"Shelf","links":{"books":["x","y"]}},{"name":"b","class":"Shelf"},"#,
                r#"{"name":"x","class":"Book","attributes":{"pages":5,"title":"X"}},{"name":"y","class":"Book","attributes":{"pages":5}},{"name":"z","class":"Book"}]}"#,
            ),
            concat!(
                r#"{"format":1,"next":5,"objects":[{"attributes":{},"class":"Shelf","links":{"books":["x","y"]},"name":"a","number":0},"#,
                r#"{"attributes":{},"class":"Shelf","links":{},"name":"b","number":1},"#,
                r#"{"attributes":{"pages":5,"title":"X"},"class":"Book","links":{"shelf":["a"]},"name":"x","number":2},"#,
                r#"{"attributes":{"pages":5},"class":"Book","links":{"shelf":["a"]},"name":"y","number":3},"#,
                r#"{"attributes":{"pages":0},"class":"Book","links":{},"name":"z","number":4}]}"#,
                "\n",
            ),
        ),
        // The last of two targets stands where there is one at most, and its opposite with it.
        (
            LIBRARY,
            concat!(
                r#"{"format":1,"objects":[{"name":"a","class":"Shelf"},{"name":"x","class":"Book","links":{"twin":["y","z"],"shelf":["a"]}},"#,
                r#"{"name":"y","class":"Book"},{"name":"z","class":"Book"}]}"#,
            ),
            concat!(
                r#"{"format":1,"next":4,"objects":[{"attributes":{},"class":"Shelf","links":{"books":["x"]},"name":"a","number":0},"#,
                r#"{"attributes":{"pages":0},"class":"Book","links":{"shelf":["a"],"twin":["z"]},"name":"x","number":1},"#,
                r#"{"attributes":{"pages":0},"class":"Book","links":{},"name":"y","number":2},"#,
                r#"{"attributes":{"pages":0},"class":"Book","links":{"pair":["x"]},"name":"z","number":3}]}"#,
                "\n",
            ),
        ),
        (
            LIBRARY,
            r#"{"format":1,"objects":[{"name":"_7","class":"Book","number":7}]}"#,
            concat!(
                r#"{"format":1,"next":8,"objects":[{"attributes":{"pages":0},"class":"Book","links":{},"name":"_7","number":7}]}"#,
                "\n",
            ),
        ),
    ] {
        assert_dump(&rt, rt.alloc(), meta, model, dump)?;
    }
    Ok(())
}
