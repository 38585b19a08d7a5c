// Documents with the dumps of their models. In a table each line is a case.
use super::assert_answers;
use std::test::Fail;

const NODES: &str =
    r#"{"format":1,"classes":[{"name":"Node","attributes":[{"name":"w","kind":"int"}],"references":[{"name":"to","target":"Node","many":true}]}]}"#;

// Nothing at all, and the next number. Numbers with gaps, and targets by number and not by name; one
// that is told twice. A name that is kept for its number. A node with links to sixteen.
const NODES_DUMPED: &str = r#"{"format":1,"objects":[]}→{"format":1,"next":0,"objects":[]}
{"format":1,"next":1048576,"objects":[]}→{"format":1,"next":1048576,"objects":[]}
{"format":1,"next":12,"objects":[{"name":"d","class":"Node","number":3},{"name":"c","class":"Node","attributes":{"w":-7},"links":{"to":["b","a","d","b"]}},{"name":"b","class":"Node","number":8,"attributes":{"w":null}},{"name":"a","class":"Node"}]}→{"format":1,"next":12,"objects":[{"attributes":{"w":0},"class":"Node","links":{},"name":"d","number":3},{"attributes":{"w":-7},"class":"Node","links":{"to":["d","b","a"]},"name":"c","number":4},{"attributes":{"w":0},"class":"Node","links":{},"name":"b","number":8},{"attributes":{"w":0},"class":"Node","links":{},"name":"a","number":9}]}
{"format":1,"objects":[{"name":"_7","class":"Node","number":7}]}→{"format":1,"next":8,"objects":[{"attributes":{"w":0},"class":"Node","links":{},"name":"_7","number":7}]}
{"format":1,"objects":[{"name":"a","class":"Node"},{"name":"b","class":"Node"},{"name":"c","class":"Node"},{"name":"d","class":"Node"},{"name":"e","class":"Node"},{"name":"f","class":"Node"},{"name":"g","class":"Node"},{"name":"h","class":"Node","links":{"to":["p","o","n","m","l","k","j","i","h","g","f","e","d","c","b","a"]}},{"name":"i","class":"Node"},{"name":"j","class":"Node"},{"name":"k","class":"Node"},{"name":"l","class":"Node"},{"name":"m","class":"Node"},{"name":"n","class":"Node"},{"name":"o","class":"Node"},{"name":"p","class":"Node"}]}→{"format":1,"next":16,"objects":[{"attributes":{"w":0},"class":"Node","links":{},"name":"a","number":0},{"attributes":{"w":0},"class":"Node","links":{},"name":"b","number":1},{"attributes":{"w":0},"class":"Node","links":{},"name":"c","number":2},{"attributes":{"w":0},"class":"Node","links":{},"name":"d","number":3},{"attributes":{"w":0},"class":"Node","links":{},"name":"e","number":4},{"attributes":{"w":0},"class":"Node","links":{},"name":"f","number":5},{"attributes":{"w":0},"class":"Node","links":{},"name":"g","number":6},{"attributes":{"w":0},"class":"Node","links":{"to":["a","b","c","d","e","f","g","h","i","j","k","l","m","n","o","p"]},"name":"h","number":7},{"attributes":{"w":0},"class":"Node","links":{},"name":"i","number":8},{"attributes":{"w":0},"class":"Node","links":{},"name":"j","number":9},{"attributes":{"w":0},"class":"Node","links":{},"name":"k","number":10},{"attributes":{"w":0},"class":"Node","links":{},"name":"l","number":11},{"attributes":{"w":0},"class":"Node","links":{},"name":"m","number":12},{"attributes":{"w":0},"class":"Node","links":{},"name":"n","number":13},{"attributes":{"w":0},"class":"Node","links":{},"name":"o","number":14},{"attributes":{"w":0},"class":"Node","links":{},"name":"p","number":15}]}"#;

// Features whose names don't rise, two of them with one name.
const RAIL: &str = concat!(
    r#"{"format":1,"classes":["#,
    r#"{"name":"Station","attributes":[{"name":"z","kind":"int"},{"name":"a","kind":"int"},{"name":"M","kind":"int"}],"#,
    r#""references":[{"name":"next","target":"Station","many":true},{"name":"Line","target":"Track","many":true}]},"#,
    r#"{"name":"Track","references":[{"name":"to","target":"Station","many":true},{"name":"a","target":"Track","many":true}]}]}"#,
);

// The keys of a dump rise, in whatever order features are declared and values are given.
const RAIL_DUMPED: &str =
    r#"{"format":1,"objects":[{"name":"s","class":"Station","attributes":{"z":3,"M":-1},"links":{"next":["t","s"],"Line":["k"]}},{"name":"k","class":"Track","links":{"to":["t"],"a":["k"]}},{"name":"t","class":"Station","attributes":{"a":5}}]}→{"format":1,"next":3,"objects":[{"attributes":{"M":-1,"a":0,"z":3},"class":"Station","links":{"Line":["k"],"next":["s","t"]},"name":"s","number":0},{"attributes":{},"class":"Track","links":{"a":["k"],"to":["t"]},"name":"k","number":1},{"attributes":{"M":0,"a":5,"z":0},"class":"Station","links":{},"name":"t","number":2}]}"#;

// Shelves hold books and other shelves; a book has a twin, whose pair it is.
const LIBRARY: &str = concat!(
    r#"{"format":1,"classes":[{"name":"Shelf","references":["#,
    r#"{"name":"books","target":"Book","many":true,"containment":true,"opposite":"shelf"},"#,
    r#"{"name":"sub","target":"Shelf","many":true,"containment":true}]},"#,
    r#"{"name":"Book","attributes":[{"name":"pages","kind":"int"},{"name":"title","kind":"string"}],"#,
    r#""references":[{"name":"shelf","target":"Shelf","opposite":"books"},"#,
    r#"{"name":"twin","target":"Book","opposite":"pair"},{"name":"pair","target":"Book","opposite":"twin"}]}]}"#,
);

// A text has no default, and a link stands with its opposite. Then a link displaces others: a book
// goes to the shelf that is linked last, from either side; a shelf goes from one shelf to another,
// though nothing leads back from it; of two twins the last counts, and who was the first has no pair
// any more; a new pair takes the twin of the one that had it; and a book may be its own twin, when
// what it had on either side goes.
const LIBRARY_DUMPED: &str =
    r#"{"format":1,"objects":[{"name":"a","class":"Shelf","links":{"books":["x","y"]}},{"name":"b","class":"Shelf"},{"name":"x","class":"Book","attributes":{"pages":5,"title":"X"}},{"name":"y","class":"Book","attributes":{"pages":5}},{"name":"z","class":"Book"}]}→{"format":1,"next":5,"objects":[{"attributes":{},"class":"Shelf","links":{"books":["x","y"]},"name":"a","number":0},{"attributes":{},"class":"Shelf","links":{},"name":"b","number":1},{"attributes":{"pages":5,"title":"X"},"class":"Book","links":{"shelf":["a"]},"name":"x","number":2},{"attributes":{"pages":5},"class":"Book","links":{"shelf":["a"]},"name":"y","number":3},{"attributes":{"pages":0},"class":"Book","links":{},"name":"z","number":4}]}
{"format":1,"objects":[{"name":"a","class":"Shelf","links":{"books":["x"]}},{"name":"b","class":"Shelf","links":{"books":["x"]}},{"name":"x","class":"Book"}]}→{"format":1,"next":3,"objects":[{"attributes":{},"class":"Shelf","links":{},"name":"a","number":0},{"attributes":{},"class":"Shelf","links":{"books":["x"]},"name":"b","number":1},{"attributes":{"pages":0},"class":"Book","links":{"shelf":["b"]},"name":"x","number":2}]}
{"format":1,"objects":[{"name":"a","class":"Shelf","links":{"books":["x","y"]}},{"name":"b","class":"Shelf"},{"name":"x","class":"Book","links":{"shelf":["b"]}},{"name":"y","class":"Book","links":{"shelf":["a"]}}]}→{"format":1,"next":4,"objects":[{"attributes":{},"class":"Shelf","links":{"books":["y"]},"name":"a","number":0},{"attributes":{},"class":"Shelf","links":{"books":["x"]},"name":"b","number":1},{"attributes":{"pages":0},"class":"Book","links":{"shelf":["b"]},"name":"x","number":2},{"attributes":{"pages":0},"class":"Book","links":{"shelf":["a"]},"name":"y","number":3}]}
{"format":1,"objects":[{"name":"a","class":"Shelf","links":{"sub":["c"]}},{"name":"b","class":"Shelf","links":{"sub":["c"]}},{"name":"c","class":"Shelf"}]}→{"format":1,"next":3,"objects":[{"attributes":{},"class":"Shelf","links":{},"name":"a","number":0},{"attributes":{},"class":"Shelf","links":{"sub":["c"]},"name":"b","number":1},{"attributes":{},"class":"Shelf","links":{},"name":"c","number":2}]}
{"format":1,"objects":[{"name":"x","class":"Book","links":{"twin":["y","z"]}},{"name":"y","class":"Book"},{"name":"z","class":"Book"}]}→{"format":1,"next":3,"objects":[{"attributes":{"pages":0},"class":"Book","links":{"twin":["z"]},"name":"x","number":0},{"attributes":{"pages":0},"class":"Book","links":{},"name":"y","number":1},{"attributes":{"pages":0},"class":"Book","links":{"pair":["x"]},"name":"z","number":2}]}
{"format":1,"objects":[{"name":"x","class":"Book","links":{"twin":["z"]}},{"name":"y","class":"Book","links":{"twin":["z"]}},{"name":"z","class":"Book"}]}→{"format":1,"next":3,"objects":[{"attributes":{"pages":0},"class":"Book","links":{},"name":"x","number":0},{"attributes":{"pages":0},"class":"Book","links":{"twin":["z"]},"name":"y","number":1},{"attributes":{"pages":0},"class":"Book","links":{"pair":["y"]},"name":"z","number":2}]}
{"format":1,"objects":[{"name":"x","class":"Book","links":{"pair":["y"],"twin":["z","x"]}},{"name":"y","class":"Book"},{"name":"z","class":"Book"}]}→{"format":1,"next":3,"objects":[{"attributes":{"pages":0},"class":"Book","links":{"pair":["x"],"twin":["x"]},"name":"x","number":0},{"attributes":{"pages":0},"class":"Book","links":{},"name":"y","number":1},{"attributes":{"pages":0},"class":"Book","links":{},"name":"z","number":2}]}"#;

// Thirteen attributes and as many references, in no order.
const WIDE: &str = concat!(
    r#"{"format":1,"classes":[{"name":"Wide","#,
    r#""attributes":[{"name":"k","kind":"int"},{"name":"c","kind":"int"},{"name":"m","kind":"int"},{"name":"a","kind":"int"},{"name":"g","kind":"int"},{"name":"l","kind":"int"},{"name":"e","kind":"int"},{"name":"i","kind":"int"},{"name":"b","kind":"int"},{"name":"h","kind":"int"},{"name":"d","kind":"int"},{"name":"j","kind":"int"},{"name":"f","kind":"int"}],"#,
    r#""references":[{"name":"ff","target":"Wide","many":true},{"name":"jj","target":"Wide","many":true},{"name":"dd","target":"Wide","many":true},{"name":"hh","target":"Wide","many":true},{"name":"bb","target":"Wide","many":true},{"name":"ii","target":"Wide","many":true},{"name":"ee","target":"Wide","many":true},{"name":"ll","target":"Wide","many":true},{"name":"gg","target":"Wide","many":true},{"name":"aa","target":"Wide","many":true},{"name":"mm","target":"Wide","many":true},{"name":"cc","target":"Wide","many":true},{"name":"kk","target":"Wide","many":true}]}]}"#,
);

// All keys of an object rise, and an empty list of targets has none.
const WIDE_DUMPED: &str =
    r#"{"format":1,"objects":[{"name":"v","class":"Wide","number":1},{"name":"u","class":"Wide","attributes":{"m":7,"g":-5},"links":{"kk":["v","u"],"cc":["v","u"],"mm":["v","u"],"aa":["v","u"],"gg":["v","u"],"ll":["v","u"],"ee":["v","u"],"ii":["v","u"],"bb":["v","u"],"hh":["v","u"],"dd":["v","u"],"jj":["v","u"],"ff":["v","u"]}}]}→{"format":1,"next":3,"objects":[{"attributes":{"a":0,"b":0,"c":0,"d":0,"e":0,"f":0,"g":0,"h":0,"i":0,"j":0,"k":0,"l":0,"m":0},"class":"Wide","links":{},"name":"v","number":1},{"attributes":{"a":0,"b":0,"c":0,"d":0,"e":0,"f":0,"g":-5,"h":0,"i":0,"j":0,"k":0,"l":0,"m":7},"class":"Wide","links":{"aa":["v","u"],"bb":["v","u"],"cc":["v","u"],"dd":["v","u"],"ee":["v","u"],"ff":["v","u"],"gg":["v","u"],"hh":["v","u"],"ii":["v","u"],"jj":["v","u"],"kk":["v","u"],"ll":["v","u"],"mm":["v","u"]},"name":"u","number":2}]}
{"format":1,"objects":[{"name":"w","class":"Wide","attributes":{},"links":{"bb":[],"aa":["w"],"cc":[]}}]}→{"format":1,"next":1,"objects":[{"attributes":{"a":0,"b":0,"c":0,"d":0,"e":0,"f":0,"g":0,"h":0,"i":0,"j":0,"k":0,"l":0,"m":0},"class":"Wide","links":{"aa":["w"]},"name":"w","number":0}]}"#;

// Pets, which are animals of a size and a temper.
pub(super) const PETS: &str = concat!(
    r#"{"format":1,"enums":[{"name":"Size","literals":["Small","Large"]},{"name":"Temper","literals":["Large","Mild"]}],"classes":["#,
    r#"{"name":"Animal","abstract":true,"attributes":[{"name":"size","kind":"Size"},{"name":"tame","kind":"boolean"}],"#,
    r#""references":[{"name":"friends","target":"Animal","many":true,"opposite":"friend_of"},{"name":"friend_of","target":"Animal","many":true,"opposite":"friends"}]},"#,
    r#"{"name":"Named","abstract":true,"attributes":[{"name":"nick","kind":"string"}]},"#,
    r#"{"name":"Pet","supers":["Animal","Named"],"attributes":[{"name":"temper","kind":"Temper"}]},"#,
    r#"{"name":"Wolf","supers":["Animal"]}]}"#,
);

// What a class inherits comes with it; a literal is told by its name, and two enums may have one of
// the same.
const PETS_DUMPED: &str =
    r#"{"format":1,"objects":[{"name":"rex","class":"Pet","attributes":{"nick":"R \"1\"","size":"Large","tame":true,"temper":"Mild"},"links":{"friends":["w","rex"]}},{"name":"w","class":"Wolf","attributes":{"size":null,"tame":null}},{"name":"kit","class":"Pet","attributes":{"nick":null,"temper":"Large"},"links":{"friend_of":["w"]}}]}→{"format":1,"next":3,"objects":[{"attributes":{"nick":"R \"1\"","size":"Large","tame":true,"temper":"Mild"},"class":"Pet","links":{"friend_of":["rex"],"friends":["rex","w"]},"name":"rex","number":0},{"attributes":{"size":"Small","tame":false},"class":"Wolf","links":{"friend_of":["rex"],"friends":["kit"]},"name":"w","number":1},{"attributes":{"size":"Small","tame":false,"temper":"Large"},"class":"Pet","links":{"friend_of":["w"]},"name":"kit","number":2}]}"#;

// A text alone.
const LABELS: &str =
    r#"{"format":1,"classes":[{"name":"Named","attributes":[{"name":"nick","kind":"string"}]}]}"#;

// Texts as a dump writes them: with short escapes for quotes, backslashes and some control bytes, the
// others by four digits, and all else as it is.
const LABELS_DUMPED: &str =
    r#"{"format":1,"objects":[{"name":"n0","class":"Named","attributes":{"nick":"\"\\\/\b\f\n\r\t\u0000\u001F\u0041\u00e9\u65e5\ud83d\ude00 é日😀"}},{"name":"n1","class":"Named","attributes":{"nick":""}},{"name":"n2","class":"Named","attributes":{"nick":"The quick brown fox jumps over the lazy dog, twice and once more"}},{"name":"n3","class":"Named","attributes":{"nick":"The quick brown fox jumps over the lazy dog, twice and once more\u0022"}},{"name":"n4","class":"Named","attributes":{"nick":"üüüüüüüüüüüüüüüüüüüüüüüüüüüüüüüüüüüüüüüü\u000B"}}]}→{"format":1,"next":5,"objects":[{"attributes":{"nick":"\"\\/\b\f\n\r\t\u0000\u001fAé日😀 é日😀"},"class":"Named","links":{},"name":"n0","number":0},{"attributes":{"nick":""},"class":"Named","links":{},"name":"n1","number":1},{"attributes":{"nick":"The quick brown fox jumps over the lazy dog, twice and once more"},"class":"Named","links":{},"name":"n2","number":2},{"attributes":{"nick":"The quick brown fox jumps over the lazy dog, twice and once more\""},"class":"Named","links":{},"name":"n3","number":3},{"attributes":{"nick":"üüüüüüüüüüüüüüüüüüüüüüüüüüüüüüüüüüüüüüüü\u000b"},"class":"Named","links":{},"name":"n4","number":4}]}"#;

#[test]
fn a_document_has_its_dump(rt: HostRuntime) -> Result<(), Fail> {
    for (meta, table) in [
        (NODES, NODES_DUMPED),
        (RAIL, RAIL_DUMPED),
        (LIBRARY, LIBRARY_DUMPED),
        (WIDE, WIDE_DUMPED),
        (PETS, PETS_DUMPED),
        (LABELS, LABELS_DUMPED),
    ] {
        assert_answers(&rt, rt.alloc(), meta, table)?;
    }
    Ok(())
}
