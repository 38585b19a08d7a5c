//! Which texts are JSON and what they are, and what is read of them. In a table each line is a case.
use crate::{
    Identifier, JsonFault, ObjectName, Shape, ShapeFault, has_only, parse, read_defaulted,
    read_entries, read_optional, read_required,
};
use serde_json::Value;
use std::alloc::{AllocError, Global};
use std::process::Abort;
use std::test::Fail;
use vt_base::{List, Text};

// ---- JSON

// A text, and the value that it is, printed. A picture stands for a control character, `␢` for the
// mark of byte order and `␠` for a space that does not break.
const TEXTS: &str = r#"null→null
 ␉␊␍ true ␉␊␍→true
 [ false , { } ] →[false,{}]
0→0
18446744073709551615→18446744073709551615
-1→-1
-9223372036854775808→-9223372036854775808
-0→-0.0
1.0→1.0
1e0→1.0
1E+2→100.0
{"b":1,"a":2,"B":3,"é":4,"ab":5}→{"B":3,"a":2,"ab":5,"b":1,"é":4}
{"a":1,"b":2,"a":3}→{"a":3,"b":2}
{"a":1,"\u0061":2}→{"a":2}
"\"\\\/\b\f\n\r\t"→"\"\\/\b\f\n\r\t"
"\u0041\u00e9\u00E9\u0000\u001F"→"Aéé\u0000\u001f"
"\ud83d\ude00\uD83D\uDE00"→"😀😀"
"␡"→"␡"
→no JSON
 →no JSON
␢1→no JSON
1 2→no JSON
1,→no JSON
1␋→no JSON
1␠→no JSON
null null→no JSON
1"a"→no JSON
truex→no JSON
[1,]→no JSON
[1 2]→no JSON
[1→no JSON
{"a":1,}→no JSON
{"a"}→no JSON
{"a":}→no JSON
{1:2}→no JSON
{"a":1→no JSON
{"a":tru,"a":1}→no JSON
nul→no JSON
True→no JSON
NaN→no JSON
01→no JSON
-→no JSON
+1→no JSON
.5→no JSON
1.→no JSON
1e→no JSON
1e999→no JSON
-1e999→no JSON
'a'→no JSON
"a→no JSON
"\x41"→no JSON
"\u00"→no JSON
"␁"→no JSON
"␟"→no JSON
"␊"→no JSON
"\ud83d"→no JSON
"\ude00"→no JSON
"\ude00\ud83d"→no JSON
"\ud83da"→no JSON"#;

fn unpictured(alloc: Global, line: &str) -> Result<String, Fail> {
    let mut text = String::new(alloc);
    for c in line.chars() {
        text.push(match c {
            '␁' => '\u{1}',
            '␉' => '\t',
            '␊' => '\n',
            '␋' => '\u{b}',
            '␍' => '\r',
            '␟' => '\u{1f}',
            '␡' => '\u{7f}',
            '␠' => '\u{a0}',
            '␢' => '\u{feff}',
            c => c,
        })?;
    }
    Ok(text)
}

// The value that bytes are, printed.
fn printed(alloc: Global, bytes: &[u8]) -> Result<String, Fail> {
    match parse(alloc, bytes) {
        Ok(value) => Ok(value.to_string(alloc)?),
        Err(JsonFault::NotJson) => Ok(String::from_str(alloc, "no JSON")?),
        Err(JsonFault::NoMemory) => Err("no memory".into()),
    }
}

fn repeated(
    alloc: Global,
    front: &[u8],
    middle: &[u8],
    back: &[u8],
    count: u32,
) -> Result<Vec<u8>, AllocError> {
    let mut bytes = Vec::new(alloc);
    for _ in 0..count {
        bytes.extend_from_slice(front)?;
    }
    bytes.extend_from_slice(middle)?;
    for _ in 0..count {
        bytes.extend_from_slice(back)?;
    }
    Ok(bytes)
}

#[test]
fn json_is_read_as_the_value_that_it_is(rt: HostRuntime) -> Result<(), Fail> {
    let alloc = rt.alloc();
    for line in TEXTS.lines() {
        let (text, wanted) = line.split_once('→').ok_or("no answer")?;
        let text = unpictured(alloc, text)?;
        let wanted = unpictured(alloc, wanted)?;
        assert_eq!(rt; printed(alloc, text.as_bytes())?, wanted, "{line}");
    }
    // no UTF-8: a byte that never comes, a `/` in two bytes, a cut letter, a surrogate
    for bytes in [
        b"\"\xff\"".as_slice(),
        b"\"\xc0\xaf\"",
        b"\"\xc3\"",
        b"\"\xed\xa0\x80\"",
    ] {
        assert_eq!(rt; printed(alloc, bytes)?.as_str(), "no JSON", "{bytes:?}");
    }
    Ok(())
}

#[test]
fn values_nest_127_deep(rt: HostRuntime) -> Result<(), Fail> {
    let alloc = rt.alloc();
    for (front, back) in [
        (b"[".as_slice(), b"]".as_slice()),
        (b"{\"a\":".as_slice(), b"}".as_slice()),
    ] {
        let deepest = repeated(alloc, front, b"1", back, 127)?;
        assert!(rt; parse(alloc, deepest.as_slice()).is_ok());
        let deeper = repeated(alloc, front, b"1", back, 128)?;
        assert_eq!(rt;
            parse(alloc, deeper.as_slice()).err(),
            Some(JsonFault::NotJson)
        );
    }
    // so long an integer is a float, and it is too large for one
    let long = repeated(alloc, b"9", b"9", b"9", 200)?;
    assert_eq!(rt;
        parse(alloc, long.as_slice()).err(),
        Some(JsonFault::NotJson)
    );
    Ok(())
}

// ---- numbers and keys

// `number`: without a sign, and with one. `k`: under the key k, which is needed, or 9 by default, or
// may lack. `only`: whether it is an object with no key but a and b. `bare`: with no key.
const VALUES: &str = r#"number 0→Ok(0) Ok(0)
number -1→Err(BadShape) Ok(-1)
number 9223372036854775807→Ok(9223372036854775807) Ok(9223372036854775807)
number 9223372036854775808→Ok(9223372036854775808) Err(BadShape)
number 18446744073709551615→Ok(18446744073709551615) Err(BadShape)
number 18446744073709551616→Err(BadShape) Err(BadShape)
number -9223372036854775808→Err(BadShape) Ok(-9223372036854775808)
number -9223372036854775809→Err(BadShape) Err(BadShape)
number -0→Err(BadShape) Err(BadShape)
number 1.0→Err(BadShape) Err(BadShape)
number 1e0→Err(BadShape) Err(BadShape)
number "1"→Err(BadShape) Err(BadShape)
number [1]→Err(BadShape) Err(BadShape)
number true→Err(BadShape) Err(BadShape)
number null→Err(BadShape) Err(BadShape)
k {"k":1}→Ok(1) Ok(1) Ok(Some(1))
k {"j":1}→Err(BadShape) Ok(9) Ok(None)
k {"K":1,"kk":1,"":1}→Err(BadShape) Ok(9) Ok(None)
k {"\u006b":1}→Ok(1) Ok(1) Ok(Some(1))
k {"k":null}→Err(BadShape) Err(BadShape) Err(BadShape)
k {"k":"1"}→Err(BadShape) Err(BadShape) Err(BadShape)
k {"k":1.0}→Err(BadShape) Err(BadShape) Err(BadShape)
k {"k":"1","k":2}→Ok(2) Ok(2) Ok(Some(2))
k {"k":2,"k":"1"}→Err(BadShape) Err(BadShape) Err(BadShape)
k [1]→Err(BadShape) Ok(9) Ok(None)
only {}→true
only {"b":1,"a":2}→true
only {"\u0061":1}→true
only {"a":1,"c":2}→false
only {"ab":1}→false
only []→false
only null→false
bare {}→true
bare {"a":1}→false
bool true→Ok(true)
bool 1→Err(BadShape)"#;

// What is read of a value, by the word for what is asked.
fn answer(alloc: Global, asked: &str, value: &Value) -> Result<String, AllocError> {
    match asked {
        "number" => {
            let (unsigned, signed) = (u64::read(alloc, value), i64::read(alloc, value));
            format!(in alloc; "{unsigned:?} {signed:?}")
        }
        "k" => {
            let needed: Result<u64, ShapeFault> = read_required(alloc, value, "k");
            let defaulted: Result<u64, ShapeFault> = read_defaulted(alloc, value, "k", 9);
            let optional: Result<Option<u64>, ShapeFault> = read_optional(alloc, value, "k");
            format!(in alloc; "{needed:?} {defaulted:?} {optional:?}")
        }
        "only" => format!(in alloc; "{}", has_only(value, &["a", "b"])),
        "bare" => format!(in alloc; "{}", has_only(value, &[])),
        _ => format!(in alloc; "{:?}", bool::read(alloc, value)),
    }
}

#[test]
fn a_value_is_read_where_it_has_the_form_that_is_asked(rt: HostRuntime) -> Result<(), Fail> {
    let alloc = rt.alloc();
    for line in VALUES.lines() {
        let (case, wanted) = line.split_once('→').ok_or("no answer")?;
        let (asked, text) = case.split_once(' ').ok_or("no text")?;
        let value = parse(alloc, text.as_bytes())?;
        assert_eq!(rt; answer(alloc, asked, &value)?.as_str(), wanted, "{line}");
    }
    Ok(())
}

// ---- lists and entries

#[test]
fn lists_and_entries_are_read_whole(rt: HostRuntime) -> Result<(), Fail> {
    let alloc = rt.alloc();
    let bad = Some(ShapeFault::BadShape);
    let text =
        r#"{"list":[3,1,3],"mixed":[1,true],"free":{"b":false,"a":true,"é":true,"aa":false},"bad":{"a":true,"b":1}}"#;
    let value = parse(alloc, text.as_bytes())?;
    let list = read_required::<List<u64>>(alloc, &value, "list")?;
    assert_eq!(rt; list.as_slice(), [3, 1, 3].as_slice());
    for key in ["mixed", "free"] {
        assert_eq!(rt; read_required::<List<u64>>(alloc, &value, key).err(), bad);
    }
    let entries = read_entries::<bool>(alloc, &value, "free")?;
    let mut all = String::new(alloc);
    for (key, item) in entries.as_slice() {
        all.push_str(key.as_str())?;
        all.push_str(if *item { "+" } else { "-" })?;
    }
    assert_eq!(rt; all.as_str(), "a+aa-b-é+");
    assert_eq!(rt; read_entries::<bool>(alloc, &value, "none")?.len(), 0);
    for key in ["bad", "list"] {
        assert_eq!(rt; read_entries::<bool>(alloc, &value, key).err(), bad);
    }
    Ok(())
}

// ---- names

// Whether a text is an identifier, and whether it is an object's name. One that is is read whole.
fn is_name(rt: &impl Abort, alloc: Global, text: &str) -> Result<(bool, bool), Fail> {
    let value = Value::String(String::from_str(alloc, text)?);
    let identifier = Identifier::read(alloc, &value).ok();
    if let Some(name) = &identifier {
        assert_eq!(rt; name.as_text().as_str(), text);
    }
    let object_name = ObjectName::read(alloc, &value).ok();
    if let Some(name) = &object_name {
        assert_eq!(rt; name.as_text().as_str(), text);
    }
    Ok((identifier.is_some(), object_name.is_some()))
}

#[test]
fn names_have_their_bytes_and_at_most_64(rt: HostRuntime) -> Result<(), Fail> {
    let alloc = rt.alloc();
    let letters = b"ABCDEFGHIJKLMNOPQRSTUVWXYZabcdefghijklmnopqrstuvwxyz_";
    for byte in 0..128u8 {
        let begins = letters.contains(&byte);
        let continues = begins || b"0123456789".contains(&byte);
        let marks = continues || b"-.".contains(&byte);
        let letter = char::from(byte);
        let text = format!(in alloc; "{letter}")?;
        assert_eq!(rt;
            is_name(&rt, alloc, text.as_str())?,
            (begins, begins),
            "{byte}"
        );
        let text = format!(in alloc; "a{letter}")?;
        assert_eq!(rt;
            is_name(&rt, alloc, text.as_str())?,
            (continues, marks),
            "{byte}"
        );
    }
    let longest = "x234567890123456789012345678901234567890123456789012345678901234";
    assert_eq!(rt; longest.len(), 64);
    assert_eq!(rt; is_name(&rt, alloc, longest)?, (true, true));
    let longer = format!(in alloc; "{longest}5")?;
    for text in [longer.as_str(), "", "é", "aé", " a", "a "] {
        assert_eq!(rt; is_name(&rt, alloc, text)?, (false, false), "{text}");
    }
    let number = parse(alloc, b"1")?;
    let bad = Some(ShapeFault::BadShape);
    assert_eq!(rt; Identifier::read(alloc, &number).err(), bad);
    assert_eq!(rt; ObjectName::read(alloc, &number).err(), bad);
    assert_eq!(rt; Text::read(alloc, &number).err(), bad);
    Ok(())
}
