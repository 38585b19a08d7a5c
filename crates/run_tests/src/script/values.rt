//! The values that a line gives to an attribute.
use super::{outcome, unpictured};
use std::alloc::Global;
use std::test::Fail;

const TRUTHS_AND_NUMBERS: &str = r#"true→true
false→false
True→none
trues→none
true →none
0→0
-0→0
-00→0
7→7
007→7
-5→-5
-05→-5
9223372036854775807→9223372036854775807
9223372036854775808→none
-9223372036854775807→-9223372036854775807
-9223372036854775808→none
000000000000000000000000000009→9
18446744073709551617→none
- 5→none
--5→none
+5→none
-+5→none
-→none
5 →none
 5→none
5x→none
5_→none
5.0→none
1e3→none
Signal::GO→none
x→none"#;

// ---- a string ends the line with its second quote

const STRINGS: &str = r#"""→<>
"a"→<a>
" a  b "→< a  b >
"é–"→<é–>
"\"→none
"\"""→none
"\"\\\n\t"→<"\␊␉>
"\\"→<\>
"a␉b␋"→<a␉b␋>
"a␍b"→<a␍b>
"// x"→<// x>
"→none
"a→none
"a"b→none
"a" →none
"a" b→none
"a""→none
"a""b"→none
"a\→none
"\r"→none
"\q"→none
"\u0041"→none
'a'→none
a"b"→none
 "a"→none"#;

// What a line gives that sets an attribute to a value.
fn given(alloc: Global, value: &str) -> Result<String, Fail> {
    let text = format!(in alloc; "change c set x a {value}")?;
    let outcome = outcome(alloc, text.as_bytes())?;
    let Some(set) = outcome.as_str().strip_prefix("Change c Set x a ") else {
        return Ok(String::from_str(alloc, "none")?);
    };
    Ok(String::from_str(alloc, set.strip_suffix(';').unwrap_or(set))?)
}

#[test]
fn values_are_read(rt: HostRuntime) -> Result<(), Fail> {
    for table in [TRUTHS_AND_NUMBERS, STRINGS] {
        for line in table.lines() {
            let case = unpictured(rt.alloc(), line)?;
            let (value, wanted) = case.as_str().split_once('→').ok_or("no answer")?;
            assert_eq!(rt; given(rt.alloc(), value)?.as_str(), wanted, "{line}");
        }
    }
    Ok(())
}
