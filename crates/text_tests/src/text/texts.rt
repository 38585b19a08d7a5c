//! Texts with the tokens that they spell, or with the line on which they are bad.
use super::{repeated, unpictured};
use std::alloc::Global;
use std::test::Fail;
use vt_tokens::{Token, TokenFault, tokens};

// The kind, the line and the bytes of each token, or the line on which the text is bad.
fn outcome(alloc: Global, text: &str) -> Result<String, Fail> {
    if text.len() >= 1_000_000 {
        return Ok(String::from_str(alloc, "too long")?);
    }
    match tokens(alloc, text) {
        Ok(tokens) => listed(alloc, text, tokens.as_slice()),
        Err(TokenFault::Bad { line }) => Ok(format!(in alloc; "bad {line}")?),
        Err(TokenFault::NoMemory) => Ok(String::from_str(alloc, "no memory")?),
    }
}

fn listed(alloc: Global, text: &str, tokens: &[Token]) -> Result<String, Fail> {
    let mut all = String::new(alloc);
    for token in tokens {
        let kind = token.kind;
        let line = token.line;
        let bytes = text
            .get(token.start as usize..token.end as usize)
            .unwrap_or("no slice");
        all.push_str(format!(in alloc; "{kind:?} {line} {bytes}|")?.as_str())?;
    }
    Ok(all)
}

// ---- each mark is a token

const MARKS: &str = r#"(→Mark 1 (|
)→Mark 1 )|
{→Mark 1 {|
}→Mark 1 }|
[→Mark 1 [|
]→Mark 1 ]|
,→Mark 1 ,|
;→Mark 1 ;|
:→Mark 1 :|
::→Mark 1 ::|
.→Mark 1 .|
#→Mark 1 #|
@→Mark 1 @|
=→Mark 1 =|
==→Mark 1 ==|
!=→Mark 1 !=|
<→Mark 1 <|
<=→Mark 1 <=|
>→Mark 1 >|
>=→Mark 1 >=|
+→Mark 1 +|
-→Mark 1 -|
*→Mark 1 *|
/→Mark 1 /|
%→Mark 1 %|
!→Mark 1 !|
&→Mark 1 &|
&&→Mark 1 &&|
|→Mark 1 ||
||→Mark 1 |||
?→Mark 1 ?|"#;

// ---- the longest token is taken

const LONGEST: &str = r#":::→Mark 1 ::|Mark 1 :|
===→Mark 1 ==|Mark 1 =|
a=b→Word 1 a|Mark 1 =|Word 1 b|
<==→Mark 1 <=|Mark 1 =|
!==→Mark 1 !=|Mark 1 =|
>=<→Mark 1 >=|Mark 1 <|
<>→Mark 1 <|Mark 1 >|
=!→Mark 1 =|Mark 1 !|
&&&→Mark 1 &&|Mark 1 &|
|||→Mark 1 |||Mark 1 ||
- -1→Mark 1 -|Mark 1 -|Number 1 1|
a::b.c→Word 1 a|Mark 1 ::|Word 1 b|Mark 1 .|Word 1 c|
/ /→Mark 1 /|Mark 1 /|
*/→Mark 1 *|Mark 1 /|
→
a_1Z→Word 1 a_1Z|
_→Blank 1 _|
_ _a __→Blank 1 _|Word 1 _a|Word 1 __|
_,_→Blank 1 _|Mark 1 ,|Blank 1 _|
0→Number 1 0|
007→Number 1 007|
1.5→Number 1 1|Mark 1 .|Number 1 5|
1"a"→Number 1 1|Quoted 1 "a"|
1a→bad 1
1_→bad 1
0x10→bad 1
9223372036854775807→Number 1 9223372036854775807|
9223372036854775808→bad 1
10000000000000000000→bad 1
000000000000000000009223372036854775807→Number 1 000000000000000000009223372036854775807|
9999999999999999999999999999999999999999999999→bad 1"#;

// ---- a string stands on one line

const STRINGS: &str = r#"""→Quoted 1 ""|
"a b"→Quoted 1 "a b"|
"\"\\\n\t"→Quoted 1 "\"\\\n\t"|
"a""b"→Quoted 1 "a"|Quoted 1 "b"|
"\\"a→Quoted 1 "\\"|Word 1 a|
"// /* */"→Quoted 1 "// /* */"|
"é␀␉'"→Quoted 1 "é␀␉'"|
"a␍b"→Quoted 1 "a␍b"|
"""→bad 1
"a→bad 1
"\"→bad 1
"\→bad 1
"\r"→bad 1
"\q"→bad 1
"a␊"→bad 1
"a\␊"→bad 1
"a␍␊"→bad 1
a␊"b␊c"→bad 2
'a'→bad 1"#;

// ---- what stands between tokens is passed, and lines are counted

const SEPARATORS: &str = r#" ␉␊→
a // b␊c→Word 1 a|Word 2 c|
a//→Word 1 a|
a///* b␊c→Word 1 a|Word 2 c|
// b␍␍␊c→Word 2 c|
// b␍c␊d→Word 2 d|
// é␊a→Word 2 a|
/**/a→Word 1 a|
/***/a→Word 1 a|
a/* // */b→Word 1 a|Word 1 b|
/*/*/a→Word 1 a|
/* /* */ a */→Word 1 a|Mark 1 *|Mark 1 /|
/* "*/ a→Word 1 a|
/* é␊*␊ */ a→Word 3 a|
/*␊*//*␊*/a␊b→Word 3 a|Word 4 b|
/*␍␊*/a→Word 2 a|
a␊/* b␊ c→bad 2
a␊/*/␊→bad 2
/*→bad 1
␊␊␊a→Word 4 a|
a␍␊b␍␊→Word 1 a|Word 2 b|
a␍b→bad 1
a␊␍→bad 2
a␍␍␊b→bad 1
a␋b→bad 1
␌→bad 1
␢a→bad 1
aé→bad 1
a␊␊ é→bad 3
a $→bad 1
a␊1a $→bad 2"#;

#[test]
fn texts_spell_their_tokens_or_are_bad_on_a_line(rt: HostRuntime) -> Result<(), Fail> {
    for table in [MARKS, LONGEST, STRINGS, SEPARATORS] {
        for line in table.lines() {
            let case = unpictured(rt.alloc(), line)?;
            let (text, answer) = case.as_str().split_once('→').ok_or("no answer")?;
            assert_eq!(rt; outcome(rt.alloc(), text)?.as_str(), answer, "{line}");
        }
    }
    Ok(())
}

// ---- long texts

// How many tokens a text has, and the line of the last.
fn counted(alloc: Global, text: &str) -> Result<(usize, u32), Fail> {
    if text.len() >= 1_000_000 {
        return Ok((0, 0));
    }
    let tokens = tokens(alloc, text)?;
    let last = tokens.as_slice().last().map_or(0, |token| token.line);
    Ok((tokens.len(), last))
}

#[test]
fn a_long_text_is_read(rt: HostRuntime) -> Result<(), Fail> {
    let lines = repeated(rt.alloc(), "word 12 \"string\" /* x\n */ :: // y\n", 3_000)?;
    assert_eq!(rt; counted(rt.alloc(), lines.as_str())?, (12_000, 6_000));
    assert_eq!(rt; super::lexemes::count(rt.alloc(), lines.as_str())?, 12_000);

    let word = repeated(rt.alloc(), "word", 25_000)?;
    assert_eq!(rt; counted(rt.alloc(), word.as_str())?, (1, 1));

    let comment = repeated(rt.alloc(), "/* * ", 20_000)?;
    assert_eq!(rt; outcome(rt.alloc(), comment.as_str())?.as_str(), "bad 1");
    Ok(())
}
