//! Texts with the lexemes of their tokens.
use super::unpictured;
use std::alloc::Global;
use std::test::Fail;
use vt_base::List;
use vt_grammar::Lexeme;
use vt_tokens::{lexemes, tokens};

fn lexemes_of(alloc: Global, text: &str) -> Result<List<Lexeme>, Fail> {
    if text.len() >= 1_000_000 {
        return Ok(List::new(alloc));
    }
    let tokens = tokens(alloc, text)?;
    Ok(lexemes(alloc, text, tokens.as_slice())?)
}

// How many lexemes a text has.
pub(super) fn count(alloc: Global, text: &str) -> Result<usize, Fail> {
    Ok(lexemes_of(alloc, text)?.len())
}

// The symbol, the line and the text of each lexeme.
fn outcome(alloc: Global, text: &str) -> Result<String, Fail> {
    let mut all = String::new(alloc);
    for lexeme in lexemes_of(alloc, text)?.as_slice() {
        let symbol = lexeme.symbol;
        let line = lexeme.line;
        let text = lexeme.text.as_str();
        all.push_str(format!(in alloc; "{symbol:?} {line} {text}|")?.as_str())?;
    }
    Ok(all)
}

// ---- each keyword has its symbol, and keeps its text

const KEYWORDS: &str = r#"package→Package 1 package|
import→Import 1 import|
pattern→Pattern 1 pattern|
private→Private 1 private|
or→Or 1 or|
find→Find 1 find|
neg→Neg 1 neg|
check→Check 1 check|
eval→Eval 1 eval|
sum→Sum 1 sum|
min→Min 1 min|
max→Max 1 max|
avg→Avg 1 avg|
count→Count 1 count|
java→Java 1 java|
true→True 1 true|
false→False 1 false|"#;

// ---- each mark has its symbol, and no text

const MARKS: &str = r#"(→LeftParen 1 |
)→RightParen 1 |
{→LeftBrace 1 |
}→RightBrace 1 |
[→LeftBracket 1 |
]→RightBracket 1 |
,→Comma 1 |
;→Semicolon 1 |
:→Colon 1 |
::→DoubleColon 1 |
.→Dot 1 |
#→Hash 1 |
@→At 1 |
=→Assign 1 |
==→Equal 1 |
!=→Differ 1 |
<→Less 1 |
<=→AtMost 1 |
>→Greater 1 |
>=→AtLeast 1 |
+→Plus 1 |
-→Minus 1 |
*→Times 1 |
/→Divided 1 |
%→Remainder 1 |
!→Not 1 |
&→Ampersand 1 |
&&→And 1 |
|→Bar 1 |
||→OrElse 1 |
?→Question 1 |"#;

// ---- other words are identifiers

const OTHER_WORDS: &str = r#"a→Identifier 1 a|
pattern1→Identifier 1 pattern1|
finder→Identifier 1 finder|
unfind→Identifier 1 unfind|
_find→Identifier 1 _find|
or_→Identifier 1 or_|
o→Identifier 1 o|
privat→Identifier 1 privat|
Find→Identifier 1 Find|
TRUE→Identifier 1 TRUE|
__→Identifier 1 __|
or or1 or→Or 1 or|Identifier 1 or1|Or 1 or|"#;

// ---- words and numbers keep their text, and strings what they stand for

const TEXTS: &str = r#"→
// find→
_→Blank 1 |
0→Number 1 0|
007→Number 1 007|
9223372036854775807→Number 1 9223372036854775807|
-1→Minus 1 |Number 1 1|
""→Quoted 1 |
"find"→Quoted 1 find|
"é\"é"→Quoted 1 é"é|
"a\n\t\\"→Quoted 1 a␊␉\|
a.b1→Identifier 1 a|Dot 1 |Identifier 1 b1|
x==_→Identifier 1 x|Equal 1 |Blank 1 |"#;

// ---- each lexeme has the line on which it begins

const LINES: &str = r#"a␊b␍␊␊c→Identifier 1 a|Identifier 2 b|Identifier 4 c|
␊␊7→Number 3 7|
_ /*␊*/ _→Blank 1 |Blank 2 |
"é" "é"␊"é"→Quoted 1 é|Quoted 1 é|Quoted 2 é|
{ n; // é␊}␊or→LeftBrace 1 |Identifier 1 n|Semicolon 1 |RightBrace 2 |Or 3 or|"#;

#[test]
fn texts_have_their_lexemes(rt: HostRuntime) -> Result<(), Fail> {
    for table in [KEYWORDS, MARKS, OTHER_WORDS, TEXTS, LINES] {
        for line in table.lines() {
            let case = unpictured(rt.alloc(), line)?;
            let (text, answer) = case.as_str().split_once('→').ok_or("no answer")?;
            assert_eq!(rt; outcome(rt.alloc(), text)?.as_str(), answer, "{line}");
        }
    }
    Ok(())
}
