//! Expressions as they are written, with their kind, their value and their slots.
use super::repeated;
use std::alloc::Global;
use std::test::Fail;
use vt_base::{Kind, List, Names, NoMemory, ObjId, Plain, Text, Value};
use vt_text::{Expr, ExprFault, Parsed, Slot, parse_expr, read_expr};
use vt_tokens::{all_are_among, lexemes, tokens};

// One enum with two literals.
#[derive(Drop)]
struct Sizes {
    size: Text,
    small: Text,
    large: Text,
}

impl Names for Sizes {
    ghost use Rattle.std.specs.Prelude.{[], ◌∷◌};

    ghost enums = { λ s. record { name = s.size; literals = s.small ∷ s.large ∷ [] } ∷ [] };

    ghost objects = { λ s. [] };

    fn literal_named(&self, enum_name: &str, literal: &str) -> Option<(u16, u16)> {
        if enum_name != self.size.as_str() {
            None
        } else if literal == self.small.as_str() {
            Some((0, 0))
        } else if literal == self.large.as_str() {
            Some((0, 1))
        } else {
            None
        }
    }

    fn literal_text(&self, e: u16, l: u16) -> Option<(&Text, &Text)> {
        match (e, l) {
            (0, 0) => Some((&self.size, &self.small)),
            (0, 1) => Some((&self.size, &self.large)),
            _ => None,
        }
    }

    fn object_text(&self, _o: ObjId) -> Option<&Text> {
        None
    }
}

fn two_sizes(alloc: Global) -> Result<Sizes, NoMemory> {
    Ok(Sizes {
        size: Text::new(alloc, "Size")?,
        small: Text::new(alloc, "SMALL")?,
        large: Text::new(alloc, "find")?,
    })
}

// The kind and the value that a slot of this name has in the tables.
fn given(alloc: Global, name: &str) -> Result<(Kind, Option<Value>), Fail> {
    match name {
        "a" => Ok((Kind::Int, Some(Value::Int(10)))),
        "b" => Ok((Kind::Int, Some(Value::Int(3)))),
        "c" => Ok((Kind::Int, Some(Value::Int(2)))),
        "p" => Ok((Kind::Bool, Some(Value::Bool(true)))),
        "q" => Ok((Kind::Bool, Some(Value::Bool(false)))),
        "s" => Ok((Kind::Text, Some(Value::Text(Text::new(alloc, "x")?)))),
        "e" => Ok((Kind::Enum(0), Some(Value::Enum(0, 1)))),
        "o" => Ok((Kind::Obj, Some(Value::Obj(ObjId(4))))),
        _ => Ok((Kind::Int, None)),
    }
}

fn kind_text(kind: Kind) -> &'static str {
    match kind {
        Kind::Bool => "bool",
        Kind::Int => "int",
        Kind::Text => "text",
        Kind::Enum(_) => "enum",
        Kind::Obj => "obj",
    }
}

fn value_text(alloc: Global, value: Option<Value>) -> Result<String, Fail> {
    match value {
        Some(Value::Bool(b)) => Ok(format!(in alloc; "{b}")?),
        Some(Value::Int(n)) => Ok(format!(in alloc; "{n}")?),
        Some(Value::Text(text)) => Ok(String::from_str(alloc, text.as_str())?),
        Some(Value::Enum(e, l)) => Ok(format!(in alloc; "{e}:{l}")?),
        Some(Value::Obj(_)) => Ok(String::from_str(alloc, "object")?),
        None => Ok(String::from_str(alloc, "none")?),
    }
}

// The slots in their order.
fn slots_text(alloc: Global, slots: &[Slot]) -> Result<String, Fail> {
    let mut text = String::new(alloc);
    for slot in slots {
        text.push(' ')?;
        text.push_str(slot.name.as_str())?;
        if let Some(attr) = &slot.attr {
            text.push('.')?;
            text.push_str(attr.as_str())?;
        }
    }
    Ok(text)
}

// The kind, the value and the slots of an expression, and those of its copy.
fn shown(alloc: Global, expr: &Expr, slots: &[Slot]) -> Result<String, Fail> {
    let mut kinds = List::new(alloc);
    let mut values = List::new(alloc);
    for slot in slots {
        let (kind, value) = given(alloc, slot.name.as_str())?;
        kinds.add(kind)?;
        values.add(value)?;
    }
    let kind = match expr.kind(kinds.as_slice()) {
        Ok(kind) => kind_text(kind),
        Err(_) => "clash",
    };
    let value = value_text(alloc, expr.eval(values.as_slice()))?;
    let value = value.as_str();
    let names = slots_text(alloc, slots)?;
    let names = names.as_str();
    Ok(format!(in alloc; "{kind} {value}{names}")?)
}

fn parsed(alloc: Global, text: &str, attributes: bool) -> Result<Parsed, ExprFault> {
    if text.len() >= 1_000_000 {
        return Err(ExprFault::NoMemory);
    }
    let tokens = match tokens(alloc, text) {
        Ok(tokens) => tokens,
        Err(_) => return Err(ExprFault::NoMemory),
    };
    let lexemes = lexemes(alloc, text, tokens.as_slice())?;
    let names = two_sizes(alloc)?;
    read_expr(alloc, lexemes.as_slice(), attributes, &names)
}

fn told(alloc: Global, parsed: Result<Parsed, ExprFault>) -> Result<String, Fail> {
    match parsed {
        Ok(parsed) => shown(alloc, &parsed.expr, parsed.slots.as_slice()),
        Err(ExprFault::NotExpr) => Ok(String::from_str(alloc, "no expression")?),
        Err(ExprFault::UnknownLiteral) => Ok(String::from_str(alloc, "unknown literal")?),
        Err(ExprFault::NoMemory) => Ok(String::from_str(alloc, "no memory")?),
    }
}

fn outcome(alloc: Global, text: &str, attributes: bool) -> Result<String, Fail> {
    told(alloc, parsed(alloc, text, attributes))
}

// ---- levels, and what groups from the left

const LEVELS: &str = r#"-7 / 2 → int -3
1 / 0 == 1 || true → bool none
true || 1 / 0 == 1 → bool true
a - b - c → int 5 a b c
a - (b - c) → int 9 a b c
a / b * c → int 6 a b c
a - b * c → int 4 a b c
(a - b) * c → int 14 a b c
a % b % c → int 1 a b c
- a + b → int -7 a b
-(a + b) → int -13 a b
- - a → int 10 a
a < b == q → no expression
(a < b) == q → bool true a b q
a + b > c * c → bool true a b c
a < b || b < a && p → bool true a b p
p || q && q → bool true p q
(p || q) && q → bool false p q
!p || p → bool true p
!(p || p) → bool false p
! ! p → bool true p
a == a && a != b → bool true a b"#;

// ---- what stands alone

const ALONE: &str = r#"7 → int 7
007 → int 7
9223372036854775807 → int 9223372036854775807
- 9223372036854775807 - 1 → int -9223372036854775808
"" → text 
"a\n\t\"\\" → text a␊␉"\
"é // é" → text é // é
true → bool true
Size::SMALL → enum 0:0
Size::find → enum 0:1
Size::SMALL == e → bool false e
e != Size::find → bool false e
Size::true → unknown literal
Size::small → unknown literal
Nil::SMALL → unknown literal
p || Nil::SMALL == Nil::SMALL → unknown literal
Nil::SMALL + → no expression
Size::1 → no expression
Size:: → no expression
true::SMALL → no expression
s == "x" → bool true s
a → int 10 a
o → obj object o
o == o → bool true o
c + b + c + a + b → int 20 c b a"#;

// ---- what is no expression

const NONE: &str = r#"→no expression
1 +→no expression
+ 1→no expression
* 1→no expression
-→no expression
()→no expression
(1→no expression
1)→no expression
a < b < c→no expression
a == b == c→no expression
a == b < c→no expression
_→no expression
_ + 1→no expression
find→no expression
sum + 1→no expression
a b→no expression
1 2→no expression
"a" "b"→no expression
a.b→no expression
f(1)→no expression
a = b→no expression
a & b→no expression
a | b→no expression
a[1]→no expression
#a→no expression
a; b→no expression
a ? b : c→no expression"#;

// ---- kinds

const KINDS: &str = r#"1 + true → clash none
p < q → clash none p q
s < s → clash none s
s + s → clash none s
a == p → clash none a p
e == 1 → clash none e
!a → clash none a
-p → clash none p
a && p → clash none a p
p || 1 → clash true p
n + 1 → int none n
n == n → bool none n"#;

// ---- attributes of variables

const ATTRIBUTES: &str = r#"a.x → int 10 a.x
1 - a.length → int -9 a.length
a.x + a.y + a.x → int 30 a.x a.y
a.x + a → int 20 a.x a
a.count + b.find → int 13 a.count b.find
a.x.y → no expression
a. → no expression
.x → no expression
a.1 → no expression
a._ → no expression
Size::SMALL == e.x → bool false e.x
Size::SMALL.x → no expression
a.Size::SMALL → no expression
find.x → no expression"#;

#[test]
fn expressions_have_their_kinds_values_and_slots(rt: HostRuntime) -> Result<(), Fail> {
    for table in [LEVELS, ALONE, KINDS] {
        for line in table.lines() {
            let case = super::unpictured(rt.alloc(), line)?;
            let (text, answer) = case.as_str().split_once(" → ").ok_or("no answer")?;
            assert_eq!(rt;
                outcome(rt.alloc(), text, false)?.as_str(),
                answer,
                "{line}"
            );
        }
    }
    for line in NONE.lines() {
        let (text, answer) = line.split_once('→').ok_or("no answer")?;
        assert_eq!(rt;
            outcome(rt.alloc(), text, false)?.as_str(),
            answer,
            "{line}"
        );
    }
    for line in ATTRIBUTES.lines() {
        let (text, answer) = line.split_once(" → ").ok_or("no answer")?;
        assert_eq!(rt; outcome(rt.alloc(), text, true)?.as_str(), answer, "{line}");
    }
    Ok(())
}

// ---- depth

// What an expression in so many nested marks is.
fn nested(alloc: Global, open: &str, inner: &str, close: &str, n: u32) -> Result<String, Fail> {
    let mut text = repeated(alloc, open, n)?;
    text.push_str(inner)?;
    text.push_str(repeated(alloc, close, n)?.as_str())?;
    outcome(alloc, text.as_str(), false)
}

#[test]
fn unary_operators_and_parentheses_nest_64_deep(rt: HostRuntime) -> Result<(), Fail> {
    let alloc = rt.alloc();
    let none = "no expression";
    assert_eq!(rt; nested(alloc, "(", "1", ")", 64)?.as_str(), "int 1");
    assert_eq!(rt; nested(alloc, "(", "1", ")", 65)?.as_str(), none);
    assert_eq!(rt; nested(alloc, "-", "1", "", 64)?.as_str(), "int 1");
    assert_eq!(rt; nested(alloc, "-", "1", "", 65)?.as_str(), none);
    assert_eq!(rt; nested(alloc, "!", "true", "", 63)?.as_str(), "bool false");
    assert_eq!(rt; nested(alloc, "!", "true", "", 65)?.as_str(), none);
    assert_eq!(rt; nested(alloc, "-(", "1", ")", 32)?.as_str(), "int 1");
    assert_eq!(rt; nested(alloc, "-(", "1", ")", 33)?.as_str(), none);
    assert_eq!(rt; nested(alloc, "(1 + ", "-1", ")", 63)?.as_str(), "int 62");
    assert_eq!(rt; nested(alloc, "(1 + ", "-1", ")", 64)?.as_str(), none);
    Ok(())
}

// ---- tokens of a text

fn of_tokens(alloc: Global, text: &str) -> Result<Parsed, ExprFault> {
    if text.len() >= 1_000_000 {
        return Err(ExprFault::NoMemory);
    }
    let tokens = match tokens(alloc, text) {
        Ok(tokens) => tokens,
        Err(_) => return Err(ExprFault::NoMemory),
    };
    let names = two_sizes(alloc)?;
    all_are_among();
    parse_expr(alloc, text, tokens.as_slice(), true, &names)
}

#[test]
fn tokens_are_parsed(rt: HostRuntime) -> Result<(), Fail> {
    let alloc = rt.alloc();
    let whole = told(alloc, of_tokens(alloc, "a.x + b == 13 && e == Size::find"))?;
    assert_eq!(rt; whole.as_str(), "bool true a.x b e");
    let cut = told(alloc, of_tokens(alloc, "a +"))?;
    assert_eq!(rt; cut.as_str(), "no expression");
    let other = told(alloc, of_tokens(alloc, "Size::a"))?;
    assert_eq!(rt; other.as_str(), "unknown literal");
    Ok(())
}

// ---- long chains

#[test]
fn a_long_chain_is_read_copied_and_evaluated(rt: HostRuntime) -> Result<(), Fail> {
    let alloc = rt.alloc();
    let mut text = repeated(alloc, "a - ", 100_000)?;
    text.push('b')?;
    let parsed = parsed(alloc, text.as_str(), false)?;
    let copy = parsed.expr.copy(alloc)?;
    let slots = parsed.slots.as_slice();
    assert_eq!(rt; shown(alloc, &copy, slots)?.as_str(), "int -999983 a b");
    Ok(())
}
