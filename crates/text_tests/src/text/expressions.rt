//! Expressions with the value that each must have.
use sqlite_items::{Boxed, Items};
use std::alloc::Global;
use std::test::Fail;
use vt_base::{ObjId, Plain, Text, Value};
use vt_text::{Expr, Operand, Operator};

// An operand of a table: `a` is a text, `1:2` a literal of an enum, and the rest are slots.
fn operand(alloc: Global, word: &str) -> Result<Expr, Fail> {
    match word {
        "true" => Ok(Expr::Bool(true)),
        "false" => Ok(Expr::Bool(false)),
        "a" => Ok(Expr::Text(Text::new(alloc, "a")?)),
        "1:2" => Ok(Expr::Enum(1, 2)),
        "1:3" => Ok(Expr::Enum(1, 3)),
        "2:2" => Ok(Expr::Enum(2, 2)),
        "object" => Ok(Expr::Slot(0)),
        "other" => Ok(Expr::Slot(1)),
        "text" => Ok(Expr::Slot(2)),
        "nothing" => Ok(Expr::Slot(3)),
        "absent" => Ok(Expr::Slot(4)),
        _ => Ok(Expr::Int(word.parse::<i64>()?)),
    }
}

fn operator(word: &str) -> Result<Operator, Fail> {
    match word {
        "||" => Ok(Operator::Or),
        "&&" => Ok(Operator::And),
        "==" => Ok(Operator::Equal),
        "!=" => Ok(Operator::Differ),
        "<" => Ok(Operator::Less),
        "<=" => Ok(Operator::AtMost),
        ">" => Ok(Operator::Greater),
        ">=" => Ok(Operator::AtLeast),
        "+" => Ok(Operator::Plus),
        "-" => Ok(Operator::Minus),
        "*" => Ok(Operator::Times),
        "/" => Ok(Operator::Divided),
        "%" => Ok(Operator::Remainder),
        _ => Err(Fail::new("no operator")),
    }
}

// Operands with operators between them.
fn chain(alloc: Global, first: Expr, rest: &str) -> Result<Expr, Fail> {
    let mut operands = Vec::new(alloc);
    let mut before = None;
    for word in rest.split_whitespace() {
        match before {
            None => before = Some(operator(word)?),
            Some(operator) => {
                let expr = operand(alloc, word)?;
                operands.push(Operand { operator, expr })?;
                before = None;
            }
        }
    }
    Ok(Expr::Chain(Boxed::new(alloc, first)?, Items::from_vec(operands)))
}

// The expression of a line: `-` or `!` and an operand, or a chain.
fn expr(alloc: Global, text: &str) -> Result<Expr, Fail> {
    let (first, rest) = text.split_once(' ').ok_or("no expression")?;
    match first {
        "-" => Ok(Expr::Negative(Boxed::new(alloc, operand(alloc, rest)?)?)),
        "!" => Ok(Expr::Not(Boxed::new(alloc, operand(alloc, rest)?)?)),
        _ => chain(alloc, operand(alloc, first)?, rest),
    }
}

fn value_text(alloc: Global, value: Option<Value>) -> Result<String, Fail> {
    match value {
        Some(Value::Bool(b)) => Ok(format!(in alloc; "{b}")?),
        Some(Value::Int(n)) => Ok(format!(in alloc; "{n}")?),
        Some(_) => Ok(String::from_str(alloc, "another")?),
        None => Ok(String::from_str(alloc, "none")?),
    }
}

// ---- arithmetic stays within 64 bits, and chains group from the left

const NUMBERS: &str = "2 + 3 → 5
9223372036854775807 + 1 → none
-9223372036854775808 + 9223372036854775807 → -1
2 - 3 → -1
-9223372036854775808 - 1 → none
-4 * 3 → -12
-9223372036854775808 * -1 → none
4294967296 * 2147483648 → none
-4294967296 * 2147483648 → -9223372036854775808
-7 / 2 → -3
7 / -2 → -3
-7 / -2 → 3
1 / 0 → none
-9223372036854775808 / -1 → none
-7 % 2 → -1
7 % -2 → 1
-7 % -2 → -1
0 % 0 → none
-9223372036854775808 % -1 → 0
1 < 2 → true
1 - 2 - 3 → -4
7 / 2 * 2 → 6
9223372036854775807 + 1 - 1 → none";

// ---- what decides comes first

const TRUTHS: &str = "false && nothing → false
true && nothing → none
nothing && false → none
true || nothing → true
false || nothing → none
nothing || true → none
false && 1 → false
true && 1 → none
1 || true → none
true && true → true
false || false → false";

// ---- what has other kinds has no value

const KINDS: &str = "1 == 1 → true
1 != 1 → false
1 == true → none
1:2 == 1:2 → true
1:2 != 1:3 → true
1:2 == 2:2 → none
a == text → true
a < text → none
object == other → false
nothing == nothing → none
absent == absent → none
2 <= 2 → true
2 > 2 → false
2 >= 3 → false
-1 < 0 → true
true < false → none
a + a → none";

// ---- one operand is turned

const TURNED: &str = "- 7 → -7
- -9223372036854775808 → none
! false → true
! 0 → none";

// A copy has the same value.
#[test]
fn expressions_have_their_values(rt: HostRuntime) -> Result<(), Fail> {
    let alloc = rt.alloc();
    let values = [
        Some(Value::Obj(ObjId(4))),
        Some(Value::Obj(ObjId(5))),
        Some(Value::Text(Text::new(alloc, "a")?)),
        None,
    ];
    for table in [NUMBERS, TRUTHS, KINDS, TURNED] {
        for line in table.lines() {
            let (text, answer) = line.split_once(" → ").ok_or("no answer")?;
            let expr = expr(alloc, text)?;
            let copy = expr.copy(alloc)?;
            let value = value_text(alloc, expr.eval(&values))?;
            assert_eq!(rt; value.as_str(), answer, "{line}");
            let value = value_text(alloc, copy.eval(&values))?;
            assert_eq!(rt; value.as_str(), answer, "a copy of {line}");
        }
    }
    Ok(())
}
