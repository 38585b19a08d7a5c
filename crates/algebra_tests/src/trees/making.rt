//! Trees as texts: what stands in a word takes the trees before it.
use sqlite_items::{Boxed, Items};
use std::alloc::Global;
use std::test::Fail;
use vt_algebra::{Op, Test};
use vt_base::{AggKind, AttrId, ClassId, List, PatternId, RefId, Tuple, Value};
use vt_text::{Expr, Operand, Operator};

// The columns of `0:1:2`.
fn columns(alloc: Global, text: &str) -> Result<List<u16>, Fail> {
    let mut columns = List::new(alloc);
    for word in text.split(':') {
        if !word.is_empty() {
            columns.add(word.parse::<u16>()?)?;
        }
    }
    Ok(columns)
}

// The pairs of `0:1:2:3`: 0 on the left with 1 on the right, and 2 with 3.
fn pairs(alloc: Global, text: &str) -> Result<List<(u16, u16)>, Fail> {
    let mut pairs = List::new(alloc);
    let mut before = None;
    for word in text.split(':') {
        if !word.is_empty() {
            let column = word.parse::<u16>()?;
            match before {
                None => before = Some(column),
                Some(left) => {
                    pairs.add((left, column))?;
                    before = None;
                }
            }
        }
    }
    Ok(pairs)
}

// The row of whole numbers `4:5`.
fn row(alloc: Global, text: &str) -> Result<Tuple, Fail> {
    let mut values = Vec::new(alloc);
    for word in text.split(':') {
        if !word.is_empty() {
            values.push(Value::Int(word.parse::<i64>()?))?;
        }
    }
    Ok(Tuple::from_slice(alloc, values.as_slice())?)
}

// The first slot, an operator, and an expression.
fn chain(alloc: Global, operator: Operator, expr: Expr) -> Result<Expr, Fail> {
    let first = Boxed::new(alloc, Expr::Slot(0))?;
    let mut operands = Vec::new(alloc);
    operands.push(Operand { operator, expr })?;
    Ok(Expr::Chain(first, Items::from_vec(operands)))
}

// The test of a word such as `same:0:1`, `is:1:7` or `above:1:6`.
fn test(alloc: Global, name: &str, rest: &str) -> Result<Test, Fail> {
    let (column, other) = rest.split_once(':').ok_or("one number alone")?;
    let i = column.parse::<u16>()?;
    match name {
        "same" => Ok(Test::Same(i, other.parse::<u16>()?)),
        "other" => Ok(Test::Other(i, other.parse::<u16>()?)),
        "is" => Ok(Test::Equals(i, Value::Int(other.parse::<i64>()?))),
        "isnt" => Ok(Test::Differs(i, Value::Int(other.parse::<i64>()?))),
        "above" => {
            let bound = Expr::Int(other.parse::<i64>()?);
            let expr = chain(alloc, Operator::Greater, bound)?;
            Ok(Test::Holds(expr, columns(alloc, column)?))
        }
        _ => {
            // the column and the next number are together more than 0
            let sum = chain(alloc, Operator::Plus, Expr::Int(other.parse::<i64>()?))?;
            let mut operands = Vec::new(alloc);
            operands.push(Operand {
                operator: Operator::Greater,
                expr: Expr::Int(0),
            })?;
            let first = Boxed::new(alloc, sum)?;
            let expr = Expr::Chain(first, Items::from_vec(operands));
            Ok(Test::Holds(expr, columns(alloc, column)?))
        }
    }
}

fn leaf(alloc: Global, name: &str, rest: &str) -> Result<Op, Fail> {
    match name {
        "A" => Ok(Op::Class(ClassId(0))),
        "B" => Ok(Op::Class(ClassId(1))),
        "C" => Ok(Op::Class(ClassId(2))),
        "n" => Ok(Op::Attr(AttrId(0))),
        "m" => Ok(Op::Attr(AttrId(1))),
        "r" => Ok(Op::Ref(RefId(0))),
        "s" => Ok(Op::Ref(RefId(1))),
        "P" => Ok(Op::Pattern(PatternId(0))),
        "Q" => Ok(Op::Pattern(PatternId(1))),
        "row" => Ok(Op::Const(row(alloc, rest)?)),
        _ => Err(Fail::new("no leaf")),
    }
}

fn over_one(alloc: Global, name: &str, rest: &str, a: Op) -> Result<Op, Fail> {
    let a = Boxed::new(alloc, a)?;
    match name {
        "pick" => Ok(Op::Project(a, columns(alloc, rest)?)),
        "plus" => {
            let expr = chain(alloc, Operator::Plus, Expr::Slot(1))?;
            Ok(Op::Extend(a, expr, columns(alloc, rest)?))
        }
        _ => Ok(Op::Select(a, test(alloc, name, rest)?)),
    }
}

fn over_two(alloc: Global, name: &str, rest: &str, a: Op, b: Op) -> Result<Op, Fail> {
    let a = Boxed::new(alloc, a)?;
    let b = Boxed::new(alloc, b)?;
    match name {
        "join" => Ok(Op::Join(a, b, pairs(alloc, rest)?)),
        "union" => Ok(Op::Union(a, b)),
        "anti" => Ok(Op::AntiJoin(a, b, pairs(alloc, rest)?)),
        _ => {
            let (column, more) = rest.split_once(':').unwrap_or((rest, ""));
            let column = column.parse::<u16>()?;
            let kind = match name {
                "sum" => AggKind::Sum,
                "min" => AggKind::Min,
                _ => AggKind::Max,
            };
            Ok(Op::Aggregate(a, b, pairs(alloc, more)?, kind, column))
        }
    }
}

// The tree of a text such as `r n join:1:0 pick:3`.
pub(super) fn tree(alloc: Global, text: &str) -> Result<Op, Fail> {
    let mut stack = Vec::new(alloc);
    for word in text.split(' ') {
        let (name, rest) = word.split_once(':').unwrap_or((word, ""));
        let next = match name {
            "same" | "other" | "is" | "isnt" | "above" | "grows" | "plus" | "pick" => {
                let a = stack.pop().ok_or("no tree")?;
                over_one(alloc, name, rest, a)?
            }
            "join" | "union" | "anti" | "sum" | "min" | "max" => {
                let b = stack.pop().ok_or("no tree")?;
                let a = stack.pop().ok_or("one tree alone")?;
                over_two(alloc, name, rest, a, b)?
            }
            _ => leaf(alloc, name, rest)?,
        };
        stack.push(next)?;
    }
    Ok(stack.pop().ok_or("no tree")?)
}
