// The value of an expression. Nothing here takes memory.
ghost use Rattle.std.specs.Prelude.{◌≡◌};
ghost use Rattle.vt_text.specs.Operators.{negative, negation, equal, both_hold, either_holds, on_ints, applied, remainder};
ghost use Rattle.vt_text.specs.Expression.{value_of, slot_value};
ghost use Rattle.vt_text.specs.Inside.Chains.{chain_value};

use crate::{Expr, Operand, Operator};
use vt_base::Value;

impl Expr {
    /// The value of the expression over slots, where it has one. `None` among the values is a slot
    /// without one.
    #[cycle(eval)]
    #[tactic(auto, using(crate::proofs::ExpressionLemmas::boxed))]
    pub fn eval(&self, values: &[Option<Value>]) -> Option<Value>
        ensures { result ≡ value_of self.now values.now }
    {
        match self {
            Expr::Bool(b) => Some(Value::Bool(*b)),
            Expr::Int(n) => Some(Value::Int(*n)),
            Expr::Text(text) => Some(Value::Text(text.share())),
            Expr::Enum(e, l) => Some(Value::Enum(*e, *l)),
            Expr::Slot(i) => slot(values, *i),
            Expr::Negative(a) => negated(a.get().eval(values)),
            Expr::Not(a) => not(a.get().eval(values)),
            Expr::Chain(first, rest) => chain(first.get().eval(values), rest.as_slice(), values),
        }
    }
}

// The value of a chain whose first operand has this value.
#[cycle(eval)]
fn chain(first: Option<Value>, rest: &[Operand], values: &[Option<Value>]) -> Option<Value>
    ensures { result ≡ chain_value first rest.now values.now }
{
    let mut value = first;
    for operand in rest {
        value = apply(operand.operator, value, operand.expr.eval(values));
    }
    value
}

// The value of a slot.
fn slot(values: &[Option<Value>], i: usize) -> Option<Value>
    ensures { result ≡ slot_value values.now i }
{
    match values.get(i) {
        Some(Some(value)) => Some(value.share()),
        _ => None,
    }
}

fn negated(x: Option<Value>) -> Option<Value>
    ensures { result ≡ negative x }
{
    match x {
        Some(Value::Int(n)) => Some(Value::Int(n.checked_neg()?)),
        _ => None,
    }
}

fn not(x: Option<Value>) -> Option<Value>
    ensures { result ≡ negation x }
{
    match x {
        Some(Value::Bool(b)) => Some(Value::Bool(!b)),
        _ => None,
    }
}

fn either(x: Option<Value>, y: Option<Value>) -> Option<Value>
    ensures { result ≡ either_holds x y }
{
    match (x, y) {
        (Some(Value::Bool(true)), _) => Some(Value::Bool(true)),
        (Some(Value::Bool(false)), Some(Value::Bool(b))) => Some(Value::Bool(b)),
        _ => None,
    }
}

fn both(x: Option<Value>, y: Option<Value>) -> Option<Value>
    ensures { result ≡ both_hold x y }
{
    match (x, y) {
        (Some(Value::Bool(false)), _) => Some(Value::Bool(false)),
        (Some(Value::Bool(true)), Some(Value::Bool(b))) => Some(Value::Bool(b)),
        _ => None,
    }
}

// Whether two values of one kind are equal.
fn are_equal(x: Option<Value>, y: Option<Value>) -> Option<bool>
    ensures { result ≡ equal x y }
{
    match (x?, y?) {
        (Value::Bool(a), Value::Bool(b)) => Some(a == b),
        (Value::Int(a), Value::Int(b)) => Some(a == b),
        (Value::Text(a), Value::Text(b)) => Some(a == b),
        (Value::Enum(a, l), Value::Enum(b, m)) if a == b => Some(l == m),
        (Value::Obj(a), Value::Obj(b)) => Some(a == b),
        _ => None,
    }
}

// A remainder has the sign of what is divided. That of -1 is 0, also where the quotient is too
// great.
fn remainder_of(x: i64, y: i64) -> Option<Value>
    ensures { result ≡ remainder x y }
{
    if y == 0 {
        None
    } else if y == -1 {
        Some(Value::Int(0))
    } else {
        Some(Value::Int(x % y))
    }
}

fn arithmetic(operator: Operator, x: i64, y: i64) -> Option<Value>
    ensures { result ≡ on_ints operator x y }
{
    match operator {
        Operator::Less => Some(Value::Bool(x < y)),
        Operator::AtMost => Some(Value::Bool(x <= y)),
        Operator::Greater => Some(Value::Bool(x > y)),
        Operator::AtLeast => Some(Value::Bool(x >= y)),
        Operator::Plus => Some(Value::Int(x.checked_add(y)?)),
        Operator::Minus => Some(Value::Int(x.checked_sub(y)?)),
        Operator::Times => Some(Value::Int(x.checked_mul(y)?)),
        Operator::Divided => Some(Value::Int(x.checked_div(y)?)),
        Operator::Remainder => remainder_of(x, y),
        _ => None,
    }
}

// What an operator gives of two operands.
fn apply(operator: Operator, x: Option<Value>, y: Option<Value>) -> Option<Value>
    ensures { result ≡ applied operator x y }
{
    match operator {
        Operator::Or => either(x, y),
        Operator::And => both(x, y),
        Operator::Equal => Some(Value::Bool(are_equal(x, y)?)),
        Operator::Differ => Some(Value::Bool(!are_equal(x, y)?)),
        _ => match (x, y) {
            (Some(Value::Int(a)), Some(Value::Int(b))) => arithmetic(operator, a, b),
            _ => None,
        },
    }
}
