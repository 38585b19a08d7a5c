// Whether two trees are the same.
ghost use Rattle.std.specs.Prelude.{◌≡◌, ◌↔◌, IsTrue};

use crate::{Op, Test};
use vt_base::{Tuple, Value};
use vt_text::{Expr, Operand};

fn same_value(v: &Value, w: &Value) -> bool
    ensures { IsTrue result ↔ (v.now ≡ w.now) }
{
    v.compare(w).is_eq()
}

fn same_tuple(s: &Tuple, t: &Tuple) -> bool
    ensures { IsTrue result ↔ (s.now ≡ t.now) }
{
    s.compare(t).is_eq()
}

fn same_pairs(pairs: &[(u16, u16)], others: &[(u16, u16)]) -> bool
    ensures { IsTrue result ↔ (pairs.now ≡ others.now) }
{
    pairs == others
}

/// Whether two expressions are the same. Different ones may well have the same values.
#[cycle(same)]
pub fn same_expr(a: &Expr, b: &Expr) -> bool
    ensures { IsTrue result ↔ (a.now ≡ b.now) }
{
    match (a, b) {
        (Expr::Bool(x), Expr::Bool(y)) => x == y,
        (Expr::Int(x), Expr::Int(y)) => x == y,
        (Expr::Text(x), Expr::Text(y)) => x == y,
        (Expr::Enum(x, l), Expr::Enum(y, m)) => x == y && l == m,
        (Expr::Slot(x), Expr::Slot(y)) => x == y,
        (Expr::Negative(x), Expr::Negative(y)) => same_expr(x.get(), y.get()),
        (Expr::Not(x), Expr::Not(y)) => same_expr(x.get(), y.get()),
        (Expr::Chain(x, more), Expr::Chain(y, others)) => same_expr(x.get(), y.get())
            && same_operands(more.as_slice(), others.as_slice()),
        _ => false,
    }
}

#[cycle(same)]
fn same_operands(operands: &[Operand], others: &[Operand]) -> bool
    ensures { IsTrue result ↔ (operands.now ≡ others.now) }
{
    let mut left = others;
    for operand in operands {
        let Some((other, more)) = left.split_first() else {
            return false;
        };
        if operand.operator != other.operator || !same_expr(&operand.expr, &other.expr) {
            return false;
        }
        left = more;
    }
    left.is_empty()
}

impl Test {
    /// Whether the tests are the same.
    pub fn same(&self, other: &Test) -> bool
        ensures { IsTrue result ↔ (self.now ≡ other.now) }
    {
        match (self, other) {
            (Test::Same(i, j), Test::Same(k, l)) => i == k && j == l,
            (Test::Other(i, j), Test::Other(k, l)) => i == k && j == l,
            (Test::Equals(i, v), Test::Equals(j, w)) => i == j && same_value(v, w),
            (Test::Differs(i, v), Test::Differs(j, w)) => i == j && same_value(v, w),
            (Test::Holds(a, s), Test::Holds(b, t)) => same_expr(a, b)
                && s.as_slice() == t.as_slice(),
            _ => false,
        }
    }
}

impl Op {
    /// Whether the trees are the same. Different ones may well have the same rows.
    pub fn same(&self, other: &Op) -> bool
        ensures { IsTrue result ↔ (self.now ≡ other.now) }
    {
        match (self, other) {
            (Op::Class(c), Op::Class(d)) => c == d,
            (Op::Attr(c), Op::Attr(d)) => c == d,
            (Op::Ref(c), Op::Ref(d)) => c == d,
            (Op::Pattern(p), Op::Pattern(q)) => p == q,
            (Op::Const(s), Op::Const(t)) => same_tuple(s, t),
            (Op::Select(a, t), Op::Select(b, u)) => a.get().same(b.get()) && t.same(u),
            (Op::Extend(a, e, s), Op::Extend(b, f, t)) => a.get().same(b.get())
                && same_expr(e, f)
                && s.as_slice() == t.as_slice(),
            (Op::Project(a, s), Op::Project(b, t)) => a.get().same(b.get())
                && s.as_slice() == t.as_slice(),
            (Op::Join(a, b, s), Op::Join(c, d, t)) => a.get().same(c.get())
                && b.get().same(d.get())
                && same_pairs(s.as_slice(), t.as_slice()),
            (Op::Union(a, b), Op::Union(c, d)) => a.get().same(c.get()) && b.get().same(d.get()),
            (Op::AntiJoin(a, b, s), Op::AntiJoin(c, d, t)) => a.get().same(c.get())
                && b.get().same(d.get())
                && same_pairs(s.as_slice(), t.as_slice()),
            (Op::Aggregate(a, b, s, k, i), Op::Aggregate(c, d, t, l, j)) => {
                a.get().same(c.get())
                    && b.get().same(d.get())
                    && same_pairs(s.as_slice(), t.as_slice())
                    && k == l
                    && i == j
            }
            _ => false,
        }
    }
}
