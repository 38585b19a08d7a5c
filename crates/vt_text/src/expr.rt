// Expressions over numbered slots.
use sqlite_items::{Boxed, Items};
use vt_base::Text;

/// What stands between two operands.
#[derive(Clone, Copy, Debug, PartialEq, Eq)]
pub enum Operator {
    Or,
    And,
    Equal,
    Differ,
    Less,
    AtMost,
    Greater,
    AtLeast,
    Plus,
    Minus,
    Times,
    Divided,
    Remainder,
}

/// An expression. Its values come from slots, which it names by their places in a list.
#[derive(Debug, Drop)]
#[cycle(expr)]
pub enum Expr {
    Bool(bool),
    Int(i64),
    Text(Text),
    /// The number of an enum, and of a literal of it.
    Enum(u16, u16),
    Slot(usize),
    Negative(Boxed<Expr>),
    Not(Boxed<Expr>),
    /// Operands with operators between them, which group from the left. A whole chain of one level
    /// is one node, so that an expression is no deeper than its text is nested.
    Chain(Boxed<Expr>, Items<Operand>),
}

/// An operator of a chain, and what stands to its right.
#[derive(Debug, Drop)]
#[cycle(expr)]
pub struct Operand {
    pub operator: Operator,
    pub expr: Expr,
}
