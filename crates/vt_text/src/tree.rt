// Expressions as they are written.
use crate::Operator;
use sqlite_items::{Boxed, Items};
use std::alloc::Global;
use vt_base::{NoMemory, Plain, Text};

/// What an expression reads from outside: a variable or, in rules, an attribute of one.
#[derive(Debug, PartialEq, Eq, Drop)]
pub struct Slot {
    pub name: Text,
    pub attr: Option<Text>,
}

impl Plain for Slot {
    fn copy(&self, _alloc: Global) -> Result<Slot, NoMemory> {
        let attr = match &self.attr {
            Some(attr) => Some(attr.share()),
            None => None,
        };
        Ok(Slot {
            name: self.name.share(),
            attr,
        })
    }
}

/// An expression as it is written. Parentheses leave no mark but the shape of the tree.
#[derive(Debug, Drop)]
#[cycle(tree)]
pub enum ExprTree {
    Bool(bool),
    Int(i64),
    Text(Text),
    /// `Enum::LITERAL`
    Literal(Text, Text),
    Slot(Slot),
    Negative(Boxed<ExprTree>),
    Not(Boxed<ExprTree>),
    /// Operands with operators between them, which group from the left: a whole chain of one level.
    Chain(Boxed<ExprTree>, Items<OperandTree>),
}

/// An operator of a chain, and what is written to its right.
#[derive(Debug, Drop)]
#[cycle(tree)]
pub struct OperandTree {
    pub operator: Operator,
    pub expr: ExprTree,
}
