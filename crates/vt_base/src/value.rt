// Values, their order, and the kinds that they have.
ghost use Rattle.std.specs.Prelude.{◌≡◌};
ghost use Rattle.vt_base.specs.Order.{value_cmp};

use crate::{ObjId, Text};
use std::alloc::Global;
use std::cmp::Ordering;
use std::default::MadeWith;

/// A value of an attribute, or an object. The order of the variants is the order of values of
/// different kinds; within a kind it is false before true, by size, by bytes, by pair, by number.
#[derive(Debug, Drop, PartialEq, Eq, PartialOrd, Ord)]
pub enum Value {
    Bool(bool),
    Int(i64),
    Text(Text),
    /// The number of an enum, and of a literal of it.
    Enum(u16, u16),
    Obj(ObjId),
}

impl Value {
    /// The same value. A text in it has one more owner, so it takes no memory and can't fail.
    pub fn share(&self) -> Value
        ensures { result ≡ self.now }
    {
        match self {
            Value::Bool(b) => Value::Bool(*b),
            Value::Int(n) => Value::Int(*n),
            Value::Text(text) => Value::Text(text.share()),
            Value::Enum(e, l) => Value::Enum(*e, *l),
            Value::Obj(o) => Value::Obj(*o),
        }
    }

    /// The order of values, which `cmp` gives too.
    pub fn compare(&self, other: &Value) -> Ordering
        ensures { result ≡ value_cmp self.now other.now }
    {
        self.cmp(other)
    }
}

// What stands at a place of a tuple that has no value there.
impl MadeWith<Global> for Value {
    fn made_with(_alloc: Global) -> Value {
        Value::Bool(false)
    }
}

/// What sort of value an attribute takes, or a variable stands for.
#[derive(Clone, Copy, Debug, PartialEq, Eq)]
pub enum Kind {
    Bool,
    Int,
    Text,
    /// A literal of the enum with this number.
    Enum(u16),
    Obj,
}
