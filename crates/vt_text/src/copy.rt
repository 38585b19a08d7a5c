// Copies of expressions.
ghost use Rattle.std.specs.Prelude.{◌≡◌, IfOk};

use crate::{Expr, Operand, Operator};
use sqlite_items::{Boxed, Items};
use std::alloc::Global;
use vt_base::{NoMemory, Plain};

impl Plain for Operator {
    fn copy(&self, _alloc: Global) -> Result<Operator, NoMemory> {
        Ok(*self)
    }
}

impl Plain for Expr {
    #[cycle(copy)]
    fn copy(&self, alloc: Global) -> Result<Expr, NoMemory> {
        match self {
            Expr::Bool(b) => Ok(Expr::Bool(*b)),
            Expr::Int(n) => Ok(Expr::Int(*n)),
            Expr::Text(text) => Ok(Expr::Text(text.share())),
            Expr::Enum(e, l) => Ok(Expr::Enum(*e, *l)),
            Expr::Slot(i) => Ok(Expr::Slot(*i)),
            Expr::Negative(a) => {
                let a = a.get().copy(alloc)?;
                Ok(Expr::Negative(Boxed::new(alloc, a)?))
            }
            Expr::Not(a) => {
                let a = a.get().copy(alloc)?;
                Ok(Expr::Not(Boxed::new(alloc, a)?))
            }
            Expr::Chain(first, rest) => {
                let first = first.get().copy(alloc)?;
                let rest = Items::from_vec(copy_operands(alloc, rest.as_slice())?);
                Ok(Expr::Chain(Boxed::new(alloc, first)?, rest))
            }
        }
    }
}

#[cycle(copy)]
fn copy_operands(alloc: Global, operands: &[Operand]) -> Result<Vec<Operand>, NoMemory>
    ensures { IfOk result (λ copies. copies.items ≡ operands.now) }
{
    let mut copies = Vec::with_capacity(alloc, operands.len())?;
    for operand in operands {
        let operator = operand.operator;
        let expr = operand.expr.copy(alloc)?;
        copies.push(Operand { operator, expr })?;
    }
    Ok(copies)
}
