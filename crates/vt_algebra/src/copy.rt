// Copies of trees.
ghost use Rattle.std.specs.Prelude.{◌≡◌, IfOk};

use crate::{Op, Test};
use sqlite_items::Boxed;
use std::alloc::Global;
use vt_base::{NoMemory, Plain};

impl Plain for Test {
    fn copy(&self, alloc: Global) -> Result<Test, NoMemory> {
        match self {
            Test::Same(i, j) => Ok(Test::Same(*i, *j)),
            Test::Other(i, j) => Ok(Test::Other(*i, *j)),
            Test::Equals(i, v) => Ok(Test::Equals(*i, v.share())),
            Test::Differs(i, v) => Ok(Test::Differs(*i, v.share())),
            Test::Holds(expr, slots) => Ok(Test::Holds(expr.copy(alloc)?, slots.copy(alloc)?)),
        }
    }
}

// A copy in a box of its own.
#[cycle(copy)]
fn boxed(alloc: Global, op: &Op) -> Result<Boxed<Op>, NoMemory>
    ensures { IfOk result (λ copy. copy ≡ op.now) }
{
    let copy = op.copy(alloc)?;
    Ok(Boxed::new(alloc, copy)?)
}

impl Plain for Op {
    #[cycle(copy)]
    fn copy(&self, alloc: Global) -> Result<Op, NoMemory> {
        match self {
            Op::Class(c) => Ok(Op::Class(*c)),
            Op::Attr(a) => Ok(Op::Attr(*a)),
            Op::Ref(r) => Ok(Op::Ref(*r)),
            Op::Pattern(p) => Ok(Op::Pattern(*p)),
            Op::Const(row) => Ok(Op::Const(row.copy(alloc)?)),
            Op::Select(a, test) => {
                let a = boxed(alloc, a.get())?;
                Ok(Op::Select(a, test.copy(alloc)?))
            }
            Op::Extend(a, expr, slots) => {
                let a = boxed(alloc, a.get())?;
                Ok(Op::Extend(a, expr.copy(alloc)?, slots.copy(alloc)?))
            }
            Op::Project(a, columns) => {
                let a = boxed(alloc, a.get())?;
                Ok(Op::Project(a, columns.copy(alloc)?))
            }
            Op::Join(a, b, pairs) => {
                let a = boxed(alloc, a.get())?;
                let b = boxed(alloc, b.get())?;
                Ok(Op::Join(a, b, pairs.copy(alloc)?))
            }
            Op::Union(a, b) => {
                let a = boxed(alloc, a.get())?;
                let b = boxed(alloc, b.get())?;
                Ok(Op::Union(a, b))
            }
            Op::AntiJoin(a, b, pairs) => {
                let a = boxed(alloc, a.get())?;
                let b = boxed(alloc, b.get())?;
                Ok(Op::AntiJoin(a, b, pairs.copy(alloc)?))
            }
            Op::Aggregate(a, b, pairs, kind, column) => {
                let a = boxed(alloc, a.get())?;
                let b = boxed(alloc, b.get())?;
                let pairs = pairs.copy(alloc)?;
                Ok(Op::Aggregate(a, b, pairs, *kind, *column))
            }
        }
    }
}
