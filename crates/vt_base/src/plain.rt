// Copies of the words of this crate.
ghost use Rattle.std.specs.Prelude.{◌≡◌, IfOk};

use crate::{
    AggKind, AttrId, ClassId, Kind, List, NoMemory, ObjId, PatternId, Plain, Policy, RefId, RuleId,
    State, Text, Tuple, Value,
};
use std::alloc::Global;

impl Plain for ObjId {
    fn copy(&self, _alloc: Global) -> Result<ObjId, NoMemory> {
        Ok(*self)
    }
}

impl Plain for ClassId {
    fn copy(&self, _alloc: Global) -> Result<ClassId, NoMemory> {
        Ok(*self)
    }
}

impl Plain for AttrId {
    fn copy(&self, _alloc: Global) -> Result<AttrId, NoMemory> {
        Ok(*self)
    }
}

impl Plain for RefId {
    fn copy(&self, _alloc: Global) -> Result<RefId, NoMemory> {
        Ok(*self)
    }
}

impl Plain for PatternId {
    fn copy(&self, _alloc: Global) -> Result<PatternId, NoMemory> {
        Ok(*self)
    }
}

impl Plain for RuleId {
    fn copy(&self, _alloc: Global) -> Result<RuleId, NoMemory> {
        Ok(*self)
    }
}

impl Plain for Kind {
    fn copy(&self, _alloc: Global) -> Result<Kind, NoMemory> {
        Ok(*self)
    }
}

impl Plain for AggKind {
    fn copy(&self, _alloc: Global) -> Result<AggKind, NoMemory> {
        Ok(*self)
    }
}

impl Plain for State {
    fn copy(&self, _alloc: Global) -> Result<State, NoMemory> {
        Ok(*self)
    }
}

impl Plain for Policy {
    fn copy(&self, _alloc: Global) -> Result<Policy, NoMemory> {
        Ok(*self)
    }
}

impl Plain for Text {
    fn copy(&self, _alloc: Global) -> Result<Text, NoMemory> {
        Ok(self.share())
    }
}

impl Plain for Value {
    fn copy(&self, _alloc: Global) -> Result<Value, NoMemory> {
        Ok(self.share())
    }
}

impl Plain for Tuple {
    fn copy(&self, alloc: Global) -> Result<Tuple, NoMemory> {
        Tuple::from_slice(alloc, self.as_slice())
    }
}

impl<T: Plain> Plain for List<T> {
    fn copy(&self, alloc: Global) -> Result<List<T>, NoMemory> {
        copy_all(alloc, self.as_slice())
    }
}

// Copies of the items of a slice.
pub(crate) fn copy_all<T: Plain>(alloc: Global, items: &[T]) -> Result<List<T>, NoMemory>
    ensures { IfOk result (λ copies. copies ≡ items.now) }
{
    let mut copies = Vec::with_capacity(alloc, items.len())?;
    for item in items {
        copies.push(item.copy(alloc)?)?;
    }
    Ok(List::from_vec(copies))
}
