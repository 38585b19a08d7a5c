// Values that can be copied where memory is there.
ghost use Rattle.std.specs.Prelude.{◌≡◌, IfOk};

use crate::NoMemory;
use std::alloc::Global;

/// Plain data: a value that can be copied, where there is memory for the copy. What has several
/// owners is shared with the copy.
pub trait Plain: Drop {
    fn copy(&self, alloc: Global) -> Result<Self, NoMemory>
        ensures { IfOk result (λ copy. copy ≡ self.now) };
}

impl Plain for bool {
    fn copy(&self, _alloc: Global) -> Result<bool, NoMemory> {
        Ok(*self)
    }
}

impl Plain for u8 {
    fn copy(&self, _alloc: Global) -> Result<u8, NoMemory> {
        Ok(*self)
    }
}

impl Plain for u16 {
    fn copy(&self, _alloc: Global) -> Result<u16, NoMemory> {
        Ok(*self)
    }
}

impl Plain for u32 {
    fn copy(&self, _alloc: Global) -> Result<u32, NoMemory> {
        Ok(*self)
    }
}

impl Plain for u64 {
    fn copy(&self, _alloc: Global) -> Result<u64, NoMemory> {
        Ok(*self)
    }
}

impl Plain for i64 {
    fn copy(&self, _alloc: Global) -> Result<i64, NoMemory> {
        Ok(*self)
    }
}

impl<A: Plain, B: Plain> Plain for (A, B) {
    fn copy(&self, alloc: Global) -> Result<(A, B), NoMemory> {
        Ok((self.0.copy(alloc)?, self.1.copy(alloc)?))
    }
}

impl<A: Plain> Plain for Option<A> {
    fn copy(&self, alloc: Global) -> Result<Option<A>, NoMemory> {
        match self {
            Some(a) => Ok(Some(a.copy(alloc)?)),
            None => Ok(None),
        }
    }
}
