//! The pointer, and what its callers ask of it.
ghost use Rattle.std.specs.Prelude.{◌≡◌, IfOk, IfErr};
ghost use Rattle.vt_shared.specs.Inside.Owner.{owner_owns, owner_shares};

use std::alloc::{AllocFailed, Allocator};
use std::fmt::{Debug, Formatter, Result as Written, Write};
use std::marker::Model;
use std_alloc::room::Vacant;

mod block;

use block::Block;

/// One of the owners of a value. The value goes with the last of them.
///
/// `value` is what contracts see. The value never changes, as there is no `&mut` to it.
pub struct Shared<T, A: Allocator> {
    block: *mut Block<T, A>,
    pub ghost value: { T },
}

impl<T, A: Allocator> Model for Shared<T, A> {
    ghost also_owns = { λ s. owner_owns A.row A.dealloc_token T.row s.block s.value };

    ghost also_shares = { λ s _ κ. owner_shares A.row A.dealloc_token T.row s.block s.value κ };
}

impl<T, A: Allocator> Shared<T, A> {
    /// The first owner. Where there is no memory, the value comes back.
    pub fn new(alloc: A, value: T) -> Result<Shared<T, A>, AllocFailed<T>>
        ensures ok { IfOk result (λ s. s.value ≡ value) }
        ensures err { IfErr result (λ e. e.value ≡ value) }
    {
        if let Ok(room) = Vacant::take(alloc) {
            return Ok(Shared::found(room, value));
        }
        Err(AllocFailed { value })
    }

    /// One more owner of the same value.
    ///
    /// This takes no memory. At the largest count of owners nobody is counted any more, and the value is kept for good.
    pub fn share(&self) -> Shared<T, A>
    where
        T: Drop,
        ensures { result ≡ self.now }
    {
        self.enter()
    }
}

impl<T: Drop, A: Allocator> Drop for Shared<T, A> {
    fn drop(self) {
        match self.leave() {
            None => {}
            Some((value, room)) => {
                drop(room.free());
                drop(value);
            }
        }
    }
}

// As the value's own.
impl<T: Debug, A: Allocator> Debug for Shared<T, A> {
    ghost debug_output = { λ s. T.debug_output s.value };

    fn fmt<W: Write>(&self, f: &mut Formatter<W>) -> Written {
        self.get().fmt(f)
    }
}
