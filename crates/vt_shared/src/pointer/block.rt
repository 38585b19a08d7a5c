//! What the owners of one value have in common, and the four functions that reach it. None of the four calls another
//! function between reading the count and writing it.
ghost use Rattle.std.specs.Prelude.{◌≡◌, IfSome};

use super::Shared;
use std::alloc::Allocator;
use std_alloc::room::Vacant;

/// A value with the count of its owners, and what its memory goes back to.
///
/// `others` counts the owners besides one, so it is 0 for the last. Once it has come to the largest number it never
/// changes again, and then the block is never freed.
pub(crate) struct Block<T, A> {
    others: usize,
    value: T,
    alloc: A,
}

impl<T, A: Allocator> Shared<T, A> {
    /// The value moves into the room, with one owner.
    pub(crate) fn found(room: Vacant<Block<T, A>, A>, value: T) -> Shared<T, A>
        ensures { result.value ≡ value }
    {
        let Vacant { ptr: block, alloc } = room;
        unsafe {
            block.write(Block {
                others: 0,
                value,
                alloc,
            });
        }
        Shared { block }
    }

    /// The value.
    pub fn get(&self) -> &T
        ensures { result.now ≡ self.now.value }
    {
        let block = self.block;
        unsafe { &(*block).value }
    }

    /// One owner more.
    pub(crate) fn enter(&self) -> Shared<T, A>
        ensures { result ≡ self.now }
    {
        let block = self.block;
        unsafe {
            let others = (*block).others;
            if others != usize::MAX {
                (*block).others = others + 1;
            }
        }
        Shared { block }
    }

    /// One owner fewer. The last has the value and the empty room, unless owners were no longer counted.
    pub(crate) fn leave(self) -> Option<(T, Vacant<Block<T, A>, A>)>
        ensures { IfSome result (λ last. last.0 ≡ self.value) }
    {
        let Shared { block } = self;
        unsafe {
            let others = (*block).others;
            if others == 0 {
                let Block {
                    others: _,
                    value,
                    alloc,
                } = block.read();
                return Some((value, Vacant { ptr: block, alloc }));
            }
            if others < usize::MAX {
                (*block).others = others - 1;
            }
        }
        None
    }
}
