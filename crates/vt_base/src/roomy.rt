// A list that grows at its end, seen as its items with the room that is left beside them.
ghost use Rattle.std.specs.Prelude.{◌≡◌, ◌↔◌, ◌+◌, ◌≤◌, [], ◌∷◌, ◌++◌, length, IsTrue, IsOk, OnOk, OnErr, IfErr, MatchOption, slice_get};
ghost use Rattle.std.specs.Option.{option_copied};

use crate::{List, NoMemory};
use std::alloc::Global;
use std::marker::Model;

/// A list that grows under a promise: contracts see its `items`, and as `spare` how many more it
/// takes with no memory.
#[derive(Debug, Drop)]
pub struct Roomy<T> {
    inner: Vec<T>,
}

impl<T> Model for Roomy<T> {
    ghost use Rattle.std.specs.Prelude.{◌-◌, vec_len, vec_capacity};
    ghost use Rattle.vt_facts.specs.Room.{Room};
    ghost use Rattle.vt_facts.specs.Inside.Coding.{room_code};

    ghost Value = { Room T };

    ghost coded = { room_code T.code };

    ghost view = { λ l. record { items = l.inner.items; spare = vec_capacity l.inner - vec_len l.inner } };
}

impl<T> Roomy<T> {
    /// An empty list. It takes no memory.
    pub fn new(alloc: Global) -> Roomy<T>
        ensures { result.items ≡ [] }
    {
        Roomy {
            inner: Vec::new(alloc),
        }
    }

    /// The items of a `Vec`. It takes no memory.
    pub fn from_vec(inner: Vec<T>) -> Roomy<T>
        ensures { result.items ≡ inner.items }
    {
        Roomy { inner }
    }

    /// The items alone. It takes no memory.
    pub fn into_list(self) -> List<T>
        ensures { result ≡ self.items }
    {
        let Roomy { inner } = self;
        List::from_vec(inner)
    }

    /// Adds an item at the end. It fails for want of memory alone, and never where there is room.
    pub fn push(&mut self, item: T) -> Result<(), T>
        ensures added { OnOk result (self.new.items ≡ self.old.items ++ item ∷ []) }
        ensures unchanged { OnErr result (self.new.items ≡ self.old.items) }
        ensures comes_back { IfErr result (λ back. back ≡ item) }
        ensures succeeds { 1 ≤ self.old.spare → IsOk result }
        ensures room { OnOk result (self.old.spare ≤ self.new.spare + 1) }
    {
        self.inner.push(item).map_err(|refused| refused.value)
    }

    /// Makes room for so many more items.
    pub fn reserve(&mut self, more: usize) -> Result<(), NoMemory>
        ensures kept { self.new.items ≡ self.old.items }
        ensures succeeds { more ≤ self.old.spare → IsOk result }
        ensures room { OnOk result (more ≤ self.new.spare) }
        ensures grows { self.old.spare ≤ self.new.spare }
    {
        self.inner.reserve(more)?;
        Ok(())
    }

    /// Takes the last item out. `None` is of the empty list alone.
    pub fn pop(&mut self) -> Option<T>
        ensures taken { MatchOption result
            ((self.old.items ≡ []) × (self.new.items ≡ []))
            (λ last. self.old.items ≡ self.new.items ++ last ∷ []) }
        ensures room { self.old.spare ≤ self.new.spare }
    {
        self.inner.pop()
    }

    /// The item at a place, counted from 0. `None` is of a place past the end alone.
    pub fn get(&self, i: usize) -> Option<&T>
        ensures { option_copied result ≡ slice_get self.now.items i }
    {
        self.inner.get(i)
    }

    pub fn len(&self) -> usize
        ensures { result ≡ length self.now.items }
    {
        self.inner.len()
    }

    pub fn is_empty(&self) -> bool
        ensures { IsTrue result ↔ (self.now.items ≡ []) }
    {
        self.inner.is_empty()
    }

    pub fn as_slice(&self) -> &[T]
        ensures { result.now ≡ self.now.items }
    {
        self.inner.as_slice()
    }
}
