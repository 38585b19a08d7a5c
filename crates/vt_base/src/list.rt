// A list that grows at its end, seen as the list of its items.
ghost use Rattle.std.specs.Prelude.{◌≡◌, ◌↔◌, [], ◌∷◌, ◌++◌, length, IsTrue, OnOk, OnErr, IfErr, MatchOption, slice_get};
ghost use Rattle.std.specs.Option.{option_copied};

use crate::{NoMemory, Roomy};
use std::alloc::Global;
use std::marker::Model;

/// A list that grows at its end. Contracts see its items alone, so two lists with the same items
/// are equal; where a caller needs to know the room that is left, [`Roomy`] shows it.
#[derive(Debug, Drop)]
pub struct List<T> {
    inner: Vec<T>,
}

impl<T> Model for List<T> {
    ghost use Rattle.std.specs.Prelude.{List};
    ghost use Rattle.std.specs.Coded.{coded_list};

    ghost Value = { List T };

    ghost coded = { coded_list T.code };

    ghost view = { λ l. l.inner.items };
}

impl<T> List<T> {
    /// An empty list. It takes no memory.
    pub fn new(alloc: Global) -> List<T>
        ensures { result ≡ [] }
    {
        List {
            inner: Vec::new(alloc),
        }
    }

    /// The items of a `Vec`. It takes no memory.
    pub fn from_vec(inner: Vec<T>) -> List<T>
        ensures { result ≡ inner.items }
    {
        List { inner }
    }

    /// The items as a `Vec`. It takes no memory.
    pub fn into_vec(self) -> Vec<T>
        ensures { result.items ≡ self }
    {
        let List { inner } = self;
        inner
    }

    /// The same items, with their room shown. It takes no memory.
    pub fn into_roomy(self) -> Roomy<T>
        ensures { result.items ≡ self }
    {
        Roomy::from_vec(self.into_vec())
    }

    /// Adds an item at the end. Where there is no memory for it, it comes back.
    pub fn push(&mut self, item: T) -> Result<(), T>
        ensures added { OnOk result (self.new ≡ self.old ++ item ∷ []) }
        ensures unchanged { OnErr result (self.new ≡ self.old) }
        ensures comes_back { IfErr result (λ back. back ≡ item) }
    {
        self.inner.push(item).map_err(|refused| refused.value)
    }

    /// Makes room for so many more items.
    pub fn reserve(&mut self, more: usize) -> Result<(), NoMemory>
        ensures kept { self.new ≡ self.old }
    {
        self.inner.reserve(more)?;
        Ok(())
    }

    /// Takes the last item out. `None` is of the empty list alone.
    pub fn pop(&mut self) -> Option<T>
        ensures { MatchOption result
            ((self.old ≡ []) × (self.new ≡ []))
            (λ last. self.old ≡ self.new ++ last ∷ []) }
    {
        self.inner.pop()
    }

    /// The item at a place, counted from 0. `None` is of a place past the end alone.
    pub fn get(&self, i: usize) -> Option<&T>
        ensures { option_copied result ≡ slice_get self.now i }
    {
        self.inner.get(i)
    }

    pub fn len(&self) -> usize
        ensures { result ≡ length self.now }
    {
        self.inner.len()
    }

    pub fn is_empty(&self) -> bool
        ensures { IsTrue result ↔ (self.now ≡ []) }
    {
        self.inner.is_empty()
    }

    pub fn as_slice(&self) -> &[T]
        ensures { result.now ≡ self.now }
    {
        self.inner.as_slice()
    }
}

impl<T: Drop> List<T> {
    /// Adds an item at the end, or drops it where there is no memory for it.
    pub fn add(&mut self, item: T) -> Result<(), NoMemory>
        ensures added { OnOk result (self.new ≡ self.old ++ item ∷ []) }
        ensures unchanged { OnErr result (self.new ≡ self.old) }
    {
        self.inner.push(item)?;
        Ok(())
    }
}

impl<T: Copy> List<T> {
    /// Adds the items of a slice at the end, all of them or none.
    pub fn extend(&mut self, items: &[T]) -> Result<(), NoMemory>
        ensures added { OnOk result (self.new ≡ self.old ++ items.now) }
        ensures unchanged { OnErr result (self.new ≡ self.old) }
    {
        self.inner.extend_from_slice(items)?;
        Ok(())
    }
}
