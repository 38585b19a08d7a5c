// A walk over the items of chunks, in order.
ghost use Rattle.std.specs.Prelude.{◌≡◌, ◌++◌, [], ◌∷◌, MatchOption};
ghost use Rattle.vt_sorted.specs.Inside.Pieces.{joined};

use crate::chunk::Chunk;
use std::marker::Model;

/// What is left of a walk over a set: contracts see the list of the items to come.
#[derive(Drop)]
pub struct Walk<'a, T> {
    now: &'a [T],
    later: &'a [Chunk<T>],
}

impl<'a, T> Model for Walk<'a, T> {
    ghost use Rattle.std.specs.Prelude.{List, ◌++◌};
    ghost use Rattle.std.specs.Coded.{coded_list};
    ghost use Rattle.vt_sorted.specs.Inside.Pieces.{joined};

    ghost Value = { List T };

    ghost coded = { coded_list T.code };

    ghost view = { λ w. w.now.now ++ joined w.later.now };
}

impl<'a, T> Walk<'a, T> {
    /// A walk over a list, and then over chunks.
    pub(crate) fn over(now: &'a [T], later: &'a [Chunk<T>]) -> Walk<'a, T>
        ensures { result ≡ now.now ++ joined later.now }
    {
        Walk { now, later }
    }

    /// The next item.
    pub fn next(&mut self) -> Option<&'a T>
        ensures { MatchOption result
            ((self.old ≡ []) × (self.new ≡ []))
            (λ item. self.old ≡ item.now ∷ self.new) }
    {
        while let Some((chunk, rest)) = self.later.split_first() {
            if let Some((item, items)) = self.now.split_first() {
                self.now = items;
                return Some(item);
            }
            self.now = chunk.as_slice();
            self.later = rest;
        }
        let (item, items) = self.now.split_first()?;
        self.now = items;
        Some(item)
    }
}
