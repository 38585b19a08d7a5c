// What an item is searched by, with no item made.
ghost use Rattle.std.specs.Prelude.{◌≡◌};

use std::cmp::Ordering;

/// A key: it stands for an item, and is compared with others as that item would be. So what an
/// item is told by is enough to find it, borrowed, and without an item made for the search.
pub trait Like<T: Ord> {
    /// The item that the key stands for.
    ghost stands_for: { Self → T };

    /// How the key's item is ordered to this one.
    fn order(&self, item: &T) -> Ordering
        ensures { result ≡ T.cmp (stands_for self.now) item.now };
}

// An item as the key to what is equal to it.
#[derive(Drop)]
pub(crate) struct Same<'a, T> {
    pub item: &'a T,
}

impl<'a, T: Ord> Like<T> for Same<'a, T> {
    ghost stands_for = { λ same. same.item.now };

    fn order(&self, item: &T) -> Ordering {
        self.item.cmp(item)
    }
}
