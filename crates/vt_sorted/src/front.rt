// A front of ascending items, told by a test, and where it ends.
ghost use Rattle.std.specs.Prelude.{◌≡◌, Bool, true, not};
ghost use Rattle.std.specs.declared.cmp.Ordering.TheVariants.{Less};
ghost use Rattle.std.specs.List.Sorted.{IsStrictlySortedBy};
ghost use Rattle.std.specs.Ordering.{is_lt};
ghost use Rattle.vt_sorted.specs.Inside.Fronts.{up_to-closed};
ghost use Rattle.vt_sorted.specs.Inside.Places.{EndsAt};

use crate::Like;

/// A front of ascending items, told by a test: the entries of all rules up to one, or the rows
/// below all that begin with some values. Nothing of the items' type has to be made for it.
pub trait Front<T: Ord> {
    /// Whether the front has the item.
    ghost holds: { Self → T → Bool };

    fn holds(&self, item: &T) -> bool
        ensures { result ≡ holds self.now item.now };

    /// With an item it has all that are below it.
    ghost closed: { (front : Self) (x y : T) →
        T.cmp x y ≡ Less → holds front y ≡ true → holds front x ≡ true };
}

// The items up to that of a key.
#[derive(Drop)]
pub(crate) struct UpTo<'a, K> {
    pub key: &'a K,
}

impl<'a, T: Ord, K: Like<T>> Front<T> for UpTo<'a, K> {
    ghost holds = { λ up x. not (is_lt (T.cmp (K.stands_for up.key.now) x)) };

    ghost closed = { λ up x y l e. up_to-closed T.cmp T.total (K.stands_for up.key.now) x y l e };

    fn holds(&self, item: &T) -> bool {
        !self.key.order(item).is_lt()
    }
}

// Where a front of the items ends.
pub(crate) fn end_of<T: Ord, F: Front<T>>(items: &[T], front: &F) -> usize
    requires { IsStrictlySortedBy T.cmp items.now }
    ensures { EndsAt (F.holds front.now) items.now result }
{
    let mut low = 0;
    let mut high = items.len();
    while low < high {
        let middle = low + (high - low) / 2;
        if front.holds(&items[middle]) {
            low = middle + 1;
        } else {
            high = middle;
        }
    }
    low
}
