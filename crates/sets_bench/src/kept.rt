// What is measured of a set, here and in the library.
use std::collections::BTreeSet;
use vt_sorted::Sorted;

/// A set that items are put into, found in, walked and taken out of.
pub trait Kept<T> {
    fn put(&mut self, item: T) -> bool;

    fn has(&self, item: &T) -> bool;

    fn take(&mut self, item: &T) -> bool;

    /// How many of so many items, in order, there are.
    fn walked(&self, count: usize) -> u64;
}

impl<T: Ord + Copy + Drop> Kept<T> for Sorted<T> {
    fn put(&mut self, item: T) -> bool {
        self.insert(item).is_ok()
    }

    fn has(&self, item: &T) -> bool {
        self.contains(item)
    }

    fn take(&mut self, item: &T) -> bool {
        self.remove(item)
    }

    fn walked(&self, count: usize) -> u64 {
        let mut walk = self.walk();
        let mut met: u64 = 0;
        for _ in 0..count {
            if walk.next().is_some() {
                met = met.wrapping_add(1);
            }
        }
        met
    }
}

impl<T: Ord + Copy + Drop> Kept<T> for BTreeSet<T> {
    fn put(&mut self, item: T) -> bool {
        self.insert(item).is_ok()
    }

    fn has(&self, item: &T) -> bool {
        self.contains(item)
    }

    fn take(&mut self, item: &T) -> bool {
        self.remove(item)
    }

    fn walked(&self, _count: usize) -> u64 {
        let mut met: u64 = 0;
        for _ in self.iter() {
            met = met.wrapping_add(1);
        }
        met
    }
}
