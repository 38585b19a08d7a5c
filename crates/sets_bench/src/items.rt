// Items of 24 and of 72 bytes, made from numbers at random.
use std::alloc::Global;

#[derive(Clone, Copy, Debug, PartialEq, Eq, PartialOrd, Ord)]
pub struct Small {
    a: u64,
    b: u64,
    c: u64,
}

#[derive(Clone, Copy, Debug, PartialEq, Eq, PartialOrd, Ord)]
pub struct Wide {
    a: u64,
    b: u64,
    c: u64,
    d: u64,
    e: u64,
    f: u64,
    g: u64,
    h: u64,
    i: u64,
}

/// An item that is made from a number.
pub trait Made: Ord + Copy {
    fn made(n: u64) -> Self;
}

impl Made for Small {
    fn made(n: u64) -> Small {
        Small {
            a: 1,
            b: n >> 50,
            c: n,
        }
    }
}

impl Made for Wide {
    fn made(n: u64) -> Wide {
        Wide {
            a: 1,
            b: n >> 50,
            c: 1,
            d: 1,
            e: 1,
            f: 1,
            g: 1,
            h: 1,
            i: n,
        }
    }
}

// The number after one, in a sequence that comes to each number but 0.
fn next(n: u64) -> u64 {
    let n = n ^ n.wrapping_shl(13);
    let n = n ^ (n >> 7);
    n ^ n.wrapping_shl(17)
}

/// So many items, none of them twice.
pub fn items<T: Made>(alloc: Global, count: usize) -> Option<Vec<T>> {
    let mut all = Vec::with_capacity(alloc, count).ok()?;
    let mut n = 88172645463325252;
    for _ in 0..count {
        n = next(n);
        all.push(T::made(n)).ok()?;
    }
    Some(all)
}
