//! Owners of one value, dropped in several orders.
use crate::Shared;
use std::alloc::Global;
use std::cell::Cell;
use std::mem::size_of;
use std::test::Fail;

// A value that adds its weight to a sum when it is dropped.
struct Weight<'a> {
    weight: u64,
    sum: &'a Cell<u64>,
}

impl Drop for Weight<'_> {
    fn drop(self) {
        let Weight { weight, sum } = self;
        sum.set(sum.get().saturating_add(weight));
    }
}

#[test]
fn the_last_owner_takes_the_value_along(rt: HostRuntime) -> Result<(), Fail> {
    assert_eq!(rt; size_of::<Shared<String, Global>>(), size_of::<usize>());
    let sum = Cell::new(0);
    for weight in [1, 10, 100] {
        let before = sum.get();
        let first = Shared::new(rt.alloc(), Weight { weight, sum: &sum })?;
        let second = first.share();
        let third = second.share();
        assert_eq!(rt; third.get().weight, weight);
        // the first, one between or the last made goes first
        let (one, other) = match weight {
            1 => {
                drop(first);
                (second, third)
            }
            10 => {
                drop(second);
                (third, first)
            }
            _ => {
                drop(third);
                (first, second)
            }
        };
        assert_eq!(rt; sum.get(), before);
        drop(one);
        assert_eq!(rt; other.get().weight, weight);
        let again = other.share();
        drop(other);
        assert_eq!(rt; again.get().weight, weight);
        assert_eq!(rt; sum.get(), before);
        drop(again);
    }
    assert_eq!(rt; sum.get(), 111);
    Ok(())
}
