// What no clause says: that a call succeeds, and that the clauses mean what one expects of a set.
ghost use Rattle.std.specs.Prelude.{refl};
ghost use Rattle.std.specs.Ordering.{nat_cmp, eq_by_cmp, as_partial_cmp, is_lt, on, flip_args};
ghost use Rattle.vt_sorted.specs.Inside.Fronts.{below-closed};
ghost use Rattle.std.specs.Cmp.{partial_equiv_from_equiv, partial_order_from_total};
ghost use Rattle.std.proofs.lemmas.Cmp.{eq_by_cmp_equiv, on_total, back_total, nat_cmp_total};

use std::alloc::Global;
use std::cmp::Ordering;
use std::test::Fail;
use vt_sorted::{Front, Like, NoMemory, Sorted};

// The numbers below one.
#[derive(Drop)]
struct Below(u32);

impl Front<u32> for Below {
    ghost holds = { λ front x. is_lt (nat_cmp x front.0) };

    ghost closed = { λ front x y l e. below-closed nat_cmp nat_cmp_total front.0 x y l e };

    fn holds(&self, item: &u32) -> bool {
        item.cmp(&self.0).is_lt()
    }
}

// A number in another order than its own: the greatest first. A set of these is in that order.
#[derive(Clone, Copy, Debug, Drop)]
struct Falling(u32);

impl PartialEq for Falling {
    ghost eq = { eq_by_cmp (flip_args (on (λ f. f.0) nat_cmp)) };

    ghost laws = { partial_equiv_from_equiv (eq_by_cmp_equiv (back_total (on_total (λ f. f.0) nat_cmp_total))) };

    fn eq(&self, other: &Falling) -> bool {
        other.0.cmp(&self.0).is_eq()
    }
}

impl Eq for Falling {
    ghost laws = { eq_by_cmp_equiv (back_total (on_total (λ f. f.0) nat_cmp_total)) };
}

impl PartialOrd for Falling {
    ghost partial_cmp = { as_partial_cmp (flip_args (on (λ f. f.0) nat_cmp)) };

    ghost laws = { partial_order_from_total (back_total (on_total (λ f. f.0) nat_cmp_total)) };

    fn partial_cmp(&self, other: &Falling) -> Option<Ordering> {
        Some(other.0.cmp(&self.0))
    }
}

impl Ord for Falling {
    ghost cmp = { flip_args (on (λ f. f.0) nat_cmp) };

    ghost total = { back_total (on_total (λ f. f.0) nat_cmp_total) };

    ghost matches_partial_cmp = { λ _ _. refl };

    ghost matches_eq = { λ _ _. refl };

    fn cmp(&self, other: &Falling) -> Ordering {
        other.0.cmp(&self.0)
    }
}

// A number is the key to itself in the other order.
impl Like<Falling> for u32 {
    ghost stands_for = { λ n. record { 0 = n } };

    fn order(&self, item: &Falling) -> Ordering {
        item.0.cmp(self)
    }
}

// The first multiples of three, as many as a prime number, put in out of order.
fn multiples(alloc: Global, prime: u16) -> Result<Sorted<u32>, NoMemory> {
    let mut set = Sorted::new(alloc);
    for i in 0..prime {
        let place = u32::from(i) * 7 % u32::from(prime);
        set.insert(place * 3).map_err(|_| NoMemory)?;
    }
    Ok(set)
}

#[test]
fn a_set_has_each_item_once_and_in_order(rt: HostRuntime) -> Result<(), Fail> {
    let alloc = rt.alloc();
    for (given, set) in [
        ([].as_slice(), [].as_slice()),
        ([5].as_slice(), [5].as_slice()),
        ([3, 1, 2, 1].as_slice(), [1, 2, 3].as_slice()),
        ([9, 9, 9].as_slice(), [9].as_slice()),
    ] {
        let mut items = Vec::new(alloc);
        let mut rising = Sorted::new(alloc);
        for n in given {
            items.push(*n)?;
            let _ = rising.insert(*n);
        }
        let sorted: Sorted<u32> = Sorted::from_vec(alloc, items)?;
        assert_eq!(rt; sorted.is_empty(), set.is_empty());
        assert_eq!(rt; sorted.copy(alloc)?.into_vec()?.as_slice(), set);
        assert_eq!(rt; sorted.into_vec()?.as_slice(), set);
        assert_eq!(rt; rising.into_vec()?.as_slice(), set);
    }
    Ok(())
}

// Whether the item at a place is found from wherever one looks, and the one after it that stands.
fn is_found(set: &Sorted<u32>, place: u16) -> bool {
    let x = u32::from(place) * 3;
    let at = usize::from(place);
    let next = set.get(at + 1);
    set.get(at) == Some(&x)
        && set.find(&x) == Some(&x)
        && set.find(&(x + 1)).is_none()
        && set.contains(&x)
        && !set.contains(&(x + 2))
        && set.walk_from(&x).next() == Some(&x)
        && set.walk_after(&Below(x)).next() == Some(&x)
        && set.walk_from(&(x + 1)).next() == next
        && set.walk_after(&Below(x + 1)).next() == next
}

// Whether a walk comes by the first multiples of three, so many, and no more.
fn is_walked(set: &Sorted<u32>, count: u16) -> bool {
    let mut walk = set.walk();
    (0..count).all(|place| walk.next() == Some(&(u32::from(place) * 3))) && walk.next().is_none()
}

// Whether the item goes where it stands, and only then.
fn is_removed(set: &mut Sorted<u32>, x: u16) -> bool {
    let x = u32::from(x) * 3;
    !set.remove(&(x + 1)) && set.remove(&x) && !set.contains(&x) && !set.remove(&x)
}

// Few items, items in some chunks, and in many.
#[test]
fn what_stands_is_found_and_what_is_removed_is_gone(rt: HostRuntime) -> Result<(), Fail> {
    for prime in [13u16, 67, 1009] {
        let mut set = multiples(rt.alloc(), prime)?;
        let found = (0..prime).all(|place| is_found(&set, place));
        let walked = is_walked(&set, prime)
            && set.first() == Some(&0)
            && set.len() == usize::from(prime);
        let removed = (0..prime).all(|i| is_removed(
            &mut set,
            (u32::from(i) * 11 % u32::from(prime)) as u16,
        ));
        let again = set.is_empty() && set.insert(8) == Ok(true) && set.insert(8) == Ok(false);
        assert!(rt;
            found && walked && removed && again,
            "{prime}: {found} {walked} {removed} {again}"
        );
    }
    Ok(())
}

// At one place, one after the other, and all over full chunks.
#[test]
fn what_was_reserved_goes_in(rt: HostRuntime) -> Result<(), Fail> {
    let alloc = rt.alloc();
    for (before, more, step) in [
        (0u32, 64u32, 1u32),
        (10, 54, 1),
        (60, 5, 1),
        (60, 1000, 1),
        (640, 10, 64),
        (640, 10, 1),
        (640, 640, 64),
        (640, 700, 1),
    ] {
        let mut items = Vec::new(alloc);
        for i in 0..before {
            items.push(u64::from(i) * 4096)?;
        }
        let mut set = Sorted::from_vec(alloc, items)?;
        set.reserve(more as usize)?;
        for k in 0..more {
            let gap = u64::from(k) * u64::from(step) % (u64::from(before) + 1);
            let x = gap * 4096 + 2000 - u64::from(k) % 2000;
            assert_eq!(rt; set.insert(x), Ok(true), "{k} of {more}");
        }
        assert_eq!(rt; set.len() as u64, u64::from(before) + u64::from(more));
    }
    Ok(())
}

#[test]
fn an_order_of_its_own_is_that_of_a_type(rt: HostRuntime) -> Result<(), Fail> {
    let mut set = Sorted::new(rt.alloc());
    for n in [2, 7, 5, 7] {
        let _ = set.insert(Falling(n));
    }
    let mut walk = set.walk();
    for n in [7, 5, 2] {
        assert_eq!(rt; walk.next().map(|item| item.0), Some(n));
    }
    Ok(())
}

// Whether a key finds what it stands for, and takes it out.
fn is_had(set: &mut Sorted<Falling>, n: u32) -> bool {
    set.find_like(&n).map(|item| item.0) == Some(n)
        && set.contains_like(&n)
        && set.remove_like(&n)
        && !set.contains_like(&n)
        && !set.remove_like(&n)
        && set.find_like(&n).is_none()
}

// Few items, and items in chunks.
#[test]
fn a_key_finds_what_it_stands_for(rt: HostRuntime) -> Result<(), Fail> {
    for count in [3u32, 200] {
        let mut set = Sorted::new(rt.alloc());
        for n in 0..count {
            let _ = set.insert(Falling(n));
        }
        assert!(rt;
            (0..count).all(|n| is_had(&mut set, n)) && set.is_empty(),
            "{count}"
        );
    }
    Ok(())
}
