// How long a set takes for all items.
use crate::kept::Kept;
use std::rt::Clock;
use std::time::Instant;

/// Microseconds for all items, and how often the answer was yes.
#[derive(Clone, Copy, Debug)]
pub struct Times {
    pub put: u64,
    pub found: u64,
    pub walked: u64,
    pub taken: u64,
    pub yes: u64,
}

fn micros<R: Clock>(rt: &R, start: Instant) -> u64 {
    match start.elapsed(rt) {
        Ok(d) => d
            .as_secs()
            .wrapping_mul(1_000_000)
            .wrapping_add(d.subsec_micros() as u64),
        Err(_) => 0,
    }
}

fn put_all<T: Copy, S: Kept<T>>(set: &mut S, all: &[T]) -> u64 {
    let mut yes: u64 = 0;
    for item in all {
        if set.put(*item) {
            yes = yes.wrapping_add(1);
        }
    }
    yes
}

fn find_all<T, S: Kept<T>>(set: &S, all: &[T]) -> u64 {
    let mut yes: u64 = 0;
    for item in all {
        if set.has(item) {
            yes = yes.wrapping_add(1);
        }
    }
    yes
}

fn take_all<T, S: Kept<T>>(set: &mut S, all: &[T]) -> u64 {
    let mut yes: u64 = 0;
    for item in all {
        if set.take(item) {
            yes = yes.wrapping_add(1);
        }
    }
    yes
}

/// The items put in, found, walked and taken out, by the clock.
pub fn measure<T: Copy, S: Kept<T>, R: Clock>(rt: &R, set: &mut S, all: &[T]) -> Option<Times> {
    let start = Instant::now(rt).ok()?;
    let added = put_all(set, all);
    let put = micros(rt, start);
    let start = Instant::now(rt).ok()?;
    let there = find_all(set, all);
    let found = micros(rt, start);
    let start = Instant::now(rt).ok()?;
    let met = set.walked(all.len());
    let walked = micros(rt, start);
    let start = Instant::now(rt).ok()?;
    let gone = take_all(set, all);
    let taken = micros(rt, start);
    Some(Times {
        put,
        found,
        walked,
        taken,
        yes: added
            .wrapping_add(there)
            .wrapping_add(met)
            .wrapping_add(gone),
    })
}
