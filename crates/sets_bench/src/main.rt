//! Puts items into a set, finds them, walks over them and takes them out, and does the same with
//! the library's tree. The arguments are the number of items, and `times` where the nanoseconds for
//! each item are to be printed.
#![tactic(auto)]

mod items;
mod kept;
mod timing;

use items::{Made, Small, Wide, items};
use std::alloc::Global;
use std::collections::BTreeSet;
use std::env;
use std::process::ExitCode;
use std::rt::{Clock, Env, Stdout};
use timing::{Times, measure};
use vt_sorted::Sorted;

// The set's times and the tree's.
fn both<T: Made + Drop, R: Clock>(rt: &R, alloc: Global, count: usize) -> Option<(Times, Times)> {
    let all: Vec<T> = items(alloc, count)?;
    let mut set = Sorted::new(alloc);
    let ours = measure(rt, &mut set, &all)?;
    let mut tree = BTreeSet::new(alloc);
    let other = measure(rt, &mut tree, &all)?;
    Some((ours, other))
}

fn word<R: Env + AllocGlobal>(rt: &R, i: usize) -> Option<String> {
    env::args(rt).ok()?.nth(i)
}

// How often the answer was yes, or the nanoseconds for each item.
fn show(rt: &HostRuntime, name: &str, times: (Times, Times), count: u64, timed: bool) {
    let (ours, other) = times;
    if !timed || count == 0 {
        let _ = println!(rt; "{name} {} {}", ours.yes, other.yes);
        return;
    }
    for (what, a, b) in [
        ("insert", ours.put, other.put),
        ("find", ours.found, other.found),
        ("walk", ours.walked, other.walked),
        ("remove", ours.taken, other.taken),
    ] {
        let a = a.wrapping_mul(1000) / count;
        let b = b.wrapping_mul(1000) / count;
        let _ = println!(rt; "{name} {what} {a} {b}");
    }
}

fn main(rt: HostRuntime) -> ExitCode {
    let Some(first) = word(&rt, 1) else {
        return ExitCode::from(2);
    };
    let Ok(count) = first.as_str().parse::<usize>() else {
        return ExitCode::from(2);
    };
    let timed = word(&rt, 2).is_some();
    let Some(small) = both::<Small, HostRuntime>(&rt, rt.alloc(), count) else {
        return ExitCode::from(5);
    };
    let Some(wide) = both::<Wide, HostRuntime>(&rt, rt.alloc(), count) else {
        return ExitCode::from(5);
    };
    show(&rt, "small", small, count as u64, timed);
    show(&rt, "wide", wide, count as u64, timed);
    ExitCode::from(0)
}
