// What no clause says: that each call succeeds, and what the policies pick of entries by hand.
ghost use Rattle.std.specs.Prelude.{◌≡◌, not};
ghost use Rattle.std.specs.Ordering.{is_eq};
ghost use Rattle.vt_resolve.specs.Entries.{by_activation};

use crate::entry::compare_match;
use crate::{Entry, Fixed, Inverted, Oldest, Resolver, Turns};
use std::alloc::Global;
use std::test::Fail;
use vt_base::State::{Created, Deleted, Fired};
use vt_base::{NoMemory, Plain, Policy, RuleId, State, Tuple, Value};

// Rule, the match's one value, state, priority and since.
type Told = (u16, i64, State, i64, u64);

// The rule that fired last, and two entries, of which the first is to be picked first.
type Case = (Option<u16>, Told, Told);

fn entry(alloc: Global, told: Told) -> Result<Entry, NoMemory> {
    let (rule, value, state, priority, since) = told;
    let tuple = Tuple::from_slice(alloc, &[Value::Int(value)])?;
    Ok(Entry {
        rule: RuleId(rule),
        tuple,
        state,
        priority,
        since,
    })
}

// Whether two entries are of different rules or matches.
fn differ(a: &Entry, b: &Entry) -> bool
    ensures { result ≡ not (is_eq (by_activation a.now b.now)) }
{
    !a.rule
        .0
        .cmp(&b.rule.0)
        .then(a.tuple.compare(&b.tuple))
        .is_eq()
}

// Holds two entries and no others. Another rule fired before.
fn hold(resolver: &mut Box<dyn Resolver>, a: Entry, b: Entry) -> bool {
    if !differ(&a, &b) {
        return false;
    }
    resolver.fired(RuleId(2));
    resolver.clear();
    match resolver.add(a) {
        Ok(()) => resolver.add(b).is_ok(),
        Err(_) => false,
    }
}

fn picks(resolver: &Box<dyn Resolver>, entry: &Entry) -> bool {
    match resolver.pick() {
        Some(picked) => compare_match(picked, entry).is_eq(),
        None => false,
    }
}

// Whether the resolver picks the one, and without it the other, and then none.
fn picks_in_order(resolver: &mut Box<dyn Resolver>, one: &Entry, other: &Entry) -> bool {
    picks(resolver, one)
        && resolver.remove(one)
        && !resolver.remove(one)
        && picks(resolver, other)
        && resolver.remove(other)
        && resolver.pick().is_none()
}

// Whether the case is met, whichever of the two comes first.
fn meets(
    alloc: Global,
    resolver: &mut Box<dyn Resolver>,
    case: &Case,
    turned: bool,
) -> Result<bool, NoMemory> {
    let (last, one, other) = *case;
    let one = entry(alloc, one)?;
    let other = entry(alloc, other)?;
    let a = one.copy(alloc)?;
    let b = other.copy(alloc)?;
    resolver.reserve(2)?;
    let held = if turned {
        hold(resolver, b, a)
    } else {
        hold(resolver, a, b)
    };
    if let Some(rule) = last {
        resolver.fired(RuleId(rule));
    }
    Ok(held && picks_in_order(resolver, &one, &other))
}

// The place of the first case that isn't met.
fn first_unmet(
    alloc: Global,
    resolver: &mut Box<dyn Resolver>,
    cases: &[Case],
) -> Result<Option<usize>, NoMemory> {
    for place in 0..cases.len() {
        let case = &cases[place];
        if !meets(alloc, resolver, case, false)? || !meets(alloc, resolver, case, true)? {
            return Ok(Some(place));
        }
    }
    Ok(None)
}

#[test]
fn fixed_goes_by_priority_rule_and_match(rt: HostRuntime) -> Result<(), Fail> {
    let alloc = rt.alloc();
    let mut resolver: Box<dyn Resolver> = Box::new(alloc, Fixed::new(alloc))?;
    assert_eq!(rt; resolver.kind(), Policy::Fixed);
    let cases = [
        (None, (2, 9, Created, -5, 9), (1, 1, Created, 3, 1)),
        (None, (1, 9, Created, 3, 9), (2, 1, Created, 3, 1)),
        (Some(1), (1, 1, Created, 3, 9), (1, 2, Created, 3, 1)),
        (Some(1), (2, 9, Created, 1, 9), (1, 1, Deleted, 2, 1)),
    ];
    assert_eq!(rt; first_unmet(alloc, &mut resolver, &cases)?, None);
    Ok(())
}

#[test]
fn inverted_negates_what_is_deleted(rt: HostRuntime) -> Result<(), Fail> {
    let alloc = rt.alloc();
    let mut resolver: Box<dyn Resolver> = Box::new(alloc, Inverted::new(alloc))?;
    assert_eq!(rt; resolver.kind(), Policy::Inverted);
    let cases = [
        (None, (2, 9, Created, 1, 9), (1, 1, Deleted, -2, 1)),
        (None, (2, 9, Deleted, 5, 9), (1, 1, Created, 1, 1)),
        (
            None,
            (2, 9, Created, i64::MAX, 9),
            (1, 1, Deleted, i64::MIN, 1),
        ),
        (
            None,
            (1, 9, Created, i64::MAX, 9),
            (2, 1, Deleted, i64::MIN + 1, 1),
        ),
        (Some(1), (1, 1, Deleted, 0, 9), (1, 2, Created, 0, 1)),
    ];
    assert_eq!(rt; first_unmet(alloc, &mut resolver, &cases)?, None);
    Ok(())
}

#[test]
fn oldest_goes_by_since_and_then_as_fixed(rt: HostRuntime) -> Result<(), Fail> {
    let alloc = rt.alloc();
    let mut resolver: Box<dyn Resolver> = Box::new(alloc, Oldest::new(alloc))?;
    assert_eq!(rt; resolver.kind(), Policy::Oldest);
    let cases = [
        (None, (2, 9, Created, 9, 1), (1, 1, Created, -9, 2)),
        (None, (2, 9, Created, -9, 2), (1, 1, Deleted, 9, 2)),
        (Some(1), (1, 9, Created, 4, 2), (2, 1, Created, 4, 2)),
        (Some(1), (1, 1, Fired, 4, 2), (1, 2, Created, 4, 2)),
    ];
    assert_eq!(rt; first_unmet(alloc, &mut resolver, &cases)?, None);
    Ok(())
}

// A case without a last rule is one after `clear`, though a rule fired before.
#[test]
fn turns_go_round_after_the_last_rule(rt: HostRuntime) -> Result<(), Fail> {
    let alloc = rt.alloc();
    let mut resolver: Box<dyn Resolver> = Box::new(alloc, Turns::new(alloc))?;
    assert_eq!(rt; resolver.kind(), Policy::Turns);
    let cases = [
        (None, (0, 9, Created, 9, 9), (3, 1, Created, 1, 1)),
        (Some(1), (2, 9, Created, 9, 9), (1, 1, Created, 1, 1)),
        (Some(1), (2, 9, Created, 9, 9), (0, 1, Created, 1, 1)),
        (Some(1), (2, 9, Created, 9, 9), (3, 1, Created, 1, 1)),
        (Some(2), (0, 9, Created, 9, 9), (2, 1, Created, 1, 1)),
        (Some(9), (0, 9, Created, 9, 9), (3, 1, Created, 1, 1)),
        (Some(2), (1, 1, Created, 9, 9), (1, 2, Created, 1, 1)),
        (Some(1), (2, 1, Created, 9, 9), (2, 2, Created, 1, 1)),
    ];
    assert_eq!(rt; first_unmet(alloc, &mut resolver, &cases)?, None);
    Ok(())
}
