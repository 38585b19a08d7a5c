// What a change of rows is, over small sets of numbers.
use std::alloc::Global;
use std::test::Fail;
use vt_base::{AttrId, ClassId, List, NoMemory, RefId, Rows, Tuple, Value};
use vt_delta::{BaseDelta, Delta, Deltas};

fn row(alloc: Global, number: i64) -> Result<Tuple, NoMemory> {
    Tuple::from_slice(alloc, &[Value::Int(number)])
}

fn rows(alloc: Global, numbers: &[i64]) -> Result<Rows, NoMemory> {
    let mut tuples = Vec::new(alloc);
    for number in numbers {
        tuples.push(row(alloc, *number)?)?;
    }
    Rows::from_vec(alloc, tuples)
}

// Whether these are the rows, and no others.
fn are(alloc: Global, found: &Rows, numbers: &[i64]) -> Result<bool, NoMemory> {
    let mut same = found.len() == numbers.len();
    for number in numbers {
        same = same && found.contains(&row(alloc, *number)?);
    }
    Ok(same)
}

// Whether these came, and these went.
fn is(alloc: Global, delta: &Delta, added: &[i64], removed: &[i64]) -> Result<bool, NoMemory> {
    let came = are(alloc, &delta.added, added)?;
    let went = are(alloc, &delta.removed, removed)?;
    Ok(came && went)
}

fn net(alloc: Global, before: &[i64], after: &[i64]) -> Result<Delta, NoMemory> {
    let first = rows(alloc, before)?;
    let second = rows(alloc, after)?;
    Delta::net(alloc, &first, &second)?.copy(alloc)
}

// Whether the net change of two sets is this one, and leads from the first to the second.
fn leads(alloc: Global, sets: [&[i64]; 4]) -> Result<bool, NoMemory> {
    let [before, after, added, removed] = sets;
    let delta = net(alloc, before, after)?;
    let led = delta.apply(alloc, &rows(alloc, before)?)?;
    Ok(is(alloc, &delta, added, removed)? && are(alloc, &led, after)?)
}

#[test]
fn a_net_delta_leads_from_the_rows_before_to_those_after(rt: HostRuntime) -> Result<(), Fail> {
    // Before, after, what came, what went.
    let cases: [[&[i64]; 4]; 4] = [
        [&[1, 2, 3], &[2, 4], &[4], &[1, 3]],
        [&[], &[5, 6], &[5, 6], &[]],
        [&[5, 6], &[], &[], &[5, 6]],
        [&[1, 2], &[1, 2], &[], &[]],
    ];
    for sets in cases {
        assert!(rt; leads(rt.alloc(), sets)?);
    }
    assert!(rt; net(rt.alloc(), &[1, 2], &[1, 2])?.is_empty());
    assert!(rt; !net(rt.alloc(), &[1, 2], &[1])?.is_empty());
    Ok(())
}

// The change after some rows came, and those with a number below 0 went.
fn moved(alloc: Global, moves: &[i64]) -> Result<Delta, NoMemory> {
    let mut delta = Delta::new(alloc);
    for number in moves {
        let moving = row(alloc, number.wrapping_abs())?;
        if *number > 0 {
            delta.row_comes(moving)?;
        } else {
            delta.row_goes(moving)?;
        }
    }
    Ok(delta)
}

fn leaves(alloc: Global, moves: &[i64], added: &[i64], removed: &[i64]) -> Result<bool, NoMemory> {
    is(alloc, &moved(alloc, moves)?, added, removed)
}

#[test]
fn rows_that_come_and_go_again_leave_no_trace(rt: HostRuntime) -> Result<(), Fail> {
    // The moves, what came, what went.
    let cases: [[&[i64]; 3]; 5] = [
        [&[], &[], &[]],
        [&[1, -2], &[1], &[2]],
        [&[1, -2, -1], &[], &[2]],
        [&[1, -2, -1, 2], &[], &[]],
        [&[1, -2, -1, 2, 2, -1], &[2], &[1]],
    ];
    for [moves, added, removed] in cases {
        assert!(rt; leaves(rt.alloc(), moves, added, removed)?);
    }
    assert!(rt; moved(rt.alloc(), &[1, -1])?.is_empty());
    Ok(())
}

// What is seen of 4,000 references where a row went from the first and one came to the last.
fn ends(alloc: Global) -> Result<[bool; 3], NoMemory> {
    let mut change = BaseDelta::none(alloc, 1, 1, 4000);
    change.references.row_comes(3999, row(alloc, 8)?)?;
    change.references.row_goes(0, row(alloc, 7)?)?;
    let first = is(alloc, change.reference(RefId(0)), &[], &[7])?;
    let last = is(alloc, change.reference(RefId(3999)), &[8], &[])?;
    let still = change.reference(RefId(3998)).is_empty();
    Ok([first, last, still])
}

// What is seen of three classes and two attributes where a row came to one and went from one.
fn of_each_kind(alloc: Global) -> Result<[bool; 3], NoMemory> {
    let mut change = BaseDelta::none(alloc, 3, 2, 1);
    change.classes.row_comes(1, row(alloc, 7)?)?;
    change.attributes.row_goes(0, row(alloc, 8)?)?;
    let came = is(alloc, change.class(ClassId(1)), &[7], &[])?;
    let went = is(alloc, change.attr(AttrId(0)), &[], &[8])?;
    let still = change.class(ClassId(0)).is_empty() && change.attr(AttrId(1)).is_empty();
    Ok([came, went, still])
}

#[test]
fn a_row_is_seen_at_its_number_alone(rt: HostRuntime) -> Result<(), Fail> {
    assert_eq!(rt; ends(rt.alloc())?, [true; 3]);
    assert_eq!(rt; of_each_kind(rt.alloc())?, [true; 3]);
    Ok(())
}

// Whether deltas that are handed over stay, and move on.
fn handed_over(alloc: Global) -> Result<[bool; 2], NoMemory> {
    let mut list = List::new(alloc);
    list.add(net(alloc, &[1], &[2])?)?;
    let mut deltas = Deltas::from_list(list);
    let stayed = is(alloc, deltas.get(0), &[2], &[1])?;
    deltas.row_comes(0, row(alloc, 1)?)?;
    Ok([stayed, is(alloc, deltas.get(0), &[2], &[])?])
}

#[test]
fn deltas_that_are_handed_over_stay(rt: HostRuntime) -> Result<(), Fail> {
    assert_eq!(rt; handed_over(rt.alloc())?, [true; 2]);
    Ok(())
}
