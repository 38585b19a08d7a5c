//! What a step does to a pattern's matches, over pairs of an object and a number.
ghost use Rattle.vt_model.specs.Touched.{Rise};

use std::alloc::Global;
use std::fmt::Write;
use std::test::Fail;
use vt_base::{NoMemory, ObjId, PatternId, Rows, Tuple, Value};
use vt_history::PatternEvents;

fn row(alloc: Global, object: u32, number: i64) -> Result<Tuple, NoMemory> {
    Tuple::from_slice(alloc, &[Value::Obj(ObjId(object)), Value::Int(number)])
}

fn rows(alloc: Global, pairs: &[(u32, i64)]) -> Result<Rows, NoMemory> {
    let mut found = Vec::new(alloc);
    for (object, number) in pairs {
        found.push(row(alloc, *object, *number)?)?;
    }
    Rows::from_vec(alloc, found)
}

// Each row with the sign before it, as ` +4:40`.
fn add_rows(text: &mut String, sign: &str, rows: &Rows) -> Result<(), Fail> {
    let mut walk = rows.walk();
    while let Some(row) = walk.next() {
        if let [Value::Obj(object), Value::Int(number)] = row.as_slice() {
            write!(text, " {sign}{}:{number}", object.0)?;
        }
    }
    Ok(())
}

fn add_events(text: &mut String, events: &PatternEvents) -> Result<(), Fail> {
    write!(text, "{}", events.pattern.0)?;
    add_rows(text, "+", &events.added)?;
    add_rows(text, "-", &events.removed)?;
    add_rows(text, "~", &events.updated)
}

// The matches before are of the objects 1, 2, 3 and 5, those after of 2, 3, 4 and 5.
fn events(alloc: Global, touched: &[ObjId]) -> Result<PatternEvents, NoMemory>
    requires rise { Rise touched.now }
{
    let before = rows(alloc, &[(1, 10), (2, 20), (3, 30), (5, 50)])?;
    let after = rows(alloc, &[(2, 20), (3, 30), (4, 40), (5, 50)])?;
    PatternEvents::between(alloc, PatternId(7), &before, &after, touched)
}

// What happened, as `7 +4:40 -1:10 ~3:30`.
fn told(alloc: Global, touched: &[ObjId]) -> Result<String, Fail>
    requires rise { Rise touched.now }
{
    let mut text = String::new(alloc);
    add_events(&mut text, &events(alloc, touched)?)?;
    Ok(text)
}

// ---- the objects that have other values

fn none() -> [ObjId; 0]
    ensures { Rise result }
{
    []
}

// One that went, two that stay, one that came and one that is in no match.
fn of_each_kind() -> [ObjId; 5]
    ensures { Rise result }
{
    [ObjId(1), ObjId(3), ObjId(4), ObjId(5), ObjId(9)]
}

// Their numbers stand in matches as plain numbers.
fn named_by_none() -> [ObjId; 2]
    ensures { Rise result }
{
    [ObjId(20), ObjId(30)]
}

#[test]
fn a_match_that_came_was_created_and_one_that_went_was_deleted(
    rt: HostRuntime,
) -> Result<(), Fail> {
    assert!(rt; told(rt.alloc(), &none())?.as_str() == "7 +4:40 -1:10");
    Ok(())
}

#[test]
fn a_match_that_stays_was_updated_where_its_object_was_touched(
    rt: HostRuntime,
) -> Result<(), Fail> {
    assert!(rt; told(rt.alloc(), &of_each_kind())?.as_str() == "7 +4:40 -1:10 ~3:30 ~5:50");
    Ok(())
}

#[test]
fn a_number_is_no_object(rt: HostRuntime) -> Result<(), Fail> {
    assert!(rt; told(rt.alloc(), &named_by_none())?.as_str() == "7 +4:40 -1:10");
    Ok(())
}
