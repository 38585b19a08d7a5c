// What no clause says: that a call succeeds, and that the clauses mean what one expects of a text,
// a list, a set of rows and a copy.
ghost use Rattle.std.specs.Prelude.{◌≡◌, ◌+◌, ◌^◌, ◌-◌, [], ◌∷◌, Some, None, pos, negsuc};
ghost use Rattle.vt_base.specs.Aggregate.{aggregate_of};
ghost use Rattle.vt_base.specs.declared.aggregate.AggKind.TheVariants.{Sum, Min, Max};
ghost use Rattle.vt_base.specs.declared.value.Value.TheVariants as value;

use std::alloc::Global;
use std::cmp::Ordering;
use std::fmt::Debug;
use std::marker::Brand;
use std::process::Abort;
use std::sync::ledger::{Blank, Ledger};
use std::test::Fail;
use vt_base::{
    AggKind, AttrId, ClassId, Kind, List, NoMemory, ObjId, PatternId, Plain, Policy, RefId, Roomy,
    Rows, RuleId, State, Steps, Text, Tuple, Value,
};

mod printing;

// How a text compares with another one, and whether it is that one.
fn compared(alloc: Global, a: &str, b: &str) -> Result<(Ordering, bool, bool), NoMemory> {
    let text = Text::new(alloc, a)?;
    let other = Text::new(alloc, b)?;
    Ok((text.cmp(&other), text == other, text.is(b)))
}

#[test]
fn texts_are_compared_by_their_bytes(rt: HostRuntime) -> Result<(), Fail> {
    // A text comes after each front of it, capital letters before small ones, ASCII before all
    // else. The last two would change places in UTF-16.
    let rising = [
        "",
        "10",
        "9",
        "Z",
        "a",
        "ab",
        "b",
        "e",
        "z",
        "é",
        "\u{ffff}",
        "\u{10000}",
    ];
    for (i, a) in rising.iter().enumerate() {
        for (j, b) in rising.iter().enumerate() {
            let wanted = (i.cmp(&j), i == j, i == j);
            assert_eq!(rt; compared(rt.alloc(), a, b)?, wanted, "texts {i} and {j}");
        }
    }
    Ok(())
}

// A text whose first owner is gone.
fn second_owner(alloc: Global) -> Result<Text, NoMemory> {
    let text = Text::new(alloc, "room.1")?;
    Ok(text.share())
}

#[test]
fn what_is_shared_outlives_its_first_owner(rt: HostRuntime) -> Result<(), Fail> {
    assert_eq!(rt; second_owner(rt.alloc())?.as_str(), "room.1");
    Ok(())
}

// The numbers 1 to 4, put into a list in each way.
fn filled(alloc: Global) -> Result<List<u8>, NoMemory> {
    let mut list = List::new(alloc);
    list.reserve(1000)?;
    if list.push(1u8).is_err() {
        return Err(NoMemory);
    }
    list.add(2)?;
    list.extend(&[3, 4])?;
    Ok(list)
}

#[test]
fn a_list_gives_back_what_was_put_in(rt: HostRuntime) -> Result<(), Fail> {
    let mut list = filled(rt.alloc())?;
    assert_eq!(rt; list.as_slice(), [1, 2, 3, 4].as_slice());
    assert_eq!(rt;
        [list.get(0), list.get(3), list.get(4)],
        [Some(&1), Some(&4), None]
    );
    assert_eq!(rt; [list.pop(), list.pop()], [Some(4), Some(3)]);
    assert_eq!(rt; (list.len(), list.is_empty()), (2, false));
    let mut none = List::<u8>::new(rt.alloc());
    assert_eq!(rt; (none.pop(), none.is_empty()), (None, true));
    Ok(())
}

// The same list with room, with one more number.
fn filled_with_room(alloc: Global) -> Result<Roomy<u8>, NoMemory> {
    let mut roomy = filled(alloc)?.into_roomy();
    roomy.reserve(1000)?;
    match roomy.push(5) {
        Ok(()) => Ok(roomy),
        Err(_) => Err(NoMemory),
    }
}

#[test]
fn a_list_with_room_gives_it_back_too(rt: HostRuntime) -> Result<(), Fail> {
    let mut roomy = filled_with_room(rt.alloc())?;
    assert_eq!(rt;
        [roomy.get(3), roomy.get(4), roomy.get(5)],
        [Some(&4), Some(&5), None]
    );
    assert_eq!(rt; (roomy.pop(), roomy.len()), (Some(5), 4));
    assert_eq!(rt; roomy.as_slice(), [1, 2, 3, 4].as_slice());
    assert_eq!(rt;
        roomy.into_list().into_vec().as_slice(),
        [1, 2, 3, 4].as_slice()
    );
    let mut none = Roomy::<u8>::new(rt.alloc());
    assert_eq!(rt; (none.pop(), none.is_empty()), (None, true));
    assert!(rt; !Roomy::from_vec(Vec::from_slice(rt.alloc(), &[6u8])?).is_empty());
    Ok(())
}

// One value of each kind and more, in rising order.
fn rising_values(alloc: Global) -> Result<[Value; 14], NoMemory> {
    let none = Text::new(alloc, "")?;
    let ten = Text::new(alloc, "10")?;
    let nine = Text::new(alloc, "9")?;
    Ok([
        Value::Bool(false),
        Value::Bool(true),
        Value::Int(i64::MIN),
        Value::Int(-1),
        Value::Int(0),
        Value::Int(10),
        Value::Text(none),
        Value::Text(ten),
        Value::Text(nine),
        Value::Enum(0, 0),
        Value::Enum(0, 9),
        Value::Enum(1, 0),
        Value::Obj(ObjId(0)),
        Value::Obj(ObjId(10)),
    ])
}

// Each item is below those that follow it, and equal to itself alone.
fn assert_ascending<T: Ord + Debug>(rt: &impl Abort, items: &[T]) {
    for (i, a) in items.iter().enumerate() {
        for (j, b) in items.iter().enumerate() {
            assert_eq!(rt; a.cmp(b), i.cmp(&j), "items {i} and {j}");
            assert_eq!(rt; a == b, i == j, "items {i} and {j}");
        }
    }
}

// A tuple of whole numbers.
fn numbers(alloc: Global, items: &[i64]) -> Result<Tuple, NoMemory> {
    let mut values = List::new(alloc);
    for n in items {
        values.add(Value::Int(*n))?;
    }
    Tuple::from_slice(alloc, values.as_slice())
}

// At the first place that differs the smaller number comes first, and else the shorter tuple.
fn ascending_tuples(alloc: Global) -> Result<List<Tuple>, NoMemory> {
    let mut tuples = List::new(alloc);
    let items: [&[i64]; 7] = [&[], &[-1, 5, 5], &[0], &[0, 0], &[0, 1], &[1], &[10, 2]];
    for item in items {
        tuples.add(numbers(alloc, item)?)?;
    }
    Ok(tuples)
}

#[test]
fn values_are_ordered_and_copied(rt: HostRuntime) -> Result<(), Fail> {
    let values = rising_values(rt.alloc())?;
    assert_ascending(&rt, &values);
    for value in values.iter() {
        assert_eq!(rt; value.copy(rt.alloc())?, *value);
    }
    Ok(())
}

#[test]
fn tuples_are_ordered(rt: HostRuntime) -> Result<(), Fail> {
    let tuples = ascending_tuples(rt.alloc())?;
    assert_ascending(&rt, tuples.as_slice());
    Ok(())
}

// The rows of a list that has each tuple five times, in falling order.
fn rows_of(alloc: Global, tuples: &[Tuple]) -> Result<Rows, NoMemory> {
    let mut given = Vec::new(alloc);
    for _ in 0..5 {
        for t in tuples.iter().rev() {
            given.push(t.copy(alloc)?)?;
        }
    }
    Rows::from_vec(alloc, given)?.copy(alloc)
}

#[test]
fn rows_ascend_and_none_comes_twice(rt: HostRuntime) -> Result<(), Fail> {
    let tuples = ascending_tuples(rt.alloc())?;
    let rows = rows_of(rt.alloc(), tuples.as_slice())?;
    for i in 0..8 {
        assert_eq!(rt; rows.get(i), tuples.get(i));
    }
    assert_eq!(rt; (rows.len(), rows.is_empty()), (7, false));
    assert!(rt; Rows::new(rt.alloc()).is_empty());
    Ok(())
}

// Whether a tuple of numbers stands in the rows.
fn stands(alloc: Global, rows: &Rows, values: &[i64]) -> Result<bool, NoMemory> {
    Ok(rows.contains(&numbers(alloc, values)?))
}

#[test]
fn rows_tell_which_tuples_stand(rt: HostRuntime) -> Result<(), Fail> {
    let rows = rows_of(rt.alloc(), ascending_tuples(rt.alloc())?.as_slice())?;
    let asked: [(&[i64], bool); 5] = [
        (&[], true),
        (&[10, 2], true),
        (&[10], false),
        (&[0, 2], false),
        (&[11], false),
    ];
    for (values, there) in asked {
        assert_eq!(rt; stands(rt.alloc(), &rows, values)?, there);
    }
    Ok(())
}

#[test]
fn a_tuple_of_five_values_is_kept_and_copied(rt: HostRuntime) -> Result<(), Fail> {
    let long = numbers(rt.alloc(), &[3, 4, 5, 6, 7])?.copy(rt.alloc())?;
    assert_eq!(rt; [long.get(4), long.get(5)], [Some(&Value::Int(7)), None]);
    assert_eq!(rt; (long.len(), long.is_empty()), (5, false));
    Ok(())
}

// What a set of rows answers when a row comes, comes again and goes.
fn answers(alloc: Global, row: &Tuple) -> Result<[bool; 4], NoMemory> {
    let mut rows = Rows::new(alloc);
    rows.reserve(1)?;
    let came = matches!(rows.insert(row.copy(alloc)?), Ok(true));
    let again = matches!(rows.insert(row.copy(alloc)?), Ok(true));
    let met = rows.walk_from(row).next() == Some(row) && rows.walk().next() == Some(row);
    let gone = rows.remove(row) && rows.is_empty();
    Ok([came, again, met, gone])
}

#[test]
fn a_row_comes_and_goes(rt: HostRuntime) -> Result<(), Fail> {
    let row = numbers(rt.alloc(), &[10, 2])?;
    assert_eq!(rt; answers(rt.alloc(), &row)?, [true, false, true, true]);
    Ok(())
}

// Columns of rows, and what they come to.
fn a_column_comes_to_this()
    ensures no_rows { aggregate_of Sum [] 0 ≡ Some (value.Int (pos 0)) }
    ensures sum { aggregate_of Sum
        ((value.Int (pos 9) ∷ value.Int (pos 4) ∷ [])
        ∷ (value.Int (pos 9) ∷ value.Int (negsuc 5) ∷ [])
        ∷ []) 1 ≡ Some (value.Int (negsuc 1)) }
    ensures greatest_sum { aggregate_of Sum
        ((value.Int (pos (2 ^ 63 - 1)) ∷ []) ∷ (value.Int (pos 0) ∷ []) ∷ []) 0
        ≡ Some (value.Int (pos (2 ^ 63 - 1))) }
    ensures too_great { aggregate_of Sum
        ((value.Int (pos (2 ^ 63 - 1)) ∷ []) ∷ (value.Int (pos 1) ∷ []) ∷ []) 0 ≡ None }
    ensures too_small { aggregate_of Sum
        ((value.Int (negsuc (2 ^ 63 - 1)) ∷ []) ∷ (value.Int (negsuc 0) ∷ []) ∷ []) 0 ≡ None }
    ensures back_in_range { aggregate_of Sum
        ((value.Int (pos (2 ^ 63 - 1)) ∷ []) ∷ (value.Int (pos 1) ∷ []) ∷ (value.Int (negsuc 0) ∷ []) ∷ []) 0
        ≡ Some (value.Int (pos (2 ^ 63 - 1))) }
    ensures least { aggregate_of Min
        ((value.Int (pos 2) ∷ []) ∷ (value.Int (negsuc 0) ∷ []) ∷ (value.Int (pos 1) ∷ []) ∷ []) 0
        ≡ Some (value.Int (negsuc 0)) }
    ensures greatest { aggregate_of Max
        ((value.Int (pos 2) ∷ []) ∷ (value.Int (negsuc 0) ∷ []) ∷ (value.Text [] ∷ []) ∷ []) 0
        ≡ Some (value.Text []) }
    ensures no_least { aggregate_of Min [] 0 ≡ None }
    ensures no_greatest { aggregate_of Max [] 0 ≡ None }
{}

fn assert_copied<T: Plain + Copy + PartialEq + Debug>(
    rt: &impl Abort,
    alloc: Global,
    value: T,
) -> Result<(), NoMemory> {
    let copy = value.copy(alloc)?;
    assert_eq!(rt; copy, value);
    Ok(())
}

fn two_files(alloc: Global) -> Result<List<(Text, List<u8>)>, NoMemory> {
    let mut files = List::new(alloc);
    let bytes = Vec::from_slice(alloc, b"{}")?;
    files.add((Text::new(alloc, "a.json")?, List::from_vec(bytes)))?;
    files.add((Text::new(alloc, "é")?, List::new(alloc)))?;
    Ok(files)
}

#[test]
fn a_copy_equals_its_source(rt: HostRuntime) -> Result<(), Fail> {
    let alloc = rt.alloc();
    assert_copied(&rt, alloc, (true, 1u8))?;
    assert_copied(&rt, alloc, (2u16, 3u32))?;
    assert_copied(&rt, alloc, (u64::MAX, i64::MIN))?;
    assert_copied(&rt, alloc, (ObjId(1), ClassId(2)))?;
    assert_copied(&rt, alloc, (AttrId(3), RefId(4)))?;
    assert_copied(&rt, alloc, (PatternId(5), RuleId(6)))?;
    assert_copied(&rt, alloc, (Some(Kind::Enum(7)), None::<Kind>))?;
    assert_copied(&rt, alloc, (AggKind::Max, State::Deleted))?;
    assert_copied(&rt, alloc, Policy::Turns)?;
    let copies = two_files(alloc)?.copy(alloc)?;
    assert_eq!(rt; copies.len(), 2);
    let wanted = [("a.json", b"{}".as_slice()), ("é", b"".as_slice())];
    for (file, (name, bytes)) in copies.as_slice().iter().zip(wanted) {
        assert_eq!(rt; file.0.as_str(), name);
        assert_eq!(rt; file.1.as_slice(), bytes);
    }
    Ok(())
}

fn tick_twice<L: Ledger>(steps: &mut Steps<L>)
    ensures { steps.new ≡ steps.old + 2 }
{
    steps.tick();
    steps.tick();
}

fn count<L: Ledger>(blank: Blank)
    requires name { blank.name ≡ L.name }
    requires parts { blank.parts ≡ L.parts }
    requires some { blank.parts ≡ 1 }
{
    let mut steps = Steps::<L>::new(blank);
    tick_twice(&mut steps);
}

#[test]
fn a_counter_can_be_had_and_ticks() {
    count::<Brand>(Blank::new(1));
}
