// A memory beside a plain list of rows, over calls at random.
ghost use Rattle.std.specs.Prelude.{◌≡◌, ◌<◌, [], ◌∷◌, IfOk};

use crate::Memory;
use std::alloc::Global;
use std::marker::Brand;
use std::sync::ledger::{Blank, Ledger};
use std::test::Fail;
use vt_base::{List, NoMemory, Rows, Steps, Text, Tuple, Value};

mod net;

const NAMES: [&str; 8] = ["", "a", "aa", "ab", "b", "ba", "prefix 1", "prefix 2"];

// Rows are told by their numbers below this one: the eighth part is the first column, and the name
// of the rest the second.
const ROWS: u32 = 64;

fn number(n: u32) -> Value {
    Value::Int((n / 8) as i64)
}

fn name(alloc: Global, n: u32) -> Result<Value, NoMemory> {
    let text = NAMES.get((n % 8) as usize).copied().unwrap_or("");
    Ok(Value::Text(Text::new(alloc, text)?))
}

fn row(alloc: Global, n: u32) -> Result<Tuple, NoMemory> {
    Tuple::from_slice(alloc, &[number(n), name(alloc, n)?])
}

// A memory with room for some rows, which is found by each of two columns.
fn memory(alloc: Global, room: usize, places: usize) -> Result<Memory, NoMemory>
    requires { 0 < places }
    ensures { IfOk result (λ m. m.keys ≡ (0 ∷ []) ∷ (1 ∷ []) ∷ []) }
{
    let mut keys = Vec::new(alloc);
    keys.push(List::from_vec(Vec::from_slice(alloc, &[0])?))?;
    keys.push(List::from_vec(Vec::from_slice(alloc, &[1])?))?;
    Memory::with_places(alloc, keys, room, places)
}

fn stood_at(stands: &[bool], n: u32) -> bool {
    stands.get(n as usize).copied().unwrap_or(false)
}

fn set(stands: &mut [bool], n: u32, stood: bool) {
    if let Some(stand) = stands.get_mut(n as usize) {
        *stand = stood;
    }
}

// Whether the buckets of a row's columns are those that the list has.
fn buckets<L: Ledger>(
    alloc: Global,
    memory: &Memory,
    stands: &[bool],
    n: u32,
    steps: &mut Steps<L>,
) -> Result<bool, NoMemory>
    requires { memory.now.keys ≡ (0 ∷ []) ∷ (1 ∷ []) ∷ [] }
{
    let by_number = memory.bucket(alloc, 0, &[number(n)], steps)?;
    let by_name = memory.bucket(alloc, 1, &[name(alloc, n)?], steps)?;
    let mut same = memory.beyond(0, &[number(n)], &by_number, steps).is_none();
    let none = Rows::new(alloc);
    same = same && memory.beyond(0, &[number(n)], &none, steps).is_none() == by_number.is_empty();
    for m in 0..ROWS {
        let stood = stood_at(stands, m);
        let other = row(alloc, m)?;
        same = same && by_number.contains(&other) == (stood && m / 8 == n / 8);
        same = same && by_name.contains(&other) == (stood && m % 8 == n % 8);
    }
    Ok(same)
}

// Makes one call, and says whether the memory answers as the list does.
fn call<L: Ledger>(
    alloc: Global,
    memory: &mut Memory,
    stands: &mut [bool],
    roll: u32,
    steps: &mut Steps<L>,
) -> Result<bool, NoMemory>
    requires { memory.old.keys ≡ (0 ∷ []) ∷ (1 ∷ []) ∷ [] }
    ensures { memory.new.keys ≡ memory.old.keys }
{
    let n = roll % ROWS;
    let row = row(alloc, n)?;
    let stood = stood_at(stands, n);
    match roll / ROWS % 8 {
        0..=2 => {
            set(stands, n, true);
            match memory.insert(row, steps) {
                Ok(new) => Ok(new != stood),
                Err(_) => Err(NoMemory),
            }
        }
        3..=5 => {
            set(stands, n, false);
            Ok(memory.remove(&row, steps) == stood)
        }
        6 => {
            memory.reserve(1)?;
            Ok(memory.spare() > 0 && memory.contains(&row, steps) == stood)
        }
        _ => buckets(alloc, memory, stands, n, steps),
    }
}

// Whether a memory answers as a list does, call after call.
fn agrees(alloc: Global, room: usize, places: usize, calls: u32) -> Result<bool, NoMemory>
    requires { 0 < places }
{
    agree::<Brand>(alloc, Blank::new(1), room, places, calls)
}

fn agree<L: Ledger>(
    alloc: Global,
    blank: Blank,
    room: usize,
    places: usize,
    calls: u32,
) -> Result<bool, NoMemory>
    requires name { blank.name ≡ L.name }
    requires parts { blank.parts ≡ L.parts }
    requires some { 0 < blank.parts }
    requires places { 0 < places }
{
    let mut steps = Steps::<L>::new(blank);
    let mut memory = memory(alloc, room, places)?;
    let mut stands = vec![in alloc; false; 64]?;
    let mut state = 1u64;
    let mut same = true;
    for _ in 0..calls {
        state = state
            .wrapping_mul(6_364_136_223_846_793_005)
            .wrapping_add(1_442_695_040_888_963_407);
        let roll = (state >> 33) as u32;
        let agreed = call(alloc, &mut memory, stands.as_mut_slice(), roll, &mut steps)?;
        same = same && agreed;
    }
    Ok(same)
}

#[test]
fn a_memory_answers_as_a_list_does(rt: HostRuntime) -> Result<(), Fail> {
    // Grown from nothing; with few places; with room for all.
    assert!(rt; agrees(rt.alloc(), 0, 1, 4000)?);
    assert!(rt; agrees(rt.alloc(), 40, 7, 1000)?);
    assert!(rt; agrees(rt.alloc(), 64, 101, 2000)?);
    Ok(())
}

#[test]
fn a_memory_whose_places_are_all_equal_answers_so_too(rt: HostRuntime) -> Result<(), Fail> {
    assert!(rt; agrees(rt.alloc(), 64, 1, 3000)?);
    Ok(())
}
