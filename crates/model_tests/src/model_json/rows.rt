// What is new in the models that documents make.
ghost use Rattle.std.specs.Prelude.{◌≤◌, length};

use super::dumps::PETS;
use super::metamodel;
use std::alloc::Global;
use std::test::Fail;
use vt_base::{AttrId, ClassId, NoMemory, RefId, Value};
use vt_delta::{BaseDelta, Delta};
use vt_model_json::read_model;

// A wolf, which is the friend of a pet and of itself, and the pet.
const WOLF_AND_PET: &str = concat!(
    r#"{"format":1,"objects":[{"name":"w","class":"Wolf","links":{"friends":["k","w"]}},"#,
    r#"{"name":"k","class":"Pet","attributes":{"nick":"K"}}]}"#,
);

/// The objects of the rows that a delta adds, each with the object that follows it, and how many rows
/// the delta removes.
type Told = (Vec<(u32, Option<u32>)>, usize);

fn told(alloc: Global, delta: &Delta) -> Result<Told, NoMemory> {
    let mut added = Vec::new(alloc);
    let mut walk = delta.added.walk();
    while let Some(row) = walk.next() {
        match row.as_slice() {
            [Value::Obj(o), Value::Obj(p)] => added.push((o.0, Some(p.0)))?,
            [Value::Obj(o), ..] => added.push((o.0, None))?,
            _ => {}
        }
    }
    Ok((added, delta.removed.len()))
}

// What is told of all classes, then of all attributes, then of all references.
fn all_told(
    alloc: Global,
    delta: &BaseDelta,
    classes: u16,
    attributes: u16,
    references: u16,
) -> Result<Vec<Told>, NoMemory>
    requires classes { classes ≤ length delta.now.classes }
    requires attributes { attributes ≤ length delta.now.attributes }
    requires references { references ≤ length delta.now.references }
{
    let mut all = Vec::new(alloc);
    for c in 0..classes {
        all.push(told(alloc, delta.class(ClassId(c)))?)?;
    }
    for a in 0..attributes {
        all.push(told(alloc, delta.attr(AttrId(a)))?)?;
    }
    for r in 0..references {
        all.push(told(alloc, delta.reference(RefId(r)))?)?;
    }
    Ok(all)
}

#[test]
fn all_rows_of_a_model_are_new(rt: HostRuntime) -> Result<(), Fail> {
    let alloc = rt.alloc();
    let meta = metamodel(alloc, PETS)?;
    let (store, delta) = read_model(alloc, &meta, WOLF_AND_PET.as_bytes())?;
    let meta = store.meta();
    let all = all_told(
        alloc,
        &delta,
        meta.class_count(),
        meta.attr_count(),
        meta.ref_count(),
    )?;
    let all = format!(in alloc; "{all:?}")?;
    assert_eq!(rt; all.as_str(), concat!(
        // Animals, those with a name, pets, wolves.
        "[([(0, None), (1, None)], 0), ([(1, None)], 0), ([(1, None)], 0), ([(0, None)], 0), ",
        // Sizes, whether tame, names, tempers of both; then friends.
        "([(0, None), (1, None)], 0), ([(0, None), (1, None)], 0), ([(1, None)], 0), ([(1, None)], 0), ",
        "([(0, Some(0)), (0, Some(1))], 0), ([(0, Some(0)), (1, Some(0))], 0)]",
    ));
    Ok(())
}
