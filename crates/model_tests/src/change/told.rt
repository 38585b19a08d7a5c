// What a transaction told, and what a store has, as text.
ghost use Rattle.vt_delta.specs.Deltas.{HasCounts};
ghost use Rattle.vt_model.specs.Base.{counts_of};

use std::alloc::Global;
use std::test::Fail;
use vt_base::{AttrId, ClassId, NoMemory, ObjId, RefId, Rows, Value};
use vt_change::Applied;
use vt_delta::{BaseDelta, Delta};
use vt_model::Metamodel;
use vt_store::Store;

fn shown(alloc: Global, store: &Store, value: &Value) -> Result<String, NoMemory> {
    Ok(match value {
        Value::Bool(b) => format!(in alloc; "{b}")?,
        Value::Int(n) => format!(in alloc; "{n}")?,
        Value::Text(text) => format!(in alloc; "{}", text.as_str())?,
        Value::Enum(_, l) => format!(in alloc; "{l}")?,
        Value::Obj(o) => {
            format!(in alloc; "{}", store.name_of(*o).map_or("?", |name| name.as_str()))?
        }
    })
}

// Each row as `+pages(x 3) `.
fn add_rows(
    text: &mut String,
    alloc: Global,
    store: &Store,
    sign: &str,
    rows: &Rows,
) -> Result<(), Fail> {
    let mut walk = rows.walk();
    while let Some(row) = walk.next() {
        text.push_str(sign)?;
        let mut before = "(";
        for value in row.as_slice() {
            text.push_str(before)?;
            text.push_str(shown(alloc, store, value)?.as_str())?;
            before = " ";
        }
        text.push_str(") ")?;
    }
    Ok(())
}

fn add_delta(
    text: &mut String,
    alloc: Global,
    store: &Store,
    name: &str,
    delta: &Delta,
) -> Result<(), Fail> {
    let gone = format!(in alloc; "-{name}")?;
    let came = format!(in alloc; "+{name}")?;
    add_rows(text, alloc, store, gone.as_str(), &delta.removed)?;
    add_rows(text, alloc, store, came.as_str(), &delta.added)
}

fn add_deltas(
    text: &mut String,
    alloc: Global,
    store: &Store,
    meta: &Metamodel,
    delta: &BaseDelta,
) -> Result<(), Fail>
    requires { HasCounts (counts_of meta.now) delta.now }
{
    for c in 0..meta.class_count() {
        let name = meta
            .class(ClassId(c))
            .map_or("?", |info| info.name.as_str());
        add_delta(text, alloc, store, name, delta.class(ClassId(c)))?;
    }
    for a in 0..meta.attr_count() {
        let name = meta
            .attribute(AttrId(a))
            .map_or("?", |info| info.name.as_str());
        add_delta(text, alloc, store, name, delta.attr(AttrId(a)))?;
    }
    for r in 0..meta.ref_count() {
        let name = meta
            .reference(RefId(r))
            .map_or("?", |info| info.name.as_str());
        add_delta(text, alloc, store, name, delta.reference(RefId(r)))?;
    }
    Ok(())
}

// What a transaction told: rows that went and came, and the objects that it touched.
pub(super) fn told(alloc: Global, store: &Store, applied: &Applied) -> Result<String, Fail>
    requires { HasCounts (counts_of store.now.meta) applied.now.delta }
{
    let mut text = String::new(alloc);
    add_deltas(&mut text, alloc, store, store.meta(), applied.delta())?;
    text.push_str("touched")?;
    for o in applied.touched() {
        let name = store.name_of(*o).map_or("?", |name| name.as_str());
        text.push_str(format!(in alloc; " {name}")?.as_str())?;
    }
    Ok(text)
}

// ---- what a store has

fn add_object(text: &mut String, alloc: Global, store: &Store, o: ObjId) -> Result<(), Fail> {
    for a in 0..store.meta().attr_count() {
        if let Some(value) = store.attrs(o, AttrId(a)) {
            let value = shown(alloc, store, value)?;
            text.push_str(format!(in alloc; " {a}={}", value.as_str())?.as_str())?;
        }
    }
    for r in 0..store.meta().ref_count() {
        for target in store.targets(o, RefId(r)) {
            text.push_str(format!(in alloc; " {r}>{}", target.0)?.as_str())?;
        }
    }
    Ok(())
}

// Each object that was ever made, with its values and its targets, and whether it is live.
pub(super) fn picture(alloc: Global, store: &Store) -> Result<String, Fail> {
    let mut text = String::new(alloc);
    for number in 0..store.next_number() {
        let o = ObjId(number);
        let name = store.name_of(o).map_or("?", |name| name.as_str());
        let live = store.class_of(o).is_some();
        text.push_str(format!(in alloc; "{name} {live}")?.as_str())?;
        add_object(&mut text, alloc, store, o)?;
        text.push_str("; ")?;
    }
    Ok(text)
}
