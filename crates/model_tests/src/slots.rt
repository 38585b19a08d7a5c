// What no clause says: that a call succeeds, and that the clauses mean what one expects of them.
ghost use Rattle.std.specs.Prelude.{IfOk, IsSomeAnd};
ghost use Rattle.vt_slots.specs.Values.{HasPlace};
ghost use Rattle.vt_slots.specs.Slots.{body_at};

use std::alloc::Global;
use std::test::Fail;
use vt_base::{AttrId, ClassId, NoMemory, ObjId, RefId, Text, Value};
use vt_slots::{Body, Ends, Held, Side, Slots, Values};

// A place for one attribute, without a value.
fn values(alloc: Global) -> Result<Values, NoMemory>
    ensures { IfOk result (λ values. HasPlace values (record { 0 = 5 })) }
{
    let mut places = Vec::new(alloc);
    places.push(Held {
        attribute: AttrId(5),
        value: None,
    })?;
    Ok(Values::new(places))
}

// One live object with a place for an attribute, and without links.
fn slots(alloc: Global) -> Result<Slots, NoMemory>
    ensures { IfOk result (λ slots. IsSomeAnd (body_at slots (record { 0 = 2 })) (λ body. HasPlace body.values (record { 0 = 5 }))) }
{
    let mut slots = Slots::new(alloc);
    let body = Body {
        values: values(alloc)?,
        outgoing: Ends::new(alloc),
        incoming: Ends::new(alloc),
    };
    slots.push(ObjId(2), Text::new(alloc, "two")?, ClassId(0), body)?;
    Ok(slots)
}

#[test]
fn objects_of_a_reference_rise(rt: HostRuntime) -> Result<(), Fail> {
    let alloc = rt.alloc();
    let mut ends = Ends::new(alloc);
    for (r, o) in [(4, 7), (2, 9), (4, 3), (4, 7), (3, 1), (4, 5)] {
        ends.insert(RefId(r), ObjId(o))?;
    }
    assert_eq!(rt;
        ends.objects(RefId(4)),
        [ObjId(3), ObjId(5), ObjId(7)].as_slice()
    );
    ends.remove(RefId(4), ObjId(5));
    ends.remove(RefId(2), ObjId(9));
    ends.remove(RefId(3), ObjId(9));
    assert_eq!(rt; ends.objects(RefId(4)), [ObjId(3), ObjId(7)].as_slice());
    assert_eq!(rt; ends.objects(RefId(2)), [].as_slice());
    assert_eq!(rt; ends.objects(RefId(3)), [ObjId(1)].as_slice());
    assert_eq!(rt; ends.objects(RefId(1)), [].as_slice());
    let mut references = Vec::new(alloc);
    for list in ends.as_slice() {
        references.push(list.reference())?;
    }
    assert_eq!(rt;
        references.as_slice(),
        [RefId(2), RefId(3), RefId(4)].as_slice(),
        "a list stays when it is empty"
    );
    Ok(())
}

#[test]
fn an_object_is_found(rt: HostRuntime) -> Result<(), Fail> {
    let mut slots = slots(rt.alloc())?;
    assert!(rt; slots.at(ObjId(2)).is_some_and(|slot| slot.name.is("two")));
    assert!(rt; slots.at(ObjId(1)).is_none());
    assert!(rt;
        slots
            .named("two")
            .is_some_and(|slot| slot.number == ObjId(2))
    );
    assert!(rt; slots.named("t").is_none());
    let last = slots.pop();
    assert!(rt; last.is_some_and(|slot| slot.number == ObjId(2)));
    assert!(rt; slots.pop().is_none());
    assert!(rt; slots.named("two").is_none());
    assert_eq!(rt; slots.len(), 0);
    Ok(())
}

// The objects at the end of an object's links.
fn ends_of(alloc: Global, slots: &Slots, side: Side) -> Result<Vec<ObjId>, NoMemory> {
    let mut found = Vec::new(alloc);
    if let Some(body) = slots.at(ObjId(2)).and_then(|slot| slot.body.as_ref()) {
        found.extend_from_slice(body.ends(side).objects(RefId(1)))?;
    }
    Ok(found)
}

#[test]
fn a_value_of_an_object_is_put(rt: HostRuntime) -> Result<(), Fail> {
    let mut slots = slots(rt.alloc())?;
    let before = slots.put_value(ObjId(2), AttrId(5), Some(Value::Bool(true)));
    assert!(rt; before.is_none());
    let body = slots.take_body(ObjId(2));
    assert!(rt; body.is_some_and(|body| body.values.get(AttrId(5)) == Some(&Value::Bool(true))));
    Ok(())
}

#[test]
fn an_end_stands_on_its_side(rt: HostRuntime) -> Result<(), Fail> {
    let alloc = rt.alloc();
    let mut slots = slots(alloc)?;
    slots.insert_end(ObjId(2), Side::Incoming, RefId(1), ObjId(9))?;
    assert_eq!(rt;
        ends_of(alloc, &slots, Side::Incoming)?.as_slice(),
        [ObjId(9)].as_slice()
    );
    assert_eq!(rt;
        ends_of(alloc, &slots, Side::Outgoing)?.as_slice(),
        [].as_slice()
    );
    slots.remove_end(ObjId(2), Side::Incoming, RefId(1), ObjId(9));
    assert_eq!(rt;
        ends_of(alloc, &slots, Side::Incoming)?.as_slice(),
        [].as_slice()
    );
    Ok(())
}
