// What is made for a new object: its body, and its places in the listings.
ghost use Rattle.std.specs.Prelude.{◌≡◌, ◌<◌, All, IfOk, OnOk, OnErr, length, map};
ghost use Rattle.vt_model.specs.Creating.{default_value};
ghost use Rattle.vt_slots.specs.Values.{AttributesRise};
ghost use Rattle.vt_graph.specs.Inside.Making.{default_place, new_body, changed_at, with_last, without_last};

use crate::plan::AttributePlan;
use std::alloc::Global;
use vt_base::{ClassId, Kind, List, NoMemory, ObjId, Value};
use vt_slots::{Body, Ends, Held, Values};

/// The value that an attribute of a kind has at first. A string has none.
pub fn default_value(kind: Kind) -> Option<Value>
    ensures { result ≡ default_value kind }
{
    match kind {
        Kind::Int => Some(Value::Int(0)),
        Kind::Bool => Some(Value::Bool(false)),
        Kind::Enum(e) => Some(Value::Enum(e, 0)),
        Kind::Text | Kind::Obj => None,
    }
}

fn places_of(alloc: Global, attributes: &[AttributePlan]) -> Result<Vec<Held>, NoMemory>
    ensures { IfOk result (λ places. places.items ≡ map default_place attributes.now) }
{
    let mut places = Vec::new(alloc);
    for plan in attributes {
        places.push(Held {
            attribute: plan.attribute,
            value: default_value(plan.kind),
        })?;
    }
    Ok(places)
}

// A body at its defaults, without links.
pub(crate) fn new_body(alloc: Global, attributes: &[AttributePlan]) -> Result<Body, NoMemory>
    requires { AttributesRise (map default_place attributes.now) }
    ensures { IfOk result (λ body. body ≡ new_body attributes.now) }
{
    let places = places_of(alloc, attributes)?;
    Ok(Body {
        values: Values::new(places),
        outgoing: Ends::new(alloc),
        incoming: Ends::new(alloc),
    })
}

// Adds an object to the listings of classes: to all of them, or to none.
pub(crate) fn list(
    listings: &mut Vec<List<ObjId>>,
    classes: &[ClassId],
    o: ObjId,
) -> Result<(), NoMemory>
    requires { All (λ c. c.0 < length listings.old.items) classes.now }
    ensures listed { OnOk result (listings.new.items ≡ changed_at (with_last o) classes.now listings.old.items) }
    ensures unchanged { OnErr result (listings.new.items ≡ listings.old.items) }
{
    let Some((c, rest)) = classes.split_first() else {
        return Ok(());
    };
    let c = usize::from(c.0);
    listings[c].add(o)?;
    let others = list(listings, rest, o);
    if others.is_err() {
        listings[c].pop();
    }
    others
}

// Takes the last object out of the listings of classes.
pub(crate) fn unlist(listings: &mut Vec<List<ObjId>>, classes: &[ClassId])
    requires { All (λ c. c.0 < length listings.old.items) classes.now }
    ensures { listings.new.items ≡ changed_at without_last classes.now listings.old.items }
{
    for c in classes {
        listings[usize::from(c.0)].pop();
    }
}
