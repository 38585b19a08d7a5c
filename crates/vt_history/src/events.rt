// What a step does to a pattern's matches.
ghost use Rattle.std.specs.Prelude.{◌≡◌, ◌&&◌, filter, IfOk};
ghost use Rattle.vt_base.specs.Rows.{Ascends, has_row};
ghost use Rattle.vt_model.specs.Model.{Model};
ghost use Rattle.vt_model.specs.Touched.{AreTouched, Rise};
ghost use Rattle.vt_history.specs.Events.{AreEvents};
ghost use Rattle.vt_history.specs.Report.{HoldLive};
ghost use Rattle.vt_history.specs.Inside.Touching.{is_one, touches};

use crate::PatternEvents;
use std::alloc::Global;
use vt_base::{NoMemory, ObjId, PatternId, Plain, Rows, Tuple, Value};
use vt_delta::Delta;

fn is_one(objects: &[ObjId], value: &Value) -> bool
    requires rise { Rise objects.now }
    ensures { result ≡ is_one objects.now value.now }
{
    match value {
        Value::Obj(o) => objects.binary_search(o).is_ok(),
        _ => false,
    }
}

// Whether a tuple holds one of the objects.
fn touches(objects: &[ObjId], row: &Tuple) -> bool
    requires rise { Rise objects.now }
    ensures { result ≡ touches objects.now row.now }
{
    row.as_slice().iter().any(|value| is_one(objects, value))
}

// The rows of both sets that hold one of the objects.
fn updated(alloc: Global, before: &Rows, after: &Rows, touched: &[ObjId]) -> Result<Rows, NoMemory>
    requires rise { Rise touched.now }
    ensures { IfOk result (λ rows. rows.items
        ≡ filter (λ row. touches touched.now row && has_row before.now.items row) after.now.items) }
{
    let mut found = Vec::new(alloc);
    let mut walk = after.walk();
    while let Some(row) = walk.next() {
        if touches(touched, row) && before.contains(row) {
            found.push(row.copy(alloc)?)?;
        }
    }
    Rows::from_ascending(alloc, found)
}

// Every set of rows ascends.
fn ascends(rows: &Rows)
    ensures { Ascends rows.now.items }
{
    rows.walk();
}

impl PatternEvents {
    /// What happened to a pattern whose matches were the first rows and are the second, in a step
    /// that gave these objects other values.
    pub fn between(
        alloc: Global,
        pattern: PatternId,
        before: &Rows,
        after: &Rows,
        touched: &[ObjId],
    ) -> Result<PatternEvents, NoMemory>
        requires rise { Rise touched.now }
        ensures pattern { IfOk result (λ events. events.pattern ≡ pattern) }
        ensures events { IfOk result (λ events. (g h : Model) → AreTouched g h touched.now
            → HoldLive g before.now.items → HoldLive h after.now.items
            → AreEvents g h before.now.items after.now.items events) }
    {
        let delta = Delta::net(alloc, before, after)?;
        let updated = updated(alloc, before, after, touched)?;
        ascends(&delta.added);
        ascends(&delta.removed);
        ascends(&updated);
        Ok(PatternEvents {
            pattern,
            added: delta.added,
            removed: delta.removed,
            updated,
        })
    }
}
