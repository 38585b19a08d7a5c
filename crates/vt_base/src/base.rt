// What queries ask a model for.
ghost use Rattle.std.specs.Prelude.{◌≡◌, ◌+◌, ◌<◌, ◌≤◌, IfOk, length};
ghost use Rattle.vt_base.specs.Base.{BaseRows};

use crate::{AttrId, ClassId, NoMemory, RefId, Rows, Steps};
use std::alloc::Global;
use std::sync::ledger::Ledger;

/// A model as queries see it: rows of objects, of values and of links. Each call ticks once for each
/// row that it answers.
pub trait Base {
    /// The rows of each class, attribute and reference.
    ghost rows: { Self → BaseRows };

    /// The objects of a class and of the classes below it.
    fn class_rows<L: Ledger>(
        &self,
        alloc: Global,
        c: ClassId,
        steps: &mut Steps<L>,
    ) -> Result<Rows, NoMemory>
        requires there { c.0 < (rows self.now).counts.classes }
        ensures value { IfOk result (λ found. found.items ≡ (rows self.now).of_class c) }
        ensures ticks { IfOk result (λ found. steps.new ≡ steps.old + length found.items) }
        ensures bound { steps.new ≤ steps.old + length ((rows self.now).of_class c) };

    /// Each object with the value that it has for an attribute.
    fn attr_rows<L: Ledger>(
        &self,
        alloc: Global,
        a: AttrId,
        steps: &mut Steps<L>,
    ) -> Result<Rows, NoMemory>
        requires there { a.0 < (rows self.now).counts.attributes }
        ensures value { IfOk result (λ found. found.items ≡ (rows self.now).of_attribute a) }
        ensures ticks { IfOk result (λ found. steps.new ≡ steps.old + length found.items) }
        ensures bound { steps.new ≤ steps.old + length ((rows self.now).of_attribute a) };

    /// Each source with each of its targets for a reference.
    fn ref_rows<L: Ledger>(
        &self,
        alloc: Global,
        r: RefId,
        steps: &mut Steps<L>,
    ) -> Result<Rows, NoMemory>
        requires there { r.0 < (rows self.now).counts.references }
        ensures value { IfOk result (λ found. found.items ≡ (rows self.now).of_reference r) }
        ensures ticks { IfOk result (λ found. steps.new ≡ steps.old + length found.items) }
        ensures bound { steps.new ≤ steps.old + length ((rows self.now).of_reference r) };
}
