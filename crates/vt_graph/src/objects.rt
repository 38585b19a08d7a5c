// The objects of a graph.
ghost use Rattle.std.specs.Prelude.{◌≡◌};
ghost use Rattle.std.specs.Option.{option_copied};
ghost use Rattle.vt_graph.specs.Asked.{seen_of, name_at, class_at};

use crate::{Graph, Seen};
use vt_base::{ClassId, ObjId, Text};

impl Graph {
    /// What became of a name.
    pub fn seen(&self, name: &str) -> Seen
        ensures { result ≡ seen_of self.now.model name.now }
    {
        match self.slots.named(name) {
            Some(slot) => match &slot.body {
                Some(_) => Seen::Live(slot.number),
                None => Seen::Gone(slot.number),
            },
            None => Seen::Never,
        }
    }

    /// The name of an object, live or deleted.
    pub fn name_of(&self, o: ObjId) -> Option<&Text>
        ensures { option_copied result ≡ name_at self.now.model o }
    {
        let slot = self.slots.at(o)?;
        Some(&slot.name)
    }

    /// The class of a live object.
    pub fn class_of(&self, o: ObjId) -> Option<ClassId>
        ensures { result ≡ class_at self.now.model o }
    {
        let slot = self.slots.at(o)?;
        match slot.body {
            Some(_) => Some(slot.class),
            None => None,
        }
    }
}
