// A store as queries see it, and as who knows the names that printed values need.

use crate::Store;
use std::alloc::Global;
use std::sync::ledger::Ledger;
use vt_base::{AttrId, Base, ClassId, Names, NoMemory, ObjId, RefId, Rows, Steps, Text};
use vt_graph::Listed;

impl Base for Store {
    ghost use Rattle.vt_model.specs.Base.{base_of};

    ghost rows = { λ s. base_of s.meta s.model };

    fn class_rows<L: Ledger>(
        &self,
        alloc: Global,
        c: ClassId,
        steps: &mut Steps<L>,
    ) -> Result<Rows, NoMemory> {
        self.graph.rows(alloc, Listed::Class(c), steps)
    }

    fn attr_rows<L: Ledger>(
        &self,
        alloc: Global,
        a: AttrId,
        steps: &mut Steps<L>,
    ) -> Result<Rows, NoMemory> {
        self.graph.rows(alloc, Listed::Attribute(a), steps)
    }

    fn ref_rows<L: Ledger>(
        &self,
        alloc: Global,
        r: RefId,
        steps: &mut Steps<L>,
    ) -> Result<Rows, NoMemory> {
        self.graph.rows(alloc, Listed::Reference(r), steps)
    }
}

impl Names for Store {
    ghost use Rattle.vt_model.specs.Metamodel.{enum_names};
    ghost use Rattle.vt_graph.specs.Asked.{all_names};

    ghost enums = { λ s. enum_names s.meta };

    ghost objects = { λ s. all_names s.model };

    fn literal_named(&self, enum_name: &str, literal: &str) -> Option<(u16, u16)> {
        self.graph.literal_named(enum_name, literal)
    }

    fn literal_text(&self, e: u16, l: u16) -> Option<(&Text, &Text)> {
        self.graph.literal_text(e, l)
    }

    fn object_text(&self, o: ObjId) -> Option<&Text> {
        self.graph.object_text(o)
    }
}
