// A graph as who knows the names that printed values need.

use crate::Graph;
use vt_base::{Names, ObjId, Text};

impl Names for Graph {
    ghost use Rattle.vt_model.specs.Metamodel.{enum_names};
    ghost use Rattle.vt_graph.specs.Asked.{all_names};

    ghost enums = { λ g. enum_names g.meta };

    ghost objects = { λ g. all_names g.model };

    fn literal_named(&self, enum_name: &str, literal: &str) -> Option<(u16, u16)> {
        self.meta.literal_named(enum_name, literal)
    }

    fn literal_text(&self, e: u16, l: u16) -> Option<(&Text, &Text)> {
        self.meta.literal_text(e, l)
    }

    #[tactic(auto, using(crate::proofs::NameLemmas::object_name_at))]
    fn object_text(&self, o: ObjId) -> Option<&Text> {
        self.name_of(o)
    }
}
