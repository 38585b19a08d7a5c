// Names that are found in a table.
ghost use Rattle.std.specs.Prelude.{nat_eq};
ghost use Rattle.std.proofs.Common.{ap};
ghost use Rattle.std.specs.Cmp.{partial_equiv_from_equiv};
ghost use Rattle.std.specs.Cmp.Lexicographic.{pointwise, bytes_decides, nat_list_eq_equiv};
ghost use Rattle.std.specs.Hash as fed;

use indexmap::Equivalent;
use std::hash::{Hash, Hasher};
use std::marker::Model;
use vt_base::Text;

/// A name in a table. Contracts see its bytes.
#[derive(Debug, Drop)]
pub(crate) struct Name {
    pub(crate) text: Text,
}

impl Model for Name {
    ghost use Rattle.std.specs.Prelude.{List, ℕ};

    ghost Value = { List ℕ };

    ghost view = { λ n. n.text };
}

impl PartialEq for Name {
    ghost eq = { pointwise nat_eq };

    ghost laws = { partial_equiv_from_equiv nat_list_eq_equiv };

    fn eq(&self, other: &Name) -> bool {
        self.text.as_str() == other.text.as_str()
    }
}

impl Eq for Name {
    ghost laws = { nat_list_eq_equiv };
}

impl Hash for Name {
    ghost hash_input = { fed.str };

    ghost respects_eq = { λ x y h. ap fed.str ((bytes_decides x y).0 h) };

    fn hash<H: Hasher>(&self, state: &mut H) {
        self.text.as_str().hash(state);
    }
}

impl Equivalent<Name> for &str {
    ghost equivalent = { λ q k. pointwise nat_eq q.now k };

    ghost respects_hash = { λ q k h. ap fed.str ((bytes_decides q.now k).0 h) };

    ghost respects_eq = { λ q x y. nat_list_eq_equiv.congr q.now x y };

    fn equivalent(&self, key: &Name) -> bool {
        *self == key.text.as_str()
    }
}
