// Shared text, seen as its bytes.
ghost use Rattle.std.specs.Prelude.{◌≡◌, ◌↔◌, nat_eq, Some, IsTrue, IfOk, refl};
ghost use Rattle.std.specs.Ordering.{nat_cmp};
ghost use Rattle.std.specs.Cmp.{partial_equiv_from_equiv};
ghost use Rattle.std.specs.Cmp.Lexicographic.{slice_cmp, pointwise, nat_list_eq_equiv, nat_list_cmp_total, texts_po, texts_ties};

use crate::NoMemory;
use std::alloc::Global;
use std::cmp::Ordering;
use std::marker::Model;
use vt_shared::Shared;

/// A text with any number of owners, which nobody changes. Contracts see its bytes, which are
/// UTF-8, and it is compared by them.
#[derive(Debug, Drop)]
pub struct Text {
    shared: Shared<String, Global>,
}

impl Model for Text {
    ghost use Rattle.std.specs.Prelude.{List, ℕ, string_bytes};

    ghost Value = { List ℕ };

    ghost view = { λ t. string_bytes t.shared.value };
}

impl Text {
    /// A text of its own, with these bytes.
    pub fn new(alloc: Global, text: &str) -> Result<Text, NoMemory>
        ensures { IfOk result (λ t. t ≡ text.now) }
    {
        let bytes = String::from_str(alloc, text)?;
        Ok(Text {
            shared: Shared::new(alloc, bytes)?,
        })
    }

    /// The same text, for one more owner. It takes no memory and can't fail.
    pub fn share(&self) -> Text
        ensures { result ≡ self.now }
    {
        Text {
            shared: self.shared.share(),
        }
    }

    pub fn as_str(&self) -> &str
        ensures { result.now ≡ self.now }
    {
        self.shared.get().as_str()
    }

    /// Whether the text has exactly these bytes.
    pub fn is(&self, text: &str) -> bool
        ensures fact { IsTrue result ↔ (self.now ≡ text.now) }
        ensures test { result ≡ pointwise nat_eq self.now text.now }
    {
        self.as_str() == text
    }
}

impl PartialEq for Text {
    ghost eq = { pointwise nat_eq };

    ghost laws = { partial_equiv_from_equiv nat_list_eq_equiv };

    fn eq(&self, other: &Text) -> bool {
        self.as_str() == other.as_str()
    }
}

impl Eq for Text {
    ghost laws = { nat_list_eq_equiv };
}

impl PartialOrd for Text {
    ghost partial_cmp = { λ x y. Some (slice_cmp nat_cmp x y) };

    ghost laws = { texts_po };

    fn partial_cmp(&self, other: &Text) -> Option<Ordering> {
        Some(self.cmp(other))
    }
}

impl Ord for Text {
    ghost cmp = { slice_cmp nat_cmp };

    ghost total = { nat_list_cmp_total };

    ghost matches_partial_cmp = { λ x y. refl };

    ghost matches_eq = { texts_ties };

    fn cmp(&self, other: &Text) -> Ordering {
        self.as_str().cmp(other.as_str())
    }
}
