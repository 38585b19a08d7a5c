// Tuples of values.
ghost use Rattle.std.specs.Prelude.{◌≡◌, ◌↔◌, ◌≤◌, [], IfOk, IsOk, IsTrue, length, slice_get, refl};
ghost use Rattle.std.specs.Option.{option_copied};
ghost use Rattle.std.specs.Ordering.{eq_by_cmp, as_partial_cmp};
ghost use Rattle.std.specs.Cmp.{partial_equiv_from_equiv, partial_order_from_total};
ghost use Rattle.std.proofs.lemmas.Cmp.{eq_by_cmp_equiv};
ghost use Rattle.vt_base.specs.Order.{tuple_cmp};
ghost use Rattle.vt_base.specs.Inside.OrderLaws.{IsTotalOrder-tuple_cmp};

use crate::{NoMemory, Value};
use smallvec::SmallVec;
use std::alloc::Global;
use std::cmp::Ordering;
use std::marker::Model;

/// A list of values that nobody changes: a row of a table, or what a match gives its parameters.
/// Tuples are ordered value by value.
#[derive(Debug, Drop)]
pub struct Tuple {
    values: SmallVec<Value, 4>,
}

impl Model for Tuple {
    ghost use Rattle.std.specs.Prelude.{List};
    ghost use Rattle.vt_base.specs.declared.value.Value.{Value as Item};

    ghost Value = { List Item };

    ghost view = { λ t. t.values.items };
}

impl Tuple {
    /// A tuple of its own, with these values. Texts in it are shared.
    pub fn from_slice(alloc: Global, values: &[Value]) -> Result<Tuple, NoMemory>
        ensures made { IfOk result (λ t. t ≡ values.now) }

        // Up to four values take no memory.
        ensures succeeds { length values.now ≤ 4 → IsOk result }
    {
        let mut shared = SmallVec::new(alloc);
        shared.reserve(values.len())?;
        for value in values {
            shared.push_reserved(value.share());
        }
        Ok(Tuple { values: shared })
    }

    /// The value at a place, counted from 0. `None` is of a place past the end alone.
    pub fn get(&self, i: usize) -> Option<&Value>
        ensures { option_copied result ≡ slice_get self.now i }
    {
        self.as_slice().get(i)
    }

    pub fn len(&self) -> usize
        ensures { result ≡ length self.now }
    {
        self.values.len()
    }

    pub fn is_empty(&self) -> bool
        ensures { IsTrue result ↔ (self.now ≡ []) }
    {
        self.values.is_empty()
    }

    pub fn as_slice(&self) -> &[Value]
        ensures { result.now ≡ self.now }
    {
        self.values.as_slice()
    }

    /// The order of tuples.
    pub fn compare(&self, other: &Tuple) -> Ordering
        ensures { result ≡ tuple_cmp self.now other.now }
    {
        self.as_slice().cmp(other.as_slice())
    }
}

impl PartialEq for Tuple {
    ghost eq = { eq_by_cmp tuple_cmp };

    ghost laws = { partial_equiv_from_equiv (eq_by_cmp_equiv IsTotalOrder-tuple_cmp) };

    fn eq(&self, other: &Tuple) -> bool {
        self.compare(other).is_eq()
    }
}

impl Eq for Tuple {
    ghost laws = { eq_by_cmp_equiv IsTotalOrder-tuple_cmp };
}

impl PartialOrd for Tuple {
    ghost partial_cmp = { as_partial_cmp tuple_cmp };

    ghost laws = { partial_order_from_total IsTotalOrder-tuple_cmp };

    fn partial_cmp(&self, other: &Tuple) -> Option<Ordering> {
        Some(self.compare(other))
    }
}

impl Ord for Tuple {
    ghost cmp = { tuple_cmp };

    ghost total = { IsTotalOrder-tuple_cmp };

    ghost matches_partial_cmp = { λ _ _. refl };

    ghost matches_eq = { λ _ _. refl };

    fn cmp(&self, other: &Tuple) -> Ordering {
        self.compare(other)
    }
}
