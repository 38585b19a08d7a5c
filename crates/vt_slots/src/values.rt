// The values of one object.
ghost use Rattle.std.specs.Prelude.{◌≡◌};
ghost use Rattle.std.specs.Option.{option_copied};
ghost use Rattle.vt_slots.specs.Values.{AttributesRise, HasPlace, value_in, with_held};
ghost use Rattle.vt_slots.specs.Inside.Place.{IsPlace};

use std::marker::Model;
use std::mem;
use vt_base::{AttrId, Value};

/// The place of an attribute, with its value or without.
#[derive(Debug, Drop)]
pub struct Held {
    pub attribute: AttrId,
    pub value: Option<Value>,
}

/// The values of an object: a place for each attribute that its class has, in rising order.
#[derive(Debug, Drop)]
pub struct Values {
    places: Vec<Held>,
}

impl Model for Values {
    ghost use Rattle.std.specs.Prelude.{List};
    ghost use Rattle.vt_slots.specs.declared.values.Held.{Held};
    ghost use Rattle.vt_slots.specs.Values.{AttributesRise};

    ghost Value = { List Held };

    ghost view = { λ v. v.places.items };

    ghost invariant = { λ v. AttributesRise v.places.items };
}

impl Values {
    /// The values of places that rise already. It takes no memory.
    pub fn new(places: Vec<Held>) -> Values
        requires rises { AttributesRise places.items }
        ensures { result ≡ places.items }
    {
        Values { places }
    }

    pub fn as_slice(&self) -> &[Held]
        ensures value { result.now ≡ self.now }
        ensures rises { AttributesRise result.now }
    {
        self.places.as_slice()
    }

    /// The value of an attribute. `None` is of one without a value, and of one without a place.
    #[tactic(auto, using(crate::proofs::PlaceLemmas::inside_stands, crate::proofs::PlaceLemmas::find_goes))]
    pub fn get(&self, a: AttrId) -> Option<&Value>
        ensures { option_copied result ≡ value_in self.now a }
    {
        match place_of(self.places.as_slice(), a) {
            Ok(i) => self.places[i].value.as_ref(),
            Err(_) => None,
        }
    }

    /// Puts a value, or none, at an attribute's place. The answer is what was there.
    #[tactic(auto, using(crate::proofs::PlaceLemmas::inside_stands))]
    pub fn put(&mut self, a: AttrId, value: Option<Value>) -> Option<Value>
        requires there { HasPlace self.old a }
        ensures taken { result ≡ value_in self.old a }
        ensures put { self.new ≡ with_held self.old a value }
    {
        match place_of(self.places.as_slice(), a) {
            Ok(i) => mem::replace(&mut self.places[i].value, value),
            Err(_) => None,
        }
    }
}

// Where the place of an attribute stands, or else where it would.
#[tactic(auto, using(crate::proofs::PlaceLemmas::placed))]
fn place_of(places: &[Held], a: AttrId) -> Result<usize, usize>
    requires { AttributesRise places.now }
    ensures { IsPlace (λ h. h.attribute.0) a.0 places.now result }
{
    places.binary_search_by_key(&a.0, |held| held.attribute.0)
}
