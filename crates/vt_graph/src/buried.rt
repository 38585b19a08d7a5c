// An object that was deleted and may come back.
ghost use Rattle.std.specs.Prelude.{◌≡◌};

use std::marker::Model;
use vt_model::{Metamodel, Object};
use vt_slots::Body;

/// An object that was deleted, with the room for the links that it had. It has no values and no
/// links.
#[derive(Drop)]
pub struct Buried {
    pub(crate) meta: Metamodel,
    pub(crate) object: Object,
    pub(crate) body: Body,
}

impl Model for Buried {
    ghost use Rattle.vt_graph.specs.Held.{Buried};
    ghost use Rattle.vt_graph.specs.Inside.Spare.{IsSpare};

    ghost Value = { Buried };

    ghost view = { λ b. record { meta = b.meta; object = b.object; outgoing = b.body.outgoing; incoming = b.body.incoming } };

    ghost invariant = { λ b. IsSpare b.meta b.object.class b.body };
}

impl Buried {
    /// The object, as it was when it lived.
    pub fn object(&self) -> &Object
        ensures { result.now ≡ self.now.object }
    {
        &self.object
    }
}
