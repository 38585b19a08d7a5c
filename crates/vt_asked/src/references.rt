// What a metamodel says of references and of links.
ghost use Rattle.std.specs.Prelude.{◌≡◌, Some};
ghost use Rattle.vt_model.specs.Linking.{is_many, is_containment, opposite_of, has_single_opposite, link_back, oriented};

use vt_base::RefId;
use vt_model::{Link, Metamodel};

pub fn is_many(meta: &Metamodel, r: RefId) -> bool
    ensures { result ≡ is_many meta.now r }
{
    match meta.reference(r) {
        Some(info) => info.many,
        None => false,
    }
}

pub fn is_containment(meta: &Metamodel, r: RefId) -> bool
    ensures { result ≡ is_containment meta.now r }
{
    match meta.reference(r) {
        Some(info) => info.containment,
        None => false,
    }
}

fn opposite_of(meta: &Metamodel, r: RefId) -> Option<RefId>
    ensures { result ≡ opposite_of meta.now r }
{
    meta.reference(r)?.opposite
}

// Whether it has an opposite, which leads to one object at most.
pub fn has_single_opposite(meta: &Metamodel, r: RefId) -> bool
    ensures { result ≡ has_single_opposite meta.now r }
{
    match opposite_of(meta, r) {
        Some(opposite) => !is_many(meta, opposite),
        None => false,
    }
}

// The same two objects by the opposite reference.
pub fn link_back(meta: &Metamodel, link: &Link) -> Option<Link>
    ensures { result ≡ link_back meta.now link.now }
{
    let opposite = opposite_of(meta, link.reference)?;
    Some(Link {
        source: link.target,
        reference: opposite,
        target: link.source,
    })
}

// A link whose opposite is a containment is made as that containment.
pub fn oriented(meta: &Metamodel, link: Link) -> Link
    ensures { result ≡ oriented meta.now link }
{
    match link_back(meta, &link) {
        Some(back) if is_containment(meta, back.reference) => back,
        _ => link,
    }
}
