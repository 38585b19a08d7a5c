// Supertypes, kinds and targets that nothing has as its name.
ghost use Rattle.std.specs.Prelude.{◌≡◌, is_none};
ghost use Rattle.std.specs.List.{list_any};
ghost use Rattle.vt_meta.specs.Declarations.{class_place, kind_named};
ghost use Rattle.vt_meta.specs.Faults.{has_unknown_type, at_class};

use crate::document::{AttributeDocument, ClassDocument, ReferenceDocument};
use crate::resolved::Resolved;
use vt_json::Identifier;

fn has_unknown_super(resolved: &Resolved, supers: &[Identifier]) -> bool
    ensures { result ≡ list_any (λ s. is_none (class_place resolved.now.document s)) supers.now }
{
    supers
        .iter()
        .any(|s| resolved.class_place(s.as_text()).is_none())
}

fn has_unknown_kind(resolved: &Resolved, attributes: &[AttributeDocument]) -> bool
    ensures { result ≡ list_any (λ a. is_none (kind_named resolved.now.document a.kind)) attributes.now }
{
    attributes.iter().any(|a| !resolved.is_kind(&a.kind))
}

fn has_unknown_target(resolved: &Resolved, references: &[ReferenceDocument]) -> bool
    ensures { result ≡ list_any (λ r. is_none (class_place resolved.now.document r.target)) references.now }
{
    references
        .iter()
        .any(|r| resolved.class_place(&r.target).is_none())
}

fn has_unknown_type(resolved: &Resolved, class: &ClassDocument) -> bool
    ensures { result ≡ has_unknown_type resolved.now.document class.now }
{
    has_unknown_super(resolved, class.supers.as_slice())
        || has_unknown_kind(resolved, class.attributes.as_slice())
        || has_unknown_target(resolved, class.references.as_slice())
}

/// The first class with such a name.
pub(crate) fn unknown_type_place(resolved: &Resolved) -> Option<usize>
    ensures { result ≡ at_class resolved.now.document (λ n c. has_unknown_type resolved.now.document c) }
{
    let document = &resolved.document;
    for (i, class) in document.classes.as_slice().iter().enumerate() {
        if has_unknown_type(resolved, class) {
            return Some(document.place_of_class(i));
        }
    }
    None
}
