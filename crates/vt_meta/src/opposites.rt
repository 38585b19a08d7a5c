// Opposites that don't answer, and containments with an opposite that they may not have.
ghost use Rattle.std.specs.Prelude.{◌≡◌, ◌||◌, false};
ghost use Rattle.std.specs.List.{list_any};
ghost use Rattle.std.specs.Option.{option_map_or};
ghost use Rattle.vt_meta.specs.Declarations.{names_opposite, opposite_in, answers};
ghost use Rattle.vt_meta.specs.Faults.{lacks_opposite, is_bad_containment, at_class};

use crate::document::{ClassDocument, ReferenceDocument};
use crate::resolved::Resolved;
use vt_base::Text;
use vt_json::Identifier;

fn names_opposite(name: &Text, opposite: &Option<Identifier>) -> bool
    ensures { result ≡ names_opposite name.now opposite.now }
{
    match opposite {
        Some(other) => other.as_text() == name,
        None => false,
    }
}

// Whether a reference is another one that leads back to a class and names the class's reference.
fn answers(class: &ClassDocument, reference: &ReferenceDocument, other: &ReferenceDocument) -> bool
    ensures { result ≡ answers class.now reference.now other.now }
{
    other.target == *class.name.as_text()
        && names_opposite(reference.name.as_text(), &other.opposite)
        && !(reference.target == *class.name.as_text()
            && other.name.as_text() == reference.name.as_text())
}

fn has_answer(resolved: &Resolved, class: &ClassDocument, reference: &ReferenceDocument) -> bool
    ensures { result ≡ option_map_or (answers class.now reference.now) (opposite_in resolved.now.document reference.now) false }
{
    match resolved.opposite(reference) {
        Some(other) => answers(class, reference, other),
        None => false,
    }
}

fn lacks_opposite(resolved: &Resolved, class: &ClassDocument, reference: &ReferenceDocument) -> bool
    ensures { result ≡ lacks_opposite resolved.now.document class.now reference.now }
{
    reference.opposite.is_some() && !has_answer(resolved, class, reference)
}

fn has_bad_opposite(resolved: &Resolved, class: &ClassDocument) -> bool
    ensures { result ≡ list_any (lacks_opposite resolved.now.document class.now) class.now.references }
{
    class
        .references
        .as_slice()
        .iter()
        .any(|r| lacks_opposite(resolved, class, r))
}

/// The first class with a reference whose opposite isn't there or doesn't answer.
pub(crate) fn bad_opposite_place(resolved: &Resolved) -> Option<usize>
    ensures { result ≡ at_class resolved.now.document (λ n c. list_any (lacks_opposite resolved.now.document c) c.references) }
{
    let document = &resolved.document;
    for (i, class) in document.classes.as_slice().iter().enumerate() {
        if has_bad_opposite(resolved, class) {
            return Some(document.place_of_class(i));
        }
    }
    None
}

fn has_wide_opposite(resolved: &Resolved, reference: &ReferenceDocument) -> bool
    ensures { result ≡ option_map_or (λ s. s.containment || s.many) (opposite_in resolved.now.document reference.now) false }
{
    match resolved.opposite(reference) {
        Some(other) => other.containment || other.many,
        None => false,
    }
}

fn is_bad_containment(resolved: &Resolved, reference: &ReferenceDocument) -> bool
    ensures { result ≡ is_bad_containment resolved.now.document reference.now }
{
    reference.containment && has_wide_opposite(resolved, reference)
}

fn has_bad_containment(resolved: &Resolved, references: &[ReferenceDocument]) -> bool
    ensures { result ≡ list_any (is_bad_containment resolved.now.document) references.now }
{
    references.iter().any(|r| is_bad_containment(resolved, r))
}

/// The first class with a containment whose opposite is a containment or leads to many.
pub(crate) fn bad_containment_place(resolved: &Resolved) -> Option<usize>
    ensures { result ≡ at_class resolved.now.document (λ n c. list_any (is_bad_containment resolved.now.document) c.references) }
{
    let document = &resolved.document;
    for (i, class) in document.classes.as_slice().iter().enumerate() {
        if has_bad_containment(resolved, class.references.as_slice()) {
            return Some(document.place_of_class(i));
        }
    }
    None
}
