// The values that changes give to attributes.
ghost use Rattle.std.specs.Prelude.{◌≡◌, ◌<◌, [], ◌∷◌, IfOk, IfErr, IfSome, Some, is_none, not, option_map, position, true};
ghost use Rattle.vt_facts.specs.Names.{is_name};
ghost use Rattle.vt_model.specs.Assigning.{attribute_of, kind_asked, is_literal, literal_named, has_kind, value_given};
ghost use Rattle.vt_facts.specs.Firsts.{first_of};
ghost use Rattle.vt_model.specs.declared.change.Refusal.TheVariants.{WrongKind, WrongValue};

use vt_base::{AttrId, Kind, Text, Value};
use vt_model::{Feature, Given, Metamodel, Refusal};

fn is_literal(meta: &Metamodel, e: u16, l: u16) -> bool
    ensures { result ≡ is_literal meta.now e l }
{
    match meta.enum_at(e) {
        Some(info) => (l as usize) < info.literals.len(),
        None => false,
    }
}

fn place_of_literal(literals: &[Text], name: &Text) -> Option<usize>
    ensures { result ≡ position (λ literal. is_name literal name.now) literals.now }
{
    literals.iter().position(|literal| *literal == *name)
}

fn place_in_enum(meta: &Metamodel, e: u16, name: &Text) -> Option<usize>
    ensures value { result ≡ literal_named meta.now e name.now }
    ensures few { IfSome result (λ place. place < 1024) }
{
    match meta.enum_at(e) {
        Some(info) => place_of_literal(info.literals.as_slice(), name),
        None => None,
    }
}

// The literal of an enum that a text names.
fn literal_named(meta: &Metamodel, e: u16, name: &Text) -> Option<u16>
    ensures { result ≡ literal_named meta.now e name.now }
{
    let place = place_in_enum(meta, e, name)?;
    Some(place as u16)
}

fn has_kind(meta: &Metamodel, given: &Given, kind: Kind) -> bool
    ensures { result ≡ has_kind meta.now given.now kind }
{
    match (given, kind) {
        (Given::Int(_), Kind::Int) => true,
        (Given::Bool(_), Kind::Bool) => true,
        (Given::Text(_), Kind::Text | Kind::Enum(_)) => true,
        (Given::Literal(d, l), Kind::Enum(e)) => *d == e && is_literal(meta, e, *l),
        _ => false,
    }
}

// The value that an attribute of a kind gets.
fn value_given(meta: &Metamodel, given: &Given, kind: Kind) -> Option<Value>
    ensures { result ≡ value_given meta.now given.now kind }
{
    match (given, kind) {
        (Given::Int(n), Kind::Int) => Some(Value::Int(*n)),
        (Given::Bool(b), Kind::Bool) => Some(Value::Bool(*b)),
        (Given::Text(text), Kind::Text) => Some(Value::Text(text.share())),
        (Given::Text(text), Kind::Enum(e)) => {
            literal_named(meta, e, text).map(|l| Value::Enum(e, l))
        }
        (Given::Literal(_, l), Kind::Enum(e)) => Some(Value::Enum(e, *l)),
        _ => None,
    }
}

// The attribute that a feature is, with its kind.
pub(crate) fn attribute_asked(meta: &Metamodel, feature: Feature) -> Option<(AttrId, Kind)>
    ensures attribute { IfSome result (λ p. attribute_of (Some feature) ≡ Some p.0) }
    ensures kind { option_map (λ p. p.1) result ≡ kind_asked meta.now (Some feature) }
{
    let Feature::Attr(a) = feature else {
        return None;
    };
    let kind = meta.attribute(a)?.kind;
    Some((a, kind))
}

// The value that is given to an attribute of a kind.
pub(crate) fn value_asked(meta: &Metamodel, given: &Given, kind: Kind) -> Result<Value, Refusal>
    ensures fits { IfOk result (λ _. has_kind meta.now given.now kind ≡ true) }
    ensures made { IfOk result (λ v. value_given meta.now given.now kind ≡ Some v) }
    ensures refused { IfErr result (λ why.
        first_of ((not (has_kind meta.now given.now kind), WrongKind)
        ∷ (is_none (value_given meta.now given.now kind), WrongValue)
        ∷ []) ≡ Some why) }
{
    if !has_kind(meta, given, kind) {
        return Err(Refusal::WrongKind);
    }
    match value_given(meta, given, kind) {
        Some(value) => Ok(value),
        None => Err(Refusal::WrongValue),
    }
}
