// The kind of an expression. Nothing here takes memory.
ghost use Rattle.std.specs.Prelude.{◌≡◌, Some, None, IfOk, IfErr};
ghost use Rattle.std.specs.Option.{option_copied};
ghost use Rattle.vt_text.specs.Kinds.{is_kind, of_truths, of_one_kind, of_numbers, kind_given, kind_negative, kind_negation, kind_of};
ghost use Rattle.vt_text.specs.Inside.Chains.{chain_kind};

use crate::{Expr, Operand, Operator};
use thiserror::Error;
use vt_base::Kind;

/// An operator has an operand of a kind that it doesn't take, as in `1 + true`, or a slot has no
/// kind.
#[derive(Clone, Copy, Debug, PartialEq, Eq, Drop, Error)]
#[error("an operator has an operand of another kind")]
pub struct KindClash;

impl Expr {
    /// The kind of the expression over slots of these kinds, or a clash where it has none.
    pub fn kind(&self, kinds: &[Kind]) -> Result<Kind, KindClash>
        ensures kind { IfOk result (λ kind. kind_of self.now kinds.now ≡ Some kind) }
        ensures kind_clash { IfErr result (λ _. kind_of self.now kinds.now ≡ None) }
    {
        match self.kind_of(kinds) {
            Some(kind) => Ok(kind),
            None => Err(KindClash),
        }
    }

    #[cycle(kind)]
    #[tactic(auto, using(crate::proofs::KindLemmas::boxed))]
    fn kind_of(&self, kinds: &[Kind]) -> Option<Kind>
        ensures { result ≡ kind_of self.now kinds.now }
    {
        match self {
            Expr::Bool(_) => Some(Kind::Bool),
            Expr::Int(_) => Some(Kind::Int),
            Expr::Text(_) => Some(Kind::Text),
            Expr::Enum(e, _) => Some(Kind::Enum(*e)),
            Expr::Slot(i) => kinds.get(*i).copied(),
            Expr::Negative(a) => negative(a.get().kind_of(kinds)),
            Expr::Not(a) => negation(a.get().kind_of(kinds)),
            Expr::Chain(first, rest) => chain(first.get().kind_of(kinds), rest.as_slice(), kinds),
        }
    }
}

// The kind of a chain whose first operand has this kind.
#[cycle(kind)]
fn chain(first: Option<Kind>, rest: &[Operand], kinds: &[Kind]) -> Option<Kind>
    ensures { result ≡ chain_kind first rest.now kinds.now }
{
    let mut kind = first;
    for operand in rest {
        kind = given(operand.operator, kind, operand.expr.kind_of(kinds));
    }
    kind
}

fn negative(kind: Option<Kind>) -> Option<Kind>
    ensures { result ≡ kind_negative kind }
{
    match kind {
        Some(Kind::Int) => Some(Kind::Int),
        _ => None,
    }
}

fn negation(kind: Option<Kind>) -> Option<Kind>
    ensures { result ≡ kind_negation kind }
{
    match kind {
        Some(Kind::Bool) => Some(Kind::Bool),
        _ => None,
    }
}

fn is_kind(k: Kind, l: Kind) -> bool
    ensures { result ≡ is_kind k l }
{
    match (k, l) {
        (Kind::Bool, Kind::Bool)
        | (Kind::Int, Kind::Int)
        | (Kind::Text, Kind::Text)
        | (Kind::Obj, Kind::Obj) => true,
        (Kind::Enum(d), Kind::Enum(e)) => d == e,
        _ => false,
    }
}

fn of_truths(k: Option<Kind>, l: Option<Kind>) -> Option<Kind>
    ensures { result ≡ of_truths k l }
{
    match (k, l) {
        (Some(Kind::Bool), Some(Kind::Bool)) => Some(Kind::Bool),
        _ => None,
    }
}

fn of_one_kind(k: Option<Kind>, l: Option<Kind>) -> Option<Kind>
    ensures { result ≡ of_one_kind k l }
{
    match (k, l) {
        (Some(k), Some(l)) if is_kind(k, l) => Some(Kind::Bool),
        _ => None,
    }
}

fn of_numbers(given: Kind, k: Option<Kind>, l: Option<Kind>) -> Option<Kind>
    ensures { result ≡ of_numbers given k l }
{
    match (k, l) {
        (Some(Kind::Int), Some(Kind::Int)) => Some(given),
        _ => None,
    }
}

// What an operator gives of operands of these kinds.
fn given(operator: Operator, k: Option<Kind>, l: Option<Kind>) -> Option<Kind>
    ensures { result ≡ kind_given operator k l }
{
    match operator {
        Operator::Or | Operator::And => of_truths(k, l),
        Operator::Equal | Operator::Differ => of_one_kind(k, l),
        Operator::Less | Operator::AtMost | Operator::Greater | Operator::AtLeast => {
            of_numbers(Kind::Bool, k, l)
        }
        Operator::Plus
        | Operator::Minus
        | Operator::Times
        | Operator::Divided
        | Operator::Remainder => of_numbers(Kind::Int, k, l),
    }
}
