// The variables of a body, and their numbers.
ghost use Rattle.std.specs.Prelude.{◌≡◌, ◌^◌, ◌<◌, IfOk, OnOk, length, position};
ghost use Rattle.std.specs.List.{list_any};
ghost use Rattle.vt_query.specs.declared.program.Term.TheVariants.{Var};
ghost use Rattle.vt_vql.specs.Scope.{has_name, with_term, number_of, with_constraint, with_constraints};
ghost use Rattle.vt_vql.specs.Resolving.{scope_of};

use crate::{ConstraintTree, ParamTree, TermTree};
use std::alloc::Global;
use vt_base::{List, NoMemory, Text};
use vt_query::Term;

// Whether a variable has the name.
fn has_name(name: &Text, variable: &Option<Text>) -> bool
    ensures { result ≡ has_name name.now variable.now }
{
    match variable {
        Some(own) => own == name,
        None => false,
    }
}

fn place_of(scope: &[Option<Text>], name: &Text) -> Option<usize>
    ensures { result ≡ position (has_name name.now) scope.now }
{
    scope.iter().position(|variable| has_name(name, variable))
}

fn is_known(scope: &[Option<Text>], name: &Text) -> bool
    ensures { result ≡ list_any (has_name name.now) scope.now }
{
    scope.iter().any(|variable| has_name(name, variable))
}

// The number of the variable that a term stands for.
#[tactic(auto, using(crate::proofs::ScopeLemmas::number_small))]
fn number_of(scope: &[Option<Text>], term: &TermTree) -> u16
    requires { length scope.now < 2 ^ 16 }
    ensures { result ≡ number_of scope.now term.now }
{
    match term {
        TermTree::Variable(name) => place_of(scope, name).unwrap_or(scope.len()) as u16,
        TermTree::Blank => scope.len() as u16,
    }
}

// Adds the variable of a term, where it is a new one.
pub(crate) fn add_term(scope: &mut List<Option<Text>>, term: &TermTree) -> Result<(), NoMemory>
    ensures { OnOk result (scope.new ≡ with_term scope.old term.now) }
{
    match term {
        TermTree::Variable(name) => {
            if !is_known(scope.as_slice(), name) {
                scope.add(Some(name.share()))?;
            }
        }
        TermTree::Blank => scope.add(None)?,
    }
    Ok(())
}

/// The variable that a term stands for, which is added where it is a new one.
pub(crate) fn variable(scope: &mut List<Option<Text>>, term: &TermTree) -> Result<Term, NoMemory>
    requires { length scope.old < 2 ^ 16 }
    ensures value { IfOk result (λ t. t ≡ Var (number_of scope.old term.now)) }
    ensures added { OnOk result (scope.new ≡ with_term scope.old term.now) }
{
    let number = number_of(scope.as_slice(), term);
    add_term(scope, term)?;
    Ok(Term::Var(number))
}

/// The parameters as the first variables.
pub(crate) fn scope_of(alloc: Global, params: &[ParamTree]) -> Result<List<Option<Text>>, NoMemory>
    ensures { IfOk result (λ scope. scope ≡ scope_of params.now) }
{
    let mut scope = List::new(alloc);
    for param in params {
        scope.add(Some(param.name.share()))?;
    }
    Ok(scope)
}

// Adds the variables of a constraint.
fn add_constraint(
    scope: &mut List<Option<Text>>,
    constraint: &ConstraintTree,
) -> Result<(), NoMemory>
    ensures { OnOk result (scope.new ≡ with_constraint scope.old constraint.now) }
{
    match constraint {
        ConstraintTree::Type { term, .. } => add_term(scope, term),
        ConstraintTree::Feature { from, to, .. } => {
            add_term(scope, from)?;
            add_term(scope, to)
        }
    }
}

/// How many variables a body has: its parameters, and those of its constraints.
pub(crate) fn variable_count(
    alloc: Global,
    params: &[ParamTree],
    constraints: &[ConstraintTree],
) -> Result<usize, NoMemory>
    ensures { IfOk result (λ count. count ≡ length (with_constraints (scope_of params.now) constraints.now)) }
{
    let mut scope = scope_of(alloc, params)?;
    for constraint in constraints {
        add_constraint(&mut scope, constraint)?;
    }
    Ok(scope.len())
}
