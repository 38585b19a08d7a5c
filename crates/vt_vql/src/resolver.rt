// What patterns make over a metamodel: names as numbers, and a program of them.
ghost use Rattle.std.specs.Prelude.{◌≡◌, ◌+◌, ◌*◌, ◌^◌, ◌≤◌, ◌<◌, IfOk, OnOk, Some, None, length};
ghost use Rattle.vt_model.specs.Metamodel.{class_named, feature};
ghost use Rattle.vt_query.specs.declared.program.Term.TheVariants.{Var};
ghost use Rattle.vt_vql.specs.Scope.{with_constraint, with_constraints};
ghost use Rattle.vt_vql.specs.Resolving.{all_of, type_of, param_of, declared, declared_from, with_feature, constraint_of, constraints_from, scope_of, pattern_of};
ghost use Rattle.vt_vql.specs.Inside.Resolved.{Makes};
ghost use Rattle.vt_facts.specs.Parts.{with_front};

use crate::fault::Stuck;
use crate::scope::{scope_of, variable};
use crate::{ConstraintTree, ParamTree, PatternTree};
use std::alloc::Global;
use vt_base::{ClassId, List, NoMemory, Text};
use vt_meta::{Feature, Metamodel};
use vt_query::{Body, Constraint, Param, Pattern, Term, Ty};

// ---- parameters

fn class(meta: &Metamodel, name: &Text) -> Result<ClassId, Stuck>
    ensures { Makes result (class_named meta.now name.now) }
{
    match meta.class_named(name.as_str()) {
        Some(class) => Ok(class),
        None => Err(Stuck::NotNarrow),
    }
}

fn declared_type(meta: &Metamodel, name: &Option<Text>) -> Result<Option<Ty>, Stuck>
    ensures { Makes result (type_of meta.now name.now) }
{
    match name {
        Some(name) => {
            let class = class(meta, name)?;
            Ok(Some(Ty::Class(class)))
        }
        None => Ok(None),
    }
}

fn param(meta: &Metamodel, tree: &ParamTree) -> Result<Param, Stuck>
    ensures { Makes result (param_of meta.now tree.now) }
{
    let ty = declared_type(meta, &tree.ty)?;
    Ok(Param {
        name: tree.name.share(),
        ty,
    })
}

fn params(alloc: Global, meta: &Metamodel, trees: &[ParamTree]) -> Result<List<Param>, Stuck>
    ensures count { IfOk result (λ params. length params ≡ length trees.now) }
    ensures makes { Makes result (all_of (param_of meta.now) trees.now) }
{
    let mut params = List::new(alloc);
    for tree in trees {
        params.add(param(meta, tree)?)?;
    }
    Ok(params)
}

// The declared types as constraints.
fn declared(alloc: Global, params: &[Param]) -> Result<List<Constraint>, NoMemory>
    requires { length params.now ≤ 16 }
    ensures { IfOk result (λ constraints. constraints ≡ declared_from 0 params.now) }
{
    let mut constraints = List::new(alloc);
    for (i, param) in params.iter().enumerate() {
        if let Some(ty) = param.ty {
            constraints.add(Constraint::Is {
                ty,
                term: Term::Var(i as u16),
            })?;
        }
    }
    Ok(constraints)
}

// ---- constraints

fn feature(meta: &Metamodel, class: ClassId, name: &Text) -> Result<Feature, Stuck>
    ensures { Makes result (feature meta.now class name.now) }
{
    match meta.feature(class, name.as_str()) {
        Some(feature) => Ok(feature),
        None => Err(Stuck::NotNarrow),
    }
}

fn with_feature(class: ClassId, feature: Feature, from: Term, to: Term) -> Constraint
    ensures { result ≡ with_feature class feature from to }
{
    match feature {
        Feature::Attr(attr) => Constraint::Attr {
            class,
            attr,
            from,
            to,
        },
        Feature::Ref(reference) => Constraint::Ref {
            class,
            reference,
            from,
            to,
        },
    }
}

// A constraint over the variables so far, and over those that it adds.
#[tactic(auto, using(crate::proofs::ScopeLemmas::term_adds_one))]
fn constraint(
    meta: &Metamodel,
    scope: &mut List<Option<Text>>,
    tree: &ConstraintTree,
) -> Result<Constraint, Stuck>
    requires { length scope.old + 2 < 2 ^ 16 }
    ensures makes { Makes result (constraint_of meta.now scope.old tree.now) }
    ensures scope { OnOk result (scope.new ≡ with_constraint scope.old tree.now) }
{
    match tree {
        ConstraintTree::Type { ty, term } => {
            let class = class(meta, ty)?;
            let term = variable(scope, term)?;
            Ok(Constraint::Is {
                ty: Ty::Class(class),
                term,
            })
        }
        ConstraintTree::Feature {
            class: class_name,
            feature: feature_name,
            from,
            to,
        } => {
            let class = class(meta, class_name)?;
            let feature = feature(meta, class, feature_name)?;
            let from = variable(scope, from)?;
            let to = variable(scope, to)?;
            Ok(with_feature(class, feature, from, to))
        }
    }
}

// The constraints of a body, added to those before them.
#[tactic(auto, using(crate::proofs::ScopeLemmas::constraint_adds_two))]
fn constraints(
    meta: &Metamodel,
    before: List<Constraint>,
    scope: &mut List<Option<Text>>,
    trees: &[ConstraintTree],
) -> Result<List<Constraint>, Stuck>
    requires { length scope.old + 2 * length trees.now + 2 < 2 ^ 16 }
    ensures makes { Makes result (with_front before (constraints_from meta.now scope.old trees.now)) }
    ensures scope { OnOk result (scope.new ≡ with_constraints scope.old trees.now) }
    ensures small { OnOk result (length scope.new + 2 < 2 ^ 16) }
{
    let mut all = before;
    for tree in trees {
        all.add(constraint(meta, scope, tree)?)?;
    }
    Ok(all)
}

/// The pattern that a tree makes, of few parameters and constraints.
pub(crate) fn pattern(alloc: Global, meta: &Metamodel, tree: &PatternTree) -> Result<Pattern, Stuck>
    requires params { length tree.now.params ≤ 16 }
    requires constraints { length tree.now.constraints ≤ 128 }
    ensures { Makes result (pattern_of meta.now tree.now) }
{
    let params = params(alloc, meta, tree.params.as_slice())?;
    let mut scope = scope_of(alloc, tree.params.as_slice())?;
    let declared = declared(alloc, params.as_slice())?;
    let constraints = constraints(meta, declared, &mut scope, tree.constraints.as_slice())?;
    let mut bodies = List::new(alloc);
    bodies.add(Body {
        vars: scope.len() as u16,
        constraints,
    })?;
    Ok(Pattern {
        name: tree.name.share(),
        shown: tree.shown,
        params,
        bodies,
    })
}
