// Whether patterns are narrow, and the program that narrow ones make.
ghost use Rattle.std.specs.Prelude.{◌≡◌, ◌+◌, ◌++◌, ◌≤◌, ◌<◌, ◌==◌, ◌&&◌, IfOk, OnOk, true, Some, None, length, map, filter, flat_map, is_some};
ghost use Rattle.std.specs.List.{list_all, list_any};
ghost use Rattle.vt_facts.specs.Names.{is_distinct};
ghost use Rattle.vt_vql.specs.Resolving.{all_of, is_kind, use_of, kind_of_attribute, uses_of, agree, all_agree, each_stands, has_few_constraints, has_few_variables, has_known_uses, has_kinds, narrow_pattern, narrow_program};
ghost use Rattle.vt_vql.specs.Inside.Resolved.{Makes};

use crate::fault::Stuck;
use crate::resolver::pattern;
use crate::scope::variable_count;
use crate::{FileTree, ParamTree, PatternTree};
use std::alloc::Global;
use vt_base::{AttrId, Kind, List, NoMemory, Text};
use vt_meta::Metamodel;
use vt_query::{Body, Constraint, Pattern, Program, Term, Ty};

const MOST_PATTERNS: usize = 512;

const MOST_PARAMS: usize = 16;

const MOST_CONSTRAINTS: usize = 128;

const MOST_VARIABLES: usize = 64;

/// A variable stands where a value of this kind does.
#[derive(Clone, Copy, Debug)]
pub(crate) struct Use {
    pub variable: u16,
    pub kind: Kind,
}

// ---- kinds

fn is_kind(a: Kind, b: Kind) -> bool
    ensures { result ≡ is_kind a b }
{
    match (a, b) {
        (Kind::Bool, Kind::Bool)
        | (Kind::Int, Kind::Int)
        | (Kind::Text, Kind::Text)
        | (Kind::Obj, Kind::Obj) => true,
        (Kind::Enum(d), Kind::Enum(e)) => d == e,
        _ => false,
    }
}

fn add_use(uses: &mut List<Use>, term: &Term, kind: Kind) -> Result<(), NoMemory>
    ensures { OnOk result (uses.new ≡ uses.old ++ use_of term.now kind) }
{
    if let Term::Var(variable) = term {
        uses.add(Use {
            variable: *variable,
            kind,
        })?;
    }
    Ok(())
}

fn kind_of_attribute(meta: &Metamodel, a: AttrId) -> Kind
    ensures { result ≡ kind_of_attribute meta.now a }
{
    match meta.attribute(a) {
        Some(info) => info.kind,
        None => Kind::Obj,
    }
}

// Adds what the terms of a constraint stand for.
fn add_uses(uses: &mut List<Use>, meta: &Metamodel, constraint: &Constraint) -> Result<(), NoMemory>
    ensures { OnOk result (uses.new ≡ uses.old ++ uses_of meta.now constraint.now) }
{
    match constraint {
        Constraint::Is {
            ty: Ty::Class(_),
            term,
        } => add_use(uses, term, Kind::Obj),
        Constraint::Attr { attr, from, to, .. } => {
            add_use(uses, from, Kind::Obj)?;
            add_use(uses, to, kind_of_attribute(meta, *attr))
        }
        Constraint::Ref { from, to, .. } => {
            add_use(uses, from, Kind::Obj)?;
            add_use(uses, to, Kind::Obj)
        }
        _ => Ok(()),
    }
}

fn uses(alloc: Global, meta: &Metamodel, constraints: &[Constraint]) -> Result<List<Use>, NoMemory>
    ensures { IfOk result (λ uses. uses ≡ flat_map (uses_of meta.now) constraints.now) }
{
    let mut uses = List::new(alloc);
    for constraint in constraints {
        add_uses(&mut uses, meta, constraint)?;
    }
    Ok(uses)
}

fn agree(u: Use, v: Use) -> bool
    ensures { result ≡ agree u v }
{
    u.variable != v.variable || is_kind(u.kind, v.kind)
}

fn agrees_with_all(u: Use, uses: &[Use]) -> bool
    ensures { result ≡ list_all (agree u) uses.now }
{
    uses.iter().all(|v| agree(u, *v))
}

// Whether no variable has two kinds.
fn all_agree(uses: &[Use]) -> bool
    ensures { result ≡ all_agree uses.now }
{
    uses.iter().all(|u| agrees_with_all(*u, uses))
}

fn stands(variable: u16, uses: &[Use]) -> bool
    ensures { result ≡ list_any (λ u. u.variable == variable) uses.now }
{
    uses.iter().any(|u| u.variable == variable)
}

// Whether each of the first variables stands in a constraint.

fn each_stands(count: u16, uses: &[Use]) -> bool
    ensures { result ≡ each_stands count uses.now }
{
    for variable in 0..count {
        if !stands(variable, uses) {
            return false;
        }
    }
    true
}

// Whether no variable of a body has two kinds, and each has one.
fn has_known_uses(alloc: Global, meta: &Metamodel, body: &Body) -> Result<bool, NoMemory>
    ensures { IfOk result (λ known. known ≡ has_known_uses meta.now body.now) }
{
    let uses = uses(alloc, meta, body.constraints.as_slice())?;
    Ok(all_agree(uses.as_slice()) && each_stands(body.vars, uses.as_slice()))
}

fn has_kinds(alloc: Global, meta: &Metamodel, pattern: &Pattern) -> Result<bool, NoMemory>
    ensures { IfOk result (λ known. known ≡ has_kinds meta.now pattern.now) }
{
    for body in pattern.bodies.as_slice() {
        if !has_known_uses(alloc, meta, body)? {
            return Ok(false);
        }
    }
    Ok(true)
}

// ---- names and limits

fn is_distinct(names: &[Text]) -> bool
    ensures { result ≡ is_distinct names.now }
{
    for (i, name) in names.iter().enumerate() {
        if names[i + 1..].contains(name) {
            return false;
        }
    }
    true
}

fn param_names(alloc: Global, params: &[ParamTree]) -> Result<List<Text>, NoMemory>
    ensures { IfOk result (λ names. names ≡ map (λ p. p.name) params.now) }
{
    let mut names = List::new(alloc);
    for param in params {
        names.add(param.name.share())?;
    }
    Ok(names)
}

fn pattern_names(alloc: Global, patterns: &[PatternTree]) -> Result<List<Text>, NoMemory>
    ensures { IfOk result (λ names. names ≡ map (λ p. p.name) patterns.now) }
{
    let mut names = List::new(alloc);
    for pattern in patterns {
        names.add(pattern.name.share())?;
    }
    Ok(names)
}

fn typed_count(params: &[ParamTree]) -> usize
    ensures value { result ≡ length (filter (λ p. is_some p.ty) params.now) }
    ensures bounded { result ≤ length params.now }
{
    params.iter().filter(|p| p.ty.is_some()).count()
}

fn has_few_constraints(tree: &PatternTree) -> bool
    ensures { result ≡ has_few_constraints tree.now }
{
    if tree.params.len() > MOST_PARAMS {
        return false;
    }
    let typed = typed_count(tree.params.as_slice());
    tree.constraints.len() <= MOST_CONSTRAINTS - typed
}

// ---- patterns

// What names and limits let through.
fn is_in_order(alloc: Global, tree: &PatternTree) -> Result<bool, NoMemory>
    ensures { IfOk result (λ is. is ≡ (has_few_constraints tree.now && has_few_variables tree.now
        && is_distinct (map (λ q. q.name) tree.now.params))) }
{
    if !has_few_constraints(tree) {
        return Ok(false);
    }
    let count = variable_count(alloc, tree.params.as_slice(), tree.constraints.as_slice())?;
    let names = param_names(alloc, tree.params.as_slice())?;
    Ok(count <= MOST_VARIABLES && is_distinct(names.as_slice()))
}

fn narrow_pattern(alloc: Global, meta: &Metamodel, tree: &PatternTree) -> Result<Pattern, Stuck>
    ensures { Makes result (narrow_pattern meta.now tree.now) }
{
    if !is_in_order(alloc, tree)? {
        return Err(Stuck::NotNarrow);
    }
    let pattern = pattern(alloc, meta, tree)?;
    if !has_kinds(alloc, meta, &pattern)? {
        return Err(Stuck::NotNarrow);
    }
    Ok(pattern)
}

fn narrow_patterns(
    alloc: Global,
    meta: &Metamodel,
    trees: &[PatternTree],
) -> Result<List<Pattern>, Stuck>
    ensures { Makes result (all_of (narrow_pattern meta.now) trees.now) }
{
    let mut patterns = List::new(alloc);
    for tree in trees {
        patterns.add(narrow_pattern(alloc, meta, tree)?)?;
    }
    Ok(patterns)
}

/// The program that a file makes, where it is narrow.
#[tactic(auto, unfolding(crate::specs::Resolving::narrow_program))]
pub(crate) fn narrow_program(
    alloc: Global,
    meta: &Metamodel,
    tree: &FileTree,
) -> Result<Program, Stuck>
    ensures { Makes result (narrow_program meta.now tree.now) }
{
    let trees = tree.patterns.as_slice();
    if trees.len() > MOST_PATTERNS {
        return Err(Stuck::NotNarrow);
    }
    let names = pattern_names(alloc, trees)?;
    if !is_distinct(names.as_slice()) {
        return Err(Stuck::NotNarrow);
    }
    let patterns = narrow_patterns(alloc, meta, trees)?;
    Ok(Program { patterns })
}
