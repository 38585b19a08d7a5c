//! Copies of a program with each kind of constraint.
use std::alloc::Global;
use std::test::Fail;
use vt_base::{
    AggKind, AttrId, ClassId, Kind, List, NoMemory, PatternId, Plain, RefId, Text, Value,
};
use vt_query::{Arg, Body, Constraint, Param, Pattern, Program, Term, Ty};
use vt_text::Expr;

fn add_types_and_features(constraints: &mut List<Constraint>) -> Result<(), NoMemory> {
    constraints.add(Constraint::Is {
        ty: Ty::Class(ClassId(1)),
        term: Term::Var(0),
    })?;
    constraints.add(Constraint::Is {
        ty: Ty::Kind(Kind::Bool),
        term: Term::Var(1),
    })?;
    constraints.add(Constraint::Attr {
        class: ClassId(1),
        attr: AttrId(2),
        from: Term::Var(0),
        to: Term::Var(1),
    })?;
    constraints.add(Constraint::Ref {
        class: ClassId(3),
        reference: RefId(4),
        from: Term::Var(5),
        to: Term::Var(6),
    })
}

fn add_equations(alloc: Global, constraints: &mut List<Constraint>) -> Result<(), NoMemory> {
    let text = Value::Text(Text::new(alloc, "a")?);
    constraints.add(Constraint::Equal(Term::Var(2), Term::Const(text)))?;
    constraints.add(Constraint::Differ(Term::Const(Value::Int(-1)), Term::Var(3)))
}

fn add_calls(alloc: Global, constraints: &mut List<Constraint>) -> Result<(), NoMemory> {
    let terms = vec![in alloc; Term::Var(0), Term::Var(0)]?;
    constraints.add(Constraint::Find {
        pattern: PatternId(1),
        args: List::from_vec(terms),
    })?;
    let open = vec![in alloc; Arg::Term(Term::Var(0)), Arg::Any]?;
    constraints.add(Constraint::Neg {
        pattern: PatternId(2),
        args: List::from_vec(open),
    })?;
    let marked = vec![in alloc; Arg::Term(Term::Var(7)), Arg::Column]?;
    constraints.add(Constraint::Agg {
        kind: AggKind::Max,
        result: Term::Var(1),
        pattern: PatternId(3),
        args: List::from_vec(marked),
    })
}

fn add_expressions(alloc: Global, constraints: &mut List<Constraint>) -> Result<(), NoMemory> {
    let slots = vec![in alloc; 1, 2]?;
    constraints.add(Constraint::Check {
        expr: Expr::Slot(1),
        slots: List::from_vec(slots),
    })?;
    constraints.add(Constraint::Eval {
        result: Term::Var(1),
        expr: Expr::Int(5),
        slots: List::new(alloc),
    })
}

// A body with each kind of constraint.
fn full_body(alloc: Global) -> Result<Body, NoMemory> {
    let mut constraints = List::new(alloc);
    add_types_and_features(&mut constraints)?;
    add_equations(alloc, &mut constraints)?;
    add_calls(alloc, &mut constraints)?;
    add_expressions(alloc, &mut constraints)?;
    Ok(Body {
        vars: 8,
        constraints,
    })
}

fn param(alloc: Global, name: &str, ty: Option<Ty>) -> Result<Param, NoMemory> {
    Ok(Param {
        name: Text::new(alloc, name)?,
        ty,
    })
}

// A private pattern of one body.
fn full_pattern(alloc: Global) -> Result<Pattern, NoMemory> {
    let class = Some(Ty::Class(ClassId(1)));
    let params = vec![in alloc; param(alloc, "a", class)?, param(alloc, "b", None)?]?;
    let bodies = vec![in alloc; full_body(alloc)?]?;
    Ok(Pattern {
        name: Text::new(alloc, "first")?,
        shown: false,
        params: List::from_vec(params),
        bodies: List::from_vec(bodies),
    })
}

// The copy of a program whose only pattern it is.
fn copied(alloc: Global, pattern: Pattern) -> Result<Program, NoMemory> {
    let patterns = vec![in alloc; pattern]?;
    Program {
        patterns: List::from_vec(patterns),
    }
    .copy(alloc)
}

#[test]
fn a_copy_has_the_constraints_of_its_program(rt: HostRuntime) -> Result<(), Fail> {
    let texts = [
        "Is { ty: Class(ClassId(1)), term: Var(0) }",
        "Is { ty: Kind(Bool), term: Var(1) }",
        "Attr { class: ClassId(1), attr: AttrId(2), from: Var(0), to: Var(1) }",
        "Ref { class: ClassId(3), reference: RefId(4), from: Var(5), to: Var(6) }",
        r#"Equal(Var(2), Const(Text(Text { shared: "a" })))"#,
        "Differ(Const(Int(-1)), Var(3))",
        "Find { pattern: PatternId(1), args: List { inner: [Var(0), Var(0)] } }",
        "Neg { pattern: PatternId(2), args: List { inner: [Term(Var(0)), Any] } }",
        "Agg { kind: Max, result: Var(1), pattern: PatternId(3), args: List { inner: [Term(Var(7)), Column] } }",
        "Check { expr: Slot(1), slots: List { inner: [1, 2] } }",
        "Eval { result: Var(1), expr: Int(5), slots: List { inner: [] } }",
    ];
    let copy = copied(rt.alloc(), full_pattern(rt.alloc())?)?;
    let pattern = copy.patterns.get(0).ok_or("no pattern")?;
    let body = pattern.bodies.get(0).ok_or("no body")?;
    assert_eq!(rt; body.vars, 8);
    assert_eq!(rt; body.constraints.len(), texts.len());
    for (constraint, text) in body.constraints.as_slice().iter().zip(texts) {
        assert_eq!(rt; format!(in rt.alloc(); "{constraint:?}")?.as_str(), text);
    }
    Ok(())
}

#[test]
fn a_copy_has_the_patterns_of_its_program(rt: HostRuntime) -> Result<(), Fail> {
    let copy = copied(rt.alloc(), full_pattern(rt.alloc())?)?;
    assert_eq!(rt; copy.patterns.len(), 1);
    let pattern = copy.patterns.get(0).ok_or("no pattern")?;
    assert_eq!(rt; pattern.name.as_str(), "first");
    assert!(rt; !pattern.shown);
    assert_eq!(rt; pattern.bodies.len(), 1);
    let params = [("a", Some(Ty::Class(ClassId(1)))), ("b", None)];
    assert_eq!(rt; pattern.params.len(), params.len());
    for (param, (name, ty)) in pattern.params.as_slice().iter().zip(params) {
        assert_eq!(rt; param.name.as_str(), name);
        assert_eq!(rt; param.ty, ty);
    }
    Ok(())
}
