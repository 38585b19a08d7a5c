//! A tree as a text of one line, with all that it keeps: a line behind `@`, an expression as `e`, and
//! what is none as `!`.
use std::alloc::Global;
use std::test::Fail;
use vt_base::{AggKind, Text};
use vt_syntax::{
    AggTree, ArgTree, BodyTree, CallTree, CodeTree, ConstraintTree, FileTree, ParamTree,
    PatternTree, RightTree, TermTree, TypeTree,
};

// ---- terms and types

fn term(alloc: Global, term: &TermTree) -> Result<String, Fail> {
    match term {
        TermTree::Variable(name) => Ok(String::from_str(alloc, name.as_str())?),
        TermTree::Blank => Ok(String::from_str(alloc, "_")?),
        TermTree::Int(n) => Ok(format!(in alloc; "{n}")?),
        TermTree::Text(text) => {
            let text = text.as_str();
            Ok(format!(in alloc; "\"{text}\"")?)
        }
        TermTree::Bool(b) => Ok(format!(in alloc; "{b}")?),
        TermTree::Literal(name, literal) => {
            let (name, literal) = (name.as_str(), literal.as_str());
            Ok(format!(in alloc; "{name}::{literal}")?)
        }
    }
}

fn type_name(alloc: Global, ty: &TypeTree) -> Result<String, Fail> {
    match ty {
        TypeTree::Named(name) => Ok(String::from_str(alloc, name.as_str())?),
        TypeTree::Java(line) => Ok(format!(in alloc; "java@{line}")?),
    }
}

// ---- calls and expressions

fn code(alloc: Global, code: &CodeTree) -> Result<String, Fail> {
    let line = code.line;
    let expr = match &code.expr {
        Some(_) => "e",
        None => "!",
    };
    Ok(format!(in alloc; "@{line}({expr})")?)
}

fn arg(alloc: Global, arg: &ArgTree) -> Result<String, Fail> {
    match arg {
        ArgTree::Term(t) => term(alloc, t),
        ArgTree::Column => Ok(String::from_str(alloc, "#")?),
    }
}

fn call(alloc: Global, call: &CallTree) -> Result<String, Fail> {
    let mut all = String::from_str(alloc, call.pattern.as_str())?;
    if let Some(line) = call.closure {
        all.push_str(format!(in alloc; "@{line}")?.as_str())?;
    }
    all.push('(')?;
    let mut before = "";
    for a in call.args.as_slice() {
        all.push_str(before)?;
        all.push_str(arg(alloc, a)?.as_str())?;
        before = ", ";
    }
    all.push(')')?;
    Ok(all)
}

fn agg(alloc: Global, agg: AggTree) -> Result<String, Fail> {
    match agg {
        AggTree::Of(AggKind::Sum) => Ok(String::from_str(alloc, "sum")?),
        AggTree::Of(AggKind::Min) => Ok(String::from_str(alloc, "min")?),
        AggTree::Of(AggKind::Max) => Ok(String::from_str(alloc, "max")?),
        AggTree::Avg(line) => Ok(format!(in alloc; "avg@{line}")?),
        AggTree::Count(line) => Ok(format!(in alloc; "count@{line}")?),
    }
}

fn right(alloc: Global, right: &RightTree) -> Result<String, Fail> {
    match right {
        RightTree::Term(t) => term(alloc, t),
        RightTree::Eval(c) => {
            let c = code(alloc, c)?;
            let c = c.as_str();
            Ok(format!(in alloc; "eval{c}")?)
        }
        RightTree::Aggregate(a, c) => {
            let mut all = agg(alloc, *a)?;
            all.push_str(" find ")?;
            all.push_str(call(alloc, c)?.as_str())?;
            Ok(all)
        }
    }
}

// ---- constraints

// Two texts with another between them.
fn joined(alloc: Global, left: String, between: &str, right: String) -> Result<String, Fail> {
    let mut all = String::from_str(alloc, left.as_str())?;
    all.push_str(between)?;
    all.push_str(right.as_str())?;
    Ok(all)
}

fn path(
    alloc: Global,
    class: &str,
    features: &[Text],
    from: &TermTree,
    to: &TermTree,
) -> Result<String, Fail> {
    let mut all = String::from_str(alloc, class)?;
    for feature in features {
        all.push('.')?;
        all.push_str(feature.as_str())?;
    }
    all.push('(')?;
    all.push_str(joined(alloc, term(alloc, from)?, ", ", term(alloc, to)?)?.as_str())?;
    all.push(')')?;
    Ok(all)
}

fn constraint(alloc: Global, constraint: &ConstraintTree) -> Result<String, Fail> {
    let none = String::new(alloc);
    match constraint {
        ConstraintTree::Find(c) => joined(alloc, none, "find ", call(alloc, c)?),
        ConstraintTree::Neg(c) => joined(alloc, none, "neg find ", call(alloc, c)?),
        ConstraintTree::Check(c) => joined(alloc, none, "check", code(alloc, c)?),
        ConstraintTree::Type { ty, term: t } => {
            let mut all = joined(alloc, type_name(alloc, ty)?, "(", term(alloc, t)?)?;
            all.push(')')?;
            Ok(all)
        }
        ConstraintTree::Path {
            class,
            features,
            from,
            to,
        } => { path(alloc, class.as_str(), features.as_slice(), from, to) }
        ConstraintTree::Equal(left, r) => joined(
            alloc,
            term(alloc, left)?,
            " == ",
            right(alloc, r)?,
        ),
        ConstraintTree::Differ(left, r) => joined(
            alloc,
            term(alloc, left)?,
            " != ",
            term(alloc, r)?,
        ),
    }
}

// ---- patterns and files

fn body(alloc: Global, body: &BodyTree) -> Result<String, Fail> {
    let mut all = String::from_str(alloc, "{")?;
    for c in body.constraints.as_slice() {
        all.push(' ')?;
        all.push_str(constraint(alloc, c)?.as_str())?;
        all.push(';')?;
    }
    all.push_str(" }")?;
    Ok(all)
}

fn param(alloc: Global, param: &ParamTree) -> Result<String, Fail> {
    let name = String::from_str(alloc, param.name.as_str())?;
    match &param.ty {
        Some(ty) => joined(alloc, name, " : ", type_name(alloc, ty)?),
        None => Ok(name),
    }
}

fn pattern(alloc: Global, pattern: &PatternTree) -> Result<String, Fail> {
    let word = if pattern.shown {
        "pattern "
    } else {
        "private pattern "
    };
    let mut all = String::from_str(alloc, word)?;
    all.push_str(pattern.name.as_str())?;
    all.push('(')?;
    let mut before = "";
    for p in pattern.params.as_slice() {
        all.push_str(before)?;
        all.push_str(param(alloc, p)?.as_str())?;
        before = ", ";
    }
    let mut before = ") ";
    for b in pattern.bodies.as_slice() {
        all.push_str(before)?;
        all.push_str(body(alloc, b)?.as_str())?;
        before = " or ";
    }
    Ok(all)
}

pub(super) fn file(alloc: Global, file: &FileTree) -> Result<String, Fail> {
    let mut all = String::new(alloc);
    let mut before = "";
    for text in file.imports.as_slice() {
        all.push_str(before)?;
        all.push_str("import ")?;
        all.push_str(text.as_str())?;
        before = " ";
    }
    for p in file.patterns.as_slice() {
        all.push_str(before)?;
        all.push_str(pattern(alloc, p)?.as_str())?;
        before = " ";
    }
    Ok(all)
}
