//! Query files with the program or the fault that each must give. In a table each line is a case.
mod limits;
mod narrow;
mod refused;

use std::alloc::Global;
use std::process::Abort;
use std::test::Fail;
use vt_base::Plain;
use vt_meta::{Metamodel, read_meta};
use vt_query::{Body, Constraint, Param, Pattern, Program, Term, Ty};
use vt_vql::{QueryFault, read_queries};

// Classes 0 Node and 1 Track; attributes 0 Node.w, 1 Node.find and 2 Track.w; references 0 Node.to,
// 1 Track.from and 2 Track.to.
const RAIL: &str = r#"{"format":1,"uri":"http://rail","classes":[
    {"name":"Node","attributes":[{"name":"w","kind":"int"},{"name":"find","kind":"int"}],
        "references":[{"name":"to","target":"Node","many":true}]},
    {"name":"Track","attributes":[{"name":"w","kind":"int"}],
        "references":[{"name":"from","target":"Node","many":true},{"name":"to","target":"Track","many":true}]}]}"#;

fn rail(alloc: Global) -> Result<Metamodel, Fail> {
    Ok(read_meta(alloc, RAIL.as_bytes())?)
}

fn answer(alloc: Global, bytes: &[u8]) -> Result<Result<Program, QueryFault>, Fail> {
    if bytes.len() >= 1_000_000 {
        return Ok(Err(QueryFault::NoMemory));
    }
    let meta = rail(alloc)?;
    Ok(read_queries(alloc, &meta, bytes))
}

// The program of a file, a line for each pattern, or its fault.
fn outcome(alloc: Global, bytes: &[u8]) -> Result<String, Fail> {
    match answer(alloc, bytes)? {
        Ok(program) => program_text(alloc, &program),
        Err(QueryFault::NotText { place }) => Ok(format!(in alloc; "NotText {place}")?),
        Err(QueryFault::BadToken { line }) => Ok(format!(in alloc; "BadToken {line}")?),
        Err(QueryFault::NotBuilt { place }) => Ok(format!(in alloc; "NotBuilt {place}")?),
        Err(QueryFault::NoMemory) => Ok(String::from_str(alloc, "no memory")?),
    }
}

// ---- a program as a text

fn number_of(term: &Term) -> u16 {
    match term {
        Term::Var(variable) => *variable,
        Term::Const(_) => u16::MAX,
    }
}

// The kind of constraint, the numbers of class and feature, and those of the variables.
fn constraint_text(alloc: Global, constraint: &Constraint) -> Result<String, Fail> {
    let text = match constraint {
        Constraint::Is {
            ty: Ty::Class(class),
            term,
        } => {
            let class = class.0;
            let of = number_of(term);
            format!(in alloc; " is {class} {of};")?
        }
        Constraint::Attr {
            class,
            attr,
            from,
            to,
        } => {
            let class = class.0;
            let attr = attr.0;
            let from = number_of(from);
            let to = number_of(to);
            format!(in alloc; " attr {class}.{attr} {from} {to};")?
        }
        Constraint::Ref {
            class,
            reference,
            from,
            to,
        } => {
            let class = class.0;
            let reference = reference.0;
            let from = number_of(from);
            let to = number_of(to);
            format!(in alloc; " ref {class}.{reference} {from} {to};")?
        }
        _ => String::from_str(alloc, " another;")?,
    };
    Ok(text)
}

fn param_text(alloc: Global, param: &Param) -> Result<String, Fail> {
    let name = param.name.as_str();
    match param.ty {
        Some(Ty::Class(class)) => {
            let class = class.0;
            Ok(format!(in alloc; " {name}:{class}")?)
        }
        Some(Ty::Kind(_)) => Ok(format!(in alloc; " {name}:kind")?),
        None => Ok(format!(in alloc; " {name}")?),
    }
}

// How many variables there are, then the constraints.
fn body_text(alloc: Global, body: &Body) -> Result<String, Fail> {
    let vars = body.vars;
    let mut all = format!(in alloc; " | {vars}:")?;
    for constraint in body.constraints.as_slice() {
        all.push_str(constraint_text(alloc, constraint)?.as_str())?;
    }
    Ok(all)
}

fn pattern_text(alloc: Global, pattern: &Pattern) -> Result<String, Fail> {
    let mut all = String::from_str(alloc, if pattern.shown { "" } else { "private " })?;
    all.push_str(pattern.name.as_str())?;
    for param in pattern.params.as_slice() {
        all.push_str(param_text(alloc, param)?.as_str())?;
    }
    for body in pattern.bodies.as_slice() {
        all.push_str(body_text(alloc, body)?.as_str())?;
    }
    all.push_str("\n")?;
    Ok(all)
}

fn program_text(alloc: Global, program: &Program) -> Result<String, Fail> {
    let mut all = String::new(alloc);
    for pattern in program.patterns.as_slice() {
        all.push_str(pattern_text(alloc, pattern)?.as_str())?;
    }
    Ok(all)
}

// ---- tables

// A line of a table, in which a picture of a control character stands for that character.
fn unpictured(alloc: Global, line: &str) -> Result<String, Fail> {
    let mut text = String::new(alloc);
    for c in line.chars() {
        text.push(match c {
            '␉' => '\t',
            '␊' => '\n',
            '␍' => '\r',
            c => c,
        })?;
    }
    Ok(text)
}

// Each line of a table has a file, and its program or its fault.
fn answer_all(rt: &impl Abort, alloc: Global, table: &str) -> Result<(), Fail> {
    for line in table.lines() {
        let case = unpictured(alloc, line)?;
        let (text, answer) = case.as_str().split_once('→').ok_or("no answer")?;
        assert_eq!(rt; outcome(alloc, text.as_bytes())?.as_str(), answer, "{line}");
    }
    Ok(())
}
