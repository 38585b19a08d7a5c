//! A copy of rules with a statement of each kind.
use crate::{AgendaSpec, Job, Read, Rule, Rules, Statement, Who};
use std::alloc::Global;
use std::test::Fail;
use vt_base::{List, NoMemory, PatternId, Plain, Policy, State, Text};
use vt_text::Expr;

fn add_objects(alloc: Global, statements: &mut List<Statement>) -> Result<(), NoMemory> {
    statements.add(Statement::Create {
        class: Text::new(alloc, "Book")?,
    })?;
    statements.add(Statement::Move {
        child: Who::Made(0),
        parent: Who::Param(0),
        reference: Text::new(alloc, "books")?,
    })?;
    statements.add(Statement::Delete { who: Who::Param(1) })
}

fn add_values(alloc: Global, statements: &mut List<Statement>) -> Result<(), NoMemory> {
    let mut reads = List::new(alloc);
    reads.add(Read::Param(2))?;
    reads.add(Read::Attr(1, Text::new(alloc, "pages")?))?;
    statements.add(Statement::Set {
        who: Who::Made(0),
        attr: Text::new(alloc, "pages")?,
        expr: Expr::Slot(1),
        reads,
    })?;
    statements.add(Statement::Unset {
        who: Who::Param(1),
        attr: Text::new(alloc, "title")?,
    })
}

fn add_links(alloc: Global, statements: &mut List<Statement>) -> Result<(), NoMemory> {
    statements.add(Statement::Link {
        who: Who::Made(0),
        reference: Text::new(alloc, "twin")?,
        target: Who::Param(1),
    })?;
    statements.add(Statement::Unlink {
        who: Who::Param(0),
        reference: Text::new(alloc, "books")?,
        target: Who::Param(1),
    })
}

fn rule(alloc: Global) -> Result<Rule, NoMemory> {
    let mut statements = List::new(alloc);
    add_objects(alloc, &mut statements)?;
    add_values(alloc, &mut statements)?;
    add_links(alloc, &mut statements)?;
    let mut jobs = List::new(alloc);
    jobs.add(Job {
        state: State::Created,
        statements,
    })?;
    Ok(Rule {
        name: Text::new(alloc, "bump")?,
        agenda: 0,
        pattern: PatternId(3),
        priority: -7,
        update: true,
        delete: false,
        jobs,
    })
}

fn rules(alloc: Global) -> Result<Rules, NoMemory> {
    let mut agendas = List::new(alloc);
    agendas.add(AgendaSpec {
        name: Text::new(alloc, "main")?,
        kind: Policy::Turns,
    })?;
    let mut all = List::new(alloc);
    all.add(rule(alloc)?)?;
    Ok(Rules {
        agendas,
        rules: all,
    })
}

#[test]
fn rules_with_each_statement_can_be_copied(rt: HostRuntime) -> Result<(), Fail> {
    let copy = rules(rt.alloc())?.copy(rt.alloc())?;
    assert!(rt; copy.agendas.len() == 1);
    assert!(rt;
        copy.rules
            .as_slice()
            .iter()
            .all(|rule| rule.jobs.len() == 1)
    );
    Ok(())
}

#[test]
fn a_job_is_that_of_its_state(rt: HostRuntime) -> Result<(), Fail> {
    let rule = rule(rt.alloc())?;
    assert!(rt;
        rule.job(State::Created)
            .is_some_and(|job| job.statements.len() == 7)
    );
    assert!(rt; !rule.has_job(State::Updated));
    Ok(())
}
