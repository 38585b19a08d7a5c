// Copies of rules.
use crate::{AgendaSpec, Job, Read, Rule, Rules, Statement, Who};
use std::alloc::Global;
use vt_base::{NoMemory, Plain};

impl Plain for Who {
    fn copy(&self, _alloc: Global) -> Result<Who, NoMemory> {
        Ok(*self)
    }
}

impl Plain for Read {
    fn copy(&self, _alloc: Global) -> Result<Read, NoMemory> {
        match self {
            Read::Param(i) => Ok(Read::Param(*i)),
            Read::Attr(i, name) => Ok(Read::Attr(*i, name.share())),
        }
    }
}

impl Plain for Statement {
    fn copy(&self, alloc: Global) -> Result<Statement, NoMemory> {
        match self {
            Statement::Create { class } => Ok(Statement::Create {
                class: class.share(),
            }),
            Statement::Set {
                who,
                attr,
                expr,
                reads,
            } => Ok(Statement::Set {
                who: *who,
                attr: attr.share(),
                expr: expr.copy(alloc)?,
                reads: reads.copy(alloc)?,
            }),
            Statement::Unset { who, attr } => Ok(Statement::Unset {
                who: *who,
                attr: attr.share(),
            }),
            Statement::Link {
                who,
                reference,
                target,
            } => Ok(Statement::Link {
                who: *who,
                reference: reference.share(),
                target: *target,
            }),
            Statement::Unlink {
                who,
                reference,
                target,
            } => Ok(Statement::Unlink {
                who: *who,
                reference: reference.share(),
                target: *target,
            }),
            Statement::Move {
                child,
                parent,
                reference,
            } => Ok(Statement::Move {
                child: *child,
                parent: *parent,
                reference: reference.share(),
            }),
            Statement::Delete { who } => Ok(Statement::Delete { who: *who }),
        }
    }
}

impl Plain for Job {
    fn copy(&self, alloc: Global) -> Result<Job, NoMemory> {
        Ok(Job {
            state: self.state,
            statements: self.statements.copy(alloc)?,
        })
    }
}

impl Plain for Rule {
    fn copy(&self, alloc: Global) -> Result<Rule, NoMemory> {
        Ok(Rule {
            name: self.name.share(),
            agenda: self.agenda,
            pattern: self.pattern,
            priority: self.priority,
            update: self.update,
            delete: self.delete,
            jobs: self.jobs.copy(alloc)?,
        })
    }
}

impl Plain for AgendaSpec {
    fn copy(&self, _alloc: Global) -> Result<AgendaSpec, NoMemory> {
        Ok(AgendaSpec {
            name: self.name.share(),
            kind: self.kind,
        })
    }
}

impl Plain for Rules {
    fn copy(&self, alloc: Global) -> Result<Rules, NoMemory> {
        Ok(Rules {
            agendas: self.agendas.copy(alloc)?,
            rules: self.rules.copy(alloc)?,
        })
    }
}
