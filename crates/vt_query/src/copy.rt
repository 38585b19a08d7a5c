// Copies of programs.
use crate::{Arg, Body, Constraint, Param, Pattern, Program, Term, Ty};
use std::alloc::Global;
use vt_base::{NoMemory, Plain};

impl Plain for Ty {
    fn copy(&self, _alloc: Global) -> Result<Ty, NoMemory> {
        Ok(*self)
    }
}

impl Plain for Term {
    fn copy(&self, alloc: Global) -> Result<Term, NoMemory> {
        match self {
            Term::Var(i) => Ok(Term::Var(*i)),
            Term::Const(value) => Ok(Term::Const(value.copy(alloc)?)),
        }
    }
}

impl Plain for Arg {
    fn copy(&self, alloc: Global) -> Result<Arg, NoMemory> {
        match self {
            Arg::Term(term) => Ok(Arg::Term(term.copy(alloc)?)),
            Arg::Any => Ok(Arg::Any),
            Arg::Column => Ok(Arg::Column),
        }
    }
}

impl Plain for Constraint {
    fn copy(&self, alloc: Global) -> Result<Constraint, NoMemory> {
        match self {
            Constraint::Is { ty, term } => Ok(Constraint::Is {
                ty: *ty,
                term: term.copy(alloc)?,
            }),
            Constraint::Attr {
                class,
                attr,
                from,
                to,
            } => Ok(Constraint::Attr {
                class: *class,
                attr: *attr,
                from: from.copy(alloc)?,
                to: to.copy(alloc)?,
            }),
            Constraint::Ref {
                class,
                reference,
                from,
                to,
            } => Ok(Constraint::Ref {
                class: *class,
                reference: *reference,
                from: from.copy(alloc)?,
                to: to.copy(alloc)?,
            }),
            Constraint::Equal(a, b) => Ok(Constraint::Equal(a.copy(alloc)?, b.copy(alloc)?)),
            Constraint::Differ(a, b) => Ok(Constraint::Differ(a.copy(alloc)?, b.copy(alloc)?)),
            Constraint::Find { pattern, args } => Ok(Constraint::Find {
                pattern: *pattern,
                args: args.copy(alloc)?,
            }),
            Constraint::Neg { pattern, args } => Ok(Constraint::Neg {
                pattern: *pattern,
                args: args.copy(alloc)?,
            }),
            Constraint::Check { expr, slots } => Ok(Constraint::Check {
                expr: expr.copy(alloc)?,
                slots: slots.copy(alloc)?,
            }),
            Constraint::Eval {
                result,
                expr,
                slots,
            } => Ok(Constraint::Eval {
                result: result.copy(alloc)?,
                expr: expr.copy(alloc)?,
                slots: slots.copy(alloc)?,
            }),
            Constraint::Agg {
                kind,
                result,
                pattern,
                args,
            } => Ok(Constraint::Agg {
                kind: *kind,
                result: result.copy(alloc)?,
                pattern: *pattern,
                args: args.copy(alloc)?,
            }),
        }
    }
}

impl Plain for Body {
    fn copy(&self, alloc: Global) -> Result<Body, NoMemory> {
        Ok(Body {
            vars: self.vars,
            constraints: self.constraints.copy(alloc)?,
        })
    }
}

impl Plain for Param {
    fn copy(&self, alloc: Global) -> Result<Param, NoMemory> {
        Ok(Param {
            name: self.name.share(),
            ty: self.ty.copy(alloc)?,
        })
    }
}

impl Plain for Pattern {
    fn copy(&self, alloc: Global) -> Result<Pattern, NoMemory> {
        Ok(Pattern {
            name: self.name.share(),
            shown: self.shown,
            params: self.params.copy(alloc)?,
            bodies: self.bodies.copy(alloc)?,
        })
    }
}

impl Plain for Program {
    fn copy(&self, alloc: Global) -> Result<Program, NoMemory> {
        Ok(Program {
            patterns: self.patterns.copy(alloc)?,
        })
    }
}
