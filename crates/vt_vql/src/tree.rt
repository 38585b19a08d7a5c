// Patterns as they are written.
use vt_base::{List, Text};

/// A query file.
#[derive(Debug, Drop)]
pub struct FileTree {
    pub patterns: List<PatternTree>,
}

/// A pattern.
#[derive(Debug, Drop)]
pub struct PatternTree {
    pub name: Text,
    /// Whether it isn't private.
    pub shown: bool,
    pub params: List<ParamTree>,
    pub constraints: List<ConstraintTree>,
}

/// A parameter, with the name of its type where it is declared with one.
#[derive(Debug, Drop)]
pub struct ParamTree {
    pub name: Text,
    pub ty: Option<Text>,
}

/// A constraint.
#[derive(Debug, Drop)]
pub enum ConstraintTree {
    /// `Type(term)`
    Type {
        ty: Text,
        term: TermTree,
    },
    /// `Class.feature(from, to)`
    Feature {
        class: Text,
        feature: Text,
        from: TermTree,
        to: TermTree,
    },
}

/// A variable by its name, or `_`.
#[derive(Debug, Drop)]
pub enum TermTree {
    Variable(Text),
    Blank,
}
