// Query files as they are written.
use vt_base::{AggKind, List, Text};
use vt_text::ExprTree;

/// A query file. Its package means nothing, and isn't kept.
#[derive(Debug, Drop)]
pub struct FileTree {
    /// The texts of the imports.
    pub imports: List<Text>,
    pub patterns: List<PatternTree>,
}

/// A pattern. Its annotations mean nothing, and aren't kept.
#[derive(Debug, Drop)]
pub struct PatternTree {
    pub name: Text,
    /// Whether it isn't private.
    pub shown: bool,
    pub params: List<ParamTree>,
    pub bodies: List<BodyTree>,
}

/// A parameter, with the type that it is declared with, where there is one.
#[derive(Debug, Drop)]
pub struct ParamTree {
    pub name: Text,
    pub ty: Option<TypeTree>,
}

/// A type.
#[derive(Debug, Drop)]
pub enum TypeTree {
    /// A class, a kind or an enum by its name.
    Named(Text),
    /// `java a.b.C`, where the word `java` stands on this line.
    Java(u32),
}

/// A body of a pattern.
#[derive(Debug, Drop)]
pub struct BodyTree {
    pub constraints: List<ConstraintTree>,
}

/// A constraint.
#[derive(Debug, Drop)]
pub enum ConstraintTree {
    /// `find p(a, b)`
    Find(CallTree),
    /// `neg find p(a, _)`
    Neg(CallTree),
    /// `check(e)`
    Check(CodeTree),
    /// `Type(a)`
    Type {
        ty: TypeTree,
        term: TermTree,
    },
    /// `Class.feature.feature(a, b)`
    Path {
        class: Text,
        features: List<Text>,
        from: TermTree,
        to: TermTree,
    },
    /// `a == b`, `a == eval(e)` or `a == sum find p(#)`
    Equal(TermTree, RightTree),
    /// `a != b`
    Differ(TermTree, TermTree),
}

/// What stands to the right of `==`.
#[derive(Debug, Drop)]
pub enum RightTree {
    Term(TermTree),
    /// `eval(e)`
    Eval(CodeTree),
    /// `sum find p(a, #)`
    Aggregate(AggTree, CallTree),
}

/// An aggregate. Two of them aren't supported, and are told by their lines.
#[derive(Clone, Copy, Debug, PartialEq, Eq)]
pub enum AggTree {
    Of(AggKind),
    /// `avg` on this line.
    Avg(u32),
    /// `count` on this line.
    Count(u32),
}

/// What stands between the parentheses of a `check` or an `eval`, and the line of that word. `None`
/// is of what is no expression.
#[derive(Debug, Drop)]
pub struct CodeTree {
    pub line: u32,
    pub expr: Option<ExprTree>,
}

/// A call of a pattern.
#[derive(Debug, Drop)]
pub struct CallTree {
    pub pattern: Text,
    /// The line of a `+` or `*` behind the name, where there is one.
    pub closure: Option<u32>,
    pub args: List<ArgTree>,
}

/// An argument of a call.
#[derive(Debug, Drop)]
pub enum ArgTree {
    Term(TermTree),
    /// `#`, or `#` and a name that means nothing.
    Column,
}

/// A variable by its name, `_`, or a value.
#[derive(Debug, Drop)]
pub enum TermTree {
    Variable(Text),
    Blank,
    Int(i64),
    Text(Text),
    Bool(bool),
    /// `Enum::LITERAL`
    Literal(Text, Text),
}
