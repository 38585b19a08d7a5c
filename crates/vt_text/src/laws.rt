// What holds of every expression.
ghost use Rattle.std.specs.Prelude.{◌≡◌, Bool, List, Option};
ghost use Rattle.vt_base.specs.declared.value.Kind.{Kind};
ghost use Rattle.vt_base.specs.declared.value.Value.{Value};
ghost use Rattle.vt_grammar.specs.Grammar as grammar;
ghost use Rattle.vt_grammar.specs.declared.lexeme.Lexeme.{Lexeme};
ghost use Rattle.vt_text.specs.ExpressionRules.{expression};
ghost use Rattle.vt_text.specs.Expression.{value_of};
ghost use Rattle.vt_text.specs.Kinds.{kind_of, HasKind, AreOfKinds};
ghost use Rattle.vt_text.specs.declared.expr.Expr.{Expr};
ghost use Rattle.vt_text.specs.declared.tree.ExprTree.{ExprTree};

/// Lexemes spell at most one expression.
pub fn one_expression()
    ensures { (attributes : Bool) (ls : List Lexeme) (x y : ExprTree) → grammar.Spells (expression attributes) ls x
        → grammar.Spells (expression attributes) ls y → x ≡ y }
{}

/// Over slots that have values of their kinds, the value of an expression is of its kind.
pub fn values_have_the_kind()
    ensures { (e : Expr) (kinds : List Kind) (values : List (Option Value)) → AreOfKinds kinds values
        → HasKind (kind_of e kinds) (value_of e values) }
{}
